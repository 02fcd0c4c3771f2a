//! Texts written completely, or up to the first failed write.
ghost use Rattle.counted_io.specs.Writing.{WritesText};

use crate::counting::CountedWrite;
use refusals::{Fault, Refusal};
use thiserror::Error;

/// Why a text wasn't written completely.
#[derive(Clone, Copy, Debug, PartialEq, Eq, Error)]
pub enum WriteFault {
    #[error("a write failed")]
    Write,
    #[error("a write took no byte")]
    WriteZero,
}

impl Fault for WriteFault {
    ghost use Rattle.counted_io.specs.Writing.{refusal};

    ghost refusal_of = { refusal };

    fn refusal(&self) -> Refusal {
        match self {
            WriteFault::Write => Refusal::io(60, "Write"),
            WriteFault::WriteZero => Refusal::io(61, "WriteZero"),
        }
    }
}

/// Writes the text with as many writes as it needs. A failed write isn't retried, not even after `Interrupted`, and nothing is flushed.
pub fn write_text<W: CountedWrite>(out: &mut W, text: &[u8]) -> Result<(), WriteFault>
    ensures { WritesText text.now result (W.writer out.old) (W.writer out.new) }
{
    let mut rest = text;
    while !rest.is_empty() {
        match out.write_counted(rest) {
            Ok(0) => return Err(WriteFault::WriteZero),
            Ok(count) => rest = &rest[count..],
            Err(_) => return Err(WriteFault::Write),
        }
    }
    Ok(())
}

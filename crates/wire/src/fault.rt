//! Why a connection wasn't served.
ghost use Rattle.std.specs.Prelude.{◌≡◌};
ghost use Rattle.wire.specs.WireFault.{of_write};

use counted_io::WriteFault;
use refusals::{Fault, Refusal};
use thiserror::Error;

/// Why a connection got no reply, or only a part of one.
#[derive(Clone, Copy, Debug, PartialEq, Eq, Error)]
pub enum WireFault {
    #[error("the input ended before its first byte")]
    Closed,
    #[error("a read failed before the reply was decided")]
    Read,
    #[error("a write failed")]
    Write,
    #[error("a write took no byte")]
    WriteZero,
}

impl Fault for WireFault {
    ghost use Rattle.wire.specs.WireFault.{refusal};

    ghost refusal_of = { refusal };

    fn refusal(&self) -> Refusal {
        match self {
            WireFault::Closed => Refusal::refused(80, "Closed"),
            WireFault::Read => Refusal::io(81, "Read"),
            WireFault::Write => Refusal::io(82, "Write"),
            WireFault::WriteZero => Refusal::io(83, "WriteZero"),
        }
    }
}

impl From<WriteFault> for WireFault {
    ghost from_gives = { λ fault given. given ≡ of_write fault };

    fn from(fault: WriteFault) -> WireFault {
        match fault {
            WriteFault::Write => WireFault::Write,
            WriteFault::WriteZero => WireFault::WriteZero,
        }
    }
}

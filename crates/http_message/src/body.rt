//! The body of a request, read piece by piece.
ghost use Rattle.std.specs.Prelude.{◌≡◌, MatchResult};
ghost use Rattle.http_message.specs.Reading.{EndsBody, ReadsBody};
ghost use Rattle.http_message.specs.declared.body.BodyFault.TheVariants.{Memory};

use counted_io::CountedRead;
use std::alloc::{AllocError, Allocator};
use thiserror::Error;

/// Why a body can't be read.
#[derive(Clone, Copy, Debug, PartialEq, Eq, Error)]
pub enum BodyFault {
    /// The input ended within the body.
    #[error("the body is shorter than announced")]
    Short,
    #[error("a read failed")]
    Read,
    #[error("out of memory")]
    Memory,
}

impl From<AllocError> for BodyFault {
    ghost from_gives = { λ error fault. fault ≡ Memory };

    fn from(_error: AllocError) -> BodyFault {
        BodyFault::Memory
    }
}

// The greatest size of a piece in which a body is read.
const PIECE: usize = 16_384;

/// Reads a body of the given length, first from the bytes already read after the head, and then from the reader, without reading past the body.
///
/// Allocates for the bytes that have been read, so an announced length alone allocates nothing. No read is retried, not even after `Interrupted`.
pub fn read_body<A: Allocator + Copy, R: CountedRead>(
    alloc: A,
    after_head: &[u8],
    length: usize,
    input: &mut R,
) -> Result<Vec<u8, A>, BodyFault>
    ensures { MatchResult result
        (λ body. ReadsBody after_head.now length body.items (R.reader input.old) (R.reader input.new))
        (λ fault. EndsBody fault after_head.now length (R.reader input.old) (R.reader input.new)) }
{
    let mut body = Vec::new(alloc);
    body.extend_from_slice(&after_head[..length.min(after_head.len())])?;
    let mut piece = [0; PIECE];
    while body.len() < length {
        let most = (length - body.len()).min(PIECE);
        match input.read_counted(&mut piece[..most]) {
            Ok(0) => return Err(BodyFault::Short),
            Ok(count) => body.extend_from_slice(&piece[..count])?,
            Err(_) => return Err(BodyFault::Read),
        }
    }
    Ok(body)
}

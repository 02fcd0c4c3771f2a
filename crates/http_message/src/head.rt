//! The head of a request, read into a buffer of a fixed size.
//!
//! The buffer is on the stack, so a head takes no memory, however it is split.
ghost use Rattle.std.specs.Prelude.{◌≡◌, length};
ghost use Rattle.http_message.specs.Reading.{AnswersHead};
ghost use Rattle.http_message.specs.Search.{AnswersSearch};

use crate::request::Request;
use counted_io::CountedRead;
use httparse::Status;
use httparse::spans::{EMPTY_HEADER_SPAN, HeaderSpan, RequestSpans, parse_request};
use thiserror::Error;

/// The greatest number of bytes of a head, including the empty line that ends it.
pub const MAX_HEAD_LENGTH: usize = 8192;

/// The greatest number of headers of a head.
pub const MAX_HEADERS: usize = 64;

/// Why there is no head to check.
#[derive(Clone, Copy, Debug, PartialEq, Eq, Error)]
pub enum HeadFault {
    /// The input ended before its first byte.
    #[error("the input has ended")]
    Closed,
    #[error("a read failed")]
    Read,
}

/// The places of a head in the bytes read.
#[derive(Drop)]
struct Found {
    spans: RequestSpans,
    /// The number of bytes read.
    count: usize,
}

/// The space for one head. The last request that was read borrows its contents.
#[derive(Drop)]
pub struct HeadBuffer {
    bytes: [u8; MAX_HEAD_LENGTH],
    headers: [HeaderSpan; MAX_HEADERS],
}

impl HeadBuffer {
    pub fn new() -> Self {
        HeadBuffer {
            bytes: [0; MAX_HEAD_LENGTH],
            headers: [EMPTY_HEADER_SPAN; MAX_HEADERS],
        }
    }

    /// Reads a request's head, along with any bytes after it that the same reads return.
    ///
    /// Returns `None` if the input doesn't begin with a head of the grammar within the limits, whatever else it holds. No read is retried, not even
    /// after `Interrupted`.
    pub fn read_head<R: CountedRead>(
        &mut self,
        input: &mut R,
    ) -> Result<Option<Request<'_>>, HeadFault>
        ensures { AnswersHead result (R.reader input.old) (R.reader input.new) }
    {
        match find_head(&mut self.bytes, &mut self.headers, input)? {
            Some(found) => Ok(Some(Request::of(
                &self.bytes[..found.count],
                &self.headers,
                found.spans,
            ))),
            None => Ok(None),
        }
    }
}

/// Reads until the head is complete, or can't be completed.
fn find_head<R: CountedRead>(
    bytes: &mut [u8],
    headers: &mut [HeaderSpan],
    input: &mut R,
) -> Result<Option<Found>, HeadFault>
    requires bytes { length bytes.old ≡ MAX_HEAD_LENGTH }
    requires headers { length headers.old ≡ MAX_HEADERS }
    ensures { AnswersSearch bytes.new headers.new result (R.reader input.old) (R.reader input.new) }
{
    let mut count = 0;
    while count < bytes.len() {
        let Ok(read) = input.read_counted(&mut bytes[count..]) else {
            return Err(HeadFault::Read);
        };
        if read == 0 {
            return if count == 0 {
                Err(HeadFault::Closed)
            } else {
                Ok(None)
            };
        }
        count += read;
        // The grammar is that of `httparse` in its default form, which is known and tested.
        match parse_request(&bytes[..count], headers) {
            Ok(Status::Complete(spans)) => return Ok(Some(Found { spans, count })),
            Ok(Status::Partial) => {}
            Err(_) => return Ok(None),
        }
    }
    Ok(None)
}

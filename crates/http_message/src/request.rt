//! A request whose head has been read.
ghost use Rattle.std.specs.Prelude.{◌≡◌, IsUtf8, codes, drop, length, map, take};
ghost use Rattle.std.specs.List.{list_any};
ghost use Rattle.httparse.specs.Spans.{IsHeaderWithin, IsRequestWithin, header_bytes, span_bytes};
ghost use Rattle.http_message.specs.Length.{announced, body_length, is_named, values_of};

use crate::length::{LengthFault, length_of};
use httparse::spans::{HeaderSpan, RequestSpans};
use std::marker::Model;
use std::str;

const CONTENT_LENGTH: &str = "content-length";

const TRANSFER_ENCODING: &str = "transfer-encoding";

/// A request's head, and the bytes read after it, borrowed from the buffer that they were read into.
#[derive(Drop)]
pub struct Request<'a> {
    bytes: &'a [u8],
    method: &'a [u8],
    target: &'a str,
    // The places of the headers in the bytes.
    headers: &'a [HeaderSpan],
    after_head: &'a [u8],
}

impl<'a> Model for Request<'a> {
    ghost use Rattle.std.specs.Prelude.{All, length, map};
    ghost use Rattle.httparse.specs.Spans.{IsHeaderWithin, header_bytes};
    ghost use Rattle.http_message.specs.Reading.{RequestParts};

    ghost Value = { RequestParts };

    ghost view = { λ request. record {
      head = record { method = request.method.now; target = request.target.now; headers = map (header_bytes request.bytes.now) request.headers.now };
      after_head = request.after_head.now;
    } };

    ghost invariant = { λ request. All (IsHeaderWithin (length request.bytes.now)) request.headers.now };
}

impl<'a> Request<'a> {
    /// Returns the request whose parts are at these places in the bytes read.
    pub(crate) fn of(bytes: &'a [u8], headers: &'a [HeaderSpan], spans: RequestSpans) -> Self
        requires within { IsRequestWithin bytes.now headers.now spans }
        requires text { IsUtf8 (span_bytes bytes.now spans.path) }
        ensures method { result.head.method ≡ span_bytes bytes.now spans.method }
        ensures target { result.head.target ≡ span_bytes bytes.now spans.path }
        ensures headers { result.head.headers ≡ map (header_bytes bytes.now) (take spans.headers headers.now) }
        ensures after_head { result.after_head ≡ drop spans.len bytes.now }
    {
        Request {
            bytes,
            method: spans.method.of(bytes),
            target: str::from_utf8(spans.path.of(bytes)).unwrap(),
            headers: &headers[..spans.headers],
            after_head: &bytes[spans.len..],
        }
    }

    /// Returns the method, like `GET`, which is case-sensitive.
    #[inline]
    pub fn method(&self) -> &'a [u8]
        ensures { result.now ≡ self.now.head.method }
    {
        self.method
    }

    /// Returns the request target as it was sent.
    #[inline]
    pub fn target(&self) -> &'a str
        ensures { result.now ≡ self.now.head.target }
    {
        self.target
    }

    /// Returns the bytes read after the head: the start of the body, if there is one, and possibly more.
    #[inline]
    pub fn after_head(&self) -> &'a [u8]
        ensures { result.now ≡ self.now.after_head }
    {
        self.after_head
    }

    /// Returns the body's length in bytes, as the head announces it.
    ///
    /// A body in a transfer coding isn't accepted: it counts as one without a length.
    pub fn body_length(&self) -> Result<usize, LengthFault>
        ensures { result ≡ body_length self.now.head }
    {
        if self.has_header(TRANSFER_ENCODING) {
            return Err(LengthFault::Missing);
        }
        self.announced_length()
    }

    fn has_header(&self, name: &str) -> bool
        ensures { result ≡ list_any (is_named name.now) self.now.head.headers }
    {
        self.headers
            .iter()
            .any(|header| is_named(self.bytes, header, name))
    }

    fn announced_length(&self) -> Result<usize, LengthFault>
        ensures { result ≡ announced (values_of (codes "content-length") self.now.head) }
    {
        let mut found = None;
        for header in self.headers {
            if is_named(self.bytes, header, CONTENT_LENGTH) {
                if found.is_some() {
                    return Err(LengthFault::Invalid);
                }
                found = Some(header.value.of(self.bytes));
            }
        }
        match found {
            Some(value) => length_of(value),
            None => Err(LengthFault::Missing),
        }
    }
}

/// Compares a header's name without regard to case (RFC 9110, section 5.1).
fn is_named(bytes: &[u8], header: &HeaderSpan, name: &str) -> bool
    requires { IsHeaderWithin (length bytes.now) header.now }
    ensures { result ≡ is_named name.now (header_bytes bytes.now header.now) }
{
    header.name.of(bytes).eq_ignore_ascii_case(name.as_bytes())
}

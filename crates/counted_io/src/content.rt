//! The content of a line, and why reading it stops.

/// The maximum length of a line's content, in bytes.
pub const MAX_CONTENT_LENGTH: usize = 230;

pub(crate) const LINE_FEED: u8 = b'\n';

pub(crate) const CARRIAGE_RETURN: u8 = b'\r';

/// Why reading a line's bytes stopped.
#[derive(Clone, Copy, PartialEq, Eq)]
pub enum Stop {
    /// A line feed; it was consumed.
    LineFeed,
    /// The end of the input.
    EndOfInput,
    /// A byte past the maximum length of a line's content; it was consumed.
    TooLong,
    /// A read failed; nothing is read after it.
    ReadFailed,
}

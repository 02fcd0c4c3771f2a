//! Texts with quotation marks only around cells.
ghost use Rattle.std.specs.Prelude.{◌≡◌, ◌≢◌, [], IfSome, true};
ghost use Rattle.addresses.specs.Regular.{EndsLine, after};
ghost use Rattle.addresses.specs.WholeRecord.{IsWholeRecord};

/// The part of a cell that was just read.
#[derive(Clone, Copy)]
enum RecordPart {
    /// Nothing yet.
    Start,
    /// A byte of a cell without quotation marks.
    Plain,
    /// The opening quotation mark, or a byte after it.
    Quoted,
    /// A quotation mark that closes the cell, or the first of two that are one mark in it.
    Closed,
}

/// Returns whether a text is one line of cells, with its line end, and has quotation marks only around cells and doubled within them. Such a text is
/// one record, whatever follows it.
pub(crate) fn is_regular(text: &[u8]) -> bool
    ensures { result ≡ true → IsWholeRecord text.now }
{
    let Some(line) = without_end(text) else {
        return false;
    };
    let mut part = RecordPart::Start;
    for byte in line {
        match part.after(*byte) {
            Some(next) => part = next,
            None => return false,
        }
    }
    !matches!(part, RecordPart::Quoted)
}

/// Returns the line of a text, if it isn't empty and ends with LF or CR LF.
fn without_end(text: &[u8]) -> Option<&[u8]>
    ensures { IfSome result (λ line. (line.now ≢ []) × EndsLine line.now text.now) }
{
    match text {
        [] | [b'\n'] | [b'\r', b'\n'] => None,
        [line @ .., b'\r', b'\n'] => Some(line),
        [line @ .., b'\n'] => Some(line),
        _ => None,
    }
}

impl RecordPart {
    /// Returns the part after a byte, or `None` if the byte ends the line or is a mark in the wrong place.
    fn after(self, byte: u8) -> Option<RecordPart>
        ensures { result ≡ after self byte }
    {
        match (self, byte) {
            (RecordPart::Start | RecordPart::Closed, b'"') => Some(RecordPart::Quoted),
            (RecordPart::Quoted, b'"') => Some(RecordPart::Closed),
            (RecordPart::Quoted, _) => Some(RecordPart::Quoted),
            (_, b',') => Some(RecordPart::Start),
            (RecordPart::Closed, _) | (_, b'"' | b'\r' | b'\n') => None,
            _ => Some(RecordPart::Plain),
        }
    }
}

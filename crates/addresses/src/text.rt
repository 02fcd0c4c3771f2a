//! The texts of a file's records.
ghost use Rattle.std.specs.Prelude.{◌≡◌, ◌≢◌, ◌<◌, ◌≤◌, [], ◌∷◌, ◌++◌, length};
ghost use Rattle.std.specs.List.{list_all};
ghost use Rattle.addresses.specs.RecordText.{inside_after, is_open, line_feeds, record_texts};
ghost use Rattle.addresses.specs.Regular.{is_line_end};
ghost use Rattle.csv.specs.Reading.{strip_bom};

/// U+FEFF in UTF-8.
pub(crate) const BYTE_ORDER_MARK: [u8; 3] = [0xef, 0xbb, 0xbf];

/// A file, split after the text of its first record and its line end.
#[derive(Clone, Copy)]
pub(crate) struct FirstText<'a> {
    pub file: &'a [u8],
    pub text: &'a [u8],
    pub rest: &'a [u8],
    /// Whether the record's quotation marks are still open at the end of the file.
    pub is_open: bool,
}

/// Skips a byte order mark at the start of a file.
pub(crate) fn without_mark<'a>(file: &'a [u8]) -> &'a [u8]
    ensures { result.now ≡ strip_bom file.now }
{
    file.strip_prefix(&BYTE_ORDER_MARK).unwrap_or(file)
}

/// Splits a file after its first record.
pub(crate) fn first_text<'a>(file: &'a [u8]) -> FirstText<'a>
    ensures texts { file.now ≢ [] → record_texts file.now ≡ result.text.now ∷ record_texts result.rest.now }
    ensures file { result.file.now ≡ file.now }
    ensures split { file.now ≡ result.text.now ++ result.rest.now }
    ensures progress { file.now ≢ [] → length result.rest.now < length file.now }
    ensures open { result.is_open ≡ is_open result.text.now }
{
    // The quotation marks are counted here, not by `csv`, so that an unclosed one is refused at its own line and no record exceeds the limit.
    let mut is_open = false;
    for (at, byte) in file.iter().enumerate() {
        is_open = inside_after(is_open, *byte);
        if *byte == b'\n' && !is_open {
            let (text, rest) = file.split_at(at + 1);
            return FirstText {
                file,
                text,
                rest,
                is_open,
            };
        }
    }
    FirstText {
        file,
        text: file,
        rest: &[],
        is_open,
    }
}

/// Returns whether the byte after this one is inside quotation marks.
fn inside_after(inside: bool, byte: u8) -> bool
    ensures { result ≡ inside_after inside byte }
{
    if byte == b'"' { !inside } else { inside }
}

/// Counts the line feeds in a text.
pub(crate) fn line_feeds(text: &[u8]) -> usize
    ensures value { result ≡ line_feeds text.now }
    ensures few { result ≤ length text.now }
{
    text.iter().filter(|byte| **byte == b'\n').count()
}

/// Returns whether a text is nothing but line ends.
pub(crate) fn is_blank(text: &[u8]) -> bool
    ensures { result ≡ list_all is_line_end text.now }
{
    text.iter().all(|byte| is_line_end(*byte))
}

fn is_line_end(byte: u8) -> bool
    ensures { result ≡ is_line_end byte }
{
    byte == b'\r' || byte == b'\n'
}

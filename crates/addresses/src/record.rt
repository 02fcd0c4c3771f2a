//! A record's text, read as its fields.
ghost use Rattle.std.specs.Prelude.{◌≡◌};
ghost use Rattle.addresses.specs.Record.{IsRecordRead, fault_of, fields_in};
ghost use Rattle.addresses.specs.TextReader.{IsTextReader};
ghost use Rattle.csv.specs.Reading.{error_kind};
ghost use Rattle.csv.specs.Records.{fields_of};

use crate::fault::{AddressFault, AddressFaultKind};
use crate::text::BYTE_ORDER_MARK;
use csv::{ByteRecord, Error, ErrorKind, Reader, ReaderBuilder, StringRecord};
use std::alloc::Global;
use std::io::{Chain, Read};

/// The maximum length of a record in bytes, including its line end.
pub const MAX_RECORD_LENGTH: usize = 65_536;

/// A reader of a text, after a byte order mark.
pub(crate) type TextReader<'a> = Reader<Chain<&'a [u8], &'a [u8]>>;

/// Reads the text of a record that begins in this line. Returns false if it has no record, as in an empty line.
pub(crate) fn read_fields(
    alloc: Global,
    line: u64,
    text: &[u8],
    row: &mut StringRecord,
) -> Result<bool, AddressFault>
    ensures { IsRecordRead line (fields_of row.new) (fields_in text.now) result }
{
    let mut reader = text_reader(alloc, text);
    match reader.read_record(row) {
        Ok(true) => {}
        Ok(false) => return Ok(false),
        Err(error) => return Err(fault_of(line, &error)),
    }
    // The record is cut before `csv` reads it. If `csv` finds another one in it, the two disagree about where it ends.
    match reader.read_byte_record(&mut ByteRecord::new(alloc)) {
        Ok(false) => Ok(true),
        Ok(true) => Err(AddressFault::At {
            line,
            flaw: AddressFaultKind::NotOneRecord,
        }),
        Err(_) => Err(AddressFault::Memory),
    }
}

/// Creates a reader of a text.
pub(crate) fn text_reader<'a>(alloc: Global, text: &'a [u8]) -> TextReader<'a>
    ensures { IsTextReader text.now result }
{
    // The reader skips one byte order mark. It skips this one, so a mark in the text itself stays in its first field.
    let marked = BYTE_ORDER_MARK.as_slice().chain(text);
    // `flexible`, as a record may be shorter or longer than the header: a missing cell is empty, and further ones are ignored.
    ReaderBuilder::new()
        .has_headers(false)
        .flexible(true)
        .from_reader(alloc, marked)
}

/// Returns the fault that an error corresponds to. A reader of bytes fails only because of its text or because memory runs out.
pub(crate) fn fault_of(line: u64, error: &Error) -> AddressFault
    ensures { result ≡ fault_of line (error_kind error.now) }
{
    match error.kind() {
        ErrorKind::Utf8 { .. } => AddressFault::At {
            line,
            flaw: AddressFaultKind::NotUtf8,
        },
        _ => AddressFault::Memory,
    }
}

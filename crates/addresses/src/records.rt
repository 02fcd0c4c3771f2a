//! The first record of a text.
ghost use Rattle.std.specs.Prelude.{◌≡◌, ◌++◌, OnErr, OnOk};
ghost use Rattle.addresses.specs.InStep.{IsInStep};
ghost use Rattle.addresses.specs.Record.{IsRecordRead, fields_in, record_in};
ghost use Rattle.addresses.specs.RecordText.{is_open};
ghost use Rattle.addresses.specs.WholeRecord.{IsWholeRecord};
ghost use Rattle.csv.specs.Records.{fields_of};

use crate::fault::{AddressFault, AddressFaultKind};
use crate::record::{MAX_RECORD_LENGTH, TextReader, fault_of, read_fields, text_reader};
use crate::regular::is_regular;
use crate::text::{FirstText, is_blank};
use csv::StringRecord;
use std::alloc::Global;

/// Reads the text of a record that begins in this line, with the reader of the file, which then is after it. Returns false if it has no record, as an
/// empty line. After a fault the reader is before the text.
pub(crate) fn read_record<'a>(
    alloc: Global,
    line: u64,
    first: FirstText<'a>,
    reader: &mut TextReader<'a>,
    row: &mut StringRecord,
) -> Result<bool, AddressFault>
    requires open { first.is_open ≡ is_open first.text.now }
    requires split { first.file.now ≡ first.text.now ++ first.rest.now }
    requires before { IsInStep first.file.now reader.old }
    ensures read { IsRecordRead line (fields_of row.new) (record_in first.entry.text.now) result }
    ensures after { OnOk result (IsInStep first.entry.rest.now reader.new) }
    ensures stays { OnErr result (IsInStep first.entry.file.now reader.new) }
{
    // `csv` would take the rest of the file as one cell. Cut here, an unclosed mark is refused at its line.
    if first.is_open {
        let flaw = AddressFaultKind::OpenQuote;
        return Err(AddressFault::At { line, flaw });
    }
    if first.text.len() > MAX_RECORD_LENGTH {
        let flaw = AddressFaultKind::LineTooLong;
        return Err(AddressFault::At { line, flaw });
    }
    if is_blank(first.text) {
        return Ok(false);
    }
    // Only such a text is left to the reader of the file, which may not read past it. A new reader takes 10 µs for its tables.
    if is_regular(first.text) {
        return read_next(alloc, line, first, reader, row);
    }
    let found = read_fields(alloc, line, first.text, row)?;
    // The reader of the file may read another record here, so it starts anew.
    *reader = text_reader(alloc, first.rest);
    Ok(found)
}

/// Reads a text that is one record, whatever follows it, with the reader of the file.
fn read_next<'a>(
    alloc: Global,
    line: u64,
    first: FirstText<'a>,
    reader: &mut TextReader<'a>,
    row: &mut StringRecord,
) -> Result<bool, AddressFault>
    requires whole { IsWholeRecord first.text.now }
    requires split { first.file.now ≡ first.text.now ++ first.rest.now }
    requires before { IsInStep first.file.now reader.old }
    ensures read { IsRecordRead line (fields_of row.new) (fields_in first.entry.text.now) result }
    ensures after { OnOk result (IsInStep first.entry.rest.now reader.new) }
    ensures stays { OnErr result (IsInStep first.entry.file.now reader.new) }
{
    match reader.read_record(row) {
        Ok(found) => Ok(found),
        Err(error) => {
            // The failed read has consumed bytes.
            *reader = text_reader(alloc, first.file);
            Err(fault_of(line, &error))
        }
    }
}

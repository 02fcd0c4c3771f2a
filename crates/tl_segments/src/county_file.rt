//! The lines of a county's file, read to its end.
ghost use Rattle.std.specs.Prelude.{◌≡◌, ℕ, List, [], ◌∷◌, ◌++◌, IfErr, IfOk, OnOk, refl};
ghost use Rattle.tl_records.specs.Records.{IsValidLine, IsLineFault};
ghost use Rattle.tl_records.specs.declared.fault.LineFault.{LineFault};
ghost use Rattle.tl_segments.specs.CountyFile.{layout};
ghost use Rattle.tl_segments.specs.Joining.{IsWithinLineLimit, IsWithinLimits};
ghost use Rattle.tl_segments.specs.Loading.{AreValidLines, IsFileFault};
ghost use Rattle.tl_segments.specs.Shape.{HasDistinctSequences};
ghost use Rattle.tl_segments.specs.Adding.{IsAdded, IsLineAdded, HoldsFile, too_many};
ghost use Rattle.tl_segments.specs.declared.fault.CountyFile.TheVariants.{Rt1, Rt2, Rt4, Rt5, Rt6};
ghost use Rattle.tl_segments.specs.declared.fault.LoadFault.TheVariants as load_fault;

use crate::fault::{CountyFile, LoadFault};
use counted_io::CountedRead;
use std::alloc::AllocError;
use tl_records::{Line, Record, RecordType, Type1, Type2, Type4, Type5, Type6, read_line};

/// A record type together with the county file that has its lines.
pub(crate) trait FileType: RecordType {
    ghost use Rattle.tl_segments.specs.declared.fault.CountyFile.{CountyFile};

    ghost FILE: { CountyFile };

    ghost layout_is: { Self.LAYOUT ≡ layout FILE };

    const FILE: CountyFile;
}

impl FileType for Type1 {
    ghost FILE = { Rt1 };

    ghost layout_is = { refl };

    const FILE: CountyFile = CountyFile::Rt1;
}

impl FileType for Type2 {
    ghost FILE = { Rt2 };

    ghost layout_is = { refl };

    const FILE: CountyFile = CountyFile::Rt2;
}

impl FileType for Type4 {
    ghost FILE = { Rt4 };

    ghost layout_is = { refl };

    const FILE: CountyFile = CountyFile::Rt4;
}

impl FileType for Type5 {
    ghost FILE = { Rt5 };

    ghost layout_is = { refl };

    const FILE: CountyFile = CountyFile::Rt5;
}

impl FileType for Type6 {
    ghost FILE = { Rt6 };

    ghost layout_is = { refl };

    const FILE: CountyFile = CountyFile::Rt6;
}

/// The record type of a file with a limited number of lines per TLID, whose sequence numbers may be repeated.
pub(crate) trait Limited: FileType {
    ghost limited: { (lines : List (List ℕ)) → IsWithinLimits Self.FILE lines → IsWithinLineLimit Self.FILE lines };

    ghost distinct: { (lines : List (List ℕ)) → HasDistinctSequences Self.FILE lines };
}

impl Limited for Type4 {
    ghost limited = { λ lines few. few };

    ghost distinct = { λ lines. tt };
}

impl Limited for Type6 {
    ghost limited = { λ lines few. few };

    ghost distinct = { λ lines. tt };
}

/// What became of a line that was to be added to a table.
pub(crate) enum Addition {
    Added,
    /// Its TLID already has the maximum number of lines.
    OverLimit,
    /// An earlier line has its TLID and its sequence number.
    Repeated,
}

/// A table for the lines of a county's file.
pub(crate) trait Table {
    // The record type of the file's lines.
    type Lines: FileType;

    // `holds table lines`: the table holds what these lines say.
    ghost holds: { Self → List (List ℕ) → Type 0 };

    /// Adds one more line, unless a limit or an earlier line excludes it.
    fn add(&mut self, rt: &Record<'_, Self::Lines>) -> Result<Addition, AllocError>
        ensures { (lines : List (List ℕ)) → holds self.old lines → AreValidLines Self.Lines.FILE lines
            → IfOk result (IsAdded Self.Lines.FILE lines rt.now.bytes (holds self.new)) };
}

/// Reads a file into an empty table, to its end or its first fault, leaving the input there.
pub(crate) fn read_file<T: Table, R: CountedRead>(
    table: &mut T,
    input: &mut R,
) -> Result<(), LoadFault>
    requires { T.holds table.old [] }
    ensures ok { OnOk result (HoldsFile T.Lines.FILE (T.holds table.new) (R.reader input.old) (R.reader input.new)) }
    ensures err { IfErr result (λ fault. IsFileFault T.Lines.FILE fault (R.reader input.old) (R.reader input.new)) }
{
    let mut line = Line::new();
    loop {
        match read_line(input, &mut line) {
            Ok(Some(())) => add_line(table, &line)?,
            Ok(None) => return Ok(()),
            Err(fault) => return Err(LoadFault::in_line(T::Lines::FILE, fault)),
        }
    }
}

/// Adds one more line to the table, or returns its fault.
fn add_line<T: Table>(table: &mut T, line: &Line) -> Result<(), LoadFault>
    ensures { (lines : List (List ℕ)) → T.holds table.old lines → AreValidLines T.Lines.FILE lines
        → IsLineAdded T.Lines.FILE lines line.now result (T.holds table.new) }
{
    let record = record_in::<T::Lines>(line)?;
    let number = u64::from(line.number());
    match table.add(&record)? {
        Addition::Added => Ok(()),
        Addition::OverLimit => Err(too_many(T::Lines::FILE, number)),
        Addition::Repeated => Err(LoadFault::RepeatedSequence { line: number }),
    }
}

/// Returns the fault of a line that is one too many for its TLID.
#[cold]
fn too_many(file: CountyFile, line: u64) -> LoadFault
    ensures { result ≡ too_many file line }
{
    match file {
        CountyFile::Rt2 => LoadFault::TooManyPoints { line },
        CountyFile::Rt4 => LoadFault::TooManyNames { line },
        // Type 6: no other file has a limit.
        _ => LoadFault::TooManyRanges { line },
    }
}

/// Parses the line as a record of its file's type, or returns its fault.
pub(crate) fn record_in<T: FileType>(line: &Line) -> Result<Record<'_, T>, LoadFault>
    ensures ok { IfOk result (λ rt. (rt.bytes ≡ line.now.bytes) × IsValidLine (layout T.FILE) line.now.bytes) }
    ensures err { IfErr result (λ fault. (flaw : LineFault)
        × (fault ≡ load_fault.Line T.FILE flaw) × IsLineFault (layout T.FILE) line.now flaw) }
{
    match Record::of(line.number(), line.bytes()) {
        Ok(record) => Ok(record),
        Err(fault) => Err(LoadFault::in_line(T::FILE, fault)),
    }
}

//! Why the files of a county can't be loaded.
ghost use Rattle.std.specs.Prelude.{◌≡◌};
ghost use Rattle.tl_segments.specs.CountyFile.{record_type};
ghost use Rattle.tl_segments.specs.LoadFault.{in_file};
ghost use Rattle.tl_segments.specs.declared.fault.LoadFault.TheVariants.{Line, Memory};

use refusals::{Fault, Refusal};
use std::alloc::{AllocError, AllocFailed};
use thiserror::Error;
use tl_records::LineFault;

/// The files that are read for a county (TIGER/Line 2006), by record type.
#[derive(Clone, Copy, Debug, PartialEq, Eq)]
pub enum CountyFile {
    Rt1,
    Rt2,
    Rt4,
    Rt5,
    Rt6,
}

impl CountyFile {
    /// Returns the record type of the file's lines.
    pub fn record_type(self) -> u8
        ensures { result ≡ record_type self }
    {
        match self {
            CountyFile::Rt1 => 1,
            CountyFile::Rt2 => 2,
            CountyFile::Rt4 => 4,
            CountyFile::Rt5 => 5,
            CountyFile::Rt6 => 6,
        }
    }
}

/// Why a county's files can't be loaded. Lines are counted from 1.
#[derive(Clone, Copy, Debug, PartialEq, Eq, Error)]
pub enum LoadFault {
    #[error("{file:?}: {fault}")]
    Line { file: CountyFile, fault: LineFault },
    /// This type 4 line is the first one over the limit for its TLID.
    #[error("Rt4: line {line}: too many names")]
    TooManyNames { line: u64 },
    /// This type 6 line is the first one over the limit for its TLID.
    #[error("Rt6: line {line}: too many ranges")]
    TooManyRanges { line: u64 },
    /// An earlier type 2 line has this line's TLID and sequence number.
    #[error("Rt2: line {line}: repeated sequence number")]
    RepeatedSequence { line: u64 },
    /// This type 2 line is the first one over the limit for its TLID.
    #[error("Rt2: line {line}: too many points")]
    TooManyPoints { line: u64 },
    #[error("out of memory")]
    Memory,
}

impl From<AllocError> for LoadFault {
    ghost from_gives = { λ _ fault. fault ≡ Memory };

    fn from(_error: AllocError) -> LoadFault {
        LoadFault::Memory
    }
}

impl<T: Drop> From<AllocFailed<T>> for LoadFault {
    ghost from_gives = { λ _ fault. fault ≡ Memory };

    fn from(_error: AllocFailed<T>) -> LoadFault {
        LoadFault::Memory
    }
}

impl LoadFault {
    /// Returns the fault of a line as a fault of its file.
    #[cold]
    pub(crate) fn in_line(file: CountyFile, fault: LineFault) -> Self
        ensures { result ≡ Line file fault }
    {
        LoadFault::Line { file, fault }
    }
}

impl Fault for LoadFault {
    ghost use Rattle.tl_segments.specs.LoadFault.{refusal};

    ghost refusal_of = { refusal };

    fn refusal(&self) -> Refusal {
        match *self {
            LoadFault::Line { file, fault } => { in_file(fault.flaw.refusal(), file, fault.line) }
            LoadFault::TooManyNames { line } => {
                in_file(Refusal::refused(6, "TooManyNames"), CountyFile::Rt4, line)
            }
            LoadFault::TooManyRanges { line } => {
                in_file(Refusal::refused(7, "TooManyRanges"), CountyFile::Rt6, line)
            }
            LoadFault::RepeatedSequence { line } => {
                in_file(
                    Refusal::refused(121, "RepeatedSequence"),
                    CountyFile::Rt2,
                    line,
                )
            }
            LoadFault::TooManyPoints { line } => {
                in_file(
                    Refusal::refused(122, "TooManyPoints"),
                    CountyFile::Rt2,
                    line,
                )
            }
            LoadFault::Memory => Refusal::memory(),
        }
    }
}

fn in_file(refusal: Refusal, file: CountyFile, line: u64) -> Refusal
    ensures { result ≡ in_file file line refusal }
{
    refusal.at_file_line(file.record_type(), line)
}

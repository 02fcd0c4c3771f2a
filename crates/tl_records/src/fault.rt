//! Why a line can't be read or isn't a record.
ghost use Rattle.std.specs.Prelude.{◌≡◌};
ghost use Rattle.tl_records.specs.LineFaultKind as line_fault_kind;

use refusals::Refusal;
use thiserror::Error;

/// What is wrong with a line.
#[derive(Clone, Copy, Debug, PartialEq, Eq, Error)]
pub enum LineFaultKind {
    #[error("not the length of a record")]
    WrongLength,
    #[error("another record type")]
    WrongType,
    #[error("the TLID has no number")]
    BadTlid,
    #[error("the FEAT has no number")]
    BadFeature,
    #[error("the RTSQ has no number")]
    BadSequence,
    #[error("the read failed")]
    Read,
    #[error("too many lines")]
    TooManyLines,
}

impl LineFaultKind {
    /// The refusal has no file and no line yet; the fault of a file adds them.
    pub fn refusal(self) -> Refusal
        ensures { result ≡ line_fault_kind.refusal self }
    {
        match self {
            LineFaultKind::WrongLength => Refusal::refused(1, "WrongLength"),
            LineFaultKind::WrongType => Refusal::refused(2, "WrongType"),
            LineFaultKind::BadTlid => Refusal::refused(3, "BadTlid"),
            LineFaultKind::BadFeature => Refusal::refused(4, "BadFeature"),
            LineFaultKind::BadSequence => Refusal::refused(120, "BadSequence"),
            LineFaultKind::Read => Refusal::io(5, "Read"),
            LineFaultKind::TooManyLines => Refusal::refused(8, "TooManyLines"),
        }
    }
}

/// Why no more lines of a file can be read. Lines are counted from 1.
#[derive(Clone, Copy, Debug, PartialEq, Eq, Error)]
#[error("line {line}: {flaw}")]
pub struct LineFault {
    /// The number of the line, counted from 1: at most 2^32, the first number that doesn't fit in 32 bits.
    pub line: u64,
    /// What is wrong with the line, or with reading it.
    pub flaw: LineFaultKind,
}

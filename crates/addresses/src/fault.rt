//! Why a file's addresses can't be read.
ghost use Rattle.std.specs.Prelude.{◌≡◌};
ghost use Rattle.addresses.specs.AddressFaultKind as address_flaw;

use refusals::{Fault, Refusal};
use std::alloc::AllocError;
use thiserror::Error;

/// What is wrong with a record. The derived text is for people.
#[derive(Clone, Copy, Debug, PartialEq, Eq, Error)]
pub enum AddressFaultKind {
    #[error("the header has no column `number`")]
    NoNumber,
    #[error("the header has no column `name`")]
    NoName,
    #[error("a field isn't UTF-8")]
    NotUtf8,
    #[error("a quotation mark isn't closed before the end of the file")]
    OpenQuote,
    #[error("the record has more than 65,536 bytes")]
    LineTooLong,
    #[error("a carriage return or an unquoted line break ends the record early")]
    NotOneRecord,
}

/// Why a file's addresses can't be read, including a failed allocation.
#[derive(Clone, Copy, Debug, PartialEq, Eq, Error)]
pub enum AddressFault {
    #[error("the file has no header")]
    NoHeader,
    #[error("line {line}: {flaw}")]
    At {
        /// The line in which the record begins, counted from 1.
        line: u64,
        flaw: AddressFaultKind,
    },
    #[error("out of memory")]
    Memory,
}

impl AddressFaultKind {
    /// Returns the flaw as a refusal, without its line.
    pub fn refusal(self) -> Refusal
        ensures { result ≡ address_flaw.refusal self }
    {
        match self {
            AddressFaultKind::NoNumber => Refusal::refused(101, "NoColumn"),
            AddressFaultKind::NoName => Refusal::refused(101, "NoColumn"),
            AddressFaultKind::NotUtf8 => Refusal::refused(102, "NotUtf8"),
            AddressFaultKind::OpenQuote => Refusal::refused(103, "OpenQuote"),
            AddressFaultKind::LineTooLong => Refusal::refused(104, "LineTooLong"),
            AddressFaultKind::NotOneRecord => Refusal::refused(105, "NotOneRecord"),
        }
    }
}

impl From<AllocError> for AddressFault {
    ghost use Rattle.addresses.specs.declared.fault.AddressFault.TheVariants.{Memory};

    ghost from_gives = { λ error fault. fault ≡ Memory };

    fn from(_error: AllocError) -> Self {
        AddressFault::Memory
    }
}

impl Fault for AddressFault {
    ghost use Rattle.addresses.specs.AddressFault.{refusal};

    ghost refusal_of = { refusal };

    fn refusal(&self) -> Refusal {
        match *self {
            AddressFault::NoHeader => Refusal::refused(100, "NoHeader"),
            // The line feeds of a slice are counted, so a line fits in `usize`.
            AddressFault::At { line, flaw } => flaw.refusal().at_line(line as usize),
            AddressFault::Memory => Refusal::memory(),
        }
    }
}

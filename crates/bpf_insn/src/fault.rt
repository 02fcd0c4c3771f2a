//! The reasons why bytes are no program.
ghost use Rattle.std.specs.Prelude.{◌≡◌};
ghost use Rattle.bpf_insn.specs.declared.fault.CodeFault.TheVariants.{Memory};
ghost use Rattle.bpf_insn.specs.WordFault as word_fault;

use refusals::{Fault, Refusal};
use std::alloc::{AllocError, AllocFailed};
use thiserror::Error;

/// The reason why words are no instruction. If several apply, the first one counts, in the order opcode, second word, registers, frame pointer,
/// widths and unused fields.
#[derive(Clone, Copy, Debug, PartialEq, Eq, Error)]
pub enum WordFault {
    #[error("no instruction has this opcode")]
    UnknownOpcode,
    #[error("a register field is above 10")]
    BadRegister,
    #[error("a field that the instruction doesn't use isn't zero")]
    UnusedNotZero,
    #[error("the instruction has no such width")]
    BadWidth,
    #[error("the second word of a wide load is missing")]
    CutWide,
    #[error("register 10 can't be written")]
    WritesFramePointer,
}

/// The reason why bytes are no program, or that an allocation failed.
#[derive(Clone, Copy, Debug, PartialEq, Eq, Error)]
pub enum CodeFault {
    #[error("the program has no bytes")]
    Empty,
    #[error("the program is no whole number of words")]
    NotWhole,
    #[error("the program has too many words")]
    TooLong,
    #[error("the word at place {place}: {fault}")]
    InWord {
        /// The word at which no instruction begins, counted from 0.
        place: usize,
        fault: WordFault,
    },
    #[error("out of memory")]
    Memory,
}

impl From<AllocError> for CodeFault {
    ghost from_gives = { λ _ fault. fault ≡ Memory };

    fn from(_error: AllocError) -> CodeFault {
        CodeFault::Memory
    }
}

impl<T: Drop> From<AllocFailed<T>> for CodeFault {
    ghost from_gives = { λ _ fault. fault ≡ Memory };

    fn from(_error: AllocFailed<T>) -> CodeFault {
        CodeFault::Memory
    }
}

impl WordFault {
    /// Returns the fault as a refusal, without its place.
    pub fn refusal(self) -> Refusal
        ensures { result ≡ word_fault.refusal self }
    {
        match self {
            WordFault::UnknownOpcode => Refusal::refused(13, "UnknownOpcode"),
            WordFault::BadRegister => Refusal::refused(14, "BadRegister"),
            WordFault::UnusedNotZero => Refusal::refused(15, "UnusedNotZero"),
            WordFault::BadWidth => Refusal::refused(16, "BadWidth"),
            WordFault::CutWide => Refusal::refused(17, "CutWide"),
            WordFault::WritesFramePointer => Refusal::refused(18, "WritesFramePointer"),
        }
    }
}

impl Fault for CodeFault {
    ghost use Rattle.bpf_insn.specs.CodeFault.{refusal};

    ghost refusal_of = { refusal };

    fn refusal(&self) -> Refusal {
        match *self {
            CodeFault::Empty => Refusal::refused(10, "Empty"),
            CodeFault::NotWhole => Refusal::refused(11, "NotWhole"),
            CodeFault::TooLong => Refusal::refused(12, "TooLong"),
            CodeFault::InWord { place, fault } => fault.refusal().at_place(place),
            CodeFault::Memory => Refusal::memory(),
        }
    }
}

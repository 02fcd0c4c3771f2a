//! Why program text is refused.
ghost use Rattle.std.specs.Prelude.{◌≡◌};
ghost use Rattle.bpf_assembler.specs.declared.fault.TextFault.TheVariants.{Memory};
ghost use Rattle.bpf_assembler.specs.TextFaultKind as text_flaw;
ghost use Rattle.bpf_assembler.specs.TextFaultKind.{of_code, text_too_long};

use bpf_insn::{CodeFault, WordFault};
use refusals::{Fault, Refusal};
use std::alloc::{AllocError, AllocFailed};
use thiserror::Error;

/// The flaw of a line of program text.
#[derive(Clone, Copy, Debug, PartialEq, Eq, Error)]
pub enum TextFaultKind {
    #[error("no label, and no mnemonic with its operands")]
    Syntax,
    #[error("no mnemonic has this name")]
    UnknownMnemonic,
    #[error("a number doesn't fit")]
    NumberRange,
    #[error("no line has this label")]
    UnknownLabel,
    #[error("an earlier line has this label")]
    DoubleLabel,
    #[error("the label is too far away for the jump's field")]
    LabelTooFar,
    #[error("the program has no instruction")]
    NoInstruction,
    #[error("the program has too many words")]
    TooLong,
    #[error("register 10 can't be written")]
    WritesFramePointer,
}

/// Why a text isn't a program, or that an allocation failed.
#[derive(Clone, Copy, Debug, PartialEq, Eq, Error)]
pub enum TextFault {
    #[error("line {line}: {flaw}")]
    InLine {
        /// The line, counted from 1.
        line: usize,
        flaw: TextFaultKind,
    },
    #[error("out of memory")]
    Memory,
}

impl From<AllocError> for TextFault {
    ghost from_gives = { λ _ fault. fault ≡ Memory };

    fn from(_error: AllocError) -> TextFault {
        TextFault::Memory
    }
}

impl<T: Drop> From<AllocFailed<T>> for TextFault {
    ghost from_gives = { λ _ fault. fault ≡ Memory };

    fn from(_error: AllocFailed<T>) -> TextFault {
        TextFault::Memory
    }
}

impl TextFaultKind {
    /// Returns the flaw as a refusal, without its line. For a flaw of the code that the text means, the detail is the number of the code's refusal.
    pub fn refusal(self) -> Refusal
        ensures { result ≡ text_flaw.refusal self }
    {
        match self {
            TextFaultKind::Syntax => Refusal::refused(20, "Syntax"),
            TextFaultKind::UnknownMnemonic => Refusal::refused(21, "UnknownMnemonic"),
            TextFaultKind::NumberRange => Refusal::refused(22, "NumberRange"),
            TextFaultKind::UnknownLabel => Refusal::refused(23, "UnknownLabel"),
            TextFaultKind::DoubleLabel => Refusal::refused(24, "DoubleLabel"),
            TextFaultKind::LabelTooFar => Refusal::refused(25, "LabelTooFar"),
            TextFaultKind::NoInstruction => of_code(&CodeFault::Empty.refusal()),
            TextFaultKind::TooLong => of_code(&CodeFault::TooLong.refusal()),
            TextFaultKind::WritesFramePointer => of_code(&WordFault::WritesFramePointer.refusal()),
        }
    }
}

/// Returns the refusal of a text that is too long to be read, by its caller's limit.
pub fn text_too_long() -> Refusal
    ensures { result ≡ text_too_long }
{
    Refusal::refused(130, "TextTooLong")
}

fn of_code(code: &Refusal) -> Refusal
    ensures { result ≡ of_code code.now }
{
    Refusal::detailed(26, "CodeFault", code.number())
}

impl Fault for TextFault {
    ghost use Rattle.bpf_assembler.specs.TextFault.{refusal};

    ghost refusal_of = { refusal };

    fn refusal(&self) -> Refusal {
        match *self {
            TextFault::InLine { line, flaw } => flaw.refusal().at_line(line),
            TextFault::Memory => Refusal::memory(),
        }
    }
}

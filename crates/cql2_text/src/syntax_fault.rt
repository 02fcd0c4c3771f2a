//! Faults in tokens, before their lines and columns are known.
ghost use Rattle.std.specs.Prelude.{◌≡◌, ◌+◌, ◌-◌, length};
ghost use Rattle.cql2_text.specs.declared.syntax_fault.SyntaxFault.TheVariants as syntax_fault;
ghost use Rattle.cql2_text.specs.declared.syntax_fault.LiteralFault.TheVariants as literal_fault;

use crate::fault::{Construct, FilterFaultKind};
use cql2_tokens::Token;
use std::alloc::{AllocError, AllocFailed};

/// Why the inside of a string literal is not read.
#[derive(Clone, Copy, Drop)]
pub(crate) enum LiteralFault {
    /// Something else is expected at this offset after the opening quote, in bytes.
    At { offset: usize, expected: Construct },
    Long,
    Memory,
}

impl LiteralFault {
    /// Returns the fault for a construct that is expected where `rest` of a literal's inside begins.
    pub fn unexpected_character(spelling: &[u8], rest: &[u8], expected: Construct) -> LiteralFault
        ensures { result ≡ literal_fault.At (length spelling.now - length rest.now) expected }
    {
        LiteralFault::At {
            offset: spelling.len().saturating_sub(rest.len()),
            expected,
        }
    }
}

impl From<AllocError> for LiteralFault {
    ghost from_gives = { λ _ fault. fault ≡ literal_fault.Memory };

    fn from(_error: AllocError) -> LiteralFault {
        LiteralFault::Memory
    }
}

impl<T: Drop> From<AllocFailed<T>> for LiteralFault {
    ghost from_gives = { λ _ fault. fault ≡ literal_fault.Memory };

    fn from(_error: AllocFailed<T>) -> LiteralFault {
        LiteralFault::Memory
    }
}

/// A fault in a sequence of tokens.
#[derive(Clone, Copy)]
pub(crate) enum SyntaxFault {
    // Tokens left and not a position, as the parser sees no text. The reader computes the position of the one fault that is reported.
    At {
        /// The number of tokens left, including the one at fault.
        left: usize,
        /// The offset of the fault from that token's first byte, in bytes.
        offset: usize,
        flaw: FilterFaultKind,
    },
    Memory,
}

impl From<AllocError> for SyntaxFault {
    ghost from_gives = { λ _ fault. fault ≡ syntax_fault.Memory };

    fn from(_error: AllocError) -> SyntaxFault {
        SyntaxFault::Memory
    }
}

impl<T: Drop> From<AllocFailed<T>> for SyntaxFault {
    ghost from_gives = { λ _ fault. fault ≡ syntax_fault.Memory };

    fn from(_error: AllocFailed<T>) -> SyntaxFault {
        SyntaxFault::Memory
    }
}

impl SyntaxFault {
    /// Returns the fault for a flaw of the first token.
    pub fn at(words: &[Token], flaw: FilterFaultKind) -> SyntaxFault
        ensures { result ≡ syntax_fault.At (length words.now) 0 flaw }
    {
        SyntaxFault::At {
            left: words.len(),
            offset: 0,
            flaw,
        }
    }

    /// Returns the fault for a construct that is expected instead of the first token.
    pub fn unexpected_token(words: &[Token], expected: Construct) -> SyntaxFault
        ensures { result ≡ syntax_fault.At (length words.now) 0 (FilterFaultKind.Syntax expected) }
    {
        SyntaxFault::at(words, FilterFaultKind::Syntax(expected))
    }

    /// Returns the fault for a construct that is expected instead of the token before these.
    pub fn before(rest: &[Token], expected: Construct) -> SyntaxFault
        ensures { result ≡ syntax_fault.At (length rest.now + 1) 0 (FilterFaultKind.Syntax expected) }
    {
        SyntaxFault::At {
            left: rest.len() + 1,
            offset: 0,
            flaw: FilterFaultKind::Syntax(expected),
        }
    }

    /// Returns the fault for one in the string literal that is the first token.
    pub fn in_text(words: &[Token], fault: LiteralFault) -> SyntaxFault
        ensures long { fault ≡ LiteralFault.Long → result ≡ syntax_fault.At (length words.now) 0 FilterFaultKind.LongText }
        ensures memory { fault ≡ LiteralFault.Memory → result ≡ syntax_fault.Memory }
    {
        match fault {
            LiteralFault::At { offset, expected } => SyntaxFault::At {
                left: words.len(),
                offset: offset.saturating_add(1),
                flaw: FilterFaultKind::Syntax(expected),
            },
            LiteralFault::Long => SyntaxFault::at(words, FilterFaultKind::LongText),
            LiteralFault::Memory => SyntaxFault::Memory,
        }
    }
}

//! The fields that a row of the instruction table uses, and how (RFC 9669, section 3.1).
ghost use Rattle.std.specs.Prelude.{◌≡◌};
ghost use Rattle.bpf_insn.specs.Row.{uses, is_used, is_bad_width, is_disallowed, has_bad_width, has_unused_field, fault};

use crate::fault::WordFault;
use crate::instruction::Width;
use crate::word::Word;

/// What an instruction does with the register in the destination field.
#[derive(Clone, Copy)]
pub(crate) enum Destination {
    /// No destination; the field is zero.
    Nothing,
    Read,
    Written,
}

/// How a row uses the offset or the immediate.
#[derive(Clone, Copy)]
pub(crate) enum Use {
    /// Not used: it must be zero.
    Unused,
    Any,
    ZeroOrOne,
    /// Source width of a sign-extending move to this width; 0 means the whole register.
    MoveBits(Width),
    /// The number of bits that a byte swap keeps.
    SwapBits,
}

#[derive(Clone, Copy)]
pub(crate) struct Row {
    pub destination: Destination,
    pub uses_source: bool,
    pub offset: Use,
    pub immediate: Use,
}

impl Destination {
    fn is_used(self) -> bool
        ensures { result ≡ is_used self }
    {
        !matches!(self, Destination::Nothing)
    }
}

impl Use {
    /// Returns whether a number isn't one of the bit widths that the row allows.
    fn is_bad_width(self, number: i32) -> bool
        ensures { result ≡ is_bad_width self number }
    {
        match self {
            Use::MoveBits(Width::Bits32) => !matches!(number, 0 | 8 | 16),
            Use::MoveBits(Width::Bits64) => !matches!(number, 0 | 8 | 16 | 32),
            Use::SwapBits => !matches!(number, 16 | 32 | 64),
            _ => false,
        }
    }

    /// Returns whether a number is outside the row's allowed values.
    fn is_disallowed(self, number: i32) -> bool
        ensures { result ≡ is_disallowed self number }
    {
        match self {
            Use::Unused => number != 0,
            Use::ZeroOrOne => !matches!(number, 0 | 1),
            _ => false,
        }
    }
}

/// Returns the row with these uses.
pub(crate) fn uses(destination: Destination, uses_source: bool, offset: Use, immediate: Use) -> Row
    ensures { result ≡ uses destination uses_source offset immediate }
{
    Row {
        destination,
        uses_source,
        offset,
        immediate,
    }
}

impl Row {
    /// Returns the first fault of a word whose opcode has this row: registers, then the frame pointer, then widths, then unused fields.
    pub(crate) fn fault(self, word: Word) -> Option<WordFault>
        ensures { result ≡ fault self word }
    {
        if (self.destination.is_used() && word.destination > 10)
            || (self.uses_source && word.source > 10)
        {
            return Some(WordFault::BadRegister);
        }
        if self.destination == Destination::Written && word.destination == 10 {
            return Some(WordFault::WritesFramePointer);
        }
        if self.has_bad_width(word) {
            return Some(WordFault::BadWidth);
        }
        if self.has_unused_field(word) {
            return Some(WordFault::UnusedNotZero);
        }
        None
    }

    fn has_bad_width(self, word: Word) -> bool
        ensures { result ≡ has_bad_width self word }
    {
        self.offset.is_bad_width(i32::from(word.offset))
            || self.immediate.is_bad_width(word.immediate)
    }

    fn has_unused_field(self, word: Word) -> bool
        ensures { result ≡ has_unused_field self word }
    {
        (!self.destination.is_used() && word.destination != 0)
            || (!self.uses_source && word.source != 0)
            || self.offset.is_disallowed(i32::from(word.offset))
            || self.immediate.is_disallowed(word.immediate)
    }
}

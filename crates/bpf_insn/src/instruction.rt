//! Instructions, with an enum for each of their parts.
//!
//! A variant of `Insn` for each row of the instruction table, an enum for each part of a row. A combination that no word has can't be built, so
//! whatever takes an `Insn` needs no check of its own. The price is nested enums: a match over them takes a second jump, which is why the machine
//! runs flat forms. Discriminants are the standard's own codes where it has some, and the offset is added above them where it tells two instructions
//! apart (signed division, moves with sign extension).
//!
//! Always: a code has exactly one spelling in words. Therefore a wide load keeps its two immediates, not their number, and a register that is written
//! is a `WritableRegister`. A new variant belongs to a row in `rows.rt` and to every match here; the compiler names the others.
ghost use Rattle.std.specs.Prelude.{◌≡◌, length};
ghost use Rattle.bpf_insn.specs.Form.{spelling};
ghost use Rattle.bpf_insn.specs.Jump.{words, jump_distance};

use crate::register::{Register, WritableRegister};

/// What an arithmetic instruction does with its two operands. The discriminant is the code of RFC 9669, section 4.1, plus 16 if the offset is 1.
#[derive(Clone, Copy, Debug, PartialEq, Eq)]
pub enum Operation {
    /// The sum, truncated to the width.
    Add = 0x0,
    Subtract = 0x1,
    Multiply = 0x2,
    /// The quotient of unsigned numbers.
    Divide = 0x3,
    /// The quotient of signed numbers, rounded towards zero.
    SignedDivide = 0x13,
    Or = 0x4,
    And = 0x5,
    ShiftLeft = 0x6,
    /// A shift to the right that fills with zeros.
    ShiftRight = 0x7,
    /// The remainder of unsigned numbers.
    Modulo = 0x9,
    /// The remainder of signed numbers, with the sign of the first operand.
    SignedModulo = 0x19,
    ExclusiveOr = 0xa,
    /// The second operand.
    Move = 0xb,
    /// A shift to the right that fills with the sign.
    ArithmeticShiftRight = 0xc,
}

/// The width of an instruction's operands (RFC 9669, section 3.3: 32 bits in the classes ALU and JMP32, 64 bits in ALU64 and JMP). The discriminant
/// is the class of its arithmetic.
#[derive(Clone, Copy, Debug, PartialEq, Eq)]
pub enum Width {
    Bits32 = 0x4,
    Bits64 = 0x7,
}

/// Where the second operand comes from (RFC 9669, section 4: the source bit).
#[derive(Clone, Copy, Debug, PartialEq, Eq)]
pub enum Source {
    /// The word's immediate, which `immediate_operand` extends to an operand.
    Immediate(i32),
    Register(Register),
}

/// How many bits a move takes of its source, and to how many it extends their sign (RFC 9669, section 4.1: MOVSX). The discriminant is the class of
/// the width that it writes, plus 256 times the offset.
#[derive(Clone, Copy, Debug, PartialEq, Eq)]
pub enum SignExtension {
    Bits8To32 = 0x0804,
    Bits16To32 = 0x1004,
    Bits8To64 = 0x0807,
    Bits16To64 = 0x1007,
    Bits32To64 = 0x2007,
}

/// The byte order of a byte swap. The discriminant is its opcode (RFC 9669, section 4.2).
#[derive(Clone, Copy, Debug, PartialEq, Eq)]
pub enum ByteOrder {
    /// From the host's order to little-endian.
    LittleEndian = 0xd4,
    /// From the host's order to big-endian.
    BigEndian = 0xdc,
    /// To the opposite order, whatever the host's.
    Swapped = 0xd7,
}

/// The number of bits that a byte swap keeps (RFC 9669, section 4.2: the immediate).
#[derive(Clone, Copy, Debug, PartialEq, Eq)]
pub enum SwapWidth {
    Bits16 = 16,
    Bits32 = 32,
    Bits64 = 64,
}

/// The condition of a conditional jump on its two operands, with the codes of RFC 9669, section 4.3.
#[derive(Clone, Copy, Debug, PartialEq, Eq)]
pub enum Condition {
    Equal = 0x1,
    Greater = 0x2,
    GreaterOrEqual = 0x3,
    /// The operands have a bit in common.
    SharesBit = 0x4,
    NotEqual = 0x5,
    SignedGreater = 0x6,
    SignedGreaterOrEqual = 0x7,
    Less = 0xa,
    LessOrEqual = 0xb,
    SignedLess = 0xc,
    SignedLessOrEqual = 0xd,
}

/// The distance of a jump in words, counted from the word after it, and the field that holds it (RFC 9669, section 4.3: JA in the classes JMP and
/// JMP32).
#[derive(Clone, Copy, Debug, PartialEq, Eq)]
pub enum JumpDistance {
    /// In the offset.
    Short(i16),
    /// In the immediate.
    Long(i32),
}

/// The number of bytes that a load reads, and how it extends them. The discriminant is its opcode (RFC 9669, sections 5.1 and 5.2).
#[derive(Clone, Copy, Debug, PartialEq, Eq)]
pub enum LoadFormat {
    /// One byte, zero-extended (mode MEM, size B).
    Byte = 0x71,
    /// Two bytes.
    HalfWord = 0x69,
    /// Four bytes.
    Word = 0x61,
    /// Eight bytes.
    DoubleWord = 0x79,
    /// One byte, sign-extended (mode MEMSX, size B).
    SignedByte = 0x91,
    SignedHalfWord = 0x89,
    SignedWord = 0x81,
}

/// The number of bytes that a store writes. The discriminant is the size's bits in the opcode (RFC 9669, section 5.1).
#[derive(Clone, Copy, Debug, PartialEq, Eq)]
pub enum StoreSize {
    /// One byte.
    Byte = 0x10,
    /// Two bytes.
    HalfWord = 0x08,
    /// Four bytes.
    Word = 0x00,
    /// Eight bytes.
    DoubleWord = 0x18,
}

/// An instruction, with one variant for each row of the instruction table.
#[derive(Clone, Copy, Debug, PartialEq, Eq)]
pub enum Insn {
    /// An operation on a register, which receives the result, and an operand (section 4.1).
    Alu {
        operation: Operation,
        width: Width,
        destination: WritableRegister,
        source: Source,
    },
    /// A move of some bits with sign extension (section 4.1: MOVSX).
    MoveSignExtended {
        extension: SignExtension,
        destination: WritableRegister,
        source: Register,
    },
    /// The negation of a register (section 4.1: NEG).
    Negate {
        width: Width,
        destination: WritableRegister,
    },
    /// A change of a register's byte order (section 4.2: END).
    ByteSwap {
        order: ByteOrder,
        width: SwapWidth,
        destination: WritableRegister,
    },
    /// A conditional jump (section 4.3).
    JumpIf {
        condition: Condition,
        width: Width,
        left: Register,
        right: Source,
        /// The distance in words, counted from the word after the jump.
        offset: i16,
    },
    /// A jump (section 4.3: JA).
    Jump(JumpDistance),
    /// A call of a helper function, by its number (section 4.3.1).
    Call {
        /// The number's 32 bits.
        immediate: i32,
    },
    /// The end of the program, with register 0 as its answer (section 4.3).
    Exit,
    /// A read from memory, at a base register plus an offset in bytes, which may be negative (sections 5.1 and 5.2).
    Load {
        format: LoadFormat,
        destination: WritableRegister,
        base: Register,
        offset: i16,
    },
    /// A write of an immediate to memory (section 5.1: ST).
    StoreImmediate {
        size: StoreSize,
        base: Register,
        offset: i16,
        immediate: i32,
    },
    /// A write of a register to memory (section 5.1: STX).
    Store {
        size: StoreSize,
        base: Register,
        offset: i16,
        source: Register,
    },
    /// A 64-bit number for a register, in two words (section 5.4).
    WideLoad {
        destination: WritableRegister,
        // Two immediates, not one number: a definition's numbers have no upper limit, and several would have the same words.
        /// The low 32 bits.
        immediate: i32,
        /// The high 32 bits, from the second word.
        next_immediate: i32,
    },
}

impl JumpDistance {
    /// Returns the distance in words.
    pub fn words(self) -> i32
        ensures { result ≡ words self }
    {
        match self {
            JumpDistance::Short(distance) => i32::from(distance),
            JumpDistance::Long(distance) => distance,
        }
    }
}

impl Insn {
    /// Returns the distance that the instruction jumps, if it's a jump, in words counted from the word after it. A conditional jump goes there if
    /// it's taken (RFC 9669, section 4.3).
    pub fn jump_distance(&self) -> Option<i32>
        ensures { result ≡ jump_distance self.now }
    {
        match *self {
            Insn::JumpIf { offset, .. } => Some(i32::from(offset)),
            Insn::Jump(distance) => Some(distance.words()),
            _ => None,
        }
    }

    /// Returns the number of words that the instruction takes.
    pub fn words(&self) -> usize
        ensures { result ≡ length (spelling self.now) }
    {
        match self {
            Insn::WideLoad { .. } => 2,
            _ => 1,
        }
    }
}

//! The state of a bare machine, and what each instruction does to it.
//!
//! A register is 64 bits, a pointer is its offset, and nothing says which is which. The machine repeats no check of the verifier, which also says
//! which area a load reads. So its steps are proved only for words that hold a state that the meaning of the program reaches. A method per form takes
//! the operation and the width as arguments; `execute` passes constants, and all of this is inlined into its match, so each form compiles to straight
//! code. Only calls are kept out of it.
//!
//! Always: the machine is never cleared. `restart` writes what a program may read first; whatever else is left from the segment before is written by
//! an accepted program before it is read. It serves all segments of a run, and nothing allocates.
ghost use Rattle.std.specs.Prelude.{◌≡◌, ◌≤◌, ◌≤ℤ◌, ◌+◌, ℕ, pos, List, length, Ok, IsOk, unsigned_abs};
ghost use Rattle.std.specs.Int.{bytes_low_first};
ghost use Rattle.tl_segments.specs.Segment.{SegmentParts};
ghost use Rattle.bpf_insn.specs.Memory.{load_length, store_length};
ghost use Rattle.bpf_insn.specs.declared.instruction.Insn.{Insn};
ghost use Rattle.bpf_insn.specs.declared.value.Area.{Area};
ghost use Rattle.bpf_flat_insn.specs.Flat.{alu_immediate, alu_register, jump_immediate, jump_register, load, move_extended, store_immediate, store_register};
ghost use Rattle.bpf_helpers.specs.Call.{MeetsSignature, write};
ghost use Rattle.bpf_helpers.specs.Helper.{signature};
ghost use Rattle.bpf_meaning.specs.State.{start};
ghost use Rattle.bpf_machine.specs.Machine.{IsReachable};
ghost use Rattle.bpf_machine.specs.Words.{Ends, Continues, Holds, MeetsCall, address, argument_word, argument_words, call_helper, end_of, loaded, next_words, with_word, word_in, words_of};

use bpf_flat_insn::{
    JumpWithImmediate, JumpWithRegister, LoadOperands, StoreImmediateOperands,
    StoreRegisterOperands, WithImmediate, WithRegister,
};
use bpf_helpers::{Argument, Helper, call};
use bpf_insn::{
    ByteOrder, Condition, FRAME_LENGTH, LoadFormat, Operation, Register, SignExtension, StoreSize,
    SwapWidth, Width, WritableRegister, immediate_operand, negate, store_length, wide_number,
};
use bpf_meaning::REGISTERS;
use byteorder::{ByteOrder as _, LittleEndian};
use std::alloc::Allocator;
use tl_segments::Segment;

/// The result of a program on a segment.
#[derive(Clone, Copy)]
pub struct Answer {
    /// Register 0 at the end: 0 if the segment isn't selected.
    pub r0: u64,
    /// The score that the program gave the segment, or 0 if it gave none.
    pub score: u64,
}

/// Registers 0 to 10 (RFC 9669, section 3.1). Each holds a number, or a pointer as its offset in two's complement.
/// Part of the library's fixed interface.
#[derive(Clone, Copy)]
pub struct Registers {
    pub words: [u64; REGISTERS],
}

/// A running program, as bare words.
#[derive(Drop)]
pub struct Bare {
    /// The entry of the next instruction: its index, from 0.
    pub at: usize,
    pub registers: Registers,
    /// The program's own memory, by offset from 0.
    pub frame: [u8; FRAME_LENGTH],
    /// The score of the segment's row if the program selects the segment.
    pub score: u64,
}

impl Bare {
    /// Returns the machine at the start of a program, which is the same on every segment: register 1 points to the record's first byte, register 10
    /// past the end of the frame. No program reads the rest before writing it.
    pub fn start() -> Self
        ensures entry { result.at ≡ 0 }
        ensures words { Holds start (words_of result) }
        ensures begins { (code : List Insn) (segment : SegmentParts) → IsReachable code segment result }
    {
        let mut bare = Bare {
            at: 0,
            registers: Registers {
                words: [0; REGISTERS],
            },
            frame: [0; FRAME_LENGTH],
            score: 0,
        };
        bare.restart();
        bare
    }

    /// Resets the machine to the start of a program.
    pub(crate) fn restart(&mut self)
        ensures entry { self.new.at ≡ 0 }
        ensures words { Holds start (words_of self.new) }
    {
        // Nothing else is read before it is written: the verifier refuses any program that would.
        self.at = 0;
        self.registers.words[1] = 0;
        self.registers.words[10] = FRAME_LENGTH as u64;
        self.score = 0;
    }

    /// Returns the word in a register.
    #[inline(always)]
    fn word(&self, register: u8) -> u64
        requires { register ≤ 10 }
        ensures { result ≡ word_in (words_of self.now) register }
    {
        self.registers.words[usize::from(register)]
    }

    /// Sets a register.
    #[inline(always)]
    fn set(&mut self, destination: WritableRegister, word: u64)
        ensures { words_of self.new ≡ with_word (words_of self.old) destination.number word }
    {
        self.registers.words[usize::from(destination.number)] = word;
    }

    /// Applies an operation with an immediate as the second operand (RFC 9669, section 4.1).
    #[inline(always)]
    #[tactic(auto, unfolding(crate::specs::Words::next_words))]
    pub(crate) fn alu_immediate(
        &mut self,
        operation: Operation,
        width: Width,
        operands: WithImmediate,
        next: usize,
    ) -> usize
        ensures { (segment : SegmentParts) (areas : ℕ → Area) (target : ℕ)
            → next_words segment areas (words_of self.old) next target (alu_immediate operation width operands) ≡ Ok (Continues (words_of self.new) result) }
    {
        let x = self.word(operands.destination.number);
        let y = immediate_operand(operands.immediate);
        self.set(operands.destination, operation.apply(width, x, y));
        next
    }

    /// Applies an operation with a register as the second operand.
    #[inline(always)]
    #[tactic(auto, unfolding(crate::specs::Words::next_words))]
    pub(crate) fn alu_register(
        &mut self,
        operation: Operation,
        width: Width,
        operands: WithRegister,
        next: usize,
    ) -> usize
        ensures { (segment : SegmentParts) (areas : ℕ → Area) (target : ℕ)
            → next_words segment areas (words_of self.old) next target (alu_register operation width operands) ≡ Ok (Continues (words_of self.new) result) }
    {
        let x = self.word(operands.destination.number);
        let y = self.word(operands.source.number);
        self.set(operands.destination, operation.apply(width, x, y));
        next
    }

    /// Moves a register with sign extension.
    #[inline(always)]
    #[tactic(auto, unfolding(crate::specs::Words::next_words))]
    pub(crate) fn extend(
        &mut self,
        extension: SignExtension,
        operands: WithRegister,
        next: usize,
    ) -> usize
        ensures { (segment : SegmentParts) (areas : ℕ → Area) (target : ℕ)
            → next_words segment areas (words_of self.old) next target (move_extended extension operands) ≡ Ok (Continues (words_of self.new) result) }
    {
        let x = self.word(operands.source.number);
        self.set(operands.destination, extension.apply(x));
        next
    }

    /// Negates a register.
    #[inline(always)]
    #[tactic(auto, unfolding(crate::specs::Words::next_words))]
    pub(crate) fn negate(
        &mut self,
        width: Width,
        destination: WritableRegister,
        next: usize,
    ) -> usize
        ensures { (segment : SegmentParts) (areas : ℕ → Area) (target : ℕ)
            → next_words segment areas (words_of self.old) next target (Insn.Negate width destination) ≡ Ok (Continues (words_of self.new) result) }
    {
        let x = self.word(destination.number);
        self.set(destination, negate(width, x));
        next
    }

    /// Changes the byte order of a register (section 4.2).
    #[inline(always)]
    #[tactic(auto, unfolding(crate::specs::Words::next_words))]
    pub(crate) fn byte_swap(
        &mut self,
        order: ByteOrder,
        width: SwapWidth,
        destination: WritableRegister,
        next: usize,
    ) -> usize
        ensures { (segment : SegmentParts) (areas : ℕ → Area) (target : ℕ)
            → next_words segment areas (words_of self.old) next target (Insn.ByteSwap order width destination) ≡ Ok (Continues (words_of self.new) result) }
    {
        let x = self.word(destination.number);
        self.set(destination, order.apply(width, x));
        next
    }

    /// Loads a 64-bit immediate (section 5.4).
    #[inline(always)]
    #[tactic(auto, unfolding(crate::specs::Words::next_words))]
    pub(crate) fn wide_load(
        &mut self,
        destination: WritableRegister,
        immediate: i32,
        next_immediate: i32,
        next: usize,
    ) -> usize
        ensures { (segment : SegmentParts) (areas : ℕ → Area) (target : ℕ)
            → next_words segment areas (words_of self.old) next target (Insn.WideLoad destination immediate next_immediate)
            ≡ Ok (Continues (words_of self.new) result) }
    {
        self.set(destination, wide_number(immediate, next_immediate));
        next
    }

    /// Evaluates a conditional jump that compares with an immediate (section 4.3), and returns the next entry.
    #[inline(always)]
    #[tactic(auto, unfolding(crate::specs::Words::next_words))]
    pub(crate) fn jump_immediate(
        &self,
        condition: Condition,
        width: Width,
        jump: JumpWithImmediate,
        next: usize,
    ) -> usize
        ensures { (segment : SegmentParts) (areas : ℕ → Area)
            → next_words segment areas (words_of self.now) next jump.target (jump_immediate condition width jump) ≡ Ok (Continues (words_of self.now) result) }
    {
        let x = self.word(jump.left.number);
        let y = immediate_operand(jump.immediate);
        if condition.holds(width, x, y) {
            return jump.target as usize;
        }
        next
    }

    /// Evaluates a conditional jump that compares with a register, and returns the next entry.
    #[inline(always)]
    #[tactic(auto, unfolding(crate::specs::Words::next_words))]
    pub(crate) fn jump_register(
        &self,
        condition: Condition,
        width: Width,
        jump: JumpWithRegister,
        next: usize,
    ) -> usize
        ensures { (segment : SegmentParts) (areas : ℕ → Area)
            → next_words segment areas (words_of self.now) next jump.target (jump_register condition width jump) ≡ Ok (Continues (words_of self.now) result) }
    {
        let x = self.word(jump.left.number);
        let y = self.word(jump.right.number);
        if condition.holds(width, x, y) {
            return jump.target as usize;
        }
        next
    }

    /// Returns the program's result, at its end.
    #[inline(always)]
    pub(crate) fn answer(&self) -> Answer
        ensures { Ends result.r0 result.score ≡ end_of (words_of self.now) }
    {
        Answer {
            r0: self.registers.words[0],
            score: self.score,
        }
    }

    /// Loads a register from the record (sections 5.1 and 5.2).
    #[inline(always)]
    #[tactic(auto, unfolding(crate::specs::Words::next_words))]
    pub(crate) fn load_record<A: Allocator>(
        &mut self,
        segment: &Segment<A>,
        format: LoadFormat,
        operands: LoadOperands,
        next: usize,
    ) -> usize
        requires { IsOk (next_words segment.now (λ register. Area.Record) (words_of self.old) next 0 (load format operands)) }
        ensures { next_words segment.now (λ register. Area.Record) (words_of self.old) next 0 (load format operands) ≡ Ok (Continues (words_of self.new) result) }
    {
        let bytes = segment.bytes();
        let at = self.address(operands.base, operands.offset);
        let word = load_number(bytes, format, at);
        self.set(operands.destination, word);
        next
    }

    /// Loads a register from the frame.
    #[inline(always)]
    #[tactic(auto, unfolding(crate::specs::Words::next_words))]
    pub(crate) fn load_frame<A: Allocator>(
        &mut self,
        segment: &Segment<A>,
        format: LoadFormat,
        operands: LoadOperands,
        next: usize,
    ) -> usize
        requires { IsOk (next_words segment.now (λ register. Area.Frame) (words_of self.old) next 0 (load format operands)) }
        ensures { next_words segment.now (λ register. Area.Frame) (words_of self.old) next 0 (load format operands) ≡ Ok (Continues (words_of self.new) result) }
    {
        let at = self.address(operands.base, operands.offset);
        let word = load_number(&self.frame, format, at);
        self.set(operands.destination, word);
        next
    }

    /// Stores an immediate in the frame (section 5.1).
    #[inline(always)]
    #[tactic(auto, unfolding(crate::specs::Words::next_words))]
    pub(crate) fn store_immediate<A: Allocator>(
        &mut self,
        segment: &Segment<A>,
        size: StoreSize,
        operands: StoreImmediateOperands,
        next: usize,
    ) -> usize
        requires { IsOk (next_words segment.now (λ register. Area.Frame) (words_of self.old) next 0 (store_immediate size operands)) }
        ensures { next_words segment.now (λ register. Area.Frame) (words_of self.old) next 0 (store_immediate size operands)
            ≡ Ok (Continues (words_of self.new) result) }
    {
        let at = self.address(operands.base, operands.offset);
        store_number(
            &mut self.frame,
            size,
            at,
            immediate_operand(operands.immediate),
        );
        next
    }

    /// Stores a register in the frame.
    #[inline(always)]
    #[tactic(auto, unfolding(crate::specs::Words::next_words))]
    pub(crate) fn store_register<A: Allocator>(
        &mut self,
        segment: &Segment<A>,
        size: StoreSize,
        operands: StoreRegisterOperands,
        next: usize,
    ) -> usize
        requires { IsOk (next_words segment.now (λ register. Area.Frame) (words_of self.old) next 0 (store_register size operands)) }
        ensures { next_words segment.now (λ register. Area.Frame) (words_of self.old) next 0 (store_register size operands)
            ≡ Ok (Continues (words_of self.new) result) }
    {
        let at = self.address(operands.base, operands.offset);
        let number = self.word(operands.source.number);
        store_number(&mut self.frame, size, at, number);
        next
    }

    /// Returns the offset within an area that a base register plus an offset points to.
    #[inline(always)]
    fn address(&self, base: Register, offset: i16) -> usize
        requires from_start { pos 0 ≤ℤ address (words_of self.now) base.number offset }
        requires to_end { address (words_of self.now) base.number offset ≤ℤ pos FRAME_LENGTH }
        ensures { result ≡ unsigned_abs (address (words_of self.now) base.number offset) }
    {
        (self.word(base.number).cast_signed() + i64::from(offset)) as usize
    }

    /// Calls a helper function by its number.
    #[cold]
    #[inline(never)]
    #[tactic(auto, unfolding(crate::specs::Words::next_words))]
    pub(crate) fn call_number<A: Allocator>(
        &mut self,
        segment: &Segment<A>,
        immediate: i32,
        next: usize,
    ) -> usize
        requires possible { IsOk (next_words segment.now (λ register. Area.Frame) (words_of self.old) next 0 (Insn.Call immediate)) }
        requires meets { MeetsCall (words_of self.old) (Insn.Call immediate) }
        ensures { next_words segment.now (λ register. Area.Frame) (words_of self.old) next 0 (Insn.Call immediate)
            ≡ Ok (Continues (words_of self.new) result) }
    {
        match Helper::by_number(immediate.cast_unsigned()) {
            Some(helper) => self.call(segment, helper),
            // The verifier refuses unknown functions.
            None => unreachable!(),
        }
        next
    }

    /// Calls a helper function with the words in registers 1 to 3. Sets only register 0: whatever a call leaves in registers 1 to 5 is never read.
    fn call<A: Allocator>(&mut self, segment: &Segment<A>, helper: Helper)
        requires { MeetsSignature helper (argument_words (words_of self.old) (signature helper).arguments) }
        ensures { words_of self.new ≡ call_helper segment.now (words_of self.old) helper }
    {
        let [first, second, third] = helper.signature().arguments;
        let arguments = [
            self.argument(1, first),
            self.argument(2, second),
            self.argument(3, third),
        ];
        self.registers.words[0] = call(
            helper,
            arguments,
            segment,
            &mut self.frame,
            &mut self.score,
        );
    }

    /// Returns an argument, numbered from 1. An unused argument isn't read.
    fn argument(&self, number: u8, required: Argument) -> u64
        requires { number ≤ 10 }
        ensures { result ≡ argument_word (words_of self.now) number required }
    {
        match required {
            Argument::Unused => 0,
            _ => self.word(number),
        }
    }
}

/// Loads a number from the bytes at an offset.
#[inline(always)]
#[tactic(auto, using(crate::proofs::LoadLemmas::one_byte, crate::proofs::LoadLemmas::some_bytes))]
fn load_number(bytes: &[u8], format: LoadFormat, at: usize) -> u64
    requires { at + load_length format ≤ length bytes.now }
    ensures { result ≡ loaded format bytes.now at }
{
    match format {
        LoadFormat::Byte | LoadFormat::SignedByte => format.extend(u64::from(bytes[at])),
        LoadFormat::HalfWord | LoadFormat::SignedHalfWord => {
            format.extend(u64::from(LittleEndian::read_u16(&bytes[at..at + 2])))
        }
        LoadFormat::Word | LoadFormat::SignedWord => {
            format.extend(u64::from(LittleEndian::read_u32(&bytes[at..at + 4])))
        }
        LoadFormat::DoubleWord => format.extend(LittleEndian::read_u64(&bytes[at..at + 8])),
    }
}

/// Writes the low bytes of a number at an offset, lowest first.
#[inline(always)]
fn store_number(frame: &mut [u8; FRAME_LENGTH], size: StoreSize, at: usize, number: u64)
    requires { at + store_length size ≤ FRAME_LENGTH }
    ensures { frame.new ≡ write frame.old at (bytes_low_first 0 (store_length size) number) }
{
    let count = store_length(size);
    frame[at..at + count].copy_from_slice(&number.to_le_bytes()[..count]);
}

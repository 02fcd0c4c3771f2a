//! Codes: instructions with their places, built one by one.
ghost use Rattle.std.specs.Prelude.{◌≡◌, ◌≤◌, ◌<◌, ◌+◌, ◌++◌, ◌∷◌, [], length, IfOk, IfErr, OnOk, OnErr, IfSome, IsSome, MatchResult, Err};
ghost use Rattle.bpf_insn.specs.Form.{spelling};
ghost use Rattle.bpf_insn.specs.Code.{HasProgramSize, word_count, instruction_at, index_at, place_of, IsPushFault};
ghost use Rattle.bpf_insn.specs.Table.{indexes_in};
ghost use Rattle.bpf_insn.specs.declared.fault.CodeFault.{CodeFault};

use crate::fault::{CodeFault, WordFault};
use crate::instruction::Insn;
use crate::register::{Register, WritableRegister};
use std::alloc::{AllocError, Allocator};
use std::marker::Model;

// There are no loops, so compilers unroll them: a test of 5,000 names takes 25,000 words.
/// The maximum number of words in a program, of eight bytes each.
pub const MAX_WORDS: usize = 65_536;

/// A code that is built instruction by instruction, up to `MAX_WORDS` words. Contracts see the instructions as a list. It keeps the allocator that
/// it was made with.
#[derive(Drop)]
pub struct CodeBuilder<A: Allocator> {
    // Both numberings are kept, so finding an instruction takes no search either way.
    instructions: Vec<Insn, A>,
    // The place of each instruction.
    places: Vec<u32, A>,
    // For each word, the index of the instruction that begins there.
    indexes: Vec<Option<u32>, A>,
}

impl<A: Allocator> Model for CodeBuilder<A> {
    ghost use Rattle.std.specs.Prelude.{◌≡◌, ◌≤◌, List};
    ghost use Rattle.bpf_insn.specs.Code.{word_count};
    ghost use Rattle.bpf_insn.specs.Table.{places_from, indexes_from};
    ghost use Rattle.bpf_insn.specs.declared.instruction.Insn.{Insn};
    ghost use Rattle.bpf_insn.specs.declared.code.TheConstants.{MAX_WORDS};

    ghost Value = { List Insn };

    ghost view = { λ b. b.instructions.items };

    ghost invariant = { λ b. (b.places.items ≡ places_from 0 b.instructions.items)
        × (b.indexes.items ≡ indexes_from 0 b.instructions.items)
        × (word_count b.instructions.items ≤ MAX_WORDS) };
}

impl<A: Allocator + Copy> CodeBuilder<A> {
    /// Returns a builder without instructions. Allocates nothing.
    pub fn new(alloc: A) -> Self
        ensures { result ≡ [] }
    {
        CodeBuilder {
            instructions: Vec::new(alloc),
            places: Vec::new(alloc),
            indexes: Vec::new(alloc),
        }
    }

    /// Returns a builder without instructions, with room for `words` words.
    pub(crate) fn with_capacity(alloc: A, words: usize) -> Result<Self, AllocError>
        ensures { IfOk result (λ builder. builder ≡ []) }
    {
        Ok(CodeBuilder {
            instructions: Vec::with_capacity(alloc, words)?,
            places: Vec::with_capacity(alloc, words)?,
            indexes: Vec::with_capacity(alloc, words)?,
        })
    }
}

impl<A: Allocator> CodeBuilder<A> {
    /// Returns the number of words that the instructions take, which is the place of the next one.
    pub fn words(&self) -> usize
        ensures { result ≡ word_count self.now }
    {
        self.indexes.len()
    }

    /// Checks that a register is writable, for the destination of the next instruction.
    pub fn destination(&self, register: Register) -> Result<WritableRegister, CodeFault>
        ensures ok { IfOk result (λ destination. destination.number ≡ register.number) }
        ensures err { IfErr result (λ fault. (register.number ≡ 10)
            × (fault ≡ CodeFault.InWord (word_count self.now) WordFault.WritesFramePointer)) }
    {
        let number = register.number;
        if number > 9 {
            let (place, fault) = (self.words(), WordFault::WritesFramePointer);
            return Err(CodeFault::InWord { place, fault });
        }
        Ok(WritableRegister { number })
    }

    /// Appends an instruction, in constant time.
    pub fn push(&mut self, insn: Insn) -> Result<(), CodeFault>
        ensures result { MatchResult result (λ _. self.new ≡ self.old ++ insn ∷ []) (IsPushFault self.old insn) }
        ensures refused { OnErr result (self.new ≡ self.old) }
        ensures too_long { MAX_WORDS < word_count self.old + length (spelling insn) → result ≡ Err CodeFault.TooLong }
    {
        let place = self.words();
        if MAX_WORDS - place < insn.words() {
            return Err(CodeFault::TooLong);
        }
        // Room for all three lists comes before the first push, so a failed allocation leaves them equally long.
        self.instructions.reserve(1)?;
        self.places.reserve(1)?;
        push_indexes(&mut self.indexes, self.instructions.len() as u32, insn)?;
        self.places.push_reserved(place as u32);
        self.instructions.push_reserved(insn);
        Ok(())
    }

    /// Returns the code, or an error if there is no instruction.
    pub fn finish(self) -> Result<Code<A>, CodeFault>
        ensures ok { IfOk result (λ code. (code ≡ self) × HasProgramSize (word_count code)) }
        ensures err { IfErr result (λ fault. (fault ≡ CodeFault.Empty) × (self ≡ [])) }
        ensures empty { self ≡ [] → result ≡ Err CodeFault.Empty }
    {
        if self.instructions.is_empty() {
            return Err(CodeFault::Empty);
        }
        Ok(Code { built: self })
    }
}

/// Appends an instruction's index at its first word, and nothing at the second one, if there is one.
fn push_indexes<A: Allocator>(
    indexes: &mut Vec<Option<u32>, A>,
    index: u32,
    insn: Insn,
) -> Result<(), AllocError>
    ensures ok { OnOk result (indexes.new.items ≡ indexes.old.items ++ indexes_in index (spelling insn)) }
    ensures err { OnErr result (indexes.new.items ≡ indexes.old.items) }
{
    let words = insn.words();
    indexes.reserve(words)?;
    indexes.push_reserved(Some(index));
    if words == 2 {
        indexes.push_reserved(None);
    }
    Ok(())
}

/// The instructions of a program, in order: 1 to `MAX_WORDS` words. Contracts see them as a list. A place counts words from 0, an index counts
/// instructions from 0.
#[derive(Drop)]
pub struct Code<A: Allocator> {
    built: CodeBuilder<A>,
}

impl<A: Allocator> Model for Code<A> {
    ghost use Rattle.std.specs.Prelude.{List};
    ghost use Rattle.bpf_insn.specs.Code.{HasProgramSize, word_count};
    ghost use Rattle.bpf_insn.specs.declared.instruction.Insn.{Insn};

    ghost Value = { List Insn };

    ghost view = { λ code. code.built };

    ghost invariant = { λ code. HasProgramSize (word_count code.built) };
}

impl<A: Allocator> Code<A> {
    /// Returns the instructions in order, by index. A wide load is one instruction but two words.
    pub fn instructions(&self) -> &[Insn]
        ensures value { result.now ≡ self.now }
        ensures sized { HasProgramSize (word_count self.now) }
    {
        self.built.instructions.as_slice()
    }

    /// Returns the instructions in order, and frees the lookup by place.
    pub fn into_instructions(self) -> Vec<Insn, A>
        ensures value { result.items ≡ self }
        ensures sized { HasProgramSize (word_count self) }
    {
        self.built.instructions
    }

    /// Returns the number of words that the instructions take.
    pub fn words(&self) -> usize
        ensures value { result ≡ word_count self.now }
        ensures sized { HasProgramSize (word_count self.now) }
    {
        self.built.words()
    }

    /// Returns the place of the instruction with an index.
    pub fn place(&self, index: usize) -> usize
        requires { index < length self.now }
        ensures { result ≡ place_of self.now index }
    {
        self.built.places[index] as usize
    }

    /// Returns the index of the instruction that begins at a place, or `None` if none begins there.
    #[inline(always)]
    pub fn index_at(&self, place: usize) -> Option<usize>
        ensures value { result ≡ index_at self.now place }
        ensures within { IfSome result (λ index. index < length self.now) }
    {
        let index = self.built.indexes.get(place).copied().flatten()?;
        Some(index as usize)
    }

    /// Returns the instruction that begins at a place, or `None` if none begins there.
    #[inline(always)]
    pub fn at(&self, place: usize) -> Option<Insn>
        ensures value { result ≡ instruction_at self.now place }
        ensures within { IsSome result → place < MAX_WORDS }
    {
        let index = self.index_at(place)?;
        Some(self.built.instructions[index])
    }
}

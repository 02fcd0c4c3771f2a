//! Code written back to front, so that each jump's distance is known when it is written.
//!
//! Jumps in a filter's program lead ahead, so whoever writes the end first knows each distance when it writes the jump, and nothing is patched. The
//! price is that callers read upside down: the last statement of a function writes the words that run first.
//!
//! A question has two exits: it falls through its end for one answer and skips some words for the other. Two questions in a row are `let words =
//! code.words()`, the second one's code, `exits_before`, and the first one's code: the answer that settles both skips the second.
//!
//! Always: `words` counts the words of all instructions, so distances need no pass over them; the code never exceeds a program's limit, and a filter
//! is refused as too long only if its program would be. A conditional jump has 16 bits and is replaced by two instructions where they don't reach, so
//! callers needn't care about distances.
ghost use Rattle.std.specs.Prelude.{◌≡◌, ◌≤◌, ◌-◌, ◌∷◌, ◌++◌, [], pos, IfErr, IfOk};
ghost use Rattle.std.specs.List.{list_any};
ghost use Rattle.bpf_insn.specs.Code.{word_count};
ghost use Rattle.bpf_insn.specs.declared.code.TheConstants.{MAX_WORDS};
ghost use Rattle.cql2_code.specs.Expressions.{zero_comparison};
ghost use Rattle.cql2_code.specs.Layout as layout;
ghost use Rattle.cql2_code.specs.Layout.{IsBefore, IsPrepended, IsTooLong, Prepends, call, comparison_code, jump, move, skip_if, store_name, subject_code};
ghost use Rattle.cql2_code.specs.Layout.{into_argument_1};
ghost use Rattle.cql2_code.specs.Question.{Decided, Holds};
ghost use Rattle.cql2_code.specs.declared.fault.CompileFault.TheVariants.{Memory};
ghost use Rattle.cql2_code.specs.declared.question.Subject.TheVariants.{InRange, NameIs};

use crate::fault::CompileFault;
use crate::instructions::{
    call, copy, from_argument_1, from_frame, into_argument_1, into_argument_2, into_argument_3,
    jump, jump_if, load, move_number, move_to_name, set_number, store_word, wide_load,
    writes_saved,
};
use crate::question::{Exits, Subject, Test, coordinate_id, field_id, opposite};
use bpf_helpers::Helper;
use bpf_insn::{Code, CodeBuilder, Insn, MAX_WORDS, Source};
use cql2::Comparison;
use std::alloc::Allocator;
use std::marker::Model;

/// The last instructions of a code. Contracts see them as a list.
#[derive(Drop)]
pub(crate) struct CodeSuffix<A: Allocator> {
    reversed: Vec<Insn, A>,
    words: usize,
    keeps_numbers: bool,
}

impl<A: Allocator> Model for CodeSuffix<A> {
    ghost use Rattle.std.specs.Prelude.{◌≡◌, ◌≤◌, List, reverse};
    ghost use Rattle.std.specs.List.{list_any};
    ghost use Rattle.cql2_code.specs.Layout.{writes_saved};
    ghost use Rattle.bpf_insn.specs.Code.{word_count};
    ghost use Rattle.bpf_insn.specs.declared.code.TheConstants.{MAX_WORDS};
    ghost use Rattle.bpf_insn.specs.declared.instruction.Insn.{Insn};

    ghost Value = { List Insn };

    ghost view = { λ suffix. reverse suffix.reversed.items };

    ghost invariant = { λ suffix. (suffix.words ≡ word_count (reverse suffix.reversed.items)) × (suffix.words ≤ MAX_WORDS)
        × (suffix.keeps_numbers ≡ list_any writes_saved (reverse suffix.reversed.items)) };
}

impl<A: Allocator + Copy> CodeSuffix<A> {
    /// Returns a suffix with no instructions.
    pub fn new(alloc: A) -> Self
        ensures { result ≡ [] }
    {
        CodeSuffix {
            reversed: Vec::new(alloc),
            words: 0,
            keeps_numbers: false,
        }
    }

    /// Returns the number of words in the instructions.
    pub fn words(&self) -> usize
        ensures value { result ≡ word_count self.now }
        ensures few { result ≤ MAX_WORDS }
    {
        self.words
    }

    /// Returns whether an instruction writes a register that keeps numbers.
    pub fn writes_saved(&self) -> bool
        ensures { result ≡ list_any layout.writes_saved self.now }
    {
        self.keeps_numbers
    }

    /// Adds an instruction before the others.
    pub fn prepend(&mut self, insn: Insn) -> Result<(), CompileFault>
        ensures { IsPrepended result (insn ∷ self.old) self.new }
    {
        let words = self.words + insn.words();
        if words > MAX_WORDS {
            return Err(CompileFault::TooLong);
        }
        self.reversed.reserve(1)?;
        self.reversed.push_reserved(insn);
        self.words = words;
        self.keeps_numbers |= writes_saved(insn);
        Ok(())
    }

    /// Adds instructions before the others.
    pub fn prepend_all(&mut self, insns: &[Insn]) -> Result<(), CompileFault>
        ensures { IsPrepended result (insns.now ++ self.old) self.new }
    {
        let Some((first, rest)) = insns.split_first() else {
            return Ok(());
        };
        // The last instruction is written first.
        self.prepend_all(rest)?;
        self.prepend(*first)
    }

    /// Returns the completed code.
    pub fn into_code(self, alloc: A) -> Result<Code<A>, CompileFault>
        ensures ok { IfOk result (λ code. code ≡ self) }
        ensures err { IfErr result (λ fault. fault ≡ Memory) }
        ensures fits { ¬ IsTooLong self }
    {
        let mut builder = CodeBuilder::new(alloc);
        for insn in self.reversed.iter().rev() {
            // The limit held for each instruction when it was added, so only an allocation can fail.
            let Ok(()) = builder.push(*insn) else {
                return Err(CompileFault::Memory);
            };
        }
        let Ok(code) = builder.finish() else {
            return Err(CompileFault::Memory);
        };
        Ok(code)
    }

    /// Returns the exits of the first of two questions. The code had `words` words before the second question was written.
    pub fn exits_before(&self, words: usize, neutral: bool, exits: Exits) -> Exits
        requires written { words ≤ word_count self.now }
        requires inside { exits.skip ≤ words }
        ensures before { IsBefore neutral exits result (word_count self.now - words) }
        ensures inside { result.skip ≤ word_count self.now }
    {
        let second = self.words() - words;
        let skip = if exits.falls == neutral {
            second + exits.skip
        } else {
            second
        };
        Exits {
            falls: neutral,
            skip,
        }
    }

    /// Writes the code of a question whose answer is known.
    pub fn prepend_constant(&mut self, found: bool, exits: Exits) -> Result<(), CompileFault>
        requires { exits.skip ≤ word_count self.old }
        ensures { Prepends result (Decided found) exits self.old self.new }
    {
        if found == exits.falls {
            return Ok(());
        }
        self.prepend_jump(exits)
    }

    /// Writes a jump that is always taken.
    fn prepend_jump(&mut self, exits: Exits) -> Result<(), CompileFault>
        requires { exits.skip ≤ word_count self.old }
        ensures { IsPrepended result (jump (pos exits.skip) ∷ self.old) self.new }
    {
        // No distance is greater than the number of words, which has its limit.
        let _words = self.words();
        self.prepend(jump(exits.skip))
    }

    /// Writes the code of a test.
    pub fn prepend_test(&mut self, test: Test, exits: Exits) -> Result<(), CompileFault>
        requires { exits.skip ≤ word_count self.old }
        ensures { Prepends result (Holds test) exits self.old self.new }
    {
        let comparison = if exits.falls {
            opposite(test.comparison)
        } else {
            test.comparison
        };
        self.prepend_comparison(comparison, test.operand, exits)?;
        self.prepend_subject(test.subject)?;
        Ok(())
    }

    /// Writes a comparison of register 0 with 0, which jumps unless the answer is the one that falls through.
    pub fn prepend_zero_comparison(
        &mut self,
        comparison: Comparison,
        exits: Exits,
    ) -> Result<(), CompileFault>
        requires { exits.skip ≤ word_count self.old }
        ensures { IsPrepended result (zero_comparison comparison exits.falls exits.skip ++ self.old) self.new }
    {
        let comparison = if exits.falls {
            opposite(comparison)
        } else {
            comparison
        };
        self.prepend_comparison(comparison, 0, exits)
    }

    /// Writes the code that compares register 0 with a number, and jumps if the comparison holds.
    fn prepend_comparison(
        &mut self,
        comparison: Comparison,
        operand: i64,
        exits: Exits,
    ) -> Result<(), CompileFault>
        requires { exits.skip ≤ word_count self.old }
        ensures { IsPrepended result (comparison_code comparison operand exits.skip ++ self.old) self.new }
    {
        match i32::try_from(operand) {
            Ok(operand) => self.prepend_skip_if(comparison, Source::Immediate(operand), exits),
            Err(_) => {
                // An immediate has 32 bits, so a greater number is loaded into register 1.
                self.prepend_skip_if(comparison, Source::Register(from_argument_1()), exits)?;
                self.prepend(wide_load(into_argument_1(), operand.cast_unsigned()))
            }
        }
    }

    /// Writes a jump that is taken if a comparison of register 0 with an operand holds.
    #[tactic(auto, unfolding(crate::specs::Layout::skip_if))]
    pub fn prepend_skip_if(
        &mut self,
        comparison: Comparison,
        operand: Source,
        exits: Exits,
    ) -> Result<(), CompileFault>
        requires { exits.skip ≤ word_count self.old }
        ensures { IsPrepended result (skip_if comparison operand exits.skip ++ self.old) self.new }
    {
        match i16::try_from(exits.skip) {
            Ok(distance) => self.prepend(jump_if(comparison, operand, distance)),
            Err(_) => {
                // A conditional jump has only 16 bits, so its opposite skips a jump that has more.
                self.prepend_jump(exits)?;
                self.prepend(jump_if(opposite(comparison), operand, 1))
            }
        }
    }

    /// Writes the code that puts a number into register 0.
    pub fn prepend_subject(&mut self, subject: Subject) -> Result<(), CompileFault>
        ensures { IsPrepended result (subject_code subject ++ self.old) self.new }
    {
        match subject {
            Subject::Number(column) => self.prepend_call(Helper::Field, field_id(column)),
            Subject::HasNumber(column) => self.prepend_call(Helper::HasField, field_id(column)),
            Subject::Coordinate(column) => self.prepend_call(Helper::Coord, coordinate_id(column)),
            Subject::Names => self.prepend(call(Helper::NameCount)),
            Subject::Ranges => self.prepend(call(Helper::RangeCount)),
            Subject::InRange(range, house) => self.prepend_in_range(range, house),
            Subject::NameIs(name, required) => self.prepend_name_is(name, &required),
            Subject::Load(chunk, at) => self.prepend(load(chunk, at)),
        }
    }

    /// Writes a call of a helper function with one argument.
    fn prepend_call(&mut self, helper: Helper, argument: u8) -> Result<(), CompileFault>
        ensures { IsPrepended result (move into_argument_1 (pos argument) ∷ call helper ∷ self.old) self.new }
    {
        self.prepend(call(helper))?;
        self.prepend(move_number(into_argument_1(), i32::from(argument)))
    }

    /// Writes the call that returns the sides of a range on which a house number lies.
    fn prepend_in_range(&mut self, range: u16, house: u64) -> Result<(), CompileFault>
        ensures { IsPrepended result (subject_code (InRange range house) ++ self.old) self.new }
    {
        self.prepend(call(Helper::InRange))?;
        self.prepend(set_number(into_argument_2(), house))?;
        self.prepend(move_number(into_argument_1(), i32::from(range)))
    }

    /// Writes the call that compares a name with bytes, preceded by the stores of those bytes in the frame.
    fn prepend_name_is(&mut self, name: u16, required: &[u8; 32]) -> Result<(), CompileFault>
        ensures { IsPrepended result (subject_code (NameIs name required.now) ++ self.old) self.new }
    {
        self.prepend(call(Helper::NameIs))?;
        // Each test stores the name again, so that its code depends on that test alone.
        self.prepend_name(required)?;
        self.prepend(move_number(into_argument_3(), 30))?;
        self.prepend(move_to_name())?;
        self.prepend(copy(into_argument_2(), from_frame()))?;
        self.prepend(move_number(into_argument_1(), i32::from(name)))
    }

    /// Writes the stores of a name.
    fn prepend_name(&mut self, required: &[u8; 32]) -> Result<(), CompileFault>
        ensures { IsPrepended result (store_name required.now ++ self.old) self.new }
    {
        self.prepend(store_word(7, required))?;
        self.prepend(store_word(6, required))?;
        self.prepend(store_word(5, required))?;
        self.prepend(store_word(4, required))?;
        self.prepend(store_word(3, required))?;
        self.prepend(store_word(2, required))?;
        self.prepend(store_word(1, required))?;
        self.prepend(store_word(0, required))
    }
}

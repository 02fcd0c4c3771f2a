//! Questions about names and ranges.
ghost use Rattle.std.specs.Prelude.{◌≡◌, ◌≤◌, suc, length};
ghost use Rattle.tl_segments.specs.declared.name.TheConstants.{NAME_LENGTH};
ghost use Rattle.bpf_insn.specs.Code.{word_count};
ghost use Rattle.cql2_code.specs.Layout.{Prepends};
ghost use Rattle.cql2_code.specs.Function as function;
ghost use Rattle.cql2_code.specs.Function.{PrependsName, PrependsRange, asks_has_name, asks_has_number, is_named_from, name_block};

use crate::fault::CompileFault;
use crate::question::{Exits, Subject, Test};
use crate::suffix::CodeSuffix;
use cql2::Comparison;
use std::alloc::Allocator;
use tl_segments::{MAX_RANGES, NAME_LENGTH};

/// Writes the code that asks whether a house number lies on a side of some range, or whether it lies on none.
pub(crate) fn prepend_has_number<A: Allocator + Copy>(
    code: &mut CodeSuffix<A>,
    house: u64,
    asked: bool,
    exits: Exits,
) -> Result<(), CompileFault>
    requires { exits.skip ≤ word_count code.old }
    ensures { Prepends result (asks_has_number house asked) exits code.old code.new }
{
    let exits = exits.if_asked(asked);
    let end = code.words();
    code.prepend_constant(false, exits)?;
    // From the last range to the first, as code is written back to front.
    for range in (0..=MAX_RANGES as u16).rev() {
        prepend_range(code, house, range, end, exits)?;
    }
    Ok(())
}

/// Writes the code that asks whether a house number lies on a range, before the code that asks about later ranges.
fn prepend_range<A: Allocator + Copy>(
    code: &mut CodeSuffix<A>,
    house: u64,
    range: u16,
    end: usize,
    exits: Exits,
) -> Result<(), CompileFault>
    requires end { end ≤ word_count code.old }
    requires inside { exits.skip ≤ end }
    ensures { PrependsRange result house range end exits code.old code.new }
{
    let lies = Test {
        subject: Subject::InRange(range, house),
        comparison: Comparison::NotEqual,
        operand: 0,
    };
    let before = code.exits_before(end, false, exits);
    code.prepend_test(lies, before)?;
    if !checks_for_end(range) {
        return Ok(());
    }
    let there = Test {
        subject: Subject::Ranges,
        comparison: Comparison::Greater,
        operand: i64::from(range),
    };
    let before = code.exits_before(end, true, exits);
    code.prepend_test(there, before)
}

/// Returns whether the code asks at this index whether there are more names or ranges.
fn checks_for_end(at: u16) -> bool
    ensures { result ≡ function.checks_for_end at }
{
    // At powers of two: a segment with few ranges or names leaves early, and the code grows by ten tests at most.
    matches!(at, 1 | 2 | 4 | 8 | 16 | 32 | 64 | 128 | 256 | 512)
}

/// Writes the code that asks whether a name is the required one, or whether none is and the segment has no more names.
pub(crate) fn prepend_has_name<A: Allocator + Copy>(
    code: &mut CodeSuffix<A>,
    text: &[u8],
    most: u16,
    asked: bool,
    exits: Exits,
) -> Result<(), CompileFault>
    requires inside { exits.skip ≤ word_count code.old }
    requires short { length text.now ≤ NAME_LENGTH }
    ensures { Prepends result (asks_has_name text.now most asked) exits code.old code.new }
{
    let words = code.words();
    prepend_named(code, &name_block(text), most, exits.if_asked(asked))?;
    if asked {
        return Ok(());
    }
    // With more names than are checked, the answer is NULL, neither yes nor no.
    let few = Test {
        subject: Subject::Names,
        comparison: Comparison::LessOrEqual,
        operand: i64::from(most),
    };
    let exits = code.exits_before(words, true, exits);
    code.prepend_test(few, exits)
}

/// Returns a name as it is in the frame: padded with blanks.
fn name_block(text: &[u8]) -> [u8; 32]
    requires { length text.now ≤ NAME_LENGTH }
    ensures { result ≡ name_block text.now }
{
    let mut block = [b' '; 32];
    block[..text.len()].copy_from_slice(text);
    block
}

/// Writes the code that asks whether a name up to the last one is the required one.
fn prepend_named<A: Allocator + Copy>(
    code: &mut CodeSuffix<A>,
    required: &[u8; 32],
    most: u16,
    exits: Exits,
) -> Result<(), CompileFault>
    requires { exits.skip ≤ word_count code.old }
    ensures { Prepends result (is_named_from required.now 0 (suc most)) exits code.old code.new }
{
    let end = code.words();
    code.prepend_constant(false, exits)?;
    for name in (0..=most).rev() {
        prepend_name(code, required, name, end, exits)?;
    }
    Ok(())
}

/// Writes the code that asks whether a name is the required one, before the code that asks about later names.
fn prepend_name<A: Allocator + Copy>(
    code: &mut CodeSuffix<A>,
    required: &[u8; 32],
    name: u16,
    end: usize,
    exits: Exits,
) -> Result<(), CompileFault>
    requires end { end ≤ word_count code.old }
    requires inside { exits.skip ≤ end }
    ensures { PrependsName result required.now name end exits code.old code.new }
{
    let is_required = Test {
        subject: Subject::NameIs(name, *required),
        comparison: Comparison::NotEqual,
        operand: 0,
    };
    let before = code.exits_before(end, false, exits);
    code.prepend_test(is_required, before)?;
    if !checks_for_end(name) {
        return Ok(());
    }
    let there = Test {
        subject: Subject::Names,
        comparison: Comparison::GreaterOrEqual,
        operand: i64::from(name),
    };
    let before = code.exits_before(end, true, exits);
    code.prepend_test(there, before)
}

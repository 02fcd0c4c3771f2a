//! The words of a program around a refused one, with the reason.
ghost use Rattle.std.specs.Prelude.{◌≡◌, ◌≤◌, ◌<◌, ◌+◌, ◌/◌, ◌++◌, All, length, map, OnOk, IfOk};
ghost use Rattle.std.specs.List.{flat_map, range_with_len};
ghost use Rattle.std.specs.String.{string_bytes};
ghost use Rattle.listing_lines.specs.SourceLines.{line_of};
ghost use Rattle.listing_excerpt.specs.Excerpt.{AreWordsAt, IsExcerpt, byte_text, bytes_text, insn_text, places_around, reason_if_at, reason_line, source_if_at};
ghost use Rattle.listing_excerpt.specs.Excerpt.{sources_at, word_line, word_text};

use crate::reading::{WORD_BYTES, instruction_in};
use bpf_insn::Insn;
use bpf_text::push_instruction;
use itoa::Buffer;
use listing_lines::{PlacedLine, push_source};
use std::alloc::{AllocError, Allocator};

/// The number of words that an excerpt shows before the refused one, and after it.
pub const WORDS_AROUND: usize = 5;

/// A word's place, and the instruction that begins with it, if one does.
#[derive(Clone, Copy)]
pub(crate) struct PlacedWord {
    pub place: usize,
    pub insn: Option<Insn>,
}

/// Returns the words around the one at a place, each after its source lines. The reason follows the word at the place.
pub(crate) fn excerpt<A: Allocator + Copy>(
    alloc: A,
    program: &[u8],
    lines: &[PlacedLine<'_>],
    place: usize,
    reason: &str,
) -> Result<Vec<u8, A>, AllocError>
    requires { place < length program.now / 8 }
    ensures { IfOk result (λ text. IsExcerpt program.now (map line_of lines.now) place reason.now text.items) }
{
    let words = words_around(alloc, program, place)?;
    let mut text = String::new(alloc);
    push_words(alloc, &mut text, program, lines, &words, place, reason)?;
    Ok(text.into_bytes())
}

fn words_around<A: Allocator + Copy>(
    alloc: A,
    program: &[u8],
    place: usize,
) -> Result<Vec<PlacedWord, A>, AllocError>
    requires { place < length program.now / 8 }
    ensures words { IfOk result (λ words. AreWordsAt program.now (places_around (length program.now / 8) place) words.items) }
    ensures within { IfOk result (λ words. All (λ word. word.place < length program.now / 8) words.items) }
{
    let count = program.len() / WORD_BYTES;
    let first = place.saturating_sub(WORDS_AROUND);
    let end = (place + WORDS_AROUND + 1).min(count);
    read_words(alloc, program, first, end - first)
}

/// Returns a number of words, from the first place on.
fn read_words<A: Allocator + Copy>(
    alloc: A,
    program: &[u8],
    first: usize,
    count: usize,
) -> Result<Vec<PlacedWord, A>, AllocError>
    requires { first + count ≤ length program.now / 8 }
    ensures words { IfOk result (λ words. AreWordsAt program.now (range_with_len first count) words.items) }
    ensures within { IfOk result (λ words. All (λ word. word.place < length program.now / 8) words.items) }
{
    let mut words = Vec::new(alloc);
    for index in 0..count {
        let place = first + index;
        let insn = instruction_in(alloc, program, place)?;
        words.push(PlacedWord { place, insn })?;
    }
    Ok(words)
}

fn push_words<A: Allocator + Copy>(
    alloc: A,
    text: &mut String<A>,
    program: &[u8],
    lines: &[PlacedLine<'_>],
    words: &[PlacedWord],
    refused: usize,
    reason: &str,
) -> Result<(), AllocError>
    requires { All (λ word. word.place < length program.now / 8) words.now }
    ensures { OnOk result (string_bytes text.new ≡ string_bytes text.old
        ++ flat_map (word_text program.now (map line_of lines.now) refused reason.now) words.now) }
{
    for word in words {
        push_word(alloc, text, program, lines, *word, refused, reason)?;
    }
    Ok(())
}

/// Pushes the source lines of a word, its line, and the reason if it is the refused one.
#[tactic(auto, unfolding(crate::specs::Excerpt::word_text))]
fn push_word<A: Allocator + Copy>(
    alloc: A,
    text: &mut String<A>,
    program: &[u8],
    lines: &[PlacedLine<'_>],
    word: PlacedWord,
    refused: usize,
    reason: &str,
) -> Result<(), AllocError>
    requires { word.place < length program.now / 8 }
    ensures { OnOk result (string_bytes text.new ≡ string_bytes text.old ++ word_text program.now (map line_of lines.now) refused reason.now word) }
{
    push_sources_at(text, lines, word.place)?;
    push_word_line(alloc, text, program, word)?;
    push_reason_if_at(text, refused, reason, word.place)
}

fn push_sources_at<A: Allocator>(
    text: &mut String<A>,
    lines: &[PlacedLine<'_>],
    place: usize,
) -> Result<(), AllocError>
    ensures { OnOk result (string_bytes text.new ≡ string_bytes text.old ++ sources_at place (map line_of lines.now)) }
{
    for line in lines {
        push_source_if_at(text, line, place)?;
    }
    Ok(())
}

fn push_source_if_at<A: Allocator>(
    text: &mut String<A>,
    line: &PlacedLine<'_>,
    place: usize,
) -> Result<(), AllocError>
    ensures { OnOk result (string_bytes text.new ≡ string_bytes text.old ++ source_if_at place (line_of line.now)) }
{
    if line.place == place {
        return push_source(text, line);
    }
    Ok(())
}

#[tactic(auto, unfolding(crate::specs::Excerpt::word_line))]
fn push_word_line<A: Allocator + Copy>(
    alloc: A,
    text: &mut String<A>,
    program: &[u8],
    word: PlacedWord,
) -> Result<(), AllocError>
    requires { word.place < length program.now / 8 }
    ensures { OnOk result (string_bytes text.new ≡ string_bytes text.old ++ word_line program.now word) }
{
    let start = word.place * WORD_BYTES;
    let mut digits = Buffer::new();
    text.push_str(digits.format(word.place))?;
    text.push_str(":")?;
    push_bytes(alloc, text, &program[start..start + WORD_BYTES])?;
    push_insn(text, word.insn)?;
    text.push_str("\n")
}

/// Pushes bytes in hexadecimal digits, each after a blank.
fn push_bytes<A: Allocator + Copy>(
    alloc: A,
    text: &mut String<A>,
    bytes: &[u8],
) -> Result<(), AllocError>
    ensures { OnOk result (string_bytes text.new ≡ string_bytes text.old ++ bytes_text bytes.now) }
{
    for byte in bytes {
        push_byte(alloc, text, *byte)?;
    }
    Ok(())
}

fn push_byte<A: Allocator + Copy>(
    alloc: A,
    text: &mut String<A>,
    byte: u8,
) -> Result<(), AllocError>
    ensures { OnOk result (string_bytes text.new ≡ string_bytes text.old ++ byte_text byte) }
{
    let digits = hex::encode(alloc, [byte])?;
    text.push_str(" ")?;
    text.push_str(&digits)
}

fn push_insn<A: Allocator>(text: &mut String<A>, insn: Option<Insn>) -> Result<(), AllocError>
    ensures { OnOk result (string_bytes text.new ≡ string_bytes text.old ++ insn_text insn) }
{
    let Some(insn) = insn else {
        return Ok(());
    };
    text.push_str("  ")?;
    push_instruction(text, insn)
}

fn push_reason_if_at<A: Allocator>(
    text: &mut String<A>,
    refused: usize,
    reason: &str,
    place: usize,
) -> Result<(), AllocError>
    ensures { OnOk result (string_bytes text.new ≡ string_bytes text.old ++ reason_if_at refused reason.now place) }
{
    if place == refused {
        return push_reason(text, reason);
    }
    Ok(())
}

fn push_reason<A: Allocator>(text: &mut String<A>, reason: &str) -> Result<(), AllocError>
    ensures { OnOk result (string_bytes text.new ≡ string_bytes text.old ++ reason_line reason.now) }
{
    text.push_str("refused: ")?;
    text.push_str(reason)?;
    text.push_str("\n")
}

//! Source lines and their faults.
ghost use Rattle.std.specs.Prelude.{◌≡◌, ◌≤◌, ◌+◌, ◌∷◌, ◌++◌, [], IfOk, IfSome, OnOk, MatchResult, Ok, Err, map, option_map};
ghost use Rattle.std.specs.String.{string_bytes};
ghost use Rattle.listing_lines.specs.LinesFault as line_fault;
ghost use Rattle.listing_lines.specs.SourceLines.{IsChecked, valid_line, line_in, line_of, lines_in, lines_or_none, parts_of, place_in, source_text};

use bpf_assembler::first_line;
use numerals::decimal_value;
use refusals::{Fault, Refusal};
use std::alloc::{AllocError, Allocator};
use thiserror::Error;

/// The greatest place that a program can have.
pub const MAX_PLACE: usize = 65_535;

/// The greatest number of decimal digits of a place.
pub const PLACE_DIGITS: usize = 5;

/// A line of source code, with its place.
#[derive(Clone, Copy)]
pub struct PlacedLine<'a> {
    /// The place that the line belongs to, in words from 0.
    pub place: usize,
    pub text: &'a str,
}

/// The flaw of a line.
#[derive(Clone, Copy, Debug, PartialEq, Eq, Error)]
pub enum SourceLineFaultKind {
    #[error("the line isn't UTF-8")]
    NotText,
    #[error("the line has no place before a tab")]
    WithoutPlace,
    #[error("the line's place is less than that of the line before")]
    OutOfOrder,
}

/// Why a file of source lines can't be used.
#[derive(Clone, Copy, Debug, PartialEq, Eq, Error)]
#[error("line {line}: {flaw}")]
pub struct LinesFault {
    /// The line, counted from 1.
    pub line: usize,
    pub flaw: SourceLineFaultKind,
}

impl SourceLineFaultKind {
    /// Returns the flaw as a refusal, without its line.
    pub fn refusal(self) -> Refusal
        ensures { result ≡ line_fault.flaw_refusal self }
    {
        match self {
            SourceLineFaultKind::NotText => Refusal::refused(110, "LineNotText"),
            SourceLineFaultKind::WithoutPlace => Refusal::refused(111, "LineWithoutPlace"),
            SourceLineFaultKind::OutOfOrder => Refusal::refused(112, "LineOutOfOrder"),
        }
    }
}

/// Returns the refusal of a file that is too long to be read, by its caller's limit.
pub fn lines_too_long() -> Refusal
    ensures { result ≡ line_fault.lines_too_long }
{
    Refusal::refused(113, "LinesTooLong")
}

impl Fault for LinesFault {
    ghost use Rattle.listing_lines.specs.LinesFault.{refusal};

    ghost refusal_of = { refusal };

    fn refusal(&self) -> Refusal {
        self.flaw.refusal().at_line(self.line)
    }
}

/// The lines of a file without a fault. Each consists of a place of up to five decimal digits, a tab and a text; the places don't decrease. Lines
/// end in LF or CR LF, which is optional after the last one.
#[derive(Clone, Copy)]
pub struct SourceLines<'a> {
    file: &'a [u8],
}

impl<'a> SourceLines<'a> {
    /// Checks each line of a file.
    pub fn of(file: &'a [u8]) -> Result<SourceLines<'a>, LinesFault>
        ensures { MatchResult result (λ lines. lines_in file.now ≡ Ok (parts_of lines)) (λ fault. lines_in file.now ≡ Err fault) }
    {
        let mut rest = file;
        let mut number = 0;
        let mut last = 0;
        while !rest.is_empty() {
            let (line, after) = first_line(rest);
            rest = after;
            number += 1;
            let read = valid_line(number, last, line)?;
            last = read.place;
        }
        Ok(SourceLines { file })
    }

    /// Returns the lines of a file, or none if it has a fault.
    pub fn or_none(file: &'a [u8]) -> SourceLines<'a>
        ensures { parts_of result ≡ lines_or_none (lines_in file.now) }
    {
        SourceLines { file }
    }

    /// Returns the lines, or none if the file has a fault.
    pub fn read<A: Allocator + Copy>(self, alloc: A) -> Result<Vec<PlacedLine<'a>, A>, AllocError>
        ensures { IfOk result (λ lines. map line_of lines.items ≡ parts_of self.entry) }
    {
        let mut lines = Vec::new(alloc);
        let mut rest = self.file;
        let mut number = 0;
        let mut last = 0;
        while !rest.is_empty() {
            let (line, after) = first_line(rest);
            rest = after;
            number += 1;
            let Ok(read) = valid_line(number, last, line) else {
                return Ok(Vec::new(alloc));
            };
            push_line(&mut lines, read)?;
            last = read.place;
        }
        Ok(lines)
    }
}

/// Pushes a line as a listing shows it.
pub fn push_source<A: Allocator>(
    text: &mut String<A>,
    line: &PlacedLine<'_>,
) -> Result<(), AllocError>
    ensures { OnOk result (string_bytes text.new ≡ string_bytes text.old ++ source_text (line_of line.now)) }
{
    text.push_str("; ")?;
    text.push_str(line.text)?;
    text.push_str("\n")
}

fn push_line<'a, A: Allocator>(
    lines: &mut Vec<PlacedLine<'a>, A>,
    line: PlacedLine<'a>,
) -> Result<(), AllocError>
    ensures { OnOk result (lines.new.items ≡ lines.old.items ++ (line.entry ∷ [])) }
{
    lines.push(line)?;
    Ok(())
}

/// Reads a line, given its number and the place of the line above it.
fn valid_line(number: usize, last: usize, line: &[u8]) -> Result<PlacedLine<'_>, LinesFault>
    ensures { IsChecked number (valid_line last line.now) result }
{
    match check(last, line) {
        Ok(read) => Ok(read),
        Err(flaw) => Err(LinesFault { line: number, flaw }),
    }
}

#[tactic(auto, unfolding(crate::specs::SourceLines::valid_line))]
fn check(last: usize, line: &[u8]) -> Result<PlacedLine<'_>, SourceLineFaultKind>
    ensures { MatchResult result (λ read. valid_line last line.now ≡ Ok (line_of read)) (λ flaw. valid_line last line.now ≡ Err flaw) }
{
    let Ok(text) = str::from_utf8(line) else {
        return Err(SourceLineFaultKind::NotText);
    };
    match line_in(text) {
        // Out of order, lines would be shown above the wrong instructions.
        Some(read) if read.place < last => Err(SourceLineFaultKind::OutOfOrder),
        Some(read) => Ok(read),
        None => Err(SourceLineFaultKind::WithoutPlace),
    }
}

/// Splits a line at its first tab.
#[tactic(auto, unfolding(crate::specs::SourceLines::line_in))]
fn line_in(text: &str) -> Option<PlacedLine<'_>>
    ensures { option_map line_of result ≡ line_in text.now }
{
    let (digits, text) = text.split_once('\t')?;
    let place = place_in(digits.as_bytes())?;
    Some(PlacedLine { place, text })
}

/// Reads one to five decimal digits.
#[tactic(auto, unfolding(crate::specs::SourceLines::place_in))]
fn place_in(digits: &[u8]) -> Option<usize>
    ensures { result ≡ place_in digits.now }
{
    let place = decimal_value(digits, PLACE_DIGITS)? as usize;
    (place <= MAX_PLACE).then_some(place)
}

//! A program's listing, in the order in which the verifier visits its instructions.
//!
//! A visitor of the verifier's own pass: what is listed is what the verifier knew, not a second analysis.
ghost use Rattle.std.specs.Prelude.{◌≡◌, ◌≤◌, ◌++◌, Some, nat_lt, length, ◌<◌, IfOk, IfSome, OnOk};
ghost use Rattle.std.specs.List.{position, position_or_len};
ghost use Rattle.std.specs.String.{string_bytes};
ghost use Rattle.bpf_explain.specs.Listing.{accepted_text, empty, lines_after, lines_until, refusal_line, refused_text, sources_text};
ghost use Rattle.bpf_verify.specs.LiftedState.{IsProperState};
ghost use Rattle.listing_notes.specs.Facts.{noted, prefix_text};
ghost use Rattle.std.specs.Prelude.{codes, map};
ghost use Rattle.listing_lines.specs.SourceLines.{line_of};

use crate::failure::push_failure;
use bpf_insn::Insn;
use bpf_meaning::Cause;
use bpf_verify::{AbstractState, Visitor};
use listing_lines::{PlacedLine, push_source};
use listing_notes::{note, push_instruction_line};
use std::alloc::{AllocError, Allocator};
use std::marker::Model;

/// A listing so far. Contracts see it as a record of its parts.
#[derive(Drop)]
pub(crate) struct Listing<'a, A: Allocator> {
    alloc: A,
    text: String<A>,
    /// What was known before the last instruction that was reached.
    known: AbstractState,
    /// The last instruction.
    insn: Option<Insn>,
    /// The remaining source lines.
    remaining: &'a [PlacedLine<'a>],
}

impl<'a, A: Allocator> Model for Listing<'a, A> {
    ghost use Rattle.std.specs.String.{string_bytes};
    ghost use Rattle.bpf_verify.specs.LiftedState.{IsProperState};
    ghost use Rattle.std.specs.Prelude.{map};
    ghost use Rattle.bpf_explain.specs.Listing.{ListingParts};
    ghost use Rattle.listing_lines.specs.SourceLines.{line_of};

    ghost Value = { ListingParts };

    ghost view = { λ listing. record {
      text = string_bytes listing.text;
      known = listing.known;
      insn = listing.insn;
      remaining = map line_of listing.remaining.now;
    } };

    ghost invariant = { λ listing. IsProperState listing.known };
}

impl<'a, A: Allocator + Copy> Listing<'a, A> {
    /// Begins a listing, with the source lines to be shown in it.
    pub fn new(alloc: A, lines: &'a [PlacedLine<'a>]) -> Self
        ensures { result ≡ empty (map line_of lines.now) }
    {
        Listing {
            alloc,
            text: String::new(alloc),
            // Unknown, so that the first note shows everything known at the start.
            known: AbstractState::unknown(),
            insn: None,
            remaining: lines,
        }
    }

    /// Returns the text of a program that is accepted.
    pub fn into_accepted(self) -> Result<Vec<u8, A>, AllocError>
        ensures { IfOk result (λ text. text.items ≡ accepted_text self.entry) }
    {
        let mut text = self.text;
        // Source lines may name places after the last instruction.
        push_sources(&mut text, self.remaining)?;
        text.push_str("accepted\n")?;
        Ok(text.into_bytes())
    }

    /// Returns the text of a program whose last instruction is refused.
    pub fn into_refused(self, cause: Cause) -> Result<Vec<u8, A>, AllocError>
        ensures { IfOk result (λ text. text.items ≡ refused_text self.entry cause) }
    {
        let mut text = self.text;
        if let Some(insn) = self.insn {
            push_refusal(self.alloc, &mut text, &self.known, insn, cause)?;
        }
        Ok(text.into_bytes())
    }

    /// Pushes the source lines up to an instruction's place, then the instruction's line.
    fn push_visit(&mut self, place: usize, insn: Insn, note: &str) -> Result<(), AllocError>
        ensures { OnOk result (self.new ≡ record {
          text = self.old.text ++ (sources_text (lines_until place self.old.remaining) ++ (noted (prefix_text place insn) note.now ++ codes "\n"));
          known = self.old.known;
          insn = Some insn;
          remaining = lines_after place self.old.remaining;
        }) }
    {
        let count = count_until(self.remaining, place);
        push_sources(&mut self.text, &self.remaining[..count])?;
        push_instruction_line(self.alloc, &mut self.text, place, insn, note)?;
        self.remaining = &self.remaining[count..];
        self.insn = Some(insn);
        Ok(())
    }
}

impl<'a, A: Allocator + Copy> Visitor for Listing<'a, A> {
    ghost use Rattle.bpf_explain.specs.Listing.{visited};

    ghost visited = { visited };

    fn reached(
        &mut self,
        place: usize,
        insn: Insn,
        known: &AbstractState,
    ) -> Result<(), AllocError> {
        let note = note(self.alloc, &self.known, known, insn)?;
        self.push_visit(place, insn, &note)?;
        // The verifier changes its state in place, and the next note needs this one to compare with.
        self.known = known.duplicate();
        Ok(())
    }

    #[tactic(auto, unfolding(crate::specs::Listing::visit_text))]
    fn unreached(&mut self, place: usize, insn: Insn) -> Result<(), AllocError> {
        self.push_visit(place, insn, "unreached")
    }
}

fn count_until(lines: &[PlacedLine<'_>], place: usize) -> usize
    ensures value { result ≡ position_or_len (λ line. nat_lt place line.place) (map line_of lines.now) }
    ensures within { result ≤ length lines.now }
{
    match first_after(lines, place) {
        Some(count) => count,
        None => lines.len(),
    }
}

fn first_after(lines: &[PlacedLine<'_>], place: usize) -> Option<usize>
    ensures value { result ≡ position (λ line. nat_lt place line.place) lines.now }
    ensures within { IfSome result (λ index. index < length lines.now) }
{
    lines.iter().position(|line| place < line.place)
}

#[tactic(auto, unfolding(crate::specs::Listing::sources_text))]
fn push_sources<A: Allocator>(
    text: &mut String<A>,
    lines: &[PlacedLine<'_>],
) -> Result<(), AllocError>
    ensures { OnOk result (string_bytes text.new ≡ string_bytes text.old ++ sources_text (map line_of lines.now)) }
{
    for line in lines {
        push_source(text, line)?;
    }
    Ok(())
}

/// Pushes the line that says why an instruction is refused.
fn push_refusal<A: Allocator + Copy>(
    alloc: A,
    text: &mut String<A>,
    known: &AbstractState,
    insn: Insn,
    cause: Cause,
) -> Result<(), AllocError>
    requires { IsProperState known.now }
    ensures { OnOk result (string_bytes text.new ≡ string_bytes text.old ++ refusal_line known.now cause insn) }
{
    text.push_str("refused: ")?;
    push_failure(alloc, text, known, insn, cause)?;
    text.push_str("\n")
}

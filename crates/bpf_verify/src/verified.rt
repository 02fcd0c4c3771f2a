//! Codes that are safe to run.
//!
//! A `Verified` is made by the pass alone and keeps what it found, so no later call checks anything again. It keeps a code in flat form alone, made
//! on acceptance, as the machine allocates nothing, and a second form would double the memory.
ghost use Rattle.std.specs.Prelude.{◌≡◌, IfOk};
ghost use Rattle.bpf_meaning.specs.RecordAlone.{reads_record_alone};
ghost use Rattle.bpf_meaning.specs.Run.{IsSafe};
ghost use Rattle.bpf_verify.specs.Verified.{AreVerified, HasBaseAreas};

use bpf_flat_insn::{FlatInsn, flat_forms};
use bpf_flow::Flow;
use bpf_insn::{Area, Insn};
use bpf_meaning::instruction_reads_record_alone;
use std::alloc::{AllocError, Allocator};
use std::marker::Model;

/// A code that is safe to run: it never gets stuck on a segment, and exits in no more steps than it has instructions. Contracts see it as a record
/// with the fields `code`, the list of its instructions, and `areas`, the list of the areas of their bases. It takes 17 bytes per instruction: the
/// flat form, in which a machine runs it, and the area.
#[derive(Drop)]
pub struct Verified<A: Allocator> {
    flat_forms: Vec<FlatInsn, A>,
    areas: Vec<Option<Area>, A>,
    record_alone: bool,
}

impl<A: Allocator> Model for Verified<A> {
    ghost use Rattle.std.specs.Prelude.{◌≡◌};
    ghost use Rattle.bpf_flat_insn.specs.Flat.{instructions_in};
    ghost use Rattle.bpf_meaning.specs.RecordAlone.{reads_record_alone};
    ghost use Rattle.bpf_verify.specs.Verified.{AreVerified, Contents};

    ghost Value = { Contents };

    ghost view = { λ verified. record { code = instructions_in verified.flat_forms.items; areas = verified.areas.items } };

    ghost invariant = { λ verified. AreVerified (instructions_in verified.flat_forms.items) verified.areas.items verified.flat_forms.items
        × (verified.record_alone ≡ reads_record_alone (instructions_in verified.flat_forms.items)) };
}

impl<A: Allocator + Copy> Verified<A> {
    /// Returns the verified form of a code that is safe to run, with the areas of its bases.
    pub(crate) fn of(
        alloc: A,
        flow: &Flow<A>,
        areas: Vec<Option<Area>, A>,
    ) -> Result<Self, AllocError>
        requires safe { IsSafe flow.now.code }
        requires areas { HasBaseAreas flow.now.code areas.items }
        ensures code { IfOk result (λ verified. verified.code ≡ flow.now.code) }
        ensures areas { IfOk result (λ verified. verified.areas ≡ areas.items) }
    {
        let flat_forms = flat_forms(alloc, flow, areas.as_slice())?;
        Ok(Verified {
            flat_forms,
            areas,
            record_alone: reads_record_alone(flow.code().instructions()),
        })
    }
}

impl<A: Allocator> Verified<A> {
    /// Returns the instructions in flat form, in order, borrowed. A machine dispatches on these.
    pub fn flat_forms(&self) -> &[FlatInsn]
        ensures { AreVerified self.now.code self.now.areas result.now }
    {
        self.flat_forms.as_slice()
    }

    /// Returns the area that the base of each instruction points into, in every run that reaches it, borrowed. `None` for a load or a store that the
    /// verifier didn't reach, and for every other instruction.
    pub fn areas(&self) -> &[Option<Area>]
        ensures value { result.now ≡ self.now.areas }
        ensures areas { HasBaseAreas self.now.code self.now.areas }
    {
        self.areas.as_slice()
    }

    /// Returns whether the code reads nothing of a segment but its type 1 record: it calls no helper function that reads alternate names or address
    /// ranges. Such a code gives the same answer on all segments with the same record.
    pub fn reads_record_alone(&self) -> bool
        ensures { result ≡ reads_record_alone self.now.code }
    {
        self.record_alone
    }
}

fn reads_record_alone(code: &[Insn]) -> bool
    ensures { result ≡ reads_record_alone code.now }
{
    code.iter()
        .all(|insn| instruction_reads_record_alone(*insn))
}

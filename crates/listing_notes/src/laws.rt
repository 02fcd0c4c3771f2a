//! Laws over the definitions, as contracts of functions that do nothing.
ghost use Rattle.std.specs.Prelude.{◌≡◌, ◌↔◌, ℕ, IsTrue};
ghost use Rattle.bpf_insn.specs.declared.instruction.Insn.{Insn};
ghost use Rattle.bpf_verify.specs.LiftedState.{LiftedState, IsProper, IsProperState};
ghost use Rattle.bpf_verify.specs.declared.abstract_state.AbstractState.{AbstractState};
ghost use Rattle.listing_notes.specs.Facts.{note_text};
ghost use Rattle.listing_notes.specs.Notation.{IsPart, part_name, part_text};
ghost use Rattle.listing_notes.specs.Reads.{HasOneOf, has_one_of};
ghost use Rattle.listing_notes.specs.declared.facts.TheConstants.{NOTE_COLUMN};
ghost use Rattle.listing_notes.specs.declared.notation.Part.{Part};
ghost use Rattle.listing_notes.specs.declared.reads.Bytes.{Bytes};

/// Two states are equal if each of their parts has the same text in both: the texts show all that is known.
pub fn texts_determine_states()
    ensures { (known other : AbstractState) → IsProperState known → IsProperState other
        → ((part : Part) → IsPart part → part_text known part ≡ part_text other part) → known ≡ other }
{}

/// No two parts have the same name.
pub fn names_determine_parts()
    ensures { (part other : Part) → IsPart part → IsPart other → part_name part ≡ part_name other → part ≡ other }
{}

/// Two states are equal if they have the same note for an instruction, given the same last state: a part that isn't shown is unchanged.
pub fn notes_determine_states()
    ensures { (last : AbstractState) (insn : Insn) (state other : LiftedState) → IsProper state → IsProper other
        → note_text last state insn ≡ note_text last other insn → state ≡ other }
{}

/// An instruction may read a slot if one of the bytes that it may read is in the slot.
pub fn slots_with_bytes()
    ensures { (bytes : Bytes) (slot : ℕ) → IsTrue (has_one_of bytes slot) ↔ HasOneOf bytes slot }
{}

/// Notes begin at column 40.
pub fn note_column()
    ensures { NOTE_COLUMN ≡ 40 }
{}

//! Laws over the definitions, as contracts of functions that do nothing.
ghost use Rattle.std.specs.Prelude.{◌≤◌, ℕ, length};
ghost use Rattle.bpf_insn.specs.declared.instruction.Insn.{Insn};
ghost use Rattle.listing_notes.specs.Facts.{prefix_text};
ghost use Rattle.listing_lines.specs.declared.source_lines.TheConstants.{MAX_PLACE};
ghost use Rattle.bpf_text.specs.CodeText.{NumbersFit};

pub use listing_lines::laws::place_limits;
pub use listing_notes::laws::{
    names_determine_parts, note_column, notes_determine_states, slots_with_bytes,
    texts_determine_states,
};

/// A place and its instruction have at most 38 columns, so a note always begins at its column.
pub fn prefixes_are_short()
    ensures { (place : ℕ) (insn : Insn) → place ≤ MAX_PLACE → NumbersFit insn → length (prefix_text place insn) ≤ 38 }
{}

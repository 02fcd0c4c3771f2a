//! Laws, each of which is the contract of a function that does nothing.
ghost use Rattle.std.specs.Prelude.{◌≡◌, ◌≢◌, ◌≤◌, ◌<◌, ◌+◌, ◌*◌, ◌/◌, ◌%◌, ◌^◌, ◌++◌, ℕ, ℤ, All, IsTrue, List, length, take, drop, Some, None, false};
ghost use Rattle.bpf_insn.specs.Code.{instruction_at};
ghost use Rattle.bpf_insn.specs.declared.instruction.Insn.{Insn};
ghost use Rattle.bpf_insn.specs.declared.instruction.Insn.TheVariants.{Call};
ghost use Rattle.bpf_insn.specs.declared.value.Value.TheVariants.{Empty, Number, Pointer};
ghost use Rattle.bpf_insn.specs.declared.value.Pointer.{Pointer as PointerParts};
ghost use Rattle.bpf_insn.specs.declared.memory.TheConstants.{SLOT_LENGTH, SLOTS};
ghost use Rattle.tl_segments.specs.Segment.{SegmentParts, IsSegment};
ghost use Rattle.bpf_meaning.specs.Extract.{IsExtract, IsExtractIn, IsSelection, Selected, TextFormat, texts_of};
ghost use Rattle.bpf_insn.specs.Frame.{FrameByte, FrameContents, IsApart, is_written, number_of, slot_pointer, slot_value};
ghost use Rattle.bpf_meaning.specs.Memory.{set_slot_pointer, store, store_number, write_bytes};
ghost use Rattle.bpf_meaning.specs.RecordAlone.{reads_record_alone};
ghost use Rattle.bpf_meaning.specs.State.{HoldsBytes, IsWellFormed, SeparatesPointers, register_value};
ghost use Rattle.bpf_meaning.specs.Step.{Configuration, Running, Exited, Stuck};
ghost use Rattle.bpf_meaning.specs.Run.{Answers, HasNoNext, HasOneNext, IsRun, IsSafe, Step, end_of};
ghost use Rattle.bpf_meaning.specs.declared.cause.Cause.{Cause};
ghost use Rattle.bpf_meaning.specs.declared.state.State.{State};
ghost use Rattle.bpf_meaning.specs.declared.state.TheConstants.{REGISTERS};

/// There are eleven registers.
pub fn registers()
    ensures { REGISTERS ≡ 11 }
{}

/// A running configuration has exactly one successor, and one that has ended has none.
pub fn one_step()
    ensures running { (code : List Insn) (segment : SegmentParts) (state : State) → HasOneNext code segment (Running state) }
    ensures exited { (code : List Insn) (segment : SegmentParts) (answer score : ℕ) → HasNoNext code segment (Exited answer score) }
    ensures stuck { (code : List Insn) (segment : SegmentParts) (place : ℕ) (cause : Cause) → HasNoNext code segment (Stuck place cause) }
{}

/// Stored bytes are loaded as the number's low bytes, and the bytes before and after them are unchanged.
pub fn stores_are_loaded()
    ensures loaded { (memory : List FrameByte) (at count number : ℕ) → at + count ≤ length memory
        → number_of (take count (drop at (store memory at count number))) ≡ Some (number % 256 ^ count) }
    ensures before { (memory : List FrameByte) (at count number : ℕ) → at + count ≤ length memory
        → take at (store memory at count number) ≡ take at memory }
    ensures after { (memory : List FrameByte) (at count number : ℕ) → at + count ≤ length memory
        → drop (at + count) (store memory at count number) ≡ drop (at + count) memory }
{}

/// A number of eight bytes stored in a slot is the slot's contents. A slot with none of the bytes that were stored, or that a helper function
/// wrote, keeps its contents.
pub fn numbers_are_loaded()
    ensures whole { (frame : FrameContents) (slot number : ℕ) → SLOT_LENGTH * slot + SLOT_LENGTH ≤ length frame.bytes → number < 2 ^ 64
        → slot_value (store_number frame (SLOT_LENGTH * slot) SLOT_LENGTH number) slot ≡ Number number }
    ensures stored { (frame : FrameContents) (at count number slot : ℕ) → at + count ≤ length frame.bytes → slot < SLOTS
        → length frame.slots ≡ SLOTS → IsApart slot at count → slot_value (store_number frame at count number) slot ≡ slot_value frame slot }
    ensures written { (frame : FrameContents) (at : ℕ) (bytes : List ℕ) (slot : ℕ) → at + length bytes ≤ length frame.bytes → slot < SLOTS
        → length frame.slots ≡ SLOTS → IsApart slot at (length bytes) → slot_value (write_bytes frame at bytes) slot ≡ slot_value frame slot }
{}

/// A pointer stored in a slot is the slot's contents, the slot's bytes are unwritten, and the other slots keep their contents. Writing bytes into a
/// slot removes its pointer.
pub fn pointers_are_loaded()
    ensures loaded { (frame : FrameContents) (slot : ℕ) (pointer : PointerParts) → SLOT_LENGTH * slot + SLOT_LENGTH ≤ length frame.bytes
        → slot < length frame.slots → slot_value (set_slot_pointer frame slot pointer) slot ≡ Pointer pointer }
    ensures bytes { (frame : FrameContents) (slot : ℕ) (pointer : PointerParts) (byte : ℕ) → SLOT_LENGTH * slot + SLOT_LENGTH ≤ length frame.bytes
        → byte / SLOT_LENGTH ≡ slot → is_written (set_slot_pointer frame slot pointer).bytes byte ≡ false }
    ensures others { (frame : FrameContents) (stored_slot : ℕ) (pointer : PointerParts) (slot : ℕ) → SLOT_LENGTH * stored_slot + SLOT_LENGTH ≤ length frame.bytes
        → slot ≢ stored_slot → slot_value (set_slot_pointer frame stored_slot pointer) slot ≡ slot_value frame slot }
    ensures stored { (frame : FrameContents) (at count number slot byte : ℕ) → slot < length frame.slots
        → at ≤ byte → byte < at + count → byte / SLOT_LENGTH ≡ slot → slot_pointer (store_number frame at count number) slot ≡ None }
    ensures written { (frame : FrameContents) (at : ℕ) (bytes : List ℕ) (slot byte : ℕ) → slot < length frame.slots
        → at ≤ byte → byte < at + length bytes → byte / SLOT_LENGTH ≡ slot → slot_pointer (write_bytes frame at bytes) slot ≡ None }
{}

/// Each state that a run reaches has eleven registers and a whole frame, and a step preserves this.
pub fn steps_preserve_shape()
    ensures step { (code : List Insn) (segment : SegmentParts) (state there : State)
        → IsWellFormed state → Step code segment (Running state) (Running there) → IsWellFormed there }
    ensures run { (code : List Insn) (segment : SegmentParts) (run : List Configuration) (state : State)
        → IsRun code segment run → end_of run ≡ Running state → IsWellFormed state }
{}

/// The frame of each state that a run on a segment reaches holds bytes, and a step preserves this.
pub fn states_hold_bytes()
    ensures step { (code : List Insn) (segment : SegmentParts) (state there : State)
        → IsSegment segment → HoldsBytes state → Step code segment (Running state) (Running there) → HoldsBytes there }
    ensures run { (code : List Insn) (segment : SegmentParts) (run : List Configuration) (state : State)
        → IsSegment segment → IsRun code segment run → end_of run ≡ Running state → HoldsBytes state }
{}

/// In each state that a run reaches, no slot with a written byte holds a pointer, and a step preserves this.
pub fn steps_separate_pointers()
    ensures step { (code : List Insn) (segment : SegmentParts) (state there : State)
        → IsWellFormed state → SeparatesPointers state → Step code segment (Running state) (Running there) → SeparatesPointers there }
    ensures run { (code : List Insn) (segment : SegmentParts) (run : List Configuration) (state : State)
        → IsRun code segment run → end_of run ≡ Running state → SeparatesPointers state }
{}

/// A step over a call leaves registers 1 to 5 empty, and keeps the registers above them.
pub fn calls_empty_registers()
    ensures empty { (code : List Insn) (segment : SegmentParts) (state there : State) (immediate : ℤ)
        → instruction_at code state.place ≡ Some (Call immediate) → Step code segment (Running state) (Running there)
        → (register : ℕ) → 1 ≤ register → register ≤ 5 → register_value there register ≡ Empty }
    ensures preserved { (code : List Insn) (segment : SegmentParts) (state there : State) (immediate : ℤ)
        → instruction_at code state.place ≡ Some (Call immediate) → Step code segment (Running state) (Running there)
        → (register : ℕ) → 6 ≤ register → register_value there register ≡ register_value state register }
{}

/// Two runs of a code on a segment agree as far as both go: the shorter one is a prefix of the longer one.
pub fn runs_agree()
    ensures { (code : List Insn) (segment : SegmentParts) (run longer : List Configuration)
        → IsRun code segment run → IsRun code segment longer → length run ≤ length longer
        → (rest : List Configuration) × (longer ≡ run ++ rest) }
{}

/// A code has at most one answer on a segment.
pub fn one_answer()
    ensures { (code : List Insn) (segment : SegmentParts) (answer score other other_score : ℕ)
        → Answers code segment answer score → Answers code segment other other_score
        → (answer ≡ other) × (score ≡ other_score) }
{}

/// A code that reads only the record gives the same answer on segments with the same record.
pub fn record_decides()
    ensures { (code : List Insn) (segment other : SegmentParts) (answer score : ℕ) → IsTrue (reads_record_alone code)
        → segment.bytes ≡ other.bytes → Answers code segment answer score → Answers code other answer score }
{}

/// In any format, the extract of two lists of segments, one after the other, is the extract of the first list followed by that of the second. A code
/// has at most one extract of a list of segments.
pub fn extracts_join()
    ensures join { (text_of : TextFormat) (code : List Insn) (front back : List SegmentParts) (text more : List ℕ) (count others : ℕ)
        → IsExtractIn text_of code front text count → IsExtractIn text_of code back more others
        → IsExtractIn text_of code (front ++ back) (text ++ more) (count + others) }
    ensures one { (text_of : TextFormat) (code : List Insn) (segments : List SegmentParts) (text other : List ℕ) (count others : ℕ)
        → IsExtractIn text_of code segments text count → IsExtractIn text_of code segments other others → (text ≡ other) × (count ≡ others) }
{}

/// In any format, the extract consists of the texts of the same selected segments with the same scores, in the same order. Therefore it has as many
/// texts as there are rows. Safe code has exactly one selection from a list of segments.
pub fn extracts_are_of_selections()
    ensures texts { (text_of : TextFormat) (code : List Insn) (segments : List SegmentParts) (text : List ℕ) (count : ℕ)
        → IsExtractIn text_of code segments text count
        → (selected : List Selected) × IsSelection code segments selected × (text ≡ texts_of text_of selected) × (count ≡ length selected) }
    ensures extract { (text_of : TextFormat) (code : List Insn) (segments : List SegmentParts) (selected : List Selected)
        → IsSelection code segments selected → IsExtractIn text_of code segments (texts_of text_of selected) (length selected) }
    ensures count { (text_of : TextFormat) (code : List Insn) (segments : List SegmentParts) (text rows_text : List ℕ) (count rows : ℕ)
        → IsExtractIn text_of code segments text count → IsExtract code segments rows_text rows → count ≡ rows }
    ensures some { (code : List Insn) (segments : List SegmentParts) → IsSafe code → All IsSegment segments
        → (selected : List Selected) × IsSelection code segments selected }
    ensures one { (code : List Insn) (segments : List SegmentParts) (selected other : List Selected)
        → IsSelection code segments selected → IsSelection code segments other → selected ≡ other }
{}

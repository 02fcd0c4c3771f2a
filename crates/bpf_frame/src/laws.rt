//! Laws of the definitions themselves. The functions do nothing: each contract is a law.
ghost use Rattle.std.specs.Prelude.{◌≡◌, ◌≢◌, ◌≤◌, ◌<◌, ◌+◌, ◌-◌, ◌*◌, ◌/◌, ◌&&◌, ◌⊎◌, ◌↔◌, ℕ, Bool, false, IsTrue, List, length, slice_index_or};
ghost use Rattle.bpf_frame.specs.FrameMap.{Contents, IsProper, IsMarked, AllWritten, IsWithin, Admits, all_written, join, mark, set_slot, slot_kind, touch, unwritten};
ghost use Rattle.bpf_insn.specs.Frame.{IsApart, FrameContents, is_written, slot_value};
ghost use Rattle.bpf_insn.specs.declared.memory.TheConstants.{FRAME_LENGTH, SLOTS, SLOT_LENGTH};
ghost use Rattle.bpf_kinds.specs.Kind as kinds;
ghost use Rattle.bpf_kinds.specs.declared.interval.Interval.{Interval};
ghost use Rattle.bpf_kinds.specs.declared.kind.Kind.{Kind};
ghost use Rattle.bpf_kinds.specs.declared.kind.Kind.TheVariants.{Number, Record, Frame, Nothing};
ghost use Rattle.bpf_kinds.specs.declared.offsets.Offsets.{Offsets};

/// Marking bytes marks each of them, and leaves the other marks unchanged. Nothing is known of the slots of these bytes afterwards, and the other
/// slots keep their kinds.
pub fn mark_is_exact()
    ensures proper { (map : Contents) (from len : ℕ) → IsProper map → from + len ≤ FRAME_LENGTH → IsProper (mark map from len) }
    ensures byte { (map : Contents) (from len at : ℕ) → IsProper map → from + len ≤ FRAME_LENGTH
        → IsMarked (mark map from len).marks at ↔ (IsMarked map.marks at ⊎ ((from ≤ at) × (at < from + len))) }
    ensures forgets { (map : Contents) (from len at : ℕ) → IsProper map → from + len ≤ FRAME_LENGTH → from ≤ at → at < from + len
        → slot_kind (mark map from len) (at / SLOT_LENGTH) ≡ Nothing }
    ensures leaves { (map : Contents) (from len slot : ℕ) → IsProper map → from + len ≤ FRAME_LENGTH → IsApart slot from len
        → slot_kind (mark map from len) slot ≡ slot_kind map slot }
    ensures none { (map : Contents) (from : ℕ) → IsProper map → from ≤ FRAME_LENGTH → mark map from 0 ≡ map }
{}

/// Touching bytes leaves all marks unchanged. Nothing is known of the slots of these bytes afterwards, and the other slots keep their kinds.
pub fn touch_is_exact()
    ensures proper { (map : Contents) (from to : ℕ) → IsProper map → from ≤ to → to < FRAME_LENGTH → IsProper (touch map from to) }
    ensures byte { (map : Contents) (from to : ℕ) → (touch map from to).marks ≡ map.marks }
    ensures forgets { (map : Contents) (from to at : ℕ) → IsProper map → to < FRAME_LENGTH → from ≤ at → at ≤ to
        → slot_kind (touch map from to) (at / SLOT_LENGTH) ≡ Nothing }
    ensures leaves { (map : Contents) (from to slot : ℕ) → IsProper map → from ≤ to → to < FRAME_LENGTH → IsApart slot from (to + 1 - from)
        → slot_kind (touch map from to) slot ≡ slot_kind map slot }
{}

/// A slot that is set has its kind, and the others keep theirs. The bytes of a number are marked, those of a pointer are unmarked, and all other
/// marks are unchanged.
pub fn set_slot_is_exact()
    ensures proper { (map : Contents) (slot : ℕ) (k : Kind) → IsProper map → slot < SLOTS → kinds.IsProper k → IsProper (set_slot map slot k) }
    ensures kind { (map : Contents) (slot : ℕ) (k : Kind) → IsProper map → slot < SLOTS → slot_kind (set_slot map slot k) slot ≡ k }
    ensures leaves { (map : Contents) (slot other : ℕ) (k : Kind) → other ≢ slot
        → slot_kind (set_slot map slot k) other ≡ slot_kind map other }
    ensures number { (map : Contents) (slot at : ℕ) (x : Interval) → IsProper map → slot < SLOTS → at / SLOT_LENGTH ≡ slot
        → IsMarked (set_slot map slot (Number x)).marks at }
    ensures record_pointer { (map : Contents) (slot at : ℕ) (x : Offsets) → IsProper map → slot < SLOTS → at / SLOT_LENGTH ≡ slot
        → slice_index_or (set_slot map slot (Record x)).marks at false ≡ false }
    ensures frame_pointer { (map : Contents) (slot at : ℕ) (x : Offsets) → IsProper map → slot < SLOTS → at / SLOT_LENGTH ≡ slot
        → slice_index_or (set_slot map slot (Frame x)).marks at false ≡ false }
    ensures nothing { (map : Contents) (slot : ℕ) → (set_slot map slot Nothing).marks ≡ map.marks }
    ensures others { (map : Contents) (slot at : ℕ) (k : Kind) → IsProper map → slot < SLOTS → at / SLOT_LENGTH ≢ slot
        → slice_index_or (set_slot map slot k).marks at false ≡ slice_index_or map.marks at false }
{}

/// The test of a range of bytes reports whether each of them is marked.
pub fn all_written_is_exact()
    ensures { (marks : List Bool) (from to : ℕ) → from ≤ to → to < length marks
        → IsTrue (all_written marks from to) ↔ AllWritten marks from to }
{}

/// A byte is marked in a join if it is marked in both maps, and a slot has the join of its kinds in both.
pub fn join_is_exact()
    ensures byte { (map other : Contents) (at : ℕ) → IsProper map → IsProper other → slice_index_or (join map other).marks at false
        ≡ (slice_index_or map.marks at false && slice_index_or other.marks at false) }
    ensures kind { (map other : Contents) (slot : ℕ) → IsProper map → IsProper other
        → slot_kind (join map other) slot ≡ kinds.join (slot_kind map slot) (slot_kind other slot) }
{}

/// Every frame is possible if nothing is known.
pub fn unwritten_admits_all()
    ensures proper { IsProper unwritten }
    ensures admits { (frame : FrameContents) → Admits unwritten frame }
{}

/// A map within another stays within it if the same happens to both, marks every byte that the other one marks, and has a kind within the other's
/// in each slot. The other map's slot must be set to a known kind: `Nothing` would keep its marks, while a pointer in the first map removes them.
pub fn marks_are_monotone()
    ensures mark { (map other : Contents) (from len : ℕ) → IsProper map → IsProper other → from + len ≤ FRAME_LENGTH → IsWithin map other
        → IsWithin (mark map from len) (mark other from len) }
    ensures touch { (map other : Contents) (from to : ℕ) → IsProper map → IsProper other → from ≤ to → to < FRAME_LENGTH → IsWithin map other
        → IsWithin (touch map from to) (touch other from to) }
    ensures set_slot { (map other : Contents) (slot : ℕ) (k l : Kind) → IsProper map → IsProper other → slot < SLOTS → l ≢ Nothing
        → kinds.IsWithin k l → IsWithin map other → IsWithin (set_slot map slot k) (set_slot other slot l) }
    ensures slot { (map other : Contents) (slot : ℕ) → IsWithin map other → kinds.IsWithin (slot_kind map slot) (slot_kind other slot) }
    ensures all_written { (map other : Contents) (from to : ℕ) → IsWithin map other → AllWritten other.marks from to
        → AllWritten map.marks from to }
{}

/// If one map is within another, it marks every part of a range that the other one marks completely. It stays within the other one if bytes are
/// touched there, and at most some of them are touched or marked in itself, or a number is set among them. It also stays within if some of the
/// bytes touched in both are marked afterwards, at least as many in itself.
pub fn marks_within_touched()
    ensures all_written { (x a : Contents) (from to low high : ℕ) → IsProper x → IsProper a → IsWithin x a → low ≤ from → to ≤ high
        → IsTrue (all_written a.marks low high) → IsTrue (all_written x.marks from to) }
    ensures widens { (x a : Contents) (low high : ℕ) → IsProper a → low ≤ high → high < FRAME_LENGTH → IsWithin x a
        → IsWithin x (touch a low high) }
    ensures touch { (x a : Contents) (from to low high : ℕ) → IsProper x → IsProper a → low ≤ from → from ≤ to → to ≤ high
        → high < FRAME_LENGTH → IsWithin x (touch a low high) → IsWithin (touch x from to) (touch a low high) }
    ensures mark { (x a : Contents) (from len low high : ℕ) → IsProper x → IsProper a → low ≤ from → from + len ≤ high + 1 → low ≤ high
        → high < FRAME_LENGTH → IsWithin x (touch a low high) → IsWithin (mark x from len) (touch a low high) }
    ensures set_slot { (x a : Contents) (slot low high : ℕ) (n : Interval) → IsProper x → IsProper a → low ≤ SLOT_LENGTH * slot
        → SLOT_LENGTH * slot + 7 ≤ high → high < FRAME_LENGTH → IsWithin x (touch a low high)
        → IsWithin (set_slot x slot (Number n)) (touch a low high) }
    ensures touch_and_mark { (x a : Contents) (from to len less high : ℕ) → IsProper x → IsProper a → less ≤ len → from + len ≤ to + 1
        → from ≤ to → to ≤ high → high < FRAME_LENGTH → IsWithin x a
        → IsWithin (mark (touch x from to) from len) (mark (touch a from high) from less) }
{}

/// A frame that was possible remains possible after a change to it: no written byte becomes unwritten, the bytes that are marked were written, and
/// each slot that stays known keeps its contents. A slot that is set holds a value of its kind.
pub fn possible_frames_are_preserved()
    ensures mark { (map : Contents) (from len : ℕ) (before after : FrameContents) → IsProper map → from + len ≤ FRAME_LENGTH → Admits map before
        → ((at : ℕ) → IsTrue (is_written before.bytes at) → IsTrue (is_written after.bytes at))
        → ((at : ℕ) → from ≤ at → at < from + len → IsTrue (is_written after.bytes at))
        → ((slot : ℕ) → slot < SLOTS → IsApart slot from len → slot_value after slot ≡ slot_value before slot)
        → Admits (mark map from len) after }
    ensures touch { (map : Contents) (from to : ℕ) (before after : FrameContents) → IsProper map → from ≤ to → to < FRAME_LENGTH
        → Admits map before → ((at : ℕ) → IsTrue (is_written before.bytes at) → IsTrue (is_written after.bytes at))
        → ((slot : ℕ) → slot < SLOTS → IsApart slot from (to + 1 - from) → slot_value after slot ≡ slot_value before slot)
        → Admits (touch map from to) after }
    ensures set_slot { (map : Contents) (slot : ℕ) (k : Kind) (before after : FrameContents) → IsProper map → slot < SLOTS
        → FRAME_LENGTH ≤ length after.bytes → k ≢ Nothing → Admits map before
        → ((at : ℕ) → at / SLOT_LENGTH ≢ slot → IsTrue (is_written before.bytes at) → IsTrue (is_written after.bytes at))
        → ((other : ℕ) → other < SLOTS → other ≢ slot → slot_value after other ≡ slot_value before other)
        → kinds.Admits k (slot_value after slot) → Admits (set_slot map slot k) after }
{}

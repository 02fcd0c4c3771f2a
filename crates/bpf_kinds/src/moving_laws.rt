//! Laws of moving pointers, each of which is the contract of a function that does nothing.
ghost use Rattle.std.specs.Prelude.{◌≡◌, ◌+ℤ◌, ◌-ℤ◌, ℕ, ℤ, IsTrue, Some};
ghost use Rattle.std.specs.Int.{w64, cast_signed};
ghost use Rattle.bpf_insn.specs.Pointer.{is_offset};
ghost use Rattle.bpf_kinds.specs.Interval as interval;
ghost use Rattle.bpf_kinds.specs.Offsets.{IsProper, Admits, IsWithin};
ghost use Rattle.bpf_kinds.specs.Moving.{near_distances, move_by, move_back_by};
ghost use Rattle.bpf_kinds.specs.declared.interval.Interval.{Interval};
ghost use Rattle.bpf_kinds.specs.declared.offsets.Offsets.{Offsets};

/// Each number in an interval by which a pointer may be moved is a near distance, and the interval's distances admit it.
pub fn near_distances_admit()
    ensures proper { (x : Interval) (distances : Offsets)
        → interval.IsProper x → near_distances x ≡ Some distances → IsProper distances }
    ensures admits { (x : Interval) (distances : Offsets) (n : ℕ)
        → interval.IsProper x → near_distances x ≡ Some distances → interval.Admits x n
        → IsTrue (is_offset (cast_signed w64 n)) × Admits distances (cast_signed w64 n) }
{}

/// A pointer at one of the offsets, moved by one of the distances, has an offset that the moved offsets admit.
pub fn move_by_admits()
    ensures proper { (x distances moved : Offsets)
        → IsProper x → IsProper distances → move_by x distances ≡ Some moved → IsProper moved }
    ensures admits { (x distances moved : Offsets) (offset distance : ℤ)
        → move_by x distances ≡ Some moved → Admits x offset → Admits distances distance
        → IsTrue (is_offset (offset +ℤ distance)) × Admits moved (offset +ℤ distance) }
{}

/// The same for a pointer that is moved back.
pub fn move_back_by_admits()
    ensures proper { (x distances moved : Offsets)
        → IsProper x → IsProper distances → move_back_by x distances ≡ Some moved → IsProper moved }
    ensures admits { (x distances moved : Offsets) (offset distance : ℤ)
        → move_back_by x distances ≡ Some moved → Admits x offset → Admits distances distance
        → IsTrue (is_offset (offset -ℤ distance)) × Admits moved (offset -ℤ distance) }
{}

/// Moves are monotone: distances within near distances are near, and a move of lower offsets by lower distances yields lower offsets, and isn't
/// refused if the move of the higher ones isn't.
pub fn moves_are_monotone()
    ensures near { (x a : Interval) (distances : Offsets)
        → interval.IsProper x → interval.IsWithin x a → near_distances a ≡ Some distances
        → (nearer : Offsets) × (near_distances x ≡ Some nearer) × IsWithin nearer distances }
    ensures move_by { (x d a e moved : Offsets)
        → IsProper x → IsProper d → IsWithin x a → IsWithin d e → move_by a e ≡ Some moved
        → (nearer : Offsets) × (move_by x d ≡ Some nearer) × IsWithin nearer moved }
    ensures move_back_by { (x d a e moved : Offsets)
        → IsProper x → IsProper d → IsWithin x a → IsWithin d e → move_back_by a e ≡ Some moved
        → (nearer : Offsets) × (move_back_by x d ≡ Some nearer) × IsWithin nearer moved }
{}

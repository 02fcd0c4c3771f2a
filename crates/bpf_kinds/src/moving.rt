//! Moves of pointers by a number of bytes.
ghost use Rattle.std.specs.Prelude.{◌≡◌, ◌+ℤ◌, ◌-ℤ◌, ℕ, ℤ, IfSome};
ghost use Rattle.std.specs.Int.{w64, cast_signed};
ghost use Rattle.bpf_kinds.specs.Interval as interval;
ghost use Rattle.bpf_kinds.specs.Moving.{near_distances, if_offsets, move_by, move_back_by};
ghost use Rattle.bpf_kinds.specs.Offsets.{IsProper, Admits, between};

use crate::interval::Interval;
use crate::offsets::Offsets;

/// Returns the numbers of an interval in two's complement, as distances in bytes, if a pointer may be moved by each of them: all are at most 32767,
/// or all are from -32768 to -1.
pub fn near_distances(x: Interval) -> Option<Offsets>
    requires { interval.IsProper x }
    ensures value { result ≡ near_distances x }
    ensures admits { (n : ℕ) → interval.Admits x n → IfSome result (λ distances. Admits distances (cast_signed w64 n)) }
    ensures proper { IfSome result IsProper }
{
    // An interval of unsigned numbers with distances both below and above 0 has all others, too.
    if x.high < 1 << 15 || x.low > u64::MAX - (1 << 15) {
        Some(Offsets {
            low: x.low.cast_signed() as i16,
            high: x.high.cast_signed() as i16,
        })
    } else {
        None
    }
}

impl Offsets {
    /// Returns the offsets after a move by the distances, if all of them are in range.
    pub fn move_by(self, distances: Offsets) -> Option<Offsets>
        ensures value { result ≡ move_by self distances }
        ensures admits { (offset distance : ℤ) → Admits self offset → Admits distances distance
            → IfSome result (λ moved. Admits moved (offset +ℤ distance)) }
        ensures proper { IsProper self → IsProper distances → IfSome result IsProper }
    {
        if_offsets(
            i32::from(self.low) + i32::from(distances.low),
            i32::from(self.high) + i32::from(distances.high),
        )
    }

    /// Returns the offsets after a move backwards by the distances, if all of them are in range.
    pub fn move_back_by(self, distances: Offsets) -> Option<Offsets>
        ensures value { result ≡ move_back_by self distances }
        ensures admits { (offset distance : ℤ) → Admits self offset → Admits distances distance
            → IfSome result (λ moved. Admits moved (offset -ℤ distance)) }
        ensures proper { IsProper self → IsProper distances → IfSome result IsProper }
    {
        if_offsets(
            i32::from(self.low) - i32::from(distances.high),
            i32::from(self.high) - i32::from(distances.low),
        )
    }
}

/// Returns the offsets from `low` to `high`, if both are in range.
fn if_offsets(low: i32, high: i32) -> Option<Offsets>
    ensures { result ≡ if_offsets (between low high) }
{
    let low = i16::try_from(low).ok()?;
    let high = i16::try_from(high).ok()?;
    Some(Offsets { low, high })
}

//! Intervals of a pointer's offsets.
ghost use Rattle.std.specs.Prelude.{ℤ};
ghost use Rattle.std.proofs.Common.{rules};
ghost use Rattle.bpf_kinds.specs.Offsets as offsets;

use crate::order::Order;

/// The offsets from `low` to `high`, both included, in bytes from an area's first one.
#[derive(Clone, Copy, PartialEq, Eq)]
pub struct Offsets {
    pub low: i16,
    pub high: i16,
}

impl Order for Offsets {
    ghost Element = { ℤ };

    ghost IsProper = { offsets.IsProper };

    ghost Admits = { offsets.Admits };

    ghost IsWithin = { offsets.IsWithin };

    ghost join = { offsets.join };

    ghost laws = { Prim.search rules };

    fn leq(&self, other: &Offsets) -> bool {
        other.low <= self.low && self.high <= other.high
    }

    fn join(&self, other: &Offsets) -> Offsets {
        Offsets {
            low: self.low.min(other.low),
            high: self.high.max(other.high),
        }
    }
}

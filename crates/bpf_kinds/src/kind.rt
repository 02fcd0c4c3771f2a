//! Kinds of values.
ghost use Rattle.std.proofs.Common.{rules};
ghost use Rattle.bpf_insn.specs.declared.value.Value.{Value};
ghost use Rattle.bpf_kinds.specs.Kind as kind;

use crate::interval::Interval;
use crate::offsets::Offsets;
use crate::order::Order;

/// What is known of the value in a register or in a slot of the frame.
#[derive(Clone, Copy, PartialEq, Eq)]
pub enum Kind {
    /// A number in the interval.
    Number(Interval),
    /// A pointer into the record, at one of the offsets.
    Record(Offsets),
    /// A pointer into the frame, at one of the offsets.
    Frame(Offsets),
    /// Anything, even no value at all.
    Nothing,
}

impl Order for Kind {
    ghost Element = { Value };

    ghost IsProper = { kind.IsProper };

    ghost Admits = { kind.Admits };

    ghost IsWithin = { kind.IsWithin };

    ghost join = { kind.join };

    ghost laws = { record {
      reflexive = Prim.search rules;
      transitive = Prim.search rules;
      antisymmetric = Prim.search rules;
      join_is_proper = Prim.search rules;
      left_is_within_join = Prim.search rules;
      right_is_within_join = Prim.search rules;
      join_is_least = Prim.search rules;
      admits_more = Prim.search rules;
    } };

    fn leq(&self, other: &Kind) -> bool {
        match (self, other) {
            (_, Kind::Nothing) => true,
            (Kind::Number(x), Kind::Number(y)) => x.leq(y),
            (Kind::Record(x), Kind::Record(y)) => x.leq(y),
            (Kind::Frame(x), Kind::Frame(y)) => x.leq(y),
            _ => false,
        }
    }

    fn join(&self, other: &Kind) -> Kind {
        match (self, other) {
            (Kind::Number(x), Kind::Number(y)) => Kind::Number(x.join(y)),
            (Kind::Record(x), Kind::Record(y)) => Kind::Record(x.join(y)),
            (Kind::Frame(x), Kind::Frame(y)) => Kind::Frame(x.join(y)),
            _ => Kind::Nothing,
        }
    }
}

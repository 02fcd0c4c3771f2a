//! Intervals of numbers.
ghost use Rattle.std.specs.Prelude.{◌≡◌, ℕ};
ghost use Rattle.bpf_insn.specs.Arithmetic.{low_bits};
ghost use Rattle.bpf_kinds.specs.Interval as interval;
ghost use Rattle.bpf_kinds.specs.Interval.{IsProper, HasBits, single, is_single, full, cut};
ghost use Rattle.bpf_kinds.specs.NumberWidth.{number_bits};
ghost use Rattle.std.proofs.Common.{rules};

use crate::number_width::NumberWidth;
use crate::order::Order;

// All that the verifier knows of a number: neither bits nor signed bounds nor relations between registers, so that people can work out a verdict.
/// The numbers from `low` to `high`, both included: unsigned, of 64 bits.
#[derive(Clone, Copy, PartialEq, Eq)]
pub struct Interval {
    pub low: u64,
    pub high: u64,
}

impl Interval {
    /// Returns the interval of one number.
    pub fn single(number: u64) -> Interval
        ensures value { result ≡ single number }
        ensures proper { IsProper result }
    {
        Interval {
            low: number,
            high: number,
        }
    }

    /// Returns whether the interval contains only one number.
    pub fn is_single(self) -> bool
        ensures { result ≡ is_single self }
    {
        self.low == self.high
    }

    /// Returns the interval of all numbers of a width.
    pub fn full(width: NumberWidth) -> Interval
        ensures value { result ≡ full (number_bits width) }
        ensures bits { HasBits (number_bits width) result }
        ensures proper { IsProper result }
    {
        Interval {
            low: 0,
            high: width.greatest(),
        }
    }

    /// Returns the interval of the numbers' low bits, cut to a width.
    pub fn cut(self, width: NumberWidth) -> Interval
        requires { IsProper self }
        ensures value { result ≡ cut (number_bits width) self }
        ensures admits { (n : ℕ) → interval.Admits self n → interval.Admits result (low_bits (number_bits width) n) }
        ensures bits { HasBits (number_bits width) result }
        ensures proper { IsProper result }
    {
        match width.count() {
            Some(count) if self.low / count == self.high / count => Interval {
                low: self.low % count,
                high: self.high % count,
            },
            Some(_) => Interval::full(width),
            None => self,
        }
    }
}

impl Order for Interval {
    ghost Element = { ℕ };

    ghost IsProper = { interval.IsProper };

    ghost Admits = { interval.Admits };

    ghost IsWithin = { interval.IsWithin };

    ghost join = { interval.join };

    ghost laws = { Prim.search rules };

    fn leq(&self, other: &Interval) -> bool {
        other.low <= self.low && self.high <= other.high
    }

    fn join(&self, other: &Interval) -> Interval {
        Interval {
            low: self.low.min(other.low),
            high: self.high.max(other.high),
        }
    }
}

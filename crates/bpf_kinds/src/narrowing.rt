//! Narrowing at conditional jumps (RFC 9669, section 4.3).
//!
//! Only numbers that are compared as they are get narrowed. If a comparison first cuts or reads them as signed, an interval couldn't say what its
//! result means for the numbers themselves.
ghost use Rattle.std.specs.Prelude.{◌≡◌, ◌+◌, ◌-◌, ◌^◌, ℕ, min, IfSome, IsSomeAnd};
ghost use Rattle.bpf_insn.specs.Arithmetic.{condition_holds};
ghost use Rattle.bpf_kinds.specs.Interval.{IsProper, Admits, IsWithin};
ghost use Rattle.bpf_kinds.specs.Narrowing.{relation_of, is_signed, plain_limit, is_plain, at_least, at_most, common, without, if_reached, narrow, decide, refine_by, refine};

use crate::interval::Interval;
use bpf_insn::{Condition, Width};

/// What is known of the two operands of a comparison, on one of its edges.
#[derive(Clone, Copy, PartialEq, Eq)]
pub struct Narrowed {
    pub left: Interval,
    pub right: Interval,
}

/// The relation of the left operand of a comparison to the right one.
#[derive(Clone, Copy)]
pub(crate) enum Relation {
    Same,
    Different,
    Above,
    AtLeast,
    Below,
    AtMost,
}

/// Returns what is known of two compared numbers on one edge of a jump: the edge of the jump that is taken if `taken` is true, and otherwise
/// the edge to the next instruction. Returns `None` if the edge isn't reached.
pub fn refine(
    condition: Condition,
    width: Width,
    x: Interval,
    y: Interval,
    taken: bool,
) -> Option<Narrowed>
    ensures value { result ≡ refine condition width x y taken }
    // Numbers that take the edge remain admitted.
    ensures keeps { (m n : ℕ) → Admits x m → Admits y n → condition_holds condition width m n ≡ taken
        → IsSomeAnd result (λ both. Admits both.left m × Admits both.right n) }
    ensures within { IfSome result (λ both. IsWithin both.left x × IsWithin both.right y) }
    ensures proper { IsProper x → IsProper y → IfSome result (λ both. IsProper both.left × IsProper both.right) }
{
    refine_by(relation_of(condition, taken), condition, width, x, y, taken)
}

/// Returns the same, given the relation of the numbers on the edge.
fn refine_by(
    relation: Option<Relation>,
    condition: Condition,
    width: Width,
    x: Interval,
    y: Interval,
    taken: bool,
) -> Option<Narrowed>
    ensures { result ≡ refine_by relation condition width x y taken }
{
    match relation {
        Some(relation) if is_plain(condition, width, x, y) => relation.narrow(x, y),
        _ => decide(condition, width, x, y, taken),
    }
}

/// Returns the relation of two numbers if the condition's answer is `taken`, or `None` if the answer says nothing of their order.
fn relation_of(condition: Condition, taken: bool) -> Option<Relation>
    ensures { result ≡ relation_of condition taken }
{
    match (condition, taken) {
        (Condition::Equal, true) | (Condition::NotEqual, false) => Some(Relation::Same),
        (Condition::Equal, false) | (Condition::NotEqual, true) => Some(Relation::Different),
        (Condition::Greater | Condition::SignedGreater, true)
        | (Condition::LessOrEqual | Condition::SignedLessOrEqual, false) => Some(Relation::Above),
        (Condition::GreaterOrEqual | Condition::SignedGreaterOrEqual, true)
        | (Condition::Less | Condition::SignedLess, false) => Some(Relation::AtLeast),
        (Condition::GreaterOrEqual | Condition::SignedGreaterOrEqual, false)
        | (Condition::Less | Condition::SignedLess, true) => Some(Relation::Below),
        (Condition::LessOrEqual | Condition::SignedLessOrEqual, true)
        | (Condition::Greater | Condition::SignedGreater, false) => Some(Relation::AtMost),
        (Condition::SharesBit, _) => None,
    }
}

/// Returns whether the numbers are compared unchanged: none has bits above the width, and for a signed comparison none is negative.
fn is_plain(condition: Condition, width: Width, x: Interval, y: Interval) -> bool
    ensures { result ≡ is_plain condition width x y }
{
    let greatest = greatest_plain(condition, width);
    x.high <= greatest && y.high <= greatest
}

/// Returns the greatest number that is compared unchanged.
fn greatest_plain(condition: Condition, width: Width) -> u64
    ensures { result + 1 ≡ plain_limit condition width }
{
    match (width, is_signed(condition)) {
        (Width::Bits32, false) => (1 << 32) - 1,
        (Width::Bits32, true) => (1 << 31) - 1,
        (Width::Bits64, false) => u64::MAX,
        (Width::Bits64, true) => (1 << 63) - 1,
    }
}

fn is_signed(condition: Condition) -> bool
    ensures { result ≡ is_signed condition }
{
    matches!(
        condition,
        Condition::SignedGreater
            | Condition::SignedGreaterOrEqual
            | Condition::SignedLess
            | Condition::SignedLessOrEqual
    )
}

/// Returns both intervals unchanged, or `None` if both are one number and the condition's answer takes the other edge.
fn decide(
    condition: Condition,
    width: Width,
    x: Interval,
    y: Interval,
    taken: bool,
) -> Option<Narrowed>
    ensures { result ≡ decide condition width x y taken }
{
    if x.is_single() && y.is_single() && condition.holds(width, x.low, y.low) != taken {
        return None;
    }
    Some(Narrowed { left: x, right: y })
}

impl Relation {
    /// Returns the intervals around all pairs of numbers in this relation, if there is such a pair.
    fn narrow(self, x: Interval, y: Interval) -> Option<Narrowed>
        ensures { result ≡ narrow self x y }
    {
        // If an end saturates, one of the two intervals is empty.
        match self {
            Relation::Same => if_reached(common(x, y), common(x, y)),
            Relation::Different => if_reached(without(x, y), without(y, x)),
            Relation::Above => if_reached(
                at_least(x, y.low.saturating_add(1)),
                at_most(y, x.high.saturating_sub(1)),
            ),
            Relation::AtLeast => if_reached(at_least(x, y.low), at_most(y, x.high)),
            Relation::Below => if_reached(
                at_most(x, y.high.saturating_sub(1)),
                at_least(y, x.low.saturating_add(1)),
            ),
            Relation::AtMost => if_reached(at_most(x, y.high), at_least(y, x.low)),
        }
    }
}

fn if_reached(left: Interval, right: Interval) -> Option<Narrowed>
    ensures { result ≡ if_reached left right }
{
    if left.low <= left.high && right.low <= right.high {
        Some(Narrowed { left, right })
    } else {
        None
    }
}

fn at_least(x: Interval, least: u64) -> Interval
    ensures { result ≡ at_least x least }
{
    Interval {
        low: x.low.max(least),
        high: x.high,
    }
}

fn at_most(x: Interval, most: u64) -> Interval
    ensures { result ≡ at_most x most }
{
    Interval {
        low: x.low,
        high: x.high.min(most),
    }
}

/// Returns the numbers in both intervals.
fn common(x: Interval, y: Interval) -> Interval
    ensures { result ≡ common x y }
{
    Interval {
        low: x.low.max(y.low),
        high: x.high.min(y.high),
    }
}

/// Returns `x` without the number in `y`, if it's only one: an end equal to this number moves in by one.
fn without(x: Interval, y: Interval) -> Interval
    // A lower end that would be 2^64 is 2^64 - 1, which is still above the upper one.
    ensures low { result.low ≡ min (without x y).low (2 ^ 64 - 1) }
    ensures high { result.high ≡ (without x y).high }
{
    // If `y` may be several numbers, none of them is excluded for certain.
    if !y.is_single() {
        return x;
    }
    Interval {
        low: if x.low == y.low {
            x.low.saturating_add(1)
        } else {
            x.low
        },
        high: if x.high == y.low {
            x.high.saturating_sub(1)
        } else {
            x.high
        },
    }
}

//! Lists of values by number.
ghost use Rattle.std.specs.Prelude.{◌≡◌, ◌<◌, ◌≤◌, ℕ, nat_le, [], length, IfOk, IsTrue, MatchOption};
ghost use Rattle.tl_segments.specs.Marks.{AreMarked};
ghost use Rattle.tl_segments.specs.Shape.{IsPlace, IsTaken};

use crate::county_file::Addition;
use crate::limits::MAX_LINES_PER_TLID;
use crate::marks::Marks;
use crate::shape::ShapePart;
use std::alloc::{AllocError, Allocator};
use std::collections::BTreeMap;

/// Lists of values by number, each with at most [`MAX_LINES_PER_TLID`] values.
#[derive(Drop)]
pub(crate) struct MultiMap<V, A: Allocator> {
    // Ordered, as strangers may choose a file's TLIDs and could attack an unseeded hash.
    lists: BTreeMap<u64, Vec<V, A>, A>,
    // Most TLIDs have nothing, which a mark says without a search.
    marks: Marks<A>,
    ghost marked: { AreMarked lists marks },
}

impl<V: Drop, A: Allocator + Copy> MultiMap<V, A> {
    ghost use Rattle.tl_segments.specs.TableContents.{AddsAt, MatchAddition, list_at};

    pub(crate) fn new(alloc: A) -> Self
        ensures { (number : ℕ) → list_at result number ≡ [] }
    {
        MultiMap {
            lists: BTreeMap::new(alloc),
            marks: Marks::new(alloc),
        }
    }

    /// Appends a value to those with this number, unless there are already [`MAX_LINES_PER_TLID`] of them.
    pub(crate) fn push(&mut self, number: u64, value: V) -> Result<Addition, AllocError>
        ensures { IfOk result (λ addition.
            MatchAddition addition (AddsAt self.old self.new number value) (MAX_LINES_PER_TLID ≤ length (list_at self.old number)) ⊥) }
    {
        self.marks.mark(number)?;
        let list = self.lists.entry(number)?.or_default();
        if is_full(list) {
            return Ok(Addition::OverLimit);
        }
        reserve_first(list)?;
        list.push(value)?;
        Ok(Addition::Added)
    }
}

impl<A: Allocator + Copy> MultiMap<ShapePart, A> {
    ghost use Rattle.tl_segments.specs.TableContents.{InsertsAt, MatchAddition, list_at};

    /// Inserts a part before those with this number that have a greater sequence number, unless there are already [`MAX_LINES_PER_TLID`] of them or
    /// one has its sequence number. Parts that come in order take constant time each.
    pub(crate) fn insert(&mut self, number: u64, part: ShapePart) -> Result<Addition, AllocError>
        ensures { IfOk result (λ addition.
            MatchAddition addition (InsertsAt self.old self.new number part) (MAX_LINES_PER_TLID ≤ length (list_at self.old number))
            ((length (list_at self.old number) < MAX_LINES_PER_TLID) × IsTaken (list_at self.old number) part.sequence)) }
    {
        self.marks.mark(number)?;
        let list = self.lists.entry(number)?.or_default();
        if is_full(list) {
            return Ok(Addition::OverLimit);
        }
        // Nothing would say which of two lines with one RTSQ comes first, so the second one is refused.
        let Some(place) = place_of(list.as_slice(), part.sequence()) else {
            return Ok(Addition::Repeated);
        };
        reserve_first(list)?;
        list.insert(place, part)?;
        Ok(Addition::Added)
    }
}

/// Returns whether a list has as many values as it may have.
#[inline]
fn is_full<V, A: Allocator>(list: &Vec<V, A>) -> bool
    ensures { result ≡ nat_le MAX_LINES_PER_TLID (length list.now.items) }
{
    list.len() >= MAX_LINES_PER_TLID
}

/// Reserves room in an empty list for just one value, as most lists have only one.
fn reserve_first<V, A: Allocator>(list: &mut Vec<V, A>) -> Result<(), AllocError>
    ensures { list.new.items ≡ list.old.items }
{
    if list.is_empty() {
        list.reserve_exact(1)?;
    }
    Ok(())
}

/// Returns the place of a new part among parts in the order of their sequence numbers, or `None` if one of them has its number.
fn place_of(parts: &[ShapePart], sequence: u16) -> Option<usize>
    ensures { MatchOption result (IsTaken parts.now sequence) (IsPlace parts.now sequence) }
{
    let mut place = parts.len();
    while place > 0 {
        let before = parts[place - 1].sequence();
        if before < sequence {
            return Some(place);
        }
        if before == sequence {
            return None;
        }
        place -= 1;
    }
    Some(place)
}

impl<V, A: Allocator> MultiMap<V, A> {
    ghost use Rattle.tl_segments.specs.TableContents.{list_at};

    /// Returns whether no number has a value.
    #[inline]
    #[tactic(auto, using(crate::proofs::TableLemmas::no_list_in))]
    pub(crate) fn is_empty(&self) -> bool
        ensures { IsTrue result → (number : ℕ) → list_at self.now number ≡ [] }
    {
        self.lists.is_empty()
    }

    /// Returns the values with this number, in the order in which they were added.
    pub(crate) fn list(&self, number: u64) -> &[V]
        ensures value { result.now ≡ list_at self.now number }
    {
        if !self.marks.is_marked(number) {
            return &[];
        }
        match self.lists.get(&number) {
            Some(list) => list.as_slice(),
            None => &[],
        }
    }
}

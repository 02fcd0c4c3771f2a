//! Refusing each allocation of a call, one at a time.
use crate::counties::{ALONE, Loading, Method, NOTHING, REFUSALS, SEGMENTS};
use crate::hits::{HITS, Search};
use crate::matching::{MATCHES, StreetSearch};
use crate::shape_places::{PLACES, Placing};
use crate::shapes::{SHAPE_REFUSALS, SHAPES, ShapeLoading};
use fixtures::{Refusing, Table, TableFault, cells};
use std::alloc::Global;
use std::process::Abort;
use tl_segments::LoadFault;

/// A call, with the arguments and the answer of a row.
#[derive(Drop)]
enum Call<'a> {
    Hits(Search),
    Matches(StreetSearch<'a>),
    Load(Option<Method>, Loading<'a>),
    Shapes(ShapeLoading<'a>),
    Place(Global, Placing<'a>),
}

impl<'a> Call<'a> {
    /// Reads a row for the call with this name.
    fn new(alloc: Global, name: &str, row: &'a str) -> Result<Self, TableFault> {
        match name {
            "hits" => Ok(Call::Hits(Search::new(alloc, row)?)),
            "matches" => Ok(Call::Matches(StreetSearch::new(alloc, row)?)),
            "shapes" => Ok(Call::Shapes(ShapeLoading::of_parts(alloc, row)?)),
            "place" => Ok(Call::Place(alloc, Placing::new(alloc, row)?)),
            "refused_shapes" => Ok(Call::Shapes(ShapeLoading::of_refusal(alloc, row)?)),
            method => {
                let method = Method::or_plain(method)?;
                let (rt1, rt4, rt5, rt6, expected) = cells(row)?.five()?;
                let loading = Loading::new(alloc, (rt1, rt4, rt5, rt6), expected)?;
                Ok(Call::Load(method, loading))
            }
        }
    }

    /// Returns whether the call's answer is what the row says, or out of memory exactly if an allocation was refused.
    fn is_answered(&self, heap: &Refusing<Global>) -> bool {
        let answer = match self {
            Call::Hits(search) => search.is_right(heap),
            Call::Matches(search) => search.is_right(heap),
            Call::Load(method, loading) => loading.is_right(heap, *method),
            Call::Shapes(loading) => loading.is_right(heap),
            Call::Place(tables, placing) => placing.is_right(heap, *tables),
        };
        match answer {
            Ok(is_right) => is_right && !heap.was_refused(),
            Err(LoadFault::Memory) => heap.was_refused(),
            Err(_) => false,
        }
    }
}

/// Counts the allocations of a call, refusing one at a time until none is left to refuse. Returns `None` if an answer is wrong.
fn refusals(alloc: Global, call: &Call<'_>) -> Option<u64> {
    let heap = Refusing::new(alloc);
    for nth in 1..=u64::MAX {
        heap.refuse(nth);
        if !call.is_answered(&heap) {
            return None;
        }
        if !heap.was_refused() {
            return nth.checked_sub(1);
        }
    }
    None
}

/// Counts the allocations that are refused, for each of these calls and each row of a table.
fn growths(rt: &impl Abort, alloc: Global, table: Table, calls: &str) -> u64 {
    let rows = table.joined(alloc).expect(rt, "rows");
    let mut count: u64 = 0;
    for row in rows.lines() {
        for name in calls.split(' ') {
            let call = Call::new(alloc, name, row).expect(rt, row);
            let refused = refusals(alloc, &call).expect(rt, row);
            count = count.wrapping_add(refused);
        }
    }
    count
}

#[test]
fn segments(rt: HostRuntime) {
    assert!(rt; growths(&rt, rt.alloc(), SEGMENTS, "county index check plain") > 0);
}

#[test]
fn faults(rt: HostRuntime) {
    assert!(rt; growths(&rt, rt.alloc(), REFUSALS, "county index check") > 0);
}

#[test]
fn no_memory(rt: HostRuntime) {
    assert!(rt; growths(&rt, rt.alloc(), NOTHING, "county") == 0);
    assert!(rt; growths(&rt, rt.alloc(), ALONE, "index check plain") == 0);
}

#[test]
fn hits(rt: HostRuntime) {
    assert!(rt; growths(&rt, rt.alloc(), HITS, "hits") > 0);
}

#[test]
fn matches_of_streets(rt: HostRuntime) {
    assert!(rt; growths(&rt, rt.alloc(), MATCHES, "matches") > 0);
}

#[test]
fn shapes(rt: HostRuntime) {
    assert!(rt; growths(&rt, rt.alloc(), SHAPES, "shapes") > 0);
    assert!(rt; growths(&rt, rt.alloc(), SHAPE_REFUSALS, "refused_shapes") > 0);
}

#[test]
fn places(rt: HostRuntime) {
    assert!(rt; growths(&rt, rt.alloc(), PLACES, "place") > 0);
}

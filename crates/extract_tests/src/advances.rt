//! Turns of programs without a table, and the names of a table's faults.
use crate::segments::{LINE_LENGTH, Selection, counties_of, lines_of, rows_of, sizes_of};
use bpf_program::accept;
use bpf_verify::Verified;
use fixtures::{Refusing, Table, TableFault, cells, program};
use jobs::{JobFault, MAX_COUNTIES, advance};
use std::alloc::{AllocError, Global};
use tl_segments::County;

// The sizes of the counties, a program, and whether its turns allocate.
const TURNS: Table = Table(
    "\
none; every; false
0 0; every; false
1; scored_roads; true
100 0 500; every; true
100 0 500; scored_roads; true
100 0 500; never; false
255 1 1 255; roads; true
257 256 0 255 600 1; tlids; true",
);

/// Appends the rows of all turns, with a failure injected into each allocation once, and returns the number of failures. Returns `None` if a failed
/// allocation changes the rows, or if a turn doesn't process the next 256 segments or all that are left.
fn refusals<'a>(
    heap: &'a Refusing<Global>,
    verified: &Verified<&'a Refusing<Global>>,
    counties: &[County<&'a Refusing<Global>>],
    total: u64,
    rows: &mut Vec<u8, &'a Refusing<Global>>,
) -> Option<u64> {
    if counties.len() > MAX_COUNTIES {
        return None;
    }
    let (mut done, mut nth, mut refused): (u64, u64, u64) = (0, 1, 0);
    for _attempt in 0..u64::MAX {
        let before = rows.len();
        heap.refuse(nth);
        match advance(verified, counties, done, rows) {
            Ok(now) if now == done => return Some(refused),
            Ok(now) => {
                if now != done.saturating_add(256).min(total) {
                    return None;
                }
                (done, nth) = (now, 1);
            }
            Err(AllocError) => {
                if !heap.was_refused() || rows.len() != before {
                    return None;
                }
                nth = nth.wrapping_add(1);
                refused = refused.wrapping_add(1);
            }
        }
    }
    None
}

/// Counties, a program, the rows that it selects, and whether its turns allocate.
#[derive(Drop)]
struct Case {
    sizes: Vec<usize>,
    lines: Vec<u8>,
    program: Vec<u8>,
    rows: Vec<u8>,
    is_growing: bool,
}

impl Case {
    fn new(alloc: Global, row: &str) -> Result<Self, TableFault> {
        let (sizes, name, is_growing) = cells(row)?.three()?;
        let is_growing = is_growing.parse().map_err(|_| TableFault::Word)?;
        let sizes = sizes_of(alloc, sizes)?;
        let lines = lines_of(alloc, &sizes)?;
        let rows = rows_of(alloc, &lines, Selection::of(name)?, u64::MAX)?;
        Ok(Case {
            sizes,
            lines,
            program: program(alloc, name)?,
            rows,
            is_growing,
        })
    }

    /// Returns whether the turns make the rows that the program selects, and allocate if they should.
    fn is_right(&self, alloc: Global) -> Option<bool> {
        let heap = Refusing::new(alloc);
        let total = (self.lines.len() / LINE_LENGTH) as u64;
        let counties = counties_of(&heap, &self.lines, &self.sizes)?;
        let verified = accept(&heap, &self.program).ok()?;
        let mut rows = Vec::new(&heap);
        let refused = refusals(&heap, &verified, &counties, total, &mut rows)?;
        Some(rows.as_slice() == self.rows.as_slice() && self.is_growing == (refused > 0))
    }
}

fn are_turns_right(alloc: Global, row: &str) -> Result<bool, TableFault> {
    Ok(Case::new(alloc, row)?.is_right(alloc) == Some(true))
}

#[test]
fn each_growth(rt: HostRuntime) {
    for row in TURNS.joined(rt.alloc()).expect(&rt, "turns").lines() {
        assert_eq!(rt; are_turns_right(rt.alloc(), row), Ok(true), "{row}");
    }
}

#[test]
fn names(rt: HostRuntime) {
    let (full, missing) = (JobFault::Full, JobFault::NoJob);
    let refused = match accept(rt.alloc(), &[]) {
        Err(fault) => JobFault::from(fault),
        Ok(_) => full,
    };
    assert!(rt; full.line().as_str() == "refused 70 Full");
    assert!(rt; missing.line().as_str() == "refused 71 NoJob");
    assert!(rt; refused.line().as_str() == "refused 10 Empty");
    assert!(rt; refused.refusal().line().as_str() == "refused 72 Refused");
}

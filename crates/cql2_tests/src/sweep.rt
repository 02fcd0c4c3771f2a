//! Refuses each growth while a filter is read and compiled.
use cql2_code::{CompileFault, compile};
use cql2_text::{FilterFault, read};
use fixtures::{Refusing, Table, TableFault, cells};
use std::alloc::Global;

// Filters that together contain every kind of node.
const FILTERS: Table = Table(
    "\
NOT (ZIPL = 36067 AND PLACEL IS NULL) OR CFCC LIKE 'A4%'
FENAME < 'Main' OR CASEI(FENAME) = CASEI('Elm') OR HAS_NAME('Oak', 2)
STARTS_IN(BBOX(-87, 32, -86, 33)) AND FRADDL IN (1, 2, 3)",
);

/// Returns the number of words in a filter's program, or whether the filter has none because memory ran out.
fn words(heap: &Refusing<Global>, text: &str) -> Result<usize, bool> {
    let filter = match read(heap, text.as_bytes()) {
        Ok(filter) => filter,
        Err(fault) => return Err(fault == FilterFault::Memory),
    };
    match compile(heap, &filter, None) {
        Ok(code) => Ok(code.words()),
        Err(fault) => Err(fault == CompileFault::Memory),
    }
}

/// Returns the number of refused growths, up to the first that isn't reached. Returns `None` if a refused growth doesn't end in a lack of memory,
/// or if there is no program in the end.
fn refused(alloc: Global, text: &str) -> Option<u64> {
    let heap = Refusing::new(alloc);
    for nth in 1..=u64::MAX {
        heap.refuse(nth);
        let given = words(&heap, text);
        if !heap.was_refused() {
            return given.ok().and(nth.checked_sub(1));
        }
        if given != Err(true) {
            return None;
        }
    }
    None
}

/// Returns whether some growths are refused for a row's filter, each of which ends in a lack of memory.
fn is_swept(alloc: Global, row: &str) -> Result<bool, TableFault> {
    let text = cells(row)?.one()?;
    Ok(refused(alloc, text).unwrap_or(0) > 0)
}

#[test]
fn growths(rt: HostRuntime) {
    for row in FILTERS.joined(rt.alloc()).expect(&rt, "filters").lines() {
        assert_eq!(rt; is_swept(rt.alloc(), row), Ok(true), "{row}");
    }
}

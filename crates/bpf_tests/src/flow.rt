//! Places of instructions, and the places that the flow of a code leads to.
use bpf_flow::Flow;
use bpf_insn::{Code, decode};
use fixtures::{Refusing, Table, TableFault, cells, program, size};
use std::alloc::{Allocator, Global};

// A place; the index of the instruction that begins there, the place after it and the place that it jumps to, or `none`; and the program.
const PLACES: Table = Table(
    "\
0; 0; 1; 3; jeq r0, r1, +2 | lddw r0, 0x1 | ja +0 | exit
1; 1; 3; none; jeq r0, r1, +2 | lddw r0, 0x1 | ja +0 | exit
2; none; none; none; jeq r0, r1, +2 | lddw r0, 0x1 | ja +0 | exit
3; 2; 4; 4; jeq r0, r1, +2 | lddw r0, 0x1 | ja +0 | exit
4; 3; 5; none; jeq r0, r1, +2 | lddw r0, 0x1 | ja +0 | exit
5; none; none; none; jeq r0, r1, +2 | lddw r0, 0x1 | ja +0 | exit
18446744073709551615; none; none; none; jeq r0, r1, +2 | lddw r0, 0x1 | ja +0 | exit
0; 0; 1; 3; ja32 +2 | mov r0, 1 | jslt32 r0, 5, +0 | exit
1; 1; 2; none; ja32 +2 | mov r0, 1 | jslt32 r0, 5, +0 | exit
2; 2; 3; 3; ja32 +2 | mov r0, 1 | jslt32 r0, 5, +0 | exit
3; 3; 4; none; ja32 +2 | mov r0, 1 | jslt32 r0, 5, +0 | exit
1; 1; 2; 65002; mov r0, 1 | ja32 +65000 | lddw r2, 0x1 *32500 | mov r3, 1 *533 | exit
65000; 32501; 65002; none; mov r0, 1 | ja32 +65000 | lddw r2, 0x1 *32500 | mov r3, 1 *533 | exit
65001; none; none; none; mov r0, 1 | ja32 +65000 | lddw r2, 0x1 *32500 | mov r3, 1 *533 | exit
65535; 33035; 65536; none; mov r0, 1 | ja32 +65000 | lddw r2, 0x1 *32500 | mov r3, 1 *533 | exit
65536; none; none; none; mov r0, 1 | ja32 +65000 | lddw r2, 0x1 *32500 | mov r3, 1 *533 | exit
65534; 65534; 65535; 65535; mov r0, 1 *65534 | jeq r0, 0, +0 | exit",
);

/// What a row says about a place.
#[derive(Clone, Copy)]
struct Place {
    number: usize,
    index: Option<usize>,
    next: Option<usize>,
    target: Option<usize>,
}

impl Place {
    fn new(cells: [&str; 4]) -> Result<Self, TableFault> {
        let [number, index, next, target] = cells;
        Ok(Place {
            number: size(number)?,
            index: size_if_any(index)?,
            next: size_if_any(next)?,
            target: size_if_any(target)?,
        })
    }
}

/// Returns the number in a cell, or `None` if the cell is `none`.
fn size_if_any(cell: &str) -> Result<Option<usize>, TableFault> {
    match cell {
        "none" => Ok(None),
        _ => Ok(Some(size(cell)?)),
    }
}

/// Returns whether a flow agrees with a row about a place.
fn has_place<A: Allocator>(flow: &Flow<A>, place: &Place) -> bool {
    let code: &Code<A> = flow.code();
    let wanted = (place.index, place.next, place.target);
    match (code.at(place.number), code.index_at(place.number)) {
        (Some(insn), Some(index)) => {
            let next = flow.next(place.number);
            code.instructions().get(index) == Some(&insn)
                && code.place(index) == place.number
                && wanted == (Some(index), Some(next), flow.target(place.number))
        }
        (None, None) => wanted == (None, None, None),
        _ => false,
    }
}

/// Returns whether the flow of a program agrees with a row about a place, and nothing here allocates.
fn flows_to(alloc: Global, bytes: &[u8], place: &Place) -> Option<bool> {
    let heap = Refusing::new(alloc);
    let code = decode(&heap, bytes).ok()?;
    heap.refuse(1);
    let flow = Flow::of(code).ok()?;
    let is_right = has_place(&flow, place);
    let code = flow.into_code();
    let words = code.words();
    Some(is_right && code.into_instructions().len() <= words && heap.count() == 0)
}

/// Returns whether the flow of a row's program agrees with the row.
fn is_place(alloc: Global, row: &str) -> Result<bool, TableFault> {
    let (number, index, next, target, lines) = cells(row)?.five()?;
    let place = Place::new([number, index, next, target])?;
    let bytes = program(alloc, lines)?;
    Ok(flows_to(alloc, &bytes, &place) == Some(true))
}

#[test]
fn places(rt: HostRuntime) {
    for row in PLACES.joined(rt.alloc()).expect(&rt, "places").lines() {
        assert_eq!(rt; is_place(rt.alloc(), row), Ok(true), "{row}");
    }
}

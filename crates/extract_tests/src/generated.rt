//! Generated lists of events, for a table of jobs and the plain one.
use crate::pair::Pair;
use crate::plain::{Call, Program};
use crate::segments::sizes_of;
use fixtures::{Refusing, Table, TableFault, cells, number};
use std::alloc::Global;

// The programs to draw from; nine of them are refused.
const PROGRAMS: Table = Table(
    "\
every
two
never
roads
tlids
scored_roads
every
two
roads
tlids
empty
part
unknown
cut
backward
outside
endless
stuck
pointer",
);

// The seed; the sizes of the counties; the number of events; the ten words to draw from; and whether the table is full at the end.
const LISTS: Table = Table(
    "\
1; 300 0 257 43; 400; submit submit drop fetch fetch turn turn turn turn turn; false
2; 600; 400; submit submit submit drop fetch turn turn turn turn turn; false
3; 0 1 255 0 256 1; 400; submit submit drop drop fetch fetch fetch turn turn turn; false
4; 257; 300; submit submit submit drop drop drop fetch fetch turn turn; false
5; 0; 200; submit submit submit drop drop fetch fetch turn turn turn; false
6; 256 256; 400; submit submit submit submit submit submit submit submit fetch turn; true
7; 1000 100; 500; submit submit submit submit submit drop fetch turn turn turn; true",
);

/// A row of the lists.
#[derive(Drop)]
struct List<'a> {
    seed: u64,
    sizes: Vec<usize>,
    events: u64,
    words: &'a str,
    is_full: bool,
}

impl<'a> List<'a> {
    fn new(alloc: Global, row: &'a str) -> Result<Self, TableFault> {
        let (seed, sizes, events, words, is_full) = cells(row)?.five()?;
        if words.split(' ').count() != 10 {
            return Err(TableFault::Word);
        }
        Ok(List {
            seed: number(seed)?,
            events: number(events)?,
            words,
            is_full: is_full.parse().map_err(|_| TableFault::Word)?,
            sizes: sizes_of(alloc, sizes)?,
        })
    }
}

/// Returns the programs with these names, one per line.
fn programs_of(alloc: Global, names: &str) -> Result<Vec<Program<'_>>, TableFault> {
    let mut programs = Vec::new(alloc);
    for name in names.lines() {
        programs.push(Program::new(name)?)?;
    }
    Ok(programs)
}

/// Draws a number below a bound; the same seed draws the same numbers.
fn drawn(state: &mut u64, bound: u64) -> u64 {
    *state = state
        .wrapping_mul(6_364_136_223_846_793_005)
        .wrapping_add(1_442_695_040_888_963_407);
    (*state >> 33).checked_rem(bound).unwrap_or(0)
}

/// Draws an event. Its id is usually one of the last eight, and sometimes any that was assigned, the next one, or an absurd one.
fn drawn_event<'a>(
    state: &mut u64,
    words: &str,
    programs: &[Program<'a>],
    next_id: u64,
) -> Result<Call<'a>, TableFault> {
    let id = match drawn(state, 20) {
        0 => u64::MAX,
        1..=7 => drawn(state, next_id.saturating_add(1)),
        _ => next_id.saturating_sub(drawn(state, 8)),
    };
    let word = words.split(' ').nth(drawn(state, 10) as usize);
    let place = drawn(state, programs.len() as u64) as usize;
    let program = programs.get(place).ok_or(TableFault::Rows)?;
    match word {
        Some("submit") => Ok(Call::Submit(*program)),
        Some("turn") => Ok(Call::Turn(Some(id))),
        Some("fetch") => Ok(Call::Fetch(id)),
        Some("drop") => Ok(Call::Drop(id)),
        _ => Err(TableFault::Word),
    }
}

/// Returns whether a table replies like the plain one to the events of a list, and has the same jobs at the end.
fn does_same(
    pair: &mut Pair<'_>,
    list: &List<'_>,
    programs: &[Program<'_>],
) -> Result<bool, TableFault> {
    let mut state = list.seed;
    for _ in 0..list.events {
        let call = drawn_event(&mut state, list.words, programs, pair.plain.next_id())?;
        if pair.is_refused(call, 0) != Some(false) {
            return Ok(false);
        }
    }
    Ok(pair.has_same() && pair.plain.is_full() == list.is_full)
}

fn is_right(alloc: Global, programs: &[Program<'_>], row: &str) -> Result<bool, TableFault> {
    let list = List::new(alloc, row)?;
    let heap = Refusing::new(alloc);
    match Pair::new(alloc, &heap, &list.sizes) {
        Some(mut pair) => does_same(&mut pair, &list, programs),
        None => Ok(false),
    }
}

#[test]
fn lists(rt: HostRuntime) {
    let names = PROGRAMS.joined(rt.alloc()).expect(&rt, "programs");
    let programs = programs_of(rt.alloc(), &names).expect(&rt, "programs");
    for row in LISTS.joined(rt.alloc()).expect(&rt, "lists").lines() {
        assert_eq!(rt; is_right(rt.alloc(), &programs, row), Ok(true), "{row}");
    }
}

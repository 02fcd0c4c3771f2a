//! Hand-made scripts for tables of jobs.
use crate::pair::Pair;
use crate::segments::sizes_of;
use fixtures::{Refusing, Table, TableFault, cells};
use std::alloc::Global;

// Scripts, separated by empty lines. The first line of each has the sizes of the counties, with `|` between lists; the script runs over each list.
// Each row below has an event, which may be applied several times, as in `turn next *58`, and the last reply; or `next`, and the id of the next turn.
//
// The scripts have two programs at the same time, with a refused one between them, and ids of no open job; a job among others and alone; refused
// programs; the longest program; no segments; the greatest number of open jobs, and their next turns; and counties of many sizes.
const SCRIPTS: Table = Table(
    "\
600 | 300 0 300 | 0 0 300 0 0 0 300 0 0
next; none
fetch 1; refused 71 NoJob
submit every; 1
fetch 1; 0 600 0 of every
next; 1
turn 1; 256 600
submit stuck; refused 40 place 0 ReadsNothing(0)
fetch 2; refused 71 NoJob
submit two; 2
next; 2
fetch 1; 256 600 59136 of every
turn 2; 256 600
next; 1
drop 1; dropped
fetch 1; refused 71 NoJob
turn 1; refused 71 NoJob
drop 1; refused 71 NoJob
fetch 2; 256 600 59136 of two
next; 2
turn 2; 512 600
fetch 2; 512 600 118272 of two
turn 0; refused 71 NoJob
turn 3; refused 71 NoJob
turn 18446744073709551615; refused 71 NoJob
fetch 0; refused 71 NoJob
fetch 3; refused 71 NoJob
fetch 18446744073709551615; refused 71 NoJob
drop 0; refused 71 NoJob
drop 3; refused 71 NoJob
drop 18446744073709551615; refused 71 NoJob
turn 2; 600 600
next; none
turn 2; 600 600
fetch 2; 600 600 138600 of two
turn 2; 600 600
fetch 2; 600 600 138600 of two
submit tlids; 3
next; 3
turn 3; 256 600
fetch 3; 256 600 59540 of tlids
fetch 2; 600 600 138600 of two
drop 2; dropped
fetch 3; 256 600 59540 of tlids
drop 3; dropped
next; none

600
submit tlids; 1
turn 1; 256 600
submit stuck; refused 40 place 0 ReadsNothing(0)
submit scored_roads; 2
turn 2; 256 600
turn 1; 512 600
drop 1; dropped
submit never; 3
turn 3; 256 600
turn 2; 512 600
fetch 2; 512 600 118884 of scored_roads

600
submit scored_roads; 1
turn 1; 256 600
turn 1; 512 600
fetch 1; 512 600 118884 of scored_roads

300 0 300
submit empty; refused 10 Empty
submit part; refused 11 NotWhole
submit unknown; refused 13 place 0 UnknownOpcode
submit cut; refused 17 place 1 CutWide
submit backward; refused 30 place 1 BackwardJump
submit outside; refused 31 place 1 OutOfProgram
submit endless; refused 33 place 0 LastNotExit
submit stuck; refused 40 place 0 ReadsNothing(0)
submit beyond; refused 44 place 0 OutOfBounds
submit pointer; refused 51 place 1 ExitNotNumber
submit long; refused 12 TooLong
submit register; refused 14 place 0 BadRegister
submit unused; refused 15 place 0 UnusedNotZero
submit width; refused 16 place 0 BadWidth
submit frame_pointer; refused 18 place 0 WritesFramePointer
submit wide; refused 32 place 0 IntoWide
submit far; refused 41 place 0 PointerArithmetic
submit leaving; refused 42 place 1 LeavesArea
submit number; refused 43 place 1 NotPointer
submit unwritten; refused 45 place 0 UnwrittenFrame
submit record; refused 46 place 0 WritesRecord
submit stored; refused 47 place 0 StoresPointer
submit compared; refused 48 place 1 ComparesPointer
submit helper; refused 49 place 0 UnknownHelper
submit argument; refused 50 place 5 BadArgument(3)
next; none
submit roads; 1
submit empty; refused 10 Empty
submit never; 2
turn 2; 256 600
turn 2; 512 600
fetch 2; 512 600 0 of never
turn 1; 256 600
fetch 1; 256 600 39501 of roads
submit scored_roads; 3
turn 1; 512 600
next; 3
turn 3; 256 600
turn 3; 512 600
next; 1
turn 1; 600 600
fetch 1; 600 600 92400 of roads
next; 2
turn 2; 600 600
next; 3
turn 3; 600 600
next; none
fetch 3; 600 600 139328 of scored_roads

3
submit longest; 1
submit long; refused 12 TooLong
turn 1; 3 3
fetch 1; 3 3 693 of longest

none | 0 | 0 0 | 0 0 0
next; none
submit every; 1
next; none
fetch 1; 0 0 0 of every
turn 1; 0 0
turn 2; refused 71 NoJob
fetch 1; 0 0 0 of every
submit stuck; refused 40 place 0 ReadsNothing(0)
drop 1; dropped
turn 1; refused 71 NoJob
submit every; 2

257
submit every *11; 11
submit two *11; 22
submit roads *11; 33
submit tlids *11; 44
submit scored_roads *10; 54
submit never *10; 64
submit every; refused 70 Full
submit stuck; refused 70 Full
submit empty; refused 70 Full
submit part; refused 70 Full
fetch 65; refused 71 NoJob
turn 65; refused 71 NoJob
drop 65; refused 71 NoJob
drop 0; refused 71 NoJob
submit every; refused 70 Full
drop 17; dropped
submit stuck; refused 40 place 0 ReadsNothing(0)
submit empty; refused 10 Empty
submit roads; 65
submit every; refused 70 Full
turn 65; 256 257
fetch 65; 256 257 39501 of roads
fetch 17; refused 71 NoJob
drop 65; dropped
drop 64; dropped
submit every; 66
fetch 66; 0 257 0 of every
submit two; 67
submit every; refused 70 Full
drop 17; refused 71 NoJob
fetch 1; 0 257 0 of every
turn 63; 256 257
fetch 63; 256 257 0 of never

200 0 400
submit every *11; 11
submit two *11; 22
submit roads *11; 33
submit tlids *11; 44
submit scored_roads *10; 54
submit never *10; 64
turn 9; 256 600
turn 64; 256 600
turn 9; 512 600
turn 2; 256 600
turn 9; 600 600
turn 30; 256 600
turn 2; 512 600
turn 1; 256 600
turn 63; 256 600
turn 9; 600 600
next; 3
turn next *58; 256 600
next; 1
turn next *62; 512 600
next; 1
turn next *63; 600 600
next; none

1 | 0 1 0
submit scored_roads; 1
submit every; 2
submit tlids; 3
submit roads; 4
turn next *4; 1 1
next; none
turn 3; 1 1
fetch 2; 1 1 231 of every

1 1 1 1 1 1 0 1 1 1
submit scored_roads; 1
submit every; 2
submit tlids; 3
submit roads; 4
turn next *4; 9 9
next; none
turn 3; 9 9
fetch 2; 9 9 2079 of every

255
submit scored_roads; 1
submit every; 2
submit tlids; 3
submit roads; 4
turn next *4; 255 255
next; none
turn 3; 255 255
fetch 2; 255 255 58905 of every

256
submit scored_roads; 1
submit every; 2
submit tlids; 3
submit roads; 4
turn next *4; 256 256
next; none
turn 3; 256 256
fetch 2; 256 256 59136 of every

257
submit scored_roads; 1
submit every; 2
submit tlids; 3
submit roads; 4
turn next *4; 256 257
turn next *4; 257 257
next; none
turn 3; 257 257
fetch 2; 257 257 59367 of every

512 | 256 256 | 256 0 256 0 | 255 1 1 255
submit scored_roads; 1
submit every; 2
submit tlids; 3
submit roads; 4
turn next *4; 256 512
turn next *4; 512 512
next; none
turn 3; 512 512
fetch 2; 512 512 118272 of every

255 0 2 0 0 256 0 1 0
submit scored_roads; 1
submit every; 2
submit tlids; 3
submit roads; 4
turn next *4; 256 514
turn next *4; 512 514
turn next *4; 514 514
next; none
turn 3; 514 514
fetch 2; 514 514 118734 of every

0 600 | 600 0
submit scored_roads; 1
submit every; 2
submit tlids; 3
submit roads; 4
turn next *4; 256 600
turn next *4; 512 600
turn next *4; 600 600
next; none
turn 3; 600 600
fetch 2; 600 600 138600 of every

257 256 0 255 600 1
submit scored_roads; 1
submit every; 2
submit tlids; 3
submit roads; 4
turn next *4; 256 1369
turn next *4; 512 1369
turn next *4; 768 1369
turn next *4; 1024 1369
turn next *4; 1280 1369
turn next *4; 1369 1369
next; none
turn 3; 1369 1369
fetch 2; 1369 1369 316239 of every",
);

// The same with refused allocations, each once: `some`, `none`, or `any` number of them. If an event is `unswept`, no allocation is refused. The
// scripts have submissions for which the table's map makes a first node, adds to a node, and splits one or several; turns; and events that don't
// allocate.
const SWEEPS: Table = Table(
    "\
3 0 2
next; none; none
submit stuck; refused 40 place 0 ReadsNothing(0); some
submit every; 1; some
drop 1; dropped; none
submit scored_roads; 2; some
turn next; 5 5; some
next; none; none
submit stuck; refused 40 place 0 ReadsNothing(0); some
submit scored_roads; 3; some
drop 3; dropped; none
submit every; 4; some
turn next; 5 5; some
submit two *8; 12; unswept
turn next *8; 5 5; unswept
submit stuck; refused 40 place 0 ReadsNothing(0); some
submit every; 13; some
drop 13; dropped; none
submit scored_roads; 14; some
turn next; 5 5; some
submit stuck; refused 40 place 0 ReadsNothing(0); some
submit scored_roads; 15; some
drop 15; dropped; none
submit every; 16; some
turn next; 5 5; some
submit stuck; refused 40 place 0 ReadsNothing(0); some
submit every; 17; some
drop 17; dropped; none
submit scored_roads; 18; some
turn next; 5 5; some
submit tlids *4; 22; unswept
next; 19; none
turn next *4; 5 5; unswept
submit stuck; refused 40 place 0 ReadsNothing(0); some
submit scored_roads; 23; some
drop 23; dropped; none
submit every; 24; some
turn next; 5 5; some
submit roads *22; 46; unswept
turn next *22; 5 5; unswept
submit stuck; refused 40 place 0 ReadsNothing(0); some
submit every; 47; some
drop 47; dropped; none
submit scored_roads; 48; some
turn next; 5 5; some
submit two *21; 69; unswept
turn next *21; 5 5; unswept
submit stuck; refused 40 place 0 ReadsNothing(0); some
submit scored_roads; 70; some
drop 70; dropped; none
submit every; 71; some
turn next; 5 5; some
submit stuck; refused 40 place 0 ReadsNothing(0); some
submit every; 72; some
drop 72; dropped; none
submit scored_roads; 73; some
turn next; 5 5; some
submit every; refused 70 Full; none
fetch 74; refused 71 NoJob; none

100 0 500
submit every; 1; unswept
turn 1; 256 600; unswept
submit scored_roads; 2; unswept
turn 2; 256 600; some
turn 2; 512 600; some
turn 2; 600 600; any
turn 2; 600 600; none
turn 2; 600 600; none
fetch 2; 600 600 139328 of scored_roads; none
submit never; 3; some
turn 3; 256 600; none

300
submit every; 1; unswept
turn 1; 256 300; unswept
fetch 1; 256 300 59136 of every; none
fetch 2; refused 71 NoJob; none
turn 2; refused 71 NoJob; none
drop 2; refused 71 NoJob; none
drop 1; dropped; none
next; none; none",
);

/// Which cells the rows of a script have below its first line.
#[derive(Clone, Copy)]
enum Form {
    /// The event and the reply.
    Plain,
    /// Also the allocations that are refused.
    Swept,
}

/// A row that is wrong, and why.
type Wrong<'a> = (&'a str, Result<bool, TableFault>);

/// Returns whether a row of a script is right.
fn is_right(pair: &mut Pair<'_>, form: Form, row: &str) -> Result<bool, TableFault> {
    match form {
        Form::Plain => {
            let (event, reply) = cells(row)?.two()?;
            pair.is_right((event, reply, "unswept"))
        }
        Form::Swept => pair.is_right(cells(row)?.three()?),
    }
}

/// Returns the first row that is wrong, or `the end` if the tables don't have the same jobs after the rows.
fn wrong_row<'a>(pair: &mut Pair<'_>, form: Form, rows: &'a str) -> Option<Wrong<'a>> {
    for row in rows.lines() {
        let answer = is_right(pair, form, row);
        if answer != Ok(true) {
            return Some((row, answer));
        }
    }
    (!pair.has_same()).then_some(("the end", Ok(false)))
}

/// Returns the first row that is wrong over counties of these sizes.
fn wrong_over<'a>(alloc: Global, form: Form, sizes: &'a str, rows: &'a str) -> Option<Wrong<'a>> {
    let counts = match sizes_of(alloc, sizes) {
        Ok(counts) => counts,
        Err(fault) => return Some((sizes, Err(fault))),
    };
    let heap = Refusing::new(alloc);
    match Pair::new(alloc, &heap, &counts) {
        Some(mut pair) => wrong_row(&mut pair, form, rows),
        None => Some((sizes, Ok(false))),
    }
}

/// Returns the first row of a script that is wrong.
fn wrong_in<'a>(alloc: Global, form: Form, script: &'a str) -> Option<Wrong<'a>> {
    let Some((heads, rows)) = script.split_once('\n') else {
        return Some((script, Err(TableFault::Rows)));
    };
    for sizes in heads.split(" | ") {
        let wrong = wrong_over(alloc, form, sizes, rows);
        if wrong.is_some() {
            return wrong;
        }
    }
    None
}

#[test]
fn scripts(rt: HostRuntime) {
    let text = SCRIPTS.joined(rt.alloc()).expect(&rt, "scripts");
    for script in text.split("\n\n") {
        assert_eq!(rt; wrong_in(rt.alloc(), Form::Plain, script), None);
    }
}

#[test]
fn each_growth(rt: HostRuntime) {
    let text = SWEEPS.joined(rt.alloc()).expect(&rt, "sweeps");
    for script in text.split("\n\n") {
        assert_eq!(rt; wrong_in(rt.alloc(), Form::Swept, script), None);
    }
}

//! Programs in the tracer, on segments whose bytes are known. An outcome is the answer, with the score if it isn't 0, the refusal where the program
//! is stuck, or `running`.
use crate::codes::code_of;
use bpf_insn::Code;
use bpf_meaning::{Outcome, trace};
use fixtures::{FileTexts, Files, Table, TableFault, cells, county, number};
use std::alloc::{Allocator, Global};
use tl_segments::{County, Segment};

// The outcome of a program, the program, the limit on its steps, and the county's only file, of type 1.
const OUTCOMES: Table = Table(concat!(
        // Steps and the limit on them.
        r"0; mov r0, 3 | add r0, -1 | jne r0, 0, -2 | exit; 8; {rt1}\n
running; mov r0, 3 | add r0, -1 | jne r0, 0, -2 | exit; 7; {rt1}\n
running; mov r0, 1; 0; {rt1}\n
refused 31 place 0 OutOfProgram; mov r0, 1; 1; {rt1}\n
running; ja -1; 0; {rt1}\n
running; ja -1; 1000; {rt1}\n
running; mov r0, 1 | exit; 1; {rt1}\n
1; mov r0, 1 | exit; 2; {rt1}\n
1; mov r0, 1 | exit; 18446744073709551615; {rt1}\n
1; lddw r0, 1 | exit; 2; {rt1}\n
refused 40 place 0 ReadsNothing(0); exit; 1; {rt1}\n
running; exit; 0; {rt1}\n
1; mov r0, 1 | ja32 +32768 | mov r0, 1 *32768 | exit; 3; {rt1}\n
",
        // Programs that are stuck.
        r"refused 41 place 3 PointerArithmetic; mov r6, r1 | mov r1, 0 | call 1 | add r6, r0 | ldxb r0, [r6+0] | exit; 9; {rt1}\n
refused 44 place 1 OutOfBounds; add r1, 228 | ldxb r0, [r1+0] | exit; 9; {rt1}\n
refused 43 place 1 NotPointer; mov r2, 5 | ldxb r0, [r2+0] | exit; 9; {rt1}\n
refused 45 place 0 UnwrittenFrame; ldxb r0, [r10-8] | exit; 9; {rt1}\n
refused 42 place 1 LeavesArea; add r1, 32767 | add r1, 1 | exit; 9; {rt1}\n
refused 48 place 1 ComparesPointer; mov r0, 0 | jeq r1, 0, +0 | exit; 9; {rt1}\n
refused 51 place 1 ExitNotNumber; mov r0, r1 | exit; 9; {rt1}\n
refused 46 place 0 WritesRecord; stb [r1+0], 1 | exit; 9; {rt1}\n
refused 47 place 0 StoresPointer; stxw [r10-8], r1 | exit; 9; {rt1}\n
refused 49 place 0 UnknownHelper; call 10 | exit; 9; {rt1}\n
refused 50 place 5 BadArgument(3); stw [r10-4], 0x6e69616d | mov r1, 0 | mov r2, r10 | add r2, -4 | mov r3, 31 | call 7 |
  exit; 9; {rt1}\n
refused 32 place 0 IntoWide; ja +1 | lddw r0, 0x1 | exit; 9; {rt1}\n
",
        // Calls of each helper function.
        r"1; mov r1, 0 | mov r2, 151 | call 5 | exit; 9; {rt1 FRADDL=199 TOADDL=101 FRADDR= TOADDR=}\n
0; mov r1, 0 | mov r2, 150 | call 5 | exit; 9; {rt1 FRADDL=199 TOADDL=101 FRADDR= TOADDR=}\n
1; mov r1, 0 | mov r2, 150 | call 5 | exit; 9; {rt1 FRADDL=100 TOADDL=199 FRADDR= TOADDR=}\n
3; mov r1, 0 | mov r2, 151 | call 5 | exit; 9; {rt1 FRADDL=101 TOADDL=199 FRADDR=101 TOADDR=199}\n
0; mov r1, 1 | call 2 | exit; 9; {rt1 FRADDL=164-20 TOADDL=164-20 FRADDR= TOADDR=}\n
0; mov r1, 1 | call 1 | exit; 9; {rt1 FRADDL=164-20 TOADDL=164-20 FRADDR= TOADDR=}\n
0; mov r1, 0 | mov r2, 164 | call 5 | exit; 9; {rt1 FRADDL=164-20 TOADDL=164-20 FRADDR= TOADDR=}\n
18446744073709551615 score 18446744073709551615; mov r1, -13 | smod r1, 3 | mov r6, r1 | call 8 | mov r0, r6 | exit; 9;
  {rt1}\n
18446744073623051616 score 18446744073623051616; mov r1, 0 | call 9 | mov r1, r0 | mov r6, r0 | call 8 | mov r0, r6 |
  exit; 9; {rt1}\n
1852399949; mov r1, 0 | mov r2, r10 | add r2, -4 | mov r3, 4 | call 6 | ldxw r0, [r10-4] | exit; 9; {rt1}\n
538976288; mov r1, 1 | mov r2, r10 | add r2, -4 | mov r3, 4 | call 6 | ldxw r0, [r10-4] | exit; 9; {rt1}\n
1; stw [r10-4], 0x6e69616d | mov r1, 0 | mov r2, r10 | add r2, -4 | mov r3, 4 | call 7 | exit; 9; {rt1}\n
0; stw [r10-4], 0x6e69616d | mov r1, 0 | mov r2, r10 | add r2, -4 | mov r3, 4 | call 7 | exit; 9; {rt1 FENAME=Maine}\n
"
    ));

// The same, with the county's four files.
const JOINED: Table = Table(
    r"3; call 4 | exit; 9; {rt1}\n;;; {rt6 RTSQ=1}\n{rt6 RTSQ=2}\n{rt6 TLID=5}\n
1; call 3 | exit; 9; {rt1}\n; {rt4 FEAT1=7 FEAT2=8}\n; {rt5 FEAT=7}\n;
2; call 3 | exit; 9; {rt1}\n; {rt4 FEAT1=7 FEAT3=8}\n; {rt5 FEAT=8 FENAME=Elm}\n{rt5 FEAT=7}\n{rt5 FEAT=7 FENAME=Ash}\n;",
);

// The files of a segment with two alternate names and one further range.
pub const NAMED: &str = r"{rt1}\n; {rt4 FEAT2=8}\n; {rt5 FENAME=Elm}\n{rt5 FEAT=8}\n;
  {rt6 FRADDR=200 TOADDR=300 ZIPL=36068 ZIPR=36068}\n";

/// Returns the county of the files whose texts are in four cells, allocated in `heap`.
pub fn county_of<A: Allocator + Copy>(
    heap: A,
    alloc: Global,
    texts: FileTexts<'_>,
) -> Result<County<A>, TableFault> {
    let files = Files::new(alloc, texts)?;
    county(heap, &files).map_err(|_| TableFault::Word)
}

/// Returns whether at most `limit` steps of a code on a segment have the outcome in a cell.
fn has_outcome<A: Allocator, B: Allocator>(
    code: &Code<A>,
    segment: &Segment<B>,
    limit: u64,
    expected: &str,
) -> Result<bool, TableFault> {
    match trace(code, segment, limit) {
        Outcome::Running => Ok(expected == "running"),
        Outcome::Stuck { place, cause } => {
            let refusal = cause.refusal().at_place(place);
            Ok(refusal.line().as_str() == expected)
        }
        exit => Ok(exit == exit_in(expected)?),
    }
}

/// Returns the exit with the answer and the score in a cell. A score of 0 isn't written.
pub fn exit_in(cell: &str) -> Result<Outcome, TableFault> {
    let (answer, score) = cell.split_once(" score ").unwrap_or((cell, "0"));
    Ok(Outcome::Exit {
        answer: number(answer)?,
        score: number(score)?,
    })
}

/// Returns whether a row's program has the row's outcome on the first segment of a county with these files.
fn is_outcome(
    alloc: Global,
    traced: (&str, &str, &str),
    texts: FileTexts<'_>,
) -> Result<bool, TableFault> {
    let (expected, lines, limit) = traced;
    let limit = number(limit)?;
    let code = code_of(alloc, lines)?;
    let county = county_of(alloc, alloc, texts)?;
    match county.segments().first() {
        Some(segment) => has_outcome(&code, segment, limit, expected),
        None => Ok(false),
    }
}

/// Returns whether a row's program has the row's outcome with the row's file of type 1 alone.
fn is_alone(alloc: Global, row: &str) -> Result<bool, TableFault> {
    let (expected, lines, limit, rt1) = cells(row)?.four()?;
    is_outcome(alloc, (expected, lines, limit), (rt1, "", "", ""))
}

/// Returns whether a row's program has the row's outcome with the row's four files.
fn is_joined(alloc: Global, row: &str) -> Result<bool, TableFault> {
    let (expected, lines, limit, rt1, rt4, rt5, rt6) = cells(row)?.seven()?;
    is_outcome(alloc, (expected, lines, limit), (rt1, rt4, rt5, rt6))
}

#[test]
fn outcomes(rt: HostRuntime) {
    for row in OUTCOMES.joined(rt.alloc()).expect(&rt, "outcomes").lines() {
        assert_eq!(rt; is_alone(rt.alloc(), row), Ok(true), "{row}");
    }
    for row in JOINED.joined(rt.alloc()).expect(&rt, "joined").lines() {
        assert_eq!(rt; is_joined(rt.alloc(), row), Ok(true), "{row}");
    }
}

//! Accepted programs: what the verifier found, and their answers when they are run, stepped and traced.
use crate::meaning::{NAMED, county_of, exit_in};
use crate::sweep::{Heap, verified};
use bpf_insn::{Area, Code, decode};
use bpf_machine::{Answer, Bare, Registers, run, run_in, step};
use bpf_meaning::{Outcome, State, trace};
use bpf_verify::Verified;
use fixtures::{RT1, Refusing, Table, TableFault, cells, program};
use std::alloc::{Allocator, Global};
use tl_segments::Segment;

// Register 0 at the program's end, with the score if it isn't 0, and the program, which reads the record alone.
const ANSWERS: Table = Table(concat!(
        // Operations and jumps.
        "\
0; mov r2, 0 | ldxb r3, [r1+55] | jeq r3, 65, +1 | mov r2, 1 | mov r0, r2 | exit
0; mov r0, 7 | div r0, 0 | exit
7; mov r0, 7 | mod r0, 0 | exit
7; lddw r0, 0x100000007 | mod32 r0, 0 | exit
0; mov32 r2, -1 | mov r0, 0 | jne r2, -1, +1 | mov r0, 1 | exit
1; mov32 r2, -1 | mov r0, 0 | jne32 r2, -1, +1 | mov r0, 1 | exit
34935; lddw r0, 0x1122334455667788 | be16 r0 | exit
1432778632; lddw r0, 0x1122334455667788 | le32 r0 | exit
18446744073709551612; mov r0, -13 | sdiv r0, 3 | exit
9223372036854775808; lddw r0, 0x8000000000000000 | sdiv r0, -1 | exit
0; lddw r0, 0x8000000000000000 | smod r0, -1 | exit
0; mov r0, 10 | div r0, -1 | exit
6; mov r0, 3 | lsh r0, 65 | exit
4160749568; lddw r0, 0x80000000 | arsh32 r0, 4 | exit
18446744073709551488; mov r1, 128 | movsx8 r0, r1 | exit
4294967168; mov r1, 128 | movsx8_32 r0, r1 | exit
2289526357; lddw r0, 0x1122334455667788 | swap32 r0 | exit
4294967295; mov r0, 1 | neg32 r0 | exit
3; mov r0, 3 | ja +2 | lddw r0, 7 | exit
7; mov r0, 3 | jset32 r0, 4, +2 | lddw r0, 7 | exit
1; mov r2, 5 | mov r3, -1 | mov r0, 0 | jsgt r2, r3, +1 | exit | mov r0, 1 | exit
",
        // Memory.
        "\
255; stb [r10-1], -1 | ldxb r0, [r10-1] | exit
18446744073709551615; stdw [r10-8], -1 | ldxdw r0, [r10-8] | exit
48; mov r2, 1 | add r2, -1 | add r1, r2 | ldxb r0, [r1+227] | exit
48; mov r2, -1 | add r1, r2 | ldxb r0, [r1+228] | exit
32; mov r0, 0 | ldxb r2, [r1+55] | jgt r2, 227, +2 | add r1, r2 | ldxb r0, [r1+0] | exit
32; mov r0, 0 | ldxb r2, [r1+55] | jsgt r2, 227, +2 | add r1, r2 | ldxb r0, [r1+0] | exit
49; add r1, -32768 | add r1, 32767 | ldxb r0, [r1+1] | exit
32; mov r0, 1 | ldxb r2, [r1+55] | jeq r2, 0, +4 | add r2, -1 | and r2, 127 | add r1, r2 | ldxb r0, [r1+0] | exit
32; ldxb r2, [r1+55] | div r2, 2 | add r1, r2 | ldxb r0, [r1+0] | exit
",
        // Slots of the frame.
        "\
48; ldxb r2, [r1+55] | and r2, 15 | stxdw [r10-16], r2 | ldxdw r3, [r10-16] | add r1, r3 | ldxb r0, [r1+0] | exit
65; add r1, 32767 | stxdw [r10-8], r1 | ldxdw r2, [r10-8] | add r2, -32712 | ldxb r0, [r2+0] | exit
65; add r1, -32768 | stxdw [r10-8], r1 | ldxdw r2, [r10-8] | add r2, 32767 | ldxb r0, [r2+56] | exit
7; mov r2, r10 | add r2, -8 | stxdw [r2+0], r2 | ldxdw r3, [r10-8] | stdw [r3+0], 7 | ldxdw r0, [r10-8] | exit
65; ldxb r2, [r1+55] | stxdw [r10-8], r1 | jeq r2, 65, +2 | add r1, 7 | stxdw [r10-8], r1 | ldxdw r3, [r10-8] |
  ldxb r0, [r3+55] | exit
65; ldxb r2, [r1+55] | mov r3, r1 | add r3, 7 | stxdw [r10-8], r3 | jne r2, 65, +1 | stxdw [r10-8], r1 |
  ldxdw r3, [r10-8] | ldxb r0, [r3+55] | exit
",
        // Calls.
        "\
1 score 7; mov r1, 7 | call 8 | mov r0, 1 | exit
18446744073709551615 score 18446744073709551615; mov r1, -13 | smod r1, 3 | mov r6, r1 | call 8 | mov r0, r6 | exit
18446744073623051616 score 18446744073623051616; mov r1, 0 | call 9 | mov r1, r0 | mov r6, r0 | call 8 | mov r0, r6 | exit
",
        // Long programs, most of them of the greatest length. In one of them ADD follows each of 32,766 jumps, which are JGT with 254.
        "\
1; ldxb r2, [r1+55] | jne r2, 65, +0 *4000 | mov r0, 1 | exit
1; ldxb r2, [r1+55] | jne r2, 65, +0 *65000 | mov r0, 1 | exit
1; mov r0, 1 | ja32 +32768 | mov r0, 1 *32768 | exit
533; mov r0, 0 | ja32 +65000 | lddw r2, 0x1 *32500 | add r0, 1 *533 | exit
255; ldxb r0, [r1+55] | hex 25000100fe000000 0700000001000000 *32766 | jeq r0, 255, +1 | mov r0, r9 | exit"
    ));

// The same; the area of each instruction's base, R for the record, F for the frame and - for none; and `joined` if the program reads more than the
// record, or else `alone`.
const AREAS: Table = Table(concat!(
        // Operations and jumps.
        "\
1; mov r0, 1 | exit; --; alone
48; ldxb r0, [r1+227] | exit; R-; alone
0; ldxb r0, [r1+55] | add r0, -65 | exit; R--; alone
1; ldxb r2, [r1+55] | mov r0, 0 | jne r2, 65, +1 | mov r0, 1 | exit; R----; alone
1; mov r0, 1 | ja +1 | ldxb r0, [r9+0] | exit; ----; alone
1; mov r0, 1 | exit | ldxb r0, [r9+0] | exit; ----; alone
1; mov r2, 5 | mov r0, 1 | jgt r2, 9, +1 | exit | ldxb r0, [r9+0] | exit; ------; alone
",
        // Memory.
        "\
18446744073709551615; stb [r10-1], -1 | ldxsb r0, [r10-1] | exit; FF-; alone
0; mov r2, 1 | stxdw [r10-8], r2 | ldxw r3, [r10-8] | ldxw r0, [r10-4] | exit; -FFF-; alone
32; mov r6, r1 | mov r1, 0 | call 1 | and r0, 15 | add r6, r0 | ldxb r0, [r6+0] | exit; -----R-; alone
65; stb [r10-1], 1 | lddw r2, 7 | ldxb r1, [r1+55] | mov r0, r1 | exit; F-R--; alone
48; mov r0, 0 | ldxb r2, [r1+55] | mov r3, r1 | jeq r2, 65, +1 | mov r3, r1 | ldxb r0, [r3+1] | exit; -R---R-; alone
",
        // Slots of the frame.
        "\
49; stxdw [r10-8], r1 | mov r1, 1 | call 2 | ldxdw r1, [r10-8] | ldxb r0, [r1+0] | exit; F--FR-; alone
48; stxdw [r10-8], r1 | ldxdw r3, [r10-8] | ldxb r0, [r3+1] | exit; FFR-; alone
1; stxdw [r10-8], r10 | ldxdw r3, [r10-8] | stb [r3-1], 1 | mov r0, 1 | exit; FFF--; alone
",
        // Calls.
        "\
34; call 3 | mov r6, r0 | lsh r6, 4 | call 4 | add r0, r6 | exit; ------; joined
1; mov r1, 0 | mov r2, 151 | call 5 | exit; ----; joined
1; stw [r10-4], 0x6e69616d | mov r1, 0 | mov r2, r10 | add r2, -4 | mov r3, 4 | call 7 | exit; F------; joined
1852399949; mov r1, 0 | mov r2, r10 | add r2, -4 | mov r3, 4 | call 6 | ldxw r0, [r10-4] | exit; -----F-; joined"
    ));

/// Returns the machine after at most `count` steps, and the answer if it's reached.
fn stepped<A: Allocator, B: Allocator>(
    verified: &Verified<A>,
    segment: &Segment<B>,
    count: usize,
) -> (Bare, Option<Answer>) {
    let mut bare = Bare::start();
    for _steps in 0..count {
        if let Some(answer) = step(verified, &mut bare, segment) {
            return (bare, Some(answer));
        }
    }
    (bare, None)
}

/// Returns whether a program has this exit when it's run, when it's run in a reused machine, and when it's stepped.
fn runs_to<A: Allocator, B: Allocator>(
    verified: &Verified<A>,
    segment: &Segment<B>,
    exit: Outcome,
) -> bool {
    let mut bare = Bare::start();
    is_answer(Some(run(verified, segment)), exit)
        && is_answer(Some(run_in(&mut bare, verified, segment)), exit)
        && is_answer(Some(run_in(&mut bare, verified, segment)), exit)
        && is_answer(
            stepped(verified, segment, verified.flat_forms().len()).1,
            exit,
        )
}

/// Returns whether there is an answer, and it's the one of this exit.
fn is_answer(answer: Option<Answer>, exit: Outcome) -> bool {
    match answer {
        Some(Answer { r0, score }) => exit == Outcome::Exit { answer: r0, score },
        None => false,
    }
}

/// Returns whether a code has this exit when it's traced and when it's stepped, in no more steps than the code has words.
fn traces_to<A: Allocator, B: Allocator>(
    code: &Code<A>,
    segment: &Segment<B>,
    exit: Outcome,
) -> bool {
    let mut state = State::start();
    for _steps in 0..code.words() {
        let outcome = bpf_meaning::step(code, segment, &mut state);
        if outcome != Outcome::Running {
            return outcome == exit && trace(code, segment, code.words() as u64) == exit;
        }
    }
    false
}

/// Returns whether the bases of the instructions point into a row's areas, if the row has any.
fn has_areas<A: Allocator>(verified: &Verified<A>, areas: Option<&str>) -> bool {
    let Some(areas) = areas else {
        return true;
    };
    for (area, letter) in verified.areas().iter().zip(areas.bytes()) {
        let found = match area {
            Some(Area::Record) => b'R',
            Some(Area::Frame) => b'F',
            None => b'-',
        };
        if found != letter {
            return false;
        }
    }
    areas.len() == verified.areas().len()
}

/// What a row says about a program.
#[derive(Clone, Copy)]
struct Wanted<'a> {
    exit: Outcome,
    areas: Option<&'a str>,
    reads_record_alone: bool,
}

impl<'a> Wanted<'a> {
    /// Reads the cells that a row with areas has besides its program.
    fn new(cells: [&'a str; 3]) -> Result<Self, TableFault> {
        let [exit, areas, reads] = cells;
        let reads_record_alone = match reads {
            "alone" => true,
            "joined" => false,
            _ => return Err(TableFault::Word),
        };
        Ok(Wanted {
            exit: exit_in(exit)?,
            areas: Some(areas),
            reads_record_alone,
        })
    }
}

/// Returns whether a program is accepted and agrees with a row, and nothing allocates after the verification.
fn is_right(
    heap: &Heap,
    segment: &Segment<&Heap>,
    bytes: &[u8],
    wanted: &Wanted<'_>,
) -> Option<bool> {
    heap.refuse(0);
    let code = decode(heap, bytes).ok()?;
    let verified = verified(heap, bytes, "").ok()?;
    heap.refuse(1);
    let is_found = verified.flat_forms().len() == code.instructions().len()
        && has_areas(&verified, wanted.areas)
        && verified.reads_record_alone() == wanted.reads_record_alone;
    let is_answered = runs_to(&verified, segment, wanted.exit)
        && traces_to(&code, segment, wanted.exit);
    Some(is_found && is_answered && heap.count() == 0)
}

/// Returns whether a row's program reads the record alone and has the row's answer.
fn has_answer(
    alloc: Global,
    heap: &Heap,
    segment: &Segment<&Heap>,
    row: &str,
) -> Result<bool, TableFault> {
    let (exit, lines) = cells(row)?.two()?;
    let wanted = Wanted {
        exit: exit_in(exit)?,
        areas: None,
        reads_record_alone: true,
    };
    let bytes = program(alloc, lines)?;
    Ok(is_right(heap, segment, &bytes, &wanted) == Some(true))
}

/// Returns whether a row's program has the row's answer and areas.
fn has_bases(
    alloc: Global,
    heap: &Heap,
    segment: &Segment<&Heap>,
    row: &str,
) -> Result<bool, TableFault> {
    let (exit, lines, areas, reads) = cells(row)?.four()?;
    let wanted = Wanted::new([exit, areas, reads])?;
    let bytes = program(alloc, lines)?;
    Ok(is_right(heap, segment, &bytes, &wanted) == Some(true))
}

#[test]
fn programs(rt: HostRuntime) {
    let heap = Refusing::new(rt.alloc());
    let files = cells(NAMED)
        .and_then(|row| row.four())
        .expect(&rt, "four files");
    let county = county_of(&heap, rt.alloc(), files).expect(&rt, "a county");
    let segment = county.segments().first().expect(&rt, "a segment");
    for row in ANSWERS.joined(rt.alloc()).expect(&rt, "answers").lines() {
        assert_eq!(rt;
            has_answer(rt.alloc(), &heap, segment, row),
            Ok(true),
            "{row}"
        );
    }
    for row in AREAS.joined(rt.alloc()).expect(&rt, "areas").lines() {
        assert_eq!(rt;
            has_bases(rt.alloc(), &heap, segment, row),
            Ok(true),
            "{row}"
        );
    }
}

/// Returns the machine after at most `count` steps of a program on the example record.
fn machine_after(alloc: Global, text: &str, count: usize) -> Option<Bare> {
    let heap = Refusing::new(alloc);
    let bytes = program(alloc, text).ok()?;
    let verified = verified(&heap, &bytes, "").ok()?;
    Some(stepped(&verified, &Segment::of(alloc, RT1), count).0)
}

// Register 6 is the pointer's offset, the low four bits of 123,456,789.
const POINTER: &str =
    "mov r6, r1 | mov r1, 0 | call 1 | and r0, 15 | add r6, r0 | ldxb r0, [r6+0] | exit";

// Pointers that are stored in the last two slots: one into the record, and one to the end of the frame.
const KEPT: &str = "add r1, 5 | stxdw [r10-8], r1 | stxdw [r10-16], r10 | mov r0, 1 | exit";

/// Checks that pointers are bare words, in registers and in the frame.
#[test]
fn words(rt: HostRuntime) {
    assert!(rt; size_of::<Registers>() == 88);
    let [.., last] = Bare::start().registers.words;
    assert!(rt; last == 512);
    let bare = machine_after(rt.alloc(), POINTER, 5).expect(&rt, POINTER);
    assert!(rt; (bare.at, bare.registers.words[6]) == (5, 5));
    let bare = machine_after(rt.alloc(), KEPT, 3).expect(&rt, KEPT);
    assert!(rt;
        bare.frame.ends_with(b"\x00\x02\x00\x00\x00\x00\x00\x00\x05\x00\x00\x00\x00\x00\x00\x00")
    );
}

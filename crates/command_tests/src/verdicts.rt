//! The commands `verify` and `run` with programs that are accepted and programs that are refused.
use super::cases::filled;
use super::endings::is_right;
use fixtures::{Table, TableFault, cells};
use std::alloc::Global;
use std::test::Fail;

// A program that is refused, and the text on standard error: one or two programs for each kind of refusal. A rule's other rows are in
// tests/verdicts.
const REFUSED_PROGRAMS: Table = Table(
    r"
; refused 10 Empty
hex 95000000000000; refused 11 NotWhole
exit *65537; refused 12 TooLong
hex 0000000000000000 | exit; refused 13 place 0 UnknownOpcode
hex b70b000001000000 | exit; refused 14 place 0 BadRegister
hex b710000001000000 | exit; refused 15 place 0 UnusedNotZero
hex d400000008000000 | exit; refused 16 place 0 BadWidth
hex 1800000001000000; refused 17 place 0 CutWide
hex b70a000001000000 | exit; refused 18 place 0 WritesFramePointer
exit; refused 40 place 0 ReadsNothing(0)
ldxb r0, [r1+228] | exit; refused 44 place 0 OutOfBounds
ja +1 | lddw r0, 0x1 | exit; refused 32 place 0 IntoWide
mov r0, 1 | ja -1 | exit; refused 30 place 1 BackwardJump
mov r0, 1; refused 33 place 0 LastNotExit
ja +0; refused 31 place 0 OutOfProgram
ldxb r3, [r1+55] | jeq r3, 65, +1 | mov r2, 1 | mov r0, r2 | exit; refused 40 place 3 ReadsNothing(2)
mov r2, 1 | stxdw [r10-8], r2 | ldxw r3, [r10-8] | ldxdw r0, [r10-12] | exit; refused 45 place 3 UnwrittenFrame
stb [r10+0], 1 | mov r2, 1 | stxdw [r10-8], r2 | ldxw r3, [r10-8] | ldxw r0, [r10-4] | exit;
  refused 44 place 0 OutOfBounds
stb [r1+0], 1 | ldxb r3, [r1+55] | and r3, 1 | mov r2, r10 | add r2, -2 | add r2, r3 | stb [r2+0], 7 |
  ldxb r0, [r10-2] | exit; refused 46 place 0 WritesRecord
stxw [r10-8], r1 | ldxb r3, [r1+55] | and r3, 1 | mov r2, r10 | add r2, -2 | add r2, r3 | stb [r2+0], 7 |
  ldxb r0, [r10-2] | exit; refused 47 place 0 StoresPointer
call 10 | exit; refused 49 place 0 UnknownHelper
mov r6, r1 | mov r1, 0 | call 1 | add r6, r0 | ldxb r0, [r6+0] | exit; refused 41 place 3 PointerArithmetic
mov r1, 0 | mov r2, r10 | add r2, -4 | mov r3, 4 | call 7 | exit; refused 45 place 4 UnwrittenFrame
stw [r10-4], 0x6e69616d | mov r1, 0 | mov r2, r10 | add r2, -4 | mov r3, 31 | call 7 | exit;
  refused 50 place 5 BadArgument(3)
stw [r10-4], 0x6e69616d | mov r1, 0 | mov r2, r10 | add r2, -4 | mov r3, 4 | call 7 | mov r0, r1 | exit;
  refused 40 place 6 ReadsNothing(1)
mov r1, 0 | mov r2, r10 | add r2, -4 | mov r3, 3 | call 6 | ldxw r0, [r10-4] | exit; refused 45 place 5 UnwrittenFrame
ldxb r3, [r1+55] | and r3, 1 | mov r2, r10 | add r2, -2 | add r2, r3 | stb [r2+0], 7 | ldxb r0, [r10-2] | exit;
  refused 45 place 6 UnwrittenFrame
mov r2, -1 | add r1, r2 | ldxb r0, [r1+0] | exit; refused 44 place 2 OutOfBounds
add r1, 228 | ldxb r0, [r1+0] | exit; refused 44 place 1 OutOfBounds
mov r2, 5 | ldxb r0, [r2+0] | exit; refused 43 place 1 NotPointer
ldxb r0, [r10-8] | exit; refused 45 place 0 UnwrittenFrame
add r1, 32768 | exit; refused 41 place 0 PointerArithmetic
add r1, 32767 | add r1, 1 | exit; refused 42 place 1 LeavesArea
mov r0, 0 | ldxb r2, [r1+55] | jgt r2, 228, +2 | add r1, r2 | ldxb r0, [r1+0] | exit; refused 44 place 4 OutOfBounds
ldxb r2, [r1+55] | mov r3, r1 | jeq r2, 65, +1 | mov r3, 0 | ldxb r0, [r3+0] | exit; refused 40 place 4 ReadsNothing(3)
mov r0, r1 | exit; refused 51 place 1 ExitNotNumber
mov r0, 0 | jeq r1, 0, +0 | exit; refused 48 place 1 ComparesPointer
add r1, -32768 | ldxb r0, [r1+32767] | exit; refused 44 place 1 OutOfBounds
ldxb r2, [r1+55] | add r2, -1 | add r1, r2 | ldxb r0, [r1+0] | exit; refused 41 place 2 PointerArithmetic
ldxb r2, [r1+55] | sdiv r2, 2 | add r1, r2 | ldxb r0, [r1+0] | exit; refused 41 place 2 PointerArithmetic
ldxb r2, [r1+55] | mov r0, 1 | jne r2, r2, +1 | exit | ldxb r0, [r9+0] | exit; refused 40 place 4 ReadsNothing(9)
ldxb r2, [r1+55] | mov r0, 1 | jset r2, 240, +2 | add r1, r2 | ldxb r0, [r1+0] | exit; refused 44 place 4 OutOfBounds
stxdw [r10-12], r1 | exit; refused 47 place 0 StoresPointer
stxdw [r10+0], r1 | exit; refused 44 place 0 OutOfBounds
stxdw [r10-8], r1 | ldxw r0, [r10-8] | exit; refused 45 place 1 UnwrittenFrame
stxdw [r10-8], r1 | stb [r10-1], 0 | ldxdw r1, [r10-8] | exit; refused 45 place 2 UnwrittenFrame
ldxb r2, [r1+55] | stxdw [r10-8], r1 | jeq r2, 65, +1 | stxdw [r10-8], r10 | ldxdw r3, [r10-8] | mov r0, 1 | exit;
  refused 45 place 4 UnwrittenFrame
",
);

// A program that is accepted, a type 1 file, and the rows that it selects.
const ACCEPTED_PROGRAMS: Table = Table(
    r"
mov r0, 1 | exit; {rt1}\n; 0\t{rt1}\n
ldxb r0, [r1+227] | exit; {rt1}\n; 0\t{rt1}\n
mov r2, 0 | ldxb r3, [r1+55] | jeq r3, 65, +1 | mov r2, 1 | mov r0, r2 | exit; {rt1}\n;
mov r0, 7 | div r0, 0 | exit; {rt1}\n;
mov r0, 7 | mod r0, 0 | exit; {rt1}\n; 0\t{rt1}\n
lddw r0, 0x100000007 | mod32 r0, 0 | jeq r0, 7, +1 | mov r0, 0 | exit; {rt1}\n; 0\t{rt1}\n
mov r2, 1 | stxdw [r10-8], r2 | ldxw r3, [r10-8] | ldxw r0, [r10-4] | exit; {rt1}\n;
mov r2, 1 | add r2, -1 | add r1, r2 | ldxb r0, [r1+227] | exit; {rt1}\n; 0\t{rt1}\n
mov r2, -1 | add r1, r2 | ldxb r0, [r1+228] | exit; {rt1}\n; 0\t{rt1}\n
mov32 r2, -1 | mov r0, 0 | jne r2, -1, +1 | mov r0, 1 | exit; {rt1}\n;
mov32 r2, -1 | mov r0, 0 | jne32 r2, -1, +1 | mov r0, 1 | exit; {rt1}\n; 0\t{rt1}\n
mov r0, 1 | ja +1 | ldxb r0, [r9+0] | exit; {rt1}\n; 0\t{rt1}\n
lddw r0, 0x1122334455667788 | be16 r0 | jeq r0, 34935, +1 | mov r0, 0 | exit; {rt1}\n; 0\t{rt1}\n
lddw r0, 0x1122334455667788 | le32 r0 | jeq r0, 1432778632, +1 | mov r0, 0 | exit; {rt1}\n; 0\t{rt1}\n
mov r0, 0 | ldxb r2, [r1+55] | jgt r2, 227, +2 | add r1, r2 | ldxb r0, [r1+0] | exit; {rt1}\n; 0\t{rt1}\n
mov r0, 0 | ldxb r2, [r1+55] | jgt r2, 227, +2 | add r1, r2 | ldxb r0, [r1+0] | add r0, -32 | exit; {rt1}\n;
mov r0, 0 | ldxb r2, [r1+55] | jsgt r2, 227, +2 | add r1, r2 | ldxb r0, [r1+0] | exit; {rt1}\n; 0\t{rt1}\n
mov r1, -13 | smod r1, 3 | mov r6, r1 | call 8 | mov r0, r6 | exit; {rt1}\n{rt1}\n;
  18446744073709551615\t{rt1}\n18446744073709551615\t{rt1}\n
mov r6, r1 | mov r1, 0 | call 1 | and r0, 15 | add r6, r0 | ldxb r0, [r6+0] | exit; {rt1}\n; 0\t{rt1}\n
mov r1, 0 | mov r2, 151 | call 5 | mov r1, r0 | call 8 | mov r0, 1 | exit;
  {rt1 FRADDL=199 TOADDL=101 FRADDR= TOADDR=}\n; 1\t{rt1 FRADDL=199 TOADDL=101 FRADDR= TOADDR=}\n
mov r1, 0 | mov r2, 150 | call 5 | exit; {rt1 FRADDL=199 TOADDL=101 FRADDR= TOADDR=}\n;
mov r1, 0 | mov r2, 150 | call 5 | mov r1, r0 | call 8 | mov r0, 1 | exit; {rt1 FRADDL=100 FRADDR= TOADDR=}\n;
  1\t{rt1 FRADDL=100 FRADDR= TOADDR=}\n
mov r1, 1 | call 2 | exit; {rt1 FRADDL=164-20 FRADDR= TOADDR=}\n{rt1}\n; 0\t{rt1}\n
mov r1, 1 | call 1 | exit; {rt1 FRADDL=164-20 FRADDR= TOADDR=}\n;
mov r1, 0 | mov r2, 164 | call 5 | exit; {rt1 FRADDL=164-20 FRADDR= TOADDR=}\n;
stw [r10-4], 0x6e69616d | mov r1, 0 | mov r2, r10 | add r2, -4 | mov r3, 4 | call 7 | exit;
  {rt1}\n{rt1 FENAME=Maine}\n; 0\t{rt1}\n
mov r1, 0 | call 9 | mov r1, r0 | mov r6, r0 | call 8 | mov r0, r6 | exit; {rt1}\n; 18446744073623051616\t{rt1}\n
mov r1, 0 | mov r2, r10 | add r2, -4 | mov r3, 4 | call 6 | ldxw r1, [r10-4] | call 8 | mov r0, 1 | exit; {rt1}\n;
  1852399949\t{rt1}\n
mov r1, 1 | mov r2, r10 | add r2, -4 | mov r3, 4 | call 6 | ldxw r1, [r10-4] | call 8 | mov r0, 1 | exit; {rt1}\n;
  538976288\t{rt1}\n
add r1, -32768 | add r1, 32767 | ldxb r0, [r1+1] | exit; {rt1}\n; 0\t{rt1}\n
mov r0, 1 | ldxb r2, [r1+55] | jeq r2, 0, +4 | add r2, -1 | and r2, 127 | add r1, r2 | ldxb r0, [r1+0] | exit; {rt1}\n;
  0\t{rt1}\n
ldxb r2, [r1+55] | div r2, 2 | add r1, r2 | ldxb r0, [r1+0] | exit; {rt1}\n; 0\t{rt1}\n
mov r2, 5 | mov r0, 1 | jgt r2, 9, +1 | exit | ldxb r0, [r9+0] | exit; {rt1}\n; 0\t{rt1}\n
ldxb r2, [r1+55] | and r2, 15 | stxdw [r10-16], r2 | ldxdw r3, [r10-16] | add r1, r3 | ldxb r0, [r1+0] | exit; {rt1}\n;
  0\t{rt1}\n
ldxb r2, [r1+55] | jne r2, 65, +0 *4000 | mov r0, 1 | exit; {rt1}\n; 0\t{rt1}\n
",
);

// The rows for the two commands. With a refused program, every read of the type 1 file fails, and so does the first call on the output. The second
// line shows that this call is the flush, so no read and no write is made.
const ACCEPTED: Table = Table(
    r"
extractd verify --program p.bpf; accepted\n; 0;; p.bpf: {asm PROGRAM}
extractd run --program p.bpf --data d 01001; ROWS; 0;; p.bpf: {asm PROGRAM}; d/TGR01001.RT1: LINES
",
);

const REFUSED: Table = Table(
    r"
extractd verify --program p.bpf; ! call 1 full; 3; SAID\nerror: the output can't be written: no space left; p.bpf: {asm PROGRAM}
extractd run --program p.bpf --data d 01001; ! call 1 full; 3; SAID\nerror: the output can't be written: no space left;
  p.bpf: {asm PROGRAM}; d/TGR01001.RT1: ! call 1 pipe
",
);

/// Returns whether both commands refuse a program as a row says.
fn is_refused(alloc: Global, row: &str) -> Result<bool, TableFault> {
    let (program, expected) = cells(row)?.two()?;
    are_right(alloc, REFUSED, &[("PROGRAM", program), ("SAID", expected)])
}

/// Returns whether both commands accept a program, and one selects the rows that a row says.
fn is_accepted(alloc: Global, row: &str) -> Result<bool, TableFault> {
    let (program, lines, rows) = cells(row)?.three()?;
    let texts = [("PROGRAM", program), ("LINES", lines), ("ROWS", rows)];
    are_right(alloc, ACCEPTED, &texts)
}

/// Returns whether both commands end as a table says after each word in it is replaced with its text.
fn are_right(alloc: Global, commands: Table, texts: &[(&str, &str)]) -> Result<bool, TableFault> {
    let rows = filled(alloc, &commands.joined(alloc)?, texts)?;
    for row in rows.lines() {
        if !is_right(alloc, row)? {
            return Ok(false);
        }
    }
    Ok(true)
}

#[test]
fn verdicts(rt: HostRuntime) -> Result<(), Fail> {
    for row in REFUSED_PROGRAMS.joined(rt.alloc())?.lines() {
        assert_eq!(rt; is_refused(rt.alloc(), row), Ok(true), "{row}");
    }
    for row in ACCEPTED_PROGRAMS.joined(rt.alloc())?.lines() {
        assert_eq!(rt; is_accepted(rt.alloc(), row), Ok(true), "{row}");
    }
    Ok(())
}

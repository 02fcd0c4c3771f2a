//! Calls that allocate, with a failure injected into each allocation.
use bpf_assembler::assemble;
use bpf_flat_insn::flat_forms;
use bpf_flow::Flow;
use bpf_insn::{Area, Code, CodeBuilder, CodeFault, Insn, Register, decode, encode};
use bpf_text::{SourceFault, assemble_source, disassemble, disassemble_program};
use bpf_verify::{Verified, verify};
use fixtures::{Refusing, Table, TableFault, bytes, cells, program};
use refusals::Fault;
use std::alloc::{AllocError, Global};

// Calls, a text and a program, each of which the calls convert to the other.
const CONVERSIONS: Table = Table(concat!(
        // Texts.
        r"assemble source; ldxb r2, [r1+55]\nmov r0, 0\njne r2, 65, out\nmov r0, 1\nout:\nexit\n;
  hex 7112370000000000 b700000000000000 5502010041000000 b700000001000000 9500000000000000
decode disassemble; ldxb r2, [r1+55]\nmov r0, 0\njne r2, 65, +1\nmov r0, 1\nexit\n;
  hex 7112370000000000 b700000000000000 5502010041000000 b700000001000000 9500000000000000
assemble source; ja over\nlddw r1, 0x1\nover:\nexit;
  hex 0500020000000000 1801000001000000 0000000000000000 9500000000000000
assemble source; ja end\nend:; hex 0500000000000000
assemble source; a:\nja32 a\nja b\nb:\nja a; ja32 -1 | ja +0 | ja -3
",
        // Programs that allocate: straight ones, and ones with jumps to twenty places and to one.
        r"assemble source decode disassemble verify flatten; mov r0, 1\nexit\n; mov r0, 1 | exit
assemble source decode disassemble verify flatten; {text mov r0, 1\n*300}{text lddw r2, 0x0000000000000001\n*100}{text stdw [r10-8],
  7\n*100}ldxdw r0, [r10-8]\nexit\n; mov r0, 1 *300 | lddw r2, 0x1 *100 | stdw [r10-8], 7 *100 | ldxdw r0, [r10-8] |
  exit
assemble source decode disassemble verify flatten; ldxb r2, [r1+55]\nmov r0, 1\n{text jeq r2, 65, +20\n*20}{text mov r0, 1\n*20}exit\n;
  ldxb r2, [r1+55] | mov r0, 1 | jeq r2, 65, +20 *20 | mov r0, 1 *20 | exit
assemble source decode disassemble verify flatten; ldxb r2, [r1+55]\nmov r0, 1\njgt r2, 65, +2\njset r2, 3, +1\ncall 3\nexit\n;
  ldxb r2, [r1+55] | mov r0, 1 | jgt r2, 65, +2 | jset r2, 3, +1 | call 3 | exit
"
    ));

// Calls, a text, and the refusal by each of the calls.
const TEXTS: Table = Table(
    r"assemble source;; refused 26 line 1 CodeFault(10)
assemble source; frob r0; refused 21 line 1 UnknownMnemonic
assemble source; mov r0; refused 20 line 1 Syntax
assemble source; mov r11, 1; refused 20 line 1 Syntax
assemble source; mov r0, 2147483648; refused 22 line 1 NumberRange
assemble source; a:\na:\nexit; refused 24 line 2 DoubleLabel
assemble source; ja nowhere; refused 23 line 1 UnknownLabel
assemble source; mov r10, 1; refused 26 line 1 CodeFault(18)
assemble source; {text ja end\n*60}end:\nmov r0; refused 20 line 62 Syntax
assemble source; a1:\na2:\na3:\na4:\na5:\na6:\na7:\na8:\na9:\na5:\n; refused 24 line 10 DoubleLabel
assemble source; {text mov r0, 1\n*300}ja nowhere; refused 23 line 301 UnknownLabel
assemble source; {text mov r0, 1\n*300}frob; refused 21 line 301 UnknownMnemonic
source; exit\n\xff\n; not UTF-8",
);

// Calls, a program, and the result of each of the calls: `accepted` or the refusal.
const WORDS: Table = Table(concat!(
        // Words: their number, a wide load without its second word, and an unused field that isn't 0.
        r"decode disassemble verify;; refused 10 Empty
decode disassemble verify; hex b7000000010000; refused 11 NotWhole
decode disassemble verify; hex b710000001000000 | exit; refused 15 place 0 UnusedNotZero
decode disassemble verify; hex 1800000001000000; refused 17 place 0 CutWide
",
        // Programs that allocate: a straight one, and one with jumps to twenty places.
        r"verify; mov r0, 1 *30 | ldxb r0, [r1+228] | exit; refused 44 place 30 OutOfBounds
verify; ldxb r2, [r1+55] | jeq r2, 65, +20 *20 | mov r3, 1 *20 | exit; refused 40 place 41 ReadsNothing(0)
",
        // Jumps, and the last instruction.
        r"verify; ja +1 | lddw r0, 0x1 | exit; refused 32 place 0 IntoWide
verify; ja +1 | lddw r0, 0x1; refused 32 place 0 IntoWide
verify; mov r0, 1 | ja -1 | exit; refused 30 place 1 BackwardJump
verify; mov r0, 1; refused 33 place 0 LastNotExit
verify; ja +0; refused 31 place 0 OutOfProgram
",
        // Refusals of the verifier.
        r"verify; exit; refused 40 place 0 ReadsNothing(0)
verify; ldxb r0, [r1+228] | exit; refused 44 place 0 OutOfBounds
verify; ldxb r3, [r1+55] | jeq r3, 65, +1 | mov r2, 1 | mov r0, r2 | exit; refused 40 place 3 ReadsNothing(2)
verify; mov r6, r1 | mov r1, 0 | call 1 | add r6, r0 | ldxb r0, [r6+0] | exit; refused 41 place 3 PointerArithmetic
verify; mov r2, 1 | stxdw [r10-8], r2 | ldxw r3, [r10-8] | ldxdw r0, [r10-12] | exit; refused 45 place 3 UnwrittenFrame
verify; stb [r10+0], 1 | mov r2, 1 | stxdw [r10-8], r2 | ldxw r3, [r10-8] | ldxw r0, [r10-4] | exit;
  refused 44 place 0 OutOfBounds
verify; mov r2, -1 | add r1, r2 | ldxb r0, [r1+0] | exit; refused 44 place 2 OutOfBounds
verify; mov r1, 0 | mov r2, r10 | add r2, -4 | mov r3, 4 | call 7 | exit; refused 45 place 4 UnwrittenFrame
verify; stw [r10-4], 0x6e69616d | mov r1, 0 | mov r2, r10 | add r2, -4 | mov r3, 31 | call 7 | exit;
  refused 50 place 5 BadArgument(3)
verify; stw [r10-4], 0x6e69616d | mov r1, 0 | mov r2, r10 | add r2, -4 | mov r3, 4 | call 7 | mov r0, r1 | exit;
  refused 40 place 6 ReadsNothing(1)
verify; add r1, 228 | ldxb r0, [r1+0] | exit; refused 44 place 1 OutOfBounds
verify; mov r2, 5 | ldxb r0, [r2+0] | exit; refused 43 place 1 NotPointer
verify; ldxb r0, [r10-8] | exit; refused 45 place 0 UnwrittenFrame
verify; add r1, 32768 | exit; refused 41 place 0 PointerArithmetic
verify; add r1, 32767 | add r1, 1 | exit; refused 42 place 1 LeavesArea
verify; mov r0, 0 | ldxb r2, [r1+55] | jgt r2, 228, +2 | add r1, r2 | ldxb r0, [r1+0] | exit;
  refused 44 place 4 OutOfBounds
verify; ldxb r2, [r1+55] | mov r3, r1 | jeq r2, 65, +1 | mov r3, 0 | ldxb r0, [r3+0] | exit;
  refused 40 place 4 ReadsNothing(3)
verify; mov r0, r1 | exit; refused 51 place 1 ExitNotNumber
verify; mov r0, 0 | jeq r1, 0, +0 | exit; refused 48 place 1 ComparesPointer
verify; mov r1, 0 | mov r2, r10 | add r2, -4 | mov r3, 3 | call 6 | ldxw r0, [r10-4] | exit;
  refused 45 place 5 UnwrittenFrame
verify; call 10 | exit; refused 49 place 0 UnknownHelper
verify; ldxb r3, [r1+55] | and r3, 1 | mov r2, r10 | add r2, -2 | add r2, r3 | stb [r2+0], 7 | ldxb r0, [r10-2] | exit;
  refused 45 place 6 UnwrittenFrame
verify; stb [r1+0], 1 | ldxb r3, [r1+55] | and r3, 1 | mov r2, r10 | add r2, -2 | add r2, r3 | stb [r2+0], 7 |
  ldxb r0, [r10-2] | exit; refused 46 place 0 WritesRecord
verify; stxw [r10-8], r1 | ldxb r3, [r1+55] | and r3, 1 | mov r2, r10 | add r2, -2 | add r2, r3 | stb [r2+0], 7 |
  ldxb r0, [r10-2] | exit; refused 47 place 0 StoresPointer
verify; add r1, -32768 | ldxb r0, [r1+32767] | exit; refused 44 place 1 OutOfBounds
verify; ldxb r2, [r1+55] | add r2, -1 | add r1, r2 | ldxb r0, [r1+0] | exit; refused 41 place 2 PointerArithmetic
verify; ldxb r2, [r1+55] | sdiv r2, 2 | add r1, r2 | ldxb r0, [r1+0] | exit; refused 41 place 2 PointerArithmetic
verify; ldxb r2, [r1+55] | mov r0, 1 | jne r2, r2, +1 | exit | ldxb r0, [r9+0] | exit;
  refused 40 place 4 ReadsNothing(9)
verify; ldxb r2, [r1+55] | mov r0, 1 | jset r2, 240, +2 | add r1, r2 | ldxb r0, [r1+0] | exit;
  refused 44 place 4 OutOfBounds
verify; stxdw [r10-12], r1 | exit; refused 47 place 0 StoresPointer
verify; stxw [r10-8], r1 | exit; refused 47 place 0 StoresPointer
verify; stxdw [r10+0], r1 | exit; refused 44 place 0 OutOfBounds
verify; stxdw [r10-8], r1 | ldxw r0, [r10-8] | exit; refused 45 place 1 UnwrittenFrame
verify; stxdw [r10-8], r1 | stb [r10-1], 0 | ldxdw r1, [r10-8] | exit; refused 45 place 2 UnwrittenFrame
verify; ldxb r2, [r1+55] | stxdw [r10-8], r1 | jeq r2, 65, +1 | stxdw [r10-8], r10 | ldxdw r3, [r10-8] | mov r0, 1 |
  exit; refused 45 place 4 UnwrittenFrame
"
    ));

// Long texts and programs. Most have the greatest length in words, or one word more.
const LONG_CONVERSIONS: Table = Table(
    r"decode; {text exit\n*65536}; exit *65536
disassemble; {text lddw r9, 0x1122334455667788\n*32768}; lddw r9, 0x1122334455667788 *32768
source; mov r0, 1\nja far\n{text mov r0, 1\n*32767}far:\nexit; mov r0, 1 | hex 0500ff7f00000000 | mov r0, 1 *32767 | exit
assemble; mov r0, 1\nja32 far\n{text mov r0, 1\n*32768}far:\nexit;
  mov r0, 1 | hex 0600000000800000 | mov r0, 1 *32768 | exit",
);

const LONG_TEXTS: Table = Table(
    r"assemble; mov r0, 1\nja far\n{text mov r0, 1\n*32768}far:\nexit; refused 25 line 2 LabelTooFar
source; {text exit\n*65537}; refused 26 line 65537 CodeFault(12)",
);

const LONG_WORDS: Table = Table(
    r"decode disassemble verify; exit *65537; refused 12 TooLong
decode disassemble verify; lddw r0, 0x1 *32768 | exit; refused 12 TooLong
decode disassemble verify; exit *65535 | hex 1800000000000000; refused 17 place 65535 CutWide
verify; exit *65535 | ja -32768; refused 30 place 65535 BackwardJump
verify; ja32 +65535 | mov r0, 1 *65534 | exit; refused 31 place 0 OutOfProgram
verify; ja32 +65533 | mov r0, 1 *65532 | lddw r0, 0x1 | exit; refused 32 place 0 IntoWide
verify; exit *65535 | mov r0, 1; refused 33 place 65535 LastNotExit
verify; mov r0, 1 *65534 | mov r0, r9 | exit; refused 40 place 65534 ReadsNothing(9)
verify; stdw [r10-8], 1 *65534 | ldxdw r0, [r10-8] | exit; accepted
verify; mov r0, 1 | lddw r2, 0x1122334455667788 *32767 | exit; accepted
verify; ldxb r0, [r1+55] | jne r0, 65, +32767 | jne r0, 65, +0 *65533 | exit; accepted",
);

/// A text and the words that it means.
#[derive(Drop)]
struct Program {
    text: Vec<u8>,
    words: Vec<u8>,
}

impl Program {
    fn new(alloc: Global, text: &str, words: &str) -> Result<Self, TableFault> {
        let text = bytes(alloc, text)?;
        let words = program(alloc, words)?;
        Ok(Program { text, words })
    }
}

/// The allocator that fails a chosen allocation.
pub type Heap = Refusing<Global>;

/// Returns the expected result of a call: the row's, or out of memory if an allocation was refused.
fn due<'a>(heap: &Heap, expected: &'a str) -> &'a str {
    if heap.was_refused() {
        "refused memory"
    } else {
        expected
    }
}

/// Returns whether a call returned these bytes, or failed because an allocation was refused.
fn is_same(heap: &Heap, given: Result<Vec<u8, &Heap>, AllocError>, bytes: &[u8]) -> bool {
    match given {
        Ok(given) => !heap.was_refused() && given.as_slice() == bytes,
        Err(AllocError) => heap.was_refused(),
    }
}

/// Returns whether a text is assembled, and the code encoded, as a row says.
fn is_assembled(heap: &Heap, program: &Program, expected: &str) -> bool {
    let Ok(text) = str::from_utf8(&program.text) else {
        return false;
    };
    match assemble(heap, text) {
        Ok(code) => expected == "accepted" && is_same(heap, encode(heap, &code), &program.words),
        Err(fault) => fault.line().as_str() == due(heap, expected),
    }
}

/// Returns whether a text is converted to a program's bytes as a row says.
fn is_source(heap: &Heap, program: &Program, expected: &str) -> bool {
    match assemble_source(heap, &program.text) {
        Ok(words) => expected == "accepted" && is_same(heap, Ok(words), &program.words),
        Err(SourceFault::Text(fault)) => fault.line().as_str() == due(heap, expected),
        Err(SourceFault::NotUtf8) => expected == "not UTF-8",
    }
}

/// Returns whether words are decoded, and the code built again and disassembled, as a row says.
fn is_decoded(heap: &Heap, program: &Program, expected: &str) -> bool {
    match decode(heap, &program.words) {
        Ok(code) => {
            due(heap, expected) == "accepted"
                && is_built(heap, &code)
                && (heap.was_refused() || is_disassembled(heap, &code, &program.text))
        }
        Err(fault) => fault.line().as_str() == due(heap, expected),
    }
}

/// Adds instructions to a builder, up to the first that it refuses.
fn push_all(builder: &mut CodeBuilder<&Heap>, instructions: &[Insn]) -> Result<(), CodeFault> {
    for insn in instructions {
        builder.push(*insn)?;
    }
    Ok(())
}

/// Returns whether a builder takes the instructions of a code and yields the same code.
fn is_built(heap: &Heap, code: &Code<&Heap>) -> bool {
    let mut builder = CodeBuilder::new(heap);
    match push_all(&mut builder, code.instructions()) {
        Ok(()) => is_finished(heap, builder, code),
        Err(fault) => fault == CodeFault::Memory && heap.was_refused(),
    }
}

/// Returns whether a builder yields a code without allocating.
fn is_finished(heap: &Heap, builder: CodeBuilder<&Heap>, code: &Code<&Heap>) -> bool {
    let (requested, words) = (heap.count(), builder.words());
    let is_writable = builder.destination(Register { number: 9 }).is_ok();
    match builder.finish() {
        Ok(built) => {
            !heap.was_refused()
                && heap.count() == requested
                && is_writable
                && words == built.words()
                && built.instructions() == code.instructions()
        }
        Err(_) => false,
    }
}

/// Returns whether a code is disassembled as this text.
fn is_disassembled(heap: &Heap, code: &Code<&Heap>, text: &[u8]) -> bool {
    match disassemble(heap, code) {
        Ok(disassembled) => is_same(heap, Ok(disassembled.into_bytes()), text),
        Err(AllocError) => heap.was_refused(),
    }
}

/// Returns whether a program's bytes are converted to text as a row says.
fn is_text(heap: &Heap, program: &Program, expected: &str) -> bool {
    match disassemble_program(heap, &program.words) {
        Ok(text) => expected == "accepted" && is_same(heap, Ok(text.into_bytes()), &program.text),
        Err(fault) => fault.line().as_str() == due(heap, expected),
    }
}

/// Verifies words, and returns what the verifier found if they are accepted. The error says whether they are refused as a row says.
pub fn verified<'a>(
    heap: &'a Heap,
    words: &[u8],
    expected: &str,
) -> Result<Verified<&'a Heap>, bool> {
    let flow = match decode(heap, words) {
        Ok(code) => Flow::of(code),
        Err(fault) => return Err(fault.line().as_str() == due(heap, expected)),
    };
    match flow {
        Ok(flow) => match verify(heap, flow) {
            Ok(verified) => Ok(verified),
            Err(fault) => Err(fault.line().as_str() == due(heap, expected)),
        },
        Err(fault) => Err(fault.line().as_str() == due(heap, expected)),
    }
}

/// Returns whether words are verified as a row says.
fn is_verified(heap: &Heap, words: &[u8], expected: &str) -> bool {
    match verified(heap, words, expected) {
        Ok(_verified) => due(heap, expected) == "accepted",
        Err(is_right) => is_right,
    }
}

/// Returns whether words are decoded and each instruction has its flat form.
fn is_flattened(heap: &Heap, words: &[u8]) -> bool {
    let flow = match decode(heap, words) {
        Ok(code) => Flow::of(code),
        Err(_) => return heap.was_refused(),
    };
    match flow {
        Ok(flow) => is_flat(heap, &flow),
        Err(_) => false,
    }
}

/// Returns whether each instruction of a flow, which has at most 1000, has its flat form.
fn is_flat<'a>(heap: &'a Heap, flow: &Flow<&'a Heap>) -> bool {
    let areas: [Option<Area>; 1000] = [None; 1000];
    let count = flow.code().instructions().len();
    if count > areas.len() {
        return false;
    }
    match flat_forms(heap, flow, &areas[..count]) {
        Ok(forms) => !heap.was_refused() && forms.len() == count,
        Err(AllocError) => heap.was_refused(),
    }
}

/// Returns whether the call with a name has the expected result.
fn is_given(
    heap: &Heap,
    call: &str,
    program: &Program,
    expected: &str,
) -> Result<bool, TableFault> {
    match call {
        "assemble" => Ok(is_assembled(heap, program, expected)),
        "source" => Ok(is_source(heap, program, expected)),
        "decode" => Ok(is_decoded(heap, program, expected)),
        "disassemble" => Ok(is_text(heap, program, expected)),
        "verify" => Ok(is_verified(heap, &program.words, expected)),
        "flatten" => Ok(expected == "accepted" && is_flattened(heap, &program.words)),
        _ => Err(TableFault::Word),
    }
}

/// Returns whether a call has the expected result with each allocation refused, from number `first` to the first that the call doesn't reach.
fn is_swept(
    alloc: Global,
    call: &str,
    program: &Program,
    expected: &str,
    first: u64,
) -> Result<bool, TableFault> {
    let heap = Refusing::new(alloc);
    for nth in first..=u64::MAX {
        heap.refuse(nth);
        if !is_given(&heap, call, program, expected)? {
            return Ok(false);
        }
        if !heap.was_refused() {
            return Ok(nth != 1 || expected != "accepted");
        }
    }
    Ok(false)
}

/// Returns whether each of the calls passes the sweep.
fn are_swept(
    alloc: Global,
    calls: &str,
    program: &Program,
    expected: &str,
    first: u64,
) -> Result<bool, TableFault> {
    for call in calls.split(' ') {
        if !is_swept(alloc, call, program, expected, first)? {
            return Ok(false);
        }
    }
    Ok(true)
}

/// Returns whether the calls of a row convert its text and its program to each other, and pass the sweep.
fn is_conversion(alloc: Global, row: &str, first: u64) -> Result<bool, TableFault> {
    let (calls, text, words) = cells(row)?.three()?;
    let program = Program::new(alloc, text, words)?;
    are_swept(alloc, calls, &program, "accepted", first)
}

/// Returns whether the calls of a row refuse its text as the row says, and pass the sweep.
fn is_refused(alloc: Global, row: &str, first: u64) -> Result<bool, TableFault> {
    let (calls, text, expected) = cells(row)?.three()?;
    let program = Program::new(alloc, text, "")?;
    are_swept(alloc, calls, &program, expected, first)
}

/// Returns whether the calls of a row have the row's result on its program, and pass the sweep.
fn is_judged(alloc: Global, row: &str, first: u64) -> Result<bool, TableFault> {
    let (calls, words, expected) = cells(row)?.three()?;
    let program = Program::new(alloc, "", words)?;
    are_swept(alloc, calls, &program, expected, first)
}

#[test]
fn calls(rt: HostRuntime) {
    let alloc = rt.alloc();
    for row in CONVERSIONS.joined(alloc).expect(&rt, "conversions").lines() {
        assert_eq!(rt; is_conversion(alloc, row, 1), Ok(true), "{row}");
    }
    for row in TEXTS.joined(alloc).expect(&rt, "texts").lines() {
        assert_eq!(rt; is_refused(alloc, row, 1), Ok(true), "{row}");
    }
    for row in WORDS.joined(alloc).expect(&rt, "words").lines() {
        assert_eq!(rt; is_judged(alloc, row, 1), Ok(true), "{row}");
    }
}

/// Runs without refusing an allocation, since none has the number 0.
#[test]
fn long_programs(rt: HostRuntime) {
    let alloc = rt.alloc();
    for row in LONG_CONVERSIONS
        .joined(alloc)
        .expect(&rt, "conversions")
        .lines()
    {
        assert_eq!(rt; is_conversion(alloc, row, 0), Ok(true), "{row}");
    }
    for row in LONG_TEXTS.joined(alloc).expect(&rt, "texts").lines() {
        assert_eq!(rt; is_refused(alloc, row, 0), Ok(true), "{row}");
    }
    for row in LONG_WORDS.joined(alloc).expect(&rt, "words").lines() {
        assert_eq!(rt; is_judged(alloc, row, 0), Ok(true), "{row}");
    }
}

//! The calls that make up an extract, each on its own.
use bpf_machine::{Bare, run_in};
use bpf_program::accept;
use bpf_verify::Verified;
use counted_io::{Counting, Fuse, InjectedFailure, WriteFault};
use extract::{RowBuffer, row, row_text, write_segments};
use fixtures::{RT1, Refusing, Table, TableFault, bytes, cells, is_refusal, program};
use refusals::Fault;
use std::alloc::Global;
use std::io::ErrorKind;
use tl_segments::Segment;

// A program, its refusal if it isn't accepted, and the row of the record if the program selects it.
const PROGRAMS: Table = Table(
    r"
every;; 0\t{rt1}\n
two;; 0\t{rt1}\n
never;;
roads;; 0\t{rt1}\n
not_roads;;
tlids;; 123456789\t{rt1}\n
scored_roads;; 123456789\t{rt1}\n
scored;; 18446744073709551615\t{rt1}\n
counts;; 1\t{rt1}\n
finds;;
mov r1, 42 | call 8 | mov r0, 1 | exit;; 42\t{rt1}\n
mov r0, 1 *99 | exit;; 0\t{rt1}\n
ldxb r2, [r1+55] | jne r2, 65, +0 *50 | mov r0, 1 | exit;; 0\t{rt1}\n
empty; refused 10 Empty;
unknown; refused 13 place 0 UnknownOpcode;
backward; refused 30 place 1 BackwardJump;
stuck; refused 40 place 0 ReadsNothing(0);
argument; refused 50 place 5 BadArgument(3);",
);

type Heap = Refusing<Global>;

/// A program, its refusal if it isn't accepted, and the row of the record if the program selects it.
#[derive(Drop)]
struct Case<'a> {
    program: Vec<u8>,
    refusal: &'a str,
    row: Vec<u8>,
}

impl<'a> Case<'a> {
    fn new(alloc: Global, row: &'a str) -> Result<Self, TableFault> {
        let (name, refusal, text) = cells(row)?.three()?;
        Ok(Case {
            program: program(alloc, name)?,
            refusal,
            row: bytes(alloc, text)?,
        })
    }

    /// Returns whether the program is refused, or selects the record, as it should.
    fn is_right(&self, alloc: Global) -> bool {
        let heap = Refusing::new(alloc);
        match accept(&heap, &self.program) {
            Ok(verified) => {
                self.refusal.is_empty() && is_chosen(alloc, &heap, &verified, &self.row)
            }
            Err(fault) => self.row.is_empty() && is_refusal(fault.line().as_str(), self.refusal),
        }
    }
}

fn is_right(alloc: Global, row: &str) -> Result<bool, TableFault> {
    Ok(Case::new(alloc, row)?.is_right(alloc))
}

/// Returns whether code gives the record this row, or none if it is empty, and gives the same score again in the same machine, without allocating.
/// It also gives the row if the record is among segments in memory.
fn is_chosen(alloc: Global, heap: &Heap, verified: &Verified<&Heap>, text: &[u8]) -> bool {
    heap.refuse(1);
    let segments = [Segment::of(heap, RT1)];
    let segment = &segments[0];
    let mut bare = Bare::start();
    let answer = run_in(&mut bare, verified, segment);
    let is_row = if answer.r0 == 0 {
        text.is_empty()
    } else {
        is_row(alloc, answer.score, segment, text)
    };
    is_row
        && answer.score == run_in(&mut bare, verified, segment).score
        && are_rows(alloc, verified, &segments, text)
        && heap.count() == 0
}

/// Returns whether this is the row of a segment with a score, and a failed write of it is reported.
fn is_row(alloc: Global, score: u64, segment: &Segment<&Heap>, text: &[u8]) -> bool {
    let mut out = Counting::new(Vec::new(alloc));
    let is_written = row(score, segment, &mut out).is_ok();
    let is_text = row_text(score, segment).as_slice() == text;
    is_written
        && is_text
        && out.get_ref().as_slice() == text
        && is_write_reported(alloc, score, segment)
}

/// Returns whether a row reports that its write failed.
fn is_write_reported(alloc: Global, score: u64, segment: &Segment<&Heap>) -> bool {
    let out = Counting::new(Vec::new(alloc));
    let fuse = Fuse::after_calls(out, 0, InjectedFailure::Fails(ErrorKind::Other));
    row(score, segment, &mut Counting::new(fuse)) == Err(WriteFault::Write)
}

/// Returns whether these are the rows that code selects of segments, and a failed write of them is reported.
fn are_rows(
    alloc: Global,
    verified: &Verified<&Heap>,
    segments: &[Segment<&Heap>],
    text: &[u8],
) -> bool {
    let mut out = Counting::new(Vec::new(alloc));
    let is_written = write_segments(verified, segments, &mut RowBuffer::new(), &mut out).is_ok();
    let failure = InjectedFailure::Fails(ErrorKind::Other);
    let fuse = Fuse::after_calls(Counting::new(Vec::new(alloc)), 0, failure);
    let failed = write_segments(
        verified,
        segments,
        &mut RowBuffer::new(),
        &mut Counting::new(fuse),
    );
    is_written && out.get_ref().as_slice() == text && failed.is_err() != text.is_empty()
}

#[test]
fn programs(rt: HostRuntime) {
    for row in PROGRAMS.joined(rt.alloc()).expect(&rt, "programs").lines() {
        assert_eq!(rt; is_right(rt.alloc(), row), Ok(true), "{row}");
    }
}

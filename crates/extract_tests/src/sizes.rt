//! Extracts with programs of the maximum number of words, with counties of realistic size, and with little memory.
use crate::extracts::Case;
use counted_io::{Buffered, Counting};
use extract::extract;
use fixtures::{Table, TableFault, cells, is_outcome, size};
use linked_list_allocator::LocalHeap;
use refusals::Fault;
use std::alloc::Global;

// A program, the files of types 1, 4, 5 and 6, the outcome, the rows, and the number of bytes of memory.
//
// The first programs have the maximum number of words, or one more. Then come 70,000 type 1 lines in little memory, and joined files of 25,000 TLIDs
// each. `every` reads the record alone, so these files are only checked for it. The score of `counts` is 10,000 times the number of alternate names,
// plus the number of ranges.
const LARGE: Table = Table(
    r"
mov r0, 1 *65535 | exit; {rt1\n*3};;;; ok 3; {0\trt1\n*3}; 16777216
lddw r0, 0x1 *32767 | mov r0, 1 | exit; {rt1\n};;;; ok 1; 0\t{rt1}\n; 16777216
mov r0, 1 | ja32 +65533 | mov r0, 0 *65533 | exit; {rt1\n*3};;;; ok 3; {0\trt1\n*3}; 16777216
mov r3, 1 *32766 | ldxb r2, [r1+55] | jne r2, 65, +32766 | mov r0, 1 *32766 | exit *2; {rt1\n};;;;
  refused 40 place 65534 ReadsNothing(0);; 16777216
mov r0, 1 *65536 | exit; {rt1\n*3};;;; refused 12 TooLong;; 16777216
counts; {rt1\n*70000}; {rt4\n*2}; {rt5}\n; {rt6\n*2}; ok 70000; {20003\trt1\n*70000}; 262144
every; {rt1\n*3}; {rt4\n#1..25000}; {rt5}\n; {rt6\n#30001..55000}; ok 3; {0\trt1\n*3}; 16777216
counts; {rt1 TLID=1}\n{rt1 TLID=25000}\n{rt1 TLID=25001}\n{rt1 TLID=30001}\n{rt1 TLID=55000}\n;
  {rt4\n#1..25000}; {rt5}\n; {rt6\n#30001..55000}; ok 5;
  {10001\trt1 TLID=1}\n{10001\trt1 TLID=25000}\n{1\trt1 TLID=25001}\n{2\trt1 TLID=30001}\n{2\trt1 TLID=55000}\n;
  16777216",
);

/// Returns whether an extract through buffers, with so many bytes of memory, has the outcome and the rows of its case.
fn is_extracted(alloc: Global, case: &Case<'_>, memory: usize) -> Option<bool> {
    let heap = LocalHeap::new(alloc, memory).ok()?;
    let mut out = Counting::new(Vec::new(alloc));
    let given = extract(
        &heap,
        &case.program,
        &mut Buffered::new(case.files.rt1.as_slice()),
        &mut Buffered::new(case.files.rt4.as_slice()),
        &mut Buffered::new(case.files.rt5.as_slice()),
        &mut Buffered::new(case.files.rt6.as_slice()),
        &mut out,
    );
    let is_given = is_outcome(given.map_err(|fault| fault.line()), case.outcome);
    Some(is_given && *out.get_ref() == case.rows)
}

fn is_large(alloc: Global, row: &str) -> Result<bool, TableFault> {
    let (program, rt1, rt4, rt5, rt6, outcome, rows, memory) = cells(row)?.eight()?;
    let memory = size(memory)?;
    let case = Case::new(alloc, (program, rt1, rt4, rt5, rt6, outcome, rows))?;
    Ok(is_extracted(alloc, &case, memory) == Some(true))
}

#[test]
fn large_extracts(rt: HostRuntime) {
    for row in LARGE.joined(rt.alloc()).expect(&rt, "large").lines() {
        assert_eq!(rt; is_large(rt.alloc(), row), Ok(true), "{row}");
    }
}

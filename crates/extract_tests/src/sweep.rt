//! Failures of each allocation, each read and each write of an extract.
use crate::extracts::{Case, Devices};
use crate::rows::{COUNTIES, EXTRACTS};
use fixtures::{FaultPlan, Refusing, Table, TableFault, cells, error_kind, number};
use std::alloc::Global;
use tl_segments::CountyFile;

// The extract of two lines of Main Street with failing readers and writers, without other files and with them.
const ALONE: &str = r"every; {rt1\n*2};;;; ok 2; 0\t{rt1}\n0\t{rt1}\n";

const JOINED: &str =
    r"every; {rt1\n*2}; {rt4\n*2}; {rt5\n*2}; {rt6\n*2}; ok 2; 0\t{rt1}\n0\t{rt1}\n";

// What fails, a read of a file or a write, and in which ways; the first and last read, or the least and greatest number of bytes taken before; the
// outcome; how many bytes are written, and how many reads and writes there are. `+3` is three more than the read or the bytes. A read or a byte after
// the last one changes nothing.
const FAILURES: Table = Table(
    "\
rt4; pipe, interrupted, blocked, late; 1 1; refused 5 rt4 line 1 Read; 0; +0; 0
rt5; pipe, interrupted, blocked, late; 1 1; refused 5 rt5 line 1 Read; 0; +1; 0
rt6; pipe, interrupted, blocked, late; 1 1; refused 5 rt6 line 1 Read; 0; +2; 0
rt1; pipe, interrupted, blocked, late; 1 229; refused 5 rt1 line 1 Read; 0; +3; 0
rt1; pipe, interrupted, blocked, late; 230 458; refused 5 rt1 line 2 Read; 231; +3; 1
rt1; pipe, interrupted, blocked, late; 459 459; refused 5 rt1 line 3 Read; 462; +3; 2
rt4; pipe; 2 3; ok 2; 462; 462; 2
rt5; pipe; 2 3; ok 2; 462; 462; 2
rt6; pipe; 2 3; ok 2; 462; 462; 2
rt1; pipe; 460 461; ok 2; 462; 462; 2
rows; pipe, interrupted, blocked, full; 0 0; refused 60 Write; +0; 232; 1
rows; pipe, interrupted, blocked, full; 1 230; refused 60 Write; +0; 232; 2
rows; pipe, interrupted, blocked, full; 231 231; refused 60 Write; +0; 461; 2
rows; pipe, interrupted, blocked, full; 232 461; refused 60 Write; +0; 461; 3
rows; by 1 pipe, by 1 interrupted, by 1 blocked; 0 230; refused 60 Write; +0; 232; +1
rows; by 1 pipe, by 1 interrupted, by 1 blocked; 231 461; refused 60 Write; +0; 461; +1
rows; nothing; 0 0; refused 61 WriteZero; +0; 232; 1
rows; nothing; 1 230; refused 61 WriteZero; +0; 232; 2
rows; nothing; 231 231; refused 61 WriteZero; +0; 461; 2
rows; nothing; 232 461; refused 61 WriteZero; +0; 461; 3
rows; by 1 nothing; 0 230; refused 61 WriteZero; +0; 232; +1
rows; by 1 nothing; 231 461; refused 61 WriteZero; +0; 461; +1
rows; pipe, nothing; 462 463; ok 2; 462; 462; 2
rows; by 1 pipe, by 1 nothing; 462 463; ok 2; 462; 462; 462",
);

const JOINED_FAILURES: Table = Table(
    "\
rt4; pipe, interrupted, blocked, late; 1 59; refused 5 rt4 line 1 Read; 0; +0; 0
rt4; pipe, interrupted, blocked, late; 60 118; refused 5 rt4 line 2 Read; 0; +0; 0
rt4; pipe, interrupted, blocked, late; 119 119; refused 5 rt4 line 3 Read; 0; +0; 0
rt5; pipe, interrupted, blocked, late; 1 57; refused 5 rt5 line 1 Read; 0; +119; 0
rt5; pipe, interrupted, blocked, late; 58 114; refused 5 rt5 line 2 Read; 0; +119; 0
rt5; pipe, interrupted, blocked, late; 115 115; refused 5 rt5 line 3 Read; 0; +119; 0
rt6; pipe, interrupted, blocked, late; 1 77; refused 5 rt6 line 1 Read; 0; +234; 0
rt6; pipe, interrupted, blocked, late; 78 154; refused 5 rt6 line 2 Read; 0; +234; 0
rt6; pipe, interrupted, blocked, late; 155 155; refused 5 rt6 line 3 Read; 0; +234; 0
rt1; pipe, interrupted, blocked, late; 1 229; refused 5 rt1 line 1 Read; 0; +389; 0
rt1; pipe, interrupted, blocked, late; 230 458; refused 5 rt1 line 2 Read; 231; +389; 1
rt1; pipe, interrupted, blocked, late; 459 459; refused 5 rt1 line 3 Read; 462; +389; 2
rt4; pipe; 120 121; ok 2; 462; 848; 2
rt5; pipe; 116 117; ok 2; 462; 848; 2
rt6; pipe; 156 157; ok 2; 462; 848; 2
rt1; pipe; 460 461; ok 2; 462; 848; 2",
);

/// A number in a row, or one that is added to the read that fails or to the bytes that are taken before.
#[derive(Clone, Copy)]
struct Count {
    number: u64,
    is_added: bool,
}

impl Count {
    fn new(cell: &str) -> Result<Self, TableFault> {
        let digits = cell.strip_prefix("+");
        Ok(Count {
            number: number(digits.unwrap_or(cell))?,
            is_added: digits.is_some(),
        })
    }

    /// Returns the number for a failure at this read or after this number of bytes.
    fn at(self, place: u64) -> u64 {
        let from = if self.is_added { place } else { 0 };
        self.number.wrapping_add(from)
    }
}

/// A row of failures.
#[derive(Clone, Copy)]
struct Failure<'a> {
    /// The file whose reads fail, or `None` if writes fail.
    file: Option<CountyFile>,
    ways: &'a str,
    first: u64,
    last: u64,
    outcome: &'a str,
    length: Count,
    reads: Count,
    writes: Count,
}

impl<'a> Failure<'a> {
    fn new(row: &'a str) -> Result<Self, TableFault> {
        let (name, ways, places, outcome, length, reads, writes) = cells(row)?.seven()?;
        let (first, last) = places.split_once(' ').ok_or(TableFault::Word)?;
        Ok(Failure {
            file: file_named(name)?,
            ways,
            first: number(first)?,
            last: number(last)?,
            outcome,
            length: Count::new(length)?,
            reads: Count::new(reads)?,
            writes: Count::new(writes)?,
        })
    }

    /// Returns the devices of an extract in which a read or a write fails like `plan`, at this read or after this number of bytes.
    fn devices(&self, plan: FaultPlan, place: u64) -> Devices {
        match self.file {
            Some(file) => Devices {
                file,
                input: plan.at_call(place),
                output: FaultPlan::sound(),
            },
            None => Devices {
                output: plan.after(place as usize),
                ..Devices::sound()
            },
        }
    }

    /// Returns whether an extract ends as the row says if a read or a write fails like `plan`, at this read or after this number of bytes.
    fn is_right_at(&self, alloc: Global, case: &Case<'_>, plan: FaultPlan, place: u64) -> bool {
        let devices = self.devices(plan, place);
        let length = self.length.at(place) as usize;
        let calls = (self.reads.at(place), self.writes.at(place));
        case.calls(alloc, alloc, devices, self.outcome, Some(length)) == Some(calls)
    }

    /// Returns whether there are places from the first to the last, and the extract ends as the row says at each of them.
    fn is_right_if(&self, alloc: Global, case: &Case<'_>, plan: FaultPlan) -> bool {
        for place in self.first..=self.last {
            if !self.is_right_at(alloc, case, plan, place) {
                return false;
            }
        }
        self.first <= self.last
    }
}

/// Reads a row: a program, the files of types 1, 4, 5 and 6, the outcome, and the rows.
fn case_of(alloc: Global, row: &str) -> Result<Case<'_>, TableFault> {
    Case::new(alloc, cells(row)?.seven()?)
}

/// Returns the file with a name, or `None` for `rows`, which are written.
fn file_named(name: &str) -> Result<Option<CountyFile>, TableFault> {
    match name {
        "rt1" => Ok(Some(CountyFile::Rt1)),
        "rt4" => Ok(Some(CountyFile::Rt4)),
        "rt5" => Ok(Some(CountyFile::Rt5)),
        "rt6" => Ok(Some(CountyFile::Rt6)),
        "rows" => Ok(None),
        _ => Err(TableFault::Word),
    }
}

/// Returns how a device fails: `pipe`, or `by 1 pipe` if a call moves one byte.
fn device_of(method: &str) -> Result<FaultPlan, TableFault> {
    let kind = method.strip_prefix("by 1 ").unwrap_or(method);
    if kind != "nothing" {
        error_kind(kind)?;
    }
    FaultPlan::new(method)
}

/// Returns whether an extract ends as a row says for each way of failing.
fn is_right(alloc: Global, case: &Case<'_>, row: &str) -> Result<bool, TableFault> {
    let failure = Failure::new(row)?;
    for method in failure.ways.split(", ") {
        if !failure.is_right_if(alloc, case, device_of(method)?) {
            return Ok(false);
        }
    }
    Ok(true)
}

#[test]
fn each_read_and_each_write(rt: HostRuntime) {
    for (extract, failures) in [(ALONE, FAILURES), (JOINED, JOINED_FAILURES)] {
        let case = case_of(rt.alloc(), extract).expect(&rt, "case");
        for row in failures.joined(rt.alloc()).expect(&rt, "failures").lines() {
            assert_eq!(rt; is_right(rt.alloc(), &case, row), Ok(true), "{row}");
        }
    }
}

/// Returns whether an extract allocates, has its outcome and its rows, and ends if any of its allocations is refused.
fn is_each_refused(alloc: Global, case: &Case<'_>) -> Option<bool> {
    let heap = Refusing::new(alloc);
    let (sound, length) = (Devices::sound(), Some(case.rows.len()));
    case.calls(alloc, &heap, sound, case.outcome, length)?;
    let growths = heap.count();
    for nth in 1..=growths {
        heap.refuse(nth);
        case.calls(alloc, &heap, sound, "memory", None)?;
    }
    Some(growths > 0)
}

fn is_swept(alloc: Global, row: &str) -> Result<bool, TableFault> {
    let case = case_of(alloc, row)?;
    Ok(is_each_refused(alloc, &case) == Some(true))
}

#[test]
fn each_growth(rt: HostRuntime) {
    for table in [EXTRACTS, COUNTIES] {
        for row in table.joined(rt.alloc()).expect(&rt, "extracts").lines() {
            assert_eq!(rt; is_swept(rt.alloc(), row), Ok(true), "{row}");
        }
    }
}

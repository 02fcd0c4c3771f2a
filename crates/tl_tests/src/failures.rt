//! Failures of each read of a county's files.
use crate::counties::{Method, load};
use crate::seen::Seen;
use counted_io::InjectedFailure;
use fixtures::{
    FaultPlan, Files, Readers, Table, TableFault, cells, error_kind, is_refusal, number,
};
use refusals::Fault;
use std::alloc::Global;
use tl_segments::{CountyFile, LoadFault};

const FILES: &str = r"{rt1\n*2}; {rt4\n*2}; {rt5\n*2}; {rt6\n*2}";

// A file, the first and last of its reads that fail like this, the number of earlier reads of other files, and the refusal.
const READS: Table = Table(
    "\
rt4; 1; 59; 0; refused 5 rt4 line 1 Read
rt4; 60; 118; 0; refused 5 rt4 line 2 Read
rt4; 119; 119; 0; refused 5 rt4 line 3 Read
rt5; 1; 57; 119; refused 5 rt5 line 1 Read
rt5; 58; 114; 119; refused 5 rt5 line 2 Read
rt5; 115; 115; 119; refused 5 rt5 line 3 Read
rt6; 1; 77; 234; refused 5 rt6 line 1 Read
rt6; 78; 154; 234; refused 5 rt6 line 2 Read
rt6; 155; 155; 234; refused 5 rt6 line 3 Read
rt1; 1; 229; 389; refused 5 rt1 line 1 Read
rt1; 230; 458; 389; refused 5 rt1 line 2 Read
rt1; 459; 459; 389; refused 5 rt1 line 3 Read",
);

// How a county is loaded, and how a read fails.
const WAYS: Table = Table(
    "\
county; interrupted
county; blocked
county; pipe
index; late
index; denied
check; blocked",
);

/// A row of `READS`.
#[derive(Clone, Copy)]
struct Reads<'a> {
    file: CountyFile,
    first: u64,
    last: u64,
    before: u64,
    refusal: &'a str,
}

impl<'a> Reads<'a> {
    fn new(row: &'a str) -> Result<Self, TableFault> {
        let (file, first, last, before, refusal) = cells(row)?.five()?;
        let (first, last) = (number(first)?, number(last)?);
        if first == 0 || first > last {
            return Err(TableFault::Number);
        }
        Ok(Reads {
            file: file_named(file)?,
            first,
            last,
            before: number(before)?,
            refusal,
        })
    }
}

fn file_named(name: &str) -> Result<CountyFile, TableFault> {
    match name {
        "rt1" => Ok(CountyFile::Rt1),
        "rt4" => Ok(CountyFile::Rt4),
        "rt5" => Ok(CountyFile::Rt5),
        "rt6" => Ok(CountyFile::Rt6),
        _ => Err(TableFault::Word),
    }
}

/// A row of `WAYS`.
#[derive(Clone, Copy)]
struct Failure {
    method: Method,
    plan: FaultPlan,
}

impl Failure {
    fn new(row: &str) -> Result<Self, TableFault> {
        let (method, kind) = cells(row)?.two()?;
        Ok(Failure {
            method: Method::named(method)?,
            plan: FaultPlan {
                failure: InjectedFailure::Fails(error_kind(kind)?),
                ..FaultPlan::sound()
            },
        })
    }
}

/// Returns the fault of a county loaded in one of the ways through these readers.
fn fault_of(alloc: Global, method: Method, readers: &mut Readers<'_>) -> Option<LoadFault> {
    let Readers { rt1, rt4, rt5, rt6 } = readers;
    load(alloc, method, rt1, rt4, rt5, rt6, &mut Seen::nothing()).err()
}

/// Returns whether a county's files are refused as a row says when this read of one of them fails, and nothing more is read.
fn is_stopped(
    alloc: Global,
    files: &Files,
    failure: Failure,
    reads: &Reads<'_>,
    read: u64,
) -> bool {
    let mut readers = Readers::new(files, reads.file, failure.plan.at_call(read));
    match fault_of(alloc, failure.method, &mut readers) {
        Some(fault) => {
            is_refusal(fault.line().as_str(), reads.refusal)
                && readers.calls() == reads.before.wrapping_add(read)
        }
        None => false,
    }
}

/// Returns whether this holds for each of a row's reads, failing in this way.
fn are_stopped(alloc: Global, files: &Files, failure: Failure, reads: &Reads<'_>) -> bool {
    for read in reads.first..=reads.last {
        if !is_stopped(alloc, files, failure, reads, read) {
            return false;
        }
    }
    true
}

/// Returns whether this holds for each of the ways.
fn are_all_stopped(
    alloc: Global,
    files: &Files,
    ways: &str,
    row: &str,
) -> Result<bool, TableFault> {
    let reads = Reads::new(row)?;
    for method in ways.lines() {
        if !are_stopped(alloc, files, Failure::new(method)?, &reads) {
            return Ok(false);
        }
    }
    Ok(true)
}

fn files(alloc: Global) -> Result<Files, TableFault> {
    Files::new(alloc, cells(FILES)?.four()?)
}

#[test]
fn each_read(rt: HostRuntime) {
    let files = files(rt.alloc()).expect(&rt, "files");
    let ways = WAYS.joined(rt.alloc()).expect(&rt, "ways");
    for row in READS.joined(rt.alloc()).expect(&rt, "reads").lines() {
        assert_eq!(rt;
            are_all_stopped(rt.alloc(), &files, &ways, row),
            Ok(true),
            "{row}"
        );
    }
}

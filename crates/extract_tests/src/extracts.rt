//! Extracts for the rows of tables, with a given allocator, readers and writer.
use extract::extract;
use fixtures::{FaultPlan, Files, Readers, TableFault, bytes, is_outcome, program, taken, writer};
use refusals::Fault;
use std::alloc::{Allocator, Global};
use tl_segments::CountyFile;

/// A program, a county's files, the outcome of the extract, and the rows that the program selects.
#[derive(Drop)]
pub struct Case<'a> {
    pub program: Vec<u8>,
    pub files: Files,
    pub outcome: &'a str,
    pub rows: Vec<u8>,
}

/// How the reader of one file and the writer fail, if they do.
#[derive(Clone, Copy)]
pub struct Devices {
    pub file: CountyFile,
    pub input: FaultPlan,
    pub output: FaultPlan,
}

impl Devices {
    /// Returns readers and a writer that never fail.
    pub fn sound() -> Self {
        Devices {
            file: CountyFile::Rt1,
            input: FaultPlan::sound(),
            output: FaultPlan::sound(),
        }
    }
}

type SevenCells<'a> = (
    &'a str,
    &'a str,
    &'a str,
    &'a str,
    &'a str,
    &'a str,
    &'a str,
);

impl<'a> Case<'a> {
    /// Reads cells: a program, the files of types 1, 4, 5 and 6, the outcome, and the rows.
    pub fn new(alloc: Global, cells: SevenCells<'a>) -> Result<Self, TableFault> {
        let (name, rt1, rt4, rt5, rt6, outcome, rows) = cells;
        Ok(Case {
            program: program(alloc, name)?,
            files: Files::new(alloc, (rt1, rt4, rt5, rt6))?,
            outcome,
            rows: bytes(alloc, rows)?,
        })
    }

    /// Counts the reads and writes of an extract. Returns `None` unless it has this outcome and writes `length` bytes of the rows, or complete rows
    /// if no length is given.
    pub fn calls<A: Allocator + Copy>(
        &self,
        alloc: Global,
        heap: A,
        devices: Devices,
        outcome: &str,
        length: Option<usize>,
    ) -> Option<(u64, u64)> {
        let mut readers = Readers::new(&self.files, devices.file, devices.input);
        let mut out = writer(alloc, devices.output);
        let Readers { rt1, rt4, rt5, rt6 } = &mut readers;
        let given = extract(heap, &self.program, rt1, rt4, rt5, rt6, &mut out);
        let is_given = is_outcome(given.map_err(|fault| fault.line()), outcome);
        let is_written = is_front(taken(&out), &self.rows, length);
        (is_given && is_written).then_some((readers.calls(), out.get_ref().calls))
    }
}

/// Returns whether these are the first `length` bytes of the rows, or complete rows.
fn is_front(written: &[u8], rows: &[u8], length: Option<usize>) -> bool {
    let is_end = match length {
        Some(length) => written.len() == length,
        None => written.is_empty() || written.ends_with(b"\n"),
    };
    is_end && rows.starts_with(written)
}

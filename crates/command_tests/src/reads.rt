//! Injects a failure into each read and refuses each growth while a program or another file is read: no read is retried.
use super::files::failing;
use bpf_insn::CodeFault;
use fixtures::{FaultPlan, Refusing, Table, TableFault, bytes, cells, number, reader, size};
use named_files::{FileFault, ProgramInputFault, read_program, read_to_end};
use std::alloc::Global;
use std::test::Fail;

// How a file is read, its size in bytes, the outcome, the number of reads, including the one that finds the end, and the number of growths, or
// `+` for at least one. A program longer than 65,536 words is read to its end and refused.
const FILES: Table = Table(
    "\
program; 0; kept; 1; 1
program; 7; kept; 2; 1
program; 4096; kept; 2; 1
program; 32776; kept; 10; 1
program; 524288; kept; 129; 1
program; 524289; not whole; 130; 1
program; 524296; too long; 130; 1
program; 524297; not whole; 130; 1
program; 600000; too long; 148; 1
program; 600001; not whole; 148; 1
file; 0; kept; 1; 0
file; 1; kept; 2; +
file; 4096; kept; 2; +
file; 4097; kept; 3; +
file; 100001; kept; 26; +",
);

// More bytes than any of the files has, in lines that don't end at the end of a read.
const BYTES: &str = r"{text 0123456789\n*60000}";

// The ways in which a read fails.
const WAYS: Table = Table(
    "\
pipe
interrupted
blocked
late",
);

// If there are more reads, only this number of the last ones fail.
const MAX_READS: u64 = 10;

/// A row of the table: the reading of a file, and how it ends.
#[derive(Clone, Copy)]
struct Reading<'a> {
    is_program: bool,
    bytes: &'a [u8],
    outcome: &'a str,
    reads: u64,
    /// The number of growths, or `None` for at least one.
    growths: Option<u64>,
}

impl<'a> Reading<'a> {
    /// Parses a row. The file has the first ones of these bytes.
    fn new(row: &'a str, bytes: &'a [u8]) -> Result<Self, TableFault> {
        let (name, length, outcome, reads, growths) = cells(row)?.five()?;
        Ok(Reading {
            is_program: is_program(name)?,
            bytes: bytes.get(..size(length)?).ok_or(TableFault::Number)?,
            outcome,
            reads: number(reads)?,
            growths: match growths {
                "+" => None,
                growths => Some(number(growths)?),
            },
        })
    }

    /// Returns the outcome of reading the file with these failures: `kept` if all of its bytes were read, and otherwise the reason.
    fn outcome(&self, heap: &Refusing<Global>, plan: FaultPlan) -> &'static str {
        let mut input = reader(self.bytes, plan);
        let read = if self.is_program {
            read_program(heap, &mut input)
        } else {
            match read_to_end(heap, &mut input) {
                Ok(kept) => Ok(kept),
                Err(fault) => Err(ProgramInputFault::File(fault)),
            }
        };
        match read {
            Ok(kept) if kept.as_slice() == self.bytes => "kept",
            Ok(_) => "altered",
            Err(ProgramInputFault::File(FileFault::Memory)) => "memory",
            Err(ProgramInputFault::File(FileFault::Unusable(_))) => "unusable",
            Err(ProgramInputFault::Code(CodeFault::NotWhole)) => "not whole",
            Err(ProgramInputFault::Code(CodeFault::TooLong)) => "too long",
            Err(ProgramInputFault::Code(_)) => "another fault",
        }
    }

    /// Returns whether the reading ends as it should when any one read fails in this way, and as the row says when no read fails.
    fn is_read(&self, alloc: Global, method: FaultPlan) -> bool {
        let heap = Refusing::new(alloc);
        for call in self.reads.saturating_sub(MAX_READS)..=self.reads {
            let plan = method.at_call(call.wrapping_add(1));
            let expected = if call < self.reads {
                "unusable"
            } else {
                self.outcome
            };
            if self.outcome(&heap, plan) != expected {
                return false;
            }
        }
        self.reads > 0
    }

    /// Returns whether the row's number of growths is refused, one at a time.
    fn is_grown(&self, alloc: Global) -> bool {
        let (heap, sound) = (Refusing::new(alloc), FaultPlan::sound());
        let is_right = self.outcome(&heap, sound) == self.outcome;
        let growths = heap.count();
        for nth in 1..=growths {
            heap.refuse(nth);
            if self.outcome(&heap, sound) != "memory" {
                return false;
            }
        }
        is_right && self.growths.map_or(growths > 0, |number| number == growths)
    }
}

/// Returns whether a row is about reading a program. If not, it is about reading another file.
fn is_program(name: &str) -> Result<bool, TableFault> {
    match name {
        "program" => Ok(true),
        "file" => Ok(false),
        _ => Err(TableFault::Word),
    }
}

/// Returns whether the file of a row, which has the first ones of these bytes, is read as the row says.
fn is_right(alloc: Global, row: &str, bytes: &[u8]) -> Result<bool, TableFault> {
    let reading = Reading::new(row, bytes)?;
    if !reading.is_grown(alloc) {
        return Ok(false);
    }
    let ways = WAYS.joined(alloc)?;
    for method in ways.lines() {
        if !reading.is_read(alloc, failing(method)?) {
            return Ok(false);
        }
    }
    Ok(true)
}

#[test]
fn each_read_and_growth(rt: HostRuntime) -> Result<(), Fail> {
    let text = bytes(rt.alloc(), BYTES)?;
    for row in FILES.joined(rt.alloc())?.lines() {
        assert_eq!(rt; is_right(rt.alloc(), row, &text), Ok(true), "{row}");
    }
    Ok(())
}

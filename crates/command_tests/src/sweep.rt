//! Refuses each growth of requests, and injects a failure into each open, read, write and flush of requests and of command lines.
use super::batches::WORDS;
use super::cases::{Case, Ending, Faults, filled, status_of};
use super::files::{Access, failing};
use fixtures::{FaultPlan, Refusing, Table, TableFault, cells, error_kind, size, taken};
use std::alloc::{AllocError, Global};
use std::io::ErrorKind;
use std::test::Fail;

// Rows in the form of `Row`. After `reads` comes the number of reads of a file that isn't read to its end. Each type 1 line that `run` reads
// yields a row.
const REQUESTS: Table = Table(
    r#"
extractd run --program p.bpf --data d 01001; 0\t{rt1}\n0\t{rt1}\n; 0;; p.bpf: {every}; d/TGR01001.RT1: {rt1\n*2}
extractd run --program p.bpf --data d 01001;; 0;; p.bpf: {every}; d/TGR01001.RT1:
extractd run --program p.bpf --data d 01001; 10002\t{rt1}\n; 0;; p.bpf: {counts}; d/TGR01001.RT1: {rt1}\n;
  d/TGR01001.RT4: {rt4}\n; d/TGR01001.RT5: {rt5}\n; d/TGR01001.RT6: {rt6}\n
extractd run --program p.bpf --data d 01001;; 1; refused 40 place 0 ReadsNothing(0); p.bpf: {stuck};
  d/TGR01001.RT1: {rt1}\n ! reads 0
extractd run --program p.bpf --data d 01001; 0\t{rt1}\n; 1; refused 2 rt1 line 2 WrongType; p.bpf: {every};
  d/TGR01001.RT1: {rt1}\n{rt1 RT=4}\n ! reads 458
extractd run --program p.bpf --data d 01001;; 1; refused 4 rt5 line 1 BadFeature; p.bpf: {every};
  d/TGR01001.RT1: {rt1}\n ! reads 0; d/TGR01001.RT4: {rt4}\n; d/TGR01001.RT5: {rt5 FEAT=x}\n ! reads 57
extractd run --program p.bpf --data d 01001;; 3; error: d/TGR01001.RT1: not found; p.bpf: {every} ! reads 0
extractd run --program p.bpf --data d\n\x1b 01001;; 3; error: d\x5cn\x5cu\x7b1b\x7d/TGR01001.RT1: not found;
  p.bpf: {every} ! reads 0
extractd run --program p.bpf --data d 01001;; 3; error: d/TGR01001.RT6: permission denied; p.bpf: {every} ! reads 0;
  d/TGR01001.RT1: {rt1}\n ! reads 0; d/TGR01001.RT6: ! closed denied
extractd trace --program p.bpf --data d --line 1 --limit 2 01001; exit 1 score 0\n; 0;; p.bpf: {every};
  d/TGR01001.RT1: {rt1}\n
extractd trace --program p.bpf --data d --line 1 --limit 9 01001; exit 1 score 0\n; 0;; p.bpf: {asm call 3 | exit};
  d/TGR01001.RT1: {rt1}\n; d/TGR01001.RT4: {rt4}\n; d/TGR01001.RT5: {rt5}\n; d/TGR01001.RT6: {rt6}\n
extractd trace --program p.bpf --data d --line 1 --limit 1 01001; running\n; 0;; p.bpf: {every};
  d/TGR01001.RT1: {rt1}\n
extractd trace --program p.bpf --data d --line 1 --limit 1 01001; stuck place 0 cause 40\n; 0;; p.bpf: {stuck};
  d/TGR01001.RT1: {rt1}\n
extractd trace --program p.bpf --data d --line 1 --limit 1 01001;; 1; refused 10 Empty; p.bpf:;
  d/TGR01001.RT1: {rt1}\n ! reads 0
extractd trace --program p.bpf --data d --line 1 --limit 1 01001;; 1; refused 1 rt1 line 1 WrongLength; p.bpf: {every};
  d/TGR01001.RT1: {rt1 ..227}\n ! reads 228
extractd trace --program p.bpf --data d --line 2 --limit 1 01001;; 2; error: the type 1 file has no line 2;
  p.bpf: {every}; d/TGR01001.RT1: {rt1}\n
extractd geocode --data d --number 151 --name main 01001 01003;
  123456789\tL\t-86494898\t32405102\n7\tL\t-86494898\t32405102\n; 0;; d/TGR01001.RT1: {rt1}\n;
  d/TGR01003.RT1: {rt1 TLID=7}\n
extractd geocode --data d --number 151 --name oak 01001; 123456789\tL\t-86494898\t32405102\n; 0;;
  d/TGR01001.RT1: {rt1}\n; d/TGR01001.RT4: {rt4}\n; d/TGR01001.RT5: {rt5}\n
extractd geocode --data d --number 151 --name elm 01001 01003;; 0;; d/TGR01001.RT1: {rt1}\n; d/TGR01003.RT1:
extractd geocode --data d --number 151 --name main 01001;; 1; refused 1 rt1 line 1 WrongLength;
  d/TGR01001.RT1: {rt1 ..227}\n ! reads 228
extractd geocode --data d --number 151 --name main 01001 01003;; 3; error: d/TGR01003.RT1: not found;
  d/TGR01001.RT1: {rt1}\n
extractd geocode-batch --addresses a.csv --data d 01001 01003;
  HEADER2,match,,-86.494898,32.405102,7,L,,Main,,,36067,01003,101,199\n3,no_match,no_such_street,EMPTY\n; 0;;
  a.csv: number,name\n151,main\n151,elm\n; d/TGR01001.RT1:; d/TGR01003.RT1: {rt1 TLID=7}\n
extractd geocode-batch --addresses a.csv --data d 01001; HEADERx,match,,-86.494898,32.405102,123456789,L,,Oak,,,36067,01001,101,199\n;
  0;; a.csv: number,name,id\n151,oak,x\n; d/TGR01001.RT1: {rt1}\n; d/TGR01001.RT4: {rt4}\n; d/TGR01001.RT5: {rt5}\n
extractd geocode-batch --addresses a.csv --data d --shape 01001; HEADER2,match,,0.002000,0.001000,123456789,R,,Main,,,36067,01001,100,200\n;
  0;; a.csv: number,name\n150,main\n; d/TGR01001.RT1: {rt1 FRLONG=1000 FRLAT=0 TOLONG=2000 TOLAT=3000 TOADDR=200}\n;
  d/TGR01001.RT2: {rt2 LONG1=2000 LAT1=0 LONG2=}\n
extractd geocode-batch --addresses a.csv --data d --shape 01001;; 1; refused 1 rt2 line 1 WrongLength; a.csv: number,name;
  d/TGR01001.RT1: {rt1}\n ! reads 0; d/TGR01001.RT2: {rt2 ..207}\n ! reads 208
extractd geocode-batch --addresses a.csv --data d 01001;; 1; refused 105 line 3 NotOneRecord\na carriage return or an unquoted line break ends the record early;
  a.csv: number,name\n151,main\n151,main\rx\n; d/TGR01001.RT1: {rt1}\n
extractd geocode-batch --addresses a.csv --data d 01001;; 1; refused 1 rt1 line 1 WrongLength; a.csv: number,nam;
  d/TGR01001.RT1: {rt1 ..227}\n ! reads 228
extractd compile --filter f.cql; {asm mov r6, r1 | mov r0, 1 | exit | mov r0, 0 | exit}; 0;; f.cql: TRUE
extractd compile --filter f.cql;; 1; refused 90 line 1 column 2 Syntax\nexpected a predicate, TRUE, FALSE or a
  parenthesis; f.cql: (
extractd select --where ZIPL_=_36067 --data d 01001; 0\t{rt1}\n0\t{rt1}\n; 0;; d/TGR01001.RT1: {rt1\n*2}
extractd select --where HAS~NAME('oak') --data d 01001; 0\t{rt1}\n; 0;; d/TGR01001.RT1: {rt1}\n;
  d/TGR01001.RT4: {rt4}\n; d/TGR01001.RT5: {rt5}\n
extractd compile --filter f --filter-lang cql2-json; {asm mov r6, r1 | mov r0, 1 | exit | mov r0, 0 | exit}; 0;; f: true
extractd compile --filter f --filter-lang cql2-json;; 1; refused 91 pointer /args/0/property UnknownColumn\nno column has this name; f:
  \x7b"op":"=","args":[\x7b"property":"x"\x7d,1]\x7d
extractd compile --filter f --filter-lang cql2-json;; 1; refused 90 pointer /args Syntax\nexpected an array of one value; f:
  \x7b"op":"not","args":[]\x7d
extractd verify --program p.bpf; accepted\n; 0;; p.bpf: {every}
extractd verify --program p.bpf; accepted\n; 0;; p.bpf: {roads}
extractd verify --program p.bpf;; 1; refused 40 place 0 ReadsNothing(0); p.bpf: {stuck}
extractd verify --program p.bpf;; 1; refused 33 place 4096 LastNotExit; p.bpf: {asm mov r0, 1 *4097}
extractd verify --program p.bpf;; 3; error: p.bpf: broken pipe; p.bpf: {every} ! call 2 pipe
extractd explain --program p.bpf --lines l;
  \x3b x\n0: mov r0, 1                            \x3b r1 = record + 0, r10 = frame + 512\n1: exit                                 \x3b r0 = 1\n
   accepted\n; 0;; p.bpf: {every}; l: 0\tx\n
extractd explain --program p.bpf; 0: exit                                 \x3b r0 = ?, r1 = record + 0, r10 = frame + 512\n
   refused: reads r0, of which nothing is known\n; 1; refused 40 place 0 ReadsNothing(0); p.bpf: {stuck}
extractd explain --program p.bpf --lines l; \x3b x\n0: 85 10 00 00 ff ff ff ff\nrefused: calls another function (src_reg 1),
  whose place clang left to a linker\n1: 95 00 00 00 00 00 00 00  exit\n; 1; refused 15 place 0 UnusedNotZero; p.bpf: {asm hex
  85100000ffffffff | exit}; l: 0\tx\n
extractd explain --program p.bpf; 0: b7 00 00 00 01 00 00 00  mov r0, 1\nrefused: the last instruction isn't exit\n; 1;
  refused 33 place 0 LastNotExit; p.bpf: {asm mov r0, 1}
extractd explain --program p.bpf --lines l;; 3; error: l: not found; p.bpf: {every}
extractd asm --source p.s; {asm mov r0, 1 | ja +0 | exit}; 0;; p.s: mov r0, 1\nja out\nout:\nexit\n
extractd asm --source p.s; {asm exit *2000}; 0;; p.s: {text exit\n*2000}
extractd asm --source p.s;; 1; refused 21 line 1 UnknownMnemonic; p.s: frob r0\n
extractd asm --source p.s;; 3; error: p.s: not UTF-8; p.s: exit\n\xff\n
extractd dis --program p.bpf; mov r0, 1\nexit\n; 0;; p.bpf: {every}
extractd dis --program p.bpf; {text exit\n*600}; 0;; p.bpf: {asm exit *600}
extractd dis --program p.bpf;; 1; refused 13 place 0 UnknownOpcode; p.bpf: {unknown}
extractd verify --program p.bpf; accepted\n ! call 2 full; 3; error: the output can't be written: no space left;
  p.bpf: {every}
"#,
);

// Command lines that don't form a request.
const ARGUMENTS: Table = Table(
    r#"
extractd run --program p.bpf --data d 0100;; 2; error: CODE is five digits, and "0100" isn't
extractd trace --program p.bpf --data d --line 1a --limit 1 01001;; 2; error: --line is 1 to 19 digits, and "1a" isn't
extractd trace --program p.bpf --data d --line \n1\t --limit 1 01001;; 2; error: --line is 1 to 19 digits, and
  "\x5cn1\x5ct" isn't
extractd geocode --data d --number 151 --name '' 01001;; 2; error: --name is 1 to 30 characters, and "" isn't
extractd serve --data d --port 8080 01001;; 2; error: serve needs a socket
extractd run --program p.bpf 01001;; 2; error: the following required arguments were not provided:\n  --data
  <DIR>\n\nUsage: extractd run --program <FILE> --data <DIR> <CODE>\n\nFor more information, try '--help'.
extractd --version;; 2; extractd 1.1.0
"#,
);

// A call that fails, the kind of error and how many bytes a call moves, the status, the text on standard error, and the distance from one such call
// to the next that fails. A failed write to standard error doesn't change the status.
const INPUTS: Table = Table(
    "\
open; denied; 3; error: FILE: permission denied; 1
open; links; 3; error: FILE: too many links; 1
open; memory; 4; refused memory; 1
read; interrupted; 3; error: FILE: operation interrupted; 1
read; pipe; 3; error: FILE: broken pipe; 10
read; blocked; 3; error: FILE: operation would block; 10
read; late; 3; error: FILE: timed out; 10",
);

// The same for a write that fails after some bytes, for a flush that fails after all of them, and for standard error. A failed flush is reported after
// what the command reports without it.
const OUTPUTS: Table = Table(
    "\
write; interrupted; 3; refused 60 Write; 1
write; pipe; 3; refused 60 Write; 10
write; blocked; 3; refused 60 Write; 10
write; full; 3; refused 60 Write; 10
write; nothing; 3; refused 61 WriteZero; 1
write; by 1 interrupted; 3; refused 60 Write; 1
write; by 1 pipe; 3; refused 60 Write; 10
write; by 1 blocked; 3; refused 60 Write; 10
write; by 1 full; 3; refused 60 Write; 10
write; by 1 nothing; 3; refused 61 WriteZero; 10
flush; by 1 interrupted; 3; error: the output can't be written: operation interrupted; 1
flush; by 1 pipe; 3; error: the output can't be written: broken pipe; 1
flush; by 1 blocked; 3; error: the output can't be written: operation would block; 1
flush; by 1 full; 3; error: the output can't be written: no space left; 1
word; interrupted;;; 1
word; pipe;;; 10
word; full;;; 10
word; nothing;;; 1
word; by 1 interrupted;;; 10
word; by 1 full;;; 10
word; by 1 nothing;;; 10",
);

// The same for command lines, which make the same requests.
const LINE_INPUTS: Table = Table(
    "\
open; denied; 3; error: FILE: permission denied; 1
read; interrupted; 3; error: FILE: operation interrupted; 1",
);

const LINE_OUTPUTS: Table = Table(
    "\
write; by 1 interrupted; 3; refused 60 Write; 1
flush; by 1 interrupted; 3; error: the output can't be written: operation interrupted; 1
word; by 1 interrupted;;; 1",
);

// The text on standard error for a failed read of a county's file.
const UNREAD: &str = "refused 5 rtTYPE line LINE Read";

// Writes of requests that write more bytes don't fail: those bytes are passed on in one write, as fewer bytes are.
const MAX_WRITTEN: usize = 1000;

// How a refused growth ends.
const GROWTH: Method<'static> = Method {
    call: Call::Growth,
    status: Some(4),
    expected: "refused memory",
    step: 1,
};

/// A call that fails, and how.
#[derive(Clone, Copy)]
enum Call {
    Open(ErrorKind),
    Read(FaultPlan),
    Write(FaultPlan),
    Flush(FaultPlan),
    /// A write to standard error.
    Word(FaultPlan),
    Growth,
}

impl Call {
    /// Parses the name of a call and the way in which it fails.
    fn new(name: &str, fault: &str) -> Result<Self, TableFault> {
        match name {
            "open" => Ok(Call::Open(error_kind(fault)?)),
            "read" => Ok(Call::Read(failing(fault)?)),
            "write" => Ok(Call::Write(failing(fault)?)),
            "flush" => Ok(Call::Flush(failing(fault)?)),
            "word" => Ok(Call::Word(failing(fault)?)),
            _ => Err(TableFault::Word),
        }
    }
}

/// How calls fail, and how the command ends then.
#[derive(Clone, Copy)]
struct Method<'a> {
    call: Call,
    /// The status, or `None` if it is that of the command without a failure.
    status: Option<u8>,
    expected: &'a str,
    /// The distance from one failing call to the next.
    step: usize,
}

impl<'a> Method<'a> {
    /// Parses a row of a table above.
    fn new(row: &'a str) -> Result<Self, TableFault> {
        let (call, fault, status, expected, step) = cells(row)?.five()?;
        let call = Call::new(call, fault)?;
        let status = match call {
            Call::Word(_) if status.is_empty() && expected.is_empty() => None,
            Call::Word(_) => return Err(TableFault::Cells),
            _ => Some(status_of(status)?),
        };
        match size(step)? {
            0 => Err(TableFault::Number),
            step => Ok(Method {
                call,
                status,
                expected,
                step,
            }),
        }
    }
}

/// Calls of a row's request that fail one at a time, in one way.
#[derive(Clone, Copy)]
struct Trial<'a, 'b, 'c> {
    case: &'a Case<'c>,
    /// The memory of the request, or `None` for the command line.
    heap: Option<&'b Refusing<Global>>,
    method: Method<'b>,
    /// The index of the file that fails.
    file: usize,
}

impl<'c> Trial<'_, '_, 'c> {
    /// Returns the faults with which the call at this index fails, counted from 0.
    fn faults(&self, place: usize) -> Faults<'c> {
        let faults = self.case.faults();
        match self.method.call {
            Call::Open(kind) if place == 0 => self.file_faults(Access::Closed(kind)),
            Call::Open(_) => self.file_faults(Access::Sound),
            Call::Read(plan) => self.file_faults(Access::Failing(at_call(plan, place))),
            Call::Write(plan) => Faults {
                out: plan.after(place),
                ..faults
            },
            Call::Flush(plan) => Faults {
                out: at_call(plan, self.case.written.len().saturating_add(place)),
                ..faults
            },
            Call::Word(plan) => Faults {
                errors: plan.after(place),
                ..faults
            },
            Call::Growth => faults,
        }
    }

    fn file_faults(&self, access: Access) -> Faults<'c> {
        Faults {
            name: self.name(),
            access,
            ..self.case.faults()
        }
    }

    /// Returns the name of the file that fails.
    fn name(&self) -> &'c str {
        match self.case.files.get(self.file) {
            Some(file) => file.name,
            None => "",
        }
    }

    /// Returns the number of such calls, or `None` if they aren't made to fail.
    fn calls(&self) -> Option<usize> {
        let length = self.case.written.len();
        match self.method.call {
            Call::Open(_) => self.reads().and(Some(1)),
            Call::Read(_) => self.reads(),
            _ if self.file > 0 => None,
            Call::Word(_) => Some(self.case.expected.len()),
            _ if self.case.row.out.is_some() => None,
            Call::Write(_) => (length <= MAX_WRITTEN).then_some(length),
            Call::Flush(_) => Some(usize::from(self.case.row.status != 2)),
            Call::Growth => None,
        }
    }

    /// Returns the number of reads of the file, or `None` if the file fails anyway. A program or a source is read in pieces of 4,096 bytes, a
    /// county's file byte by byte, and one more read finds the end.
    fn reads(&self) -> Option<usize> {
        let file = self.case.files.get(self.file)?;
        let length = file.bytes.len();
        match file.access {
            Access::Sound if file.name.starts_with("d/") => length.checked_add(1),
            Access::Sound => length.div_ceil(4096).checked_add(1),
            Access::Partial(reads) => Some(reads),
            Access::Failing(_) | Access::Closed(_) => None,
        }
    }

    /// Returns whether an ending is that of the failed call at this index.
    fn is_failure(&self, alloc: Global, ending: &Ending, place: usize) -> Result<bool, TableFault> {
        let written = self.case.written.as_slice();
        let is_refused = self.is_expected(ending, self.method.expected);
        let status = self.status();
        Ok(match self.method.call {
            Call::Open(_) | Call::Read(_) => self.is_unusable(alloc, ending, place)?,
            Call::Growth => is_refused && self.is_with_rows(ending),
            Call::Write(_) => {
                is_refused && ending.is_with(status, written.get(..place).unwrap_or(b""))
            }
            Call::Word(_) => {
                ending.is_with(status, written)
                    && Some(taken(&ending.errors)) == self.case.expected.get(..place)
            }
            Call::Flush(_) => self.is_expected_after(ending) && ending.is_with(status, written),
        })
    }

    /// Returns the status with which the request ends if a call fails.
    fn status(&self) -> u8 {
        self.method.status.unwrap_or(self.case.row.status)
    }

    /// Returns whether an ending is that of a file that can't be used: nothing is written, except that an extract has the rows of the lines
    /// before.
    fn is_unusable(
        &self,
        alloc: Global,
        ending: &Ending,
        place: usize,
    ) -> Result<bool, AllocError> {
        let lines = self.lines_before(place);
        let rows = match self.name() {
            "d/TGR01001.RT1" if self.is_extract() => lines,
            _ => 0,
        };
        let refusal = self.refusal(alloc, lines)?;
        Ok(
            self.is_with_rows(ending)
                && line_count(taken(&ending.out)) == rows
                && ending.opened.contains(self.name())
                && self.is_expected(ending, refusal.as_str()),
        )
    }

    /// Returns whether the status is that of the way, and nothing is written, except whole rows of an extract, or whole lines of a batch if an
    /// allocation failed.
    fn is_with_rows(&self, ending: &Ending) -> bool {
        let written = taken(&ending.out);
        let are_rows = self.case.written.starts_with(written) && written.ends_with(b"\n");
        ending.is_with(self.status(), written)
            && (written.is_empty() || (self.is_extract() || self.is_batch()) && are_rows)
    }

    /// Returns whether this text is on standard error, with the county's code on a second line if one of several counties is refused.
    fn is_expected(&self, ending: &Ending, text: &str) -> bool {
        let expected = ending.expected();
        let is_county = self.is_select() && expected.strip_suffix("\ncounty 01001") == Some(text);
        expected == text || is_county
    }

    /// Returns whether standard error has the row's own text, and then that of the way.
    fn is_expected_after(&self, ending: &Ending) -> bool {
        let text = str::from_utf8(&self.case.expected).unwrap_or("");
        ending.expected().strip_prefix(text) == Some(self.method.expected)
    }

    /// Returns whether the row's command is this one.
    fn is_command(&self, command: &str) -> bool {
        let line = self.case.line();
        line.split(' ').nth(1) == Some(command)
    }

    fn is_select(&self) -> bool {
        self.is_command("select")
    }

    /// Returns whether rows are written while the type 1 file is read.
    fn is_extract(&self) -> bool {
        self.is_select() || self.is_command("run")
    }

    fn is_batch(&self) -> bool {
        self.is_command("geocode-batch")
    }

    /// Returns the number of lines in a county's file before the read at this index.
    fn lines_before(&self, place: usize) -> usize {
        match self.case.files.get(self.file) {
            Some(file) => line_count(file.bytes.get(..place).unwrap_or(b"")),
            None => 0,
        }
    }

    /// Returns the text on standard error when a read of the file fails after this number of lines.
    fn refusal(&self, alloc: Global, lines: usize) -> Result<String, AllocError> {
        let name = self.name();
        if matches!(self.method.call, Call::Open(_)) || !name.starts_with("d/") {
            return filled(alloc, self.method.expected, &[("FILE", name)]);
        }
        let kind = name.get(name.len().saturating_sub(1)..).unwrap_or("");
        let line = "1234".get(lines..=lines).unwrap_or("");
        filled(alloc, UNREAD, &[("TYPE", kind), ("LINE", line)])
    }

    /// Returns whether the request ends as it should when the call at this index fails, or at `end`, when none does.
    fn is_right(&self, alloc: Global, place: usize, end: usize) -> Result<bool, TableFault> {
        let ending = self.case.ended(alloc, self.heap, self.faults(place))?;
        if place < end {
            self.is_failure(alloc, &ending, place)
        } else {
            Ok(self.case.is_ended(&ending))
        }
    }

    /// Returns whether the request has growths, and ends as it should when any one of them is refused, and when none is.
    fn is_grown(&self, alloc: Global, heap: &Refusing<Global>) -> Result<bool, TableFault> {
        if !self.is_right(alloc, 0, 0)? {
            return Ok(false);
        }
        let growths = heap.count();
        for nth in 1..=growths {
            heap.refuse(nth);
            if !self.is_right(alloc, 0, 1)? {
                return Ok(false);
            }
        }
        Ok(growths > 0)
    }

    /// Returns whether the request ends as it should for each of the way's failing calls, and without a failure.
    fn is_swept(&self, alloc: Global) -> Result<bool, TableFault> {
        let Some(end) = self.calls() else {
            return Ok(true);
        };
        for place in 0..=end {
            let is_due = place == end || place.checked_rem(self.method.step) == Some(0);
            if is_due && !self.is_right(alloc, place, end)? {
                return Ok(false);
            }
        }
        Ok(true)
    }
}

/// Returns the device whose call at this index fails, counted from 0.
fn at_call(plan: FaultPlan, place: usize) -> FaultPlan {
    plan.at_call((place as u64).wrapping_add(1))
}

fn line_count(bytes: &[u8]) -> usize {
    let mut count: usize = 0;
    for byte in bytes {
        count = count.wrapping_add(usize::from(*byte == b'\n'));
    }
    count
}

/// Returns whether a row's request, or its command line, ends as it should in each of these ways.
fn is_swept(alloc: Global, row: &str, ways: Table, is_line: bool) -> Result<bool, TableFault> {
    let case = Case::new(alloc, row)?;
    let heap = Refusing::new(alloc);
    let heap = if is_line { None } else { Some(&heap) };
    let ways = ways.joined(alloc)?;
    for method in ways.lines() {
        if !is_case_swept(alloc, &case, heap, Method::new(method)?)? {
            return Ok(false);
        }
    }
    Ok(true)
}

/// Returns whether a case ends as it should in this way, for each of its files.
fn is_case_swept(
    alloc: Global,
    case: &Case<'_>,
    heap: Option<&Refusing<Global>>,
    method: Method<'_>,
) -> Result<bool, TableFault> {
    for file in 0..case.files.len().max(1) {
        let trial = Trial {
            case,
            heap,
            method,
            file,
        };
        if !trial.is_swept(alloc)? {
            return Ok(false);
        }
    }
    Ok(true)
}

#[test]
fn each_read(rt: HostRuntime) -> Result<(), Fail> {
    for row in requests(rt.alloc())?.lines() {
        assert_eq!(rt; is_swept(rt.alloc(), row, INPUTS, false), Ok(true), "{row}");
        assert_eq!(rt;
            is_swept(rt.alloc(), row, LINE_INPUTS, true),
            Ok(true),
            "{row}"
        );
    }
    Ok(())
}

#[test]
fn each_write(rt: HostRuntime) -> Result<(), Fail> {
    for row in requests(rt.alloc())?.lines() {
        assert_eq!(rt;
            is_swept(rt.alloc(), row, OUTPUTS, false),
            Ok(true),
            "{row}"
        );
        assert_eq!(rt;
            is_swept(rt.alloc(), row, LINE_OUTPUTS, true),
            Ok(true),
            "{row}"
        );
    }
    Ok(())
}

#[test]
fn each_write_of_arguments(rt: HostRuntime) -> Result<(), Fail> {
    for row in ARGUMENTS.joined(rt.alloc())?.lines() {
        assert_eq!(rt;
            is_swept(rt.alloc(), row, LINE_OUTPUTS, true),
            Ok(true),
            "{row}"
        );
    }
    Ok(())
}

fn requests(alloc: Global) -> Result<String, TableFault> {
    let rows = REQUESTS.joined(alloc)?;
    Ok(filled(alloc, &rows, &WORDS)?)
}

/// Returns whether a row's request ends as it should when any one of its growths is refused, of which there is at least one.
fn is_grown(alloc: Global, row: &str) -> Result<bool, TableFault> {
    let case = Case::new(alloc, row)?;
    let heap = Refusing::new(alloc);
    let trial = Trial {
        case: &case,
        heap: Some(&heap),
        method: GROWTH,
        file: 0,
    };
    trial.is_grown(alloc, &heap)
}

#[test]
fn each_growth(rt: HostRuntime) -> Result<(), Fail> {
    for row in requests(rt.alloc())?.lines() {
        assert_eq!(rt; is_grown(rt.alloc(), row), Ok(true), "{row}");
    }
    Ok(())
}

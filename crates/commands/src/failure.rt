//! Why a command fails: what it reports, and its exit status.
//!
//! A variant keeps what its line needs, not the line: the text is made once, by `report`, so that it can be stated exactly and nothing is allocated
//! after memory ran out. The libraries' refusals keep their own class, from which the status follows; only what a command alone knows (a file's name,
//! a line that doesn't exist, text that isn't UTF-8) has a variant here. Scripts read the first line and the status, people the lines after it.
//!
//! Always: the status is 1 to 4, and 1 only for what a library refused. Whatever a user gave is echoed with its control characters escaped. A report
//! stops at its first failed write, which changes nothing else.
ghost use Rattle.std.specs.Prelude.{◌≡◌, ◌≤◌, [], ◌∷◌, ◌++◌, codes, length};
ghost use Rattle.std.specs.List.{flat_map};
ghost use Rattle.commands.specs.Failure.{IsOfAddresses, IsReason, Reports, ReportsLine, ReportsText, WritesAs, class_status};
ghost use Rattle.commands.specs.Failure.{file_line, of_county_extract, of_county_file, of_extract, of_file, of_opening, of_program, of_source};
ghost use Rattle.commands.specs.Failure.{status};
ghost use Rattle.commands.specs.declared.failure.Failure.TheVariants.{Memory};
ghost use Rattle.filters.specs.Failure.{failure_text};
ghost use Rattle.reports.specs.Escape.{escaped};
ghost use Rattle.reports.specs.Piece.{reported};

use addresses::AddressFault;
use arrayvec::ArrayString;
use bpf_text::{SourceFault, TextFault};
use counted_io::{CountedWrite, WriteFault, write_text};
use extract::ExtractFault;
use filters::FilterFailure;
use itoa::Buffer;
use named_files::{CountyFileFault, FileFault, ProgramInputFault, name_end};
use refusals::{Class, Fault, Refusal};
use reports::Piece::{Echo, Text};
use reports::{Piece, write_report};
use std::alloc::{AllocError, AllocFailed};
use std::fmt::Write as WriteText;
use std::io;
use std::io::ErrorKind;
use tl_segments::CountyFile;

pub const DONE: u8 = 0;

pub const REFUSED: u8 = 1;

pub const USAGE: u8 = 2;

pub const UNUSABLE: u8 = 3;

pub const OUT_OF_MEMORY: u8 = 4;

/// Why a command fails.
#[derive(Drop)]
pub enum Failure<'a> {
    /// A library refuses the input or runs out of memory.
    Refusal(Refusal),
    /// A filter has no program.
    Filter(FilterFailure),
    /// A file of addresses is refused. The note gives more detail for people.
    Addresses {
        refusal: Refusal,
        note: ArrayString<128>,
    },
    /// The county of this code, one of several, is refused.
    County {
        code: &'a str,
        refusal: Refusal,
    },
    /// Another allocation fails, before anything is written.
    Memory,
    /// The output isn't written completely.
    Write(WriteFault),
    /// The file of this name can't be opened or read.
    File {
        name: &'a str,
        error: io::Error,
    },
    /// A county's file in the data folder can't be opened.
    CountyFile {
        data: &'a str,
        code: &'a str,
        file: CountyFile,
        error: io::Error,
    },
    /// The program text of this name isn't UTF-8.
    NotUtf8 {
        name: &'a str,
    },
    /// The type 1 file doesn't have this line, counted from 1.
    NoLine {
        line: u64,
    },
    /// The output can't be flushed.
    Output(io::Error),
}

impl<'a> Failure<'a> {
    /// Returns the failure for a file of this name that can't be opened or read.
    pub fn of_file(name: &'a str, fault: FileFault) -> Self
        ensures { result ≡ of_file name.entry fault }
    {
        match fault {
            FileFault::Unusable(error) => Failure::File { name, error },
            FileFault::Memory => Failure::Memory,
        }
    }

    /// Returns the failure for the program in the file of this name.
    pub fn of_program(name: &'a str, fault: ProgramInputFault) -> Self
        ensures { result ≡ of_program name.entry fault }
    {
        match fault {
            ProgramInputFault::File(fault) => Failure::of_file(name, fault),
            ProgramInputFault::Code(fault) => Failure::Refusal(fault.refusal()),
        }
    }

    /// Returns the failure for a county's file in the data folder.
    pub fn of_county_file(data: &'a str, code: &'a str, fault: CountyFileFault) -> Self
        ensures { result ≡ of_county_file «data».entry code.entry fault.file fault.fault }
    {
        let file = fault.file;
        match fault.fault {
            FileFault::Unusable(error) => Failure::CountyFile {
                data,
                code,
                file,
                error,
            },
            FileFault::Memory => Failure::Memory,
        }
    }

    /// Returns the failure for the source in the file of this name.
    pub fn of_source(name: &'a str, fault: SourceFault) -> Self
        ensures { result ≡ of_source name.entry fault }
    {
        match fault {
            SourceFault::NotUtf8 => Failure::NotUtf8 { name },
            SourceFault::Text(TextFault::Memory) => Failure::Memory,
            SourceFault::Text(fault) => Failure::Refusal(fault.refusal()),
        }
    }

    /// Returns the failure for an extract that isn't written completely.
    pub fn of_extract(fault: ExtractFault) -> Self
        ensures { result ≡ of_extract fault }
    {
        match fault {
            ExtractFault::Write(fault) => Failure::Write(fault),
            fault => Failure::Refusal(fault.refusal()),
        }
    }

    /// Returns the failure for a file of addresses that can't be read.
    pub fn of_addresses(fault: AddressFault) -> Self
        ensures { IsOfAddresses fault result }
    {
        match fault {
            AddressFault::Memory => Failure::Refusal(Refusal::memory()),
            fault => Failure::Addresses {
                refusal: fault.refusal(),
                note: addresses_note(fault),
            },
        }
    }

    /// Returns the failure for one of several counties, whose extract isn't written completely.
    pub fn of_county_extract(code: &'a str, fault: ExtractFault) -> Self
        ensures { result ≡ of_county_extract code.entry fault }
    {
        match fault {
            ExtractFault::Write(fault) => Failure::Write(fault),
            fault => Failure::County {
                code,
                refusal: fault.refusal(),
            },
        }
    }

    /// Returns the failure for a file of one of several counties that can't be opened in the data folder.
    pub fn of_opening(data: &'a str, code: &'a str, fault: CountyFileFault) -> Self
        ensures { result ≡ of_opening «data».entry code.entry fault.file fault.fault }
    {
        match fault.fault {
            FileFault::Unusable(_) => Failure::of_county_file(data, code, fault),
            FileFault::Memory => Failure::County {
                code,
                refusal: Refusal::memory(),
            },
        }
    }

    /// Returns the exit status, 1 to 4.
    pub fn status(&self) -> u8
        ensures { result ≡ status self.now }
    {
        match self {
            Failure::Refusal(refusal) => class_status(refusal.class()),
            Failure::Filter(failure) => class_status(failure.class()),
            Failure::Addresses { refusal, .. } => class_status(refusal.class()),
            Failure::County { refusal, .. } => class_status(refusal.class()),
            Failure::Memory => OUT_OF_MEMORY,
            Failure::NoLine { .. } => USAGE,
            _ => UNUSABLE,
        }
    }

    /// Reports the failure on `errors`, up to the first write that fails or writes 0 bytes.
    pub fn report<E: CountedWrite>(&self, errors: &mut E)
        ensures { Reports self.now (E.writer errors.old) (E.writer errors.new) }
    {
        match self {
            Failure::Refusal(refusal) => report_line(errors, refusal.line().as_str()),
            Failure::Filter(failure) => report_filter(errors, failure),
            Failure::Addresses { refusal, note } => {
                report_noted(errors, refusal.line().as_str(), note.as_str());
            }
            Failure::County { code, refusal } => {
                report_county(errors, refusal.line().as_str(), code);
            }
            Failure::Memory => report_line(errors, Refusal::memory().line().as_str()),
            Failure::Write(fault) => report_line(errors, fault.line().as_str()),
            Failure::File { name, error } => {
                let reason = reason(*error);
                report_file(errors, name, reason.as_str());
            }
            Failure::CountyFile {
                data,
                code,
                file,
                error,
            } => {
                let (end, reason) = (name_end(*file), reason(*error));
                report_county_file(errors, data, code, end, reason.as_str());
            }
            Failure::NotUtf8 { name } => {
                write_pieces(
                    errors,
                    &[Text("error: "), Echo(name), Text(": not UTF-8\n")],
                )
            }
            Failure::NoLine { line } => {
                let mut number = Buffer::new();
                let number = number.format(*line);
                write_pieces(
                    errors,
                    &[
                        Text("error: the type 1 file has no line "),
                        Text(number),
                        Text("\n"),
                    ],
                );
            }
            Failure::Output(error) => {
                let reason = reason(*error);
                write_pieces(
                    errors,
                    &[
                        Text("error: the output can't be written: "),
                        Text(reason.as_str()),
                        Text("\n"),
                    ],
                );
            }
        }
    }
}

impl From<AllocError> for Failure<'_> {
    ghost from_gives = { λ _ failure. failure ≡ Memory };

    fn from(_error: AllocError) -> Self {
        Failure::Memory
    }
}

impl<T: Drop> From<AllocFailed<T>> for Failure<'_> {
    ghost from_gives = { λ _ failure. failure ≡ Memory };

    fn from(_error: AllocFailed<T>) -> Self {
        Failure::Memory
    }
}

/// Returns the exit status for refusals of this class.
fn class_status(class: Class) -> u8
    ensures { result ≡ class_status class }
{
    match class {
        Class::Refused => REFUSED,
        Class::Io => UNUSABLE,
        Class::Memory => OUT_OF_MEMORY,
    }
}

/// Writes the text, completely or until the output fails.
pub fn write<'a, W: CountedWrite>(out: &mut W, text: &[u8]) -> Result<(), Failure<'a>>
    ensures { WritesAs text.now result (W.writer out.old) (W.writer out.new) }
{
    match write_text(out, text) {
        Ok(()) => Ok(()),
        Err(fault) => Err(Failure::Write(fault)),
    }
}

/// Reports the pieces in order, up to the first that can't be written completely.
fn write_pieces<E: CountedWrite>(errors: &mut E, pieces: &[Piece<'_>])
    ensures { ReportsText (flat_map reported pieces.now) (E.writer errors.old) (E.writer errors.new) }
{
    let _ = write_report(errors, pieces);
}

/// Reports a line.
fn report_line<E: CountedWrite>(errors: &mut E, line: &str)
    ensures { ReportsLine line.now (E.writer errors.old) (E.writer errors.new) }
{
    write_pieces(errors, &[Text(line), Text("\n")]);
}

/// Reports why a file of addresses is refused.
fn report_noted<'p, E: CountedWrite>(errors: &mut E, refusal: &'p str, note: &'p str)
    ensures { ReportsText (refusal.now ++ 10 ∷ note.now ++ 10 ∷ []) (E.writer errors.old) (E.writer errors.new) }
{
    write_pieces(errors, &[Text(refusal), Text("\n"), Text(note), Text("\n")]);
}

/// Reports why a filter has no program.
fn report_filter<E: CountedWrite>(errors: &mut E, failure: &FilterFailure)
    ensures { ReportsText (failure_text failure.now) (E.writer errors.old) (E.writer errors.new) }
{
    let line = failure.line();
    write_texts(errors, &failure.pieces(line.as_bytes()));
}

/// Writes the texts in order, up to the first that can't be written completely.
fn write_texts<E: CountedWrite>(errors: &mut E, texts: &[&[u8]])
    ensures { ReportsText (flat_map (λ text. text.now) texts.now) (E.writer errors.old) (E.writer errors.new) }
{
    for text in texts {
        match write_text(errors, text) {
            Ok(()) => {}
            Err(_) => return,
        }
    }
}

/// Reports why a county is refused.
fn report_county<'p, E: CountedWrite>(errors: &mut E, refusal: &'p str, code: &'p str)
    ensures { ReportsText (refusal.now ++ 10 ∷ codes "county " ++ escaped code.now ++ 10 ∷ []) (E.writer errors.old) (E.writer errors.new) }
{
    write_pieces(
        errors,
        &[Text(refusal), Text("\ncounty "), Echo(code), Text("\n")],
    );
}

/// Reports why the file of this name can't be used.
fn report_file<'p, E: CountedWrite>(errors: &mut E, name: &'p str, reason: &'p str)
    ensures { ReportsText (file_line name.now reason.now) (E.writer errors.old) (E.writer errors.new) }
{
    write_pieces(
        errors,
        &[
            Text("error: "),
            Echo(name),
            Text(": "),
            Text(reason),
            Text("\n"),
        ],
    );
}

/// Reports why a county's file, whose name has this extension, can't be used.
fn report_county_file<'p, E: CountedWrite>(
    errors: &mut E,
    data: &'p str,
    code: &'p str,
    end: &'p str,
    reason: &'p str,
)
    ensures { ReportsText (file_line («data».now ++ codes "/TGR" ++ code.now ++ end.now) reason.now) (E.writer errors.old) (E.writer errors.new) }
{
    write_pieces(
        errors,
        &[
            Text("error: "),
            Echo(data),
            Text("/TGR"),
            Echo(code),
            Echo(end),
            Text(": "),
            Text(reason),
            Text("\n"),
        ],
    );
}

/// Says what is wrong with a file of addresses.
fn addresses_note(fault: AddressFault) -> ArrayString<128> {
    let mut note = ArrayString::new();
    let _ = match fault {
        AddressFault::At { flaw, .. } => write!(note, "{flaw}"),
        other => write!(note, "{other}"),
    };
    note
}

/// Returns a short phrase for a common system error, and the system's text for any other.
fn reason(error: io::Error) -> ArrayString<320>
    ensures { IsReason error result.bytes }
{
    match error.kind() {
        ErrorKind::NotFound => phrase("not found"),
        ErrorKind::PermissionDenied => phrase("permission denied"),
        ErrorKind::IsADirectory => phrase("is a directory"),
        ErrorKind::NotADirectory => phrase("not a directory"),
        ErrorKind::StorageFull => phrase("no space left"),
        ErrorKind::BrokenPipe => phrase("broken pipe"),
        _ => {
            let mut text = ArrayString::new();
            let _ = write!(text, "{error}");
            text
        }
    }
}

fn phrase(words: &str) -> ArrayString<320>
    requires { length words.now ≤ 320 }
    ensures { result.bytes ≡ words.now }
{
    let mut text = ArrayString::new();
    text.push_str(words);
    text
}

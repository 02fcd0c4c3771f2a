//! The files that a command reads, by name.
//!
//! Files are a trait, so that commands are proved for any files and tests can inject a failure into each open and read. What a file holds can't be
//! known, so a contract says which name was opened, which bytes it had if they are known, and how many opens and reads failed. Failed reads are
//! counted by the name of the file, so that no command reports one file and reads another: a reader can't be dropped, only closed, and an `OpenFile`
//! keeps reader and name together, since a reader alone could be closed under any name.
//!
//! Always: each reader that was opened is closed once, on every path. No read is repeated. A program is read to its end however long it is, since 11
//! NotWhole and 12 TooLong depend on its length, but never more of it is kept than has the same first fault; a text is read up to its limit only,
//! which decides alone. Only the system's "not found" counts as a missing file.
ghost use Rattle.std.specs.Prelude.{◌≡◌, ◌≤◌, ◌*◌, ◌%◌, ℕ, List, ◌++◌, length, refl, take, Option, IfOk, IfErr, MatchOption, MatchResult, None, Result, Ok, Err, Some, ⊤};
ghost use Rattle.std.specs.Io.{ReadsAtMost};
ghost use Rattle.std.specs.Io.Buffered.{reader_inner};
ghost use Rattle.std.specs.Io.KnownBytes.{Keeps, ReadConsumes};
ghost use Rattle.std.specs.declared.io.Error.{Error};
ghost use Rattle.counted_io.specs.Counting.{CountsFailure};
ghost use Rattle.named_files.specs.County.{path_of};
ghost use Rattle.named_files.specs.Files.{CountsOpen, CountsProgramFault, IsLong, IsNotMissing, IsOpenFault, IsPrefix, IsProgramUseFault, IsShort, IsTooLong, IsUseFault, IsUnread, Opens, OpensOptional, OpensReader, CountsFileResult, IsProgramInputFault, CountsProgramUse, CountsUseResult, input_reader};
ghost use Rattle.named_files.specs.declared.files.FileFault.TheVariants.{Memory};
ghost use Rattle.named_files.specs.declared.files.ProgramInputFault.TheVariants.{File};
ghost use Rattle.named_files.specs.declared.files.TheConstants.{MAX_STORED_BYTES};
ghost use Rattle.bpf_insn.specs.declared.code.TheConstants.{MAX_WORDS};

use crate::open_file::{FileName, OpenFile};
use arrayvec::ArrayVec;
use bpf_insn::{CodeFault, MAX_WORDS};
use counted_io::{Buffered, CountedRead, MAX_CONTENT_LENGTH, Stop, count_one};
use std::alloc::{AllocError, Allocator};
use std::fs::File;
use std::io::{BufReader, ErrorKind, Read};
use std::{io, rt};

/// Why a file's bytes can't be read.
#[derive(Clone, Copy)]
pub enum FileFault {
    /// The file can't be opened or read.
    Unusable(io::Error),
    Memory,
}

impl From<AllocError> for FileFault {
    ghost from_gives = { λ _ fault. fault ≡ Memory };

    fn from(_error: AllocError) -> FileFault {
        FileFault::Memory
    }
}

/// Why a program's bytes can't be read.
#[derive(Clone, Copy)]
pub enum ProgramInputFault {
    /// Its file can't be opened or read, or an allocation fails.
    File(FileFault),
    /// The program is longer than the limit. Its first fault is that it has too many words, or that its last word is incomplete.
    Code(CodeFault),
}

impl From<AllocError> for ProgramInputFault {
    ghost from_gives = { λ _ fault. fault ≡ File Memory };

    fn from(_error: AllocError) -> ProgramInputFault {
        ProgramInputFault::File(FileFault::Memory)
    }
}

/// Files, opened by name.
pub trait Files {
    ghost use Rattle.named_files.specs.County.{path_of};
    ghost use Rattle.named_files.specs.Files.{CountsClose, CountsOpen, Disk, KeepsCounts, OpensOptional, optional_reader};

    // It can't be dropped: each opened reader must be closed, so no failed read goes unnoticed.
    type Reader: CountedRead;

    // An open of the file of this name had this result.
    ghost opens: { List ℕ → Result Self.Reader Error → Type 0 } = { λ _ _. ⊤ };

    // The files as contracts see them.
    ghost disk: { Self → Disk };

    /// Opens a file for reading and returns a reader with its own buffer.
    fn open(&mut self, name: &str) -> io::Result<Self::Reader>
        ensures opened { opens name.now result }
        ensures known { IfOk result (λ reader. Keeps ((disk self.old).known name.now) (Self.Reader.reader reader).left) }
        ensures unread { IfOk result (λ reader. (Self.Reader.reader reader).failed ≡ 0) }
        ensures stay { (other : List ℕ) → (disk self.new).known other ≡ (disk self.old).known other }
        ensures failures { CountsOpen result (disk self.old).failed_opens (disk self.new).failed_opens }
        ensures reads { KeepsCounts (disk self.old).failed_reads (disk self.new).failed_reads };

    /// Opens a file for reading. Returns `None` if it doesn't exist; any other failure is an error.
    fn open_optional(&mut self, name: &str) -> io::Result<Option<Self::Reader>>
        ensures opened { OpensOptional (opens name.now) result }
        ensures known { IfOk result (λ opened. Keeps ((disk self.old).known name.now) (optional_reader Self.Reader.reader opened).left) }
        ensures unread { IfOk result (λ opened. (optional_reader Self.Reader.reader opened).failed ≡ 0) }
        ensures stay { (other : List ℕ) → (disk self.new).known other ≡ (disk self.old).known other }
        ensures failures { CountsOpen result (disk self.old).failed_opens (disk self.new).failed_opens }
        ensures reads { KeepsCounts (disk self.old).failed_reads (disk self.new).failed_reads };

    /// Closes a file.
    fn close(&mut self, file: OpenFile<'_, Self::Reader>)
        ensures stay { (other : List ℕ) → (disk self.new).known other ≡ (disk self.old).known other }
        ensures opens { (disk self.new).failed_opens ≡ (disk self.old).failed_opens }
        ensures reads { CountsClose (path_of file.entry.name) (Self.Reader.reader file.entry.reader).failed
            (disk self.old).failed_reads (disk self.new).failed_reads };
}

/// A file system, which opens files by name. No contract says which bytes a file has, but this one says which name was opened.
pub trait FileSystem {
    type File: Read + Drop;

    // An open of the file of this name had this result.
    ghost opens: { List ℕ → Result Self.File Error → Type 0 } = { λ _ _. ⊤ };

    /// Opens a file for reading.
    fn open_path(&self, name: &str) -> io::Result<Self::File>
        ensures { opens name.now result };
}

impl<R: rt::Files> FileSystem for R {
    type File = R::File;

    fn open_path(&self, name: &str) -> io::Result<R::File> {
        File::open(self, name)
    }
}

/// The system's files. Counts failed reads in one number, which is the count of each name: counts by name would need memory for each name.
#[derive(Drop)]
pub struct SystemFiles<'a, S> {
    system: &'a S,
    failed_opens: u64,
    failed_reads: u64,
}

// The number of bytes that a reader fetches at once.
pub const INPUT_BUFFER: usize = 65536;

impl<'a, S> SystemFiles<'a, S> {
    pub fn new(system: &'a S) -> Self
        ensures opens { result.failed_opens ≡ 0 }
        ensures reads { result.failed_reads ≡ 0 }
    {
        SystemFiles {
            system,
            failed_opens: 0,
            failed_reads: 0,
        }
    }

    fn count_open(&mut self, error: io::Error)
        ensures opens { CountsOpen {R = ℕ} (Err error) self.old.failed_opens self.new.failed_opens }
        ensures reads { self.new.failed_reads ≡ self.old.failed_reads }
    {
        if error.kind() != ErrorKind::OutOfMemory {
            count_one(&mut self.failed_opens);
        }
    }
}

impl<S: FileSystem + AllocGlobal> Files for SystemFiles<'_, S> {
    ghost use Rattle.named_files.specs.County.{path_of};
    ghost use Rattle.named_files.specs.Files.{CountsClose};

    type Reader = Buffered<BufReader<S::File>>;

    ghost opens = { λ name. OpensReader (S.opens name) (λ reader. reader_inner reader.reader) };

    ghost disk = { λ files. record { known = λ _. None; failed_opens = files.failed_opens; failed_reads = λ _. files.failed_reads } };

    fn open(&mut self, name: &str) -> io::Result<Buffered<BufReader<S::File>>> {
        match open_buffered(self.system, name) {
            Ok(reader) => Ok(reader),
            Err(error) => {
                self.count_open(error);
                Err(error)
            }
        }
    }

    fn open_optional(&mut self, name: &str) -> io::Result<Option<Buffered<BufReader<S::File>>>> {
        match not_found_as_none(open_buffered(self.system, name)) {
            Ok(opened) => Ok(opened),
            Err(error) => {
                self.count_open(error);
                Err(error)
            }
        }
    }

    fn close(&mut self, file: OpenFile<'_, Buffered<BufReader<S::File>>>)
        ensures opens { self.new.failed_opens ≡ self.old.failed_opens }
        ensures reads { CountsClose (path_of file.entry.name) file.entry.reader.failed_reads (λ _. self.old.failed_reads) (λ _. self.new.failed_reads) }
    {
        let (_name, reader) = file.into_parts();
        if reader.failed_reads() != 0 {
            count_one(&mut self.failed_reads);
        }
    }
}

fn open_buffered<S: FileSystem + AllocGlobal>(
    system: &S,
    name: &str,
) -> io::Result<Buffered<BufReader<S::File>>>
    ensures opened { OpensReader (S.opens name.now) (λ reader. reader_inner reader.reader) result }
    ensures unread { IfOk result (λ reader. reader.failed_reads ≡ 0) }
{
    let file = system.open_path(name)?;
    let reader = BufReader::with_capacity(system.alloc(), INPUT_BUFFER, file)?;
    Ok(Buffered::new(reader))
}

/// Returns the opened value, or `None` if the file doesn't exist. Any other failure is an error.
fn not_found_as_none<T>(opened: io::Result<T>) -> io::Result<Option<T>>
    ensures { OpensOptional (λ outcome. outcome ≡ opened) result }
{
    match opened {
        Ok(reader) => Ok(Some(reader)),
        Err(error) if error.kind() == ErrorKind::NotFound => Ok(None),
        Err(error) => Err(error),
    }
}

/// Opens a file.
pub fn open<'a, F: Files>(
    files: &mut F,
    name: &'a str,
) -> Result<OpenFile<'a, F::Reader>, FileFault>
    ensures known { IfOk result (λ file. IsUnread ((F.disk files.old).known name.now) (F.Reader.reader file.reader)) }
    ensures name { IfOk result (λ file. path_of file.name ≡ name.now) }
    ensures opened { IfOk result (λ file. F.opens name.now (Ok file.reader)) }
    ensures fault { IfErr result (IsOpenFault (F.opens name.now)) }
    ensures opens { Opens result (λ fault. fault) (F.disk files.old) (F.disk files.new) }
{
    match files.open(name) {
        Ok(reader) => Ok(OpenFile {
            name: FileName::Path(name),
            reader,
        }),
        Err(error) if error.kind() == ErrorKind::OutOfMemory => Err(FileFault::Memory),
        Err(error) => Err(FileFault::Unusable(error)),
    }
}

/// Opens a file, or returns an empty input if it doesn't exist.
pub fn open_optional<F: Files>(files: &mut F, name: &str) -> Result<Input<F::Reader>, FileFault>
    ensures known { IfOk result (λ input. IsUnread ((F.disk files.old).known name.now)
        (input_reader F.Reader.reader input)) }
    ensures fault { IfErr result (IsOpenFault (F.opens name.now)) }
    ensures exists { IfErr result IsNotMissing }
    ensures opens { Opens result (λ fault. fault) (F.disk files.old) (F.disk files.new) }
{
    match files.open_optional(name) {
        Ok(Some(reader)) => Ok(Input::Opened(reader)),
        Ok(None) => Ok(Input::Nothing),
        Err(error) if error.kind() == ErrorKind::OutOfMemory => Err(FileFault::Memory),
        Err(error) => Err(FileFault::Unusable(error)),
    }
}

// The size of the pieces in which a file is read.
const PIECE: usize = 4096;

/// Reads the rest of the reader's bytes, to its end. No read is retried. Public for tests of programs.
pub fn read_to_end<A: Allocator, R: CountedRead>(
    alloc: A,
    reader: &mut R,
) -> Result<Vec<u8, A>, FileFault>
    ensures bytes { IfOk result (λ bytes. Keeps (R.reader reader.old).left (Some bytes.items)) }
    ensures reads { CountsFileResult result (R.reader reader.old).failed (R.reader reader.new).failed }
{
    let mut bytes = Vec::new(alloc);
    for _ in 0..u64::MAX {
        let mut piece = [0; PIECE];
        match reader.read_counted(&mut piece) {
            Ok(0) => return Ok(bytes),
            Ok(count) => bytes.extend_from_slice(&piece[..count])?,
            Err(error) => return Err(FileFault::Unusable(error)),
        }
    }
    // Unreachable in practice: 2^64 reads.
    Err(FileFault::Memory)
}

/// Opens a file and reads it to its end.
pub fn read_file<A: Allocator, F: Files>(
    alloc: A,
    files: &mut F,
    name: &str,
) -> Result<Vec<u8, A>, FileFault>
    ensures known { IfOk result (λ bytes. Keeps ((F.disk files.old).known name.now) (Some bytes.items)) }
    ensures stay { (other : List ℕ) → (F.disk files.new).known other ≡ (F.disk files.old).known other }
    ensures fault { IfErr result (IsUseFault F.opens name.now (F.disk files.old) (F.disk files.new)) }
    ensures uses { CountsUseResult name.now result (F.disk files.old) (F.disk files.new) }
{
    match open(files, name) {
        Ok(mut file) => {
            let read = read_to_end(alloc, &mut file.reader);
            files.close(file);
            read
        }
        Err(fault) => Err(fault),
    }
}

/// Appends what was read, up to a total of `limit` bytes.
fn append_up_to<A: Allocator>(
    stored: &mut Vec<u8, A>,
    read: &[u8],
    limit: usize,
) -> Result<(), AllocError>
    ensures { (before : List ℕ) → stored.old.items ≡ take limit before
        → IfOk result (λ _. stored.new.items ≡ take limit (before ++ read.now)) }
{
    let room = limit.saturating_sub(stored.len());
    stored.extend_from_slice(&read[..room.min(read.len())])
}

/// Reads the reader's next `limit` bytes, or all of them if there are fewer. Stops reading once it has these bytes, and stores no further ones. A failed
/// read isn't retried.
pub fn read_prefix<A: Allocator, R: CountedRead>(
    alloc: A,
    reader: &mut R,
    limit: usize,
) -> Result<Vec<u8, A>, FileFault>
    ensures prefix { IfOk result (λ prefix. IsPrefix limit (R.reader reader.old).left prefix.items) }
    ensures reads { CountsFileResult result (R.reader reader.old).failed (R.reader reader.new).failed }
{
    let mut prefix = Vec::new(alloc);
    for _ in 0..u64::MAX {
        let mut piece = [0; PIECE];
        match reader.read_counted(&mut piece) {
            Ok(0) => return Ok(prefix),
            Ok(count) => {
                append_up_to(&mut prefix, &piece[..count], limit)?;
                if prefix.len() == limit {
                    return Ok(prefix);
                }
            }
            Err(error) => return Err(FileFault::Unusable(error)),
        }
    }
    // Unreachable in practice: 2^64 reads.
    Err(FileFault::Memory)
}

/// Opens a file and reads its first `limit` bytes, or all if it has fewer.
pub fn read_file_prefix<A: Allocator, F: Files>(
    alloc: A,
    files: &mut F,
    name: &str,
    limit: usize,
) -> Result<Vec<u8, A>, FileFault>
    ensures prefix { IfOk result (λ prefix. IsPrefix limit ((F.disk files.old).known name.now) prefix.items) }
    ensures stay { (other : List ℕ) → (F.disk files.new).known other ≡ (F.disk files.old).known other }
    ensures fault { IfErr result (IsUseFault F.opens name.now (F.disk files.old) (F.disk files.new)) }
    ensures uses { CountsUseResult name.now result (F.disk files.old) (F.disk files.new) }
{
    match open(files, name) {
        Ok(mut file) => {
            let read = read_prefix(alloc, &mut file.reader, limit);
            files.close(file);
            read
        }
        Err(fault) => Err(fault),
    }
}

/// Opens a file and reads it to its end. Returns `None` if it has `end` bytes or more, of which only so many are read and stored.
#[tactic(auto, using(crate::proofs::ProgramLemmas::short_file, crate::proofs::ProgramLemmas::long_file))]
pub fn read_short_file<A: Allocator, F: Files>(
    alloc: A,
    files: &mut F,
    name: &str,
    end: usize,
) -> Result<Option<Vec<u8, A>>, FileFault>
    ensures short { IfOk result (λ file. MatchOption file (IsLong end ((F.disk files.old).known name.now))
        (λ bytes. IsShort end ((F.disk files.old).known name.now) bytes.items)) }
    ensures stay { (other : List ℕ) → (F.disk files.new).known other ≡ (F.disk files.old).known other }
    ensures fault { IfErr result (IsUseFault F.opens name.now (F.disk files.old) (F.disk files.new)) }
    ensures uses { CountsUseResult name.now result (F.disk files.old) (F.disk files.new) }
{
    let prefix = read_file_prefix(alloc, files, name, end)?;
    if prefix.len() < end {
        return Ok(Some(prefix));
    }
    Ok(None)
}

// The maximum number of bytes stored of a program: one word past the limit shows that the program is too long.
pub const MAX_STORED_BYTES: usize = 8 * (MAX_WORDS + 1);

/// Returns a program of which at most [`MAX_STORED_BYTES`] bytes are stored, or its first fault if it is too long. `remainder` is its length modulo 8.
fn complete<A: Allocator>(stored: Vec<u8, A>, remainder: usize) -> Result<Vec<u8, A>, CodeFault>
    ensures ok { (program : List ℕ) → stored.items ≡ take MAX_STORED_BYTES program
        → IfOk result (λ whole. (whole.items ≡ program) × (length whole.items ≤ 8 * MAX_WORDS)) }
    ensures err { (program : List ℕ) → stored.items ≡ take MAX_STORED_BYTES program → remainder ≡ length program % 8
        → IfErr result (IsTooLong (Some program)) }
{
    if stored.len() <= 8 * MAX_WORDS {
        return Ok(stored);
    }
    if remainder == 0 {
        return Err(CodeFault::TooLong);
    }
    Err(CodeFault::NotWhole)
}

/// Reads a program from the reader's position to its end. No read is retried.
///
/// A program that is too long is refused for its length. Bytes past the limit are read but not stored, so memory use is bounded for a file of any
/// length.
pub fn read_program<A: Allocator, R: CountedRead>(
    alloc: A,
    input: &mut R,
) -> Result<Vec<u8, A>, ProgramInputFault>
    ensures program { IfOk result (λ program. Keeps (R.reader input.old).left (Some program.items)
        × (length program.items ≤ 8 * MAX_WORDS)) }
    ensures refused { IfErr result (IsProgramInputFault (R.reader input.old).left) }
    ensures reads { MatchResult result (λ _. (R.reader input.new).failed ≡ (R.reader input.old).failed)
        (λ fault. CountsProgramFault fault (R.reader input.old).failed (R.reader input.new).failed) }
{
    let mut stored = Vec::with_capacity(alloc, MAX_STORED_BYTES)?;
    let mut remainder = 0;
    for _ in 0..u64::MAX {
        let mut piece = [0; PIECE];
        match input.read_counted(&mut piece) {
            Ok(0) => {
                return match complete(stored, remainder) {
                    Ok(program) => Ok(program),
                    Err(fault) => Err(ProgramInputFault::Code(fault)),
                };
            }
            Ok(count) => {
                append_up_to(&mut stored, &piece[..count], MAX_STORED_BYTES)?;
                remainder = (remainder + count) % 8;
            }
            Err(error) => return Err(ProgramInputFault::File(FileFault::Unusable(error))),
        }
    }
    // Unreachable in practice: 2^64 reads.
    Err(ProgramInputFault::File(FileFault::Memory))
}

impl<R: CountedRead> OpenFile<'_, R> {
    /// Reads a program from the file's position to its end, as [`read_program`] does.
    pub fn read_program<A: Allocator>(&mut self, alloc: A) -> Result<Vec<u8, A>, ProgramInputFault>
        ensures name { self.new.name ≡ self.old.name }
        ensures program { IfOk result (λ program. Keeps (R.reader self.old.reader).left (Some program.items)
            × (length program.items ≤ 8 * MAX_WORDS)) }
        ensures refused { IfErr result (IsProgramInputFault (R.reader self.old.reader).left) }
        ensures reads { MatchResult result (λ _. (R.reader self.new.reader).failed ≡ (R.reader self.old.reader).failed)
            (λ fault. CountsProgramFault fault (R.reader self.old.reader).failed (R.reader self.new.reader).failed) }
    {
        read_program(alloc, &mut self.reader)
    }
}

/// Opens a program's file and reads it to its end.
pub fn read_program_file<A: Allocator, F: Files>(
    alloc: A,
    files: &mut F,
    name: &str,
) -> Result<Vec<u8, A>, ProgramInputFault>
    ensures known { IfOk result (λ program. Keeps ((F.disk files.old).known name.now) (Some program.items)) }
    ensures stay { (other : List ℕ) → (F.disk files.new).known other ≡ (F.disk files.old).known other }
    ensures refused { IfErr result (IsProgramInputFault ((F.disk files.old).known name.now)) }
    ensures fault { IfErr result (IsProgramUseFault F.opens name.now (F.disk files.old) (F.disk files.new)) }
    ensures uses { CountsProgramUse name.now result (F.disk files.old) (F.disk files.new) }
{
    match open(files, name) {
        Ok(mut file) => {
            let read = file.read_program(alloc);
            files.close(file);
            read
        }
        Err(fault) => Err(ProgramInputFault::File(fault)),
    }
}

/// An opened reader, or an empty input.
pub enum Input<R> {
    Opened(R),
    Nothing,
}

impl<R: CountedRead> Read for Input<R> {
    ghost use Rattle.named_files.specs.Files.{input_reader};

    ghost remaining = { λ input. (input_reader R.reader input).left };

    #[inline]
    fn read(&mut self, buf: &mut [u8]) -> io::Result<usize>
        ensures bound { ReadsAtMost result buf.new }
        ensures bytes { ReadConsumes (input_reader R.reader self.old).left (input_reader R.reader self.new).left result buf.new }
        ensures failures { CountsFailure result (input_reader R.reader self.old).failed (input_reader R.reader self.new).failed }
    {
        match self {
            Input::Opened(reader) => reader.read_counted(buf),
            Input::Nothing => Ok(0),
        }
    }
}

impl<R: CountedRead> CountedRead for Input<R> {
    ghost use Rattle.named_files.specs.Files.{input_reader};

    ghost reader = { input_reader R.reader };

    ghost same = { λ input. refl };

    #[inline]
    fn read_counted(&mut self, buf: &mut [u8]) -> io::Result<usize> {
        self.read(buf)
    }

    #[inline(always)]
    fn read_content(&mut self, content: &mut ArrayVec<u8, MAX_CONTENT_LENGTH>) -> Stop {
        match self {
            Input::Opened(reader) => reader.read_content(content),
            Input::Nothing => {
                content.clear();
                Stop::EndOfInput
            }
        }
    }
}

//! Files in memory.
ghost use Rattle.std.specs.Prelude.{◌≡◌, ◌≢◌, ℕ, List, [], Err, IfErr, IfOk, IfSome, MatchOption, Some};
ghost use Rattle.std.specs.IoError.{error_kind};
ghost use Rattle.named_files.specs.County.{path_of};
ghost use Rattle.named_files.specs.Files.{CountsOpen, KeepsCounts};
ghost use Rattle.command_tests.specs.Memory.{bytes_named, read_counts};

use arrayvec::ArrayString;
use counted_io::count_one;
use fixtures::{FaultPlan, Reader, TableFault, error_kind, reader, size};
use named_files::{FileName, Files, OpenFile, name_end};
use std::io;
use std::io::ErrorKind;

/// A file in memory.
#[derive(Drop)]
pub struct MemoryFile<'a> {
    pub name: &'a str,
    pub bytes: Vec<u8>,
    pub access: Access,
}

/// How a file is opened and read.
#[derive(Clone, Copy)]
pub enum Access {
    /// Nothing fails.
    Sound,
    /// Nothing fails, and this number of reads doesn't reach the end.
    Partial(usize),
    /// A read fails as the device says.
    Failing(FaultPlan),
    /// The open fails.
    Closed(ErrorKind),
}

impl Access {
    /// Parses what is special about a file: `closed denied` if it can't be opened, `call 3 pipe` if a read fails, or `reads 3` if it isn't read to
    /// its end.
    pub fn new(text: &str) -> Result<Self, TableFault> {
        match text.split_once(' ') {
            Some(("closed", kind)) => Ok(Access::Closed(error_kind(kind)?)),
            Some(("reads", count)) => Ok(Access::Partial(size(count)?)),
            _ => Ok(Access::Failing(failing_call(text)?)),
        }
    }
}

/// Parses which call of a reader or writer fails, and how: `call 3 pipe`.
pub fn failing_call(text: &str) -> Result<FaultPlan, TableFault> {
    if text.starts_with("call ") {
        failing(text)
    } else {
        Err(TableFault::Word)
    }
}

/// Parses how calls of a reader or writer fail: a `FaultPlan`'s text that ends with a kind of error or with `nothing`.
pub fn failing(text: &str) -> Result<FaultPlan, TableFault> {
    let kind = text.rsplit(' ').next().unwrap_or("");
    if kind != "nothing" {
        error_kind(kind)?;
    }
    FaultPlan::new(text)
}

/// Files in memory with distinct names, one of which may be given another access. No other file exists. The bytes of each file are known, and a file
/// that doesn't exist has none.
#[derive(Drop)]
pub struct MemoryFiles<'a> {
    pub files: &'a [MemoryFile<'a>],
    pub name: &'a str,
    pub access: Access,
    pub failed_opens: u64,
    /// The number of closed readers with a failed read, of the file `name`.
    pub failed_reads: u64,
    /// The same, of all other files.
    pub other_failed_reads: u64,
    /// The names that were requested to be opened, each followed by a blank.
    pub opened: ArrayString<128>,
}

impl<'a> MemoryFiles<'a> {
    /// Opens a file. The error is `NotFound` only if there is no such file. Counts nothing.
    fn open_file(&mut self, name: &str) -> io::Result<Reader<'a>>
        ensures known { IfOk result (λ reader. reader.inner.inner.inner.inner.now ≡ bytes_named self.old.files.now name.now) }
        ensures unread { IfOk result (λ reader. reader.failed_reads ≡ 0) }
        ensures missing { IfErr result (λ error. error_kind error ≡ ErrorKind.NotFound → bytes_named self.old.files.now name.now ≡ []) }
        ensures files { self.new.files ≡ self.old.files }
        ensures opens { self.new.failed_opens ≡ self.old.failed_opens }
        ensures reads { KeepsCounts (read_counts self.old) (read_counts self.new) }
    {
        let _ = self.opened.try_push_str(name);
        let _ = self.opened.try_push_str(" ");
        let Some(file) = file_named(self.files, name) else {
            return Err(io::Error::from(ErrorKind::NotFound));
        };
        let access = if name == self.name {
            self.access
        } else {
            file.access
        };
        match access {
            Access::Sound | Access::Partial(_) => Ok(reader(&file.bytes, FaultPlan::sound())),
            Access::Failing(plan) => Ok(reader(&file.bytes, plan)),
            Access::Closed(ErrorKind::NotFound) => Err(io::Error::from(ErrorKind::Other)),
            Access::Closed(kind) => Err(io::Error::from(kind)),
        }
    }

    fn count_open(&mut self, error: io::Error)
        ensures opens { CountsOpen {R = ℕ} (Err error) self.old.failed_opens self.new.failed_opens }
        ensures reads { KeepsCounts (read_counts self.old) (read_counts self.new) }
        ensures files { self.new.files ≡ self.old.files }
    {
        if error.kind() != ErrorKind::OutOfMemory {
            count_one(&mut self.failed_opens);
        }
    }

    /// Counts a failed read of the file of this name. If the name is longer than 128 bytes, changes both counts.
    fn count_read(&mut self, name: FileName<'_>)
        ensures reads { read_counts self.new (path_of name.entry) ≢ read_counts self.old (path_of name.entry) }
        ensures opens { self.new.failed_opens ≡ self.old.failed_opens }
        ensures files { self.new.files ≡ self.old.files }
    {
        match path(name) {
            Some(path) if self.name == path.as_str() => count_one(&mut self.failed_reads),
            Some(_) => count_one(&mut self.other_failed_reads),
            None => {
                count_one(&mut self.failed_reads);
                count_one(&mut self.other_failed_reads);
            }
        }
    }
}

/// Returns the path of a file of this name, unless it is longer than 128 bytes.
fn path(name: FileName<'_>) -> Option<ArrayString<128>>
    ensures { IfSome result (λ path. path.bytes ≡ path_of name.entry) }
{
    let mut path = ArrayString::new();
    match name {
        FileName::Path(text) => path.try_push_str(text).ok()?,
        FileName::OfCounty { folder, code, file } => {
            path.try_push_str(folder).ok()?;
            path.try_push_str("/TGR").ok()?;
            path.try_push_str(code).ok()?;
            path.try_push_str(name_end(file)).ok()?;
        }
    }
    Some(path)
}

impl<'a> Files for MemoryFiles<'a> {
    ghost use Rattle.command_tests.specs.Memory.{read_counts};
    ghost use Rattle.named_files.specs.County.{path_of};
    ghost use Rattle.named_files.specs.Files.{CountsClose};

    type Reader = Reader<'a>;

    ghost disk = { λ files. record {
      known = λ name. Some (bytes_named files.files.now name);
      failed_opens = files.failed_opens;
      failed_reads = read_counts files;
    } };

    fn open(&mut self, name: &str) -> io::Result<Reader<'a>> {
        match self.open_file(name) {
            Ok(reader) => Ok(reader),
            Err(error) => {
                self.count_open(error);
                Err(error)
            }
        }
    }

    fn open_optional(&mut self, name: &str) -> io::Result<Option<Reader<'a>>> {
        match self.open_file(name) {
            Ok(reader) => Ok(Some(reader)),
            Err(error) if error.kind() == ErrorKind::NotFound => Ok(None),
            Err(error) => {
                self.count_open(error);
                Err(error)
            }
        }
    }

    fn close(&mut self, file: OpenFile<'_, Reader<'a>>)
        ensures stay { (other : List ℕ) → Some (bytes_named self.new.files.now other) ≡ Some (bytes_named self.old.files.now other) }
        ensures opens { self.new.failed_opens ≡ self.old.failed_opens }
        ensures reads { CountsClose (path_of file.entry.name) file.entry.reader.failed_reads (read_counts self.old) (read_counts self.new) }
    {
        let (name, reader) = file.into_parts();
        if reader.failed_reads() != 0 {
            self.count_read(name);
        }
    }
}

/// Returns the file with this name, if there is one.
pub fn file_named<'a>(files: &'a [MemoryFile<'a>], name: &str) -> Option<&'a MemoryFile<'a>>
    ensures { MatchOption result (bytes_named files.now name.now ≡ []) (λ file. bytes_named files.now name.now ≡ file.now.bytes.items) }
{
    for file in files {
        if file.name == name {
            return Some(file);
        }
    }
    None
}

//! Commands over files in memory, as rows of tables.
use super::files::{Access, MemoryFile, MemoryFiles, failing_call, file_named};
use arrayvec::ArrayString;
use command_line::{command, read_request};
use commands::Request;
use fixtures::{FaultPlan, Refusing, TableFault, Writer, bytes, number, taken, writer};
use std::alloc::{AllocError, Global};

/// A row: a command line, the output, the status, the text on standard error, and then the files with their names. No other file exists.
///
/// After `>` come the names that the command opens, in order, if they are given. After `!` comes what is special about the output or a file: the
/// call that fails, or another `Access`.
#[derive(Clone, Copy)]
pub struct Row<'a> {
    pub line: &'a str,
    pub names: Option<&'a str>,
    pub written: &'a str,
    pub out: Option<FaultPlan>,
    pub status: u8,
    pub expected: &'a str,
    pub files: Option<&'a str>,
}

/// A row with its bytes.
#[derive(Drop)]
pub struct Case<'a> {
    pub row: Row<'a>,
    pub written: Vec<u8>,
    pub expected: Vec<u8>,
    pub files: Vec<MemoryFile<'a>>,
}

// Splits a command line into words with the unit separator. In a word, `_` is a blank and `~` an underscore, and `''` is an empty word.
const SEPARATORS: [(&str, &str); 4] = [("''", ""), (" ", "\x1f"), ("_", " "), ("~", "_")];

/// The ways in which the named file, the output and standard error fail, if they do.
#[derive(Clone, Copy)]
pub struct Faults<'a> {
    pub name: &'a str,
    pub access: Access,
    pub out: FaultPlan,
    pub errors: FaultPlan,
}

/// How a command ended.
#[derive(Drop)]
pub struct Ending {
    pub status: u8,
    pub out: Writer,
    pub errors: Writer,
    /// The names that were requested to be opened, each followed by a blank.
    pub opened: ArrayString<128>,
}

impl<'a> Row<'a> {
    /// Splits a row into its first four cells and its files.
    pub fn new(row: &'a str) -> Result<Self, TableFault> {
        let (line, row) = row.split_once(';').ok_or(TableFault::Cells)?;
        let (written, row) = row.split_once(';').ok_or(TableFault::Cells)?;
        let (status, row) = row.split_once(';').ok_or(TableFault::Cells)?;
        let (expected, files) = match row.split_once(';') {
            Some((expected, files)) => (expected, Some(files)),
            None => (row, None),
        };
        let (line, names) = parts(line, '>')?;
        let (written, out) = parts(written, '!')?;
        Ok(Row {
            line,
            names,
            written,
            out: out.map(failing_call).transpose()?,
            status: status_of(status.trim())?,
            expected: expected.trim(),
            files,
        })
    }
}

impl<'a> Case<'a> {
    pub fn new(alloc: Global, row: &'a str) -> Result<Self, TableFault> {
        let row = Row::new(row)?;
        let written = bytes(alloc, row.written)?;
        let expected = line_of(alloc, row.expected)?;
        Ok(Case {
            row,
            written,
            expected,
            files: files_of(alloc, row)?,
        })
    }

    /// Returns the faults given in the row itself.
    pub fn faults(&self) -> Faults<'a> {
        let faults = Faults::none();
        Faults {
            out: self.row.out.unwrap_or(faults.out),
            ..faults
        }
    }

    /// Runs the command to its end, its request in this memory, or all of it in the system's if there is none.
    pub fn ended(
        &self,
        alloc: Global,
        heap: Option<&Refusing<Global>>,
        faults: Faults<'_>,
    ) -> Result<Ending, TableFault> {
        ended(alloc, heap, self.row.line, &self.files, faults)
    }

    /// Returns whether an ending is as the row says.
    pub fn is_ended(&self, ending: &Ending) -> bool {
        let are_named = match self.row.names {
            Some(names) => names == ending.opened.as_str().trim(),
            None => true,
        };
        ending.is_with(self.row.status, &self.written)
            && taken(&ending.errors) == self.expected.as_slice()
            && are_named
    }

    /// Returns the row's command line.
    pub fn line(&self) -> &'a str {
        self.row.line
    }
}

impl Faults<'_> {
    pub fn none() -> Self {
        Faults {
            name: "",
            access: Access::Sound,
            out: FaultPlan::sound(),
            errors: FaultPlan::sound(),
        }
    }
}

impl Ending {
    /// Returns whether the status is this one, these bytes are written, and they are flushed unless the status is 2.
    pub fn is_with(&self, status: u8, written: &[u8]) -> bool {
        self.status == status
            && taken(&self.out) == written
            && (self.out.flushes() > 0) == (self.status != 2)
    }

    /// Returns the line on standard error, without its end of line.
    pub fn expected(&self) -> &str {
        let expected = str::from_utf8(taken(&self.errors)).unwrap_or("");
        expected.strip_suffix("\n").unwrap_or("")
    }
}

/// Runs a command line over these files to its end, its request in this memory, or all of it in the system's if there is none.
pub fn ended(
    alloc: Global,
    heap: Option<&Refusing<Global>>,
    line: &str,
    files: &[MemoryFile<'_>],
    faults: Faults<'_>,
) -> Result<Ending, TableFault> {
    let line = separated(alloc, line)?;
    let words: Vec<&str> = line.split('\x1f').skip(1).collect(alloc)?;
    let mut files = MemoryFiles {
        files,
        name: faults.name,
        access: faults.access,
        failed_opens: 0,
        failed_reads: 0,
        other_failed_reads: 0,
        opened: ArrayString::new(),
    };
    let mut out = writer(alloc, faults.out);
    let mut errors = writer(alloc, faults.errors);
    let status = match heap {
        Some(heap) => answer(alloc, heap, &words, &mut files, &mut out, &mut errors),
        None => command(alloc, &words, &mut files, &mut out, &mut errors),
    };
    Ok(Ending {
        status,
        out,
        errors,
        opened: files.opened,
    })
}

/// Carries out the request of a command line in this memory, and returns the status. The arguments themselves are read in the memory of the system.
fn answer(
    alloc: Global,
    heap: &Refusing<Global>,
    words: &[&str],
    files: &mut MemoryFiles<'_>,
    out: &mut Writer,
    errors: &mut Writer,
) -> u8 {
    match read_request(alloc, words) {
        Ok(request) => Request::answer(request, heap, files, out, errors),
        Err(fault) => {
            fault.report(errors);
            fault.status()
        }
    }
}

/// Puts separators between the words of a command line, the first of which is the program's name. `\n`, `\r`, `\t` and `\x7f` in a word are escapes,
/// as in Rust.
fn separated(alloc: Global, line: &str) -> Result<String, TableFault> {
    if line.split(' ').next() != Some("extractd") || line.contains("  ") {
        return Err(TableFault::Word);
    }
    let line = bytes(alloc, &filled(alloc, line, &SEPARATORS)?)?;
    Ok(String::from_utf8_lossy(alloc, &line)?)
}

/// Replaces each word in a template with its text, one word after the other.
pub fn filled(alloc: Global, template: &str, texts: &[(&str, &str)]) -> Result<String, AllocError> {
    let mut filled = String::from_str(alloc, template)?;
    for (word, text) in texts {
        filled = filled.replace(alloc, *word, text)?;
    }
    Ok(filled)
}

/// Returns the status in a cell, which is 0 to 4.
pub fn status_of(cell: &str) -> Result<u8, TableFault> {
    match number(cell)? {
        status @ 0..=4 => Ok(status as u8),
        _ => Err(TableFault::Number),
    }
}

/// Returns the parts of a cell before and after a sign, if it has the sign. Something must follow the sign.
fn parts(cell: &str, sign: char) -> Result<(&str, Option<&str>), TableFault> {
    match cell.split_once(sign) {
        None => Ok((cell.trim(), None)),
        Some((_, after)) if after.trim().is_empty() => Err(TableFault::Word),
        Some((before, after)) => Ok((before.trim(), Some(after.trim()))),
    }
}

/// Returns a text as a line, or nothing if it is empty.
fn line_of(alloc: Global, text: &str) -> Result<Vec<u8>, TableFault> {
    let mut line = bytes(alloc, text)?;
    if !line.is_empty() {
        line.push(b'\n')?;
    }
    Ok(line)
}

/// Returns the files that a row describes, which have distinct names.
fn files_of<'a>(alloc: Global, row: Row<'a>) -> Result<Vec<MemoryFile<'a>>, TableFault> {
    let mut files = Vec::new(alloc);
    let Some(cells) = row.files else {
        return Ok(files);
    };
    for cell in cells.split(';') {
        let file = file_of(alloc, row.line, cell)?;
        if file_named(&files, file.name).is_some() {
            return Err(TableFault::Word);
        }
        files.push(file)?;
    }
    Ok(files)
}

/// Returns the file that a cell describes, if this command line can open it.
fn file_of<'a>(alloc: Global, line: &str, cell: &'a str) -> Result<MemoryFile<'a>, TableFault> {
    let (name, content) = cell.split_once(':').ok_or(TableFault::Cells)?;
    let name = name.trim();
    if !can_open(line, name) {
        return Err(TableFault::Word);
    }
    let (content, access) = parts(content, '!')?;
    Ok(MemoryFile {
        name,
        access: access.map_or(Ok(Access::Sound), Access::new)?,
        bytes: bytes(alloc, content)?,
    })
}

/// Returns whether a command line can open a file with this name: one of its words, or a file of one of its counties.
fn can_open(line: &str, name: &str) -> bool {
    let county = name
        .strip_prefix("d/TGR")
        .and_then(|file| file.split_once(".RT"));
    match county {
        Some((code, kind)) => has_word(line, code) && matches!(kind, "1" | "2" | "4" | "5" | "6"),
        None => has_word(line, name),
    }
}

fn has_word(line: &str, word: &str) -> bool {
    line.split(' ').any(|found| found == word)
}

//! Why a filter has no program, and what is reported of it.
//!
//! The command line and HTTP show the same lines. The first line is the refusal, which scripts read; the second one is for people, with what was
//! expected, a hint for habits from other query languages, or the nearest column. A filter in JSON is compiled through its text, which nobody sees,
//! so a refused value has a JSON pointer instead of a line and a column. The pointer may be long, so a failure's text isn't one array but pieces that
//! borrow from it: `pieces` serves a command, which writes without allocating, and `text` joins them for a reply.
//!
//! Always: the number and the class are those of the refusal, with or without a pointer, and exactly one of position and pointer is shown. The note
//! never decides anything: it is made after the refusal, from the text.
ghost use Rattle.std.specs.Prelude.{◌≡◌, IfOk};
ghost use Rattle.std.specs.List.{flat_map};
ghost use Rattle.cql2_text.specs.FilterFaultKind as filter_flaw;
ghost use Rattle.refusals.specs.Refusal as refusal;
ghost use Rattle.filters.specs.Failure.{IsOfCompile, IsOfFilter, IsOfJson, IsOfJsonProgram};
ghost use Rattle.filters.specs.Failure.{failure_text, json_flaw, noted_text, pointed_line, refusal_of, value_flaw};
ghost use Rattle.filters.specs.declared.failure.FilterFailure.TheVariants.{Memory};

use arrayvec::ArrayString;
use cql2_code::CompileFault;
use cql2_json::{JsonFault, JsonFlaw, ValueFlaw};
use cql2_text::{Construct, FilterFault, FilterFaultKind};
use refusals::{Class, Fault, Refusal};
use std::alloc::{AllocError, AllocFailed, Allocator, Global};
use std::fmt::Write;

/// Why a filter has no program.
#[derive(Drop)]
pub enum FilterFailure {
    /// The filter is refused at a character, or its program is too long. The note gives more detail for people.
    Noted {
        refusal: Refusal,
        note: ArrayString<128>,
    },
    /// A filter in JSON is refused at the value that the pointer (RFC 6901) leads to. The note gives more detail for people.
    Pointed {
        flaw: FilterFaultKind,
        pointer: Vec<u8>,
        note: ArrayString<128>,
    },
    /// An allocation fails.
    Memory,
}

/// The number of pieces that a failure's text has.
pub const PIECE_COUNT: usize = 8;

impl FilterFailure {
    /// Returns the failure for a text that isn't a filter.
    pub(crate) fn of_filter(text: &[u8], fault: FilterFault) -> Self
        ensures { IsOfFilter fault result }
    {
        match fault {
            FilterFault::Memory => FilterFailure::Memory,
            fault => FilterFailure::Noted {
                refusal: fault.refusal(),
                note: filter_note(text, fault),
            },
        }
    }

    /// Returns the failure for a filter in text that can't be compiled.
    pub(crate) fn of_compile(fault: CompileFault) -> Self
        ensures { IsOfCompile fault result }
    {
        match fault {
            CompileFault::Memory => FilterFailure::Memory,
            fault => FilterFailure::Noted {
                refusal: fault.refusal(),
                note: compile_note(fault),
            },
        }
    }

    /// Returns the failure for JSON that has no text.
    pub(crate) fn of_json(fault: JsonFault<Global>) -> Self
        ensures { IsOfJson fault result }
    {
        match fault {
            JsonFault::Json { line, column, flaw } => FilterFailure::Noted {
                refusal: json_flaw(flaw).refusal().at_character(line, column),
                note: json_note(flaw),
            },
            JsonFault::Value { pointer, flaw } => FilterFailure::Pointed {
                flaw: value_flaw(flaw),
                pointer,
                note: value_note(flaw),
            },
            JsonFault::Memory => FilterFailure::Memory,
        }
    }

    /// Returns the failure for a filter in JSON that can't be compiled.
    pub(crate) fn of_json_program(alloc: Global, fault: CompileFault) -> Self
        ensures { IsOfJsonProgram fault result }
    {
        match fault {
            CompileFault::Memory => FilterFailure::Memory,
            CompileFault::TooLong => FilterFailure::Pointed {
                flaw: FilterFaultKind::TooLong,
                pointer: Vec::new(alloc),
                note: compile_note(fault),
            },
        }
    }

    /// Returns the class of the refusal.
    pub fn class(&self) -> Class
        ensures { result ≡ (refusal_of self.now).class }
    {
        match self {
            FilterFailure::Noted { refusal, .. } => refusal.class(),
            FilterFailure::Pointed { flaw, .. } => flaw.refusal().class(),
            FilterFailure::Memory => Class::Memory,
        }
    }

    /// Returns the number of the refusal, or `None` if an allocation failed.
    pub fn number(&self) -> Option<u8>
        ensures { result ≡ (refusal_of self.now).number }
    {
        match self {
            FilterFailure::Noted { refusal, .. } => refusal.number(),
            FilterFailure::Pointed { flaw, .. } => flaw.refusal().number(),
            FilterFailure::Memory => None,
        }
    }

    /// Returns the refusal's line, without a line end and without the pointer to a value.
    pub fn line(&self) -> ArrayString<64>
        ensures { result.bytes ≡ refusal.line (refusal_of self.now) }
    {
        match self {
            FilterFailure::Noted { refusal, .. } => refusal.line(),
            FilterFailure::Pointed { flaw, .. } => flaw.refusal().line(),
            FilterFailure::Memory => Refusal::memory().line(),
        }
    }

    /// Returns what a command reports: the refusal's line, with the pointer to a value as its position, and the note on a second line.
    pub fn text<A: Allocator>(&self, alloc: A) -> Result<Vec<u8, A>, AllocError>
        ensures { IfOk result (λ text. text.items ≡ failure_text self.now) }
    {
        let line = self.line();
        concat(alloc, &self.pieces(line.as_bytes()))
    }

    /// Returns the pieces of [`FilterFailure::text`], in order, some of them empty. `line` is [`FilterFailure::line`].
    pub fn pieces<'p>(&'p self, line: &'p [u8]) -> [&'p [u8]; PIECE_COUNT]
        requires { line.now ≡ refusal.line (refusal_of self.now) }
        ensures { flat_map (λ piece. piece.now) result ≡ failure_text self.now }
    {
        match self {
            FilterFailure::Noted { note, .. } => noted_pieces(line, note.as_bytes()),
            FilterFailure::Pointed {
                flaw,
                pointer,
                note,
            } => pointed_pieces(line, *flaw, pointer.as_slice(), note.as_bytes()),
            FilterFailure::Memory => [line, b"\n", b"", b"", b"", b"", b"", b""],
        }
    }
}

impl From<AllocError> for FilterFailure {
    ghost from_gives = { λ _ failure. failure ≡ Memory };

    fn from(_error: AllocError) -> Self {
        FilterFailure::Memory
    }
}

impl<T: Drop> From<AllocFailed<T>> for FilterFailure {
    ghost from_gives = { λ _ failure. failure ≡ Memory };

    fn from(_error: AllocFailed<T>) -> Self {
        FilterFailure::Memory
    }
}

/// Appends pieces to each other.
fn concat<A: Allocator>(alloc: A, pieces: &[&[u8]]) -> Result<Vec<u8, A>, AllocError>
    ensures { IfOk result (λ text. text.items ≡ flat_map (λ piece. piece.now) pieces.now) }
{
    let mut text = Vec::new(alloc);
    for piece in pieces {
        text.extend_from_slice(piece)?;
    }
    Ok(text)
}

/// Returns the pieces of a line and a note.
fn noted_pieces<'p>(line: &'p [u8], note: &'p [u8]) -> [&'p [u8]; PIECE_COUNT]
    ensures { flat_map (λ piece. piece.now) result ≡ noted_text line.now note.now }
{
    [line, b"\n", note, b"\n", b"", b"", b"", b""]
}

/// Where the name begins in the line of a refusal with a number of two digits, as those of filters have.
const NAME_OFFSET: usize = 11;

/// Returns the pieces of a flaw's line, with the pointer before its name, and of a note.
fn pointed_pieces<'p>(
    line: &'p [u8],
    flaw: FilterFaultKind,
    pointer: &'p [u8],
    note: &'p [u8],
) -> [&'p [u8]; PIECE_COUNT]
    requires { line.now ≡ refusal.line (filter_flaw.refusal flaw) }
    ensures { flat_map (λ piece. piece.now) result ≡ noted_text (pointed_line pointer.now (filter_flaw.refusal flaw)) note.now }
{
    // The empty pointer is the whole value, which needs no position.
    if pointer.is_empty() {
        return noted_pieces(line, note);
    }
    [
        &line[..NAME_OFFSET],
        b"pointer ",
        pointer,
        b" ",
        &line[NAME_OFFSET..],
        b"\n",
        note,
        b"\n",
    ]
}

/// Says what is wrong with a filter's text, and what to write instead if that is likely: a hint, or the name of a column that is near.
pub(crate) fn filter_note(text: &[u8], fault: FilterFault) -> ArrayString<128> {
    let mut note = match fault {
        FilterFault::At { flaw, .. } => flaw_note(flaw),
        FilterFault::Memory => ArrayString::new(),
    };
    if let Some(hint) = fault.hint(text) {
        let _ = write!(note, ": {hint}");
    } else if let Some(name) = fault.nearest_column(text) {
        let _ = write!(note, ", and the nearest is {name}");
    }
    note
}

/// Says what is wrong with a filter's text.
pub(crate) fn flaw_note(flaw: FilterFaultKind) -> ArrayString<128> {
    let mut note = ArrayString::new();
    let _ = write!(note, "{flaw}");
    note
}

/// Returns the kind of a flaw of a text that isn't JSON.
fn json_flaw(flaw: JsonFlaw) -> FilterFaultKind
    ensures { result ≡ json_flaw flaw }
{
    match flaw {
        JsonFlaw::Utf8 => FilterFaultKind::Syntax(Construct::Utf8),
        JsonFlaw::Syntax => FilterFaultKind::Syntax(Construct::Predicate),
        JsonFlaw::TooLong => FilterFaultKind::TooLong,
    }
}

/// Returns the kind of a flaw of a value that has no text.
fn value_flaw(flaw: ValueFlaw) -> FilterFaultKind
    ensures { result ≡ value_flaw flaw }
{
    match flaw {
        ValueFlaw::Expected(_expected) => FilterFaultKind::Syntax(Construct::Predicate),
        ValueFlaw::TooLong => FilterFaultKind::TooLong,
    }
}

/// Says what is wrong with a text that isn't JSON.
fn json_note(flaw: JsonFlaw) -> ArrayString<128> {
    let mut note = ArrayString::new();
    let _ = write!(note, "{flaw}");
    note
}

/// Says what is expected in place of a value that has no text.
fn value_note(flaw: ValueFlaw) -> ArrayString<128> {
    let mut note = ArrayString::new();
    let _ = write!(note, "{flaw}");
    note
}

/// Says why a filter can't be compiled.
fn compile_note(fault: CompileFault) -> ArrayString<128> {
    let mut note = ArrayString::new();
    let _ = write!(note, "{fault}");
    note
}

//! Refusals, and the only place where their lines of text are composed. Nothing here allocates.
//!
//! A refusal is data, one row for each variant of a fault, and this is the only code that lays its line out. So no fault has a text of its own that
//! could differ, and a contract about a line is one about its row.
//!
//! The class is in the row and isn't computed from the number: exit statuses and HTTP statuses follow from the class, and every proof that a refusal
//! isn't one of I/O would have to go through all numbers. A failed allocation has no number, as it says nothing about the input. Numbers are made
//! where their faults are.
//!
//! Always: a line has at most 64 bytes, in an `ArrayString`, so that running out of memory can be reported. Its form, `refused NUMBER POSITION
//! NAME(DETAIL)`, is read by scripts.
ghost use Rattle.std.specs.Prelude.{◌≡◌, ◌++◌, ◌+◌, ◌≤◌, codes, decimal, length};
ghost use Rattle.refusals.specs.Refusal as refusal;
ghost use Rattle.refusals.specs.Refusal.{detail_text, number_text};

use arrayvec::ArrayString;
use itoa::Buffer;
use std::marker::Model;

/// The cause of a refusal.
#[derive(Clone, Copy)]
pub enum Class {
    /// The input has a fault.
    Refused,
    /// A read or a write failed.
    Io,
    /// An allocation failed.
    Memory,
}

/// The position of a fault.
#[derive(Clone, Copy)]
pub enum Position {
    /// The input as a whole.
    Whole,
    /// A word of a program, by its index, counted from 0.
    Place(usize),
    /// A line of a text, counted from 1.
    Line(usize),
    /// A character of a text: its line, and its position in the line, both counted from 1.
    Character { line: u32, column: u32 },
    /// A line of the county's file of a record type (TIGER/Line 2006), counted from 1.
    FileLine { record_type: u8, line: u64 },
}

/// A refusal. Contracts see it as a record of its parts.
#[derive(Drop)]
pub struct Refusal {
    // Not computed from the number, for which proofs about I/O would have to go through all numbers.
    class: Class,
    number: Option<u8>,
    name: &'static str,
    detail: Option<u8>,
    position: Position,
}

impl Model for Refusal {
    ghost use Rattle.std.specs.Prelude.{◌≤◌, length};
    ghost use Rattle.refusals.specs.Refusal.{RefusalParts};

    ghost Value = { RefusalParts };

    ghost view = { λ r. record { class = r.class; number = r.number; name = r.name.now; detail = r.detail; position = r.position } };

    ghost invariant = { λ r. length r.name.now ≤ 18 };
}

impl Refusal {
    /// Returns a refusal of the input.
    pub fn refused(number: u8, name: &'static str) -> Refusal
        requires { length name.now ≤ 18 }
        ensures { result ≡ refusal.refused number name.now }
    {
        Refusal {
            class: Class::Refused,
            number: Some(number),
            name,
            detail: None,
            position: Position::Whole,
        }
    }

    /// Returns a refusal of the input. The detail, which follows the name in parentheses, is the number of a register, an argument or another
    /// refusal.
    pub fn detailed(number: u8, name: &'static str, detail: Option<u8>) -> Refusal
        requires { length name.now ≤ 18 }
        ensures { result ≡ refusal.detailed number name.now detail }
    {
        Refusal {
            detail,
            ..Refusal::refused(number, name)
        }
    }

    /// Returns the refusal for a failed read or write.
    pub fn io(number: u8, name: &'static str) -> Refusal
        requires { length name.now ≤ 18 }
        ensures { result ≡ refusal.io number name.now }
    {
        Refusal {
            class: Class::Io,
            ..Refusal::refused(number, name)
        }
    }

    /// Returns the refusal for a failed allocation, which has no number.
    pub fn memory() -> Refusal
        ensures { result ≡ refusal.memory }
    {
        Refusal {
            class: Class::Memory,
            // It says nothing about the input.
            number: None,
            name: "memory",
            detail: None,
            position: Position::Whole,
        }
    }

    /// Returns the refusal at a word of a program, counted from 0.
    pub fn at_place(self, place: usize) -> Refusal
        ensures { result ≡ refusal.at_place place self }
    {
        Refusal {
            position: Position::Place(place),
            ..self
        }
    }

    /// Returns the refusal at a line of a text, counted from 1.
    pub fn at_line(self, line: usize) -> Refusal
        ensures { result ≡ refusal.at_line line self }
    {
        Refusal {
            position: Position::Line(line),
            ..self
        }
    }

    /// Returns the refusal at a character of a text, whose line and position in the line are counted from 1. Its text has no detail.
    pub fn at_character(self, line: u32, column: u32) -> Refusal
        ensures { result ≡ refusal.at_character line column self }
    {
        Refusal {
            position: Position::Character { line, column },
            ..self
        }
    }

    /// Returns the refusal at a line of a county's file, counted from 1.
    pub fn at_file_line(self, record_type: u8, line: u64) -> Refusal
        ensures { result ≡ refusal.at_file_line record_type line self }
    {
        Refusal {
            position: Position::FileLine { record_type, line },
            ..self
        }
    }

    pub fn class(&self) -> Class
        ensures { result ≡ self.now.class }
    {
        self.class
    }

    /// Returns the number, or `None` if an allocation failed.
    pub fn number(&self) -> Option<u8>
        ensures { result ≡ self.now.number }
    {
        self.number
    }

    /// Returns the line of text, like `refused 40 place 0 ReadsNothing(0)`, without a line end.
    pub fn line(&self) -> ArrayString<64>
        ensures { result.bytes ≡ refusal.line self.now }
    {
        let mut line = ArrayString::new();
        line.push_str("refused ");
        line.push_str(number_text(self.number).as_str());
        match self.position {
            Position::Whole => self.push_name(&mut line),
            Position::Place(place) => {
                push_numbered_unit(&mut line, "place", place as u64);
                self.push_name(&mut line);
            }
            Position::Line(at) => {
                push_numbered_unit(&mut line, "line", at as u64);
                self.push_name(&mut line);
            }
            Position::Character { line: at, column } => {
                push_character(&mut line, at, column);
                line.push_str(self.name);
            }
            Position::FileLine {
                record_type,
                line: at,
            } => {
                line.push_str("rt");
                line.push_str(Buffer::new().format(record_type));
                push_numbered_unit(&mut line, " line", at);
                line.push_str(self.name);
            }
        }
        line
    }

    fn push_name(&self, line: &mut ArrayString<64>)
        requires { length line.old.bytes ≤ 41 }
        ensures { line.new.bytes ≡ line.old.bytes ++ (self.now.name ++ detail_text self.now.detail) }
    {
        line.push_str(self.name);
        if let Some(detail) = self.detail {
            line.push_str("(");
            line.push_str(Buffer::new().format(detail));
            line.push_str(")");
        }
    }
}

fn number_text(number: Option<u8>) -> ArrayString<4>
    ensures { result.bytes ≡ number_text number }
{
    let mut text = ArrayString::new();
    if let Some(number) = number {
        text.push_str(Buffer::new().format(number));
        text.push_str(" ");
    }
    text
}

/// Pushes a unit, like `place`, and its number.
fn push_numbered_unit(line: &mut ArrayString<64>, unit: &str, at: u64)
    requires { length line.old.bytes + length unit.now ≤ 42 }
    ensures value { line.new.bytes ≡ line.old.bytes ++ (unit.now ++ codes " " ++ decimal at ++ codes " ") }
    ensures short { length line.new.bytes ≤ length line.old.bytes + length unit.now + 22 }
{
    line.push_str(unit);
    line.push_str(" ");
    line.push_str(Buffer::new().format(at));
    line.push_str(" ");
}

/// Pushes the position of a character.
fn push_character(line: &mut ArrayString<64>, at: u32, column: u32)
    requires { length line.old.bytes ≤ 12 }
    ensures value { line.new.bytes ≡ line.old.bytes ++ (codes "line " ++ decimal at ++ codes " column " ++ decimal column ++ codes " ") }
    ensures short { length line.new.bytes ≤ length line.old.bytes + 34 }
{
    line.push_str("line ");
    line.push_str(Buffer::new().format(at));
    line.push_str(" column ");
    line.push_str(Buffer::new().format(column));
    line.push_str(" ");
}

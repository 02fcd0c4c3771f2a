//! The assembler: text to code in two passes, the first of which finds the places of labels.
//!
//! Two, as a jump may name a label further down; the second fills in the distances. So every fault within a line comes before those that need all
//! labels, 23 UnknownLabel and 25 LabelTooFar, wherever the lines are. Changing this changes which fault of a text is its first, which the contract
//! of `assemble` states.
//!
//! One line is one instruction, and no jump is replaced by a longer one: the places in a refusal, a listing or a file of source lines are those that
//! the author counts. The labels are in an ordered map, since strangers choose them and could attack an unseeded hash.
//!
//! Always: the words of the items so far fit the limit, so the second pass can only run out of memory or find a label missing or too far.
ghost use Rattle.std.specs.Prelude.{◌≡◌, ◌≢◌, IsErrAnd, ◌≤◌, ◌+◌, ◌-ℤ◌, ◌⊎◌, ℕ, pos, suc, List, length, Ok, IfOk, IfErr, MatchResult};
ghost use Rattle.bpf_insn.specs.declared.instruction.Insn.{Insn};
ghost use Rattle.bpf_assembler.specs.Statement.{Statement as Meaning, Label, Instruction, statement_in};
ghost use Rattle.bpf_assembler.specs.View.{name_view};
ghost use Rattle.bpf_assembler.specs.Text.{Means, IsFirstFault, at_distance, resolve, code_of, label_place};
ghost use Rattle.bpf_assembler.specs.Notes.{item_view, AreNotesOf, places_in, NotesLine, HasNotes, ReadsNotes, PushesItem};

use crate::fault::{TextFault, TextFaultKind};
use crate::statement::Statement;
use crate::text_lines::first_line;
use bpf_insn::{Code, CodeBuilder, Insn, JumpDistance, MAX_WORDS};
use std::alloc::Allocator;
use std::collections::BTreeMap;

/// An instruction, with the label that it names.
#[derive(Clone, Copy)]
pub(crate) struct Item<'a> {
    /// The line, counted from 1.
    pub line: usize,
    /// The place, in words from 0.
    pub place: u32,
    pub insn: Insn,
    pub target: Option<&'a [u8]>,
}

/// The first pass's notes on the lines so far.
#[derive(Drop)]
struct Notes<'a, A: Allocator> {
    items: Vec<Item<'a>, A>,
    // Strangers choose the labels, and could attack an unseeded hash.
    /// The place of each label.
    labels: BTreeMap<&'a [u8], u32, A>,
    /// The number of words of the instructions.
    words: usize,
}

/// Returns the code that a program text means. Lines end with LF or CR LF, a semicolon begins a comment, and a name with a colon is a label.
pub fn assemble<A: Allocator + Copy>(alloc: A, text: &str) -> Result<Code<A>, TextFault>
    ensures ok { IfOk result (λ code. Means text.now code) }
    ensures err { IfErr result (IsFirstFault text.now) }

    // A text that means a code is refused only if an allocation fails, and means no other code.
    ensures only { (code : List Insn) → Means text.now code → MatchResult result (λ given. given ≡ code) (λ fault. fault ≡ TextFault.Memory) }

    // A text that has a first fault is refused with this fault, or because an allocation fails.
    ensures refused { (fault : TextFault) → IsFirstFault text.now fault → fault ≢ TextFault.Memory
        → IsErrAnd result (λ given. (given ≡ fault) ⊎ (given ≡ TextFault.Memory)) }
{
    assemble_bytes(alloc, text.as_bytes())
}

fn assemble_bytes<A: Allocator + Copy>(alloc: A, text: &[u8]) -> Result<Code<A>, TextFault>
    ensures { MatchResult result (Means text.now) (IsFirstFault text.now) }
{
    let notes = Notes::read(alloc, text)?;
    let builder = notes.code(alloc)?;
    // A text without instructions has no line at fault.
    match builder.finish() {
        Ok(code) => Ok(code),
        Err(_) => Err(TextFault::InLine {
            line: 1,
            flaw: TextFaultKind::NoInstruction,
        }),
    }
}

impl<'a, A: Allocator + Copy> Notes<'a, A> {
    /// Runs the first pass.
    fn read(alloc: A, text: &'a [u8]) -> Result<Notes<'a, A>, TextFault>
        ensures notes { IfOk result (λ notes. HasNotes text.now notes.items.items (places_in notes.labels) notes.words) }
        ensures err { IfErr result (ReadsNotes text.now) }
    {
        let mut notes = Notes {
            items: Vec::new(alloc),
            labels: BTreeMap::new(alloc),
            words: 0,
        };
        let mut rest = text;
        let mut number = 0;
        while !rest.is_empty() {
            let (line, after) = first_line(rest);
            rest = after;
            number += 1;
            notes.add(number, line)?;
        }
        Ok(notes)
    }

    /// Notes the next line.
    fn add(&mut self, number: usize, line: &'a [u8]) -> Result<(), TextFault>
        requires { self.old.words ≤ MAX_WORDS }
        ensures within { self.new.words ≤ MAX_WORDS }
        ensures noted { (before : List Meaning) → AreNotesOf self.old.items.items (places_in self.old.labels) self.old.words before
            → number ≡ suc (length before)
            → NotesLine before (statement_in line.now) number (AreNotesOf self.new.items.items (places_in self.new.labels) self.new.words) result }
    {
        match Statement::read(line) {
            Ok(Statement::Blank) => Ok(()),
            Ok(Statement::Label(name)) => self.add_label(number, name),
            Ok(Statement::Instruction { insn, target }) => {
                self.add_instruction(number, insn, target)
            }
            Err(flaw) => Err(TextFault::InLine { line: number, flaw }),
        }
    }

    fn add_label(&mut self, line: usize, name: &'a [u8]) -> Result<(), TextFault>
        requires { self.old.words ≤ MAX_WORDS }
        ensures within { self.new.words ≤ MAX_WORDS }
        ensures noted { (before : List Meaning) → AreNotesOf self.old.items.items (places_in self.old.labels) self.old.words before → line ≡ suc (length before)
            → NotesLine before (Ok (Label name.now)) line (AreNotesOf self.new.items.items (places_in self.new.labels) self.new.words) result }
    {
        // Before the insertion, which would replace the first label.
        if self.labels.contains_key(&name) {
            return Err(TextFault::InLine {
                line,
                flaw: TextFaultKind::DoubleLabel,
            });
        }
        self.labels.insert(name, self.words as u32)?;
        Ok(())
    }

    fn add_instruction(
        &mut self,
        line: usize,
        insn: Insn,
        target: Option<&'a [u8]>,
    ) -> Result<(), TextFault>
        requires { self.old.words ≤ MAX_WORDS }
        ensures within { self.new.words ≤ MAX_WORDS }
        ensures noted { (before : List Meaning) → AreNotesOf self.old.items.items (places_in self.old.labels) self.old.words before → line ≡ suc (length before)
            → NotesLine before (Ok (Instruction insn (name_view target.entry))) line
            (AreNotesOf self.new.items.items (places_in self.new.labels) self.new.words) result }
    {
        let words = insn.words();
        if MAX_WORDS - self.words < words {
            return Err(TextFault::InLine {
                line,
                flaw: TextFaultKind::TooLong,
            });
        }
        let place = self.words as u32;
        self.items.push(Item {
            line,
            place,
            insn,
            target,
        })?;
        self.words += words;
        Ok(())
    }

    /// Runs the second pass.
    fn code(&self, alloc: A) -> Result<CodeBuilder<A>, TextFault>
        ensures { (statements : List Meaning) → AreNotesOf self.now.items.items (places_in self.now.labels) self.now.words statements
            → MatchResult result (λ builder. code_of statements ≡ Ok builder) (λ fault. (fault ≡ TextFault.Memory) ⊎ (code_of statements ≡ Err fault)) }
    {
        let mut builder = CodeBuilder::new(alloc);
        for item in &self.items {
            self.push(&mut builder, *item)?;
        }
        Ok(builder)
    }

    /// Adds an item's instruction to the code.
    fn push(&self, builder: &mut CodeBuilder<A>, item: Item<'a>) -> Result<(), TextFault>
        ensures { (statements : List Meaning) → ((name : List ℕ) → places_in self.now.labels name ≡ label_place name statements)
            → PushesItem statements item.entry builder.old builder.new result }
    {
        match self.resolve(item) {
            // The first pass has checked the number of words, so only an allocation can fail.
            Ok(insn) => match builder.push(insn) {
                Ok(()) => Ok(()),
                Err(_) => Err(TextFault::Memory),
            },
            Err(flaw) => Err(TextFault::InLine {
                line: item.line,
                flaw,
            }),
        }
    }

    /// Returns an item's instruction, with its jump distance resolved.
    fn resolve(&self, item: Item<'a>) -> Result<Insn, TextFaultKind>
        ensures { (statements : List Meaning) → ((name : List ℕ) → places_in self.now.labels name ≡ label_place name statements)
            → result ≡ resolve statements (item_view item.entry) }
    {
        let Some(name) = item.target else {
            return Ok(item.insn);
        };
        let Some(target) = self.labels.get(&name) else {
            return Err(TextFaultKind::UnknownLabel);
        };
        // One line is one instruction: the jump isn't replaced by a longer one, which would move the places after it.
        match at_distance(distance(item.place, *target), item.insn) {
            Some(insn) => Ok(insn),
            None => Err(TextFaultKind::LabelTooFar),
        }
    }
}

/// Returns the distance of a jump at a place, counted from the word after the jump.
fn distance(place: u32, target: u32) -> i64
    ensures { result ≡ pos target -ℤ pos (place + 1) }
{
    i64::from(target) - (i64::from(place) + 1)
}

/// Returns a jump with another distance, if the distance fits its field.
fn at_distance(distance: i64, insn: Insn) -> Option<Insn>
    ensures { result ≡ at_distance distance insn }
{
    match insn {
        Insn::JumpIf {
            condition,
            width,
            left,
            right,
            ..
        } => {
            let offset = i16::try_from(distance).ok()?;
            Some(Insn::JumpIf {
                condition,
                width,
                left,
                right,
                offset,
            })
        }
        Insn::Jump(JumpDistance::Short(_)) => {
            let distance = i16::try_from(distance).ok()?;
            Some(Insn::Jump(JumpDistance::Short(distance)))
        }
        Insn::Jump(JumpDistance::Long(_)) => {
            let distance = i32::try_from(distance).ok()?;
            Some(Insn::Jump(JumpDistance::Long(distance)))
        }
        _ => Some(insn),
    }
}

//! The rest of a file.
ghost use Rattle.std.specs.Prelude.{◌≡◌, IfOk, OnErr};
ghost use Rattle.addresses.specs.Reading.{IsNextRead, reading_of};
ghost use Rattle.csv.specs.Records.{fields_of};

use crate::fault::AddressFault;
use crate::record::{TextReader, text_reader};
use crate::records::read_record;
use crate::text::{first_text, line_feeds, without_mark};
use csv::StringRecord;
use std::alloc::{AllocError, Global};
use std::marker::Model;

/// The part of a file that hasn't been read yet. Contracts see it as its records.
#[derive(Drop)]
pub(crate) struct Unread<'a> {
    alloc: Global,
    text: &'a [u8],
    /// The line in which the text begins, counted from 1.
    line: u64,
    /// On the heap, as it has 18 KB and is moved with its owners.
    reader: Box<TextReader<'a>>,
}

impl<'a> Model for Unread<'a> {
    ghost use Rattle.std.specs.Prelude.{◌+◌, ◌^◌, ◌<◌, length};
    ghost use Rattle.addresses.specs.InStep.{IsInStep};
    ghost use Rattle.addresses.specs.Reading.{Reading, reading_from};
    ghost use Rattle.addresses.specs.RecordText.{record_texts};

    ghost Value = { Reading };

    ghost view = { λ unread. reading_from unread.line (record_texts unread.text.now) };

    ghost invariant = { λ unread. (unread.line + length unread.text.now < 2 ^ 64) × IsInStep unread.text.now unread.reader.value };
}

impl<'a> Unread<'a> {
    /// Starts at the first record of a file, after its byte order mark if it has one.
    pub(crate) fn of(alloc: Global, file: &'a [u8]) -> Result<Self, AllocError>
        ensures { IfOk result (λ unread. unread ≡ reading_of file.now) }
    {
        let text = without_mark(file);
        let reader = Box::new(alloc, text_reader(alloc, text))?;
        Ok(Unread {
            alloc,
            text,
            line: 1,
            reader,
        })
    }

    /// Reads the next record and returns the line in which it begins, or `None` after the last record. Skips empty lines.
    pub(crate) fn next(&mut self, row: &mut StringRecord) -> Result<Option<u64>, AddressFault>
        ensures next { IsNextRead result (fields_of row.new) self.old self.new }
        ensures stays { OnErr result (self.new ≡ self.old) }
    {
        while !self.text.is_empty() {
            let first = first_text(self.text);
            let begins = self.line;
            let found = read_record(self.alloc, begins, first, &mut *self.reader, row)?;
            self.text = first.rest;
            self.line += line_feeds(first.text) as u64;
            if found {
                return Ok(Some(begins));
            }
        }
        Ok(None)
    }
}

//! `compile`: compiles a filter to a program.
ghost use Rattle.std.specs.Prelude.{◌≢◌, IfErr};
ghost use Rattle.commands.specs.Command.{CarriesOut};
ghost use Rattle.commands.specs.Failure.{status};
ghost use Rattle.commands.specs.declared.request.Request.{Request};

use crate::failure::{Failure, write};
use counted_io::CountedWrite;
use cql2_text::MAX_TEXT_LENGTH;
use filters::FilterOptions;
use named_files::{Files, read_file_prefix};
use std::alloc::Allocator;

// The limit plus one byte, which shows that a filter's text is too long.
const MAX_READ: usize = MAX_TEXT_LENGTH + 1;

/// The arguments of `compile`.
#[derive(Clone, Copy)]
pub struct Compile<'a> {
    /// The file of the filter (CQL2).
    pub filter: &'a str,
    pub filter_options: FilterOptions,
}

impl<'a> Compile<'a> {
    /// Reads the filter, up to the limit of its length, and writes the words of its program.
    pub fn carry_out<A: Allocator + Copy, F: Files, W: CountedWrite>(
        self,
        alloc: A,
        files: &mut F,
        out: &mut W,
    ) -> Result<(), Failure<'a>>
        ensures carried { CarriesOut F.opens (Request.Compile self.entry) result (F.disk files.old) (F.disk files.new)
            (W.writer out.old) (W.writer out.new) }
        ensures usage { IfErr result (λ failure. status failure ≢ 2) }
    {
        let text = match read_file_prefix(alloc, files, self.filter, MAX_READ) {
            Ok(text) => text,
            Err(fault) => return Err(Failure::of_file(self.filter, fault)),
        };
        match self.filter_options.program(alloc, text.as_slice()) {
            Ok(program) => write(out, program.as_slice()),
            Err(failure) => Err(Failure::Filter(failure)),
        }
    }
}

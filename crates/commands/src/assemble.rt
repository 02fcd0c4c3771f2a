//! `asm`: assembles a program text to instruction words.
ghost use Rattle.std.specs.Prelude.{◌≢◌, IfErr};
ghost use Rattle.commands.specs.Command.{CarriesOut};
ghost use Rattle.commands.specs.Failure.{status};
ghost use Rattle.commands.specs.declared.request.Request.{Request};

use crate::failure::{Failure, write};
use bpf_text::{assemble_source, text_too_long};
use counted_io::CountedWrite;
use named_files::{Files, read_short_file};
use std::alloc::Allocator;

// The first length of a program text, or of a file of source lines, that is refused: 16 MiB are the most.
pub(crate) const SOURCE_END: usize = 16 * 1024 * 1024 + 1;

/// The arguments of `asm`.
#[derive(Clone, Copy)]
pub struct Assemble<'a> {
    /// The file of the program text.
    pub source: &'a str,
}

impl<'a> Assemble<'a> {
    /// Reads the source to its end, up to the limit of its length, and writes its words.
    pub fn carry_out<A: Allocator + Copy, F: Files, W: CountedWrite>(
        self,
        alloc: A,
        files: &mut F,
        out: &mut W,
    ) -> Result<(), Failure<'a>>
        ensures carried { CarriesOut F.opens (Request.Assemble self.entry) result (F.disk files.old) (F.disk files.new)
            (W.writer out.old) (W.writer out.new) }
        ensures usage { IfErr result (λ failure. status failure ≢ 2) }
    {
        let source = match read_short_file(alloc, files, self.source, SOURCE_END) {
            Ok(Some(source)) => source,
            Ok(None) => return Err(Failure::Refusal(text_too_long())),
            Err(fault) => return Err(Failure::of_file(self.source, fault)),
        };
        match assemble_source(alloc, source.as_slice()) {
            Ok(words) => write(out, words.as_slice()),
            Err(fault) => Err(Failure::of_source(self.source, fault)),
        }
    }
}

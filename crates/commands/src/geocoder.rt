//! `geocode`: finds where a house number is, over counties.
ghost use Rattle.std.specs.Prelude.{◌≢◌, IfErr};
ghost use Rattle.commands.specs.Command.{CarriesOut};
ghost use Rattle.commands.specs.declared.request.Request.{Request};
ghost use Rattle.commands.specs.Failure.{WritesAs, status};
ghost use Rattle.geocode.specs.HitLine.{hit_lines};

use crate::counties::load_counties;
use crate::failure::{Failure, write};
use counted_io::CountedWrite;
use geocode::{Hit, Query};
use named_files::Files;
use std::alloc::Allocator;

/// The arguments of `geocode`.
#[derive(Drop)]
pub struct Geocode<'a> {
    /// The folder of the county files.
    pub data: &'a str,
    pub query: Query,
    /// The counties' codes, five digits each: the state, then the county within it.
    pub codes: Vec<&'a str>,
}

impl<'a> Geocode<'a> {
    /// Loads the counties and then writes the hits' lines.
    pub fn carry_out<A: Allocator + Copy, F: Files, W: CountedWrite>(
        self,
        alloc: A,
        files: &mut F,
        out: &mut W,
    ) -> Result<(), Failure<'a>>
        ensures carried { CarriesOut F.opens (Request.Geocode self.entry) result (F.disk files.old) (F.disk files.new)
            (W.writer out.old) (W.writer out.new) }
        ensures usage { IfErr result (λ failure. status failure ≢ 2) }
    {
        let counties = match load_counties(alloc, files, self.data, self.codes.as_slice(), false) {
            Ok(counties) => counties,
            Err(failure) => return Err(failure),
        };
        let hits = self.query.find(alloc, counties.as_slice())?;
        write_lines(out, hits.as_slice())
    }
}

/// Writes the hits' lines in order, up to the first that can't be written completely.
fn write_lines<'a, W: CountedWrite>(out: &mut W, hits: &[Hit]) -> Result<(), Failure<'a>>
    ensures { WritesAs (hit_lines hits.now) result (W.writer out.old) (W.writer out.new) }
{
    for hit in hits {
        let line = hit.line();
        match write(out, line.as_bytes()) {
            Ok(()) => {}
            Err(failure) => return Err(failure),
        }
    }
    Ok(())
}

//! `run`: writes what a program selects in a county's files.
ghost use Rattle.std.specs.Prelude.{◌≢◌, IfErr};
ghost use Rattle.commands.specs.Command.{CarriesOut};
ghost use Rattle.commands.specs.Failure.{status};
ghost use Rattle.commands.specs.Run.{IsProgramOutcome};
ghost use Rattle.commands.specs.declared.request.Request.{Request};
ghost use Rattle.layers.specs.LayerParts.{parts_of};
ghost use Rattle.tl_segments.specs.County.{county_readers};

use crate::failure::Failure;
use crate::inputs::{Inputs, open_inputs};
use bpf_program::accept;
use counted_io::{CountedRead, CountedWrite};
use extract::ExtractFault;
use layers::{Layer, write_layer};
use named_files::{Files, close_county};
use std::alloc::Allocator;
use tl_segments::CountyFiles;

/// The arguments of `run`.
#[derive(Drop)]
pub struct Run<'a> {
    /// The program's file.
    pub program: &'a str,
    /// The folder of the county files.
    pub data: &'a str,
    /// The county's code, five digits: the state, then the county within it.
    pub code: &'a str,
    /// What is written of the selected segments.
    pub layer: Layer,
}

impl<'a> Run<'a> {
    /// Opens the program and then the county's files, with that of type 2 if the layer has shapes, reads the program to its end, and writes the layer.
    pub fn carry_out<A: Allocator + Copy, F: Files, W: CountedWrite>(
        self,
        alloc: A,
        files: &mut F,
        out: &mut W,
    ) -> Result<(), Failure<'a>>
        ensures carried { CarriesOut F.opens (Request.Run self.entry) result (F.disk files.old) (F.disk files.new)
            (W.writer out.old) (W.writer out.new) }
        ensures usage { IfErr result (λ failure. status failure ≢ 2) }
    {
        let Run {
            program,
            data,
            code,
            layer,
        } = self;
        let shapes = layer.has_shapes();
        let inputs = match open_inputs(alloc, files, program, data, code, shapes) {
            Ok(inputs) => inputs,
            Err(failure) => return Err(failure),
        };
        let Inputs {
            program,
            mut county,
        } = inputs;
        let written = write_selected(alloc, program.as_slice(), &mut county, &layer, out);
        close_county(files, data, code, county);
        match written {
            Ok(_) => Ok(()),
            Err(fault) => Err(Failure::of_extract(fault)),
        }
    }
}

/// Accepts the program and writes what it selects in a county.
fn write_selected<A: Allocator + Copy, R: CountedRead, W: CountedWrite>(
    alloc: A,
    program: &[u8],
    county: &mut CountyFiles<R>,
    layer: &Layer,
    out: &mut W,
) -> Result<u64, ExtractFault>
    ensures { IsProgramOutcome (parts_of layer.now) program.now result
        (county_readers R.reader county.old) (county_readers R.reader county.new) (W.writer out.old) (W.writer out.new) }
{
    let verified = accept(alloc, program)?;
    write_layer(alloc, &verified, county, layer, out)
}

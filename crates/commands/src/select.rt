//! `select`: writes the segments for which a filter is true, over counties.
ghost use Rattle.std.specs.Prelude.{◌≡◌, ◌≢◌, ℕ, List, map, IfErr};
ghost use Rattle.commands.specs.Command.{CarriesOut};
ghost use Rattle.commands.specs.Counties.{IsFileOfOne};
ghost use Rattle.named_files.specs.County.{IsFileOfCounty};
ghost use Rattle.commands.specs.Failure.{NamesFile, IsUnfailedUnlessUnusable, status};
ghost use Rattle.commands.specs.Select.{FailsAs, SelectsCounties, SelectsCounty, SelectsLayer, selection};
ghost use Rattle.commands.specs.declared.request.Request.{Request};
ghost use Rattle.layers.specs.Layer.{has_shapes};
ghost use Rattle.layers.specs.LayerParts.{parts_of};

use crate::failure::Failure;
use bpf_verify::Verified;
use counted_io::CountedWrite;
use filters::FilterOptions;
use layers::{Layer, write_county};
use named_files::{Files, close_county, open_county};
use std::alloc::{Allocator, Global};

/// The arguments of `select`.
#[derive(Drop)]
pub struct Select<'a> {
    /// The filter (CQL2).
    pub filter: &'a str,
    pub filter_options: FilterOptions,
    /// The folder of the county files.
    pub data: &'a str,
    /// The counties' codes, five digits each: the state, then the county within it.
    pub codes: Vec<&'a str>,
    /// What is written of the selected segments.
    pub layer: Layer,
}

impl<'a> Select<'a> {
    /// Compiles the filter once, writes the header of the layer, and then writes each county, up to the first fault.
    pub fn carry_out<A: Allocator + Copy, F: Files, W: CountedWrite>(
        self,
        alloc: A,
        files: &mut F,
        out: &mut W,
    ) -> Result<(), Failure<'a>>
        ensures carried { CarriesOut F.opens (Request.Select self.entry) result (F.disk files.old) (F.disk files.new)
            (W.writer out.old) (W.writer out.new) }
        ensures usage { IfErr result (λ failure. status failure ≢ 2) }
    {
        // Once for all counties, as verifying a filter with 1,500 names takes its time.
        let program = match self.filter_options.verified(self.filter.as_bytes()) {
            Ok(program) => program,
            Err(failure) => return Err(Failure::Filter(failure)),
        };
        select_layer(
            alloc,
            files,
            &program,
            self.data,
            self.codes.as_slice(),
            &self.layer,
            out,
        )
    }
}

/// Writes the header of a layer and then the counties of these codes, in order, up to the first fault.
fn select_layer<'a, A: Allocator + Copy, F: Files, W: CountedWrite>(
    alloc: A,
    files: &mut F,
    program: &Verified<Global>,
    folder: &'a str,
    codes: &[&'a str],
    layer: &Layer,
    out: &mut W,
) -> Result<(), Failure<'a>>
    ensures outcome { SelectsLayer (selection (F.disk files.old).known folder.now (parts_of layer.now) program.now.code)
        (map (λ code. code.now) codes.now) result (W.writer out.old) (W.writer out.new) }
    ensures fails { IfErr result (λ failure. FailsAs F.opens folder.now failure (F.disk files.old) (F.disk files.new)) }
    ensures names { IfErr result (NamesFile (IsFileOfOne (IsFileOfCounty (has_shapes (parts_of layer.now)) folder.now)
        (map (λ code. code.now) codes.now))) }
    ensures counts { IsUnfailedUnlessUnusable result (F.disk files.old) (F.disk files.new) }
    ensures unflushed { (W.writer out.new).counts.flushes ≡ (W.writer out.old).counts.flushes }
{
    match layer.write_header(out) {
        Ok(()) => select_counties(alloc, files, program, folder, codes, layer, out),
        Err(fault) => Err(Failure::Write(fault)),
    }
}

/// Writes the counties of these codes, in order, up to the first fault.
fn select_counties<'a, A: Allocator + Copy, F: Files, W: CountedWrite>(
    alloc: A,
    files: &mut F,
    program: &Verified<Global>,
    folder: &'a str,
    codes: &[&'a str],
    layer: &Layer,
    out: &mut W,
) -> Result<(), Failure<'a>>
    ensures outcome { SelectsCounties (selection (F.disk files.old).known folder.now (parts_of layer.now) program.now.code)
        (map (λ code. code.now) codes.now) result (W.writer out.old) (W.writer out.new) }
    ensures fails { IfErr result (λ failure. FailsAs F.opens folder.now failure (F.disk files.old) (F.disk files.new)) }
    ensures names { IfErr result (NamesFile (IsFileOfOne (IsFileOfCounty (has_shapes (parts_of layer.now)) folder.now)
        (map (λ code. code.now) codes.now))) }
    ensures counts { IsUnfailedUnlessUnusable result (F.disk files.old) (F.disk files.new) }
    ensures unflushed { (W.writer out.new).counts.flushes ≡ (W.writer out.old).counts.flushes }
{
    for code in codes {
        match select_county(alloc, files, program, folder, code, layer, out) {
            Ok(()) => {}
            Err(failure) => return Err(failure),
        }
    }
    Ok(())
}

/// Opens the files of a county in the data folder and writes its layer.
fn select_county<'a, A: Allocator + Copy, F: Files, W: CountedWrite>(
    alloc: A,
    files: &mut F,
    program: &Verified<Global>,
    folder: &'a str,
    code: &'a str,
    layer: &Layer,
    out: &mut W,
) -> Result<(), Failure<'a>>
    ensures outcome { SelectsCounty (selection (F.disk files.old).known folder.now (parts_of layer.now) program.now.code) code.now result
        (W.writer out.old) (W.writer out.new) }
    ensures fails { IfErr result (λ failure. FailsAs F.opens folder.now failure (F.disk files.old) (F.disk files.new)) }
    ensures names { IfErr result (NamesFile (IsFileOfCounty (has_shapes (parts_of layer.now)) folder.now code.now)) }
    ensures stay { (other : List ℕ) → (F.disk files.new).known other ≡ (F.disk files.old).known other }
    ensures counts { IsUnfailedUnlessUnusable result (F.disk files.old) (F.disk files.new) }
    ensures unflushed { (W.writer out.new).counts.flushes ≡ (W.writer out.old).counts.flushes }
{
    let mut inputs = match open_county(alloc, files, folder, code, layer.has_shapes()) {
        Ok(inputs) => inputs,
        Err(fault) => return Err(Failure::of_opening(folder, code, fault)),
    };
    let written = write_county(alloc, program, &mut inputs, layer, out);
    close_county(files, folder, code, inputs);
    match written {
        Ok(_) => Ok(()),
        Err(fault) => Err(Failure::of_county_extract(code, fault)),
    }
}

//! The inputs of `run` and `trace`: a program and a county.
ghost use Rattle.std.specs.Prelude.{◌≡◌, ℕ, List, IfErr, IfOk};
ghost use Rattle.named_files.specs.County.{AreOpened};
ghost use Rattle.named_files.specs.Files.{input_reader};
ghost use Rattle.tl_segments.specs.County.{county_readers};
ghost use Rattle.commands.specs.Failure.{NamesFile, IsUnfailedUnlessUnusable};
ghost use Rattle.commands.specs.Inputs.{HoldInputs, IsInput, IsInputsFailure};

use crate::failure::Failure;
use named_files::{Files, Input, close_county, open, open_county};
use std::alloc::Allocator;
use tl_segments::CountyFiles;

/// A program's bytes and a county's inputs.
pub struct Inputs<A: Allocator, R> {
    pub program: Vec<u8, A>,
    pub county: CountyFiles<Input<R>>,
}

/// Opens the program and then the county's files, with that of type 2 if shapes are wanted, and reads the program to its end.
pub fn open_inputs<'a, A: Allocator + Copy, F: Files>(
    alloc: A,
    files: &mut F,
    name: &'a str,
    folder: &'a str,
    code: &'a str,
    shapes: bool,
) -> Result<Inputs<A, F::Reader>, Failure<'a>>
    ensures hold { IfOk result (λ inputs. HoldInputs shapes (F.disk files.old).known name.now folder.now code.now inputs.program.items
        (county_readers (input_reader F.Reader.reader) inputs.county)) }
    ensures are_open { IfOk result (λ inputs. AreOpened inputs.county) }
    ensures err { IfErr result (IsInputsFailure F.opens shapes name.now folder.now code.now (F.disk files.old) (F.disk files.new)) }
    ensures names { IfErr result (NamesFile (IsInput shapes name.now folder.now code.now)) }
    ensures stay { (other : List ℕ) → (F.disk files.new).known other ≡ (F.disk files.old).known other }
    ensures counts { IsUnfailedUnlessUnusable result (F.disk files.old) (F.disk files.new) }
{
    let mut file = match open(files, name) {
        Ok(file) => file,
        Err(fault) => return Err(Failure::of_file(name, fault)),
    };
    // All files are opened before the first is read, so a bad program without a type 1 file has status 3.
    let county = match open_county(alloc, files, folder, code, shapes) {
        Ok(county) => county,
        Err(fault) => {
            files.close(file);
            return Err(Failure::of_county_file(folder, code, fault));
        }
    };
    let read = file.read_program(alloc);
    files.close(file);
    match read {
        Ok(program) => Ok(Inputs { program, county }),
        Err(fault) => {
            close_county(files, folder, code, county);
            Err(Failure::of_program(name, fault))
        }
    }
}

//! The files of a county (TIGER/Line 2006, record types 1, 2, 4, 5 and 6), opened by name.
ghost use Rattle.std.specs.Prelude.{◌≡◌, IfErr, IfOk, false, option_map, string_bytes};
ghost use Rattle.named_files.specs.County.{AreOpened, ClosesCounty, ClosesSegments, HoldCounty, HoldJoined, HoldsShapes, IsCountyOpenFault, IsFileOpenFault, IsOpened, IsOpenedIfAny, MustExist, file_name, name_end};
ghost use Rattle.named_files.specs.Files.{Closes, CountsClose, IsUnread, Opens, input_reader};
ghost use Rattle.tl_segments.specs.County.{county_readers, joined_readers};
ghost use Rattle.named_files.specs.declared.files.FileFault.TheVariants.{Memory};

use crate::files::{FileFault, Files, Input, open, open_optional};
use crate::open_file::{FileName, OpenFile};
use std::alloc::{AllocError, Allocator};
use tl_segments::{CountyFile, CountyFiles, JoinedFiles};

/// Why a county's file can't be opened.
#[derive(Clone, Copy)]
pub struct CountyFileFault {
    pub file: CountyFile,
    pub fault: FileFault,
}

/// Opens the files of a county in the data folder: those of types 1, 4, 5 and 6, in this order, and then that of type 2 if shapes are wanted. Those of
/// types 1 and 2 must exist. Each of the others is an empty input if it doesn't exist. If one of them can't be opened, closes those that are open.
pub fn open_county<A: Allocator + Copy, F: Files>(
    alloc: A,
    files: &mut F,
    folder: &str,
    code: &str,
    shapes: bool,
) -> Result<CountyFiles<Input<F::Reader>>, CountyFileFault>
    ensures hold { IfOk result (λ inputs. HoldCounty shapes (F.disk files.old).known folder.now code.now
        (county_readers (input_reader F.Reader.reader) inputs)) }
    ensures are_open { IfOk result AreOpened }
    ensures fault { IfErr result (IsCountyOpenFault shapes F.opens folder.now code.now) }
    ensures opens { Opens result (λ fault. fault.fault) (F.disk files.old) (F.disk files.new) }
{
    let rt1 = match open_file(alloc, files, folder, code, CountyFile::Rt1) {
        Ok(input) => input,
        Err(fault) => return Err(fault),
    };
    let joined = match open_joined(alloc, files, folder, code) {
        Ok(joined) => joined,
        Err(fault) => {
            close_file(files, folder, code, CountyFile::Rt1, rt1);
            return Err(fault);
        }
    };
    match open_shapes(alloc, files, folder, code, shapes) {
        Ok(shapes) => Ok(CountyFiles {
            rt1,
            joined,
            shapes,
        }),
        Err(fault) => {
            close_segments(files, folder, code, rt1, joined);
            Err(fault)
        }
    }
}

/// Opens the file of type 2 if shapes are wanted. It must exist.
fn open_shapes<A: Allocator + Copy, F: Files>(
    alloc: A,
    files: &mut F,
    folder: &str,
    code: &str,
    shapes: bool,
) -> Result<Option<Input<F::Reader>>, CountyFileFault>
    ensures hold { IfOk result (λ input. HoldsShapes shapes ((F.disk files.old).known (file_name folder.now code.now CountyFile.Rt2))
        (option_map (input_reader F.Reader.reader) input)) }
    ensures is_open { IfOk result IsOpenedIfAny }
    ensures fault { IfErr result (IsCountyOpenFault shapes F.opens folder.now code.now) }
    ensures opens { Opens result (λ fault. fault.fault) (F.disk files.old) (F.disk files.new) }
{
    if !shapes {
        return Ok(None);
    }
    match open_file(alloc, files, folder, code, CountyFile::Rt2) {
        Ok(input) => Ok(Some(input)),
        Err(fault) => Err(fault),
    }
}

/// Opens the files whose lines are joined to those of type 1. If one of them can't be opened, closes those that are open.
fn open_joined<A: Allocator + Copy, F: Files>(
    alloc: A,
    files: &mut F,
    folder: &str,
    code: &str,
) -> Result<JoinedFiles<Input<F::Reader>>, CountyFileFault>
    ensures hold { IfOk result (λ inputs. HoldJoined (F.disk files.old).known folder.now code.now
        (joined_readers (input_reader F.Reader.reader) inputs)) }
    ensures fault { IfErr result (IsCountyOpenFault false F.opens folder.now code.now) }
    ensures opens { Opens result (λ fault. fault.fault) (F.disk files.old) (F.disk files.new) }
{
    let rt4 = match open_file(alloc, files, folder, code, CountyFile::Rt4) {
        Ok(input) => input,
        Err(fault) => return Err(fault),
    };
    let rt5 = match open_file(alloc, files, folder, code, CountyFile::Rt5) {
        Ok(input) => input,
        Err(fault) => {
            close_file(files, folder, code, CountyFile::Rt4, rt4);
            return Err(fault);
        }
    };
    match open_file(alloc, files, folder, code, CountyFile::Rt6) {
        Ok(rt6) => Ok(JoinedFiles { rt4, rt5, rt6 }),
        Err(fault) => {
            close_file(files, folder, code, CountyFile::Rt4, rt4);
            close_file(files, folder, code, CountyFile::Rt5, rt5);
            Err(fault)
        }
    }
}

/// Opens a county's file. Those of types 1 and 2 must exist. Another file is an empty input if it doesn't exist.
fn open_file<A: Allocator + Copy, F: Files>(
    alloc: A,
    files: &mut F,
    folder: &str,
    code: &str,
    file: CountyFile,
) -> Result<Input<F::Reader>, CountyFileFault>
    ensures known { IfOk result (λ input. IsUnread ((F.disk files.old).known (file_name folder.now code.now file))
        (input_reader F.Reader.reader input)) }
    ensures is_open { IfOk result (λ input. MustExist file → IsOpened input) }
    ensures fault { IfErr result (IsFileOpenFault F.opens folder.now code.now file) }
    ensures opens { Opens result (λ fault. fault.fault) (F.disk files.old) (F.disk files.new) }
{
    let Ok(name) = file_name(alloc, folder, code, file) else {
        let fault = FileFault::Memory;
        return Err(CountyFileFault { file, fault });
    };
    match file {
        CountyFile::Rt1 | CountyFile::Rt2 => match open(files, name.as_str()) {
            Ok(OpenFile { name: _, reader }) => Ok(Input::Opened(reader)),
            Err(fault) => Err(CountyFileFault { file, fault }),
        },
        // Some counties have none.
        CountyFile::Rt4 | CountyFile::Rt5 | CountyFile::Rt6 => match open_optional(
            files,
            name.as_str(),
        ) {
            Ok(input) => Ok(input),
            Err(fault) => Err(CountyFileFault { file, fault }),
        },
    }
}

/// Closes the inputs of a county that [`open_county`] opened with this folder and code.
pub fn close_county<F: Files>(
    files: &mut F,
    folder: &str,
    code: &str,
    inputs: CountyFiles<Input<F::Reader>>,
)
    ensures { Closes (ClosesCounty folder.now code.now (county_readers (input_reader F.Reader.reader) inputs)) (F.disk files.old) (F.disk files.new) }
{
    let CountyFiles {
        rt1,
        joined,
        shapes,
    } = inputs;
    close_segments(files, folder, code, rt1, joined);
    match shapes {
        Some(rt2) => close_file(files, folder, code, CountyFile::Rt2, rt2),
        None => {}
    }
}

/// Closes the inputs that a county's segments are made from.
fn close_segments<F: Files>(
    files: &mut F,
    folder: &str,
    code: &str,
    rt1: Input<F::Reader>,
    joined: JoinedFiles<Input<F::Reader>>,
)
    ensures { Closes (ClosesSegments folder.now code.now (record {
      rt1 = input_reader F.Reader.reader rt1;
      joined = joined_readers (input_reader F.Reader.reader) joined;
    })) (F.disk files.old) (F.disk files.new) }
{
    let JoinedFiles { rt4, rt5, rt6 } = joined;
    close_file(files, folder, code, CountyFile::Rt1, rt1);
    close_file(files, folder, code, CountyFile::Rt4, rt4);
    close_file(files, folder, code, CountyFile::Rt5, rt5);
    close_file(files, folder, code, CountyFile::Rt6, rt6);
}

/// Closes the input for a county's file.
fn close_file<F: Files>(
    files: &mut F,
    folder: &str,
    code: &str,
    file: CountyFile,
    input: Input<F::Reader>,
)
    ensures { Closes (CountsClose (file_name folder.now code.now file) (input_reader F.Reader.reader input).failed)
        (F.disk files.old) (F.disk files.new) }
{
    match input {
        Input::Opened(reader) => {
            let name = FileName::OfCounty { folder, code, file };
            files.close(OpenFile { name, reader });
        }
        Input::Nothing => {}
    }
}

/// Returns the path of a county's file in the data folder.
fn file_name<A: Allocator>(
    alloc: A,
    folder: &str,
    code: &str,
    file: CountyFile,
) -> Result<String<A>, AllocError>
    ensures { IfOk result (λ name. string_bytes name ≡ file_name folder.now code.now file) }
{
    let mut name = String::from_str(alloc, folder)?;
    name.push_str("/TGR")?;
    name.push_str(code)?;
    name.push_str(name_end(file))?;
    Ok(name)
}

/// Returns the extension of a county's file.
pub fn name_end(file: CountyFile) -> &'static str
    ensures { result.now ≡ name_end file }
{
    match file {
        CountyFile::Rt1 => ".RT1",
        CountyFile::Rt2 => ".RT2",
        CountyFile::Rt4 => ".RT4",
        CountyFile::Rt5 => ".RT5",
        CountyFile::Rt6 => ".RT6",
    }
}

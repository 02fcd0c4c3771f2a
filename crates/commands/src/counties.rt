//! Counties, loaded one after the other.
ghost use Rattle.std.specs.Prelude.{◌≡◌, ◌≢◌, ℕ, List, map, IfErr, IfOk};
ghost use Rattle.commands.specs.Counties.{AreCountiesOf, HaveRefusedCounty, IsCountyOf, IsFileOfCounties, IsLoadFailure, IsRefusedCounty, IsRefusedFile, IsRefusedFileOfOne};
ghost use Rattle.named_files.specs.County.{IsFileOfCounty};
ghost use Rattle.commands.specs.Failure.{NamesFile, IsUnfailedUnlessUnusable, status};

use crate::failure::Failure;
use named_files::{Files, close_county, open_county};
use refusals::Fault;
use std::alloc::Allocator;
use tl_segments::County;

/// Loads the counties of these codes, in order, with their shapes if these are wanted. Reads the files of each county to their ends before opening
/// those of the next.
pub fn load_counties<'a, A: Allocator + Copy, F: Files>(
    alloc: A,
    files: &mut F,
    folder: &'a str,
    codes: &[&'a str],
    shapes: bool,
) -> Result<Vec<County<A>, A>, Failure<'a>>
    ensures ok { IfOk result (λ counties.
        AreCountiesOf shapes (F.disk files.old).known folder.now (map (λ code. code.now) codes.now) counties.items) }
    ensures err { IfErr result (IsLoadFailure F.opens (HaveRefusedCounty shapes (F.disk files.old).known folder.now (map (λ code. code.now) codes.now))
        (IsRefusedFileOfOne folder.now (map (λ code. code.now) codes.now))
        (F.disk files.old) (F.disk files.new)) }
    ensures names { IfErr result (NamesFile (IsFileOfCounties shapes folder.now (map (λ code. code.now) codes.now))) }
    ensures stay { (other : List ℕ) → (F.disk files.new).known other ≡ (F.disk files.old).known other }
    ensures usage { IfErr result (λ failure. status failure ≢ 2) }
    ensures counts { IsUnfailedUnlessUnusable result (F.disk files.old) (F.disk files.new) }
{
    let mut counties = Vec::new(alloc);
    // One after the other, so that only one county's files are open at once.
    for code in codes {
        match load_county(alloc, files, folder, code, shapes) {
            Ok(county) => counties.push(county)?,
            Err(failure) => return Err(failure),
        }
    }
    Ok(counties)
}

/// Opens the files of a county in the data folder and reads them to their ends.
fn load_county<'a, A: Allocator + Copy, F: Files>(
    alloc: A,
    files: &mut F,
    folder: &'a str,
    code: &'a str,
    shapes: bool,
) -> Result<County<A>, Failure<'a>>
    ensures ok { IfOk result (IsCountyOf shapes (F.disk files.old).known folder.now code.now) }
    ensures err { IfErr result (IsLoadFailure F.opens (IsRefusedCounty shapes (F.disk files.old).known folder.now code.now) (IsRefusedFile folder.now code.now)
        (F.disk files.old) (F.disk files.new)) }
    ensures names { IfErr result (NamesFile (IsFileOfCounty shapes folder.now code.now)) }
    ensures stay { (other : List ℕ) → (F.disk files.new).known other ≡ (F.disk files.old).known other }
    ensures counts { IsUnfailedUnlessUnusable result (F.disk files.old) (F.disk files.new) }
{
    let mut inputs = match open_county(alloc, files, folder, code, shapes) {
        Ok(inputs) => inputs,
        Err(fault) => return Err(Failure::of_county_file(folder, code, fault)),
    };
    let loaded = inputs.load(alloc);
    close_county(files, folder, code, inputs);
    match loaded {
        Ok(county) => Ok(county),
        Err(fault) => Err(Failure::Refusal(fault.refusal())),
    }
}

//! How commands end, given files: the tests of the tables of rows.
use super::batches::{BATCHES, WORDS};
use super::cases::{Case, filled};
use super::conversions::{DOCUMENTED, PROGRAMS, SOURCES};
use super::counties::{COUNTIES, OPENINGS};
use super::devices::{CASES, LONG};
use super::echoes::ECHOES;
use super::formats::FORMATS;
use super::geocodes::GEOCODES;
use super::listings::LISTINGS;
use super::runs::FILES;
use super::selections::{FILTERS, JSON_FILTERS};
use fixtures::TableFault;
use std::alloc::Global;
use std::test::Fail;

/// Returns whether the command of a row ends as the row says.
pub fn is_right(alloc: Global, row: &str) -> Result<bool, TableFault> {
    let case = Case::new(alloc, row)?;
    let ending = case.ended(alloc, None, case.faults())?;
    Ok(case.is_ended(&ending))
}

#[test]
fn endings(rt: HostRuntime) -> Result<(), Fail> {
    for table in [
        SOURCES,
        DOCUMENTED,
        PROGRAMS,
        COUNTIES,
        OPENINGS,
        FILES,
        GEOCODES,
        FILTERS,
        JSON_FILTERS,
        FORMATS,
        CASES,
        LISTINGS,
        ECHOES,
    ] {
        for row in table.joined(rt.alloc())?.lines() {
            assert_eq!(rt; is_right(rt.alloc(), row), Ok(true), "{row}");
        }
    }
    Ok(())
}

#[test]
fn batches(rt: HostRuntime) -> Result<(), Fail> {
    let rows = BATCHES.joined(rt.alloc())?;
    for row in filled(rt.alloc(), &rows, &WORDS)?.lines() {
        assert_eq!(rt; is_right(rt.alloc(), row), Ok(true), "{row}");
    }
    Ok(())
}

#[test]
fn long_programs(rt: HostRuntime) -> Result<(), Fail> {
    for row in LONG.joined(rt.alloc())?.lines() {
        assert_eq!(rt; is_right(rt.alloc(), row), Ok(true), "{row}");
    }
    Ok(())
}

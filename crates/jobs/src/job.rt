//! A job of a table.
ghost use Rattle.std.specs.Prelude.{◌≡◌, ◌^◌, ◌<◌, List, length, OnErr, OnOk};
ghost use Rattle.tl_segments.specs.County.{CountyParts};
ghost use Rattle.jobs.specs.Inside.{IsCursorIn, parts_of};
ghost use Rattle.jobs.specs.Segments.{NeedsRow, segments_of};
ghost use Rattle.jobs.specs.Table.{IsTurned, new_job};

use crate::cursor::Cursor;
use crate::turn::advance_from;
use bpf_verify::Verified;
use std::alloc::{AllocError, Allocator};
use tl_segments::County;

/// A job: its program, where it continues, and its rows so far. Each turn runs the program in a fresh machine.
#[derive(Drop)]
pub(crate) struct Job<A: Allocator> {
    pub verified: Verified<A>,
    pub cursor: Cursor,
    pub rows: Vec<u8, A>,
}

impl<A: Allocator + Copy> Job<A> {
    /// Returns a job before its first turn.
    pub fn of(alloc: A, verified: Verified<A>) -> Self
        ensures parts { parts_of result ≡ new_job verified.code }
        ensures cursor { (counties : List CountyParts) → length (segments_of counties) < 2 ^ 64 → IsCursorIn counties result.cursor }
    {
        Job {
            verified,
            cursor: Cursor::start(),
            rows: Vec::new(alloc),
        }
    }

    /// Advances by a turn. If an allocation fails, the job is unchanged.
    /// No caller in this program but the table of jobs: part of the library's fixed interface.
    pub fn advance(&mut self, counties: &[County<A>]) -> Result<(), AllocError>
        requires { IsCursorIn counties.now self.old.cursor }
        ensures cursor { IsCursorIn counties.now self.new.cursor }
        ensures ok { OnOk result (IsTurned counties.now (parts_of self.old) (parts_of self.new)) }
        ensures err { OnErr result (parts_of self.new ≡ parts_of self.old) }
        ensures needs_row { OnErr result (NeedsRow self.old.verified.code (segments_of counties.now) self.old.cursor.done) }
    {
        self.cursor = advance_from(&self.verified, counties, self.cursor, &mut self.rows)?;
        Ok(())
    }
}

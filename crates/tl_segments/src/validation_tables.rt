//! Tables for validating a file without storing it.
ghost use Rattle.std.specs.Prelude.{◌≡◌, ◌≤◌, ℕ, IfOk};
ghost use Rattle.tl_segments.specs.TableContents.{CountsAt, HoldsCounts, MatchAddition, count_at};

use crate::county_file::{Addition, Limited, Table};
use crate::limits::MAX_LINES_PER_TLID;
use std::alloc::{AllocError, Allocator};
use std::collections::BTreeMap;
use std::marker::PhantomData;
use tl_records::{Record, Type5};

/// The number of lines of each TLID, at most [`MAX_LINES_PER_TLID`].
#[derive(Drop)]
pub(crate) struct LinesPerTlid<T, A: Allocator> {
    // Counts alone: the limits need no more.
    counts: BTreeMap<u64, u16, A>,
    of: PhantomData<T>,
}

impl<T, A: Allocator + Copy> LinesPerTlid<T, A> {
    pub(crate) fn new(alloc: A) -> Self
        ensures { (number : ℕ) → count_at result number ≡ 0 }
    {
        LinesPerTlid {
            counts: BTreeMap::new(alloc),
            of: PhantomData,
        }
    }

    /// Counts one more line with this number, unless the number already has [`MAX_LINES_PER_TLID`] lines.
    fn count(&mut self, number: u64) -> Result<Addition, AllocError>
        ensures { IfOk result (λ addition.
            MatchAddition addition (CountsAt self.old self.new number) (MAX_LINES_PER_TLID ≤ count_at self.old number) ⊥) }
    {
        let count = self.counts.entry(number)?.or_default();
        if usize::from(*count) >= MAX_LINES_PER_TLID {
            return Ok(Addition::OverLimit);
        }
        *count += 1;
        Ok(Addition::Added)
    }
}

impl<T: Limited, A: Allocator + Copy> Table for LinesPerTlid<T, A> {
    type Lines = T;

    ghost holds = { λ table lines. HoldsCounts T.FILE table lines };

    fn add(&mut self, rt: &Record<'_, T>) -> Result<Addition, AllocError> {
        self.count(rt.number())
    }
}

/// The table for type 5 lines, which have no limit: it stores nothing.
#[derive(Drop)]
pub(crate) struct IgnoreNames;

impl Table for IgnoreNames {
    type Lines = Type5;

    ghost holds = { λ _ _. Unit {0} };

    fn add(&mut self, _rt: &Record<'_, Type5>) -> Result<Addition, AllocError> {
        Ok(Addition::Added)
    }
}

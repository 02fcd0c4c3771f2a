//! Where a job continues among the segments of all counties.
ghost use Rattle.std.specs.Prelude.{◌≡◌, ◌+◌, ◌^◌, ◌<◌, ◌≤◌, [], ◌++◌, length};
ghost use Rattle.jobs.specs.Inside.{IsCursorIn, left_at};
ghost use Rattle.jobs.specs.Segments.{segments_of};

use std::alloc::Allocator;
use tl_segments::{County, Segment};

// Each has fewer than 2^32 segments, so the number of all segments fits in 64 bits.
/// The greatest number of counties that jobs process.
pub const MAX_COUNTIES: usize = 100_000;

pub(crate) fn count_segments<A: Allocator>(counties: &[County<A>]) -> u64
    requires { length counties.now ≤ MAX_COUNTIES }
    ensures { result ≡ length (segments_of counties.now) }
{
    let mut total = 0;
    for county in counties {
        total += county.segments().len() as u64;
    }
    total
}

/// Where a job continues: after all segments of the counties before its own, and after the first ones of its own.
#[derive(Clone, Copy)]
pub(crate) struct Cursor {
    /// The total number of segments done.
    pub done: u64,
    /// The county of the next segment, counted from 0.
    pub county: usize,
    /// The index of the next segment in its county, counted from 0.
    pub segment: usize,
}

impl Cursor {
    pub fn start() -> Self
        ensures { result ≡ record { done = 0; county = 0; segment = 0 } }
    {
        Cursor {
            done: 0,
            county: 0,
            segment: 0,
        }
    }

    /// Finds the cursor after `done` segments. Visits the counties, but not their segments.
    pub fn after<A: Allocator>(done: u64, counties: &[County<A>]) -> Self
        requires within { done ≤ length (segments_of counties.now) }
        requires few { length (segments_of counties.now) < 2 ^ 64 }
        ensures done { result.done ≡ done }
        ensures cursor { IsCursorIn counties.now result }
    {
        let mut left = done;
        for (number, county) in counties.iter().enumerate() {
            let segments = county.segments().len() as u64;
            if left < segments {
                return Cursor {
                    done,
                    county: number,
                    segment: left as usize,
                };
            }
            left -= segments;
        }
        Cursor {
            done,
            county: counties.len(),
            segment: 0,
        }
    }

    /// Returns the next segments, at most `limit` and all of one county, and moves past them. There are none only after the last one.
    pub fn next<'a, A: Allocator>(
        &mut self,
        counties: &'a [County<A>],
        limit: usize,
    ) -> &'a [Segment<A>]
        requires cursor { IsCursorIn counties.now self.old }
        requires some { 0 < limit }
        ensures cursor { IsCursorIn counties.now self.new }
        ensures next { left_at counties.now self.old ≡ result.now ++ left_at counties.now self.new }
        ensures done { self.new.done ≡ self.old.done + length result.now }
        ensures few { length result.now ≤ limit }
        ensures end { length result.now ≡ 0 → left_at counties.now self.old ≡ [] }
    {
        while let Some(county) = counties.get(self.county) {
            let segments = county.segments();
            if self.segment < segments.len() {
                let end = self.segment + limit.min(segments.len() - self.segment);
                let next = &segments[self.segment..end];
                self.done += next.len() as u64;
                self.segment = end;
                return next;
            }
            // A county may have no segments.
            self.county += 1;
            self.segment = 0;
        }
        &[]
    }
}

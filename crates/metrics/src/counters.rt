//! The counts.
ghost use Rattle.std.specs.Prelude.{◌≡◌, ◌<◌, ◌≤◌, length};
ghost use Rattle.http_message.specs.Routes.{routes};
ghost use Rattle.http_message.specs.Status.{statuses};
ghost use Rattle.metrics.specs.Counters.{cell, column_of, new_counters, replies_of, row_of, with_judged, with_reply, with_rows};

use http_message::{Route, Status};
use std::marker::Model;

// The number of counts of replies: for each route, and for paths without one, a count for each status.
const CELLS: usize = (Route::ALL.len() + 1) * Status::ALL.len();

/// The numbers of replies, by route and status, of segments that programs and filters ran on, and of rows in replies, since a server started. Each
/// count wraps at 2^64. Contracts see a record.
#[derive(Drop)]
pub struct Counters {
    // An array, so that counting a reply allocates nothing.
    replies: [u64; CELLS],
    judged: u64,
    rows: u64,
    pub(crate) start: Option<u64>,
}

impl Model for Counters {
    ghost use Rattle.std.specs.Prelude.{◌≡◌, length};
    ghost use Rattle.metrics.specs.declared.counters.TheConstants.{CELLS};
    ghost use Rattle.metrics.specs.Counters.{CountersParts};

    ghost Value = { CountersParts };

    ghost view = { λ counters. record {
      replies = counters.replies;
      judged = counters.judged;
      rows = counters.rows;
      start = counters.start;
    } };

    ghost invariant = { λ counters. length counters.replies ≡ CELLS };
}

impl Counters {
    /// Returns counts of 0, for a process that started at this time, in seconds since 1970. `None` stands for an unknown time.
    #[tactic(auto, unfolding(crate::specs::Counters::new_counters))]
    pub fn new(start: Option<u64>) -> Counters
        ensures { result ≡ new_counters start }
    {
        Counters {
            replies: [0; CELLS],
            judged: 0,
            rows: 0,
            start,
        }
    }

    /// Counts a reply to a request for a route, or for a path without one.
    pub fn count(&mut self, route: Option<Route>, status: Status)
        ensures { self.new ≡ with_reply route status self.old }
    {
        let cell = cell(route, status);
        self.replies[cell] = self.replies[cell].wrapping_add(1);
    }

    /// Counts segments on which a program or a filter ran.
    pub fn judge(&mut self, segments: u64)
        ensures { self.new ≡ with_judged segments self.old }
    {
        self.judged = self.judged.wrapping_add(segments);
    }

    /// Counts rows in a reply.
    pub fn write_rows(&mut self, rows: u64)
        ensures { self.new ≡ with_rows rows self.old }
    {
        self.rows = self.rows.wrapping_add(rows);
    }

    /// Returns the number of replies with a status on a route.
    pub fn replies(&self, route: Option<Route>, status: Status) -> u64
        ensures { result ≡ replies_of self.now route status }
    {
        self.replies[cell(route, status)]
    }

    /// Returns the number of segments on which a program or a filter ran.
    pub fn judged(&self) -> u64
        ensures { result ≡ self.now.judged }
    {
        self.judged
    }

    /// Returns the number of rows in replies.
    pub fn rows(&self) -> u64
        ensures { result ≡ self.now.rows }
    {
        self.rows
    }
}

/// Returns the place of a count among the counts of replies.
#[tactic(auto, using(crate::proofs::CountLemmas::cell_within))]
fn cell(route: Option<Route>, status: Status) -> usize
    ensures value { result ≡ cell route status }
    ensures within { result < CELLS }
{
    row_of(route) * Status::ALL.len() + column_of(status)
}

fn row_of(route: Option<Route>) -> usize
    ensures value { result ≡ row_of route }
    ensures within { result ≤ length routes }
{
    match route {
        Some(route) => route as usize,
        None => Route::ALL.len(),
    }
}

fn column_of(status: Status) -> usize
    ensures value { result ≡ column_of status }
    ensures within { result < length statuses }
{
    status as usize
}

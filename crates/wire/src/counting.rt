//! Counting a server's work.
ghost use Rattle.std.specs.Prelude.{◌≡◌, ◌⊎◌};
ghost use Rattle.wire.specs.Answer.{counts_reply, memory_reply};
ghost use Rattle.wire.specs.Counting.{counted, judged_by, rows_among, with_request};
ghost use Rattle.wire.specs.Reply.{reply_of};

use crate::answer::Response;
use crate::state::State;
use crate::summary::Summary;
use http_message::{MediaType, Route, Status};
use metrics::Counters;
use refusals::Refusal;
use std::alloc::Allocator;

impl<A: Allocator + Copy> State<A> {
    /// Counts a connection that was served: its request, and the segments and rows of its reply.
    pub fn count(&mut self, summary: &Summary)
        ensures { self.new ≡ counted summary.now self.old }
    {
        let total = self.jobs.total();
        count_request(summary.named.route, summary.status, &mut self.counters);
        self.counters
            .judge(judged_by(summary.named.route, summary.status, total));
        self.counters.write_rows(summary.rows);
    }

    /// Returns the counts as text.
    pub(crate) fn counts_answer(&self) -> Response<'static, A>
        ensures { (reply_of result ≡ counts_reply self.now) ⊎ (reply_of result ≡ memory_reply) }
    {
        let progress = self.jobs.progress();
        match self
            .counters
            .text(self.alloc, progress.running, progress.finished)
        {
            Ok(body) => Response::Made {
                media: MediaType::Metrics,
                body,
            },
            Err(_error) => Response::Refused(Refusal::memory()),
        }
    }
}

/// Counts a request that got a reply.
fn count_request(route: Option<Route>, status: Option<Status>, counters: &mut Counters)
    ensures { counters.new ≡ with_request route status counters.old }
{
    if let Some(status) = status {
        counters.count(route, status);
    }
}

/// Returns the number of segments on which a request ran a program or a filter, of this total.
fn judged_by(route: Option<Route>, status: Option<Status>, total: u64) -> u64
    ensures { result ≡ judged_by route status total }
{
    match (route, status) {
        (Some(Route::Extract | Route::Select), Some(Status::Ok)) => total,
        _ => 0,
    }
}

/// Returns the number of rows in a reply with this number of lines.
pub(crate) fn rows_among(route: Option<Route>, status: Status, media: MediaType, lines: u64) -> u64
    ensures { result ≡ rows_among route status media lines }
{
    match (route, status, media) {
        (Some(Route::Extract), Status::Ok, _) => lines,
        // The header is no row.
        (Some(Route::Select), Status::Ok, MediaType::Csv) => lines.saturating_sub(1),
        (Some(Route::Select), Status::Ok, _) => lines,
        // The first line is the progress.
        (Some(Route::Job), Status::Ok, _) => lines.saturating_sub(1),
        _ => 0,
    }
}

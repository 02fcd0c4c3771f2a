//! The counts as text.
ghost use Rattle.std.specs.Prelude.{◌≡◌, ◌++◌, IfOk, OnOk};
ghost use Rattle.metrics.specs.Text.{jobs_text, metric, path, replies_text, reply_line, reply_name, requests_text, sample, single_text};
ghost use Rattle.metrics.specs.Text.{start_text, text, value_text};

use crate::counters::Counters;
use http_message::{Route, Status};
use itoa::Buffer;
use std::alloc::{AllocError, Allocator};

impl Counters {
    /// Returns the counts, and the numbers of running and of finished jobs, in Prometheus' text format, version 0.0.4.
    pub fn text<A: Allocator>(
        &self,
        alloc: A,
        running: u64,
        finished: u64,
    ) -> Result<Vec<u8, A>, AllocError>
        ensures { IfOk result (λ made. made.items ≡ text self.now running finished) }
    {
        let mut text = Vec::new(alloc);
        self.push_requests(&mut text)?;
        push_jobs(running, finished, &mut text)?;
        push_single(
            "extractd_segments_judged_total",
            "Segments on which a program or filter was run, for jobs, /extract and /select.",
            "counter",
            self.judged(),
            &mut text,
        )?;
        push_single(
            "extractd_rows_written_total",
            "Rows in replies of /extract, /select and /jobs/{id}.",
            "counter",
            self.rows(),
            &mut text,
        )?;
        push_start(self.start, &mut text)?;
        Ok(text)
    }

    /// Appends the numbers of replies.
    fn push_requests<A: Allocator>(&self, text: &mut Vec<u8, A>) -> Result<(), AllocError>
        ensures { OnOk result (text.new.items ≡ text.old.items ++ requests_text self.now) }
    {
        push_metric(
            "extractd_requests_total",
            "Requests that got a reply, by route and status.",
            "counter",
            text,
        )?;
        for route in Route::ALL {
            self.push_replies(Some(route), text)?;
        }
        self.push_replies(None, text)
    }

    /// Appends the numbers of replies on a route, or on paths without one.
    fn push_replies<A: Allocator>(
        &self,
        route: Option<Route>,
        text: &mut Vec<u8, A>,
    ) -> Result<(), AllocError>
        ensures { OnOk result (text.new.items ≡ text.old.items ++ replies_text self.now route) }
    {
        for status in Status::ALL {
            push_reply(route, status, self.replies(route, status), text)?;
        }
        Ok(())
    }
}

/// Appends the number of replies with a status on a route, if there are any.
fn push_reply<A: Allocator>(
    route: Option<Route>,
    status: Status,
    count: u64,
    text: &mut Vec<u8, A>,
) -> Result<(), AllocError>
    ensures { OnOk result (text.new.items ≡ text.old.items ++ reply_line route status count) }
{
    if count == 0 {
        return Ok(());
    }
    push_reply_name(route, status, text)?;
    push_value(count, text)
}

/// Appends the name of a count of replies, with its labels.
#[tactic(auto, unfolding(crate::specs::Text::reply_name))]
fn push_reply_name<A: Allocator>(
    route: Option<Route>,
    status: Status,
    text: &mut Vec<u8, A>,
) -> Result<(), AllocError>
    ensures { OnOk result (text.new.items ≡ text.old.items ++ reply_name route status) }
{
    push("extractd_requests_total{route=\"", text)?;
    push(path(route), text)?;
    push("\",status=\"", text)?;
    push(Buffer::new().format(status.code().as_u16()), text)?;
    push("\"}", text)
}

/// Returns the path of a route.
fn path(route: Option<Route>) -> &'static str
    ensures { result.now ≡ path route }
{
    match route {
        Some(route) => route.path(),
        None => "",
    }
}

/// Appends the numbers of open jobs.
fn push_jobs<A: Allocator>(
    running: u64,
    finished: u64,
    text: &mut Vec<u8, A>,
) -> Result<(), AllocError>
    ensures { OnOk result (text.new.items ≡ text.old.items ++ jobs_text running finished) }
{
    push_metric("extractd_jobs", "Open jobs, by progress.", "gauge", text)?;
    push_sample("extractd_jobs{progress=\"running\"}", running, text)?;
    push_sample("extractd_jobs{progress=\"finished\"}", finished, text)
}

/// Appends the start of the process, if it's known.
fn push_start<A: Allocator>(start: Option<u64>, text: &mut Vec<u8, A>) -> Result<(), AllocError>
    ensures { OnOk result (text.new.items ≡ text.old.items ++ start_text start) }
{
    match start {
        Some(start) => push_single(
            "process_start_time_seconds",
            "Start time of the process since the Unix epoch, in seconds.",
            "gauge",
            start,
            text,
        ),
        None => Ok(()),
    }
}

/// Appends a metric that has one sample.
fn push_single<A: Allocator>(
    name: &str,
    help: &str,
    kind: &str,
    value: u64,
    text: &mut Vec<u8, A>,
) -> Result<(), AllocError>
    ensures { OnOk result (text.new.items ≡ text.old.items ++ single_text name.now help.now kind.now value) }
{
    push_metric(name, help, kind, text)?;
    push_sample(name, value, text)
}

/// Appends the lines before the samples of a metric.
#[tactic(auto, unfolding(crate::specs::Text::metric))]
fn push_metric<A: Allocator>(
    name: &str,
    help: &str,
    kind: &str,
    text: &mut Vec<u8, A>,
) -> Result<(), AllocError>
    ensures { OnOk result (text.new.items ≡ text.old.items ++ metric name.now help.now kind.now) }
{
    push("# HELP ", text)?;
    push(name, text)?;
    push(" ", text)?;
    push(help, text)?;
    push("\n# TYPE ", text)?;
    push(name, text)?;
    push(" ", text)?;
    push(kind, text)?;
    push("\n", text)
}

/// Appends a sample.
fn push_sample<A: Allocator>(
    name: &str,
    value: u64,
    text: &mut Vec<u8, A>,
) -> Result<(), AllocError>
    ensures { OnOk result (text.new.items ≡ text.old.items ++ sample name.now value) }
{
    push(name, text)?;
    push_value(value, text)
}

/// Appends the value of a sample.
#[tactic(auto, unfolding(crate::specs::Text::value_text))]
fn push_value<A: Allocator>(value: u64, text: &mut Vec<u8, A>) -> Result<(), AllocError>
    ensures { OnOk result (text.new.items ≡ text.old.items ++ value_text value) }
{
    push(" ", text)?;
    push(Buffer::new().format(value), text)?;
    push("\n", text)
}

fn push<A: Allocator>(piece: &str, text: &mut Vec<u8, A>) -> Result<(), AllocError>
    ensures { OnOk result (text.new.items ≡ text.old.items ++ piece.now) }
{
    text.extend_from_slice(piece.as_bytes())
}

//! The events of a table of jobs, and its replies.

use crate::fault::JobFault;

/// A request to a table of jobs.
#[derive(Clone, Copy)]
pub enum Event<'a> {
    /// The submission of the program with these bytes as a job.
    Submit(&'a [u8]),
    /// A turn of the job with this id.
    Turn(u64),
    /// A request for the progress and the rows of the job with this id.
    Fetch(u64),
    /// The removal of the job with this id and its rows.
    Drop(u64),
}

/// A reply of a table of jobs. Of the `total` segments of a job, `done` have been processed.
#[derive(Clone, Copy, PartialEq, Eq)]
pub enum Reply<'a> {
    /// For a submission: the id of the job that was opened, counted from 1.
    Submitted(u64),
    /// For a turn.
    Turned {
        done: u64,
        total: u64,
    },
    /// For a fetch. The rows are borrowed: no byte of them is copied.
    Rows {
        done: u64,
        total: u64,
        rows: &'a [u8],
    },
    /// For a removal.
    Dropped,
    /// For any request: why it was refused. The table is unchanged.
    Refused(JobFault),
}

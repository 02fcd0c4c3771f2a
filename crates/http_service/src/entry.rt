//! What a line of the log says.
use http_message::{Route, Status, Verb};
use httpdate::HttpDate;
use std::net::IpAddr;

/// What a line of the log is about.
#[derive(Clone, Copy, PartialEq, Eq)]
pub enum EntrySubject {
    /// The server starts.
    Start,
    /// A connection couldn't be accepted.
    FailedAccept,
    // By names of the table, not as sent, so that a client can't write into the log.
    /// A request, by its method and its route. Either is `None` if no route has it.
    Request {
        verb: Option<Verb>,
        route: Option<Route>,
    },
}

/// An entry of the log. It has no text of a request; what isn't known is `None`.
#[derive(Clone, Copy)]
pub struct Entry {
    pub peer: Option<IpAddr>,
    pub date: Option<HttpDate>,
    pub subject: EntrySubject,
    pub status: Option<Status>,
    /// The length of the reply's body, in bytes, if the reply was written completely.
    pub length: Option<u64>,
    /// The number of bytes read.
    pub received: Option<u64>,
    /// The time from the accept to the end of the reply, in microseconds.
    pub micros: Option<u64>,
}

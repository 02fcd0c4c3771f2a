//! What a request was, and what its reply is.
use counted_io::WriteFault;
use http_message::{MediaType, Route, Status, Verb};

/// The method and the route that a request's head names. Either is `None` if there is no head, or if no route has it.
#[derive(Clone, Copy, PartialEq, Eq)]
pub struct Named {
    pub verb: Option<Verb>,
    pub route: Option<Route>,
}

/// A reply that was written, completely or up to a fault.
#[derive(Clone, Copy)]
pub(crate) struct Sent {
    pub status: Status,
    pub media: MediaType,
    /// The length of the body.
    pub length: usize,
    /// The number of line feeds in the body.
    pub lines: u64,
    pub written: Result<(), WriteFault>,
}

/// What a request was, and what its reply is, without any text of the request.
#[derive(Clone, Copy, PartialEq, Eq)]
pub struct Summary {
    pub named: Named,
    /// The status of the reply, or `None` if there is no reply.
    pub status: Option<Status>,
    /// The length of the reply's body, or `None` if the reply wasn't written completely.
    pub length: Option<u64>,
    /// The number of rows in the reply, or 0 if the reply wasn't written completely.
    pub rows: u64,
}

//! HTTP/1.1 messages (RFC 9112): requests, their routes, and replies.
//!
//! A head is read without allocating, and a body into memory allocated as its bytes arrive. Each reply closes its connection.
#![tactic(auto)]

mod body;
mod head;
pub mod laws;
mod length;
mod reply;
mod request;
mod route;
mod router;
mod status;
mod target;

pub use body::{BodyFault, read_body};
pub use head::{HeadBuffer, HeadFault, MAX_HEAD_LENGTH, MAX_HEADERS};
pub use length::{LengthFault, MAX_BODY_LENGTH};
pub use reply::{MAX_ALLOW_LENGTH, MAX_LEAD_LENGTH, MediaType, Reply};
pub use request::Request;
pub use route::{Action, Route, Verb, index};
pub use router::Routes;
pub use status::Status;
pub use target::{Target, job_id};

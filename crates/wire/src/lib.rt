//! The HTTP server over readers and writers. It reads one request and writes one reply (RFC 9112; HTTP/1.0 and 1.1).
#![tactic(auto)]

mod answer;
mod counting;
mod decision;
mod explanation;
mod fault;
mod filter;
mod geocode_batch;
mod geocoder;
mod job;
pub mod laws;
mod parameter_fault;
mod programs;
mod query;
mod serving;
mod state;
mod summary;

pub use decision::RequestRead;
pub use fault::WireFault;
pub use serving::{Served, serve_one, serve_request};
pub use state::State;
pub use summary::{Named, Summary};

//! A TCP server that handles one connection after the other on one thread. Its caller gives the service of a connection. No client can hold it longer
//! than its limits allow.
#![tactic(auto)]

mod acceptor;
mod client_socket;
mod client_stream;
mod limits;
mod listener;
mod service;
mod serving;
mod socket;
mod stopwatch;
mod tally;
mod timed;

pub use acceptor::{Acceptor, Connection};
pub use limits::{Limits, wait_left};
pub use listener::Listener;
pub use service::{ClientInput, ClientOutput, Close, Service};
pub use serving::{serve_all, serve_next};
pub use stopwatch::Timer;
pub use tally::Tally;

//! Connections over loopback sockets, with a client and the server on one thread.

mod accepts;
mod clients;
mod clocks;
mod closes;
mod counts;
mod exchange;
mod faults;
mod http;
mod logs;
mod submissions;
mod timeouts;
mod waits;

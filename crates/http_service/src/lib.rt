//! The HTTP service with its log: it answers each connection of a server, counts it, and writes a line in the Common Log Format.
#![tactic(auto)]

mod entry;
mod host;
pub mod laws;
mod line;
mod logged;
mod logged_listener;
mod logging;

pub use entry::{Entry, EntrySubject};
pub use line::MAX_LINE_LENGTH;
pub use logged::Logged;
pub use logged_listener::LoggedListener;
pub use logging::{WallClock, read_second};

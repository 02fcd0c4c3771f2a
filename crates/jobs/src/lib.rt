//! A table of jobs. Each job makes the extract of its own program over the same counties, turn by turn, isolated from the other jobs.
#![tactic(auto)]

mod cursor;
mod event;
mod fault;
mod job;
pub mod laws;
mod listing;
mod progress;
mod table;
mod turn;

pub use cursor::MAX_COUNTIES;
pub use event::{Event, Reply};
pub use fault::JobFault;
pub use progress::Progress;
pub use table::{Jobs, MAX_JOBS};
pub use turn::{SEGMENTS_PER_TURN, advance};

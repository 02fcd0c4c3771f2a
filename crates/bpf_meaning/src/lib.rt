//! The meaning of BPF code on a street segment (RFC 9669): configurations, steps, runs and answers.
#![tactic(auto)]

mod bytes;
mod calls;
mod cause;
mod effect;
mod frame;
pub mod laws;
mod memory;
mod operands;
mod outcome;
mod progress;
mod record_alone;
mod state;
mod stepper;
mod table;

pub use cause::Cause;
pub use effect::{Change, Effect};
pub use frame::Frame;
pub use outcome::Outcome;
pub use record_alone::instruction_reads_record_alone;
pub use state::{REGISTERS, State};
pub use stepper::{step, trace};

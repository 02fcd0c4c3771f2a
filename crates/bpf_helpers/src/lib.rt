//! The helper functions that a program may call: their table of prototypes, and the effect of each on a street segment.
#![tactic(auto)]

mod calls;
mod fields;
mod helper;
pub mod laws;
mod signature;

pub use calls::call;
pub use helper::{HELPERS, Helper};
pub use signature::{Argument, FrameUse, Group, Signature};

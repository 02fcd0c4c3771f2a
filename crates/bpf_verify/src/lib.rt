//! The verifier, which proves in one pass of abstract interpretation that a program can't get stuck on any segment.
#![tactic(auto)]

mod abstract_state;
mod calls;
mod comparison;
mod fault;
pub mod laws;
mod memory;
mod operands;
mod pass;
mod successors;
mod table;
mod verified;
mod visitor;
mod worklist;

pub use abstract_state::AbstractState;
pub use fault::VerifyFault;
pub use pass::{check, verify, verify_with};
pub use verified::Verified;
pub use visitor::Visitor;

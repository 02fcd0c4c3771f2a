//! BPF codes (RFC 9669) whose jumps all go forward and that end in EXIT: no run of such a code takes more steps than it has instructions.
#![tactic(auto)]

mod fault;
mod flow;
pub mod laws;

pub use fault::FlowFault;
pub use flow::Flow;

//! What is known of a program's frame before it runs: which of its bytes are written, what its slots hold, and how such knowledge is ordered.
#![tactic(auto)]

mod frame_map;
pub mod laws;

pub use frame_map::FrameMap;

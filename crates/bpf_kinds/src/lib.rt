//! What is known of a register's value before a program runs: intervals, offsets of pointers and kinds, their order, and the results of
//! instructions and conditional jumps on them.
#![tactic(auto)]

mod interval;
mod kind;
pub mod laws;
mod moving;
pub mod moving_laws;
mod narrowing;
pub mod narrowing_laws;
mod number_width;
mod offsets;
mod operation;
mod order;
mod results;

pub use interval::Interval;
pub use kind::Kind;
pub use moving::near_distances;
pub use narrowing::{Narrowed, refine};
pub use number_width::NumberWidth;
pub use offsets::Offsets;
pub use order::Order;
pub use results::{alu, byte_swap, extend, immediate_operand, load, negate, wide_number};

//! Filters compiled to BPF programs that the verifier accepts and that select exactly the segments on which the filter is true.
#![tactic(auto)]

mod arithmetic;
mod bounds;
mod bytes;
mod compiler;
mod edges;
mod expressions;
mod fault;
mod field;
mod field_pairs;
mod folding;
mod function;
mod instructions;
pub mod laws;
mod line;
mod names;
mod numbers;
mod patterns;
mod pieces;
mod question;
mod shape_instructions;
mod shapes;
mod suffix;
mod text_columns;
mod texts;
mod within;

pub use compiler::compile;
pub use fault::CompileFault;

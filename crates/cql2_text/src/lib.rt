//! Reading filters from text (OGC CQL2, 21-065r2, Text encoding).
#![tactic(auto)]

mod clause;
mod connective;
mod coordinates;
mod expression;
mod fault;
mod function;
mod hint;
pub mod laws;
mod literal;
mod nearest;
mod numeric;
mod operand;
mod parenthesis;
mod parser;
mod pattern;
mod predicate;
mod reader;
mod relation;
mod shape;
mod subexpression;
mod syntax_fault;
mod terminal;
mod text;
mod text_first;
mod unit;

pub use cql2_tokens::column_named;
pub use fault::{Construct, FilterFault, FilterFaultKind};
pub use hint::Hint;
pub use reader::{MAX_TEXT_LENGTH, read};

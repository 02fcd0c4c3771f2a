//! The tokens of a filter's text (OGC CQL2, 21-065r2, Text encoding), the names of columns and keywords, and the characters of string literals.
#![tactic(auto)]

mod characters;
pub mod laws;
mod lexer;
mod name;
mod nearest;
mod token;

pub use characters::character;
pub use cql2::column_name;
pub use lexer::Tokens;
pub use name::column_named;
pub use nearest::{leading_name, near_column, nearest_column};
pub use token::{FunctionName, Keyword, Numeral, ShapeTag, Sign, Token};

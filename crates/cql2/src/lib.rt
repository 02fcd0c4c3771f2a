//! Filters over street segments in OGC's Common Query Language (CQL2, 21-065r2): their meaning, and the segments on which they are true.
#![tactic(auto)]

mod column;
mod expression;
mod filter;
mod function;
mod geometry;
mod number;
mod pattern;
mod text;

pub use column::{
    COLUMNS, Column, CoordinateColumn, MAX_COLUMNS, NumberColumn, NumericColumn, TextColumn,
    column_name,
};
pub use expression::{Expression, Number, Operator};
pub use filter::{Comparison, Filter};
pub use function::Function;
pub use geometry::{Bound, Bounds, Polygon, Polygons, Ring, Shape, Vertex};
pub use number::{HouseNumber, Literal, NameLimit};
pub use pattern::{Folding, Pattern, PatternPart};
pub use text::Text;

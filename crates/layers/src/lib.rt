//! Layers: the segments that a program selects, as rows, as a table in CSV, or as features in GeoJSON.
#![tactic(auto)]

mod cell;
mod columns;
mod columns_fault;
mod counties;
mod csv_table;
mod ends;
mod feature_lines;
mod feature_writer;
mod geometry;
pub mod laws;
mod layer;
mod layer_fault;
mod line;
mod names;
mod string;
mod text;
mod value;
mod writing;

pub use columns::Columns;
pub use columns_fault::ColumnsFault;
pub use counties::lay_out;
pub use geometry::Geometry;
pub use layer::{Layer, TableOptions};
pub use layer_fault::LayerFault;
pub use names::layer_named;
pub use writing::{write_county, write_layer};

//! Street segments (TIGER/Line 2006, record types 1, 2, 4, 5 and 6): their names, address ranges and shapes, and how they are built from a county's
//! files.
#![tactic(auto)]

mod county;
mod county_file;
mod county_files;
mod fault;
mod feature_names;
mod full_name;
mod index;
mod index_tables;
mod joined;
pub mod laws;
mod limits;
mod marks;
mod multi_map;
mod name;
mod range;
mod segment;
mod shape;
mod shapes;
mod shared_lists;
mod validation_tables;

pub use county::County;
pub use county_files::{CountyFiles, JoinedFiles};
pub use fault::{CountyFile, LoadFault};
pub use full_name::{DIRECTION_LENGTH, FullName, TYPE_LENGTH};
pub use index::Index;
pub use limits::{MAX_LINES_PER_TLID, MAX_NAMES, MAX_POINTS, MAX_RANGES};
pub use name::{NAME_LENGTH, name_equals};
pub use range::{ADDRESS_LENGTH, Range, ZIP_LENGTH, lies_on};
pub use segment::Segment;
pub use shape::{Point, ShapePart};
pub use shapes::Shapes;
pub use tl_records::RECORD_LENGTH;

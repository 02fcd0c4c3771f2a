//! Lines of a county's files (TIGER/Line 2006, record types 1, 2, 4, 5 and 6): how they are read and checked, and their fields.
#![tactic(auto)]

mod fault;
pub mod laws;
mod layout;
mod lines;
mod record;

pub use fault::{LineFault, LineFaultKind};
pub use layout::{Layout, Places, RECORD_LENGTH, RecordType, Type1, Type2, Type4, Type5, Type6};
pub use lines::{Line, read_line, read_line_into};
pub use record::{Record, Rt1, Rt2, Rt4, Rt5, Rt6, rt1, rt2, rt4, rt5, rt6};

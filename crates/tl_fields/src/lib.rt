//! Fields of a record line, and the numbers and coordinates in them.
#![tactic(auto)]

mod aligned;
mod fields;
mod numbers;

pub use aligned::has_number;
pub use counted_io::{
    Buffered, CountedRead, CountedWrite, Counting, Fuse, InjectedFailure, MAX_CONTENT_LENGTH, Stop,
    WriteFault, count_one, write_text,
};
pub use fields::field;
pub use numbers::{blank, coordinate, number};

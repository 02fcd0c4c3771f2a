//! Readers and writers that count their failures, lines found in a reader's buffer, and texts written completely.
#![tactic(auto)]

mod buffered;
mod content;
mod counting;
mod fuse;
mod line_copy;
mod writing;

pub use buffered::Buffered;
pub use content::{MAX_CONTENT_LENGTH, Stop};
pub use counting::{CountedRead, CountedWrite, Counting, count_one};
pub use fuse::{Fuse, InjectedFailure};
pub use writing::{WriteFault, write_text};

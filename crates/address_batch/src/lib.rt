//! Batches of addresses: where each is in counties, or why it wasn't found, as lines of CSV.
#![tactic(auto)]

mod address_query;
mod batch;
mod cells;
mod lines;
mod lookup;
mod output;
mod reason;
mod row;
mod shaped;

pub use batch::Batch;
pub use cells::header;
pub use lines::Lines;
pub use lookup::MatchStatus;
pub use reason::Reason;

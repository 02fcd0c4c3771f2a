//! Addresses read from a CSV file (RFC 4180) with a header.
#![tactic(auto)]

mod addresses;
mod columns;
mod fault;
pub mod laws;
mod record;
mod records;
mod regular;
mod row;
mod text;
mod unread;

pub use addresses::Addresses;
pub use fault::{AddressFault, AddressFaultKind};
pub use record::MAX_RECORD_LENGTH;
pub use row::{Address, AddressRow};

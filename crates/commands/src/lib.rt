//! The commands. Each reads the files that its request names, and writes to an output and an error writer that the caller passes in.
#![tactic(auto)]

mod assemble;
mod compile;
mod counties;
mod disassemble;
mod explain;
mod failure;
mod flushing;
mod geocode_batch;
mod geocoder;
mod inputs;
mod request;
mod run;
mod select;
mod trace;
mod verify;

pub use assemble::Assemble;
pub use compile::Compile;
pub use counties::load_counties;
pub use disassemble::Disassemble;
pub use explain::Explain;
pub use failure::{Failure, OUT_OF_MEMORY, UNUSABLE, USAGE};
pub use flushing::FlushedWrite;
pub use geocode_batch::GeocodeBatch;
pub use geocoder::Geocode;
pub use request::Request;
pub use run::Run;
pub use select::Select;
pub use trace::Trace;
pub use verify::Verify;

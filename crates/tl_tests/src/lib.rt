//! Tests of the crates for records, segments and addresses: `tl_fields`, `tl_records`, `tl_segments`, `geocode`, `addresses` and `address_batch`. They
//! use public calls, and are in a separate crate because a crate with tests is proved twice, once without them and once with them.
#![tactic(auto)]

#[cfg(test)]
mod address_files;
#[cfg(test)]
mod counties;
#[cfg(test)]
mod failures;
#[cfg(test)]
mod fields;
#[cfg(test)]
mod hits;
#[cfg(test)]
mod lines;
#[cfg(test)]
mod matching;
#[cfg(test)]
mod plain;
#[cfg(test)]
mod readers;
#[cfg(test)]
mod seen;
#[cfg(test)]
mod shape_places;
#[cfg(test)]
mod shapes;
#[cfg(test)]
mod sweep;
#[cfg(test)]
mod tables;
#[cfg(test)]
mod writers;

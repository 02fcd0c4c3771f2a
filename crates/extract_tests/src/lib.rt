//! Tests of the crates `extract` and `jobs`. They use public calls, and are in a separate crate because a crate with tests is proved twice, once
//! without them and once with them.
#![tactic(auto)]

#[cfg(test)]
mod advances;
#[cfg(test)]
mod calls;
#[cfg(test)]
mod county_layers;
#[cfg(test)]
mod extracts;
#[cfg(test)]
mod formats;
#[cfg(test)]
mod generated;
#[cfg(test)]
mod layer_texts;
#[cfg(test)]
mod order;
#[cfg(test)]
mod pair;
#[cfg(test)]
mod plain;
#[cfg(test)]
mod rows;
#[cfg(test)]
mod scripts;
#[cfg(test)]
mod segments;
#[cfg(test)]
mod sizes;
#[cfg(test)]
mod sweep;

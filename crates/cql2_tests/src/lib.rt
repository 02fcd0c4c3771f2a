//! Tests of the crates for filters: `cql2_text`, `cql2_json`, `filters`, and `cql2_code` by the programs that it makes. They are in a separate crate
//! because a crate with tests is proved twice, once without them and once with them.
#![tactic(auto)]

#[cfg(test)]
mod filter_failures;
#[cfg(test)]
mod filter_texts;
#[cfg(test)]
mod function_texts;
#[cfg(test)]
mod json;
#[cfg(test)]
mod json_filters;
#[cfg(test)]
mod selections;
#[cfg(test)]
mod shape_texts;
#[cfg(test)]
mod sweep;

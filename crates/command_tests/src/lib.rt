//! Tests of the command line, over files in memory. Expected rows, lines and statuses were worked out by hand.
#![tactic(auto)]

#[cfg(test)]
mod arguments;
#[cfg(test)]
mod batches;
#[cfg(test)]
mod cases;
#[cfg(test)]
mod conversions;
#[cfg(test)]
mod counties;
#[cfg(test)]
mod devices;
#[cfg(test)]
mod echoes;
#[cfg(test)]
mod endings;
mod files;
#[cfg(test)]
mod formats;
#[cfg(test)]
mod geocodes;
mod known;
#[cfg(test)]
mod listings;
#[cfg(test)]
mod reads;
#[cfg(test)]
mod runs;
#[cfg(test)]
mod selections;
#[cfg(test)]
mod sweep;
#[cfg(test)]
mod verdicts;

//! The outcomes of steps.

use crate::cause::Cause;

/// The outcome of a step.
#[derive(Clone, Copy, PartialEq, Eq)]
pub enum Outcome {
    /// The program goes on.
    Running,
    /// The program ended, with register 0 as its answer.
    Exit { answer: u64, score: u64 },
    /// The instruction at this place can't be executed. Places count words from 0.
    Stuck { place: usize, cause: Cause },
}

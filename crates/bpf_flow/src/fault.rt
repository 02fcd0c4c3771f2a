//! The reasons why the flow of a code is refused.
use refusals::{Fault, Refusal};
use thiserror::Error;

/// The reason why the flow of a code is refused. Places count words from 0.
#[derive(Clone, Copy, Debug, PartialEq, Eq, Error)]
pub enum FlowFault {
    #[error("the jump at place {place} goes backwards")]
    BackwardJump { place: usize },
    #[error("the jump at place {place} leaves the program")]
    OutOfProgram { place: usize },
    #[error("the jump at place {place} leads to the second word of a wide load")]
    IntoWide { place: usize },
    #[error("the last instruction, at place {place}, is no exit")]
    LastNotExit { place: usize },
}

impl Fault for FlowFault {
    ghost use Rattle.bpf_flow.specs.FlowFault.{refusal};

    ghost refusal_of = { refusal };

    fn refusal(&self) -> Refusal {
        match *self {
            FlowFault::BackwardJump { place } => Refusal::refused(30, "BackwardJump").at_place(
                place,
            ),
            FlowFault::OutOfProgram { place } => Refusal::refused(31, "OutOfProgram").at_place(
                place,
            ),
            FlowFault::IntoWide { place } => Refusal::refused(32, "IntoWide").at_place(place),
            FlowFault::LastNotExit { place } => Refusal::refused(33, "LastNotExit").at_place(place),
        }
    }
}

//! The reasons why a code is refused.
ghost use Rattle.std.specs.Prelude.{◌≡◌};
ghost use Rattle.bpf_verify.specs.declared.fault.VerifyFault.TheVariants.{Memory};

use bpf_meaning::Cause;
use refusals::{Fault, Refusal};
use std::alloc::AllocError;
use thiserror::Error;

/// The reason why a code is refused.
#[derive(Clone, Copy, Debug, PartialEq, Eq, Error)]
pub enum VerifyFault {
    /// The instruction at this place may get stuck for this cause. Places count words from 0.
    #[error("the instruction at place {place} may be stuck: {cause:?}")]
    Refused { place: usize, cause: Cause },
    #[error("out of memory")]
    Memory,
}

impl From<AllocError> for VerifyFault {
    ghost from_gives = { λ _ fault. fault ≡ Memory };

    fn from(_error: AllocError) -> VerifyFault {
        VerifyFault::Memory
    }
}

impl Fault for VerifyFault {
    ghost use Rattle.bpf_verify.specs.VerifyFault.{refusal};

    ghost refusal_of = { refusal };

    fn refusal(&self) -> Refusal {
        match *self {
            VerifyFault::Refused { place, cause } => cause.refusal().at_place(place),
            VerifyFault::Memory => Refusal::memory(),
        }
    }
}

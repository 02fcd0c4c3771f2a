//! Why a filter can't be compiled.
ghost use Rattle.std.specs.Prelude.{◌≡◌};
ghost use Rattle.cql2_code.specs.declared.fault.CompileFault.TheVariants.{Memory};

use refusals::{Fault, Refusal};
use std::alloc::AllocError;
use thiserror::Error;

/// Why a filter can't be compiled. The derived text is for people.
#[derive(Clone, Copy, Debug, PartialEq, Eq, Error)]
pub enum CompileFault {
    #[error("the program would have more than 65,536 words")]
    TooLong,
    #[error("out of memory")]
    Memory,
}

impl From<AllocError> for CompileFault {
    ghost from_gives = { λ _ fault. fault ≡ Memory };

    fn from(_error: AllocError) -> CompileFault {
        CompileFault::Memory
    }
}

impl Fault for CompileFault {
    ghost use Rattle.cql2_code.specs.CompileFault.{refusal};

    ghost refusal_of = { refusal };

    // The fault concerns the filter as a whole, so the refusal names its first character.
    fn refusal(&self) -> Refusal {
        match self {
            CompileFault::TooLong => Refusal::refused(96, "TooLong").at_character(1, 1),
            CompileFault::Memory => Refusal::memory(),
        }
    }
}

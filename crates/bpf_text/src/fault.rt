//! Why a source of program text is refused.
ghost use Rattle.std.specs.Prelude.{◌≡◌};
ghost use Rattle.bpf_assembler.specs.declared.fault.TextFault.TheVariants.{Memory};
ghost use Rattle.bpf_text.specs.declared.fault.SourceFault.TheVariants.{Text};

use bpf_assembler::TextFault;
use std::alloc::AllocError;
use thiserror::Error;

/// Why a source has no instruction words.
#[derive(Clone, Copy, Debug, PartialEq, Eq, Error)]
pub enum SourceFault {
    #[error("the source isn't UTF-8")]
    NotUtf8,
    #[error("{0}")]
    Text(TextFault),
}

impl From<TextFault> for SourceFault {
    ghost from_gives = { λ fault given. given ≡ Text fault };

    fn from(fault: TextFault) -> SourceFault {
        SourceFault::Text(fault)
    }
}

impl From<AllocError> for SourceFault {
    ghost from_gives = { λ _ fault. fault ≡ Text Memory };

    fn from(_error: AllocError) -> SourceFault {
        SourceFault::Text(TextFault::Memory)
    }
}

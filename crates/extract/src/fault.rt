//! Why there is no complete extract.
ghost use Rattle.std.specs.Prelude.{◌≡◌};
ghost use Rattle.extract.specs.ExtractFault.{of_program, of_load};
ghost use Rattle.extract.specs.declared.fault.ExtractFault.TheVariants.{Write};

use bpf_program::ProgramFault;
use counted_io::WriteFault;
use refusals::{Fault, Refusal};
use thiserror::Error;
use tl_segments::LoadFault;

/// Why there is no complete extract: one variant for each part of the work that can fail, and one for running out of memory.
#[derive(Clone, Copy, Debug, PartialEq, Eq, Error)]
pub enum ExtractFault {
    #[error("{0}")]
    Program(ProgramFault),
    #[error("{0}")]
    Load(LoadFault),
    #[error("{0}")]
    Write(WriteFault),
    #[error("out of memory")]
    Memory,
}

impl From<ProgramFault> for ExtractFault {
    ghost from_gives = { λ fault given. given ≡ of_program fault };

    fn from(fault: ProgramFault) -> ExtractFault {
        match fault {
            ProgramFault::Memory => ExtractFault::Memory,
            fault => ExtractFault::Program(fault),
        }
    }
}

impl From<LoadFault> for ExtractFault {
    ghost from_gives = { λ fault given. given ≡ of_load fault };

    fn from(fault: LoadFault) -> ExtractFault {
        match fault {
            LoadFault::Memory => ExtractFault::Memory,
            fault => ExtractFault::Load(fault),
        }
    }
}

impl From<WriteFault> for ExtractFault {
    ghost from_gives = { λ fault given. given ≡ Write fault };

    fn from(fault: WriteFault) -> ExtractFault {
        ExtractFault::Write(fault)
    }
}

impl Fault for ExtractFault {
    ghost use Rattle.extract.specs.ExtractFault.{refusal};

    ghost refusal_of = { refusal };

    fn refusal(&self) -> Refusal {
        match self {
            ExtractFault::Program(fault) => fault.refusal(),
            ExtractFault::Load(fault) => fault.refusal(),
            ExtractFault::Write(fault) => fault.refusal(),
            ExtractFault::Memory => Refusal::memory(),
        }
    }
}

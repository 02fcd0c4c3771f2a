//! Why a table of jobs refuses a request.
ghost use Rattle.std.specs.Prelude.{◌≡◌};
ghost use Rattle.jobs.specs.JobFault as job_fault;
ghost use Rattle.jobs.specs.JobFault.{of_program};
ghost use Rattle.jobs.specs.declared.fault.JobFault.TheVariants.{Memory};

use arrayvec::ArrayString;
use bpf_program::ProgramFault;
use refusals::{Fault, Refusal};
use std::alloc::{AllocError, AllocFailed};
use thiserror::Error;

/// Why a table of jobs refuses a request.
#[derive(Clone, Copy, Debug, PartialEq, Eq, Error)]
pub enum JobFault {
    /// The limit of open jobs is reached, or the greatest id was assigned.
    #[error("no job can be opened")]
    Full,
    /// No open job has this id.
    #[error("no such job")]
    NoJob,
    /// The program isn't accepted. This is never an allocation failure.
    #[error("{0}")]
    Program(ProgramFault),
    #[error("out of memory")]
    Memory,
}

impl From<ProgramFault> for JobFault {
    ghost from_gives = { λ fault given. given ≡ of_program fault };

    fn from(fault: ProgramFault) -> JobFault {
        match fault {
            ProgramFault::Memory => JobFault::Memory,
            fault => JobFault::Program(fault),
        }
    }
}

impl From<AllocError> for JobFault {
    ghost from_gives = { λ fault given. given ≡ Memory };

    fn from(_fault: AllocError) -> JobFault {
        JobFault::Memory
    }
}

impl<T: Drop> From<AllocFailed<T>> for JobFault {
    ghost from_gives = { λ fault given. given ≡ Memory };

    fn from(_fault: AllocFailed<T>) -> JobFault {
        JobFault::Memory
    }
}

impl JobFault {
    /// Returns the fault as a refusal. All refused programs have the same number, whatever that of their own refusal.
    pub fn refusal(&self) -> Refusal
        ensures { result ≡ job_fault.refusal self.now }
    {
        match self {
            JobFault::Full => Refusal::refused(70, "Full"),
            JobFault::NoJob => Refusal::refused(71, "NoJob"),
            // The table's refusal. The line has the program's own, which its sender needs.
            JobFault::Program(_) => Refusal::refused(72, "Refused"),
            JobFault::Memory => Refusal::memory(),
        }
    }

    /// Returns the refusal's line of text, without a line end. For a refused program, it's the line of the program's own refusal. It doesn't
    /// allocate.
    pub fn line(&self) -> ArrayString<64>
        ensures { result.bytes ≡ job_fault.line self.now }
    {
        match self {
            JobFault::Program(fault) => fault.line(),
            fault => fault.refusal().line(),
        }
    }
}

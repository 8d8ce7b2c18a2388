//! What ends a run before there is an answer.

use hv_bytes::Failed;
use std::alloc::AllocError;

/// Why there is no answer.
#[derive(Clone, Copy, Debug, PartialEq, Eq)]
pub(crate) enum JobFault {
    /// A file can't be opened or read.
    ReadFault,
    /// Memory was refused.
    Memory,
}

impl From<AllocError> for JobFault {
    ghost use Rattle.std.specs.Prelude.{◌≡◌};
    ghost use Rattle.hv_command.specs.declared.job_fault.JobFault.TheVariants as T;

    ghost from_gives = { λ _ met. met ≡ T.Memory };

    fn from(_error: AllocError) -> JobFault {
        JobFault::Memory
    }
}

impl From<Failed> for JobFault {
    ghost use Rattle.std.specs.Prelude.{◌≡◌};
    ghost use Rattle.hv_command.specs.declared.job_fault.JobFault.TheVariants as T;

    ghost from_gives = { λ _ met. met ≡ T.ReadFault };

    fn from(_error: Failed) -> JobFault {
        JobFault::ReadFault
    }
}

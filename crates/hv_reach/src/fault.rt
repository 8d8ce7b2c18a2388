//! Why no proof by pairs is looked for.

use std::alloc::AllocError;
use thiserror::Error;

/// Why a proof by reached pairs wasn't looked for.
#[derive(Clone, Copy, Debug, PartialEq, Eq, Error)]
pub enum ReachFault {
    /// The task has more than 1,024 atoms.
    #[error("too many atoms")]
    TooManyAtoms,
    /// Memory ran out.
    #[error("out of memory")]
    Memory,
}

impl From<AllocError> for ReachFault {
    ghost use Rattle.std.specs.Prelude.{◌≡◌};
    ghost use Rattle.hv_reach.specs.declared.fault.ReachFault.TheVariants as F;

    ghost from_gives = { λ _ error. error ≡ F.Memory };

    fn from(_error: AllocError) -> ReachFault {
        ReachFault::Memory
    }
}

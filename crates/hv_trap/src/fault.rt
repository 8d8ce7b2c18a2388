//! Why no trap is looked for.

use std::alloc::AllocError;
use thiserror::Error;

/// Why the greatest trap wasn't looked for.
#[derive(Clone, Copy, Debug, PartialEq, Eq, Error)]
pub enum TrapFault {
    /// The task has more than 64 atoms.
    #[error("too many atoms")]
    TooManyAtoms,
    /// Memory ran out.
    #[error("out of memory")]
    Memory,
}

impl From<AllocError> for TrapFault {
    ghost use Rattle.std.specs.Prelude.{◌≡◌};
    ghost use Rattle.hv_trap.specs.declared.fault.TrapFault.TheVariants as F;

    ghost from_gives = { λ _ error. error ≡ F.Memory };

    fn from(_error: AllocError) -> TrapFault {
        TrapFault::Memory
    }
}

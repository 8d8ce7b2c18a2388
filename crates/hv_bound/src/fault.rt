//! Why a task isn't made, and why a plan isn't read.

ghost use Rattle.std.specs.Prelude.{◌≡◌};
ghost use Rattle.hv_bound.specs.PlanFile.{plan_fault};
ghost use Rattle.hv_bound.specs.declared.fault.BoundFault.TheVariants as BoundFault;

use hv_grammar::ParseFault;
use std::alloc::AllocError;
use thiserror::Error;

/// Why the task of a cost bound isn't made.
#[derive(Clone, Copy, Debug, PartialEq, Eq, Error)]
pub enum BoundFault {
    /// It would have more than 65,535 atoms or more than 1,000,000 actions.
    #[error("the task would have too many atoms or actions")]
    TooLarge,
    /// Memory ran out.
    #[error("out of memory")]
    Memory,
}

impl From<AllocError> for BoundFault {
    ghost from_gives = { λ _ fault. fault ≡ BoundFault.Memory };

    fn from(_error: AllocError) -> BoundFault {
        BoundFault::Memory
    }
}

/// Why a plan file isn't read. Lines are counted from 1.
#[derive(Clone, Copy, Debug, PartialEq, Eq, Error)]
pub enum PlanFault {
    /// The line is no short decimal, isn't empty and doesn't begin with `#`.
    #[error("line {0} is no step")]
    Place(u64),
    /// The line's last byte lies past byte 8,388,608, whatever its form.
    #[error("line {0} passes a limit")]
    Limit(u64),
    /// The shelf failed.
    #[error("the file can't be read")]
    ReadFault,
    /// Memory ran out.
    #[error("out of memory")]
    Memory,
}

impl From<ParseFault<()>> for PlanFault {
    ghost from_gives = { λ given fault. fault ≡ plan_fault given };

    fn from(given: ParseFault<()>) -> PlanFault {
        match given {
            ParseFault::Refused(line, ()) => PlanFault::Place(line),
            ParseFault::Long(line) => PlanFault::Limit(line),
            ParseFault::ReadFault => PlanFault::ReadFault,
            ParseFault::Memory => PlanFault::Memory,
        }
    }
}

//! Dual Horn formulas: the kind, and the set and the store of it.

ghost use Rattle.std.specs.Prelude.{◌≡◌, true, false};
ghost use Rattle.hv_sets.specs.Kinds.{IsDualHornClause};
ghost use Rattle.hv_propagation.specs.declared.completion.Completion.TheVariants as C;
ghost use Rattle.hv_formula.specs.declared.kept_lists.KeptLists.TheVariants as L;
ghost use Rattle.hv_horn.specs.DualFault.{IsDualHornFault, memory_is_fault};
ghost use Rattle.hv_horn.specs.Working.Laws as laws;
ghost use Rattle.hv_horn.specs.declared.dual_horn.DualHornFault.TheVariants as F;

use crate::headed::is_headed;
use hv_clauses::Formulas;
use hv_formula::{ClauseKind, Formula, KeptLists};
use hv_propagation::Completion;
use hv_sets::Literal;
use std::alloc::AllocError;
use thiserror::Error;

/// Why clauses are no dual Horn formula.
#[derive(Debug, Drop, Error)]
pub enum DualHornFault {
    /// The clause at this place, from 0, is the first that has negative literals of two different
    /// atoms.
    #[error("clause {0} is no dual Horn clause")]
    NotDual(usize),
    /// There is no memory.
    #[error("out of memory")]
    Memory,
}

impl From<AllocError> for DualHornFault {
    ghost from_gives = { λ _ fault. fault ≡ F.Memory };

    fn from(_: AllocError) -> DualHornFault {
        DualHornFault::Memory
    }
}

/// Dual Horn clauses: the negative literals of a clause are of one atom at most. Atoms of which
/// nothing is known can be put in.
pub enum DualHornKind {}

/// A dual Horn formula: the set of the states of a task in which each of its clauses is true.
pub type DualHorn = Formula<DualHornKind>;

/// The dual Horn formulas of a proof, numbered from 0 in the order in which they were added.
pub type DualHorns = Formulas<DualHornKind>;

impl ClauseKind for DualHornKind {
    type Fault = DualHornFault;

    ghost is_of = { IsDualHornClause };

    ghost completed_by = { C.Fill true };

    ghost listed_by = { L.Negative };

    ghost is_fault = { IsDualHornFault };

    fn takes(clause: &[Literal]) -> bool {
        is_headed(false, clause)
    }

    fn completion() -> Completion {
        Completion::Fill(true)
    }

    fn listing() -> KeptLists {
        KeptLists::Negative
    }

    fn other(place: usize) -> DualHornFault {
        DualHornFault::NotDual(place)
    }

    ghost memory_is_fault = { memory_is_fault };

    ghost short_are_of = { laws.short_are_headed false };

    ghost completes = { laws.headed_completes false };
}

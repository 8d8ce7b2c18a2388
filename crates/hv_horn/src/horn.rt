//! Horn formulas: the kind, and the set and the store of it.

ghost use Rattle.std.specs.Prelude.{◌≡◌, true, false};
ghost use Rattle.hv_sets.specs.Kinds.{IsHornClause};
ghost use Rattle.hv_propagation.specs.declared.completion.Completion.TheVariants as C;
ghost use Rattle.hv_formula.specs.declared.kept_lists.KeptLists.TheVariants as L;
ghost use Rattle.hv_horn.specs.Fault.{IsHornFault, memory_is_fault};
ghost use Rattle.hv_horn.specs.Working.Laws as laws;
ghost use Rattle.hv_horn.specs.declared.horn.HornFault.TheVariants as F;

use crate::headed::is_headed;
use hv_clauses::Formulas;
use hv_formula::{ClauseKind, Formula, KeptLists};
use hv_propagation::Completion;
use hv_sets::Literal;
use std::alloc::AllocError;
use thiserror::Error;

/// Why clauses are no Horn formula.
#[derive(Debug, Drop, Error)]
pub enum HornFault {
    /// The clause at this place, from 0, is the first that has positive literals of two different
    /// atoms.
    #[error("clause {0} is no Horn clause")]
    NotHorn(usize),
    /// There is no memory.
    #[error("out of memory")]
    Memory,
}

impl From<AllocError> for HornFault {
    ghost from_gives = { λ _ fault. fault ≡ F.Memory };

    fn from(_: AllocError) -> HornFault {
        HornFault::Memory
    }
}

/// Horn clauses: the positive literals of a clause are of one atom at most. Atoms of which nothing
/// is known can be left out.
pub enum HornKind {}

/// A Horn formula: the set of the states of a task in which each of its clauses is true.
pub type Horn = Formula<HornKind>;

/// The Horn formulas of a proof, numbered from 0 in the order in which they were added.
pub type Horns = Formulas<HornKind>;

impl ClauseKind for HornKind {
    type Fault = HornFault;

    ghost is_of = { IsHornClause };

    ghost completed_by = { C.Fill false };

    ghost listed_by = { L.Negative };

    ghost is_fault = { IsHornFault };

    fn takes(clause: &[Literal]) -> bool {
        is_headed(true, clause)
    }

    fn completion() -> Completion {
        Completion::Fill(false)
    }

    fn listing() -> KeptLists {
        KeptLists::Negative
    }

    fn other(place: usize) -> HornFault {
        HornFault::NotHorn(place)
    }

    ghost memory_is_fault = { memory_is_fault };

    ghost short_are_of = { laws.short_are_headed true };

    ghost completes = { laws.headed_completes true };
}

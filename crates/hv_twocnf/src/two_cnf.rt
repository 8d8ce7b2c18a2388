//! 2CNF formulas: the kind, and the set and the store of it.
//!
//! A formula can keep what each of its literals implies at once, to hand it out; that takes a third
//! of the time in which it is made. Where formulas are only asked about, as those of a proof are,
//! nobody reads it: `LeanTwoKind` doesn't keep it.

ghost use Rattle.std.specs.Prelude.{◌≡◌, ◌↔◌, IsTrue, if◌then◌else◌};
ghost use Rattle.std.specs.List.{All};
ghost use Rattle.hv_sets.specs.Kinds.{IsTwoClause};
ghost use Rattle.hv_propagation.specs.declared.completion.Completion.TheVariants as C;
ghost use Rattle.hv_formula.specs.declared.kept_lists.KeptLists.TheVariants as L;
ghost use Rattle.hv_indexes.specs.Implied.{IsEither};
ghost use Rattle.hv_twocnf.specs.Fault.{IsTwoCnfFault, memory_is_fault};
ghost use Rattle.hv_twocnf.specs.Working.Laws as laws;
ghost use Rattle.hv_twocnf.specs.declared.two_cnf.TwoCnfFault.TheVariants as F;

use hv_clauses::Formulas;
use hv_formula::{ClauseKind, Formula, KeptLists};
use hv_propagation::Completion;
use hv_sets::Literal;
use std::alloc::AllocError;
use thiserror::Error;

/// Why clauses are no 2CNF formula.
#[derive(Debug, Drop, Error)]
pub enum TwoCnfFault {
    /// The clause at this place, from 0, is the first that has more than two different literals.
    #[error("clause {0} has more than two different literals")]
    NotTwo(usize),
    /// There is no memory.
    #[error("out of memory")]
    Memory,
}

impl From<AllocError> for TwoCnfFault {
    ghost from_gives = { λ _ fault. fault ≡ F.Memory };

    fn from(_: AllocError) -> TwoCnfFault {
        TwoCnfFault::Memory
    }
}

/// Clauses of at most two different literals, in formulas that keep what each literal implies at
/// once (true), or don't. Values are tried for the atoms of which nothing is known.
pub enum TwoLiteralKind<const LISTED: bool> {}

/// The kind of formulas that hand out what each literal implies at once.
pub type TwoKind = TwoLiteralKind<true>;

/// The kind of formulas that keep nothing beside where their literals stand.
pub type LeanTwoKind = TwoLiteralKind<false>;

/// A 2CNF formula: the set of the states of a task in which each of its clauses is true.
pub type TwoCnf = Formula<TwoKind>;

/// The same, without what each literal implies at once.
pub type LeanTwoCnf = Formula<LeanTwoKind>;

/// 2CNF formulas, numbered from 0 in the order in which they were added.
pub type TwoCnfs = Formulas<TwoKind>;

/// The 2CNF formulas of a proof, numbered in the same way.
pub type LeanTwoCnfs = Formulas<LeanTwoKind>;

impl<const LISTED: bool> ClauseKind for TwoLiteralKind<LISTED> {
    type Fault = TwoCnfFault;

    ghost is_of = { IsTwoClause };

    ghost completed_by = { C.Try };

    ghost listed_by = { if LISTED then L.Implied else L.Negative };

    ghost is_fault = { IsTwoCnfFault };

    fn takes(clause: &[Literal]) -> bool {
        if clause.len() <= 2 {
            return true;
        }
        is_two(clause)
    }

    fn completion() -> Completion {
        Completion::Try
    }

    fn listing() -> KeptLists {
        if LISTED {
            KeptLists::Implied
        } else {
            KeptLists::Negative
        }
    }

    fn other(place: usize) -> TwoCnfFault {
        TwoCnfFault::NotTwo(place)
    }

    ghost memory_is_fault = { memory_is_fault };

    ghost short_are_of = { laws.short_are_two };

    ghost completes = { laws.two_completes };
}

// Whether a clause has at most two different literals.
fn is_two(clause: &[Literal]) -> bool
    ensures { IsTrue result ↔ IsTwoClause clause.now }
{
    let Some(first) = clause.first() else {
        return true;
    };
    for literal in clause {
        if literal != first {
            return has_only(clause, first, literal);
        }
    }
    true
}

// Whether each literal of a clause is one of these two.
fn has_only(clause: &[Literal], first: &Literal, second: &Literal) -> bool
    ensures { IsTrue result ↔ All (IsEither first.now second.now) clause.now }
{
    clause
        .iter()
        .all(|literal| literal == first || literal == second)
}

//! Kinds of clauses: which they are, how knowledge is completed to a state, and why that is right.
//!
//! A formula is generic over its kind, and a further kind changes no line of this crate. A kind
//! that is another with the signs exchanged has that one's laws over the sign, as dual Horn beside
//! Horn. The law of completion is about one clause, since a law of a trait may not range over
//! conditions on states.

ghost use Rattle.std.specs.Prelude.{◌≡◌, ◌↔◌, List, IsTrue};
ghost use Rattle.std.specs.declared.alloc.AllocError.{AllocError};
ghost use Rattle.hv_sets.specs.declared.literal.Literal.{Literal};
ghost use Rattle.hv_sets.specs.Kinds.{IsFirstOther};
ghost use Rattle.hv_formula.specs.Kinded.{CompletesClauses, IsShort};
ghost use Rattle.hv_propagation.specs.declared.completion.Completion.{Completion};
ghost use Rattle.hv_formula.specs.declared.kept_lists.KeptLists.{KeptLists};

use crate::kept_lists::KeptLists;
use hv_propagation::Completion;
use hv_sets::Literal;
use std::alloc::AllocError;

/// A kind of clauses of which it can be told without search whether some state is in all of them.
pub trait ClauseKind {
    /// Why clauses are no formula of this kind.
    type Fault: From<AllocError>;

    // The clause is of the kind.
    ghost is_of: { List Literal → Type 0 };

    // How settled marks are completed.
    ghost completed_by: { Completion };

    // Which lists a formula keeps, to hand them out.
    ghost listed_by: { KeptLists };

    // The fault is right for these clauses.
    ghost is_fault: { List (List Literal) → Self.Fault → Type 0 };

    /// Whether a clause is of the kind.
    fn takes(clause: &[Literal]) -> bool
        ensures { IsTrue result ↔ is_of clause.now };

    /// How settled marks are completed to a state in which clauses of the kind are true.
    fn completion() -> Completion
        ensures { result ≡ completed_by };

    /// Which lists a formula of the kind keeps, to hand them out.
    fn listing() -> KeptLists
        ensures { result ≡ listed_by };

    /// The fault of clauses of which the one at this place is the first that is of another kind.
    fn other(place: usize) -> Self::Fault
        ensures { (clauses : List (List Literal)) → IsFirstOther is_of clauses place
            → is_fault clauses result };

    // Memory may run out at any time.
    ghost memory_is_fault: { (clauses : List (List Literal)) (error : AllocError)
        (fault : Self.Fault) → Self.Fault.from_gives error fault → is_fault clauses fault };

    // A clause of at most one literal is of the kind.
    ghost short_are_of: { (clause : List Literal) → IsShort clause → is_of clause };

    // Settled marks are completed as it says.
    ghost completes: { CompletesClauses completed_by is_of };
}

//! Whether the clauses of a formula are of their family.
//!
//! That is tested before the store is asked, so a store never meets a clause of another kind.
//! `Formula::of_kind` has it as its condition and doesn't test it again; `new` of the kinds tests,
//! and names the first clause of another one.

ghost use Rattle.std.specs.Prelude.{◌↔◌, IsTrue};
ghost use Rattle.std.specs.List.{All};
ghost use Rattle.hv_lines.specs.Good.{IsOfItsFamily};

use hv_formula::ClauseKind;
use hv_horn::{DualHornKind, HornKind};
use hv_lines::Expr;
use hv_sets::{Clauses, Literal};
use hv_twocnf::LeanTwoKind;

/// Whether the clauses of the set, if it is a formula in clauses, are of its family.
pub fn is_of_its_family(expr: &Expr) -> bool
    ensures { IsTrue result ↔ IsOfItsFamily expr.now }
{
    match expr {
        Expr::Horn(clauses) => are_of::<HornKind>(clauses),
        Expr::Dual(clauses) => are_of::<DualHornKind>(clauses),
        Expr::Two(clauses) => are_of::<LeanTwoKind>(clauses),
        Expr::Constant(_) | Expr::States(_) | Expr::Node(_) | Expr::Not(_) => true,
        Expr::And(..) | Expr::Or(..) | Expr::After(..) | Expr::Before(..) => true,
    }
}

/// Whether each clause is of the kind.
fn are_of<K: ClauseKind>(clauses: &Clauses) -> bool
    ensures { IsTrue result ↔ All K.is_of clauses.now }
{
    for place in 0..clauses.len() {
        if !is_of::<K>(clauses.get(place)) {
            return false;
        }
    }
    true
}

fn is_of<K: ClauseKind>(clause: &[Literal]) -> bool
    ensures { IsTrue result ↔ K.is_of clause.now }
{
    K::takes(clause)
}

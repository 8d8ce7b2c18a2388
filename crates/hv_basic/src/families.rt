//! The family of a statement, and of a set.

ghost use Rattle.std.specs.Prelude.{◌≡◌, ◌<◌, ◌↔◌, List, true, IsTrue, MatchOption};
ghost use Rattle.hv_lines.specs.Literals.{IsPlainExpr};
ghost use Rattle.hv_lines.specs.Numbering.{expr_count};
ghost use Rattle.hv_lines.specs.Shapes.{AreOfTwoFamilies, family_of};
ghost use Rattle.hv_lines.specs.declared.formula_family.FormulaFamily.{FormulaFamily};
ghost use Rattle.hv_lines.specs.declared.formula_family.FormulaFamily.TheVariants as F;
ghost use Rattle.hv_lines.specs.declared.line.Line.{Line};
ghost use Rattle.hv_basic.specs.Working.Gathered.{HaveTheirFamilies};
ghost use Rattle.hv_basic.specs.Working.Sharing.{AreOtherFamilies, IsFamilyBeside, IsFamilyWith};
ghost use Rattle.hv_basic.specs.Working.Sharing.{IsInClauses};

use crate::signed_sets::Asking;
use hv_lines::{Expr, FormulaFamily, Table};

/// The one family of all formulas that are asked about, where those that stood there before are of
/// this family, if there were some; it is Horn where there is none.
pub(crate) fn one_family(askings: &[Asking], before: Option<FormulaFamily>) -> Option<FormulaFamily>
    ensures { (lines : List Line) → HaveTheirFamilies lines askings.now
        → MatchOption result ((family : FormulaFamily)
        → IsFamilyBeside lines askings.now before family → ⊥)
        (IsFamilyBeside lines askings.now before) }
{
    let mut family = before;
    for asking in askings {
        match family_with(family, asking.family) {
            Some(both) => family = both,
            None => return None,
        }
    }
    match family {
        Some(one) => Some(one),
        None => Some(FormulaFamily::Horn),
    }
}

/// The family of the formulas so far and of a further set, each of which may have none.
pub(crate) fn family_with(
    family: Option<FormulaFamily>,
    next: Option<FormulaFamily>,
) -> Option<Option<FormulaFamily>>
    ensures { MatchOption result (AreOtherFamilies family next) (IsFamilyWith family next) }
{
    match (family, next) {
        (None, _) => Some(next),
        (Some(_), None) => Some(family),
        (Some(first), Some(second)) => { if first == second { Some(family) } else { None } }
    }
}

/// Whether the sets are formulas of two different families.
pub(crate) fn are_of_two_families(table: &Table, x: usize, y: usize) -> bool
    requires x { x < expr_count table.now.lines }
    requires y { y < expr_count table.now.lines }
    ensures { IsTrue result ↔ AreOfTwoFamilies table.now.lines x y }
{
    match (family_of(table.expr(x)), family_of(table.expr(y))) {
        (Some(first), Some(second)) => first != second,
        _ => false,
    }
}

/// The family of a formula, or that it is a constant, which has none; there is no answer for other
/// sets.
pub(crate) fn plain_family(expr: &Expr) -> Option<Option<FormulaFamily>>
    ensures { MatchOption result (IsPlainExpr expr.now → ⊥)
        (λ family. IsPlainExpr expr.now × (family ≡ family_of expr.now)) }
{
    match expr {
        Expr::Constant(_)
        | Expr::Horn(_)
        | Expr::Dual(_)
        | Expr::Two(_)
        | Expr::States(_)
        | Expr::Node(_) => Some(family_of(expr)),
        Expr::Not(_) | Expr::And(..) | Expr::Or(..) | Expr::After(..) | Expr::Before(..) => None,
    }
}

/// The family of a formula; nothing else has one.
fn family_of(expr: &Expr) -> Option<FormulaFamily>
    ensures { result ≡ family_of expr.now }
{
    match expr {
        Expr::Horn(_) => Some(FormulaFamily::Horn),
        Expr::Dual(_) => Some(FormulaFamily::Dual),
        Expr::Two(_) => Some(FormulaFamily::Two),
        Expr::States(_) => Some(FormulaFamily::States),
        Expr::Node(_) => Some(FormulaFamily::Node),
        Expr::Constant(_) | Expr::Not(_) => None,
        Expr::And(..) | Expr::Or(..) | Expr::After(..) | Expr::Before(..) => None,
    }
}

/// Whether the family is that of listed states.
pub(crate) fn is_listed(family: FormulaFamily) -> bool
    ensures { IsTrue result ↔ (family ≡ F.States) }
{
    family == FormulaFamily::States
}

/// Whether the formulas of the family are in clauses: over these the ways to choose one of each are
/// the cost.
pub(crate) fn is_in_clauses(family: FormulaFamily) -> bool
    ensures { result ≡ true → IsInClauses family }
{
    match family {
        FormulaFamily::Horn | FormulaFamily::Dual | FormulaFamily::Two => true,
        FormulaFamily::States | FormulaFamily::Node => false,
    }
}

/// Whether the set is a list of states.
pub(crate) fn is_state_list(expr: &Expr) -> bool {
    match family_of(expr) {
        Some(family) => is_listed(family),
        None => false,
    }
}

/// Whether the set is a formula in clauses.
pub(crate) fn is_clause_formula(expr: &Expr) -> bool {
    match family_of(expr) {
        Some(family) => is_in_clauses(family),
        None => false,
    }
}

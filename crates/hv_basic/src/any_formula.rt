//! Formulas of the five families, as one type. The side that is asked about is matched where the
//! walk's side is known, so that each family is asked in its own way.

ghost use Rattle.std.specs.Prelude.{◌≡◌, ◌<◌, ℕ, Some, length, slice_get};
ghost use Rattle.hv_sets.specs.declared.operand.Which.TheVariants as S;
ghost use Rattle.hv_lines.specs.Numbering.{expr_at};
ghost use Rattle.hv_lines.specs.Shapes.{IsOfFamily};
ghost use Rattle.hv_lines.specs.declared.formula_family.FormulaFamily.{FormulaFamily};
ghost use Rattle.hv_basic.specs.Working.Formulas.{IsFormulaOn, expr_of};
ghost use Rattle.hv_basic.specs.Cases.{lines_in};

use crate::case::Case;
use crate::store::Store;
use hv_bdd::DiagramSet;
use hv_explicit::Explicit;
use hv_horn::{DualHorn, Horn};
use hv_lines::Expr;
use hv_sets::Which;
use hv_twocnf::LeanTwoCnf;

/// A formula of one of the five families.
#[derive(Clone, Copy)]
pub(crate) enum AnyFormula<'a> {
    Horn(&'a Horn),
    Dual(&'a DualHorn),
    Two(&'a LeanTwoCnf),
    States(&'a Explicit),
    Node(DiagramSet<'a>),
}

/// The formula of the set, from the store of its family.
pub(crate) fn formula_of<'a>(case: &Case<'a>, set: usize) -> AnyFormula<'a>
    requires { (family : FormulaFamily) × IsOfFamily (lines_in case.now) family set }
    ensures is { expr_at (lines_in case.now) set ≡ Some (expr_of result) }
    ensures over { IsFormulaOn case.now result }
{
    let store = case.store;
    // For its contract alone: the lines are those of a table.
    let _count = case.table.expr_count();
    match case.table.expr(set) {
        Expr::Horn(_) => AnyFormula::Horn(store.horns().get(number_of(store, set))),
        Expr::Dual(_) => AnyFormula::Dual(store.duals().get(number_of(store, set))),
        Expr::Two(_) => AnyFormula::Two(store.twos().get(number_of(store, set))),
        Expr::States(_) => AnyFormula::States(store.listed().get(number_of(store, set))),
        Expr::Node(node) => AnyFormula::Node(case.diagrams.set(*node)),
        Expr::Constant(_) | Expr::Not(_) => unreachable!(),
        Expr::And(..) | Expr::Or(..) | Expr::After(..) | Expr::Before(..) => unreachable!(),
    }
}

/// The number of a formula in the store of its family.
pub(crate) fn number_of(store: &Store, set: usize) -> usize
    requires { (number : ℕ) × (slice_get store.now.names set ≡ Some (S.Set number)) }
    ensures { slice_get store.now.names set ≡ Some (S.Set result) }
{
    match store.name(set) {
        Which::Set(number) => number,
        _ => unreachable!(),
    }
}

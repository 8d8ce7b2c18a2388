//! Tables of lines for the tests, and what they say.

ghost use Rattle.std.specs.Prelude.{◌↔◌, IsTrue};
ghost use Rattle.hv_lines.specs.Numbering.{acts_count, expr_count, ExprRefersBelow, SpeaksBelow};

use hv_lines::{Acts, Expr, Line, Premises, Statement, Table, Word};
use std::alloc::AllocError;
use std::process::Abort;

/// Whether the sets of the statement are in the table.
pub(crate) fn is_spoken(table: &Table, statement: Statement) -> bool
    ensures { IsTrue result
        ↔ SpeaksBelow (acts_count table.now.lines) (expr_count table.now.lines) statement }
{
    match statement {
        Statement::Sub(left, right) => left < table.expr_count() && right < table.expr_count(),
        Statement::ActSub(left, right) => left < table.acts_count() && right < table.acts_count(),
        Statement::Dead(set) => set < table.expr_count(),
        Statement::Unsolvable => true,
    }
}

/// Whether the sets that the expression refers to are in the table.
fn has_operands(table: &Table, expr: &Expr) -> bool
    ensures { IsTrue result
        ↔ ExprRefersBelow (acts_count table.now.lines) (expr_count table.now.lines) expr.now }
{
    let exprs = table.expr_count();
    match expr {
        Expr::Not(set) => *set < exprs,
        Expr::And(left, right) | Expr::Or(left, right) => *left < exprs && *right < exprs,
        Expr::After(set, acts) | Expr::Before(set, acts) => {
            *set < exprs && *acts < table.acts_count()
        }
        _ => true,
    }
}

/// Puts all actions last.
pub(crate) fn add_all_actions(table: &mut Table) -> Result<(), AllocError> {
    let id = table.acts_count();
    table.push(Line::Acts {
        id,
        acts: Acts::All,
    })
}

/// Puts this set last, which refers to earlier ones.
pub(crate) fn add_set(rt: &impl Abort, table: &mut Table, expr: Expr) -> Result<(), AllocError> {
    assert!(rt; has_operands(table, &expr), "a set without its operands");
    let id = table.expr_count();
    table.push(Line::Expr { id, expr })
}

/// The identifiers as premises.
pub(crate) fn premises_of(rt: &impl Abort, ids: &[usize]) -> Premises {
    match *ids {
        [] => Premises::none(),
        [first] => Premises::one(first),
        [first, second] => Premises::two(first, second),
        [first, second, third] => Premises::three(first, second, third),
        _ => panic!(rt; "four premises"),
    }
}

/// Puts this claim last, which speaks of earlier sets, and whose premises are earlier claims.
pub(crate) fn add_claim(
    rt: &impl Abort,
    table: &mut Table,
    statement: Statement,
    word: Word,
    ids: &[usize],
) -> Result<(), AllocError> {
    let premises = premises_of(rt, ids);
    let id = table.known_count();
    assert!(rt; is_spoken(table, statement), "a claim without its sets");
    let behind = premises.as_slice().iter().all(|k| *k < id);
    assert!(rt; behind, "a claim without its premises");
    table.push(Line::Known {
        id,
        statement,
        word,
        premises,
    })
}

/// Whether the `k` line of this identifier says this, by this word from these premises.
pub(crate) fn says(
    table: &Table,
    id: usize,
    statement: Statement,
    word: Word,
    premises: &[usize],
) -> bool {
    id < table.known_count()
        && *table.statement(id) == statement
        && table.word(id) == word
        && table.premises(id).as_slice() == premises
}

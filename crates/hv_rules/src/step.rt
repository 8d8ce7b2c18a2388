//! The rules whose conclusion is an inclusion of progressions or regressions.

ghost use Rattle.std.specs.Prelude.{◌<◌, ◌↔◌, [], ◌∷◌, IsTrue};
ghost use Rattle.hv_lines.specs.Numbering.{expr_count, known_count};
ghost use Rattle.hv_lines.specs.Rules.{FitsAt, FitsAu, FitsPt, FitsPu, FitsPr, FitsRp};
ghost use Rattle.hv_rules.specs.Working.Standing.{StandsIn};

use crate::look::{says, says_results};
use crate::rule_row::RuleRow;
use hv_lines::{Acts, Expr, Statement, Table};

/// Fewer actions have fewer results.
pub fn fits_at(row: &RuleRow<'_>) -> bool
    requires { StandsIn row.now.table.now.lines row.now.statement row.now.premises.now }
    ensures { IsTrue result
        ↔ FitsAt row.now.table.now.lines row.now.statement row.now.premises.now }
{
    let Statement::Sub(left, right) = row.statement else {
        return false;
    };
    let [first, second] = *row.premises else {
        return false;
    };
    let Expr::After(set, fewer) = row.table.expr(left) else {
        return false;
    };
    let Statement::Sub(results, around) = *row.table.statement(first) else {
        return false;
    };
    let Expr::After(from, acts) = row.table.expr(results) else {
        return false;
    };
    around == right && from == set && says(row.table, second, Statement::ActSub(*fewer, *acts))
}

/// Where the results of each of two action sets are within a set, so are those of their union.
pub fn fits_au(row: &RuleRow<'_>) -> bool
    requires { StandsIn row.now.table.now.lines row.now.statement row.now.premises.now }
    ensures { IsTrue result
        ↔ FitsAu row.now.table.now.lines row.now.statement row.now.premises.now }
{
    let Statement::Sub(left, right) = row.statement else {
        return false;
    };
    let [first, second] = *row.premises else {
        return false;
    };
    unites_results(row.table, left, right, first, second)
}

/// Whether the set is the results of the union of two action sets, and the premises say that the
/// results of each are within the other set.
fn unites_results(table: &Table, left: usize, right: usize, first: usize, second: usize) -> bool
    requires left { left < expr_count table.now.lines }
    requires first { first < known_count table.now.lines }
    requires second { second < known_count table.now.lines }
    ensures { IsTrue result ↔ FitsAu table.now.lines (Statement.Sub left right) (first ∷ second
        ∷ []) }
{
    let Expr::After(set, union) = table.expr(left) else {
        return false;
    };
    let Acts::Both(one, other) = table.acts(*union) else {
        return false;
    };
    says_results(table, first, *set, *one, right)
        && says_results(table, second, *set, *other, right)
}

/// A smaller set has fewer results.
pub fn fits_pt(row: &RuleRow<'_>) -> bool
    requires { StandsIn row.now.table.now.lines row.now.statement row.now.premises.now }
    ensures { IsTrue result
        ↔ FitsPt row.now.table.now.lines row.now.statement row.now.premises.now }
{
    let Statement::Sub(left, right) = row.statement else {
        return false;
    };
    let [first, second] = *row.premises else {
        return false;
    };
    let Expr::After(inner, acts) = row.table.expr(left) else {
        return false;
    };
    let Statement::Sub(results, around) = *row.table.statement(first) else {
        return false;
    };
    let Expr::After(outer, by) = row.table.expr(results) else {
        return false;
    };
    around == right && by == acts && says(row.table, second, Statement::Sub(*inner, *outer))
}

/// The results in a union are where those in both its parts are.
pub fn fits_pu(row: &RuleRow<'_>) -> bool
    requires { StandsIn row.now.table.now.lines row.now.statement row.now.premises.now }
    ensures { IsTrue result
        ↔ FitsPu row.now.table.now.lines row.now.statement row.now.premises.now }
{
    let Statement::Sub(left, right) = row.statement else {
        return false;
    };
    let [first, second] = *row.premises else {
        return false;
    };
    let Expr::After(union, acts) = row.table.expr(left) else {
        return false;
    };
    let Expr::Or(one, other) = row.table.expr(*union) else {
        return false;
    };
    says_results(row.table, first, *one, *acts, right)
        && says_results(row.table, second, *other, *acts, right)
}

/// Where all results of a set are within another, the states with a result outside the other are
/// outside the set.
pub fn fits_pr(row: &RuleRow<'_>) -> bool
    requires { StandsIn row.now.table.now.lines row.now.statement row.now.premises.now }
    ensures { IsTrue result
        ↔ FitsPr row.now.table.now.lines row.now.statement row.now.premises.now }
{
    let Statement::Sub(left, right) = row.statement else {
        return false;
    };
    let [first] = *row.premises else {
        return false;
    };
    let Expr::Before(outside, acts) = row.table.expr(left) else {
        return false;
    };
    let Expr::Not(around) = row.table.expr(*outside) else {
        return false;
    };
    let Expr::Not(set) = row.table.expr(right) else {
        return false;
    };
    says_results(row.table, first, *set, *acts, *around)
}

/// Where the states with a result outside one set are outside another, all results of the other are
/// within the one.
pub fn fits_rp(row: &RuleRow<'_>) -> bool
    requires { StandsIn row.now.table.now.lines row.now.statement row.now.premises.now }
    ensures { IsTrue result
        ↔ FitsRp row.now.table.now.lines row.now.statement row.now.premises.now }
{
    let Statement::Sub(left, right) = row.statement else {
        return false;
    };
    let [first] = *row.premises else {
        return false;
    };
    let Expr::After(set, acts) = row.table.expr(left) else {
        return false;
    };
    let Statement::Sub(sources, outside) = *row.table.statement(first) else {
        return false;
    };
    let Expr::Before(into, by) = row.table.expr(sources) else {
        return false;
    };
    let Expr::Not(negated) = row.table.expr(*into) else {
        return false;
    };
    let Expr::Not(inner) = row.table.expr(outside) else {
        return false;
    };
    by == acts && *negated == right && inner == set
}

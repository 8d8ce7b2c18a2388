//! The rules whose conclusion is that a set is dead.

ghost use Rattle.std.specs.Prelude.{◌↔◌, IsTrue};
ghost use Rattle.hv_lines.specs.Rules.{FitsEd, FitsUd, FitsSd, FitsPg, FitsPi, FitsRg, FitsRi};
ghost use Rattle.hv_rules.specs.Working.Standing.{StandsIn};

use crate::look::{is_all, is_constant, says};
use crate::rule_row::RuleRow;
use hv_lines::{Constant, Expr, Statement};

/// The empty set is dead.
pub fn fits_ed(row: &RuleRow<'_>) -> bool
    requires { StandsIn row.now.table.now.lines row.now.statement row.now.premises.now }
    ensures { IsTrue result
        ↔ FitsEd row.now.table.now.lines row.now.statement row.now.premises.now }
{
    let Statement::Dead(set) = row.statement else {
        return false;
    };
    let [] = *row.premises else {
        return false;
    };
    is_constant(row.table, set, Constant::Empty)
}

/// The union of two dead sets is dead.
pub fn fits_ud(row: &RuleRow<'_>) -> bool
    requires { StandsIn row.now.table.now.lines row.now.statement row.now.premises.now }
    ensures { IsTrue result
        ↔ FitsUd row.now.table.now.lines row.now.statement row.now.premises.now }
{
    let Statement::Dead(set) = row.statement else {
        return false;
    };
    let [first, second] = *row.premises else {
        return false;
    };
    let Expr::Or(one, other) = row.table.expr(set) else {
        return false;
    };
    says(row.table, first, Statement::Dead(*one))
        && says(row.table, second, Statement::Dead(*other))
}

/// A set within a dead set is dead.
pub fn fits_sd(row: &RuleRow<'_>) -> bool
    requires { StandsIn row.now.table.now.lines row.now.statement row.now.premises.now }
    ensures { IsTrue result
        ↔ FitsSd row.now.table.now.lines row.now.statement row.now.premises.now }
{
    let Statement::Dead(set) = row.statement else {
        return false;
    };
    let [first, second] = *row.premises else {
        return false;
    };
    let Statement::Sub(left, around) = *row.table.statement(first) else {
        return false;
    };
    left == set && says(row.table, second, Statement::Dead(around))
}

/// What leads only into itself or a dead set, and whose goal states are dead, is dead.
pub fn fits_pg(row: &RuleRow<'_>) -> bool
    requires { StandsIn row.now.table.now.lines row.now.statement row.now.premises.now }
    ensures { IsTrue result
        ↔ FitsPg row.now.table.now.lines row.now.statement row.now.premises.now }
{
    let Statement::Dead(set) = row.statement else {
        return false;
    };
    let [first, second, third] = *row.premises else {
        return false;
    };
    let Statement::Sub(results, around) = *row.table.statement(first) else {
        return false;
    };
    let Expr::After(from, acts) = row.table.expr(results) else {
        return false;
    };
    let Expr::Or(own, others) = row.table.expr(around) else {
        return false;
    };
    let Statement::Dead(goals) = *row.table.statement(third) else {
        return false;
    };
    let Expr::And(inner, goal) = row.table.expr(goals) else {
        return false;
    };
    *from == set
        && is_all(row.table, *acts)
        && *own == set
        && *inner == set
        && is_constant(row.table, *goal, Constant::Goal)
        && says(row.table, second, Statement::Dead(*others))
}

/// What is outside a set that holds the initial state and leads only into itself or a dead set is
/// dead.
pub fn fits_pi(row: &RuleRow<'_>) -> bool
    requires { StandsIn row.now.table.now.lines row.now.statement row.now.premises.now }
    ensures { IsTrue result
        ↔ FitsPi row.now.table.now.lines row.now.statement row.now.premises.now }
{
    let Statement::Dead(set) = row.statement else {
        return false;
    };
    let [first, second, third] = *row.premises else {
        return false;
    };
    let Expr::Not(inside) = row.table.expr(set) else {
        return false;
    };
    let Statement::Sub(results, around) = *row.table.statement(first) else {
        return false;
    };
    let Expr::After(from, acts) = row.table.expr(results) else {
        return false;
    };
    let Expr::Or(own, others) = row.table.expr(around) else {
        return false;
    };
    let Statement::Sub(start, holder) = *row.table.statement(third) else {
        return false;
    };
    from == inside
        && is_all(row.table, *acts)
        && own == inside
        && holder == *inside
        && is_constant(row.table, start, Constant::Start)
        && says(row.table, second, Statement::Dead(*others))
}

/// What is outside a set that is led into only from itself or a dead set is dead, where the goal
/// states out there are.
pub fn fits_rg(row: &RuleRow<'_>) -> bool
    requires { StandsIn row.now.table.now.lines row.now.statement row.now.premises.now }
    ensures { IsTrue result
        ↔ FitsRg row.now.table.now.lines row.now.statement row.now.premises.now }
{
    let Statement::Dead(set) = row.statement else {
        return false;
    };
    let [first, second, third] = *row.premises else {
        return false;
    };
    let Expr::Not(inside) = row.table.expr(set) else {
        return false;
    };
    let Statement::Sub(sources, around) = *row.table.statement(first) else {
        return false;
    };
    let Expr::Before(into, acts) = row.table.expr(sources) else {
        return false;
    };
    let Expr::Or(own, others) = row.table.expr(around) else {
        return false;
    };
    let Statement::Dead(goals) = *row.table.statement(third) else {
        return false;
    };
    let Expr::And(outside, goal) = row.table.expr(goals) else {
        return false;
    };
    into == inside
        && is_all(row.table, *acts)
        && own == inside
        && *outside == set
        && is_constant(row.table, *goal, Constant::Goal)
        && says(row.table, second, Statement::Dead(*others))
}

/// What is led into only from itself or a dead set, and doesn't hold the initial state, is dead.
pub fn fits_ri(row: &RuleRow<'_>) -> bool
    requires { StandsIn row.now.table.now.lines row.now.statement row.now.premises.now }
    ensures { IsTrue result
        ↔ FitsRi row.now.table.now.lines row.now.statement row.now.premises.now }
{
    let Statement::Dead(set) = row.statement else {
        return false;
    };
    let [first, second, third] = *row.premises else {
        return false;
    };
    let Statement::Sub(sources, around) = *row.table.statement(first) else {
        return false;
    };
    let Expr::Before(into, acts) = row.table.expr(sources) else {
        return false;
    };
    let Expr::Or(own, others) = row.table.expr(around) else {
        return false;
    };
    let Statement::Sub(start, outside) = *row.table.statement(third) else {
        return false;
    };
    let Expr::Not(negated) = row.table.expr(outside) else {
        return false;
    };
    *into == set
        && is_all(row.table, *acts)
        && *own == set
        && *negated == set
        && is_constant(row.table, start, Constant::Start)
        && says(row.table, second, Statement::Dead(*others))
}

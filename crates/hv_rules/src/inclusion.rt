//! The rules whose conclusion is an inclusion of sets, without progressions and regressions.

ghost use Rattle.std.specs.Prelude.{◌↔◌, IsTrue};
ghost use Rattle.hv_lines.specs.Rules.{FitsUr, FitsUl, FitsIr, FitsIl, FitsDi, FitsSu, FitsSi};
ghost use Rattle.hv_lines.specs.Rules.{FitsSt};
ghost use Rattle.hv_rules.specs.Working.Standing.{StandsIn};

use crate::look::says;
use crate::rule_row::RuleRow;
use hv_lines::{Expr, Statement};

/// A set is within its union with another on the right.
pub fn fits_ur(row: &RuleRow<'_>) -> bool
    requires { StandsIn row.now.table.now.lines row.now.statement row.now.premises.now }
    ensures { IsTrue result
        ↔ FitsUr row.now.table.now.lines row.now.statement row.now.premises.now }
{
    let Statement::Sub(left, right) = row.statement else {
        return false;
    };
    let [] = *row.premises else {
        return false;
    };
    let Expr::Or(part, _) = row.table.expr(right) else {
        return false;
    };
    *part == left
}

/// A set is within its union with another on the left.
pub fn fits_ul(row: &RuleRow<'_>) -> bool
    requires { StandsIn row.now.table.now.lines row.now.statement row.now.premises.now }
    ensures { IsTrue result
        ↔ FitsUl row.now.table.now.lines row.now.statement row.now.premises.now }
{
    let Statement::Sub(left, right) = row.statement else {
        return false;
    };
    let [] = *row.premises else {
        return false;
    };
    let Expr::Or(_, part) = row.table.expr(right) else {
        return false;
    };
    *part == left
}

/// An intersection is within its left part.
pub fn fits_ir(row: &RuleRow<'_>) -> bool
    requires { StandsIn row.now.table.now.lines row.now.statement row.now.premises.now }
    ensures { IsTrue result
        ↔ FitsIr row.now.table.now.lines row.now.statement row.now.premises.now }
{
    let Statement::Sub(left, right) = row.statement else {
        return false;
    };
    let [] = *row.premises else {
        return false;
    };
    let Expr::And(part, _) = row.table.expr(left) else {
        return false;
    };
    *part == right
}

/// An intersection is within its right part.
pub fn fits_il(row: &RuleRow<'_>) -> bool
    requires { StandsIn row.now.table.now.lines row.now.statement row.now.premises.now }
    ensures { IsTrue result
        ↔ FitsIl row.now.table.now.lines row.now.statement row.now.premises.now }
{
    let Statement::Sub(left, right) = row.statement else {
        return false;
    };
    let [] = *row.premises else {
        return false;
    };
    let Expr::And(_, part) = row.table.expr(left) else {
        return false;
    };
    *part == right
}

/// Intersection distributes over union.
pub fn fits_di(row: &RuleRow<'_>) -> bool
    requires { StandsIn row.now.table.now.lines row.now.statement row.now.premises.now }
    ensures { IsTrue result
        ↔ FitsDi row.now.table.now.lines row.now.statement row.now.premises.now }
{
    let Statement::Sub(left, right) = row.statement else {
        return false;
    };
    let [] = *row.premises else {
        return false;
    };
    let Expr::And(union, with) = row.table.expr(left) else {
        return false;
    };
    let Expr::Or(one, other) = row.table.expr(*union) else {
        return false;
    };
    let Expr::Or(first, second) = row.table.expr(right) else {
        return false;
    };
    let Expr::And(first_part, first_with) = row.table.expr(*first) else {
        return false;
    };
    let Expr::And(second_part, second_with) = row.table.expr(*second) else {
        return false;
    };
    first_part == one && first_with == with && second_part == other && second_with == with
}

/// A union is within what both its parts are within.
pub fn fits_su(row: &RuleRow<'_>) -> bool
    requires { StandsIn row.now.table.now.lines row.now.statement row.now.premises.now }
    ensures { IsTrue result
        ↔ FitsSu row.now.table.now.lines row.now.statement row.now.premises.now }
{
    let Statement::Sub(left, right) = row.statement else {
        return false;
    };
    let [first, second] = *row.premises else {
        return false;
    };
    let Expr::Or(one, other) = row.table.expr(left) else {
        return false;
    };
    says(row.table, first, Statement::Sub(*one, right))
        && says(row.table, second, Statement::Sub(*other, right))
}

/// What is within two sets is within their intersection.
pub fn fits_si(row: &RuleRow<'_>) -> bool
    requires { StandsIn row.now.table.now.lines row.now.statement row.now.premises.now }
    ensures { IsTrue result
        ↔ FitsSi row.now.table.now.lines row.now.statement row.now.premises.now }
{
    let Statement::Sub(left, right) = row.statement else {
        return false;
    };
    let [first, second] = *row.premises else {
        return false;
    };
    let Expr::And(one, other) = row.table.expr(right) else {
        return false;
    };
    says(row.table, first, Statement::Sub(left, *one))
        && says(row.table, second, Statement::Sub(left, *other))
}

/// Inclusion is transitive.
pub fn fits_st(row: &RuleRow<'_>) -> bool
    requires { StandsIn row.now.table.now.lines row.now.statement row.now.premises.now }
    ensures { IsTrue result
        ↔ FitsSt row.now.table.now.lines row.now.statement row.now.premises.now }
{
    let Statement::Sub(left, right) = row.statement else {
        return false;
    };
    let [first, second] = *row.premises else {
        return false;
    };
    let Statement::Sub(inner, middle) = *row.table.statement(first) else {
        return false;
    };
    inner == left && says(row.table, second, Statement::Sub(middle, right))
}

//! The rules whose conclusion is that there is no plan.

ghost use Rattle.std.specs.Prelude.{◌↔◌, IsTrue};
ghost use Rattle.hv_lines.specs.Rules.{FitsCi, FitsCg};
ghost use Rattle.hv_rules.specs.Working.Standing.{StandsIn};

use crate::look::is_constant;
use crate::rule_row::RuleRow;
use hv_lines::{Constant, Statement};

/// There is no plan where the initial state is dead.
pub fn fits_ci(row: &RuleRow<'_>) -> bool
    requires { StandsIn row.now.table.now.lines row.now.statement row.now.premises.now }
    ensures { IsTrue result
        ↔ FitsCi row.now.table.now.lines row.now.statement row.now.premises.now }
{
    let Statement::Unsolvable = row.statement else {
        return false;
    };
    let [first] = *row.premises else {
        return false;
    };
    let Statement::Dead(set) = *row.table.statement(first) else {
        return false;
    };
    is_constant(row.table, set, Constant::Start)
}

/// There is no plan where the goal states are dead.
pub fn fits_cg(row: &RuleRow<'_>) -> bool
    requires { StandsIn row.now.table.now.lines row.now.statement row.now.premises.now }
    ensures { IsTrue result
        ↔ FitsCg row.now.table.now.lines row.now.statement row.now.premises.now }
{
    let Statement::Unsolvable = row.statement else {
        return false;
    };
    let [first] = *row.premises else {
        return false;
    };
    let Statement::Dead(set) = *row.table.statement(first) else {
        return false;
    };
    is_constant(row.table, set, Constant::Goal)
}

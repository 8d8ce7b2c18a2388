//! What the rules look up in the table.

ghost use Rattle.std.specs.Prelude.{◌≡◌, ℕ, ◌<◌, ◌↔◌, Some, IsTrue};
ghost use Rattle.hv_lines.specs.Numbering.{acts_count, acts_at, expr_count, known_count};
ghost use Rattle.hv_lines.specs.Rules.{IsExpr, IsAll, Says};

use hv_lines::{Acts, Constant, Expr, Statement, Table};

/// Whether the premise says the statement.
pub fn says(table: &Table, premise: usize, statement: Statement) -> bool
    requires { premise < known_count table.now.lines }
    ensures { IsTrue result ↔ Says table.now.lines premise statement }
{
    *table.statement(premise) == statement
}

/// Whether the action set is that of all actions.
pub fn is_all(table: &Table, acts: usize) -> bool
    requires { acts < acts_count table.now.lines }
    ensures { IsTrue result ↔ IsAll table.now.lines acts }
{
    match table.acts(acts) {
        Acts::All => true,
        Acts::List(_) | Acts::Both(..) => false,
    }
}

/// Whether the set is this constant.
pub fn is_constant(table: &Table, set: usize, constant: Constant) -> bool
    requires { set < expr_count table.now.lines }
    ensures { IsTrue result ↔ IsExpr table.now.lines set (Expr.Constant constant) }
{
    match table.expr(set) {
        Expr::Constant(found) => *found == constant,
        _ => false,
    }
}

/// Whether the premise says that the results of the action set in the set are within another set.
pub fn says_results(table: &Table, premise: usize, set: usize, acts: usize, around: usize) -> bool
    requires { premise < known_count table.now.lines }
    ensures { IsTrue result
        ↔ ((results : ℕ) × Says table.now.lines premise (Statement.Sub results around)
        × IsExpr table.now.lines results (Expr.After set acts)) }
{
    let Statement::Sub(results, right) = *table.statement(premise) else {
        return false;
    };
    let Expr::After(from, by) = table.expr(results) else {
        return false;
    };
    right == around && *from == set && *by == acts
}

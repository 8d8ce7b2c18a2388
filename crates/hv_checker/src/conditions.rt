//! The tests of a line that look at its form and its numbers alone.

ghost use Rattle.std.specs.Prelude.{◌≡◌, ◌<◌, ◌↔◌, length, IsTrue};
ghost use Rattle.std.specs.List.{All};
ghost use Rattle.hv_task.specs.State.{AreBelow};
ghost use Rattle.hv_lines.specs.Numbering.{ActsReferBelow, ExprRefersBelow, IsNumbered, RefersBack};
ghost use Rattle.hv_lines.specs.Numbering.{SpeaksBelow, acts_count, expr_count, known_count};
ghost use Rattle.hv_lines.specs.Good.{ActsAreWithin, ClausesAreBelow, ExprIsWithin, FamilyFits};
ghost use Rattle.hv_lines.specs.Good.{IsKnown, NamesWithin};

use hv_basic::is_of_its_family;
use hv_bdd::Diagrams;
use hv_lines::{Acts, Expr, Line, Statement, Table, Word};
use hv_sets::{Clauses, Literal, StateBuffer, StateList};
use hv_task::Task;

/// Whether the line's identifier is the number of earlier lines of its letter.
pub(crate) fn is_numbered(table: &Table, line: &Line) -> bool
    ensures { IsTrue result ↔ IsNumbered table.now.lines line.now }
{
    match line {
        Line::Acts { id, .. } => *id == table.acts_count(),
        Line::Expr { id, .. } => *id == table.expr_count(),
        Line::Known { id, .. } => *id == table.known_count(),
    }
}

/// Whether all that the line refers to is there.
pub(crate) fn is_known(task: &Task, diagrams: &Diagrams, table: &Table, line: &Line) -> bool
    ensures { IsTrue result ↔ IsKnown task.now diagrams.now table.now.lines line.now }
{
    refers_back(table, line) && is_within(task, diagrams, line)
}

/// Whether the clauses of the line's formula are of its family.
pub(crate) fn family_fits(line: &Line) -> bool
    ensures { IsTrue result ↔ FamilyFits line.now }
{
    match line {
        Line::Expr { expr, .. } => is_of_its_family(expr),
        Line::Acts { .. } | Line::Known { .. } => true,
    }
}

fn refers_back(table: &Table, line: &Line) -> bool
    ensures { IsTrue result ↔ RefersBack table.now.lines line.now }
{
    match line {
        Line::Acts { acts, .. } => acts_refer_below(table.acts_count(), acts),
        Line::Expr { expr, .. } => {
            expr_refers_below(table.acts_count(), table.expr_count(), expr)
        }
        Line::Known {
            statement,
            premises,
            ..
        } => {
            speaks_below(table.acts_count(), table.expr_count(), *statement)
                && are_ids_below(table.known_count(), premises.as_slice())
        }
    }
}

fn acts_refer_below(count: usize, acts: &Acts) -> bool
    ensures { IsTrue result ↔ ActsReferBelow count acts.now }
{
    match acts {
        Acts::All | Acts::List(_) => true,
        Acts::Both(left, right) => *left < count && *right < count,
    }
}

fn expr_refers_below(acts: usize, exprs: usize, expr: &Expr) -> bool
    ensures { IsTrue result ↔ ExprRefersBelow acts exprs expr.now }
{
    match expr {
        Expr::Constant(_)
        | Expr::Horn(_)
        | Expr::Dual(_)
        | Expr::Two(_)
        | Expr::States(_)
        | Expr::Node(_) => true,
        Expr::Not(set) => *set < exprs,
        Expr::And(left, right) | Expr::Or(left, right) => *left < exprs && *right < exprs,
        Expr::After(set, by) | Expr::Before(set, by) => *set < exprs && *by < acts,
    }
}

fn speaks_below(acts: usize, exprs: usize, statement: Statement) -> bool
    ensures { IsTrue result ↔ SpeaksBelow acts exprs statement }
{
    match statement {
        Statement::Sub(left, right) => left < exprs && right < exprs,
        Statement::ActSub(left, right) => left < acts && right < acts,
        Statement::Dead(set) => set < exprs,
        Statement::Unsolvable => true,
    }
}

fn are_ids_below(count: usize, ids: &[usize]) -> bool
    ensures { IsTrue result ↔ AreBelow count ids.now }
{
    ids.iter().all(|id| *id < count)
}

fn are_below(count: u32, numbers: &[u32]) -> bool
    ensures { IsTrue result ↔ AreBelow count numbers.now }
{
    numbers.iter().all(|number| *number < count)
}

fn is_within(task: &Task, diagrams: &Diagrams, line: &Line) -> bool
    ensures { IsTrue result ↔ NamesWithin task.now diagrams.now line.now }
{
    match line {
        Line::Acts { acts, .. } => acts_are_within(task, acts),
        Line::Expr { expr, .. } => expr_is_within(task, diagrams, expr),
        Line::Known { .. } => true,
    }
}

fn acts_are_within(task: &Task, acts: &Acts) -> bool
    ensures { IsTrue result ↔ ActsAreWithin task.now acts.now }
{
    match acts {
        Acts::All | Acts::Both(_, _) => true,
        Acts::List(actions) => are_below(task.actions(), actions.as_slice()),
    }
}

fn expr_is_within(task: &Task, diagrams: &Diagrams, expr: &Expr) -> bool
    ensures { IsTrue result ↔ ExprIsWithin task.now diagrams.now expr.now }
{
    match expr {
        Expr::Horn(clauses) | Expr::Dual(clauses) | Expr::Two(clauses) => {
            clauses_are_below(task.atoms(), clauses)
        }
        Expr::States(states) => states_are_below(task.atoms(), states),
        Expr::Node(node) => (*node as usize) < diagrams.count(),
        Expr::Constant(_) | Expr::Not(_) => true,
        Expr::And(..) | Expr::Or(..) | Expr::After(..) | Expr::Before(..) => true,
    }
}

fn clauses_are_below(count: u32, clauses: &Clauses) -> bool
    ensures { IsTrue result ↔ ClausesAreBelow count clauses.now }
{
    for place in 0..clauses.len() {
        if !clause_is_below(count, clauses.get(place)) {
            return false;
        }
    }
    true
}

fn clause_is_below(count: u32, clause: &[Literal]) -> bool
    ensures { IsTrue result ↔ All (λ l. l.atom < count) clause.now }
{
    clause.iter().all(|literal| literal.atom < count)
}

fn states_are_below(count: u32, states: &StateList) -> bool
    ensures { IsTrue result ↔ All (AreBelow count) states.now }
{
    let mut buffer = StateBuffer::new();
    for place in 0..states.len() {
        if !are_below(count, states.get(place).slice(&mut buffer)) {
            return false;
        }
    }
    true
}

//! Which actions can turn a literal of clauses: by rows of the actions, or by a look at each.

ghost use Rattle.std.specs.Prelude.{◌≡◌, ◌<◌, ◌⊎◌, ℕ, Some, slice_get, IfOk, IfSome, OnOk};
ghost use Rattle.std.specs.List.{Contains};
ghost use Rattle.hv_task.specs.Strips.{Strips};
ghost use Rattle.hv_task.specs.declared.action.Action.{Action};
ghost use Rattle.hv_sets.specs.declared.literal.Literal.{Literal};
ghost use Rattle.hv_basic.specs.ChangeRows.{AreChangeRows, AreRowsTo, StandsInRow};
ghost use Rattle.hv_basic.specs.Working.Framed.{AreTurning, CanTurn, sign_to};

use crate::case::Case;
use crate::change_rows::ChangeRows;
use crate::picked::{put, put_row};
use crate::turned_by_look::turning_by_look;
use hv_sets::{Clauses, Literal};
use hv_task::{AtomList, AtomSet, Task};
use std::alloc::{AllocError, Global};

/// The first action and those that can make a literal of the clauses true, or false: by a look at
/// each action, if there are at most so many literals (look), or by the rows of the literals, if
/// that takes less than to ask about each action.
pub(crate) fn turning(
    alloc: Global,
    case: &Case<'_>,
    clauses: &Clauses,
    value: bool,
    look: Option<usize>,
) -> Result<Option<AtomList>, AllocError>
    ensures { IfOk result (λ found. IfSome found
        (AreTurning case.now.task.now clauses.now value)) }
{
    match look {
        Some(most) => turning_of_few(alloc, case.task, clauses, value, most),
        None => turning_by_rows(alloc, case, clauses, value),
    }
}

/// The same by a look at each action, if the literals and the flags of the atoms are at most so
/// many.
fn turning_of_few(
    alloc: Global,
    task: &Task,
    clauses: &Clauses,
    value: bool,
    most: usize,
) -> Result<Option<AtomList>, AllocError>
    ensures { IfOk result (λ found. IfSome found (AreTurning task.now clauses.now value)) }
{
    if !is_worth_a_look(task, clauses, value, most) {
        return Ok(None);
    }
    let numbers = turning_by_look(alloc, task, clauses, value)?;
    Ok(Some(numbers))
}

/// Whether the literals of the clauses and the flags of the atoms are at most so many.
fn is_worth_a_look(task: &Task, clauses: &Clauses, value: bool, most: usize) -> bool {
    let flags = task.atoms() as usize / 16;
    flags <= most && cost_of(clauses, value, None, most - flags) <= most - flags
}

/// The same by the rows of the store, if there are some.
fn turning_by_rows(
    alloc: Global,
    case: &Case<'_>,
    clauses: &Clauses,
    value: bool,
) -> Result<Option<AtomList>, AllocError>
    ensures { IfOk result (λ found. IfSome found
        (AreTurning case.now.task.now clauses.now value)) }
{
    match case.store.changes() {
        Some(changes) => turning_in_rows(alloc, case.task, clauses, value, changes),
        None => Ok(None),
    }
}

/// The same by these rows, if it takes less than to ask about each action.
fn turning_in_rows(
    alloc: Global,
    task: &Task,
    clauses: &Clauses,
    value: bool,
    changes: &ChangeRows,
) -> Result<Option<AtomList>, AllocError>
    requires { AreChangeRows task.now changes.now }
    ensures { IfOk result (λ found. IfSome found (AreTurning task.now clauses.now value)) }
{
    if cost_of(clauses, value, Some(changes), most_for(task)) > most_for(task) {
        return Ok(None);
    }
    let mut found = AtomSet::new(alloc);
    put(0, task.actions(), &mut found)?;
    for place in 0..clauses.len() {
        put_clause(
            clauses.get(place),
            value,
            changes,
            task.actions(),
            &mut found,
        )?;
    }
    let numbers = found.take(alloc)?;
    Ok(Some(numbers))
}

/// What may be looked at before a query is asked: it is less than to ask about each action.
pub(crate) fn most_for(task: &Task) -> usize {
    task.actions() as usize / 4
}

/// How many literals there are, and how many actions can turn one, by the rows if there are some;
/// or a number that is greater than this one.
pub(crate) fn cost_of(
    clauses: &Clauses,
    value: bool,
    changes: Option<&ChangeRows>,
    most: usize,
) -> usize {
    let mut cost = clauses.len();
    for place in 0..clauses.len() {
        if cost > most {
            return cost;
        }
        cost = cost.saturating_add(cost_of_clause(clauses.get(place), value, changes));
    }
    cost
}

/// How many literals the clause has, and how many actions can turn each of them.
fn cost_of_clause(clause: &[Literal], value: bool, changes: Option<&ChangeRows>) -> usize {
    let Some(changes) = changes else {
        return clause.len();
    };
    let mut cost: usize = 0;
    for literal in clause {
        let row = row_of(
            rows_that(changes, sign_to(value, literal.positive)),
            literal.atom,
        );
        cost = cost.saturating_add(row.len()).saturating_add(1);
    }
    cost
}

/// Puts in the actions that can make a literal of the clause true, or false.
fn put_clause(
    clause: &[Literal],
    value: bool,
    changes: &ChangeRows,
    actions: u32,
    found: &mut AtomSet,
) -> Result<(), AllocError>
    ensures kept { OnOk result ((k : ℕ) → Contains found.old k → Contains found.new k) }
    ensures has { OnOk result ((task : Strips) (number : ℕ) (action : Action) (literal : Literal)
        → AreChangeRows task changes.now → slice_get task.actions number ≡ Some action
        → Contains clause.now literal → CanTurn value literal action → number < actions
        → Contains found.new number) }
    ensures below { OnOk result ((k : ℕ) → Contains found.new k
        → Contains found.old k ⊎ (k < actions)) }
{
    for literal in clause {
        put_actions_for(*literal, value, changes, actions, found)?;
    }
    Ok(())
}

/// Puts in the actions that can make the literal true, or false.
fn put_actions_for(
    literal: Literal,
    value: bool,
    changes: &ChangeRows,
    actions: u32,
    found: &mut AtomSet,
) -> Result<(), AllocError>
    ensures kept { OnOk result ((k : ℕ) → Contains found.old k → Contains found.new k) }
    ensures has { OnOk result ((task : Strips) (number : ℕ) (action : Action)
        → AreChangeRows task changes.now → slice_get task.actions number ≡ Some action
        → CanTurn value literal action → number < actions → Contains found.new number) }
    ensures below { OnOk result ((k : ℕ) → Contains found.new k
        → Contains found.old k ⊎ (k < actions)) }
{
    let rows = rows_that(changes, sign_to(value, literal.positive));
    put_row(row_of(rows, literal.atom), actions, found)?;
    Ok(())
}

/// The sign that a literal's atom has to get, so that the literal becomes true, or false.
pub(crate) fn sign_to(value: bool, positive: bool) -> bool
    ensures { result ≡ sign_to value positive }
{
    if value { positive } else { !positive }
}

/// The rows by atoms that are added, or by those that are deleted.
fn rows_that(changes: &ChangeRows, adds: bool) -> &[Vec<u32>]
    ensures { (task : Strips) → AreChangeRows task changes.now → AreRowsTo adds task result.now }
{
    if adds {
        changes.adds.as_slice()
    } else {
        changes.deletes.as_slice()
    }
}

/// The row of the atom, if there is one.
fn row_of(rows: &[Vec<u32>], atom: u32) -> &[u32]
    ensures { (number : ℕ) → StandsInRow rows.now atom number → Contains result.now number }
{
    match rows.get(atom as usize) {
        Some(row) => row.as_slice(),
        None => &[],
    }
}

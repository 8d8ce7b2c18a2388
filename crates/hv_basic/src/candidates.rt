//! For which actions a statement over all actions, or most of them, is asked about: where few
//! states are asked about before the action, for those that can be applicable in one of them; where
//! one formula is asked about before the action and after it, for those that can lead into it, or
//! out of it; where clauses before the action deny atoms, for those that don't stand in the row of
//! one.

ghost use Rattle.std.specs.Prelude.{◌≡◌, ◌<◌, ◌⊎◌, ℕ, Option, Some, false, length, map};
ghost use Rattle.std.specs.Prelude.{IfOk, IfSome, IsTrue, OnOk};
ghost use Rattle.std.specs.List.{Contains};
ghost use Rattle.std.specs.List.Sorted.{IsStrictlyIncreasing};
ghost use Rattle.hv_task.specs.State.{AreBelow};
ghost use Rattle.hv_task.specs.Strips.{atoms};
ghost use Rattle.hv_explicit.specs.ListedStates.{AreStates};
ghost use Rattle.hv_lines.specs.Numbering.{acts_count};
ghost use Rattle.hv_lines.specs.Queries.{asked_actions, has_of, query_of};
ghost use Rattle.hv_lines.specs.declared.formula_family.FormulaFamily.TheVariants as F;
ghost use Rattle.hv_rows.specs.ActionRows.{AreActionRows};
ghost use Rattle.hv_rows.specs.Rows.{IsInRow};
ghost use Rattle.hv_basic.specs.Cases.{lines_in, setting_in};
ghost use Rattle.hv_basic.specs.Working.Asked.{with_action};
ghost use Rattle.hv_basic.specs.Working.Candidates.{AreCandidates, AreFound, HasEveryAction};
ghost use Rattle.hv_basic.specs.Working.Candidates.{HaveAllClashes, IsAskedBefore};
ghost use Rattle.hv_basic.specs.Working.Deciding.{AreEnough};
ghost use Rattle.hv_basic.specs.Working.Views.{question_of};

use crate::actions::asked_actions;
use crate::basic::Question;
use crate::case::Case;
use crate::denied::clashes_in_open;
use crate::families::is_listed;
use crate::framed::{crossing, most_literals};
use crate::long_lists::{listed_among, long_list};
use crate::picked::{put, put_row};
use hv_lines::{Acts, FormulaFamily, Table};
use hv_rows::action_rows;
use hv_sets::{Operand, Query, StateBuffer, StateList, Which};
use hv_task::{AtomList, AtomSet, Task};
use std::alloc::{AllocError, Global};

/// Lists of more states aren't looked at.
const FEW: usize = 64;

/// The actions for which the question's query is enough, rising; or once no action. Where the
/// others can be told to have no counterexample, these are the first action, which tells the cost,
/// and those that can have one.
pub(crate) fn actions_to_ask(
    alloc: Global,
    case: &Case<'_>,
    question: &Question,
    query: &Query,
) -> Result<Vec<Option<u32>>, AllocError>
    requires acts { IfSome question.now.acts (λ a. a < acts_count (lines_in case.now)) }
    requires query { (action : Option ℕ) → with_action query.now action
        ≡ query_of (lines_in case.now) (question_of question.now) action }
    ensures among { IfOk result (λ actions. (action : Option ℕ) → Contains actions.items action
        → Contains (asked_actions case.now.task.now (lines_in case.now) question.now.acts)
        action) }
    ensures enough { IfOk result (λ actions. AreEnough (setting_in case.now) (lines_in case.now)
        (question_of question.now) query.now actions.items) }
{
    if let Some(numbers) = few_actions(alloc, case, question, query)? {
        let actions = some_of(alloc, numbers.as_slice())?;
        return Ok(actions);
    }
    let actions = asked_actions(alloc, case.task, case.table, question.acts)?;
    Ok(actions)
}

/// The same, where the others can be told, and not over diagrams, whose costs hang on the action.
fn few_actions(
    alloc: Global,
    case: &Case<'_>,
    question: &Question,
    query: &Query,
) -> Result<Option<AtomList>, AllocError>
    requires acts { IfSome question.now.acts (λ a. a < acts_count (lines_in case.now)) }
    requires query { (action : Option ℕ) → with_action query.now action
        ≡ query_of (lines_in case.now) (question_of question.now) action }
    ensures among { IfOk result (λ few. IfSome few (λ numbers. (action : Option ℕ)
        → Contains (map (λ n. Some n) numbers) action
        → Contains (asked_actions case.now.task.now (lines_in case.now) question.now.acts)
        action)) }
    ensures enough { IfOk result (λ few. IfSome few (λ numbers. IsStrictlyIncreasing numbers
        → AreEnough (setting_in case.now) (lines_in case.now) (question_of question.now) query.now
        (map (λ n. Some n) numbers))) }
{
    if is_node(question.family) {
        return Ok(None);
    }
    if is_over_all(case.table, question.acts) {
        let Some(numbers) = all_clashes(alloc, case, question.family, query)? else {
            return Ok(None);
        };
        return Ok(Some(numbers));
    }
    let few = few_listed(alloc, case, question, query)?;
    Ok(few)
}

/// The same, where the action set is a list of at least half of the actions, and not over diagrams.
fn few_listed(
    alloc: Global,
    case: &Case<'_>,
    question: &Question,
    query: &Query,
) -> Result<Option<AtomList>, AllocError>
    requires acts { IfSome question.now.acts (λ a. a < acts_count (lines_in case.now)) }
    requires query { (action : Option ℕ) → with_action query.now action
        ≡ query_of (lines_in case.now) (question_of question.now) action }
    requires other { question.now.family ≡ F.Node → ⊥ }
    ensures among { IfOk result (λ few. IfSome few (λ numbers. (action : Option ℕ)
        → Contains (map (λ n. Some n) numbers) action
        → Contains (asked_actions case.now.task.now (lines_in case.now) question.now.acts)
        action)) }
    ensures enough { IfOk result (λ few. IfSome few (λ numbers. IsStrictlyIncreasing numbers
        → AreEnough (setting_in case.now) (lines_in case.now) (question_of question.now) query.now
        (map (λ n. Some n) numbers))) }
{
    let Some(listed) = long_list(case.table, question.acts, case.task.actions()) else {
        return Ok(None);
    };
    let Some(numbers) = all_clashes(alloc, case, question.family, query)? else {
        return Ok(None);
    };
    let few = listed_among(alloc, listed, numbers.as_slice(), case.task.actions())?;
    Ok(Some(few))
}

/// The first action and those for which the query can have a counterexample, where there is a way
/// to find them that takes less than to ask about each action.
fn all_clashes(
    alloc: Global,
    case: &Case<'_>,
    family: FormulaFamily,
    query: &Query,
) -> Result<Option<AtomList>, AllocError>
    ensures { IfOk result (λ found. IfSome found (HaveAllClashes case.now.task.now
        (has_of (setting_in case.now) (lines_in case.now) family) query.now)) }
{
    if let Some(numbers) = clashes_in_few(alloc, case, family, query)? {
        return Ok(Some(numbers));
    }
    if let Some(numbers) = crossing(alloc, case, family, query, None)? {
        return Ok(Some(numbers));
    }
    if let Some(numbers) = clashes_in_open(alloc, case, family, query)? {
        return Ok(Some(numbers));
    }
    let most = most_literals(case, family, query.positive.as_slice());
    let numbers = crossing(alloc, case, family, query, Some(most))?;
    Ok(numbers)
}

/// The same, where few states are asked about before the action.
fn clashes_in_few(
    alloc: Global,
    case: &Case<'_>,
    family: FormulaFamily,
    query: &Query,
) -> Result<Option<AtomList>, AllocError>
    ensures { IfOk result (λ found. IfSome found (HaveAllClashes case.now.task.now
        (has_of (setting_in case.now) (lines_in case.now) family) query.now)) }
{
    let Some(which) = few_states(case, family, query.positive.as_slice()) else {
        return Ok(None);
    };
    let Some(numbers) = candidates(alloc, case, family, which)? else {
        return Ok(None);
    };
    Ok(Some(numbers))
}

fn is_node(family: FormulaFamily) -> bool
    ensures { result ≡ false → family ≡ F.Node → ⊥ }
{
    family == FormulaFamily::Node
}

/// Whether the action set is that of all actions.
fn is_over_all(table: &Table, acts: Option<usize>) -> bool
    requires { IfSome acts (λ a. a < acts_count table.now.lines) }
    ensures { IsTrue result → HasEveryAction table.now.lines acts }
{
    let Some(acts) = acts else {
        return false;
    };
    match table.acts(acts) {
        Acts::All => true,
        Acts::List(_) | Acts::Both(..) => false,
    }
}

/// A set of few states that is asked about before the action, if there is one.
fn few_states(case: &Case<'_>, family: FormulaFamily, operands: &[Operand]) -> Option<Which>
    ensures { IfSome result (IsAskedBefore operands.now) }
{
    for operand in operands {
        if !operand.after && lists_few(case, family, operand.which) {
            return Some(operand.which);
        }
    }
    None
}

/// Whether the set is that of the initial state, or lists few states.
fn lists_few(case: &Case<'_>, family: FormulaFamily, which: Which) -> bool {
    match which {
        Which::Start => true,
        Which::Set(number) => {
            let sets = case.store.listed();
            family == FormulaFamily::States
                && number < sets.len()
                && sets.get(number).states().len() <= FEW
        }
        Which::Empty | Which::Goal => false,
    }
}

/// The first action, and those that can be applicable in a state of the set, if that is one of
/// listed states or of the initial one.
fn candidates(
    alloc: Global,
    case: &Case<'_>,
    family: FormulaFamily,
    which: Which,
) -> Result<Option<AtomList>, AllocError>
    ensures { IfOk result (λ found. IfSome found (AreCandidates case.now.task.now
        (has_of (setting_in case.now) (lines_in case.now) family) which)) }
{
    match which {
        Which::Start => {
            let mut states = StateList::new(alloc);
            states.push_atoms(case.task.start().as_slice())?;
            let Some(numbers) = applicable_in(alloc, case, &states, !is_listed(family))? else {
                return Ok(None);
            };
            Ok(Some(numbers))
        }
        Which::Set(number) => {
            let sets = case.store.listed();
            if !is_listed(family) {
                return Ok(None);
            }
            if number >= sets.len() {
                return Ok(None);
            }
            let states = sets.get(number).states();
            let Some(numbers) = applicable_in(alloc, case, states, false)? else {
                return Ok(None);
            };
            Ok(Some(numbers))
        }
        Which::Empty | Which::Goal => Ok(None),
    }
}

/// The first action, and those of which an atom of the precondition is in one of the states, by the
/// rows that the store has; or by rows that are made, if they are to be made where it has none.
fn applicable_in(
    alloc: Global,
    case: &Case<'_>,
    states: &StateList,
    makes: bool,
) -> Result<Option<AtomList>, AllocError>
    requires { AreStates (atoms case.now.task.now) states.now }
    ensures { IfOk result (λ found. IfSome found (AreFound case.now.task.now states.now)) }
{
    match case.store.rows() {
        Some(rows) => applicable_by(alloc, case.task, rows, states),
        None => {
            if !makes {
                return Ok(None);
            }
            let rows = action_rows(alloc, case.task)?;
            applicable_by(alloc, case.task, &rows, states)
        }
    }
}

/// The same by these rows, if it takes less than to ask about each action.
fn applicable_by(
    alloc: Global,
    task: &Task,
    rows: &[Vec<u32>],
    states: &StateList,
) -> Result<Option<AtomList>, AllocError>
    requires rows { AreActionRows task.now rows.now }
    requires states { AreStates (atoms task.now) states.now }
    ensures { IfOk result (λ found. IfSome found (AreFound task.now states.now)) }
{
    if cost_of_rows(rows, states) > task.actions() as usize / 4 {
        return Ok(None);
    }
    let mut found = AtomSet::new(alloc);
    put(0, task.actions(), &mut found)?;
    put_row(&rows[task.atoms() as usize], task.actions(), &mut found)?;
    let mut buffer = StateBuffer::new();
    for place in 0..states.len() {
        let held = states.get(place).slice(&mut buffer);
        put_rows(rows, held, task.actions(), &mut found)?;
    }
    let numbers = found.take(alloc)?;
    Ok(Some(numbers))
}

/// How many atoms the states have, and how many actions are in the rows of these.
fn cost_of_rows(rows: &[Vec<u32>], states: &StateList) -> usize {
    let mut cost: usize = 0;
    let mut buffer = StateBuffer::new();
    for place in 0..states.len() {
        for atom in states.get(place).slice(&mut buffer) {
            if let Some(row) = rows.get(*atom as usize) {
                cost = cost.saturating_add(row.len()).saturating_add(1);
            }
        }
    }
    cost
}

/// Puts in the numbers of the rows of these atoms.
fn put_rows(
    rows: &[Vec<u32>],
    atoms: &[u32],
    actions: u32,
    found: &mut AtomSet,
) -> Result<(), AllocError>
    requires { AreBelow (length rows.now) atoms.now }
    ensures kept { OnOk result ((k : ℕ) → Contains found.old k → Contains found.new k) }
    ensures has { OnOk result ((p k : ℕ) → Contains atoms.now p → IsInRow rows.now p k → k < actions
        → Contains found.new k) }
    ensures below { OnOk result ((k : ℕ) → Contains found.new k
        → Contains found.old k ⊎ (k < actions)) }
{
    for atom in atoms {
        put_row(&rows[*atom as usize], actions, found)?;
    }
    Ok(())
}

/// The numbers as actions of queries.
fn some_of(alloc: Global, numbers: &[u32]) -> Result<Vec<Option<u32>>, AllocError>
    ensures { IfOk result (λ actions. actions.items ≡ map (λ n. Some n) numbers.now) }
{
    let mut actions = Vec::with_capacity(alloc, numbers.len())?;
    for number in numbers {
        actions.push(Some(*number))?;
    }
    Ok(actions)
}

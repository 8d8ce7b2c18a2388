//! Tests of the pruners by what is reached.

ghost use Rattle.std.specs.Prelude.{OnOk};
ghost use Rattle.hv_lines.specs.Drafts.{IsGoodTable};
ghost use Rattle.hv_reach.specs.Pruners.{FitRelaxed};

use crate::tasks::{either, holding, robot};
use hv_lines::{Draft, Pruner};
use hv_reach::{PairPruner, RelaxedPruner};
use hv_task::Task;
use std::alloc::{AllocError, Global};

// The answer of a pruner without notes, for the state that holds these atoms.
fn first_answer<P: Pruner>(
    pruner: &mut P,
    alloc: Global,
    task: &Task,
    draft: &mut Draft,
    atoms: &[u32],
) -> Result<Option<usize>, AllocError>
    requires { IsGoodTable task.now draft.old.lines }
{
    let state = holding(alloc, task, atoms)?;
    pruner.begin();
    pruner.justify(alloc, task, draft, &state)
}

/// The same in a new draft.
pub(crate) fn answer_anew<P: Pruner>(
    pruner: &mut P,
    alloc: Global,
    task: &Task,
    atoms: &[u32],
) -> Result<Option<usize>, AllocError> {
    let mut draft = Draft::new(alloc, task)?;
    first_answer(pruner, alloc, task, &mut draft, atoms)
}

// A further answer, for the state that holds this atom.
fn answer_for(
    pruner: &mut RelaxedPruner,
    alloc: Global,
    task: &Task,
    draft: &mut Draft,
    atom: u32,
) -> Result<Option<usize>, AllocError>
    requires good { IsGoodTable task.now draft.old.lines }
    requires fits { FitRelaxed task.now draft.old.lines pruner.old }
    ensures good { OnOk result (IsGoodTable task.now draft.new.lines) }
    ensures fits { OnOk result (FitRelaxed task.now draft.new.lines pruner.new) }
{
    let state = holding(alloc, task, &[atom])?;
    pruner.answer(alloc, task, draft, &state)
}

/// An atom, and what a pruner answers for the state that holds it alone.
type AskedReach = (u32, Option<usize>);

// Whether a pruner answers so for the one and then for the other.
fn are_answers(
    pruner: &mut RelaxedPruner,
    alloc: Global,
    task: &Task,
    draft: &mut Draft,
    one: AskedReach,
    other: AskedReach,
) -> Result<bool, AllocError>
    requires good { IsGoodTable task.now draft.old.lines }
    requires fits { FitRelaxed task.now draft.old.lines pruner.old }
{
    let here = answer_for(pruner, alloc, task, draft, one.0)?;
    let there = answer_for(pruner, alloc, task, draft, other.0)?;
    Ok(here == one.1 && there == other.1)
}

// The same of a pruner without notes.
fn are_first_answers(
    alloc: Global,
    task: &Task,
    draft: &mut Draft,
    one: AskedReach,
    other: AskedReach,
) -> Result<bool, AllocError>
    requires { IsGoodTable task.now draft.old.lines }
{
    let mut pruner = RelaxedPruner::new(alloc);
    are_answers(&mut pruner, alloc, task, draft, one, other)
}

// The same in a new draft, in which one block is at last.
fn answers(
    alloc: Global,
    task: &Task,
    one: AskedReach,
    other: AskedReach,
) -> Result<bool, AllocError> {
    let mut draft = Draft::new(alloc, task)?;
    let alike = are_first_answers(alloc, task, &mut draft, one, other)?;
    Ok(alike && draft.table().len() == 13)
}

// The answer of a pruner by atoms without notes in a new draft, by its bound.
fn answer_by_atoms(alloc: Global, task: &Task, atom: u32) -> Result<Option<usize>, AllocError> {
    let mut pruner = RelaxedPruner::new(alloc);
    answer_anew(&mut pruner, alloc, task, &[atom])
}

// That of a pruner by pairs.
fn answer_by_pairs(alloc: Global, task: &Task, atom: u32) -> Result<Option<usize>, AllocError> {
    let mut pruner = PairPruner::new(alloc);
    answer_anew(&mut pruner, alloc, task, &[atom])
}

// Whether the answers for a robot and a key it can't get are those of one formula, which is noted.
fn are_noted(alloc: Global, task: &Task) -> Result<bool, AllocError> {
    let reached = answers(alloc, task, (0, Some(4)), (1, Some(4)))?;
    Ok(reached & answers(alloc, task, (2, None), (0, Some(4)))?)
}

// Whether a pruner by atoms has no answer for the first of two atoms that exclude each other, and
// one by pairs has.
fn need_pairs(alloc: Global, task: &Task) -> Result<bool, AllocError> {
    let none = answer_by_atoms(alloc, task, 0)?.is_none();
    Ok(none & (answer_by_pairs(alloc, task, 0)? == Some(4)))
}

// The same of a new task.
fn robot_is_noted(alloc: Global) -> Result<bool, AllocError> {
    let task = robot(alloc)?;
    are_noted(alloc, &task)
}

#[test]
fn a_noted_formula_answers_again(rt: HostRuntime) {
    assert!(rt; robot_is_noted(rt.alloc()) == Ok(true));
}

// The same of a new task.
fn either_needs_pairs(alloc: Global) -> Result<bool, AllocError> {
    let task = either(alloc)?;
    need_pairs(alloc, &task)
}

#[test]
fn through_a_bound(rt: HostRuntime) {
    assert!(rt; either_needs_pairs(rt.alloc()) == Ok(true));
}

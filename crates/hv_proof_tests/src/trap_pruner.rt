//! Tests of the pruner by the greatest trap.

ghost use Rattle.std.specs.Prelude.{◌≤◌, OnOk};
ghost use Rattle.hv_lines.specs.Drafts.{IsGoodTable};
ghost use Rattle.hv_trap.specs.Pruner.{AreTrapNotes};

use crate::reach_pruners::answer_anew;
use crate::tasks::{either, holding, task_of};
use hv_lines::{Draft, Pruner};
use hv_task::Task;
use hv_trap::TrapPruner;
use std::alloc::{AllocError, Global};

// The answer of a pruner without notes.
fn trap_answer(alloc: Global, task: &Task, atoms: &[u32]) -> Result<Option<usize>, AllocError> {
    let mut pruner = TrapPruner::new(alloc);
    answer_anew(&mut pruner, alloc, task, atoms)
}

// That for a task of so many atoms, of which the first is the goal.
fn answer_among(alloc: Global, atoms: u32) -> Result<Option<usize>, AllocError>
    requires { atoms ≤ 2000 }
{
    let task = task_of(alloc, atoms, &[], &[0])?;
    trap_answer(alloc, &task, &[1])
}

// A further answer, for the state that holds these atoms.
fn answer_for(
    pruner: &mut TrapPruner,
    alloc: Global,
    task: &Task,
    draft: &mut Draft,
    atoms: &[u32],
) -> Result<Option<usize>, AllocError>
    requires good { IsGoodTable task.now draft.old.lines }
    requires fits { AreTrapNotes task.now draft.old.lines pruner.old }
    ensures good { OnOk result (IsGoodTable task.now draft.new.lines) }
    ensures fits { OnOk result (AreTrapNotes task.now draft.new.lines pruner.new) }
{
    let state = holding(alloc, task, atoms)?;
    pruner.answer(alloc, task, draft, &state)
}

/// Atoms, and what a pruner answers for the state that holds them.
type AskedTrap<'a> = (&'a [u32], Option<usize>);

// Whether a pruner answers so for the one and then for the other.
fn are_answers(
    pruner: &mut TrapPruner,
    alloc: Global,
    task: &Task,
    draft: &mut Draft,
    one: AskedTrap<'_>,
    other: AskedTrap<'_>,
) -> Result<bool, AllocError>
    requires good { IsGoodTable task.now draft.old.lines }
    requires fits { AreTrapNotes task.now draft.old.lines pruner.old }
{
    let here = answer_for(pruner, alloc, task, draft, one.0)?;
    let there = answer_for(pruner, alloc, task, draft, other.0)?;
    Ok(here == one.1 && there == other.1)
}

// The same of a pruner without notes.
fn are_first_answers(
    alloc: Global,
    task: &Task,
    draft: &mut Draft,
    one: AskedTrap<'_>,
    other: AskedTrap<'_>,
) -> Result<bool, AllocError>
    requires { IsGoodTable task.now draft.old.lines }
{
    let mut pruner = TrapPruner::new(alloc);
    are_answers(&mut pruner, alloc, task, draft, one, other)
}

// The same in a new draft, in which one block is at last.
fn answers(
    alloc: Global,
    task: &Task,
    one: AskedTrap<'_>,
    other: AskedTrap<'_>,
) -> Result<bool, AllocError> {
    let mut draft = Draft::new(alloc, task)?;
    let alike = are_first_answers(alloc, task, &mut draft, one, other)?;
    Ok(alike && draft.table().len() == 14)
}

// The answer of a pruner in a box, for the state that holds these atoms.
fn answer_of_boxed(
    pruner: &mut Box<dyn Pruner>,
    alloc: Global,
    task: &Task,
    draft: &mut Draft,
    atoms: &[u32],
) -> Result<Option<usize>, AllocError>
    requires { IsGoodTable task.now draft.old.lines }
{
    let state = holding(alloc, task, atoms)?;
    pruner.begin();
    pruner.justify(alloc, task, draft, &state)
}

// The same in a new draft.
fn boxed_answer(alloc: Global, task: &Task, atoms: &[u32]) -> Result<Option<usize>, AllocError> {
    let mut draft = Draft::new(alloc, task)?;
    let mut pruner: Box<dyn Pruner> = Box::new(alloc, TrapPruner::new(alloc))?;
    answer_of_boxed(&mut pruner, alloc, task, &mut draft, atoms)
}

// Whether the answers for two atoms that exclude each other are those of one block.
fn are_of_one_block(alloc: Global, task: &Task) -> Result<bool, AllocError> {
    let mut right = answers(alloc, task, (&[0], Some(4)), (&[1], Some(4)))?;
    right &= answers(alloc, task, (&[0, 1], None), (&[0], Some(4)))?;
    right &= answers(alloc, task, (&[0], Some(4)), (&[0, 1], None))?;
    Ok(right)
}

// The same of a new task.
fn either_is_of_one_block(alloc: Global) -> Result<bool, AllocError> {
    let task = either(alloc)?;
    are_of_one_block(alloc, &task)
}

#[test]
fn one_block_answers_for_all_states(rt: HostRuntime) {
    assert!(rt; either_is_of_one_block(rt.alloc()) == Ok(true));
}

#[test]
fn through_a_bound_up_to_64_atoms(rt: HostRuntime) {
    assert!(rt; answer_among(rt.alloc(), 64) == Ok(Some(4)));
    assert!(rt; answer_among(rt.alloc(), 65) == Ok(None));
}

// The same in a new task, for the state that holds the first atom.
fn boxed_answer_anew(alloc: Global) -> Result<Option<usize>, AllocError> {
    let task = either(alloc)?;
    boxed_answer(alloc, &task, &[0])
}

#[test]
fn through_a_box(rt: HostRuntime) {
    assert!(rt; boxed_answer_anew(rt.alloc()) == Ok(Some(4)));
}

//! Tests of the tasks of cost bounds: what is made, and what would be too large.

use crate::texts::{BACK_AND_FORTH, joined, push_line, read, task_of};
use hv_bound::{BoundFault, bounded};
use hv_task::Task;
use hv_task_text::{TaskFault, write_task};
use std::alloc::{AllocError, Global};

// Whether the task is written so.
fn is_written(alloc: Global, task: &Task, want: &[u8]) -> Result<bool, AllocError> {
    let text = write_task(alloc, task)?;
    Ok(text.as_bytes() == want)
}

// Whether the task of the bound is written so.
fn is_written_within(
    alloc: Global,
    task: &Task,
    most: u32,
    want: &[u8],
) -> Result<bool, BoundFault> {
    let made = bounded(alloc, task, most)?;
    Ok(is_written(alloc, &made, want) == Ok(true))
}

// Whether the task of the bound has these lines.
fn is_made(alloc: Global, task: &Task, most: u32, want: &[&str]) -> Result<bool, BoundFault> {
    let text = joined(alloc, want)?;
    is_written_within(alloc, task, most, text.as_slice())
}

// Whether the task of the bound that is made of these lines has those.
fn makes(alloc: Global, lines: &[&str], most: u32, want: &[&str]) -> Result<bool, TaskFault> {
    let task = task_of(alloc, lines)?;
    Ok(is_made(alloc, &task, most, want) == Ok(true))
}

/// Back and forth where nothing may be spent: no action is left.
static NOTHING_TO_SPEND: [&str; 15] = [
    "begin_atoms:4",
    "Atom p",
    "Atom q",
    "Atom r",
    "left 0",
    "end_atoms",
    "begin_init",
    "0",
    "3",
    "end_init",
    "begin_goal",
    "1",
    "end_goal",
    "begin_actions:0",
    "end_actions",
];

/// Back and forth where one step may be paid for.
static ONE_TO_SPEND: [&str; 36] = [
    "begin_atoms:5",
    "Atom p",
    "Atom q",
    "Atom r",
    "left 0",
    "left 1",
    "end_atoms",
    "begin_init",
    "0",
    "4",
    "end_init",
    "begin_goal",
    "1",
    "end_goal",
    "begin_actions:2",
    "begin_action",
    "0 1",
    "cost:1",
    "PRE:0",
    "PRE:4",
    "ADD:1",
    "ADD:3",
    "DEL:0",
    "DEL:4",
    "end_action",
    "begin_action",
    "1 1",
    "cost:1",
    "PRE:1",
    "PRE:4",
    "ADD:0",
    "ADD:3",
    "DEL:1",
    "DEL:4",
    "end_action",
    "end_actions",
];

#[test]
fn back_and_forth_within_bounds(rt: HostRuntime) {
    assert!(rt; makes(rt.alloc(), &BACK_AND_FORTH, 0, &NOTHING_TO_SPEND) == Ok(true));
    assert!(rt; makes(rt.alloc(), &BACK_AND_FORTH, 1, &ONE_TO_SPEND) == Ok(true));
}

/// Two atoms, and actions that cost nothing, two, and more than the bound.
static THREE_COSTS: [&str; 26] = [
    "begin_atoms:2",
    "Atom p",
    "Atom q",
    "end_atoms",
    "begin_init",
    "end_init",
    "begin_goal",
    "0",
    "1",
    "end_goal",
    "begin_actions:3",
    "begin_action",
    "free",
    "cost:0",
    "ADD:0",
    "end_action",
    "begin_action",
    "dear",
    "cost:4",
    "ADD:1",
    "end_action",
    "begin_action",
    "fair",
    "cost:2",
    "end_action",
    "end_actions",
];

/// The same where three may be spent: the first action stays as it is, the second is left out, and
/// the third is made once for two and once for three.
static THREE_TO_SPEND: [&str; 36] = [
    "begin_atoms:6",
    "Atom p",
    "Atom q",
    "left 0",
    "left 1",
    "left 2",
    "left 3",
    "end_atoms",
    "begin_init",
    "5",
    "end_init",
    "begin_goal",
    "0",
    "1",
    "end_goal",
    "begin_actions:3",
    "begin_action",
    "0",
    "cost:0",
    "ADD:0",
    "end_action",
    "begin_action",
    "2 2",
    "cost:2",
    "PRE:4",
    "ADD:2",
    "DEL:4",
    "end_action",
    "begin_action",
    "2 3",
    "cost:2",
    "PRE:5",
    "ADD:3",
    "DEL:5",
    "end_action",
    "end_actions",
];

#[test]
fn free_fair_and_dear_actions(rt: HostRuntime) {
    assert!(rt; makes(rt.alloc(), &THREE_COSTS, 3, &THREE_TO_SPEND) == Ok(true));
}

// How many atoms and actions the task of the bound has.
fn counts(alloc: Global, task: &Task, most: u32) -> Result<(u32, u32), BoundFault> {
    let made = bounded(alloc, task, most)?;
    Ok((made.atoms(), made.actions()))
}

// Whether the task of the bound would be too large.
fn is_too_large(alloc: Global, task: &Task, most: u32) -> bool {
    counts(alloc, task, most).err() == Some(BoundFault::TooLarge)
}

// Whether back and forth is too large where this may be spent.
fn goes_too_far(alloc: Global, most: u32) -> Result<bool, TaskFault> {
    let task = task_of(alloc, &BACK_AND_FORTH)?;
    Ok(is_too_large(alloc, &task, most))
}

// Whether it has so many atoms and actions then.
fn has_counts(alloc: Global, most: u32, want: (u32, u32)) -> Result<bool, TaskFault> {
    let task = task_of(alloc, &BACK_AND_FORTH)?;
    Ok(counts(alloc, &task, most) == Ok(want))
}

#[test]
fn as_many_atoms_as_a_task_may_have(rt: HostRuntime) {
    assert!(rt; goes_too_far(rt.alloc(), 65_532) == Ok(true));
    assert!(rt; goes_too_far(rt.alloc(), u32::MAX) == Ok(true));
    assert!(rt; has_counts(rt.alloc(), 65_531, (65_535, 131_062)) == Ok(true));
}

/// The text of a task without atoms, up to its twenty actions.
static BEFORE_ACTIONS: [&str; 7] = [
    "begin_atoms:0",
    "end_atoms",
    "begin_init",
    "end_init",
    "begin_goal",
    "end_goal",
    "begin_actions:20",
];

// An action that costs one.
fn push_action(text: &mut Vec<u8>) -> Result<(), AllocError> {
    push_line(text, "begin_action")?;
    push_line(text, "step")?;
    push_line(text, "cost:1")?;
    push_line(text, "end_action")
}

// The text of a task of twenty actions that cost one each.
fn twenty_actions(alloc: Global) -> Result<Vec<u8>, AllocError> {
    let mut text = joined(alloc, &BEFORE_ACTIONS)?;
    for _ in 0..20 {
        push_action(&mut text)?;
    }
    push_line(&mut text, "end_actions")?;
    Ok(text)
}

// The task of this text.
fn twenty_step_task(alloc: Global) -> Result<Task, TaskFault> {
    let text = twenty_actions(alloc)?;
    read(alloc, text.as_slice())
}

// Whether that task is too large where this may be spent.
fn steps_too_often(alloc: Global, most: u32) -> Result<bool, TaskFault> {
    let task = twenty_step_task(alloc)?;
    Ok(is_too_large(alloc, &task, most))
}

#[test]
fn more_actions_than_a_task_may_have(rt: HostRuntime) {
    assert!(rt; steps_too_often(rt.alloc(), 50_001) == Ok(true));
    assert!(rt; steps_too_often(rt.alloc(), 50) == Ok(false));
}

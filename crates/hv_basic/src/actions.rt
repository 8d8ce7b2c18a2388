//! For which actions a statement asks a query.

ghost use Rattle.std.specs.Prelude.{◌≡◌, ◌<◌, ◌≤◌, ◌++◌, [], ◌∷◌, Some, IfOk, IfSome, IsTrue, OnOk};
ghost use Rattle.std.specs.List.Sorted.{IsStrictlyIncreasing};
ghost use Rattle.hv_lines.specs.Numbering.{acts_at, acts_count};
ghost use Rattle.hv_lines.specs.Queries.{actions_below, asked_actions};
ghost use Rattle.hv_lines.specs.declared.line.Acts.TheVariants as A;

use crate::acts::flags_of;
use hv_lines::{Acts, Table};
use hv_task::Task;
use std::alloc::{AllocError, Global};

/// The actions of the action set, rising; or once no action.
pub(crate) fn asked_actions(
    alloc: Global,
    task: &Task,
    table: &Table,
    acts: Option<usize>,
) -> Result<Vec<Option<u32>>, AllocError>
    requires { IfSome acts (λ a. a < acts_count table.now.lines) }
    ensures { IfOk result (λ actions. actions.items ≡ asked_actions task.now table.now.lines acts) }
{
    match acts {
        None => {
            let mut actions = Vec::new(alloc);
            actions.push(None)?;
            Ok(actions)
        }
        Some(acts) => {
            let actions = actions_of(alloc, table, acts, task.actions())?;
            Ok(actions)
        }
    }
}

/// The actions of the action set, of so many: a list that rises is there already.
fn actions_of(
    alloc: Global,
    table: &Table,
    acts: usize,
    actions: u32,
) -> Result<Vec<Option<u32>>, AllocError>
    requires { acts < acts_count table.now.lines }
    ensures { IfOk result (λ asked. asked.items ≡ actions_below table.now.lines acts actions) }
{
    if let Acts::List(listed) = table.acts(acts) {
        if is_rising(listed.as_slice()) {
            let asked = listed_actions(alloc, table, acts, listed.as_slice(), actions)?;
            return Ok(asked);
        }
    }
    let asked = flagged_actions(alloc, table, acts, actions)?;
    Ok(asked)
}

/// The actions of the action set, of so many, by a flag for each.
fn flagged_actions(
    alloc: Global,
    table: &Table,
    acts: usize,
    actions: u32,
) -> Result<Vec<Option<u32>>, AllocError>
    requires { acts < acts_count table.now.lines }
    ensures { IfOk result (λ asked. asked.items ≡ actions_below table.now.lines acts actions) }
{
    let mut asked = Vec::new(alloc);
    let flags = flags_of(alloc, table, acts, actions)?;
    for action in 0..actions {
        if flags[action as usize] {
            asked.push(Some(action))?;
        }
    }
    Ok(asked)
}

/// The actions of the action set that lists these, of so many.
fn listed_actions(
    alloc: Global,
    table: &Table,
    acts: usize,
    listed: &[u32],
    actions: u32,
) -> Result<Vec<Option<u32>>, AllocError>
    requires lists { acts_at table.now.lines acts ≡ Some (A.List listed.now) }
    requires rises { IsStrictlyIncreasing listed.now }
    ensures { IfOk result (λ asked. asked.items ≡ actions_below table.now.lines acts actions) }
{
    // For its contract alone: the lines are those of a table.
    let _count = table.acts_count();
    let mut asked = Vec::with_capacity(alloc, listed.len())?;
    for action in listed {
        push_below(&mut asked, *action, actions)?;
    }
    Ok(asked)
}

/// Adds the action, if it is one of so many.
fn push_below(asked: &mut Vec<Option<u32>>, action: u32, actions: u32) -> Result<(), AllocError>
    ensures below { OnOk result (action < actions
        → asked.new.items ≡ asked.old.items ++ Some action ∷ []) }
    ensures past { OnOk result (actions ≤ action → asked.new.items ≡ asked.old.items) }
{
    if action < actions {
        asked.push(Some(action))?;
    }
    Ok(())
}

/// Whether each number is less than the next one.
pub(crate) fn is_rising(listed: &[u32]) -> bool
    ensures { IsTrue result → IsStrictlyIncreasing listed.now }
{
    for k in 1..listed.len() {
        if listed[k - 1] >= listed[k] {
            return false;
        }
    }
    true
}

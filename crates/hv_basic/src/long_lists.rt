//! Which actions of a long list are asked about: its first one, and those among all that can have a
//! counterexample.

ghost use Rattle.std.specs.Prelude.{◌<◌, ◌⊎◌, ℕ, IfOk, IfSome, OnOk};
ghost use Rattle.std.specs.List.{Contains};
ghost use Rattle.std.specs.List.Sorted.{IsStrictlyIncreasing};
ghost use Rattle.hv_lines.specs.Numbering.{acts_count};
ghost use Rattle.hv_basic.specs.Working.Candidates.{AreListedAmong, IsRisingList};

use crate::actions::is_rising;
use hv_lines::{Acts, Table};
use hv_task::{AtomList, AtomSet, names_atom};
use std::alloc::{AllocError, Global};

/// The actions that the action set lists, if they rise and are at least half of so many.
pub(crate) fn long_list(table: &Table, acts: Option<usize>, actions: u32) -> Option<&[u32]>
    requires { IfSome acts (λ a. a < acts_count table.now.lines) }
    ensures { IfSome result (λ listed. IsRisingList table.now.lines acts listed.now) }
{
    let Some(acts) = acts else {
        return None;
    };
    let Acts::List(listed) = table.acts(acts) else {
        return None;
    };
    let listed = listed.as_slice();
    if listed.len() < actions as usize / 2 {
        return None;
    }
    if !is_rising(listed) {
        return None;
    }
    Some(listed)
}

/// Of the numbers those that are listed, and the first that is listed, if they are among so many.
pub(crate) fn listed_among(
    alloc: Global,
    listed: &[u32],
    numbers: &[u32],
    actions: u32,
) -> Result<AtomList, AllocError>
    requires { IsStrictlyIncreasing listed.now }
    ensures { IfOk result (AreListedAmong listed.now numbers.now actions) }
{
    let mut found = AtomSet::new(alloc);
    put_first(listed, actions, &mut found)?;
    for number in numbers {
        put_listed(listed, *number, actions, &mut found)?;
    }
    let few = found.take(alloc)?;
    Ok(few)
}

/// Puts the first that is listed in, if it is among so many: else none of the others is.
fn put_first(listed: &[u32], actions: u32, found: &mut AtomSet) -> Result<(), AllocError>
    requires { IsStrictlyIncreasing listed.now }
    ensures some { OnOk result ((k : ℕ) → Contains listed.now k → k < actions
        → (j : ℕ) × Contains found.new j) }
    ensures only { OnOk result ((k : ℕ) → Contains found.new k
        → Contains found.old k ⊎ (Contains listed.now k × (k < actions))) }
{
    if listed.is_empty() {
        return Ok(());
    }
    put_listed(listed, listed[0], actions, found)?;
    Ok(())
}

/// Puts the number in, if it is listed and among so many.
fn put_listed(
    listed: &[u32],
    number: u32,
    actions: u32,
    found: &mut AtomSet,
) -> Result<(), AllocError>
    requires { IsStrictlyIncreasing listed.now }
    ensures kept { OnOk result ((k : ℕ) → Contains found.old k → Contains found.new k) }
    ensures has { OnOk result (Contains listed.now number → number < actions
        → Contains found.new number) }
    ensures only { OnOk result ((k : ℕ) → Contains found.new k
        → Contains found.old k ⊎ (Contains listed.now k × (k < actions))) }
{
    if number >= actions {
        return Ok(());
    }
    if !names_atom(listed, number) {
        return Ok(());
    }
    found.insert(number)?;
    Ok(())
}

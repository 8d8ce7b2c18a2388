//! How far a log leads on, asked action by action.
//!
//! In a closed log nothing else is asked. Where an action leads out, the log is halved, and its
//! first half is asked alone, until some 64 entries are left from which one leads out: with their
//! sets that takes at most twice as long again. What comes before them was asked of the store, so
//! `open` is right wherever it begins.

ghost use Rattle.std.specs.Prelude.{◌≡◌, ◌<◌, ◌≤◌, ℕ, true, length, IfOk, OnOk};
ghost use Rattle.hv_task.specs.Strips.{atoms};
ghost use Rattle.hv_explicit.specs.ListedStates.{AreStates};
ghost use Rattle.hv_replay.specs.Closed.{LeadsOn};
ghost use Rattle.hv_replay.specs.Working.Leading.{HasLog, IsLogPart, IsOpenPart, LeadOnIn};
ghost use Rattle.hv_replay.specs.Working.Leading.{ListsExpanded, SetHasExpanded};

use crate::expanded::{are_expanded, put_expanded};
use crate::log::Log;
use crate::log_query::all_stay;
use hv_explicit::{Explicit, Explicits};
use hv_sets::StateList;
use hv_task::Task;
use std::alloc::{AllocError, Global};

// So few entries are asked one by one.
const FEW: usize = 64;

// A log is halved so often at most: a million entries are then few.
const MOST_HALVES: usize = 20;

/// Entries of a log: those from a place on that stand before another place.
#[derive(Clone, Copy)]
pub(crate) struct LogPart {
    from: usize,
    upto: usize,
}

/// A store with one set: that of the states of a log.
pub(crate) fn set_of(alloc: Global, task: &Task, log: &Log) -> Result<Explicits, AllocError>
    requires { log.now.atoms ≡ atoms task.now }
    ensures { IfOk result (HasLog log.now) }
{
    let mut sets = Explicits::new(alloc);
    sets.add(Explicit::new(alloc, task, log.states())?)?;
    Ok(sets)
}

/// So many of the first entries lead on by each action, and maybe more: all, where no action leads
/// out of the log. The first set is that of the states of the log, and further ones are added.
pub(crate) fn leading(
    alloc: Global,
    task: &Task,
    log: &Log,
    sets: &mut Explicits,
) -> Result<usize, AllocError>
    requires atoms { log.now.atoms ≡ atoms task.now }
    requires sets { HasLog log.now sets.old }
    ensures sets { OnOk result (HasLog log.now sets.new) }
    ensures few { IfOk result (λ count. count ≤ length log.now.entries) }
    ensures lead { IfOk result (λ count. (place action : ℕ) → place < count
        → LeadsOn task.now log.now place action) }
{
    let count = log.len();
    let mut part = LogPart {
        from: 0,
        upto: count,
    };
    if count <= FEW {
        return Ok(0);
    }
    if lead_on(alloc, task, log, sets, part)? {
        return Ok(count);
    }
    for _ in 0..MOST_HALVES {
        if part.upto - part.from <= FEW {
            return Ok(part.from);
        }
        part = half(alloc, task, log, sets, part)?;
    }
    Ok(part.from)
}

// The first half of the part, or the second one where every action leads on from the first.
fn half(
    alloc: Global,
    task: &Task,
    log: &Log,
    sets: &mut Explicits,
    part: LogPart,
) -> Result<LogPart, AllocError>
    requires atoms { log.now.atoms ≡ atoms task.now }
    requires sets { HasLog log.now sets.old }
    requires part { IsOpenPart task.now log.now part }
    ensures sets { OnOk result (HasLog log.now sets.new) }
    ensures part { IfOk result (IsOpenPart task.now log.now) }
{
    let middle = part.from + (part.upto - part.from) / 2;
    let first = LogPart {
        from: part.from,
        upto: middle,
    };
    if lead_on(alloc, task, log, sets, first)? {
        return Ok(LogPart {
            from: middle,
            upto: part.upto,
        });
    }
    Ok(first)
}

// Whether every action leads on from the entries of the part.
fn lead_on(
    alloc: Global,
    task: &Task,
    log: &Log,
    sets: &mut Explicits,
    part: LogPart,
) -> Result<bool, AllocError>
    requires atoms { log.now.atoms ≡ atoms task.now }
    requires sets { HasLog log.now sets.old }
    requires part { IsLogPart log.now part }
    ensures sets { OnOk result (HasLog log.now sets.new) }
    ensures lead { IfOk result (λ all. all ≡ true → LeadOnIn task.now log.now part) }
{
    let number = set_of_part(alloc, task, log, sets, part)?;
    all_stay(alloc, task, sets, number)
}

// The number of a set that has the expanded states of the part: of the first one where these are
// all states of the log, and else of one that is added.
fn set_of_part(
    alloc: Global,
    task: &Task,
    log: &Log,
    sets: &mut Explicits,
    part: LogPart,
) -> Result<usize, AllocError>
    requires atoms { log.now.atoms ≡ atoms task.now }
    requires sets { HasLog log.now sets.old }
    requires part { IsLogPart log.now part }
    ensures sets { OnOk result (HasLog log.now sets.new) }
    ensures number { IfOk result (λ number. number < length sets.new) }
    ensures has { IfOk result (λ number. SetHasExpanded log.now sets.new number part) }
{
    if part.upto - part.from == log.len() && are_expanded(log) {
        return Ok(0);
    }
    let states = expanded_between(alloc, log, part)?;
    let set = Explicit::from_list(alloc, task, states)?;
    let number = sets.add(set)?;
    Ok(number)
}

// The expanded states of the part.
fn expanded_between(alloc: Global, log: &Log, part: LogPart) -> Result<StateList, AllocError>
    requires { IsLogPart log.now part }
    ensures below { IfOk result (AreStates log.now.atoms) }
    ensures lists { IfOk result (ListsExpanded log.now part) }
{
    let mut states = StateList::new(alloc);
    // For its contract alone: the states are those of a log.
    let _log = log.states();
    for place in part.from..part.upto {
        put_expanded(log, place, &mut states)?;
    }
    Ok(states)
}

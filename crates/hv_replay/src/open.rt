//! The first action that leads out of a log.
//!
//! Each state is asked by itself, so the hole is the first in the stated order: this pass alone
//! decides which one it is. A state that is listed again isn't asked again: the place of an entry
//! that was followed is in a slot by its atoms, and is confirmed on these. A log that was made so
//! that different states take turns in one slot costs as much as if each were new.

ghost use Rattle.std.specs.Prelude.{◌≡◌, ◌<◌, ◌≤◌, ◌↔◌, ℕ, true, length, IfOk, IsTrue, MatchOption};
ghost use Rattle.std.specs.List.{All, Contains};
ghost use Rattle.hv_task.specs.State.{AreBelow, has_atom, state_of};
ghost use Rattle.hv_task.specs.Strips.{IsState, atoms};
ghost use Rattle.hv_rows.specs.ActionRows.{AreActionRows};
ghost use Rattle.hv_rows.specs.Rows.{IsInRow};
ghost use Rattle.hv_replay.specs.Closed.{IsFirstWithout, LeadsOn};
ghost use Rattle.hv_replay.specs.Logs.{IsAtomSet};
ghost use Rattle.hv_replay.specs.Working.Following.{HasExpanded, IsOpen, LeadAllOn, ListsLog};
ghost use Rattle.hv_replay.specs.Working.Following.{StaysFrom, StaysListed};
ghost use Rattle.hv_replay.specs.Working.Leading.{HasLog};

use crate::leading::leading;
use crate::log::Log;
use crate::origin::Origin;
use hv_explicit::{Explicit, Explicits};
use hv_rows::action_rows;
use hv_sets::StateBuffer;
use hv_task::{State, Task};
use std::alloc::{AllocError, Global};

// By what it is found which actions lead out: the states of a log as a set, and the rows in which
// actions wait.
#[derive(Clone, Copy)]
struct ExitIndex<'a> {
    listed: &'a Explicit,
    rows: &'a Vec<Vec<u32>>,
}

/// The first place of an expanded state from which an action leads to a state that isn't listed,
/// and the least such action there. The first set is that of the states of the log, and further
/// ones are added.
pub(crate) fn first_exit(
    alloc: Global,
    task: &Task,
    log: &Log,
    sets: &mut Explicits,
) -> Result<Option<(usize, u32)>, AllocError>
    requires atoms { log.now.atoms ≡ atoms task.now }
    requires sets { HasLog log.now sets.old }
    ensures { IfOk result (IsOpen task.now log.now) }
{
    let from = leading(alloc, task, log, sets)?;
    if from == log.len() {
        return Ok(None);
    }
    let rows = action_rows(alloc, task)?;
    let index = ExitIndex {
        listed: sets.get(0),
        rows: &rows,
    };
    first_open(alloc, task, log, &index, from)
}

// The same, where every action leads on from the entries before this place. A state that is listed
// again isn't asked again, unless another one that falls into the same slot was asked between.
fn first_open(
    alloc: Global,
    task: &Task,
    log: &Log,
    index: &ExitIndex<'_>,
    from: usize,
) -> Result<Option<(usize, u32)>, AllocError>
    requires atoms { log.now.atoms ≡ atoms task.now }
    requires listed { ListsLog log.now index.now.listed.now }
    requires rows { AreActionRows task.now index.now.rows.now.items }
    requires from { from ≤ length log.now.entries }
    requires before { (place action : ℕ) → place < from → LeadsOn task.now log.now place action }
    ensures { IfOk result (IsOpen task.now log.now) }
{
    let mut asked = vec![in alloc; log.len(); log.len()]?;
    let mut state = State::empty(alloc, task.atoms())?;
    let found = first_open_by(task, log, index, &mut asked, &mut state, from);
    Ok(found)
}

// The same, with the places that were asked, and a state to write to.
fn first_open_by(
    task: &Task,
    log: &Log,
    index: &ExitIndex<'_>,
    asked: &mut Vec<usize>,
    state: &mut State,
    from: usize,
) -> Option<(usize, u32)>
    requires atoms { log.now.atoms ≡ atoms task.now }
    requires listed { ListsLog log.now index.now.listed.now }
    requires rows { AreActionRows task.now index.now.rows.now.items }
    requires asked { length asked.old.items ≡ length log.now.entries }
    requires lead { LeadAllOn task.now log.now asked.old.items }
    requires state { IsState task.now state.old }
    requires from { from ≤ length log.now.entries }
    requires before { (place action : ℕ) → place < from → LeadsOn task.now log.now place action }
    ensures { IsOpen task.now log.now result }
{
    for place in from..log.len() {
        if let Some(action) = open_action(task, log, index, asked, state, place) {
            return Some((place, action));
        }
    }
    None
}

// The least action that leads from the entry at this place, where it is an expanded state, to a
// state that isn't listed. From the entries at the places in `asked` every action leads on; each
// place is in the slot of its state, and a slot without one has the number of all entries.
// `state` is one to write to.
fn open_action(
    task: &Task,
    log: &Log,
    index: &ExitIndex<'_>,
    asked: &mut Vec<usize>,
    state: &mut State,
    place: usize,
) -> Option<u32>
    requires atoms { log.now.atoms ≡ atoms task.now }
    requires listed { ListsLog log.now index.now.listed.now }
    requires rows { AreActionRows task.now index.now.rows.now.items }
    requires asked { length asked.old.items ≡ length log.now.entries }
    requires lead { LeadAllOn task.now log.now asked.old.items }
    requires state { IsState task.now state.old }
    requires place { place < length log.now.entries }
    ensures open { MatchOption result
        ((action : ℕ) → LeadsOn task.now log.now place action)
        (λ action. IsFirstWithout (LeadsOn task.now log.now place) action) }
    ensures asked { length asked.new.items ≡ length asked.old.items }
    ensures lead { LeadAllOn task.now log.now asked.new.items }
    ensures state { IsState task.now state.new }
{
    if !log.expanded(place) {
        return None;
    }
    let mut buffer = StateBuffer::new();
    let held = log.held(place).slice(&mut buffer);
    let slot = slot_of(held, asked.len());
    if has_expanded(log, asked[slot], held) {
        return None;
    }
    match least_exit(task, index.listed, index.rows, state, held) {
        Some(action) => Some(action),
        None => {
            asked[slot] = place;
            None
        }
    }
}

// The slot of the state of these atoms, of so many slots.
fn slot_of(held: &[u32], slots: usize) -> usize
    requires { 0 < slots }
    ensures { result < slots }
{
    let mut code = 0;
    for atom in held {
        code = mixed(code, *atom);
    }
    ((code >> 32) % slots as u64) as usize
}

// The code of some atoms with one more.
fn mixed(code: u64, atom: u32) -> u64 {
    (code ^ (code >> 29) ^ u64::from(atom)).wrapping_mul(0x9e37_79b9_7f4a_7c15)
}

// Whether the entry at this place is an expanded state of just these atoms.
fn has_expanded(log: &Log, place: usize, held: &[u32]) -> bool
    ensures { result ≡ true → HasExpanded log.now place held.now }
{
    if place >= log.len() || !log.expanded(place) {
        return false;
    }
    let mut buffer = StateBuffer::new();
    log.held(place).slice(&mut buffer) == held
}

// The least action that leads from the state of these atoms to one that isn't listed. Those alone
// are tried that wait under an atom which is held, or that have no precondition. `state`
// becomes the state.
fn least_exit(
    task: &Task,
    listed: &Explicit,
    rows: &Vec<Vec<u32>>,
    state: &mut State,
    held: &[u32],
) -> Option<u32>
    requires state { IsState task.now state.old }
    requires atoms { listed.now.atoms ≡ atoms task.now }
    requires rows { AreActionRows task.now rows.now.items }
    requires held { IsAtomSet (atoms task.now) held.now }
    ensures first { MatchOption result
        ((action : ℕ) → action < length task.now.actions
        → StaysListed task.now listed.now (state_of (atoms task.now) held.now) action)
        (λ action. IsFirstWithout
        (StaysListed task.now listed.now (state_of (atoms task.now) held.now)) action) }
    ensures state { IsState task.now state.new }
{
    state.hold(held);
    let count = task.actions();
    let origin = Origin {
        task,
        listed,
        state: &*state,
        held,
    };
    let mut least = least_in(&origin, rows, task.atoms(), count);
    for atom in held {
        least = least_in(&origin, rows, *atom, least);
    }
    if least == count {
        return None;
    }
    Some(least)
}

// Of the bound and the actions of a row, the least that leads to a state that isn't listed; of the
// bound that isn't asked.
fn least_in(origin: &Origin<'_>, rows: &Vec<Vec<u32>>, place: u32, bound: u32) -> u32
    requires rows { AreActionRows origin.now.task.now rows.now.items }
    requires place { place ≤ atoms origin.now.task.now }
    ensures upto { result ≤ bound }
    ensures stay { (action : ℕ) → IsInRow rows.now.items place action → action < result
        → StaysFrom origin.now action }
    ensures exit { result < bound → StaysFrom origin.now result → ⊥ }
{
    least_among(origin, rows[place as usize].as_slice(), bound)
}

// The same for the actions of this row.
fn least_among(origin: &Origin<'_>, row: &[u32], bound: u32) -> u32
    requires { AreBelow (length origin.now.task.now.actions) row.now }
    ensures upto { result ≤ bound }
    ensures stay { (action : ℕ) → Contains row.now action → action < result
        → StaysFrom origin.now action }
    ensures exit { result < bound → StaysFrom origin.now result → ⊥ }
{
    let mut least = bound;
    for action in row {
        least = lesser_exit(origin, *action, least);
    }
    least
}

// The action, where it is less than the bound and leads to a state that isn't listed, and otherwise
// the bound.
fn lesser_exit(origin: &Origin<'_>, action: u32, bound: u32) -> u32
    requires { action < length origin.now.task.now.actions }
    ensures upto { result ≤ bound }
    ensures stays { action < result → StaysFrom origin.now action }
    ensures exit { result < bound → StaysFrom origin.now result → ⊥ }
{
    if action >= bound || stays(origin, action) {
        return bound;
    }
    action
}

// Whether the action isn't applicable in the state, or its result is listed.
fn stays(origin: &Origin<'_>, number: u32) -> bool
    requires { number < length origin.now.task.now.actions }
    ensures { IsTrue result ↔ StaysFrom origin.now number }
{
    let action = origin.task.action(number);
    if !holds_each(origin.state, action.pre.as_slice()) {
        return true;
    }
    origin.listed.lists_after(origin.held, action)
}

// Whether the state holds each of these atoms.
fn holds_each(state: &State, list: &[u32]) -> bool
    requires { AreBelow (length state.now) list.now }
    ensures { IsTrue result ↔ All (λ p. has_atom state.now p ≡ true) list.now }
{
    list.iter().all(|atom| state.has(*atom))
}

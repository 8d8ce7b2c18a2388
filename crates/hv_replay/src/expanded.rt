//! The expanded states of a log.

ghost use Rattle.std.specs.Prelude.{◌≡◌, ◌<◌, ◌∷◌, ◌++◌, [], true, length, map, IfOk, OnOk};
ghost use Rattle.hv_replay.specs.Expanded.{expanded_in, expanded_states};
ghost use Rattle.hv_replay.specs.Logs.{IsLog, LogEntry, StandsInLog};

use crate::log::Log;
use hv_sets::{StateBuffer, StateList};
use std::alloc::{AllocError, Global};

/// The expanded states of a log, in its order.
pub(crate) fn expanded_states(alloc: Global, log: &Log) -> Result<StateList, AllocError>
    ensures states { IfOk result (λ states. states ≡ expanded_states log.now) }
    ensures log { IsLog log.now.atoms log.now.entries }
{
    let all = log.states();
    if are_expanded(log) {
        return all.copy(alloc);
    }
    let mut states = StateList::new(alloc);
    let count = log.len();
    for place in 0..count {
        put_expanded(log, place, &mut states)?;
    }
    Ok(states)
}

/// Puts the state of an entry last, where it is an expanded one.
pub(crate) fn put_expanded(
    log: &Log,
    place: usize,
    states: &mut StateList,
) -> Result<(), AllocError>
    requires { place < length log.now.entries }
    ensures { (entry : LogEntry) → StandsInLog log.now place entry → OnOk result
        (states.new ≡ states.old ++ expanded_in (entry ∷ [])) }
{
    if !log.expanded(place) {
        return Ok(());
    }
    let mut buffer = StateBuffer::new();
    states.push_atoms(log.held(place).slice(&mut buffer))
}

/// Whether each entry is an expanded state.
pub(crate) fn are_expanded(log: &Log) -> bool
    ensures { result ≡ true
        → expanded_states log.now ≡ map (λ (entry : LogEntry). entry.state) log.now.entries }
{
    for place in 0..log.len() {
        if !log.expanded(place) {
            return false;
        }
    }
    true
}

//! Logs of a search.
//!
//! A log keeps that its lines have at most 8,388,608 bytes together. By that the line of its
//! expanded states in the proof is never too long, and `replay` has no answer for a line that is.
//! Its states are one list, which the set of its states shares, and the proof too where no state is
//! pruned.

ghost use Rattle.std.specs.Prelude.{◌≡◌, ◌<◌, length, map, IfOk};
ghost use Rattle.std.specs.List.Sorted.{IsStrictlyIncreasing};
ghost use Rattle.hv_task.specs.Strips.{atoms};
ghost use Rattle.hv_explicit.specs.ListedStates.{AreStates};
ghost use Rattle.hv_replay.specs.Logs.{IsAtomSet, IsLog, LogEntry, StandsInLog};
ghost use Rattle.hv_replay.specs.Working.Reading.{IsReadingLog, log_of};

use crate::entries::Entries;
use hv_sets::{KeptState, StateList};
use hv_task::Task;
use std::alloc::AllocError;
use std::marker::Model;

/// The log of a search: the states that it expanded and those that it pruned, in order. The entry
/// at place i is that of line i + 1. It has at most 1,000,000 expanded and 65,000 pruned states,
/// and the lines of its text have at most 8,388,608 bytes.
#[derive(Drop)]
pub struct Log {
    // How many atoms the task has.
    atoms: u32,
    // The states, in a list of which a copy takes no memory.
    states: StateList,
    // For each state whether it is an expanded one.
    expanded: Vec<bool>,
}

impl Model for Log {
    ghost use Rattle.std.specs.Prelude.{◌≡◌, length};
    ghost use Rattle.hv_replay.specs.Logs.{IsLog, SearchLog};
    ghost use Rattle.hv_replay.specs.Working.Logs.{entries_of};

    ghost Value = { SearchLog };

    ghost view = { λ l. record {
      atoms = l.atoms;
      entries = entries_of l.expanded.items l.states;
    } };

    ghost invariant = { λ l. IsLog l.atoms (entries_of l.expanded.items l.states)
        × (length l.expanded.items ≡ length l.states) };
}

impl Log {
    /// The log of these entries, of states of the task.
    pub(crate) fn new(task: &Task, entries: Entries) -> Result<Log, AllocError>
        requires ready { IsReadingLog entries }
        requires atoms { entries.atoms ≡ atoms task.now }
        ensures { IfOk result (λ log. log ≡ log_of entries) }
    {
        let atoms = task.atoms();
        let (states, expanded) = entries.lists();
        let states = states.share()?;
        Ok(Log {
            atoms,
            states,
            expanded,
        })
    }

    /// How many entries there are: one for each line but the last.
    pub fn len(&self) -> usize
        ensures { result ≡ length self.now.entries }
    {
        self.expanded.len()
    }

    /// The states of all entries.
    pub(crate) fn states(&self) -> &StateList
        ensures states { result.now ≡ map (λ (entry : LogEntry). entry.state) self.now.entries }
        ensures below { AreStates self.now.atoms result.now }
        ensures log { IsLog self.now.atoms self.now.entries }
    {
        &self.states
    }

    /// Whether the entry at this place is an expanded state.
    pub fn expanded(&self, place: usize) -> bool
        requires { place < length self.now.entries }
        ensures { (entry : LogEntry) → StandsInLog self.now place entry → result ≡ entry.expanded }
    {
        self.expanded[place]
    }

    /// The state of the entry at this place, by the atoms that it holds, rising.
    pub fn state(&self, place: usize) -> KeptState<'_>
        requires { place < length self.now.entries }
        ensures state { (entry : LogEntry) → StandsInLog self.now place entry
            → result ≡ entry.state }
        ensures rises { IsStrictlyIncreasing result }
    {
        self.held(place)
    }

    // The same; it is a state of the task.
    pub(crate) fn held(&self, place: usize) -> KeptState<'_>
        requires { place < length self.now.entries }
        ensures stands { (entry : LogEntry) → StandsInLog self.now place entry
            → result ≡ entry.state }
        ensures legal { IsAtomSet self.now.atoms result }
    {
        self.states.get(place)
    }
}

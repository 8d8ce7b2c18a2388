//! Why a log is no proof.

ghost use Rattle.std.specs.Prelude.{◌≡◌, ◌<◌, ◌+◌, ◌↔◌, ℕ, length, IsTrue, MatchOption};
ghost use Rattle.hv_task.specs.Strips.{atoms};
ghost use Rattle.hv_replay.specs.Closed.{IsFirstWithout, IsGoalFree};
ghost use Rattle.hv_replay.specs.Working.Following.{Follows};
ghost use Rattle.hv_replay.specs.declared.hole.ReplayFault.TheVariants as H;

use crate::leading::set_of;
use crate::log::Log;
use crate::open::first_exit;
use hv_sets::StateBuffer;
use hv_task::{Task, names_all};
use std::alloc::{AllocError, Global};
use thiserror::Error;

/// Why a log doesn't become a proof: its first hole. Lines are counted from 1.
#[derive(Clone, Copy, Debug, PartialEq, Eq, Error)]
pub enum ReplayFault {
    /// The initial state is neither expanded nor pruned.
    #[error("the log lacks the initial state")]
    NoInitial,
    /// The expanded state of this line holds the goal.
    #[error("the state of line {0} holds the goal")]
    GoalExpanded(u64),
    /// This action leads from the expanded state of this line to a state that isn't in the log.
    #[error("action {1} leads from the state of line {0} to one that isn't listed")]
    Open(u64, u32),
    /// The pruned state of this line isn't covered.
    #[error("the pruned state of line {0} isn't covered")]
    Unjustified(u64),
    /// Memory ran out.
    #[error("out of memory")]
    Memory,
}

impl From<AllocError> for ReplayFault {
    ghost from_gives = { λ _ fault. fault ≡ H.Memory };

    fn from(_error: AllocError) -> ReplayFault {
        ReplayFault::Memory
    }
}

/// Follows the search of a log: whether the initial state is listed, no expanded state holds the
/// goal, and each result of an applicable action in an expanded state is listed. Otherwise it
/// answers with the first hole. Whether pruned states are covered isn't asked.
pub(crate) fn follow(alloc: Global, task: &Task, log: &Log) -> Result<(), ReplayFault>
    requires { log.now.atoms ≡ atoms task.now }
    ensures { Follows result task.now log.now }
{
    let mut sets = set_of(alloc, task, log)?;
    if !sets.get(0).lists(task.start()) {
        return Err(ReplayFault::NoInitial);
    }
    if let Some(place) = first_goal(task, log) {
        return Err(ReplayFault::GoalExpanded(line_of(log, place)));
    }
    match first_exit(alloc, task, log, &mut sets)? {
        Some(found) => Err(ReplayFault::Open(line_of(log, found.0), found.1)),
        None => Ok(()),
    }
}

// The number of the line of the entry at a place.
pub(crate) fn line_of(log: &Log, place: usize) -> u64
    requires { place < length log.now.entries }
    ensures { result ≡ place + 1 }
{
    // For its contract alone: a number of entries fits a word.
    let _within = place < log.len();
    place as u64 + 1
}

// Whether the entry at this place isn't an expanded state that holds the goal.
fn is_goal_free(task: &Task, log: &Log, place: usize) -> bool
    requires atoms { log.now.atoms ≡ atoms task.now }
    requires place { place < length log.now.entries }
    ensures { IsTrue result ↔ IsGoalFree task.now log.now place }
{
    if !log.expanded(place) {
        return true;
    }
    let mut buffer = StateBuffer::new();
    !names_all(log.held(place).slice(&mut buffer), task.goal().as_slice())
}

// The first place of an expanded state that holds the goal.
fn first_goal(task: &Task, log: &Log) -> Option<usize>
    requires { log.now.atoms ≡ atoms task.now }
    ensures { MatchOption result
        ((place : ℕ) → place < length log.now.entries → IsGoalFree task.now log.now place)
        (λ place. (place < length log.now.entries)
        × IsFirstWithout (IsGoalFree task.now log.now) place) }
{
    for place in 0..log.len() {
        if !is_goal_free(task, log, place) {
            return Some(place);
        }
    }
    None
}

//! Whether actions lead out of the states of a log, asked of its sets.
//!
//! The states become an explicit set, in which one is found by a code of its atoms, and a store of
//! such sets is asked of each action whether it leads from an expanded state to one that isn't
//! listed: the states that hold its precondition are met many at a time. Where some states are
//! pruned, the expanded ones are a second set of the store.

ghost use Rattle.std.specs.Prelude.{◌≡◌, ◌<◌, ◌∷◌, [], ℕ, true, length, IfOk, OnOk};
ghost use Rattle.hv_task.specs.Strips.{atoms};
ghost use Rattle.hv_explicit.specs.ListedStates.{AreListsOver};
ghost use Rattle.hv_replay.specs.Working.Leading.{IsLogQuery, StaysInFirst, set_asked};

use hv_explicit::Explicits;
use hv_sets::{Family, Finding, Operand, Operands, Query, Scratch, Which};
use hv_task::Task;
use std::alloc::{AllocError, Global};

/// A query of which only the action changes: whether it leads from a state of the set of this
/// number to one that isn't in the first set.
#[derive(Drop)]
pub(crate) struct LogQuery {
    number: usize,
    query: Query,
    scratch: Scratch,
}

/// Whether each action leads from the states of the set of this number to states of the first set.
pub(crate) fn all_stay(
    alloc: Global,
    task: &Task,
    sets: &Explicits,
    number: usize,
) -> Result<bool, AllocError>
    requires over { AreListsOver sets.now (atoms task.now) }
    requires number { number < length sets.now }
    ensures { IfOk result (λ all. all ≡ true → (action : ℕ) → action < length task.now.actions
        → StaysInFirst task.now sets.now number action) }
{
    let mut asking = query_of(alloc, number)?;
    all_stay_by(alloc, task, sets, &mut asking)
}

// The same, by the query for the set.
fn all_stay_by(
    alloc: Global,
    task: &Task,
    sets: &Explicits,
    asking: &mut LogQuery,
) -> Result<bool, AllocError>
    requires over { AreListsOver sets.now (atoms task.now) }
    requires query { IsLogQuery asking.old }
    requires number { asking.old.number < length sets.now }
    ensures { IfOk result (λ all. all ≡ true → (action : ℕ) → action < length task.now.actions
        → StaysInFirst task.now sets.now asking.old.number action) }
{
    for action in 0..task.actions() {
        if !stays(alloc, task, sets, asking, action)? {
            return Ok(false);
        }
    }
    Ok(true)
}

// The query for the set of this number, still without an action.
fn query_of(alloc: Global, number: usize) -> Result<LogQuery, AllocError>
    ensures query { IfOk result IsLogQuery }
    ensures number { IfOk result (λ asking. asking.number ≡ number) }
{
    let query = Query {
        positive: one_operand(alloc, number, false)?,
        negative: one_operand(alloc, 0, true)?,
        action: None,
    };
    let scratch = Scratch::new(alloc)?;
    Ok(LogQuery {
        number,
        query,
        scratch,
    })
}

fn one_operand(alloc: Global, number: usize, after: bool) -> Result<Operands, AllocError>
    ensures { IfOk result (λ operands. operands ≡ set_asked number after ∷ []) }
{
    let mut operands = Operands::new(alloc);
    operands.push(Operand {
        which: Which::Set(number),
        id: number,
        after,
    })?;
    Ok(operands)
}

// Whether the action leads from the states of the set that is asked about to states of the first
// set.
fn stays(
    alloc: Global,
    task: &Task,
    sets: &Explicits,
    asking: &mut LogQuery,
    action: u32,
) -> Result<bool, AllocError>
    requires over { AreListsOver sets.now (atoms task.now) }
    requires query { IsLogQuery asking.old }
    requires number { asking.old.number < length sets.now }
    requires action { action < length task.now.actions }
    ensures query { OnOk result (IsLogQuery asking.new) }
    ensures number { OnOk result (asking.new.number ≡ asking.old.number) }
    ensures stays { IfOk result (λ stays. stays ≡ true
        → StaysInFirst task.now sets.now asking.old.number action) }
{
    asking.query.action = Some(action);
    let found = sets.find(alloc, task, &asking.query, u64::MAX, &mut asking.scratch)?;
    Ok(found == Finding::Empty)
}

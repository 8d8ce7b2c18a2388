//! Queries after an action that is applicable in no state of a small anchor. A look at the atoms of
//! these states answers them, and no search is made.

ghost use Rattle.std.specs.Prelude.{◌≡◌, ◌≤◌, Bool, List, length, IsTrue};
ghost use Rattle.std.specs.List.{All, Contains};
ghost use Rattle.hv_task.specs.Strips.{atoms};
ghost use Rattle.hv_sets.specs.Cost.{IsAnswer, StatesPass};
ghost use Rattle.hv_sets.specs.declared.finding.Finding.TheVariants as F;
ghost use Rattle.hv_explicit.specs.ListedStates.{states_listed};
ghost use Rattle.hv_explicit.specs.Working.Search.{IsListedSearch, clashes_in};

use crate::explicits::Explicits;
use crate::near::names_each;
use crate::sets_query::anchor_of;
use hv_sets::{Query, StateBuffer, StateList, Which};
use hv_task::{Action, Task};

// So many states are looked at before the search is made.
const FEW: usize = 2;

/// Whether the anchor is a set of few states, and of no more than the budget, and the action is
/// applicable in none of them: then none is a counterexample.
pub(crate) fn is_idle(task: &Task, sets: &Explicits, query: &Query, budget: u64) -> bool
    requires { IsListedSearch record { task = task.now; sets = sets.now; query = query.now } }
    ensures { IsTrue result → (state : List Bool) → IsAnswer F.Empty
        (StatesPass (states_listed sets.now) query.now budget) (atoms task.now)
        (clashes_in record { task = task.now; sets = sets.now; query = query.now }) state }
{
    let Some(number) = query.action else {
        return false;
    };
    let Some(anchor) = anchor_of(query.positive.as_slice()) else {
        return false;
    };
    match anchor.which {
        Which::Set(set) => {
            let states = sets.get(set).states();
            applies_nowhere(states, task.action(number), budget)
        }
        _ => false,
    }
}

// Whether the states are few, and no more than the budget, and the action is applicable in none of
// them.
fn applies_nowhere(states: &StateList, action: &Action, budget: u64) -> bool
    ensures few { IsTrue result → length states.now ≤ budget }
    ensures none { IsTrue result
        → All (λ held. All (λ p. Contains held p) action.now.pre → ⊥) states.now }
{
    if states.len() > FEW || states.len() as u64 > budget {
        return false;
    }
    let mut buffer = StateBuffer::new();
    for place in 0..states.len() {
        let held = states.get(place).slice(&mut buffer);
        if names_each(held, action.pre.as_slice()) {
            return false;
        }
    }
    true
}

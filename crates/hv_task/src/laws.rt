//! Laws of states and of dead states, as contracts of functions that do nothing.

ghost use Rattle.std.specs.Prelude.{◌≡◌, ◌<◌, ◌&&◌, ◌||◌, ℕ, Bool, List, length, not};
ghost use Rattle.hv_task.specs.declared.action.Action.{Action};
ghost use Rattle.hv_task.specs.State.{has_atom, names_atom, state_of, successor};
ghost use Rattle.hv_task.specs.Strips.{start_state};
ghost use Rattle.hv_task.specs.Plan.{Dead, IsUnsolvable};
ghost use Rattle.hv_task.specs.Deadness.{Progression, Regression};
ghost use Rattle.hv_task.specs.Deadness.{ProgressionFromStart, RegressionToStart, HasDeadGoals};

use crate::task::Task;

/// Does nothing: its contract states what states are as sets of atoms.
pub fn laws_of_states()
    // An atom is in the successor if the action adds it, or if it was there and isn't deleted.
    ensures successor { (action : Action) (state : List Bool) (p : ℕ) → p < length state
        → has_atom (successor action state) p
        ≡ (names_atom action.add p || (not (names_atom action.del p) && has_atom state p)) }
    ensures successor_length { (action : Action) (state : List Bool)
        → length (successor action state) ≡ length state }

    ensures state_of { (n : ℕ) (held : List ℕ) (p : ℕ) → p < n
        → has_atom (state_of n held) p ≡ names_atom held p }
    ensures state_of_length { (n : ℕ) (held : List ℕ) → length (state_of n held) ≡ n }
{}

/// Does nothing: its contract states the laws of dead states, by which a proof concludes that a
/// task has no plan (Eriksson, Röger and Helmert, 2018).
pub fn laws_of_dead_states(task: &Task)
    ensures progression { Progression task.now }
    ensures regression { Regression task.now }
    ensures progression_from_start { ProgressionFromStart task.now }
    ensures regression_to_start { RegressionToStart task.now }

    // There is no plan if the initial state is dead, and none if every goal state is dead.
    ensures dead_start { Dead task.now (start_state task.now) → IsUnsolvable task.now }
    ensures dead_goals { HasDeadGoals task.now → IsUnsolvable task.now }
{
    let _ = task;
}

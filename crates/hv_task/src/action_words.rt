//! Actions as rows of words, 64 atoms a word.
//!
//! A step of an action that names thousands of atoms takes time with the length of its lists. By
//! rows it takes time with the words of a state, so rows pay where an action names many atoms and
//! is taken more than once.

ghost use Rattle.std.specs.Prelude.{◌≡◌, length, IfOk};
ghost use Rattle.hv_task.specs.ActionWords.{AreRowsOf, HaveAtoms};
ghost use Rattle.hv_task.specs.State.{AreBelow, applicable, state_of, successor};
ghost use Rattle.hv_task.specs.Strips.{IsOver};
ghost use Rattle.hv_task.specs.declared.action.Action.{Action};

use crate::action::Action;
use crate::atom_list::AtomList;
use crate::state::State;
use std::alloc::{AllocError, Global};

/// The precondition, the add set and the delete set of an action, each as a state that holds its
/// atoms alone.
#[derive(Drop)]
pub struct ActionWords {
    pre: State,
    add: State,
    del: State,
}

impl ActionWords {
    /// Those of the action, in a task with so many atoms.
    pub fn of(alloc: Global, atoms: u32, action: &Action) -> Result<ActionWords, AllocError>
        requires { IsOver atoms action.now }
        ensures rows { IfOk result (λ rows. AreRowsOf atoms action.now rows) }
        ensures atoms { IfOk result (λ rows. HaveAtoms atoms rows) }
    {
        Ok(ActionWords {
            pre: row_of(alloc, atoms, &action.pre)?,
            add: row_of(alloc, atoms, &action.add)?,
            del: row_of(alloc, atoms, &action.del)?,
        })
    }

    /// Whether the whole precondition holds in the state.
    pub fn applicable(&self, state: &State) -> bool
        requires { HaveAtoms (length state.now) self.now }
        ensures { (action : Action) → IsOver (length state.now) action
            → AreRowsOf (length state.now) action self.now → result ≡ applicable action state.now }
    {
        self.pre.is_within(state)
    }

    /// Makes the state its successor, whether or not the action is applicable there.
    pub fn apply(&self, state: &mut State)
        requires { HaveAtoms (length state.old) self.now }
        ensures successor { (action : Action) → AreRowsOf (length state.old) action self.now
            → state.new ≡ successor action state.old }
        ensures atoms { length state.new ≡ length state.old }
    {
        state.turn(&self.del, &self.add);
    }
}

// The state that holds these atoms and no other.
fn row_of(alloc: Global, atoms: u32, held: &AtomList) -> Result<State, AllocError>
    requires { AreBelow atoms held.now }
    ensures row { IfOk result (λ row. row ≡ state_of atoms held.now) }
    ensures atoms { IfOk result (λ row. length row ≡ atoms) }
{
    let mut row = State::empty(alloc, atoms)?;
    row.hold(held.as_slice());
    Ok(row)
}

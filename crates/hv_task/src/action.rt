//! Actions, and what one makes of a state.
//!
//! Short lists lie in the values that have them: up to four atoms of a list, and up to 16 bytes of
//! a name, take no allocation. So most actions take 136 bytes in all, where a block for each list
//! and name made it some 230. A list takes 32 bytes with space for four atoms as with space for
//! one. One list of the atoms of all actions would take less, but then no action could be lent as a
//! value with its own lists, and all that reads actions would have other contracts.

ghost use Rattle.std.specs.Prelude.{◌≡◌, length};

use crate::atom_list::AtomList;
use crate::name::Name;
use crate::state::State;

/// An action of a planning task: it is applicable where its whole precondition holds, and its
/// result is the state without the delete set, and then with the add set.
#[derive(Drop)]
pub struct Action {
    /// For people: no answer of the checker depends on it.
    pub name: Name,
    /// From 0 to 4,294,967,295. No answer of the checker depends on it.
    pub cost: u32,
    /// The precondition: the atoms that a state must hold.
    pub pre: AtomList,
    /// The atoms that are true afterwards.
    pub add: AtomList,
    /// The atoms that are false afterwards, but for those that are added.
    pub del: AtomList,
}

impl Action {
    ghost use Rattle.hv_task.specs.State.{successor};
    ghost use Rattle.hv_task.specs.Strips.{IsOver};

    /// Makes the state its successor, whether or not the action is applicable there.
    pub fn apply(&self, state: &mut State)
        requires { IsOver (length state.old) self.now }
        ensures successor { state.new ≡ successor self.now state.old }
        ensures atoms { length state.new ≡ length state.old }
    {
        state.put_all(self.del.as_slice(), false);
        state.put_all(self.add.as_slice(), true);
    }
}

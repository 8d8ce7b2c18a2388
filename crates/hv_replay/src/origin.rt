//! The states from which it is asked where actions lead.

ghost use Rattle.std.specs.Prelude.{◌≡◌};
ghost use Rattle.hv_task.specs.State.{state_of};
ghost use Rattle.hv_task.specs.Strips.{atoms};
ghost use Rattle.hv_replay.specs.Logs.{IsAtomSet};

use hv_explicit::Explicit;
use hv_task::{State, Task};

/// A state from which it is asked where actions lead: its task, the states that are listed, the
/// state itself, and its atoms.
#[derive(Clone, Copy)]
pub(crate) struct Origin<'a> {
    pub(crate) task: &'a Task,
    pub(crate) listed: &'a Explicit,
    pub(crate) state: &'a State,
    pub(crate) held: &'a [u32],
    ghost over: { listed.now.atoms ≡ atoms task.now },
    ghost is: { state.now ≡ state_of (atoms task.now) held.now },
    ghost set: { IsAtomSet (atoms task.now) held.now },
}

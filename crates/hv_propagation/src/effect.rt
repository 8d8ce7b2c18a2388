//! What an action does to a state.
//!
//! The effect is the action's own two rising lists, each looked up by a binary search: clauses that
//! are asked about after an action are read through it, none is copied, and no row is written.
//! Actions touch few atoms, so this is as fast as a row of marks, and needs no memory.

ghost use Rattle.std.specs.Prelude.{◌≡◌, ◌<◌, ◌↔◌, [], ℕ, IsTrue, IfSome, None, Some, length, true};
ghost use Rattle.std.specs.List.{Contains};
ghost use Rattle.std.specs.List.Sorted.{IsStrictlyIncreasing};
ghost use Rattle.hv_task.specs.Working.AtomList.{IsPlaceOf};
ghost use Rattle.hv_task.specs.Strips.{IsTask, atoms};
ghost use Rattle.hv_sets.specs.Query.{action_of};
ghost use Rattle.hv_propagation.specs.Effect.{late, IsEffect};
ghost use Rattle.hv_propagation.specs.Marks.{known};

use hv_task::Task;
use std::marker::Model;

/// The effect of an action: the atoms that it adds, and those that it deletes unless it adds them,
/// rising.
#[derive(Drop)]
pub struct ActionEffect<'a> {
    atoms: usize,
    add: &'a [u32],
    del: &'a [u32],
}

impl<'a> Model for ActionEffect<'a> {
    ghost use Rattle.std.specs.Prelude.{ℕ, List};
    ghost use Rattle.std.specs.List.Sorted.{IsStrictlyIncreasing};
    ghost use Rattle.hv_task.specs.State.{AreBelow};
    ghost use Rattle.hv_propagation.specs.Working.Effect.{effect_of};

    ghost Value = { List ℕ };

    ghost view = { λ s. effect_of s.atoms s.add.now s.del.now };

    ghost invariant = { λ s. IsStrictlyIncreasing s.add.now × IsStrictlyIncreasing s.del.now ×
        AreBelow s.atoms s.add.now × AreBelow s.atoms s.del.now };
}

impl<'a> ActionEffect<'a> {
    /// No effect.
    #[inline(always)]
    pub fn none() -> ActionEffect<'a>
        ensures { result ≡ [] }
    {
        ActionEffect {
            atoms: 0,
            add: &[],
            del: &[],
        }
    }

    /// The effect of an action of the task, or of none.
    pub fn of(task: &'a Task, action: Option<u32>) -> ActionEffect<'a>
        requires action { IfSome action (λ a. a < length task.now.actions) }
        ensures effect { IsEffect (action_of task.now action) result }
        ensures size { length result ≡ atoms task.now }
        ensures task { IsTask task.now }
    {
        let atoms = task.atoms() as usize;
        match action {
            None => ActionEffect {
                atoms,
                add: &[],
                del: &[],
            },
            Some(number) => {
                let action = task.action(number);
                ActionEffect {
                    atoms,
                    add: action.add.as_slice(),
                    del: action.del.as_slice(),
                }
            }
        }
    }

    /// The same effect, or none.
    #[inline(always)]
    pub fn late(&self, after: bool) -> ActionEffect<'a>
        ensures { result ≡ late self.now after }
    {
        if after {
            ActionEffect {
                atoms: self.atoms,
                add: self.add,
                del: self.del,
            }
        } else {
            ActionEffect::none()
        }
    }

    // Whether it says nothing of any atom.
    #[inline(always)]
    pub(crate) fn says_nothing(&self) -> bool
        ensures { result ≡ true → (p : ℕ) → known self.now p ≡ None }
    {
        self.add.is_empty() && self.del.is_empty()
    }

    /// What an atom is made, if that is known.
    #[inline(always)]
    pub fn read(&self, atom: u32) -> Option<bool>
        ensures { result ≡ known self.now atom }
    {
        if is_among(self.add, atom) {
            return Some(true);
        }
        if is_among(self.del, atom) {
            return Some(false);
        }
        None
    }

    /// Atoms among which are all that are put in (true) or out (false).
    #[inline(always)]
    pub fn turned(&self, value: bool) -> &[u32]
        ensures { (p : ℕ) → known self.now p ≡ Some value → Contains result.now p }
    {
        if value { self.add } else { self.del }
    }
}

#[inline(always)]
fn is_among(atoms: &[u32], atom: u32) -> bool
    requires { IsStrictlyIncreasing atoms.now }
    ensures { IsTrue result ↔ Contains atoms.now atom }
{
    place_of(atoms, atom).is_ok()
}

#[inline(always)]
fn place_of(atoms: &[u32], atom: u32) -> Result<usize, usize>
    requires { IsStrictlyIncreasing atoms.now }
    ensures { IsPlaceOf atoms.now atom result }
{
    atoms.binary_search(&atom)
}

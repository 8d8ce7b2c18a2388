//! The result of an action, read without being built.

ghost use Rattle.std.specs.List.Sorted.{IsStrictlyIncreasing};
ghost use Rattle.hv_task.specs.Atoms.{IsNext, is_kept, is_after};
ghost use Rattle.hv_task.specs.Working.Atoms.{IsNextOfBoth};

use crate::action::Action;
use crate::atom_list::{AtomList, next_in, place_from};
use crate::atoms::{Atoms, Hint};

/// What an action makes of the state of these atoms, read without being built.
#[derive(Clone, Copy)]
pub struct After<'a> {
    /// The atoms that hold before the action.
    pub held: &'a [u32],
    /// The action.
    pub action: &'a Action,
    // The atoms rise.
    pub ghost rises: { IsStrictlyIncreasing held.now },
}

impl Atoms for After<'_> {
    ghost has = { λ s. is_after s.action.now s.held.now };

    fn next(&self, from: u32, hint: &mut Hint) -> Option<u32> {
        let added = next_in(self.action.add.as_slice(), from, &mut hint.first);
        let kept = next_kept(self.held, &self.action.del, from, &mut hint.second);
        lesser(added, kept)
    }
}

// The next atom of two sets together, by the next atom of each.
fn lesser(one: Option<u32>, other: Option<u32>) -> Option<u32>
    ensures { IsNextOfBoth one other result }
{
    match (one, other) {
        (Some(a), Some(b)) => Some(a.min(b)),
        (Some(a), None) => Some(a),
        (None, other) => other,
    }
}

// The least atom of the list from this number on that isn't among the others.
fn next_kept(list: &[u32], others: &AtomList, from: u32, hint: &mut usize) -> Option<u32>
    requires { IsStrictlyIncreasing list.now }
    ensures { IsNext (is_kept others.now list.now) from result }
{
    for place in place_from(list, from, *hint)..list.len() {
        let atom = list[place];
        if !others.has(atom) {
            *hint = place;
            return Some(atom);
        }
    }
    None
}

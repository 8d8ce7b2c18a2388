//! Atoms that are looked for one after another in a list that rises. In a short list the search for
//! each begins where the last one ended and goes four atoms at a time, so that the atoms of an
//! effect cost about one walk over a state of some dozens; in a longer one each is looked for by
//! halves.

ghost use Rattle.std.specs.Prelude.{◌≡◌, ◌<◌, ◌≤◌, ◌↔◌, ℕ, IsTrue, length, slice_index};
ghost use Rattle.std.specs.List.{All, Contains};
ghost use Rattle.std.specs.List.Sorted.{IsStrictlyIncreasing};
ghost use Rattle.hv_task.specs.State.{names_atom};
ghost use Rattle.hv_explicit.specs.Working.Results.{Splits};

use crate::results::{is_before, named, stands};

// A list of so many atoms is short.
const SHORT: usize = 64;

/// Whether the atom is in a list that rises. The search may begin at the near place, which becomes
/// where it ended. Any place will do.
pub(crate) fn named_near(list: &[u32], atom: u32, near: &mut usize) -> bool
    requires { IsStrictlyIncreasing list.now }
    ensures { result ≡ names_atom list.now atom }
{
    if list.len() > SHORT {
        return named(list, atom);
    }
    let start = start_at(list, atom, *near);
    let place = place_from(list, atom, start);
    *near = place;
    stands(list, place, atom)
}

/// Whether all of these atoms are in a list that rises; it is quick where they rise too.
pub(crate) fn names_each(list: &[u32], atoms: &[u32]) -> bool
    requires { IsStrictlyIncreasing list.now }
    ensures { IsTrue result ↔ All (λ p. Contains list.now p) atoms.now }
{
    let mut near = 0;
    for atom in atoms {
        if !named_near(list, *atom, &mut near) {
            return false;
        }
    }
    true
}

// The near place, if all atoms before it are less, and else the first.
fn start_at(list: &[u32], atom: u32, near: usize) -> usize
    requires { IsStrictlyIncreasing list.now }
    ensures within { result ≤ length list.now }
    ensures less { (k : ℕ) → k < result → slice_index list.now k < atom }
{
    if near == 0 {
        return 0;
    }
    if near > list.len() {
        return 0;
    }
    if list[near - 1] >= atom {
        return 0;
    }
    near
}

// The place of the first atom that isn't less, where all before the start are.
fn place_from(list: &[u32], atom: u32, start: usize) -> usize
    requires rises { IsStrictlyIncreasing list.now }
    requires within { start ≤ length list.now }
    requires less { (k : ℕ) → k < start → slice_index list.now k < atom }
    ensures { Splits list.now result atom }
{
    let mut place = start;
    while list.len() - place >= 4 && list[place + 3] < atom {
        place += 4;
    }
    while is_before(list, place, atom) {
        place += 1;
    }
    place
}

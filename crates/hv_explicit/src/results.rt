//! Lists of atoms compared: with each other, with other sets, and with the results of actions.

ghost use Rattle.std.specs.Prelude.{◌≡◌, ◌<◌, ◌≤◌, ◌-◌, ◌^◌, ◌⊎◌, ◌↔◌, ◌+◌, ℕ, IsTrue, true, false};
ghost use Rattle.std.specs.Prelude.{length, MatchOption, slice_index};
ghost use Rattle.std.specs.List.{All, Contains};
ghost use Rattle.std.specs.List.Sorted.{IsStrictlyIncreasing};
ghost use Rattle.hv_task.specs.State.{AreBelow, names_atom};
ghost use Rattle.hv_task.specs.Atoms.{is_after};
ghost use Rattle.hv_explicit.specs.Working.Codes.{IsSame};
ghost use Rattle.hv_explicit.specs.Working.Results.{IsNextTouched, IsStand, IsTouchedEnd, Splits};
ghost use Rattle.hv_explicit.specs.Working.Results.{made};

use hv_task::{Action, Atoms, Hint, names_all, names_atom};

/// Whether the atom is in a list that rises.
pub(crate) fn named(list: &[u32], atom: u32) -> bool
    requires { IsStrictlyIncreasing list.now }
    ensures { result ≡ names_atom list.now atom }
{
    names_atom(list, atom)
}

/// Whether the set has just the atoms of a list that rises.
pub(crate) fn is_same<A: Atoms>(list: &[u32], held: &A) -> bool
    requires below { AreBelow (2 ^ 32 - 1) list.now }
    requires rises { IsStrictlyIncreasing list.now }
    ensures { IsTrue result ↔ IsSame (A.has held.now) list.now }
{
    let mut hint = Hint::default();
    let mut from = 0;
    for atom in list {
        if held.next(from, &mut hint) != Some(*atom) {
            return false;
        }
        from = *atom + 1;
    }
    held.next(from, &mut hint).is_none()
}

/// Whether the list is the result of the action in the state of these atoms; both rise. Where the
/// effect touches no atom the two have to be the same, and so they are compared in runs from one
/// touched atom to the next.
pub(crate) fn is_result(list: &[u32], held: &[u32], action: &Action) -> bool
    requires list { IsStrictlyIncreasing list.now }
    requires held { IsStrictlyIncreasing held.now }
    ensures { IsTrue result ↔ IsSame (is_after action.now held.now) list.now }
{
    let add = action.add.as_slice();
    let del = action.del.as_slice();
    is_made(list, held, add, del)
}

/// Whether the action leaves the state of these atoms, which rise, as it is.
pub(crate) fn is_left(held: &[u32], action: &Action) -> bool
    requires { IsStrictlyIncreasing held.now }
    ensures { IsTrue result → IsSame (is_after action.now held.now) held.now }
{
    if !names_all(held, action.add.as_slice()) {
        return false;
    }
    has_no_other(held, action.del.as_slice(), action.add.as_slice())
}

/// Whether the list has none of these atoms but the others; the list and the others rise.
pub(crate) fn has_no_other(list: &[u32], atoms: &[u32], others: &[u32]) -> bool
    requires list { IsStrictlyIncreasing list.now }
    requires others { IsStrictlyIncreasing others.now }
    ensures { IsTrue result
        ↔ All (λ a. Contains list.now a → Contains others.now a) atoms.now }
{
    for atom in atoms {
        if !is_let(list, others, *atom) {
            return false;
        }
    }
    true
}

// Whether the atom isn't in the list, or is in the others too; both rise.
fn is_let(list: &[u32], others: &[u32], atom: u32) -> bool
    requires list { IsStrictlyIncreasing list.now }
    requires others { IsStrictlyIncreasing others.now }
    ensures { IsTrue result ↔ (Contains list.now atom → Contains others.now atom) }
{
    if !names_atom(list, atom) {
        return true;
    }
    names_atom(others, atom)
}

// How many atoms of each list a walk over all of them has passed.
#[derive(Clone, Copy)]
struct Stand {
    listed: usize,
    held: usize,
    added: usize,
    deleted: usize,
}

// Whether the list is what the effect makes of the state of the held atoms; all four rise.
fn is_made(list: &[u32], held: &[u32], add: &[u32], del: &[u32]) -> bool
    requires list { IsStrictlyIncreasing list.now }
    requires held { IsStrictlyIncreasing held.now }
    requires add { IsStrictlyIncreasing add.now }
    requires del { IsStrictlyIncreasing del.now }
    ensures { IsTrue result ↔ IsSame (made add.now del.now held.now) list.now }
{
    let mut stand = Stand {
        listed: 0,
        held: 0,
        added: 0,
        deleted: 0,
    };
    while let Some(atom) = next_touched(add, del, stand) {
        let Some(next) = past(list, held, add, del, stand, atom) else {
            return false;
        };
        stand = next;
    }
    is_rest_made(list, held, add, del, stand)
}

// The next atom that the effect touches.
fn next_touched(add: &[u32], del: &[u32], stand: Stand) -> Option<u32>
    ensures { MatchOption result (IsTouchedEnd add.now del.now stand)
        (IsNextTouched add.now del.now stand) }
{
    if stand.added >= add.len() {
        if stand.deleted >= del.len() {
            return None;
        }
        return Some(del[stand.deleted]);
    }
    if stand.deleted >= del.len() || add[stand.added] <= del[stand.deleted] {
        return Some(add[stand.added]);
    }
    Some(del[stand.deleted])
}

// Where the walk stands behind the next atom that the effect touches, if up to it the list is what
// the effect makes of the state.
fn past(
    list: &[u32],
    held: &[u32],
    add: &[u32],
    del: &[u32],
    stand: Stand,
    atom: u32,
) -> Option<Stand>
    requires list { IsStrictlyIncreasing list.now }
    requires held { IsStrictlyIncreasing held.now }
    requires add { IsStrictlyIncreasing add.now }
    requires del { IsStrictlyIncreasing del.now }
    requires stand { IsStand list.now held.now add.now del.now stand }
    requires next { IsNextTouched add.now del.now stand atom }
    ensures { MatchOption result (IsSame (made add.now del.now held.now) list.now → ⊥)
        (λ next. IsStand list.now held.now add.now del.now next
        × (stand.added + stand.deleted < next.added + next.deleted)) }
{
    let many = alike(list, stand.listed, held, stand.held, atom as u64);
    let listed = stand.listed + many;
    let kept = stand.held + many;
    if is_before(list, listed, atom) {
        return None;
    }
    if is_before(held, kept, atom) {
        return None;
    }
    if !are_same(stands(list, listed, atom), stands(add, stand.added, atom)) {
        return None;
    }
    Some(Stand {
        listed: behind(list, listed, atom),
        held: behind(held, kept, atom),
        added: behind(add, stand.added, atom),
        deleted: behind(del, stand.deleted, atom),
    })
}

// Whether the list is what the effect makes of the state, where the walk has passed all atoms that
// the effect touches.
fn is_rest_made(list: &[u32], held: &[u32], add: &[u32], del: &[u32], stand: Stand) -> bool
    requires list { IsStrictlyIncreasing list.now }
    requires held { IsStrictlyIncreasing held.now }
    requires add { IsStrictlyIncreasing add.now }
    requires del { IsStrictlyIncreasing del.now }
    requires stand { IsStand list.now held.now add.now del.now stand }
    requires end { IsTouchedEnd add.now del.now stand }
    ensures { IsTrue result ↔ IsSame (made add.now del.now held.now) list.now }
{
    let _ = add;
    let _ = del;
    let many = alike(list, stand.listed, held, stand.held, 0x1_0000_0000);
    if stand.listed + many < list.len() {
        return false;
    }
    if stand.held + many < held.len() {
        return false;
    }
    true
}

// How many atoms less than the bound are the same in both lists, one after another, from these
// places on. They are compared four at a time.
fn alike(list: &[u32], place: usize, held: &[u32], at: usize, bound: u64) -> usize
    requires rises { IsStrictlyIncreasing list.now }
    requires list { place ≤ length list.now }
    requires held { at ≤ length held.now }
    ensures list { place + result ≤ length list.now }
    ensures held { at + result ≤ length held.now }
    ensures same { (k : ℕ) → k < result
        → slice_index list.now (place + k) ≡ slice_index held.now (at + k) }
    ensures less { (k : ℕ) → k < result → slice_index list.now (place + k) < bound }
    ensures stop { place + result < length list.now → at + result < length held.now
        → slice_index list.now (place + result) ≡ slice_index held.now (at + result)
        → bound ≤ slice_index list.now (place + result) }
{
    let most = (list.len() - place).min(held.len() - at);
    let mut many = 0;
    while most - many >= 4 && are_four_alike(list, place + many, held, at + many, bound) {
        many += 4;
    }
    while many < most && is_alike(list, place + many, held, at + many, bound) {
        many += 1;
    }
    many
}

// Whether the atoms at these places are the same, and less than the bound.
fn is_alike(list: &[u32], place: usize, held: &[u32], at: usize, bound: u64) -> bool
    requires list { place < length list.now }
    requires held { at < length held.now }
    ensures { IsTrue result ↔ ((slice_index list.now place ≡ slice_index held.now at)
        × (slice_index list.now place < bound)) }
{
    if list[place] != held[at] {
        return false;
    }
    (list[place] as u64) < bound
}

// Whether the four atoms from these places on are the same, and less than the bound.
fn are_four_alike(list: &[u32], place: usize, held: &[u32], at: usize, bound: u64) -> bool
    requires rises { IsStrictlyIncreasing list.now }
    requires list { place + 4 ≤ length list.now }
    requires held { at + 4 ≤ length held.now }
    ensures same { IsTrue result → (k : ℕ) → k < 4
        → slice_index list.now (place + k) ≡ slice_index held.now (at + k) }
    ensures less { IsTrue result → (k : ℕ) → k < 4 → slice_index list.now (place + k) < bound }
{
    if (list[place + 3] as u64) >= bound {
        return false;
    }
    list[place] == held[at]
        && list[place + 1] == held[at + 1]
        && list[place + 2] == held[at + 2]
        && list[place + 3] == held[at + 3]
}

/// Whether the list has a lesser atom at this place.
pub(crate) fn is_before(list: &[u32], place: usize, atom: u32) -> bool
    ensures before { IsTrue result → (place < length list.now)
        × (slice_index list.now place < atom) }
    ensures over { result ≡ false → place < length list.now → atom ≤ slice_index list.now place }
{
    place < list.len() && list[place] < atom
}

/// Whether the list has the atom, which can only be at this place.
pub(crate) fn stands(list: &[u32], place: usize, atom: u32) -> bool
    requires rises { IsStrictlyIncreasing list.now }
    requires split { Splits list.now place atom }
    ensures { result ≡ names_atom list.now atom }
{
    if place >= list.len() {
        return false;
    }
    if list[place] != atom {
        return false;
    }
    true
}

fn are_same(one: bool, other: bool) -> bool
    ensures { IsTrue result ↔ (one ≡ other) }
{
    if one {
        return other;
    }
    !other
}

// The next place, where the list has the atom at this one, and else this place.
fn behind(list: &[u32], place: usize, atom: u32) -> usize
    requires rises { IsStrictlyIncreasing list.now }
    requires split { Splits list.now place atom }
    ensures split { Splits list.now result (atom + 1) }
    ensures upto { place ≤ result }
    ensures more { place < length list.now → slice_index list.now place ≡ atom → place < result }
{
    if place >= list.len() {
        return place;
    }
    if list[place] != atom {
        return place;
    }
    place + 1
}

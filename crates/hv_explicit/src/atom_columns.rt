//! Atoms that many of the listed states hold.

ghost use Rattle.std.specs.Prelude.{◌≡◌, ◌<◌, ◌≤◌, ◌⊎◌, ℕ, length, slice_index_or, true};
ghost use Rattle.std.specs.Prelude.{IfOk, IfSome, IsTrue, MatchOption, OnOk};
ghost use Rattle.std.specs.List.{Contains};
ghost use Rattle.std.specs.List.Sorted.{IsStrictlyIncreasing};
ghost use Rattle.hv_task.specs.State.{has_atom};
ghost use Rattle.hv_explicit.specs.Working.Columns.{HasFlag};

use hv_task::State;
use std::alloc::{AllocError, Global};

/// For each atom that many states hold, a flag for each state: whether it holds the atom. The flags
/// are kept as those of a state are, with the places of the states for its atoms.
#[derive(Drop)]
pub(crate) struct Columns {
    /// The atoms, rising.
    pub keys: Vec<u32>,
    /// The flags of each.
    pub flags: Vec<State>,
}

impl Columns {
    /// No atom.
    pub(crate) fn new(alloc: Global) -> Columns {
        Columns {
            keys: Vec::new(alloc),
            flags: Vec::new(alloc),
        }
    }

    /// Puts an atom last that none of so many states holds, and says how many were there.
    pub(crate) fn push(&mut self, atom: u32, states: usize) -> Result<usize, AllocError> {
        let number = self.keys.len();
        let alloc = *self.keys.allocator();
        let flags = State::empty(alloc, states.min(u32::MAX as usize) as u32)?;
        self.flags.push(flags)?;
        self.keys.push(atom)?;
        Ok(number)
    }
}

/// Whether flags take at most twice as much memory as the places of the states that hold an atom.
pub(crate) fn is_common(many: u32, states: usize) -> bool {
    many as usize > states / 64 + 8
}

/// Says in the column of this number that the state at the place holds the atom.
pub(crate) fn put_flag(columns: &mut Columns, number: usize, place: u32) {
    if number < columns.flags.len() {
        let flags = &mut columns.flags[number];
        if place < flags.atoms() {
            flags.set(place, true);
        }
    }
}

/// Whether the column of this number says that the state at the place holds the atom.
pub(crate) fn is_flagged(columns: &Columns, number: usize, atom: u32, place: u32) -> bool
    ensures { IsTrue result
        → HasFlag columns.now.keys.items columns.now.flags.items atom place }
{
    if number >= columns.keys.len() || number >= columns.flags.len() {
        return false;
    }
    if columns.keys[number] != atom {
        return false;
    }
    holds(&columns.flags[number], place)
}

// Whether the flag of the place is set.
fn holds(flags: &State, place: u32) -> bool
    ensures { result ≡ has_atom flags.now place }
{
    place < flags.atoms() && flags.has(place)
}

/// The flags of the atom, if many states hold it.
pub(crate) fn column_of(columns: &Columns, atom: u32) -> Option<&State>
    requires rise { IsStrictlyIncreasing columns.now.keys.items }
    requires many { length columns.now.keys.items ≡ length columns.now.flags.items }
    ensures { MatchOption result (Contains columns.now.keys.items atom → ⊥)
        (λ flags. Contains columns.now.keys.items atom × ((place : ℕ)
        → HasFlag columns.now.keys.items columns.now.flags.items atom place
        → has_atom flags.now place ≡ true)) }
{
    match columns.keys.binary_search(&atom) {
        Ok(number) => Some(&columns.flags[number]),
        Err(_) => None,
    }
}

/// Those of the places whose flags are set.
pub(crate) fn among(alloc: Global, places: &[u32], flags: &State) -> Result<Vec<u32>, AllocError>
    ensures only { IfOk result (λ less. (place : ℕ) → Contains less.items place
        → Contains places.now place) }
    ensures all { IfOk result (λ less. (place : ℕ) → Contains places.now place
        → has_atom flags.now place ≡ true → Contains less.items place) }
{
    let mut less = Vec::new(alloc);
    for place in places {
        put_if(&mut less, flags, *place)?;
    }
    Ok(less)
}

fn put_if(less: &mut Vec<u32>, flags: &State, place: u32) -> Result<(), AllocError>
    ensures only { OnOk result ((p : ℕ) → Contains less.new.items p
        → Contains less.old.items p ⊎ (p ≡ place)) }
    ensures kept { OnOk result ((p : ℕ) → Contains less.old.items p → Contains less.new.items p) }
    ensures put { OnOk result (has_atom flags.now place ≡ true → Contains less.new.items place) }
{
    if holds(flags, place) {
        less.push(place)?;
    }
    Ok(())
}

/// The flags of the places that are under all of these atoms, and maybe others; none where no
/// atom is given, or few states hold the first one.
pub(crate) fn meeting_all(
    alloc: Global,
    columns: &Columns,
    atoms: &[u32],
) -> Result<Option<State>, AllocError>
    requires rise { IsStrictlyIncreasing columns.now.keys.items }
    requires many { length columns.now.keys.items ≡ length columns.now.flags.items }
    ensures { IfOk result (λ o. IfSome o (λ met. (place : ℕ)
        → ((atom : ℕ) → Contains atoms.now atom → Contains columns.now.keys.items atom
        → HasFlag columns.now.keys.items columns.now.flags.items atom place)
        → has_atom met place ≡ true)) }
{
    if atoms.is_empty() {
        return Ok(None);
    }
    let Some(flags) = column_of(columns, atoms[0]) else {
        return Ok(None);
    };
    let mut met = State::empty(alloc, flags.atoms())?;
    met.copy_from(flags);
    for place in 1..atoms.len() {
        meet_with(&mut met, columns, atoms[place]);
    }
    Ok(Some(met))
}

// Keeps of the flags those that are set under the atom, if many states hold it.
fn meet_with(met: &mut State, columns: &Columns, atom: u32)
    requires rise { IsStrictlyIncreasing columns.now.keys.items }
    requires many { length columns.now.keys.items ≡ length columns.now.flags.items }
    ensures { (place : ℕ) → has_atom met.old place ≡ true
        → (Contains columns.now.keys.items atom
        → HasFlag columns.now.keys.items columns.now.flags.items atom place)
        → has_atom met.new place ≡ true }
{
    if let Some(flags) = column_of(columns, atom) {
        if flags.atoms() == met.atoms() {
            met.meet(flags);
        }
    }
}

//! Sets of atoms as rising lists.

ghost use Rattle.std.specs.Prelude.{◌≡◌, ◌<◌, ◌≤◌, ◌-◌, ◌↔◌, [], length, IsTrue, IfOk, OnOk, OnErr};
ghost use Rattle.std.specs.Prelude.{slice_get, slice_index};
ghost use Rattle.std.specs.List.{All, Contains};
ghost use Rattle.std.specs.List.Sorted.{IsStrictlyIncreasing};
ghost use Rattle.hv_task.specs.AtomList.{Inserts};
ghost use Rattle.hv_task.specs.Working.AtomList.{IsFirstFrom, IsPlaceOf};
ghost use Rattle.hv_task.specs.Atoms.{IsNext};
ghost use Rattle.hv_task.specs.State.{names_atom};

use crate::atoms::{Atoms, Hint};
use smallvec::SmallVec;
use std::alloc::{AllocError, Global};
use std::marker::Model;

/// A set of atoms, as a list that rises. Up to four atoms take no allocation.
#[derive(Drop)]
pub struct AtomList {
    atoms: SmallVec<u32, 4>,
}

impl Model for AtomList {
    ghost use Rattle.std.specs.Prelude.{ℕ, List};
    ghost use Rattle.std.specs.List.Sorted.{IsStrictlyIncreasing};

    ghost Value = { List ℕ };

    ghost view = { λ l. l.atoms.items };

    ghost invariant = { λ l. IsStrictlyIncreasing l.atoms.items };
}

impl AtomList {
    /// The empty set.
    pub fn new(alloc: Global) -> AtomList
        ensures { result ≡ [] }
    {
        AtomList {
            atoms: SmallVec::new(alloc),
        }
    }

    /// The set of these atoms, which rise.
    pub(crate) fn rising(alloc: Global, atoms: &[u32]) -> Result<AtomList, AllocError>
        requires { IsStrictlyIncreasing atoms.now }
        ensures { IfOk result (λ list. list ≡ atoms.now) }
    {
        Ok(AtomList {
            atoms: SmallVec::from_slice(alloc, atoms)?,
        })
    }

    /// Another list of the same atoms.
    pub fn copy(&self, alloc: Global) -> Result<AtomList, AllocError>
        ensures { IfOk result (λ list. list ≡ self.now) }
    {
        Ok(AtomList {
            atoms: SmallVec::from_slice(alloc, self.atoms.as_slice())?,
        })
    }

    /// Puts an atom in. One that is there already changes nothing.
    pub fn insert(&mut self, atom: u32) -> Result<(), AllocError>
        ensures ok { OnOk result (Inserts self.old atom self.new) }
        ensures there { Contains self.old atom → self.new ≡ self.old }
        ensures err { OnErr result (self.new ≡ self.old) }
    {
        if let Err(place) = place_of(self.atoms.as_slice(), atom) {
            self.atoms.insert(place, atom)?;
        }
        Ok(())
    }

    /// How many atoms it has.
    pub fn len(&self) -> usize
        ensures len { result ≡ length self.now }
        ensures rises { IsStrictlyIncreasing self.now }
    {
        self.atoms.len()
    }

    /// The atom at a place from 0, in rising order.
    pub fn get(&self, place: usize) -> u32
        requires { place < length self.now }
        ensures { slice_get self.now place ≡ Some result }
    {
        self.atoms.as_slice()[place]
    }

    /// Whether the atom is among them.
    pub fn has(&self, atom: u32) -> bool
        ensures { IsTrue result ↔ Contains self.now atom }
    {
        names_atom(self.atoms.as_slice(), atom)
    }

    /// Whether all of these atoms are among them.
    pub fn has_all(&self, atoms: &[u32]) -> bool
        ensures { IsTrue result ↔ All (λ p. Contains self.now p) atoms.now }
    {
        names_all(self.atoms.as_slice(), atoms)
    }

    /// All atoms, rising.
    pub fn as_slice(&self) -> &[u32]
        ensures items { result.now ≡ self.now }
        ensures rises { IsStrictlyIncreasing result.now }
    {
        self.atoms.as_slice()
    }
}

impl Atoms for AtomList {
    ghost has = { names_atom };

    fn next(&self, from: u32, hint: &mut Hint) -> Option<u32> {
        next_in(self.atoms.as_slice(), from, &mut hint.first)
    }
}

/// Whether the atom is in a list that rises.
pub fn names_atom(list: &[u32], atom: u32) -> bool
    requires { IsStrictlyIncreasing list.now }
    ensures { IsTrue result ↔ Contains list.now atom }
{
    place_of(list, atom).is_ok()
}

/// Whether all of these atoms are in a list that rises.
pub fn names_all(list: &[u32], atoms: &[u32]) -> bool
    requires { IsStrictlyIncreasing list.now }
    ensures { IsTrue result ↔ All (λ p. Contains list.now p) atoms.now }
{
    for atom in atoms {
        if !names_atom(list, *atom) {
            return false;
        }
    }
    true
}

/// The least atom of a list that rises that is at least this number. The hint becomes its place.
pub(crate) fn next_in(list: &[u32], from: u32, hint: &mut usize) -> Option<u32>
    requires { IsStrictlyIncreasing list.now }
    ensures { IsNext (names_atom list.now) from result }
{
    let place = place_from(list, from, *hint);
    *hint = place;
    if place < list.len() {
        return Some(list[place]);
    }
    None
}

/// The place of the least atom of a list that rises that is at least this number, or the length of
/// the list. The place of the hint and the next are tried first.
pub(crate) fn place_from(list: &[u32], from: u32, hint: usize) -> usize
    requires { IsStrictlyIncreasing list.now }
    ensures { IsFirstFrom list.now from result }
{
    if is_first_from(list, from, hint) {
        return hint;
    }
    let next = hint.saturating_add(1);
    if is_first_from(list, from, next) {
        return next;
    }
    match list.binary_search(&from) {
        Ok(place) => place,
        Err(place) => place,
    }
}

// Whether all before the place is less than the number, and nothing from it on.
fn is_first_from(list: &[u32], from: u32, place: usize) -> bool
    requires { IsStrictlyIncreasing list.now }
    ensures { IsTrue result → IsFirstFrom list.now from place }
{
    if place > list.len() {
        return false;
    }
    less_before(list, from, place) && not_less_at(list, from, place)
}

fn less_before(list: &[u32], from: u32, place: usize) -> bool
    requires { place ≤ length list.now }
    ensures { IsTrue result → 0 < place → slice_index list.now (place - 1) < from }
{
    place == 0 || list[place - 1] < from
}

fn not_less_at(list: &[u32], from: u32, place: usize) -> bool
    ensures { IsTrue result → place < length list.now → from ≤ slice_index list.now place }
{
    place >= list.len() || from <= list[place]
}

// Most lists are filled in rising order, so the end is tried before the search.
fn place_of(atoms: &[u32], atom: u32) -> Result<usize, usize>
    requires { IsStrictlyIncreasing atoms.now }
    ensures { IsPlaceOf atoms.now atom result }
{
    match atoms.last() {
        Some(last) if *last >= atom => atoms.binary_search(&atom),
        _ => Err(atoms.len()),
    }
}

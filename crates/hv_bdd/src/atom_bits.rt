//! Atoms and bits that are read off lists, those that an action needs or changes and those of a
//! cube, so that no table by atom is made for a query.

ghost use Rattle.std.specs.Prelude.{◌≡◌, ◌<◌, ◌↔◌, ℕ, IfSome, IsTrue, length, true};
ghost use Rattle.std.specs.List.{Contains};
ghost use Rattle.std.specs.List.Sorted.{IsStrictlyIncreasing};
ghost use Rattle.hv_task.specs.Working.AtomList.{IsFirstFrom, IsPlaceOf};
ghost use Rattle.hv_task.specs.Atoms.{IsNext};
ghost use Rattle.hv_task.specs.State.{AreBelow, has_atom, names_atom, state_of};
ghost use Rattle.hv_sets.specs.Cubes.{atoms_of};
ghost use Rattle.hv_sets.specs.Working.Cubes.{IsFirstUpto};
ghost use Rattle.hv_bdd.specs.Live.{changed_by, bit_mark_of, needed_by, no_marks};
ghost use Rattle.hv_bdd.specs.Order.{atom_at};
ghost use Rattle.hv_bdd.specs.Reduced.{IsReduced};
ghost use Rattle.hv_bdd.specs.Working.Marked.{IsSignOf};
ghost use Rattle.hv_bdd.specs.Working.Untouched.{MarksNone};
ghost use Rattle.hv_bdd.specs.Working.Sets.{mark_literals};

use crate::diagrams::Diagrams;
use hv_sets::{Cube, Literal};
use hv_task::{Action, AtomList, Atoms, Hint, State};
use std::marker::Model;

/// A state of a task with so many atoms, by the list of those that it holds.
#[derive(Drop)]
pub struct ListedState<'a> {
    atoms: u32,
    list: &'a AtomList,
}

impl<'a> Model for ListedState<'a> {
    ghost use Rattle.std.specs.Prelude.{Bool, List};
    ghost use Rattle.hv_task.specs.State.{AreBelow, state_of};

    ghost Value = { List Bool };

    ghost view = { λ h. state_of h.atoms h.list.now };

    ghost invariant = { λ h. AreBelow h.atoms h.list.now };
}

impl<'a> ListedState<'a> {
    /// The state that holds these atoms and no other.
    pub fn new(atoms: u32, list: &'a AtomList) -> ListedState<'a>
        requires { AreBelow atoms list.now }
        ensures { result ≡ state_of atoms list.now }
    {
        ListedState { atoms, list }
    }

    /// Whether it holds the atom.
    pub fn has(&self, atom: u32) -> bool
        ensures { result ≡ has_atom self.now atom }
    {
        self.list.has(atom)
    }

    /// The atoms that it holds, rising.
    pub fn listed(&self) -> &[u32]
        ensures { (a : ℕ) → names_atom result.now a ≡ has_atom self.now a }
    {
        self.list.as_slice()
    }

    /// The least atom that it holds that is at least this number.
    pub fn next(&self, from: u32) -> Option<u32>
        ensures next { IsNext (has_atom self.now) from result }
        ensures within { IfSome result (λ atom. atom < length self.now) }
    {
        let mut hint = Hint::default();
        self.list.next(from, &mut hint)
    }
}

/// For each of so many atoms a bit, or none: at the atoms of literals their signs, at other atoms
/// of one list the bit 1, and at further ones of another list the bit 0.
#[derive(Drop)]
pub struct AtomBits<'a> {
    atoms: u32,
    literals: &'a [Literal],
    ones: &'a [u32],
    zeros: &'a [u32],
}

impl<'a> Model for AtomBits<'a> {
    ghost use Rattle.std.specs.Prelude.{Bool, List, Option};
    ghost use Rattle.std.specs.List.Sorted.{IsStrictlyIncreasing};
    ghost use Rattle.hv_sets.specs.Cubes.{atoms_of};
    ghost use Rattle.hv_bdd.specs.Working.Marked.{listed_marks};
    ghost use Rattle.hv_bdd.specs.Working.Sets.{mark_literals};

    ghost Value = { List (Option Bool) };

    ghost view = { λ m. mark_literals m.literals.now
        (listed_marks m.atoms m.ones.now m.zeros.now) };

    ghost invariant = { λ m. IsStrictlyIncreasing (atoms_of m.literals.now)
        × IsStrictlyIncreasing m.ones.now × IsStrictlyIncreasing m.zeros.now };
}

impl<'a> AtomBits<'a> {
    ghost use Rattle.std.specs.Prelude.{None, Some};

    /// No bit.
    #[tactic(auto, using(crate::proofs::Listed::no_listed))]
    pub fn none(atoms: u32) -> AtomBits<'a>
        ensures { result ≡ no_marks atoms }
    {
        AtomBits {
            atoms,
            literals: &[],
            ones: &[],
            zeros: &[],
        }
    }

    /// The signs of these literals.
    #[tactic(auto, using(crate::proofs::Listed::no_listed))]
    pub fn signs(atoms: u32, cube: &'a Cube) -> AtomBits<'a>
        ensures signs { result ≡ mark_literals cube.now (no_marks atoms) }
        ensures rises { IsStrictlyIncreasing (atoms_of cube.now) }
    {
        AtomBits {
            atoms,
            literals: cube.as_slice(),
            ones: &[],
            zeros: &[],
        }
    }

    /// The bits that an action needs.
    pub fn needed(atoms: u32, action: &'a Action) -> AtomBits<'a>
        ensures { result ≡ needed_by atoms (Some action.now) }
    {
        AtomBits {
            atoms,
            literals: &[],
            ones: action.pre.as_slice(),
            zeros: &[],
        }
    }

    /// The bits that an action makes.
    pub fn changed(atoms: u32, action: &'a Action) -> AtomBits<'a>
        ensures { result ≡ changed_by atoms (Some action.now) }
    {
        AtomBits {
            atoms,
            literals: &[],
            ones: action.add.as_slice(),
            zeros: action.del.as_slice(),
        }
    }

    /// The bit of an atom, if it has one.
    pub fn read(&self, atom: u32) -> Option<bool>
        requires { atom < length self.now }
        ensures { result ≡ bit_mark_of self.now atom }
    {
        if let Some(sign) = sign_of(self.literals, atom) {
            return Some(sign);
        }
        if is_among(self.ones, atom) {
            return Some(true);
        }
        if is_among(self.zeros, atom) {
            return Some(false);
        }
        None
    }

    /// Whether no atom at these places has a bit; where more atoms than these many have one, this
    /// isn't looked for.
    pub(crate) fn is_none_at(&self, nodes: &Diagrams, places: &State, most: usize) -> bool
        requires atoms { length self.now ≡ nodes.now.atoms }
        requires places { length places.now ≡ nodes.now.atoms }
        ensures { result ≡ true → MarksNone nodes.now self.now places.now }
    {
        if !self.literals.is_empty() || self.ones.len() > most || self.zeros.len() > most {
            return false;
        }
        if !are_apart(self.ones, nodes, places) {
            return false;
        }
        are_apart(self.zeros, nodes, places)
    }
}

// Whether none of these atoms is at one of the places.
fn are_apart(list: &[u32], nodes: &Diagrams, places: &State) -> bool
    requires { length places.now ≡ nodes.now.atoms }
    ensures apart { result ≡ true → (v : ℕ) → v < nodes.now.atoms → has_atom places.now v ≡ true
        → Contains list.now (atom_at nodes.now v) → ⊥ }
    ensures reduced { IsReduced nodes.now }
{
    let atoms = nodes.atoms();
    for atom in list {
        if *atom >= atoms {
            return false;
        }
        if places.has(nodes.place(*atom)) {
            return false;
        }
    }
    true
}

// The sign of the literal of an atom, if there is one.
fn sign_of(literals: &[Literal], atom: u32) -> Option<bool>
    requires { IsStrictlyIncreasing (atoms_of literals.now) }
    ensures { IsSignOf literals.now atom result }
{
    match literals.get(first_upto(literals, atom)) {
        Some(literal) if literal.atom == atom => Some(literal.positive),
        _ => None,
    }
}

// How many literals have lesser atoms.
fn first_upto(literals: &[Literal], atom: u32) -> usize
    requires { IsStrictlyIncreasing (atoms_of literals.now) }
    ensures { IsFirstUpto (atoms_of literals.now) atom result }
{
    literals.partition_point(|l| l.atom < atom)
}

fn is_among(atoms: &[u32], atom: u32) -> bool
    requires { IsStrictlyIncreasing atoms.now }
    ensures { IsTrue result ↔ Contains atoms.now atom }
{
    place_of(atoms, atom).is_ok()
}

/// The place in a rising list where what is at least this number begins.
pub(crate) fn first_from(list: &[u32], from: u32) -> usize
    requires { IsStrictlyIncreasing list.now }
    ensures { IsFirstFrom list.now from result }
{
    match place_of(list, from) {
        Ok(place) => place,
        Err(place) => place,
    }
}

fn place_of(atoms: &[u32], atom: u32) -> Result<usize, usize>
    requires { IsStrictlyIncreasing atoms.now }
    ensures { IsPlaceOf atoms.now atom result }
{
    atoms.binary_search(&atom)
}

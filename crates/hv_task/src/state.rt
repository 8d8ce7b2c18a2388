//! States of a task, 64 atoms a word.

ghost use Rattle.std.specs.Prelude.{◌≡◌, ◌<◌, ◌↔◌, ◌&&◌, ◌||◌, not, ℕ, [], length, true, IsTrue, IfOk};
ghost use Rattle.std.specs.Prelude.{OnOk, OnErr, slice_set};
ghost use Rattle.std.specs.Cmp.{bool_eq_equiv, partial_equiv_from_equiv};
ghost use Rattle.std.specs.Cmp.Lexicographic.{pointwise, lists_equiv, lists_per};
ghost use Rattle.std.proofs.Math.Bool.{beq};
ghost use Rattle.hv_task.specs.AtomList.{IsListOf};
ghost use Rattle.hv_task.specs.Atoms.{IsNext};
ghost use Rattle.hv_task.specs.State.{AreBelow, has_all, has_atom, put_all, state_of};
ghost use Rattle.hv_task.specs.Words.{AreWords};

use crate::atoms::{Atoms, Hint};
use crate::bits::{
    are_within, clear_all, copy_all, has_flag, meet_all, next_flag, next_outside, put_flag,
    resize_all, same_all, turn_all, zeros,
};
use std::alloc::{AllocError, Global};
use std::marker::Model;

/// A state of a planning task: a set of atoms, as one flag for each atom of the task, 64 a word.
#[derive(Drop)]
pub struct State {
    atoms: u32,
    words: Vec<u64>,
}

impl Model for State {
    ghost use Rattle.std.specs.Prelude.{Bool, List};
    ghost use Rattle.hv_task.specs.Working.Words.{IsPacked, flags_of};

    ghost Value = { List Bool };

    ghost view = { λ s. flags_of s.words.items s.atoms };

    ghost invariant = { λ s. IsPacked s.words.items s.atoms };
}

impl Atoms for State {
    ghost has = { has_atom };

    fn next(&self, from: u32, hint: &mut Hint) -> Option<u32> {
        let _ = hint;
        if from >= self.atoms {
            return None;
        }
        next_flag(self.words.as_slice(), from)
    }
}

impl State {
    /// The state of a task with so many atoms in which no atom is true.
    pub fn empty(alloc: Global, atoms: u32) -> Result<State, AllocError>
        ensures { IfOk result (λ state. state ≡ state_of atoms []) }
    {
        Ok(State {
            atoms,
            words: zeros(alloc, atoms)?,
        })
    }

    /// How many atoms the task of the state has.
    pub fn atoms(&self) -> u32
        ensures { result ≡ length self.now }
    {
        self.atoms
    }

    /// Its words, one for each 64 atoms: bit b of word w is 1 exactly where it holds the atom
    /// 64 * w + b.
    pub fn words(&self) -> &[u64]
        ensures { AreWords self.now result.now }
    {
        self.words.as_slice()
    }

    /// Makes it a state of a task with so many atoms: each of them that it held it still holds, and
    /// no other.
    pub fn resize(&mut self, atoms: u32) -> Result<(), AllocError>
        ensures atoms { OnOk result (length self.new ≡ atoms) }
        ensures held { OnOk result ((p : ℕ) → p < atoms
            → has_atom self.new p ≡ has_atom self.old p) }
        ensures err { OnErr result (self.new ≡ self.old) }
    {
        resize_all(&mut self.words, atoms)?;
        self.atoms = atoms;
        Ok(())
    }

    /// Whether it holds the atom.
    pub fn has(&self, atom: u32) -> bool
        requires { atom < length self.now }
        ensures { result ≡ has_atom self.now atom }
    {
        has_flag(self.words.as_slice(), atom)
    }

    /// Puts the atom in (true) or takes it out (false).
    pub fn set(&mut self, atom: u32, value: bool)
        requires { atom < length self.old }
        ensures { self.new ≡ slice_set self.old atom value }
    {
        put_flag(&mut self.words, atom, value);
    }

    /// Makes it the other state, of as many atoms.
    pub fn copy_from(&mut self, other: &State)
        requires { length self.old ≡ length other.now }
        ensures { self.new ≡ other.now }
    {
        copy_all(&mut self.words, &other.words);
    }

    /// Keeps of its atoms those that the other holds too.
    pub fn meet(&mut self, other: &State)
        requires { length self.old ≡ length other.now }
        ensures met { (p : ℕ)
            → has_atom self.new p ≡ (has_atom self.old p && has_atom other.now p) }
        ensures atoms { length self.new ≡ length self.old }
    {
        meet_all(&mut self.words, &other.words);
    }

    /// The least atom from this number on that it holds and the other doesn't.
    pub fn next_outside(&self, other: &State, from: u32) -> Option<u32>
        requires { length self.now ≡ length other.now }
        ensures { IsNext (λ p. has_atom self.now p && not (has_atom other.now p)) from result }
    {
        if from >= self.atoms {
            return None;
        }
        next_outside(self.words.as_slice(), other.words.as_slice(), from)
    }

    /// Whether the two are one state, of as many atoms.
    pub fn same(&self, other: &State) -> bool
        requires { length self.now ≡ length other.now }
        ensures { IsTrue result ↔ (self.now ≡ other.now) }
    {
        same_all(self.words.as_slice(), other.words.as_slice(), self.atoms)
    }

    /// Makes it the state that holds these atoms and no other.
    pub fn hold(&mut self, held: &[u32])
        requires { AreBelow (length self.old) held.now }
        ensures held { self.new ≡ state_of (length self.old) held.now }
        ensures atoms { length self.new ≡ length self.old }
    {
        self.clear();
        self.put_all(held, true);
    }

    // Takes all atoms out.
    fn clear(&mut self)
        ensures none { self.new ≡ state_of (length self.old) [] }
        ensures atoms { length self.new ≡ length self.old }
    {
        clear_all(&mut self.words);
    }

    /// Writes the atoms that it holds, rising, in place of what the list has. After running out of
    /// memory nothing is said of the list.
    pub fn list_atoms(&self, held: &mut Vec<u32>) -> Result<(), AllocError>
        ensures listed { OnOk result (IsListOf self.now held.new.items) }
    {
        held.clear();
        // For its contract alone: a number of atoms fits a word.
        let _atoms = self.atoms();
        let mut hint = Hint::default();
        let mut from = 0;
        while let Some(atom) = self.next(from, &mut hint) {
            held.push(atom)?;
            from = atom + 1;
        }
        Ok(())
    }

    pub(crate) fn has_all(&self, atoms: &[u32]) -> bool
        requires { AreBelow (length self.now) atoms.now }
        ensures { result ≡ has_all atoms.now self.now }
    {
        atoms.iter().all(|atom| self.has(*atom))
    }

    /// Whether the other holds each of its atoms.
    pub(crate) fn is_within(&self, other: &State) -> bool
        requires { length self.now ≡ length other.now }
        ensures { IsTrue result
            ↔ ((p : ℕ) → has_atom self.now p ≡ true → has_atom other.now p ≡ true) }
    {
        are_within(self.words.as_slice(), other.words.as_slice())
    }

    /// Takes out the atoms that the first holds, and then puts in those that the second holds.
    pub(crate) fn turn(&mut self, out: &State, put: &State)
        requires out { length self.old ≡ length out.now }
        requires put { length self.old ≡ length put.now }
        ensures turned { (p : ℕ) → has_atom self.new p
            ≡ (has_atom put.now p || (has_atom self.old p && not (has_atom out.now p))) }
        ensures atoms { length self.new ≡ length self.old }
    {
        turn_all(&mut self.words, &out.words, &put.words);
    }

    // Puts these atoms in (true) or takes them out (false).
    pub(crate) fn put_all(&mut self, atoms: &[u32], value: bool)
        requires { AreBelow (length self.old) atoms.now }
        ensures put { self.new ≡ put_all value atoms.now self.old }
        ensures atoms { length self.new ≡ length self.old }
    {
        for atom in atoms {
            self.set(*atom, value);
        }
    }
}

impl PartialEq for State {
    ghost eq = { pointwise beq };

    ghost laws = { lists_per (partial_equiv_from_equiv bool_eq_equiv) };

    fn eq(&self, other: &State) -> bool {
        if self.atoms() != other.atoms() {
            return false;
        }
        self.same(other)
    }
}

impl Eq for State {
    ghost laws = { lists_equiv bool_eq_equiv };
}

//! Formulas of exclusions: clauses of at most two literals, all of one sign. Such a clause excludes
//! that its atoms all have the other value. The companions of an atom are those that can have the
//! value beside it, 64 a word.

ghost use Rattle.std.specs.Prelude.{◌≡◌, ◌<◌, ◌≤◌, ◌⊎◌, ℕ, false, length, IfOk, IfSome, IsTrue};
ghost use Rattle.std.specs.List.{All, Contains};
ghost use Rattle.hv_sets.specs.declared.literal.Literal.{Literal};
ghost use Rattle.hv_basic.specs.Working.Excluded.{HaveStrangers, AreCompanions, AreSquare};
ghost use Rattle.hv_basic.specs.Working.Excluded.{IsAgainst, IsExclusion, IsFull, IsOfTwo};
ghost use Rattle.hv_basic.specs.Working.Excluded.{goes_with, parted};

use crate::query_walk::copy_of;
use hv_sets::{Clauses, Literal};
use hv_task::State;
use std::alloc::{AllocError, Global};

/// For each atom those that can have the value where it has it; and all atoms.
#[derive(Drop)]
pub(crate) struct Companions {
    pub value: bool,
    pub all: State,
    pub rows: Vec<State>,
}

/// The value that the atoms of a clause can't all have, if the clauses have at most two literals,
/// of these atoms and all of one sign.
pub(crate) fn excluded_value(atoms: u32, clauses: &Clauses) -> Option<bool>
    ensures { IfSome result (λ value. All (IsExclusion atoms value) clauses.now) }
{
    if clauses.is_empty() {
        return None;
    }
    let value = has_negative(clauses.get(0));
    for place in 0..clauses.len() {
        if !is_exclusion(atoms, value, clauses.get(place)) {
            return None;
        }
    }
    Some(value)
}

/// Whether the first literal is negative, if there is one.
fn has_negative(clause: &[Literal]) -> bool {
    match clause.first() {
        Some(literal) => !literal.positive,
        None => false,
    }
}

/// Whether the clause has at most two literals, of these atoms, which are false where their atoms
/// have the value.
fn is_exclusion(atoms: u32, value: bool, clause: &[Literal]) -> bool
    ensures { IsTrue result → IsExclusion atoms value clause.now }
{
    if clause.len() > 2 {
        return false;
    }
    for literal in clause {
        if !is_against(atoms, value, *literal) {
            return false;
        }
    }
    true
}

/// Whether the literal is of one of these atoms, and false where that has the value.
fn is_against(atoms: u32, value: bool, literal: Literal) -> bool
    ensures { IsTrue result → IsAgainst atoms value literal }
{
    literal.atom < atoms && literal.positive == !value
}

/// The companions of each of these atoms.
pub(crate) fn companions_of(
    alloc: Global,
    atoms: u32,
    value: bool,
    clauses: &Clauses,
) -> Result<Companions, AllocError>
    requires { All (IsExclusion atoms value) clauses.now }
    ensures value { IfOk result (λ companions. companions.value ≡ value) }
    ensures are { IfOk result (AreCompanions atoms clauses.now) }
{
    let all = all_atoms(alloc, atoms)?;
    let mut rows = copies(alloc, &all, atoms)?;
    for place in 0..clauses.len() {
        part_all(&mut rows, clauses.get(place));
    }
    Ok(Companions { value, all, rows })
}

/// The state of all atoms.
fn all_atoms(alloc: Global, atoms: u32) -> Result<State, AllocError>
    ensures { IfOk result (IsFull atoms) }
{
    let mut all = State::empty(alloc, atoms)?;
    for atom in 0..atoms {
        all.set(atom, true);
    }
    Ok(all)
}

/// So many copies of the state.
fn copies(alloc: Global, state: &State, count: u32) -> Result<Vec<State>, AllocError>
    ensures size { IfOk result (λ rows. length rows.items ≡ count) }
    ensures each { IfOk result (λ rows. All (λ row. row ≡ state.now) rows.items) }
{
    let mut rows = Vec::with_capacity(alloc, count as usize)?;
    for place in 0..count {
        let _ = place;
        rows.push(copy_of(alloc, state)?)?;
    }
    Ok(rows)
}

/// Takes each of the two atoms of the clause out of the row of the other one; a lone one out of its
/// own.
fn part_all(rows: &mut Vec<State>, clause: &[Literal])
    requires square { AreSquare rows.old.items }
    requires few { length clause.now ≤ 2 }
    requires below { All (λ literal. literal.atom < length rows.old.items) clause.now }
    ensures size { length rows.new.items ≡ length rows.old.items }
    ensures square { AreSquare rows.new.items }
    ensures kept { (p q : ℕ) → goes_with rows.old.items p q ≡ false
        → goes_with rows.new.items p q ≡ false }
    ensures apart { HaveStrangers rows.new.items clause.now }
    ensures only { (p q : ℕ) → goes_with rows.new.items p q ≡ false
        → (goes_with rows.old.items p q ≡ false) ⊎ IsOfTwo clause.now p q }
{
    if clause.is_empty() {
        return;
    }
    let first = clause[0].atom;
    let last = clause[clause.len() - 1].atom;
    part(rows, first, last);
    part(rows, last, first);
}

/// Takes the other atom out of the row of this one.
fn part(rows: &mut Vec<State>, atom: u32, other: u32)
    requires square { AreSquare rows.old.items }
    requires atom { atom < length rows.old.items }
    requires other { other < length rows.old.items }
    ensures { rows.new.items ≡ parted rows.old.items atom other }
{
    rows[atom as usize].set(other, false);
}

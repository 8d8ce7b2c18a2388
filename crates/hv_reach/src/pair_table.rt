//! Tables of pairs: a row of flags for each atom. A new pair raises the flags of its two atoms, and
//! that of an atom with itself besides the flag past the atoms.

ghost use Rattle.std.specs.Prelude.{◌≡◌, ◌<◌, ◌+◌, ◌⊎◌, ℕ, [], true, false, length, IfOk};
ghost use Rattle.std.specs.Prelude.{slice_index_or, slice_set};
ghost use Rattle.std.specs.List.{All};
ghost use Rattle.hv_task.specs.State.{AreBelow, has_atom, state_of};
ghost use Rattle.hv_reach.specs.Reached.{ArePaired, HasPairsOf, has_pair};
ghost use Rattle.hv_reach.specs.Working.Table.{AreRaised, IsPairStep, IsNextNew, IsPairTable};
ghost use Rattle.hv_reach.specs.Working.Table.{IsSquare, PairsGrowWithin, set_at, set_both};

use crate::columns::empty_states;
use hv_task::State;
use std::alloc::{AllocError, Global};

/// A table of so many atoms without a pair.
pub(crate) fn table(alloc: Global, atoms: u32) -> Result<Vec<State>, AllocError>
    ensures table { IfOk result (λ rows. IsPairTable atoms rows.items) }
    ensures none { IfOk result (λ rows. (p q : ℕ) → has_pair rows.items p q ≡ false) }
{
    let rows = empty_states(alloc, atoms, atoms)?;
    Ok(rows)
}

/// Takes all pairs out of a table of so many atoms.
pub(crate) fn clear_table(atoms: u32, rows: &mut Vec<State>)
    requires { IsSquare atoms rows.old.items }
    ensures table { IsPairTable atoms rows.new.items }
    ensures none { (p q : ℕ) → has_pair rows.new.items p q ≡ false }
{
    for atom in 0..atoms {
        clear_row(rows, atom);
    }
}

// Takes all atoms out of a row.
fn clear_row(rows: &mut Vec<State>, atom: u32)
    requires { atom < length rows.old.items }
    ensures { rows.new.items ≡ slice_set rows.old.items atom
        (state_of (length (slice_index_or rows.old.items atom [])) []) }
{
    rows[atom as usize].hold(&[]);
}

/// Puts all pairs of these atoms in, and says whether one is new.
pub(crate) fn mark_all(atoms: u32, rows: &mut Vec<State>, flags: &mut State, list: &[u32]) -> bool
    requires table { IsPairTable atoms rows.old.items }
    requires flags { length flags.old ≡ atoms + 1 }
    requires below { AreBelow atoms list.now }
    ensures step { IsPairStep atoms rows.old.items flags.old rows.new.items flags.new result }
    ensures set { HasPairsOf (has_pair rows.new.items) list.now }
    ensures least { PairsGrowWithin (λ set. HasPairsOf set list.now) rows.old.items rows.new.items }
{
    let first = mark_diagonal(atoms, rows, flags, list);
    first | mark_square(atoms, rows, flags, list)
}

// Puts each of these atoms in with itself.
fn mark_diagonal(atoms: u32, rows: &mut Vec<State>, flags: &mut State, list: &[u32]) -> bool
    requires table { IsPairTable atoms rows.old.items }
    requires flags { length flags.old ≡ atoms + 1 }
    requires below { AreBelow atoms list.now }
    ensures step { IsPairStep atoms rows.old.items flags.old rows.new.items flags.new result }
    ensures set { All (λ p. has_pair rows.new.items p p ≡ true) list.now }
    ensures least { PairsGrowWithin (λ set. All (λ p. set p p ≡ true) list.now)
        rows.old.items rows.new.items }
{
    let mut moved = false;
    for atom in list {
        moved |= mark(atoms, rows, flags, *atom, *atom);
    }
    moved
}

// Puts in each of these atoms with each, where each is in with itself.
fn mark_square(atoms: u32, rows: &mut Vec<State>, flags: &mut State, list: &[u32]) -> bool
    requires table { IsPairTable atoms rows.old.items }
    requires flags { length flags.old ≡ atoms + 1 }
    requires below { AreBelow atoms list.now }
    requires diagonal { All (λ q. has_pair rows.old.items q q ≡ true) list.now }
    ensures step { IsPairStep atoms rows.old.items flags.old rows.new.items flags.new result }
    ensures set { HasPairsOf (has_pair rows.new.items) list.now }
    ensures least { PairsGrowWithin (λ set. HasPairsOf set list.now) rows.old.items rows.new.items }
{
    let mut moved = false;
    for first in list {
        moved |= mark_row(atoms, rows, flags, *first, list);
    }
    moved
}

/// Puts the atom in with each of these, and says whether a pair is new.
pub(crate) fn mark_row(
    atoms: u32,
    rows: &mut Vec<State>,
    flags: &mut State,
    first: u32,
    list: &[u32],
) -> bool
    requires table { IsPairTable atoms rows.old.items }
    requires flags { length flags.old ≡ atoms + 1 }
    requires below { AreBelow atoms list.now }
    requires first { first < atoms }
    requires itself { has_pair rows.old.items first first ≡ true }
    requires diagonal { All (λ q. has_pair rows.old.items q q ≡ true) list.now }
    ensures step { IsPairStep atoms rows.old.items flags.old rows.new.items flags.new result }
    ensures set { All (λ q. has_pair rows.new.items first q ≡ true) list.now }
    ensures least { PairsGrowWithin (λ set. All (λ q. set first q ≡ true) list.now)
        rows.old.items rows.new.items }
{
    let mut moved = false;
    for second in list {
        moved |= mark(atoms, rows, flags, first, *second);
    }
    moved
}

/// Puts each of these atoms in with each atom of the mask, and says whether a pair is new.
pub(crate) fn join_all(
    atoms: u32,
    rows: &mut Vec<State>,
    flags: &mut State,
    list: &[u32],
    mask: &State,
) -> bool
    requires table { IsPairTable atoms rows.old.items }
    requires flags { length flags.old ≡ atoms + 1 }
    requires below { AreBelow atoms list.now }
    requires mask { length mask.now ≡ atoms }
    requires itself { All (λ p. has_pair rows.old.items p p ≡ true) list.now }
    requires diagonal { (q : ℕ) → has_atom mask.now q ≡ true → has_pair rows.old.items q q ≡ true }
    ensures step { IsPairStep atoms rows.old.items flags.old rows.new.items flags.new result }
    ensures set { All (λ p. (q : ℕ) → has_atom mask.now q ≡ true
        → has_pair rows.new.items p q ≡ true) list.now }
    ensures least { PairsGrowWithin
        (λ set. All (λ p. (q : ℕ) → has_atom mask.now q ≡ true → set p q ≡ true) list.now)
        rows.old.items rows.new.items }
{
    let mut moved = false;
    for first in list {
        moved |= join_one(atoms, rows, flags, *first, mask);
    }
    moved
}

// Puts the atom in with each atom of the mask.
fn join_one(atoms: u32, rows: &mut Vec<State>, flags: &mut State, first: u32, mask: &State) -> bool
    requires table { IsPairTable atoms rows.old.items }
    requires flags { length flags.old ≡ atoms + 1 }
    requires first { first < atoms }
    requires mask { length mask.now ≡ atoms }
    requires itself { has_pair rows.old.items first first ≡ true }
    requires diagonal { (q : ℕ) → has_atom mask.now q ≡ true → has_pair rows.old.items q q ≡ true }
    ensures step { IsPairStep atoms rows.old.items flags.old rows.new.items flags.new result }
    ensures set { (q : ℕ) → has_atom mask.now q ≡ true → has_pair rows.new.items first q ≡ true }
    ensures least { PairsGrowWithin
        (λ set. (q : ℕ) → has_atom mask.now q ≡ true → set first q ≡ true)
        rows.old.items rows.new.items }
{
    let mut moved = false;
    let mut from = 0;
    while let Some(second) = next_new(mask, &rows[first as usize], from) {
        moved |= mark(atoms, rows, flags, first, second);
        from = second + 1;
    }
    moved
}

// The next atom of the mask, from this one on, that the row has not.
fn next_new(mask: &State, row: &State, from: u32) -> Option<u32>
    requires { length mask.now ≡ length row.now }
    ensures { IsNextNew mask.now row.now from result }
{
    mask.next_outside(row, from)
}

// Puts a pair in, and says whether it is new.
fn mark(atoms: u32, rows: &mut Vec<State>, flags: &mut State, first: u32, second: u32) -> bool
    requires table { IsPairTable atoms rows.old.items }
    requires flags { length flags.old ≡ atoms + 1 }
    requires first { first < atoms }
    requires second { second < atoms }
    requires diagonal { (first ≡ second)
        ⊎ ((has_pair rows.old.items first first ≡ true)
        × (has_pair rows.old.items second second ≡ true)) }
    ensures step { IsPairStep atoms rows.old.items flags.old rows.new.items flags.new result }
    ensures set { has_pair rows.new.items first second ≡ true }
    ensures moves { has_pair rows.old.items first second ≡ false → result ≡ true }
    ensures least { PairsGrowWithin (λ set. set first second ≡ true) rows.old.items rows.new.items }
{
    if rows[first as usize].has(second) {
        return false;
    }
    set_pair(atoms, rows, first, second);
    raise(flags, first, second);
    true
}

fn set_pair(atoms: u32, rows: &mut Vec<State>, first: u32, second: u32)
    requires table { IsPairTable atoms rows.old.items }
    requires first { first < atoms }
    requires second { second < atoms }
    ensures { rows.new.items ≡ set_both rows.old.items first second }
{
    set_cell(rows, first, second);
    set_cell(rows, second, first);
}

fn set_cell(rows: &mut Vec<State>, first: u32, second: u32)
    requires row { first < length rows.old.items }
    requires cell { second < length (slice_index_or rows.old.items first []) }
    ensures { rows.new.items ≡ set_at rows.old.items first second }
{
    rows[first as usize].set(second, true);
}

// Raises the flags for a new pair.
fn raise(flags: &mut State, first: u32, second: u32)
    requires first { first + 1 < length flags.old }
    requires second { second + 1 < length flags.old }
    ensures size { length flags.new ≡ length flags.old }
    ensures stay { (x : ℕ) → has_atom flags.old x ≡ true → has_atom flags.new x ≡ true }
    ensures raised { (n : ℕ) → length flags.old ≡ n + 1 → AreRaised n flags.new first second }
{
    flags.set(first, true);
    flags.set(second, true);
    raise_past(flags, first == second);
}

// Raises the flag past the atoms where this is an atom with itself.
fn raise_past(flags: &mut State, same: bool)
    requires { 0 < length flags.old }
    ensures size { length flags.new ≡ length flags.old }
    ensures stay { (x : ℕ) → has_atom flags.old x ≡ true → has_atom flags.new x ≡ true }
    ensures past { (n : ℕ) → length flags.old ≡ n + 1 → same ≡ true
        → has_atom flags.new n ≡ true }
{
    if !same {
        return;
    }
    let past = flags.atoms() - 1;
    flags.set(past, true);
}

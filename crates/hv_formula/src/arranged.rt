//! The places of clauses, of which those that were named are first.
//!
//! The clauses that are true in a cube are before a list of all, so a literal costs the clauses in
//! which it is, and to take literals back costs one write. Clauses that are true in each state are
//! there from the beginning; a clause whose atoms neither rise nor fall is sorted for that. The
//! list is made with the first literal, so a walk over states doesn't pay for it.

ghost use Rattle.std.specs.Prelude.{◌≡◌, ◌<◌, ◌≤◌, ℕ, [], Bool, List, IfOk, true, length};
ghost use Rattle.std.specs.Prelude.{slice_index_or, OnOk};
ghost use Rattle.std.specs.List.{Contains};
ghost use Rattle.hv_sets.specs.Truth.{in_clause};
ghost use Rattle.hv_formula.specs.Rest.{AreTrueUpto, IsArranged};
ghost use Rattle.hv_formula.specs.Working.Rest.{KeepsUpto};

use hv_sets::{Clauses, Literal};
use std::alloc::{AllocError, Global};

/// The places of clauses in some order, so many of them in front that are told of; and for each
/// clause its place in that order.
#[derive(Drop)]
pub(crate) struct Arranged {
    pub order: Vec<u32>,
    pub places: Vec<u32>,
    pub done: usize,
}

impl Arranged {
    // That of no clauses.
    pub(crate) fn none(alloc: Global) -> Arranged
        ensures { result.done ≡ 0 }
    {
        Arranged {
            order: Vec::new(alloc),
            places: Vec::new(alloc),
            done: 0,
        }
    }

    // That of so many clauses, of which none is told of. More than 4,294,967,295 are taken as want
    // of memory; a line has fewer than 8,388,608.
    fn rising(alloc: Global, count: usize) -> Result<Arranged, AllocError>
        ensures arranged { IfOk result (IsArranged count) }
        ensures none { IfOk result (λ a. a.done ≡ 0) }
    {
        if count > u32::MAX as usize {
            return Err(AllocError);
        }
        let mut order = Vec::with_capacity(alloc, count)?;
        let mut places = Vec::with_capacity(alloc, count)?;
        for place in 0..count {
            order.push(place as u32)?;
            places.push(place as u32)?;
        }
        Ok(Arranged {
            order,
            places,
            done: 0,
        })
    }

    // That of these clauses. Those that are true in each state are told of.
    pub(crate) fn of(alloc: Global, clauses: &Clauses) -> Result<Arranged, AllocError>
        ensures arranged { IfOk result (IsArranged (length clauses.now)) }
        ensures upto { IfOk result (λ a. AreTrueUpto clauses.now [] a.order.items a.done) }
    {
        let mut arranged = Arranged::rising(alloc, clauses.len())?;
        let mut codes = Vec::new(alloc);
        for place in 0..clauses.len() {
            arranged.move_if_true(clauses, place, &mut codes)?;
        }
        Ok(arranged)
    }

    // Tells of a clause that is true in each state.
    fn move_if_true(
        &mut self,
        clauses: &Clauses,
        place: usize,
        codes: &mut Vec<u64>,
    ) -> Result<(), AllocError>
        requires place { place < length clauses.now }
        requires arranged { IsArranged (length clauses.now) self.old }
        requires upto { AreTrueUpto clauses.now [] self.old.order.items self.old.done }
        ensures arranged { OnOk result (IsArranged (length clauses.now) self.new) }
        ensures upto { OnOk result
            (AreTrueUpto clauses.now [] self.new.order.items self.new.done) }
    {
        if !is_always_true(clauses.get(place), codes)? {
            return Ok(());
        }
        self.move_up(place);
        Ok(())
    }

    // Tells of one more clause, unless it is told of.
    fn move_up(&mut self, clause: usize)
        requires arranged { (count : ℕ) × (clause < count) × IsArranged count self.old }
        ensures arranged { (count : ℕ) → clause < count → IsArranged count self.old
            → IsArranged count self.new }
        ensures keeps { KeepsUpto self.old.done self.old.order.items self.new.order.items }
        ensures grows { self.old.done ≤ self.new.done }
        ensures more { (k : ℕ) → self.old.done ≤ k → k < self.new.done
            → slice_index_or self.new.order.items k 0 ≡ clause }
    {
        let place = self.places[clause] as usize;
        if place < self.done {
            return;
        }
        let other = self.order[self.done];
        self.order[place] = other;
        self.order[self.done] = clause as u32;
        self.places[other as usize] = place as u32;
        self.places[clause] = self.done as u32;
        self.done += 1;
    }

    // Tells of these clauses.
    pub(crate) fn move_all(&mut self, clauses: &[usize])
        requires arranged { (count : ℕ) × IsArranged count self.old
            × ((k : ℕ) → k < length clauses.now → slice_index_or clauses.now k 0 < count) }
        ensures arranged { (count : ℕ) → IsArranged count self.old
            → ((k : ℕ) → k < length clauses.now → slice_index_or clauses.now k 0 < count)
            → IsArranged count self.new }
        ensures keeps { KeepsUpto self.old.done self.old.order.items self.new.order.items }
        ensures grows { self.old.done ≤ self.new.done }
        ensures more { (k : ℕ) → self.old.done ≤ k → k < self.new.done
            → Contains clauses.now (slice_index_or self.new.order.items k 0) }
    {
        for at in 0..clauses.len() {
            self.move_up(clauses[at]);
        }
    }
}

// Whether the clause has a literal and its opposite. `codes` is a list to write to.
fn is_always_true(clause: &[Literal], codes: &mut Vec<u64>) -> Result<bool, AllocError>
    ensures { IfOk result (λ yes. yes ≡ true → (s : List Bool) → in_clause clause.now s ≡ true) }
{
    if are_in_order(clause) {
        return Ok(false);
    }
    sort_places(clause, codes)?;
    Ok(has_opposites(clause, codes.as_slice()))
}

// Whether the atoms rise, or fall. Then no two literals are of one atom.
fn are_in_order(clause: &[Literal]) -> bool {
    let mut rise = true;
    let mut fall = true;
    for at in 1..clause.len() {
        rise &= clause[at - 1].atom < clause[at].atom;
        fall &= clause[at - 1].atom > clause[at].atom;
    }
    rise || fall
}

// Lists the places of the literals, by rising atoms.
fn sort_places(clause: &[Literal], codes: &mut Vec<u64>) -> Result<(), AllocError> {
    codes.clear();
    for place in 0..clause.len() {
        let atom = clause[place].atom as u64;
        codes.push(atom << 32 | place.min(u32::MAX as usize) as u64)?;
    }
    codes.sort_unstable();
    Ok(())
}

// Whether the literals at two neighbours of these places are opposites.
fn has_opposites(clause: &[Literal], codes: &[u64]) -> bool
    ensures { result ≡ true → (s : List Bool) → in_clause clause.now s ≡ true }
{
    for at in 1..codes.len() {
        let first = (codes[at - 1] & 0xffff_ffff) as usize;
        let second = (codes[at] & 0xffff_ffff) as usize;
        if are_opposite(clause, first, second) {
            return true;
        }
    }
    false
}

// Whether there are literals at these places, and they are opposites.
fn are_opposite(clause: &[Literal], first: usize, second: usize) -> bool
    ensures { result ≡ true → (s : List Bool) → in_clause clause.now s ≡ true }
{
    if first >= clause.len() || second >= clause.len() {
        return false;
    }
    let one = clause[first];
    let other = clause[second];
    one.atom == other.atom && one.positive != other.positive
}

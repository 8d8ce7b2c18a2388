//! Literals of one sign, of which each of some clauses has one: a state in which all of them are
//! true is in each of these clauses.
//!
//! They are flags by atom, so a state is compared with them 64 atoms a word. A screen is exact
//! where each of the clauses has its literal and the own one under which all of them are put, and
//! no other: then some clause is false where one of the literals is false, and the own one too, and
//! none is tried. Where a screen isn't exact, and one of its literals is false, they are tried.

ghost use Rattle.std.specs.Prelude.{◌≡◌, ◌<◌, ℕ, List, IfOk, IfSome, length, slice_index_or, true};
ghost use Rattle.std.specs.Prelude.{false, not};
ghost use Rattle.std.specs.List.{All, Contains};
ghost use Rattle.hv_task.specs.State.{has_atom};
ghost use Rattle.hv_sets.specs.declared.literal.Literal.{Literal as LiteralOf};
ghost use Rattle.hv_sets.specs.Truth.{in_literal};
ghost use Rattle.hv_indexes.specs.Implied.{IsEither, IsPair};
ghost use Rattle.hv_indexes.specs.Occurrences.{AreStanding};
ghost use Rattle.hv_indexes.specs.Places.{clause_at};
ghost use Rattle.hv_indexes.specs.Mates.{IsExact, IsScreened};
ghost use Rattle.hv_indexes.specs.Working.Mates.{HoldsAll, IsDecidedAs};

use crate::occurrences::Standing;
use crate::partners;
use hv_sets::{Clauses, Literal};
use hv_task::State;
use std::alloc::{AllocError, Global};

// A screen has at most so many words for each of its clauses.
const WORDS: usize = 8;

/// Literals of one sign: those of the atoms whose flags are this sign. It is exact where each of
/// them is in a clause that has the own literal besides, and no other.
#[derive(Drop)]
pub(crate) struct Screen {
    pub own: Literal,
    pub sign: bool,
    pub exact: bool,
    pub flags: State,
}

impl Screen {
    /// A screen for the clauses at these places, which are put under the literal of a row, if that
    /// pays and each has another literal of one sign. `full` is a state that holds all atoms.
    pub(crate) fn of(
        alloc: Global,
        clauses: &Clauses,
        places: &[u32],
        standing: &Standing<'_>,
        full: &State,
    ) -> Result<Option<Screen>, AllocError>
        requires places { (k : ℕ) → k < length places.now
            → slice_index_or places.now k 0 < length clauses.now }
        requires standing { AreStanding clauses.now standing.now }
        requires full { HoldsAll full.now }
        ensures screened { IfOk result (λ found. IfSome found (λ screen. (c : ℕ)
            → Contains places.now c → IsScreened screen (clause_at clauses.now c))) }
        ensures exact { IfOk result (λ found. IfSome found (IsExact clauses.now)) }
    {
        if !pays(full.atoms(), places.len()) {
            return Ok(None);
        }
        let mut negative = Screen::empty(alloc, standing.literal, false, full)?;
        if negative.put_all(clauses, places, standing) {
            return Ok(Some(negative));
        }
        let mut positive = Screen::empty(alloc, standing.literal, true, full)?;
        if positive.put_all(clauses, places, standing) {
            return Ok(Some(positive));
        }
        Ok(None)
    }

    // A screen without literals.
    fn empty(alloc: Global, own: Literal, sign: bool, full: &State) -> Result<Screen, AllocError>
        requires { HoldsAll full.now }
        ensures { IfOk result (λ screen. (clauses : List (List LiteralOf))
            → IsExact clauses screen) }
    {
        Ok(Screen {
            own,
            sign,
            exact: true,
            flags: flags_without(alloc, sign, full)?,
        })
    }

    // Puts a literal of each of the clauses at these places. The answer is false if one has none.
    // Both the places and the row rise, so the row is gone through once.
    fn put_all(&mut self, clauses: &Clauses, places: &[u32], standing: &Standing<'_>) -> bool
        requires places { (k : ℕ) → k < length places.now
            → slice_index_or places.now k 0 < length clauses.now }
        requires standing { AreStanding clauses.now standing.now }
        requires exact { IsExact clauses.now self.old }
        ensures screened { result ≡ true → (c : ℕ) → Contains places.now c
            → IsScreened self.new (clause_at clauses.now c) }
        ensures exact { result ≡ true → IsExact clauses.now self.new }
    {
        let mut index = 0;
        for at in 0..places.len() {
            index = index_from(standing.places, index, places[at] as usize);
            if !self.put_at(clauses, standing, index, places[at]) {
                return false;
            }
        }
        true
    }

    // Puts a literal of the clause at a place, which may be the one at an index of the row: then
    // the row tells it where the clause has two. The answer is false if it has none.
    fn put_at(
        &mut self,
        clauses: &Clauses,
        standing: &Standing<'_>,
        index: usize,
        place: u32,
    ) -> bool
        requires place { place < length clauses.now }
        requires standing { AreStanding clauses.now standing.now }
        ensures here { result ≡ true → IsScreened self.new (clause_at clauses.now place) }
        ensures keeps { (other : List LiteralOf) → IsScreened self.old other
            → IsScreened self.new other }
        ensures exact { IsExact clauses.now self.old → IsExact clauses.now self.new }
    {
        if let Some(other) = other_at(standing, index, place) {
            if other.positive == self.sign {
                let exact = are_one(self.exact, standing.literal, self.own);
                return self.put_atom(other.atom, exact);
            }
        }
        self.put(clauses.get(place as usize))
    }

    // Puts a literal of the clause. The answer is false if it has none.
    fn put(&mut self, clause: &[Literal]) -> bool
        ensures here { result ≡ true → IsScreened self.new clause.now }
        ensures keeps { (other : List LiteralOf) → IsScreened self.old other
            → IsScreened self.new other }
        ensures exact { (clauses : List (List LiteralOf)) (c : ℕ) → c < length clauses
            → clause_at clauses c ≡ clause.now → IsExact clauses self.old
            → IsExact clauses self.new }
    {
        match atom_beside(clause, self.sign, self.own.atom) {
            None => false,
            Some(atom) => {
                let other = Literal {
                    atom,
                    positive: self.sign,
                };
                let exact = are_all(self.exact, clause, self.own, other);
                self.put_atom(atom, exact)
            }
        }
    }

    // Puts the literal of this atom, and makes the screen exact or not. The answer is false if
    // there is no such flag.
    fn put_atom(&mut self, atom: u32, exact: bool) -> bool
        ensures here { result ≡ true → (clause : List LiteralOf)
            → Contains clause (record { atom = atom; positive = self.old.sign })
            → IsScreened self.new clause }
        ensures keeps { (other : List LiteralOf) → IsScreened self.old other
            → IsScreened self.new other }
        ensures exact { (clauses : List (List LiteralOf)) (c : ℕ) → c < length clauses
            → (exact ≡ true → self.old.exact ≡ true)
            → (exact ≡ true → All (IsEither self.old.own
            (record { atom = atom; positive = self.old.sign })) (clause_at clauses c))
            → IsExact clauses self.old → IsExact clauses self.new }
    {
        if atom >= self.flags.atoms() {
            return false;
        }
        self.exact = exact;
        self.flags.set(atom, self.sign);
        true
    }

    /// Whether the clauses are true in the state, if the literals tell: all of them, or one isn't.
    pub(crate) fn decides(&self, state: &State) -> Option<bool>
        ensures { IfSome result (λ yes. IsDecidedAs yes self.now state.now) }
    {
        if self.flags.atoms() != state.atoms() {
            return None;
        }
        if agrees(&self.flags, self.sign, state) {
            return Some(true);
        }
        if self.exact && is_false_in(self.own, state) {
            return Some(false);
        }
        None
    }
}

// From an index of a row on, that of the first place which isn't less than this one.
fn index_from(places: &[usize], from: usize, place: usize) -> usize {
    for index in from..places.len() {
        if places[index] >= place {
            return index;
        }
    }
    places.len()
}

// The other literal of the clause at a place, if it is at this index of a row that tells it.
fn other_at(standing: &Standing<'_>, index: usize, place: u32) -> Option<Literal>
    ensures { (clauses : List (List LiteralOf)) → AreStanding clauses standing.now
        → IfSome result (IsPair (clause_at clauses place) standing.now.literal) }
{
    if index >= standing.places.len() || standing.places[index] != place as usize {
        return None;
    }
    partners::literal_at(standing.entries, index)
}

// Flags of which none is this sign.
fn flags_without(alloc: Global, sign: bool, full: &State) -> Result<State, AllocError>
    requires { HoldsAll full.now }
    ensures { IfOk result (λ flags. (q : ℕ) → q < length flags → has_atom flags q ≡ not sign) }
{
    let mut flags = State::empty(alloc, full.atoms())?;
    if sign {
        return Ok(flags);
    }
    flags.copy_from(full);
    Ok(flags)
}

// Whether each atom of which the flag is this sign is of this sign in the state.
fn agrees(flags: &State, sign: bool, state: &State) -> bool
    requires { length flags.now ≡ length state.now }
    ensures all { result ≡ true → (q : ℕ) → q < length state.now → has_atom flags.now q ≡ sign
        → has_atom state.now q ≡ sign }
    ensures one { result ≡ false → (q : ℕ) × (q < length state.now)
        × (has_atom flags.now q ≡ sign) × (has_atom state.now q ≡ not sign) }
{
    if sign {
        flags.next_outside(state, 0).is_none()
    } else {
        state.next_outside(flags, 0).is_none()
    }
}

// Whether a screen of so many atoms takes little room beside so many clauses.
pub(crate) fn pays(atoms: u32, clauses: usize) -> bool {
    atoms as usize / 64 / WORDS < clauses
}

// Whether this holds, and the clause has no literal but these two.
fn are_all(holds: bool, clause: &[Literal], first: Literal, second: Literal) -> bool
    ensures holds { result ≡ true → holds ≡ true }
    ensures all { result ≡ true → All (IsEither first second) clause.now }
{
    if !holds {
        return false;
    }
    for literal in clause {
        if *literal != first && *literal != second {
            return false;
        }
    }
    true
}

// Whether this holds, and the two literals are one.
fn are_one(holds: bool, first: Literal, second: Literal) -> bool
    ensures holds { result ≡ true → holds ≡ true }
    ensures one { result ≡ true → first ≡ second }
{
    holds && first == second
}

// Whether the literal is false in the state, which has its atom.
fn is_false_in(literal: Literal, state: &State) -> bool
    ensures { result ≡ true → in_literal literal state.now ≡ false }
{
    literal.atom < state.atoms() && !literal.is_true_in(state)
}

// The atom of a literal of this sign in the clause, but not this atom.
fn atom_beside(clause: &[Literal], sign: bool, own: u32) -> Option<u32>
    ensures { IfSome result
        (λ atom. Contains clause.now (record { atom = atom; positive = sign })) }
{
    for at in 0..clause.len() {
        let literal = clause[at];
        if literal.positive == sign && literal.atom != own {
            return Some(literal.atom);
        }
    }
    None
}

//! Whether a listed state is in a formula, by where its literals stand.
//!
//! Nothing is put in order for it: the clauses without a negative literal are tried, and those with
//! the negative literal of an atom that the state holds. Under one atom these may be many, so this
//! serves for the first states alone, until so many clauses were tried that it had cost less to
//! put them in order (`mates` of hv_indexes).

ghost use Rattle.std.specs.Prelude.{◌≡◌, ◌<◌, ◌≤◌, ◌+◌, ℕ, IfOk, OnOk, length, slice_index};
ghost use Rattle.std.specs.Prelude.{true, false};
ghost use Rattle.std.specs.List.{Contains};
ghost use Rattle.hv_task.specs.State.{AreBelow, state_of};
ghost use Rattle.hv_sets.specs.declared.literal.Literal.{Literal as LiteralOf};
ghost use Rattle.hv_sets.specs.Truth.{in_clause, in_clauses};
ghost use Rattle.hv_propagation.specs.Clauses.{AreClauses};
ghost use Rattle.hv_indexes.specs.Places.{clause_at};
ghost use Rattle.hv_formula.specs.Positive.{ArePositive};
ghost use Rattle.hv_indexes.specs.Mates.{AreTried};
ghost use Rattle.hv_indexes.specs.Occurrences.{AreStanding, IsIndexOf};
ghost use Rattle.hv_indexes.specs.Signed.{StandsAs};

use hv_indexes::{Standing, clusters, partners};
use hv_propagation::BareClauses;
use hv_sets::{Clauses, Literal};
use hv_task::State;
use std::alloc::{AllocError, Global};

// To put a clause in order costs as much as to try so many.
const TRIED: usize = 8;

/// The clauses without a negative literal, once they are listed, and how many clauses were tried.
#[derive(Drop)]
pub(crate) struct FirstStates {
    pub listed: bool,
    pub positive: Vec<u32>,
    pub tried: usize,
}

impl FirstStates {
    // Nothing is listed, and none was tried.
    pub(crate) fn new(alloc: Global) -> FirstStates
        ensures { result.listed ≡ false }
    {
        FirstStates {
            listed: false,
            positive: Vec::new(alloc),
            tried: 0,
        }
    }

    // Whether fewer clauses were tried than pay for an order.
    pub(crate) fn are_few(&self, clauses: &Clauses) -> bool {
        self.tried / TRIED <= clauses.len()
    }

    // Lists the clauses without a negative literal, unless they are listed.
    fn list(&mut self, alloc: Global, clauses: &Clauses) -> Result<(), AllocError>
        requires { self.old.listed ≡ true
            → ArePositive clauses.now (length clauses.now) self.old.positive.items }
        ensures { OnOk result
            (ArePositive clauses.now (length clauses.now) self.new.positive.items) }
    {
        if self.listed {
            return Ok(());
        }
        self.positive = positive_of(alloc, clauses)?;
        self.listed = true;
        Ok(())
    }

    // Whether the state, which holds just these atoms, has all clauses true.
    pub(crate) fn hold(
        &mut self,
        alloc: Global,
        bare: &BareClauses<'_>,
        held: &[u32],
        state: &State,
    ) -> Result<bool, AllocError>
        requires clauses { AreClauses (length state.now) bare.now.clauses.now }
        requires index { IsIndexOf bare.now.clauses.now bare.now.occurs.now }
        requires listed { self.old.listed ≡ true
            → ArePositive bare.now.clauses.now (length bare.now.clauses.now)
            self.old.positive.items }
        requires below { AreBelow (length state.now) held.now }
        requires state { state.now ≡ state_of (length state.now) held.now }
        ensures holds { IfOk result (λ yes. yes ≡ in_clauses bare.now.clauses.now state.now) }
        ensures listed { OnOk result (self.new.listed ≡ true
            → ArePositive bare.now.clauses.now (length bare.now.clauses.now)
            self.new.positive.items) }
    {
        self.list(alloc, bare.clauses)?;
        let positive = self.positive.as_slice();
        self.tried = self.tried.saturating_add(positive.len());
        if !clusters::are_true(bare.clauses, positive, state) {
            return Ok(false);
        }
        Ok(are_true_under(bare, held, state, &mut self.tried))
    }
}

// The places of the clauses without a negative literal. More than 4,294,967,295 clauses are taken
// as out of memory; a line has fewer than 8,388,608.
fn positive_of(alloc: Global, clauses: &Clauses) -> Result<Vec<u32>, AllocError>
    ensures { IfOk result (λ places. ArePositive clauses.now (length clauses.now) places.items) }
{
    if clauses.len() > u32::MAX as usize {
        return Err(AllocError);
    }
    let mut places = Vec::new(alloc);
    for place in 0..clauses.len() {
        put_positive(&mut places, clauses, place)?;
    }
    Ok(places)
}

// Puts the place of a clause last, if that has no negative literal.
fn put_positive(places: &mut Vec<u32>, clauses: &Clauses, place: usize) -> Result<(), AllocError>
    requires few { length clauses.now ≤ 4294967295 }
    requires place { place < length clauses.now }
    requires positive { ArePositive clauses.now place places.old.items }
    ensures { OnOk result (ArePositive clauses.now (place + 1) places.new.items) }
{
    if has_negative(clauses.get(place)) {
        return Ok(());
    }
    places.push(place as u32)?;
    Ok(())
}

// Whether the clause has a negative literal.
fn has_negative(clause: &[Literal]) -> bool
    ensures { result ≡ true → (l : LiteralOf) × Contains clause.now l × (l.positive ≡ false) }
{
    for literal in clause {
        if !literal.positive {
            return true;
        }
    }
    false
}

// Whether the clauses are true that have the negative literal of one of these atoms. Adds how many
// were tried.
fn are_true_under(bare: &BareClauses<'_>, held: &[u32], state: &State, tried: &mut usize) -> bool
    requires clauses { AreClauses (length state.now) bare.now.clauses.now }
    requires index { IsIndexOf bare.now.clauses.now bare.now.occurs.now }
    ensures { AreTried result bare.now.clauses.now
        (λ c. (p : ℕ) × Contains held.now p × StandsAs false bare.now.clauses.now p c) state.now }
{
    for at in 0..held.len() {
        if !are_true_with(bare, held[at], state, tried) {
            return false;
        }
    }
    true
}

// Whether the clauses are true that have the negative literal of an atom. Adds how many there are.
fn are_true_with(bare: &BareClauses<'_>, atom: u32, state: &State, tried: &mut usize) -> bool
    requires clauses { AreClauses (length state.now) bare.now.clauses.now }
    requires index { IsIndexOf bare.now.clauses.now bare.now.occurs.now }
    ensures { AreTried result bare.now.clauses.now (StandsAs false bare.now.clauses.now atom)
        state.now }
{
    let own = Literal {
        atom,
        positive: false,
    };
    let standing = bare.occurs.standing(own);
    *tried = tried.saturating_add(standing.places.len());
    are_true_at(bare.clauses, &standing, state)
}

// Whether the clauses are true that have a literal.
fn are_true_at(clauses: &Clauses, standing: &Standing<'_>, state: &State) -> bool
    requires clauses { AreClauses (length state.now) clauses.now }
    requires standing { AreStanding clauses.now standing.now }
    ensures { AreTried result clauses.now (Contains standing.now.places.now) state.now }
{
    for index in 0..standing.places.len() {
        if !is_true_at(clauses, standing, index, state) {
            return false;
        }
    }
    true
}

// Whether one of these clauses is true. Of two literals the other one mostly is: what that is tells
// the list, without a look into the clause.
fn is_true_at(clauses: &Clauses, standing: &Standing<'_>, index: usize, state: &State) -> bool
    requires clauses { AreClauses (length state.now) clauses.now }
    requires standing { AreStanding clauses.now standing.now }
    requires index { index < length standing.now.places.now }
    ensures { result ≡ in_clause
        (clause_at clauses.now (slice_index standing.now.places.now index)) state.now }
{
    if let Some(other) = partners::literal_at(standing.entries, index) {
        if other.is_true_in(state) {
            return true;
        }
    }
    clusters::is_true_in(clauses.get(standing.places[index]), state)
}

//! Whether a listed state is in a formula, by the atoms that it holds.
//!
//! It is worked out once, after some states were tried without it. Each clause is put under one of
//! its literals, and is tried where that is false. So a state costs the atoms that it holds, or the
//! negative literals under which there are clauses if these are fewer; the positive ones; and the
//! clauses whose own literal is false, each of them once: never more than to try all.

ghost use Rattle.std.specs.Prelude.{◌≡◌, ◌<◌, ◌≤◌, [], IfOk, length};
ghost use Rattle.std.specs.List.{All};
ghost use Rattle.hv_task.specs.State.{AreBelow, state_of};
ghost use Rattle.hv_sets.specs.Cubes.{SpeakBelow};
ghost use Rattle.hv_sets.specs.Truth.{in_clauses};
ghost use Rattle.hv_indexes.specs.Mates.{AreMates};
ghost use Rattle.hv_indexes.specs.Working.Mates.{ArePut};
ghost use Rattle.hv_indexes.specs.Occurrences.{IsIndexOf};

use crate::clusters::{self, Clusters};
use crate::occurrences::Occurrences;
use crate::put_clauses::PutClauses;
use hv_sets::Clauses;
use hv_task::State;
use std::alloc::{AllocError, Global};

/// What is tried of a formula for a listed state. Each clause is put under one of its literals, and
/// is tried where that is false: under a negative one, if there is one. Those without literals are
/// tried for each state.
#[derive(Drop)]
pub struct Mates {
    negative: Clusters,
    positive: Clusters,
    others: Vec<u32>,
}

impl Mates {
    /// Those of no clauses.
    pub fn none(alloc: Global) -> Mates
        ensures { AreMates [] result }
    {
        Mates {
            negative: Clusters::none(alloc),
            positive: Clusters::none(alloc),
            others: Vec::new(alloc),
        }
    }

    /// Those of these clauses. How many atoms are told decides alone where flags for each of them
    /// pay, and changes no answer. More than 4,294,967,295 clauses are taken as out of memory; a
    /// line has fewer than 8,388,608.
    pub fn of(
        alloc: Global,
        atoms: u32,
        clauses: &Clauses,
        occurs: &Occurrences,
    ) -> Result<Mates, AllocError>
        requires { IsIndexOf clauses.now occurs.now }
        ensures { IfOk result (AreMates clauses.now) }
    {
        let put = put_all(alloc, clauses, occurs)?;
        let negative = Clusters::of(alloc, atoms, false, clauses, occurs, put.negative)?;
        let positive = Clusters::of(alloc, atoms, true, clauses, occurs, put.positive)?;
        Ok(Mates {
            negative,
            positive,
            others: put.others,
        })
    }

    /// Whether the state, which holds just these atoms, is in the formula of the clauses.
    pub fn holds(&self, clauses: &Clauses, held: &[u32], state: &State) -> bool
        requires clauses { All (SpeakBelow (length state.now)) clauses.now }
        requires mates { AreMates clauses.now self.now }
        requires below { AreBelow (length state.now) held.now }
        requires state { state.now ≡ state_of (length state.now) held.now }
        ensures { result ≡ in_clauses clauses.now state.now }
    {
        if !clusters::are_true(clauses, self.others.as_slice(), state) {
            return false;
        }
        if !self.negative.are_true_under(clauses, held, state) {
            return false;
        }
        self.positive.are_true(true, clauses, state)
    }
}

// Puts each clause under one of its literals.
fn put_all(alloc: Global, clauses: &Clauses, occurs: &Occurrences) -> Result<PutClauses, AllocError>
    requires { IsIndexOf clauses.now occurs.now }
    ensures put { IfOk result (ArePut clauses.now (length clauses.now)) }
    ensures few { IfOk result (λ _. length clauses.now ≤ 4294967295) }
{
    if clauses.len() > u32::MAX as usize {
        return Err(AllocError);
    }
    let mut put = PutClauses::none(alloc);
    for place in 0..clauses.len() {
        put.put(clauses, occurs, place)?;
    }
    Ok(put)
}

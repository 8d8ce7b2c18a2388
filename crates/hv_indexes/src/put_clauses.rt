//! The literals under which clauses are put, to be tried only where these are false.

ghost use Rattle.std.specs.Prelude.{◌≡◌, ◌<◌, ◌≤◌, ◌+◌, List, [], IfSome, OnOk, length};
ghost use Rattle.std.specs.List.{Contains};
ghost use Rattle.hv_sets.specs.declared.literal.Literal.{Literal};
ghost use Rattle.hv_indexes.specs.Working.Mates.{ArePut};
ghost use Rattle.hv_indexes.specs.Occurrences.{IsIndexOf};

use crate::occurrences::Occurrences;
use crate::rows;
use hv_sets::{Clauses, Literal};
use std::alloc::{AllocError, Global};

/// The codes of the atoms and the places of clauses that are put under a literal: of those under a
/// negative one, and of those under a positive one; and the places of the others.
#[derive(Drop)]
pub(crate) struct PutClauses {
    pub negative: Vec<usize>,
    pub positive: Vec<usize>,
    pub others: Vec<u32>,
}

impl PutClauses {
    // Those of no clauses.
    pub(crate) fn none(alloc: Global) -> PutClauses
        ensures negative { result.negative.items ≡ [] }
        ensures positive { result.positive.items ≡ [] }
        ensures others { result.others.items ≡ [] }
    {
        PutClauses {
            negative: Vec::new(alloc),
            positive: Vec::new(alloc),
            others: Vec::new(alloc),
        }
    }

    // Puts the clause at a place under one of its literals.
    pub(crate) fn put(
        &mut self,
        clauses: &Clauses,
        occurs: &Occurrences,
        place: usize,
    ) -> Result<(), AllocError>
        requires place { place < length clauses.now }
        requires few { length clauses.now ≤ 4294967295 }
        requires occurs { IsIndexOf clauses.now occurs.now }
        requires put { ArePut clauses.now place self.old }
        ensures { OnOk result (ArePut clauses.now (place + 1) self.new) }
    {
        let Some(own) = lightest(clauses.get(place), occurs) else {
            self.others.push(place as u32)?;
            return Ok(());
        };
        let code = rows::code_of(own.atom, place as u32);
        if own.positive {
            self.positive.push(code)?;
            return Ok(());
        }
        self.negative.push(code)?;
        Ok(())
    }
}

// The literal under which a clause is put, if it has one: a negative one that is in few clauses,
// or, where it has none, a positive one that is in many. The first one of a clause is kept unless
// another one is better by half, so that the clauses stay in order.
fn lightest(clause: &[Literal], occurs: &Occurrences) -> Option<Literal>
    requires { (clauses : List (List Literal)) × IsIndexOf clauses occurs.now }
    ensures { IfSome result (λ literal. Contains clause.now literal) }
{
    let mut found: Option<Literal> = None;
    let mut count = 0;
    for at in 0..clause.len() {
        let literal = clause[at];
        let standing = count_of(literal, occurs);
        if is_better(found, count, literal, standing) {
            found = Some(literal);
            count = standing;
        }
    }
    found
}

// In how many clauses the literal is.
fn count_of(literal: Literal, occurs: &Occurrences) -> usize
    requires { (clauses : List (List Literal)) × IsIndexOf clauses occurs.now }
{
    occurs.standing(literal).places.len()
}

// Whether a literal that is in so many clauses is better than the one found, which is in so many.
fn is_better(found: Option<Literal>, count: usize, literal: Literal, standing: usize) -> bool {
    match found {
        None => true,
        Some(found) if found.positive != literal.positive => found.positive,
        Some(_) if literal.positive => standing / 2 > count,
        Some(_) => standing < count / 2,
    }
}

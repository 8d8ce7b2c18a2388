//! The walk over the states outside a formula, clause by clause, that says what stays. The step at
//! a tautology has no cube.

ghost use Rattle.std.specs.Prelude.{◌≡◌, ◌<◌, ◌≤◌, Bool, List, not, drop, length, take, OnOk};
ghost use Rattle.std.specs.Prelude.{IfOk};
ghost use Rattle.hv_sets.specs.Cubes.{SpeakBelow};
ghost use Rattle.hv_sets.specs.Walks.{in_cubes, IsStateOf};
ghost use Rattle.hv_formula.specs.Clausal.{in_formula};
ghost use Rattle.hv_indexes.specs.Orders.{OrdersUpto, place_in};
ghost use Rattle.hv_formula.specs.Walked.{opposed_in};
ghost use Rattle.hv_formula.specs.Working.Walked.{denial_for, denied_along};

use crate::clause_kind::ClauseKind;
use crate::formula::Formula;
use hv_indexes::{LiteralOrder, ranking};
use hv_paths::{WalkStop, Walker};
use hv_sets::Literal;
use std::alloc::{AllocError, Global};

/// The walk over the clauses of a formula. The cube of each has the opposites of its literals, in
/// the order of the walk, and the clauses come by those literals that come first, and then in the
/// order of their first two others.
#[derive(Drop)]
pub struct ClauseWalk<'a, K: ClauseKind> {
    set: &'a Formula<K>,
    literal_order: LiteralOrder<'a>,
    // The codes of the places of the clauses, and how many clauses were taken.
    order: Vec<usize>,
    taken: usize,
    // The cube of the last one, and the codes of the places of its literals.
    literals: Vec<Literal>,
    codes: Vec<usize>,
}

impl<'a, K: ClauseKind> ClauseWalk<'a, K> {
    /// The walk before its first step. More than 268,435,456 clauses are answered as want of
    /// memory.
    #[tactic(auto, using(crate::proofs::Ordering::ordered_are))]
    pub(crate) fn new(
        alloc: Global,
        set: &'a Formula<K>,
        places: Option<&'a [u32]>,
    ) -> Result<ClauseWalk<'a, K>, AllocError>
        ensures stands { IfOk result (λ walk. ⟦<ClauseWalk<'a, K> as Walker>⟧.stands walk) }
        ensures atoms { IfOk result
            (λ walk. ⟦<ClauseWalk<'a, K> as Walker>⟧.atoms walk ≡ set.now.atoms) }
        ensures all { IfOk result (λ walk. (s : List Bool) → IsStateOf set.now.atoms s
            → in_cubes (⟦<ClauseWalk<'a, K> as Walker>⟧.left walk) s ≡ not (in_formula set.now s)) }
    {
        let clauses = set.clauses();
        let literal_order = LiteralOrder::new(alloc, clauses.len(), set.occurs(), places)?;
        let order = ranking::of_clauses(alloc, clauses, &literal_order)?;
        Ok(ClauseWalk {
            set,
            literal_order,
            order,
            taken: 0,
            literals: Vec::new(alloc),
            codes: Vec::new(alloc),
        })
    }
}

impl<'a, K: ClauseKind> Walker for ClauseWalk<'a, K> {
    ghost atoms = { λ w. w.set.now.atoms };

    ghost stands = { λ w. SpeakBelow w.set.now.atoms w.literals.items
        × OrdersUpto (length w.set.now.clauses) w.order.items };

    ghost path = { λ w. w.literals.items };

    ghost left = { λ w. drop w.taken (opposed_in w.set.now.clauses w.order.items) };

    fn advance(&mut self) -> Result<Option<usize>, AllocError> {
        let clauses = self.set.clauses();
        if self.taken >= self.order.len() {
            return Ok(None);
        }
        let code = self.order[self.taken];
        let clause = clauses.get(ranking::place_of(code));
        ranking::of_literals(&mut self.codes, clause, &self.literal_order)?;
        let codes = self.codes.as_slice();
        let kept = common(self.literals.as_slice(), clause, codes);
        self.literals.truncate(kept);
        put_rest(&mut self.literals, clause, codes, kept)?;
        self.taken += 1;
        Ok(Some(kept))
    }

    fn stop(&self) -> WalkStop<'_> {
        WalkStop::Cube(self.literals.as_slice())
    }
}

// The opposite of the literal for which the code stands.
fn denial_at(clause: &[Literal], code: usize) -> Literal
    requires { place_in code < length clause.now }
    ensures { result ≡ denial_for clause.now code }
{
    let literal = clause[ranking::place_of(code)];
    Literal {
        atom: literal.atom,
        positive: !literal.positive,
    }
}

// With how many of the literals the denial of the clause in the order of the codes begins.
fn common(literals: &[Literal], clause: &[Literal], codes: &[usize]) -> usize
    requires { OrdersUpto (length clause.now) codes.now }
    ensures room { result ≤ length literals.now }
    ensures within { result ≤ length codes.now }
    ensures same { take result literals.now ≡ take result (denied_along clause.now codes.now) }
{
    let most = literals.len().min(codes.len());
    for place in 0..most {
        if literals[place] != denial_at(clause, codes[place]) {
            return place;
        }
    }
    most
}

// Puts the other literals of that denial behind the first.
fn put_rest(
    literals: &mut Vec<Literal>,
    clause: &[Literal],
    codes: &[usize],
    kept: usize,
) -> Result<(), AllocError>
    requires codes { OrdersUpto (length clause.now) codes.now }
    requires within { kept ≤ length codes.now }
    requires front { literals.old.items ≡ take kept (denied_along clause.now codes.now) }
    ensures { OnOk result (literals.new.items ≡ denied_along clause.now codes.now) }
{
    for place in kept..codes.len() {
        literals.push(denial_at(clause, codes[place]))?;
    }
    Ok(())
}

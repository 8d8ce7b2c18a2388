//! Clauses of one or two literals, to be asked of one state after another.
//!
//! A state is written down as the truth of each literal, and a clause as the places of its
//! literals, so a clause takes a few instructions a state.

ghost use Rattle.std.specs.Prelude.{◌≡◌, ◌≤◌, ◌<◌, ◌&&◌, [], ℕ, List, length, true, false, IfOk};
ghost use Rattle.std.specs.Prelude.{IfSome, slice_index_or};
ghost use Rattle.std.specs.List.{list_all};
ghost use Rattle.hv_sets.specs.Cubes.{SpeakBelow};
ghost use Rattle.hv_sets.specs.Truth.{in_clause, in_clauses};
ghost use Rattle.hv_sets.specs.declared.literal.Literal.{Literal};
ghost use Rattle.hv_propagation.specs.Clauses.{AreClauses};
ghost use Rattle.hv_trap.specs.declared.quick.LiteralPair.{LiteralPair};
ghost use Rattle.hv_trap.specs.Working.Quick.{ArePairs, AreTruths, IsPlacedPair};
ghost use Rattle.hv_trap.specs.Working.Quick.{is_true_by, truth_place};

use hv_sets::{Clauses, Literal};
use hv_task::State;
use std::alloc::{AllocError, Global};

/// The places of the literals of a clause among the truths. A clause of one literal has it twice.
#[derive(Clone, Copy)]
pub(crate) struct LiteralPair {
    first: u8,
    second: u8,
}

/// The clauses, and the truth of each literal in the state that was asked about last.
#[derive(Drop)]
pub(crate) struct QuickClauses {
    pairs: Vec<LiteralPair>,
    truths: [bool; 256],
}

impl QuickClauses {
    /// No clauses.
    pub(crate) fn new(alloc: Global) -> QuickClauses {
        QuickClauses {
            pairs: Vec::new(alloc),
            truths: [false; 256],
        }
    }

    /// Makes them these clauses, if each has one or two literals. The answer is whether each has.
    pub(crate) fn set(&mut self, clauses: &Clauses) -> Result<bool, AllocError>
        requires { AreClauses 64 clauses.now }
        ensures { IfOk result (λ short. short ≡ true → (bound : ℕ) → AreClauses bound clauses.now
            → ArePairs bound clauses.now self.new.pairs.items) }
    {
        self.pairs.clear();
        for place in 0..clauses.len() {
            let Some(pair) = pair_of(clauses.get(place)) else {
                return Ok(false);
            };
            self.pairs.push(pair)?;
        }
        Ok(true)
    }

    /// Whether all are true in the state.
    pub(crate) fn are_true_in(&mut self, state: &State) -> bool
        requires { length state.now ≤ 64 }
        ensures pairs { self.new.pairs.items ≡ self.old.pairs.items }
        ensures told { (clauses : List (List Literal))
            → ArePairs (length state.now) clauses self.old.pairs.items
            → result ≡ in_clauses clauses state.now }
    {
        fill(&mut self.truths, state);
        are_all_true(self.pairs.as_slice(), &self.truths)
    }

    /// Marks those that are false in the state as no longer left.
    pub(crate) fn mark_false(&mut self, left: &mut Vec<bool>, state: &State)
        requires few { length state.now ≤ 64 }
        requires marks { length left.old.items ≡ length self.old.pairs.items }
        ensures pairs { self.new.pairs.items ≡ self.old.pairs.items }
        ensures marks { length left.new.items ≡ length left.old.items }
        ensures left { (clauses : List (List Literal))
            → ArePairs (length state.now) clauses self.old.pairs.items
            → (k : ℕ) → k < length clauses → slice_index_or left.new.items k false
            ≡ (slice_index_or left.old.items k false
            && in_clause (slice_index_or clauses k []) state.now) }
    {
        fill(&mut self.truths, state);
        mark_all_false(left, self.pairs.as_slice(), &self.truths);
    }
}

// The places of the literals of the clause, if it has one or two.
fn pair_of(clause: &[Literal]) -> Option<LiteralPair>
    requires { SpeakBelow 64 clause.now }
    ensures { IfSome result (λ pair. (bound : ℕ) → SpeakBelow bound clause.now
        → IsPlacedPair bound clause.now pair) }
{
    let count = clause.len();
    if count == 0 || count > 2 {
        return None;
    }
    let first = truth_place_of(clause[0]);
    let second = truth_place_of(clause[count - 1]);
    Some(LiteralPair { first, second })
}

// The place of the literal among the truths.
fn truth_place_of(literal: Literal) -> u8
    requires { literal.atom < 64 }
    ensures { result ≡ truth_place literal }
{
    if literal.positive {
        literal.atom as u8 + 64
    } else {
        literal.atom as u8
    }
}

// Writes down the truth of each literal in the state.
fn fill(truths: &mut [bool; 256], state: &State)
    requires { length state.now ≤ 64 }
    ensures { AreTruths state.now truths.new }
{
    for atom in 0..state.atoms() {
        let holds = state.has(atom);
        truths[atom as usize] = !holds;
        truths[atom as usize + 64] = holds;
    }
}

// Whether all are true by the truths.
fn are_all_true(pairs: &[LiteralPair], truths: &[bool; 256]) -> bool
    ensures { result ≡ list_all (is_true_by truths.now) pairs.now }
{
    pairs.iter().all(|pair| is_true(*pair, truths))
}

// Marks those that are false by the truths.
fn mark_all_false(left: &mut Vec<bool>, pairs: &[LiteralPair], truths: &[bool; 256])
    requires { length left.old.items ≡ length pairs.now }
    ensures marks { length left.new.items ≡ length left.old.items }
    ensures left { (k : ℕ) (other : LiteralPair) → k < length left.old.items
        → slice_index_or left.new.items k false ≡ (slice_index_or left.old.items k false
        && is_true_by truths.now (slice_index_or pairs.now k other)) }
{
    for place in 0..pairs.len() {
        let stays = stays_by(left[place], pairs[place], truths);
        left[place] = stays;
    }
}

// Whether the clause is left, and true by the truths.
fn stays_by(left: bool, pair: LiteralPair, truths: &[bool; 256]) -> bool
    ensures { result ≡ (left && is_true_by truths.now pair) }
{
    left && is_true(pair, truths)
}

// Whether the clause is true by the truths.
fn is_true(pair: LiteralPair, truths: &[bool; 256]) -> bool
    ensures { result ≡ is_true_by truths.now pair }
{
    truths[usize::from(pair.first)] || truths[usize::from(pair.second)]
}

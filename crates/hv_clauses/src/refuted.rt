//! Choices of clauses of which it can be said at once that no state fits them: the clause is known
//! to be true, or its set is a positive operand at the other time and the effect turns no literal
//! of it.

ghost use Rattle.std.specs.Prelude.{◌≡◌, ◌<◌, ◌≤◌, ◌+◌, [], ℕ, Some, true, false, not, length};
ghost use Rattle.std.specs.Prelude.{slice_get, List, Bool, IfSome};
ghost use Rattle.std.specs.List.{All, Contains};
ghost use Rattle.std.specs.List.Sorted.{IsStrictlyIncreasing};
ghost use Rattle.hv_task.specs.Working.AtomList.{IsFirstFrom};
ghost use Rattle.hv_sets.specs.declared.literal.Literal.{Literal as LiteralOf};
ghost use Rattle.hv_clauses.specs.Working.Affected.{IsTurnedBy, turning_sign};
ghost use Rattle.hv_indexes.specs.Occurrences.{IsIndexOf};
ghost use Rattle.hv_sets.specs.declared.operand.Operand.{Operand as OperandOf};
ghost use Rattle.hv_sets.specs.declared.operand.Which.TheVariants as W;
ghost use Rattle.hv_clauses.specs.Working.Found.{IsSole, IsAskedTwice};
ghost use Rattle.hv_propagation.specs.Marks.{Agrees};
ghost use Rattle.hv_clauses.specs.Working.Posed.{InEach, choices, size_in, width};
ghost use Rattle.hv_clauses.specs.Working.Problem.{MissesAll, MissesClause};
ghost use Rattle.hv_propagation.specs.Trail.{marks_of};
ghost use Rattle.hv_propagation.specs.Units.{value_of};

use crate::affected;
use crate::problem::Problem;
use hv_formula::ClauseKind;
use hv_indexes::Occurrences;
use hv_propagation::{ActionEffect, Assignment, literals};
use hv_sets::{Literal, Operand, Which};

// A clause of at most so many literals is short.
const SHORT: usize = 16;

// To look for where a literal stands costs as much as to look into so many clauses.
const DEAR: usize = 4;

// The atoms of an effect of more aren't looked for: it may turn a literal of each clause, and they
// would be looked for after each.
const MOST: usize = 16;

// Whether a chosen clause is true in each state that agrees with what is known and is in each
// positive operand, as far as that shows without propagation.
pub(crate) fn is_refuted<K: ClauseKind>(
    problem: &Problem<'_, K>,
    number: u64,
    marks: &Assignment<'_>,
) -> bool
    requires { number < choices problem.now }
    ensures { result ≡ true → (state : List Bool) → length state ≡ width problem.now
        → Agrees (marks_of marks.now) state → InEach problem.now state
        → MissesAll problem.now number state → ⊥ }
{
    let mut rest = number;
    let negative = problem.negative();
    for operand in negative {
        let count = problem.count_of(operand.which);
        if is_clause_true(problem, *operand, rest % count, marks) {
            return true;
        }
        rest /= count;
    }
    false
}

// The same for the clause at a place of an operand: a literal of it is known to be true, or its set
// is a positive operand at the other time and the effect turns no literal of it against the
// operand. A long clause of a set that isn't asked about at the other time is not read here: it is
// marked as false next, and that finds a true literal, too.
pub(crate) fn is_clause_true<K: ClauseKind>(
    problem: &Problem<'_, K>,
    operand: Operand,
    place: u64,
    marks: &Assignment<'_>,
) -> bool
    requires { place < size_in problem.now operand.which }
    ensures { result ≡ true → (state : List Bool) → length state ≡ width problem.now
        → Agrees (marks_of marks.now) state → InEach problem.now state
        → MissesClause problem.now operand place state → ⊥ }
{
    let Which::Set(number) = operand.which else {
        return false;
    };
    let clause = problem.set(number).clauses().get(place as usize);
    let seen = problem.seen(operand.after);
    if clause.len() <= SHORT && literals::has_true(clause, &seen, marks) {
        return true;
    }
    if !problem.names(operand.which, !operand.after) {
        return false;
    }
    if clause.len() > SHORT && literals::has_true(clause, &seen, marks) {
        return true;
    }
    is_held(clause, problem.effect(), operand.after)
}

// Whether the effect turns no literal of the clause: none is made false by it where the clause is
// asked about after the action, and none true where it is asked about before.
fn is_held(clause: &[Literal], effect: &ActionEffect<'_>, after: bool) -> bool
    ensures { result ≡ true → All (λ l. value_of effect.now [] l ≡ Some (not after) → ⊥)
        clause.now }
{
    for literal in clause {
        if is_made(*literal, effect, !after) {
            return false;
        }
    }
    true
}

// Whether the effect makes a literal true, or false.
fn is_made(literal: Literal, effect: &ActionEffect<'_>, to: bool) -> bool
    ensures { result ≡ false → value_of effect.now [] literal ≡ Some to → ⊥ }
{
    match effect.read(literal.atom) {
        None => false,
        Some(value) => (value == literal.positive) == to,
    }
}

// How many clauses of an operand, from this place on, are true in each state that is in each
// positive operand, as far as the effect tells: where the set is a positive operand at the other
// time, these are the clauses up to the next one of which the effect turns a literal. Where few
// clauses are left, or the effect has more than 16 atoms, these aren't looked for.
pub(crate) fn held_from<K: ClauseKind>(
    problem: &Problem<'_, K>,
    operand: Operand,
    place: u64,
) -> u64
    requires { place < size_in problem.now operand.which }
    ensures within { place + result ≤ size_in problem.now operand.which }
    ensures held { (digit : ℕ) → place ≤ digit → digit < place + result → (state : List Bool)
        → InEach problem.now state → MissesClause problem.now operand digit state → ⊥ }
{
    let Which::Set(number) = operand.which else {
        return 0;
    };
    let set = problem.set(number);
    let count = set.clauses().len();
    let from = place as usize;
    let effect = problem.effect();
    if is_dear(effect, count.saturating_sub(from)) {
        return 0;
    }
    if !problem.names(operand.which, !operand.after) {
        return 0;
    }
    let occurs = set.occurs();
    let low = next_turned(occurs, effect, operand.after, false, from, count);
    let next = next_turned(occurs, effect, operand.after, true, from, low);
    (next - from) as u64
}

// Whether to look for what an effect turns costs more than to go through so many clauses.
fn is_dear(effect: &ActionEffect<'_>, clauses: usize) -> bool {
    let atoms = effect
        .turned(false)
        .len()
        .saturating_add(effect.turned(true).len());
    atoms > MOST || atoms.saturating_mul(DEAR) >= clauses
}

// The first clause from this place on of which the effect turns a literal whose atom it makes this
// value; or else the end.
fn next_turned(
    occurs: &Occurrences,
    effect: &ActionEffect<'_>,
    after: bool,
    value: bool,
    from: usize,
    end: usize,
) -> usize
    requires index { (clauses : List (List LiteralOf)) × IsIndexOf clauses occurs.now }
    requires from { from ≤ end }
    ensures from { from ≤ result }
    ensures end { result ≤ end }
    ensures apart { (clauses : List (List LiteralOf)) → IsIndexOf clauses occurs.now
        → (place : ℕ) → from ≤ place → place < result
        → IsTurnedBy effect.now value (turning_sign after value) clauses place → ⊥ }
{
    let sign = affected::turning_sign(after, value);
    let turned = effect.turned(value);
    let mut next = end;
    for atom in turned {
        let own = Literal {
            atom: *atom,
            positive: sign,
        };
        let standing = occurs.standing(own);
        next = first_from(standing.places, from, next);
    }
    next
}

// The first of rising numbers from this one on, if it is below the end, and else the end.
fn first_from(places: &[usize], from: usize, end: usize) -> usize
    requires rises { IsStrictlyIncreasing places.now }
    requires from { from ≤ end }
    ensures from { from ≤ result }
    ensures end { result ≤ end }
    ensures before { (n : ℕ) → Contains places.now n → from ≤ n → n < result → ⊥ }
{
    let at = place_from(places, from);
    if at >= places.len() {
        return end;
    }
    end.min(places[at])
}

// Where rising numbers begin to be at least this one.
fn place_from(places: &[usize], from: usize) -> usize
    requires { IsStrictlyIncreasing places.now }
    ensures { IsFirstFrom places.now from result }
{
    match places.binary_search(&from) {
        Ok(place) => place,
        Err(place) => place,
    }
}

// The one negative operand, but for the empty set, if it is a set of the store that is a positive
// operand at the other time.
pub(crate) fn asked_twice<K: ClauseKind>(problem: &Problem<'_, K>) -> Option<Operand>
    ensures { IfSome result (IsAskedTwice problem.now) }
{
    let operand = sole(problem.negative())?;
    let Which::Set(_) = operand.which else {
        return None;
    };
    if !problem.names(operand.which, !operand.after) {
        return None;
    }
    Some(operand)
}

// The one operand that isn't the empty set, if there is just one.
fn sole(operands: &[Operand]) -> Option<Operand>
    ensures { IfSome result (λ operand. IsSole operand operands.now) }
{
    let place = first_filled(operands, 0);
    let operand = *operands.get(place)?;
    if first_filled(operands, place + 1) < operands.len() {
        return None;
    }
    Some(operand)
}

// The first place from here on of an operand that isn't the empty set, or the length.
fn first_filled(operands: &[Operand], from: usize) -> usize
    requires { from ≤ length operands.now }
    ensures within { result ≤ length operands.now }
    ensures empty { (k : ℕ) (o : OperandOf) → from ≤ k → k < result
        → slice_get operands.now k ≡ Some o → o.which ≡ W.Empty }
{
    for place in from..operands.len() {
        match operands[place].which {
            Which::Empty => {}
            _ => return place,
        }
    }
    operands.len()
}

//! Choices of one clause of each negative operand, gone through from the last operand to the first:
//! where no state fits the clauses chosen of the last operands, all choices with these are left
//! out.
//!
//! The choices are the numbers below the query's cost: the digits of a number, each to the base of
//! its operand's count of clauses, name the clauses, and the digit of the first operand changes
//! fastest. A chosen clause's literals are made false beside what is known, and all that follows is
//! put on the trail, before a clause of the next operand is chosen. Where a clause is refuted so,
//! no state fits any number with these digits, and the whole block of them is skipped; what is
//! known is as before, and the next clause of the same operand is tried. When each clause of an
//! operand is refuted, the search goes on behind the block, from what was known without a choice.
//!
//! Where the set of an operand is a positive operand at the other time, only those clauses of it
//! are tried of which the effect turns a literal: the next one is found by the lists of where
//! literals are, unless few clauses are left or the effect has many atoms.
//!
//! No digit and no place on the trail is stored, so this takes no memory: the operands may be as
//! many as 65,003, and a stack of them would cost memory or depth. The invariant is that no number
//! below the present one fits any state, and that what is known is what the digits of the present
//! one say from an operand on. So a query costs at most a step for each refuted block, and one for
//! each operand each time that the search goes on behind one.

ghost use Rattle.std.specs.Prelude.{◌≡◌, ◌<◌, ◌≤◌, ◌+◌, ◌*◌, ◌/◌, ◌%◌, ◌^◌, ℕ, Bool, List, Some};
ghost use Rattle.std.specs.Prelude.{MatchOption, false, true, length, slice_get};
ghost use Rattle.hv_clauses.specs.Working.Found.{AreFollowedRoots, IsMet, IsMetBelow};
ghost use Rattle.hv_clauses.specs.Working.Front.{AreRefuted, IsAdvanced, IsFront, IsNever};
ghost use Rattle.hv_clauses.specs.Working.Front.{block_end, block_length};
ghost use Rattle.hv_propagation.specs.Marks.{Agrees};
ghost use Rattle.hv_clauses.specs.Working.Posed.{InEach, choices, size_in, width};
ghost use Rattle.hv_clauses.specs.Working.Problem.{AreLeft, FitsChoice, IsMissed, MissesClause};
ghost use Rattle.hv_propagation.specs.Trail.{Grows, marks_of};

use crate::problem::Problem;
use crate::{choices, refuted};
use hv_formula::ClauseKind;
use hv_propagation::{Assignment, propagation};
use hv_sets::Operand;
use hv_task::State;

// Tries each choice. The answer is true once one fits some state, which is then written.
pub(crate) fn choose_each<K: ClauseKind>(
    problem: &Problem<'_, K>,
    cost: u64,
    marks: &mut Assignment<'_>,
    state: &mut State,
) -> bool
    requires cost { cost ≡ choices problem.now }
    requires rooted { AreFollowedRoots problem.now marks.old }
    requires state { length state.old ≡ width problem.now }
    ensures met { IsMetBelow result cost (width problem.now) (FitsChoice problem.now) state.new }
    ensures same { marks.new ≡ marks.old }
    ensures state { length state.new ≡ length state.old }
{
    let mut number = 0;
    while number < cost {
        match explore(problem, number, cost, marks, state) {
            None => return true,
            Some(next) => number = next,
        }
    }
    false
}

// Tries choices from this number on. The answer is None if one fits some state, which is then
// written; or else a number up to which no choice fits any. What is known stays as it was.
fn explore<K: ClauseKind>(
    problem: &Problem<'_, K>,
    number: u64,
    cost: u64,
    marks: &mut Assignment<'_>,
    state: &mut State,
) -> Option<u64>
    requires cost { cost ≡ choices problem.now }
    requires number { number < cost }
    requires rooted { AreFollowedRoots problem.now marks.old }
    requires state { length state.old ≡ width problem.now }
    ensures tried { MatchOption result (IsMetBelow true cost (width problem.now)
        (FitsChoice problem.now) state.new)
        (λ upto. (number < upto) × AreRefuted problem.now number upto) }
    ensures same { marks.new ≡ marks.old }
    ensures state { length state.new ≡ length state.old }
{
    let point = marks.len();
    let tried = explore_on(problem, number, cost, marks, state);
    marks.undo(point);
    tried
}

// The same, with what follows left on the trail.
fn explore_on<K: ClauseKind>(
    problem: &Problem<'_, K>,
    number: u64,
    cost: u64,
    marks: &mut Assignment<'_>,
    state: &mut State,
) -> Option<u64>
    requires cost { cost ≡ choices problem.now }
    requires number { number < cost }
    requires rooted { AreFollowedRoots problem.now marks.old }
    requires state { length state.old ≡ width problem.now }
    ensures tried { MatchOption result (IsMetBelow true cost (width problem.now)
        (FitsChoice problem.now) state.new)
        (λ upto. (number < upto) × AreRefuted problem.now number upto) }
    ensures grown { Grows marks.old marks.new }
    ensures state { length state.new ≡ length state.old }
{
    let negative = problem.negative();
    let count = negative.len();
    let mut next = number;
    let mut block = cost;
    for fixed in 0..count {
        let place = count - 1 - fixed;
        let part = block / problem.count_of(negative[place].which);
        match first_open(problem, negative[place], place, next, part, marks) {
            None => return Some((next / block + 1) * block),
            Some(found) => next = found,
        }
        block = part;
    }
    if finish(problem, next, marks, state) {
        return None;
    }
    Some(next + 1)
}

// The first choice from this one on, among those with the same clauses of the operands behind this
// one, whose clause of this operand isn't refuted at once; it is followed up. Each clause of it
// denotes so many numbers. The answer is None if each is refuted: then no such choice fits any
// state.
fn first_open<K: ClauseKind>(
    problem: &Problem<'_, K>,
    operand: Operand,
    place: usize,
    next: u64,
    part: u64,
    marks: &mut Assignment<'_>,
) -> Option<u64>
    requires here { slice_get problem.now.query.negative place ≡ Some operand }
    requires next { next < choices problem.now }
    requires few { choices problem.now < 2 ^ 64 }
    requires part { part ≡ block_length problem.now place }
    requires front { IsFront problem.now (place + 1) (next / block_length problem.now (place + 1))
        marks.old }
    ensures open { MatchOption result (AreRefuted problem.now next
        (block_end next (block_length problem.now (place + 1))))
        (λ found. IsAdvanced problem.now place next found marks.new) }
    ensures grown { Grows marks.old marks.new }
{
    let count = problem.count_of(operand.which);
    let first = next / part;
    let end = (first / count + 1) * count;
    let mut rest = first;
    while rest < end {
        let at = rest + refuted::held_from(problem, operand, rest % count);
        if at >= end {
            return None;
        }
        if fix(problem, operand, place, at, marks) {
            return Some(first_in(next, at, part));
        }
        rest = at + 1;
    }
    None
}

// The first number from this one on that is in a block: that of the numbers which, divided by its
// size, give its place.
fn first_in(next: u64, block: u64, size: u64) -> u64
    requires some { 0 < size }
    requires ahead { next / size ≤ block }
    requires few { block * size < 2 ^ 64 }
    ensures inside { result / size ≡ block }
    ensures ahead { next ≤ result }
    ensures before { (number : ℕ) → next ≤ number → number < result → number / size < block }
{
    let start = block * size;
    if start < next { next } else { start }
}

// Follows up that the clause of this digit of an operand is false, beside what is known of the
// operands behind it. The answer is false only if no state fits; what is known then stays as it
// was.
fn fix<K: ClauseKind>(
    problem: &Problem<'_, K>,
    operand: Operand,
    place: usize,
    rest: u64,
    marks: &mut Assignment<'_>,
) -> bool
    requires here { slice_get problem.now.query.negative place ≡ Some operand }
    requires some { 0 < size_in problem.now operand.which }
    requires front { IsFront problem.now (place + 1) (rest / size_in problem.now operand.which)
        marks.old }
    ensures front { result ≡ true → IsFront problem.now place rest marks.new }
    ensures never { result ≡ false → IsNever problem.now place rest }
    ensures same { result ≡ false → marks.new ≡ marks.old }
    ensures grown { Grows marks.old marks.new }
{
    let digit = rest % problem.count_of(operand.which);
    if refuted::is_clause_true(problem, operand, digit, marks) {
        return false;
    }
    let point = marks.len();
    if deny(problem, operand, digit, marks) {
        return true;
    }
    marks.undo(point);
    false
}

// Marks the clause at this place of an operand as false, with all that follows. The answer is false
// only if no state that agrees with what was known fits.
fn deny<K: ClauseKind>(
    problem: &Problem<'_, K>,
    operand: Operand,
    digit: u64,
    marks: &mut Assignment<'_>,
) -> bool
    requires digit { digit < size_in problem.now operand.which }
    requires wide { length marks.old.roots ≡ width problem.now }
    requires left { AreLeft problem.now marks.old (length marks.old.trail) }
    ensures follows { (state : List Bool) → length state ≡ width problem.now
        → InEach problem.now state → MissesClause problem.now operand digit state
        → Agrees (marks_of marks.old) state → Agrees (marks_of marks.new) state }
    ensures never { result ≡ false → (state : List Bool) → length state ≡ width problem.now
        → InEach problem.now state → MissesClause problem.now operand digit state
        → Agrees (marks_of marks.old) state → ⊥ }
    ensures denied { result ≡ true → IsMissed problem.now operand digit (marks_of marks.new) }
    ensures left { result ≡ true → AreLeft problem.now marks.new (length marks.new.trail) }
    ensures grown { Grows marks.old marks.new }
{
    let point = marks.len();
    if !choices::deny_clause(problem, operand, digit, marks) {
        return false;
    }
    propagation::close(problem, marks, point)
}

// Completes what is known where a clause of each negative operand is chosen.
fn finish<K: ClauseKind>(
    problem: &Problem<'_, K>,
    number: u64,
    marks: &mut Assignment<'_>,
    state: &mut State,
) -> bool
    requires front { IsFront problem.now 0 number marks.old }
    requires state { length state.old ≡ width problem.now }
    ensures met { IsMet result (width problem.now) (FitsChoice problem.now number) state.new }
    ensures grown { Grows marks.old marks.new }
    ensures state { length state.new ≡ length state.old }
{
    let how = problem.completion();
    propagation::complete(how, problem, marks, state)
}

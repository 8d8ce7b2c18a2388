//! The choices that an effect can make false, where the set of the one negative operand is a
//! positive operand at the other time.
//!
//! That is so for each statement that says that no action leads out of a set or into it. Only those
//! clauses are tried of which the effect turns a literal against the operand: makes it false, if
//! the operand is asked about after the action, or true, if before. They are found by the lists of
//! where literals are, and one lemma says that no state fits any other choice. A clause of two
//! whose other literal is known to be true is skipped where it is listed, without a look into it:
//! no state that is as is known has it false. So is a long clause of which the effect or the
//! precondition makes a literal true: their atoms are looked for in the lists, and the clause isn't
//! gone through for each action. The negative operand is looked for beside the empty
//! set: the union with it, which such proofs write on the right, changes neither the
//! counterexamples nor the cost of a query.

ghost use Rattle.std.specs.Prelude.{◌≡◌, ◌<◌, ℕ, List, Some, false, length, slice_index, true};
ghost use Rattle.std.specs.List.{Contains};
ghost use Rattle.std.specs.List.Sorted.{IsStrictlyIncreasing};
ghost use Rattle.hv_clauses.specs.Working.Found.{AreFollowedRoots, IsAskedTwice, IsMet, IsMetAmong};
ghost use Rattle.hv_clauses.specs.Working.Found.{IsMetBelow};
ghost use Rattle.hv_indexes.specs.Occurrences.{AreStanding, IsIndexOf, entry_or_none, no_literal};
ghost use Rattle.hv_indexes.specs.Occurrences.{literal_of};
ghost use Rattle.hv_indexes.specs.Signed.{StandsAs};
ghost use Rattle.hv_sets.specs.declared.literal.Literal.{Literal as LiteralOf};
ghost use Rattle.hv_clauses.specs.Working.Affected.{turning_sign, HasTrue, IsAffected, IsTurnedBy};
ghost use Rattle.hv_clauses.specs.Working.Affected.{IsUntouched};
ghost use Rattle.hv_clauses.specs.Working.Posed.{choices, formulas, width};
ghost use Rattle.hv_clauses.specs.Working.Problem.{FitsChoice};
ghost use Rattle.hv_indexes.specs.Places.{clause_at};
ghost use Rattle.hv_propagation.specs.Trail.{marks_of};
ghost use Rattle.hv_propagation.specs.Units.{value_of};

use crate::find;
use crate::problem::Problem;
use hv_formula::ClauseKind;
use hv_indexes::{Occurrences, Standing, partners};
use hv_propagation::{ActionEffect, Assignment, literals};
use hv_sets::{Clauses, Literal, Operand, Which};
use hv_task::State;

// A clause of at most so many literals is gone through.
const SHORT: usize = 16;

// The one negative operand, the number of its set, its clauses, and where their literals stand.
#[derive(Drop)]
pub(crate) struct Affected<'a> {
    pub operand: Operand,
    pub number: usize,
    pub clauses: &'a Clauses,
    pub occurs: &'a Occurrences,
}

// Whether there may be such a choice. Else no state is a counterexample, whatever is known.
pub(crate) fn is_touched<K: ClauseKind>(problem: &Problem<'_, K>, operand: Operand) -> bool
    requires asked_twice { IsAskedTwice problem.now operand }
    ensures { result ≡ false → IsUntouched problem.now operand }
{
    let Which::Set(number) = operand.which else {
        return true;
    };
    let occurs = problem.set(number).occurs();
    if stands_among(problem, occurs, operand.after, true) {
        return true;
    }
    stands_among(problem, occurs, operand.after, false)
}

// Whether a literal stands somewhere that is turned by an atom that the effect makes this value.
fn stands_among<K: ClauseKind>(
    problem: &Problem<'_, K>,
    occurs: &Occurrences,
    after: bool,
    value: bool,
) -> bool
    requires { (clauses : List (List LiteralOf)) × IsIndexOf clauses occurs.now }
    ensures { result ≡ false → (clauses : List (List LiteralOf)) → IsIndexOf clauses occurs.now
        → (number : ℕ) → IsTurnedBy problem.now.effect value (turning_sign after value) clauses
        number → ⊥ }
{
    let positive = turning_sign(after, value);
    if stands_nowhere(occurs, positive) {
        return false;
    }
    let turned = problem.effect().turned(value);
    for atom in turned {
        let own = Literal {
            atom: *atom,
            positive,
        };
        if !stands_never(occurs, own) {
            return true;
        }
    }
    false
}

// Whether no clause has a literal of this sign.
fn stands_nowhere(occurs: &Occurrences, sign: bool) -> bool
    ensures { result ≡ true → (clauses : List (List LiteralOf)) → IsIndexOf clauses occurs.now
        → (atom number : ℕ) → StandsAs sign clauses atom number → ⊥ }
{
    occurs.signed(sign).places.is_empty()
}

// Whether no clause has this literal.
fn stands_never(occurs: &Occurrences, literal: Literal) -> bool
    requires { (clauses : List (List LiteralOf)) × IsIndexOf clauses occurs.now }
    ensures { result ≡ true → (clauses : List (List LiteralOf)) → IsIndexOf clauses occurs.now
        → (number : ℕ) → StandsAs literal.positive clauses literal.atom number → ⊥ }
{
    occurs.standing(literal).places.is_empty()
}

// Tries each choice of a clause of which the effect turns a literal.
pub(crate) fn choose_affected<K: ClauseKind>(
    problem: &Problem<'_, K>,
    operand: Operand,
    marks: &mut Assignment<'_>,
    state: &mut State,
) -> bool
    requires asked_twice { IsAskedTwice problem.now operand }
    requires rooted { AreFollowedRoots problem.now marks.old }
    requires state { length state.old ≡ width problem.now }
    ensures met { IsMetBelow result (choices problem.now)
        (width problem.now) (FitsChoice problem.now) state.new }
    ensures same { marks.new ≡ marks.old }
    ensures state { length state.new ≡ length state.old }
{
    let Which::Set(number) = operand.which else {
        return false;
    };
    let set = problem.set(number);
    let touched = Affected {
        operand,
        number,
        clauses: set.clauses(),
        occurs: set.occurs(),
    };
    if try_value(problem, &touched, false, marks, state) {
        return true;
    }
    try_value(problem, &touched, true, marks, state)
}

// Tries each choice of a clause of which a literal is turned by an atom that the effect makes this
// value.
fn try_value<K: ClauseKind>(
    problem: &Problem<'_, K>,
    touched: &Affected<'_>,
    value: bool,
    marks: &mut Assignment<'_>,
    state: &mut State,
) -> bool
    requires touched { IsAffected problem.now touched.now }
    requires rooted { AreFollowedRoots problem.now marks.old }
    requires state { length state.old ≡ width problem.now }
    ensures met { IsMetAmong result (IsTurnedBy problem.now.effect value
        (turning_sign touched.now.operand.after value) (formulas problem.now touched.now.number))
        (choices problem.now) (width problem.now) (FitsChoice problem.now) state.new }
    ensures same { marks.new ≡ marks.old }
    ensures state { length state.new ≡ length state.old }
{
    let sign = turning_sign(touched.operand.after, value);
    let turned = problem.effect().turned(value);
    for atom in turned {
        let own = Literal {
            atom: *atom,
            positive: sign,
        };
        let standing = touched.occurs.standing(own);
        if try_listed(problem, touched, &standing, marks, state) {
            return true;
        }
    }
    false
}

// The sign of the literals that are turned against an operand where their atoms are made this
// value: false, if the operand is asked about after the action, and else true.
pub(crate) fn turning_sign(after: bool, value: bool) -> bool
    ensures { result ≡ turning_sign after value }
{
    value != after
}

// Tries each choice of a clause in which a literal stands.
fn try_listed<K: ClauseKind>(
    problem: &Problem<'_, K>,
    touched: &Affected<'_>,
    standing: &Standing<'_>,
    marks: &mut Assignment<'_>,
    state: &mut State,
) -> bool
    requires standing { AreStanding (formulas problem.now touched.now.number) standing.now }
    requires touched { IsAffected problem.now touched.now }
    requires rooted { AreFollowedRoots problem.now marks.old }
    requires state { length state.old ≡ width problem.now }
    ensures met { IsMetAmong result (Contains standing.now.places.now)
        (choices problem.now) (width problem.now) (FitsChoice problem.now) state.new }
    ensures same { marks.new ≡ marks.old }
    ensures state { length state.new ≡ length state.old }
{
    for index in 0..standing.places.len() {
        if try_one(problem, touched, standing, index, marks, state) {
            return true;
        }
    }
    false
}

// Tries the choice of the clause at this place of the list. Where a literal is known to be true, no
// state fits it: of the one beside that shows in the list, and of a long clause by other lists.
fn try_one<K: ClauseKind>(
    problem: &Problem<'_, K>,
    touched: &Affected<'_>,
    standing: &Standing<'_>,
    index: usize,
    marks: &mut Assignment<'_>,
    state: &mut State,
) -> bool
    requires standing { AreStanding (formulas problem.now touched.now.number) standing.now }
    requires index { index < length standing.now.places.now }
    requires touched { IsAffected problem.now touched.now }
    requires rooted { AreFollowedRoots problem.now marks.old }
    requires state { length state.old ≡ width problem.now }
    ensures met { IsMet result (width problem.now)
        (FitsChoice problem.now (slice_index standing.now.places.now index)) state.new }
    ensures same { marks.new ≡ marks.old }
    ensures state { length state.new ≡ length state.old }
{
    let seen = problem.seen(touched.operand.after);
    if is_true(standing.entries, index, &seen, marks) {
        return false;
    }
    let place = standing.places[index];
    if is_held(problem, touched, place, &seen, marks) {
        return false;
    }
    find::decide(problem, place as u64, marks, state)
}

// Whether the clause is long, and the effect or the precondition makes a literal of it true.
fn is_held<K: ClauseKind>(
    problem: &Problem<'_, K>,
    touched: &Affected<'_>,
    place: usize,
    seen: &ActionEffect<'_>,
    marks: &Assignment<'_>,
) -> bool
    requires index { IsIndexOf touched.now.clauses.now touched.now.occurs.now }
    requires place { place < length touched.now.clauses.now }
    ensures { result ≡ true → HasTrue seen.now (marks_of marks.now)
        (clause_at touched.now.clauses.now place) }
{
    if touched.clauses.get(place).len() <= SHORT {
        return false;
    }
    let required = match problem.action() {
        None => [].as_slice(),
        Some(action) => action.pre.as_slice(),
    };
    has_true_of(touched, seen.turned(true), true, place, seen, marks)
        || has_true_of(touched, required, true, place, seen, marks)
        || has_true_of(touched, seen.turned(false), false, place, seen, marks)
}

// Whether a literal of the clause that has one of these atoms and this sign is known to be true.
fn has_true_of(
    touched: &Affected<'_>,
    atoms: &[u32],
    sign: bool,
    place: usize,
    seen: &ActionEffect<'_>,
    marks: &Assignment<'_>,
) -> bool
    requires { IsIndexOf touched.now.clauses.now touched.now.occurs.now }
    ensures { result ≡ true → HasTrue seen.now (marks_of marks.now)
        (clause_at touched.now.clauses.now place) }
{
    for atom in atoms {
        let literal = Literal {
            atom: *atom,
            positive: sign,
        };
        if literals::value(seen, marks, literal) == Some(true)
            && has_literal(touched, place, literal)
        {
            return true;
        }
    }
    false
}

// Whether the literal stands in the clause.
fn has_literal(touched: &Affected<'_>, place: usize, literal: Literal) -> bool
    requires { IsIndexOf touched.now.clauses.now touched.now.occurs.now }
    ensures { result ≡ true → Contains (clause_at touched.now.clauses.now place) literal }
{
    let standing = touched.occurs.standing(literal);
    has_place(standing.places, place)
}

// Whether the place is among these.
fn has_place(places: &[usize], place: usize) -> bool
    requires { IsStrictlyIncreasing places.now }
    ensures { result ≡ true → Contains places.now place }
{
    places.binary_search(&place).is_ok()
}

// Whether the entry at a place denotes a literal that is known to be true.
fn is_true(entries: &[u32], place: usize, effect: &ActionEffect<'_>, marks: &Assignment<'_>) -> bool
    ensures { result ≡ true → (entry_or_none entries.now place ≡ no_literal → ⊥)
        × (value_of effect.now (marks_of marks.now) (literal_of (entry_or_none entries.now place))
        ≡ Some true) }
{
    match partners::literal_at(entries, place) {
        None => false,
        Some(literal) => literals::value(effect, marks, literal) == Some(true),
    }
}

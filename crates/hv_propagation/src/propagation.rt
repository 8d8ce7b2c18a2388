//! From what is known to states: propagation to its end, and completion of what is left open.
//!
//! A Horn formula is met by leaving out each atom of which nothing is known, and a dual Horn
//! formula by putting each such atom in. For clauses of two literals each unassigned atom is tried
//! with one value and then the other, each time with all that follows; a trial that is refuted is
//! taken back by shortening the trail, and where both are refuted there is no state, since a value
//! that isn't refuted never has to be taken back. A trial may be refuted after a long way; so both
//! values are followed in turn, each time twice as far, until one is refuted or nothing more
//! follows from it. How far is counted by the clauses that are looked at, so a value that is
//! refuted costs no more than some multiple of what the other one does. This needs memory for a few
//! marks an atom, where a table of which literal follows from which has a place for each pair of
//! literals. A state is written only at the end, once there is one.

ghost use Rattle.std.specs.Prelude.{◌≡◌, ◌<◌, ◌≤◌, ℕ, None, Some, false, true, length, min};
ghost use Rattle.std.specs.Prelude.{IfSome, IsSome, MatchOption, is_some};
ghost use Rattle.hv_propagation.specs.Chase.{IsFollowed};
ghost use Rattle.hv_propagation.specs.Completion.{Completes, IsCompleted, IsTried};
ghost use Rattle.hv_propagation.specs.declared.completion.Completion.TheVariants as Ways;
ghost use Rattle.hv_propagation.specs.declared.propagation.Bound.TheVariants as Bounds;
ghost use Rattle.hv_propagation.specs.Working.Completion.{IsAssumed};
ghost use Rattle.hv_propagation.specs.Marks.{known, AllKnown};
ghost use Rattle.hv_propagation.specs.Trail.{Grows, marks_of};

use crate::completion::Completion;
use crate::constraint::Constraint;
use crate::trail::Assignment;
use hv_sets::Literal;
use hv_task::State;

// How far a value is followed at first, in clauses, before the other one is; or else twice as far
// as it takes to follow up its own literal.
const TURN: usize = 16;

// How many turns there are at most. A turn that is twice as long as another one reaches further.
const TURNS: usize = 128;

// How far the trail is followed up.
#[derive(Clone, Copy)]
pub(crate) enum Bound {
    // To its end.
    End,
    // The literals before this place.
    Place(usize),
    // As far as so many clauses are to be looked at.
    Clauses(usize),
}

impl Bound {
    // What is left of it once the literal at this place is followed up, too, if that is still
    // within it.
    #[inline(always)]
    fn past<C: Constraint>(
        self,
        constraint: &C,
        marks: &Assignment<'_>,
        place: usize,
    ) -> Option<Bound>
        requires over { (atoms : ℕ) × C.is_over constraint.now atoms }
        requires place { place < length marks.now.trail }
        ensures end { self ≡ Bounds.End → result ≡ Some Bounds.End }
        ensures place { (upto : ℕ) → self ≡ Bounds.Place upto
            → MatchOption result (upto ≤ place) (λ rest. rest ≡ self) }
    {
        match self {
            Bound::End => Some(self),
            Bound::Place(upto) => {
                if place >= upto {
                    return None;
                }
                Some(self)
            }
            Bound::Clauses(many) => {
                let weight = constraint.weight(marks.get(place));
                if weight >= many {
                    return None;
                }
                Some(Bound::Clauses(many - weight))
            }
        }
    }
}

/// Follows up what the trail has from a place on, until nothing more follows. The answer is false
/// only if no state that agrees with what was known meets the condition.
pub fn close<C: Constraint>(constraint: &C, marks: &mut Assignment<'_>, from: usize) -> bool
    requires over { C.is_over constraint.now (length marks.old.roots) }
    requires from { from ≤ length marks.old.trail }
    requires left { C.left constraint.now marks.old from }
    ensures followed { IsFollowed (C.admits constraint.now) marks.old marks.new result }
    ensures left { result ≡ true → C.left constraint.now marks.new (length marks.new.trail) }
    ensures settled { result ≡ true → C.settled constraint.now (marks_of marks.new) }
{
    follow(constraint, marks, from, Bound::End).is_some()
}

/// The same of the literals before another place of the trail. The answer is the place that was
/// come to, no earlier than that one or the end of the trail; or None if no state that agrees with
/// what was known meets the condition.
pub fn close_upto<C: Constraint>(
    constraint: &C,
    marks: &mut Assignment<'_>,
    from: usize,
    upto: usize,
) -> Option<usize>
    requires over { C.is_over constraint.now (length marks.old.roots) }
    requires from { from ≤ length marks.old.trail }
    requires left { C.left constraint.now marks.old from }
    ensures followed { IsFollowed (C.admits constraint.now) marks.old marks.new (is_some result) }
    ensures left { IfSome result (λ place. (place ≤ length marks.new.trail)
        × C.left constraint.now marks.new place) }
    ensures reached { IfSome result (λ place. min upto (length marks.new.trail) ≤ place) }
{
    follow(constraint, marks, from, Bound::Place(upto))
}

// The same within a bound.
#[inline(always)]
fn follow<C: Constraint>(
    constraint: &C,
    marks: &mut Assignment<'_>,
    from: usize,
    bound: Bound,
) -> Option<usize>
    requires over { C.is_over constraint.now (length marks.old.roots) }
    requires from { from ≤ length marks.old.trail }
    requires left { C.left constraint.now marks.old from }
    ensures followed { IsFollowed (C.admits constraint.now) marks.old marks.new (is_some result) }
    ensures left { IfSome result (λ place. (place ≤ length marks.new.trail)
        × C.left constraint.now marks.new place) }
    ensures end { bound ≡ Bounds.End
        → IfSome result (λ place. place ≡ length marks.new.trail) }
    ensures reached { (upto : ℕ) → bound ≡ Bounds.Place upto
        → IfSome result (λ place. min upto (length marks.new.trail) ≤ place) }
{
    let mut place = from;
    let mut rest = bound;
    while place < marks.len() {
        let Some(next) = rest.past(constraint, marks, place) else {
            return Some(place);
        };
        if !constraint.visit(marks, place) {
            return None;
        }
        rest = next;
        place += 1;
    }
    Some(place)
}

// Tries a value of an open atom: puts it on the trail with all that follows, or leaves all as it
// was if no state that agrees with what is known has it. If neither shows within the bound, the
// answer is None, and all is left as it was, too.
fn assume<C: Constraint>(
    constraint: &C,
    marks: &mut Assignment<'_>,
    literal: Literal,
    bound: Bound,
) -> Option<bool>
    requires over { C.is_over constraint.now (length marks.old.roots) }
    requires atom { literal.atom < length marks.old.roots }
    requires open { known (marks_of marks.old) literal.atom ≡ None }
    requires left { C.left constraint.now marks.old (length marks.old.trail) }
    ensures assumed { MatchOption result (marks.new ≡ marks.old)
        (IsAssumed (C.admits constraint.now) (C.settled constraint.now) literal.atom
        literal.positive (marks_of marks.old) (marks_of marks.new)) }
    ensures grown { Grows marks.old marks.new }
    ensures left { C.left constraint.now marks.new (length marks.new.trail) }
    ensures end { bound ≡ Bounds.End → IsSome result }
{
    let point = marks.len();
    marks.write(literal);
    match follow(constraint, marks, point, bound) {
        None => {
            marks.undo(point);
            Some(false)
        }
        Some(place) => {
            if place >= marks.len() {
                return Some(true);
            }
            marks.undo(point);
            None
        }
    }
}

/// Finds a value for an atom. The answer is false only if no state meets the condition.
pub fn settle<C: Constraint>(constraint: &C, marks: &mut Assignment<'_>, atom: u32) -> bool
    requires over { C.is_over constraint.now (length marks.old.roots) }
    requires atom { atom < length marks.old.roots }
    requires left { C.left constraint.now marks.old (length marks.old.trail) }
    requires completes { Completes Ways.Try (C.admits constraint.now) (C.settled constraint.now)
        (length marks.old.roots) }
    ensures tried { IsTried (C.admits constraint.now) (C.settled constraint.now)
        (λ marks. known marks atom ≡ None → ⊥) (marks_of marks.old) (marks_of marks.new) result }
    ensures grown { Grows marks.old marks.new }
    ensures left { C.left constraint.now marks.new (length marks.new.trail) }
{
    if marks.read(atom).is_some() {
        return true;
    }
    settle_open(constraint, marks, atom)
}

// The same for an atom of which nothing is known: its values are followed in turn.
fn settle_open<C: Constraint>(constraint: &C, marks: &mut Assignment<'_>, atom: u32) -> bool
    requires over { C.is_over constraint.now (length marks.old.roots) }
    requires atom { atom < length marks.old.roots }
    requires open { known (marks_of marks.old) atom ≡ None }
    requires left { C.left constraint.now marks.old (length marks.old.trail) }
    requires completes { Completes Ways.Try (C.admits constraint.now) (C.settled constraint.now)
        (length marks.old.roots) }
    ensures tried { IsTried (C.admits constraint.now) (C.settled constraint.now)
        (λ marks. known marks atom ≡ None → ⊥) (marks_of marks.old) (marks_of marks.new) result }
    ensures grown { Grows marks.old marks.new }
    ensures left { C.left constraint.now marks.new (length marks.new.trail) }
{
    let low = Literal {
        atom,
        positive: false,
    };
    let mut many = TURN.max(constraint.weight(low).saturating_mul(2));
    let mut positive = false;
    for _ in 0..TURNS {
        let guess = Literal { atom, positive };
        let bound = Bound::Clauses(many);
        if let Some(settled) = settle_within(constraint, marks, guess, bound) {
            return settled;
        }
        if positive {
            many = many.saturating_mul(2);
        }
        positive = !positive;
    }
    settle_within(constraint, marks, low, Bound::End).unwrap()
}

// The same, where this value is followed within a bound, and the other one to its end, if this one
// is refuted. If that doesn't show, the answer is None, and all is left as it was.
fn settle_within<C: Constraint>(
    constraint: &C,
    marks: &mut Assignment<'_>,
    guess: Literal,
    bound: Bound,
) -> Option<bool>
    requires over { C.is_over constraint.now (length marks.old.roots) }
    requires atom { guess.atom < length marks.old.roots }
    requires open { known (marks_of marks.old) guess.atom ≡ None }
    requires left { C.left constraint.now marks.old (length marks.old.trail) }
    requires completes { Completes Ways.Try (C.admits constraint.now) (C.settled constraint.now)
        (length marks.old.roots) }
    ensures tried { MatchOption result (marks.new ≡ marks.old)
        (IsTried (C.admits constraint.now) (C.settled constraint.now)
        (λ marks. known marks guess.atom ≡ None → ⊥) (marks_of marks.old)
        (marks_of marks.new)) }
    ensures grown { Grows marks.old marks.new }
    ensures left { C.left constraint.now marks.new (length marks.new.trail) }
    ensures end { bound ≡ Bounds.End → IsSome result }
{
    let Some(kept) = assume(constraint, marks, guess, bound) else {
        return None;
    };
    if kept {
        return Some(true);
    }
    let other = Literal {
        atom: guess.atom,
        positive: !guess.positive,
    };
    assume(constraint, marks, other, Bound::End)
}

// Finds a value for each atom. The answer is false only if no state meets the condition.
pub(crate) fn settle_all<C: Constraint>(constraint: &C, marks: &mut Assignment<'_>) -> bool
    requires over { C.is_over constraint.now (length marks.old.roots) }
    requires left { C.left constraint.now marks.old (length marks.old.trail) }
    requires completes { Completes Ways.Try (C.admits constraint.now) (C.settled constraint.now)
        (length marks.old.roots) }
    ensures tried { IsTried (C.admits constraint.now) (C.settled constraint.now)
        (AllKnown (length marks.old.roots)) (marks_of marks.old) (marks_of marks.new) result }
    ensures grown { Grows marks.old marks.new }
{
    for atom in 0..marks.atoms() as u32 {
        if !settle(constraint, marks, atom) {
            return false;
        }
    }
    true
}

/// Completes what is known to a state that meets the condition. The answer is false only if no
/// state meets it.
pub fn complete<C: Constraint>(
    how: Completion,
    constraint: &C,
    marks: &mut Assignment<'_>,
    state: &mut State,
) -> bool
    requires over { C.is_over constraint.now (length marks.old.roots) }
    requires state { length state.old ≡ length marks.old.roots }
    requires left { C.left constraint.now marks.old (length marks.old.trail) }
    requires completes { Completes how (C.admits constraint.now) (C.settled constraint.now)
        (length marks.old.roots) }
    ensures completed { IsCompleted (C.admits constraint.now) (marks_of marks.old) state.new
        result }
    ensures grown { Grows marks.old marks.new }
    ensures state { length state.new ≡ length state.old }
{
    match how {
        Completion::Fill(value) => {
            marks.fill(value, state);
            true
        }
        Completion::Try => {
            if !settle_all(constraint, marks) {
                return false;
            }
            marks.fill(false, state);
            true
        }
    }
}

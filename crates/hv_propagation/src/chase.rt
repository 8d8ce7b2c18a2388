//! Unit propagation that is driven by the trail, over clauses that are seen through an effect.
//!
//! A literal that was found true makes its opposite false, so only the clauses with that opposite
//! are looked at again: one whose other literals are all false forces its last, and one whose
//! literals are all false says that there is no state. Where an effect makes the opposite true,
//! none of its clauses is looked at. The invariant: a clause that has the opposite of no literal
//! that the trail has from the present place on is settled, that is, it is satisfied or has two
//! unassigned literals. When the place has reached the end of the trail, all clauses are settled.

ghost use Rattle.std.specs.Prelude.{◌≡◌, ◌<◌, ◌≤◌, ◌+◌, ℕ, List, None, Some, false, true, length};
ghost use Rattle.std.specs.Prelude.{slice_get, slice_index};
ghost use Rattle.std.specs.List.{Contains};
ghost use Rattle.hv_sets.specs.declared.literal.Literal.{Literal as LiteralOf};
ghost use Rattle.hv_sets.specs.Cubes.{SpeakBelow, opposite};
ghost use Rattle.hv_sets.specs.Truth.{in_clause, in_clauses};
ghost use Rattle.hv_propagation.specs.Chase.{AreKept, IsFollowed, IsKept};
ghost use Rattle.hv_indexes.specs.Places.{clause_at};
ghost use Rattle.hv_propagation.specs.Clauses.{AreClauses};
ghost use Rattle.hv_propagation.specs.Marks.{known, over};
ghost use Rattle.hv_indexes.specs.Occurrences.{AreStanding, IsIndexOf};
ghost use Rattle.hv_indexes.specs.Signed.{StandsAs};
ghost use Rattle.hv_propagation.specs.Trail.{marks_of};
ghost use Rattle.hv_propagation.specs.Units.{IsSettled, value_of};
ghost use Rattle.hv_propagation.specs.Working.Chase.{AreSettledBetween, IsSettledAt};
ghost use Rattle.hv_propagation.specs.Working.FoundRun.{AreKnownEntries};

use crate::effect::ActionEffect;
use crate::found_run::RunEnd;
use crate::trail::Assignment;
use crate::watched::Scan;
use crate::{literals, watched};
use hv_indexes::{Occurrences, Standing, partners};
use hv_sets::{Clauses, Literal};

// Puts on the trail what the clause at this place says next. The answer is false if the clause is
// broken.
pub(crate) fn step(
    clause: &[Literal],
    place: usize,
    effect: &ActionEffect<'_>,
    marks: &mut Assignment<'_>,
) -> bool
    requires { SpeakBelow (length marks.old.roots) clause.now }
    ensures followed { IsFollowed (λ state. in_clause clause.now (over effect.now state) ≡ true)
        marks.old marks.new result }
    ensures settled { result ≡ true → IsSettled effect.now (marks_of marks.new) clause.now }
{
    let found = watched::scan_clause(clause, marks.watch(place), effect, marks);
    marks.remember(place, found.watch);
    match found.scan {
        Scan::Settled => true,
        Scan::Broken => false,
        Scan::Unit(literal) => {
            marks.write(literal);
            true
        }
    }
}

/// Looks at each clause once.
pub fn start(clauses: &Clauses, effect: &ActionEffect<'_>, marks: &mut Assignment<'_>) -> bool
    requires { AreClauses (length marks.old.roots) clauses.now }
    ensures followed { IsFollowed (λ state. in_clauses clauses.now (over effect.now state) ≡ true)
        marks.old marks.new result }
    ensures kept { result ≡ true
        → AreKept effect.now clauses.now marks.new (length marks.old.trail) }
{
    for place in 0..clauses.len() {
        if !step(clauses.get(place), place, effect, marks) {
            return false;
        }
    }
    true
}

/// Looks again at each clause that has the opposite of the literal at this place of the trail.
#[inline(always)]
pub fn visit(
    clauses: &Clauses,
    occurs: &Occurrences,
    effect: &ActionEffect<'_>,
    marks: &mut Assignment<'_>,
    from: usize,
) -> bool
    requires clauses { AreClauses (length marks.old.roots) clauses.now }
    requires index { IsIndexOf clauses.now occurs.now }
    requires from { from < length marks.old.trail }
    requires kept { AreKept effect.now clauses.now marks.old from }
    ensures followed { IsFollowed (λ state. in_clauses clauses.now (over effect.now state) ≡ true)
        marks.old marks.new result }
    ensures kept { result ≡ true → AreKept effect.now clauses.now marks.new (from + 1) }
{
    let literal = marks.get(from);
    let own = Literal {
        atom: literal.atom,
        positive: !literal.positive,
    };
    if stands_nowhere(occurs, own.positive) {
        return true;
    }
    // Where the effect makes it true, so are its clauses.
    if value_behind(effect, marks, from) != Some(false) {
        return true;
    }
    let standing = occurs.standing(own);
    visit_all(clauses, &standing, effect, marks)
}

// The value of the opposite of the literal at this place of the trail: as the effect makes it, or
// else false.
#[inline(always)]
fn value_behind(effect: &ActionEffect<'_>, marks: &Assignment<'_>, from: usize) -> Option<bool>
    requires { from < length marks.now.trail }
    ensures { (l : LiteralOf) → slice_get marks.now.trail from ≡ Some l
        → result ≡ value_of effect.now (marks_of marks.now) (opposite l) }
{
    let literal = marks.get_known(from);
    match effect.read(literal.atom) {
        None => Some(false),
        Some(value) => Some(value != literal.positive),
    }
}

// Whether no clause has a literal of this sign, as no clause of exclusions has a positive one.
#[inline(always)]
fn stands_nowhere(occurs: &Occurrences, sign: bool) -> bool
    ensures { result ≡ true → (clauses : List (List LiteralOf)) → IsIndexOf clauses occurs.now
        → (atom number : ℕ) → StandsAs sign clauses atom number → ⊥ }
{
    occurs.signed(sign).places.is_empty()
}

/// How many clauses are looked at where this literal is followed up, and one more.
pub fn weight(occurs: &Occurrences, literal: Literal) -> usize
    requires { (clauses : List (List LiteralOf)) × IsIndexOf clauses occurs.now }
{
    let own = Literal {
        atom: literal.atom,
        positive: !literal.positive,
    };
    occurs.standing(own).places.len().saturating_add(1)
}

// Looks again at each clause that has a literal that was found false.
#[inline(always)]
pub(crate) fn visit_all(
    clauses: &Clauses,
    standing: &Standing<'_>,
    effect: &ActionEffect<'_>,
    marks: &mut Assignment<'_>,
) -> bool
    requires clauses { AreClauses (length marks.old.roots) clauses.now }
    requires standing { AreStanding clauses.now standing.now }
    requires out { value_of effect.now (marks_of marks.old) standing.now.literal ≡ Some false }
    ensures followed { IsFollowed (λ state. in_clauses clauses.now (over effect.now state) ≡ true)
        marks.old marks.new result }
    ensures kept { result ≡ true → (place : ℕ) → Contains standing.now.places.now place
        → IsKept effect.now (clause_at clauses.now place) marks.new (length marks.old.trail) }
{
    if effect.says_nothing() {
        return visit_in_runs(clauses, standing, effect, marks);
    }
    let mut index = 0;
    while index < standing.places.len() {
        let before = marks.len();
        if !visit_one(clauses, standing, index, effect, marks) {
            return false;
        }
        index = next_place(standing, index, marks.len() > before, effect, marks);
    }
    true
}

// The same where there is no effect: many clauses of two literals at once, and each other one.
fn visit_in_runs(
    clauses: &Clauses,
    standing: &Standing<'_>,
    effect: &ActionEffect<'_>,
    marks: &mut Assignment<'_>,
) -> bool
    requires clauses { AreClauses (length marks.old.roots) clauses.now }
    requires standing { AreStanding clauses.now standing.now }
    requires nothing { (p : ℕ) → known effect.now p ≡ None }
    requires out { value_of effect.now (marks_of marks.old) standing.now.literal ≡ Some false }
    ensures followed { IsFollowed (λ state. in_clauses clauses.now (over effect.now state) ≡ true)
        marks.old marks.new result }
    ensures kept { result ≡ true → (place : ℕ) → Contains standing.now.places.now place
        → IsKept effect.now (clause_at clauses.now place) marks.new (length marks.old.trail) }
{
    let mut index = 0;
    while index < standing.places.len() {
        let run = visit_run(clauses, standing, index, effect, marks);
        if !run.holds {
            return false;
        }
        if run.index >= standing.places.len() {
            return true;
        }
        if !visit_one(clauses, standing, run.index, effect, marks) {
            return false;
        }
        index = run.index + 1;
    }
    true
}

// Looks at the clauses of two literals from this place on, as far as they come one after the other.
#[inline(always)]
fn visit_run(
    clauses: &Clauses,
    standing: &Standing<'_>,
    index: usize,
    effect: &ActionEffect<'_>,
    marks: &mut Assignment<'_>,
) -> RunEnd
    requires standing { AreStanding clauses.now standing.now }
    requires nothing { (p : ℕ) → known effect.now p ≡ None }
    requires wide { AreClauses (length marks.old.roots) clauses.now }
    requires out { value_of effect.now (marks_of marks.old) standing.now.literal ≡ Some false }
    ensures followed { IsFollowed (λ state. in_clauses clauses.now (over effect.now state) ≡ true)
        marks.old marks.new result.holds }
    ensures after { index ≤ result.index }
    ensures known { result.holds ≡ true → AreKnownEntries (marks_of marks.new)
        standing.now.entries.now index result.index }
{
    let _ = clauses;
    let _ = effect;
    let count = standing.entries.len().min(standing.places.len());
    if index >= count {
        return RunEnd {
            index,
            len: marks.len(),
            holds: true,
        };
    }
    marks.force_run(&standing.entries[..count], index)
}

// The place after this one. Where nothing was found out here, what follows is mostly known too, as
// where each literal implies all that later ones do: then all are passed over at once beside which
// stands a literal that was found true.
#[inline(always)]
fn next_place(
    standing: &Standing<'_>,
    index: usize,
    found: bool,
    effect: &ActionEffect<'_>,
    marks: &Assignment<'_>,
) -> usize
    requires { index < length standing.now.places.now }
    ensures after { index < result }
    ensures settled { AreSettledBetween effect.now (marks_of marks.now) standing.now (index + 1)
        result }
{
    if found {
        return index + 1;
    }
    place_of_other(standing, index + 1, effect, marks)
}

// The first place from this one on beside which stands no literal that was found true: by the
// effect or on the trail, as what was known before isn't seen. It is a loop of its own, which
// writes nothing.
#[inline(never)]
fn place_of_other(
    standing: &Standing<'_>,
    from: usize,
    effect: &ActionEffect<'_>,
    marks: &Assignment<'_>,
) -> usize
    ensures after { from ≤ result }
    ensures settled { AreSettledBetween effect.now (marks_of marks.now) standing.now from result }
{
    let mut index = from;
    while index < standing.entries.len() {
        if !is_true_beside(standing, index, effect, marks) {
            return index;
        }
        index += 1;
    }
    index
}

// Whether a literal stands beside the one at this place that was found true.
#[inline(always)]
fn is_true_beside(
    standing: &Standing<'_>,
    index: usize,
    effect: &ActionEffect<'_>,
    marks: &Assignment<'_>,
) -> bool
    ensures { result ≡ true → IsSettledAt effect.now (marks_of marks.now) standing.now index }
{
    match partners::literal_at(standing.entries, index) {
        None => false,
        Some(other) => literals::is_found_true(effect, marks, other),
    }
}

// Looks again at one of these clauses. Of two literals, the other one is true: what that is tells
// the list, without a look into the clause.
#[inline(always)]
fn visit_one(
    clauses: &Clauses,
    standing: &Standing<'_>,
    index: usize,
    effect: &ActionEffect<'_>,
    marks: &mut Assignment<'_>,
) -> bool
    requires clauses { AreClauses (length marks.old.roots) clauses.now }
    requires standing { AreStanding clauses.now standing.now }
    requires index { index < length standing.now.places.now }
    requires out { value_of effect.now (marks_of marks.old) standing.now.literal ≡ Some false }
    ensures followed { IsFollowed (λ state. in_clauses clauses.now (over effect.now state) ≡ true)
        marks.old marks.new result }
    ensures settled { result ≡ true → IsSettled effect.now (marks_of marks.new)
        (clause_at clauses.now (slice_index standing.now.places.now index)) }
{
    match partners::literal_at(standing.entries, index) {
        Some(other) => literals::force(other, effect, marks),
        None => {
            let place = standing.places[index];
            step(clauses.get(place), place, effect, marks)
        }
    }
}

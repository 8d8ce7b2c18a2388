//! A first look at the clauses of which an effect makes a literal false.
//!
//! Where it is known already what clauses force, any other one of them says nothing more: the
//! effect makes a literal of it true, or touches none of its atoms, and then it is settled as it
//! was. These clauses are found by the lists of where literals are, and of a clause of two the
//! other literal is made true where it is listed. Without an effect there are none.

ghost use Rattle.std.specs.Prelude.{◌≡◌, ◌<◌, ℕ, Bool, Some, false, true, not, length};
ghost use Rattle.std.specs.List.{Contains};
ghost use Rattle.std.specs.List.Sorted.{IsStrictlyIncreasing};
ghost use Rattle.hv_sets.specs.declared.literal.Literal.{Literal};
ghost use Rattle.hv_sets.specs.Cubes.{atoms_of};
ghost use Rattle.hv_sets.specs.Truth.{in_clauses};
ghost use Rattle.hv_propagation.specs.Roots.{AreSettledBut};
ghost use Rattle.hv_propagation.specs.Chase.{AreKept, IsFollowed, IsKept};
ghost use Rattle.hv_propagation.specs.Forced.{AreForced};
ghost use Rattle.hv_indexes.specs.Places.{clause_at};
ghost use Rattle.hv_propagation.specs.Clauses.{AreClauses};
ghost use Rattle.hv_propagation.specs.Marks.{known, over};
ghost use Rattle.hv_indexes.specs.Occurrences.{IsIndexOf};
ghost use Rattle.hv_indexes.specs.Signed.{StandsAs};
ghost use Rattle.hv_propagation.specs.Trail.{marked};

use crate::effect::ActionEffect;
use crate::trail::Assignment;
use crate::{chase, roots};
use hv_indexes::{Occurrences, Standing};
use hv_sets::{Clauses, Literal};

/// Looks at each clause of which the effect makes a literal false, where beside what was known
/// before the others tell nothing more. The clauses force these literals.
pub fn start(
    clauses: &Clauses,
    occurs: &Occurrences,
    forced: &[Literal],
    effect: &ActionEffect<'_>,
    marks: &mut Assignment<'_>,
) -> bool
    requires clauses { AreClauses (length marks.old.roots) clauses.now }
    requires index { IsIndexOf clauses.now occurs.now }
    requires forced { AreForced (length marks.old.roots) clauses.now forced.now }
    requires but { AreSettledBut effect.now clauses.now marks.old.roots }
    ensures followed { IsFollowed (λ state. in_clauses clauses.now (over effect.now state) ≡ true)
        marks.old marks.new result }
    ensures kept { result ≡ true → AreKept effect.now clauses.now marks.new 0 }
{
    if !start_value(clauses, occurs, forced, effect, false, marks) {
        return false;
    }
    start_value(clauses, occurs, forced, effect, true, marks)
}

// Looks at each clause of which a literal is false since the effect makes its atom this value.
fn start_value(
    clauses: &Clauses,
    occurs: &Occurrences,
    forced: &[Literal],
    effect: &ActionEffect<'_>,
    value: bool,
    marks: &mut Assignment<'_>,
) -> bool
    requires clauses { AreClauses (length marks.old.roots) clauses.now }
    requires index { IsIndexOf clauses.now occurs.now }
    requires forced { AreForced (length marks.old.roots) clauses.now forced.now }
    ensures followed { IsFollowed (λ state. in_clauses clauses.now (over effect.now state) ≡ true)
        marks.old marks.new result }
    ensures kept { result ≡ true → (place : ℕ) (l : Literal) → place < length clauses.now
        → Contains (clause_at clauses.now place) l → known effect.now l.atom ≡ Some value
        → l.positive ≡ not value → IsKept effect.now (clause_at clauses.now place) marks.new 0 }
{
    let turned = effect.turned(value);
    for atom in turned {
        let own = Literal {
            atom: *atom,
            positive: !value,
        };
        if !start_literal(clauses, occurs, forced, own, effect, marks) {
            return false;
        }
    }
    true
}

// Looks at each clause that has the literal, if the effect makes that false. Where the clauses
// force it, no state is left, and none of them has to be looked at.
fn start_literal(
    clauses: &Clauses,
    occurs: &Occurrences,
    forced: &[Literal],
    own: Literal,
    effect: &ActionEffect<'_>,
    marks: &mut Assignment<'_>,
) -> bool
    requires clauses { AreClauses (length marks.old.roots) clauses.now }
    requires index { IsIndexOf clauses.now occurs.now }
    requires forced { AreForced (length marks.old.roots) clauses.now forced.now }
    ensures followed { IsFollowed (λ state. in_clauses clauses.now (over effect.now state) ≡ true)
        marks.old marks.new result }
    ensures kept { result ≡ true → (value : Bool) → known effect.now own.atom ≡ Some value
        → own.positive ≡ not value → (place : ℕ)
        → StandsAs own.positive clauses.now own.atom place
        → IsKept effect.now (clause_at clauses.now place) marks.new 0 }
{
    if !is_made_false(own, effect) {
        return true;
    }
    let standing = occurs.standing(own);
    if is_forced(forced, marks.atoms(), &standing) {
        return false;
    }
    chase::visit_all(clauses, &standing, effect, marks)
}

// Whether the effect makes a literal false.
fn is_made_false(literal: Literal, effect: &ActionEffect<'_>) -> bool
    ensures yes { result ≡ true → known effect.now literal.atom ≡ Some (not literal.positive) }
    ensures no { result ≡ false → (value : Bool) → known effect.now literal.atom ≡ Some value
        → literal.positive ≡ not value → ⊥ }
{
    match effect.read(literal.atom) {
        None => false,
        Some(value) => value != literal.positive,
    }
}

// Whether a literal that stands somewhere is one of those that are forced.
fn is_forced(forced: &[Literal], atoms: usize, standing: &Standing<'_>) -> bool
    requires rises { IsStrictlyIncreasing (atoms_of forced.now) }
    requires below { 0 < length standing.now.places.now → standing.now.literal.atom < atoms }
    ensures { result ≡ true → known (marked atoms forced.now) standing.now.literal.atom
        ≡ Some standing.now.literal.positive }
{
    if standing.places.is_empty() {
        return false;
    }
    roots::said(forced, atoms, standing.literal.atom) == Some(standing.literal.positive)
}

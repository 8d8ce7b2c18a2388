//! Values of literals, and literals that are made true or false.

ghost use Rattle.std.specs.Prelude.{◌≡◌, ◌<◌, Some, false, true, length};
ghost use Rattle.std.specs.List.{All, Contains};
ghost use Rattle.hv_sets.specs.declared.literal.Literal.{Literal};
ghost use Rattle.hv_sets.specs.Cubes.{SpeakBelow};
ghost use Rattle.hv_sets.specs.Truth.{in_clause, in_cube, in_literal};
ghost use Rattle.hv_propagation.specs.Marks.{over};
ghost use Rattle.hv_propagation.specs.Trail.{Grows, marks_of};
ghost use Rattle.hv_propagation.specs.Units.{value_of, AreFalse, AreKnownTrue, IsConcluded};

use crate::effect::ActionEffect;
use crate::trail::Assignment;
use hv_sets::Literal;

/// Whether a literal is true, as far as that is known.
#[inline(always)]
pub fn value(effect: &ActionEffect<'_>, marks: &Assignment<'_>, literal: Literal) -> Option<bool>
    ensures { result ≡ value_of effect.now (marks_of marks.now) literal }
{
    let known = match effect.read(literal.atom) {
        None => marks.read(literal.atom),
        found => found,
    };
    match known {
        None => None,
        Some(value) => Some(value == literal.positive),
    }
}

// Whether the effect makes the literal true, or leaves its atom and the literal was found true: a
// quick look, which doesn't see what was known before.
#[inline(always)]
pub(crate) fn is_found_true(
    effect: &ActionEffect<'_>,
    marks: &Assignment<'_>,
    literal: Literal,
) -> bool
    ensures { result ≡ true → value_of effect.now (marks_of marks.now) literal ≡ Some true }
{
    match effect.read(literal.atom) {
        None => marks.has_found(literal),
        Some(value) => value == literal.positive,
    }
}

/// Whether a literal of the clause is known to be true.
pub fn has_true(clause: &[Literal], effect: &ActionEffect<'_>, marks: &Assignment<'_>) -> bool
    ensures yes { result ≡ true → (l : Literal) × Contains clause.now l ×
        (value_of effect.now (marks_of marks.now) l ≡ Some true) }
    ensures no { result ≡ false
        → All (λ l. value_of effect.now (marks_of marks.now) l ≡ Some true → ⊥) clause.now }
{
    for literal in clause {
        if value(effect, marks, *literal) == Some(true) {
            return true;
        }
    }
    false
}

/// Marks a literal as true. The answer is false if it is known to be false.
#[inline(always)]
pub fn force(literal: Literal, effect: &ActionEffect<'_>, marks: &mut Assignment<'_>) -> bool
    requires { literal.atom < length marks.old.roots }
    ensures forced { IsConcluded (λ state. in_literal literal (over effect.now state) ≡ true)
        (λ marks. value_of effect.now marks literal ≡ Some true) (marks_of marks.old)
        (marks_of marks.new) result }
    ensures grown { Grows marks.old marks.new }
{
    match value(effect, marks, literal) {
        Some(value) => value,
        None => {
            marks.write(literal);
            true
        }
    }
}

/// Marks each literal as true. The answer is false if one is known to be false.
pub fn force_all(
    literals: &[Literal],
    effect: &ActionEffect<'_>,
    marks: &mut Assignment<'_>,
) -> bool
    requires { SpeakBelow (length marks.old.roots) literals.now }
    ensures forced { IsConcluded (λ state. in_cube literals.now (over effect.now state) ≡ true)
        (AreKnownTrue effect.now literals.now) (marks_of marks.old) (marks_of marks.new) result }
    ensures grown { Grows marks.old marks.new }
{
    for literal in literals {
        if !force(*literal, effect, marks) {
            return false;
        }
    }
    true
}

/// Marks each literal as false. The answer is false if one is known to be true.
pub fn deny(clause: &[Literal], effect: &ActionEffect<'_>, marks: &mut Assignment<'_>) -> bool
    requires { SpeakBelow (length marks.old.roots) clause.now }
    ensures denied { IsConcluded (λ state. in_clause clause.now (over effect.now state) ≡ false)
        (AreFalse effect.now clause.now) (marks_of marks.old) (marks_of marks.new) result }
    ensures grown { Grows marks.old marks.new }
{
    for literal in clause {
        let opposite = Literal {
            atom: literal.atom,
            positive: !literal.positive,
        };
        if !force(opposite, effect, marks) {
            return false;
        }
    }
    true
}

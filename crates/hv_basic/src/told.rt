//! Statements that are told to be true before what they ask is put in order: their left side asks
//! for a set that the right one has, or for one that has a clause each of whose literals puts a
//! state into the right side.

ghost use Rattle.std.specs.Prelude.{◌≡◌, ◌<◌, ◌≤◌, ◌+◌, IfSome, true};
ghost use Rattle.std.specs.List.{Contains};
ghost use Rattle.hv_sets.specs.declared.literal.Literal.{Literal};
ghost use Rattle.hv_lines.specs.Numbering.{IsTable, expr_count};
ghost use Rattle.hv_lines.specs.Shapes.{AskingsRise, most_operands};
ghost use Rattle.hv_basic.specs.Cases.{lines_in};
ghost use Rattle.hv_basic.specs.Sharing.{IsPlainSide, NamesLiteral};
ghost use Rattle.hv_basic.specs.Working.Gathered.{HaveTheirFamilies};
ghost use Rattle.hv_basic.specs.Working.Told.{AreOfFamily, AskOneFamily, HasEnough, HasOwn};
ghost use Rattle.hv_basic.specs.Working.Told.{IsOwn, IsToldTrue, IsWithinLimits};

use crate::case::Case;
use crate::families::{family_with, is_in_clauses, one_family};
use crate::rights::{MOST_FEW, own_clauses};
use crate::shapes::MOST_OPERANDS;
use crate::shared::Kept;
use crate::shared_verdicts::{are_positive, is_among};
use crate::signed_sets::Asking;
use hv_lines::{FormulaFamily, Table};
use hv_sets::Literal;
use std::collections::BTreeSet;

/// Whether the statement is told to be true, of which the left side asks this, and the right one is
/// kept.
pub(crate) fn is_told(case: &Case<'_>, kept: &Kept, askings: &[Asking]) -> bool
    requires side { IsPlainSide (lines_in case.now) kept.now }
    requires families { HaveTheirFamilies (lines_in case.now) askings.now }
    ensures { result ≡ true → IsToldTrue (lines_in case.now) kept.now askings.now case.now.budget }
{
    if !is_affordable(kept, askings, case.budget) {
        return false;
    }
    if !asks_one_family(kept, askings) {
        return false;
    }
    if !are_positive(askings) {
        return false;
    }
    has_own(case.table, kept, askings)
}

/// Whether the sets are few enough, and the ways to choose clauses known to be within the budget.
fn is_affordable(kept: &Kept, askings: &[Asking], budget: u64) -> bool
    ensures { result ≡ true → IsWithinLimits kept.now askings.now budget }
{
    let Some(ways) = kept.ways else {
        return false;
    };
    ways <= budget
        && are_allowed(
            askings.len(),
            kept.negations.len(),
            kept.question.negative.len(),
        )
}

/// Whether a statement can have so many sets.
fn are_allowed(left: usize, negated: usize, plain: usize) -> bool
    ensures { result ≡ true → left + (negated + plain) ≤ most_operands }
{
    left <= MOST_OPERANDS
        && negated <= MOST_OPERANDS - left
        && plain <= MOST_OPERANDS - left - negated
}

/// Whether all formulas are of one family, over which the ways to choose clauses are the cost.
fn asks_one_family(kept: &Kept, askings: &[Asking]) -> bool
    ensures { result ≡ true → AskOneFamily kept.now askings.now }
{
    match family_of_sides(kept, askings) {
        None => false,
        Some(family) => is_in_clauses(family),
    }
}

/// The family of all formulas of both sides, if they are of one.
fn family_of_sides(kept: &Kept, askings: &[Asking]) -> Option<FormulaFamily>
    ensures { IfSome result (AreOfFamily kept.now askings.now) }
{
    let right = family_with(kept.family, kept.negated)?;
    one_family(askings, right)
}

/// Whether the left side asks for a set at the time of the right one by which it is within that.
fn has_own(table: &Table, kept: &Kept, askings: &[Asking]) -> bool
    requires table { IsTable table.now.lines }
    requires rises { AskingsRise kept.now.question.negative.items }
    requires families { HaveTheirFamilies table.now.lines askings.now }
    ensures { result ≡ true → HasOwn table.now.lines kept.now askings.now }
{
    let are_few = askings.len() <= MOST_FEW;
    for asking in askings {
        if asking.after == kept.after {
            if is_own(table, kept, asking.set, are_few) {
                return true;
            }
        }
    }
    false
}

/// Whether the right side has the set, or it has a clause that is enough, where that is looked at.
fn is_own(table: &Table, kept: &Kept, set: usize, looks: bool) -> bool
    requires rises { AskingsRise kept.now.question.negative.items }
    requires set { set < expr_count table.now.lines }
    ensures { result ≡ true → IsOwn table.now.lines kept.now set }
{
    is_among(&kept.question.negative, (set, kept.after))
        || (looks && has_enough(table, set, &kept.enough))
}

/// Whether the set has few clauses, and one whose literals are all among these.
fn has_enough(table: &Table, set: usize, enough: &BTreeSet<(u32, bool)>) -> bool
    requires { set < expr_count table.now.lines }
    ensures { result ≡ true → HasEnough table.now.lines set enough.now }
{
    let Some(clauses) = own_clauses(table.expr(set)) else {
        return false;
    };
    if clauses.len() > MOST_FEW {
        return false;
    }
    for place in 0..clauses.len() {
        if are_among(clauses.get(place), enough) {
            return true;
        }
    }
    false
}

/// Whether each literal of the clause is among these.
fn are_among(clause: &[Literal], enough: &BTreeSet<(u32, bool)>) -> bool
    ensures { result ≡ true → (literal : Literal) → Contains clause.now literal
        → NamesLiteral enough.now literal }
{
    for literal in clause {
        if !enough.contains(&(literal.atom, literal.positive)) {
            return false;
        }
    }
    true
}

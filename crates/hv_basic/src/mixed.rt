//! Inclusions between formulas of two families, each plain or negated.

ghost use Rattle.std.specs.Prelude.{◌≡◌, ◌<◌, ◌≤◌, true, false, None, IfOk, length};
ghost use Rattle.hv_task.specs.Strips.{atoms};
ghost use Rattle.hv_sets.specs.Cost.{IsAnswer};
ghost use Rattle.hv_sets.specs.Room.{KeepsLengths};
ghost use Rattle.hv_formula.specs.Clausal.{in_formula};
ghost use Rattle.hv_mixed.specs.Inclusion.{complement, difference};
ghost use Rattle.hv_lines.specs.Mixed.{clause_count, cost_of, count_unless, is_between};
ghost use Rattle.hv_lines.specs.Mixed.{listed_count};
ghost use Rattle.hv_lines.specs.Setting.{most_budget};
ghost use Rattle.hv_lines.specs.Shapes.{AreOfTwoFamilies};
ghost use Rattle.hv_lines.specs.Verdicts.{IsVerdictOfSides, IsVerdictOfTwo};
ghost use Rattle.hv_basic.specs.Working.Formulas.{AreApart, IsFormulaOn, IsFoundInclusion};
ghost use Rattle.hv_basic.specs.Working.Formulas.{apart_cost, cubes_to_cover, expr_of};
ghost use Rattle.hv_basic.specs.Working.Formulas.{formula_atoms, formula_has, inside_count};
ghost use Rattle.hv_basic.specs.Working.Formulas.{is_to_cover, outside_count, together_cost};
ghost use Rattle.hv_basic.specs.Working.Formulas.{within_cost};
ghost use Rattle.hv_basic.specs.Cases.{lines_in, setting_in};

use crate::any_formula::{AnyFormula, formula_of};
use crate::case::Case;
use crate::query_walk::clash_at;
use crate::signed_sets::SignedSet;
use hv_formula::{ClauseKind, Formula};
use hv_lines::Verdict;
use hv_mixed::{apart, together, within, within_states};
use hv_paths::{InsideWalked, OutsideAsked, OutsideWalked};
use hv_sets::{Finding, Scratch};
use std::alloc::{AllocError, Global};

/// A side of an inclusion: a formula, or its negation.
#[derive(Clone, Copy)]
pub(crate) struct SignedFormula<'a> {
    pub formula: AnyFormula<'a>,
    pub is_plain: bool,
}

/// The verdict on the inclusion of one formula in another, each plain or negated.
pub(crate) fn decide_two(
    alloc: Global,
    case: &Case<'_>,
    left: SignedSet,
    right: SignedSet,
    scratch: &mut Scratch,
) -> Result<Verdict, AllocError>
    requires families { AreOfTwoFamilies (lines_in case.now) left.set right.set }
    ensures answer { IfOk result (IsVerdictOfTwo (setting_in case.now) (lines_in case.now)
        (left.set, left.is_plain) (right.set, right.is_plain)) }
    ensures lengths { KeepsLengths scratch.old scratch.new }
{
    let left = SignedFormula {
        formula: formula_of(case, left.set),
        is_plain: left.is_plain,
    };
    let right = SignedFormula {
        formula: formula_of(case, right.set),
        is_plain: right.is_plain,
    };
    let verdict = decide_sides(alloc, case, &left, &right, scratch)?;
    Ok(verdict)
}

/// The verdict on the inclusion of a side in another.
fn decide_sides(
    alloc: Global,
    case: &Case<'_>,
    left: &SignedFormula<'_>,
    right: &SignedFormula<'_>,
    scratch: &mut Scratch,
) -> Result<Verdict, AllocError>
    requires left { IsFormulaOn case.now left.now.formula }
    requires right { IsFormulaOn case.now right.now.formula }
    requires families { AreApart left.now.formula right.now.formula }
    ensures answer { IfOk result (IsVerdictOfSides (setting_in case.now)
        (expr_of left.now.formula, left.now.is_plain)
        (expr_of right.now.formula, right.now.is_plain)) }
    ensures lengths { KeepsLengths scratch.old scratch.new }
{
    match find_between(alloc, case, left, right, scratch)? {
        None => Ok(Verdict::NotOffered),
        Some(Finding::Over) => Ok(Verdict::Over),
        Some(Finding::Empty) => Ok(Verdict::True),
        Some(Finding::Clash) => {
            let verdict = clash_at(alloc, None, scratch.state())?;
            Ok(verdict)
        }
    }
}

/// Whether the left side is within the right one, by the call that its signs ask for.
fn find_between(
    alloc: Global,
    case: &Case<'_>,
    left: &SignedFormula<'_>,
    right: &SignedFormula<'_>,
    scratch: &mut Scratch,
) -> Result<Option<Finding>, AllocError>
    requires left { IsFormulaOn case.now left.now.formula }
    requires right { IsFormulaOn case.now right.now.formula }
    requires families { AreApart left.now.formula right.now.formula }
    ensures answer { IfOk result (λ found. IsFoundInclusion case.now.budget
        (cost_of case.now.diagrams.now (expr_of left.now.formula, left.now.is_plain)
        (expr_of right.now.formula, right.now.is_plain)) (atoms case.now.task.now)
        (is_between (setting_in case.now) (expr_of left.now.formula, left.now.is_plain)
        (expr_of right.now.formula, right.now.is_plain)) found scratch.new.state) }
    ensures lengths { KeepsLengths scratch.old scratch.new }
{
    let budget = case.budget;
    match (left.is_plain, right.is_plain) {
        (true, true) => {
            let found = find_within(alloc, &left.formula, &right.formula, budget, scratch)?;
            Ok(found)
        }
        (false, false) => {
            let found = find_within(alloc, &right.formula, &left.formula, budget, scratch)?;
            Ok(found)
        }
        (true, false) => {
            let found = find_apart(alloc, &left.formula, &right.formula, budget, scratch)?;
            Ok(found)
        }
        (false, true) => {
            let found = find_together(alloc, &left.formula, &right.formula, budget, scratch)?;
            Ok(found)
        }
    }
}

/// Whether each state of the left formula is in the right one.
fn find_within(
    alloc: Global,
    left: &AnyFormula<'_>,
    right: &AnyFormula<'_>,
    budget: u64,
    scratch: &mut Scratch,
) -> Result<Option<Finding>, AllocError>
    requires budget { budget ≤ most_budget }
    requires atoms { formula_atoms left.now ≡ formula_atoms right.now }
    requires families { AreApart left.now right.now }
    ensures answer { IfOk result (λ found. IsFoundInclusion budget (within_cost left.now right.now)
        (formula_atoms left.now) (difference (formula_has left.now) (formula_has right.now))
        found scratch.new.state) }
    ensures lengths { KeepsLengths scratch.old scratch.new }
{
    match left {
        AnyFormula::States(_) => {
            let found = cover(alloc, left, right, budget, scratch)?;
            Ok(found)
        }
        AnyFormula::Horn(_) | AnyFormula::Dual(_) | AnyFormula::Two(_) | AnyFormula::Node(_) => {
            let found = within_by_rest(alloc, left, right, budget, scratch)?;
            Ok(found)
        }
    }
}

/// The same by the states outside the right formula.
fn within_by_rest(
    alloc: Global,
    left: &AnyFormula<'_>,
    right: &AnyFormula<'_>,
    budget: u64,
    scratch: &mut Scratch,
) -> Result<Option<Finding>, AllocError>
    requires budget { budget ≤ most_budget }
    requires atoms { formula_atoms left.now ≡ formula_atoms right.now }
    ensures answer { IfOk result (λ found. IsFoundInclusion budget (outside_count right.now)
        (formula_atoms left.now) (difference (formula_has left.now) (formula_has right.now))
        found scratch.new.state) }
    ensures lengths { KeepsLengths scratch.old scratch.new }
{
    match right {
        AnyFormula::Horn(set) => Ok(Some(within_rest(alloc, left, *set, budget, scratch)?)),
        AnyFormula::Dual(set) => Ok(Some(within_rest(alloc, left, *set, budget, scratch)?)),
        AnyFormula::Two(set) => Ok(Some(within_rest(alloc, left, *set, budget, scratch)?)),
        AnyFormula::Node(set) => Ok(Some(within_rest(alloc, left, set, budget, scratch)?)),
        AnyFormula::States(_) => Ok(None),
    }
}

/// The same for a right set with a walk over its complement.
fn within_rest<'a, R: OutsideWalked<'a>>(
    alloc: Global,
    left: &'a AnyFormula<'_>,
    right: &'a R,
    budget: u64,
    scratch: &mut Scratch,
) -> Result<Finding, AllocError>
    requires budget { budget ≤ most_budget }
    requires atoms { formula_atoms left.now ≡ R.atoms right.now }
    ensures answer { IfOk result (λ found. IsAnswer found (budget < length (R.outside right.now))
        (formula_atoms left.now) (difference (formula_has left.now) (R.has right.now))
        scratch.new.state) }
    ensures lengths { KeepsLengths scratch.old scratch.new }
{
    match left {
        AnyFormula::Horn(set) => within(alloc, *set, right, budget, scratch),
        AnyFormula::Dual(set) => within(alloc, *set, right, budget, scratch),
        AnyFormula::Two(set) => within(alloc, *set, right, budget, scratch),
        AnyFormula::States(set) => within(alloc, *set, right, budget, scratch),
        AnyFormula::Node(set) => within(alloc, set, right, budget, scratch),
    }
}

/// Whether no state is in both formulas.
fn find_apart(
    alloc: Global,
    left: &AnyFormula<'_>,
    right: &AnyFormula<'_>,
    budget: u64,
    scratch: &mut Scratch,
) -> Result<Option<Finding>, AllocError>
    requires budget { budget ≤ most_budget }
    requires atoms { formula_atoms left.now ≡ formula_atoms right.now }
    ensures answer { IfOk result (λ found. IsFoundInclusion budget (apart_cost left.now right.now)
        (formula_atoms left.now)
        (difference (formula_has left.now) (complement (formula_has right.now)))
        found scratch.new.state) }
    ensures lengths { KeepsLengths scratch.old scratch.new }
{
    if goes_first(left, right) {
        let found = apart_by_left(alloc, left, right, budget, scratch)?;
        Ok(found)
    } else {
        let found = apart_by_left(alloc, right, left, budget, scratch)?;
        Ok(found)
    }
}

/// Whether it is the states of the left formula that are gone through: those of an explicit set
/// before those of a diagram.
fn goes_first(left: &AnyFormula<'_>, right: &AnyFormula<'_>) -> bool
    ensures first { result ≡ true → inside_count left.now ≡ apart_cost left.now right.now }
    ensures second { result ≡ false → inside_count right.now ≡ apart_cost left.now right.now }
{
    match left {
        AnyFormula::States(_) => true,
        AnyFormula::Node(_) => match right {
            AnyFormula::States(_) => false,
            AnyFormula::Horn(_) | AnyFormula::Dual(_) | AnyFormula::Two(_) | AnyFormula::Node(_) =>
                true,
        },
        AnyFormula::Horn(_) | AnyFormula::Dual(_) | AnyFormula::Two(_) => false,
    }
}

/// The same by the states of the left formula.
fn apart_by_left(
    alloc: Global,
    left: &AnyFormula<'_>,
    right: &AnyFormula<'_>,
    budget: u64,
    scratch: &mut Scratch,
) -> Result<Option<Finding>, AllocError>
    requires budget { budget ≤ most_budget }
    requires atoms { formula_atoms left.now ≡ formula_atoms right.now }
    ensures answer { IfOk result (λ found. IsFoundInclusion budget (inside_count left.now)
        (formula_atoms left.now)
        (difference (formula_has left.now) (complement (formula_has right.now)))
        found scratch.new.state) }
    ensures lengths { KeepsLengths scratch.old scratch.new }
{
    match left {
        AnyFormula::States(set) => Ok(Some(apart_walk(alloc, *set, right, budget, scratch)?)),
        AnyFormula::Node(set) => Ok(Some(apart_walk(alloc, set, right, budget, scratch)?)),
        AnyFormula::Horn(_) | AnyFormula::Dual(_) | AnyFormula::Two(_) => Ok(None),
    }
}

/// The same for a left set with a walk over it.
fn apart_walk<'a, L: InsideWalked<'a>>(
    alloc: Global,
    left: &'a L,
    right: &'a AnyFormula<'_>,
    budget: u64,
    scratch: &mut Scratch,
) -> Result<Finding, AllocError>
    requires budget { budget ≤ most_budget }
    requires atoms { L.atoms left.now ≡ formula_atoms right.now }
    ensures answer { IfOk result (λ found. IsAnswer found (budget < length (L.inside left.now))
        (L.atoms left.now)
        (difference (L.has left.now) (complement (formula_has right.now))) scratch.new.state) }
    ensures lengths { KeepsLengths scratch.old scratch.new }
{
    match right {
        AnyFormula::Horn(set) => apart(alloc, left, *set, budget, scratch),
        AnyFormula::Dual(set) => apart(alloc, left, *set, budget, scratch),
        AnyFormula::Two(set) => apart(alloc, left, *set, budget, scratch),
        AnyFormula::States(set) => apart(alloc, left, *set, budget, scratch),
        AnyFormula::Node(set) => apart(alloc, left, set, budget, scratch),
    }
}

/// Whether each state is in one of the formulas.
fn find_together(
    alloc: Global,
    left: &AnyFormula<'_>,
    right: &AnyFormula<'_>,
    budget: u64,
    scratch: &mut Scratch,
) -> Result<Option<Finding>, AllocError>
    requires budget { budget ≤ most_budget }
    requires atoms { formula_atoms left.now ≡ formula_atoms right.now }
    ensures answer { IfOk result
        (λ found. IsFoundInclusion budget (together_cost left.now right.now)
        (formula_atoms left.now)
        (difference (complement (formula_has left.now)) (formula_has right.now))
        found scratch.new.state) }
    ensures lengths { KeepsLengths scratch.old scratch.new }
{
    match left {
        AnyFormula::Horn(_) | AnyFormula::Dual(_) | AnyFormula::Two(_) => {
            let found = cover(alloc, left, right, budget, scratch)?;
            Ok(found)
        }
        AnyFormula::States(_) | AnyFormula::Node(_) => {
            let found = together_by_right(alloc, left, right, budget, scratch)?;
            Ok(found)
        }
    }
}

/// The same, where the left formula isn't in clauses, by the clauses of the right one.
fn together_by_right(
    alloc: Global,
    left: &AnyFormula<'_>,
    right: &AnyFormula<'_>,
    budget: u64,
    scratch: &mut Scratch,
) -> Result<Option<Finding>, AllocError>
    requires budget { budget ≤ most_budget }
    requires atoms { formula_atoms left.now ≡ formula_atoms right.now }
    requires other { clause_count (expr_of left.now) ≡ None }
    ensures answer { IfOk result
        (λ found. IsFoundInclusion budget (together_cost left.now right.now)
        (formula_atoms left.now)
        (difference (complement (formula_has right.now)) (formula_has left.now))
        found scratch.new.state) }
    ensures lengths { KeepsLengths scratch.old scratch.new }
{
    match right {
        AnyFormula::Horn(_) | AnyFormula::Dual(_) | AnyFormula::Two(_) => {
            let found = cover(alloc, right, left, budget, scratch)?;
            Ok(found)
        }
        AnyFormula::States(_) | AnyFormula::Node(_) => Ok(None),
    }
}

/// Whether what is to be covered of the left formula is in the right one: its states where they are
/// listed, and the states outside of it where it is in clauses.
fn cover(
    alloc: Global,
    left: &AnyFormula<'_>,
    right: &AnyFormula<'_>,
    budget: u64,
    scratch: &mut Scratch,
) -> Result<Option<Finding>, AllocError>
    requires budget { budget ≤ most_budget }
    requires atoms { formula_atoms left.now ≡ formula_atoms right.now }
    ensures answer { IfOk result (λ found. IsFoundInclusion budget
        (count_unless (listed_count (expr_of right.now)) (cubes_to_cover left.now))
        (formula_atoms left.now) (difference (is_to_cover left.now) (formula_has right.now))
        found scratch.new.state) }
    ensures lengths { KeepsLengths scratch.old scratch.new }
{
    match right {
        AnyFormula::Horn(set) => cover_by_clauses(alloc, left, *set, budget, scratch),
        AnyFormula::Dual(set) => cover_by_clauses(alloc, left, *set, budget, scratch),
        AnyFormula::Two(set) => cover_by_clauses(alloc, left, *set, budget, scratch),
        AnyFormula::Node(set) => cover_by(alloc, left, set, budget, scratch),
        AnyFormula::States(_) => Ok(None),
    }
}

/// The same for a right formula in clauses.
fn cover_by_clauses<'a, K: ClauseKind + 'a>(
    alloc: Global,
    left: &'a AnyFormula<'_>,
    right: &'a Formula<K>,
    budget: u64,
    scratch: &mut Scratch,
) -> Result<Option<Finding>, AllocError>
    requires budget { budget ≤ most_budget }
    requires atoms { formula_atoms left.now ≡ right.now.atoms }
    ensures answer { IfOk result (λ found. IsFoundInclusion budget (cubes_to_cover left.now)
        (formula_atoms left.now) (difference (is_to_cover left.now) (in_formula right.now))
        found scratch.new.state) }
    ensures lengths { KeepsLengths scratch.old scratch.new }
{
    cover_by(alloc, left, right, budget, scratch)
}

/// The same for a right set of which can be asked whether it has all states of a cube.
fn cover_by<'a, R: OutsideAsked<'a>>(
    alloc: Global,
    left: &'a AnyFormula<'_>,
    right: &'a R,
    budget: u64,
    scratch: &mut Scratch,
) -> Result<Option<Finding>, AllocError>
    requires budget { budget ≤ most_budget }
    requires atoms { formula_atoms left.now ≡ R.atoms right.now }
    ensures answer { IfOk result (λ found. IsFoundInclusion budget (cubes_to_cover left.now)
        (formula_atoms left.now) (difference (is_to_cover left.now) (R.has right.now))
        found scratch.new.state) }
    ensures lengths { KeepsLengths scratch.old scratch.new }
{
    match left {
        AnyFormula::Horn(set) => Ok(Some(together(alloc, *set, right, budget, scratch)?)),
        AnyFormula::Dual(set) => Ok(Some(together(alloc, *set, right, budget, scratch)?)),
        AnyFormula::Two(set) => Ok(Some(together(alloc, *set, right, budget, scratch)?)),
        AnyFormula::States(set) => Ok(Some(within_states(alloc, *set, right, budget, scratch)?)),
        AnyFormula::Node(_) => Ok(None),
    }
}

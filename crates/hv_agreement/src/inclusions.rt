//! Whether inclusions between sets of two families are decided as going through all states says.

ghost use Rattle.std.specs.Prelude.{◌≡◌};
ghost use Rattle.hv_task.specs.Strips.{atoms};

use crate::queries::{BUDGETS, Budget, budget_at};
use crate::three::{
    ALL, explicit_of, fits, formula_of, is_dual_code, is_horn_code, is_two_code, states_of_clauses,
    states_of_list, task_of,
};
use hv_explicit::Explicit;
use hv_formula::{ClauseKind, Formula};
use hv_horn::{DualHornKind, HornKind};
use hv_mixed::{apart, together, within, within_states};
use hv_paths::{InsideAsked, InsideWalked, OutsideAsked, OutsideWalked};
use hv_sets::Scratch;
use hv_task::Task;
use hv_twocnf::{LeanTwoKind, TwoKind};
use std::alloc::{AllocError, Global};
use std::test::Fail;

// What an answer has to be: the states that are counterexamples, and what it costs.
#[derive(Clone, Copy)]
struct Expected {
    clashes: u32,
    cost: u64,
}

// A side of an inclusion: its states, and how many clauses or states it lists.
#[derive(Clone, Copy)]
struct CountedSet {
    states: u32,
    size: u64,
}

fn side_of_clauses(clauses: &[u32]) -> CountedSet {
    CountedSet {
        states: states_of_clauses(clauses),
        size: clauses.len() as u64,
    }
}

fn side_of_list(codes: &[u32]) -> CountedSet {
    CountedSet {
        states: states_of_list(codes),
        size: codes.len() as u64,
    }
}

// The cost is the number of clauses or states of the one side.
fn wanted_of(clashes: u32, side: CountedSet) -> Expected {
    Expected {
        clashes,
        cost: side.size,
    }
}

fn within_at<'a, L: InsideAsked<'a>, R: OutsideWalked<'a>>(
    alloc: Global,
    left: &'a L,
    right: &'a R,
    wanted: Expected,
    budget: Budget,
    scratch: &mut Scratch,
) -> Result<bool, AllocError>
    requires { L.atoms left.now ≡ R.atoms right.now }
{
    let budget = budget_at(wanted.cost, budget).min(16777216);
    let found = within(alloc, left, right, budget, scratch)?;
    Ok(fits(found, scratch.state(), wanted.clashes, wanted.cost > budget))
}

fn within_rightly<'a, L: InsideAsked<'a>, R: OutsideWalked<'a>>(
    alloc: Global,
    left: &'a L,
    right: &'a R,
    wanted: Expected,
    scratch: &mut Scratch,
) -> Result<bool, AllocError>
    requires { L.atoms left.now ≡ R.atoms right.now }
{
    let mut right_at_all = true;
    for budget in BUDGETS {
        right_at_all &= within_at(alloc, left, right, wanted, budget, scratch)?;
    }
    Ok(right_at_all)
}

fn within_states_at<'a, L: InsideWalked<'a>, R: OutsideAsked<'a>>(
    alloc: Global,
    left: &'a L,
    right: &'a R,
    wanted: Expected,
    budget: Budget,
    scratch: &mut Scratch,
) -> Result<bool, AllocError>
    requires { L.atoms left.now ≡ R.atoms right.now }
{
    let budget = budget_at(wanted.cost, budget).min(16777216);
    let found = within_states(alloc, left, right, budget, scratch)?;
    Ok(fits(found, scratch.state(), wanted.clashes, wanted.cost > budget))
}

fn within_states_rightly<'a, L: InsideWalked<'a>, R: OutsideAsked<'a>>(
    alloc: Global,
    left: &'a L,
    right: &'a R,
    wanted: Expected,
    scratch: &mut Scratch,
) -> Result<bool, AllocError>
    requires { L.atoms left.now ≡ R.atoms right.now }
{
    let mut right_at_all = true;
    for budget in BUDGETS {
        right_at_all &= within_states_at(alloc, left, right, wanted, budget, scratch)?;
    }
    Ok(right_at_all)
}

fn apart_at<'a, L: InsideWalked<'a>, R: InsideAsked<'a>>(
    alloc: Global,
    left: &'a L,
    right: &'a R,
    wanted: Expected,
    budget: Budget,
    scratch: &mut Scratch,
) -> Result<bool, AllocError>
    requires { L.atoms left.now ≡ R.atoms right.now }
{
    let budget = budget_at(wanted.cost, budget).min(16777216);
    let found = apart(alloc, left, right, budget, scratch)?;
    Ok(fits(found, scratch.state(), wanted.clashes, wanted.cost > budget))
}

fn apart_rightly<'a, L: InsideWalked<'a>, R: InsideAsked<'a>>(
    alloc: Global,
    left: &'a L,
    right: &'a R,
    wanted: Expected,
    scratch: &mut Scratch,
) -> Result<bool, AllocError>
    requires { L.atoms left.now ≡ R.atoms right.now }
{
    let mut right_at_all = true;
    for budget in BUDGETS {
        right_at_all &= apart_at(alloc, left, right, wanted, budget, scratch)?;
    }
    Ok(right_at_all)
}

fn together_at<'a, L: OutsideWalked<'a>, R: OutsideAsked<'a>>(
    alloc: Global,
    left: &'a L,
    right: &'a R,
    wanted: Expected,
    budget: Budget,
    scratch: &mut Scratch,
) -> Result<bool, AllocError>
    requires { L.atoms left.now ≡ R.atoms right.now }
{
    let budget = budget_at(wanted.cost, budget).min(16777216);
    let found = together(alloc, left, right, budget, scratch)?;
    Ok(fits(found, scratch.state(), wanted.clashes, wanted.cost > budget))
}

fn together_rightly<'a, L: OutsideWalked<'a>, R: OutsideAsked<'a>>(
    alloc: Global,
    left: &'a L,
    right: &'a R,
    wanted: Expected,
    scratch: &mut Scratch,
) -> Result<bool, AllocError>
    requires { L.atoms left.now ≡ R.atoms right.now }
{
    let mut right_at_all = true;
    for budget in BUDGETS {
        right_at_all &= together_at(alloc, left, right, wanted, budget, scratch)?;
    }
    Ok(right_at_all)
}

// Whether the inclusion of the first in the second, and that of all states in both, are answered
// rightly.
fn pair_is_right<L: ClauseKind, R: ClauseKind>(
    alloc: Global,
    first: &Formula<L>,
    second: &Formula<R>,
    left: CountedSet,
    right: CountedSet,
    scratch: &mut Scratch,
) -> Result<bool, AllocError>
    requires first { first.now.atoms ≡ 3 }
    requires second { second.now.atoms ≡ 3 }
{
    let outside = ALL & !right.states;
    let within = wanted_of(left.states & outside, right);
    let together = wanted_of(outside & !left.states, left);
    let one = within_rightly(alloc, first, second, within, scratch)?;
    let other = together_rightly(alloc, first, second, together, scratch)?;
    Ok(one & other)
}

// The same with either of them on the left.
fn both_are_right<L: ClauseKind, R: ClauseKind>(
    alloc: Global,
    first: &Formula<L>,
    second: &Formula<R>,
    left: CountedSet,
    right: CountedSet,
    scratch: &mut Scratch,
) -> Result<bool, AllocError>
    requires first { first.now.atoms ≡ 3 }
    requires second { second.now.atoms ≡ 3 }
{
    let one = pair_is_right(alloc, first, second, left, right, scratch)?;
    let other = pair_is_right(alloc, second, first, right, left, scratch)?;
    Ok(one & other)
}

fn formulas_are_right<L: ClauseKind, R: ClauseKind>(
    alloc: Global,
    first: &Formula<L>,
    second: &Formula<R>,
    left: CountedSet,
    right: CountedSet,
) -> Result<bool, AllocError>
    requires first { first.now.atoms ≡ 3 }
    requires second { second.now.atoms ≡ 3 }
{
    let mut scratch = Scratch::new(alloc)?;
    both_are_right(alloc, first, second, left, right, &mut scratch)
}

// The same where the second is a set of these clauses of its kind.
fn second_is_right<L: ClauseKind, R: ClauseKind>(
    alloc: Global,
    task: &Task,
    first: &Formula<L>,
    left: CountedSet,
    clauses: &[u32],
) -> Result<bool, R::Fault>
    requires task { atoms task.now ≡ 3 }
    requires first { first.now.atoms ≡ 3 }
{
    let second = formula_of::<R>(alloc, task, clauses)?;
    Ok(formulas_are_right(alloc, first, &second, left, side_of_clauses(clauses))?)
}

// A set of Horn clauses and one of clauses of two literals.
fn sets_are_right(alloc: Global, task: &Task, horn: &[u32], two: &[u32]) -> Result<bool, Fail>
    requires { atoms task.now ≡ 3 }
{
    let first = formula_of::<HornKind>(alloc, task, horn)?;
    let left = side_of_clauses(horn);
    let right = second_is_right::<HornKind, TwoKind>(alloc, task, &first, left, two)?;
    Ok(right)
}

fn clauses_are_right(alloc: Global, horn: &[u32], two: &[u32]) -> Result<bool, Fail> {
    let task = task_of(alloc, 0)?;
    sets_are_right(alloc, &task, horn, two)
}

// A set of dual Horn clauses, and one of Horn clauses and one of clauses of two literals.
fn dual_sets_are_right(
    alloc: Global,
    task: &Task,
    dual: &[u32],
    horn: &[u32],
    two: &[u32],
) -> Result<bool, Fail>
    requires { atoms task.now ≡ 3 }
{
    let first = formula_of::<DualHornKind>(alloc, task, dual)?;
    let left = side_of_clauses(dual);
    let one = second_is_right::<DualHornKind, HornKind>(alloc, task, &first, left, horn)?;
    let other = second_is_right::<DualHornKind, TwoKind>(alloc, task, &first, left, two)?;
    Ok(one & other)
}

fn dual_clauses_are_right(
    alloc: Global,
    dual: &[u32],
    horn: &[u32],
    two: &[u32],
) -> Result<bool, Fail> {
    let task = task_of(alloc, 0)?;
    dual_sets_are_right(alloc, &task, dual, horn, two)
}

// A set of listed states on the left, and one of clauses of any kind.
fn states_are_right<K: ClauseKind>(
    alloc: Global,
    listing: &Explicit,
    formula: &Formula<K>,
    left: CountedSet,
    right: CountedSet,
    scratch: &mut Scratch,
) -> Result<bool, AllocError>
    requires listing { listing.now.atoms ≡ 3 }
    requires formula { formula.now.atoms ≡ 3 }
{
    let within = wanted_of(left.states & !right.states, left);
    let apart = wanted_of(left.states & right.states, left);
    let one = within_states_rightly(alloc, listing, formula, within, scratch)?;
    let other = apart_rightly(alloc, listing, formula, apart, scratch)?;
    Ok(one & other)
}

fn answers_are_right<K: ClauseKind>(
    alloc: Global,
    listing: &Explicit,
    formula: &Formula<K>,
    left: CountedSet,
    right: CountedSet,
) -> Result<bool, AllocError>
    requires listing { listing.now.atoms ≡ 3 }
    requires formula { formula.now.atoms ≡ 3 }
{
    let mut scratch = Scratch::new(alloc)?;
    states_are_right(alloc, listing, formula, left, right, &mut scratch)
}

// The same for a set of these clauses.
fn formula_is_right<K: ClauseKind>(
    alloc: Global,
    task: &Task,
    listing: &Explicit,
    left: CountedSet,
    clauses: &[u32],
) -> Result<bool, K::Fault>
    requires task { atoms task.now ≡ 3 }
    requires listing { listing.now.atoms ≡ 3 }
{
    let formula = formula_of::<K>(alloc, task, clauses)?;
    let right = side_of_clauses(clauses);
    Ok(answers_are_right(alloc, listing, &formula, left, right)?)
}

fn codes_are_right(alloc: Global, horn: u32, two: u32) -> Result<bool, Fail> {
    if !is_horn_code(horn) | !is_two_code(two) {
        return Ok(true);
    }
    let alone = clauses_are_right(alloc, &[horn], &[two])?;
    let beside = clauses_are_right(alloc, &[horn, 3, 42], &[5, 24, two])?;
    let turned = clauses_are_right(alloc, &[42, horn | 128, 3, horn], &[two | 128, 24, 133])?;
    let full = clauses_are_right(alloc, &[154, horn, 41, 170, 38], &[two | 128, 133])?;
    Ok(alone & beside & turned & full)
}

// Whether the Horn clause of this code and each clause of two literals are.
fn row_is_right(alloc: Global, horn: u32) -> Result<bool, Fail> {
    let mut right = true;
    for two in 0..64 {
        right &= codes_are_right(alloc, horn, two)?;
    }
    Ok(right)
}

// The same of the dual Horn clause of the one code, and of the Horn clause and the clause of two
// literals of the other; where its clause isn't of a kind, an own one of that kind denotes it.
fn dual_codes_are_right(alloc: Global, dual: u32, other: u32) -> Result<bool, Fail> {
    if !is_dual_code(dual) {
        return Ok(true);
    }
    let horn = if is_horn_code(other) { other } else { 42 };
    let two = if is_two_code(other) { other } else { 5 };
    let alone = dual_clauses_are_right(alloc, &[dual], &[horn], &[two])?;
    let beside = dual_clauses_are_right(alloc, &[dual, 3, 21], &[horn, 42], &[5, 24, two])?;
    let turned = dual_clauses_are_right(alloc, &[21, dual | 128], &[horn | 128, 3], &[133, two])?;
    let full = [165, dual, 22, 149, 25];
    let full = dual_clauses_are_right(alloc, &full, &[154, horn, 41, 38], &[two | 128, 133])?;
    Ok(alone & beside & turned & full)
}

// Whether the dual Horn clause of this code and each clause of the other kinds are.
fn dual_row_is_right(alloc: Global, dual: u32) -> Result<bool, Fail> {
    let mut right = true;
    for other in 0..64 {
        right &= dual_codes_are_right(alloc, dual, other)?;
    }
    Ok(right)
}

fn empty_is_right(
    alloc: Global,
    task: &Task,
    listing: &Explicit,
    left: CountedSet,
) -> Result<bool, Fail>
    requires task { atoms task.now ≡ 3 }
    requires listing { listing.now.atoms ≡ 3 }
{
    let horn = formula_is_right::<HornKind>(alloc, task, listing, left, &[])?;
    let dual = formula_is_right::<DualHornKind>(alloc, task, listing, left, &[])?;
    let two = formula_is_right::<TwoKind>(alloc, task, listing, left, &[])?;
    Ok(horn & dual & two)
}

fn code_is_right(
    alloc: Global,
    task: &Task,
    listing: &Explicit,
    left: CountedSet,
    code: u32,
) -> Result<bool, Fail>
    requires task { atoms task.now ≡ 3 }
    requires listing { listing.now.atoms ≡ 3 }
{
    let mut right = true;
    if is_horn_code(code) {
        right &= formula_is_right::<HornKind>(alloc, task, listing, left, &[3, code])?;
        right &= formula_is_right::<HornKind>(alloc, task, listing, left, &[170, code | 128])?;
    }
    if is_two_code(code) {
        right &= formula_is_right::<TwoKind>(alloc, task, listing, left, &[code, 3])?;
        right &= formula_is_right::<LeanTwoKind>(alloc, task, listing, left, &[code, 3])?;
    }
    Ok(right)
}

fn dual_code_is_right(
    alloc: Global,
    task: &Task,
    listing: &Explicit,
    left: CountedSet,
    code: u32,
) -> Result<bool, Fail>
    requires task { atoms task.now ≡ 3 }
    requires listing { listing.now.atoms ≡ 3 }
{
    if !is_dual_code(code) {
        return Ok(true);
    }
    let dual = formula_is_right::<DualHornKind>(alloc, task, listing, left, &[3, code])?;
    let turned = formula_is_right::<DualHornKind>(alloc, task, listing, left, &[149, code | 128])?;
    Ok(dual & turned)
}

// Whether a set of listed states and a set of each clause of each kind are.
fn listing_is_right(
    alloc: Global,
    task: &Task,
    listing: &Explicit,
    left: CountedSet,
) -> Result<bool, Fail>
    requires task { atoms task.now ≡ 3 }
    requires listing { listing.now.atoms ≡ 3 }
{
    let mut right = empty_is_right(alloc, task, listing, left)?;
    for code in 0..64 {
        right &= code_is_right(alloc, task, listing, left, code)?;
        right &= dual_code_is_right(alloc, task, listing, left, code)?;
    }
    Ok(right)
}

// The same for the set of these listed states.
fn listed_are_right(alloc: Global, task: &Task, codes: &[u32]) -> Result<bool, Fail>
    requires { atoms task.now ≡ 3 }
{
    let listing = explicit_of(alloc, task, codes)?;
    listing_is_right(alloc, task, &listing, side_of_list(codes))
}

fn list_is_right(alloc: Global, codes: &[u32]) -> Result<bool, Fail> {
    let task = task_of(alloc, 0)?;
    listed_are_right(alloc, &task, codes)
}

// The sets go from the empty one to that of all states; a clause that is true in all states has no
// cube.
#[test]
fn clauses_of_two_kinds_include_each_other_as_all_states_say(rt: HostRuntime) -> Result<(), Fail> {
    assert!(rt; clauses_are_right(rt.alloc(), &[], &[])?);
    for horn in 0..64 {
        assert!(rt; row_is_right(rt.alloc(), horn)?, "at {horn}");
    }
    Ok(())
}

#[test]
fn dual_horn_clauses_and_others_include_each_other_as_all_states_say(
    rt: HostRuntime,
) -> Result<(), Fail> {
    assert!(rt; dual_clauses_are_right(rt.alloc(), &[], &[], &[])?);
    for dual in 0..64 {
        assert!(rt; dual_row_is_right(rt.alloc(), dual)?, "at {dual}");
    }
    Ok(())
}

#[test]
fn listed_states_are_included_and_apart_as_all_states_say(rt: HostRuntime) -> Result<(), Fail> {
    assert!(rt; list_is_right(rt.alloc(), &[])?);
    assert!(rt; list_is_right(rt.alloc(), &[7])?);
    assert!(rt; list_is_right(rt.alloc(), &[7, 2])?);
    assert!(rt; list_is_right(rt.alloc(), &[7, 2, 7])?);
    assert!(rt; list_is_right(rt.alloc(), &[7, 2, 7, 4])?);
    Ok(())
}

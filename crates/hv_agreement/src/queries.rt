//! Whether the families of sets answer queries as going through all states says.

ghost use Rattle.std.specs.Prelude.{◌≡◌, ◌<◌, ◌+◌, ◌∷◌, [], false, true, None, IfOk, IfSome, OnOk};
ghost use Rattle.std.specs.Prelude.{length};
ghost use Rattle.hv_task.specs.Strips.{atoms};
ghost use Rattle.hv_sets.specs.Cost.{clauses_of};
ghost use Rattle.hv_sets.specs.Query.{HasAnchor, IsNamed, IsReady};
ghost use Rattle.hv_sets.specs.Room.{HasRoom};
ghost use Rattle.hv_sets.specs.declared.operand.Which.TheVariants as W;
ghost use Rattle.hv_clauses.specs.Store.{sizes_of, AreOver, formula_at};
ghost use Rattle.hv_explicit.specs.ListedStates as listing;
ghost use Rattle.hv_agreement.specs.declared.queries.Measure.TheVariants as M;

use crate::operands::{one_operand, operand, two_operands};
use crate::three::{
    ALL, GOAL_STATES, START_STATES, explicit_of, fits, formula_of, holding, is_dual_code,
    is_horn_code, is_two_code, leading_to, states_of_clauses, states_of_list, task_of,
};
use crate::tuples::{Fronts, live_tuples};
use hv_clauses::Formulas;
use hv_explicit::Explicits;
use hv_formula::ClauseKind;
use hv_horn::{DualHornKind, HornKind};
use hv_sets::{Family, Finding, Operands, Query, Scratch, Which};
use hv_task::Task;
use hv_twocnf::{LeanTwoKind, TwoKind};
use std::alloc::{AllocError, Global};
use std::test::Fail;

// What a query asks of a store of so many sets: of one positive operand or two, and of one negative
// one or two. The last positive operand and the first negative one may be asked about after the
// action.
#[derive(Clone, Copy)]
struct QueryShape {
    count: usize,
    positive: Which,
    joined: Option<Which>,
    negative: Which,
    other: Option<Which>,
    acts: bool,
    positive_after: bool,
    negative_after: bool,
}

// What the cost of a query counts: the choices of a clause of each negative operand, the states
// that the anchor lists, or the live tuples in the order with these prefixes.
#[derive(Clone, Copy, PartialEq, Eq)]
pub(crate) enum Measure {
    Choices,
    Listed,
    Tuples(Fronts),
}

// A set of a store: its number there, its states, and how many clauses or states it lists. For a
// node that number isn't read.
#[derive(Clone, Copy)]
pub(crate) struct Named {
    pub(crate) number: usize,
    pub(crate) states: u32,
    pub(crate) size: u64,
}

// What is asked of a store of so many sets: which two of them are asked about, what the action asks
// for, and what the cost of a query counts.
#[derive(Clone, Copy)]
pub(crate) struct Wanted {
    pub(crate) count: usize,
    pub(crate) first: Named,
    pub(crate) second: Named,
    pub(crate) pre: u32,
    pub(crate) measure: Measure,
}

const CASES: u32 = 1375;

// The first so many have one positive and one negative operand.
const PLAIN_CASES: u32 = 125;

// The constants and the two sets, by a number below 5.
fn which_of(number: u32, wanted: Wanted) -> Which
    requires first { wanted.first.number < wanted.count }
    requires second { wanted.second.number < wanted.count }
    ensures { IsNamed wanted.count result }
{
    match number {
        0 => Which::Empty,
        1 => Which::Start,
        2 => Which::Set(wanted.first.number),
        3 => Which::Set(wanted.second.number),
        _ => Which::Goal,
    }
}

// Whether there is an action, and what is asked after it.
fn times_of(number: u32) -> [bool; 3] {
    match number {
        0 => [false, false, false],
        1 => [true, false, false],
        2 => [true, true, false],
        3 => [true, false, true],
        _ => [true, true, true],
    }
}

fn joined_of(number: u32, wanted: Wanted) -> Option<Which>
    requires first { wanted.first.number < wanted.count }
    requires second { wanted.second.number < wanted.count }
    ensures { IfSome result (IsNamed wanted.count) }
{
    if number < 6 {
        return None;
    }
    Some(which_of(number - 6, wanted))
}

fn other_of(number: u32, wanted: Wanted) -> Option<Which>
    requires first { wanted.first.number < wanted.count }
    requires second { wanted.second.number < wanted.count }
    ensures { IfSome result (IsNamed wanted.count) }
{
    if number == 0 || number > 5 {
        return None;
    }
    Some(which_of(number - 1, wanted))
}

fn case_of(number: u32, wanted: Wanted) -> QueryShape
    requires first { wanted.first.number < wanted.count }
    requires second { wanted.second.number < wanted.count }
    ensures count { result.count ≡ wanted.count }
    ensures positive { IsNamed result.count result.positive }
    ensures joined { IfSome result.joined (IsNamed result.count) }
    ensures negative { IsNamed result.count result.negative }
    ensures other { IfSome result.other (IsNamed result.count) }
    ensures positive_after { result.acts ≡ false → result.positive_after ≡ false }
    ensures negative_after { result.acts ≡ false → result.negative_after ≡ false }
{
    let [acts, positive_after, negative_after] = times_of(number / 25 % 5);
    QueryShape {
        count: wanted.count,
        positive: which_of(number % 5, wanted),
        joined: joined_of(number / 125, wanted),
        negative: which_of(number / 5 % 5, wanted),
        other: other_of(number / 125, wanted),
        acts,
        positive_after: acts && positive_after,
        negative_after: acts && negative_after,
    }
}

// Whether the first positive operand is the anchor, where the family wants one.
fn is_askable(measure: Measure, case: QueryShape) -> bool
    ensures anchor { result ≡ true → measure ≡ M.Listed → case.positive ≡ W.Goal → ⊥ }
    ensures before { result ≡ true → measure ≡ M.Listed → case.joined ≡ None
        → case.positive_after ≡ false }
{
    if measure != Measure::Listed {
        return true;
    }
    if case.positive == Which::Goal {
        return false;
    }
    case.joined.is_some() || !case.positive_after
}

// The number of the action, if there is one.
fn action_of(acts: bool) -> Option<u32>
    ensures zero { IfSome result (λ action. action ≡ 0) }
    ensures none { result ≡ None → acts ≡ false }
{
    if acts { Some(0) } else { None }
}

// A query of one positive operand and one negative one.
fn plain_query(alloc: Global, case: QueryShape) -> Result<Query, AllocError>
    requires positive { IsNamed case.count case.positive }
    requires negative { IsNamed case.count case.negative }
    requires positive_after { case.acts ≡ false → case.positive_after ≡ false }
    requires negative_after { case.acts ≡ false → case.negative_after ≡ false }
    ensures ready { IfOk result (IsReady case.count) }
    ensures anchor { (case.positive ≡ W.Goal → ⊥) → case.positive_after ≡ false
        → IfOk result HasAnchor }
    ensures action { IfOk result (λ query. IfSome query.action (λ action. action ≡ 0)) }
    ensures one { IfOk result (λ query. query.positive
        ≡ record { which = case.positive; id = 0; after = case.positive_after } ∷ []) }
    ensures alone { IfOk result (λ query. query.negative
        ≡ record { which = case.negative; id = 1; after = case.negative_after } ∷ []) }
{
    let mut query = Query {
        positive: Operands::new(alloc),
        negative: Operands::new(alloc),
        action: action_of(case.acts),
    };
    let first = operand(case.positive, 0, case.positive_after);
    query.positive.push(first)?;
    let second = operand(case.negative, 1, case.negative_after);
    query.negative.push(second)?;
    Ok(query)
}

// A query of one positive operand and two negative ones.
fn wider_query(alloc: Global, case: QueryShape, other: Which) -> Result<Query, AllocError>
    requires positive { IsNamed case.count case.positive }
    requires negative { IsNamed case.count case.negative }
    requires other { IsNamed case.count other }
    requires positive_after { case.acts ≡ false → case.positive_after ≡ false }
    requires negative_after { case.acts ≡ false → case.negative_after ≡ false }
    ensures ready { IfOk result (IsReady case.count) }
    ensures anchor { (case.positive ≡ W.Goal → ⊥) → case.positive_after ≡ false
        → IfOk result HasAnchor }
    ensures action { IfOk result (λ query. IfSome query.action (λ action. action ≡ 0)) }
{
    let last = operand(other, 2, false);
    Ok(Query {
        positive: one_operand(alloc, case.positive, 0, case.positive_after)?,
        negative: two_operands(alloc, case.negative, 1, case.negative_after, last)?,
        action: action_of(case.acts),
    })
}

// A query of two positive operands.
fn joined_query(alloc: Global, case: QueryShape, joined: Which) -> Result<Query, AllocError>
    requires positive { IsNamed case.count case.positive }
    requires joined { IsNamed case.count joined }
    requires negative { IsNamed case.count case.negative }
    requires positive_after { case.acts ≡ false → case.positive_after ≡ false }
    requires negative_after { case.acts ≡ false → case.negative_after ≡ false }
    ensures ready { IfOk result (IsReady case.count) }
    ensures anchor { (case.positive ≡ W.Goal → ⊥) → IfOk result HasAnchor }
    ensures action { IfOk result (λ query. IfSome query.action (λ action. action ≡ 0)) }
{
    let second = operand(joined, 1, case.positive_after);
    Ok(Query {
        positive: two_operands(alloc, case.positive, 0, false, second)?,
        negative: one_operand(alloc, case.negative, 2, case.negative_after)?,
        action: action_of(case.acts),
    })
}

// A query of one positive operand.
fn single_query(alloc: Global, case: QueryShape) -> Result<Query, AllocError>
    requires positive { IsNamed case.count case.positive }
    requires negative { IsNamed case.count case.negative }
    requires other { IfSome case.other (IsNamed case.count) }
    requires positive_after { case.acts ≡ false → case.positive_after ≡ false }
    requires negative_after { case.acts ≡ false → case.negative_after ≡ false }
    ensures ready { IfOk result (IsReady case.count) }
    ensures anchor { (case.positive ≡ W.Goal → ⊥) → case.positive_after ≡ false
        → IfOk result HasAnchor }
    ensures action { IfOk result (λ query. IfSome query.action (λ action. action ≡ 0)) }
{
    match case.other {
        None => plain_query(alloc, case),
        Some(other) => wider_query(alloc, case, other),
    }
}

fn query_of(alloc: Global, case: QueryShape) -> Result<Query, AllocError>
    requires positive { IsNamed case.count case.positive }
    requires joined { IfSome case.joined (IsNamed case.count) }
    requires negative { IsNamed case.count case.negative }
    requires other { IfSome case.other (IsNamed case.count) }
    requires positive_after { case.acts ≡ false → case.positive_after ≡ false }
    requires negative_after { case.acts ≡ false → case.negative_after ≡ false }
    ensures ready { IfOk result (IsReady case.count) }
    ensures anchor { (case.positive ≡ W.Goal → ⊥)
        → (case.joined ≡ None → case.positive_after ≡ false) → IfOk result HasAnchor }
    ensures action { IfOk result (λ query. IfSome query.action (λ action. action ≡ 0)) }
{
    match case.joined {
        None => single_query(alloc, case),
        Some(joined) => joined_query(alloc, case, joined),
    }
}

// The set of the store that has this number.
fn set_at(number: usize, wanted: Wanted) -> Named {
    if number == wanted.first.number {
        wanted.first
    } else {
        wanted.second
    }
}

// The states of an operand that is asked about before the action.
pub(crate) fn states_in(which: Which, wanted: Wanted) -> u32 {
    match which {
        Which::Empty => 0,
        Which::Start => START_STATES,
        Which::Goal => GOAL_STATES,
        Which::Set(number) => set_at(number, wanted).states,
    }
}

// The states of an operand, or those of which the result of the action is one.
fn states_of(which: Which, after: bool, wanted: Wanted) -> u32 {
    let mask = states_in(which, wanted);
    if after { leading_to(mask) } else { mask }
}

// The states that are counterexamples.
fn clashes_of(case: QueryShape, wanted: Wanted) -> u32 {
    let mut mask = if case.acts { holding(wanted.pre) } else { ALL };
    let first_after = case.positive_after && case.joined.is_none();
    mask &= states_of(case.positive, first_after, wanted);
    if let Some(joined) = case.joined {
        mask &= states_of(joined, case.positive_after, wanted);
    }
    if let Some(other) = case.other {
        mask &= !states_of(other, false, wanted);
    }
    mask & !states_of(case.negative, case.negative_after, wanted)
}

fn clauses_in(which: Which, wanted: Wanted) -> u64 {
    match which {
        Which::Empty => 1,
        Which::Start => 3,
        Which::Goal => 2,
        Which::Set(number) => set_at(number, wanted).size,
    }
}

fn listed_in(which: Which, wanted: Wanted) -> u64 {
    match which {
        Which::Empty | Which::Goal => 0,
        Which::Start => 1,
        Which::Set(number) => set_at(number, wanted).size,
    }
}

// The choices of a clause of each negative operand. No set of these tests is so large that the
// product wraps.
fn choices_of(case: QueryShape, wanted: Wanted) -> u64 {
    let one = clauses_in(case.negative, wanted);
    match case.other {
        None => one,
        Some(other) => one.wrapping_mul(clauses_in(other, wanted)),
    }
}

// What the query of this case costs.
fn cost_of(
    alloc: Global,
    case: QueryShape,
    query: &Query,
    wanted: Wanted,
) -> Result<u64, AllocError> {
    match wanted.measure {
        Measure::Choices => Ok(choices_of(case, wanted)),
        Measure::Listed => Ok(listed_in(case.positive, wanted)),
        Measure::Tuples(fronts) => live_tuples(alloc, query, wanted, fronts),
    }
}

// The budget of a query: one less than its cost, its cost, or a large one.
#[derive(Clone, Copy)]
pub(crate) enum Budget {
    Short,
    Exact,
    Large,
}

pub(crate) const BUDGETS: [Budget; 3] = [Budget::Short, Budget::Exact, Budget::Large];

pub(crate) fn budget_at(cost: u64, budget: Budget) -> u64 {
    match budget {
        Budget::Short => cost.saturating_sub(1),
        Budget::Exact => cost,
        Budget::Large => u64::MAX,
    }
}

// What is asked of a query: its counterexamples, what it costs, and within which budget.
#[derive(Clone, Copy)]
struct QueryAnswer {
    clashes: u32,
    cost: u64,
    budget: Budget,
}

// Whether the query is answered as all states say.
fn answer_is_right<F: Family>(
    alloc: Global,
    task: &Task,
    sets: &F,
    query: &Query,
    answer: QueryAnswer,
    scratch: &mut Scratch,
) -> Result<bool, AllocError>
    requires ready { IsReady (F.count sets.now) query.now }
    requires anchor { F.wants_anchor sets.now → HasAnchor query.now }
    requires task { F.is_over sets.now (atoms task.now) }
    requires action { IfSome query.now.action (λ action. action < length task.now.actions) }
{
    let budget = budget_at(answer.cost, answer.budget);
    let found = sets.find(alloc, task, query, budget, scratch)?;
    Ok(fits(found, scratch.state(), answer.clashes, answer.cost > budget))
}

// The same within each of its budgets.
fn query_is_right<F: Family>(
    alloc: Global,
    task: &Task,
    sets: &F,
    query: &Query,
    answer: QueryAnswer,
    scratch: &mut Scratch,
) -> Result<bool, AllocError>
    requires ready { IsReady (F.count sets.now) query.now }
    requires anchor { F.wants_anchor sets.now → HasAnchor query.now }
    requires task { F.is_over sets.now (atoms task.now) }
    requires action { IfSome query.now.action (λ action. action < length task.now.actions) }
{
    let mut right = true;
    for budget in BUDGETS {
        let answer = QueryAnswer { budget, ..answer };
        right &= answer_is_right(alloc, task, sets, query, answer, scratch)?;
    }
    Ok(right)
}

// What is asked of the query of this case, within its cost.
fn answer_of(
    alloc: Global,
    case: QueryShape,
    query: &Query,
    wanted: Wanted,
) -> Result<QueryAnswer, AllocError> {
    Ok(QueryAnswer {
        clashes: clashes_of(case, wanted),
        cost: cost_of(alloc, case, query, wanted)?,
        budget: Budget::Exact,
    })
}

// The same for the case of this number, where it can be asked about.
fn case_is_right<F: Family>(
    alloc: Global,
    task: &Task,
    sets: &F,
    wanted: Wanted,
    number: u32,
    scratch: &mut Scratch,
) -> Result<bool, AllocError>
    requires first { wanted.first.number < wanted.count }
    requires second { wanted.second.number < wanted.count }
    requires actions { length task.now.actions ≡ 1 }
    requires count { F.count sets.now ≡ wanted.count }
    requires over { F.is_over sets.now (atoms task.now) }
    requires anchor { F.wants_anchor sets.now → wanted.measure ≡ M.Listed }
{
    let case = case_of(number, wanted);
    if !is_askable(wanted.measure, case) {
        return Ok(true);
    }
    let query = query_of(alloc, case)?;
    let answer = answer_of(alloc, case, &query, wanted)?;
    query_is_right(alloc, task, sets, &query, answer, scratch)
}

// Whether each query is answered rightly.
pub(crate) fn all_are_right<F: Family>(
    alloc: Global,
    task: &Task,
    sets: &F,
    wanted: Wanted,
) -> Result<bool, AllocError>
    requires first { wanted.first.number < wanted.count }
    requires second { wanted.second.number < wanted.count }
    requires actions { length task.now.actions ≡ 1 }
    requires count { F.count sets.now ≡ wanted.count }
    requires over { F.is_over sets.now (atoms task.now) }
    requires anchor { F.wants_anchor sets.now → wanted.measure ≡ M.Listed }
{
    let mut scratch = Scratch::new(alloc)?;
    let mut right = true;
    for number in 0..CASES {
        right &= case_is_right(alloc, task, sets, wanted, number, &mut scratch)?;
    }
    Ok(right)
}

// How many clauses the operand has.
fn room_of<K: ClauseKind>(task: &Task, sets: &Formulas<K>, which: Which) -> usize
    requires { IsNamed (length sets.now) which }
    ensures { result ≡ clauses_of task.now (sizes_of (formula_at sets.now)) which }
{
    match which {
        Which::Empty => 1,
        Which::Start => task.atoms() as usize,
        Which::Goal => task.goal().len(),
        Which::Set(number) => sets.get(number).clauses().len(),
    }
}

// Makes the room that a query of these operands wants.
fn make_room<K: ClauseKind>(
    task: &Task,
    sets: &Formulas<K>,
    positive: Which,
    negative: Which,
    scratch: &mut Scratch,
) -> Result<(), AllocError>
    requires positive { IsNamed (length sets.now) positive }
    requires negative { IsNamed (length sets.now) negative }
    ensures { OnOk result (HasRoom (atoms task.now) 2
        (clauses_of task.now (sizes_of (formula_at sets.now)) positive
        + clauses_of task.now (sizes_of (formula_at sets.now)) negative) scratch.new) }
{
    let first = room_of(task, sets, positive);
    let second = room_of(task, sets, negative);
    if first > 1000 || second > 1000 {
        return Err(AllocError);
    }
    scratch.reserve(task.atoms(), 2, first + second)
}

// Asks a query of one positive and one negative operand, with the room that it wants. The program
// asks by calls that may take memory: `find_in` is there for callers.
fn ask_in<K: ClauseKind>(
    alloc: Global,
    task: &Task,
    sets: &Formulas<K>,
    case: QueryShape,
    budget: u64,
    scratch: &mut Scratch,
) -> Result<Finding, AllocError>
    requires actions { length task.now.actions ≡ 1 }
    requires count { length sets.now ≡ case.count }
    requires over { AreOver sets.now (atoms task.now) }
    requires positive { IsNamed case.count case.positive }
    requires negative { IsNamed case.count case.negative }
    requires positive_after { case.acts ≡ false → case.positive_after ≡ false }
    requires negative_after { case.acts ≡ false → case.negative_after ≡ false }
{
    make_room(task, sets, case.positive, case.negative, scratch)?;
    let query = plain_query(alloc, case)?;
    Ok(sets.find_in(task, &query, budget, scratch))
}

// The case of this number, of one positive and one negative operand.
fn plain_case(number: u32, wanted: Wanted) -> QueryShape
    requires first { wanted.first.number < wanted.count }
    requires second { wanted.second.number < wanted.count }
    ensures count { result.count ≡ wanted.count }
    ensures positive { IsNamed result.count result.positive }
    ensures negative { IsNamed result.count result.negative }
    ensures positive_after { result.acts ≡ false → result.positive_after ≡ false }
    ensures negative_after { result.acts ≡ false → result.negative_after ≡ false }
{
    QueryShape {
        joined: None,
        other: None,
        ..case_of(number, wanted)
    }
}

// What is asked of the query of such a case.
fn plain_answer(case: QueryShape, wanted: Wanted, budget: Budget) -> QueryAnswer {
    QueryAnswer {
        clashes: clashes_of(case, wanted),
        cost: choices_of(case, wanted),
        budget,
    }
}

// Whether the query of such a case is answered as all states say.
fn case_is_right_in<K: ClauseKind>(
    alloc: Global,
    task: &Task,
    sets: &Formulas<K>,
    case: QueryShape,
    answer: QueryAnswer,
    scratch: &mut Scratch,
) -> Result<bool, AllocError>
    requires actions { length task.now.actions ≡ 1 }
    requires count { length sets.now ≡ case.count }
    requires over { AreOver sets.now (atoms task.now) }
    requires positive { IsNamed case.count case.positive }
    requires negative { IsNamed case.count case.negative }
    requires positive_after { case.acts ≡ false → case.positive_after ≡ false }
    requires negative_after { case.acts ≡ false → case.negative_after ≡ false }
{
    let budget = budget_at(answer.cost, answer.budget);
    let found = ask_in(alloc, task, sets, case, budget, scratch)?;
    Ok(fits(found, scratch.state(), answer.clashes, answer.cost > budget))
}

fn all_are_right_in<K: ClauseKind>(
    alloc: Global,
    task: &Task,
    sets: &Formulas<K>,
    wanted: Wanted,
    budget: Budget,
) -> Result<bool, AllocError>
    requires first { wanted.first.number < wanted.count }
    requires second { wanted.second.number < wanted.count }
    requires actions { length task.now.actions ≡ 1 }
    requires count { length sets.now ≡ wanted.count }
    requires over { AreOver sets.now (atoms task.now) }
{
    let mut scratch = Scratch::new(alloc)?;
    let mut right = true;
    for number in 0..PLAIN_CASES {
        let case = plain_case(number, wanted);
        let answer = plain_answer(case, wanted, budget);
        right &= case_is_right_in(alloc, task, sets, case, answer, &mut scratch)?;
    }
    Ok(right)
}

fn budgets_are_right_in<K: ClauseKind>(
    alloc: Global,
    task: &Task,
    sets: &Formulas<K>,
    wanted: Wanted,
) -> Result<bool, AllocError>
    requires first { wanted.first.number < wanted.count }
    requires second { wanted.second.number < wanted.count }
    requires actions { length task.now.actions ≡ 1 }
    requires count { length sets.now ≡ wanted.count }
    requires over { AreOver sets.now (atoms task.now) }
{
    let mut right = true;
    for budget in BUDGETS {
        right &= all_are_right_in(alloc, task, sets, wanted, budget)?;
    }
    Ok(right)
}

fn add_formula<K: ClauseKind>(
    alloc: Global,
    task: &Task,
    sets: &mut Formulas<K>,
    clauses: &[u32],
) -> Result<(), K::Fault>
    requires task { atoms task.now ≡ 3 }
    requires over { AreOver sets.old 3 }
    ensures len { OnOk result (length sets.new ≡ length sets.old + 1) }
    ensures over { OnOk result (AreOver sets.new 3) }
{
    let set = formula_of::<K>(alloc, task, clauses)?;
    sets.add(set)?;
    Ok(())
}

fn add_formulas<K: ClauseKind>(
    alloc: Global,
    task: &Task,
    sets: &mut Formulas<K>,
    first: &[u32],
    second: &[u32],
) -> Result<(), K::Fault>
    requires task { atoms task.now ≡ 3 }
    requires none { sets.old ≡ [] }
    ensures len { OnOk result (length sets.new ≡ 2) }
    ensures over { OnOk result (AreOver sets.new 3) }
{
    add_formula::<K>(alloc, task, sets, first)?;
    add_formula::<K>(alloc, task, sets, second)
}

fn store_of<K: ClauseKind>(
    alloc: Global,
    task: &Task,
    first: &[u32],
    second: &[u32],
) -> Result<Formulas<K>, K::Fault>
    requires { atoms task.now ≡ 3 }
    ensures len { IfOk result (λ sets. length sets ≡ 2) }
    ensures over { IfOk result (λ sets. AreOver sets 3) }
{
    let mut sets = Formulas::<K>::new(alloc);
    add_formulas::<K>(alloc, task, &mut sets, first, second)?;
    Ok(sets)
}

// What is asked of a store of the sets of these clauses.
fn clauses_wanted(pre: u32, first: &[u32], second: &[u32]) -> Wanted
    ensures count { result.count ≡ 2 }
    ensures first { result.first.number ≡ 0 }
    ensures second { result.second.number ≡ 1 }
    ensures measure { result.measure ≡ M.Choices }
{
    Wanted {
        count: 2,
        first: Named {
            number: 0,
            states: states_of_clauses(first),
            size: first.len() as u64,
        },
        second: Named {
            number: 1,
            states: states_of_clauses(second),
            size: second.len() as u64,
        },
        pre,
        measure: Measure::Choices,
    }
}

// Whether the queries of these sets are answered rightly.
fn sets_are_right<K: ClauseKind>(
    alloc: Global,
    task: &Task,
    sets: &Formulas<K>,
    wanted: Wanted,
) -> Result<bool, AllocError>
    requires first { wanted.first.number < wanted.count }
    requires second { wanted.second.number < wanted.count }
    requires actions { length task.now.actions ≡ 1 }
    requires count { length sets.now ≡ wanted.count }
    requires over { AreOver sets.now (atoms task.now) }
{
    let with_room = budgets_are_right_in(alloc, task, sets, wanted)?;
    let alone = all_are_right(alloc, task, sets, wanted)?;
    Ok(with_room & alone)
}

// The same for the sets of these clauses, where the action asks for these atoms.
fn store_is_right<K: ClauseKind>(
    alloc: Global,
    task: &Task,
    pre: u32,
    first: &[u32],
    second: &[u32],
) -> Result<bool, K::Fault>
    requires atoms { atoms task.now ≡ 3 }
    requires actions { length task.now.actions ≡ 1 }
{
    let sets = store_of::<K>(alloc, task, first, second)?;
    Ok(sets_are_right(alloc, task, &sets, clauses_wanted(pre, first, second))?)
}

fn clauses_are_right<K: ClauseKind>(
    alloc: Global,
    pre: u32,
    first: &[u32],
    second: &[u32],
) -> Result<bool, K::Fault> {
    let task = task_of(alloc, pre)?;
    store_is_right::<K>(alloc, &task, pre, first, second)
}

// The same of those of one positive and one negative operand alone.
fn plain_is_right<K: ClauseKind>(
    alloc: Global,
    task: &Task,
    first: &[u32],
    second: &[u32],
) -> Result<bool, K::Fault>
    requires atoms { atoms task.now ≡ 3 }
    requires actions { length task.now.actions ≡ 1 }
{
    let sets = store_of::<K>(alloc, task, first, second)?;
    let wanted = clauses_wanted(1, first, second);
    Ok(all_are_right_in(alloc, task, &sets, wanted, Budget::Exact)?)
}

fn pair_is_right<K: ClauseKind>(
    alloc: Global,
    first: &[u32],
    second: &[u32],
) -> Result<bool, K::Fault> {
    let task = task_of(alloc, 1)?;
    plain_is_right::<K>(alloc, &task, first, second)
}

fn add_listing(
    alloc: Global,
    task: &Task,
    sets: &mut Explicits,
    states: &[u32],
) -> Result<(), AllocError>
    requires task { atoms task.now ≡ 3 }
    requires over { listing.AreListsOver sets.old 3 }
    ensures len { OnOk result (length sets.new ≡ length sets.old + 1) }
    ensures over { OnOk result (listing.AreListsOver sets.new 3) }
{
    let set = explicit_of(alloc, task, states)?;
    sets.add(set)?;
    Ok(())
}

fn add_listings(
    alloc: Global,
    task: &Task,
    sets: &mut Explicits,
    first: &[u32],
    second: &[u32],
) -> Result<(), AllocError>
    requires task { atoms task.now ≡ 3 }
    requires none { sets.old ≡ [] }
    ensures len { OnOk result (length sets.new ≡ 2) }
    ensures over { OnOk result (listing.AreListsOver sets.new 3) }
{
    add_listing(alloc, task, sets, first)?;
    add_listing(alloc, task, sets, second)
}

fn listings_of(
    alloc: Global,
    task: &Task,
    first: &[u32],
    second: &[u32],
) -> Result<Explicits, AllocError>
    requires { atoms task.now ≡ 3 }
    ensures len { IfOk result (λ sets. length sets ≡ 2) }
    ensures over { IfOk result (λ sets. listing.AreListsOver sets 3) }
{
    let mut sets = Explicits::new(alloc);
    add_listings(alloc, task, &mut sets, first, second)?;
    Ok(sets)
}

fn states_wanted(pre: u32, first: &[u32], second: &[u32]) -> Wanted
    ensures count { result.count ≡ 2 }
    ensures first { result.first.number ≡ 0 }
    ensures second { result.second.number ≡ 1 }
    ensures measure { result.measure ≡ M.Listed }
{
    Wanted {
        count: 2,
        first: Named {
            number: 0,
            states: states_of_list(first),
            size: first.len() as u64,
        },
        second: Named {
            number: 1,
            states: states_of_list(second),
            size: second.len() as u64,
        },
        pre,
        measure: Measure::Listed,
    }
}

// The same for the sets of these states.
fn states_are_right(
    alloc: Global,
    task: &Task,
    pre: u32,
    first: &[u32],
    second: &[u32],
) -> Result<bool, AllocError>
    requires atoms { atoms task.now ≡ 3 }
    requires actions { length task.now.actions ≡ 1 }
{
    let sets = listings_of(alloc, task, first, second)?;
    all_are_right(alloc, task, &sets, states_wanted(pre, first, second))
}

fn listings_are_right(
    alloc: Global,
    pre: u32,
    first: &[u32],
    second: &[u32],
) -> Result<bool, AllocError> {
    let task = task_of(alloc, pre)?;
    states_are_right(alloc, &task, pre, first, second)
}

// A clause to be beside another: the empty one, one that is true in all states, implications,
// and a denial of two atoms.
fn beside(code: u32) -> u32 {
    [0, 3, 18, 24, 34, 40][code as usize % 6]
}

fn horn_code_is_right(alloc: Global, code: u32) -> Result<bool, Fail> {
    if !is_horn_code(code) {
        return Ok(true);
    }
    let sets = [code, beside(code)];
    let right = clauses_are_right::<HornKind>(alloc, code / 64, &sets, &sets[1..])?;
    Ok(right)
}

// The same of dual Horn clauses: implications, and two atoms of which one holds.
fn beside_dual(code: u32) -> u32 {
    [0, 3, 18, 24, 17, 20][code as usize % 6]
}

fn dual_code_is_right(alloc: Global, code: u32) -> Result<bool, Fail> {
    if !is_dual_code(code) {
        return Ok(true);
    }
    let sets = [code, beside_dual(code)];
    let right = clauses_are_right::<DualHornKind>(alloc, code / 64, &sets, &sets[1..])?;
    Ok(right)
}

fn two_code_is_right(alloc: Global, code: u32) -> Result<bool, Fail> {
    if !is_two_code(code) {
        return Ok(true);
    }
    let sets = [code, beside(code)];
    let right = clauses_are_right::<TwoKind>(alloc, code / 64, &sets, &sets[1..])?;
    let lean = clauses_are_right::<LeanTwoKind>(alloc, code / 64, &sets, &sets[1..])?;
    Ok(right & lean)
}

fn horn_pair_is_right(alloc: Global, one: u32, other: u32) -> Result<bool, Fail> {
    if !is_horn_code(one) | !is_horn_code(other) {
        return Ok(true);
    }
    let right = pair_is_right::<HornKind>(alloc, &[one, other], &[other])?;
    Ok(right)
}

fn dual_pair_is_right(alloc: Global, one: u32, other: u32) -> Result<bool, Fail> {
    if !is_dual_code(one) | !is_dual_code(other) {
        return Ok(true);
    }
    let right = pair_is_right::<DualHornKind>(alloc, &[one, other], &[other])?;
    Ok(right)
}

fn dual_pairs_are_right(alloc: Global, one: u32) -> Result<bool, Fail> {
    let mut right = true;
    for other in 0..64 {
        right &= dual_pair_is_right(alloc, one, other)?;
    }
    Ok(right)
}

fn horn_pairs_are_right(alloc: Global, one: u32) -> Result<bool, Fail> {
    let mut right = true;
    for other in 0..64 {
        right &= horn_pair_is_right(alloc, one, other)?;
    }
    Ok(right)
}

// Without a precondition first, and then with one and each literal twice.
#[test]
fn horn_formulas_answer_as_all_states_say(rt: HostRuntime) -> Result<(), Fail> {
    for code in 0..128 {
        assert!(rt; horn_code_is_right(rt.alloc(), code)?, "at {code}");
    }
    assert!(rt; clauses_are_right::<HornKind>(rt.alloc(), 1, &[18, 9, 40], &[])?);
    Ok(())
}

#[test]
fn all_pairs_of_horn_clauses_answer_as_all_states_say(rt: HostRuntime) -> Result<(), Fail> {
    for one in 0..64 {
        assert!(rt; horn_pairs_are_right(rt.alloc(), one)?, "at {one}");
    }
    Ok(())
}

#[test]
fn dual_horn_formulas_answer_as_all_states_say(rt: HostRuntime) -> Result<(), Fail> {
    for code in 0..128 {
        assert!(rt; dual_code_is_right(rt.alloc(), code)?, "at {code}");
    }
    assert!(rt; clauses_are_right::<DualHornKind>(rt.alloc(), 1, &[24, 6, 20], &[])?);
    Ok(())
}

#[test]
fn all_pairs_of_dual_horn_clauses_answer_as_all_states_say(rt: HostRuntime) -> Result<(), Fail> {
    for one in 0..64 {
        assert!(rt; dual_pairs_are_right(rt.alloc(), one)?, "at {one}");
    }
    Ok(())
}

// The first formula has no state, which no clause of one literal shows.
#[test]
fn two_cnf_formulas_answer_as_all_states_say(rt: HostRuntime) -> Result<(), Fail> {
    assert!(rt; clauses_are_right::<TwoKind>(rt.alloc(), 0, &[5, 9, 6, 10], &[5])?);
    assert!(rt; clauses_are_right::<TwoKind>(rt.alloc(), 1, &[9, 24, 6], &[5, 9, 6, 10])?);
    assert!(rt; clauses_are_right::<TwoKind>(rt.alloc(), 1, &[], &[5, 34])?);
    for code in 0..128 {
        assert!(rt; two_code_is_right(rt.alloc(), code)?, "at {code}");
    }
    Ok(())
}

const ALL_CODES: [u32; 8] = [0, 1, 2, 3, 4, 5, 6, 7];

// Without a precondition, and with one.
fn both_are_right(alloc: Global, first: &[u32], second: &[u32]) -> Result<bool, AllocError> {
    let without = listings_are_right(alloc, 0, first, second)?;
    let with_one = listings_are_right(alloc, 1, first, second)?;
    Ok(without & with_one)
}

#[test]
fn listed_states_answer_as_all_states_say(rt: HostRuntime) -> Result<(), Fail> {
    assert!(rt; both_are_right(rt.alloc(), &[], &ALL_CODES)?);
    assert!(rt; both_are_right(rt.alloc(), &[5], &[6])?);
    assert!(rt; both_are_right(rt.alloc(), &[7, 5, 3, 1], &[2, 3, 6, 7])?);
    assert!(rt; both_are_right(rt.alloc(), &[1, 4, 5, 7], &[5, 4, 2, 1, 5])?);
    assert!(rt; both_are_right(rt.alloc(), &ALL_CODES, &[0, 7])?);
    assert!(rt; both_are_right(rt.alloc(), &[2, 3], &[2, 3])?);
    Ok(())
}

//! The search for a counterexample to a query.
//!
//! A query with one negative operand, whose set is its one positive operand at the other time,
//! costs what its action and its trail touch, and neither the number of atoms nor that of clauses,
//! but for the one state that is written where there is a counterexample. So does, from the second
//! search of an inquiry on that comes to the choices, one whose positive operands are all asked
//! about before the action, any number of them, the initial state and the goal among them: what
//! these say together is found out once. Where some are asked about after it, each positive set but
//! the largest has each of its clauses looked at once for each search.
//!
//! `find` makes the scratch ready for the atoms of the task and for the places that are remembered
//! of the clauses of the positive operands, which a formula of short clauses has none of. The
//! condition of `find_in` asks for all the capacity that a query may need by its numbers of
//! operands and clauses, so that a body with counters can come under the same contract.

ghost use Rattle.std.specs.Prelude.{◌≡◌, ◌<◌, ◌≤◌, ◌+◌, ℕ, Bool, List, IfSome, MatchOption, length};
ghost use Rattle.std.specs.Prelude.{true};
ghost use Rattle.hv_task.specs.Strips.{atoms};
ghost use Rattle.hv_sets.specs.Cost.{ClausesPass, IsAnswer};
ghost use Rattle.hv_sets.specs.Query.{IsReady, is_clash};
ghost use Rattle.hv_sets.specs.Room.{HasRoom, KeepsLengths};
ghost use Rattle.hv_clauses.specs.Store.{tests_of, sizes_of, AreOver, formula_at};
ghost use Rattle.hv_clauses.specs.Working.Early.{AreMeans, IsBegunWith, IsBegunFrom};
ghost use Rattle.hv_clauses.specs.Working.Found.{AreFollowedRoots, IsSearchBegun, IsMet};
ghost use Rattle.hv_clauses.specs.Working.Found.{IsMetBelow};
ghost use Rattle.hv_clauses.specs.Working.Posed.{Applies, InEach, choices, width};
ghost use Rattle.hv_clauses.specs.Working.Problem.{AreLeft, FitsChoice};
ghost use Rattle.hv_propagation.specs.Chase.{IsFollowed};
ghost use Rattle.hv_propagation.specs.Trail.{Grows};

use crate::formulas::Formulas;
use crate::inquiry::ClauseInquiry;
use crate::opening::Begun;
use crate::problem::{self, Problem};
use crate::{affected, choices, fronts, literal_owners, precondition, refuted};
use hv_formula::ClauseKind;
use hv_propagation::{Assignment, propagation};
use hv_sets::{Finding, Operand, Query, Scratch};
use hv_task::{State, Task};
use std::alloc::Global;

/// The exact answer to a query over a store of clauses of one kind: Over exactly where there are
/// more choices of one clause of each negative operand than the budget; else Clash exactly where
/// some state is a counterexample, and such a state then is in the scratch; else Empty. It
/// takes memory only from what is given here, for lists of the operands where there are many, and
/// does without where there is none.
pub(crate) fn find_in<K: ClauseKind>(
    alloc: Option<Global>,
    store: &Formulas<K>,
    task: &Task,
    query: &Query,
    budget: u64,
    scratch: &mut Scratch,
) -> Finding
    requires ready { IsReady (length store.now) query.now }
    requires over { AreOver store.now (atoms task.now) }
    requires action { IfSome query.now.action (λ a. a < length task.now.actions) }
    requires room { HasRoom (atoms task.now) 0 0 scratch.old }
    ensures answer { IsAnswer result (ClausesPass task.now (sizes_of (formula_at store.now))
        query.now budget) (atoms task.now) (is_clash task.now (tests_of (formula_at store.now))
        query.now) scratch.new.state }
    ensures state { length scratch.new.state ≡ length scratch.old.state }
    ensures lengths { KeepsLengths scratch.old scratch.new }
{
    let places = scratch.marks.as_mut_slice();
    let queue = scratch.queue.as_mut_slice();
    let watches = scratch.counts.as_mut_slice();
    let state = &mut scratch.state;
    ask_in(
        alloc, store, task, query, budget, places, queue, watches, state,
    )
}

// The same, in space for each atom.
fn ask_in<K: ClauseKind>(
    alloc: Option<Global>,
    store: &Formulas<K>,
    task: &Task,
    query: &Query,
    budget: u64,
    places: &mut [u32],
    queue: &mut [u32],
    watches: &mut [u32],
    state: &mut State,
) -> Finding
    requires ready { IsReady (length store.now) query.now }
    requires over { AreOver store.now (atoms task.now) }
    requires action { IfSome query.now.action (λ a. a < length task.now.actions) }
    requires places { atoms task.now ≤ length places.old }
    requires queue { atoms task.now ≤ length queue.old }
    requires state { length state.old ≡ atoms task.now }
    ensures answer { IsAnswer result (ClausesPass task.now (sizes_of (formula_at store.now))
        query.now budget) (atoms task.now) (is_clash task.now (tests_of (formula_at store.now))
        query.now) state.new }
    ensures places { length places.new ≡ length places.old }
    ensures queue { length queue.new ≡ length queue.old }
    ensures watches { length watches.new ≡ length watches.old }
    ensures state { length state.new ≡ length state.old }
{
    let mut inquiry = ClauseInquiry::new(alloc, store, task, query, budget, places, queue, watches);
    inquiry.ask(query.action, state)
}

// What is the same for each action: how many choices there are, if that is within the budget, how
// many literals the positive operands have, where there are many, which operand is asked about
// twice, and the memory for lists of the operands, if there is any.
#[derive(Clone, Copy)]
pub(crate) struct Means {
    pub cost: Option<u64>,
    pub size: usize,
    pub twin: Option<Operand>,
    pub alloc: Option<Global>,
}

// Whether a counterexample was met; and whether the search came through to the choices, and so went
// through all that the positive operands say.
#[derive(Clone, Copy)]
pub(crate) struct Searched {
    pub met: bool,
    pub through: bool,
}

// Marks what follows from the precondition and the positive operands, and then tries the choices.
// Where more is to be gone through than literals are in the positive operands, those that have
// each literal are listed first.
pub(crate) fn search_from<K: ClauseKind>(
    problem: &mut Problem<'_, K>,
    begun: Begun,
    means: &Means,
    cost: u64,
    marks: &mut Assignment<'_>,
    state: &mut State,
) -> Searched
    requires means { AreMeans problem.old means.now }
    requires cost { cost ≡ choices problem.old }
    requires begun { IsBegunWith problem.old begun marks.old }
    requires state { length state.old ≡ width problem.old }
    ensures met { IsMetBelow result.met (choices problem.old) (width problem.old)
        (FitsChoice problem.old) state.new }
    ensures grown { Grows marks.old marks.new }
    ensures same { problem.new ≡ problem.old }
    ensures state { length state.new ≡ length state.old }
{
    let patience = literal_owners::patience(problem, means.size);
    let upto = marks.len().saturating_add(patience);
    let Some(place) = mark_base(problem, begun, upto, marks) else {
        return Searched {
            met: false,
            through: false,
        };
    };
    let pays = pays_to_list(problem, place, means, cost, marks);
    problem.list_owners(pays, means.alloc);
    let met = search_on(problem, place, means, cost, marks, state);
    Searched { met, through: true }
}

// Whether it pays to list the positive operands that have each literal: more is to be gone through
// than that costs, for what is known, for so many choices, or for the first of them, if it isn't
// likely to be passed over. What is known stays as it was.
fn pays_to_list<K: ClauseKind>(
    problem: &Problem<'_, K>,
    place: usize,
    means: &Means,
    cost: u64,
    marks: &mut Assignment<'_>,
) -> bool
    requires cost { cost ≡ choices problem.now }
    requires begun { IsSearchBegun problem.now place marks.old }
    ensures { marks.new ≡ marks.old }
{
    if problem.has_owners() {
        return false;
    }
    if place < marks.len() || literal_owners::pays(problem, means.size, cost) {
        return true;
    }
    if means.size == usize::MAX || cost == 0 || means.twin.is_some() {
        return false;
    }
    leads_far(
        problem,
        literal_owners::patience(problem, means.size),
        marks,
    )
}

// Whether more than so many literals follow from the first choice. What is known stays as it was.
fn leads_far<K: ClauseKind>(
    problem: &Problem<'_, K>,
    many: usize,
    marks: &mut Assignment<'_>,
) -> bool
    requires some { 0 < choices problem.now }
    requires begun { IsSearchBegun problem.now (length marks.old.trail) marks.old }
    ensures { marks.new ≡ marks.old }
{
    let point = marks.len();
    let far = follow_first(problem, many, marks);
    marks.undo(point);
    far
}

// The same, with what follows left on the trail.
fn follow_first<K: ClauseKind>(
    problem: &Problem<'_, K>,
    many: usize,
    marks: &mut Assignment<'_>,
) -> bool
    requires some { 0 < choices problem.now }
    requires begun { IsSearchBegun problem.now (length marks.old.trail) marks.old }
    ensures { Grows marks.old marks.new }
{
    let point = marks.len();
    if !choices::deny_all(problem, 0, marks) {
        return false;
    }
    match propagation::close_upto(problem, marks, point, point.saturating_add(many)) {
        None => false,
        Some(place) => place < marks.len(),
    }
}

// Follows up what the trail has from a place on, and then tries the choices.
fn search_on<K: ClauseKind>(
    problem: &Problem<'_, K>,
    place: usize,
    means: &Means,
    cost: u64,
    marks: &mut Assignment<'_>,
    state: &mut State,
) -> bool
    requires means { AreMeans problem.now means.now }
    requires cost { cost ≡ choices problem.now }
    requires begun { IsSearchBegun problem.now place marks.old }
    requires state { length state.old ≡ width problem.now }
    ensures met { IsMetBelow result (choices problem.now) (width problem.now)
        (FitsChoice problem.now) state.new }
    ensures grown { Grows marks.old marks.new }
    ensures state { length state.new ≡ length state.old }
{
    if !propagation::close(problem, marks, place) {
        return false;
    }
    choose(problem, means, cost, marks, state)
}

// Marks what follows from the precondition and the positive operands, as far as that comes from the
// literals before a place of the trail. The answer is the place that was come to, or None if no
// state meets these.
fn mark_base<K: ClauseKind>(
    problem: &Problem<'_, K>,
    begun: Begun,
    upto: usize,
    marks: &mut Assignment<'_>,
) -> Option<usize>
    requires begun { IsBegunWith problem.now begun marks.old }
    ensures begun { MatchOption result ((state : List Bool) → length state ≡ width problem.now
        → Applies problem.now state → InEach problem.now state → ⊥)
        (λ place. IsSearchBegun problem.now place marks.new) }
    ensures grown { Grows marks.old marks.new }
{
    let point = marks.len();
    if !precondition::mark_pre(problem, marks) {
        return None;
    }
    if !start_on(problem, begun, marks) {
        return None;
    }
    propagation::close_upto(problem, marks, point, upto)
}

// Looks at the clauses of the positive operands of which isn't known what they say.
fn start_on<K: ClauseKind>(
    problem: &Problem<'_, K>,
    begun: Begun,
    marks: &mut Assignment<'_>,
) -> bool
    requires wide { length marks.old.roots ≡ width problem.now }
    requires begun { (from : ℕ) × IsBegunFrom problem.now begun marks.old from }
    ensures followed { IsFollowed (InEach problem.now) marks.old marks.new result }
    ensures left { result ≡ true → (from : ℕ) → from ≤ length marks.old.trail
        → IsBegunFrom problem.now begun marks.old from → AreLeft problem.now marks.new from }
{
    match begun {
        Begun::Early => problem::start_late(problem, marks),
        Begun::From(rooted) => problem::start_all(problem, rooted, marks),
    }
}

// Tries choices of one clause of each negative operand. The answer is true once one fits some
// state, which is then written.
fn choose<K: ClauseKind>(
    problem: &Problem<'_, K>,
    means: &Means,
    cost: u64,
    marks: &mut Assignment<'_>,
    state: &mut State,
) -> bool
    requires means { AreMeans problem.now means.now }
    requires cost { cost ≡ choices problem.now }
    requires rooted { AreFollowedRoots problem.now marks.old }
    requires state { length state.old ≡ width problem.now }
    ensures met { IsMetBelow result (choices problem.now)
        (width problem.now) (FitsChoice problem.now) state.new }
    ensures same { marks.new ≡ marks.old }
    ensures state { length state.new ≡ length state.old }
{
    match means.twin {
        Some(operand) => affected::choose_affected(problem, operand, marks, state),
        None => fronts::choose_each(problem, cost, marks, state),
    }
}

// Looks for a state that fits this choice: one in which each of the chosen clauses is false. What
// is known stays as it was.
pub(crate) fn decide<K: ClauseKind>(
    problem: &Problem<'_, K>,
    number: u64,
    marks: &mut Assignment<'_>,
    state: &mut State,
) -> bool
    requires number { number < choices problem.now }
    requires rooted { AreFollowedRoots problem.now marks.old }
    requires state { length state.old ≡ width problem.now }
    ensures met { IsMet result (width problem.now) (FitsChoice problem.now number) state.new }
    ensures same { marks.new ≡ marks.old }
    ensures state { length state.new ≡ length state.old }
{
    if refuted::is_refuted(problem, number, marks) {
        return false;
    }
    let point = marks.len();
    let met = try_choice(problem, number, marks, state);
    marks.undo(point);
    met
}

// The same, with what follows left on the trail.
fn try_choice<K: ClauseKind>(
    problem: &Problem<'_, K>,
    number: u64,
    marks: &mut Assignment<'_>,
    state: &mut State,
) -> bool
    requires number { number < choices problem.now }
    requires rooted { AreFollowedRoots problem.now marks.old }
    requires state { length state.old ≡ width problem.now }
    ensures met { IsMet result (width problem.now) (FitsChoice problem.now number) state.new }
    ensures grown { Grows marks.old marks.new }
    ensures state { length state.new ≡ length state.old }
{
    let how = problem.completion();
    let point = marks.len();
    if !choices::deny_all(problem, number, marks) {
        return false;
    }
    if !propagation::close(problem, marks, point) {
        return false;
    }
    propagation::complete(how, problem, marks, state)
}

//! The queries of a statement over formulas in clauses, one after the other.

ghost use Rattle.std.specs.Prelude.{◌≡◌, ◌<◌, ◌≤◌, ◌++◌, ℕ, Option, IfOk, IfSome, length, map};
ghost use Rattle.std.specs.Prelude.{slice_get, Some};
ghost use Rattle.std.specs.List.{All};
ghost use Rattle.hv_task.specs.Strips.{atoms};
ghost use Rattle.hv_clauses.specs.Store.{AreOver, formula_at, sizes_of, tests_of};
ghost use Rattle.hv_sets.specs.Cost.{ClausesPass};
ghost use Rattle.hv_sets.specs.Query.{IsNamed, is_clash};
ghost use Rattle.hv_sets.specs.Room.{KeepsLengths};
ghost use Rattle.hv_lines.specs.Verdicts.{IsDecided};
ghost use Rattle.hv_basic.specs.Working.Asked.{with_action};
ghost use Rattle.hv_basic.specs.Working.Deciding.{AreAllReady};

use crate::case::Case;
use crate::query_walk::clash_at;
use hv_clauses::Formulas;
use hv_formula::ClauseKind;
use hv_lines::Verdict;
use hv_sets::{Finding, Query, Scratch};
use hv_task::State;
use std::alloc::{AllocError, Global};

/// The verdict of the queries for these actions, over formulas in clauses: as `walk` gives it, with
/// what one inquiry works out for all of them.
pub(crate) fn walk_clauses<K: ClauseKind>(
    alloc: Global,
    case: &Case<'_>,
    sets: &Formulas<K>,
    query: &Query,
    actions: &[Option<u32>],
    scratch: &mut Scratch,
) -> Result<Verdict, AllocError>
    requires over { AreOver sets.now (atoms case.now.task.now) }
    requires ready { AreAllReady (length sets.now)
        (length case.now.task.now.actions) query.now actions.now }
    ensures answer { IfOk result (IsDecided
        (λ q. ClausesPass case.now.task.now (sizes_of (formula_at sets.now)) q case.now.budget)
        (is_clash case.now.task.now (tests_of (formula_at sets.now))) (atoms case.now.task.now)
        (map (with_action query.now) actions.now)) }
    ensures lengths { KeepsLengths scratch.old scratch.new }
{
    if actions.is_empty() {
        return Ok(Verdict::True);
    }
    sets.make_room(case.task, query, scratch)?;
    let places = scratch.marks.as_mut_slice();
    let queue = scratch.queue.as_mut_slice();
    let watches = scratch.counts.as_mut_slice();
    let state = &mut scratch.state;
    ask_all(
        alloc, case, sets, query, actions, places, queue, watches, state,
    )
}

/// The same, in space for each atom: the first answer that the cost exceeds the budget or that
/// there is a counterexample decides.
fn ask_all<K: ClauseKind>(
    alloc: Global,
    case: &Case<'_>,
    sets: &Formulas<K>,
    query: &Query,
    actions: &[Option<u32>],
    places: &mut [u32],
    queue: &mut [u32],
    watches: &mut [u32],
    state: &mut State,
) -> Result<Verdict, AllocError>
    requires over { AreOver sets.now (atoms case.now.task.now) }
    requires named { All (λ o. IsNamed (length sets.now) o.which)
        (query.now.positive ++ query.now.negative) }
    requires below { (place : ℕ) (action : Option ℕ) → slice_get actions.now place ≡ Some action
        → IfSome action (λ a. a < length case.now.task.now.actions) }
    requires places { atoms case.now.task.now ≤ length places.old }
    requires queue { atoms case.now.task.now ≤ length queue.old }
    requires state { length state.old ≡ atoms case.now.task.now }
    ensures answer { IfOk result (IsDecided
        (λ q. ClausesPass case.now.task.now (sizes_of (formula_at sets.now)) q case.now.budget)
        (is_clash case.now.task.now (tests_of (formula_at sets.now))) (atoms case.now.task.now)
        (map (with_action query.now) actions.now)) }
    ensures places { length places.new ≡ length places.old }
    ensures queue { length queue.new ≡ length queue.old }
    ensures watches { length watches.new ≡ length watches.old }
    ensures state { length state.new ≡ length state.old }
{
    let task = case.task;
    let budget = case.budget;
    let mut inquiry = sets.inquire(Some(alloc), task, query, budget, places, queue, watches);
    for action in actions {
        match inquiry.ask(*action, state) {
            Finding::Empty => {}
            Finding::Over => return Ok(Verdict::Over),
            Finding::Clash => {
                let verdict = clash_at(alloc, *action, state)?;
                return Ok(verdict);
            }
        }
    }
    Ok(Verdict::True)
}

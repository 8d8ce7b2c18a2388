//! The queries of a statement over listed states, one after the other: the query is built once, and
//! only its action changes. Nothing is kept between them. Diagrams and formulas in clauses, of
//! which one inquiry works out what serves all actions, have walks of their own (`node_walk`,
//! `clausal_walk`).

ghost use Rattle.std.specs.Prelude.{◌≡◌, Some, IfOk, length, map};
ghost use Rattle.hv_task.specs.Strips.{atoms};
ghost use Rattle.hv_sets.specs.Query.{HasAnchor, is_clash};
ghost use Rattle.hv_sets.specs.Room.{KeepsLengths};
ghost use Rattle.hv_lines.specs.Verdicts.{IsDecided};
ghost use Rattle.hv_lines.specs.declared.verdict.Verdict.TheVariants as V;
ghost use Rattle.hv_basic.specs.Working.Asked.{with_action};
ghost use Rattle.hv_basic.specs.Working.Deciding.{AreAllReady};

use crate::case::Case;
use hv_lines::{Clash, Verdict};
use hv_sets::{Family, Finding, Query, Scratch};
use hv_task::State;
use std::alloc::{AllocError, Global};

/// The verdict of the queries for these actions: the first that exceeds the budget or has a
/// counterexample decides.
pub(crate) fn walk<F: Family>(
    alloc: Global,
    case: &Case<'_>,
    sets: &F,
    query: &mut Query,
    actions: &[Option<u32>],
    scratch: &mut Scratch,
) -> Result<Verdict, AllocError>
    requires ready { AreAllReady (F.count sets.now)
        (length case.now.task.now.actions) query.old actions.now }
    requires anchor { F.wants_anchor sets.now → HasAnchor query.old }
    requires task { F.is_over sets.now (atoms case.now.task.now) }
    ensures answer { IfOk result (IsDecided
        (λ q. F.passes sets.now case.now.task.now q case.now.budget)
        (is_clash case.now.task.now (F.has sets.now)) (atoms case.now.task.now)
        (map (with_action query.old) actions.now)) }
    ensures lengths { KeepsLengths scratch.old scratch.new }
    ensures kept { query.new.negative ≡ query.old.negative }
{
    for action in actions {
        query.action = *action;
        match sets.find(alloc, case.task, query, case.budget, scratch)? {
            Finding::Empty => {}
            Finding::Over => return Ok(Verdict::Over),
            Finding::Clash => {
                let verdict = clash_at(alloc, *action, scratch.state())?;
                return Ok(verdict);
            }
        }
    }
    Ok(Verdict::True)
}

/// That a statement is false by a counterexample to its query for this action: a copy of the state.
pub(crate) fn clash_at(
    alloc: Global,
    action: Option<u32>,
    state: &State,
) -> Result<Verdict, AllocError>
    ensures { IfOk result (λ verdict. verdict
        ≡ V.False (record { action = action; state = Some state.now })) }
{
    let state = copy_of(alloc, state)?;
    Ok(Verdict::False(Clash {
        action,
        state: Some(state),
    }))
}

/// A copy of the state.
pub(crate) fn copy_of(alloc: Global, state: &State) -> Result<State, AllocError>
    ensures { IfOk result (λ copy. copy ≡ state.now) }
{
    let mut copy = State::empty(alloc, state.atoms())?;
    copy.copy_from(state);
    Ok(copy)
}

//! The queries of a statement over diagrams, one after the other.

ghost use Rattle.std.specs.Prelude.{◌≡◌, IfOk, length, map};
ghost use Rattle.hv_task.specs.Strips.{atoms};
ghost use Rattle.hv_sets.specs.Query.{is_clash};
ghost use Rattle.hv_sets.specs.Room.{KeepsLengths};
ghost use Rattle.hv_bdd.specs.Live.{LivePass};
ghost use Rattle.hv_bdd.specs.Nodes.{in_node, node_count};
ghost use Rattle.hv_lines.specs.Verdicts.{IsDecided};
ghost use Rattle.hv_lines.specs.declared.formula_family.FormulaFamily.TheVariants as F;
ghost use Rattle.hv_basic.specs.Cases.{lines_in, setting_in};
ghost use Rattle.hv_basic.specs.Working.Asked.{with_action};
ghost use Rattle.hv_basic.specs.Working.Deciding.{AreAllReady, IsDecidedOver};

use crate::case::Case;
use crate::query_walk::clash_at;
use hv_bdd::NodeInquiry;
use hv_lines::Verdict;
use hv_sets::{Finding, Query, Scratch};
use std::alloc::{AllocError, Global};

/// The verdict of the queries for these actions, over diagrams: as `walk` gives it, with what one
/// inquiry keeps for all of them.
pub(crate) fn walk_nodes(
    alloc: Global,
    case: &Case<'_>,
    query: &mut Query,
    actions: &[Option<u32>],
    scratch: &mut Scratch,
) -> Result<Verdict, AllocError>
    requires ready { AreAllReady (node_count case.now.diagrams.now)
        (length case.now.task.now.actions) query.old actions.now }
    ensures answer { IfOk result (IsDecidedOver (setting_in case.now) (lines_in case.now) F.Node
        (map (with_action query.old) actions.now)) }
    ensures lengths { KeepsLengths scratch.old scratch.new }
    ensures kept { query.new.negative ≡ query.old.negative }
{
    let mut inquiry = NodeInquiry::new(case.diagrams, case.task);
    find_all(alloc, &mut inquiry, case.budget, query, actions, scratch)
}

/// The same by this inquiry: the first answer that the cost exceeds the budget or that there is a
/// counterexample decides.
fn find_all(
    alloc: Global,
    inquiry: &mut NodeInquiry<'_>,
    budget: u64,
    query: &mut Query,
    actions: &[Option<u32>],
    scratch: &mut Scratch,
) -> Result<Verdict, AllocError>
    requires ready { AreAllReady (node_count inquiry.old.list)
        (length inquiry.old.task.actions) query.old actions.now }
    ensures answer { IfOk result (IsDecided
        (λ q. LivePass inquiry.old.list inquiry.old.task q budget)
        (is_clash inquiry.old.task (in_node inquiry.old.list)) (atoms inquiry.old.task)
        (map (with_action query.old) actions.now)) }
    ensures lengths { KeepsLengths scratch.old scratch.new }
    ensures kept { query.new.negative ≡ query.old.negative }
{
    for action in actions {
        query.action = *action;
        match inquiry.find(alloc, query, budget, scratch)? {
            Finding::Empty => {}
            Finding::Over => return Ok(Verdict::Over),
            Finding::Clash => {
                let verdict = clash_at(alloc, *action, scratch.state())?;
                return Ok(verdict);
            }
        }
    }
    Ok(Verdict::True)
}

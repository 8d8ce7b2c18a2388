//! Verdicts of basic statements.

ghost use Rattle.std.specs.Prelude.{◌≡◌, ◌<◌, ◌≤◌, ◌↔◌, List, IsTrue, IfOk, length, map};
ghost use Rattle.std.specs.List.{All};
ghost use Rattle.hv_task.specs.Strips.{atoms};
ghost use Rattle.hv_sets.specs.Query.{CanAnchor, HasAnchor};
ghost use Rattle.hv_sets.specs.Room.{KeepsLengths};
ghost use Rattle.hv_sets.specs.declared.literal.Literal.{Literal};
ghost use Rattle.hv_clauses.specs.Store.{AreOver};
ghost use Rattle.hv_lines.specs.Numbering.{IsTable, expr_count};
ghost use Rattle.hv_bdd.specs.Nodes.{node_count};
ghost use Rattle.hv_lines.specs.Queries.{NamesNodes, count_of};
ghost use Rattle.hv_lines.specs.Setting.{most_budget, setting_of};
ghost use Rattle.hv_lines.specs.declared.formula_family.FormulaFamily.TheVariants as F;
ghost use Rattle.hv_lines.specs.Verdicts.{IsVerdictOf, IsVerdictOfSets};
ghost use Rattle.hv_basic.specs.Working.Asked.{AreOperands, with_action};
ghost use Rattle.hv_basic.specs.Stores.{IsStoreOf, formula};
ghost use Rattle.hv_basic.specs.Deciding.{IsBasicOver, IsQuestionOver};
ghost use Rattle.hv_basic.specs.Cases.{lines_in, setting_in};
ghost use Rattle.hv_basic.specs.Sharing.{AreItsFlags};
ghost use Rattle.hv_basic.specs.Working.Deciding.{AreAllReady, AreEnough, IsDecidedIn};
ghost use Rattle.hv_basic.specs.Working.Deciding.{IsDecidedOver, IsQueryFor};
ghost use Rattle.hv_basic.specs.Working.Views.{question_of};

use crate::acts_verdicts::decide_acts;
use crate::basic::{Basic, BasicKind, Question};
use crate::candidates::actions_to_ask;
use crate::case::Case;
use crate::clausal_walk::walk_clauses;
use crate::mixed::decide_two;
use crate::node_walk::walk_nodes;
use crate::query_walk::walk;
use crate::shared::FlaggedActs;
use crate::shared_verdicts::is_alone_within;
use crate::store::Store;
use hv_bdd::Diagrams;
use hv_clauses::Formulas;
use hv_formula::ClauseKind;
use hv_lines::{FormulaFamily, Table, Verdict};
use hv_sets::{Operand, Operands, Query, Scratch, Which};
use hv_task::Task;
use std::alloc::{AllocError, Global};

/// The verdict of a basic statement that `shape` gave for this table: it is true, it is false by a
/// counterexample, its first query that decides costs more than the budget, or it isn't offered.
pub fn decide(
    alloc: Global,
    task: &Task,
    table: &Table,
    diagrams: &Diagrams,
    store: &Store,
    basic: &Basic,
    budget: u64,
    scratch: &mut Scratch,
) -> Result<Verdict, AllocError>
    requires budget { budget ≤ most_budget }
    requires over { diagrams.now.atoms ≡ atoms task.now }
    requires nodes { NamesNodes (node_count diagrams.now) table.now.lines }
    requires store { IsStoreOf task.now table.now.lines store.now }
    requires basic { IsBasicOver table.now.lines basic.now }
    ensures answer { IfOk result
        (IsVerdictOf (setting_of task.now diagrams.now budget) table.now.lines basic.now) }
    ensures lengths { KeepsLengths scratch.old scratch.new }
{
    let case = Case {
        task,
        table,
        diagrams,
        store,
        budget,
    };
    let mut flagged = Vec::new(alloc);
    let verdict = decide_on(alloc, &case, basic, &mut flagged, scratch)?;
    Ok(verdict)
}

/// The same on what statements are decided on. The flags of action sets are kept.
pub(crate) fn decide_on(
    alloc: Global,
    case: &Case<'_>,
    basic: &Basic,
    flagged: &mut Vec<FlaggedActs>,
    scratch: &mut Scratch,
) -> Result<Verdict, AllocError>
    requires basic { IsBasicOver (lines_in case.now) basic.now }
    requires flagged { All (AreItsFlags (lines_in case.now)) flagged.old.items }
    ensures answer { IfOk result
        (IsVerdictOf (setting_in case.now) (lines_in case.now) basic.now) }
    ensures flagged { All (AreItsFlags (lines_in case.now)) flagged.new.items }
    ensures lengths { KeepsLengths scratch.old scratch.new }
{
    match &basic.kind {
        BasicKind::Acts(first, second) => decide_acts(alloc, case, flagged, *first, *second),
        BasicKind::Two(left, right) => decide_two(alloc, case, *left, *right, scratch),
        BasicKind::Sets(_, question) => decide_whole(alloc, case, question, scratch),
    }
}

/// The verdict on a question. Where its right side asks for one formula in clauses alone, for which
/// the left side asks, and the cost is known to be within the budget, no query is asked.
pub(crate) fn decide_whole(
    alloc: Global,
    case: &Case<'_>,
    question: &Question,
    scratch: &mut Scratch,
) -> Result<Verdict, AllocError>
    requires question { IsQuestionOver (lines_in case.now) (question_of question.now) }
    ensures answer { IfOk result (IsVerdictOfSets (setting_in case.now) (lines_in case.now)
        (question_of question.now)) }
    ensures lengths { KeepsLengths scratch.old scratch.new }
{
    // For its contract alone: the lines are those of a table.
    let _count = case.table.expr_count();
    if is_alone_within(case, question) {
        return Ok(Verdict::True);
    }
    let negative = operands_of(alloc, case, &question.negative)?;
    let mut query = Query {
        positive: Operands::new(alloc),
        negative,
        action: None,
    };
    let verdict = decide_sets(alloc, case, question, &mut query, scratch)?;
    Ok(verdict)
}

/// The verdict on a question, of whose query the negative half is there.
pub(crate) fn decide_sets(
    alloc: Global,
    case: &Case<'_>,
    question: &Question,
    query: &mut Query,
    scratch: &mut Scratch,
) -> Result<Verdict, AllocError>
    requires table { IsTable (lines_in case.now) }
    requires question { IsQuestionOver (lines_in case.now) (question_of question.now) }
    requires negative { AreOperands (lines_in case.now) question.now.negative.items
        query.old.negative }
    ensures answer { IfOk result (IsVerdictOfSets (setting_in case.now) (lines_in case.now)
        (question_of question.now)) }
    ensures lengths { KeepsLengths scratch.old scratch.new }
    ensures kept { query.new.negative ≡ query.old.negative }
{
    query.positive = operands_of(alloc, case, &question.positive)?;
    let actions = actions_to_ask(alloc, case, question, query)?;
    let verdict = decide_queries(alloc, case, question, query, &actions, scratch)?;
    Ok(verdict)
}

/// The verdict on a question, by the query that asks it, for these actions, which are enough.
fn decide_queries(
    alloc: Global,
    case: &Case<'_>,
    question: &Question,
    query: &mut Query,
    actions: &[Option<u32>],
    scratch: &mut Scratch,
) -> Result<Verdict, AllocError>
    requires query { IsQueryFor case.now.task.now (node_count case.now.diagrams.now)
        (lines_in case.now) (question_of question.now) query.old actions.now }
    requires enough { AreEnough (setting_in case.now) (lines_in case.now)
        (question_of question.now) query.old actions.now }
    ensures answer { IfOk result (IsVerdictOfSets (setting_in case.now) (lines_in case.now)
        (question_of question.now)) }
    ensures lengths { KeepsLengths scratch.old scratch.new }
    ensures kept { query.new.negative ≡ query.old.negative }
{
    match question.family {
        FormulaFamily::Horn => {
            let sets = case.store.horns();
            let verdict = decide_clauses(alloc, case, sets, query, actions, scratch)?;
            Ok(verdict)
        }
        FormulaFamily::Dual => {
            let sets = case.store.duals();
            let verdict = decide_clauses(alloc, case, sets, query, actions, scratch)?;
            Ok(verdict)
        }
        FormulaFamily::Two => {
            let sets = case.store.twos();
            let verdict = decide_clauses(alloc, case, sets, query, actions, scratch)?;
            Ok(verdict)
        }
        FormulaFamily::States => {
            if !has_anchor(query) {
                return Ok(Verdict::NotOffered);
            }
            let verdict = decide_listed(alloc, case, query, actions, scratch)?;
            Ok(verdict)
        }
        FormulaFamily::Node => {
            let verdict = walk_nodes(alloc, case, query, actions, scratch)?;
            Ok(verdict)
        }
    }
}

/// The verdict of the queries for these actions, over formulas in clauses.
fn decide_clauses<K: ClauseKind>(
    alloc: Global,
    case: &Case<'_>,
    sets: &Formulas<K>,
    query: &mut Query,
    actions: &[Option<u32>],
    scratch: &mut Scratch,
) -> Result<Verdict, AllocError>
    requires over { AreOver sets.now (atoms case.now.task.now) }
    requires ready { AreAllReady (length sets.now)
        (length case.now.task.now.actions) query.old actions.now }
    ensures answer { IfOk result (λ verdict. (lists : List (List (List Literal)))
        → sets.now ≡ map (formula (atoms case.now.task.now)) lists
        → IsDecidedIn (setting_in case.now) lists (map (with_action query.old) actions.now)
        verdict) }
    ensures lengths { KeepsLengths scratch.old scratch.new }
    ensures kept { query.new.negative ≡ query.old.negative }
{
    let verdict = walk_clauses(alloc, case, sets, query, actions, scratch)?;
    Ok(verdict)
}

/// The verdict of the queries for these actions, over explicit sets.
fn decide_listed(
    alloc: Global,
    case: &Case<'_>,
    query: &mut Query,
    actions: &[Option<u32>],
    scratch: &mut Scratch,
) -> Result<Verdict, AllocError>
    requires ready { AreAllReady (count_of (lines_in case.now) F.States 0)
        (length case.now.task.now.actions) query.old actions.now }
    requires anchor { HasAnchor query.old }
    ensures answer { IfOk result (IsDecidedOver (setting_in case.now) (lines_in case.now)
        F.States (map (with_action query.old) actions.now)) }
    ensures lengths { KeepsLengths scratch.old scratch.new }
    ensures kept { query.new.negative ≡ query.old.negative }
{
    let sets = case.store.listed();
    let verdict = walk(alloc, case, sets, query, actions, scratch)?;
    Ok(verdict)
}

/// The operands that ask this.
pub(crate) fn operands_of(
    alloc: Global,
    case: &Case<'_>,
    asked: &[(usize, bool)],
) -> Result<Operands, AllocError>
    requires { All (λ asked. asked.0 < expr_count (lines_in case.now)) asked.now }
    ensures { IfOk result (AreOperands (lines_in case.now) asked.now) }
{
    let store = case.store;
    let mut operands = Operands::new(alloc);
    for (set, after) in asked {
        operands.push(Operand {
            which: store.name(*set),
            id: *set,
            after: *after,
        })?;
    }
    Ok(operands)
}

/// Whether a positive operand can be the anchor.
fn has_anchor(query: &Query) -> bool
    ensures { IsTrue result ↔ HasAnchor query.now }
{
    query
        .positive
        .as_slice()
        .iter()
        .any(|operand| can_anchor(operand))
}

fn can_anchor(operand: &Operand) -> bool
    ensures { IsTrue result ↔ CanAnchor operand.now }
{
    !operand.after && operand.which != Which::Goal
}

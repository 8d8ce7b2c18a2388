//! One formula for many: with the clauses of all sets of a left side it has a state exactly where
//! each of these has it, and what follows from its clauses is worked out once.

ghost use Rattle.std.specs.Prelude.{◌≡◌, ◌<◌, ◌≤◌, ◌++◌, [], ℕ, Bool, IfOk, IfSome, OnOk, length};
ghost use Rattle.std.specs.List.{All, Contains};
ghost use Rattle.hv_task.specs.Strips.{atoms};
ghost use Rattle.hv_sets.specs.Cost.{IsAnswer};
ghost use Rattle.hv_propagation.specs.Clauses.{AreClauses};
ghost use Rattle.hv_formula.specs.Clausal.{in_formula};
ghost use Rattle.hv_mixed.specs.Inclusion.{difference};
ghost use Rattle.hv_lines.specs.Numbering.{expr_count};
ghost use Rattle.hv_lines.specs.Setting.{most_budget};
ghost use Rattle.hv_lines.specs.Shapes.{IsOfFamily};
ghost use Rattle.hv_lines.specs.declared.line.Word.TheVariants as W;
ghost use Rattle.hv_basic.specs.Cases.{lines_in, setting_in};
ghost use Rattle.hv_basic.specs.Sharing.{AreJointClauses, IsJointFor, IsJointOf};
ghost use Rattle.hv_basic.specs.Working.Joints.{AreAllStored, IsVerdictWithin};
ghost use Rattle.hv_basic.specs.Working.Sharing.{IsVerdictOfSub};

use crate::any_formula::number_of;
use crate::case::Case;
use crate::query_walk::clash_at;
use crate::sides::Inclusion;
use hv_clauses::Formulas;
use hv_formula::{ClauseKind, Formula};
use hv_horn::{DualHorn, Horn};
use hv_lines::{Expr, FormulaFamily, Verdict};
use hv_paths::{InsideAsk, OutsideWalk, meet_along};
use hv_sets::{Clauses, Finding, Outside, Scratch};
use hv_twocnf::LeanTwoCnf;
use std::alloc::{AllocError, Global};

/// So many clauses and literals a set has a joint formula at most.
const MOST_EACH: usize = 8;

/// A formula in clauses, which stands for several.
#[derive(Drop)]
pub(crate) enum JointFormula {
    Horn(Horn),
    Dual(DualHorn),
    Two(LeanTwoCnf),
}

/// The formula with the clauses of all these sets, which are formulas of the family, if that is one
/// of formulas in clauses, and the clauses are few.
pub(crate) fn joint_of(
    alloc: Global,
    case: &Case<'_>,
    family: FormulaFamily,
    asked: &[(usize, bool)],
) -> Result<Option<JointFormula>, AllocError>
    requires { (a : ℕ × Bool) → Contains asked.now a → IsOfFamily (lines_in case.now) family a.0 }
    ensures { IfOk result (λ found. IfSome found (IsJointOf (lines_in case.now) asked.now)) }
{
    // For its contract alone: the lines are those of a table.
    let _count = case.table.expr_count();
    let store = case.store;
    match family {
        FormulaFamily::Horn => match made_of(alloc, case, store.horns(), asked)? {
            Some(formula) => Ok(Some(JointFormula::Horn(formula))),
            None => Ok(None),
        },
        FormulaFamily::Dual => match made_of(alloc, case, store.duals(), asked)? {
            Some(formula) => Ok(Some(JointFormula::Dual(formula))),
            None => Ok(None),
        },
        FormulaFamily::Two => match made_of(alloc, case, store.twos(), asked)? {
            Some(formula) => Ok(Some(JointFormula::Two(formula))),
            None => Ok(None),
        },
        FormulaFamily::States | FormulaFamily::Node => Ok(None),
    }
}

/// The same of formulas of one kind of clauses. It isn't inlined: what a formula is made of takes
/// some 2 KB, which would be cleared each time.
#[inline(never)]
fn made_of<K: ClauseKind>(
    alloc: Global,
    case: &Case<'_>,
    store: &Formulas<K>,
    asked: &[(usize, bool)],
) -> Result<Option<Formula<K>>, AllocError>
    requires { AreAllStored case.now store.now asked.now }
    ensures { IfOk result (λ found. IfSome found
        (λ formula. AreJointClauses (lines_in case.now) asked.now formula.clauses)) }
{
    if !are_few(case, store, asked) {
        return Ok(None);
    }
    let clauses = clauses_of_all(alloc, case, store, asked)?;
    let formula = Formula::of_kind(alloc, case.task, &clauses)?;
    Ok(Some(formula))
}

/// Whether the sets have few clauses and literals together.
fn are_few<K: ClauseKind>(case: &Case<'_>, store: &Formulas<K>, asked: &[(usize, bool)]) -> bool
    requires { AreAllStored case.now store.now asked.now }
{
    let most = asked.len().saturating_mul(MOST_EACH);
    let mut size: usize = 0;
    for (set, _) in asked {
        let clauses = store.get(number_of(case.store, *set)).clauses();
        size = size.saturating_add(size_upto(clauses, most));
        if size > most {
            return false;
        }
    }
    true
}

/// How many clauses and literals there are, or a greater number than that.
fn size_upto(clauses: &Clauses, most: usize) -> usize {
    let mut size = clauses.len();
    for place in 0..clauses.len() {
        if size > most {
            return size;
        }
        size = size.saturating_add(clauses.get(place).len());
    }
    size
}

/// The clauses of all these sets.
fn clauses_of_all<K: ClauseKind>(
    alloc: Global,
    case: &Case<'_>,
    store: &Formulas<K>,
    asked: &[(usize, bool)],
) -> Result<Clauses, AllocError>
    requires { AreAllStored case.now store.now asked.now }
    ensures clauses { IfOk result (AreJointClauses (lines_in case.now) asked.now) }
    ensures below { IfOk result (AreClauses (atoms case.now.task.now)) }
    ensures kind { IfOk result (All K.is_of) }
{
    let mut all = Clauses::new(alloc);
    for (set, _) in asked {
        put_clauses(store.get(number_of(case.store, *set)).clauses(), &mut all)?;
    }
    all.share()
}

/// Puts these clauses behind the others.
fn put_clauses(clauses: &Clauses, into: &mut Clauses) -> Result<(), AllocError>
    ensures { OnOk result (into.new ≡ into.old ++ clauses.now) }
{
    for place in 0..clauses.len() {
        into.push_literals(clauses.get(place))?;
    }
    Ok(())
}

/// The verdict of the inclusion, for whose left side this formula stands, if the right one is a
/// formula of its family.
pub(crate) fn verdict_of_joint(
    alloc: Global,
    case: &Case<'_>,
    joint: &JointFormula,
    claim: Inclusion,
    scratch: &mut Scratch,
) -> Result<Option<Verdict>, AllocError>
    requires word { claim.word ≡ W.B1 }
    requires right { claim.right < expr_count (lines_in case.now) }
    requires joint { IsJointFor (lines_in case.now) claim.left joint.now }
    ensures { IfOk result (λ found. IfSome found (IsVerdictOfSub (setting_in case.now)
        (lines_in case.now) claim.word claim.left claim.right)) }
{
    let store = case.store;
    let right = claim.right;
    match (joint, case.table.expr(right)) {
        (JointFormula::Horn(left), Expr::Horn(_)) => {
            let right = store.horns().get(number_of(store, right));
            verdict_within(alloc, case, left, right, scratch)
        }
        (JointFormula::Dual(left), Expr::Dual(_)) => {
            let right = store.duals().get(number_of(store, right));
            verdict_within(alloc, case, left, right, scratch)
        }
        (JointFormula::Two(left), Expr::Two(_)) => {
            let right = store.twos().get(number_of(store, right));
            verdict_within(alloc, case, left, right, scratch)
        }
        _ => Ok(None),
    }
}

/// The same of formulas of one kind of clauses, if they are over the same atoms.
fn verdict_within<K: ClauseKind>(
    alloc: Global,
    case: &Case<'_>,
    left: &Formula<K>,
    right: &Formula<K>,
    scratch: &mut Scratch,
) -> Result<Option<Verdict>, AllocError>
    ensures { IfOk result (λ found. IfSome found (IsVerdictWithin case.now.budget
        right.now.atoms left.now.clauses right.now.clauses)) }
{
    if left.atoms() != right.atoms() {
        return Ok(None);
    }
    match find_within_kind(alloc, left, right, case.budget, scratch)? {
        Finding::Over => Ok(Some(Verdict::Over)),
        Finding::Empty => Ok(Some(Verdict::True)),
        Finding::Clash => {
            let verdict = clash_at(alloc, None, scratch.state())?;
            Ok(Some(verdict))
        }
    }
}

/// Whether each state of the left formula is in the right one, by a walk over the clauses of the
/// right one. Each is asked about with all its literals at once, in the rows of the scratch, which
/// need no clearing: what the left formula forces by itself is worked out already, and a clause
/// that follows from few others is found out by these.
fn find_within_kind<K: ClauseKind>(
    alloc: Global,
    left: &Formula<K>,
    right: &Formula<K>,
    budget: u64,
    scratch: &mut Scratch,
) -> Result<Finding, AllocError>
    requires atoms { left.now.atoms ≡ right.now.atoms }
    requires budget { budget ≤ most_budget }
    ensures { IfOk result (λ found. IsAnswer found (budget < length right.now.clauses)
        right.now.atoms (difference (in_formula left.now) (in_formula right.now))
        scratch.new.state) }
{
    if right.outside_count(alloc, budget)? > budget {
        return Ok(Finding::Over);
    }
    let mut walk = OutsideWalk::new(alloc, right);
    let mut asked = InsideAsk::new(alloc, left);
    if meet_along(alloc, &mut walk, &mut asked, scratch)? {
        Ok(Finding::Clash)
    } else {
        Ok(Finding::Empty)
    }
}

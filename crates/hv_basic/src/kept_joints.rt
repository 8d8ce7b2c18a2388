//! Left sides with many leaves that are asked about again and again, each as one formula: a
//! statement without an action costs what its right side has, and not the number of leaves.

ghost use Rattle.std.specs.Prelude.{◌≡◌, ◌<◌, List, true, IfOk, IfSome};
ghost use Rattle.std.specs.List.{All, Contains};
ghost use Rattle.hv_lines.specs.Numbering.{expr_count};
ghost use Rattle.hv_lines.specs.Shapes.{IsOfFamily};
ghost use Rattle.hv_lines.specs.declared.line.Line.{Line};
ghost use Rattle.hv_lines.specs.declared.line.Word.TheVariants as W;
ghost use Rattle.hv_basic.specs.Cases.{lines_in, setting_in};
ghost use Rattle.hv_basic.specs.Sharing.{AreItsLeaves, IsJointFor, IsJointKept};
ghost use Rattle.hv_basic.specs.Working.Gathered.{HaveTheirFamilies};
ghost use Rattle.hv_basic.specs.Working.Joints.{IsJointAt, IsLeftAt};
ghost use Rattle.hv_basic.specs.Working.Sharing.{IsVerdictOfSub};
ghost use Rattle.hv_basic.specs.declared.signed_sets.Asking.{Asking};

use crate::case::Case;
use crate::families::{is_clause_formula, one_family};
use crate::joint::{JointFormula, joint_of, verdict_of_joint};
use crate::rising::in_order;
use crate::shapes::MOST_OPERANDS;
use crate::shared::{KeptJoint, KeptLeaves};
use crate::shared_verdicts::are_positive;
use crate::sides::Inclusion;
use crate::signed_sets::{Asking, Others, gather};
use hv_lines::{FormulaFamily, Verdict, Word};
use hv_sets::Scratch;
use std::alloc::{AllocError, Global};

/// So many left sides are kept at most.
const MOST_JOINTS: usize = 4;

/// A left side with fewer leaves isn't kept.
const MANY_LEAVES: usize = 16;

/// The verdict of the inclusion, if it has no action, its left side is kept as one formula, or can
/// be kept since its leaves are, and its right side is a formula of the same family.
pub(crate) fn verdict_by_joint(
    alloc: Global,
    case: &Case<'_>,
    lefts: &[KeptLeaves],
    joints: &mut Vec<KeptJoint>,
    scratch: &mut Scratch,
    claim: Inclusion,
) -> Result<Option<Verdict>, AllocError>
    requires left { claim.left < expr_count (lines_in case.now) }
    requires right { claim.right < expr_count (lines_in case.now) }
    requires lefts { All (AreItsLeaves (lines_in case.now)) lefts.now }
    requires joints { All (IsJointKept (lines_in case.now)) joints.old.items }
    ensures answer { IfOk result (λ found. IfSome found (IsVerdictOfSub (setting_in case.now)
        (lines_in case.now) claim.word claim.left claim.right)) }
    ensures joints { All (IsJointKept (lines_in case.now)) joints.new.items }
{
    if !is_lone_word(claim.word) || !is_clause_formula(case.table.expr(claim.right)) {
        return Ok(None);
    }
    let Some(place) = bring_joint(alloc, case, lefts, joints, claim.left)? else {
        return Ok(None);
    };
    match &joints[place].formula {
        None => Ok(None),
        Some(joint) => verdict_of_joint(alloc, case, joint, claim, scratch),
    }
}

/// Whether the word is that of inclusions without an action.
fn is_lone_word(word: Word) -> bool
    ensures { result ≡ true → word ≡ W.B1 }
{
    match word {
        Word::B1 => true,
        _ => false,
    }
}

/// The place of the left side. Where it isn't there, and its leaves are kept and are many, it is
/// put last.
fn bring_joint(
    alloc: Global,
    case: &Case<'_>,
    lefts: &[KeptLeaves],
    joints: &mut Vec<KeptJoint>,
    root: usize,
) -> Result<Option<usize>, AllocError>
    requires lefts { All (AreItsLeaves (lines_in case.now)) lefts.now }
    requires joints { All (IsJointKept (lines_in case.now)) joints.old.items }
    ensures place { IfOk result (λ found. IfSome found (IsJointAt joints.new.items root)) }
    ensures joints { All (IsJointKept (lines_in case.now)) joints.new.items }
{
    if let Some(place) = joint_at(joints, root) {
        return Ok(Some(place));
    }
    let Some(place) = leaves_at(lefts, root) else {
        return Ok(None);
    };
    if lefts[place].leaves.len() < MANY_LEAVES {
        return Ok(None);
    }
    let formula = joint_of_leaves(alloc, case, &lefts[place])?;
    give_up_joint(joints);
    joints.push(KeptJoint { root, formula })?;
    Ok(Some(joints.len() - 1))
}

/// The place of the left side among those that are kept as one formula.
fn joint_at(joints: &[KeptJoint], root: usize) -> Option<usize>
    ensures { IfSome result (IsJointAt joints.now root) }
{
    for place in 0..joints.len() {
        if joints[place].root == root {
            return Some(place);
        }
    }
    None
}

/// The place of the left side among those whose leaves are kept.
fn leaves_at(lefts: &[KeptLeaves], root: usize) -> Option<usize>
    ensures { IfSome result (IsLeftAt lefts.now root) }
{
    for place in 0..lefts.len() {
        if lefts[place].root == root {
            return Some(place);
        }
    }
    None
}

/// One formula for the leaves, if they are formulas of one family, and few enough for a statement.
fn joint_of_leaves(
    alloc: Global,
    case: &Case<'_>,
    own: &KeptLeaves,
) -> Result<Option<JointFormula>, AllocError>
    requires { AreItsLeaves (lines_in case.now) own.now }
    ensures { IfOk result (λ found. IfSome found (IsJointFor (lines_in case.now) own.now.root)) }
{
    let mut askings = Vec::new(alloc);
    match gather(&own.leaves, true, false, &mut askings)? {
        Others::None => {}
        _ => return Ok(None),
    }
    if !are_positive(&askings) {
        return Ok(None);
    }
    let Some(family) = family_of_all(&askings) else {
        return Ok(None);
    };
    let asked = in_order(alloc, &askings, true)?;
    if asked.len() >= MOST_OPERANDS {
        return Ok(None);
    }
    joint_of(alloc, case, family, &asked)
}

/// The family of which each is a formula.
fn family_of_all(askings: &[Asking]) -> Option<FormulaFamily>
    ensures { (lines : List Line) → HaveTheirFamilies lines askings.now → IfSome result
        (λ family. (asking : Asking) → Contains askings.now asking
        → IsOfFamily lines family asking.set) }
{
    for asking in askings {
        if asking.family.is_none() {
            return None;
        }
    }
    one_family(askings, None)
}

/// Gives up the first, where there are many.
fn give_up_joint(joints: &mut Vec<KeptJoint>)
    ensures { (lines : List Line) → All (IsJointKept lines) joints.old.items
        → All (IsJointKept lines) joints.new.items }
{
    if joints.len() < MOST_JOINTS {
        return;
    }
    joints.remove(0);
}

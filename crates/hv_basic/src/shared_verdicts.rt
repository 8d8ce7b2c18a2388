//! Verdicts of statements whose right sides grow.

ghost use Rattle.std.specs.Prelude.{◌≡◌, ◌<◌, ◌≤◌, ℕ, Bool, true, false, List, [], ◌∷◌, IfOk, Some};
ghost use Rattle.std.specs.Prelude.{IfErr, IfSome, OnOk, length};
ghost use Rattle.hv_lines.specs.Numbering.{IsTable, SpeaksBelow, acts_count, expr_count};
ghost use Rattle.hv_lines.specs.Shapes.{AskingsRise, HasShape, IsQuestion, asks_sides_after};
ghost use Rattle.hv_lines.specs.Shapes.{QuestionState as AskedQuestion};
ghost use Rattle.hv_lines.specs.Verdicts.{IsVerdict, IsVerdictOfSets};
ghost use Rattle.std.specs.List.{All, Contains};
ghost use Rattle.hv_basic.specs.Deciding.{IsQuestionOver};
ghost use Rattle.hv_basic.specs.Faults.{IsShapeFault};
ghost use Rattle.hv_basic.specs.Cases.{lines_in, setting_in};
ghost use Rattle.hv_basic.specs.Sharing.{AreNegations, AreWays, IsKeptFor};
ghost use Rattle.hv_basic.specs.Sharing.{IsRightSide, IsShared, clauses_to_choose};
ghost use Rattle.hv_basic.specs.Working.Asked.{AreOperands};
ghost use Rattle.hv_basic.specs.Working.Gathered.{IsLeftRead};
ghost use Rattle.hv_lines.specs.declared.line.Line.{Line};
ghost use Rattle.hv_basic.specs.Working.Sharing.{AreAskedBeside, IsAloneWithin};
ghost use Rattle.hv_basic.specs.Working.Sharing.{AreNamed, IsAskedBy, IsVerdictOfSub};
ghost use Rattle.hv_basic.specs.Working.Sharing.{IsListWithinIts, IsWithinIts};
ghost use Rattle.hv_lines.specs.declared.line.Expr.TheVariants as E;
ghost use Rattle.hv_basic.specs.declared.signed_sets.Asking.{Asking};
ghost use Rattle.hv_basic.specs.Working.Views.{question_of};

use crate::basic::Question;
use crate::case::Case;
use crate::families::{is_in_clauses, is_listed, one_family};
use crate::kept_joints::verdict_by_joint;
use crate::lefts::{asks_sides_after, left_of};
use crate::recent::bring;
use crate::rights::{clauses_to_choose, is_union, keep_right, lesser_before};
use crate::rising::in_order;
use crate::shapes::{MOST_OPERANDS, ShapeFault, question_beside, shape};
use crate::shared::{Kept, Shared};
use crate::sides::{Inclusion, Sides};
use crate::signed_sets::{Asking, gather};
use crate::told::is_told;
use crate::verdicts::{decide_on, decide_sets, decide_whole, operands_of};
use hv_lines::{Expr, Statement, Table, Verdict, Word};
use hv_sets::Scratch;
use std::alloc::{AllocError, Global};

/// The verdict of a basic statement with its word, as `shape` and `decide` give it. What right
/// sides ask, the leaves of left sides, and which actions are in action sets, is kept for the
/// statements after it, of the last four: where the next one is made of one of these and a further
/// set, only that set is looked at.
pub fn verdict_of(
    alloc: Global,
    case: &Case<'_>,
    shared: &mut Shared,
    statement: &Statement,
    word: Word,
) -> Result<Verdict, ShapeFault>
    requires speaks { SpeaksBelow (acts_count (lines_in case.now)) (expr_count (lines_in case.now))
        statement.now }
    requires shared { IsShared (lines_in case.now) shared.old }
    ensures answer { IfOk result (IsVerdict (setting_in case.now) (lines_in case.now)
        statement.now word) }
    ensures err { IfErr result (IsShapeFault (HasShape (lines_in case.now) statement.now word
        → ⊥)) }
    ensures shared { IsShared (lines_in case.now) shared.new }
{
    match statement {
        Statement::Sub(left, right) => match word {
            Word::B4 => verdict_by_shape(alloc, case, shared, statement, word),
            _ => {
                let claim = Inclusion {
                    word,
                    left: *left,
                    right: *right,
                };
                match verdict_of_sides(alloc, case, shared, claim) {
                    Ok(verdict) => Ok(verdict),
                    Err(fault) => Err(fault),
                }
            }
        },
        _ => verdict_by_shape(alloc, case, shared, statement, word),
    }
}

/// The verdict of a statement that isn't one of sets over one family.
fn verdict_by_shape(
    alloc: Global,
    case: &Case<'_>,
    shared: &mut Shared,
    statement: &Statement,
    word: Word,
) -> Result<Verdict, ShapeFault>
    requires speaks { SpeaksBelow (acts_count (lines_in case.now)) (expr_count (lines_in case.now))
        statement.now }
    requires shared { IsShared (lines_in case.now) shared.old }
    ensures answer { IfOk result (IsVerdict (setting_in case.now) (lines_in case.now)
        statement.now word) }
    ensures err { IfErr result (IsShapeFault (HasShape (lines_in case.now) statement.now word
        → ⊥)) }
    ensures shared { IsShared (lines_in case.now) shared.new }
{
    let basic = shape(alloc, case.table, statement, word)?;
    let verdict = decide_on(
        alloc,
        case,
        &basic,
        &mut shared.flagged,
        &mut shared.scratch,
    )?;
    Ok(verdict)
}

/// The verdict of an inclusion of sets over one family.
fn verdict_of_sides(
    alloc: Global,
    case: &Case<'_>,
    shared: &mut Shared,
    claim: Inclusion,
) -> Result<Verdict, ShapeFault>
    requires left { claim.left < expr_count (lines_in case.now) }
    requires right { claim.right < expr_count (lines_in case.now) }
    requires shared { IsShared (lines_in case.now) shared.old }
    ensures answer { IfOk result (IsVerdictOfSub (setting_in case.now) (lines_in case.now)
        claim.word claim.left claim.right) }
    ensures err { IfErr result (IsShapeFault ((question : AskedQuestion)
        → IsQuestion (lines_in case.now) claim.word claim.left claim.right question → ⊥)) }
    ensures shared { IsShared (lines_in case.now) shared.new }
{
    let joints = &mut shared.joints;
    let scratch = &mut shared.scratch;
    if let Some(verdict) = verdict_by_joint(alloc, case, &shared.lefts, joints, scratch, claim)? {
        return Ok(verdict);
    }
    match left_of(alloc, case.table, &mut shared.lefts, claim.word, claim.left) {
        Ok(sides) => verdict_beside(alloc, case, shared, claim, sides),
        Err(fault) => Err(fault),
    }
}

/// The same, of which the left side was read: of a union by what is kept.
fn verdict_beside(
    alloc: Global,
    case: &Case<'_>,
    shared: &mut Shared,
    claim: Inclusion,
    sides: Sides,
) -> Result<Verdict, ShapeFault>
    requires right { claim.right < expr_count (lines_in case.now) }
    requires left { IsLeftRead (lines_in case.now) claim.word claim.left sides }
    requires shared { IsShared (lines_in case.now) shared.old }
    ensures answer { IfOk result (IsVerdictOfSub (setting_in case.now) (lines_in case.now)
        claim.word claim.left claim.right) }
    ensures err { IfErr result (IsShapeFault ((question : AskedQuestion)
        → IsQuestion (lines_in case.now) claim.word claim.left claim.right question → ⊥)) }
    ensures shared { IsShared (lines_in case.now) shared.new }
{
    if !is_union(case.table.expr(claim.right)) {
        return verdict_by_leaves(alloc, case, &mut shared.scratch, claim, sides);
    }
    verdict_of_union(
        alloc,
        case,
        &mut shared.sides,
        &mut shared.scratch,
        claim,
        sides,
    )
}

/// The same by the leaves of the right side.
fn verdict_by_leaves(
    alloc: Global,
    case: &Case<'_>,
    scratch: &mut Scratch,
    claim: Inclusion,
    sides: Sides,
) -> Result<Verdict, ShapeFault>
    requires right { claim.right < expr_count (lines_in case.now) }
    requires left { IsLeftRead (lines_in case.now) claim.word claim.left sides }
    ensures answer { IfOk result (IsVerdictOfSub (setting_in case.now) (lines_in case.now)
        claim.word claim.left claim.right) }
    ensures err { IfErr result (IsShapeFault ((question : AskedQuestion)
        → IsQuestion (lines_in case.now) claim.word claim.left claim.right question → ⊥)) }
{
    let question = question_beside(alloc, case.table, claim, sides)?;
    let verdict = decide_whole(alloc, case, &question, scratch)?;
    Ok(verdict)
}

/// The same where the right side is a union: what is kept of it, or of a part, is brought.
fn verdict_of_union(
    alloc: Global,
    case: &Case<'_>,
    kept: &mut Vec<Kept>,
    scratch: &mut Scratch,
    claim: Inclusion,
    sides: Sides,
) -> Result<Verdict, ShapeFault>
    requires right { claim.right < expr_count (lines_in case.now) }
    requires left { IsLeftRead (lines_in case.now) claim.word claim.left sides }
    requires kept { All (IsRightSide (lines_in case.now)) kept.old.items }
    ensures answer { IfOk result (IsVerdictOfSub (setting_in case.now) (lines_in case.now)
        claim.word claim.left claim.right) }
    ensures err { IfErr result (IsShapeFault ((question : AskedQuestion)
        → IsQuestion (lines_in case.now) claim.word claim.left claim.right question → ⊥)) }
    ensures kept { All (IsRightSide (lines_in case.now)) kept.new.items }
{
    bring(
        alloc,
        kept,
        case.table,
        claim.right,
        asks_sides_after(claim.word),
    )?;
    let last = kept.len() - 1;
    verdict_by_kept(alloc, case, &mut kept[last], scratch, claim, sides)
}

/// The same by what is kept, if the right side can be kept, and else by its leaves.
fn verdict_by_kept(
    alloc: Global,
    case: &Case<'_>,
    kept: &mut Kept,
    scratch: &mut Scratch,
    claim: Inclusion,
    sides: Sides,
) -> Result<Verdict, ShapeFault>
    requires right { claim.right < expr_count (lines_in case.now) }
    requires left { IsLeftRead (lines_in case.now) claim.word claim.left sides }
    requires kept { IsRightSide (lines_in case.now) kept.old }
    ensures answer { IfOk result (IsVerdictOfSub (setting_in case.now) (lines_in case.now)
        claim.word claim.left claim.right) }
    ensures err { IfErr result (IsShapeFault ((question : AskedQuestion)
        → IsQuestion (lines_in case.now) claim.word claim.left claim.right question → ⊥)) }
    ensures kept { IsRightSide (lines_in case.now) kept.new }
{
    if !keep_right(alloc, case, kept, claim.right, asks_sides_after(claim.word))? {
        return verdict_by_leaves(alloc, case, scratch, claim, sides);
    }
    if is_told(case, kept, &sides.askings) {
        return Ok(Verdict::True);
    }
    verdict_by_question(alloc, case, kept, scratch, claim, sides)
}

/// The same by the question that is put beside what is kept, if no negation on the left asks
/// anything, and else by the leaves of the right side.
fn verdict_by_question(
    alloc: Global,
    case: &Case<'_>,
    kept: &mut Kept,
    scratch: &mut Scratch,
    claim: Inclusion,
    sides: Sides,
) -> Result<Verdict, ShapeFault>
    requires below { claim.right < expr_count (lines_in case.now) }
    requires right { IsKeptFor (lines_in case.now) kept.old claim.right }
    requires root { kept.old.root ≡ Some claim.right }
    requires after { kept.old.after ≡ asks_sides_after claim.word }
    requires left { IsLeftRead (lines_in case.now) claim.word claim.left sides }
    ensures answer { IfOk result (IsVerdictOfSub (setting_in case.now) (lines_in case.now)
        claim.word claim.left claim.right) }
    ensures err { IfErr result (IsShapeFault ((question : AskedQuestion)
        → IsQuestion (lines_in case.now) claim.word claim.left claim.right question → ⊥)) }
    ensures kept { IsRightSide (lines_in case.now) kept.new }
{
    if ask(alloc, case.table, kept, claim, &sides)? {
        let verdict = decide_kept(alloc, case, kept, scratch)?;
        return Ok(verdict);
    }
    verdict_by_leaves(alloc, case, scratch, claim, sides)
}

/// Puts what the left side asks beside what is kept of the right side.
fn ask(
    alloc: Global,
    table: &Table,
    kept: &mut Kept,
    claim: Inclusion,
    sides: &Sides,
) -> Result<bool, AllocError>
    requires right { IsKeptFor table.now.lines kept.old claim.right }
    requires after { kept.old.after ≡ asks_sides_after claim.word }
    requires left { IsLeftRead table.now.lines claim.word claim.left sides.now }
    ensures kept { IsKeptFor table.now.lines kept.new claim.right }
    ensures root { kept.new.root ≡ kept.old.root }
    ensures asked { IfOk result (λ yes. yes ≡ true
        → IsAskedBy table.now.lines claim.word claim.left claim.right kept.new) }
{
    if kept.negations.is_empty() {
        return ask_together(alloc, table, kept, claim, sides, &sides.askings);
    }
    let askings = askings_beside(alloc, kept, sides)?;
    ask_together(alloc, table, kept, claim, sides, &askings)
}

/// What the left side asks, and what the negations on the right ask besides.
fn askings_beside(alloc: Global, kept: &Kept, sides: &Sides) -> Result<Vec<Asking>, AllocError>
    ensures { IfOk result (λ askings. (lines : List Line)
        → AreNegations lines kept.now.negations.items → AreAskedBeside lines kept.now
        sides.now.askings.items askings.items) }
{
    let mut askings = Vec::from_slice(alloc, &sides.askings)?;
    gather(&kept.negations, false, kept.after, &mut askings)?;
    Ok(askings)
}

/// Puts these beside what is kept of the right side: what the left side asks, and what the
/// negations on the right ask.
fn ask_together(
    alloc: Global,
    table: &Table,
    kept: &mut Kept,
    claim: Inclusion,
    sides: &Sides,
    askings: &[Asking],
) -> Result<bool, AllocError>
    requires right { IsKeptFor table.now.lines kept.old claim.right }
    requires after { kept.old.after ≡ asks_sides_after claim.word }
    requires left { IsLeftRead table.now.lines claim.word claim.left sides.now }
    requires beside { AreAskedBeside table.now.lines kept.old sides.now.askings.items askings.now }
    ensures kept { IsKeptFor table.now.lines kept.new claim.right }
    ensures root { kept.new.root ≡ kept.old.root }
    ensures asked { IfOk result (λ yes. yes ≡ true
        → IsAskedBy table.now.lines claim.word claim.left claim.right kept.new) }
{
    let _ = table;
    let _ = claim;
    if !are_positive(askings) {
        return Ok(false);
    }
    let Some(family) = one_family(askings, kept.family) else {
        return Ok(false);
    };
    let positive = in_order(alloc, askings, true)?;
    if positive.len() + kept.question.negative.len() > MOST_OPERANDS {
        return Ok(false);
    }
    kept.question.family = family;
    kept.question.positive = positive;
    kept.question.acts = sides.acts;
    Ok(true)
}

/// Whether nothing is asked about with the sign of the right side's formulas.
pub(crate) fn are_positive(askings: &[Asking]) -> bool
    ensures { result ≡ true → (asking : Asking) → Contains askings.now asking
        → asking.positive ≡ true }
{
    for asking in askings {
        if !asking.positive {
            return false;
        }
    }
    true
}

/// The verdict on the question that is beside what is kept. Where the left side asks for a set that
/// the right one has, no query is asked.
fn decide_kept(
    alloc: Global,
    case: &Case<'_>,
    kept: &mut Kept,
    scratch: &mut Scratch,
) -> Result<Verdict, AllocError>
    requires table { IsTable (lines_in case.now) }
    requires question { IsQuestionOver (lines_in case.now) (question_of kept.old.question) }
    requires named { AreNamed (lines_in case.now) kept.old }
    requires ways { IfSome kept.old.ways (AreWays (lines_in case.now)
        kept.old.question.negative.items) }
    ensures answer { IfOk result (IsVerdictOfSets (setting_in case.now) (lines_in case.now)
        (question_of kept.old.question)) }
    ensures kept { IsRightSide (lines_in case.now) kept.old
        → IsRightSide (lines_in case.now) kept.new }
{
    if is_within_its(kept, case.budget) {
        return Ok(Verdict::True);
    }
    if is_list_within_its(case, kept) {
        return Ok(Verdict::True);
    }
    name_all(alloc, case, kept)?;
    let verdict = decide_sets(alloc, case, &kept.question, &mut kept.query, scratch)?;
    Ok(verdict)
}

/// Gives the right side its operands, where they aren't named.
fn name_all(alloc: Global, case: &Case<'_>, kept: &mut Kept) -> Result<(), AllocError>
    requires below { All (λ a. a.0 < expr_count (lines_in case.now))
        kept.old.question.negative.items }
    requires named { AreNamed (lines_in case.now) kept.old }
    ensures question { kept.new.question ≡ kept.old.question }
    ensures named { OnOk result (AreOperands (lines_in case.now)
        kept.old.question.negative.items kept.new.query.negative) }
    ensures kept { IsRightSide (lines_in case.now) kept.old
        → IsRightSide (lines_in case.now) kept.new }
{
    if kept.named {
        return Ok(());
    }
    let negative = operands_of(alloc, case, &kept.question.negative)?;
    kept.query.negative = negative;
    kept.named = true;
    Ok(())
}

/// Whether the left side asks for a set that the right one has, and the cost is known to be within
/// the budget.
fn is_within_its(kept: &Kept, budget: u64) -> bool
    requires { AskingsRise kept.now.question.negative.items }
    ensures { result ≡ true → IsWithinIts kept.now budget }
{
    if !is_in_clauses(kept.question.family) {
        return false;
    }
    let Some(ways) = kept.ways else {
        return false;
    };
    if ways > budget {
        return false;
    }
    have_common(&kept.question.positive, &kept.question.negative)
}

/// Whether the right side asks for one formula in clauses alone, for which the left side asks too,
/// and the cost is known to be within the budget.
pub(crate) fn is_alone_within(case: &Case<'_>, question: &Question) -> bool
    requires table { IsTable (lines_in case.now) }
    requires question { IsQuestionOver (lines_in case.now) (question_of question.now) }
    ensures { result ≡ true
        → IsAloneWithin (lines_in case.now) (question_of question.now) case.now.budget }
{
    if !is_in_clauses(question.family) {
        return false;
    }
    let Some(own) = only_one(&question.negative) else {
        return false;
    };
    if !is_among(&question.positive, own) {
        return false;
    }
    chooses_upto(case.table.expr(own.0), case.budget)
}

/// What is asked about, if it is alone.
fn only_one(asked: &[(usize, bool)]) -> Option<(usize, bool)>
    ensures { IfSome result (λ own. asked.now ≡ own ∷ []) }
{
    if asked.len() != 1 {
        return None;
    }
    Some(asked[0])
}

/// Whether the clauses to choose from are told, and at most so many.
fn chooses_upto(expr: &Expr, most: u64) -> bool
    ensures { result ≡ true → (count : ℕ) × (clauses_to_choose expr.now ≡ Some count)
        × (count ≤ most) }
{
    match clauses_to_choose(expr) {
        None => false,
        Some(count) => count <= most,
    }
}

/// Whether the left side asks for one list of states, before the action, that the right one has,
/// and the list isn't longer than the budget allows.
fn is_list_within_its(case: &Case<'_>, kept: &Kept) -> bool
    requires rises { AskingsRise kept.now.question.negative.items }
    requires below { All (λ a. a.0 < expr_count (lines_in case.now))
        kept.now.question.negative.items }
    ensures { result ≡ true
        → IsListWithinIts (lines_in case.now) kept.now case.now.budget }
{
    if !is_listed(kept.question.family) {
        return false;
    }
    let Some(own) = only_before(&kept.question.positive) else {
        return false;
    };
    if !is_among(&kept.question.negative, (own, false)) {
        return false;
    }
    lists_upto(case.table.expr(own), case.budget)
}

/// The set, if it alone is asked about, and before the action.
fn only_before(asked: &[(usize, bool)]) -> Option<usize>
    ensures { IfSome result (λ own. asked.now ≡ (own, false) ∷ []) }
{
    if asked.len() != 1 {
        return None;
    }
    let one = asked[0];
    if one.1 {
        return None;
    }
    Some(one.0)
}

/// Whether the set lists states, and at most so many.
fn lists_upto(expr: &Expr, most: u64) -> bool
    ensures { result ≡ true → (states : List (List ℕ))
        × (expr.now ≡ E.States states) × (length states ≤ most) }
{
    match expr {
        Expr::States(states) => states.len() as u64 <= most,
        Expr::Constant(_) | Expr::Horn(_) | Expr::Dual(_) | Expr::Two(_) | Expr::Node(_) => false,
        Expr::Not(_) | Expr::And(..) | Expr::Or(..) | Expr::After(..) | Expr::Before(..) => false,
    }
}

/// Whether something is asked about in both lists, of which the second rises.
fn have_common(first: &[(usize, bool)], second: &[(usize, bool)]) -> bool
    requires { AskingsRise second.now }
    ensures { result ≡ true → (a : ℕ × Bool) × Contains first.now a × Contains second.now a }
{
    for one in first {
        if is_among(second, *one) {
            return true;
        }
    }
    false
}

/// Whether this is among what is asked about.
pub(crate) fn is_among(asked: &[(usize, bool)], one: (usize, bool)) -> bool
    requires { AskingsRise asked.now }
    ensures { result ≡ true → Contains asked.now one }
{
    let place = lesser_before(asked, one.0);
    if place >= asked.len() {
        return false;
    }
    let found = asked[place];
    is_same(found, one)
}

fn is_same(first: (usize, bool), second: (usize, bool)) -> bool
    ensures { result ≡ true → first ≡ second }
{
    first.0 == second.0 && first.1 == second.1
}

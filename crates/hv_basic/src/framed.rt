//! For which actions a statement over all actions is asked about where a formula in clauses is
//! asked about positively at one time, before the action or after it, and negatively at the other:
//! for those that can turn a literal of it, or, of a formula of exclusions, for those that can lead
//! into it or out of it (`exclusions`).

ghost use Rattle.std.specs.Prelude.{◌≡◌, ◌⊎◌, ◌∷◌, [], List, map, not, slice_index_or, IfOk};
ghost use Rattle.std.specs.Prelude.{IfSome, IsTrue};
ghost use Rattle.hv_task.specs.Strips.{atoms};
ghost use Rattle.hv_sets.specs.Truth.{in_clauses};
ghost use Rattle.hv_sets.specs.declared.literal.Literal.{Literal};
ghost use Rattle.hv_lines.specs.Queries.{has_of};
ghost use Rattle.hv_basic.specs.Cases.{lines_in, setting_in};
ghost use Rattle.hv_basic.specs.Stores.{formula};
ghost use Rattle.hv_basic.specs.Working.Candidates.{HaveAllClashes};
ghost use Rattle.hv_basic.specs.Working.Framed.{AreCrossing, IsFramed};

use crate::case::Case;
use crate::denied::clauses_of;
use crate::exclusions::leading;
use crate::turned::{cost_of, most_for, turning};
use hv_clauses::Formulas;
use hv_formula::ClauseKind;
use hv_lines::FormulaFamily;
use hv_sets::{Operand, Query, Which};
use hv_task::{AtomList, Task};
use std::alloc::{AllocError, Global};

/// A set of the store that is asked about positively at one time, and negatively at the other.
#[derive(Clone, Copy)]
pub(crate) struct Frame {
    pub number: usize,
    /// Whether the positive time is after the action, so that a counterexample leads into the set.
    pub into: bool,
}

/// The first action and those for which the query can have a counterexample, if it asks about a
/// formula at both times, and there is a way to find the actions that can turn a literal of it: by
/// a look at each action, if its clauses and literals, with a sixteenth of the atoms, are at most
/// so many (look), or by rows of actions.
pub(crate) fn crossing(
    alloc: Global,
    case: &Case<'_>,
    family: FormulaFamily,
    query: &Query,
    look: Option<usize>,
) -> Result<Option<AtomList>, AllocError>
    ensures { IfOk result (λ found. IfSome found (HaveAllClashes case.now.task.now
        (has_of (setting_in case.now) (lines_in case.now) family) query.now)) }
{
    let positive = query.positive.as_slice();
    let Some(frame) = frame_of(case, family, positive, query.negative.as_slice()) else {
        return Ok(None);
    };
    let Some(numbers) = crossing_at(alloc, case, family, frame, look)? else {
        return Ok(None);
    };
    Ok(Some(numbers))
}

/// How many literals may be looked at before each action is. Where several sets are asked about
/// positively, these are for each action six, and one for each of these sets and for each of their
/// clauses, but for the set with the most clauses: so much may it cost to ask about the action, six
/// for the question alone and the rest for a way through the others' clauses. Else they are a
/// quarter as many as the actions.
pub(crate) fn most_literals(case: &Case<'_>, family: FormulaFamily, positive: &[Operand]) -> usize {
    let actions = case.task.actions() as usize;
    match clauses_of_others(case, family, positive) {
        0 => most_for(case.task),
        count => actions.saturating_mul(count.saturating_add(6)),
    }
}

/// How many clauses the sets of a store among the operands have but for the one that has the most,
/// with one for each of these sets.
fn clauses_of_others(case: &Case<'_>, family: FormulaFamily, operands: &[Operand]) -> usize {
    let mut all: usize = 0;
    let mut greatest: usize = 0;
    for operand in operands {
        if is_set(operand) {
            let count = clauses_of(case, family, operand.which).saturating_add(1);
            all = all.saturating_add(count);
            if count > greatest {
                greatest = count;
            }
        }
    }
    all.saturating_sub(greatest)
}

fn is_set(operand: &Operand) -> bool {
    matches!(operand.which, Which::Set(_))
}

/// Of the sets that are asked about at both times the one whose literals the fewest actions can
/// turn, if there is one: the operands rise by identifiers.
fn frame_of(
    case: &Case<'_>,
    family: FormulaFamily,
    positive: &[Operand],
    negative: &[Operand],
) -> Option<Frame>
    ensures { IfSome result (λ frame. IsFramed positive.now negative.now frame.number frame.into) }
{
    let mut best = None;
    let mut place: usize = 0;
    for operand in positive {
        place = past_lesser(negative, operand.id, place);
        best = cheaper(case, family, best, frame_near(*operand, negative, place));
    }
    best
}

/// The frame of the two for which less is looked at, if there is one.
fn cheaper(
    case: &Case<'_>,
    family: FormulaFamily,
    first: Option<Frame>,
    second: Option<Frame>,
) -> Option<Frame>
    ensures { (result ≡ first) ⊎ (result ≡ second) }
{
    match (first, second) {
        (None, _) => second,
        (Some(_), None) => first,
        (Some(one), Some(other)) => {
            if cost_at(case, family, other) < cost_at(case, family, one) {
                second
            } else {
                first
            }
        }
    }
}

/// How much is looked at to find the actions that can turn a literal of the frame's formula.
fn cost_at(case: &Case<'_>, family: FormulaFamily, frame: Frame) -> usize {
    match family {
        FormulaFamily::Horn => cost_in(case, case.store.horns(), frame),
        FormulaFamily::Dual => cost_in(case, case.store.duals(), frame),
        FormulaFamily::Two => cost_in(case, case.store.twos(), frame),
        FormulaFamily::States | FormulaFamily::Node => usize::MAX,
    }
}

/// The same of a formula of these.
fn cost_in<K: ClauseKind>(case: &Case<'_>, sets: &Formulas<K>, frame: Frame) -> usize {
    if frame.number >= sets.len() {
        return usize::MAX;
    }
    let clauses = sets.get(frame.number).clauses();
    cost_of(
        clauses,
        frame.into,
        case.store.changes(),
        most_for(case.task),
    )
}

/// From this place on, the first at which the identifier isn't less.
fn past_lesser(operands: &[Operand], id: usize, from: usize) -> usize {
    for place in from..operands.len() {
        if operands[place].id >= id {
            return place;
        }
    }
    operands.len()
}

/// The operand and one of the two at this place ask about one set, at different times.
fn frame_near(operand: Operand, negative: &[Operand], place: usize) -> Option<Frame>
    ensures { IfSome result (λ frame.
        IsFramed (operand ∷ []) negative.now frame.number frame.into) }
{
    match frame_with(operand, negative, place) {
        Some(frame) => Some(frame),
        None => frame_with(operand, negative, place.saturating_add(1)),
    }
}

/// The operand and the negative one at this place ask about one set, at different times.
fn frame_with(operand: Operand, negative: &[Operand], place: usize) -> Option<Frame>
    ensures { IfSome result (λ frame.
        IsFramed (operand ∷ []) negative.now frame.number frame.into) }
{
    let Some(other) = negative.get(place) else {
        return None;
    };
    let Which::Set(number) = operand.which else {
        return None;
    };
    if !are_apart(&operand, other) {
        return None;
    }
    Some(Frame {
        number,
        into: operand.after,
    })
}

/// Whether the two operands name the same and are asked about at different times.
fn are_apart(operand: &Operand, other: &Operand) -> bool
    ensures which { IsTrue result → other.now.which ≡ operand.now.which }
    ensures after { IsTrue result → other.now.after ≡ not operand.now.after }
{
    other.which == operand.which && other.after != operand.after
}

/// The first action and those that can lead into the formula, or out of it, if there is a way to
/// find them.
fn crossing_at(
    alloc: Global,
    case: &Case<'_>,
    family: FormulaFamily,
    frame: Frame,
    look: Option<usize>,
) -> Result<Option<AtomList>, AllocError>
    ensures { IfOk result (λ found. IfSome found (AreCrossing case.now.task.now
        (has_of (setting_in case.now) (lines_in case.now) family frame.number) frame.into)) }
{
    match family {
        FormulaFamily::Horn => {
            let sets = case.store.horns();
            let numbers = crossing_in(alloc, case, sets, frame, look)?;
            Ok(numbers)
        }
        FormulaFamily::Dual => {
            let sets = case.store.duals();
            let numbers = crossing_in(alloc, case, sets, frame, look)?;
            Ok(numbers)
        }
        FormulaFamily::Two => {
            let sets = case.store.twos();
            let numbers = crossing_in(alloc, case, sets, frame, look)?;
            Ok(numbers)
        }
        FormulaFamily::States | FormulaFamily::Node => Ok(None),
    }
}

/// How many actions are listed, or of the task, if none are.
fn count_or_all(listed: &Option<AtomList>, task: &Task) -> usize {
    match listed {
        Some(numbers) => numbers.len(),
        None => task.actions() as usize,
    }
}

/// The first action and those that can lead into the formula, or out of it: as its exclusions say,
/// or since they can turn a literal of it.
fn crossing_in<K: ClauseKind>(
    alloc: Global,
    case: &Case<'_>,
    sets: &Formulas<K>,
    frame: Frame,
    look: Option<usize>,
) -> Result<Option<AtomList>, AllocError>
    ensures { IfOk result (λ found. IfSome found (λ numbers. (lists : List (List (List Literal)))
        → sets.now ≡ map (formula (atoms case.now.task.now)) lists
        → AreCrossing case.now.task.now (in_clauses (slice_index_or lists frame.number []))
        frame.into numbers)) }
{
    if frame.number >= sets.len() {
        return Ok(None);
    }
    let clauses = sets.get(frame.number).clauses();
    let turned = turning(alloc, case, clauses, frame.into, look)?;
    if look.is_none() {
        return Ok(turned);
    }
    let many = count_or_all(&turned, case.task);
    if let Some(numbers) = leading(alloc, case.task, clauses, frame.into, many)? {
        return Ok(Some(numbers));
    }
    Ok(turned)
}

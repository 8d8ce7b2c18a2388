//! For which actions a statement over all actions is asked about where formulas in clauses are
//! asked about before the action: an atom that a clause of one literal denies is in no state of its
//! formula, and an action that needs it isn't applicable there.

ghost use Rattle.std.specs.Prelude.{◌≡◌, ◌<◌, ◌⊎◌, ◌∷◌, [], ℕ, Bool, List, map, length, true, false};
ghost use Rattle.std.specs.Prelude.{slice_index_or, IfOk, IfSome, OnOk};
ghost use Rattle.std.specs.List.{Contains};
ghost use Rattle.hv_task.specs.Strips.{Strips, atoms};
ghost use Rattle.hv_sets.specs.declared.literal.Literal.{Literal};
ghost use Rattle.hv_lines.specs.Queries.{has_of};
ghost use Rattle.hv_rows.specs.ActionRows.{AreActionRows};
ghost use Rattle.hv_basic.specs.Cases.{lines_in, setting_in};
ghost use Rattle.hv_basic.specs.Stores.{formula};
ghost use Rattle.hv_basic.specs.Working.Candidates.{HaveAllClashes};
ghost use Rattle.hv_basic.specs.Working.Denied.{AreAbsent, AreOpen, IsAbsentFrom, HasDenial};
ghost use Rattle.hv_basic.specs.Working.Flags.{flag_or_false};

use crate::case::Case;
use crate::picked::{put, put_row};
use crate::turned::most_for;
use crate::turned_by_look::{flag_at, set_flag};
use hv_clauses::Formulas;
use hv_formula::ClauseKind;
use hv_lines::FormulaFamily;
use hv_sets::{Clauses, Literal, Operand, Query, Which};
use hv_task::{AtomList, AtomSet, Task};
use std::alloc::{AllocError, Global};

/// The first action and those that don't stand in the row of an atom that is denied before the
/// action, by the rows of the store, if there are some and it takes less than to ask about each. An
/// action stands in one row, that of an atom that it needs.
pub(crate) fn clashes_in_open(
    alloc: Global,
    case: &Case<'_>,
    family: FormulaFamily,
    query: &Query,
) -> Result<Option<AtomList>, AllocError>
    ensures { IfOk result (λ found. IfSome found (HaveAllClashes case.now.task.now
        (has_of (setting_in case.now) (lines_in case.now) family) query.now)) }
{
    let positive = query.positive.as_slice();
    if !are_worth_flags(case, family, positive) {
        return Ok(None);
    }
    let flags = absent_atoms(alloc, case, family, positive)?;
    let Some(numbers) = open_actions(alloc, case, &flags)? else {
        return Ok(None);
    };
    Ok(Some(numbers))
}

/// Whether the store has rows of actions, formulas in clauses are asked about before the action,
/// and their clauses and the flags of the atoms are little beside the actions.
fn are_worth_flags(case: &Case<'_>, family: FormulaFamily, positive: &[Operand]) -> bool {
    if case.store.rows().is_none() {
        return false;
    }
    let most = most_for(case.task);
    let flags = case.task.atoms() as usize / 16;
    let clauses = clauses_before(case, family, positive);
    clauses > 0 && clauses.saturating_add(flags) <= most
}

/// How many clauses the formulas have that are asked about before the action.
fn clauses_before(case: &Case<'_>, family: FormulaFamily, positive: &[Operand]) -> usize {
    let mut count: usize = 0;
    for operand in positive {
        if !operand.after {
            count = count.saturating_add(clauses_of(case, family, operand.which));
        }
    }
    count
}

/// How many clauses the set has, if it is a formula in clauses.
pub(crate) fn clauses_of(case: &Case<'_>, family: FormulaFamily, which: Which) -> usize {
    let Which::Set(number) = which else {
        return 0;
    };
    match family {
        FormulaFamily::Horn => count_in(case.store.horns(), number),
        FormulaFamily::Dual => count_in(case.store.duals(), number),
        FormulaFamily::Two => count_in(case.store.twos(), number),
        FormulaFamily::States | FormulaFamily::Node => 0,
    }
}

fn count_in<K: ClauseKind>(sets: &Formulas<K>, number: usize) -> usize {
    if number >= sets.len() {
        return 0;
    }
    sets.get(number).clauses().len()
}

/// A flag for each atom, which an atom has that is denied before the action.
fn absent_atoms(
    alloc: Global,
    case: &Case<'_>,
    family: FormulaFamily,
    positive: &[Operand],
) -> Result<Vec<bool>, AllocError>
    ensures size { IfOk result (λ flags. length flags.items ≡ atoms case.now.task.now) }
    ensures absent { IfOk result (λ flags. AreAbsent case.now.task.now
        (has_of (setting_in case.now) (lines_in case.now) family) positive.now flags.items) }
{
    let mut flags = vec![in alloc; false; case.task.atoms() as usize]?;
    for operand in positive {
        flag_absent(case, family, *operand, &mut flags);
    }
    Ok(flags)
}

/// Sets the flags of the atoms that the operand denies, if it is asked about before the action.
fn flag_absent(case: &Case<'_>, family: FormulaFamily, operand: Operand, flags: &mut Vec<bool>)
    ensures size { length flags.new.items ≡ length flags.old.items }
    ensures absent { (atom : ℕ) → flag_or_false flags.new.items atom ≡ true
        → (flag_or_false flags.old.items atom ≡ true) ⊎ IsAbsentFrom case.now.task.now
        (has_of (setting_in case.now) (lines_in case.now) family) operand atom }
{
    if operand.after {
        return;
    }
    let Which::Set(number) = operand.which else {
        return;
    };
    match family {
        FormulaFamily::Horn => flag_in(case.store.horns(), number, flags),
        FormulaFamily::Dual => flag_in(case.store.duals(), number, flags),
        FormulaFamily::Two => flag_in(case.store.twos(), number, flags),
        FormulaFamily::States | FormulaFamily::Node => {}
    }
}

/// The same of a formula of these.
fn flag_in<K: ClauseKind>(sets: &Formulas<K>, number: usize, flags: &mut Vec<bool>)
    ensures size { length flags.new.items ≡ length flags.old.items }
    ensures denied { (count atom : ℕ) (lists : List (List (List Literal)))
        → sets.now ≡ map (formula count) lists → flag_or_false flags.new.items atom ≡ true
        → (flag_or_false flags.old.items atom ≡ true)
        ⊎ HasDenial (slice_index_or lists number []) atom }
{
    if number >= sets.len() {
        return;
    }
    flag_denied(sets.get(number).clauses(), flags);
}

/// Sets the flags of the atoms that clauses of one literal deny.
fn flag_denied(clauses: &Clauses, flags: &mut Vec<bool>)
    ensures size { length flags.new.items ≡ length flags.old.items }
    ensures denied { (atom : ℕ) → flag_or_false flags.new.items atom ≡ true
        → (flag_or_false flags.old.items atom ≡ true) ⊎ HasDenial clauses.now atom }
{
    for place in 0..clauses.len() {
        flag_one(clauses.get(place), flags);
    }
}

/// Sets the flag of the atom that the clause denies, if it has no other literal.
fn flag_one(clause: &[Literal], flags: &mut Vec<bool>)
    ensures size { length flags.new.items ≡ length flags.old.items }
    ensures denied { (atom : ℕ) → flag_or_false flags.new.items atom ≡ true
        → (flag_or_false flags.old.items atom ≡ true)
        ⊎ (clause.now ≡ record { atom = atom; positive = false } ∷ []) }
{
    if let Some(atom) = denied_by(clause) {
        set_flag(flags, atom);
    }
}

/// The atom that the clause denies, if it has no other literal.
fn denied_by(clause: &[Literal]) -> Option<u32>
    ensures { IfSome result (λ atom. clause.now ≡ record { atom = atom; positive = false } ∷ []) }
{
    if clause.len() != 1 {
        return None;
    }
    let literal = clause[0];
    if literal.positive {
        return None;
    }
    Some(literal.atom)
}

/// The first action and those that don't stand in the row of an atom with a flag, by the rows of
/// the store.
fn open_actions(
    alloc: Global,
    case: &Case<'_>,
    flags: &[bool],
) -> Result<Option<AtomList>, AllocError>
    requires { length flags.now ≡ atoms case.now.task.now }
    ensures { IfOk result (λ found. IfSome found (AreOpen case.now.task.now flags.now)) }
{
    match case.store.rows() {
        Some(rows) => open_in_rows(alloc, case.task, rows, flags),
        None => Ok(None),
    }
}

/// The same by these rows, if it takes less than to ask about each action.
fn open_in_rows(
    alloc: Global,
    task: &Task,
    rows: &[Vec<u32>],
    flags: &[bool],
) -> Result<Option<AtomList>, AllocError>
    requires rows { AreActionRows task.now rows.now }
    requires flags { length flags.now ≡ atoms task.now }
    ensures { IfOk result (λ found. IfSome found (AreOpen task.now flags.now)) }
{
    let most = most_for(task);
    if open_cost(rows, flags, most) > most {
        return Ok(None);
    }
    let mut found = AtomSet::new(alloc);
    put(0, task.actions(), &mut found)?;
    for place in 0..rows.len() {
        put_open(flags, place, &rows[place], task.actions(), &mut found)?;
    }
    let numbers = found.take(alloc)?;
    Ok(Some(numbers))
}

/// How many actions are in the rows of the atoms that have no flag; or a number that is greater
/// than this one.
fn open_cost(rows: &[Vec<u32>], flags: &[bool], most: usize) -> usize {
    let mut cost: usize = 0;
    for place in 0..rows.len() {
        if cost > most {
            return cost;
        }
        if !flag_at(flags, place) {
            cost = cost.saturating_add(rows[place].len());
        }
    }
    cost
}

/// Puts in the actions of the row, if the atom of this place has no flag.
fn put_open(
    flags: &[bool],
    place: usize,
    row: &[u32],
    actions: u32,
    found: &mut AtomSet,
) -> Result<(), AllocError>
    ensures kept { OnOk result ((k : ℕ) → Contains found.old k → Contains found.new k) }
    ensures has { OnOk result ((k : ℕ) → flag_or_false flags.now place ≡ false
        → Contains row.now k → k < actions → Contains found.new k) }
    ensures below { OnOk result ((k : ℕ) → Contains found.new k
        → Contains found.old k ⊎ (k < actions)) }
{
    if flag_at(flags, place) {
        return Ok(());
    }
    put_row(row, actions, found)?;
    Ok(())
}

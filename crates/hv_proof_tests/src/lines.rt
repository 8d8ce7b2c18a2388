//! Tests of the table of lines, of drafts, and of reasons.

use crate::tables::{add_all_actions, add_claim, add_set, says};
use hv_lines::{ActionList, Clash, Constant, Draft, Expr, Line, Reason, Statement, Table, Word};
use hv_sets::Clauses;
use hv_task::{State, Task};
use std::alloc::{AllocError, Global};
use std::process::Abort;

// More lines than this no table has space for.
const MOST_LINES: usize = 1 << 59;

// Puts two sets with all actions between them last, and a claim.
fn put_four(rt: &impl Abort, table: &mut Table) -> Result<(), AllocError> {
    table.reserve(2)?;
    add_set(rt, table, Expr::Constant(Constant::Goal))?;
    add_all_actions(table)?;
    add_set(rt, table, Expr::After(0, 0))?;
    add_claim(rt, table, Statement::Sub(1, 0), Word::B2, &[])
}

// Whether these lines are found.
fn are_found(table: &Table) -> bool {
    table.len() == 4
        && table.expr_count() == 2
        && matches!(table.line(1), Line::Acts { .. })
        && matches!(table.expr(1), Expr::After(0, 0))
        && says(table, 0, Statement::Sub(1, 0), Word::B2, &[])
}

// The same of a new table.
fn four_are_found(rt: &impl Abort, alloc: Global) -> Result<bool, AllocError> {
    let mut table = Table::new(alloc);
    put_four(rt, &mut table)?;
    Ok(are_found(&table))
}

#[test]
fn finds_lines(rt: HostRuntime) {
    assert!(rt; four_are_found(&rt, rt.alloc()) == Ok(true));
}

// Puts a constant, a formula, and sets of these last.
fn put_six(rt: &impl Abort, alloc: Global, table: &mut Table) -> Result<(), AllocError> {
    add_set(rt, table, Expr::Constant(Constant::Start))?;
    add_set(rt, table, Expr::Horn(Clauses::new(alloc)))?;
    add_set(rt, table, Expr::Not(0))?;
    add_set(rt, table, Expr::Not(2))?;
    add_set(rt, table, Expr::Or(0, 1))?;
    add_set(rt, table, Expr::Not(4))
}

// Whether there is a set for each flag, and it is a literal exactly where the flag says so. The
// program itself doesn't ask this: `is_literal` is there for callers.
fn are_literals(table: &Table, literals: &[bool]) -> bool {
    let mut alike = table.expr_count() == literals.len();
    for (id, is_literal) in literals.iter().enumerate() {
        alike &= id < table.expr_count() && table.is_literal(id) == *is_literal;
    }
    alike
}

// Whether three of these sets are literals, in a new table.
fn six_are_told(rt: &impl Abort, alloc: Global) -> Result<bool, AllocError> {
    let mut table = Table::new(alloc);
    put_six(rt, alloc, &mut table)?;
    Ok(are_literals(&table, &[true, true, true, false, false, false]))
}

#[test]
fn tells_literals(rt: HostRuntime) {
    assert!(rt; six_are_told(&rt, rt.alloc()) == Ok(true));
}

// Whether a list of one number has it alone.
fn is_listed(alloc: Global, number: u32) -> Result<bool, AllocError> {
    let mut actions = ActionList::new(alloc);
    actions.push(number)?;
    Ok(actions.as_slice() == [number].as_slice())
}

#[test]
fn lists_actions(rt: HostRuntime) {
    assert!(rt; is_listed(rt.alloc(), 3) == Ok(true));
}

// Whether these are the first five lines of a draft.
fn is_begun(table: &Table) -> bool {
    table.len() == 5
        && table.acts_count() == 1
        && table.expr_count() == 3
        && table.known_count() == 1
        && says(table, 0, Statement::Dead(0), Word::Ed, &[])
}

// Whether space for seven lines is got, and kept where more is refused.
fn has_room(draft: &mut Draft) -> Result<bool, AllocError> {
    draft.reserve(7)?;
    let roomy = draft.spare() >= 7;
    let refused = draft.reserve(MOST_LINES).is_err();
    Ok(roomy & refused & (draft.spare() >= 7))
}

// Whether a draft of the task begins with five lines, and gets space for more.
fn is_drafted(alloc: Global, task: &Task) -> Result<bool, AllocError> {
    let mut draft = Draft::new(alloc, task)?;
    Ok(is_begun(draft.table()) & has_room(&mut draft)?)
}

#[test]
fn begins_with_five_lines(rt: HostRuntime) {
    let task = Task::new(rt.alloc());
    assert!(rt; is_drafted(rt.alloc(), &task) == Ok(true));
}

// Whether a copy of the reason is the same.
fn is_copied(alloc: Global, reason: &Reason) -> Result<bool, AllocError> {
    Ok(reason.copy(alloc)? == *reason)
}

// A reason with an action and a state.
fn counterexample(alloc: Global) -> Result<Reason, AllocError> {
    Ok(Reason::False(Clash {
        action: Some(3),
        state: Some(State::empty(alloc, 2)?),
    }))
}

// Whether a copy of it is the same.
fn counterexample_is_copied(alloc: Global) -> Result<bool, AllocError> {
    let reason = counterexample(alloc)?;
    is_copied(alloc, &reason)
}

#[test]
fn copies_a_counterexample(rt: HostRuntime) {
    assert!(rt; counterexample_is_copied(rt.alloc()) == Ok(true));
    assert!(rt; is_copied(rt.alloc(), &Reason::Rule) == Ok(true));
}

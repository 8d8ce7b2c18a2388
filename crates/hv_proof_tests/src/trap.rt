//! Tests of the greatest trap, and of the proof by it.

use crate::tables::says;
use crate::tasks::{Change, THREE, WAYS, add, either, task_of, task_with};
use hv_lines::{Draft, Expr, Line, Statement, Table, Word};
use hv_sets::Clauses;
use hv_task::Task;
use hv_trap::{TrapFault, greatest_trap, prove_trap};
use std::alloc::{AllocError, Global};

// The clauses as numbers: 1 denotes atom 0, -1 for its negation, and so on; 0 ends a clause.
fn numbers_in(alloc: Global, clauses: &Clauses) -> Result<Vec<i64>, AllocError> {
    let mut numbers = Vec::new(alloc);
    for place in 0..clauses.len() {
        for literal in clauses.get(place) {
            let number = i64::from(literal.atom) + 1;
            numbers.push(if literal.positive { number } else { -number })?;
        }
        numbers.push(0)?;
    }
    Ok(numbers)
}

// Whether the clauses of the greatest trap are these.
fn is_greatest(alloc: Global, task: &Task, numbers: &[i64]) -> Result<bool, TrapFault> {
    let clauses = greatest_trap(alloc, task)?;
    let found = numbers_in(alloc, &clauses)?;
    Ok(found.as_slice() == numbers)
}

// How many clauses the greatest trap has.
fn clauses_of_greatest(alloc: Global, task: &Task) -> Result<usize, TrapFault> {
    Ok(greatest_trap(alloc, task)?.len())
}

// Whether the lines are those of a proof by a trap.
fn is_proof(table: &Table) -> bool {
    if table.len() != 17 || table.expr_count() != 8 {
        return false;
    }
    let found = [
        matches!(table.line(9), Line::Expr { .. }),
        matches!(table.expr(4), Expr::Not(3)),
        matches!(table.expr(5), Expr::Before(3, 0)),
        matches!(table.expr(6), Expr::Or(3, 0)),
        matches!(table.expr(7), Expr::And(4, 2)),
        says(table, 1, Statement::Sub(5, 6), Word::B3, &[]),
        says(table, 2, Statement::Sub(7, 0), Word::B1, &[]),
        says(table, 3, Statement::Dead(7), Word::Sd, &[2, 0]),
        says(table, 4, Statement::Dead(4), Word::Rg, &[1, 0, 3]),
        says(table, 5, Statement::Sub(1, 4), Word::B1, &[]),
        says(table, 6, Statement::Dead(1), Word::Sd, &[5, 4]),
        says(table, 7, Statement::Unsolvable, Word::Ci, &[6]),
    ];
    found.iter().all(|yes| *yes)
}

// Whether the formula of the proof has these clauses.
fn is_by(alloc: Global, table: &Table, numbers: &[i64]) -> Result<bool, AllocError> {
    if table.expr_count() < 4 {
        return Ok(false);
    }
    match table.expr(3) {
        Expr::Two(clauses) => Ok(numbers_in(alloc, clauses)?.as_slice() == numbers),
        _ => Ok(false),
    }
}

// Whether this is a proof by a formula of these clauses.
fn proves(alloc: Global, draft: &Draft, numbers: &[i64]) -> Result<bool, AllocError> {
    Ok(is_proof(draft.table()) & is_by(alloc, draft.table(), numbers)?)
}

// Whether the task has a proof by a formula of these clauses.
fn is_proved(alloc: Global, task: &Task, numbers: &[i64]) -> Result<bool, TrapFault> {
    match prove_trap(alloc, task)? {
        Some(draft) => Ok(proves(alloc, &draft, numbers)?),
        None => Ok(false),
    }
}

// The expected clauses were found by trying all sets of conjunctions on all states.

// Those of three actions that each take away what the next one adds.
const BY_THREE: &[i64] = &[
    1, 0, 2, 0, 3, 0, 1, 2, 0, 1, -2, 0, -1, 2, 0, 1, 3, 0, 1, -3, 0, -1, 3, 0, 2, 3, 0, 2, -3, 0,
    -2, 3, 0,
];

// Those of two places of which each is left for the other.
const BY_EITHER: &[i64] = &[1, 0, 2, 0, 1, 2, 0, 1, -2, 0, -1, 2, 0];

// A key for who is at two places.
const KEY: &[Change] = &[(&[0], &[1], &[0]), (&[1], &[0], &[1]), (&[0, 1], &[2], &[])];

const BY_KEY: &[i64] = &[1, 3, 0, 2, 3, 0];

// An atom that is added and deleted is held.
const HELD: &[Change] = &[(&[0], &[0, 1], &[0]), (&[1], &[2], &[0])];

const BY_HELD: &[i64] = &[
    1, 0, 3, 0, 1, 2, 0, 1, -2, 0, 1, 3, 0, 1, -3, 0, -1, 3, 0, 2, 3, 0, -2, 3, 0,
];

// Whether the three actions have the proof of their trap.
fn three_are_proved(alloc: Global) -> Result<bool, TrapFault> {
    let task = task_with(alloc, 3, &[], &[0, 1, 2], THREE)?;
    is_proved(alloc, &task, BY_THREE)
}

#[test]
fn three_that_each_take_the_next_away(rt: HostRuntime) {
    assert!(rt; three_are_proved(rt.alloc()) == Ok(true));
}

// Whether the two places have their trap.
fn either_is_greatest(alloc: Global) -> Result<bool, TrapFault> {
    let task = either(alloc)?;
    is_greatest(alloc, &task, BY_EITHER)
}

#[test]
fn two_places_of_which_each_is_left_for_the_other(rt: HostRuntime) {
    assert!(rt; either_is_greatest(rt.alloc()) == Ok(true));
}

// Whether the key has its trap.
fn key_is_greatest(alloc: Global) -> Result<bool, TrapFault> {
    let task = task_with(alloc, 3, &[], &[2], KEY)?;
    is_greatest(alloc, &task, BY_KEY)
}

#[test]
fn a_key_for_who_is_at_two_places(rt: HostRuntime) {
    assert!(rt; key_is_greatest(rt.alloc()) == Ok(true));
}

// Whether such an atom has its trap.
fn held_is_greatest(alloc: Global) -> Result<bool, TrapFault> {
    let task = task_with(alloc, 3, &[], &[0, 2], HELD)?;
    is_greatest(alloc, &task, BY_HELD)
}

#[test]
fn an_atom_added_and_deleted_is_held(rt: HostRuntime) {
    assert!(rt; held_is_greatest(rt.alloc()) == Ok(true));
}

// Twenty atoms that are the goal, of which each can be added.
fn twenty(alloc: Global) -> Result<Task, AllocError> {
    let goal = [
        0, 1, 2, 3, 4, 5, 6, 7, 8, 9, 10, 11, 12, 13, 14, 15, 16, 17, 18, 19,
    ];
    let mut task = task_of(alloc, 20, &[], &goal)?;
    for atom in goal {
        add(alloc, &mut task, &[], &[atom], &[])?;
    }
    Ok(task)
}

// A chain of 64 atoms in which each is got from the one before, and the last is the goal.
fn chain(alloc: Global) -> Result<Task, AllocError> {
    let mut task = task_of(alloc, 64, &[], &[63])?;
    for atom in 0..63u32 {
        add(alloc, &mut task, &[atom], &[atom + 1], &[])?;
    }
    Ok(task)
}

// Whether the trap has no clause, and gives no proof of the task.
fn has_no_trap(alloc: Global, task: &Task) -> Result<bool, TrapFault> {
    let none = prove_trap(alloc, task)?.is_none();
    Ok(none & (clauses_of_greatest(alloc, task)? == 0))
}

// The same of the twenty atoms.
fn twenty_have_no_trap(alloc: Global) -> Result<bool, TrapFault> {
    let task = twenty(alloc)?;
    has_no_trap(alloc, &task)
}

#[test]
fn none_where_each_atom_can_be_added(rt: HostRuntime) {
    assert!(rt; twenty_have_no_trap(rt.alloc()) == Ok(true));
}

// How many clauses the trap of the chain has.
fn clauses_of_chain(alloc: Global) -> Result<usize, TrapFault> {
    let task = chain(alloc)?;
    clauses_of_greatest(alloc, &task)
}

#[test]
fn none_in_a_chain_in_which_each_atom_is_got_from_the_one_before(rt: HostRuntime) {
    assert!(rt; clauses_of_chain(rt.alloc()) == Ok(0));
}

// How many clauses the trap of 64 atoms without actions has.
fn clauses_of_atoms(alloc: Global) -> Result<usize, TrapFault> {
    let task = task_of(alloc, 64, &[], &[0])?;
    clauses_of_greatest(alloc, &task)
}

#[test]
fn all_conjunctions_where_there_is_no_action(rt: HostRuntime) {
    assert!(rt; clauses_of_atoms(rt.alloc()) == Ok(127));
}

// Whether a proof by a trap is refused where there are 65 atoms.
fn many_are_refused(alloc: Global) -> Result<bool, AllocError> {
    let task = task_of(alloc, 65, &[], &[0])?;
    Ok(matches!(prove_trap(alloc, &task), Err(TrapFault::TooManyAtoms)))
}

#[test]
fn more_than_64_atoms_are_too_many(rt: HostRuntime) {
    assert!(rt; many_are_refused(rt.alloc()) == Ok(true));
}

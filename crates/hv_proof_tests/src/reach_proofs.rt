//! Tests of the proofs by what is reached.

use crate::tables::says;
use crate::tasks::{WAYS, either, robot, task_of, task_with};
use hv_lines::{Constant, Draft, Expr, Line, Statement, Table, Word};
use hv_reach::{ReachFault, prove_pairs, prove_relaxed};
use hv_sets::{Clauses, Literal};
use hv_task::Task;
use std::alloc::{AllocError, Global};

fn begins(table: &Table) -> bool {
    if table.len() != 16 || table.acts_count() != 1 || table.expr_count() != 7 {
        return false;
    }
    let found = [
        matches!(table.line(0), Line::Acts { .. }),
        matches!(table.line(4), Line::Known { .. }),
        matches!(table.line(8), Line::Expr { .. }),
        matches!(table.expr(0), Expr::Constant(Constant::Empty)),
        matches!(table.expr(1), Expr::Constant(Constant::Start)),
        matches!(table.expr(2), Expr::Constant(Constant::Goal)),
        matches!(table.expr(4), Expr::After(3, 0)),
        matches!(table.expr(5), Expr::Or(3, 0)),
        matches!(table.expr(6), Expr::And(3, 2)),
    ];
    found.iter().all(|yes| *yes)
}

// Whether the lines are those of a proof by a Horn formula.
fn is_proof(table: &Table) -> bool {
    let found = [
        begins(table),
        says(table, 0, Statement::Dead(0), Word::Ed, &[]),
        says(table, 1, Statement::Sub(4, 5), Word::B2, &[]),
        says(table, 2, Statement::Sub(6, 0), Word::B1, &[]),
        says(table, 3, Statement::Dead(6), Word::Sd, &[2, 0]),
        says(table, 4, Statement::Dead(3), Word::Pg, &[1, 0, 3]),
        says(table, 5, Statement::Sub(1, 3), Word::B1, &[]),
        says(table, 6, Statement::Dead(1), Word::Sd, &[5, 4]),
        says(table, 7, Statement::Unsolvable, Word::Ci, &[6]),
    ];
    found.iter().all(|yes| *yes)
}

fn not(atom: u32) -> Literal {
    Literal {
        atom,
        positive: false,
    }
}

// Whether the formula of the proof has this clause alone.
fn denies(table: &Table, clause: &[Literal]) -> bool {
    if table.expr_count() < 4 {
        return false;
    }
    match table.expr(3) {
        Expr::Horn(clauses) => is_only(clauses, clause),
        _ => false,
    }
}

fn is_only(clauses: &Clauses, clause: &[Literal]) -> bool {
    clauses.len() == 1 && clauses.get(0) == clause
}

// Whether the proof is one by a Horn formula of this clause alone.
fn proves(found: Option<Draft>, clause: &[Literal]) -> bool {
    match found {
        Some(draft) => is_proof(draft.table()) && denies(draft.table(), clause),
        None => false,
    }
}

// Whether neither what is reached nor the pairs exclude the goal.
fn none_is_proved(alloc: Global, task: &Task) -> Result<bool, ReachFault> {
    Ok(prove_relaxed(alloc, task)?.is_none() && prove_pairs(alloc, task)?.is_none())
}

// Whether the key that isn't reached has its proof.
fn key_is_proved(alloc: Global) -> Result<bool, ReachFault> {
    let task = robot(alloc)?;
    Ok(proves(prove_relaxed(alloc, &task)?, &[not(2)]))
}

// Whether a goal that holds at the start has none.
fn start_is_not_proved(alloc: Global) -> Result<bool, ReachFault> {
    let task = task_with(alloc, 3, &[0], &[0], WAYS)?;
    none_is_proved(alloc, &task)
}

// Whether two atoms that are never together have a proof by pairs alone.
fn either_is_proved(alloc: Global) -> Result<bool, ReachFault> {
    let task = either(alloc)?;
    let none = prove_relaxed(alloc, &task)?.is_none();
    Ok(none && proves(prove_pairs(alloc, &task)?, &[not(0), not(1)]))
}

// Whether pairs of 1,025 atoms are refused.
fn many_are_refused(alloc: Global) -> Result<bool, AllocError> {
    let task = task_of(alloc, 1025, &[0], &[])?;
    Ok(matches!(prove_pairs(alloc, &task), Err(ReachFault::TooManyAtoms)))
}

#[test]
fn proofs_by_atoms_and_by_pairs(rt: HostRuntime) {
    assert!(rt; key_is_proved(rt.alloc()) == Ok(true));
    assert!(rt; start_is_not_proved(rt.alloc()) == Ok(true));
    assert!(rt; either_is_proved(rt.alloc()) == Ok(true));
    assert!(rt; many_are_refused(rt.alloc()) == Ok(true));
}

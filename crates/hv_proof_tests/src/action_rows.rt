//! Tests of the rows in which actions stand.

use crate::tasks::{Change, task_with};
use hv_rows::{action_rows, empty_rows, enter};
use std::alloc::{AllocError, Global};

// Two actions that need two atoms, one that needs one of these, and one that needs none.
const NEEDS: &[Change] = &[
    (&[0, 1], &[2], &[]),
    (&[0, 1], &[2], &[]),
    (&[0], &[2], &[]),
    (&[], &[0], &[]),
];

// Whether the row has these numbers.
fn is_row(row: &[u32], numbers: &[u32]) -> bool {
    if row.len() != numbers.len() {
        return false;
    }
    for place in 0..row.len() {
        if row[place] != numbers[place] {
            return false;
        }
    }
    true
}

// Whether the rows have these numbers.
fn are_rows(rows: &[Vec<u32>], wanted: &[&[u32]]) -> bool {
    if rows.len() != wanted.len() {
        return false;
    }
    for place in 0..rows.len() {
        if !is_row(rows[place].as_slice(), wanted[place]) {
            return false;
        }
    }
    true
}

// Two rows, of which the second one has two numbers.
fn two_rows(alloc: Global) -> Result<Vec<Vec<u32>>, AllocError> {
    let mut rows = empty_rows(alloc, 2)?;
    enter(&mut rows, 1, 7)?;
    enter(&mut rows, 1, 5)?;
    Ok(rows)
}

// Whether each number stands behind those that were entered before it, in its row alone.
fn stand_as_entered(alloc: Global) -> Result<bool, AllocError> {
    let rows = two_rows(alloc)?;
    Ok(are_rows(rows.as_slice(), &[&[], &[7, 5]]))
}

// Whether each action stands in the shortest row of an atom that it needs, or in the last one.
fn wait_where_few_do(alloc: Global) -> Result<bool, AllocError> {
    let task = task_with(alloc, 3, &[], &[], NEEDS)?;
    let rows = action_rows(alloc, &task)?;
    Ok(are_rows(rows.as_slice(), &[&[0, 2], &[1], &[], &[3]]))
}

#[test]
fn numbers_stand_in_rows(rt: HostRuntime) {
    assert!(rt; stand_as_entered(rt.alloc()) == Ok(true));
    assert!(rt; wait_where_few_do(rt.alloc()) == Ok(true));
}

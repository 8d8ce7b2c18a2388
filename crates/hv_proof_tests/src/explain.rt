//! Every expected text is derived from the formats by hand.

use crate::tables::{add_claim, add_set};
use hv_explain::{explain, one_explanation};
use hv_lines::{Constant, Expr, Statement, Table, Word};
use std::alloc::{AllocError, Global};
use std::process::Abort;

fn is_told(alloc: Global, table: &Table, text: &[u8]) -> Result<bool, AllocError> {
    Ok(explain(alloc, table)?.as_bytes() == text)
}

/// Without a conclusion no line is needed.
const SPARE: &[u8] = b"k 0 d 0 ed spare\nk 1 s 0 0 b1 spare\n";

/// The first conclusion needs its premise.
const NEEDED: &[u8] =
    b"k 0 d 0 ed needed\nk 1 s 0 0 b1 spare\nk 2 u ci 0 needed\nk 3 u cg 1 spare\n";

/// Puts a set last, and two claims of it.
fn add_two(rt: &impl Abort, table: &mut Table) -> Result<(), AllocError> {
    add_set(rt, table, Expr::Constant(Constant::Empty))?;
    add_claim(rt, table, Statement::Dead(0), Word::Ed, &[])?;
    add_claim(rt, table, Statement::Sub(0, 0), Word::B1, &[])
}

/// Puts two conclusions last, from the first claim and from the second.
fn add_conclusions(rt: &impl Abort, table: &mut Table) -> Result<(), AllocError> {
    add_claim(rt, table, Statement::Unsolvable, Word::Ci, &[0])?;
    add_claim(rt, table, Statement::Unsolvable, Word::Cg, &[1])
}

/// Whether no line is needed before the conclusions come, and one afterwards.
fn tells_needed(rt: &impl Abort, alloc: Global, table: &mut Table) -> Result<bool, AllocError> {
    add_two(rt, table)?;
    let spare = is_told(alloc, table, SPARE)?;
    add_conclusions(rt, table)?;
    Ok(spare & is_told(alloc, table, NEEDED)?)
}

/// The same of a new table.
fn tells_needed_anew(rt: &impl Abort, alloc: Global) -> Result<bool, AllocError> {
    let mut table = Table::new(alloc);
    tells_needed(rt, alloc, &mut table)
}

#[test]
fn tells_which_lines_are_needed(rt: HostRuntime) {
    one_explanation();
    assert!(rt; tells_needed_anew(&rt, rt.alloc()) == Ok(true));
}

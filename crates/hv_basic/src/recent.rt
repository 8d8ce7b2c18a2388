//! Which of the right sides that are kept serves for a union.

ghost use Rattle.std.specs.Prelude.{◌<◌, List, IfSome, OnOk, length};
ghost use Rattle.std.specs.List.{All};
ghost use Rattle.hv_lines.specs.Numbering.{expr_count};
ghost use Rattle.hv_lines.specs.declared.line.Line.{Line};
ghost use Rattle.hv_basic.specs.Sharing.{IsRightSide};

use crate::rights::{is_kept, part_beside};
use crate::shared::{Kept, no_side};
use hv_lines::Table;
use std::alloc::{AllocError, Global};

/// So many right sides are kept at most.
const MOST_SIDES: usize = 4;

/// Puts last what is kept of the union, or else of a part of it, or else a side of which nothing is
/// kept; for that the one that wasn't asked about for longest is given up, where there are many.
pub(crate) fn bring(
    alloc: Global,
    sides: &mut Vec<Kept>,
    table: &Table,
    root: usize,
    after: bool,
) -> Result<(), AllocError>
    requires { root < expr_count table.now.lines }
    ensures some { OnOk result (0 < length sides.new.items) }
    ensures kept { (lines : List Line) → All (IsRightSide lines) sides.old.items
        → All (IsRightSide lines) sides.new.items }
{
    match serving_side(sides, table, root, after) {
        Some(place) => put_last(sides, place),
        None => begin(alloc, sides),
    }
}

/// The place of what is kept of the union, or else of a part of it.
fn serving_side(sides: &[Kept], table: &Table, root: usize, after: bool) -> Option<usize>
    requires { root < expr_count table.now.lines }
    ensures { IfSome result (λ place. place < length sides.now) }
{
    for place in 0..sides.len() {
        if is_kept(&sides[place], root, after) {
            return Some(place);
        }
    }
    for place in 0..sides.len() {
        if is_beside(&sides[place], table, root, after) {
            return Some(place);
        }
    }
    None
}

/// Whether the side is kept of a part of the union.
fn is_beside(kept: &Kept, table: &Table, root: usize, after: bool) -> bool
    requires { root < expr_count table.now.lines }
{
    kept.after == after && part_beside(table, kept.root, root).is_some()
}

/// Puts the side behind the others.
fn put_last(sides: &mut Vec<Kept>, place: usize) -> Result<(), AllocError>
    requires { place < length sides.old.items }
    ensures some { OnOk result (0 < length sides.new.items) }
    ensures kept { (lines : List Line) → All (IsRightSide lines) sides.old.items
        → All (IsRightSide lines) sides.new.items }
{
    if place + 1 == sides.len() {
        return Ok(());
    }
    let side = sides.remove(place);
    sides.push(side)?;
    Ok(())
}

/// Puts a side last of which nothing is kept.
fn begin(alloc: Global, sides: &mut Vec<Kept>) -> Result<(), AllocError>
    ensures some { OnOk result (0 < length sides.new.items) }
    ensures kept { (lines : List Line) → All (IsRightSide lines) sides.old.items
        → All (IsRightSide lines) sides.new.items }
{
    give_up(sides);
    sides.push(no_side(alloc))?;
    Ok(())
}

/// Gives a side up, where one doesn't serve or there are many.
fn give_up(sides: &mut Vec<Kept>)
    ensures { (lines : List Line) → All (IsRightSide lines) sides.old.items
        → All (IsRightSide lines) sides.new.items }
{
    let Some(place) = to_give_up(sides) else {
        return;
    };
    sides.remove(place);
}

/// The place of a side of which nothing is kept; or the first one, where there are many.
fn to_give_up(sides: &[Kept]) -> Option<usize>
    ensures { IfSome result (λ place. place < length sides.now) }
{
    for place in 0..sides.len() {
        if sides[place].root.is_none() {
            return Some(place);
        }
    }
    if sides.len() < MOST_SIDES {
        return None;
    }
    Some(0)
}

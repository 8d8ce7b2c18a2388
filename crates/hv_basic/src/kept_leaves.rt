//! The leaves of left sides, kept from statement to statement: where an intersection has a part
//! whose leaves are kept, only its other part is looked at.

ghost use Rattle.std.specs.Prelude.{◌≡◌, ◌<◌, ◌≤◌, ◌∷◌, [], List, true, IfOk, IfSome, OnOk, length};
ghost use Rattle.std.specs.List.{All, Contains};
ghost use Rattle.hv_lines.specs.Numbering.{expr_count};
ghost use Rattle.hv_lines.specs.declared.line.Line.{Line};
ghost use Rattle.hv_basic.specs.Leaves.{IsLeafRead, places};
ghost use Rattle.hv_basic.specs.Sharing.{AreItsLeaves};
ghost use Rattle.hv_basic.specs.Working.Sharing.{AreLeavesWith, AreTakenLeaves, IsAndBeside};

use crate::leaves::{Half, leaves, parts};
use crate::shared::KeptLeaves;
use crate::signed_sets::Leaf;
use hv_lines::{Expr, Table};
use std::alloc::{AllocError, Global};

/// Of so many intersections leaves are kept at most.
const MOST_LEFTS: usize = 4;

/// A part with more leaves isn't put in leaf by leaf.
const MOST_MORE: usize = 16;

/// The leaves of a left side, the newest first. What is kept of it, or of a part of it, is taken
/// out and serves for it.
pub(crate) fn take_leaves(
    alloc: Global,
    table: &Table,
    kept: &mut Vec<KeptLeaves>,
    root: usize,
) -> Result<KeptLeaves, AllocError>
    requires root { root < expr_count table.now.lines }
    requires kept { All (AreItsLeaves table.now.lines) kept.old.items }
    ensures kept { All (AreItsLeaves table.now.lines) kept.new.items }
    ensures leaves { IfOk result (AreTakenLeaves table.now.lines root) }
{
    match take_kept_leaves(alloc, table, kept, root)? {
        Some(own) => Ok(own),
        None => taken_apart(alloc, table, root),
    }
}

/// The same, if something is kept that serves.
fn take_kept_leaves(
    alloc: Global,
    table: &Table,
    kept: &mut Vec<KeptLeaves>,
    root: usize,
) -> Result<Option<KeptLeaves>, AllocError>
    requires root { root < expr_count table.now.lines }
    requires kept { All (AreItsLeaves table.now.lines) kept.old.items }
    ensures kept { All (AreItsLeaves table.now.lines) kept.new.items }
    ensures leaves { IfOk result (λ found. IfSome found (AreTakenLeaves table.now.lines root)) }
{
    let Some(place) = serving_leaves(kept, table, root) else {
        return Ok(None);
    };
    let mut own = kept.remove(place);
    if !turn_leaves(alloc, table, &mut own, root)? {
        return Ok(None);
    }
    Ok(Some(own))
}

/// The leaves of the set, of which nothing is kept.
fn taken_apart(alloc: Global, table: &Table, root: usize) -> Result<KeptLeaves, AllocError>
    requires { root < expr_count table.now.lines }
    ensures { IfOk result (AreTakenLeaves table.now.lines root) }
{
    // For its contract alone: the lines are those of a table.
    let _count = table.expr_count();
    let leaves = leaves(alloc, table, Half::Left, root)?;
    Ok(KeptLeaves { root, leaves })
}

/// The place of what is kept of the intersection, or else of a part of it.
fn serving_leaves(kept: &[KeptLeaves], table: &Table, root: usize) -> Option<usize>
    requires { root < expr_count table.now.lines }
    ensures { IfSome result (λ place. place < length kept.now) }
{
    let (left, right) = parts(Half::Left, table.expr(root))?;
    for place in 0..kept.len() {
        if kept[place].root == root {
            return Some(place);
        }
    }
    for place in 0..kept.len() {
        if kept[place].root == left || kept[place].root == right {
            return Some(place);
        }
    }
    None
}

/// Makes the leaves those of the intersection, if they are, or if it is that of their set and one
/// with few leaves: whether they are then.
fn turn_leaves(
    alloc: Global,
    table: &Table,
    own: &mut KeptLeaves,
    root: usize,
) -> Result<bool, AllocError>
    requires root { root < expr_count table.now.lines }
    requires own { AreItsLeaves table.now.lines own.old }
    ensures { IfOk result (λ yes. yes ≡ true → AreTakenLeaves table.now.lines root own.new) }
{
    if own.root == root {
        return Ok(true);
    }
    match other_part(table, own.root, root) {
        None => Ok(false),
        Some(part) => join(alloc, table, own, root, part),
    }
}

/// Adds the leaves of the other part, if they are few.
fn join(
    alloc: Global,
    table: &Table,
    own: &mut KeptLeaves,
    root: usize,
    part: usize,
) -> Result<bool, AllocError>
    requires root { root < expr_count table.now.lines }
    requires part { IsAndBeside table.now.lines own.old.root root part }
    requires own { AreItsLeaves table.now.lines own.old }
    ensures { IfOk result (λ yes. yes ≡ true → AreTakenLeaves table.now.lines root own.new) }
{
    if part == own.root {
        own.root = root;
        return Ok(true);
    }
    let more = leaves(alloc, table, Half::Left, part)?;
    if more.len() > MOST_MORE {
        return Ok(false);
    }
    put_all(&mut own.leaves, &more)?;
    own.root = root;
    Ok(true)
}

/// The other part of the intersection, where one part is the first set.
fn other_part(table: &Table, first: usize, root: usize) -> Option<usize>
    requires { root < expr_count table.now.lines }
    ensures { IfSome result (IsAndBeside table.now.lines first root) }
{
    match table.expr(root) {
        Expr::And(left, right) => {
            if *left == first {
                Some(*right)
            } else if *right == first {
                Some(*left)
            } else {
                None
            }
        }
        _ => None,
    }
}

/// Puts in these leaves.
fn put_all(into: &mut Vec<Leaf>, more: &[Leaf]) -> Result<(), AllocError>
    ensures places { OnOk result (AreLeavesWith (places into.old.items) (places more.now)
        (places into.new.items)) }
    ensures read { OnOk result ((lines : List Line) → All (IsLeafRead lines) into.old.items
        → All (IsLeafRead lines) more.now → All (IsLeafRead lines) into.new.items) }
{
    for leaf in more {
        put_leaf(into, *leaf)?;
    }
    Ok(())
}

/// Puts in the leaf behind those of later sets, if it isn't there.
fn put_leaf(into: &mut Vec<Leaf>, leaf: Leaf) -> Result<(), AllocError>
    ensures places { OnOk result (AreLeavesWith (places into.old.items) (leaf.place ∷ [])
        (places into.new.items)) }
    ensures read { OnOk result ((lines : List Line) → All (IsLeafRead lines) into.old.items
        → IsLeafRead lines leaf → All (IsLeafRead lines) into.new.items) }
{
    let place = later_than(into, leaf.place);
    if has_at(into, place, leaf.place) {
        return Ok(());
    }
    into.insert(place, leaf)?;
    Ok(())
}

/// How many leaves at the front are later sets.
fn later_than(leaves: &[Leaf], set: usize) -> usize
    ensures { result ≤ length leaves.now }
{
    leaves.partition_point(|leaf| leaf.place > set)
}

/// Whether the leaf at this place is the set.
fn has_at(leaves: &[Leaf], place: usize, set: usize) -> bool
    ensures { result ≡ true → Contains (places leaves.now) set }
{
    if place >= leaves.len() {
        return false;
    }
    if leaves[place].place == set {
        return true;
    }
    false
}

/// Keeps the leaves of an intersection. Where there are many those that weren't asked for for
/// longest are given up.
pub(crate) fn put_leaves(kept: &mut Vec<KeptLeaves>, own: KeptLeaves) -> Result<(), AllocError>
    ensures { (lines : List Line) → All (AreItsLeaves lines) kept.old.items
        → AreItsLeaves lines own → All (AreItsLeaves lines) kept.new.items }
{
    if is_lone(&own) {
        return Ok(());
    }
    give_up_leaves(kept);
    kept.push(own)?;
    Ok(())
}

/// Gives up the first, where there are many.
fn give_up_leaves(kept: &mut Vec<KeptLeaves>)
    ensures { (lines : List Line) → All (AreItsLeaves lines) kept.old.items
        → All (AreItsLeaves lines) kept.new.items }
{
    if kept.len() < MOST_LEFTS {
        return;
    }
    kept.remove(0);
}

/// Whether the set is its own leaf.
fn is_lone(own: &KeptLeaves) -> bool {
    own.leaves.len() == 1 && own.leaves[0].place == own.root
}

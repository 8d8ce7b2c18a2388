//! The leaves of a set, by a list of work in which each set occurs once, from the newest to the
//! oldest: so a deep or shared expression costs its lines and not its paths.
//!
//! Each leaf is given with its literal and family, so the lines of leaves are looked up once for
//! that, and gathering or keeping what they ask needs no table.

ghost use Rattle.std.specs.Prelude.{◌≡◌, ◌<◌, ◌↔◌, ◌∷◌, [], ℕ, false, IfNone, IfOk, IfSome, OnOk};
ghost use Rattle.std.specs.BTreeSet.{contains};
ghost use Rattle.std.specs.List.{All, Contains};
ghost use Rattle.std.specs.Ordering.{nat_cmp};
ghost use Rattle.hv_lines.specs.Numbering.{expr_count};
ghost use Rattle.hv_lines.specs.Shapes.{IsLeaf};
ghost use Rattle.hv_basic.specs.Leaves.{IsLeafRead, places};
ghost use Rattle.hv_basic.specs.Working.Work.{AreAdded, IsLookedAt, IsTaken, parts_on};

use crate::signed_sets::{Leaf, leaf_of};
use hv_lines::{Expr, Table};
use std::alloc::{AllocError, Global};
use std::collections::BTreeSet;

/// The sides of an inclusion: the left one is taken apart by intersections, the right one by
/// unions.
#[derive(Clone, Copy)]
pub(crate) enum Half {
    Left,
    Right,
}

/// The leaves of the set. The line of each set on the way is looked up once, however often the set
/// is shared: the newest first.
pub(crate) fn leaves(
    alloc: Global,
    table: &Table,
    side: Half,
    root: usize,
) -> Result<Vec<Leaf>, AllocError>
    requires { root < expr_count table.now.lines }
    ensures leaves { IfOk result (λ found. (leaf : ℕ) → Contains (places found.items) leaf
        ↔ IsLeaf (parts_on side) table.now.lines root leaf) }
    ensures read { IfOk result (λ found. All (IsLeafRead table.now.lines) found.items) }
{
    let expr = table.expr(root);
    match parts(side, expr) {
        None => {
            let found = lone(alloc, leaf_of(table, root, expr))?;
            Ok(found)
        }
        Some(_) => leaves_within(alloc, table, side, root),
    }
}

/// The leaf alone.
fn lone(alloc: Global, leaf: Leaf) -> Result<Vec<Leaf>, AllocError>
    ensures { IfOk result (λ found. found.items ≡ leaf ∷ []) }
{
    let mut found = Vec::new(alloc);
    found.push(leaf)?;
    Ok(found)
}

/// The leaves of a set that is taken apart.
fn leaves_within(
    alloc: Global,
    table: &Table,
    side: Half,
    root: usize,
) -> Result<Vec<Leaf>, AllocError>
    requires { root < expr_count table.now.lines }
    ensures leaves { IfOk result (λ found. (leaf : ℕ) → Contains (places found.items) leaf
        ↔ IsLeaf (parts_on side) table.now.lines root leaf) }
    ensures read { IfOk result (λ found. All (IsLeafRead table.now.lines) found.items) }
{
    let mut found = Vec::new(alloc);
    let mut work = BTreeSet::new(alloc);
    work.insert(root)?;
    let mut bound = table.expr_count();
    'sets: while let Some(set) = take_last(&mut work) {
        look_at(table, side, set, &mut work, &mut found)?;
        bound = set;
    }
    Ok(found)
}

/// Keeps the set as a leaf, with what its line says of it, or adds its two parts to the work.
fn look_at(
    table: &Table,
    side: Half,
    set: usize,
    work: &mut BTreeSet<usize>,
    found: &mut Vec<Leaf>,
) -> Result<(), AllocError>
    requires set { set < expr_count table.now.lines }
    requires read { All (IsLeafRead table.now.lines) found.old.items }
    ensures looked { OnOk result (IsLookedAt table.now.lines side set work.old work.new
        (places found.old.items) (places found.new.items)) }
    ensures read { OnOk result (All (IsLeafRead table.now.lines) found.new.items) }
{
    let expr = table.expr(set);
    match parts(side, expr) {
        None => {
            found.push(leaf_of(table, set, expr))?;
            Ok(())
        }
        Some((left, right)) => {
            add_both(work, left, right)?;
            Ok(())
        }
    }
}

/// The two parts of the set, if it is one that this side takes apart.
pub(crate) fn parts(side: Half, expr: &Expr) -> Option<(usize, usize)>
    ensures { result ≡ parts_on side expr.now }
{
    match side {
        Half::Left => match expr {
            Expr::And(left, right) => Some((*left, *right)),
            _ => None,
        },
        Half::Right => match expr {
            Expr::Or(left, right) => Some((*left, *right)),
            _ => None,
        },
    }
}

/// Takes out the greatest identifier.
fn take_last(work: &mut BTreeSet<usize>) -> Option<usize>
    ensures none { IfNone result ((id : ℕ) → contains nat_cmp work.old id ≡ false) }
    ensures some { IfSome result (IsTaken work.old work.new) }
{
    work.pop_last()
}

fn add_both(work: &mut BTreeSet<usize>, left: usize, right: usize) -> Result<(), AllocError>
    ensures { OnOk result (AreAdded work.old work.new left right) }
{
    work.insert(left)?;
    work.insert(right)?;
    Ok(())
}

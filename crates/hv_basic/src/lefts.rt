//! What the left side of a statement asks.

ghost use Rattle.std.specs.Prelude.{◌≡◌, ◌<◌, ℕ, Option, IfErr, IfOk};
ghost use Rattle.std.specs.List.{All};
ghost use Rattle.hv_lines.specs.Numbering.{expr_count};
ghost use Rattle.hv_lines.specs.Shapes.{asked_step, asks_sides_after, asks_step_after};
ghost use Rattle.hv_basic.specs.Faults.{IsShapeFault};
ghost use Rattle.hv_basic.specs.Sharing.{AreItsLeaves};
ghost use Rattle.hv_basic.specs.Working.Gathered.{IsLeftRead, IsLeftSide, IsLiteralStep};
ghost use Rattle.hv_basic.specs.Working.Gathered.{IsStepAdded};

use crate::kept_leaves::{put_leaves, take_leaves};
use crate::shapes::ShapeFault;
use crate::shared::KeptLeaves;
use crate::sides::Sides;
use crate::signed_sets::{Asking, Others, gather};
use hv_lines::{Expr, Table, Word};
use std::alloc::Global;

/// What the left side asks about, where it has the shape of the word.
pub(crate) fn left_of(
    alloc: Global,
    table: &Table,
    kept: &mut Vec<KeptLeaves>,
    word: Word,
    left: usize,
) -> Result<Sides, ShapeFault>
    requires left { left < expr_count table.now.lines }
    requires kept { All (AreItsLeaves table.now.lines) kept.old.items }
    ensures ok { IfOk result (IsLeftRead table.now.lines word left) }
    ensures err { IfErr result (IsShapeFault ((acts : Option ℕ)
        → IsLeftSide table.now.lines word left acts → ⊥)) }
    ensures kept { All (AreItsLeaves table.now.lines) kept.new.items }
{
    let lefts = take_leaves(alloc, table, kept, left)?;
    let mut askings = Vec::new(alloc);
    let others = gather(&lefts.leaves, true, asks_sides_after(word), &mut askings)?;
    put_leaves(kept, lefts)?;
    match others {
        Others::None => match word {
            Word::B1 => Ok(Sides {
                askings,
                acts: None,
            }),
            _ => Err(ShapeFault::Shape),
        },
        Others::One(leaf) => match add_step(alloc, table, kept, word, leaf, &mut askings) {
            Ok(acts) => Ok(Sides {
                askings,
                acts: Some(acts),
            }),
            Err(fault) => Err(fault),
        },
        Others::More => Err(ShapeFault::Shape),
    }
}

/// Adds what the literals of the step ask about, where this leaf is the step that the word asks
/// for and its leaves are literals; its action set.
fn add_step(
    alloc: Global,
    table: &Table,
    kept: &mut Vec<KeptLeaves>,
    word: Word,
    leaf: usize,
    into: &mut Vec<Asking>,
) -> Result<usize, ShapeFault>
    requires leaf { leaf < expr_count table.now.lines }
    requires kept { All (AreItsLeaves table.now.lines) kept.old.items }
    ensures ok { IfOk result (λ acts.
        IsStepAdded table.now.lines word leaf acts into.old.items into.new.items) }
    ensures err { IfErr result (IsShapeFault ((set acts : ℕ)
        → IsLiteralStep table.now.lines word leaf set acts → ⊥)) }
    ensures kept { All (AreItsLeaves table.now.lines) kept.new.items }
{
    let Some((set, acts)) = step_of(word, table.expr(leaf)) else {
        return Err(ShapeFault::Shape);
    };
    let inner = take_leaves(alloc, table, kept, set)?;
    let others = gather(&inner.leaves, true, asks_step_after(word), into)?;
    put_leaves(kept, inner)?;
    match others {
        Others::None => Ok(acts),
        Others::One(_) => Err(ShapeFault::Shape),
        Others::More => Err(ShapeFault::Shape),
    }
}

/// The set and the action set of the step, if it is the one that the word asks for.
fn step_of(word: Word, expr: &Expr) -> Option<(usize, usize)>
    ensures { result ≡ asked_step word expr.now }
{
    match word {
        Word::B2 => match expr {
            Expr::After(set, acts) => Some((*set, *acts)),
            _ => None,
        },
        Word::B3 => match expr {
            Expr::Before(set, acts) => Some((*set, *acts)),
            _ => None,
        },
        _ => None,
    }
}

/// Whether the literals beside the step and those on the right are asked about after the action.
pub(crate) fn asks_sides_after(word: Word) -> bool
    ensures { result ≡ asks_sides_after word }
{
    match word {
        Word::B2 => true,
        _ => false,
    }
}

/// Whether the literals of the step are asked about after the action.
fn asks_step_after(word: Word) -> bool
    ensures { result ≡ asks_step_after word }
{
    match word {
        Word::B3 => true,
        _ => false,
    }
}

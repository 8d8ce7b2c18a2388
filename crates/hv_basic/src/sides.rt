//! The two sides of a statement: whether they have the shape of its word, and what they ask about.

ghost use Rattle.std.specs.Prelude.{◌<◌, ℕ, Option, IfOk, IfErr};
ghost use Rattle.hv_lines.specs.Numbering.{expr_count};
ghost use Rattle.hv_lines.specs.Shapes.{HasSides};
ghost use Rattle.hv_basic.specs.Faults.{IsShapeFault};
ghost use Rattle.hv_basic.specs.Working.Gathered.{AreAskings, IsLeftRead};

use crate::leaves::{Half, leaves};
use crate::lefts::asks_sides_after;
use crate::shapes::ShapeFault;
use crate::signed_sets::{Asking, Others, gather};
use hv_lines::{Table, Word};
use std::alloc::Global;

/// The claim that the left set is within the right one, with its word.
#[derive(Clone, Copy)]
pub(crate) struct Inclusion {
    pub word: Word,
    pub left: usize,
    pub right: usize,
}

/// What sides ask about, and the action set of the step.
#[derive(Drop)]
pub(crate) struct Sides {
    pub askings: Vec<Asking>,
    pub acts: Option<usize>,
}

/// What the left side asks about, and what the right one asks besides, where its leaves are
/// literals.
pub(crate) fn with_right(
    alloc: Global,
    table: &Table,
    claim: Inclusion,
    sides: Sides,
) -> Result<Sides, ShapeFault>
    requires right { claim.right < expr_count table.now.lines }
    requires left { IsLeftRead table.now.lines claim.word claim.left sides }
    ensures sides { IfOk result (λ sides.
        HasSides table.now.lines claim.word claim.left claim.right sides.acts) }
    ensures askings { IfOk result (λ sides.
        AreAskings table.now.lines claim.word claim.left claim.right sides.askings.items) }
    ensures err { IfErr result (IsShapeFault ((acts : Option ℕ)
        → HasSides table.now.lines claim.word claim.left claim.right acts → ⊥)) }
{
    let acts = sides.acts;
    let mut askings = sides.askings;
    let rights = leaves(alloc, table, Half::Right, claim.right)?;
    match gather(&rights, false, asks_sides_after(claim.word), &mut askings)? {
        Others::None => Ok(Sides { askings, acts }),
        Others::One(_) => Err(ShapeFault::Shape),
        Others::More => Err(ShapeFault::Shape),
    }
}

//! Whether a statement has the shape of its word, and what it asks then.

ghost use Rattle.std.specs.Prelude.{◌≡◌, ◌<◌, ℕ, Bool, IfOk, IfErr, MatchOption};
ghost use Rattle.hv_lines.specs.Numbering.{SpeaksBelow, acts_count, expr_count};
ghost use Rattle.hv_lines.specs.Shapes.{AreTwo, HasShape, HasSides, IsQuestion, IsShaped};
ghost use Rattle.hv_lines.specs.Shapes.{QuestionState as AskedQuestion};
ghost use Rattle.hv_basic.specs.Deciding.{IsBasicOver, IsQuestionOver};
ghost use Rattle.hv_basic.specs.Faults.{IsShapeFault};
ghost use Rattle.hv_basic.specs.Working.Gathered.{AreAskings, IsLeftRead};
ghost use Rattle.hv_basic.specs.Working.Views.{question_of};
ghost use Rattle.hv_basic.specs.declared.shapes.ShapeFault.TheVariants as F;

use crate::basic::{Basic, BasicKind, Question};
use crate::families::{are_of_two_families, one_family};
use crate::lefts::left_of;
use crate::rising::in_order;
use crate::sides::{Inclusion, Sides, with_right};
use crate::signed_sets::{SignedSet, literal_of};
use hv_lines::{Statement, Table, Word};
use std::alloc::{AllocError, Global};
use thiserror::Error;

/// Why a statement has no shape.
#[derive(Debug, Drop, Error)]
pub enum ShapeFault {
    /// The statement hasn't the shape of its word.
    #[error("the statement has another shape")]
    Shape,
    /// There is no memory.
    #[error("out of memory")]
    Memory,
}

impl From<AllocError> for ShapeFault {
    ghost from_gives = { λ _ fault. fault ≡ F.Memory };

    fn from(_: AllocError) -> ShapeFault {
        ShapeFault::Memory
    }
}

/// How many operands a statement can have.
pub(crate) const MOST_OPERANDS: usize = 65536;

/// What the statement asks, where it has the shape of the word.
pub fn shape(
    alloc: Global,
    table: &Table,
    statement: &Statement,
    word: Word,
) -> Result<Basic, ShapeFault>
    requires { SpeaksBelow (acts_count table.now.lines) (expr_count table.now.lines) statement.now }
    ensures ok { IfOk result (IsShaped table.now.lines statement.now word) }
    ensures over { IfOk result (IsBasicOver table.now.lines) }
    ensures err { IfErr result (IsShapeFault (HasShape table.now.lines statement.now word → ⊥)) }
{
    match statement {
        Statement::Sub(left, right) => match word {
            Word::B4 => match two_of(table, *left, *right) {
                Some((first, second)) => Ok(Basic {
                    kind: BasicKind::Two(first, second),
                }),
                None => Err(ShapeFault::Shape),
            },
            _ => {
                let claim = Inclusion {
                    word,
                    left: *left,
                    right: *right,
                };
                match question_of(alloc, table, claim) {
                    Ok(question) => Ok(Basic {
                        kind: BasicKind::Sets(word, question),
                    }),
                    Err(fault) => Err(fault),
                }
            }
        },
        Statement::ActSub(first, second) => match word {
            Word::B5 => Ok(Basic {
                kind: BasicKind::Acts(*first, *second),
            }),
            _ => Err(ShapeFault::Shape),
        },
        Statement::Dead(_) | Statement::Unsolvable => Err(ShapeFault::Shape),
    }
}

/// The two sides, where they are formulas of two families or their negations.
fn two_of(table: &Table, left: usize, right: usize) -> Option<(SignedSet, SignedSet)>
    requires left { left < expr_count table.now.lines }
    requires right { right < expr_count table.now.lines }
    ensures { MatchOption result ((x y : ℕ × Bool) → AreTwo table.now.lines left right x y → ⊥)
        (λ sides. AreTwo table.now.lines left right (sides.0.set, sides.0.is_plain)
        (sides.1.set, sides.1.is_plain)) }
{
    let first = literal_of(table, left)?;
    let second = literal_of(table, right)?;
    if are_of_two_families(table, first.set, second.set) {
        Some((first, second))
    } else {
        None
    }
}

/// What the inclusion asks, where it has the shape of the word.
fn question_of(alloc: Global, table: &Table, claim: Inclusion) -> Result<Question, ShapeFault>
    requires left { claim.left < expr_count table.now.lines }
    requires right { claim.right < expr_count table.now.lines }
    ensures ok { IfOk result (λ question.
        IsQuestion table.now.lines claim.word claim.left claim.right (question_of question)) }
    ensures over { IfOk result (λ question. IsQuestionOver table.now.lines (question_of question)) }
    ensures err { IfErr result (IsShapeFault ((question : AskedQuestion)
        → IsQuestion table.now.lines claim.word claim.left claim.right question → ⊥)) }
{
    let mut kept = Vec::new(alloc);
    match left_of(alloc, table, &mut kept, claim.word, claim.left) {
        Ok(sides) => question_beside(alloc, table, claim, sides),
        Err(fault) => Err(fault),
    }
}

/// What the inclusion asks, of which the left side was read, where it has the shape of the word.
pub(crate) fn question_beside(
    alloc: Global,
    table: &Table,
    claim: Inclusion,
    sides: Sides,
) -> Result<Question, ShapeFault>
    requires right { claim.right < expr_count table.now.lines }
    requires left { IsLeftRead table.now.lines claim.word claim.left sides }
    ensures ok { IfOk result (λ question.
        IsQuestion table.now.lines claim.word claim.left claim.right (question_of question)) }
    ensures over { IfOk result (λ question. IsQuestionOver table.now.lines (question_of question)) }
    ensures err { IfErr result (IsShapeFault ((question : AskedQuestion)
        → IsQuestion table.now.lines claim.word claim.left claim.right question → ⊥)) }
{
    match with_right(alloc, table, claim, sides) {
        Ok(sides) => question_from(alloc, table, claim, sides),
        Err(fault) => Err(fault),
    }
}

/// What the inclusion asks, where its sides have the shape.
fn question_from(
    alloc: Global,
    table: &Table,
    claim: Inclusion,
    sides: Sides,
) -> Result<Question, ShapeFault>
    requires sides { HasSides table.now.lines claim.word claim.left claim.right sides.acts }
    requires askings { AreAskings table.now.lines claim.word claim.left claim.right
        sides.askings.items }
    ensures ok { IfOk result (λ question.
        IsQuestion table.now.lines claim.word claim.left claim.right (question_of question)) }
    ensures over { IfOk result (λ question. IsQuestionOver table.now.lines (question_of question)) }
    ensures err { IfErr result (IsShapeFault ((question : AskedQuestion)
        → IsQuestion table.now.lines claim.word claim.left claim.right question → ⊥)) }
{
    let _ = table;
    let _ = claim;
    let Some(family) = one_family(&sides.askings, None) else {
        return Err(ShapeFault::Shape);
    };
    let positive = in_order(alloc, &sides.askings, true)?;
    let negative = in_order(alloc, &sides.askings, false)?;
    if positive.len() + negative.len() > MOST_OPERANDS {
        return Err(ShapeFault::Shape);
    }
    Ok(Question {
        family,
        positive,
        negative,
        acts: sides.acts,
    })
}

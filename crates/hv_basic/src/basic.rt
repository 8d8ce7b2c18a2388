//! What a basic statement asks, as `shape` gives it.

use crate::signed_sets::SignedSet;
use hv_lines::{FormulaFamily, Word};
use std::marker::Model;

/// A basic statement of the right shape, by what it asks. Only `shape` makes one.
#[derive(Drop)]
pub struct Basic {
    pub(crate) kind: BasicKind,
}

/// The three kinds of basic statement.
#[derive(Drop)]
pub(crate) enum BasicKind {
    /// An inclusion of sets over one family, with its word.
    Sets(Word, Question),
    /// An inclusion of a formula or its negation in one of another family.
    Two(SignedSet, SignedSet),
    /// An inclusion of action sets: the first is claimed to be within the second.
    Acts(usize, usize),
}

/// What a basic statement of sets asks. A set denotes itself before the action (false) or after
/// it (true).
#[derive(Drop)]
pub(crate) struct Question {
    pub family: FormulaFamily,
    pub positive: Vec<(usize, bool)>,
    pub negative: Vec<(usize, bool)>,
    /// The action set of the progression or regression.
    pub acts: Option<usize>,
}

impl Model for Basic {
    ghost use Rattle.hv_lines.specs.Shapes.{BasicState};

    ghost Value = { BasicState };

    ghost use Rattle.hv_basic.specs.Working.Views.{basic_of};

    ghost view = { λ b. basic_of b.kind };
}

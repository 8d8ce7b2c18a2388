//! What right sides of statements ask, the leaves of intersections on the left, and the flags of
//! action sets, kept for the statements after them.

ghost use Rattle.std.specs.Prelude.{◌≡◌, None};

use crate::basic::Question;
use crate::joint::JointFormula;
use crate::signed_sets::Leaf;
use hv_lines::FormulaFamily;
use hv_sets::{Operands, Query, Scratch};
use std::alloc::{AllocError, Global};
use std::collections::BTreeSet;
use std::marker::Model;

/// What is handed from statement to statement: what right sides of earlier ones ask, where these
/// were unions of literals, the leaves of intersections on their left, the flags of
/// action sets, and space for the work of queries. What was asked about last is the last.
#[derive(Drop)]
pub struct Shared {
    pub(crate) sides: Vec<Kept>,
    pub(crate) lefts: Vec<KeptLeaves>,
    pub(crate) joints: Vec<KeptJoint>,
    pub(crate) flagged: Vec<FlaggedActs>,
    pub(crate) scratch: Scratch,
}

/// A right side, with a question and its query, whose negative part is what its leaves ask that are
/// formulas or constants.
#[derive(Drop)]
pub(crate) struct Kept {
    /// The right side; none where nothing is kept.
    pub root: Option<usize>,
    /// Whether it is asked about after the action.
    pub after: bool,
    /// The family of its formulas; none where all are constants.
    pub family: Option<FormulaFamily>,
    /// How many ways there are to choose one clause of each of its sets; none where that isn't
    /// told.
    pub ways: Option<u64>,
    /// Literals each of which puts a state into one of its sets, or out of one that is negated:
    /// those of sets with one short clause, and the opposites of lone ones of negated sets.
    pub enough: BTreeSet<(u32, bool)>,
    /// The negations among its leaves, which ask about their sets with the sign of the left side.
    pub negations: Vec<Leaf>,
    /// The family of the formulas that these negate; none where all are constants.
    pub negated: Option<FormulaFamily>,
    pub question: Question,
    pub query: Query,
    /// Whether the query has the operands of the question.
    pub named: bool,
}

/// An intersection and its leaves.
#[derive(Drop)]
pub(crate) struct KeptLeaves {
    pub root: usize,
    pub leaves: Vec<Leaf>,
}

/// An intersection that was asked about before, and one formula for its leaves; none where they
/// have none.
#[derive(Drop)]
pub(crate) struct KeptJoint {
    pub root: usize,
    pub formula: Option<JointFormula>,
}

/// An action set, and a flag for each action: true for those of the set.
#[derive(Drop)]
pub(crate) struct FlaggedActs {
    pub acts: usize,
    pub flags: Vec<bool>,
}

impl Model for Shared {
    ghost use Rattle.hv_basic.specs.Sharing.{SharedState};

    ghost Value = { SharedState };

    ghost view = { λ s. record {
      sides = s.sides.items;
      lefts = s.lefts.items;
      joints = s.joints.items;
      flagged = s.flagged.items;
    } };
}

impl Shared {
    ghost use Rattle.std.specs.Prelude.{List, IfOk};
    ghost use Rattle.hv_lines.specs.declared.line.Line.{Line};
    ghost use Rattle.hv_basic.specs.Sharing.{IsShared};

    /// Nothing is kept.
    pub fn new(alloc: Global) -> Result<Shared, AllocError>
        ensures { IfOk result (λ shared. (lines : List Line) → IsShared lines shared) }
    {
        Ok(Shared {
            sides: Vec::new(alloc),
            lefts: Vec::new(alloc),
            joints: Vec::new(alloc),
            flagged: Vec::new(alloc),
            scratch: Scratch::new(alloc)?,
        })
    }
}

/// A side of which nothing is kept.
pub(crate) fn no_side(alloc: Global) -> Kept
    ensures { result.root ≡ None }
{
    Kept {
        root: None,
        after: false,
        family: None,
        ways: None,
        enough: BTreeSet::new(alloc),
        negations: Vec::new(alloc),
        negated: None,
        question: Question {
            family: FormulaFamily::Horn,
            positive: Vec::new(alloc),
            negative: Vec::new(alloc),
            acts: None,
        },
        query: Query {
            positive: Operands::new(alloc),
            negative: Operands::new(alloc),
            action: None,
        },
        named: false,
    }
}

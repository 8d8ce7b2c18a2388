//! The numbers of the literals that each literal implies at once, in rows.
//!
//! One literal makes one implication, and that lies in the value itself: a proof can have hundreds
//! of thousands of formulas of one literal.

ghost use Rattle.std.specs.Prelude.{◌<◌, ◌∷◌, ◌^◌, [], List, IfOk};
ghost use Rattle.std.specs.List.{All};
ghost use Rattle.hv_sets.specs.declared.literal.Literal.{Literal as LiteralOf};
ghost use Rattle.hv_sets.specs.Cubes.{SpeakBelow};
ghost use Rattle.hv_indexes.specs.Implied.{AreImplications, AreImplied, ImpliesNumber};
ghost use Rattle.hv_indexes.specs.Occurrences.{IsIndexOf};
ghost use Rattle.hv_indexes.specs.Rows.{AreRows, IsRow};

use crate::counted::sort_by_keys;
use crate::occurrences::Occurrences;
use crate::rows::RowHead;
use crate::{implied, rows};
use hv_sets::{Clauses, Literal};
use std::alloc::{AllocError, Global};

/// The numbers of the literals that each literal implies at once, and where those of each begin.
#[derive(Drop)]
pub struct ListedImplications {
    heads: Vec<RowHead>,
    numbers: Vec<u32>,
}

/// The numbers of the literals that each literal implies at once.
#[derive(Drop)]
pub enum ImplicationLists {
    /// They are in lists.
    Listed(Box<ListedImplications>),
    /// The literal of one number implies that of another one, and this is all.
    Lone { key: u32, numbers: [u32; 1] },
    /// No literal implies any.
    Nothing,
}

impl ImplicationLists {
    /// Those of no clauses.
    pub fn none() -> ImplicationLists
        ensures { AreImplications [] result }
    {
        ImplicationLists::Nothing
    }

    /// Those of a literal that is the one clause: its opposite implies it. It takes no memory.
    pub fn of_lone(literal: Literal) -> ImplicationLists
        requires { literal.atom < 2 ^ 31 }
        ensures { AreImplications ((literal ∷ []) ∷ []) result }
    {
        let opposite = Literal {
            atom: literal.atom,
            positive: !literal.positive,
        };
        ImplicationLists::Lone {
            key: implied::number_of(opposite),
            numbers: [implied::number_of(literal)],
        }
    }

    /// Those of these clauses. More than 2^32 implications are taken as out of memory. No line has
    /// so many: a clause makes two at most, of four bytes at least: fewer than 8,388,608.
    pub fn of(
        alloc: Global,
        clauses: &Clauses,
        occurs: &Occurrences,
    ) -> Result<ImplicationLists, AllocError>
        requires below { All (SpeakBelow (2 ^ 31)) clauses.now }
        requires index { IsIndexOf clauses.now occurs.now }
        ensures { IfOk result (AreImplications clauses.now) }
    {
        let mut codes = implied::codes_of(alloc, clauses, occurs)?;
        if codes.is_empty() {
            return Ok(ImplicationLists::Nothing);
        }
        sort_by_keys(alloc, &mut codes)?;
        let heads = rows::heads_of(alloc, &codes)?;
        let numbers = rows::numbers_of(alloc, &codes)?;
        let listed = ListedImplications { heads, numbers };
        Ok(ImplicationLists::Listed(Box::new(alloc, listed)?))
    }

    /// The numbers of the literals that a literal implies at once: they rise, and each stands there
    /// once.
    pub fn row(&self, literal: Literal) -> &[u32]
        requires lists { (clauses : List (List LiteralOf)) × AreImplications clauses self.now }
        requires atom { literal.atom < 2 ^ 31 }
        ensures { (clauses : List (List LiteralOf)) → AreImplications clauses self.now
            → AreImplied clauses literal result.now }
    {
        self.numbers_at(implied::number_of(literal))
    }

    // The numbers of the literals that the one of this number implies.
    fn numbers_at(&self, key: u32) -> &[u32]
        requires { (clauses : List (List LiteralOf)) × AreImplications clauses self.now }
        ensures { (clauses : List (List LiteralOf)) → AreImplications clauses self.now
            → IsRow (ImpliesNumber clauses) key result.now }
    {
        match self {
            ImplicationLists::Listed(lists) => lists.numbers_at(key),
            ImplicationLists::Lone { key: own, numbers } => {
                let head = RowHead {
                    key: *own,
                    start: 0,
                };
                rows::numbers_at(&[head], numbers, key)
            }
            ImplicationLists::Nothing => rows::numbers_at(&[], &[], key),
        }
    }
}

impl ListedImplications {
    // The numbers of the literals that the one of this number implies.
    fn numbers_at(&self, key: u32) -> &[u32]
        requires { (clauses : List (List LiteralOf))
            × AreRows (ImpliesNumber clauses) self.now.heads.items self.now.numbers.items }
        ensures { (clauses : List (List LiteralOf))
            → AreRows (ImpliesNumber clauses) self.now.heads.items self.now.numbers.items
            → IsRow (ImpliesNumber clauses) key result.now }
    {
        rows::numbers_at(&self.heads, &self.numbers, key)
    }
}

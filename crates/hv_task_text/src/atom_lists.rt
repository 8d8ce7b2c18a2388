//! The lists of an action that is being read.
//!
//! They are used again for the next action: an action takes memory for what it keeps, and for
//! nothing else. With lists of its own for each action the reader took three tenths more
//! instructions.

ghost use Rattle.std.specs.Prelude.{◌≡◌, ◌++◌, ◌∷◌, ℕ, List, [], IfOk, OnOk};
ghost use Rattle.std.specs.List.{filter_map};
ghost use Rattle.hv_task.specs.AtomList.{set_of};
ghost use Rattle.hv_task_text.specs.Working.Reading.{AreOf, no_lists};
ghost use Rattle.hv_task_text.specs.Written.{IsItem, written_action};
ghost use Rattle.hv_task_text.specs.declared.atom_lists.Item.{Item};

use hv_task::{Action, AtomSet, Name};
use std::alloc::{AllocError, Global};

/// One line of an action's lists: the word, and the atom's number behind it.
#[derive(Clone, Copy, Debug, PartialEq, Eq)]
pub enum Item {
    /// An atom of the precondition.
    Pre(u32),
    /// An atom that is added.
    Add(u32),
    /// An atom that is deleted.
    Del(u32),
}

/// The three sets of an action that isn't whole yet. They are used again for the next one, so that
/// no action takes memory but for what it keeps.
#[derive(Drop)]
pub struct AtomLists {
    pre: AtomSet,
    add: AtomSet,
    del: AtomSet,
}

impl AtomLists {
    /// No line has been read.
    pub fn new(alloc: Global) -> AtomLists
        ensures { result ≡ no_lists }
    {
        AtomLists {
            pre: AtomSet::new(alloc),
            add: AtomSet::new(alloc),
            del: AtomSet::new(alloc),
        }
    }

    /// Puts in what one more line says.
    pub fn put(&mut self, item: Item) -> Result<(), AllocError>
        ensures { OnOk result ((atoms : ℕ) (items : List Item) → IsItem atoms item
            → AreOf atoms items self.old → AreOf atoms (items ++ item ∷ []) self.new) }
    {
        match item {
            Item::Pre(atom) => self.pre.insert(atom),
            Item::Add(atom) => self.add.insert(atom),
            Item::Del(atom) => self.del.insert(atom),
        }
    }

    /// The action of this name and cost that has these lists, of which none is left.
    #[inline(always)]
    pub fn action(&mut self, alloc: Global, name: Name, cost: u32) -> Result<Action, AllocError>
        ensures action { IfOk result (λ action. (atoms : ℕ) (items : List Item)
            → AreOf atoms items self.old → action ≡ written_action atoms
            (record { name = name; cost = cost; items = items })) }
        ensures none { OnOk result (self.new ≡ no_lists) }
    {
        Ok(Action {
            name,
            cost,
            pre: self.pre.take(alloc)?,
            add: self.add.take(alloc)?,
            del: self.del.take(alloc)?,
        })
    }
}

//! Lists of operands.

ghost use Rattle.std.specs.Prelude.{◌≡◌, ◌<◌, ◌↔◌, [], ◌∷◌, ◌++◌, ◌==◌, length, slice_get, Some};
ghost use Rattle.std.specs.Prelude.{IsTrue, OnOk, OnErr};
ghost use Rattle.hv_sets.specs.Names.{AsksAbout};

use crate::operand::{Operand, Which};
use indexmap::IndexSet;
use std::alloc::{AllocError, Global};
use std::marker::Model;

/// A list of operands.
#[derive(Drop)]
pub struct Operands {
    items: Vec<Operand>,
    // What the items name, and whether it is asked about after the action, to look one up.
    named: IndexSet<(Which, bool)>,
}

impl Model for Operands {
    ghost use Rattle.std.specs.Prelude.{List};
    ghost use Rattle.hv_sets.specs.declared.operand.Operand.{Operand};
    ghost use Rattle.hv_sets.specs.Working.Names.{AreAsked};

    ghost Value = { List Operand };

    ghost view = { λ l. l.items.items };

    ghost invariant = { λ l. AreAsked l.named.keys l.items.items };
}

impl Operands {
    /// The empty list.
    pub fn new(alloc: Global) -> Operands
        ensures { result ≡ [] }
    {
        Operands {
            items: Vec::new(alloc),
            named: IndexSet::new(alloc),
        }
    }

    /// Puts the item last.
    pub fn push(&mut self, item: Operand) -> Result<(), AllocError>
        ensures ok { OnOk result (self.new ≡ self.old ++ item ∷ []) }
        ensures err { OnErr result (self.new ≡ self.old) }
    {
        self.items.reserve(1)?;
        self.named.insert((item.which, item.after))?;
        self.items.push_reserved(item);
        Ok(())
    }

    /// How many operands there are.
    pub fn len(&self) -> usize
        ensures { result ≡ length self.now }
    {
        self.items.len()
    }

    /// Whether there is none.
    pub fn is_empty(&self) -> bool
        ensures { result ≡ (length self.now == 0) }
    {
        self.items.is_empty()
    }

    /// The operand at a place from 0.
    pub fn get(&self, place: usize) -> &Operand
        requires { place < length self.now }
        ensures { slice_get self.now place ≡ Some result.now }
    {
        &self.items[place]
    }

    /// Whether some operand is this set, asked about after the action (true) or before it: one
    /// look-up.
    pub fn names(&self, which: Which, after: bool) -> bool
        ensures { IsTrue result ↔ AsksAbout self.now which after }
    {
        self.named.contains(&(which, after))
    }

    /// All items, in order.
    pub fn as_slice(&self) -> &[Operand]
        ensures { result.now ≡ self.now }
    {
        self.items.as_slice()
    }
}

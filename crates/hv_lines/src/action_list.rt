//! Lists of actions, by their numbers.

ghost use Rattle.std.specs.Prelude.{◌≡◌, ◌<◌, [], ◌∷◌, ◌++◌, ◌==◌, length, slice_get, Some, OnOk};
ghost use Rattle.std.specs.Prelude.{OnErr};

use std::alloc::{AllocError, Global};
use std::marker::Model;

/// A list of action numbers.
#[derive(Drop)]
pub struct ActionList {
    items: Vec<u32>,
}

impl Model for ActionList {
    ghost use Rattle.std.specs.Prelude.{ℕ, List};

    ghost Value = { List ℕ };

    ghost view = { λ l. l.items.items };
}

impl ActionList {
    /// The empty list.
    pub fn new(alloc: Global) -> ActionList
        ensures { result ≡ [] }
    {
        ActionList {
            items: Vec::new(alloc),
        }
    }

    /// Puts the item last.
    pub fn push(&mut self, item: u32) -> Result<(), AllocError>
        ensures ok { OnOk result (self.new ≡ self.old ++ item ∷ []) }
        ensures err { OnErr result (self.new ≡ self.old) }
    {
        self.items.push(item)?;
        Ok(())
    }

    /// How many actions there are.
    pub fn len(&self) -> usize
        ensures { result ≡ length self.now }
    {
        self.items.len()
    }

    /// Whether there is none.
    pub fn is_empty(&self) -> bool
        ensures { result ≡ (length self.now == 0) }
    {
        self.items.is_empty()
    }

    /// The action number at a place from 0.
    pub fn get(&self, place: usize) -> &u32
        requires { place < length self.now }
        ensures { slice_get self.now place ≡ Some result.now }
    {
        &self.items[place]
    }

    /// All items, in order.
    pub fn as_slice(&self) -> &[u32]
        ensures { result.now ≡ self.now }
    {
        self.items.as_slice()
    }
}

//! Clauses.

ghost use Rattle.std.specs.Prelude.{◌≡◌, ◌<◌, [], ◌∷◌, ◌++◌, ◌==◌, length, slice_get, Some, OnOk};
ghost use Rattle.std.specs.Prelude.{OnErr};

use crate::literal::Literal;
use std::alloc::{AllocError, Global};
use std::marker::Model;

/// A clause: it is true in a state where one of its literals is. The clause without literals is
/// false.
#[derive(Drop)]
pub struct Clause {
    items: Vec<Literal>,
}

impl Model for Clause {
    ghost use Rattle.std.specs.Prelude.{ℕ, List};
    ghost use Rattle.hv_sets.specs.declared.literal.Literal.{Literal};

    ghost Value = { List Literal };

    ghost view = { λ l. l.items.items };
}

impl Clause {
    /// The empty list.
    pub fn new(alloc: Global) -> Clause
        ensures { result ≡ [] }
    {
        Clause {
            items: Vec::new(alloc),
        }
    }

    /// Puts the item last.
    pub fn push(&mut self, item: Literal) -> Result<(), AllocError>
        ensures ok { OnOk result (self.new ≡ self.old ++ item ∷ []) }
        ensures err { OnErr result (self.new ≡ self.old) }
    {
        self.items.push(item)?;
        Ok(())
    }

    /// Takes all literals out.
    pub fn clear(&mut self)
        ensures { self.new ≡ [] }
    {
        self.items.clear();
    }

    /// How many literals there are.
    pub fn len(&self) -> usize
        ensures { result ≡ length self.now }
    {
        self.items.len()
    }

    /// Whether there is none.
    pub fn is_empty(&self) -> bool
        ensures { result ≡ (length self.now == 0) }
    {
        self.items.is_empty()
    }

    /// The literal at a place from 0.
    pub fn get(&self, place: usize) -> &Literal
        requires { place < length self.now }
        ensures { slice_get self.now place ≡ Some result.now }
    {
        &self.items[place]
    }

    /// All items, in order.
    pub fn as_slice(&self) -> &[Literal]
        ensures { result.now ≡ self.now }
    {
        self.items.as_slice()
    }
}

//! Lists of action numbers.

ghost use Rattle.std.specs.Prelude.{◌≡◌, ◌++◌, ◌∷◌, [], length, OnOk, OnErr};

use std::alloc::{AllocError, Global};
use std::marker::Model;

/// A list of action numbers, in order and with repeats.
#[derive(Drop)]
pub struct PlanList {
    steps: Vec<u32>,
}

impl Model for PlanList {
    ghost use Rattle.std.specs.Prelude.{ℕ, List};

    ghost Value = { List ℕ };

    ghost view = { λ l. l.steps.items };
}

impl PlanList {
    /// The empty list.
    pub fn new(alloc: Global) -> PlanList
        ensures { result ≡ [] }
    {
        PlanList {
            steps: Vec::new(alloc),
        }
    }

    /// Appends a number.
    pub fn push(&mut self, item: u32) -> Result<(), AllocError>
        ensures ok { OnOk result (self.new ≡ self.old ++ item ∷ []) }
        ensures err { OnErr result (self.new ≡ self.old) }
    {
        self.steps.push(item)?;
        Ok(())
    }

    /// How many numbers it has.
    pub fn len(&self) -> usize
        ensures { result ≡ length self.now }
    {
        self.steps.len()
    }

    /// The numbers, in order.
    pub fn as_slice(&self) -> &[u32]
        ensures { result.now ≡ self.now }
    {
        self.steps.as_slice()
    }
}

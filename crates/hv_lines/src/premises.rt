//! The premises of a line, at most three.

ghost use Rattle.std.specs.Prelude.{◌≡◌, ◌<◌, ◌≤◌, ◌==◌, [], ◌∷◌, length, slice_get, Some};

use std::marker::Model;

/// The premises of a line: the identifiers of at most three earlier lines, in the order of the
/// rule. They are kept inline.
#[derive(Drop)]
pub struct Premises {
    ids: [usize; 3],
    count: usize,
}

impl Model for Premises {
    ghost use Rattle.std.specs.Prelude.{ℕ, List, ◌≤◌, take};

    ghost Value = { List ℕ };

    ghost view = { λ p. take p.count p.ids };

    ghost invariant = { λ p. p.count ≤ 3 };
}

impl Premises {
    /// No premise.
    pub fn none() -> Premises
        ensures { result ≡ [] }
    {
        Premises {
            ids: [0; 3],
            count: 0,
        }
    }

    /// One premise.
    pub fn one(first: usize) -> Premises
        ensures { result ≡ first ∷ [] }
    {
        Premises {
            ids: [first, 0, 0],
            count: 1,
        }
    }

    /// Two premises, in the order of the rule.
    pub fn two(first: usize, second: usize) -> Premises
        ensures { result ≡ first ∷ second ∷ [] }
    {
        Premises {
            ids: [first, second, 0],
            count: 2,
        }
    }

    /// Three premises, in the order of the rule.
    pub fn three(first: usize, second: usize, third: usize) -> Premises
        ensures { result ≡ first ∷ second ∷ third ∷ [] }
    {
        Premises {
            ids: [first, second, third],
            count: 3,
        }
    }

    /// How many premises there are, from 0 to 3.
    pub fn len(&self) -> usize
        ensures length { result ≡ length self.now }
        ensures few { result ≤ 3 }
    {
        self.count
    }

    /// Whether there is none.
    pub fn is_empty(&self) -> bool
        ensures { result ≡ (length self.now == 0) }
    {
        self.count == 0
    }

    /// The identifier at a place from 0.
    pub fn get(&self, place: usize) -> usize
        requires { place < length self.now }
        ensures { slice_get self.now place ≡ Some result }
    {
        self.as_slice()[place]
    }

    /// All identifiers, in order.
    pub fn as_slice(&self) -> &[usize]
        ensures { result.now ≡ self.now }
    {
        &self.ids[..self.count]
    }
}

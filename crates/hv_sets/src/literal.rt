//! Literals: an atom or its negation.

ghost use Rattle.std.specs.Prelude.{◌≡◌, ◌<◌, length};
ghost use Rattle.hv_sets.specs.Truth.{in_literal};

use hv_task::State;

/// An atom or its negation.
#[derive(Clone, Copy, Debug, PartialEq, Eq)]
pub struct Literal {
    /// The atom, from 0.
    pub atom: u32,
    /// True for the atom itself, false for its negation.
    pub positive: bool,
}

impl Literal {
    /// Whether it is true in the state.
    pub fn is_true_in(&self, state: &State) -> bool
        requires { self.now.atom < length state.now }
        ensures { result ≡ in_literal self.now state.now }
    {
        state.has(self.atom) == self.positive
    }
}

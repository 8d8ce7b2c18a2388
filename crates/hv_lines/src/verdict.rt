//! What is said of a basic statement.

use crate::reason::Clash;

/// What is said of a basic statement.
#[derive(Drop, PartialEq, Eq)]
pub enum Verdict {
    /// The statement is true.
    True,
    /// The statement is false, as the counterexample shows.
    False(Clash),
    /// A query costs more than the budget, and no earlier one has a counterexample.
    Over,
    /// The statement isn't one that is decided.
    NotOffered,
}

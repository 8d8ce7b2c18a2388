//! Answers to queries.

/// The answer to a query.
#[derive(Clone, Copy, Debug, PartialEq, Eq)]
pub enum Finding {
    /// No state is a counterexample.
    Empty,
    /// The state in the scratch is a counterexample.
    Clash,
    /// The query costs more than the budget.
    Over,
}

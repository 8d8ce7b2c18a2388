//! Operands of a query: which set is asked about, and whether before the action or after it.

/// The set that an operand denotes.
#[derive(Clone, Copy, Debug, PartialEq, Eq, Hash)]
pub enum Which {
    /// The set without states.
    Empty,
    /// The set of the initial state alone.
    Start,
    /// The set of the goal states.
    Goal,
    /// The set of this number in a store, from 0.
    Set(usize),
}

/// A formula or constant about which a query asks.
#[derive(Clone, Copy, Debug, PartialEq, Eq)]
pub struct Operand {
    /// The set that is meant.
    pub which: Which,
    /// The identifier of the set, by which operands are put in order.
    pub id: usize,
    /// Whether the set is asked about the state after the action, and not about the one before.
    pub after: bool,
}

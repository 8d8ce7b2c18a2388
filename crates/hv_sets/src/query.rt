//! Queries: what a basic statement asks of the sets of a store.

use crate::operands::Operands;

/// What a basic statement asks: whether there is a state in which the action is applicable and
/// which is in each positive operand and in no negative one, where an operand that is asked after
/// the action is asked about the action's result.
#[derive(Drop)]
pub struct Query {
    /// The sets in which the state has to be.
    pub positive: Operands,
    /// The sets in which it may not be.
    pub negative: Operands,
    /// The number of the action, if there is one.
    pub action: Option<u32>,
}

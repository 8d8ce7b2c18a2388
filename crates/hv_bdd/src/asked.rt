//! What a query of diagrams asks of a state: a set, before or after the action, that holds it or
//! doesn't.

use hv_sets::Which;

/// An operand of a query as a place of its tuples.
#[derive(Clone, Copy)]
pub struct Asked {
    /// The set that is meant.
    pub which: Which,
    /// Whether it is asked about the state after the action.
    pub after: bool,
    /// Whether the state has to be in the set, or else outside it.
    pub positive: bool,
}

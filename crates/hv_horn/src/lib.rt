//! Horn formulas and dual Horn formulas: sets of states that are given by clauses whose positive
//! literals, or whose negative literals, are of one atom at most.
//!
//! Dual Horn is a kind of its own, and not Horn over a task with the signs exchanged: preconditions
//! and goals ask only for atoms that hold, so a task has no such counterpart. What the two kinds
//! share is stated once over the sign.
#![tactic(auto)]

pub mod dual_horn;
mod headed;
pub mod horn;

pub use dual_horn::{DualHorn, DualHornFault, DualHornKind, DualHorns};
pub use horn::{Horn, HornFault, HornKind, Horns};

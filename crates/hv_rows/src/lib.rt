//! Rows of actions, by which those are found that may be applicable in a state.
//!
//! A row stands for an atom, or for having no precondition, and has numbers of actions. `entering`
//! has what any such rows are made with; by those of `preconditions` each action waits in one row.
#![tactic(auto)]

pub mod entering;
pub mod preconditions;

pub use entering::{empty_rows, enter};
pub use preconditions::action_rows;

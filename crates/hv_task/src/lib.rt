//! Planning tasks in STRIPS form: atoms, states, actions, plans.
#![tactic(auto)]

pub mod action;
pub mod action_words;
pub mod after;
pub mod atom_list;
pub mod atom_set;
pub mod atoms;
mod bits;
pub mod laws;
pub mod name;
pub mod state;
pub mod task;

pub use action::Action;
pub use action_words::ActionWords;
pub use after::After;
pub use atom_list::{AtomList, names_all, names_atom};
pub use atom_set::AtomSet;
pub use atoms::{Atoms, Hint};
pub use laws::{laws_of_dead_states, laws_of_states};
pub use name::Name;
pub use state::State;
pub use task::Task;

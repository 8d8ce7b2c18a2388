//! The atoms, and the pairs of atoms, that can be reached in a task from a state; and the proofs
//! that there is no plan where the goal isn't reached; and pruners by them.
#![tactic(auto)]

pub mod atom_search;
mod columns;
pub mod fault;
mod horn_proof;
mod index;
pub mod laws;
mod mask;
mod note_rows;
mod notes;
mod pair_course;
pub mod pair_formula;
pub mod pair_pruner;
mod pair_search;
mod pair_table;
mod pair_visit;
pub mod pairs;
mod passed;
pub mod relaxed;
pub mod relaxed_pruner;

pub use atom_search::reached_atoms;
pub use fault::ReachFault;
pub use laws::{laws_of_covered_states, laws_of_pair_proofs, laws_of_relaxed_proofs};
pub use pair_formula::prove_pairs;
pub use pair_pruner::PairPruner;
pub use pairs::{Pairs, reached_pairs};
pub use relaxed::prove_relaxed;
pub use relaxed_pruner::RelaxedPruner;

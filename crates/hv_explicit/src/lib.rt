//! Explicit sets: sets of states that are listed one by one.
//!
//! A state takes a bit for each atom of its task while it is worked on. A listed state takes four
//! bytes for each of its atoms and four for its end; where no earlier one is the same, some 20 to
//! 30 to be found by its code, but nothing in a set of at most two; and once more some 25 from the
//! first query with more than four negative operands on, in a store of more than four sets.
//!
//! A set (`explicit`) finds its states by their codes: `codes` and, in tasks of at most 64 atoms,
//! `state_word` make them, `places` finds them, and `state_index` has both; `holders`, with
//! `atom_columns`, has which states hold an atom. In a store (`explicits`) `state_owners` finds the
//! sets that list a state, by codes that `coding` chooses. A query goes through the states of its
//! anchor (`sets_query`), if `idle` doesn't answer it before; `named_sets` has which sets it names,
//! and `guesses` reads ahead where results are likely to stand. What is looked up is a state, a
//! list or an action's result (`sought`), which is compared and not built (`results`, `made`,
//! `near`, `action_bits`). `firsts` finds repeats, and `state_walk` and `paths` are for inclusions.
#![tactic(auto)]

mod action_bits;
mod atom_columns;
mod codes;
mod coding;
pub mod explicit;
pub mod explicits;
mod firsts;
mod guesses;
mod holders;
mod idle;
mod made;
mod named_sets;
mod near;
mod paths;
mod places;
mod results;
mod sets_query;
mod sought;
mod state_index;
mod state_owners;
pub mod state_walk;
mod state_word;

pub use explicit::Explicit;
pub use explicits::Explicits;
pub use state_walk::StateWalk;

//! Tasks that are made of a file and written into another one: what is proved of the written file
//! holds of the given one.
#![tactic(auto)]

pub mod laws;

pub use laws::{laws_of_bound_texts, laws_of_translator_texts};

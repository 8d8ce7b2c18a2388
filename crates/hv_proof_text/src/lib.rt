//! Proof texts: lines to bytes and back.
#![tactic(auto)]

mod claims;
mod fields;
mod forms;
pub mod laws;
mod lists;
pub mod read;
mod token;
mod token_rows;
pub mod write;

pub use laws::{closed_back, one_line, read_back};
pub use read::{LineError, LineReader, read_line};
pub use write::{write_line, write_proof};

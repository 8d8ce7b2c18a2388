//! The words after the name of a command, read by clap where they have the form of the command.
//!
//! The form is tested by slice patterns, and `clap` reads the words that have it: the table of
//! words is the whole definition of what is a job. What `clap` would make of other words, as of
//! options before names or of `--budget=7`, is no matter of this program: it is handed only words
//! that it takes, and never prints a usage text or a hint of its own. It is proved that it takes
//! each list that has the form, with out of memory as its only error. The public contracts don't
//! speak of `clap`, so the proofs of the crates above don't either.
#![tactic(auto)]

pub mod arguments;
pub mod check;
mod parsing;

pub use arguments::{read_one, read_two};
pub use check::{CheckWords, read_check};

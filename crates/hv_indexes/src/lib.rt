//! What is made of a list of clauses once, so that it can be looked up: where each literal stands,
//! what it implies at once, in which order the clauses are walked over, and which of them have to
//! be tried for a listed state.
//!
//! Most of it is in `rows`: numbers by rising keys, in one list, with where those of each key
//! begin. They are made of codes, which are put in order by comparing or by counting them
//! (`counted`).
//!
//! - `occurrences` says which clauses have a literal. Their codes are those of `signed`, and beside
//!   the place of a clause of two literals stands the other one (`partners`).
//! - `implication_lists` keeps what each literal implies by a clause of two, found by `implied`.
//! - `ranking` orders clauses, and the literals of each, for walks over the states outside them.
//! - `mates` answers for listed states by the atoms that they hold: `put_clauses` puts each clause
//!   under one of its literals, `clusters` tries those under literals that are false in the state,
//!   and `screens` passes over many of them at once.
//!
//! Nothing here knows what is asked about the clauses, nor of which kind they are. An index doesn't
//! hold its clauses: they are given to each call that reads them, and its contract says of which
//! clauses the index has to be.
#![tactic(auto)]

pub mod clusters;
mod counted;
pub mod implication_lists;
mod implied;
pub mod mates;
pub mod occurrences;
pub mod partners;
mod put_clauses;
pub mod ranking;
pub mod rows;
mod screens;
mod signed;

pub use implication_lists::ImplicationLists;
pub use mates::Mates;
pub use occurrences::{Occurrences, SignedOccurrences, Standing};
pub use ranking::LiteralOrder;
pub use rows::RowHead;

//! 2CNF formulas: sets of states that are given by clauses of at most two different literals.
#![tactic(auto)]

pub mod two_cnf;

pub use two_cnf::{
    LeanTwoCnf, LeanTwoCnfs, LeanTwoKind, TwoCnf, TwoCnfFault, TwoCnfs, TwoKind, TwoLiteralKind,
};

//! Inclusions between sets of states of two families, decided from the traits of sets alone.
//!
//! One side is gone through cube by cube, and the other is asked about each cube. A set is within
//! another where it meets no cube of the states outside that one (`within`), or where each cube of
//! it is covered (`within_states`); it is within a complement where the other set meets no cube of
//! it (`apart`); a complement is within a set where that covers each of its cubes (`together`).
//! Whether a set covers cubes is asked as whether they meet its complement, so one loop serves all
//! four calls (`meet_along` of hv_paths). The number of the walk's steps is the cost, and is
//! compared with the budget before the walk begins, so a counterexample never hides that the cost
//! exceeds the budget.
//!
//! The calls are four and not one for each pair of families: what a family can do it says by the
//! traits that it has, and a further family brings its traits and no new proof. They take the sets
//! by the traits of hv_paths, each of which rests on the one of hv_sets that says what can be done:
//! `InsideWalked` on `Inside`, `OutsideWalked` on `Outside`, `InsideAsked` on `StateSet`,
//! `OutsideAsked` on `Covering`. Explicit sets are walked over and met; formulas are met, covered
//! and walked over from outside. A pair that none of the four calls decides doesn't compile.
#![tactic(auto)]

pub mod decide_apart;
pub mod decide_together;
pub mod decide_within;
pub mod decide_within_states;

pub use decide_apart::apart;
pub use decide_together::together;
pub use decide_within::within;
pub use decide_within_states::within_states;

//! Formulas of one kind of clauses: sets of states, and exact answers about one of them.
//!
//! One crate serves all kinds: Horn, dual Horn and 2CNF formulas differ only in how an assignment
//! to which propagation has come to its end is completed to a state (`clause_kind`).
//!
//! - `formula` keeps the clauses, with the `closure` of what follows from them alone: where their
//!   literals stand, and what is known in each state of the formula, or that it has none. Whether
//!   some state of a cube is in it, `meet` tells; `kept_lists` says which lists are handed out.
//! - The walk over the states outside a formula takes its clauses in order: the cube of each has
//!   the opposites of its literals (`denial`).
//!
//! The way of an inclusion (`paths`): `clause_walk` goes through the states outside a formula, in
//! an order of hv_indexes; `formula_ask` answers about a formula and `rest_ask` about what is
//! outside it, literal by literal, with the clauses that are true in the whole cube kept apart
//! (`arranged`). For listed states `listed_ask` asks `first_states`, and later the clusters of
//! clauses that hv_indexes makes.
#![tactic(auto)]

mod arranged;
pub mod clause_kind;
pub mod clause_walk;
mod closure;
mod denial;
mod first_states;
pub mod formula;
mod formula_ask;
pub mod kept_lists;
pub mod listed_ask;
mod meet;
mod paths;
pub mod rest_ask;

pub use clause_kind::ClauseKind;
pub use clause_walk::ClauseWalk;
pub use formula::Formula;
pub use kept_lists::KeptLists;
pub use listed_ask::ListedAsk;
pub use rest_ask::RestAsk;

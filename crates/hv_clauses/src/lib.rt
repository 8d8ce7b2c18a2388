//! Stores of formulas of one kind of clauses, and exact answers to queries about them by unit
//! propagation.
//!
//! One crate serves all kinds of clauses: choices, costs and stores are proved once, over the
//! formulas of hv_formula and the propagation of hv_propagation.
//!
//! The way of a query, whether some state has all clauses of some sets true and is a counterexample
//! to others:
//!
//! - `formulas` takes the query, or begins an `inquiry` about one for many actions. `problem` reads
//!   its operands, through the effect of the action where they are asked about after it. `find`
//!   searches.
//! - Where no positive operand comes after the action, and a search of an inquiry came to the
//!   choices, `opening` puts on the trail what the positive operands say together, with the initial
//!   state and the goal among them. Each further search begins there and goes back there: upon it
//!   comes what follows from the action's `precondition`.
//! - Else `start` puts what is known at first below the trail: what one positive operand forces.
//!   Upon it come the precondition, the initial state and the goal, and what follows from the other
//!   operands, and in that one from the clauses to which the action gives a false literal.
//! - The positive operands are a condition that hv_propagation follows up. `literal_owners` says,
//!   in a query with many of them, which have a literal that became false.
//! - `choices`, `refuted`, `affected` and `fronts` go through the choices of one clause of each
//!   negative operand. Where none of them is refuted, what is known is completed to a state, as the
//!   kind says.
#![tactic(auto)]

mod affected;
mod choices;
mod find;
pub mod formulas;
mod fronts;
pub mod inquiry;
mod literal_owners;
mod opening;
mod precondition;
mod problem;
mod refuted;
mod start;

pub use formulas::Formulas;
pub use inquiry::ClauseInquiry;

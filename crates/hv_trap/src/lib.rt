//! The greatest trap of a task: the conjunctions of which one holds for ever, with a part of the
//! goal denied, once one holds.
//!
//! The conjunctions are kept as the clauses that deny them, in their order (`conjunctions`). Where
//! an action leads from a state in which a clause is false to one in which all are true, the first
//! state satisfies conjunctions of which none can be in a trap, since the result satisfies none
//! that is left: all clauses that are false in it are taken out at once. Most of it is done by
//! sweeps (`sweep`), and what they don't see is found by queries (`trap_query`). A sweep finds the
//! steps that may lead in by what follows from which literals (`implications`, `literal_table`,
//! `literal_mask`), asks `quick` clauses of states, and marks what it takes out (`clause_marks`).
//! `trap` joins both, `trap_proof` writes the proof, and `trap_pruner` notes its block (`notes`).
//!
//! No contract of the search names what an action adds or deletes, so an edit that exchanges the
//! two among the hints of the sweeps isn't refused. Where an action leads to is said by the
//! successor of states, and asked by queries after an action, in the crates below.
#![tactic(auto)]

mod clause_marks;
mod conjunctions;
pub mod fault;
mod implications;
pub mod laws;
mod literal_mask;
mod literal_table;
mod notes;
mod quick;
mod sweep;
pub mod trap;
pub mod trap_proof;
pub mod trap_pruner;
mod trap_query;

pub use fault::TrapFault;
pub use laws::{laws_of_trap_proofs, laws_of_traps};
pub use trap::greatest_trap;
pub use trap_proof::prove_trap;
pub use trap_pruner::TrapPruner;

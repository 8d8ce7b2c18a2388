//! Unit propagation: what follows from what is known of the atoms of a state, for clauses of any
//! kind and for any condition that tells what follows from one literal more.
//!
//! - What is known is an assignment: `roots` that others lend, which lie below as they are, and a
//!   `trail` of what was found out since, in rows that are lent or owned (`buffers`). To take
//!   back is to shorten the trail.
//! - A clause may be asked about through the `effect` of an action, which puts in or out what the
//!   action does before anything else is read. `literals` tells which literals are true then, and
//!   makes them true or false.
//! - `chase` looks at the clauses that have a literal that became false: the indexes of hv_indexes
//!   say which these are, and what follows in those of two literals, which `found_run` makes true
//!   in one go where there is no effect, and `watched` looks into longer ones. `falsified` begins
//!   at those of which an effect makes a literal false.
//! - `constraint` says what a condition owes so that `propagation` follows it up to its end and
//!   completes the assignment to a state, in one of two ways (`completion`). Clauses with their
//!   index are such a condition.
//! - `unit_rounds` finds out what follows from few clauses without rows as long as there are atoms,
//!   and `cover` whether clauses are true in each state of a cube.
//!
//! No contract here speaks of formulas, their kinds or queries.
#![tactic(auto)]

mod buffers;
pub mod chase;
pub mod completion;
pub mod constraint;
pub mod cover;
pub mod effect;
pub mod falsified;
mod found_run;
pub mod literals;
pub mod propagation;
pub mod roots;
pub mod trail;
pub mod unit_rounds;
mod watched;

pub use completion::Completion;
pub use constraint::{BareClauses, Constraint};
pub use effect::ActionEffect;
pub use roots::Roots;
pub use trail::Assignment;
pub use unit_rounds::RoundsEnd;

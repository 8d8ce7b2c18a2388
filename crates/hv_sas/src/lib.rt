//! Planning tasks in finite-domain representation, as the translator of a planner writes them.
#![tactic(auto)]

pub mod fault;
mod forms;
pub mod laws;
pub mod listed;
pub mod read;
pub mod sas_task;
mod sound;
pub mod strips;

pub use fault::{SasFault, SasKind, SasLimit, SasRefusal, SasWhich};
pub use laws::laws_of_made_tasks;
pub use listed::Listed;
pub use read::read_sas;
pub use sas_task::{
    Effect, Effects, Fact, Facts, Names, Operators, Sas, SasOperator, SasVariable, Values,
    Variables,
};
pub use strips::to_strips;

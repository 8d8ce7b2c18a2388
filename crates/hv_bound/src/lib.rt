//! Cost bounds as tasks of their own, and plans: their files, their steps and their costs.
#![tactic(auto)]

pub mod bound;
pub mod fault;
pub mod laws;
mod long_actions;
pub mod plan_check;
pub mod plan_list;
pub mod read;

pub use bound::bounded;
pub use fault::{BoundFault, PlanFault};
pub use laws::{laws_of_cost_bounds, laws_of_plan_files};
pub use plan_check::{PlanAnswer, check_plan};
pub use plan_list::PlanList;
pub use read::read_plan;

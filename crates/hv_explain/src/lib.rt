//! Which lines of a proof its conclusion rests on.
#![tactic(auto)]

pub mod explained;
pub mod laws;
mod needed;

pub use explained::explain;
pub use laws::one_explanation;

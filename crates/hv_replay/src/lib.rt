//! Logs of a planner's search: they are read, and a closed one becomes a proof.
//!
//! The search of a log is followed before any line is written (`log_proof`), and the pruned states
//! are justified line by line afterwards (`pruned`): so the first hole is the first in the stated
//! order, whatever the pruners are. Which states are covered is a set in the definitions, and in
//! contracts that of the pruners that were handed in: some of them covers the state. A contract
//! can't speak of every set of states, so the law of first holes takes pruners too.
//!
//! A log is followed action by action (`leading`), by a store of explicit sets (`log_query`). Where
//! an action leads out, `leading` halves the log, and `open` asks the few entries that are left,
//! each by itself; `origin` has the states of which it is asked, and `hole` says why a log is no
//! proof. A log is read by `read`, line by line (`log_line`, `entries`, `log_counts`). `expanded`
//! lists the states of its proof, `closing` ends it, and `boxes` asks several pruners in order.
#![tactic(auto)]

mod boxes;
mod closing;
mod entries;
mod expanded;
pub mod fault;
pub mod hole;
pub mod laws;
mod leading;
pub mod log;
mod log_counts;
mod log_line;
pub mod log_proof;
mod log_query;
mod open;
mod origin;
mod pruned;
pub mod read;

pub use fault::{LogFault, LogLimit, LogRefusal};
pub use hole::ReplayFault;
pub use laws::{one_answer, one_first_hole, text_by_lines};
pub use log::Log;
pub use log_proof::replay;
pub use read::read_log;

//! Tests of lines, rules, verdicts and the checker, and of what writes and explains proofs. It has
//! tests alone.
#![tactic(auto)]

#[cfg(test)]
mod action_rows;
#[cfg(test)]
mod checker;
#[cfg(test)]
mod closed;
#[cfg(test)]
mod decide;
#[cfg(test)]
mod explain;
#[cfg(test)]
mod lines;
#[cfg(test)]
mod reach;
#[cfg(test)]
mod reach_proofs;
#[cfg(test)]
mod reach_pruners;
#[cfg(test)]
mod replay;
#[cfg(test)]
mod rules;
#[cfg(test)]
mod tables;
#[cfg(test)]
mod tasks;
#[cfg(test)]
mod trap;
#[cfg(test)]
mod trap_pruner;

//! Tests of each family of sets by itself. It has tests alone.
#![tactic(auto)]

#[cfg(test)]
mod diagrams;
#[cfg(test)]
mod dual_horn;
#[cfg(test)]
mod horn;
#[cfg(test)]
mod listed;
#[cfg(test)]
mod meeting_codes;
#[cfg(test)]
mod one_head;
#[cfg(test)]
mod sets;
#[cfg(test)]
mod three_atoms;
#[cfg(test)]
mod two_cnf;

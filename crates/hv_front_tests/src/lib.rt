//! Tests of what is beside the checker: translators' tasks, cost bounds and plans. It has tests
//! alone.
#![tactic(auto)]

#[cfg(test)]
mod bounds;
#[cfg(test)]
mod plans;
#[cfg(test)]
mod sas;
#[cfg(test)]
mod sound;
#[cfg(test)]
mod texts;

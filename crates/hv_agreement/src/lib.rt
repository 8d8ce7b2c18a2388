//! Tests across the families of sets. It has tests alone.
#![tactic(auto)]

#[cfg(test)]
mod cubes;
#[cfg(test)]
mod inclusions;
#[cfg(test)]
mod nodes;
#[cfg(test)]
mod operands;
#[cfg(test)]
mod queries;
#[cfg(test)]
mod tests;
#[cfg(test)]
mod three;
#[cfg(test)]
mod tuples;

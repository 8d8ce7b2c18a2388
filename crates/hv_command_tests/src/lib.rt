//! Tests of the whole product through its one call. It has tests alone.
#![tactic(auto)]

#[cfg(test)]
mod by_nodes;
#[cfg(test)]
mod check;
#[cfg(test)]
mod closed;
#[cfg(test)]
mod dual_horn;
#[cfg(test)]
mod explain;
#[cfg(test)]
mod failing;
#[cfg(test)]
mod fronts;
#[cfg(test)]
mod hostile;
#[cfg(test)]
mod orders;
#[cfg(test)]
mod produce;
#[cfg(test)]
mod pruners;
#[cfg(test)]
mod refusing;
#[cfg(test)]
mod replay;
#[cfg(test)]
mod sample;
#[cfg(test)]
mod short;
#[cfg(test)]
mod statements;
#[cfg(test)]
mod upgrade;
#[cfg(test)]
mod words;

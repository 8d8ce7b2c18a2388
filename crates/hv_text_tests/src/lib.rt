//! Tests of bytes, of tasks, and of the texts that are read and written. It has tests alone.
#![tactic(auto)]

#[cfg(test)]
mod bytes;
#[cfg(test)]
mod proof_text;
#[cfg(test)]
mod task;
#[cfg(test)]
mod task_text;
#[cfg(test)]
mod words;

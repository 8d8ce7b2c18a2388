//! The program: real files, words, exit status.
//!
//! Out of memory before the call of `run`, also while the words are read, is status 6; only words
//! that aren't text end with status 2 and nothing printed.
#![tactic(auto)]

mod faults;
mod file_shelf;
mod file_sink;
mod system_words;
#[cfg(test)]
mod tests;

use file_shelf::FileShelf;
use file_sink::FileSink;
use hv_command::{Status, Words, run};
use hv_lines::Pruner;
use hv_reach::{PairPruner, RelaxedPruner};
use hv_trap::TrapPruner;
use std::alloc::AllocError;
use std::process::ExitCode;
use system_words::words;

fn main(rt: HostRuntime) -> ExitCode {
    let status = match words(&rt) {
        Ok(words) => run_words(&rt, &words).unwrap_or(Status::Memory),
        Err(status) => status,
    };
    ExitCode::from(status.number())
}

// Runs the words on the system's files, with three pruners, in the order in which a replay asks
// them. It is an error only where there is no memory for them.
fn run_words(rt: &HostRuntime, words: &Words) -> Result<Status, AllocError> {
    let alloc = rt.alloc();
    let mut pruners: Vec<Box<dyn Pruner>> = Vec::new(alloc);
    pruners.push(Box::new(alloc, RelaxedPruner::new(alloc))?)?;
    pruners.push(Box::new(alloc, PairPruner::new(alloc))?)?;
    pruners.push(Box::new(alloc, TrapPruner::new(alloc))?)?;
    let (mut shelf, mut sink) = (FileShelf::new(rt), FileSink::new(rt));
    Ok(run(alloc, words, &mut shelf, &mut sink, pruners))
}

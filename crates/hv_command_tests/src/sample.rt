//! Samples.

use crate::short::{is_done, is_text, told};
use hv_bytes::Text;
use hv_command::sample_task;
use hv_task_text::write_task;
use std::alloc::{AllocError, Global};
use std::process::Abort;

// The words, and what they tell.
static ROWS: [(&str, &str); 2] = [
    (
        "sample 3",
        concat!(
            "0 atoms 4/actions 3/relaxed clauses 1 lines 16 unsolvable/",
            "pairs clauses 7 lines 16 unsolvable/done"
        ),
    ),
    (
        "sample 64",
        concat!(
            "0 atoms 65/actions 64/relaxed clauses 1 lines 16 unsolvable/",
            "pairs clauses 2081 lines 16 unsolvable/done"
        ),
    ),
];

fn tells(alloc: Global, words: &str, answer: &str) -> Result<bool, AllocError> {
    let told = told(alloc, words, b"", b"")?;
    is_text(alloc, told.as_slice(), answer)
}

/// The text of the sample of 64 rooms.
pub(crate) fn rooms_text(alloc: Global) -> Result<Text, AllocError> {
    let task = sample_task(alloc, 64)?;
    write_task(alloc, &task)
}

// Whether `check` accepts what was said as a proof of the task.
fn is_accepted(alloc: Global, task: &[u8], told: &[u8]) -> Result<bool, AllocError> {
    let proof = told.strip_prefix(b"0 ").unwrap_or(b"");
    is_done(alloc, "check task proof", task, proof)
}

// How many lines were written.
fn count_lines(written: &[u8]) -> usize {
    written.iter().filter(|byte| **byte == b'\n').count()
}

// Whether the proof that these words write of the task has 16 lines and is accepted.
fn is_proved(alloc: Global, words: &str, task: &[u8]) -> Result<bool, AllocError> {
    let written = told(alloc, words, task, b"")?;
    let has_lines = count_lines(written.as_slice()) == 16;
    Ok(has_lines & is_accepted(alloc, task, written.as_slice())?)
}

// The same for both proofs of the sample.
fn are_proved(alloc: Global) -> Result<bool, AllocError> {
    let task = rooms_text(alloc)?;
    let relaxed = is_proved(alloc, "produce relaxed task", task.as_bytes())?;
    let pairs = is_proved(alloc, "produce pairs task", task.as_bytes())?;
    Ok(relaxed & pairs)
}

// Asserts that each of these words tell their answer.
fn all_samples(rt: &impl Abort, alloc: Global, rows: &[(&str, &str)]) {
    for (words, answer) in rows {
        assert!(rt; tells(alloc, words, answer) == Ok(true), "{words}");
    }
}

#[test]
fn tells_of_the_proofs_for_a_sample(rt: HostRuntime) {
    all_samples(&rt, rt.alloc(), &ROWS);
    assert!(rt; are_proved(rt.alloc()) == Ok(true));
}

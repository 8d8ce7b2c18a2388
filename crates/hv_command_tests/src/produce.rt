//! Proofs that are written.

use crate::short::{
    GOAL_AT_THE_START, KEY_TASK, ONE_OF_TWO, THREE_WISHES, is_done, is_text, put_names, tells,
    told, written,
};
use std::alloc::{AllocError, Global};
use std::process::Abort;

// What `produce` writes of this kind of proof of a task.
fn produced(alloc: Global, kind: &str, task: &[u8]) -> Result<Vec<u8>, AllocError> {
    let words = format!(in alloc; "produce {kind} task")?;
    told(alloc, words.as_str(), task, b"")
}

// Whether `check` accepts this proof of a task within the budget.
fn is_accepted(
    alloc: Global,
    task: &[u8],
    told_proof: &[u8],
    budget: u32,
) -> Result<bool, AllocError> {
    let words = format!(in alloc; "check task proof --budget {budget}")?;
    let proof = told_proof.strip_prefix(b"0 ").unwrap_or(b"");
    is_done(alloc, words.as_str(), task, proof)
}

// Whether what was said is a proof that is accepted within the budget, and within no smaller one.
fn costs(alloc: Global, task: &[u8], told: &[u8], budget: u32) -> Result<bool, AllocError> {
    let within = is_accepted(alloc, task, told, budget)?;
    let below = budget > 1 && is_accepted(alloc, task, told, budget.saturating_sub(1))?;
    Ok(within & !below)
}

// Whether the proof of this kind costs so much.
fn produced_costs(alloc: Global, kind: &str, task: &[u8], budget: u32) -> Result<bool, AllocError> {
    let told = produced(alloc, kind, task)?;
    costs(alloc, task, told.as_slice(), budget)
}

// Whether the proof of this kind is this one.
fn is_produced(alloc: Global, kind: &str, task: &[u8], proof: &str) -> Result<bool, AllocError> {
    let told = produced(alloc, kind, task)?;
    is_text(alloc, told.as_slice(), proof)
}

// Both of these.
fn is_dear_proof(
    alloc: Global,
    kind: &str,
    task: &[u8],
    proof: &str,
    budget: u32,
) -> Result<bool, AllocError> {
    let dear = produced_costs(alloc, kind, task, budget)?;
    let same = is_produced(alloc, kind, task, proof)?;
    Ok(dear & same)
}

// Whether the proof of this kind is this one, and its dearest query costs so much.
fn is_proof(
    alloc: Global,
    kind: &str,
    task: &str,
    proof: &str,
    budget: u32,
) -> Result<bool, AllocError> {
    let task = written(alloc, task)?;
    is_dear_proof(alloc, kind, task.as_slice(), proof, budget)
}

// A kind, a task, the proof, and what its dearest query costs. A state that lacks one of the three
// wishes leads to such states alone.
static PROOFS: [(&str, &str, &str, u32); 3] = [
    (
        "relaxed",
        KEY_TASK,
        concat!(
            "0 @e 3 h 1 -3 0/e 4 p 3 0/e 5 u 3 0/e 6 i 3 2/k 1 s 4 5 b2/k 2 s 6 0 b1/",
            "k 3 d 6 sd 2 0/k 4 d 3 pg 1 0 3/k 5 s 1 3 b1/k 6 d 1 sd 5 4/k 7 u ci 6"
        ),
        1,
    ),
    (
        "pairs",
        ONE_OF_TWO,
        concat!(
            "0 @e 3 h 1 -1 -2 0/e 4 p 3 0/e 5 u 3 0/e 6 i 3 2/k 1 s 4 5 b2/k 2 s 6 0 b1/",
            "k 3 d 6 sd 2 0/k 4 d 3 pg 1 0 3/k 5 s 1 3 b1/k 6 d 1 sd 5 4/k 7 u ci 6"
        ),
        1,
    ),
    (
        "trap",
        THREE_WISHES,
        concat!(
            "0 @e 3 t 12 1 0 2 0 3 0 1 2 0 1 -2 0 -1 2 0 1 3 0 1 -3 0 -1 3 0 2 3 0 2 -3 0 -2 3 0/",
            "e 4 n 3/e 5 r 3 0/e 6 u 3 0/e 7 i 4 2/k 1 s 5 6 b3/k 2 s 7 0 b1/k 3 d 7 sd 2 0/",
            "k 4 d 4 rg 1 0 3/k 5 s 1 4 b1/k 6 d 1 sd 5 4/k 7 u ci 6"
        ),
        12,
    ),
];

// A kind and a task of which no such proof is written, and what is said.
static REFUSED: [(&str, &str, &str); 5] = [
    ("relaxed", GOAL_AT_THE_START, "1 no proof"),
    ("relaxed", ONE_OF_TWO, "1 no proof"),
    ("pairs", THREE_WISHES, "1 no proof"),
    ("trap", GOAL_AT_THE_START, "1 no proof"),
    ("pairs", "begin_atoms:70000/", "3 task line 1: limit atoms"),
];

fn is_refused(alloc: Global, kind: &str, task: &str, answer: &str) -> Result<bool, AllocError> {
    let words = format!(in alloc; "produce {kind} task")?;
    tells(alloc, words.as_str(), task, "", answer)
}

// Asserts that each of these proofs is written.
fn all_written(rt: &impl Abort, alloc: Global, rows: &[(&str, &str, &str, u32)]) {
    for (kind, task, proof, budget) in rows {
        assert!(rt;
            is_proof(alloc, kind, task, proof, *budget) == Ok(true),
            "{kind}"
        );
    }
}

// Asserts that none of these is.
fn all_refused(rt: &impl Abort, alloc: Global, rows: &[(&str, &str, &str)]) {
    for (kind, task, answer) in rows {
        assert!(rt;
            is_refused(alloc, kind, task, answer) == Ok(true),
            "{kind}, {task}"
        );
    }
}

#[test]
fn writes_proofs_where_the_goal_is_excluded(rt: HostRuntime) {
    all_written(&rt, rt.alloc(), &PROOFS);
    all_refused(&rt, rt.alloc(), &REFUSED);
}

// Puts a task of so many atoms without actions last, whose goal is the first atom.
fn put_wide_task(task: &mut String, atoms: u32) -> Result<(), AllocError> {
    write!(task, "begin_atoms:{atoms}/")?;
    put_names(task, atoms)?;
    task.push_str("end_atoms/begin_init/end_init/begin_goal/0/end_goal/")?;
    task.push_str("begin_actions:0/end_actions/")
}

// This task. A formula that denies all of its atoms has a clause each.
fn wide_task(alloc: Global, atoms: u32) -> Result<String, AllocError> {
    let mut task = String::new(alloc);
    put_wide_task(&mut task, atoms)?;
    Ok(task)
}

fn is_too_wide(alloc: Global, kind: &str, atoms: u32) -> Result<bool, AllocError> {
    let task = wide_task(alloc, atoms)?;
    is_refused(alloc, kind, task.as_str(), "1 too many atoms")
}

// Whether the relaxed proof of a task in short form costs so much.
fn relaxed_costs(alloc: Global, task: &str, budget: u32) -> Result<bool, AllocError> {
    let task = written(alloc, task)?;
    produced_costs(alloc, "relaxed", task.as_slice(), budget)
}

fn wide_proof_costs(alloc: Global, atoms: u32, budget: u32) -> Result<bool, AllocError> {
    let task = wide_task(alloc, atoms)?;
    relaxed_costs(alloc, task.as_str(), budget)
}

#[test]
fn kinds_are_looked_for_among_so_many_atoms(rt: HostRuntime) {
    assert!(rt; is_too_wide(rt.alloc(), "trap", 65) == Ok(true));
    assert!(rt; is_too_wide(rt.alloc(), "pairs", 1025) == Ok(true));
    assert!(rt; wide_proof_costs(rt.alloc(), 1025, 1025) == Ok(true));
}

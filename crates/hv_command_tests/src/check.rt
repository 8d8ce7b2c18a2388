//! The worked examples of the formats, and faults of the devices.

use crate::short::{
    Files, GOAL_AT_THE_START, KEY_TASK, all_told, is_done, tells, told, told_with_fault, written,
};
use hv_command::Status;
use std::alloc::{AllocError, Global};
use std::process::Abort;

const CHECK: &str = "check task proof";

// The explicit proof of two states.
const TWO_STATES: &str = "@e 3 x 2 0 ; 1 ;/%";

// Proofs for the key task.
static PROOFS: [(&str, &str); 21] = [
    ("@e 3 x 2 0 ; 1 ;/%", "0 unsolvable"),
    ("@", "1 no conclusion"),
    (
        "@e 3 x 2 0 ; 1 ;/e 4 p 3 0/e 5 u 3 0/e 6 i 3 2/k 1 s 4 5 b2/k 2 s 6 0 b1/",
        "1 no conclusion",
    ),
    ("@e 3 x 1 0 ;/%", "1 line 10: false action 0 state 0 ;"),
    (
        concat!(
            "# made by hand//@e 3 x 2 0 ; 1 ;/e 4 p 3 0/e 5 u 3 0/e 6 i 3 2/k 1 s 4 5 b2/",
            "k 2 s 6 0 b1/k 3 d 6 sd 2 0/k 4 d 3 pg 1 0 3/k 5 s 1 3 b1/k 6 d 1 sd 5 4/k 7 u ci 6"
        ),
        "0 unsolvable",
    ),
    (
        "# made by hand//@e 3 x 1 0 ;/%",
        "1 line 12: false action 0 state 0 ;",
    ),
    ("@e 3 h 1 -3 0/%", "0 unsolvable"),
    (
        "a 0 b 2 0 1/e 0 c e/e 1 c i/e 2 c g/k 0 d 0 ed/e 3 x 2 0 ; 1 ;/%",
        "1 line 13: rule",
    ),
    ("a 0 b 1 0/a 1 u 0 0/a 2 b 2 1 0/", "1 line 3: grammar"),
    ("a 0 b 1 0/a 1 u 0 0/a 2 b 1 2/", "1 line 3: unknown"),
    ("e 0 h 1 -3/", "1 line 1: grammar"),
    ("e 0 c e\r/", "1 line 1: grammar"),
    ("a 0 a/e 0 c e/k 0 d 0 sd 0 0/", "1 line 3: unknown"),
    ("e 1 c e/", "1 line 1: number"),
    (
        "@e 3 x 2 0 ; 1 ;/%k 8 s 1 0 b1/",
        "1 line 17: false state 0 ;",
    ),
    (
        "@e 3 x 1 0 ;/e 4 p 2 0/k 1 s 4 3 b2/",
        "1 line 8: not offered",
    ),
    ("@e 3 x 1 3 ;/", "1 line 6: unknown"),
    ("@e 3 h 1 1 2 0/", "1 line 6: family"),
    ("@e 3 t 1 1 2 0/e 4 p 3 0/k 1 s 4 3 b1/", "1 line 8: shape"),
    ("a 0 a/a 1 b 1 1/k 0 a 0 1 b5/", "1 line 3: false action 0"),
    ("", "1 no conclusion"),
];

// For each derivation rule a line that it fits, and lines with one letter wrong.
static RULES: [(&str, &str); 65] = [
    ("@", "1 no conclusion"),
    ("@k 1 d 1 ed/", "1 line 6: rule"),
    ("@k 1 d 2 ed/", "1 line 6: rule"),
    ("@e 3 u 0 0/k 1 d 3 ud 0 0/", "1 no conclusion"),
    ("@e 3 u 0 1/k 1 d 3 ud 0 0/", "1 line 7: rule"),
    ("@e 3 u 0 0/k 1 d 0 ud 0 0/", "1 line 7: rule"),
    ("@e 3 i 0 1/k 1 s 3 0 ir/k 2 d 3 sd 1 0/", "1 no conclusion"),
    ("@e 3 i 0 1/k 1 s 3 0 ir/k 2 d 1 sd 1 0/", "1 line 8: rule"),
    ("@e 3 i 0 1/k 1 s 3 0 ir/k 2 d 3 sd 0 1/", "1 line 8: rule"),
    ("@e 3 u 0 1/k 1 s 0 3 ur/", "1 no conclusion"),
    ("@e 3 u 0 1/k 1 s 1 3 ur/", "1 line 7: rule"),
    ("@e 3 u 0 1/k 1 s 0 1 ur/", "1 line 7: rule"),
    ("@e 3 u 0 1/k 1 s 1 3 ul/", "1 no conclusion"),
    ("@e 3 u 0 1/k 1 s 0 3 ul/", "1 line 7: rule"),
    ("@e 3 u 0 1/k 1 s 1 0 ul/", "1 line 7: rule"),
    ("@e 3 i 0 1/k 1 s 3 0 ir/", "1 no conclusion"),
    ("@e 3 i 0 1/k 1 s 3 1 ir/", "1 line 7: rule"),
    ("@e 3 i 0 1/k 1 s 0 0 ir/", "1 line 7: rule"),
    ("@e 3 i 0 1/k 1 s 3 1 il/", "1 no conclusion"),
    ("@e 3 i 0 1/k 1 s 3 0 il/", "1 line 7: rule"),
    ("@e 3 i 0 1/k 1 s 1 1 il/", "1 line 7: rule"),
    (
        "@e 3 u 0 1/e 4 i 3 2/e 5 i 0 2/e 6 i 1 2/e 7 u 5 6/k 1 s 4 7 di/",
        "1 no conclusion",
    ),
    (
        "@e 3 u 0 1/e 4 i 3 2/e 5 i 0 2/e 6 i 1 2/e 7 u 6 5/k 1 s 4 7 di/",
        "1 line 11: rule",
    ),
    (
        "@e 3 u 0 1/e 4 i 3 2/e 5 i 0 2/e 6 i 1 0/e 7 u 5 6/k 1 s 4 7 di/",
        "1 line 11: rule",
    ),
    (
        "@e 3 u 0 1/k 1 s 0 3 ur/k 2 s 1 3 ul/k 3 s 3 3 su 1 2/",
        "1 no conclusion",
    ),
    (
        "@e 3 u 0 1/k 1 s 0 3 ur/k 2 s 1 3 ul/k 3 s 3 3 su 2 1/",
        "1 line 9: rule",
    ),
    (
        "@e 3 u 0 1/k 1 s 0 3 ur/k 2 s 1 3 ul/k 3 s 0 3 su 1 2/",
        "1 line 9: rule",
    ),
    (
        "@e 3 i 0 1/k 1 s 3 0 ir/k 2 s 3 1 il/k 3 s 3 3 si 1 2/",
        "1 no conclusion",
    ),
    (
        "@e 3 i 0 1/k 1 s 3 0 ir/k 2 s 3 1 il/k 3 s 3 3 si 2 1/",
        "1 line 9: rule",
    ),
    (
        "@e 3 i 0 1/k 1 s 3 0 ir/k 2 s 3 1 il/k 3 s 3 0 si 1 2/",
        "1 line 9: rule",
    ),
    (
        "@e 3 u 0 1/e 4 u 3 2/k 1 s 0 3 ur/k 2 s 3 4 ur/k 3 s 0 4 st 1 2/",
        "1 no conclusion",
    ),
    (
        "@e 3 u 0 1/e 4 u 3 2/k 1 s 0 3 ur/k 2 s 3 4 ur/k 3 s 0 4 st 2 1/",
        "1 line 10: rule",
    ),
    (
        "@e 3 u 0 1/e 4 u 3 2/k 1 s 0 3 ur/k 2 s 3 4 ur/k 3 s 0 3 st 1 2/",
        "1 line 10: rule",
    ),
    (
        concat!(
            "@a 1 b 1 0/a 2 b 1 1/a 3 u 1 2/e 3 x 0/e 4 p 0 1/e 5 p 0 2/e 6 p 0 3/k 1 s 4 3 b2/",
            "k 2 s 5 3 b2/k 3 s 6 3 au 1 2/"
        ),
        "1 no conclusion",
    ),
    (
        concat!(
            "@a 1 b 1 0/a 2 b 1 1/a 3 u 1 2/e 3 x 0/e 4 p 0 1/e 5 p 0 2/e 6 p 0 3/k 1 s 4 3 b2/",
            "k 2 s 5 3 b2/k 3 s 6 3 au 2 1/"
        ),
        "1 line 15: rule",
    ),
    (
        concat!(
            "@a 1 b 1 0/a 2 b 1 1/a 3 u 1 2/e 3 x 0/e 4 p 0 1/e 5 p 0 2/e 6 p 0 3/k 1 s 4 3 b2/",
            "k 2 s 5 3 b2/k 3 s 4 3 au 1 2/"
        ),
        "1 line 15: rule",
    ),
    (
        "@e 3 x 0/e 4 p 3 0/e 5 p 0 0/k 1 s 4 3 b2/k 2 s 0 3 b1/k 3 s 5 3 pt 1 2/",
        "1 no conclusion",
    ),
    (
        "@e 3 x 0/e 4 p 3 0/e 5 p 0 0/k 1 s 4 3 b2/k 2 s 0 3 b1/k 3 s 5 3 pt 2 1/",
        "1 line 11: rule",
    ),
    (
        "@e 3 x 0/e 4 p 3 0/e 5 p 0 0/k 1 s 4 3 b2/k 2 s 0 3 b1/k 3 s 4 3 pt 1 2/",
        "1 line 11: rule",
    ),
    (
        concat!(
            "@e 3 x 0/e 4 u 0 3/e 5 p 0 0/e 6 p 3 0/e 7 p 4 0/k 1 s 5 3 b2/k 2 s 6 3 b2/",
            "k 3 s 7 3 pu 1 2/"
        ),
        "1 no conclusion",
    ),
    (
        concat!(
            "@e 3 x 0/e 4 u 0 3/e 5 p 0 0/e 6 p 3 0/e 7 p 4 0/k 1 s 5 3 b2/k 2 s 6 3 b2/",
            "k 3 s 7 3 pu 2 1/"
        ),
        "1 line 13: rule",
    ),
    (
        concat!(
            "@e 3 x 0/e 4 u 0 3/e 5 p 0 0/e 6 p 3 0/e 7 p 4 0/k 1 s 5 3 b2/k 2 s 6 3 b2/",
            "k 3 s 5 3 pu 1 2/"
        ),
        "1 line 13: rule",
    ),
    (
        "@e 3 x 0/e 4 p 3 0/e 5 n 3/e 6 r 5 0/k 1 s 4 3 b2/k 2 s 6 5 pr 1/",
        "1 no conclusion",
    ),
    (
        "@e 3 x 0/e 4 p 3 0/e 5 n 3/e 6 r 5 0/k 1 s 4 3 b2/k 2 s 5 5 pr 1/",
        "1 line 11: rule",
    ),
    (
        "@e 3 x 0/e 4 p 3 0/e 5 n 3/e 6 r 5 0/k 1 s 4 3 b2/k 2 s 6 3 pr 1/",
        "1 line 11: rule",
    ),
    (
        "@e 3 x 0/e 4 p 3 0/e 5 n 3/e 6 r 5 0/k 1 s 4 3 b2/k 2 s 6 5 pr 1/k 3 s 4 3 rp 2/",
        "1 no conclusion",
    ),
    (
        "@e 3 x 0/e 4 p 3 0/e 5 n 3/e 6 r 5 0/k 1 s 4 3 b2/k 2 s 6 5 pr 1/k 3 s 4 3 rp 1/",
        "1 line 12: rule",
    ),
    (
        "@e 3 x 0/e 4 p 3 0/e 5 n 3/e 6 r 5 0/k 1 s 4 3 b2/k 2 s 6 5 pr 1/k 3 s 3 3 rp 2/",
        "1 line 12: rule",
    ),
    (
        concat!(
            "@e 3 x 2 0 ; 1 ;/e 4 p 3 0/e 5 u 3 0/e 6 i 3 2/k 1 s 4 5 b2/k 2 s 6 0 b1/",
            "k 3 d 6 sd 2 0/k 4 d 3 pg 1 0 3/"
        ),
        "1 no conclusion",
    ),
    (
        concat!(
            "@e 3 x 2 0 ; 1 ;/e 4 p 3 0/e 5 u 3 0/e 6 i 3 2/k 1 s 4 5 b2/k 2 s 6 0 b1/",
            "k 3 d 6 sd 2 0/k 4 d 3 pg 1 3 0/"
        ),
        "1 line 13: rule",
    ),
    (
        concat!(
            "@e 3 x 2 0 ; 1 ;/e 4 p 3 0/e 5 u 3 0/e 6 i 3 2/k 1 s 4 5 b2/k 2 s 6 0 b1/",
            "k 3 d 6 sd 2 0/k 4 d 6 pg 1 0 3/"
        ),
        "1 line 13: rule",
    ),
    (
        "@e 3 x 2 0 ; 1 ;/e 4 p 3 0/e 5 u 3 0/e 6 n 3/k 1 s 4 5 b2/k 2 s 1 3 b1/k 3 d 6 pi 1 0 2/",
        "1 no conclusion",
    ),
    (
        "@e 3 x 2 0 ; 1 ;/e 4 p 3 0/e 5 u 3 0/e 6 n 3/k 1 s 4 5 b2/k 2 s 1 3 b1/k 3 d 6 pi 2 0 1/",
        "1 line 12: rule",
    ),
    (
        "@e 3 x 2 0 ; 1 ;/e 4 p 3 0/e 5 u 3 0/e 6 n 3/k 1 s 4 5 b2/k 2 s 1 3 b1/k 3 d 3 pi 1 0 2/",
        "1 line 12: rule",
    ),
    ("@e 3 x 2 0 ; 1 ;/%", "0 unsolvable"),
    (
        concat!(
            "@e 3 x 2 0 ; 1 ;/e 4 p 3 0/e 5 u 3 0/e 6 i 3 2/k 1 s 4 5 b2/k 2 s 6 0 b1/",
            "k 3 d 6 sd 2 0/k 4 d 3 pg 1 0 3/k 5 s 1 3 b1/k 6 d 1 sd 5 4/k 7 u ci 4/"
        ),
        "1 line 16: rule",
    ),
    (
        concat!(
            "@e 3 x 2 0 ; 1 ;/e 4 p 3 0/e 5 u 3 0/e 6 i 3 2/k 1 s 4 5 b2/k 2 s 6 0 b1/",
            "k 3 d 6 sd 2 0/k 4 d 3 pg 1 0 3/k 5 s 1 3 b1/k 6 d 1 sd 5 4/k 7 u ci 5/"
        ),
        "1 line 16: rule",
    ),
    (
        "@e 3 x 0/e 4 p 3 0/k 1 s 4 3 b2/k 2 s 4 3 at 1 1/",
        "1 line 9: rule",
    ),
    (
        "@e 3 x 0/e 4 p 3 0/k 1 s 4 3 b2/k 2 s 4 3 at 0 1/",
        "1 line 9: rule",
    ),
    ("@e 3 n 0/k 1 d 3 rg 0 0 0/", "1 line 7: rule"),
    ("@k 1 d 0 rg 0 0 0/", "1 line 6: rule"),
    ("@k 1 d 0 ri 0 0 0/", "1 line 6: rule"),
    ("@k 1 d 1 ri 0 0 0/", "1 line 6: rule"),
    ("@k 1 u cg 0/", "1 line 6: rule"),
    (
        "@e 3 i 0 2/k 1 s 3 0 ir/k 2 d 3 sd 1 0/k 3 u cg 2/",
        "1 line 9: rule",
    ),
];

// Task texts, read with the explicit proof.
static TASKS: [(&str, &str); 6] = [
    (
        concat!(
            "begin_atoms:3/Atom at(r, a)/Atom at(r, b)/Atom have(key)/end_atoms/begin_init/3/",
            "end_init/begin_goal/2/end_goal/begin_actions:2/begin_action/go a b/cost:1/PRE:0/",
            "ADD:1/DEL:0/end_action/begin_action/go b a/cost:1/PRE:1/ADD:0/DEL:1/end_action/",
            "end_actions/"
        ),
        "3 task line 7: place init_atom",
    ),
    (
        concat!(
            "begin_atoms:3/Atom at(r, a)/Atom at(r, b)/Atom have(key)/end_atoms/begin_init/0/",
            "end_init/begin_goal/2/end_goal/begin_actions:2/begin_action/go a b/"
        ),
        "3 task line 15: place cost",
    ),
    (
        concat!(
            "begin_atoms:3/Atom at(r, a)/Atom at(r, b)/Atom have(key)/end_atoms/begin_init/0/",
            "end_init/begin_goal/2/end_goal/begin_actions:2/begin_action/go a b/cost:1/PRE:00/",
            "ADD:1/DEL:0/end_action/begin_action/go b a/cost:1/PRE:1/ADD:0/DEL:1/end_action/",
            "end_actions/"
        ),
        "3 task line 16: place action_line",
    ),
    (
        concat!(
            "begin_atoms:70000/Atom at(r, a)/Atom at(r, b)/Atom have(key)/end_atoms/begin_init/0/",
            "end_init/begin_goal/2/end_goal/begin_actions:2/begin_action/go a b/cost:1/PRE:0/",
            "ADD:1/DEL:0/end_action/begin_action/go b a/cost:1/PRE:1/ADD:0/DEL:1/end_action/",
            "end_actions/"
        ),
        "3 task line 1: limit atoms",
    ),
    (
        concat!(
            "begin_atoms:3/Atom at(r, a)/Atom at(r, b)/Atom have(key)/end_atoms/begin_init/0/0/",
            "end_init/begin_goal/2/end_goal/begin_actions:2/begin_action/go a b/cost:1/PRE:0/",
            "ADD:1/DEL:0/end_action/begin_action/go b a/cost:1/PRE:1/ADD:0/DEL:1/end_action/",
            "end_actions/"
        ),
        "0 unsolvable",
    ),
    ("", "3 task line 1: place begin_atoms"),
];

// Proofs over 130 atoms and 71 actions with a false statement that has one counterexample. Of lists
// of actions it is the least action.
static CLASHES: [(&str, &str); 5] = [
    (
        "e 0 c e/e 1 x 1 63 64 129 ;/k 0 s 1 0 b1/",
        "1 line 3: false state 63 64 129 ;",
    ),
    ("e 0 c e/e 1 x 1 ;/k 0 s 1 0 b1/", "1 line 3: false state ;"),
    (
        "a 0 a/e 0 x 1 ;/e 1 p 0 0/k 0 s 1 0 b2/",
        "1 line 4: false action 70 state ;",
    ),
    ("a 0 a/a 1 b 1 3/k 0 a 0 1 b5/", "1 line 3: false action 0"),
    (
        "a 0 b 2 3 70/a 1 b 1 3/k 0 a 0 1 b5/",
        "1 line 3: false action 70",
    ),
];

// A proof for a task whose goal holds at the start, and the answer to it.
static WITHOUT_GOAL: [(&str, &str); 1] = [(
    "a 0 a/e 0 c e/e 1 c i/k 0 d 0 ed/k 1 d 1 sd 0 0/k 2 u ci 1/",
    "1 line 5: rule",
)];

// No proof, and the answer to it.
static WITHOUT_PROOF: [(&str, &str); 1] = [("", "1 no conclusion")];

// A task without goal and actions.
const NOTHING_ASKED: &str = concat!(
    "begin_atoms:1/x/end_atoms/begin_init/end_init/begin_goal/end_goal/",
    "begin_actions:0/end_actions/"
);

// Asserts that the proofs are answered.
fn all_proofs(rt: &impl Abort, alloc: Global) {
    all_told(rt, alloc, CHECK, KEY_TASK, &PROOFS);
}

// Asserts that the lines of each rule are.
fn all_rules(rt: &impl Abort, alloc: Global) {
    all_told(rt, alloc, CHECK, KEY_TASK, &RULES);
}

#[test]
fn judges_proofs_of_the_key_task(rt: HostRuntime) {
    all_proofs(&rt, rt.alloc());
    all_rules(&rt, rt.alloc());
}

// Asserts that `check` of the explicit proof tells of each task its answer.
fn all_read(rt: &impl Abort, alloc: Global, rows: &[(&str, &str)]) {
    for (task, answer) in rows {
        assert!(rt;
            tells(alloc, CHECK, task, TWO_STATES, answer) == Ok(true),
            "{task}"
        );
    }
}

#[test]
fn judges_other_tasks(rt: HostRuntime) {
    all_read(&rt, rt.alloc(), &TASKS);
    all_told(&rt, rt.alloc(), CHECK, GOAL_AT_THE_START, &WITHOUT_GOAL);
    all_told(&rt, rt.alloc(), CHECK, NOTHING_ASKED, &WITHOUT_PROOF);
}

// Whether `check` tells a fault of the task.
fn is_bad(alloc: Global, task: &[u8], proof: &[u8]) -> Result<bool, AllocError> {
    let told = told(alloc, CHECK, task, proof)?;
    Ok(told.as_slice().starts_with(b"3 task line "))
}

// Whether this part of the proof is judged so: it shows that the task is unsolvable, or is refused.
fn is_part_judged(
    alloc: Global,
    task: &[u8],
    proof: &[u8],
    whole: bool,
) -> Result<bool, AllocError> {
    let told = told(alloc, CHECK, task, proof)?;
    let done = told.as_slice() == b"0 unsolvable\n".as_slice();
    let refused = told.as_slice().starts_with(b"1 ");
    Ok((done == whole) & (refused != whole))
}

/// Whether only the whole proof, and the whole without its last LF, shows that the task is
/// unsolvable, and every other part is refused.
pub(crate) fn needs_the_proof(
    alloc: Global,
    task: &[u8],
    proof: &[u8],
) -> Result<bool, AllocError> {
    let mut right = true;
    for end in 0..proof.len() + 1 {
        right &= is_part_judged(alloc, task, &proof[..end], end + 1 >= proof.len())?;
    }
    Ok(right)
}

// Whether this part of the task is read, or not.
fn is_part_read(alloc: Global, task: &[u8], proof: &[u8], read: bool) -> Result<bool, AllocError> {
    let done = is_done(alloc, CHECK, task, proof)?;
    let bad = is_bad(alloc, task, proof)?;
    Ok((done == read) & (bad != read))
}

// Whether only the whole task, and the whole without its last LF, is read.
fn needs_the_task(alloc: Global, task: &[u8], proof: &[u8]) -> Result<bool, AllocError> {
    let mut right = true;
    for end in 0..task.len() + 1 {
        right &= is_part_read(alloc, &task[..end], proof, end + 1 >= task.len())?;
    }
    Ok(right)
}

// The first of these for the key task and its explicit proof.
fn key_task_needs_the_proof(alloc: Global) -> Result<bool, AllocError> {
    let task = written(alloc, KEY_TASK)?;
    let proof = written(alloc, TWO_STATES)?;
    needs_the_proof(alloc, task.as_slice(), proof.as_slice())
}

// The second of these for the same files.
fn its_proof_needs_the_task(alloc: Global) -> Result<bool, AllocError> {
    let task = written(alloc, KEY_TASK)?;
    let proof = written(alloc, TWO_STATES)?;
    needs_the_task(alloc, task.as_slice(), proof.as_slice())
}

#[test]
fn needs_the_whole_files(rt: HostRuntime) {
    assert!(rt; key_task_needs_the_proof(rt.alloc()) == Ok(true));
    assert!(rt; its_proof_needs_the_task(rt.alloc()) == Ok(true));
}

// Puts so many copies of this text last.
fn put_copies(text: &mut String, copies: u32, copy: &str) -> Result<(), AllocError> {
    for _copy in 0..copies {
        text.push_str(copy)?;
    }
    Ok(())
}

// What `check` tells of the key task and this proof where the call of this number fails.
fn told_failing_call(alloc: Global, proof: &[u8], call: u64) -> Result<Vec<u8>, AllocError> {
    let task = written(alloc, KEY_TASK)?;
    let task = task.as_slice();
    let files = Files {
        task,
        proof,
        nodes: b"",
    };
    told_with_fault(alloc, CHECK, files, call, 0)
}

// Whether it tells exactly this of a proof whose first line is refused; the rest are comments.
fn early_tells(alloc: Global, call: u64, text: &[u8]) -> Result<bool, AllocError> {
    let mut proof = String::from_str(alloc, "e 1 c e\n")?;
    put_copies(&mut proof, 1000, "# x\n")?;
    let told = told_failing_call(alloc, proof.as_bytes(), call)?;
    Ok(told.as_slice() == text)
}

// The task takes an open, 36 reads that give bytes and one that gives none; the proof is opened
// and read twice, which brings the eight bytes of its first line, and no further.
#[test]
fn reads_no_further_than_the_refused_line(rt: HostRuntime) {
    assert!(rt; early_tells(rt.alloc(), 1 + 36 + 1 + 3, b"4 ") == Ok(true));
    assert!(rt; early_tells(rt.alloc(), 1 + 36 + 1 + 4, b"1 line 1: number\n") == Ok(true));
}

// Whether `check` alone tells how the program is called.
fn tells_usage(alloc: Global) -> Result<bool, AllocError> {
    let told = told(alloc, "check", b"", b"")?;
    Ok(told.as_slice() == b"2 usage: helve COMMAND ARGUMENTS\n".as_slice())
}

#[test]
fn tells_words_that_are_no_job(rt: HostRuntime) {
    assert!(rt; tells_usage(rt.alloc()) == Ok(true));
}

static STATUSES: [Status; 7] = [
    Status::Done,
    Status::Refused,
    Status::Usage,
    Status::BadInput,
    Status::ReadFault,
    Status::WriteFault,
    Status::Memory,
];

#[test]
fn numbers_the_statuses(rt: HostRuntime) {
    for (number, status) in STATUSES.iter().enumerate() {
        assert_eq!(rt; status.number() as usize, number);
    }
}

// Puts a task of 130 atoms and 71 actions last, of which number 70 alone changes a state: it adds
// atom 0.
fn put_wide_task(task: &mut String) -> Result<(), AllocError> {
    task.push_str("begin_atoms:130/")?;
    put_copies(task, 130, "x/")?;
    task.push_str("end_atoms/begin_init/end_init/begin_goal/1/end_goal/begin_actions:71/")?;
    put_copies(task, 70, "begin_action/none/cost:1/end_action/")?;
    task.push_str("begin_action/one/cost:1/ADD:0/end_action/end_actions/")
}

// This task.
fn wide_task(alloc: Global) -> Result<String, AllocError> {
    let mut task = String::new(alloc);
    put_wide_task(&mut task)?;
    Ok(task)
}

// Asserts that the proofs for this task are answered.
fn all_clashes(rt: &impl Abort, alloc: Global) -> Result<(), AllocError> {
    let task = wide_task(alloc)?;
    all_told(rt, alloc, CHECK, task.as_str(), &CLASHES);
    Ok(())
}

#[test]
fn tells_counterexamples(rt: HostRuntime) {
    assert!(rt; all_clashes(&rt, rt.alloc()) == Ok(()));
}

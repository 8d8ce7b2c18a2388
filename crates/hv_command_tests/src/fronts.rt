//! Fronts: tasks that are made of a translator's task or of a cost bound, and plans.

use crate::short::{KEY_TASK, is_done, is_text, tells, told, written};
use std::alloc::{AllocError, Global};
use std::process::Abort;

/// A lamp that is off at the start, and a switch that turns it on, as a translator writes it; the
/// lines are parted by `/`.
pub(crate) const LAMP: &str = concat!(
    "begin_version/3/end_version/begin_metric/0/end_metric/1/begin_variable/var0/-1/2/Atom lit()/",
    "NegatedAtom lit()/end_variable/0/begin_state/1/end_state/begin_goal/1/0 0/end_goal/1/",
    "begin_operator/switch/0/1/0 0 1 0/5/end_operator/0"
);

// Puts a line and an LF last.
fn put_line(text: &mut Vec<u8>, line: &str) -> Result<(), AllocError> {
    text.extend_from_slice(line.as_bytes())?;
    text.push(b'\n')?;
    Ok(())
}

// Puts the lines of the lamp last, but for the line of this number, from 1, which is another.
fn put_lamp(text: &mut Vec<u8>, number: usize, other: &str) -> Result<(), AllocError> {
    for (place, line) in LAMP.split('/').enumerate() {
        let is_other = place.saturating_add(1) == number;
        put_line(text, if is_other { other } else { line })?;
    }
    Ok(())
}

// The lamp as a translator's file, with another line of this number. No line has the number 0.
fn lamp_with(alloc: Global, number: usize, other: &str) -> Result<Vec<u8>, AllocError> {
    let mut text = Vec::new(alloc);
    put_lamp(&mut text, number, other)?;
    Ok(text)
}

// Whether what is said of this translator's file is the text of this short form.
fn is_told_of(alloc: Global, file: &[u8], answer: &str) -> Result<bool, AllocError> {
    let told = told(alloc, "sas task", file, b"")?;
    is_text(alloc, told.as_slice(), answer)
}

// The same of the lamp with another line of this number.
fn is_made(alloc: Global, number: usize, other: &str, answer: &str) -> Result<bool, AllocError> {
    let file = lamp_with(alloc, number, other)?;
    is_told_of(alloc, file.as_slice(), answer)
}

// The number of a line, what is there, and the answer.
static LAMPS: [(usize, &str, &str); 10] = [
    (
        0,
        "",
        concat!(
            "0 begin_atoms:2/Atom lit()/NegatedAtom lit()/end_atoms/begin_init/1/end_init/",
            "begin_goal/0/end_goal/begin_actions:1/begin_action/switch/cost:1/PRE:1/ADD:0/DEL:1/",
            "end_action/end_actions"
        ),
    ),
    (
        28,
        "0 0 -1 0",
        concat!(
            "0 begin_atoms:2/Atom lit()/NegatedAtom lit()/end_atoms/begin_init/1/end_init/",
            "begin_goal/0/end_goal/begin_actions:1/begin_action/switch/cost:1/ADD:0/DEL:1/",
            "end_action/end_actions"
        ),
    ),
    (
        5,
        "1",
        concat!(
            "0 begin_atoms:2/Atom lit()/NegatedAtom lit()/end_atoms/begin_init/1/end_init/",
            "begin_goal/0/end_goal/begin_actions:1/begin_action/switch/cost:5/PRE:1/ADD:0/DEL:1/",
            "end_action/end_actions"
        ),
    ),
    (31, "1", "3 sas line 31: unsupported axiom"),
    (10, "0", "3 sas line 10: unsupported layer"),
    (28, "1 0 1 0 1 0", "3 sas line 28: unsupported condition"),
    (2, "4", "3 sas line 2: unsupported version"),
    (17, "2", "3 sas line 17: place state"),
    (11, "65536", "3 sas line 11: limit values"),
    (29, "4294967296", "3 sas line 29: limit cost"),
];

// Asserts that each lamp gets its answer.
fn all_made(rt: &impl Abort, alloc: Global, rows: &[(usize, &str, &str)]) {
    for (number, other, answer) in rows {
        assert!(rt;
            is_made(alloc, *number, other, answer) == Ok(true),
            "{number} {other}"
        );
    }
}

#[test]
fn makes_tasks_of_translators_tasks(rt: HostRuntime) {
    all_made(&rt, rt.alloc(), &LAMPS);
}

/// The key task with the goal that the robot is at the other place.
pub(crate) const OTHER_PLACE: &str = concat!(
    "begin_atoms:3/Atom at(r, a)/Atom at(r, b)/Atom have(key)/end_atoms/begin_init/0/end_init/",
    "begin_goal/1/end_goal/begin_actions:2/begin_action/go a b/cost:1/PRE:0/ADD:1/DEL:0/",
    "end_action/begin_action/go b a/cost:1/PRE:1/ADD:0/DEL:1/end_action/end_actions/"
);

// The task where nothing may be spent.
const NOTHING_TO_SPEND: &str = concat!(
    "begin_atoms:4/Atom at(r, a)/Atom at(r, b)/Atom have(key)/left 0/end_atoms/begin_init/0/3/",
    "end_init/begin_goal/1/end_goal/begin_actions:0/end_actions"
);

// The task where 1 may be spent.
const ONE_TO_SPEND: &str = concat!(
    "begin_atoms:5/Atom at(r, a)/Atom at(r, b)/Atom have(key)/left 0/left 1/end_atoms/begin_init/",
    "0/4/end_init/begin_goal/1/end_goal/begin_actions:2/begin_action/0 1/cost:1/PRE:0/PRE:4/",
    "ADD:1/ADD:3/DEL:0/DEL:4/end_action/begin_action/1 1/cost:1/PRE:1/PRE:4/ADD:0/ADD:3/DEL:1/",
    "DEL:4/end_action/end_actions"
);

// Whether the words write this text of a task.
fn writes(alloc: Global, words: &str, task: &str, made: &str) -> Result<bool, AllocError> {
    let answer = format!(in alloc; "0 {made}")?;
    tells(alloc, words, task, "", answer.as_str())
}

// Whether `produce relaxed` writes a proof of this task that is accepted.
fn is_excluded(alloc: Global, task: &[u8]) -> Result<bool, AllocError> {
    let told = told(alloc, "produce relaxed task", task, b"")?;
    let proof = told.as_slice().strip_prefix(b"0 ").unwrap_or(b"");
    is_done(alloc, "check task proof", task, proof)
}

// The same of a task in short form.
fn excludes(alloc: Global, task: &str) -> Result<bool, AllocError> {
    let task = written(alloc, task)?;
    is_excluded(alloc, task.as_slice())
}

#[test]
fn bounds_the_cost(rt: HostRuntime) {
    let alloc = rt.alloc();
    assert!(rt; writes(alloc, "bound task 0", OTHER_PLACE, NOTHING_TO_SPEND) == Ok(true));
    assert!(rt; writes(alloc, "bound task 1", OTHER_PLACE, ONE_TO_SPEND) == Ok(true));
    assert!(rt; tells(alloc, "bound task 65532", OTHER_PLACE, "", "1 too large") == Ok(true));
}

// With nothing to spend the other place isn't reached, and that is shown; with 1 it is.
#[test]
fn shows_that_plans_cost_more(rt: HostRuntime) {
    let alloc = rt.alloc();
    assert!(rt; excludes(alloc, NOTHING_TO_SPEND) == Ok(true));
    assert!(rt;
        tells(
            alloc,
            "produce relaxed task",
            ONE_TO_SPEND,
            "",
            "1 no proof"
        ) == Ok(true)
    );
}

// A plan file, and the answer.
static PLANS: [(&str, &str); 10] = [
    ("0", "0 plan cost 1"),
    ("0/1/0/", "0 plan cost 3"),
    ("# there and back//0", "0 plan cost 1"),
    ("", "1 no goal"),
    ("0/1", "1 no goal"),
    ("1", "1 step 1: not applicable"),
    ("0/0", "1 step 2: not applicable"),
    ("7", "1 step 1: unknown"),
    ("00", "3 plan line 1: place"),
    ("7// 0", "3 plan line 3: place"),
];

// Asserts that each plan of this task gets its answer.
fn all_checked(rt: &impl Abort, alloc: Global, task: &str, rows: &[(&str, &str)]) {
    for (plan, answer) in rows {
        assert!(rt;
            tells(alloc, "plan task proof", task, plan, answer) == Ok(true),
            "{plan}"
        );
    }
}

#[test]
fn checks_plans(rt: HostRuntime) {
    let alloc = rt.alloc();
    all_checked(&rt, alloc, OTHER_PLACE, &PLANS);
    assert!(rt; tells(alloc, "plan task proof", KEY_TASK, "0", "1 no goal") == Ok(true));
}

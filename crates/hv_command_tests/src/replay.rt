//! Logs that are replayed.

ghost use Rattle.std.specs.Prelude.{◌≡◌};
ghost use Rattle.hv_task.specs.Strips.{atoms};

use crate::pruners::three_pruners;
use crate::short::{KEY_TASK, is_done, is_text, tells, told_by, written};
use hv_bytes::{Limits, SureShelf, Text};
use hv_lines::Pruner;
use hv_proof_text::write_proof;
use hv_replay::{Log, ReplayFault, read_log, replay};
use hv_task::Task;
use hv_task_text::read_task;
use std::alloc::{AllocError, Global};
use std::process::Abort;

// Three wishes, of which each action grants one and takes the next one back; a lamp that is on in
// the beginning; and two rooms, between which one goes. All six are wanted.
const SIX_ATOMS: &str = concat!(
    "begin_atoms:6/g1/g2/g3/lamp/left/right/end_atoms/begin_init/0/3/4/end_init/begin_goal/0/1/2/",
    "3/4/5/end_goal/begin_actions:5/begin_action/first/cost:1/ADD:0/DEL:1/end_action/begin_action/",
    "second/cost:1/ADD:1/DEL:2/end_action/begin_action/third/cost:1/ADD:2/DEL:0/end_action/",
    "begin_action/go right/cost:1/PRE:4/ADD:5/DEL:4/end_action/begin_action/go left/cost:1/PRE:5/",
    "ADD:4/DEL:5/end_action/end_actions/"
);

// What a replay of this log tells with the three pruners.
fn replayed(alloc: Global, task: &str, log: &str) -> Result<Vec<u8>, AllocError> {
    let task = written(alloc, task)?;
    let log = written(alloc, log)?;
    told_by(
        alloc,
        "replay task proof",
        task.as_slice(),
        log.as_slice(),
        b"",
        true,
    )
}

// Whether what was said is a proof of the task, which `check` accepts.
fn is_proof(alloc: Global, task: &str, told: &[u8]) -> Result<bool, AllocError> {
    match told.strip_prefix(b"0 ") {
        None => Ok(false),
        Some(proof) => is_accepted(alloc, task, proof),
    }
}

fn is_accepted(alloc: Global, task: &str, proof: &[u8]) -> Result<bool, AllocError> {
    let task = written(alloc, task)?;
    is_done(alloc, "check task proof", task.as_slice(), proof)
}

// Logs of the key task, and the proofs that they become with the pruners.
static PROOFS: [(&str, &str); 2] = [
    // both places
    (
        "x 0/x 1/end/",
        concat!(
            "0 @e 3 x 2 0 ; 1 ;/e 4 p 3 0/e 5 u 3 0/e 6 i 3 2/k 1 s 4 5 b2/k 2 s 6 0 b1/",
            "k 3 d 6 sd 2 0/k 4 d 3 pg 1 0 3/k 5 d 5 ud 4 0/k 6 s 1 5 b1/k 7 d 1 sd 6 5/k 8 u ci 7"
        ),
    ),
    // the second place is pruned: nothing brings the key
    (
        "x 0/p 1/end/",
        concat!(
            "0 @e 3 h 1 -3 0/e 4 p 3 0/e 5 u 3 0/e 6 i 3 2/k 1 s 4 5 b2/k 2 s 6 0 b1/",
            "k 3 d 6 sd 2 0/k 4 d 3 pg 1 0 3/e 7 x 1 1 ;/k 5 s 7 3 b4/k 6 d 7 sd 5 4/e 8 u 0 7/",
            "k 7 d 8 ud 0 6/e 9 x 1 0 ;/e 10 p 9 0/e 11 u 9 8/e 12 i 9 2/k 8 s 10 11 b2/",
            "k 9 s 12 0 b1/k 10 d 12 sd 9 0/k 11 d 9 pg 8 7 10/k 12 d 11 ud 11 7/k 13 s 1 11 b1/",
            "k 14 d 1 sd 13 12/k 15 u ci 14"
        ),
    ),
];

// Logs that become none.
static ROWS: [(&str, &str); 7] = [
    ("x 0/end/", "1 log line 1: open action 0"),
    ("x 1/x 0 2/end/", "1 log: no initial state"),
    // the goal comes before what is open
    ("x 0/x 0 2/x 1 2/end/", "1 log line 2: goal expanded"),
    // what is open comes before what isn't covered
    ("p 0/x 0 1/p 2/end/", "1 log line 2: open action 0"),
    ("x 0/x 1/p 2/p 0 2/end/", "1 log line 3: unjustified"),
    ("x 0/x 1/", "3 log line 3: place"),
    ("x 0/x 3/end/", "3 log line 2: place"),
];

const UNJUSTIFIED: &str = "1 log line 2: unjustified";

// Whether a replay of this log of the task tells exactly this.
fn tells_replayed(alloc: Global, task: &str, log: &str, answer: &str) -> Result<bool, AllocError> {
    let told = replayed(alloc, task, log)?;
    is_text(alloc, told.as_slice(), answer)
}

// Whether what it tells is accepted.
fn is_proved(alloc: Global, task: &str, log: &str) -> Result<bool, AllocError> {
    let told = replayed(alloc, task, log)?;
    is_proof(alloc, task, told.as_slice())
}

// Asserts that a replay tells of the key task and each log its answer.
fn all_replayed(rt: &impl Abort, alloc: Global, rows: &[(&str, &str)]) {
    for (log, answer) in rows {
        assert!(rt;
            tells_replayed(alloc, KEY_TASK, log, answer) == Ok(true),
            "{log}"
        );
    }
}

// Asserts that what it tells is accepted.
fn all_proved(rt: &impl Abort, alloc: Global, rows: &[(&str, &str)]) {
    for (log, _proof) in rows {
        assert!(rt; is_proved(alloc, KEY_TASK, log) == Ok(true), "{log}");
    }
}

// Without pruners nothing is justified.
#[test]
fn replays_closed_logs_alone(rt: HostRuntime) {
    all_replayed(&rt, rt.alloc(), &PROOFS);
    all_proved(&rt, rt.alloc(), &PROOFS);
    all_replayed(&rt, rt.alloc(), &ROWS);
    let (words, log) = ("replay task proof", "x 0/p 1/end/");
    assert!(rt; tells(rt.alloc(), words, KEY_TASK, log, UNJUSTIFIED) == Ok(true));
}

// How many lines of the text have this part.
fn count(text: &str, part: &str) -> usize {
    text.split('\n').filter(|line| line.contains(part)).count()
}

// How many lines a proof has, and how many of them begin a 2CNF formula of 51 clauses, and one at
// all.
fn counted(proof: &[u8]) -> (usize, usize, usize) {
    let text = str::from_utf8(proof).unwrap_or("");
    (count(text, " "), count(text, " t 51 "), count(text, " t "))
}

// Whether the replay of this log has so many lines.
fn has_lines(
    alloc: Global,
    task: &str,
    log: &str,
    lines: (usize, usize, usize),
) -> Result<bool, AllocError> {
    let told = replayed(alloc, task, log)?;
    Ok(counted(told.as_slice()) == lines)
}

const COVERED: &str = "p 0 4/p 0 3 4/p 0 3 4 5/p 1 3 4 5/end/";

const UNCOVERED: &str = "p 0 4/p 0 3 4/p 0 3 4 5/p 1 3 4 5/p 0 1 2 3 4 5/end/";

// Without the lamp nothing brings it; one is never in both rooms; and some wish is always missing.
// The last two states are covered by one trap.
#[test]
fn asks_three_pruners_in_order(rt: HostRuntime) {
    assert!(rt; has_lines(rt.alloc(), SIX_ATOMS, COVERED, (62, 1, 1)) == Ok(true));
    assert!(rt; is_proved(rt.alloc(), SIX_ATOMS, COVERED) == Ok(true));
    let answer = "1 log line 5: unjustified";
    assert!(rt; tells_replayed(rt.alloc(), SIX_ATOMS, UNCOVERED, answer) == Ok(true));
}

// Appends the proof that the log becomes with these pruners, or that memory was refused; nothing
// where it becomes none.
fn put_draft(
    alloc: Global,
    task: &Task,
    log: &Log,
    pruners: &mut Vec<Box<dyn Pruner>>,
    text: &mut Text,
) -> Result<(), AllocError>
    requires { log.now.atoms ≡ atoms task.now }
{
    match replay(alloc, task, log, pruners) {
        Ok(draft) => write_proof(alloc, draft.table(), text),
        Err(ReplayFault::Memory) => text.push_bytes(b"memory"),
        Err(_) => Ok(()),
    }
}

// The same for the log of the shelf; nothing where it is none.
fn put_replay(
    alloc: Global,
    shelf: &mut SureShelf,
    task: &Task,
    pruners: &mut Vec<Box<dyn Pruner>>,
    text: &mut Text,
) -> Result<(), AllocError> {
    match read_log(alloc, shelf, "log", task) {
        Ok(log) => put_draft(alloc, task, &log, pruners, text),
        Err(_) => Ok(()),
    }
}

// The same for the task of the shelf; nothing where it is none.
fn put_proof(
    alloc: Global,
    shelf: &mut SureShelf,
    pruners: &mut Vec<Box<dyn Pruner>>,
    text: &mut Text,
) -> Result<(), AllocError> {
    match read_task(alloc, shelf, "task", Limits::STANDARD) {
        Ok(task) => put_replay(alloc, shelf, &task, pruners, text),
        Err(_) => Ok(()),
    }
}

// Adds the file that the short form denotes.
fn add_file(
    alloc: Global,
    shelf: &mut SureShelf,
    name: &str,
    short: &str,
) -> Result<(), AllocError> {
    let text = written(alloc, short)?;
    shelf.add(name, text.as_slice())
}

// A shelf with the key task and this log.
fn shelf_of(alloc: Global, log: &str) -> Result<SureShelf, AllocError> {
    let mut shelf = SureShelf::new(alloc);
    add_file(alloc, &mut shelf, "task", KEY_TASK)?;
    add_file(alloc, &mut shelf, "log", log)?;
    Ok(shelf)
}

/// Appends the proof that a log of the key task becomes with these pruners, or that memory was
/// refused; nothing where it becomes none.
pub(crate) fn put_proof_of(
    alloc: Global,
    log: &str,
    pruners: &mut Vec<Box<dyn Pruner>>,
    text: &mut Text,
) -> Result<(), AllocError> {
    let mut shelf = shelf_of(alloc, log)?;
    put_proof(alloc, &mut shelf, pruners, text)
}

// Whether these pruners write of the log this proof.
fn writes(
    alloc: Global,
    log: &str,
    pruners: &mut Vec<Box<dyn Pruner>>,
    told: &[u8],
) -> Result<bool, AllocError> {
    let mut text = Text::new(alloc);
    put_proof_of(alloc, log, pruners, &mut text)?;
    Ok(told.strip_prefix(b"0 ") == Some(text.as_bytes()))
}

/// Whether these pruners write of the log what new ones do.
pub(crate) fn is_the_same(
    alloc: Global,
    log: &str,
    pruners: &mut Vec<Box<dyn Pruner>>,
) -> Result<bool, AllocError> {
    let told = replayed(alloc, KEY_TASK, log)?;
    writes(alloc, log, pruners, told.as_slice())
}

// The same for two logs, one after the other.
fn are_the_same(alloc: Global, pruners: &mut Vec<Box<dyn Pruner>>) -> Result<bool, AllocError> {
    let first = is_the_same(alloc, "x 0/p 1/end/", pruners)?;
    let second = is_the_same(alloc, "p 0/end/", pruners)?;
    Ok(first & second)
}

// The same for the three pruners.
fn are_the_same_by_three(alloc: Global) -> Result<bool, AllocError> {
    let mut pruners = three_pruners(alloc)?;
    are_the_same(alloc, &mut pruners)
}

// Pruners that are used again write what new ones do.
#[test]
fn replays_a_second_log_with_the_same_pruners(rt: HostRuntime) {
    assert!(rt; are_the_same_by_three(rt.alloc()) == Ok(true));
}

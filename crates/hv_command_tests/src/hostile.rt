//! Proofs that are made to be long, deep or wrong, and tasks and diagrams of many states: what a
//! body that goes through all states, all subsets or all paths would not come to the end of.

use crate::sample::rooms_text;
use crate::short::{KEY_TASK, is_text, tells, told, told_by, written};
use hv_bytes::Text;
use std::alloc::{AllocError, Global};
use std::process::Abort;

const CHECK: &str = "check task proof";

// Proofs for the key task, and the answers to them.
static PROOFS: [(&str, &str); 3] = [
    // a numeral of 19 digits
    ("e 1000000000000000000 c e/", "1 line 1: grammar"),
    // the same as a set that a line names
    ("e 0 c e/e 1 n 1000000000000000000/", "1 line 2: grammar"),
    // the bytes 0 and 127
    ("\x00\x7f", "1 line 1: grammar"),
];

// Asserts that `check` tells of the key task and each proof its answer.
fn all_refused(rt: &impl Abort, alloc: Global, rows: &[(&str, &str)]) {
    for (proof, answer) in rows {
        assert!(rt;
            tells(alloc, CHECK, KEY_TASK, proof, answer) == Ok(true),
            "{proof}"
        );
    }
}

// Whether `check` tells this answer of the key task and this proof.
fn tells_of(alloc: Global, proof: &[u8], answer: &str) -> Result<bool, AllocError> {
    let task = written(alloc, KEY_TASK)?;
    let told = told(alloc, CHECK, task.as_slice(), proof)?;
    is_text(alloc, told.as_slice(), answer)
}

// Whether it tells it of one line of so many bytes `#`.
fn tells_of_comment(alloc: Global, length: usize, answer: &str) -> Result<bool, AllocError> {
    let mut proof = Vec::new(alloc);
    proof.resize(length, b'#')?;
    tells_of(alloc, proof.as_slice(), answer)
}

// A line may have 16,777,216 bytes.
#[test]
fn refuses_what_is_no_line(rt: HostRuntime) {
    all_refused(&rt, rt.alloc(), &PROOFS);
    assert!(rt; tells_of(rt.alloc(), b"\x00\xff", "1 line 1: grammar") == Ok(true));
    assert!(rt; tells_of_comment(rt.alloc(), 16777217, "1 line 1: long") == Ok(true));
    assert!(rt; tells_of_comment(rt.alloc(), 16777216, "1 no conclusion") == Ok(true));
}

// Puts the two nodes for an atom last that exchange these two.
fn put_two_nodes(nodes: &mut String, atom: u32, even: u32, odd: u32) -> Result<(), AllocError> {
    write!(nodes, "{atom} {even} {odd}\n{atom} {odd} {even}\n")
}

// Puts the diagram of the states last that hold an odd number of the atoms from 0 to 63. Node 128
// is its root, from which 2^63 paths lead to 0.
fn put_parity(nodes: &mut String) -> Result<(), AllocError> {
    nodes.push_str("nodes 127\n63 0 1\n63 1 0\n")?;
    for step in 0..62 {
        put_two_nodes(nodes, 62 - step, 2 * step + 2, 2 * step + 3)?;
    }
    nodes.push_str("0 126 127\n")
}

// This diagram.
fn parity(alloc: Global) -> Result<String, AllocError> {
    let mut nodes = String::new(alloc);
    put_parity(&mut nodes)?;
    Ok(nodes)
}

// Whether `check` tells this answer of the task of 64 rooms, the diagram and this proof within the
// budget.
fn tells_of_parity(
    alloc: Global,
    task: &Text,
    budget: u32,
    proof: &str,
    answer: &str,
) -> Result<bool, AllocError> {
    let words = format!(in alloc; "check task proof --nodes nodes --budget {budget}")?;
    let nodes = parity(alloc)?;
    let proof = written(alloc, proof)?;
    let told = told_by(
        alloc,
        words.as_str(),
        task.as_bytes(),
        proof.as_slice(),
        nodes.as_bytes(),
        false,
    )?;
    is_text(alloc, told.as_slice(), answer)
}

// Statements on the diagram with one live tuple a node, by 2CNF formulas and listed states.
const NODE_BY_NODE: &str = concat!(
    "a 0 a/e 0 t 1 -65 0/e 1 p 0 0/e 2 b 128/e 3 x 1 0 ;/e 4 h 1 -1 1 0/k 0 s 1 0 b2/",
    "k 1 s 2 2 b1/k 2 s 3 3 b1/k 3 s 3 0 b4/k 4 s 2 4 b4/"
);

// A budget, a proof for the task of 64 rooms by the diagram, and the answer.
static BY_PARITY: [(u32, &str, &str); 3] = [
    // the paths to 0 are too many for any budget
    (
        16777216,
        "e 0 h 0/e 1 b 128/k 0 s 0 1 b4/",
        "1 line 3: budget",
    ),
    // the diagram within itself has one live tuple for each of its 127 nodes
    (127, NODE_BY_NODE, "1 no conclusion"),
    (126, NODE_BY_NODE, "1 line 8: budget"),
];

// Asserts that each of these proofs gets its answer.
fn all_by_parity(rt: &impl Abort, alloc: Global, task: &Text, rows: &[(u32, &str, &str)]) {
    for (budget, proof, answer) in rows {
        assert!(rt;
            tells_of_parity(alloc, task, *budget, proof, answer) == Ok(true),
            "{budget}"
        );
    }
}

// Asserts that the proofs for the sample are answered.
fn all_of_rooms(rt: &impl Abort, alloc: Global) -> Result<(), AllocError> {
    let task = rooms_text(alloc)?;
    all_by_parity(rt, alloc, &task, &BY_PARITY);
    Ok(())
}

#[test]
fn judges_a_diagram_of_many_paths(rt: HostRuntime) {
    assert!(rt; all_of_rooms(&rt, rt.alloc()) == Ok(()));
}

// Puts an action last that adds this atom in any state.
fn put_adding(task: &mut String, atom: u32) -> Result<(), AllocError> {
    write!(task, "begin_action/add/cost:1/ADD:{atom}/end_action/")
}

// Puts the atoms below 20 last, one a line.
fn put_twenty(task: &mut String) -> Result<(), AllocError> {
    for atom in 0..20 {
        write!(task, "{atom}/")?;
    }
    Ok(())
}

// Puts a task of 20 atoms last that all are wanted, none holds at the start, and each may be added
// at any time.
fn put_adding_task(task: &mut String) -> Result<(), AllocError> {
    task.push_str("begin_atoms:20/")?;
    put_twenty(task)?;
    task.push_str("end_atoms/begin_init/end_init/begin_goal/")?;
    put_twenty(task)?;
    task.push_str("end_goal/begin_actions:20/")?;
    for atom in 0..20 {
        put_adding(task, atom)?;
    }
    task.push_str("end_actions/")
}

// Whether these words tell this answer of this task.
fn tells_of_adding_task(alloc: Global, words: &str, answer: &str) -> Result<bool, AllocError> {
    let mut task = String::new(alloc);
    put_adding_task(&mut task)?;
    tells(alloc, words, task.as_str(), "", answer)
}

// A goal state can be reached from every state, so the greatest trap is empty. There are 590
// clauses that may be in one.
#[test]
fn finds_no_trap_among_many_clauses(rt: HostRuntime) {
    assert!(rt; tells_of_adding_task(rt.alloc(), "produce trap task", "1 no proof") == Ok(true));
}

//! Node files with an order of the atoms, beside open and closed proofs, and what each job that
//! judges a proof tells of them.

use crate::by_nodes::{NEEDED, NODE_PROOF, tells_by_nodes, tells_of_key};
use crate::short::{is_text, put_names, told_by, written};
use std::alloc::{AllocError, Global};
use std::process::Abort;

// The states that don't have the key, in three orders of the atoms. That the initial state is one
// of them has a live tuple for each atom up to the key.
const KEY_FIRST: &str = "order 2 0 1/nodes 1/2 1 0/";

const KEY_SECOND: &str = "order 0 2 1/nodes 1/2 1 0/";

const KEY_LAST: &str = "order 1 0 2/nodes 1/2 1 0/";

// Node 5 is "at one of the two places, and without the key".
const ONE_PLACE: &str = "order 2 1 0/nodes 4/0 0 1/0 1 0/1 2 3/2 4 0/";

// Node 4 is the initial state alone.
const START_ALONE: &str = "order 2 1 0/nodes 3/0 0 1/1 2 0/2 3 0/";

// Node 4 is the state of the atoms 0 and 2 alone.
const TWO_ATOMS: &str = "order 2 1 0/nodes 3/0 0 1/1 2 0/2 0 3/";

// Node 3 is "neither atom 0 nor atom 1".
const TWO_NODES: &str = "order 2 1 0/nodes 2/0 1 0/1 2 0/";

const HORN_WITHIN_NODE: &str = "e 0 h 2 -1 0 -2 0/e 1 b 3/k 0 s 0 1 b4/";

// A node file, what follows the words `--nodes nodes`, and the lines of a proof that shows that the
// key task is unsolvable.
static ACCEPTED: [(&str, &str, &str); 7] = [
    (KEY_FIRST, "", NODE_PROOF),
    (KEY_FIRST, " --budget 1", NODE_PROOF),
    (KEY_SECOND, " --budget 2", NODE_PROOF),
    (KEY_LAST, "", NODE_PROOF),
    (KEY_LAST, " --budget 3", NODE_PROOF),
    (ONE_PLACE, "", "@e 3 b 5/%"),
    (ONE_PLACE, " --budget 16777216", "@e 3 b 5/%"),
];

// A node file, what follows these words, a proof that isn't accepted, and the answer.
static REFUSED: [(&str, &str, &str, &str); 19] = [
    // a Horn formula within a diagram, within the default budget: in the order in which its nodes
    // stand; without it, and with an atom twice
    (TWO_NODES, "", HORN_WITHIN_NODE, "1 no conclusion"),
    (
        "nodes 2/0 1 0/1 2 0/",
        "",
        HORN_WITHIN_NODE,
        "3 nodes line 3: place order",
    ),
    (
        "order 0 1 1/nodes 2/0 1 0/1 2 0/",
        "",
        HORN_WITHIN_NODE,
        "3 nodes line 1: place permutation",
    ),
    // the same in a closed proof
    (
        TWO_NODES,
        "",
        "helve 2/e 0 h 2 -1 0 -2 0/e 1 b 3/k 0 s 0 1 b4/end/",
        "1 no conclusion",
    ),
    (
        TWO_NODES,
        " --budget 1",
        "helve 2/e 0 h 2 -1 0 -2 0/e 1 b 3/k 0 s 0 1 b4/end/",
        "1 line 4: budget",
    ),
    // a budget below the number of live tuples
    (KEY_SECOND, " --budget 1", NODE_PROOF, "1 line 14: budget"),
    (
        KEY_SECOND,
        " --budget 1",
        "helve 2/@e 3 b 2/%end/",
        "1 line 15: budget",
    ),
    (KEY_LAST, " --budget 2", NODE_PROOF, "1 line 14: budget"),
    (
        KEY_LAST,
        " --budget 2",
        "helve 2/@e 3 b 2/%end/",
        "1 line 15: budget",
    ),
    // a statement that is false
    (
        START_ALONE,
        "",
        "@e 3 b 4/%",
        "1 line 10: false action 0 state 0 ;",
    ),
    (
        START_ALONE,
        "",
        "helve 2/@e 3 b 4/%end/",
        "1 line 11: false action 0 state 0 ;",
    ),
    // the atoms of a state rise in any order of the nodes
    (
        TWO_ATOMS,
        "",
        "e 0 b 4/e 1 c e/k 0 s 0 1 b1/",
        "1 line 3: false state 0 2 ;",
    ),
    // the end is missing, isn't the last line, or comes where none has to
    (KEY_FIRST, "", "helve 2/@e 3 b 2/%", "1 line 18: grammar"),
    (
        KEY_FIRST,
        "",
        "helve 2/@e 3 b 2/%end/a 1 a/",
        "1 line 19: grammar",
    ),
    (KEY_FIRST, "", "@e 3 b 2/%end/", "1 line 17: grammar"),
    (KEY_FIRST, "", "helve 2/@end/", "1 no conclusion"),
    // a node past the last
    (KEY_FIRST, "", "helve 2/@e 3 b 3/%end/", "1 line 7: unknown"),
    // a node file with a fault is told before the proof is read
    (
        "order 2 0 1/nodes 2/0 1 0/2 2 0/",
        "",
        "helve 2/",
        "1 line 2: grammar",
    ),
    (
        "order 1 0 2/nodes 2/0 1 0/0 2 0/",
        "",
        "helve 2/",
        "3 nodes line 4: place order",
    ),
];

// Whether this command tells this answer of a node file, options behind it, and a proof.
fn tells_with(
    alloc: Global,
    command: &str,
    files: (&str, &str),
    options: &str,
    answer: &str,
) -> Result<bool, AllocError> {
    let (nodes, proof) = files;
    let words = format!(in alloc; "{command} task proof --nodes nodes{options}")?;
    tells_by_nodes(alloc, words.as_str(), nodes, proof, answer)
}

// Whether the three commands that judge a proof tell these answers.
fn all_tell(
    alloc: Global,
    files: (&str, &str),
    options: &str,
    answers: [&str; 3],
) -> Result<bool, AllocError> {
    let [checked, explained, upgraded] = answers;
    let check = tells_with(alloc, "check", files, options, checked)?;
    let explain = tells_with(alloc, "explain", files, options, explained)?;
    let upgrade = tells_with(alloc, "upgrade", files, options, upgraded)?;
    Ok(check & explain & upgrade)
}

// Whether these lines are accepted as an open proof and as this closed one, which both are written
// as.
fn are_accepted(
    alloc: Global,
    files: (&str, &str),
    options: &str,
    closed: &str,
) -> Result<bool, AllocError> {
    let written = format!(in alloc; "0 {closed}")?;
    let answers = ["0 unsolvable", NEEDED, written.as_str()];
    let open = all_tell(alloc, files, options, answers)?;
    let same = all_tell(alloc, (files.0, closed), options, answers)?;
    Ok(open & same)
}

// The same of the closed proof of these lines.
fn is_accepted(alloc: Global, nodes: &str, options: &str, lines: &str) -> Result<bool, AllocError> {
    let closed = format!(in alloc; "helve 2/{lines}end")?;
    are_accepted(alloc, (nodes, lines), options, closed.as_str())
}

// Asserts that each of these proofs is accepted.
fn all_accepted(rt: &impl Abort, alloc: Global, rows: &[(&str, &str, &str)]) {
    for (nodes, options, lines) in rows {
        assert!(rt;
            is_accepted(alloc, nodes, options, lines) == Ok(true),
            "{nodes}{options}"
        );
    }
}

// Asserts that each of these proofs is told its answer by the three commands.
fn all_refused(rt: &impl Abort, alloc: Global, rows: &[(&str, &str, &str, &str)]) {
    for (nodes, options, proof, answer) in rows {
        assert!(rt;
            all_tell(
                alloc,
                (*nodes, *proof),
                options,
                [*answer, *answer, *answer]
            ) == Ok(true),
            "{nodes}{options} {proof}"
        );
    }
}

#[test]
fn judges_in_the_order_of_the_nodes(rt: HostRuntime) {
    all_accepted(&rt, rt.alloc(), &ACCEPTED);
    all_refused(&rt, rt.alloc(), &REFUSED);
}

// Whether `check` tells this answer where the node file is a line of so many bytes that begins with
// an order of all atoms.
fn tells_of_long_order(alloc: Global, length: usize, answer: &str) -> Result<bool, AllocError> {
    let mut nodes = Vec::new(alloc);
    nodes.extend_from_slice(b"order 0 1 2")?;
    nodes.resize(length, b' ')?;
    tells_of_key(
        alloc,
        "check task proof --nodes nodes",
        b"",
        nodes.as_slice(),
        answer,
    )
}

// A line may have 16,777,216 bytes; that it has more is told before its form.
#[test]
fn refuses_an_order_on_a_long_line(rt: HostRuntime) {
    let place = "3 nodes line 1: place permutation";
    assert!(rt; tells_of_long_order(rt.alloc(), 16777216, place) == Ok(true));
    assert!(rt;
        tells_of_long_order(rt.alloc(), 16777217, "3 nodes line 1: limit long") == Ok(true)
    );
}

// Puts a task of 65,535 atoms last, of which none holds at the start and the first is wanted.
fn put_widest_task(task: &mut String) -> Result<(), AllocError> {
    task.push_str("begin_atoms:65535/")?;
    put_names(task, 65535)?;
    task.push_str("end_atoms/begin_init/end_init/begin_goal/0/end_goal/")?;
    task.push_str("begin_actions:0/end_actions/")
}

// This task.
fn widest_task(alloc: Global) -> Result<Vec<u8>, AllocError> {
    let mut task = String::new(alloc);
    put_widest_task(&mut task)?;
    written(alloc, task.as_str())
}

// Puts the atoms of this task from 65,534 down to 1 last, behind the word `order`.
fn put_falling(nodes: &mut String) -> Result<(), AllocError> {
    nodes.push_str("order")?;
    for step in 0..65534 {
        let atom = 65534_u32.saturating_sub(step);
        write!(nodes, " {atom}")?;
    }
    Ok(())
}

// A node file with this order, the rest of its first line, and two nodes of which the second names
// the greatest atom, and the first atom 0.
fn falling_nodes(alloc: Global, rest: &str) -> Result<Vec<u8>, AllocError> {
    let mut nodes = String::new(alloc);
    put_falling(&mut nodes)?;
    nodes.push_str(rest)?;
    nodes.push_str("/nodes 2/0 1 0/65534 2 0/")?;
    written(alloc, nodes.as_str())
}

// Whether `check` tells this answer of the widest task and these nodes within this budget. Set 0 is
// "neither atom 0 nor the greatest one", and set 1 "not atom 0".
fn tells_of_widest(
    alloc: Global,
    task: &[u8],
    budget: &str,
    nodes: &[u8],
    answer: &str,
) -> Result<bool, AllocError> {
    let words = format!(in alloc; "check task proof --nodes nodes{budget}")?;
    let proof = b"helve 2\ne 0 b 3\ne 1 b 2\nk 0 s 0 1 b1\nend\n";
    let told = told_by(alloc, words.as_str(), task, proof, nodes, false)?;
    is_text(alloc, told.as_slice(), answer)
}

// The same of the falling order with this rest of its line.
fn tells_of_falling(
    alloc: Global,
    task: &[u8],
    budget: &str,
    rest: &str,
    answer: &str,
) -> Result<bool, AllocError> {
    let nodes = falling_nodes(alloc, rest)?;
    tells_of_widest(alloc, task, budget, nodes.as_slice(), answer)
}

// What follows the words, the rest of the order, and the answer. The inclusion has a live tuple for
// each of the two atoms.
static FALLING: [(&str, &str, &str); 7] = [
    ("", " 0", "1 no conclusion"),
    (" --budget 2", " 0", "1 no conclusion"),
    (" --budget 1", " 0", "1 line 4: budget"),
    // the last atom is missing, occurs twice, or isn't one of the task's
    ("", "", "3 nodes line 1: place permutation"),
    ("", " 1", "3 nodes line 1: place permutation"),
    ("", " 0 0", "3 nodes line 1: place permutation"),
    ("", " 65535", "3 nodes line 1: place permutation"),
];

// Asserts that each of these orders is told its answer.
fn all_falling(rt: &impl Abort, alloc: Global, task: &[u8], rows: &[(&str, &str, &str)]) {
    for (budget, rest, answer) in rows {
        assert!(rt;
            tells_of_falling(alloc, task, budget, rest, answer) == Ok(true),
            "{budget}{rest}"
        );
    }
}

// The nodes are in the falling order alone.
fn needs_the_order(alloc: Global, task: &[u8]) -> Result<bool, AllocError> {
    let nodes = b"nodes 2\n0 1 0\n65534 2 0\n";
    tells_of_widest(alloc, task, "", nodes, "3 nodes line 3: place order")
}

// Whether each of these orders is told its answer for the widest task, which needs the order.
fn widest_is_told(rt: &impl Abort, alloc: Global) -> Result<bool, AllocError> {
    let task = widest_task(alloc)?;
    all_falling(rt, alloc, task.as_slice(), &FALLING);
    needs_the_order(alloc, task.as_slice())
}

#[test]
fn takes_an_order_of_as_many_atoms_as_there_may_be(rt: HostRuntime) {
    assert!(rt; widest_is_told(&rt, rt.alloc()) == Ok(true));
}

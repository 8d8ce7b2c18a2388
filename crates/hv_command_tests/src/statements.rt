//! Basic statements: what each asks, costs and answers. Where several states are counterexamples,
//! each text that names one is listed.

use crate::by_nodes::tells_by_nodes;
use crate::short::{KEY_TASK, ONE_OF_TWO, THREE_WISHES, is_text, put_names, tells, told, written};
use std::alloc::{AllocError, Global};
use std::process::Abort;

// An action that adds the atom that it deletes.
const ADDS_WHAT_IT_DELETES: &str = concat!(
    "begin_atoms:2/p/q/end_atoms/begin_init/0/end_init/begin_goal/1/end_goal/begin_actions:1/",
    "begin_action/stay/cost:1/PRE:0/ADD:0/DEL:0/end_action/end_actions/"
);

const NO_ATOMS: &str =
    "begin_atoms:0/end_atoms/begin_init/end_init/begin_goal/end_goal/begin_actions:0/end_actions/";

const ONE_FALSE_ATOM: &str = concat!(
    "begin_atoms:1/x/end_atoms/begin_init/end_init/begin_goal/end_goal/",
    "begin_actions:0/end_actions/"
);

const STANDARD: &str = "check task proof --budget 1000000";

// A budget, a proof for the key task, and the texts of which one is the answer.
static ROWS: [(&str, &str, &str); 30] = [
    // the relaxed proof, within any budget
    ("1", "@e 3 h 1 -3 0/%", "0 unsolvable"),
    // a proof backwards from the goal
    (
        "1000000",
        concat!(
            "@e 3 h 1 3 0/e 4 r 3 0/e 5 u 3 0/e 6 n 3/k 1 s 4 5 b3/k 2 s 1 6 b1/k 3 d 3 ri 1 0 2/",
            "k 4 s 2 3 b1/k 5 d 2 sd 4 3/k 6 u cg 5/"
        ),
        "0 unsolvable",
    ),
    // a statement for fewer actions
    (
        "1000000",
        "a 0 a/a 1 b 1 0/e 0 c e/e 1 p 0 0/e 2 p 0 1/k 0 s 1 0 b2/k 1 a 1 0 b5/k 2 s 2 0 at 0 1/",
        "1 no conclusion",
    ),
    // action sets
    (
        "1000000",
        "a 0 b 2 0 1/a 1 b 1 1/k 0 a 0 1 b5/",
        "1 line 3: false action 0",
    ),
    (
        "1000000",
        "a 0 b 2 0 1/a 1 b 1 1/k 0 a 1 0 b5/",
        "1 no conclusion",
    ),
    // regression
    (
        "1000000",
        "a 0 a/e 0 h 1 2 0/e 1 h 1 -1 0/e 2 r 0 0/e 3 n 1/k 0 s 2 3 b3/",
        "1 no conclusion",
    ),
    (
        "1000000",
        "a 0 a/e 0 h 1 2 0/e 1 h 1 -1 0/e 2 r 0 0/e 3 h 1 -1 0/k 0 s 2 3 b3/",
        concat!(
            "1 line 6: false action 0 state 0 ;|1 line 6: false action 0 state 0 1 ;|",
            "1 line 6: false action 0 state 0 2 ;|1 line 6: false action 0 state 0 1 2 ;"
        ),
    ),
    // from progression to regression and back
    (
        "1000000",
        concat!(
            "a 0 a/e 0 h 1 -3 0/e 1 p 0 0/e 2 n 0/e 3 r 2 0/k 0 s 1 0 b2/k 1 s 3 2 pr 0/",
            "k 2 s 1 0 rp 1/"
        ),
        "1 no conclusion",
    ),
    // two literals a clause
    (
        "1000000",
        "e 0 t 2 1 2 0 -1 -2 0/e 1 t 1 -3 0/k 0 s 0 1 b1/",
        "1 line 3: false state 0 2 ;|1 line 3: false state 1 2 ;",
    ),
    ("1000000", "e 0 t 1 1 2 3 0/", "1 line 1: family"),
    ("1000000", "e 0 t 1 1 2 1 0/", "1 no conclusion"),
    // Horn clauses
    ("1000000", "e 0 h 1 1 2 0/", "1 line 1: family"),
    ("1000000", "e 0 h 1 -4 0/", "1 line 1: unknown"),
    ("1000000", "e 0 h 1 1 1 -2 0/", "1 no conclusion"),
    // the cost comes before the counterexample
    (
        "1",
        "e 0 h 0/e 1 h 2 -1 0 -2 0/k 0 s 0 1 b1/",
        "1 line 3: budget",
    ),
    (
        "2",
        "e 0 h 0/e 1 h 2 -1 0 -2 0/k 0 s 0 1 b1/",
        concat!(
            "1 line 3: false state 0 ;|1 line 3: false state 1 ;|1 line 3: false state 0 1 ;|",
            "1 line 3: false state 0 2 ;|1 line 3: false state 1 2 ;|1 line 3: false state 0 1 2 ;"
        ),
    ),
    // the listed states of the anchor are the cost, however many other sets are listed
    (
        "1",
        "e 0 x 2 0 ; 1 ;/e 1 x 3 0 ; 1 ; 2 ;/k 0 s 0 1 b1/",
        "1 line 3: budget",
    ),
    (
        "2",
        "e 0 x 2 0 ; 1 ;/e 1 x 3 0 ; 1 ; 2 ;/k 0 s 0 1 b1/",
        "1 no conclusion",
    ),
    // without an anchor nothing is asked of listed states, also for no action
    (
        "1000000",
        "e 0 x 1 0 ;/e 1 c g/k 0 s 1 0 b1/",
        "1 line 3: not offered",
    ),
    (
        "1000000",
        "a 0 b 0/e 0 x 1 0 ;/e 1 r 0 0/k 0 s 1 0 b3/",
        "1 line 4: not offered",
    ),
    // a step where none is asked for, a second family, and a set that is no literal
    (
        "1000000",
        "a 0 a/e 0 h 0/e 1 p 0 0/k 0 s 1 0 b1/",
        "1 line 4: shape",
    ),
    (
        "1000000",
        "e 0 h 0/e 1 t 0/k 0 s 0 1 b1/",
        "1 line 3: shape",
    ),
    (
        "1000000",
        "e 0 h 0/e 1 n 0/e 2 n 1/k 0 s 0 2 b1/",
        "1 line 4: shape",
    ),
    // two families: disjointness of a Horn and a 2CNF formula isn't offered, but that they cover
    // all states is
    (
        "1000000",
        "e 0 h 1 -1 -2 0/e 1 t 1 1 0/e 2 n 1/k 0 s 0 2 b4/",
        "1 line 4: not offered",
    ),
    (
        "1000000",
        "e 0 h 1 -1 0/e 1 t 1 1 2 0/e 2 n 0/k 0 s 2 1 b4/",
        "1 no conclusion",
    ),
    // one family, a constant and a double negation aren't of the shape
    (
        "1000000",
        "e 0 h 0/e 1 h 0/k 0 s 0 1 b4/",
        "1 line 3: shape",
    ),
    (
        "1000000",
        "e 0 c e/e 1 h 0/k 0 s 0 1 b4/",
        "1 line 3: shape",
    ),
    (
        "1000000",
        "e 0 h 0/e 1 t 0/e 2 n 0/e 3 n 2/k 0 s 3 1 b4/",
        "1 line 5: shape",
    ),
    // a diagram node without a node file
    (
        "2",
        "e 0 h 2 -1 0 -2 0/e 1 b 3/k 0 s 0 1 b4/",
        "1 line 2: unknown",
    ),
    // the first false statement is told, though the proof concludes before it
    (
        "1000000",
        "@e 3 h 1 -3 0/%k 8 s 1 0 b1/",
        "1 line 17: false state 0 ;",
    ),
];

// A task, a proof, and the answer within the standard budget.
static OTHER_TASKS: [(&str, &str, &str); 5] = [
    // the pair proof
    (ONE_OF_TWO, "@e 3 h 1 -1 -2 0/%", "0 unsolvable"),
    // the trap proof, by regression
    (
        THREE_WISHES,
        concat!(
            "@e 3 t 12 1 0 2 0 3 0 1 2 0 1 -2 0 -1 2 0 1 3 0 1 -3 0 -1 3 0 2 3 0 2 -3 0 -2 3 0/",
            "e 4 n 3/e 5 r 3 0/e 6 u 3 0/e 7 i 4 2/k 1 s 5 6 b3/k 2 s 7 0 b1/k 3 d 7 sd 2 0/",
            "k 4 d 4 rg 1 0 3/k 5 s 1 4 b1/k 6 d 1 sd 5 4/k 7 u ci 6/"
        ),
        "0 unsolvable",
    ),
    // without atoms there is one state
    (NO_ATOMS, "e 0 c i/e 1 h 0/k 0 s 1 0 b1/", "1 no conclusion"),
    (
        ONE_FALSE_ATOM,
        "e 0 c i/e 1 h 0/k 0 s 1 0 b1/",
        "1 line 3: false state 0 ;",
    ),
    // what an action adds is true after it, also where it deletes it
    (
        ADDS_WHAT_IT_DELETES,
        "a 0 a/e 0 h 1 1 0/e 1 p 0 0/k 0 s 1 0 b2/",
        "1 no conclusion",
    ),
];

// Whether `check` of this proof for the key task tells one of these answers within the budget.
fn tells_within(
    alloc: Global,
    budget: &str,
    proof: &str,
    answers: &str,
) -> Result<bool, AllocError> {
    let words = format!(in alloc; "check task proof --budget {budget}")?;
    tells(alloc, words.as_str(), KEY_TASK, proof, answers)
}

/// Asserts that each proof for the key task is answered within its budget.
pub(crate) fn all_within(rt: &impl Abort, alloc: Global, rows: &[(&str, &str, &str)]) {
    for (budget, proof, answers) in rows {
        assert!(rt;
            tells_within(alloc, budget, proof, answers) == Ok(true),
            "{proof}"
        );
    }
}

// Asserts that each task and proof is answered within the standard budget.
fn all_of_tasks(rt: &impl Abort, alloc: Global, rows: &[(&str, &str, &str)]) {
    for (task, proof, answers) in rows {
        assert!(rt;
            tells(alloc, STANDARD, task, proof, answers) == Ok(true),
            "{proof}"
        );
    }
}

// Asserts that all of the key task are.
fn all_of_key_task(rt: &impl Abort, alloc: Global) {
    all_within(rt, alloc, &ROWS);
}

#[test]
fn judges_basic_statements(rt: HostRuntime) {
    all_of_key_task(&rt, rt.alloc());
    all_of_tasks(&rt, rt.alloc(), &OTHER_TASKS);
}

// Puts 59 unions of the last set with itself last.
fn put_doublings(proof: &mut String) -> Result<(), AllocError> {
    for part in 0..59 {
        let set = part + 1;
        write!(proof, "e {set} u {part} {part}\n")?;
    }
    Ok(())
}

// Puts a set under these unions last, and one more of the last set with this one. Of the last set
// itself that makes one leaf, though 2^60 ways lead to it.
fn put_shared_proof(proof: &mut String, part: u32) -> Result<(), AllocError> {
    proof.push_str("e 0 h 1 -1 0\n")?;
    put_doublings(proof)?;
    write!(proof, "e 60 u {part} 59\nk 0 s 0 60 b1\n")
}

// 65,536 formulas without clauses.
fn put_formulas(proof: &mut String) -> Result<(), AllocError> {
    for set in 0..65536 {
        write!(proof, "e {set} h 0\n")?;
    }
    Ok(())
}

// The union of all of them, written as a chain.
fn put_unions(proof: &mut String) -> Result<(), AllocError> {
    proof.push_str("e 65536 u 0 1\n")?;
    for part in 2..65536 {
        let set = 65535 + part;
        let before = set - 1;
        write!(proof, "e {set} u {before} {part}\n")?;
    }
    Ok(())
}

// Puts these lines last, and whether the first formula is within the union with this identifier.
fn put_wide_proof(proof: &mut String, asked: u32) -> Result<(), AllocError> {
    put_formulas(proof)?;
    put_unions(proof)?;
    write!(proof, "k 0 s 0 {asked} b1\n")
}

// Whether `check` of these files tells this answer.
fn answers_of(alloc: Global, task: &[u8], proof: &[u8], answer: &str) -> Result<bool, AllocError> {
    let told = told(alloc, STANDARD, task, proof)?;
    is_text(alloc, told.as_slice(), answer)
}

// The same, of a task in short form.
fn answers(alloc: Global, task: &str, proof: &String, answer: &str) -> Result<bool, AllocError> {
    let task = written(alloc, task)?;
    answers_of(alloc, task.as_slice(), proof.as_bytes(), answer)
}

fn shared_answers(alloc: Global, part: u32, answer: &str) -> Result<bool, AllocError> {
    let mut proof = String::new(alloc);
    put_shared_proof(&mut proof, part)?;
    answers(alloc, KEY_TASK, &proof, answer)
}

fn wide_answers(alloc: Global, asked: u32, answer: &str) -> Result<bool, AllocError> {
    let mut proof = String::new(alloc);
    put_wide_proof(&mut proof, asked)?;
    answers(alloc, KEY_TASK, &proof, answer)
}

// The positive operand and 65,536 negative ones are one too many; without the last of them they
// are just as many as may be.
#[test]
fn a_statement_has_operands_up_to_the_limit(rt: HostRuntime) {
    assert!(rt; shared_answers(rt.alloc(), 59, "1 no conclusion") == Ok(true));
    assert!(rt; shared_answers(rt.alloc(), 60, "1 line 61: unknown") == Ok(true));
    assert!(rt; wide_answers(rt.alloc(), 131070, "1 line 131072: shape") == Ok(true));
    assert!(rt; wide_answers(rt.alloc(), 131069, "1 no conclusion") == Ok(true));
}

// Puts a task of 130 atoms without actions last; the first holds at the start, and the last is
// wanted.
fn put_long_task(task: &mut String) -> Result<(), AllocError> {
    task.push_str("begin_atoms:130/")?;
    put_names(task, 130)?;
    task.push_str("end_atoms/begin_init/0/end_init/begin_goal/129/end_goal/")?;
    task.push_str("begin_actions:0/end_actions/")
}

// Puts the clause last that one atom implies another.
fn put_implication(proof: &mut String, first: u32, next: u32) -> Result<(), AllocError> {
    write!(proof, " -{first} {next} 0")
}

// Puts the clauses last that each atom implies the next one, from the last to the first, but for
// one implication that may be left out.
fn put_implications(proof: &mut String, left_out: u32) -> Result<(), AllocError> {
    for step in 0..129 {
        let first = 129 - step;
        if first != left_out {
            put_implication(proof, first, first + 1)?;
        }
    }
    Ok(())
}

// Puts a formula of these clauses last, and that the first atom is true. Asked is whether the last
// atom is true.
fn put_chain_proof(proof: &mut String, clauses: u32, left_out: u32) -> Result<(), AllocError> {
    write!(proof, "e 0 h {clauses}")?;
    put_implications(proof, left_out)?;
    proof.push_str(" 1 0\ne 1 h 1 130 0\nk 0 s 0 1 b1\n")
}

// Puts the atoms from 0 to 63 last.
fn put_front_atoms(text: &mut String) -> Result<(), AllocError> {
    for atom in 0..64 {
        write!(text, " {atom}")?;
    }
    Ok(())
}

// Puts their counterexample last.
fn put_clash(text: &mut String) -> Result<(), AllocError> {
    text.push_str("1 line 3: false state")?;
    put_front_atoms(text)?;
    text.push_str(" ;")
}

// Whether `check` of this proof for the long task tells this answer.
fn long_answers(alloc: Global, proof: &String, answer: &str) -> Result<bool, AllocError> {
    let mut task = String::new(alloc);
    put_long_task(&mut task)?;
    answers(alloc, task.as_str(), proof, answer)
}

fn chain_answers(
    alloc: Global,
    clauses: u32,
    left_out: u32,
    answer: &str,
) -> Result<bool, AllocError> {
    let mut proof = String::new(alloc);
    put_chain_proof(&mut proof, clauses, left_out)?;
    long_answers(alloc, &proof, answer)
}

// Whether the chain without an implication has the counterexample of the atoms before it.
fn broken_chain_answers(alloc: Global) -> Result<bool, AllocError> {
    let mut clash = String::new(alloc);
    put_clash(&mut clash)?;
    chain_answers(alloc, 129, 64, clash.as_str())
}

#[test]
fn follows_a_chain_of_clauses(rt: HostRuntime) {
    assert!(rt; chain_answers(rt.alloc(), 130, 0, "1 no conclusion") == Ok(true));
    assert!(rt; broken_chain_answers(rt.alloc()) == Ok(true));
}

// A node file of two nodes: node 2 is "not atom 1", and node 3 is "neither atom 0 nor atom 1".
const TWO_NODES: &str = "nodes 2/1 1 0/0 2 0/";

// A node file, a budget, a proof for the key task, and the texts of which one is the answer.
static NODES_ROWS: [(&str, &str, &str, &str); 19] = [
    // an order of the atoms in which the nodes stand; without it, and with an atom twice
    (
        "order 2 1 0/nodes 2/0 1 0/1 2 0/",
        "2",
        "e 0 h 2 -1 0 -2 0/e 1 b 3/k 0 s 0 1 b4/",
        "1 no conclusion",
    ),
    (
        "nodes 2/0 1 0/1 2 0/",
        "2",
        "e 0 h 2 -1 0 -2 0/e 1 b 3/k 0 s 0 1 b4/",
        "3 nodes line 3: place order",
    ),
    (
        "order 0 1 1/nodes 2/0 1 0/1 2 0/",
        "2",
        "e 0 h 2 -1 0 -2 0/e 1 b 3/k 0 s 0 1 b4/",
        "3 nodes line 1: place permutation",
    ),
    // a Horn formula within a diagram that has two paths to 0
    (
        TWO_NODES,
        "2",
        "e 0 h 2 -1 0 -2 0/e 1 b 3/k 0 s 0 1 b4/",
        "1 no conclusion",
    ),
    (
        TWO_NODES,
        "1",
        "e 0 h 2 -1 0 -2 0/e 1 b 3/k 0 s 0 1 b4/",
        "1 line 3: budget",
    ),
    // two live tuples, within the budget and beyond it
    (
        TWO_NODES,
        "2",
        "e 0 b 2/e 1 b 3/k 0 s 1 0 b1/",
        "1 no conclusion",
    ),
    (
        TWO_NODES,
        "1",
        "e 0 b 2/e 1 b 3/k 0 s 1 0 b1/",
        "1 line 3: budget",
    ),
    // four live tuples, all of them counted before a counterexample is told
    (
        TWO_NODES,
        "4",
        "e 0 b 2/e 1 b 3/k 0 s 0 1 b1/",
        "1 line 3: false state 0 ;|1 line 3: false state 0 2 ;",
    ),
    (
        TWO_NODES,
        "3",
        "e 0 b 2/e 1 b 3/k 0 s 0 1 b1/",
        "1 line 3: budget",
    ),
    // a node that is asked about after the action
    (
        TWO_NODES,
        "2",
        "a 0 a/e 0 b 2/e 1 p 0 0/k 0 s 1 0 b2/",
        "1 line 4: false action 0 state 0 ;|1 line 4: false action 0 state 0 2 ;",
    ),
    (
        TWO_NODES,
        "1",
        "a 0 a/e 0 b 2/e 1 p 0 0/k 0 s 1 0 b2/",
        "1 line 4: budget",
    ),
    // a node past the last
    (TWO_NODES, "1000000", "e 0 b 4/", "1 line 1: unknown"),
    // a proof by a diagram: nobody has the key
    ("nodes 1/2 1 0/", "1000000", "@e 3 b 2/%", "0 unsolvable"),
    // node files with a fault, which is told before the proof is read
    (
        "nodes 1/0 1 1/",
        "1000000",
        "e 1 c e/",
        "3 nodes line 2: place same_children",
    ),
    (
        "nodes 1/0 0 2/",
        "1000000",
        "",
        "3 nodes line 2: place child",
    ),
    (
        "nodes 2/0 0 1/0 0 1/",
        "1000000",
        "",
        "3 nodes line 3: place twin",
    ),
    (
        "nodes 2/0 0 1/1 2 1/",
        "1000000",
        "",
        "3 nodes line 3: place order",
    ),
    (
        "nodes 16777217/",
        "1000000",
        "",
        "3 nodes line 1: limit nodes",
    ),
    ("", "1000000", "", "3 nodes line 1: place header"),
];

// Whether the key task, a node file and a proof are told one of these answers within this budget.
fn tells_nodes_first(
    alloc: Global,
    budget: &str,
    nodes: &str,
    proof: &str,
    answers: &str,
) -> Result<bool, AllocError> {
    let words = format!(in alloc; "check task proof --nodes nodes --budget {budget}")?;
    tells_by_nodes(alloc, words.as_str(), nodes, proof, answers)
}

// The same, with the budget named before the nodes.
fn tells_budget_first(
    alloc: Global,
    budget: &str,
    nodes: &str,
    proof: &str,
    answers: &str,
) -> Result<bool, AllocError> {
    let words = format!(in alloc; "check task proof --budget {budget} --nodes nodes")?;
    tells_by_nodes(alloc, words.as_str(), nodes, proof, answers)
}

// The same with the options in either order.
fn tells_in_both_orders(
    alloc: Global,
    budget: &str,
    nodes: &str,
    proof: &str,
    answers: &str,
) -> Result<bool, AllocError> {
    let first = tells_nodes_first(alloc, budget, nodes, proof, answers)?;
    let second = tells_budget_first(alloc, budget, nodes, proof, answers)?;
    Ok(first & second)
}

// Asserts that each node file and proof is answered within its budget.
fn all_by_nodes(rt: &impl Abort, alloc: Global, rows: &[(&str, &str, &str, &str)]) {
    for (nodes, budget, proof, answers) in rows {
        assert!(rt;
            tells_in_both_orders(alloc, budget, nodes, proof, answers) == Ok(true),
            "{proof}"
        );
    }
}

#[test]
fn judges_by_node_files(rt: HostRuntime) {
    all_by_nodes(&rt, rt.alloc(), &NODES_ROWS);
}

// Node 2 is "not atom 1", node 3 is "neither atom 0 nor atom 1", and node 4 is "not both of them".
const THREE_NODES: &str = "nodes 3/1 1 0/0 2 0/0 1 2/";

// The sides of an inclusion, two formulas, and the texts of which one is the answer. The formulas
// are the sets 0 and 1, and sets 2 and 3 are their negations. Each claim costs 2.
static TWO_ROWS: [(&str, &str, &str, &str); 50] = [
    ("0 1", "x 2 0 ; 1 ;", "h 1 -3 0", "1 no conclusion"),
    (
        "0 1",
        "x 2 0 ; 2 ;",
        "h 1 -3 0",
        "1 line 5: false state 2 ;",
    ),
    ("0 1", "x 2 0 ; 1 ;", "t 1 -3 0", "1 no conclusion"),
    (
        "0 1",
        "x 2 0 ; 2 ;",
        "t 1 -3 0",
        "1 line 5: false state 2 ;",
    ),
    ("0 1", "x 2 0 ; 2 ;", "b 2", "1 no conclusion"),
    ("0 1", "x 2 0 ; 1 ;", "b 2", "1 line 5: false state 1 ;"),
    (
        "0 1",
        "h 3 -1 0 -2 0 -3 0",
        "t 2 -1 -2 0 -2 -3 0",
        "1 no conclusion",
    ),
    (
        "0 1",
        "h 1 -1 0",
        "t 2 -1 -2 0 -2 0",
        "1 line 5: false state 1 ;|1 line 5: false state 1 2 ;",
    ),
    (
        "0 1",
        "t 2 -1 0 -2 0",
        "h 2 -1 -3 0 -2 -3 0",
        "1 no conclusion",
    ),
    (
        "0 1",
        "t 1 1 2 0",
        "h 2 1 -2 0 1 -3 0",
        "1 line 5: false state 1 ;|1 line 5: false state 1 2 ;",
    ),
    ("0 1", "h 2 -1 0 -2 0", "b 3", "1 no conclusion"),
    (
        "0 1",
        "h 1 -1 0",
        "b 3",
        "1 line 5: false state 1 ;|1 line 5: false state 1 2 ;",
    ),
    ("0 1", "b 3", "h 2 -1 0 -2 0", "1 no conclusion"),
    (
        "0 1",
        "b 2",
        "h 2 -1 0 -2 0",
        "1 line 5: false state 0 ;|1 line 5: false state 0 2 ;",
    ),
    ("0 1", "t 2 -1 0 -2 0", "b 3", "1 no conclusion"),
    (
        "0 1",
        "t 1 -1 0",
        "b 3",
        "1 line 5: false state 1 ;|1 line 5: false state 1 2 ;",
    ),
    ("0 1", "b 3", "t 2 -1 0 -2 0", "1 no conclusion"),
    (
        "0 1",
        "b 2",
        "t 2 -1 0 -2 0",
        "1 line 5: false state 0 ;|1 line 5: false state 0 2 ;",
    ),
    ("0 3", "x 2 0 ; 1 ;", "h 1 3 0", "1 no conclusion"),
    ("0 3", "h 1 3 0", "x 2 0 ; 1 ;", "1 no conclusion"),
    ("0 3", "x 2 0 ; 2 ;", "h 1 3 0", "1 line 5: false state 2 ;"),
    ("0 3", "h 1 3 0", "x 2 0 ; 2 ;", "1 line 5: false state 2 ;"),
    ("0 3", "b 4", "h 2 1 0 2 0", "1 no conclusion"),
    ("0 3", "h 2 1 0 2 0", "b 4", "1 no conclusion"),
    (
        "0 3",
        "b 4",
        "h 1 2 0",
        "1 line 5: false state 1 ;|1 line 5: false state 1 2 ;",
    ),
    (
        "0 3",
        "h 1 2 0",
        "b 4",
        "1 line 5: false state 1 ;|1 line 5: false state 1 2 ;",
    ),
    ("0 3", "x 2 0 ; 1 ;", "t 1 3 0", "1 no conclusion"),
    ("0 3", "t 1 3 0", "x 2 0 ; 1 ;", "1 no conclusion"),
    ("0 3", "x 2 0 ; 2 ;", "t 1 3 0", "1 line 5: false state 2 ;"),
    ("0 3", "t 1 3 0", "x 2 0 ; 2 ;", "1 line 5: false state 2 ;"),
    ("0 3", "b 4", "t 2 1 0 2 0", "1 no conclusion"),
    ("0 3", "t 2 1 0 2 0", "b 4", "1 no conclusion"),
    (
        "0 3",
        "b 4",
        "t 1 2 0",
        "1 line 5: false state 1 ;|1 line 5: false state 1 2 ;",
    ),
    (
        "0 3",
        "t 1 2 0",
        "b 4",
        "1 line 5: false state 1 ;|1 line 5: false state 1 2 ;",
    ),
    ("0 3", "x 2 1 ; 0 1 ;", "b 2", "1 no conclusion"),
    ("0 3", "b 2", "x 2 1 ; 0 1 ;", "1 no conclusion"),
    ("0 3", "x 2 1 ; 0 ;", "b 2", "1 line 5: false state 0 ;"),
    ("0 3", "b 2", "x 2 1 ; 0 ;", "1 line 5: false state 0 ;"),
    ("2 1", "h 2 -1 0 -2 0", "t 1 1 2 0", "1 no conclusion"),
    (
        "2 1",
        "h 2 -1 0 -2 0",
        "t 1 1 0",
        "1 line 5: false state 1 ;|1 line 5: false state 1 2 ;",
    ),
    ("2 1", "t 2 -1 0 -2 0", "h 0", "1 no conclusion"),
    (
        "2 1",
        "t 2 -1 0 -2 0",
        "h 1 1 -2 0",
        "1 line 5: false state 1 ;|1 line 5: false state 1 2 ;",
    ),
    ("2 1", "h 2 1 0 2 0", "b 4", "1 no conclusion"),
    ("2 1", "b 4", "h 2 1 0 2 0", "1 no conclusion"),
    (
        "2 1",
        "h 2 1 0 2 0",
        "b 3",
        concat!(
            "1 line 5: false state 0 ;|1 line 5: false state 0 2 ;|1 line 5: false state 1 ;|",
            "1 line 5: false state 1 2 ;"
        ),
    ),
    (
        "2 1",
        "b 3",
        "h 2 1 0 2 0",
        concat!(
            "1 line 5: false state 0 ;|1 line 5: false state 0 2 ;|1 line 5: false state 1 ;|",
            "1 line 5: false state 1 2 ;"
        ),
    ),
    ("2 1", "t 2 1 0 2 0", "b 4", "1 no conclusion"),
    ("2 1", "b 4", "t 2 1 0 2 0", "1 no conclusion"),
    (
        "2 1",
        "t 2 1 0 2 0",
        "b 3",
        concat!(
            "1 line 5: false state 0 ;|1 line 5: false state 0 2 ;|1 line 5: false state 1 ;|",
            "1 line 5: false state 1 2 ;"
        ),
    ),
    (
        "2 1",
        "b 3",
        "t 2 1 0 2 0",
        concat!(
            "1 line 5: false state 0 ;|1 line 5: false state 0 2 ;|1 line 5: false state 1 ;|",
            "1 line 5: false state 1 2 ;"
        ),
    ),
];

// Inclusions that aren't offered.
static NOT_OFFERED: [(&str, &str, &str); 11] = [
    ("0 1", "h 0", "x 1 0 ;"),
    ("2 1", "h 0", "x 1 0 ;"),
    ("2 1", "x 1 0 ;", "h 0"),
    ("0 1", "t 0", "x 1 0 ;"),
    ("2 1", "t 0", "x 1 0 ;"),
    ("2 1", "x 1 0 ;", "t 0"),
    ("0 1", "b 2", "x 1 0 ;"),
    ("2 1", "b 2", "x 1 0 ;"),
    ("2 1", "x 1 0 ;", "b 2"),
    ("0 3", "h 0", "t 0"),
    ("0 3", "t 0", "h 0"),
];

// Whether a statement by `b4`, on line 5, tells one of these answers within this budget.
fn tells_inclusion(
    alloc: Global,
    sides: &str,
    formulas: (&str, &str),
    budget: &str,
    answers: &str,
) -> Result<bool, AllocError> {
    let (first, second) = formulas;
    let proof = format!(in alloc; "e 0 {first}/e 1 {second}/e 2 n 0/e 3 n 1/k 0 s {sides} b4/")?;
    tells_nodes_first(alloc, budget, THREE_NODES, proof.as_str(), answers)
}

// Whether the claim is answered rightly: at its cost, and within a budget below it.
fn is_right(
    alloc: Global,
    sides: &str,
    formulas: (&str, &str),
    answers: &str,
) -> Result<bool, AllocError> {
    let below = tells_inclusion(alloc, sides, formulas, "1", "1 line 5: budget")?;
    let right = tells_inclusion(alloc, sides, formulas, "2", answers)?;
    Ok(below & right)
}

// The first within the second is the negation of the second within that of the first.
fn is_right_turned(
    alloc: Global,
    sides: &str,
    formulas: (&str, &str),
    answers: &str,
) -> Result<bool, AllocError> {
    if sides != "0 1" {
        return Ok(true);
    }
    is_right(alloc, "3 2", formulas, answers)
}

// Both of these.
fn is_right_both_ways(
    alloc: Global,
    sides: &str,
    formulas: (&str, &str),
    answers: &str,
) -> Result<bool, AllocError> {
    let right = is_right(alloc, sides, formulas, answers)?;
    let turned = is_right_turned(alloc, sides, formulas, answers)?;
    Ok(right & turned)
}

/// Asserts that each inclusion is answered rightly, both ways.
pub(crate) fn all_right(rt: &impl Abort, alloc: Global, rows: &[(&str, &str, &str, &str)]) {
    for (sides, first, second, answers) in rows {
        assert!(rt; is_right_both_ways(alloc, sides, (*first, *second), answers) == Ok(true));
    }
}

#[test]
fn judges_inclusions_between_two_families(rt: HostRuntime) {
    all_right(&rt, rt.alloc(), &TWO_ROWS);
}

/// Asserts that none of these inclusions is offered.
pub(crate) fn none_offered(rt: &impl Abort, alloc: Global, rows: &[(&str, &str, &str)]) {
    for (sides, first, second) in rows {
        let answers = "1 line 5: not offered";
        assert!(rt; tells_inclusion(alloc, sides, (*first, *second), "2", answers) == Ok(true));
    }
}

#[test]
fn tells_which_inclusions_are_not_offered(rt: HostRuntime) {
    none_offered(&rt, rt.alloc(), &NOT_OFFERED);
}

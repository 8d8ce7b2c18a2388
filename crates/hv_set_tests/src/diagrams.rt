//! Tests of node files, of sets by nodes, and of queries over them.

ghost use Rattle.std.specs.Prelude.{[], ◌∷◌, ◌≡◌, ◌<◌, ◌≤◌, ◌^◌, false, None, IfOk, IfSome, OnOk};
ghost use Rattle.std.specs.Prelude.{length};
ghost use Rattle.hv_task.specs.State.{AreBelow};
ghost use Rattle.hv_task.specs.Strips.{IsOver, atoms};
ghost use Rattle.hv_sets.specs.Query.{IsNamed, IsReady};
ghost use Rattle.hv_bdd.specs.Nodes.{node_count};

use crate::three_atoms::task_of_three;
use hv_bdd::{Diagrams, NodesFault, read_nodes};
use hv_bytes::{Limits, MemoryShelf, SureShelf};
use hv_paths::{Asker, InsideAsked, InsideWalked, OutsideAsked, OutsideWalked, Walker, meet_along};
use hv_sets::{
    Cube, Cursor, Family, Finding, Inside, Operand, Operands, Outside, Query, Scratch, Step, Which,
};
use hv_task::{Action, AtomList, Name, State, Task};
use std::alloc::{AllocError, Global};

const NAME: &str = "nodes";

/// Node files over two atoms, and what is answered.
static FILES: [(&str, &str); 69] = [
    ("nodes 0", "read"),
    ("nodes 0\n", "read"),
    ("nodes 2\n1 1 0\n0 2 0\n", "read"),
    ("", "place 1 header"),
    ("\n", "place 1 header"),
    ("nodes", "place 1 header"),
    ("nodes ", "place 1 header"),
    ("nodes 01", "place 1 header"),
    ("nodes  1", "place 1 header"),
    ("nodes 1 ", "place 1 header"),
    ("nodes 1\r", "place 1 header"),
    ("Nodes 1", "place 1 header"),
    ("\nnodes 0", "place 1 header"),
    ("nodes 1000000000000000000", "place 1 header"),
    ("nodes 999999999999999999", "limit 1 nodes"),
    ("nodes 16777217", "limit 1 nodes"),
    ("nodes 16777216", "place 2 node"),
    ("nodes 1", "place 2 node"),
    ("nodes 1\n", "place 2 node"),
    ("nodes 1\n\n", "place 2 node"),
    ("nodes 1\n0 0", "place 2 node"),
    ("nodes 1\n0 0 ", "place 2 node"),
    ("nodes 1\n0 0 1 ", "place 2 node"),
    ("nodes 1\n 0 0 1", "place 2 node"),
    ("nodes 1\n0  0 1", "place 2 node"),
    ("nodes 1\n0 0 1 0", "place 2 node"),
    ("nodes 1\n00 0 1", "place 2 node"),
    ("nodes 1\n0 00 1", "place 2 node"),
    ("nodes 1\n0 0 01", "place 2 node"),
    ("nodes 1\n9 9 x", "place 2 node"),
    ("nodes 1\n2 0 1", "place 2 atom"),
    ("nodes 1\n2 9 9", "place 2 atom"),
    ("nodes 1\n4294967296 0 1", "place 2 atom"),
    ("nodes 1\n0 0 2", "place 2 child"),
    ("nodes 1\n0 2 2", "place 2 child"),
    ("nodes 1\n0 4294967296 1", "place 2 child"),
    ("nodes 2\n1 0 1\n1 1 4294967298", "place 3 child"),
    ("nodes 2\n0 0 1\n1 2 1", "place 3 order"),
    ("nodes 2\n0 0 1\n0 1 2", "place 3 order"),
    ("nodes 2\n0 0 1\n0 2 2", "place 3 order"),
    ("nodes 2\n1 0 1\n0 2 1", "read"),
    ("nodes 1\n0 1 1", "place 2 same_children"),
    ("nodes 2\n1 0 1\n0 2 2", "place 3 same_children"),
    ("nodes 2\n0 0 1\n0 0 1", "place 3 twin"),
    ("nodes 2\n0 0 1\n0 1 0", "read"),
    ("nodes 2\n0 0 1\n1 0 1", "read"),
    ("nodes 3\n1 0 1\n0 2 1\n1 0 1", "place 4 twin"),
    ("nodes 0\n0 0 1", "place 2 end"),
    ("nodes 1\n0 0 1\n\n", "place 3 end"),
    ("nodes 1\n0 0 1\n0 0 1", "place 3 end"),
    ("order 0 1\nnodes 0", "read"),
    ("order 1 0\nnodes 2\n0 0 1\n1 2 1\n", "read"),
    ("order", "place 1 permutation"),
    ("order 0", "place 1 permutation"),
    ("order 0 1 ", "place 1 permutation"),
    ("order  0 1", "place 1 permutation"),
    ("order 0 0", "place 1 permutation"),
    ("order 0 1 1", "place 1 permutation"),
    ("order 1 2", "place 1 permutation"),
    ("order 00 1", "place 1 permutation"),
    ("orders 0 1", "place 1 permutation"),
    (" order 0 1", "place 1 header"),
    ("order 0 1", "place 2 header"),
    ("order 0 1\norder 0 1", "place 2 header"),
    ("order 1 0\nnodes 16777217", "limit 2 nodes"),
    ("order 1 0\nnodes 2\n1 0 1\n0 2 1", "place 4 order"),
    ("order 1 0\nnodes 2\n0 0 1\n0 0 1", "place 4 twin"),
    ("order 1 0\nnodes 1\n0 0 1\n\n", "place 4 end"),
    ("nodes 0\norder 0 1", "place 2 end"),
];

// The nodes that the text over so many atoms is read as.
fn read(alloc: Global, text: &[u8], atoms: u32, limits: Limits) -> Result<Diagrams, NodesFault>
    requires line { limits.line ≤ 2 ^ 62 }
    requires file { limits.file ≤ 2 ^ 62 }
    ensures { IfOk result (λ list. list.atoms ≡ atoms) }
{
    let mut shelf = SureShelf::new(alloc);
    shelf.add(NAME, text)?;
    read_nodes(alloc, &mut shelf, NAME, atoms, limits)
}

// The fault, in the words of the program.
fn told(alloc: Global, fault: NodesFault) -> Result<String, AllocError> {
    match fault {
        NodesFault::Place(line, kind) => format!(in alloc; "place {line} {}", kind.word()),
        NodesFault::Limit(line, limit) => format!(in alloc; "limit {line} {}", limit.word()),
        NodesFault::ReadFault => format!(in alloc; "read fault"),
        NodesFault::Memory => Err(AllocError),
    }
}

// Whether the fault is told so.
fn is_told(alloc: Global, fault: NodesFault, want: &str) -> Result<bool, AllocError> {
    let told = told(alloc, fault)?;
    Ok(told.as_str() == want)
}

// Whether the file over so many atoms is answered so, in the words of the program.
fn is_answered(
    alloc: Global,
    text: &[u8],
    atoms: u32,
    limits: Limits,
    want: &str,
) -> Result<bool, AllocError>
    requires line { limits.line ≤ 2 ^ 62 }
    requires file { limits.file ≤ 2 ^ 62 }
{
    match read(alloc, text, atoms, limits).err() {
        None => Ok(want == "read"),
        Some(fault) => is_told(alloc, fault, want),
    }
}

#[test]
fn node_files_and_their_first_faults(rt: HostRuntime) {
    for (text, want) in &FILES {
        let told = is_answered(rt.alloc(), text.as_bytes(), 2, Limits::STANDARD, want);
        assert!(rt; told == Ok(true), "{text:?}");
    }
}

/// A file of two nodes.
const TWO_NODES: &[u8] = b"nodes 2\n1 1 0\n0 2 0\n";

// How a beginning of the file of so many bytes is answered.
fn wanted_of(end: usize) -> &'static str {
    if end <= 6 {
        "place 1 header"
    } else if end <= 12 {
        "place 2 node"
    } else if end <= 18 {
        "place 3 node"
    } else {
        "read"
    }
}

// Whether this beginning of the file is answered so.
fn beginning_tells(alloc: Global, end: usize) -> Result<bool, AllocError> {
    match TWO_NODES.get(..end) {
        Some(text) => is_answered(alloc, text, 2, Limits::STANDARD, wanted_of(end)),
        None => Ok(false),
    }
}

#[test]
fn each_beginning_of_a_file_is_refused_where_it_ends(rt: HostRuntime) {
    assert_eq!(rt; TWO_NODES.len(), 20);
    for end in 0..21 {
        assert!(rt;
            beginning_tells(rt.alloc(), end) == Ok(true),
            "cut at {end}"
        );
    }
}

/// A file of one node with an order.
const ORDERED: &[u8] = b"order 1 0\nnodes 1\n0 0 1\n";

// How a beginning of that file of so many bytes is answered.
fn wanted_of_ordered(end: usize) -> &'static str {
    if end <= 4 {
        "place 1 header"
    } else if end <= 8 {
        "place 1 permutation"
    } else if end <= 16 {
        "place 2 header"
    } else if end <= 22 {
        "place 3 node"
    } else {
        "read"
    }
}

// Whether this beginning of that file is answered so.
fn ordered_beginning_tells(alloc: Global, end: usize) -> Result<bool, AllocError> {
    match ORDERED.get(..end) {
        Some(text) => is_answered(alloc, text, 2, Limits::STANDARD, wanted_of_ordered(end)),
        None => Ok(false),
    }
}

#[test]
fn each_beginning_of_a_file_with_an_order_is_refused_where_it_ends(rt: HostRuntime) {
    assert_eq!(rt; ORDERED.len(), 24);
    for end in 0..25 {
        assert!(rt;
            ordered_beginning_tells(rt.alloc(), end) == Ok(true),
            "cut at {end}"
        );
    }
}

// Puts a node last: its atom, and its child beside 0.
fn push_node(text: &mut String, atom: u32, child: u32) -> Result<(), AllocError> {
    write!(text, "{atom} {child} 0\n")?;
    Ok(())
}

// Puts this line of a file of a hundred nodes last, each above the one before. The line `twin` is
// once more that of the node before it, and the line `broken` is none of a node.
fn push_line(text: &mut String, line: u32, twin: u32, broken: u32) -> Result<(), AllocError>
    requires first { 2 ≤ line }
    requires last { line < 102 }
{
    if line == broken {
        text.push_str("none\n")?;
        return Ok(());
    }
    let node = if line == twin { line - 1 } else { line };
    push_node(text, 101 - node, node - 1)
}

// The file of these lines.
fn tall_file(alloc: Global, twin: u32, broken: u32) -> Result<String, AllocError> {
    let mut text = String::from_str(alloc, "nodes 100\n")?;
    for line in 2..102_u32 {
        push_line(&mut text, line, twin, broken)?;
    }
    Ok(text)
}

// Whether such a file is answered so.
fn tall_file_tells(alloc: Global, twin: u32, broken: u32, want: &str) -> Result<bool, AllocError> {
    let text = tall_file(alloc, twin, broken)?;
    is_answered(alloc, text.as_bytes(), 100, Limits::STANDARD, want)
}

/// The lines of a twin and of what is no node, and the answer.
static TALL_FILES: [(u32, u32, &str); 8] = [
    (0, 0, "read"),
    (3, 0, "place 3 twin"),
    (67, 0, "place 67 twin"),
    (101, 0, "place 101 twin"),
    (3, 80, "place 3 twin"),
    (66, 67, "place 66 twin"),
    (67, 66, "place 66 node"),
    (80, 3, "place 3 node"),
];

#[test]
fn nodes_are_tested_in_the_order_of_their_lines(rt: HostRuntime) {
    for (twin, broken, want) in &TALL_FILES {
        let told = tall_file_tells(rt.alloc(), *twin, *broken, want);
        assert!(rt; told == Ok(true), "twin {twin}, broken {broken}");
    }
}

/// A file of one node.
const ONE_NODE: &[u8] = b"nodes 1\n0 0 1\n";

/// The limits of a line and of a file, and the answer.
static LENGTHS: [(u8, u8, &str); 5] = [
    (7, 13, "read"),
    (6, 13, "limit 1 long"),
    (7, 12, "limit 2 long"),
    (7, 6, "limit 1 long"),
    (4, 99, "limit 1 long"),
];

// Whether the file of one node is answered so within the limits.
fn tells_within(alloc: Global, line: u8, file: u8, want: &str) -> Result<bool, AllocError> {
    let limits = Limits {
        line: line as u64,
        file: file as u64,
    };
    is_answered(alloc, ONE_NODE, 2, limits, want)
}

#[test]
fn lines_and_files_within_limits(rt: HostRuntime) {
    for (line, file, want) in &LENGTHS {
        let told = tells_within(rt.alloc(), *line, *file, want);
        assert!(rt; told == Ok(true), "line {line} file {file}");
    }
}

// A shelf with the file of one node whose call of this number fails.
fn failing_shelf(alloc: Global, call: u64) -> Result<MemoryShelf, AllocError> {
    let mut shelf = MemoryShelf::new(alloc, 7);
    shelf.add(NAME, ONE_NODE)?;
    shelf.fail_at(call)?;
    Ok(shelf)
}

// Whether the shelf fails before the nodes are read.
fn fails(alloc: Global, shelf: &mut MemoryShelf) -> Result<bool, NodesFault> {
    match read_nodes(alloc, shelf, NAME, 2, Limits::STANDARD).err() {
        None => Ok(false),
        Some(NodesFault::ReadFault) => Ok(true),
        Some(fault) => Err(fault),
    }
}

// Whether the file isn't read where the shelf's call of this number fails.
fn fails_at(alloc: Global, call: u64) -> Result<bool, NodesFault> {
    let mut shelf = failing_shelf(alloc, call)?;
    fails(alloc, &mut shelf)
}

#[test]
fn failing_reads(rt: HostRuntime) {
    // The open, two reads of seven bytes, and the read of no bytes.
    assert!(rt; fails_at(rt.alloc(), 1) == Ok(true));
    assert!(rt; fails_at(rt.alloc(), 2) == Ok(true));
    assert!(rt; fails_at(rt.alloc(), 3) == Ok(true));
    assert!(rt; fails_at(rt.alloc(), 4) == Ok(true));
    assert!(rt; fails_at(rt.alloc(), 5) == Ok(false));
}

/// Six nodes over three atoms: the last atom and its negation, the last two different and alike, an
/// odd number of atoms, and the first atom with the last two different.
const SIX: &[u8] = b"nodes 6\n2 0 1\n2 1 0\n1 2 3\n1 3 2\n0 4 5\n0 0 4\n";

/// For each of the nodes 0 to 7, which states are in it: the eight states in the order of their
/// numbers, whose bits are the atoms.
const SETS: [&[u8; 8]; 8] = [
    b"00000000",
    b"11111111",
    b"00001111",
    b"11110000",
    b"00111100",
    b"11000011",
    b"01101001",
    b"00010100",
];

// Whether the state of this number is in the node of this one.
fn is_in(node: usize, number: usize) -> bool
    requires node { node < 8 }
    requires number { number < 8 }
{
    SETS[node][number] == b'1'
}

// The state of this number.
fn state_of(alloc: Global, number: usize) -> Result<State, AllocError>
    ensures { IfOk result (λ state. length state ≡ 3) }
{
    let mut state = State::empty(alloc, 3)?;
    state.set(0, number % 2 == 1);
    state.set(1, number / 2 % 2 == 1);
    state.set(2, number / 4 % 2 == 1);
    Ok(state)
}

// The number of the state.
fn number_of(state: &State) -> usize
    requires { length state.now ≡ 3 }
    ensures { result < 8 }
{
    let mut number = 0;
    if state.has(0) {
        number += 1;
    }
    if state.has(1) {
        number += 2;
    }
    if state.has(2) {
        number += 4;
    }
    number
}

// The list of this atom.
fn one_atom(alloc: Global, atom: u32) -> Result<AtomList, AllocError>
    requires { atom < 3 }
    ensures { IfOk result (λ list. AreBelow 3 list) }
{
    let mut list = AtomList::new(alloc);
    list.insert(atom)?;
    Ok(list)
}

// Gives the action its lists: from atom 0 to atom 1.
fn set_lists(alloc: Global, action: &mut Action) -> Result<(), AllocError>
    ensures { OnOk result (IsOver 3 action.new) }
{
    action.pre = one_atom(alloc, 0)?;
    action.add = one_atom(alloc, 1)?;
    action.del = one_atom(alloc, 0)?;
    Ok(())
}

// The action with these lists.
fn going(alloc: Global) -> Result<Action, AllocError>
    ensures { IfOk result (λ action. IsOver 3 action) }
{
    let mut action = Action {
        name: Name::new(alloc, b"go")?,
        cost: 1,
        pre: AtomList::new(alloc),
        add: AtomList::new(alloc),
        del: AtomList::new(alloc),
    };
    set_lists(alloc, &mut action)?;
    Ok(action)
}

// Sets the initial state, which has atom 0 alone, and the goal, which is atom 2.
fn set_ends(alloc: Global, task: &mut Task) -> Result<(), AllocError>
    requires { atoms task.old ≡ 3 }
    ensures atoms { atoms task.new ≡ atoms task.old }
    ensures actions { task.new.actions ≡ task.old.actions }
{
    task.set_start(one_atom(alloc, 0)?);
    task.set_goal(one_atom(alloc, 2)?);
    Ok(())
}

// Sets the ends of three atoms, and puts the action that leads from atom 0 to atom 1.
fn put_going(alloc: Global, task: &mut Task) -> Result<(), AllocError>
    requires atoms { atoms task.old ≡ 3 }
    requires actions { length task.old.actions ≡ 0 }
    ensures atoms { OnOk result (atoms task.new ≡ 3) }
    ensures actions { OnOk result (length task.new.actions ≡ 1) }
{
    set_ends(alloc, task)?;
    let action = going(alloc)?;
    let _number = task.add_action(action)?;
    Ok(())
}

// Three atoms with these ends and this action.
fn task_of_going(alloc: Global) -> Result<Task, AllocError>
    ensures atoms { IfOk result (λ task. atoms task ≡ 3) }
    ensures actions { IfOk result (λ task. length task.actions ≡ 1) }
{
    let mut task = task_of_three(alloc)?;
    put_going(alloc, &mut task)?;
    Ok(task)
}

// The list of this operand.
fn operands_of(alloc: Global, operand: Operand) -> Result<Operands, AllocError>
    ensures { IfOk result (λ operands. operands ≡ operand ∷ []) }
{
    let mut operands = Operands::new(alloc);
    operands.push(operand)?;
    Ok(operands)
}

// The query for a state in the one set and not in the other, each asked about the state before the
// action or after it.
fn query_of(
    alloc: Global,
    positive: Operand,
    negative: Operand,
    action: Option<u32>,
) -> Result<Query, AllocError>
    requires positive { IsNamed 8 positive.which }
    requires negative { IsNamed 8 negative.which }
    requires ids { positive.id < negative.id }
    requires before { action ≡ None → positive.after ≡ false }
    requires before_too { action ≡ None → negative.after ≡ false }
    ensures ready { IfOk result (IsReady 8) }
    ensures action { IfOk result (λ query. query.action ≡ action) }
{
    let positive = operands_of(alloc, positive)?;
    let negative = operands_of(alloc, negative)?;
    Ok(Query {
        positive,
        negative,
        action,
    })
}

// The answer to the query.
fn answer(
    alloc: Global,
    task: &Task,
    list: &Diagrams,
    query: &Query,
    budget: u64,
) -> Result<Finding, AllocError>
    requires atoms { list.now.atoms ≡ atoms task.now }
    requires nodes { node_count list.now ≡ 8 }
    requires ready { IsReady 8 query.now }
    requires action { IfSome query.now.action (λ a. a < length task.now.actions) }
{
    let mut scratch = Scratch::new(alloc)?;
    list.find(alloc, task, query, budget, &mut scratch)
}

// What is asked of nodes: for a state in the one set and not in the other, where the negative set
// is asked about after the action or before it.
#[derive(Clone, Copy)]
struct DiagramQuery {
    positive: Which,
    negative: Which,
    after: bool,
}

// The answer of a list of eight nodes. There is none where the list has another number of nodes.
fn ask(
    alloc: Global,
    task: &Task,
    list: &Diagrams,
    asked: DiagramQuery,
    budget: u64,
) -> Result<Option<Finding>, AllocError>
    requires atoms { list.now.atoms ≡ atoms task.now }
    requires actions { length task.now.actions ≡ 1 }
    requires positive { IsNamed 8 asked.positive }
    requires negative { IsNamed 8 asked.negative }
{
    if list.count() != 8 {
        return Ok(None);
    }
    let action = if asked.after { Some(0) } else { None };
    let first = Operand {
        which: asked.positive,
        id: 0,
        after: false,
    };
    let second = Operand {
        which: asked.negative,
        id: 1,
        after: asked.after,
    };
    let query = query_of(alloc, first, second, action)?;
    let found = answer(alloc, task, list, &query, budget)?;
    Ok(Some(found))
}

/// Node 2 has the states without atom 1, and node 3 those of them without atom 0. The others only
/// fill the list.
const TWO_SETS: &[u8] = b"nodes 6\n1 1 0\n0 2 0\n0 0 1\n0 1 0\n1 0 1\n2 0 1\n";

// Whether what is asked of these nodes is answered so for the task.
fn finds_in(
    alloc: Global,
    task: &Task,
    asked: DiagramQuery,
    budget: u64,
    want: Finding,
) -> Result<bool, NodesFault>
    requires atoms { atoms task.now ≡ 3 }
    requires actions { length task.now.actions ≡ 1 }
    requires positive { IsNamed 8 asked.positive }
    requires negative { IsNamed 8 asked.negative }
{
    let list = read(alloc, TWO_SETS, 3, Limits::STANDARD)?;
    let found = ask(alloc, task, &list, asked, budget)?;
    Ok(found == Some(want))
}

// The same for a task of three atoms with its action.
fn finds(alloc: Global, asked: DiagramQuery, budget: u64, want: Finding) -> Result<bool, NodesFault>
    requires positive { IsNamed 8 asked.positive }
    requires negative { IsNamed 8 asked.negative }
{
    let task = task_of_going(alloc)?;
    finds_in(alloc, &task, asked, budget, want)
}

#[test]
fn live_tuples_are_counted_before_a_state_is_answered(rt: HostRuntime) {
    let within = DiagramQuery {
        positive: Which::Set(3),
        negative: Which::Set(2),
        after: false,
    };
    assert!(rt; finds(rt.alloc(), within, 2, Finding::Empty) == Ok(true));
    assert!(rt; finds(rt.alloc(), within, 1, Finding::Over) == Ok(true));
    let beyond = DiagramQuery {
        positive: Which::Set(2),
        negative: Which::Set(3),
        after: false,
    };
    assert!(rt; finds(rt.alloc(), beyond, 4, Finding::Clash) == Ok(true));
    assert!(rt; finds(rt.alloc(), beyond, 3, Finding::Over) == Ok(true));
    let led_out = DiagramQuery {
        positive: Which::Set(2),
        negative: Which::Set(2),
        after: true,
    };
    assert!(rt; finds(rt.alloc(), led_out, 2, Finding::Clash) == Ok(true));
    assert!(rt; finds(rt.alloc(), led_out, 1, Finding::Over) == Ok(true));
    let none = DiagramQuery {
        positive: Which::Empty,
        negative: Which::Set(2),
        after: false,
    };
    assert!(rt; finds(rt.alloc(), none, 0, Finding::Empty) == Ok(true));
}

// Whether there are eight nodes, and just those of one number are one set. The program compares
// numbers of nodes: `same` is there for callers.
fn are_told_apart(list: &Diagrams) -> bool {
    if list.count() != 8 {
        return false;
    }
    let mut right = true;
    for node in 0..8_u32 {
        for other in 0..8_u32 {
            right &= list.same(node, other) == (node == other);
        }
    }
    right
}

// The same of the six nodes.
fn six_are_told_apart(alloc: Global) -> Result<bool, NodesFault> {
    let list = read(alloc, SIX, 3, Limits::STANDARD)?;
    Ok(are_told_apart(&list))
}

#[test]
fn nodes_are_told_apart(rt: HostRuntime) {
    assert!(rt; six_are_told_apart(rt.alloc()) == Ok(true));
}

/// How many paths lead from each node to 0, and to 1.
const PATHS: [(u64, u64); 8] = [
    (1, 0),
    (0, 1),
    (1, 1),
    (1, 1),
    (2, 2),
    (2, 2),
    (4, 4),
    (3, 2),
];

// One where it is so, and 0 elsewhere.
fn one_if(yes: bool) -> u64 {
    if yes { 1 } else { 0 }
}

// How many cubes of the walk over the complement have the state, and how many there are. No walk
// here has more than twenty.
fn outside_walk<S: Outside>(alloc: Global, set: &S, state: &State) -> Result<(u64, u64), AllocError>
    requires { S.atoms set.now ≡ length state.now }
{
    let mut cursor = Cursor::new(alloc);
    let mut cube = Cube::new(alloc);
    let mut having: u64 = 0;
    for turn in 0..20_u64 {
        match set.outside_next(&mut cursor, &mut cube)? {
            Step::Cube => having = having.saturating_add(one_if(cube.has(state))),
            _ => return Ok((having, turn)),
        }
    }
    Ok((having, 20))
}

// The same of the walk over the set. The program walks along paths: `inside_next` is there for
// callers.
fn inside_walk<S: Inside>(alloc: Global, set: &S, state: &State) -> Result<(u64, u64), AllocError>
    requires { S.atoms set.now ≡ length state.now }
{
    let mut cursor = Cursor::new(alloc);
    let mut cube = Cube::new(alloc);
    let mut having: u64 = 0;
    for turn in 0..20_u64 {
        match set.inside_next(&mut cursor, &mut cube)? {
            Step::Cube => having = having.saturating_add(one_if(cube.has(state))),
            _ => return Ok((having, turn)),
        }
    }
    Ok((having, 20))
}

// Whether the paths of the node are counted up to this bound, and one more where there are more.
fn are_counted(alloc: Global, list: &Diagrams, node: usize, cap: u64) -> Result<bool, AllocError>
    requires nodes { node_count list.now ≡ 8 }
    requires node { node < 8 }
    requires cap { cap ≤ 100 }
{
    let set = list.set(node as u32);
    let (outside, inside) = PATHS[node];
    let mut right = set.outside_count(alloc, cap)? == outside.min(cap + 1);
    right &= set.inside_count(alloc, cap)? == inside.min(cap + 1);
    Ok(right)
}

// The same for some bounds.
fn are_all_counted(alloc: Global, list: &Diagrams, node: usize) -> Result<bool, AllocError>
    requires nodes { node_count list.now ≡ 8 }
    requires node { node < 8 }
{
    let mut right = are_counted(alloc, list, node, 0)?;
    right &= are_counted(alloc, list, node, 1)?;
    right &= are_counted(alloc, list, node, 3)?;
    right &= are_counted(alloc, list, node, 100)?;
    Ok(right)
}

// Whether just the one of the node's two walks passes the state, in one cube.
fn part_state(
    alloc: Global,
    list: &Diagrams,
    node: usize,
    number: usize,
) -> Result<bool, AllocError>
    requires atoms { list.now.atoms ≡ 3 }
    requires nodes { node_count list.now ≡ 8 }
    requires node { node < 8 }
    requires number { number < 8 }
{
    let set = list.set(node as u32);
    let (outside, inside) = PATHS[node];
    let held = is_in(node, number);
    let state = state_of(alloc, number)?;
    let mut right = inside_walk(alloc, &set, &state)? == (one_if(held), inside);
    right &= outside_walk(alloc, &set, &state)? == (one_if(!held), outside);
    Ok(right)
}

// The same of all states.
fn part_all(alloc: Global, list: &Diagrams, node: usize) -> Result<bool, AllocError>
    requires atoms { list.now.atoms ≡ 3 }
    requires nodes { node_count list.now ≡ 8 }
    requires node { node < 8 }
{
    let mut right = true;
    for number in 0..8 {
        right &= part_state(alloc, list, node, number)?;
    }
    Ok(right)
}

// Whether the paths of the node among eight are counted and walked so.
fn is_walked(alloc: Global, list: &Diagrams, node: usize) -> Result<bool, AllocError>
    requires atoms { list.now.atoms ≡ 3 }
    requires node { node < 8 }
{
    if list.count() != 8 {
        return Ok(false);
    }
    let right = are_all_counted(alloc, list, node)?;
    Ok(right & part_all(alloc, list, node)?)
}

// The same of a node of the file of six.
fn is_walked_in_file(alloc: Global, node: usize) -> Result<bool, NodesFault>
    requires { node < 8 }
{
    let list = read(alloc, SIX, 3, Limits::STANDARD)?;
    Ok(is_walked(alloc, &list, node)?)
}

#[test]
fn walks_part_the_states(rt: HostRuntime) {
    for node in 0..8 {
        assert!(rt;
            is_walked_in_file(rt.alloc(), node) == Ok(true),
            "node {node}"
        );
    }
}

// Whether some state is in both nodes, or in neither.
fn is_some_of_both(left: usize, right: usize, inside: bool) -> bool
    requires left { left < 8 }
    requires right { right < 8 }
{
    for number in 0..8 {
        if is_in(left, number) == inside && is_in(right, number) == inside {
            return true;
        }
    }
    false
}

// Whether the walk over the one node meets the other, which is asked, exactly where some state is
// in both, and shows such a state; or the same of their complements.
fn is_met<W: Walker, A: Asker>(
    alloc: Global,
    walk: &mut W,
    asked: &mut A,
    left: usize,
    right: usize,
    inside: bool,
) -> Result<bool, AllocError>
    requires walked_atoms { W.atoms walk.old ≡ 3 }
    requires asked_atoms { A.atoms asked.old ≡ 3 }
    requires first { A.assumed asked.old ≡ [] }
    requires walk { W.stands walk.old }
    requires asked { A.stands asked.old }
    requires left { left < 8 }
    requires right { right < 8 }
{
    let mut scratch = Scratch::new(alloc)?;
    if meet_along(alloc, walk, asked, &mut scratch)? {
        let number = number_of(scratch.state());
        return Ok(is_in(left, number) == inside && is_in(right, number) == inside);
    }
    Ok(!is_some_of_both(left, right, inside))
}

// The same of a walk over the node itself.
fn is_met_along(
    alloc: Global,
    list: &Diagrams,
    left: usize,
    right: usize,
) -> Result<bool, AllocError>
    requires atoms { list.now.atoms ≡ 3 }
    requires nodes { node_count list.now ≡ 8 }
    requires left { left < 8 }
    requires right { right < 8 }
{
    let walked = list.set(left as u32);
    let other = list.set(right as u32);
    let mut walk = walked.walk_inside(alloc)?;
    let mut asked = other.ask_inside(alloc)?;
    is_met(alloc, &mut walk, &mut asked, left, right, true)
}

// The same of a walk over the complement.
fn is_met_outside(
    alloc: Global,
    list: &Diagrams,
    left: usize,
    right: usize,
) -> Result<bool, AllocError>
    requires atoms { list.now.atoms ≡ 3 }
    requires nodes { node_count list.now ≡ 8 }
    requires left { left < 8 }
    requires right { right < 8 }
{
    let walked = list.set(left as u32);
    let other = list.set(right as u32);
    let mut walk = walked.walk_outside(alloc, None)?;
    let mut asked = other.ask_outside(alloc)?;
    is_met(alloc, &mut walk, &mut asked, left, right, false)
}

// Whether both are right of the node among eight and each of them.
fn are_met(alloc: Global, list: &Diagrams, left: usize) -> Result<bool, AllocError>
    requires atoms { list.now.atoms ≡ 3 }
    requires left { left < 8 }
{
    if list.count() != 8 {
        return Ok(false);
    }
    let mut right = true;
    for other in 0..8 {
        right &= is_met_along(alloc, list, left, other)?;
        right &= is_met_outside(alloc, list, left, other)?;
    }
    Ok(right)
}

// The same of a node of the file of six.
fn are_met_in_file(alloc: Global, left: usize) -> Result<bool, NodesFault>
    requires { left < 8 }
{
    let list = read(alloc, SIX, 3, Limits::STANDARD)?;
    Ok(are_met(alloc, &list, left)?)
}

#[test]
fn paths_are_walked_as_all_states_say(rt: HostRuntime) {
    for node in 0..8 {
        assert!(rt;
            are_met_in_file(rt.alloc(), node) == Ok(true),
            "node {node}"
        );
    }
}

/// Files over three atoms, and the place of each atom.
static PLACED: [(&str, [u32; 3]); 3] = [
    ("nodes 0", [0, 1, 2]),
    ("order 0 1 2\nnodes 0", [0, 1, 2]),
    ("order 2 0 1\nnodes 0", [1, 2, 0]),
];

// Whether the three atoms have these places.
fn has_places(list: &Diagrams, places: &[u32; 3]) -> bool
    requires { list.now.atoms ≡ 3 }
{
    list.place(0) == places[0] && list.place(1) == places[1] && list.place(2) == places[2]
}

// The same of a file.
fn is_placed(alloc: Global, text: &[u8], places: &[u32; 3]) -> Result<bool, NodesFault> {
    let list = read(alloc, text, 3, Limits::STANDARD)?;
    Ok(has_places(&list, places))
}

// The place of the one atom of a task.
fn place_of_one(alloc: Global, text: &[u8]) -> Result<u32, NodesFault> {
    let list = read(alloc, text, 1, Limits::STANDARD)?;
    Ok(list.place(0))
}

// The place of the last atom of a task with as many as there may be.
fn last_place(alloc: Global) -> u32 {
    let list = Diagrams::none(alloc, 65535);
    list.place(65534)
}

#[test]
fn each_atom_has_its_place(rt: HostRuntime) {
    for (text, places) in &PLACED {
        assert!(rt;
            is_placed(rt.alloc(), text.as_bytes(), places) == Ok(true),
            "{text}"
        );
    }
    assert!(rt; place_of_one(rt.alloc(), b"nodes 0") == Ok(0));
    assert!(rt; place_of_one(rt.alloc(), b"order 0\nnodes 0") == Ok(0));
    assert_eq!(rt; last_place(rt.alloc()), 65534);
}

// How many nodes there are without a file.
fn count_without_file(alloc: Global) -> usize {
    let list = Diagrams::none(alloc, 3);
    list.count()
}

#[test]
fn has_two_nodes_without_a_file(rt: HostRuntime) {
    assert_eq!(rt; count_without_file(rt.alloc()), 2);
}

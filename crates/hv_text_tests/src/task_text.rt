//! Tests of task texts: spellings, cut texts, limits, failing reads, the canonical text.

ghost use Rattle.std.specs.Prelude.{◌<◌, ◌≤◌, ◌^◌, length};

use hv_bytes::{Limits, MemoryShelf, SureShelf};
use hv_task::Task;
use hv_task_text::{TaskFault, read_task, write_task};
use std::alloc::{AllocError, Global};

const NAME: &str = "task";

/// A task with two rooms and a key, line by line.
static KEY_TASK: [&str; 27] = [
    "begin_atoms:3",
    "Atom at(r, a)",
    "Atom at(r, b)",
    "Atom have(key)",
    "end_atoms",
    "begin_init",
    "0",
    "end_init",
    "begin_goal",
    "2",
    "end_goal",
    "begin_actions:2",
    "begin_action",
    "go a b",
    "cost:1",
    "PRE:0",
    "ADD:1",
    "DEL:0",
    "end_action",
    "begin_action",
    "go b a",
    "cost:1",
    "PRE:1",
    "ADD:0",
    "DEL:1",
    "end_action",
    "end_actions",
];

/// What is answered to a text: that it is read, or a fault, with its line and its word.
enum TextAnswer {
    Read,
    Place(u64, &'static str),
    Limit(u64, &'static str),
}

/// A line of the key task, what is in its place, and the answer.
static SPELLINGS: [(usize, &str, TextAnswer); 62] = [
    (1, "begin_atoms:3", TextAnswer::Read),
    (1, "begin_atoms:03", TextAnswer::Place(1, "begin_atoms")),
    (1, "begin_atoms:", TextAnswer::Place(1, "begin_atoms")),
    (1, "begin_atoms: 3", TextAnswer::Place(1, "begin_atoms")),
    (1, "begin_atoms:3 ", TextAnswer::Place(1, "begin_atoms")),
    (1, "begin_atoms:3\r", TextAnswer::Place(1, "begin_atoms")),
    (1, "Begin_atoms:3", TextAnswer::Place(1, "begin_atoms")),
    (1, "begin_atoms:-3", TextAnswer::Place(1, "begin_atoms")),
    (
        1,
        "begin_atoms:1000000000000000000",
        TextAnswer::Place(1, "begin_atoms"),
    ),
    (
        1,
        "begin_atoms:999999999999999999",
        TextAnswer::Limit(1, "atoms"),
    ),
    (1, "begin_atoms:70000", TextAnswer::Limit(1, "atoms")),
    (1, "begin_atoms:65536", TextAnswer::Limit(1, "atoms")),
    (1, "begin_atoms:65535", TextAnswer::Place(28, "atom_name")),
    (1, "begin_atoms:4", TextAnswer::Place(6, "end_atoms")),
    (1, "begin_atoms:2", TextAnswer::Place(4, "end_atoms")),
    (1, "begin_atoms:0", TextAnswer::Place(2, "end_atoms")),
    (1, "\nbegin_atoms:3", TextAnswer::Place(1, "begin_atoms")),
    (2, "", TextAnswer::Read),
    (2, "end_atoms", TextAnswer::Read),
    (2, "Atom at(r, b)", TextAnswer::Read),
    (2, " \t\r\0", TextAnswer::Read),
    (5, "end_atom", TextAnswer::Place(5, "end_atoms")),
    (5, "end_atoms ", TextAnswer::Place(5, "end_atoms")),
    (6, "begin_goal", TextAnswer::Place(6, "begin_init")),
    (7, "0\n0", TextAnswer::Read),
    (7, "2\n1\n0\n1", TextAnswer::Read),
    (7, "end_init", TextAnswer::Place(8, "begin_goal")),
    (7, "3", TextAnswer::Place(7, "init_atom")),
    (7, "00", TextAnswer::Place(7, "init_atom")),
    (7, "", TextAnswer::Place(7, "init_atom")),
    (7, " 0", TextAnswer::Place(7, "init_atom")),
    (7, "9\nfoo", TextAnswer::Place(7, "init_atom")),
    (8, "end_goal", TextAnswer::Place(8, "init_atom")),
    (9, "begin_init", TextAnswer::Place(9, "begin_goal")),
    (10, "2\n2", TextAnswer::Read),
    (10, "3", TextAnswer::Place(10, "goal_atom")),
    (11, "end_init", TextAnswer::Place(11, "goal_atom")),
    (
        12,
        "begin_actions:02",
        TextAnswer::Place(12, "begin_actions"),
    ),
    (
        12,
        "begin_actions:1000001",
        TextAnswer::Limit(12, "actions"),
    ),
    (
        12,
        "begin_actions:1000000",
        TextAnswer::Place(27, "begin_action"),
    ),
    (12, "begin_actions:1", TextAnswer::Place(20, "end_actions")),
    (12, "begin_actions:0", TextAnswer::Place(13, "end_actions")),
    (13, "begin_actions", TextAnswer::Place(13, "begin_action")),
    (14, "", TextAnswer::Read),
    (15, "cost:0", TextAnswer::Read),
    (15, "cost:4294967295", TextAnswer::Read),
    (15, "cost:4294967296", TextAnswer::Limit(15, "cost")),
    (15, "cost:01", TextAnswer::Place(15, "cost")),
    (15, "Cost:1", TextAnswer::Place(15, "cost")),
    (15, "cost:1\ncost:1", TextAnswer::Place(16, "action_line")),
    (16, "DEL:0\nPRE:2\nPRE:0\nADD:2", TextAnswer::Read),
    (16, "PRE:0\nPRE:0", TextAnswer::Read),
    (16, "PRE:00", TextAnswer::Place(16, "action_line")),
    (16, "PRE:3", TextAnswer::Place(16, "action_line")),
    (16, "PRE: 0", TextAnswer::Place(16, "action_line")),
    (16, "pre:0", TextAnswer::Place(16, "action_line")),
    (16, "PRE:0\r", TextAnswer::Place(16, "action_line")),
    (16, "", TextAnswer::Place(16, "action_line")),
    (19, "end_actions", TextAnswer::Place(19, "action_line")),
    (27, "end_action", TextAnswer::Place(27, "end_actions")),
    (27, "end_actions\n", TextAnswer::Place(28, "end")),
    (27, "end_actions\nend_actions", TextAnswer::Place(28, "end")),
];

// Puts the line and an LF last.
fn push_line(text: &mut Vec<u8>, line: &str) -> Result<(), AllocError> {
    text.extend_from_slice(line.as_bytes())?;
    text.push(b'\n')?;
    Ok(())
}

// The key task's text with this in place of the line of this number.
fn spelled(alloc: Global, number: usize, line: &str) -> Result<Vec<u8>, AllocError> {
    let mut text = Vec::new(alloc);
    for (place, whole) in KEY_TASK.iter().enumerate() {
        push_line(&mut text, if place + 1 == number { line } else { *whole })?;
    }
    Ok(text)
}

// The task that the text is read as.
fn read(alloc: Global, text: &[u8], limits: Limits) -> Result<Task, TaskFault>
    requires line { limits.line ≤ 2 ^ 62 }
    requires file { limits.file ≤ 2 ^ 62 }
{
    let mut shelf = SureShelf::new(alloc);
    shelf.add(NAME, text)?;
    read_task(alloc, &mut shelf, NAME, limits)
}

// Whether this is the fault of the answer.
fn is_told(fault: TaskFault, want: &TextAnswer) -> bool {
    match (fault, want) {
        (TaskFault::Place(line, kind), TextAnswer::Place(at, word)) => {
            line == *at && kind.word() == *word
        }
        (TaskFault::Limit(line, limit), TextAnswer::Limit(at, word)) => {
            line == *at && limit.word() == *word
        }
        _ => false,
    }
}

// Whether the text is answered so.
fn is_answered(alloc: Global, text: &[u8], limits: Limits, want: &TextAnswer) -> bool
    requires line { limits.line ≤ 2 ^ 62 }
    requires file { limits.file ≤ 2 ^ 62 }
{
    match read(alloc, text, limits).err() {
        None => matches!(want, TextAnswer::Read),
        Some(fault) => is_told(fault, want),
    }
}

// Whether the key task with this in place of a line is answered so within the limits.
fn tells(
    alloc: Global,
    number: usize,
    line: &str,
    limits: Limits,
    want: &TextAnswer,
) -> Result<bool, AllocError>
    requires line { limits.line ≤ 2 ^ 62 }
    requires file { limits.file ≤ 2 ^ 62 }
{
    let text = spelled(alloc, number, line)?;
    Ok(is_answered(alloc, text.as_slice(), limits, want))
}

#[test]
fn spellings_of_a_task(rt: HostRuntime) {
    for (number, line, want) in &SPELLINGS {
        let told = tells(rt.alloc(), *number, line, Limits::STANDARD, want);
        assert!(rt; told == Ok(true), "line {number} as {line}");
    }
}

// Whether the task of the one text is written as the other.
fn is_written_as(alloc: Global, text: &[u8], want: &[u8]) -> Result<bool, TaskFault> {
    let task = read(alloc, text, Limits::STANDARD)?;
    let written = write_task(alloc, &task)?;
    Ok(written.as_bytes() == want)
}

// Whether the key task with this in place of the one line is written as with that in place of the
// other.
fn is_rewritten(
    alloc: Global,
    one: (usize, &str),
    other: (usize, &str),
) -> Result<bool, TaskFault> {
    let text = spelled(alloc, one.0, one.1)?;
    let want = spelled(alloc, other.0, other.1)?;
    is_written_as(alloc, text.as_slice(), want.as_slice())
}

#[test]
fn what_is_read_is_written_canonically(rt: HostRuntime) {
    assert!(rt; is_rewritten(rt.alloc(), (0, ""), (0, "")) == Ok(true));
    let lines = (18, "DEL:0\nADD:2\nPRE:0\nDEL:0");
    assert!(rt; is_rewritten(rt.alloc(), lines, (17, "ADD:1\nADD:2")) == Ok(true));
}

// Whether the text is read where it is cut before its last LF, and at no other place.
fn is_read_whole(alloc: Global, text: &[u8], end: usize) -> bool
    requires { end < length text.now }
{
    let read = is_answered(alloc, &text[..end], Limits::STANDARD, &TextAnswer::Read);
    read == (end + 1 == text.len())
}

// The first place where the cut text is answered otherwise.
fn first_other(alloc: Global, text: &[u8]) -> Option<usize> {
    for end in 0..text.len() {
        if !is_read_whole(alloc, text, end) {
            return Some(end);
        }
    }
    None
}

// The same of the key task.
fn first_other_cut(alloc: Global) -> Result<Option<usize>, AllocError> {
    let key = spelled(alloc, 0, "")?;
    Ok(first_other(alloc, key.as_slice()))
}

// Places, and how the text is answered that is cut there.
static CUTS: [(usize, TextAnswer); 5] = [
    (0, TextAnswer::Place(1, "begin_atoms")),
    (13, TextAnswer::Place(2, "atom_name")),
    (14, TextAnswer::Place(2, "atom_name")),
    (140, TextAnswer::Place(14, "action_name")),
    (147, TextAnswer::Place(15, "cost")),
];

// Whether the key task is answered so where it is cut at this place.
fn cut_tells(alloc: Global, end: usize, want: &TextAnswer) -> Result<bool, AllocError> {
    let key = spelled(alloc, 0, "")?;
    match key.as_slice().get(..end) {
        Some(text) => Ok(is_answered(alloc, text, Limits::STANDARD, want)),
        None => Ok(false),
    }
}

#[test]
fn cut_texts(rt: HostRuntime) {
    assert!(rt; first_other_cut(rt.alloc()) == Ok(None));
    for (end, want) in &CUTS {
        assert!(rt;
            cut_tells(rt.alloc(), *end, want) == Ok(true),
            "cut at {end}"
        );
    }
}

// A name of so many bytes.
fn name_of(alloc: Global, length: usize) -> Result<String, AllocError> {
    let mut name = String::new(alloc);
    for _ in 0..length {
        name.push('x')?;
    }
    Ok(name)
}

// Whether the key task is answered so where the line is a name of so many bytes.
fn tells_name(
    alloc: Global,
    number: usize,
    length: usize,
    want: &TextAnswer,
) -> Result<bool, AllocError> {
    let name = name_of(alloc, length)?;
    tells(alloc, number, name.as_str(), Limits::STANDARD, want)
}

// A line of the key task, how long the name is that is in its place, and the answer.
static NAMES: [(usize, usize, TextAnswer); 4] = [
    (2, 1024, TextAnswer::Read),
    (2, 1025, TextAnswer::Limit(2, "name")),
    (14, 1024, TextAnswer::Read),
    (14, 1025, TextAnswer::Limit(14, "name")),
];

#[test]
fn lengths_of_names(rt: HostRuntime) {
    for (number, length, want) in &NAMES {
        let told = tells_name(rt.alloc(), *number, *length, want);
        assert!(rt; told == Ok(true), "line {number} of {length} bytes");
    }
}

// First lines, the limits of a line and of a file, and the answer.
static LENGTHS: [(&str, u8, u16, TextAnswer); 8] = [
    ("begin_atoms:70000", 17, 1000, TextAnswer::Limit(1, "atoms")),
    ("begin_atoms:70000", 16, 1000, TextAnswer::Limit(1, "long")),
    ("begin_atoms:70000", 17, 16, TextAnswer::Limit(1, "long")),
    ("begin_atoms:3", 15, 250, TextAnswer::Read),
    ("begin_atoms:3", 15, 249, TextAnswer::Limit(27, "long")),
    ("begin_atoms:3", 14, 250, TextAnswer::Limit(12, "long")),
    ("begin_atoms:3", 13, 250, TextAnswer::Limit(4, "long")),
    ("begin_atoms:3", 15, 14, TextAnswer::Limit(2, "long")),
];

// Whether the key task with this first line is answered so within the limits.
fn tells_within(
    alloc: Global,
    first: &str,
    line: u8,
    file: u16,
    want: &TextAnswer,
) -> Result<bool, AllocError> {
    let limits = Limits {
        line: line as u64,
        file: file as u64,
    };
    tells(alloc, 1, first, limits, want)
}

#[test]
fn lengths_of_lines_and_files(rt: HostRuntime) {
    for (first, line, file, want) in &LENGTHS {
        let told = tells_within(rt.alloc(), first, *line, *file, want);
        assert!(rt; told == Ok(true), "{first}: line {line} file {file}");
    }
}

// A shelf with the text whose call of this number fails.
fn failing_shelf(alloc: Global, text: &[u8], call: u64) -> Result<MemoryShelf, AllocError> {
    let mut shelf = MemoryShelf::new(alloc, 100);
    shelf.add(NAME, text)?;
    shelf.fail_at(call)?;
    Ok(shelf)
}

// Whether the shelf fails before the task is read.
fn fails(alloc: Global, shelf: &mut MemoryShelf) -> Result<bool, TaskFault> {
    match read_task(alloc, shelf, NAME, Limits::STANDARD).err() {
        None => Ok(false),
        Some(TaskFault::ReadFault) => Ok(true),
        Some(fault) => Err(fault),
    }
}

// Whether the key task isn't read where the shelf's call of this number fails.
fn fails_at(alloc: Global, call: u64) -> Result<bool, TaskFault> {
    let key = spelled(alloc, 0, "")?;
    let mut shelf = failing_shelf(alloc, key.as_slice(), call)?;
    fails(alloc, &mut shelf)
}

#[test]
fn failing_reads(rt: HostRuntime) {
    assert!(rt; fails_at(rt.alloc(), 1) == Ok(true));
    assert!(rt; fails_at(rt.alloc(), 2) == Ok(true));
    assert!(rt; fails_at(rt.alloc(), 4) == Ok(true));
    assert!(rt; fails_at(rt.alloc(), 5) == Ok(true));
    assert!(rt; fails_at(rt.alloc(), 6) == Ok(false));
}

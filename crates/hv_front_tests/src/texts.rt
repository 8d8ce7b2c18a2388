//! Tasks of these tests, from their texts.

use hv_bytes::{Limits, SureShelf};
use hv_task::Task;
use hv_task_text::{TaskFault, read_task};
use std::alloc::{AllocError, Global};

const NAME: &str = "task";

/// Three atoms, the first at the start and the second as goal. An action leads from the first to
/// the second, and one back.
pub static BACK_AND_FORTH: [&str; 27] = [
    "begin_atoms:3",
    "Atom p",
    "Atom q",
    "Atom r",
    "end_atoms",
    "begin_init",
    "0",
    "end_init",
    "begin_goal",
    "1",
    "end_goal",
    "begin_actions:2",
    "begin_action",
    "forth",
    "cost:1",
    "PRE:0",
    "ADD:1",
    "DEL:0",
    "end_action",
    "begin_action",
    "back",
    "cost:1",
    "PRE:1",
    "ADD:0",
    "DEL:1",
    "end_action",
    "end_actions",
];

/// Puts the line and an LF last.
pub fn push_line(text: &mut Vec<u8>, line: &str) -> Result<(), AllocError> {
    text.extend_from_slice(line.as_bytes())?;
    text.push(b'\n')?;
    Ok(())
}

/// The text of these lines.
pub fn joined(alloc: Global, lines: &[&str]) -> Result<Vec<u8>, AllocError> {
    let mut text = Vec::new(alloc);
    for line in lines {
        push_line(&mut text, line)?;
    }
    Ok(text)
}

/// The task of this text.
pub fn read(alloc: Global, text: &[u8]) -> Result<Task, TaskFault> {
    let mut shelf = SureShelf::new(alloc);
    shelf.add(NAME, text)?;
    read_task(alloc, &mut shelf, NAME, Limits::STANDARD)
}

/// The task of these lines.
pub fn task_of(alloc: Global, lines: &[&str]) -> Result<Task, TaskFault> {
    let text = joined(alloc, lines)?;
    read(alloc, text.as_slice())
}

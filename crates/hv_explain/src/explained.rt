//! The text that tells which lines are needed.

ghost use Rattle.std.specs.Prelude.{◌≡◌, ◌++◌, IfOk, OnOk, reverse};
ghost use Rattle.hv_explain.specs.Explained.{IsExplanation, explained_line, explained_lines};
ghost use Rattle.hv_explain.specs.Explained.{need_word};
ghost use Rattle.hv_explain.specs.Working.Marks.{is_line_marked};

use crate::needed::needed;
use hv_bytes::Text;
use hv_lines::{Line, Table};
use hv_proof_text::write_line;
use std::alloc::{AllocError, Global};

/// A line for each `k` line of the table, in the order in which they were pushed: its spelling, one
/// space, and `needed` or `spare`, with an LF. The first line that says that the task is unsolvable
/// is needed, and so is each premise of a needed line; all others are spare.
pub fn explain(alloc: Global, table: &Table) -> Result<Text, AllocError>
    ensures { IfOk result (λ text. IsExplanation table.now.lines text) }
{
    let marks = needed(alloc, table)?;
    let text = explained(alloc, table, marks.as_slice())?;
    Ok(text)
}

// The text by the marks of the needed lines.
fn explained(alloc: Global, table: &Table, marks: &[bool]) -> Result<Text, AllocError>
    ensures { IfOk result (λ text.
        text ≡ explained_lines (λ id. is_line_marked marks.now id) (reverse table.now.lines)) }
{
    let mut text = Text::new(alloc);
    for place in 0..table.len() {
        push_explained(alloc, &mut text, table.line(place), marks)?;
    }
    Ok(text)
}

// Appends what is said of the line.
fn push_explained(
    alloc: Global,
    text: &mut Text,
    line: &Line,
    marks: &[bool],
) -> Result<(), AllocError>
    ensures { OnOk result
        (text.new ≡ text.old ++ explained_line (λ id. is_line_marked marks.now id) line.now) }
{
    match line {
        Line::Acts { .. } => Ok(()),
        Line::Expr { .. } => Ok(()),
        Line::Known { id, .. } => {
            let spelling = write_line(alloc, line)?;
            text.push_bytes(spelling.as_bytes())?;
            text.push_bytes(b" ")?;
            text.push_bytes(need_word(is_marked(marks, *id)))?;
            text.push_bytes(b"\n")
        }
    }
}

fn need_word(needed: bool) -> &'static [u8]
    ensures { result.now ≡ need_word needed }
{
    if needed { b"needed" } else { b"spare" }
}

fn is_marked(marks: &[bool], id: usize) -> bool
    ensures { result ≡ is_line_marked marks.now id }
{
    match marks.get(id) {
        Some(mark) => *mark,
        None => false,
    }
}

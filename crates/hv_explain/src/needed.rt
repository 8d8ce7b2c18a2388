//! Which lines are needed.
//!
//! A premise is before the line that it is one of. So one pass over the `k` lines from the last to
//! the first is enough: the first conclusion is marked, and a marked line marks its premises. The
//! text is written in one pass over all lines (`explained`).

ghost use Rattle.std.specs.Prelude.{◌≡◌, ◌<◌, ◌+◌, IfOk, IfSome, MatchOption, length};
ghost use Rattle.std.specs.List.{All};
ghost use Rattle.hv_lines.specs.Judged.{Concludes};
ghost use Rattle.hv_lines.specs.Numbering.{known_count};
ghost use Rattle.hv_explain.specs.Working.Marks.{AreMarkedFrom, MarkNeeded, mark_all};
ghost use Rattle.hv_explain.specs.Needed.{IsConclusion};

use hv_lines::{Statement, Table};
use std::alloc::{AllocError, Global};

/// A mark for each `k` line, by its identifier: whether the line is needed. A premise is before
/// the line that it is one of, so the lines are gone through once, from the last to the first.
pub(crate) fn needed(alloc: Global, table: &Table) -> Result<Vec<bool>, AllocError>
    ensures { IfOk result (λ marks. MarkNeeded table.now.lines marks.items) }
{
    let mut marks = conclusion_marked(alloc, table)?;
    for id in (0..table.known_count()).rev() {
        follow(table, id, &mut marks);
    }
    Ok(marks)
}

// The marks with the conclusion alone marked, where there is one.
fn conclusion_marked(alloc: Global, table: &Table) -> Result<Vec<bool>, AllocError>
    ensures { IfOk result (λ marks.
        AreMarkedFrom (known_count table.now.lines) table.now.lines marks.items) }
{
    let mut marks = vec![in alloc; false; table.known_count()]?;
    match conclusion(table) {
        Some(id) => {
            marks[id] = true;
            Ok(marks)
        }
        None => Ok(marks),
    }
}

// The first line that says that the task is unsolvable.
fn conclusion(table: &Table) -> Option<usize>
    ensures found { MatchOption result (Concludes table.now.lines → ⊥)
        (λ id. IsConclusion table.now.lines id) }
    ensures below { IfSome result (λ id. id < known_count table.now.lines) }
{
    for id in 0..table.known_count() {
        if let Statement::Unsolvable = table.statement(id) {
            return Some(id);
        }
    }
    None
}

// Marks the premises of the line, where the line is marked.
fn follow(table: &Table, id: usize, marks: &mut Vec<bool>)
    requires below { id < known_count table.now.lines }
    requires marked { AreMarkedFrom (id + 1) table.now.lines marks.old.items }
    ensures { AreMarkedFrom id table.now.lines marks.new.items }
{
    if marks[id] {
        mark_all(marks, table.premises(id).as_slice());
    }
}

fn mark_all(marks: &mut Vec<bool>, ids: &[usize])
    requires { All (λ id. id < length marks.old.items) ids.now }
    ensures { marks.new.items ≡ mark_all marks.old.items ids.now }
{
    for id in ids {
        marks[*id] = true;
    }
}

//! The lines by which the expanded states are dead, and the conclusion.

ghost use Rattle.std.specs.Prelude.{◌≡◌, ◌<◌, ◌≤◌, ◌+◌, ◌^◌, ℕ, IfOk, OnOk, OnErr};
ghost use Rattle.hv_task.specs.Strips.{IsTask};
ghost use Rattle.hv_lines.specs.Drafts.{IsGoodTable, IsShortLine, onto};
ghost use Rattle.hv_lines.specs.Judged.{Concludes};
ghost use Rattle.hv_lines.specs.Numbering.{expr_count, known_count};
ghost use Rattle.hv_lines.specs.Pruning.{Extends, states_in};
ghost use Rattle.hv_lines.specs.declared.line.Expr.TheVariants as E;
ghost use Rattle.hv_lines.specs.declared.line.Line.TheVariants as L;
ghost use Rattle.hv_replay.specs.ClosingLines.{closing_block, closing_lines};
ghost use Rattle.hv_replay.specs.Working.ClosingLines.{IsClosedSearch};
ghost use Rattle.hv_replay.specs.Working.PrunedLines.{IsPrunedUnion, most_pruned};

use crate::pruned::next_in;
use hv_lines::{Draft, Expr, Line, Note, Premises, Statement, Word, conclusion, dead_lines};
use hv_sets::StateList;
use hv_task::Task;
use std::alloc::{AllocError, Global};

/// Puts the twelve lines last with which the proof of a closed search ends: these expanded states
/// and the union of all pruned ones. It takes its memory before the first line.
pub(crate) fn push_closing(
    alloc: Global,
    draft: &mut Draft,
    task: &Task,
    states: StateList,
    union: Note,
) -> Result<(), AllocError>
    requires task { IsTask task.now }
    requires draft { IsGoodTable task.now draft.old.lines }
    requires union { (pruned : ℕ) × (pruned ≤ most_pruned)
        × IsPrunedUnion draft.old.lines pruned union }
    requires closed { IsClosedSearch task.now states
        (states_in task.now draft.old.lines union.set) }
    requires short { IsShortLine (L.Expr (expr_count draft.old.lines) (E.States states)) }
    ensures lines { OnOk result (draft.new.lines
        ≡ onto (closing_lines (expr_count draft.old.lines)
        (known_count draft.old.lines) states union)
        draft.old.lines) }
    ensures extends { Extends task.now draft.old.lines draft.new.lines }
    ensures concludes { OnOk result (Concludes draft.new.lines) }
    ensures err { OnErr result (draft.new.lines ≡ draft.old.lines) }
{
    draft.reserve(12)?;
    let next = next_in(draft.table());
    let block = closing_block(alloc, next, states, union)?;
    let end = conclusion(alloc, next.line + 5, next.set + 2, next.line + 4)?;
    draft.push_all(task, block);
    draft.push_all(task, end);
    Ok(())
}

// The nine lines which show that the expanded states are dead, and their union with the pruned
// ones; `next` has the identifiers of the set of the expanded states and of the first statement.
fn closing_block(
    alloc: Global,
    next: Note,
    states: StateList,
    union: Note,
) -> Result<Vec<Line>, AllocError>
    requires set { next.set + 3 < 2 ^ 64 }
    requires line { next.line + 4 < 2 ^ 64 }
    ensures { IfOk result (λ lines. lines.items
        ≡ closing_block next.set next.line states union) }
{
    let set = next.set;
    let id = next.line;
    let mut lines = vec![in alloc;
        Line::Expr {
            id: set,
            expr: Expr::States(states),
        },
    ]?;
    let mut rest = dead_lines(alloc, true, set, set, union, id)?;
    lines.append(&mut rest)?;
    lines.push(Line::Known {
        id: id + 4,
        statement: Statement::Dead(set + 2),
        word: Word::Ud,
        premises: Premises::two(id + 3, union.line),
    })?;
    Ok(lines)
}

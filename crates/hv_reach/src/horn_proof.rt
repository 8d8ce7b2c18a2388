//! Proofs by a Horn formula whose states are dead. The formula is a function of a test for
//! "reached", and the proof says that the test says what is reached; so the lines are determined,
//! and the code may keep its sets in any form.

ghost use Rattle.std.specs.Prelude.{◌≡◌, ◌<◌, ◌+◌, ◌^◌, IfOk};
ghost use Rattle.hv_task.specs.Strips.{IsTask};
ghost use Rattle.hv_lines.specs.Drafts.{IsGoodTable};
ghost use Rattle.hv_lines.specs.Judged.{Concludes};
ghost use Rattle.hv_reach.specs.Written.{dead_block, denied, horn_proof};
ghost use Rattle.hv_reach.specs.Working.Written.{Separates};

use hv_lines::{Draft, Expr, Line, Note, conclusion, dead_lines};
use hv_sets::{Clauses, Literal};
use hv_task::Task;
use std::alloc::{AllocError, Global};

/// The proof by a formula that holds the initial state and no goal state, and that no action leads
/// out of.
pub(crate) fn horn_proof(alloc: Global, task: &Task, clauses: Clauses) -> Result<Draft, AllocError>
    requires task { IsTask task.now }
    requires separates { Separates task.now clauses }
    ensures lines { IfOk result (λ draft. draft.lines ≡ horn_proof clauses) }
    ensures good { IfOk result (λ draft. IsGoodTable task.now draft.lines) }
    ensures concludes { IfOk result (λ draft. Concludes draft.lines) }
{
    let block = dead_block(alloc, 3, 1, clauses)?;
    let end = conclusion(alloc, 5, 3, 4)?;
    let mut draft = Draft::new(alloc, task)?;
    draft.reserve(11)?;
    draft.push_all(task, block);
    draft.push_all(task, end);
    Ok(draft)
}

/// The literal that denies the atom.
pub(crate) fn denied(atom: u32) -> Literal
    ensures { result ≡ denied atom }
{
    Literal {
        atom,
        positive: false,
    }
}

/// The eight lines which show that the states of the formula are dead; it becomes this set, and the
/// first statement has this identifier.
pub(crate) fn dead_block(
    alloc: Global,
    set: usize,
    id: usize,
    clauses: Clauses,
) -> Result<Vec<Line>, AllocError>
    requires set { set + 3 < 2 ^ 64 }
    requires id { id + 3 < 2 ^ 64 }
    ensures { IfOk result (λ lines. lines.items ≡ dead_block set id clauses) }
{
    let mut lines = vec![in alloc;
        Line::Expr {
            id: set,
            expr: Expr::Horn(clauses),
        },
    ]?;
    let mut rest = dead_lines(alloc, true, set, set, Note::empty(), id)?;
    lines.append(&mut rest)?;
    Ok(lines)
}

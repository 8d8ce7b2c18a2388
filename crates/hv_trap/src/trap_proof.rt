//! The proof by the greatest trap.

ghost use Rattle.std.specs.Prelude.{◌≡◌, ◌<◌, ◌≤◌, ◌↔◌, ◌+◌, ◌^◌, IsTrue, IfOk, IfErr, IfSome};
ghost use Rattle.std.specs.Prelude.{false, is_some, length};
ghost use Rattle.hv_task.specs.Strips.{atoms, start_state};
ghost use Rattle.hv_sets.specs.Truth.{in_clauses};
ghost use Rattle.hv_lines.specs.Drafts.{IsGoodTable};
ghost use Rattle.hv_lines.specs.Judged.{Concludes};
ghost use Rattle.hv_trap.specs.declared.fault.TrapFault.TheVariants as F;
ghost use Rattle.hv_trap.specs.Trap.{AreTrapClauses, IsSatisfied};
ghost use Rattle.hv_trap.specs.Written.{IsTrapProof, trap_block, trap_proof};

use crate::fault::TrapFault;
use crate::trap::greatest_trap;
use crate::trap_query::are_true_in;
use hv_lines::{Draft, Expr, Line, Note, conclusion, dead_lines};
use hv_sets::Clauses;
use hv_task::Task;
use std::alloc::{AllocError, Global};

/// The proof that the task has no plan where the initial state satisfies a conjunction of the
/// greatest trap; otherwise there is none.
pub fn prove_trap(alloc: Global, task: &Task) -> Result<Option<Draft>, TrapFault>
    ensures few { IfOk result (λ _. atoms task.now ≤ 64) }
    ensures many { IfErr result (λ fault. (fault ≡ F.TooManyAtoms) ↔ (64 < atoms task.now)) }
    ensures some { IfOk result (λ found. IsTrue (is_some found)
        ↔ IsSatisfied task.now (start_state task.now)) }
    ensures lines { IfOk result (λ found. IfSome found (λ draft.
        IsTrapProof task.now draft.lines)) }
    ensures good { IfOk result (λ found. IfSome found (λ draft.
        IsGoodTable task.now draft.lines)) }
    ensures concludes { IfOk result (λ found. IfSome found (λ draft. Concludes draft.lines)) }
{
    let clauses = greatest_trap(alloc, task)?;
    let found = proof_by(alloc, task, clauses)?;
    Ok(found)
}

// The proof by the clauses of the greatest trap, where the initial state breaks one.
fn proof_by(alloc: Global, task: &Task, clauses: Clauses) -> Result<Option<Draft>, AllocError>
    requires few { atoms task.now ≤ 64 }
    requires trap { AreTrapClauses task.now clauses }
    ensures some { IfOk result (λ found. IsTrue (is_some found)
        ↔ IsSatisfied task.now (start_state task.now)) }
    ensures lines { IfOk result (λ found. IfSome found (λ draft.
        IsTrapProof task.now draft.lines)) }
    ensures good { IfOk result (λ found. IfSome found (λ draft.
        IsGoodTable task.now draft.lines)) }
    ensures concludes { IfOk result (λ found. IfSome found (λ draft. Concludes draft.lines)) }
{
    let start = task.start_state(alloc)?;
    if are_true_in(&clauses, &start) {
        return Ok(None);
    }
    let draft = trap_proof(alloc, task, clauses)?;
    Ok(Some(draft))
}

// The proof by the clauses of the greatest trap.
fn trap_proof(alloc: Global, task: &Task, clauses: Clauses) -> Result<Draft, AllocError>
    requires few { atoms task.now ≤ 64 }
    requires trap { AreTrapClauses task.now clauses }
    requires start { in_clauses clauses (start_state task.now) ≡ false }
    ensures lines { IfOk result (λ draft. draft.lines ≡ trap_proof clauses) }
    ensures good { IfOk result (λ draft. IsGoodTable task.now draft.lines) }
    ensures concludes { IfOk result (λ draft. Concludes draft.lines) }
{
    let block = trap_block(alloc, 3, 1, clauses)?;
    let end = conclusion(alloc, 5, 4, 4)?;
    let mut draft = Draft::new(alloc, task)?;
    draft.reserve(12)?;
    draft.push_all(task, block);
    draft.push_all(task, end);
    Ok(draft)
}

/// The nine lines which show that the states outside the formula are dead; the formula becomes this
/// set, and the first statement has this identifier.
pub(crate) fn trap_block(
    alloc: Global,
    set: usize,
    id: usize,
    clauses: Clauses,
) -> Result<Vec<Line>, AllocError>
    requires set { set + 4 < 2 ^ 64 }
    requires id { id + 3 < 2 ^ 64 }
    ensures { IfOk result (λ lines. lines.items ≡ trap_block set id clauses) }
{
    let mut lines = vec![in alloc;
        Line::Expr {
            id: set,
            expr: Expr::Two(clauses),
        },
        Line::Expr {
            id: set + 1,
            expr: Expr::Not(set),
        },
    ]?;
    let mut rest = dead_lines(alloc, false, set, set + 1, Note::empty(), id)?;
    lines.append(&mut rest)?;
    Ok(lines)
}

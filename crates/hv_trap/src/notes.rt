//! Notes of the greatest trap: a block says that the states are dead which satisfy one of its
//! conjunctions.

ghost use Rattle.std.specs.Prelude.{◌≡◌, ◌≤◌, ◌+◌, ◌↔◌, ◌++◌, [], ◌∷◌, ℕ, List, IsTrue, IfOk, OnOk};
ghost use Rattle.std.specs.Prelude.{OnErr, Some, IfSome, is_some};
ghost use Rattle.std.specs.Option.{SomeIff};
ghost use Rattle.hv_task.specs.Strips.{IsState, atoms};
ghost use Rattle.hv_sets.specs.declared.literal.Literal.{Literal};
ghost use Rattle.hv_lines.specs.Drafts.{IsGoodTable, onto};
ghost use Rattle.hv_lines.specs.Numbering.{IsTable, expr_at, expr_count, known_count};
ghost use Rattle.hv_lines.specs.Pruning.{states_in};
ghost use Rattle.hv_lines.specs.declared.line.Expr.TheVariants as E;
ghost use Rattle.hv_lines.specs.declared.line.Line.{Line};
ghost use Rattle.hv_trap.specs.Pruner.{IsFormulaOf, IsTrapSet, TrapCovers};
ghost use Rattle.hv_trap.specs.Trap.{AreTrapClauses};
ghost use Rattle.hv_trap.specs.Written.{trap_block};

use crate::fault::TrapFault;
use crate::trap::greatest_trap;
use crate::trap_proof::trap_block;
use crate::trap_query::are_true_in;
use hv_lines::{Draft, Expr, Note, Table};
use hv_sets::Clauses;
use hv_task::{State, Task};
use std::alloc::{AllocError, Global};

/// The line of the note, where its set has the state.
pub(crate) fn line_for(task: &Task, table: &Table, note: Note, state: &State) -> Option<usize>
    requires table { IsTable table.now.lines }
    requires state { IsState task.now state.now }
    requires set { IsTrapSet task.now table.now.lines note.set }
    ensures { SomeIff result (states_in task.now table.now.lines note.set state.now) note.line }
{
    let formula = negated(table, note.set);
    if are_true_in(clauses_of(table, formula), state) {
        None
    } else {
        Some(note.line)
    }
}

/// The clauses of the greatest trap, where the state satisfies one of its conjunctions, in a task
/// of at most 64 atoms.
pub(crate) fn covering_clauses(
    alloc: Global,
    task: &Task,
    state: &State,
) -> Result<Option<Clauses>, AllocError>
    requires { IsState task.now state.now }
    ensures some { IfOk result (λ found. IsTrue (is_some found) ↔ TrapCovers task.now state.now) }
    ensures trap { IfOk result (λ found. IfSome found (λ clauses.
        AreTrapClauses task.now clauses)) }
{
    match greatest_trap(alloc, task) {
        Ok(clauses) => {
            if are_true_in(&clauses, state) {
                Ok(None)
            } else {
                Ok(Some(clauses))
            }
        }
        Err(TrapFault::TooManyAtoms) => Ok(None),
        Err(TrapFault::Memory) => Err(AllocError),
    }
}

/// Writes the block by the clauses of the greatest trap, and notes it. All memory is taken before
/// the first line is written.
pub(crate) fn write_block(
    alloc: Global,
    task: &Task,
    draft: &mut Draft,
    notes: &mut Vec<Note>,
    clauses: Clauses,
) -> Result<usize, AllocError>
    requires good { IsGoodTable task.now draft.old.lines }
    requires few { atoms task.now ≤ 64 }
    requires trap { AreTrapClauses task.now clauses }
    ensures lines { OnOk result (draft.new.lines ≡ onto (trap_block (expr_count draft.old.lines)
        (known_count draft.old.lines) clauses) draft.old.lines) }
    ensures line { IfOk result (λ line. line ≡ known_count draft.old.lines + 3) }
    ensures notes { OnOk result (notes.new.items ≡ notes.old.items ++ record {
      set = expr_count draft.old.lines + 1;
      line = known_count draft.old.lines + 3;
    } ∷ []) }
    ensures good { OnOk result (IsGoodTable task.now draft.new.lines) }
    ensures err_draft { OnErr result (draft.new ≡ draft.old) }
    ensures err_notes { OnErr result (notes.new.items ≡ notes.old.items) }
{
    let set = draft.table().expr_count();
    let id = draft.table().known_count();
    let block = trap_block(alloc, set, id, clauses)?;
    notes.reserve(1)?;
    draft.reserve(9)?;
    draft.push_all(task, block);
    notes.push_reserved(Note {
        set: set + 1,
        line: id + 3,
    });
    Ok(id + 3)
}

// The set of which this one is the negation.
fn negated(table: &Table, set: usize) -> usize
    requires table { IsTable table.now.lines }
    requires not { (formula : ℕ) × (expr_at table.now.lines set ≡ Some (E.Not formula)) }
    ensures { expr_at table.now.lines set ≡ Some (E.Not result) }
{
    match table.expr(set) {
        Expr::Not(formula) => *formula,
        _ => unreachable!(),
    }
}

// The clauses of the formula.
fn clauses_of(table: &Table, set: usize) -> &Clauses
    requires table { IsTable table.now.lines }
    requires formula { (clauses : List (List Literal)) × IsFormulaOf table.now.lines set clauses }
    ensures { IsFormulaOf table.now.lines set result.now }
{
    match table.expr(set) {
        Expr::Two(clauses) => clauses,
        _ => unreachable!(),
    }
}

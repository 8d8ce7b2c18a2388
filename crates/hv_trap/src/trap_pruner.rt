//! The pruner by the greatest trap.
//!
//! It computes the trap where no note is, and one note then answers for each state that it covers.
//! With the order of the program's pruners a state that isn't covered ends the replay, so the trap
//! is computed at most once in a replay.

ghost use Rattle.std.specs.Prelude.{◌≡◌, [], ◌↔◌, IsTrue, IfOk, IfSome, IfNone, OnErr, is_some};
ghost use Rattle.hv_task.specs.Strips.{IsState};
ghost use Rattle.hv_lines.specs.Drafts.{IsGoodTable};
ghost use Rattle.hv_lines.specs.Pruning.{Extends, IsPrunerAnswer, IsDeadBy};
ghost use Rattle.hv_lines.specs.Working.Pruning.{IsOutcome};
ghost use Rattle.hv_trap.specs.Pruner.{AreTrapNotes, IsTrapBlock, IsTrapSet, TrapCovers};

use crate::notes::{covering_clauses, line_for, write_block};
use hv_lines::{Draft, Note, Pruner};
use hv_task::{State, Task};
use std::alloc::{AllocError, Global};
use std::marker::Model;

/// A pruner that covers the states which satisfy a conjunction of the greatest trap, in tasks of at
/// most 64 atoms. For the first of them it writes that all such states are dead.
///
/// Once this is noted, the greatest trap is not looked for again.
#[derive(Drop)]
pub struct TrapPruner {
    // What was written, in order.
    notes: Vec<Note>,
}

impl Model for TrapPruner {
    ghost use Rattle.std.specs.Prelude.{List};
    ghost use Rattle.hv_lines.specs.declared.note.Note.{Note};

    ghost Value = { List Note };

    ghost view = { λ p. p.notes.items };
}

impl TrapPruner {
    /// The pruner without notes.
    pub fn new(alloc: Global) -> TrapPruner
        ensures { result ≡ [] }
    {
        TrapPruner {
            notes: Vec::new(alloc),
        }
    }

    /// The line of the first note whose literal holds the state. Where there is none and the state
    /// is covered, the block of the greatest trap is put last into the draft, and noted. After want
    /// of memory, draft and notes are as before.
    pub fn answer(
        &mut self,
        alloc: Global,
        task: &Task,
        draft: &mut Draft,
        state: &State,
    ) -> Result<Option<usize>, AllocError>
        requires good { IsGoodTable task.now draft.old.lines }
        requires fits { AreTrapNotes task.now draft.old.lines self.old }
        requires state { IsState task.now state.now }
        ensures answer { IfOk result (λ found. IsPrunerAnswer task.now (TrapCovers task.now)
            (IsTrapBlock task.now draft.old.lines) state.now found
            self.old draft.old self.new draft.new) }
        ensures some { IfOk result (λ found. IsTrue (is_some found)
            ↔ TrapCovers task.now state.now) }
        ensures dead { IfOk result (λ found. IfSome found (λ line.
            IsDeadBy task.now draft.new.lines state.now line)) }
        ensures extends { Extends task.now draft.old.lines draft.new.lines }
        ensures none { IfOk result (λ found. IfNone found (draft.new ≡ draft.old)) }
        ensures fits { AreTrapNotes task.now draft.new.lines self.new }
        ensures err_draft { OnErr result (draft.new ≡ draft.old) }
        ensures err_notes { OnErr result (self.new ≡ self.old) }
    {
        trap_answer(alloc, task, draft, &mut self.notes, state)
    }
}

impl Pruner for TrapPruner {
    ghost use Rattle.hv_trap.specs.Pruner.{AreTrapNotes, TrapCovers};
    ghost use Rattle.hv_trap.specs.Working.Fitting as fitting;

    ghost covers = { λ _ task state. TrapCovers task state };

    ghost fits = { λ notes task lines. AreTrapNotes task lines notes };

    fn begin(&mut self) {
        self.notes.clear();
    }

    fn justify(
        &mut self,
        alloc: Global,
        task: &Task,
        draft: &mut Draft,
        state: &State,
    ) -> Result<Option<usize>, AllocError> {
        self.answer(alloc, task, draft, state)
    }

    ghost fits_extensions = { λ notes task old new fits extends.
        fitting.notes_fit task old new notes fits extends };
}

// The answer by these notes. All of them are of one set, so the first tells whether a state is
// covered.
fn trap_answer(
    alloc: Global,
    task: &Task,
    draft: &mut Draft,
    notes: &mut Vec<Note>,
    state: &State,
) -> Result<Option<usize>, AllocError>
    requires good { IsGoodTable task.now draft.old.lines }
    requires fits { AreTrapNotes task.now draft.old.lines notes.old.items }
    requires state { IsState task.now state.now }
    ensures outcome { IfOk result (λ found. IsOutcome task.now (TrapCovers task.now)
        (IsTrapSet task.now) (IsTrapBlock task.now draft.old.lines) state.now found
        notes.old.items draft.old notes.new.items draft.new) }
    ensures err_draft { OnErr result (draft.new ≡ draft.old) }
    ensures err_notes { OnErr result (notes.new.items ≡ notes.old.items) }
{
    if let Some(note) = notes.as_slice().first().copied() {
        return Ok(line_for(task, draft.table(), note, state));
    }
    match covering_clauses(alloc, task, state)? {
        Some(clauses) => {
            let line = write_block(alloc, task, draft, notes, clauses)?;
            Ok(Some(line))
        }
        None => Ok(None),
    }
}

//! Pruners: they show of states that these are dead, each by a line of a draft.
//!
//! What a pruner covers and when its notes fit are members of the trait, with laws, and its notes
//! aren't: a caller asks a boxed pruner for lines and never looks at notes. What the notes of the
//! three pruners are is in the contract of their own call `answer`, which reserves capacity for the
//! whole block and builds its lines before the first is put, so running out of memory leaves draft
//! and notes as they were. What is after an answer is shown once, for notes of any kind of set that
//! stays of its kind when lines are put.

ghost use Rattle.std.specs.Prelude.{◌≡◌, ◌↔◌, Bool, List, IsTrue, IfOk, IfSome, IfNone, OnErr};
ghost use Rattle.std.specs.Prelude.{is_some};
ghost use Rattle.hv_task.specs.Strips.{Strips, IsState};
ghost use Rattle.hv_lines.specs.Drafts.{IsGoodTable};
ghost use Rattle.hv_lines.specs.Pruning.{Extends, IsDeadBy};
ghost use Rattle.hv_lines.specs.declared.line.Line.{Line};

use crate::draft::Draft;
use hv_task::{State, Task};
use std::alloc::{AllocError, Global};

/// A way to show that states are dead. A pruner covers some states of each task, always the same
/// ones. Into a draft it writes why a state that it covers is dead, and names the line that says so
/// of a literal which holds the state. It notes this literal and its line, since the literal may
/// hold other states that are asked for later: for these no line has to be written.
///
/// It has two meanings. `covers` tells which states of a task it covers. `fits` tells for which
/// task and which lines of a draft its notes stand: each line that it has noted says that the noted
/// literal is dead, the literal holds no state that isn't covered, and where it is the negation of
/// listed states, these are at most 1,000,000. What fits a draft of a task fits each extension of
/// this draft.
pub trait Pruner: Drop {
    ghost covers: { Self → Strips → List Bool → Type 0 };

    ghost fits: { Self → Strips → List Line → Type 0 };

    /// Forgets the notes: what is left fits each draft of each task.
    fn begin(&mut self)
        ensures covers { (task : Strips) (state : List Bool)
            → covers self.new task state ↔ covers self.old task state }
        ensures fits { (task : Strips) (lines : List Line) → fits self.new task lines };

    /// The line of the draft which says that a literal is dead that holds the state; there is one
    /// exactly where the state is covered. The lines that are needed for it are put last. Where the
    /// state isn't covered, and where memory runs out, the draft is as before.
    fn justify(
        &mut self,
        alloc: Global,
        task: &Task,
        draft: &mut Draft,
        state: &State,
    ) -> Result<Option<usize>, AllocError>
        requires good { IsGoodTable task.now draft.old.lines }
        requires fits { fits self.old task.now draft.old.lines }
        requires state { IsState task.now state.now }
        ensures covers { (task : Strips) (state : List Bool)
            → covers self.new task state ↔ covers self.old task state }
        ensures some { IfOk result (λ found. IsTrue (is_some found)
            ↔ covers self.old task.now state.now) }
        ensures dead { IfOk result (λ found. IfSome found (λ line.
            IsDeadBy task.now draft.new.lines state.now line)) }
        ensures extends { Extends task.now draft.old.lines draft.new.lines }
        ensures none { IfOk result (λ found. IfNone found (draft.new ≡ draft.old)) }
        ensures err { OnErr result (draft.new ≡ draft.old) }
        ensures fits { (lines : List Line) → Extends task.now draft.new.lines lines
            → fits self.new task.now lines };

    ghost fits_extensions: { (pruner : Self) (task : Strips) (old new : List Line)
        → Self.fits pruner task old → Extends task old new → Self.fits pruner task new };
}

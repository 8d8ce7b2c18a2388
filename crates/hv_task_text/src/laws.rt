//! That a file has one answer, and what it is, and what a task that is read keeps, as contracts of
//! functions that do nothing.
//!
//! Which lines are the text of a task is said beside the grammar (`IsTaskTextOf`), since the
//! canonical text is written by it, and the law `text_by_lines` ties the two both ways. First
//! faults are said by the grammar alone.

ghost use Rattle.std.specs.Prelude.{◌≡◌, ℕ, List, [], length};
ghost use Rattle.hv_bytes.specs.Pieces.{PieceBytes};
ghost use Rattle.hv_bytes.specs.declared.cutting.Limits.{Limits};
ghost use Rattle.hv_grammar.specs.Parsers.{parsed};
ghost use Rattle.hv_task.specs.Strips.{IsTask, Strips};
ghost use Rattle.hv_task_text.specs.Canonical.{HasWritableNames};
ghost use Rattle.hv_task_text.specs.declared.fault.TaskFault.{TaskFault};
ghost use Rattle.hv_task_text.specs.TaskFile.{task_file};
ghost use Rattle.hv_task_text.specs.TaskText.{AreTaskTextOf, HasTaskFault, TaskText};

/// The pieces of a file have one answer: they are the text of one task at most, a text has no
/// fault, and the first fault is one.
pub fn one_answer()
    ensures one_task { (pieces : List PieceBytes) (s t : Strips)
        → AreTaskTextOf pieces s → AreTaskTextOf pieces t → s ≡ t }
    ensures text_or_fault { (pieces : List PieceBytes) (task : Strips) (fault : TaskFault)
        → AreTaskTextOf pieces task → HasTaskFault pieces fault → ⊥ }
    ensures one_fault { (pieces : List PieceBytes) (f g : TaskFault)
        → HasTaskFault pieces f → HasTaskFault pieces g → f ≡ g }
{}

/// What comes of the pieces of a file is a task exactly where they are the text of this task.
pub fn text_by_lines()
    ensures text { (pieces : List PieceBytes) (task : Strips) → AreTaskTextOf pieces task
        → task_file 0 pieces ≡ parsed task (length pieces) [] }
    ensures value { (pieces : List PieceBytes) (task : Strips) (n : ℕ) (rest : List PieceBytes)
        → task_file 0 pieces ≡ parsed task n rest → AreTaskTextOf pieces task }
{}

/// What a task that is read from a text keeps: it is within the limits of tasks, and each of its
/// names can be written and read again.
pub fn laws_of_read_tasks()
    ensures tasks { (pieces : List PieceBytes) (task : Strips)
        → AreTaskTextOf pieces task → IsTask task }
    ensures names { (limits : Limits) (bytes : List ℕ) (task : Strips)
        → TaskText limits bytes task → HasWritableNames task }
{}

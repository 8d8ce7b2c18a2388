//! Kinds of places and limits of a task text, and why one isn't read.

ghost use Rattle.std.specs.Prelude.{◌≡◌};
ghost use Rattle.hv_task_text.specs.declared.fault.TaskFault.TheVariants as F;
ghost use Rattle.hv_task_text.specs.TaskFile.{task_fault};
ghost use Rattle.hv_task_text.specs.Words.{task_kind_word, task_limit_word};

use hv_grammar::ParseFault;
use std::alloc::AllocError;
use thiserror::Error;

/// The kind of a place in a task text: what its line has to be.
#[derive(Clone, Copy, Debug, PartialEq, Eq)]
pub enum TaskKind {
    /// `begin_atoms:N`.
    BeginAtoms,
    /// The name of an atom, any bytes.
    AtomName,
    /// `end_atoms`.
    EndAtoms,
    /// `begin_init`.
    BeginInit,
    /// A number of an atom that is true at the start, or `end_init`.
    InitAtom,
    /// `begin_goal`.
    BeginGoal,
    /// A number of an atom of the goal, or `end_goal`.
    GoalAtom,
    /// `begin_actions:M`.
    BeginActions,
    /// `begin_action`.
    BeginAction,
    /// The name of an action, any bytes.
    ActionName,
    /// `cost:C`.
    Cost,
    /// `PRE:i`, `ADD:i` or `DEL:i` with a number of an atom, or `end_action`.
    ActionLine,
    /// `end_actions`.
    EndActions,
    /// The end of the input.
    End,
}

/// A limit that a line of a task text exceeds.
#[derive(Clone, Copy, Debug, PartialEq, Eq)]
pub enum TaskLimit {
    /// More than 65,535 atoms.
    Atoms,
    /// More than 1,000,000 actions.
    Actions,
    /// A name of more than 1,024 bytes.
    Name,
    /// A cost above 4,294,967,295.
    Cost,
    /// A line of too many bytes, or too far from the start of the file.
    Long,
}

/// Why a line of a task text is refused.
#[derive(Clone, Copy, Debug, PartialEq, Eq)]
pub enum TaskRefusal {
    /// The form that this place expects isn't there.
    Place(TaskKind),
    /// The line has its form, and exceeds this limit.
    Limit(TaskLimit),
}

/// Why a task text isn't read. Lines are counted from 1; at the end of the input the line is the
/// one after the last.
#[derive(Clone, Copy, Debug, PartialEq, Eq, Error)]
pub enum TaskFault {
    /// The form that this place expects isn't there.
    #[error("line {0} isn't what the text expects there")]
    Place(u64, TaskKind),
    /// The line has its form, and exceeds this limit; or it is long, whatever its form.
    #[error("line {0} passes a limit")]
    Limit(u64, TaskLimit),
    /// The shelf failed.
    #[error("the file can't be read")]
    ReadFault,
    /// Memory ran out.
    #[error("out of memory")]
    Memory,
}

impl From<AllocError> for TaskFault {
    ghost from_gives = { λ _ fault. fault ≡ F.Memory };

    fn from(_error: AllocError) -> TaskFault {
        TaskFault::Memory
    }
}

impl From<ParseFault<TaskRefusal>> for TaskFault {
    ghost from_gives = { λ given fault. fault ≡ task_fault given };

    fn from(given: ParseFault<TaskRefusal>) -> TaskFault {
        match given {
            ParseFault::Refused(line, TaskRefusal::Place(kind)) => TaskFault::Place(line, kind),
            ParseFault::Refused(line, TaskRefusal::Limit(limit)) => TaskFault::Limit(line, limit),
            ParseFault::Long(line) => TaskFault::Limit(line, TaskLimit::Long),
            ParseFault::ReadFault => TaskFault::ReadFault,
            ParseFault::Memory => TaskFault::Memory,
        }
    }
}

impl TaskKind {
    /// The word that names the kind in a refusal.
    pub fn word(&self) -> &'static str
        ensures { result.now ≡ task_kind_word self.now }
    {
        match self {
            TaskKind::BeginAtoms => "begin_atoms",
            TaskKind::AtomName => "atom_name",
            TaskKind::EndAtoms => "end_atoms",
            TaskKind::BeginInit => "begin_init",
            TaskKind::InitAtom => "init_atom",
            TaskKind::BeginGoal => "begin_goal",
            TaskKind::GoalAtom => "goal_atom",
            TaskKind::BeginActions => "begin_actions",
            TaskKind::BeginAction => "begin_action",
            TaskKind::ActionName => "action_name",
            TaskKind::Cost => "cost",
            TaskKind::ActionLine => "action_line",
            TaskKind::EndActions => "end_actions",
            TaskKind::End => "end",
        }
    }
}

impl TaskLimit {
    /// The word that names the limit in a refusal.
    pub fn word(&self) -> &'static str
        ensures { result.now ≡ task_limit_word self.now }
    {
        match self {
            TaskLimit::Atoms => "atoms",
            TaskLimit::Actions => "actions",
            TaskLimit::Name => "name",
            TaskLimit::Cost => "cost",
            TaskLimit::Long => "long",
        }
    }
}

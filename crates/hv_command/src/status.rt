//! How a run ends.

ghost use Rattle.std.specs.Prelude.{◌≡◌};
ghost use Rattle.hv_command.specs.Replies.{status_number};

/// How a run ended.
#[derive(Clone, Copy, Debug, PartialEq, Eq)]
pub enum Status {
    /// The job's yes.
    Done,
    /// The job's no, with the line or the words.
    Refused,
    /// The words are no job.
    Usage,
    /// The task text, the node file, the log, the translator's file or the plan file isn't in its
    /// grammar, or exceeds a limit.
    BadInput,
    /// A file can't be opened or read.
    ReadFault,
    /// The sink failed before it had taken the whole answer.
    WriteFault,
    /// Memory was refused.
    Memory,
}

impl Status {
    /// The exit status of the program, from 0 to 6.
    pub fn number(self) -> u8
        ensures { result ≡ status_number self }
    {
        self as u8
    }
}

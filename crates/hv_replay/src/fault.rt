//! Limits of a log, and why one isn't read.

ghost use Rattle.std.specs.Prelude.{◌≡◌};
ghost use Rattle.hv_replay.specs.declared.fault.LogFault.TheVariants as F;
ghost use Rattle.hv_replay.specs.LogFile.{log_fault};
ghost use Rattle.hv_replay.specs.Words.{log_limit_word};

use hv_grammar::ParseFault;
use std::alloc::AllocError;
use thiserror::Error;

/// A limit that a line of a log exceeds.
#[derive(Clone, Copy, Debug, PartialEq, Eq)]
pub enum LogLimit {
    /// The line ends past byte 8,388,608 of the log, whatever its form.
    Bytes,
    /// More than 1,000,000 expanded states.
    Expanded,
    /// More than 65,000 pruned states.
    Pruned,
}

/// Why a line of a log is refused.
#[derive(Clone, Copy, Debug, PartialEq, Eq)]
pub enum LogRefusal {
    /// No line of a log is there: neither a state nor the end, or a line behind the end.
    Place,
    /// The line is that of a state, and exceeds this limit.
    Limit(LogLimit),
}

/// Why a log isn't read. Lines are counted from 1; at the end of the input the line is the one
/// after the last.
#[derive(Clone, Copy, Debug, PartialEq, Eq, Error)]
pub enum LogFault {
    /// No line of a log is there: neither a state nor the end, or a line behind the end.
    #[error("line {0} isn't what the log has there")]
    Place(u64),
    /// The line exceeds a limit.
    #[error("line {0} passes a limit")]
    Limit(u64, LogLimit),
    /// The shelf failed.
    #[error("the file can't be read")]
    ReadFault,
    /// Memory ran out.
    #[error("out of memory")]
    Memory,
}

impl From<AllocError> for LogFault {
    ghost from_gives = { λ _ fault. fault ≡ F.Memory };

    fn from(_error: AllocError) -> LogFault {
        LogFault::Memory
    }
}

impl From<ParseFault<LogRefusal>> for LogFault {
    ghost from_gives = { λ given fault. fault ≡ log_fault given };

    fn from(given: ParseFault<LogRefusal>) -> LogFault {
        match given {
            ParseFault::Refused(line, LogRefusal::Place) => LogFault::Place(line),
            ParseFault::Refused(line, LogRefusal::Limit(limit)) => LogFault::Limit(line, limit),
            ParseFault::Long(line) => LogFault::Limit(line, LogLimit::Bytes),
            ParseFault::ReadFault => LogFault::ReadFault,
            ParseFault::Memory => LogFault::Memory,
        }
    }
}

impl LogLimit {
    /// The word that names the limit in a refusal.
    pub fn word(&self) -> &'static str
        ensures { result.now ≡ log_limit_word self.now }
    {
        match self {
            LogLimit::Bytes => "bytes",
            LogLimit::Expanded => "expanded",
            LogLimit::Pruned => "pruned",
        }
    }
}

//! Why a checker goes no further.

use hv_lines::Reason;

/// Whether a checker goes on.
#[derive(Drop, PartialEq, Eq)]
pub enum Stop {
    /// No piece was refused, and memory didn't run out.
    Going,
    /// The last piece that was counted was refused.
    Refused(Reason),
    /// The last piece that was counted ran out of memory.
    Memory,
}

//! Why a part of a format isn't read.

use std::alloc::AllocError;

/// Why a part of a format isn't read, where `B` says what may be wrong with a line.
#[derive(Clone, Copy, Debug, PartialEq, Eq)]
pub enum ParseFault<B> {
    /// The line of this number isn't as it should be, in this way; at the end of the input the line
    /// is the one after the last.
    Refused(u64, B),
    /// The line of this number is long.
    Long(u64),
    /// The shelf failed.
    ReadFault,
    /// Memory ran out.
    Memory,
}

impl<B> From<AllocError> for ParseFault<B> {
    ghost use Rattle.std.specs.Prelude.{◌≡◌};
    ghost use Rattle.hv_grammar.specs.declared.fault.ParseFault.TheVariants as ParseFault;

    ghost from_gives = { λ _ fault. fault ≡ ParseFault.Memory };

    fn from(_error: AllocError) -> ParseFault<B> {
        ParseFault::Memory
    }
}

//! How the states of all sets are coded.
//!
//! The states of all sets of a store are entered one set after another, and a key from what came
//! before could be met by what comes later: they are coded by sums until two of them have one code,
//! or a set has its second key, and then all are entered anew by SipHashes; equal ones of these are
//! only chained.

ghost use Rattle.std.specs.Prelude.{ℕ, Bool};
ghost use Rattle.hv_explicit.specs.Codes.{IsBelow};
ghost use Rattle.hv_explicit.specs.Working.Coding.{IsCodeBy};

use crate::codes::is_exact;
use crate::sought::Sought;

/// How sets of atoms are coded. Sums are quick, but many states can be made to have one sum. For
/// SipHashes a pair can be found, and no more than a few.
#[derive(Clone, Copy)]
pub(crate) enum Coding {
    /// By sums, by this key.
    Sums(u64),
    /// By SipHashes.
    Sips,
}

/// The code of a set of atoms below a bound.
pub(crate) fn code_by<A: Sought>(coding: Coding, held: &A, atoms: u32) -> u64
    requires { IsBelow atoms (A.has held.now) }
    ensures { IsCodeBy coding (A.has held.now) result }
{
    match coding {
        Coding::Sums(key) => held.code(key, atoms),
        Coding::Sips => held.sip(atoms),
    }
}

/// Whether a set whose states were told apart by sums by this key may be entered by the coding.
pub(crate) fn tells_apart(coding: Coding, key: u64) -> bool {
    match coding {
        Coding::Sums(plain) => plain == key,
        Coding::Sips => true,
    }
}

/// Whether two states of a task with so many atoms that have one code by the coding are to be
/// compared: sums can be made to agree where they aren't exact, and SipHashes can't.
pub(crate) fn can_meet(coding: Coding, atoms: u32) -> bool {
    match coding {
        Coding::Sums(key) => !is_exact(key, atoms),
        Coding::Sips => false,
    }
}

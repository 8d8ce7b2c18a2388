//! Sets of atoms, read in rising order however they are kept: the next atom from here on, of a
//! state, a list, or the result of an action, which is never built.
//!
//! A hint says where the lists were read last; no answer depends on it.

ghost use Rattle.std.specs.Prelude.{ℕ, Bool};
ghost use Rattle.hv_task.specs.Atoms.{IsNext};

/// A set of atoms, however it is kept, read in rising order.
pub trait Atoms {
    /// Whether the atom is in the set.
    ghost has: { Self → ℕ → Bool };

    /// The least atom of the set that is at least this number. Calls with rising numbers and one
    /// hint are quick; no answer depends on the hint.
    fn next(&self, from: u32, hint: &mut Hint) -> Option<u32>
        ensures { IsNext (has self.now) from result };
}

/// Where in its lists a set was read last.
#[derive(Clone, Copy, Default)]
pub struct Hint {
    pub(crate) first: usize,
    pub(crate) second: usize,
}

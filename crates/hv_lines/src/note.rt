//! What pruners note: a literal that a line says is dead.

ghost use Rattle.std.specs.Prelude.{◌≡◌};
ghost use Rattle.hv_lines.specs.DeadLines.{empty_note};

/// What a pruner has noted: a literal, and the line which says that it is dead.
#[derive(Clone, Copy, Debug, PartialEq, Eq)]
pub struct Note {
    /// The identifier of the literal.
    pub set: usize,
    /// The identifier of the line.
    pub line: usize,
}

impl Note {
    /// The empty set, with the line of every draft which says that it is dead.
    pub fn empty() -> Note
        ensures { result ≡ empty_note }
    {
        Note { set: 0, line: 0 }
    }
}

//! How far a proof was read: which version it has, and whether its last line was passed.

/// How far a proof was read. A closed proof begins with the line `helve 2`, and ends with the first
/// line `end` behind that; any other proof is open.
#[derive(Clone, Copy, Debug, PartialEq, Eq)]
pub enum Part {
    /// No line was read.
    AtStart,
    /// In an open proof.
    Open,
    /// In a closed proof, before its line `end`.
    BeforeEnd,
    /// In a closed proof, behind its line `end`.
    PastEnd,
}

//! Nodes of decision diagrams.

/// A node of a decision diagram: the walk goes to `high` where the state holds the atom, and to
/// `low` otherwise.
#[derive(Clone, Copy, Debug, PartialEq, Eq, Hash)]
pub struct Node {
    /// The atom that is asked for, from 0.
    pub atom: u32,
    /// The node where the walk goes on in a state without the atom.
    pub low: u32,
    /// The node where the walk goes on in a state with the atom.
    pub high: u32,
}

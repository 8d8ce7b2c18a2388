//! The two ways in which knowledge is completed to a state: a value for each open atom, or trials.

/// How settled marks are completed to a state.
#[derive(Clone, Copy, Debug, PartialEq, Eq)]
pub enum Completion {
    /// Each atom of which nothing is known takes this value.
    Fill(bool),
    /// Values are tried for the atoms of which nothing is known.
    Try,
}

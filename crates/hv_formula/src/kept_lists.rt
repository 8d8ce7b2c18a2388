//! Which list of where literals are a kind of formula keeps for its callers.
//!
//! `occurrences` and `implied` are calls of `Formula`, with the condition that the kind keeps that
//! list, since a crate can't add calls to a type of another one. `occurrences` is the row that the
//! propagation reads; what `implied` hands out is kept besides by the kind that has it.

/// Which lists a formula keeps, to hand them out.
#[derive(Clone, Copy, Debug, PartialEq, Eq)]
pub enum KeptLists {
    /// For each atom the numbers of the clauses in which it occurs negatively.
    Negative,
    /// For each literal the numbers of the literals that it implies at once.
    Implied,
}

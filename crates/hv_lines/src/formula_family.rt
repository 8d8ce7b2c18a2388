//! The families of formulas.

/// A family of formulas.
#[derive(Clone, Copy, Debug, PartialEq, Eq)]
pub enum FormulaFamily {
    /// Horn formulas.
    Horn,
    /// Dual Horn formulas.
    Dual,
    /// 2CNF formulas.
    Two,
    /// Explicit sets.
    States,
    /// Nodes of decision diagrams.
    Node,
}

//! A row: what a rule is asked of. It is one value, the table of lines, the statement and the
//! premises, with one condition: what it names is among the lines.

use hv_lines::{Statement, Table};

/// A statement with its premises, after the lines of a table.
#[derive(Drop)]
pub struct RuleRow<'a> {
    pub table: &'a Table,
    pub statement: Statement,
    pub premises: &'a [usize],
}

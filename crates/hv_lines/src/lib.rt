//! The lines of a proof, the table of accepted lines, and what they mean.
#![tactic(auto)]

/// Lists of actions.
pub mod action_list;
/// Drafts of proofs.
pub mod draft;
/// The families of formulas.
pub mod formula_family;
/// The lines of a proof.
pub mod line;
/// What pruners note.
pub mod note;
/// How far a proof was read.
pub mod part;
/// The premises of a line.
pub mod premises;
/// Pruners: they show of states that these are dead.
pub mod pruner;
/// Why a line isn't good.
pub mod reason;
/// The lines of a proof, found by their identifiers.
pub mod table;
/// What is said of a basic statement.
pub mod verdict;
/// The table of words.
pub mod words;

pub use action_list::ActionList;
pub use draft::{Draft, conclusion, dead_lines};
pub use formula_family::FormulaFamily;
pub use line::{Acts, Constant, Expr, Line, Statement, Word};
pub use note::Note;
pub use part::Part;
pub use premises::Premises;
pub use pruner::Pruner;
pub use reason::{Clash, Reason};
pub use table::Table;
pub use verdict::Verdict;
pub use words::{StatementKind, WordRow};

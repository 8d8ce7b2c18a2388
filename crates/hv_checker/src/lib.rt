//! Judges a proof line by line.
#![tactic(auto)]

pub mod checker;
mod conditions;
pub mod laws;
mod marks;
pub mod piece;
mod piece_judge;
pub mod stop;

pub use checker::Checker;
pub use hv_lines::Reason;
pub use laws::{one_judgement, one_piece_behind, two_versions};
pub use piece::{End, Fed, Piece};
pub use stop::Stop;

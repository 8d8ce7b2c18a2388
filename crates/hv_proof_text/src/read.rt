//! A line from its bytes.

ghost use Rattle.std.specs.Prelude.{◌↔◌, IsTrue};
ghost use Rattle.hv_lines.specs.Spelling.{IsSkipped};
ghost use Rattle.hv_proof_text.specs.Reading.{IsRead};

use crate::forms::line_of;
use crate::token::Token;
use hv_lines::Line;
use std::alloc::{AllocError, Global};
use thiserror::Error;

/// Why a line of a proof wasn't read.
#[derive(Clone, Copy, Debug, PartialEq, Eq, Error)]
pub enum LineError {
    /// The bytes are no line of a proof.
    #[error("no line of a proof")]
    Grammar,
    /// Memory ran out.
    #[error("out of memory")]
    Memory,
}

impl From<AllocError> for LineError {
    ghost use Rattle.std.specs.Prelude.{◌≡◌};
    ghost use Rattle.hv_proof_text.specs.declared.read.LineError.TheVariants as LineError;

    ghost from_gives = { λ _ error. error ≡ LineError.Memory };

    fn from(_error: AllocError) -> LineError {
        LineError::Memory
    }
}

/// The line that the bytes spell, without its LF; nothing where the line is skipped, since it is
/// empty or a comment.
pub fn read_line(alloc: Global, bytes: &[u8]) -> Result<Option<Line>, LineError>
    ensures { IsRead result bytes.now }
{
    LineReader::new(alloc).read(alloc, bytes)
}

/// A reader of lines, which keeps the memory that it reads them in from line to line.
#[derive(Drop)]
pub struct LineReader {
    tokens: Vec<Token>,
}

impl LineReader {
    /// A reader that has read nothing.
    pub fn new(alloc: Global) -> LineReader {
        LineReader {
            tokens: Vec::new(alloc),
        }
    }

    /// The line that the bytes spell: as `read_line`.
    pub fn read(&mut self, alloc: Global, bytes: &[u8]) -> Result<Option<Line>, LineError>
        ensures { IsRead result bytes.now }
    {
        if is_skipped(bytes) {
            return Ok(None);
        }
        match line_of(alloc, &mut self.tokens, bytes)? {
            Some(line) => Ok(Some(line)),
            None => Err(LineError::Grammar),
        }
    }
}

/// Whether the line is empty or a comment.
fn is_skipped(bytes: &[u8]) -> bool
    ensures { IsTrue result ↔ IsSkipped bytes.now }
{
    match bytes {
        [] | [b'#', ..] => true,
        _ => false,
    }
}

//! What a checker is fed, and what it answers.

use hv_lines::Reason;

/// A line of a proof, as it is fed to a checker.
#[derive(Clone, Copy)]
pub enum Piece<'b> {
    /// The bytes of the line without its LF.
    Line(&'b [u8]),
    /// A line with more bytes than a line may have, or whose last byte lies past what a file may
    /// have.
    Long,
}

/// What a checker says of a piece.
#[derive(Drop, PartialEq, Eq)]
pub enum Fed {
    /// An empty line or a comment.
    Skipped,
    /// The first line of a closed proof, `helve 2`, or its last one, `end`.
    Marked,
    /// The line is good, and was accepted.
    Good,
    /// The line isn't good, for this reason. Every later piece is answered by `Stopped`.
    Refused(Reason),
    /// An earlier piece was refused or ran out of memory; nothing was done.
    Stopped,
}

/// What a checker says of all pieces.
#[derive(Clone, Copy, Debug, PartialEq, Eq)]
pub enum End {
    /// Every line is good, and one says that the task is unsolvable.
    Unsolvable,
    /// The piece with this number, counted from 1, is the first that isn't good; `Checker::reason`
    /// says why. Where a closed proof has no line `end`, it is the one behind the last piece.
    Refused(u64),
    /// Every line is good, and none says that the task is unsolvable.
    NoConclusion,
    /// A piece ran out of memory.
    Memory,
}

//! The two marks of a closed proof, its first and its last line, and how its pieces are judged.

ghost use Rattle.std.specs.Prelude.{◌≡◌, false};
ghost use Rattle.hv_lines.specs.Versions.{is_mark, judged_as, line_behind, part_after};
ghost use Rattle.hv_checker.specs.Texts.{text_of};

use crate::piece::Piece;
use hv_lines::Part;

/// Whether the piece is a mark at its place: where a proof is read so far.
pub(crate) fn is_mark(part: Part, piece: Piece<'_>) -> bool
    ensures { result ≡ is_mark part (text_of piece.entry) }
{
    match piece {
        Piece::Line(bytes) => match part {
            Part::AtStart => bytes == b"helve 2".as_slice(),
            Part::BeforeEnd => bytes == b"end".as_slice(),
            Part::Open | Part::PastEnd => false,
        },
        Piece::Long => false,
    }
}

/// How far a proof is read after one more piece.
pub(crate) fn part_after(part: Part, piece: Piece<'_>) -> Part
    ensures { result ≡ part_after part (text_of piece.entry) }
{
    let marked = is_mark(part, piece);
    match part {
        Part::AtStart => { if marked { Part::BeforeEnd } else { Part::Open } }
        Part::BeforeEnd => {
            if marked {
                Part::PastEnd
            } else {
                Part::BeforeEnd
            }
        }
        Part::Open | Part::PastEnd => part,
    }
}

/// A piece that is no mark, as it is judged: behind the end each line is none of the proof, but for
/// an empty one and a comment.
pub(crate) fn judged_as<'b>(part: Part, piece: Piece<'b>) -> Piece<'b>
    requires { is_mark part (text_of piece) ≡ false }
    ensures { text_of result ≡ judged_as part (text_of piece.entry) }
{
    match part {
        Part::PastEnd => match piece {
            Piece::Line(bytes) => Piece::Line(line_behind(bytes)),
            Piece::Long => Piece::Long,
        },
        Part::AtStart | Part::Open | Part::BeforeEnd => piece,
    }
}

/// A line behind the end, as it is judged.
fn line_behind(bytes: &[u8]) -> &[u8]
    ensures { result.now ≡ line_behind bytes.now }
{
    match bytes {
        [] | [b'#', ..] => bytes,
        _ => b"end",
    }
}

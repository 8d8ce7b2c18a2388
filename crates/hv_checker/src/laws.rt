//! Laws of judging, as contracts of functions that do nothing.
//!
//! A judgement is determined but for the state of a counterexample: any counterexample of the query
//! that decides may be given. Soundness doesn't depend on the node file: with a yes no list of
//! actions is a plan, whatever the nodes are; that every accepted line is true is said of the nodes
//! that the file lists.

ghost use Rattle.std.specs.Prelude.{◌≡◌, ◌↔◌, ◌++◌, ◌∷◌, [], List, Some};
ghost use Rattle.std.specs.List.{All};
ghost use Rattle.hv_lines.specs.Judged.{IsPassedOver, Judged, JudgedInOrder, Judgement, LineText};
ghost use Rattle.hv_lines.specs.Judged.{outline_of};
ghost use Rattle.hv_lines.specs.Setting.{Setting};
ghost use Rattle.hv_lines.specs.Versions.{first_mark, last_mark, part_of};
ghost use Rattle.hv_lines.specs.declared.line.Line.{Line};
ghost use Rattle.hv_lines.specs.declared.part.Part.TheVariants as P;
ghost use Rattle.hv_lines.specs.declared.reason.Reason.TheVariants as R;
ghost use Rattle.hv_checker.specs.PieceVerdicts.{IsFeedAnswer};
ghost use Rattle.hv_checker.specs.Versions.{IsFedBehind, JudgedUpTo, NoneEnds, proof_version};
ghost use Rattle.hv_checker.specs.Versions.{reason_behind};
ghost use Rattle.hv_checker.specs.declared.piece.Fed.{Fed};

/// Does nothing: its contract states that a list of pieces is judged in one way. Where two
/// judgements hold of it, they are one, but for the state of a counterexample: the place of the
/// refused piece, the reason, and the action of a counterexample are determined, and no list is
/// judged in two of the three ways.
pub fn one_judgement()
    ensures { (setting : Setting) (pieces : List LineText) (a b : Judgement)
        → Judged setting pieces a
        → Judged setting pieces b → outline_of a ≡ outline_of b }
{}

/// Does nothing: its contract states how a proof is judged by its version.
///
/// It has version 2 exactly where its line 1 is `helve 2`. A proof of version 1 is judged line by
/// line. In version 2 line 1 and the first line `end` are passed over, as empty lines are, and the
/// lines between them are judged line by line. A line behind `end` that isn't skipped is refused,
/// as too long or as no line of a proof. Where no line is `end`, what would come behind the last
/// line is refused, as no line of a proof. In both cases an earlier line that isn't good is refused
/// in its place.
pub fn two_versions()
    ensures version { (pieces : List LineText) → (proof_version (part_of pieces) ≡ 2)
        ↔ ((rest : List LineText) × (pieces ≡ Some first_mark ∷ rest)) }
    ensures first { (setting : Setting) (pieces : List LineText) (judgement : Judgement)
        → proof_version (part_of pieces) ≡ 1
        → Judged setting pieces judgement ↔ JudgedInOrder setting pieces judgement }
    ensures second { (setting : Setting) (body quiet : List LineText) (judgement : Judgement)
        → NoneEnds body → All IsPassedOver quiet
        → Judged setting (Some first_mark ∷ body ++ Some last_mark ∷ quiet) judgement
        ↔ JudgedInOrder setting (Some [] ∷ body) judgement }
    ensures behind { (setting : Setting) (body quiet rest : List LineText) (bad : LineText)
        (judgement : Judgement)
        → NoneEnds body → All IsPassedOver quiet → (IsPassedOver bad → ⊥)
        → Judged setting (Some first_mark ∷ body ++ Some last_mark ∷ quiet ++ bad ∷ rest) judgement
        ↔ JudgedUpTo setting (Some [] ∷ body ++ Some [] ∷ quiet) (reason_behind bad) judgement }
    ensures unended { (setting : Setting) (body : List LineText) (judgement : Judgement)
        → NoneEnds body
        → Judged setting (Some first_mark ∷ body) judgement
        ↔ JudgedUpTo setting (Some [] ∷ body) R.Grammar judgement }
{}

/// Does nothing: its contract states what `Checker::feed` says of one piece behind the line `end`
/// of a closed proof, whatever the lines before it are.
///
/// An empty line or a comment is skipped. Any other piece is refused, as too long or as no line of
/// a proof, and for no other reason. The accepted lines stay as they are.
pub fn one_piece_behind()
    ensures { (setting : Setting) (old new : List Line) (piece : LineText) (fed : Fed)
        → IsFeedAnswer setting P.PastEnd old new piece fed ↔ (IsFedBehind piece fed × (new ≡ old)) }
{}

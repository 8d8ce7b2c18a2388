//! That a file has one answer, and what it is, and that a log has one first hole, as contracts of
//! functions that do nothing.

ghost use Rattle.std.specs.Prelude.{◌≡◌, ◌+◌, ◌≤◌, ◌⊎◌, ℕ, List, [], length};
ghost use Rattle.std.specs.List.{Any};
ghost use Rattle.hv_bytes.specs.Pieces.{PieceBytes, pieces_of};
ghost use Rattle.hv_grammar.specs.Parsers.{parsed};
ghost use Rattle.hv_task.specs.Strips.{Strips};
ghost use Rattle.hv_replay.specs.Closed.{IsClosed, IsFirstHole};
ghost use Rattle.hv_replay.specs.Logs.{SearchLog};
ghost use Rattle.hv_replay.specs.LogFile.{log_file};
ghost use Rattle.hv_replay.specs.LogText.{AreLogTextOf, HasLogFault, log_limits};
ghost use Rattle.hv_replay.specs.declared.fault.LogFault.{LogFault};
ghost use Rattle.hv_replay.specs.declared.hole.ReplayFault.{ReplayFault};

use hv_lines::Pruner;

/// The pieces of a log have one answer: they are the text of one log at most, a text has no fault,
/// and the first fault is one. Those of a file are a text, or have a first fault.
pub fn one_answer()
    ensures one_log { (atoms : ℕ) (pieces : List PieceBytes) (s t : SearchLog)
        → atoms ≤ 65535 → AreLogTextOf atoms pieces s → AreLogTextOf atoms pieces t → s ≡ t }
    ensures text_or_fault { (atoms : ℕ) (pieces : List PieceBytes) (log : SearchLog) (fault :
        LogFault)
        → atoms ≤ 65535 → AreLogTextOf atoms pieces log → HasLogFault atoms pieces fault → ⊥ }
    ensures one_fault { (atoms : ℕ) (pieces : List PieceBytes) (f g : LogFault)
        → atoms ≤ 65535 → HasLogFault atoms pieces f → HasLogFault atoms pieces g → f ≡ g }
    ensures answered { (atoms : ℕ) (bytes : List ℕ)
        → ((log : SearchLog) × AreLogTextOf atoms (pieces_of log_limits bytes) log)
        ⊎ ((fault : LogFault) × HasLogFault atoms (pieces_of log_limits bytes) fault) }
{}

/// What comes of the pieces of a log is a log exactly where they are the text of this log: told of
/// the pieces of a file, since a file within the limits has no more bytes than a log may have.
pub fn text_by_lines()
    ensures text { (atoms : ℕ) (pieces : List PieceBytes) (log : SearchLog) → atoms ≤ 65535
        → AreLogTextOf atoms pieces log
        → log_file atoms 0 pieces ≡ parsed log (length log.entries + 1) [] }
    ensures value { (atoms : ℕ) (bytes : List ℕ) (log : SearchLog) (n : ℕ) (rest : List PieceBytes)
        → log_file atoms 0 (pieces_of log_limits bytes) ≡ parsed log n rest
        → AreLogTextOf atoms (pieces_of log_limits bytes) log }
{}

/// For whatever pruners, a log has one first hole at most, and none where it is closed.
pub fn one_first_hole(pruners: &[Box<dyn Pruner>])
    ensures closed_or_hole { (task : Strips) (log : SearchLog) (hole : ReplayFault)
        → IsClosed task log (λ state. Any (λ b. covers b task state) pruners.now)
        → IsFirstHole task log (λ state. Any (λ b. covers b task state) pruners.now) hole → ⊥ }
    ensures one_hole { (task : Strips) (log : SearchLog) (f g : ReplayFault)
        → IsFirstHole task log (λ state. Any (λ b. covers b task state) pruners.now) f
        → IsFirstHole task log (λ state. Any (λ b. covers b task state) pruners.now) g
        → f ≡ g }
{
    let _ = pruners;
}

//! What a verdict says of the statement: that a true verdict means a true statement, and a false
//! one an untrue statement.
//!
//! This is a law over the definitions, and not a clause of `decide`: `decide` answers by the
//! definition of the verdict, and whoever reads that definition reads the law beside it. A
//! statement whose sets aren't there has no verdict worth the name, so the law asks that they are.

ghost use Rattle.std.specs.Prelude.{List};
ghost use Rattle.hv_lines.specs.Meaning.{IsTrueStatement};
ghost use Rattle.hv_lines.specs.Numbering.{IsTable, SpeaksBelow, acts_count, expr_count};
ghost use Rattle.hv_lines.specs.Setting.{Setting};
ghost use Rattle.hv_lines.specs.Verdicts.{IsVerdict};
ghost use Rattle.hv_lines.specs.declared.line.Line.{Line};
ghost use Rattle.hv_lines.specs.declared.line.Statement.{Statement};
ghost use Rattle.hv_lines.specs.declared.line.Word.{Word};
ghost use Rattle.hv_lines.specs.declared.reason.Clash.{Clash};
ghost use Rattle.hv_lines.specs.declared.verdict.Verdict.TheVariants as V;

/// Does nothing: its contract states what the verdict on a basic statement says. A statement with
/// the verdict true is true, and one with the verdict false isn't.
pub fn laws_of_verdicts()
    ensures true_is_true { (setting : Setting) (lines : List Line) (statement : Statement)
        (word : Word) → IsTable lines
        → SpeaksBelow (acts_count lines) (expr_count lines) statement
        → IsVerdict setting lines statement word V.True
        → IsTrueStatement setting.task setting.nodes lines statement }
    ensures false_is_untrue { (setting : Setting) (lines : List Line) (statement : Statement)
        (word : Word) (found : Clash) → IsTable lines
        → SpeaksBelow (acts_count lines) (expr_count lines) statement
        → IsVerdict setting lines statement word (V.False found)
        → IsTrueStatement setting.task setting.nodes lines statement → ⊥ }
{}

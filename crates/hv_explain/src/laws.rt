//! What is true of the text that tells which lines are needed, whatever program gives it.

ghost use Rattle.std.specs.Prelude.{◌≡◌, ℕ, List};
ghost use Rattle.hv_explain.specs.Explained.{IsExplanation};
ghost use Rattle.hv_lines.specs.declared.line.Line.{Line as LineOf};

/// Does nothing: its contract states that the lines of a table are told of by one text.
pub fn one_explanation()
    ensures { (lines : List LineOf) (text other : List ℕ) → IsExplanation lines text
        → IsExplanation lines other → text ≡ other }
{}

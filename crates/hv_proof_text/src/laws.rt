//! Laws of proof texts, as contracts of functions that do nothing.

ghost use Rattle.std.specs.Prelude.{◌≡◌, ◌≤◌, ℕ, List, length, reverse};
ghost use Rattle.hv_bytes.specs.Pieces.{pieces_of};
ghost use Rattle.hv_bytes.specs.Standard.{most_file_bytes, standard};
ghost use Rattle.hv_task.specs.Strips.{Strips};
ghost use Rattle.hv_lines.specs.Drafts.{IsGoodTable, draft_setting};
ghost use Rattle.hv_lines.specs.Judged.{Accepts, Concludes, JudgedBytes, Unsolvable};
ghost use Rattle.hv_lines.specs.Setting.{Setting};
ghost use Rattle.hv_lines.specs.Spelling.{IsSkipped, Spells, proof_text};
ghost use Rattle.hv_lines.specs.Versions.{judged_so_far, judged_whole};
ghost use Rattle.hv_lines.specs.declared.line.Line.{Line};
ghost use Rattle.hv_proof_text.specs.Closed.{closed_text};

/// No bytes spell two lines, and a line that is skipped spells none.
pub fn one_line()
    ensures once { (first second : Line) (bytes : List ℕ) → Spells first bytes → Spells second bytes
        → first ≡ second }
    ensures apart { (line : Line) (bytes : List ℕ) → Spells line bytes → IsSkipped bytes → ⊥ }
{}

/// The text of a good draft is accepted line by line, as the lines of the draft; so where a line
/// says that there is no plan, the text is judged by it. A draft of at most 65,535 lines is within
/// a file.
pub fn read_back()
    ensures accepted { (task : Strips) (lines : List Line) → IsGoodTable task lines
        → length (proof_text (reverse lines)) ≤ most_file_bytes
        → Accepts (draft_setting task)
        (reverse (pieces_of standard (proof_text (reverse lines)))) lines }
    ensures judged { (task : Strips) (lines : List Line) → IsGoodTable task lines
        → Concludes lines → length (proof_text (reverse lines)) ≤ most_file_bytes
        → JudgedBytes (draft_setting task) standard (proof_text (reverse lines)) Unsolvable }
    ensures small { (task : Strips) (lines : List Line) → IsGoodTable task lines
        → length lines ≤ 65535 → length (proof_text (reverse lines)) ≤ most_file_bytes }
{}

/// Lines that are accepted of some text are accepted of the text of the closed proof that has them;
/// so where one of them says that there is no plan, that text is judged by it, with the same task,
/// nodes and budget.
pub fn closed_back()
    ensures accepted { (setting : Setting) (bytes : List ℕ) (lines : List Line)
        → Accepts setting (reverse (judged_so_far (pieces_of standard bytes))) lines
        → length (closed_text (reverse lines)) ≤ most_file_bytes
        → Accepts setting
        (reverse (judged_whole (pieces_of standard (closed_text (reverse lines))))) lines }
    ensures judged { (setting : Setting) (bytes : List ℕ) (lines : List Line)
        → Accepts setting (reverse (judged_so_far (pieces_of standard bytes))) lines
        → Concludes lines → length (closed_text (reverse lines)) ≤ most_file_bytes
        → JudgedBytes setting standard (closed_text (reverse lines)) Unsolvable }
{}

//! What is true of the proofs, whatever program writes them, and of the states that are covered.

ghost use Rattle.std.specs.Prelude.{◌≡◌, ◌≤◌, List, length};
ghost use Rattle.hv_task.specs.Deadness.{AreDead};
ghost use Rattle.hv_task.specs.Strips.{Strips, IsTask, atoms};
ghost use Rattle.hv_lines.specs.Drafts.{IsGoodTable, IsModest};
ghost use Rattle.hv_lines.specs.Judged.{Concludes};
ghost use Rattle.hv_lines.specs.declared.line.Line.{Line};
ghost use Rattle.hv_reach.specs.Written.{IsPairsProof, IsRelaxedProof, PairsExclude};
ghost use Rattle.hv_reach.specs.Written.{PairsExcludeFrom, RelaxedExcludes, RelaxedExcludesFrom};

/// Does nothing: its contract states that a task has one proof by its reached atoms, of sixteen
/// lines, which is good and concludes where these exclude the goal. No query of it costs more than
/// 65,535 clauses, and no line is longer than 7,400,000 bytes.
pub fn laws_of_relaxed_proofs()
    ensures once { (task : Strips) (x y : List Line)
        → IsRelaxedProof task x → IsRelaxedProof task y → x ≡ y }
    ensures size { (task : Strips) (lines : List Line)
        → IsRelaxedProof task lines → length lines ≡ 16 }
    ensures good { (task : Strips) (lines : List Line) → IsTask task
        → RelaxedExcludes task → IsRelaxedProof task lines → IsGoodTable task lines }
    ensures concludes { (task : Strips) (lines : List Line) → IsTask task
        → RelaxedExcludes task → IsRelaxedProof task lines → Concludes lines }
    ensures modest { (task : Strips) (lines : List Line) → IsTask task
        → RelaxedExcludes task → IsRelaxedProof task lines → IsModest task 65535 lines }
{}

/// Does nothing: its contract states the same of the proof by reached pairs, in a task of at most
/// 1,024 atoms. There no query costs more than 524,800 clauses.
pub fn laws_of_pair_proofs()
    ensures once { (task : Strips) (x y : List Line)
        → IsPairsProof task x → IsPairsProof task y → x ≡ y }
    ensures size { (task : Strips) (lines : List Line)
        → IsPairsProof task lines → length lines ≡ 16 }
    ensures good { (task : Strips) (lines : List Line) → IsTask task → atoms task ≤ 1024
        → PairsExclude task → IsPairsProof task lines → IsGoodTable task lines }
    ensures concludes { (task : Strips) (lines : List Line) → IsTask task → atoms task ≤ 1024
        → PairsExclude task → IsPairsProof task lines → Concludes lines }
    ensures modest { (task : Strips) (lines : List Line) → IsTask task → atoms task ≤ 1024
        → PairsExclude task → IsPairsProof task lines → IsModest task 524800 lines }
{}

/// Does nothing: its contract states that each state is dead from which the reached atoms, or the
/// reached pairs, exclude the goal: no plan traverses it. So each state is dead that
/// `RelaxedPruner` or `PairPruner` covers.
pub fn laws_of_covered_states()
    ensures atoms { (task : Strips) → AreDead task (RelaxedExcludesFrom task) }
    ensures pairs { (task : Strips) → AreDead task (PairsExcludeFrom task) }
{}

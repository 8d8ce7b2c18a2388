//! What is true of the greatest trap, whatever program finds it.

ghost use Rattle.std.specs.Prelude.{◌≡◌, ◌≤◌, ◌↔◌, ℕ, Bool, true, false, List, length};
ghost use Rattle.hv_task.specs.Deadness.{AreDead};
ghost use Rattle.hv_task.specs.Strips.{Strips, atoms, is_goal, start_state};
ghost use Rattle.hv_sets.specs.Truth.{in_clauses};
ghost use Rattle.hv_sets.specs.declared.literal.Literal.{Literal};
ghost use Rattle.hv_lines.specs.Drafts.{IsGoodTable, IsModest};
ghost use Rattle.hv_lines.specs.Judged.{Concludes};
ghost use Rattle.hv_lines.specs.declared.line.Line.{Line};
ghost use Rattle.hv_trap.specs.Trap.{AreTrapClauses, IsSatisfied, Stays};
ghost use Rattle.hv_trap.specs.Written.{IsTrapProof};

/// Does nothing: its contract states that a task has one list of clauses of its greatest trap; that
/// they are true in the states that satisfy no conjunction of the greatest trap, and in no others;
/// that no action leads from another state to such a one; that each goal state is such a one; that
/// up to 64 atoms there are at most 6,112; and that each state is dead that satisfies a conjunction
/// of the greatest trap: no plan traverses it. So each state is dead that `TrapPruner` covers.
pub fn laws_of_traps()
    ensures once { (task : Strips) (x y : List (List Literal))
        → AreTrapClauses task x → AreTrapClauses task y → x ≡ y }
    ensures satisfied { (task : Strips) (clauses : List (List Literal))
        → AreTrapClauses task clauses
        → (state : List Bool) → (in_clauses clauses state ≡ false) ↔ IsSatisfied task state }
    ensures stays { (task : Strips) (clauses : List (List Literal)) → AreTrapClauses task clauses
        → (number : ℕ) → Stays task clauses number }
    ensures goalless { (task : Strips) (clauses : List (List Literal)) → AreTrapClauses task clauses
        → (state : List Bool)
        → is_goal task state ≡ true → in_clauses clauses state ≡ true }
    ensures few { (task : Strips) (clauses : List (List Literal)) → AreTrapClauses task clauses
        → atoms task ≤ 64 → length clauses ≤ 6112 }
    ensures dead { (task : Strips) → AreDead task (IsSatisfied task) }
{}

/// Does nothing: its contract states that a task has one proof by its greatest trap, of seventeen
/// lines, which is good and concludes where the initial state satisfies a conjunction of the trap,
/// in a task of at most 64 atoms. No query of it costs more than 6,112 clauses, and no line is
/// longer than 7,400,000 bytes.
pub fn laws_of_trap_proofs()
    ensures once { (task : Strips) (x y : List Line)
        → IsTrapProof task x → IsTrapProof task y → x ≡ y }
    ensures size { (task : Strips) (lines : List Line)
        → IsTrapProof task lines → length lines ≡ 17 }
    ensures good { (task : Strips) (lines : List Line) → atoms task ≤ 64
        → IsSatisfied task (start_state task) → IsTrapProof task lines → IsGoodTable task lines }
    ensures concludes { (task : Strips) (lines : List Line) → IsTrapProof task lines
        → Concludes lines }
    ensures modest { (task : Strips) (lines : List Line) → atoms task ≤ 64
        → IsSatisfied task (start_state task) → IsTrapProof task lines
        → IsModest task 6112 lines }
{}

//! What is true of the answers of jobs, whatever program gives them.
//!
//! That a job has one answer says nothing of the lines of a replay: what a pruner writes is its own
//! choice, so the law determines the status, and the text wherever it isn't such a proof. The laws
//! take pruners, since a contract can't speak of every set of states.

ghost use Rattle.std.specs.Prelude.{◌≡◌, ℕ, List, Option};
ghost use Rattle.std.specs.List.{Any};
ghost use Rattle.hv_bytes.specs.Files.{Names};
ghost use Rattle.hv_command.specs.Answer.{Answer, IsAccepted, IsReplayProof};
ghost use Rattle.hv_command.specs.Replies.{AreOneText};
ghost use Rattle.hv_command.specs.declared.job.Job.{Job as JobOf};
ghost use Rattle.hv_command.specs.declared.status.Status.{Status as StatusOf};

use hv_lines::Pruner;

/// Does nothing: its contract states that a job has one answer, whatever the pruners are. Two
/// answers have one status and, but for which state a counterexample names, one text; the lines of
/// a proof that replays a log are the pruners' choice.
pub fn one_answer(pruners: &[Box<dyn Pruner>])
    ensures { (job : Option JobOf) (held : Names) (s u : StatusOf) (t v : List ℕ)
        → Answer (λ task state. Any (λ b. covers b task state) pruners.now) job held s t
        → Answer (λ task state. Any (λ b. covers b task state) pruners.now) job held u v
        → (s ≡ u) × ((IsReplayProof job s → ⊥) → AreOneText t v) }
{
    let _ = pruners;
}

/// Does nothing: its contract states that a proof which is the answer to a job is judged to show
/// that the task has no plan, and that a task text which is the answer is read as the task that was
/// made.
pub fn accepted(pruners: &[Box<dyn Pruner>])
    ensures { (job : Option JobOf) (held : Names) (status : StatusOf) (text : List ℕ)
        → Answer (λ task state. Any (λ b. covers b task state) pruners.now) job held status text
        → IsAccepted job held status text }
{
    let _ = pruners;
}

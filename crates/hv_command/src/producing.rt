//! The job `produce`: a proof that a task has no plan.
//!
//! A draft is asked for, and its lines are written: the formula is made from the least set, or of
//! the greatest trap, and the lines are put into the draft under one condition, that each is good
//! after those before it. The proof of that condition is about the set alone, so no proof is
//! checked while it is written.

ghost use Rattle.std.specs.Prelude.{◌≡◌, ◌≤◌, IfOk, IfSome, IsErrOf, IsTrue, reverse};
ghost use Rattle.hv_bytes.specs.Devices.{Rose};
ghost use Rattle.hv_bytes.specs.Files.{bytes_of};
ghost use Rattle.hv_lines.specs.Spelling.{proof_text};
ghost use Rattle.hv_command.specs.Answer.{AfterTask, AnswersProduce};
ghost use Rattle.hv_command.specs.Working.Replies.{IsJobStatus};
ghost use Rattle.hv_command.specs.Working.Reply.{IsReply};
ghost use Rattle.hv_command.specs.declared.job.Kind.TheVariants as K;
ghost use Rattle.hv_command.specs.declared.status.Status.TheVariants as S;

use crate::job::{FileName, Kind};
use crate::job_fault::JobFault;
use crate::reply::{Reply, fixed};
use crate::status::Status;
use crate::task_fault::fault_reply;
use hv_bytes::{Limits, Shelf, Text};
use hv_lines::Draft;
use hv_proof_text::write_proof;
use hv_reach::{ReachFault, prove_pairs, prove_relaxed};
use hv_task::Task;
use hv_task_text::read_task;
use hv_trap::{TrapFault, prove_trap};
use std::alloc::{AllocError, Global};

/// The answer to `produce KIND TASK`.
pub(crate) fn produce<S: Shelf>(
    alloc: Global,
    shelf: &mut S,
    kind: Kind,
    task: &FileName,
) -> Result<Reply, JobFault>
    requires { IsTrue (S.allows shelf.old task.now) }
    ensures answer { IfSome (S.held shelf.old) (λ held. IfOk result (λ r.
        AfterTask (bytes_of held task.now) (AnswersProduce kind) r.status r.text)) }
    ensures answered { IfOk result (λ r. IsJobStatus r.status) }
    ensures held { S.held shelf.new ≡ S.held shelf.old }
    ensures allows { S.allows shelf.new ≡ S.allows shelf.old }
    ensures later { S.faults shelf.old ≤ S.faults shelf.new }
    ensures cause { IsErrOf result JobFault.ReadFault → Rose (S.faults shelf.old)
        (S.faults shelf.new) }
{
    match read_task(alloc, shelf, task.as_str(), Limits::STANDARD) {
        Ok(task) => {
            let answer = proof_reply(alloc, kind, &task)?;
            Ok(answer)
        }
        Err(fault) => {
            let answer = fault_reply(alloc, fault)?;
            Ok(answer)
        }
    }
}

// The proof of this kind for a task, or that there is none.
fn proof_reply(alloc: Global, kind: Kind, task: &Task) -> Result<Reply, AllocError>
    ensures answer { IfOk result (λ r. AnswersProduce kind task.now r.status r.text) }
    ensures answered { IfOk result (λ r. IsJobStatus r.status) }
{
    match kind {
        Kind::Relaxed => relaxed_reply(alloc, task),
        Kind::Pairs => pairs_reply(alloc, task),
        Kind::Trap => trap_reply(alloc, task),
    }
}

fn relaxed_reply(alloc: Global, task: &Task) -> Result<Reply, AllocError>
    ensures answer { IfOk result (λ r. AnswersProduce K.Relaxed task.now r.status r.text) }
    ensures answered { IfOk result (λ r. IsJobStatus r.status) }
{
    match prove_relaxed(alloc, task)? {
        Some(draft) => {
            let answer = written(alloc, &draft)?;
            Ok(answer)
        }
        None => {
            let answer = fixed(alloc, Status::Refused, b"no proof")?;
            Ok(answer)
        }
    }
}

fn pairs_reply(alloc: Global, task: &Task) -> Result<Reply, AllocError>
    ensures answer { IfOk result (λ r. AnswersProduce K.Pairs task.now r.status r.text) }
    ensures answered { IfOk result (λ r. IsJobStatus r.status) }
{
    match prove_pairs(alloc, task) {
        Ok(Some(draft)) => {
            let answer = written(alloc, &draft)?;
            Ok(answer)
        }
        Ok(None) => {
            let answer = fixed(alloc, Status::Refused, b"no proof")?;
            Ok(answer)
        }
        Err(ReachFault::TooManyAtoms) => {
            let answer = fixed(alloc, Status::Refused, b"too many atoms")?;
            Ok(answer)
        }
        Err(ReachFault::Memory) => Err(AllocError),
    }
}

fn trap_reply(alloc: Global, task: &Task) -> Result<Reply, AllocError>
    ensures answer { IfOk result (λ r. AnswersProduce K.Trap task.now r.status r.text) }
    ensures answered { IfOk result (λ r. IsJobStatus r.status) }
{
    match prove_trap(alloc, task) {
        Ok(Some(draft)) => {
            let answer = written(alloc, &draft)?;
            Ok(answer)
        }
        Ok(None) => {
            let answer = fixed(alloc, Status::Refused, b"no proof")?;
            Ok(answer)
        }
        Err(TrapFault::TooManyAtoms) => {
            let answer = fixed(alloc, Status::Refused, b"too many atoms")?;
            Ok(answer)
        }
        Err(TrapFault::Memory) => Err(AllocError),
    }
}

/// The text of a draft.
pub(crate) fn written(alloc: Global, draft: &Draft) -> Result<Reply, AllocError>
    ensures { IfOk result (λ r. IsReply r S.Done (proof_text (reverse draft.now.lines))) }
{
    let mut text = Text::new(alloc);
    write_proof(alloc, draft.table(), &mut text)?;
    Ok(Reply {
        status: Status::Done,
        text,
    })
}

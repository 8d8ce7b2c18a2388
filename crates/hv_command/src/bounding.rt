//! The job `bound`: a task that has a plan exactly where the given one has a plan within a cost.

ghost use Rattle.std.specs.Prelude.{◌≡◌, ◌≤◌, IfOk, IfSome, IsErrOf, IsTrue};
ghost use Rattle.hv_bytes.specs.Devices.{Rose};
ghost use Rattle.hv_bytes.specs.Files.{bytes_of};
ghost use Rattle.hv_command.specs.Answer.{AfterTask, AnswersBound};
ghost use Rattle.hv_command.specs.Working.Replies.{IsJobStatus};

use crate::job::FileName;
use crate::job_fault::JobFault;
use crate::reply::{Reply, fixed, task_reply};
use crate::status::Status;
use crate::task_fault::fault_reply;
use hv_bound::{BoundFault, bounded};
use hv_bytes::{Limits, Shelf};
use hv_task::Task;
use hv_task_text::read_task;
use std::alloc::{AllocError, Global};

/// The answer to `bound TASK K`.
pub(crate) fn bound<S: Shelf>(
    alloc: Global,
    shelf: &mut S,
    task: &FileName,
    most: u32,
) -> Result<Reply, JobFault>
    requires { IsTrue (S.allows shelf.old task.now) }
    ensures answer { IfSome (S.held shelf.old) (λ held. IfOk result (λ r.
        AfterTask (bytes_of held task.now) (AnswersBound most) r.status r.text)) }
    ensures answered { IfOk result (λ r. IsJobStatus r.status) }
    ensures held { S.held shelf.new ≡ S.held shelf.old }
    ensures allows { S.allows shelf.new ≡ S.allows shelf.old }
    ensures later { S.faults shelf.old ≤ S.faults shelf.new }
    ensures cause { IsErrOf result JobFault.ReadFault → Rose (S.faults shelf.old)
        (S.faults shelf.new) }
{
    match read_task(alloc, shelf, task.as_str(), Limits::STANDARD) {
        Ok(task) => {
            let answer = bound_reply(alloc, &task, most)?;
            Ok(answer)
        }
        Err(fault) => {
            let answer = fault_reply(alloc, fault)?;
            Ok(answer)
        }
    }
}

// The text of the task with the bound, or that it would be too large.
fn bound_reply(alloc: Global, task: &Task, most: u32) -> Result<Reply, AllocError>
    ensures answer { IfOk result (λ r. AnswersBound most task.now r.status r.text) }
    ensures answered { IfOk result (λ r. IsJobStatus r.status) }
{
    match bounded(alloc, task, most) {
        Ok(made) => {
            let answer = task_reply(alloc, &made)?;
            Ok(answer)
        }
        Err(BoundFault::TooLarge) => {
            let answer = fixed(alloc, Status::Refused, b"too large")?;
            Ok(answer)
        }
        Err(BoundFault::Memory) => Err(AllocError),
    }
}

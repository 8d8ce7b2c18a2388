//! A task text that isn't read.

ghost use Rattle.std.specs.Prelude.{◌≡◌, MatchResult};
ghost use Rattle.hv_task_text.specs.declared.fault.TaskFault.TheVariants as F;
ghost use Rattle.hv_command.specs.Replies.{task_fault_text};
ghost use Rattle.hv_command.specs.Working.Replies.{IsTextFault};
ghost use Rattle.hv_command.specs.Working.Reply.{IsReply};
ghost use Rattle.hv_command.specs.declared.status.Status.TheVariants as S;

use crate::job_fault::JobFault;
use crate::reply::{Reply, text_fault};
use hv_task_text::TaskFault;
use std::alloc::Global;

/// What is answered to a task text that isn't read.
pub(crate) fn fault_reply(alloc: Global, fault: TaskFault) -> Result<Reply, JobFault>
    ensures { MatchResult result
        (λ r. IsReply r S.BadInput (task_fault_text fault) × IsTextFault fault)
        (λ met. met ≡ JobFault.ReadFault → fault ≡ F.ReadFault) }
{
    match fault {
        TaskFault::Place(line, kind) => {
            let answer = text_fault(alloc, b"task line ", line, b": place ", kind.word())?;
            Ok(answer)
        }
        TaskFault::Limit(line, limit) => {
            let answer = text_fault(alloc, b"task line ", line, b": limit ", limit.word())?;
            Ok(answer)
        }
        TaskFault::ReadFault => Err(JobFault::ReadFault),
        TaskFault::Memory => Err(JobFault::Memory),
    }
}

//! The job `sas`: a translator's task becomes a task text.

ghost use Rattle.std.specs.Prelude.{◌≡◌, ◌≤◌, IfOk, IfSome, IsErrOf, IsTrue, MatchResult};
ghost use Rattle.hv_bytes.specs.Devices.{Rose};
ghost use Rattle.hv_bytes.specs.Files.{bytes_of};
ghost use Rattle.hv_sas.specs.Sound.{IsSoundSas};
ghost use Rattle.hv_sas.specs.declared.fault.SasFault.TheVariants as A;
ghost use Rattle.hv_command.specs.Answer.{AfterSas, AnswersSas};
ghost use Rattle.hv_command.specs.Replies.{sas_fault_text};
ghost use Rattle.hv_command.specs.Working.Replies.{IsJobStatus, IsSasFault};
ghost use Rattle.hv_command.specs.Working.Reply.{IsReply};
ghost use Rattle.hv_command.specs.declared.status.Status.TheVariants as S;

use crate::job::FileName;
use crate::job_fault::JobFault;
use crate::reply::{Reply, task_reply, text_fault};
use hv_bytes::{Limits, Shelf};
use hv_sas::{Sas, SasFault, read_sas, to_strips};
use std::alloc::{AllocError, Global};

/// The answer to `sas FILE`.
pub(crate) fn translate<S: Shelf>(
    alloc: Global,
    shelf: &mut S,
    file: &FileName,
) -> Result<Reply, JobFault>
    requires { IsTrue (S.allows shelf.old file.now) }
    ensures answer { IfSome (S.held shelf.old) (λ held. IfOk result (λ r.
        AfterSas (bytes_of held file.now) AnswersSas r.status r.text)) }
    ensures answered { IfOk result (λ r. IsJobStatus r.status) }
    ensures held { S.held shelf.new ≡ S.held shelf.old }
    ensures allows { S.allows shelf.new ≡ S.allows shelf.old }
    ensures later { S.faults shelf.old ≤ S.faults shelf.new }
    ensures cause { IsErrOf result JobFault.ReadFault → Rose (S.faults shelf.old)
        (S.faults shelf.new) }
{
    match read_sas(alloc, shelf, file.as_str(), Limits::STANDARD) {
        Ok(sas) => {
            let answer = made_task(alloc, &sas)?;
            Ok(answer)
        }
        Err(fault) => {
            let answer = sas_fault_reply(alloc, fault)?;
            Ok(answer)
        }
    }
}

// The text of the task that is made of a translator's task.
fn made_task(alloc: Global, sas: &Sas) -> Result<Reply, AllocError>
    requires { IsSoundSas sas.now }
    ensures answer { IfOk result (λ r. AnswersSas sas.now r.status r.text) }
    ensures answered { IfOk result (λ r. IsJobStatus r.status) }
{
    let task = to_strips(alloc, sas)?;
    let answer = task_reply(alloc, &task)?;
    Ok(answer)
}

// What is answered to a translator's file that isn't read.
fn sas_fault_reply(alloc: Global, fault: SasFault) -> Result<Reply, JobFault>
    ensures { MatchResult result
        (λ r. IsReply r S.BadInput (sas_fault_text fault) × IsSasFault fault)
        (λ met. met ≡ JobFault.ReadFault → fault ≡ A.ReadFault) }
{
    match fault {
        SasFault::Place(line, kind) => {
            let answer = text_fault(alloc, b"sas line ", line, b": place ", kind.word())?;
            Ok(answer)
        }
        SasFault::Unsupported(line, which) => {
            let answer = text_fault(alloc, b"sas line ", line, b": unsupported ", which.word())?;
            Ok(answer)
        }
        SasFault::Limit(line, limit) => {
            let answer = text_fault(alloc, b"sas line ", line, b": limit ", limit.word())?;
            Ok(answer)
        }
        SasFault::ReadFault => Err(JobFault::ReadFault),
        SasFault::Memory => Err(JobFault::Memory),
    }
}

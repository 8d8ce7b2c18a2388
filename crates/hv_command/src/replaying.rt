//! The job `replay`: the log of a search becomes a proof that a task has no plan.
//!
//! The log is followed before anything is written; then the lines come. `main` makes the three
//! pruners and hands them to `run`, which knows nothing of them but the trait.

ghost use Rattle.std.specs.Prelude.{◌≡◌, ◌≤◌, IfOk, IfSome, IsErrOf, IsTrue};
ghost use Rattle.std.specs.Prelude.{MatchResult};
ghost use Rattle.std.specs.List.{Any};
ghost use Rattle.hv_bytes.specs.Devices.{Rose};
ghost use Rattle.hv_bytes.specs.Files.{bytes_of};
ghost use Rattle.hv_task.specs.Strips.{atoms};
ghost use Rattle.hv_replay.specs.declared.fault.LogFault.TheVariants as L;
ghost use Rattle.hv_replay.specs.declared.hole.ReplayFault.TheVariants as H;
ghost use Rattle.hv_command.specs.Answer.{AfterLog, AnswersLog, AnswersReplay};
ghost use Rattle.hv_command.specs.Replies.{hole_text};
ghost use Rattle.hv_command.specs.Working.Replies.{IsJobStatus, IsLogFault};
ghost use Rattle.hv_command.specs.Replies.{log_fault_text};
ghost use Rattle.hv_command.specs.Working.Reply.{IsReply};
ghost use Rattle.hv_command.specs.declared.status.Status.TheVariants as S;

use crate::job::FileName;
use crate::job_fault::JobFault;
use crate::producing::written;
use crate::reply::{Reply, fixed, numbered, text_fault};
use crate::status::Status;
use crate::task_fault::fault_reply;
use hv_bytes::{Limits, Shelf, Text};
use hv_lines::Pruner;
use hv_replay::{Log, LogFault, ReplayFault, read_log, replay};
use hv_task::Task;
use hv_task_text::read_task;
use std::alloc::{AllocError, Global};

/// The answer to `replay TASK LOG`, with these pruners, which are asked in order.
pub(crate) fn replay_files<S: Shelf>(
    alloc: Global,
    shelf: &mut S,
    task: &FileName,
    log: &FileName,
    pruners: &mut Vec<Box<dyn Pruner>>,
) -> Result<Reply, JobFault>
    requires task { IsTrue (S.allows shelf.old task.now) }
    requires log { IsTrue (S.allows shelf.old log.now) }
    ensures answer { IfSome (S.held shelf.old) (λ held. IfOk result (λ r.
        AnswersReplay (λ task state. Any (λ b. covers b task state) pruners.old.items)
        task.now log.now held r.status r.text)) }
    ensures answered { IfOk result (λ r. IsJobStatus r.status) }
    ensures held { S.held shelf.new ≡ S.held shelf.old }
    ensures allows { S.allows shelf.new ≡ S.allows shelf.old }
    ensures later { S.faults shelf.old ≤ S.faults shelf.new }
    ensures cause { IsErrOf result JobFault.ReadFault → Rose (S.faults shelf.old)
        (S.faults shelf.new) }
{
    match read_task(alloc, shelf, task.as_str(), Limits::STANDARD) {
        Ok(task) => {
            let answer = replay_of_task(alloc, shelf, &task, log, pruners)?;
            Ok(answer)
        }
        Err(fault) => {
            let answer = fault_reply(alloc, fault)?;
            Ok(answer)
        }
    }
}

// The answer to the log of a task.
fn replay_of_task<S: Shelf>(
    alloc: Global,
    shelf: &mut S,
    task: &Task,
    log: &FileName,
    pruners: &mut Vec<Box<dyn Pruner>>,
) -> Result<Reply, JobFault>
    requires log { IsTrue (S.allows shelf.old log.now) }
    ensures answer { IfSome (S.held shelf.old) (λ held. IfOk result (λ r.
        AfterLog task.now (bytes_of held log.now)
        (AnswersLog (λ task state. Any (λ b. covers b task state) pruners.old.items) task.now)
        r.status r.text)) }
    ensures answered { IfOk result (λ r. IsJobStatus r.status) }
    ensures held { S.held shelf.new ≡ S.held shelf.old }
    ensures allows { S.allows shelf.new ≡ S.allows shelf.old }
    ensures later { S.faults shelf.old ≤ S.faults shelf.new }
    ensures cause { IsErrOf result JobFault.ReadFault → Rose (S.faults shelf.old)
        (S.faults shelf.new) }
{
    match read_log(alloc, shelf, log.as_str(), task) {
        Ok(log) => {
            let answer = log_reply(alloc, task, &log, pruners)?;
            Ok(answer)
        }
        Err(fault) => {
            let answer = log_fault_reply(alloc, fault)?;
            Ok(answer)
        }
    }
}

// The proof that replays a log, or the log's first hole.
fn log_reply(
    alloc: Global,
    task: &Task,
    log: &Log,
    pruners: &mut Vec<Box<dyn Pruner>>,
) -> Result<Reply, AllocError>
    requires { log.now.atoms ≡ atoms task.now }
    ensures answer { IfOk result (λ r. AnswersLog
        (λ task state. Any (λ b. covers b task state) pruners.old.items)
        task.now log.now r.status r.text) }
    ensures answered { IfOk result (λ r. IsJobStatus r.status) }
{
    match replay(alloc, task, log, pruners) {
        Ok(draft) => {
            let answer = written(alloc, &draft)?;
            Ok(answer)
        }
        Err(hole) => {
            let answer = hole_reply(alloc, hole)?;
            Ok(answer)
        }
    }
}

// What is answered to a log with a hole.
fn hole_reply(alloc: Global, hole: ReplayFault) -> Result<Reply, AllocError>
    ensures reply { IfOk result (λ r. IsReply r S.Refused (hole_text hole)) }
    ensures hole { IfOk result (λ _. hole ≡ H.Memory → ⊥) }
{
    match hole {
        ReplayFault::NoInitial => {
            let answer = fixed(alloc, Status::Refused, b"log: no initial state")?;
            Ok(answer)
        }
        ReplayFault::GoalExpanded(line) => {
            let answer = numbered(
                alloc,
                Status::Refused,
                b"log line ",
                line,
                b": goal expanded",
            )?;
            Ok(answer)
        }
        ReplayFault::Open(line, action) => {
            let answer = open_reply(alloc, line, action)?;
            Ok(answer)
        }
        ReplayFault::Unjustified(line) => {
            let answer = numbered(alloc, Status::Refused, b"log line ", line, b": unjustified")?;
            Ok(answer)
        }
        ReplayFault::Memory => Err(AllocError),
    }
}

// What is answered to a log that isn't read.
fn log_fault_reply(alloc: Global, fault: LogFault) -> Result<Reply, JobFault>
    ensures { MatchResult result
        (λ r. IsReply r S.BadInput (log_fault_text fault) × IsLogFault fault)
        (λ met. met ≡ JobFault.ReadFault → fault ≡ L.ReadFault) }
{
    match fault {
        LogFault::Place(line) => {
            let answer = numbered(alloc, Status::BadInput, b"log line ", line, b": place")?;
            Ok(answer)
        }
        LogFault::Limit(line, limit) => {
            let answer = text_fault(alloc, b"log line ", line, b": limit ", limit.word())?;
            Ok(answer)
        }
        LogFault::ReadFault => Err(JobFault::ReadFault),
        LogFault::Memory => Err(JobFault::Memory),
    }
}

// `log line L: open action A`
fn open_reply(alloc: Global, line: u64, action: u32) -> Result<Reply, AllocError>
    ensures { IfOk result (λ r. IsReply r S.Refused (hole_text (H.Open line action))) }
{
    let mut text = Text::new(alloc);
    text.push_bytes(b"log line ")?;
    text.push_number(line)?;
    text.push_bytes(b": open action ")?;
    text.push_number(u64::from(action))?;
    text.push_bytes(b"\n")?;
    Ok(Reply {
        status: Status::Refused,
        text,
    })
}

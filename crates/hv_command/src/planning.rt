//! The job `plan`: whether a list of action numbers is a plan of a task, and what it costs.

ghost use Rattle.std.specs.Prelude.{◌≡◌, ◌≤◌, IfOk, IfSome, IsErrOf, IsTrue, MatchResult, length};
ghost use Rattle.hv_bytes.specs.Devices.{Rose};
ghost use Rattle.hv_bytes.specs.Files.{bytes_of};
ghost use Rattle.hv_bound.specs.declared.fault.PlanFault.TheVariants as B;
ghost use Rattle.hv_command.specs.Answer.{AfterPlan, AfterTask, AnswersPlan};
ghost use Rattle.hv_command.specs.Replies.{plan_fault_text, plan_status, plan_text};
ghost use Rattle.hv_command.specs.Working.Replies.{IsJobStatus, IsPlanFault};
ghost use Rattle.hv_command.specs.Working.Reply.{IsReply};
ghost use Rattle.hv_command.specs.declared.status.Status.TheVariants as S;

use crate::job::FileName;
use crate::job_fault::JobFault;
use crate::reply::{Reply, fixed, numbered};
use crate::status::Status;
use crate::task_fault::fault_reply;
use hv_bound::{PlanAnswer, PlanFault, PlanList, check_plan, read_plan};
use hv_bytes::{Limits, Shelf};
use hv_task::Task;
use hv_task_text::read_task;
use std::alloc::{AllocError, Global};

/// The answer to `plan TASK PLAN`.
pub(crate) fn plan_files<S: Shelf>(
    alloc: Global,
    shelf: &mut S,
    task: &FileName,
    plan: &FileName,
) -> Result<Reply, JobFault>
    requires task { IsTrue (S.allows shelf.old task.now) }
    requires plan { IsTrue (S.allows shelf.old plan.now) }
    ensures answer { IfSome (S.held shelf.old) (λ held. IfOk result (λ r.
        AfterTask (bytes_of held task.now)
        (λ given. AfterPlan (bytes_of held plan.now) (AnswersPlan given)) r.status r.text)) }
    ensures answered { IfOk result (λ r. IsJobStatus r.status) }
    ensures held { S.held shelf.new ≡ S.held shelf.old }
    ensures allows { S.allows shelf.new ≡ S.allows shelf.old }
    ensures later { S.faults shelf.old ≤ S.faults shelf.new }
    ensures cause { IsErrOf result JobFault.ReadFault → Rose (S.faults shelf.old)
        (S.faults shelf.new) }
{
    match read_task(alloc, shelf, task.as_str(), Limits::STANDARD) {
        Ok(task) => {
            let answer = plan_of_task(alloc, shelf, &task, plan)?;
            Ok(answer)
        }
        Err(fault) => {
            let answer = fault_reply(alloc, fault)?;
            Ok(answer)
        }
    }
}

// The answer to the plan file of a task.
fn plan_of_task<S: Shelf>(
    alloc: Global,
    shelf: &mut S,
    task: &Task,
    plan: &FileName,
) -> Result<Reply, JobFault>
    requires { IsTrue (S.allows shelf.old plan.now) }
    ensures answer { IfSome (S.held shelf.old) (λ held. IfOk result (λ r.
        AfterPlan (bytes_of held plan.now) (AnswersPlan task.now) r.status r.text)) }
    ensures answered { IfOk result (λ r. IsJobStatus r.status) }
    ensures held { S.held shelf.new ≡ S.held shelf.old }
    ensures allows { S.allows shelf.new ≡ S.allows shelf.old }
    ensures later { S.faults shelf.old ≤ S.faults shelf.new }
    ensures cause { IsErrOf result JobFault.ReadFault → Rose (S.faults shelf.old)
        (S.faults shelf.new) }
{
    match read_plan(alloc, shelf, plan.as_str()) {
        Ok(list) => {
            let answer = list_reply(alloc, task, &list)?;
            Ok(answer)
        }
        Err(fault) => {
            let answer = plan_fault_reply(alloc, fault)?;
            Ok(answer)
        }
    }
}

// What a list of action numbers is.
fn list_reply(alloc: Global, task: &Task, list: &PlanList) -> Result<Reply, AllocError>
    requires { length list.now ≤ 4194304 }
    ensures answer { IfOk result (λ r. AnswersPlan task.now list.now r.status r.text) }
    ensures answered { IfOk result (λ r. IsJobStatus r.status) }
{
    let answer = check_plan(alloc, task, list.as_slice())?;
    let reply = plan_reply(alloc, answer)?;
    Ok(reply)
}

// What is answered to a list of action numbers that was checked.
fn plan_reply(alloc: Global, answer: PlanAnswer) -> Result<Reply, AllocError>
    ensures reply { IfOk result (λ r. IsReply r (plan_status answer) (plan_text answer)) }
    ensures answered { IfOk result (λ r. IsJobStatus r.status) }
{
    match answer {
        PlanAnswer::Cost(cost) => {
            let reply = numbered(alloc, Status::Done, b"plan cost ", cost, b"")?;
            Ok(reply)
        }
        PlanAnswer::Unknown(step) => {
            let reply = numbered(alloc, Status::Refused, b"step ", step, b": unknown")?;
            Ok(reply)
        }
        PlanAnswer::NotApplicable(step) => {
            let reply = numbered(alloc, Status::Refused, b"step ", step, b": not applicable")?;
            Ok(reply)
        }
        PlanAnswer::NoGoal => {
            let reply = fixed(alloc, Status::Refused, b"no goal")?;
            Ok(reply)
        }
    }
}

// What is answered to a plan file that isn't read.
fn plan_fault_reply(alloc: Global, fault: PlanFault) -> Result<Reply, JobFault>
    ensures { MatchResult result
        (λ r. IsReply r S.BadInput (plan_fault_text fault) × IsPlanFault fault)
        (λ met. met ≡ JobFault.ReadFault → fault ≡ B.ReadFault) }
{
    match fault {
        PlanFault::Place(line) => {
            let answer = numbered(alloc, Status::BadInput, b"plan line ", line, b": place")?;
            Ok(answer)
        }
        PlanFault::Limit(line) => {
            let answer = numbered(alloc, Status::BadInput, b"plan line ", line, b": limit")?;
            Ok(answer)
        }
        PlanFault::ReadFault => Err(JobFault::ReadFault),
        PlanFault::Memory => Err(JobFault::Memory),
    }
}

//! The jobs `check`, `explain` and `upgrade`: a task, then a proof of it. They differ only in what
//! is answered to a proof that is accepted.

ghost use Rattle.std.specs.Prelude.{◌≡◌, ◌≢◌, ◌≤◌, List, [], None, Some, IfOk, IfSome};
ghost use Rattle.std.specs.Prelude.{IsErrOf, IsSome, IsTrue, MatchResult, option_map, reverse};
ghost use Rattle.hv_bytes.specs.Devices.{Rose};
ghost use Rattle.hv_bytes.specs.Files.{bytes_of};
ghost use Rattle.hv_task_text.specs.declared.fault.TaskFault.TheVariants as F;
ghost use Rattle.hv_lines.specs.Judged.{LineText, Unsolvable};
ghost use Rattle.hv_bdd.specs.declared.fault.NodesFault.TheVariants as N;
ghost use Rattle.hv_task.specs.Strips.{atoms};
ghost use Rattle.hv_lines.specs.Setting.{setting_of};
ghost use Rattle.hv_proof_text.specs.Closed.{closed_text};
ghost use Rattle.hv_checker.specs.Checkers.{HasJudged, refusal_of};
ghost use Rattle.hv_checker.specs.declared.stop.Stop.TheVariants as C;
ghost use Rattle.hv_command.specs.Answer.{AnswersCheck, AnswersPieces, AnswersProof, AnswersTask};
ghost use Rattle.hv_command.specs.Answer.{IsTold};
ghost use Rattle.hv_command.specs.Working.Replies.{IsJobStatus, IsNodesFault, IsTextFault};
ghost use Rattle.hv_command.specs.Replies.{nodes_fault_text, task_fault_text};
ghost use Rattle.hv_command.specs.Working.Reply.{IsReply};
ghost use Rattle.hv_command.specs.declared.status.Status.TheVariants as S;

use crate::feeding::feed_file;
use crate::job::{FileName, Report};
use crate::job_fault::JobFault;
use crate::proof_file::ProofFile;
use crate::reply::{Reply, fixed, refusal, text_fault};
use crate::status::Status;
use crate::task_fault::fault_reply;
use hv_bdd::{Diagrams, NodesFault, read_nodes};
use hv_bytes::{Limits, Shelf, Text};
use hv_checker::{Checker, End};
use hv_explain::explain;
use hv_lines::{Reason, Table};
use hv_proof_text::write_proof;
use hv_task::Task;
use hv_task_text::read_task;
use std::alloc::{AllocError, Global};

/// The answer to `check TASK PROOF`, or to `explain` or `upgrade` with the same names, with a node
/// file, or with none.
pub(crate) fn check<S: Shelf>(
    alloc: Global,
    shelf: &mut S,
    task: &FileName,
    nodes: &Option<FileName>,
    proof: &ProofFile<'_>,
) -> Result<Reply, JobFault>
    requires task { IsTrue (S.allows shelf.old task.now) }
    requires proof { IsTrue (S.allows shelf.old proof.now.name.now) }
    requires nodes { IfSome nodes.now (λ name. IsTrue (S.allows shelf.old name)) }
    ensures answer { IfSome (S.held shelf.old) (λ held. IfOk result (λ r.
        AnswersCheck proof.now.report task.now proof.now.name.now nodes.now proof.now.budget held
        r.status r.text)) }
    ensures answered { IfOk result (λ r. IsJobStatus r.status) }
    ensures held { S.held shelf.new ≡ S.held shelf.old }
    ensures allows { S.allows shelf.new ≡ S.allows shelf.old }
    ensures later { S.faults shelf.old ≤ S.faults shelf.new }
    ensures cause { IsErrOf result JobFault.ReadFault → Rose (S.faults shelf.old)
        (S.faults shelf.new) }
{
    match read_task(alloc, shelf, task.as_str(), Limits::STANDARD) {
        Ok(task) => {
            let answer = check_task(alloc, shelf, &task, nodes, proof)?;
            Ok(answer)
        }
        Err(fault) => {
            let answer = fault_reply(alloc, fault)?;
            Ok(answer)
        }
    }
}

// What is answered to a node file that isn't read.
fn nodes_fault_reply(alloc: Global, fault: NodesFault) -> Result<Reply, JobFault>
    ensures { MatchResult result
        (λ r. IsReply r S.BadInput (nodes_fault_text fault) × IsNodesFault fault)
        (λ met. met ≡ JobFault.ReadFault → fault ≡ N.ReadFault) }
{
    match fault {
        NodesFault::Place(line, kind) => {
            let answer = text_fault(alloc, b"nodes line ", line, b": place ", kind.word())?;
            Ok(answer)
        }
        NodesFault::Limit(line, limit) => {
            let answer = text_fault(alloc, b"nodes line ", line, b": limit ", limit.word())?;
            Ok(answer)
        }
        NodesFault::ReadFault => Err(JobFault::ReadFault),
        NodesFault::Memory => Err(JobFault::Memory),
    }
}

// The answer to the node file, if one is named, and then to the proof file, of a task.
fn check_task<S: Shelf>(
    alloc: Global,
    shelf: &mut S,
    task: &Task,
    nodes: &Option<FileName>,
    proof: &ProofFile<'_>,
) -> Result<Reply, JobFault>
    requires proof { IsTrue (S.allows shelf.old proof.now.name.now) }
    requires nodes { IfSome nodes.now (λ name. IsTrue (S.allows shelf.old name)) }
    ensures answer { IfSome (S.held shelf.old) (λ held. IfOk result (λ r.
        AnswersTask proof.now.report task.now proof.now.name.now nodes.now proof.now.budget held
        r.status r.text)) }
    ensures answered { IfOk result (λ r. IsJobStatus r.status) }
    ensures held { S.held shelf.new ≡ S.held shelf.old }
    ensures allows { S.allows shelf.new ≡ S.allows shelf.old }
    ensures later { S.faults shelf.old ≤ S.faults shelf.new }
    ensures cause { IsErrOf result JobFault.ReadFault → Rose (S.faults shelf.old)
        (S.faults shelf.new) }
{
    match nodes {
        None => {
            let diagrams = Diagrams::none(alloc, task.atoms());
            let answer = check_proof(alloc, shelf, task, &diagrams, proof)?;
            Ok(answer)
        }
        Some(name) => {
            let answer = check_with_nodes(alloc, shelf, task, name, proof)?;
            Ok(answer)
        }
    }
}

// The answer to the node file and then to the proof file, of a task.
fn check_with_nodes<S: Shelf>(
    alloc: Global,
    shelf: &mut S,
    task: &Task,
    nodes: &FileName,
    proof: &ProofFile<'_>,
) -> Result<Reply, JobFault>
    requires proof { IsTrue (S.allows shelf.old proof.now.name.now) }
    requires nodes { IsTrue (S.allows shelf.old nodes.now) }
    ensures answer { IfSome (S.held shelf.old) (λ held. IfOk result (λ r.
        AnswersTask proof.now.report task.now proof.now.name.now (Some nodes.now) proof.now.budget
        held r.status r.text)) }
    ensures answered { IfOk result (λ r. IsJobStatus r.status) }
    ensures held { S.held shelf.new ≡ S.held shelf.old }
    ensures allows { S.allows shelf.new ≡ S.allows shelf.old }
    ensures later { S.faults shelf.old ≤ S.faults shelf.new }
    ensures cause { IsErrOf result JobFault.ReadFault → Rose (S.faults shelf.old)
        (S.faults shelf.new) }
{
    match read_nodes(alloc, shelf, nodes.as_str(), task.atoms(), Limits::STANDARD) {
        Ok(diagrams) => {
            let answer = check_proof(alloc, shelf, task, &diagrams, proof)?;
            Ok(answer)
        }
        Err(fault) => {
            let answer = nodes_fault_reply(alloc, fault)?;
            Ok(answer)
        }
    }
}

/// The answer to the proof file, of a task and over these diagrams.
pub(crate) fn check_proof<S: Shelf>(
    alloc: Global,
    shelf: &mut S,
    task: &Task,
    diagrams: &Diagrams,
    proof: &ProofFile<'_>,
) -> Result<Reply, JobFault>
    requires over { diagrams.now.atoms ≡ atoms task.now }
    requires allowed { IsTrue (S.allows shelf.old proof.now.name.now) }
    ensures answer { IfSome (S.held shelf.old) (λ held. IfOk result (λ r.
        AnswersProof proof.now.report (setting_of task.now diagrams.now proof.now.budget)
        (bytes_of held proof.now.name.now) r.status r.text)) }
    ensures answered { IfOk result (λ r. IsJobStatus r.status) }
    ensures held { S.held shelf.new ≡ S.held shelf.old }
    ensures allows { S.allows shelf.new ≡ S.allows shelf.old }
    ensures later { S.faults shelf.old ≤ S.faults shelf.new }
    ensures cause { IsErrOf result JobFault.ReadFault → Rose (S.faults shelf.old)
        (S.faults shelf.new) }
{
    let mut checker = Checker::new(alloc, task, diagrams, proof.budget)?;
    judge_file(alloc, shelf, proof, &mut checker)
}

// The answer to the proof file, by a checker that was fed nothing.
fn judge_file<S: Shelf>(
    alloc: Global,
    shelf: &mut S,
    proof: &ProofFile<'_>,
    checker: &mut Checker<'_>,
) -> Result<Reply, JobFault>
    requires allowed { IsTrue (S.allows shelf.old proof.now.name.now) }
    requires unfed { checker.old.fed ≡ 0 }
    requires going { checker.old.stop ≡ C.Going }
    requires stands { HasJudged checker.old [] }
    ensures answer { IfSome (S.held shelf.old) (λ held. IfOk result (λ r.
        AnswersProof proof.now.report checker.old.setting (bytes_of held proof.now.name.now)
        r.status r.text)) }
    ensures answered { IfOk result (λ r. IsJobStatus r.status) }
    ensures held { S.held shelf.new ≡ S.held shelf.old }
    ensures allows { S.allows shelf.new ≡ S.allows shelf.old }
    ensures later { S.faults shelf.old ≤ S.faults shelf.new }
    ensures cause { IsErrOf result JobFault.ReadFault → Rose (S.faults shelf.old)
        (S.faults shelf.new) }
{
    feed_file(alloc, shelf, proof.name.as_str(), checker)?;
    let answer = judgement_reply(alloc, proof.report, checker)?;
    Ok(answer)
}

// What is said of the proof that the checker was fed.
fn judgement_reply(
    alloc: Global,
    report: Report,
    checker: &Checker<'_>,
) -> Result<Reply, AllocError>
    requires { checker.now.stop ≢ C.Memory }
    ensures answer { IfOk result (λ r. (pieces : List LineText) → HasJudged checker.now pieces
        → AnswersPieces report checker.now.setting pieces r.status r.text) }
    ensures answered { IfOk result (λ r. IsJobStatus r.status) }
{
    match checker.end() {
        End::Unsolvable => {
            let answer = accepted_reply(alloc, report, checker)?;
            Ok(answer)
        }
        End::Refused(line) => {
            let answer = refusal(alloc, line, reason_of(checker))?;
            Ok(answer)
        }
        End::NoConclusion => {
            let answer = fixed(alloc, Status::Refused, b"no conclusion")?;
            Ok(answer)
        }
        End::Memory => unreachable!(),
    }
}

// What is said of a proof that shows that the task has no plan, which the checker was fed.
fn accepted_reply(alloc: Global, report: Report, checker: &Checker<'_>) -> Result<Reply, AllocError>
    requires accepted { refusal_of checker.now ≡ None }
    requires found { checker.now.stop ≢ C.Memory }
    ensures status { IfOk result (λ r. r.status ≡ S.Done) }
    ensures text { IfOk result (λ r. (pieces : List LineText) → HasJudged checker.now pieces
        → IsTold checker.now.setting pieces Unsolvable report r.text) }
{
    match report {
        Report::Verdict => {
            let answer = fixed(alloc, Status::Done, b"unsolvable")?;
            Ok(answer)
        }
        Report::Explanation => {
            let text = explain(alloc, checker.table())?;
            Ok(Reply {
                status: Status::Done,
                text,
            })
        }
        Report::Renewal => {
            let answer = renewed(alloc, checker.table())?;
            Ok(answer)
        }
    }
}

// The lines of the table as a proof text of version 2.
fn renewed(alloc: Global, table: &Table) -> Result<Reply, AllocError>
    ensures { IfOk result (λ r. IsReply r S.Done (closed_text (reverse table.now.lines))) }
{
    let mut text = Text::new(alloc);
    text.push_bytes(b"helve 2\n")?;
    write_proof(alloc, table, &mut text)?;
    text.push_bytes(b"end\n")?;
    Ok(Reply {
        status: Status::Done,
        text,
    })
}

// Why the checker refused a piece, which it did.
fn reason_of<'c>(checker: &'c Checker<'_>) -> &'c Reason
    requires { IsSome (refusal_of checker.now) }
    ensures { option_map (λ r. r.reason) (refusal_of checker.now) ≡ Some result.now }
{
    match checker.reason() {
        Some(reason) => reason,
        None => unreachable!(),
    }
}

//! The whole product as one call.

ghost use Rattle.std.specs.Prelude.{◌≡◌, ◌≤◌, ◌⊎◌, ℕ, List, Some, None, IfOk, IsErrOf, IsTrue};
ghost use Rattle.std.specs.Io.KnownBytes.{Appends};
ghost use Rattle.std.specs.List.{Any};
ghost use Rattle.hv_bytes.specs.Devices.{AppendsFront, Rose};
ghost use Rattle.hv_command.specs.Answer.{AnswersTold, IsAcceptedTold, IsSoundTold};
ghost use Rattle.hv_command.specs.Replies.{IsAnswered};
ghost use Rattle.hv_command.specs.Working.Replies.{IsJobStatus};
ghost use Rattle.hv_command.specs.Words.{HasName, IsBounded, job_of};
ghost use Rattle.hv_command.specs.declared.status.Status.{Status as StatusOf};

use crate::bounding::bound;
use crate::command_words::Words;
use crate::job::{Job, Report, read_job};
use crate::job_fault::JobFault;
use crate::planning::plan_files;
use crate::producing::produce;
use crate::proof_file::ProofFile;
use crate::proof_jobs::check;
use crate::replaying::replay_files;
use crate::reply::{Reply, fixed};
use crate::sampling::sample;
use crate::status::Status;
use crate::translating::translate;
use hv_bytes::{Shelf, Sink, send};
use hv_lines::Pruner;
use std::alloc::Global;

/// Does what the words ask for: reads the files that they name from the shelf, and writes the
/// answer to the sink. The whole answer is in memory before its first byte is written. A replay
/// asks these pruners, in order, why a pruned state is dead; they are dropped at the end.
pub fn run<S: Shelf, K: Sink>(
    alloc: Global,
    words: &Words,
    shelf: &mut S,
    out: &mut K,
    pruners: Vec<Box<dyn Pruner>>,
) -> Status
    requires { (name : List ℕ) → HasName (job_of words.now) name
        → IsTrue (S.allows shelf.old name) }

    // the shelf still holds and allows the same, and no count falls
    ensures held { S.held shelf.new ≡ S.held shelf.old }
    ensures allows { S.allows shelf.new ≡ S.allows shelf.old }
    ensures later { S.faults shelf.old ≤ S.faults shelf.new }
    ensures later_out { K.faults out.old ≤ K.faults out.new }

    // the answer of the job, and that it was written; a proof that is written is judged
    // `unsolvable`, and a task that is written is read back
    ensures answer { IsAnswered result → (text : List ℕ)
        × AnswersTold (λ task state. Any (λ b. covers b task state) pruners.items)
        (job_of words.now) (S.held shelf.old) result text
        × IsAcceptedTold (job_of words.now) (S.held shelf.old) result text
        × Appends (K.taken out.old) (K.taken out.new) text }
    // what it says is true
    ensures sound { IsAnswered result → IsSoundTold (job_of words.now) (S.held shelf.old) result }

    // the usage line, exactly where the words are no job
    ensures usage { result ≡ Status.Usage → job_of words.now ≡ None }
    ensures no_job { job_of words.now ≡ None →
        (result ≡ Status.Usage) ⊎ (result ≡ Status.WriteFault) ⊎ (result ≡ Status.Memory) }

    // faults of the shelf
    ensures read_fault { result ≡ Status.ReadFault
        → Rose (S.faults shelf.old) (S.faults shelf.new) }
    ensures read_nothing { result ≡ Status.ReadFault → out.new ≡ out.old }

    // faults of the sink: what was written is a beginning of the answer, or all of it, and what
    // the answer says is true
    ensures write_fault { result ≡ Status.WriteFault → Rose (K.faults out.old) (K.faults out.new) }
    ensures write_front { result ≡ Status.WriteFault → (status : StatusOf) × (text : List ℕ)
        × IsAnswered status
        × AnswersTold (λ task state. Any (λ b. covers b task state) pruners.items)
        (job_of words.now) (S.held shelf.old) status text
        × IsAcceptedTold (job_of words.now) (S.held shelf.old) status text
        × IsSoundTold (job_of words.now) (S.held shelf.old) status
        × AppendsFront (K.taken out.old) (K.taken out.new) text }

    // out of memory
    ensures memory { result ≡ Status.Memory → out.new ≡ out.old }
{
    let mut pruners = pruners;
    match answer(alloc, words, shelf, &mut pruners) {
        Ok(reply) => match send(out, reply.text.as_bytes()) {
            Ok(()) => reply.status,
            Err(_) => Status::WriteFault,
        },
        Err(JobFault::ReadFault) => Status::ReadFault,
        Err(JobFault::Memory) => Status::Memory,
    }
}

// The answer of the job that the words name.
fn answer<S: Shelf>(
    alloc: Global,
    words: &Words,
    shelf: &mut S,
    pruners: &mut Vec<Box<dyn Pruner>>,
) -> Result<Reply, JobFault>
    requires { (name : List ℕ) → HasName (job_of words.now) name
        → IsTrue (S.allows shelf.old name) }
    ensures answer { IfOk result (λ r.
        AnswersTold (λ task state. Any (λ b. covers b task state) pruners.old.items)
        (job_of words.now) (S.held shelf.old) r.status r.text) }
    ensures answered { IfOk result (λ r. IsAnswered r.status) }
    ensures usage { IfOk result (λ r. r.status ≡ Status.Usage → job_of words.now ≡ None) }
    ensures no_job { IfOk result (λ r. job_of words.now ≡ None → r.status ≡ Status.Usage) }
    ensures a_job { IsErrOf result JobFault.ReadFault → job_of words.now ≡ None → ⊥ }
    ensures held { S.held shelf.new ≡ S.held shelf.old }
    ensures allows { S.allows shelf.new ≡ S.allows shelf.old }
    ensures later { S.faults shelf.old ≤ S.faults shelf.new }
    ensures cause { IsErrOf result JobFault.ReadFault → Rose (S.faults shelf.old)
        (S.faults shelf.new) }
{
    match read_job(alloc, words)? {
        None => {
            let usage = fixed(alloc, Status::Usage, b"usage: helve COMMAND ARGUMENTS")?;
            Ok(usage)
        }
        Some(job) => {
            let reply = do_job(alloc, shelf, &job, pruners)?;
            Ok(reply)
        }
    }
}

fn do_job<S: Shelf>(
    alloc: Global,
    shelf: &mut S,
    job: &Job,
    pruners: &mut Vec<Box<dyn Pruner>>,
) -> Result<Reply, JobFault>
    requires bounded { IsBounded job.now }
    requires allowed { (name : List ℕ) → HasName (Some job.now) name
        → IsTrue (S.allows shelf.old name) }
    ensures answer { IfOk result (λ r.
        AnswersTold (λ task state. Any (λ b. covers b task state) pruners.old.items)
        (Some job.now) (S.held shelf.old) r.status r.text) }
    ensures job_status { IfOk result (λ r. IsJobStatus r.status) }
    ensures held { S.held shelf.new ≡ S.held shelf.old }
    ensures allows { S.allows shelf.new ≡ S.allows shelf.old }
    ensures later { S.faults shelf.old ≤ S.faults shelf.new }
    ensures cause { IsErrOf result JobFault.ReadFault → Rose (S.faults shelf.old)
        (S.faults shelf.new) }
{
    match job {
        Job::Check {
            task,
            proof,
            nodes,
            budget,
        } => {
            let proof = ProofFile::new(proof, *budget, Report::Verdict);
            let reply = check(alloc, shelf, task, nodes, &proof)?;
            Ok(reply)
        }
        Job::Explain {
            task,
            proof,
            nodes,
            budget,
        } => {
            let proof = ProofFile::new(proof, *budget, Report::Explanation);
            let reply = check(alloc, shelf, task, nodes, &proof)?;
            Ok(reply)
        }
        Job::Upgrade {
            task,
            proof,
            nodes,
            budget,
        } => {
            let proof = ProofFile::new(proof, *budget, Report::Renewal);
            let reply = check(alloc, shelf, task, nodes, &proof)?;
            Ok(reply)
        }
        Job::Produce { kind, task } => produce(alloc, shelf, *kind, task),
        Job::Replay { task, log } => replay_files(alloc, shelf, task, log, pruners),
        Job::Sample { rooms } => {
            let reply = sample(alloc, *rooms)?;
            Ok(reply)
        }
        Job::Sas { file } => translate(alloc, shelf, file),
        Job::Bound { task, most } => bound(alloc, shelf, task, *most),
        Job::Plan { task, plan } => plan_files(alloc, shelf, task, plan),
    }
}

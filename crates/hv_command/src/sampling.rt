//! The job `sample`: a task made from a number of rooms, whose two proofs are made, written, and
//! checked from the bytes that were written, as `check` judges a file, from a source in memory.
//!
//! The numbers that it prints are counted in the drafts, and the word `unsolvable` is the checker's
//! answer, though its clause would be met by printing a function of the number of rooms: so the
//! command shows on any machine that the producers and the checker work. The text is given in
//! closed form, and that it counts the clauses of the formula is a lemma of the function that
//! prints it: the pairs which are reached are each room with itself.

ghost use Rattle.std.specs.Prelude.{◌≡◌, ◌+◌, ◌++◌, ◌∷◌, [], List, IfOk, IsErrOf, OnOk, codes};
ghost use Rattle.std.specs.Prelude.{decimal, length};
ghost use Rattle.hv_bytes.specs.Devices.{Rose};
ghost use Rattle.hv_bytes.specs.Files.{bytes_of, held_of};
ghost use Rattle.hv_bytes.specs.Standard.{standard};
ghost use Rattle.hv_lines.specs.Drafts.{IsGoodTable, draft_setting};
ghost use Rattle.hv_lines.specs.Judged.{Concludes, JudgedBytes, Unsolvable};
ghost use Rattle.hv_reach.specs.Written.{horn_proof};
ghost use Rattle.hv_sets.specs.declared.literal.Literal.{Literal as LiteralOf};
ghost use Rattle.hv_command.specs.Working.Reply.{IsReply};
ghost use Rattle.hv_command.specs.Replies.{unsolvable_text};
ghost use Rattle.hv_command.specs.Sample.{count_line, proof_line, sample_task};
ghost use Rattle.hv_command.specs.Working.Sample.{IsHornProof};
ghost use Rattle.hv_command.specs.Sample.{sample_text, unreached_pairs};
ghost use Rattle.hv_command.specs.Words.{IsRooms};
ghost use Rattle.hv_command.specs.declared.status.Status.TheVariants as S;

use crate::job::{DEFAULT_BUDGET, FileName, Report};
use crate::job_fault::JobFault;
use crate::producing::written;
use crate::proof_file::ProofFile;
use crate::proof_jobs::check_proof;
use crate::reply::Reply;
use crate::sample::sample_task;
use crate::status::Status;
use hv_bdd::Diagrams;
use hv_bytes::{SureShelf, Text};
use hv_lines::{Draft, Expr, Table};
use hv_reach::{ReachFault, prove_pairs, prove_relaxed};
use hv_task::Task;
use std::alloc::{AllocError, Global};

/// The answer to `sample N`.
pub(crate) fn sample(alloc: Global, rooms: u32) -> Result<Reply, AllocError>
    requires { IsRooms rooms }
    ensures { IfOk result (λ r. IsReply r S.Done (sample_text rooms)) }
{
    let task = sample_task(alloc, rooms)?;
    let answer = task_reply(alloc, &task, rooms)?;
    Ok(answer)
}

// What is said of the task of so many rooms.
fn task_reply(alloc: Global, task: &Task, rooms: u32) -> Result<Reply, AllocError>
    requires rooms { IsRooms rooms }
    requires task { task.now ≡ sample_task rooms }
    ensures { IfOk result (λ r. IsReply r S.Done (sample_text rooms)) }
{
    let mut text = Text::new(alloc);
    push_counts(&mut text, task, rooms)?;
    push_relaxed(alloc, &mut text, task, rooms)?;
    push_pairs(alloc, &mut text, task, rooms)?;
    text.push_bytes(b"done\n")?;
    Ok(Reply {
        status: Status::Done,
        text,
    })
}

// Appends how many atoms and actions there are.
fn push_counts(text: &mut Text, task: &Task, rooms: u32) -> Result<(), AllocError>
    requires { task.now ≡ sample_task rooms }
    ensures { OnOk result (text.new ≡ text.old
        ++ (count_line (codes "atoms ") (rooms + 1) ++ count_line (codes "actions ") rooms)) }
{
    let _ = rooms;
    push_count(text, b"atoms ", task.atoms())?;
    push_count(text, b"actions ", task.actions())?;
    Ok(())
}

// Appends a number with its name before it.
fn push_count(text: &mut Text, name: &[u8], number: u32) -> Result<(), AllocError>
    ensures { OnOk result (text.new ≡ text.old ++ count_line name.now number) }
{
    text.push_bytes(name)?;
    text.push_number(u64::from(number))?;
    text.push_bytes(b"\n")?;
    Ok(())
}

// Appends what is said of the proof by reached atoms.
fn push_relaxed(alloc: Global, text: &mut Text, task: &Task, rooms: u32) -> Result<(), AllocError>
    requires rooms { IsRooms rooms }
    requires task { task.now ≡ sample_task rooms }
    ensures { OnOk result (text.new ≡ text.old ++ proof_line (codes "relaxed") 1 16) }
{
    let _ = rooms;
    match prove_relaxed(alloc, task)? {
        Some(draft) => {
            push_proof(alloc, text, task, b"relaxed", &draft)?;
            Ok(())
        }
        None => unreachable!(),
    }
}

// Appends what is said of the proof by reached pairs.
fn push_pairs(alloc: Global, text: &mut Text, task: &Task, rooms: u32) -> Result<(), AllocError>
    requires rooms { IsRooms rooms }
    requires task { task.now ≡ sample_task rooms }
    ensures { OnOk result
        (text.new ≡ text.old ++ proof_line (codes "pairs") (unreached_pairs rooms) 16) }
{
    let _ = rooms;
    match prove_pairs(alloc, task) {
        Ok(Some(draft)) => {
            push_proof(alloc, text, task, b"pairs", &draft)?;
            Ok(())
        }
        Ok(None) => unreachable!(),
        Err(ReachFault::TooManyAtoms) => unreachable!(),
        Err(ReachFault::Memory) => Err(AllocError),
    }
}

// Appends what is said of a proof: its number of clauses and of lines, and what it is judged from
// its bytes.
fn push_proof(
    alloc: Global,
    text: &mut Text,
    task: &Task,
    kind: &[u8],
    draft: &Draft,
) -> Result<(), AllocError>
    requires horn { IsHornProof draft.now.lines }
    requires good { IsGoodTable task.now draft.now.lines }
    requires concludes { Concludes draft.now.lines }
    ensures { (clauses : List (List LiteralOf)) → draft.now.lines ≡ horn_proof clauses
        → OnOk result (text.new ≡ text.old ++ proof_line kind.now (length clauses) 16) }
{
    let judged = judged(alloc, task, draft)?;
    push_told(
        text,
        kind,
        clause_count(draft.table()),
        draft.table().len(),
        judged.text.as_bytes(),
    )?;
    Ok(())
}

// Appends the numbers of clauses and of lines of a proof of this kind, and what is said of it.
fn push_told(
    text: &mut Text,
    kind: &[u8],
    clauses: usize,
    lines: usize,
    said: &[u8],
) -> Result<(), AllocError>
    ensures { OnOk result (text.new ≡ text.old
        ++ (kind.now ++ codes " clauses " ++ decimal clauses ++ codes " lines " ++ decimal lines
        ++ codes " " ++ said.now)) }
{
    text.push_bytes(kind)?;
    text.push_bytes(b" clauses ")?;
    text.push_number(clauses as u64)?;
    text.push_bytes(b" lines ")?;
    text.push_number(lines as u64)?;
    text.push_bytes(b" ")?;
    text.push_bytes(said)?;
    Ok(())
}

// How many clauses the formula of the proof has.
fn clause_count(table: &Table) -> usize
    requires { IsHornProof table.now.lines }
    ensures { (clauses : List (List LiteralOf)) → table.now.lines ≡ horn_proof clauses
        → result ≡ length clauses }
{
    match table.expr(3) {
        Expr::Horn(clauses) => clauses.len(),
        _ => unreachable!(),
    }
}

// What is said of a proof that is written, from its bytes: that it shows that the task has no plan.
fn judged(alloc: Global, task: &Task, draft: &Draft) -> Result<Reply, AllocError>
    requires horn { IsHornProof draft.now.lines }
    requires good { IsGoodTable task.now draft.now.lines }
    requires concludes { Concludes draft.now.lines }
    ensures { IfOk result (λ r. IsReply r S.Done unsolvable_text) }
{
    let proof = written(alloc, draft)?;
    let answer = judged_bytes(alloc, task, proof.text.as_bytes())?;
    Ok(answer)
}

// The same of the bytes of a proof.
fn judged_bytes(alloc: Global, task: &Task, proof: &[u8]) -> Result<Reply, AllocError>
    requires { JudgedBytes (draft_setting task.now) standard proof.now Unsolvable }
    ensures { IfOk result (λ r. IsReply r S.Done unsolvable_text) }
{
    let mut shelf = SureShelf::new(alloc);
    shelf.add("proof", proof)?;
    match judged_file(alloc, &mut shelf, task) {
        Ok(answer) => Ok(answer),
        Err(JobFault::ReadFault) => unreachable!(),
        Err(JobFault::Memory) => Err(AllocError),
    }
}

// What is said of the file `proof` of the shelf.
fn judged_file(alloc: Global, shelf: &mut SureShelf, task: &Task) -> Result<Reply, JobFault>
    requires { JudgedBytes (draft_setting task.now) standard
        (bytes_of (held_of shelf.old.files) (codes "proof")) Unsolvable }
    ensures answer { IfOk result (λ r. IsReply r S.Done unsolvable_text) }
    ensures cause { IsErrOf result JobFault.ReadFault → Rose 0 0 }
{
    let name = FileName::new(alloc, "proof")?;
    let diagrams = Diagrams::none(alloc, task.atoms());
    let proof = ProofFile::new(&name, DEFAULT_BUDGET, Report::Verdict);
    let answer = check_proof(alloc, shelf, task, &diagrams, &proof)?;
    Ok(answer)
}

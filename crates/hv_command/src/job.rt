//! The words of the program, read as a job.

ghost use Rattle.std.specs.Prelude.{◌≡◌, ◌≤◌, ◌<◌, ◌^◌, ◌↔◌, IfOk, IfSome, IsTrue, Some, map};
ghost use Rattle.std.specs.Prelude.{option_map};
ghost use Rattle.std.specs.String.{string_bytes};
ghost use Rattle.hv_command.specs.Words.{IsBounded, IsBudget, IsRooms, IsBetween, cost_bound_of};
ghost use Rattle.hv_command.specs.Words.{bound_with, budget_of, check_of, check_with, checking};
ghost use Rattle.hv_command.specs.Words.{given_budget, job_of, kind_of, most_bound, number_of};
ghost use Rattle.hv_command.specs.Words.{plan_of, produce_of, produce_with, replay_of, sample_of};
ghost use Rattle.hv_command.specs.Words.{sample_with, sas_of};
ghost use Rattle.hv_bytes.specs.Decimals.{IsDecimal};
ghost use Rattle.hv_words.specs.Forms.{texts_of};

use crate::command_words::Words;
use hv_bytes::read_decimal;
use hv_words::{CheckWords, read_check, read_one, read_two};
use std::alloc::{AllocError, Global};
use std::marker::Model;

/// The name of a file.
#[derive(Drop)]
pub struct FileName {
    text: String,
}

impl Model for FileName {
    ghost use Rattle.std.specs.Prelude.{ℕ, List};
    ghost use Rattle.std.specs.String.{string_bytes};

    ghost Value = { List ℕ };

    ghost view = { λ n. string_bytes n.text };
}

impl FileName {
    /// A copy of the name.
    pub fn new(alloc: Global, text: &str) -> Result<FileName, AllocError>
        ensures { IfOk result (λ name. name ≡ text.now) }
    {
        Ok(FileName {
            text: String::from_str(alloc, text)?,
        })
    }

    /// The name as text.
    pub fn as_str(&self) -> &str
        ensures { result.now ≡ self.now }
    {
        self.text.as_str()
    }
}

/// What a query of a basic statement may cost, where no budget is named.
pub(crate) const DEFAULT_BUDGET: u64 = 1_000_000;

/// The greatest budget.
const MOST_BUDGET: u64 = 16_777_216;

/// The greatest number of rooms of a sample.
const MOST_ROOMS: u64 = 64;

/// The greatest bound on the cost of a plan.
const MOST_BOUND: u64 = 65_534;

/// What the program is asked to do.
#[derive(Drop)]
pub enum Job {
    /// `check TASK PROOF`: whether the proof shows that the task has no plan. The nodes of decision
    /// diagrams are those of the node file, or 0 and 1 alone where none is named. The budget, from
    /// 1 to 16,777,216, bounds what a query of a basic statement may cost.
    Check {
        task: FileName,
        proof: FileName,
        nodes: Option<FileName>,
        budget: u64,
    },
    /// `explain TASK PROOF`: which of its lines a proof that shows it rests on. A proof that
    /// doesn't is answered as by a check, and so are the nodes and the budget meant.
    Explain {
        task: FileName,
        proof: FileName,
        nodes: Option<FileName>,
        budget: u64,
    },
    /// `upgrade TASK PROOF`: the proof as a text of version 2, where it shows that the task has no
    /// plan. A proof that doesn't is answered as by a check, and so are the nodes and the budget
    /// meant.
    Upgrade {
        task: FileName,
        proof: FileName,
        nodes: Option<FileName>,
        budget: u64,
    },
    /// `produce KIND TASK`: a proof of this kind that the task has no plan.
    Produce {
        kind: Kind,
        task: FileName,
    },
    /// `replay TASK LOG`: a proof that the task has no plan, made of the states that a search has
    /// expanded and of those that it has pruned.
    Replay {
        task: FileName,
        log: FileName,
    },
    /// `sample N`: the task of so many rooms, from 3 to 64, and what is said of its two proofs.
    Sample {
        rooms: u32,
    },
    /// `sas FILE`: the task that is made of a translator's task.
    Sas {
        file: FileName,
    },
    /// `bound TASK K`: a task that has a plan exactly where the given one has a plan that costs at
    /// most so much, from 0 to 65,534.
    Bound {
        task: FileName,
        most: u32,
    },
    /// `plan TASK PLAN`: whether the list of action numbers is a plan of the task, and what it
    /// costs.
    Plan {
        task: FileName,
        plan: FileName,
    },
}

/// By what a proof shows that the goal isn't reached.
#[derive(Clone, Copy, Debug, PartialEq, Eq)]
pub enum Kind {
    /// `relaxed`: a goal atom that isn't reached, though nothing is ever deleted.
    Relaxed,
    /// `pairs`: a pair of goal atoms that isn't reached. It is looked for in tasks of at most 1,024
    /// atoms.
    Pairs,
    /// `trap`: a conjunction of the greatest trap that the initial state satisfies. It is looked
    /// for in tasks of at most 64 atoms.
    Trap,
}

/// What is said of a proof that shows that the task has no plan; of another one is told why it
/// doesn't.
#[derive(Clone, Copy, Debug, PartialEq, Eq)]
pub(crate) enum Report {
    /// That it does.
    Verdict,
    /// Which of its lines are needed.
    Explanation,
    /// Its lines, as a proof text of version 2.
    Renewal,
}

/// The job that the words name, or none where they are no job.
pub fn read_job(alloc: Global, words: &Words) -> Result<Option<Job>, AllocError>
    ensures job { IfOk result (λ job. job ≡ job_of words.now) }
    ensures bounded { IfOk result (λ job. IfSome job IsBounded) }
{
    match words.as_slice() {
        [command, others @ ..] => {
            let command = command.as_str();
            if command == "check" {
                check_job(alloc, command, Report::Verdict, others)
            } else if command == "explain" {
                check_job(alloc, command, Report::Explanation, others)
            } else if command == "upgrade" {
                check_job(alloc, command, Report::Renewal, others)
            } else if command == "produce" {
                produce_job(alloc, command, others)
            } else if command == "replay" {
                replay_job(alloc, command, others)
            } else if command == "sample" {
                sample_job(alloc, command, others)
            } else if command == "sas" {
                sas_job(alloc, command, others)
            } else if command == "bound" {
                bound_job(alloc, command, others)
            } else if command == "plan" {
                plan_job(alloc, command, others)
            } else {
                Ok(None)
            }
        }
        [] => Ok(None),
    }
}

// The proof that the words after the command ask for.
fn produce_job<'a>(
    alloc: Global,
    command: &'a str,
    words: &'a [String],
) -> Result<Option<Job>, AllocError>
    ensures job { IfOk result (λ job. job ≡ produce_of (map string_bytes words.entry.now)) }
    ensures bounded { IfOk result (λ job. IfSome job IsBounded) }
{
    match read_two(alloc, command, words)? {
        Some((kind, task)) => produce_with(alloc, read_kind(kind), task),
        None => Ok(None),
    }
}

// The proof of this kind, where there is such a kind.
fn produce_with(alloc: Global, kind: Option<Kind>, task: &str) -> Result<Option<Job>, AllocError>
    ensures job { IfOk result (λ job. job ≡ produce_with kind task.now) }
    ensures bounded { IfOk result (λ job. IfSome job IsBounded) }
{
    match kind {
        Some(kind) => Ok(Some(Job::Produce {
            kind,
            task: FileName::new(alloc, task)?,
        })),
        None => Ok(None),
    }
}

// The kind of proof that the word names.
fn read_kind(word: &str) -> Option<Kind>
    ensures { result ≡ kind_of word.now }
{
    if word == "relaxed" {
        Some(Kind::Relaxed)
    } else if word == "pairs" {
        Some(Kind::Pairs)
    } else if word == "trap" {
        Some(Kind::Trap)
    } else {
        None
    }
}

// The replay that the words after the command ask for.
fn replay_job<'a>(
    alloc: Global,
    command: &'a str,
    words: &'a [String],
) -> Result<Option<Job>, AllocError>
    ensures job { IfOk result (λ job. job ≡ replay_of (map string_bytes words.entry.now)) }
    ensures bounded { IfOk result (λ job. IfSome job IsBounded) }
{
    match read_two(alloc, command, words)? {
        Some((task, log)) => Ok(Some(Job::Replay {
            task: FileName::new(alloc, task)?,
            log: FileName::new(alloc, log)?,
        })),
        None => Ok(None),
    }
}

// The sample that the words after the command ask for.
fn sample_job<'a>(
    alloc: Global,
    command: &'a str,
    words: &'a [String],
) -> Result<Option<Job>, AllocError>
    ensures job { IfOk result (λ job. job ≡ sample_of (map string_bytes words.entry.now)) }
    ensures bounded { IfOk result (λ job. IfSome job IsBounded) }
{
    match read_one(alloc, command, words)? {
        Some(rooms) => Ok(sample_with(read_number(rooms, 3, MOST_ROOMS))),
        None => Ok(None),
    }
}

// The sample of so many rooms, where there is such a number.
fn sample_with(rooms: Option<u64>) -> Option<Job>
    requires { IfSome rooms IsRooms }
    ensures job { result ≡ sample_with rooms }
    ensures bounded { IfSome result IsBounded }
{
    let rooms = rooms? as u32;
    Some(Job::Sample { rooms })
}

// The translator's file that the words after the command name.
fn sas_job<'a>(
    alloc: Global,
    command: &'a str,
    words: &'a [String],
) -> Result<Option<Job>, AllocError>
    ensures job { IfOk result (λ job. job ≡ sas_of (map string_bytes words.entry.now)) }
    ensures bounded { IfOk result (λ job. IfSome job IsBounded) }
{
    match read_one(alloc, command, words)? {
        Some(file) => Ok(Some(Job::Sas {
            file: FileName::new(alloc, file)?,
        })),
        None => Ok(None),
    }
}

// The bound that the words after the command ask for.
fn bound_job<'a>(
    alloc: Global,
    command: &'a str,
    words: &'a [String],
) -> Result<Option<Job>, AllocError>
    ensures job { IfOk result (λ job. job ≡ cost_bound_of (map string_bytes words.entry.now)) }
    ensures bounded { IfOk result (λ job. IfSome job IsBounded) }
{
    match read_two(alloc, command, words)? {
        Some((task, most)) => bound_with(alloc, task, read_number(most, 0, MOST_BOUND)),
        None => Ok(None),
    }
}

// The bound of the plans of this task, where there is such a number.
fn bound_with(alloc: Global, task: &str, most: Option<u64>) -> Result<Option<Job>, AllocError>
    requires { IfSome most (λ number. number ≤ most_bound) }
    ensures job { IfOk result (λ job. job ≡ bound_with task.now most) }
    ensures bounded { IfOk result (λ job. IfSome job IsBounded) }
{
    match most {
        Some(most) => {
            let most = most as u32;
            Ok(Some(Job::Bound {
                task: FileName::new(alloc, task)?,
                most,
            }))
        }
        None => Ok(None),
    }
}

// The plan that the words after the command name.
fn plan_job<'a>(
    alloc: Global,
    command: &'a str,
    words: &'a [String],
) -> Result<Option<Job>, AllocError>
    ensures job { IfOk result (λ job. job ≡ plan_of (map string_bytes words.entry.now)) }
    ensures bounded { IfOk result (λ job. IfSome job IsBounded) }
{
    match read_two(alloc, command, words)? {
        Some((task, plan)) => Ok(Some(Job::Plan {
            task: FileName::new(alloc, task)?,
            plan: FileName::new(alloc, plan)?,
        })),
        None => Ok(None),
    }
}

// The check that the words after the command ask for.
fn check_job<'a>(
    alloc: Global,
    command: &'a str,
    report: Report,
    words: &'a [String],
) -> Result<Option<Job>, AllocError>
    ensures job { IfOk result (λ job. job ≡ check_of report (map string_bytes words.entry.now)) }
    ensures bounded { IfOk result (λ job. IfSome job IsBounded) }
{
    match read_check(alloc, command, words)? {
        Some(given) => check_with(alloc, report, given, given_budget(given.budget)),
        None => Ok(None),
    }
}

// The check that these words name, where they name a budget.
fn check_with(
    alloc: Global,
    report: Report,
    given: CheckWords<'_>,
    budget: Option<u64>,
) -> Result<Option<Job>, AllocError>
    requires { IfSome budget IsBudget }
    ensures job { IfOk result (λ job. job ≡ check_with report (texts_of given.entry) budget) }
    ensures bounded { IfOk result (λ job. IfSome job IsBounded) }
{
    match budget {
        Some(budget) => Ok(Some(checking(
            report,
            FileName::new(alloc, given.task)?,
            FileName::new(alloc, given.proof)?,
            given_name(alloc, given.nodes)?,
            budget,
        ))),
        None => Ok(None),
    }
}

// The name of a file, where one is given.
fn given_name(alloc: Global, word: Option<&str>) -> Result<Option<FileName>, AllocError>
    ensures { IfOk result (λ name. name ≡ option_map (λ s. s.now) word.entry) }
{
    match word {
        Some(word) => Ok(Some(FileName::new(alloc, word)?)),
        None => Ok(None),
    }
}

// The budget that is given, or the one that is meant where none is.
fn given_budget(word: Option<&str>) -> Option<u64>
    ensures budget { result ≡ given_budget (option_map (λ s. s.now) word.entry) }
    ensures some { IfSome result IsBudget }
{
    match word {
        Some(word) => read_budget(word),
        None => Some(DEFAULT_BUDGET),
    }
}

// The check of a proof after which this is told.
fn checking(
    report: Report,
    task: FileName,
    proof: FileName,
    nodes: Option<FileName>,
    budget: u64,
) -> Job
    ensures { result ≡ checking report task proof nodes budget }
{
    match report {
        Report::Verdict => Job::Check {
            task,
            proof,
            nodes,
            budget,
        },
        Report::Explanation => Job::Explain {
            task,
            proof,
            nodes,
            budget,
        },
        Report::Renewal => Job::Upgrade {
            task,
            proof,
            nodes,
            budget,
        },
    }
}

// The budget that the word names: a decimal from 1 to 16,777,216.
fn read_budget(word: &str) -> Option<u64>
    ensures budget { result ≡ budget_of word.now }
    ensures some { IfSome result IsBudget }
{
    read_number(word, 1, MOST_BUDGET)
}

// The number that the word names: a decimal within these bounds.
#[tactic(auto, using(crate::proofs::Numbers::no_decimal))]
fn read_number(word: &str, least: u64, most: u64) -> Option<u64>
    requires { most < 10 ^ 18 }
    ensures number { result ≡ number_of least most word.now }
    ensures least { IfSome result (λ number. least ≤ number) }
    ensures most { IfSome result (λ number. number ≤ most) }
{
    match read_decimal(word.as_bytes()) {
        Some(number) => as_number(word, number, least, most),
        None => None,
    }
}

// The number that the word spells, where it is within these bounds.
fn as_number(word: &str, number: u64, least: u64, most: u64) -> Option<u64>
    requires { IsDecimal word.now number }
    ensures number { result ≡ number_of least most word.now }
    ensures least { IfSome result (λ number. least ≤ number) }
    ensures most { IfSome result (λ number. number ≤ most) }
{
    let _ = word;
    if is_within(number, least, most) {
        Some(number)
    } else {
        None
    }
}

fn is_within(number: u64, least: u64, most: u64) -> bool
    ensures { IsTrue result ↔ IsBetween least most number }
{
    least <= number && number <= most
}

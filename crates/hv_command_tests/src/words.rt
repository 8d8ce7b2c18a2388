//! The words of the program, and the jobs that they name.

use crate::short::put_words;
use hv_command::{FileName, Job, Kind, Words, read_job};
use std::alloc::{AllocError, Global};
use std::process::Abort;

fn name_or_none(name: &Option<FileName>) -> &str {
    match name {
        Some(name) => name.as_str(),
        None => "none",
    }
}

fn kind_word(kind: Kind) -> &'static str {
    match kind {
        Kind::Relaxed => "relaxed",
        Kind::Pairs => "pairs",
        Kind::Trap => "trap",
    }
}

// The command, the two files, the node file and the budget.
fn with_options(
    alloc: Global,
    command: &str,
    names: (&FileName, &FileName),
    nodes: &Option<FileName>,
    budget: u64,
) -> Result<String, AllocError> {
    let (task, proof) = (names.0.as_str(), names.1.as_str());
    let nodes = name_or_none(nodes);
    format!(in alloc; "{command} {task} {proof} {nodes} {budget}")
}

// The kind and the task.
fn with_kind(alloc: Global, kind: Kind, task: &FileName) -> Result<String, AllocError> {
    let (kind, task) = (kind_word(kind), task.as_str());
    format!(in alloc; "{kind} {task}")
}

// The command and the two files.
fn with_log(alloc: Global, task: &FileName, log: &FileName) -> Result<String, AllocError> {
    let (task, log) = (task.as_str(), log.as_str());
    format!(in alloc; "replay {task} {log}")
}

// The command and the number.
fn with_rooms(alloc: Global, rooms: u32) -> Result<String, AllocError> {
    format!(in alloc; "sample {rooms}")
}

// The command and the file.
fn with_file(alloc: Global, file: &FileName) -> Result<String, AllocError> {
    let file = file.as_str();
    format!(in alloc; "sas {file}")
}

// The command, the task and the bound.
fn with_most(alloc: Global, task: &FileName, most: u32) -> Result<String, AllocError> {
    let task = task.as_str();
    format!(in alloc; "bound {task} {most}")
}

// The command and the two files.
fn with_plan(alloc: Global, task: &FileName, plan: &FileName) -> Result<String, AllocError> {
    let (task, plan) = (task.as_str(), plan.as_str());
    format!(in alloc; "plan {task} {plan}")
}

// The job as text: the command, and then what the job has, field by field.
fn told_of(alloc: Global, job: &Job) -> Result<String, AllocError> {
    match job {
        Job::Check {
            task,
            proof,
            nodes,
            budget,
        } => with_options(alloc, "check", (task, proof), nodes, *budget),
        Job::Explain {
            task,
            proof,
            nodes,
            budget,
        } => with_options(alloc, "explain", (task, proof), nodes, *budget),
        Job::Upgrade {
            task,
            proof,
            nodes,
            budget,
        } => with_options(alloc, "upgrade", (task, proof), nodes, *budget),
        Job::Produce { kind, task } => with_kind(alloc, *kind, task),
        Job::Replay { task, log } => with_log(alloc, task, log),
        Job::Sample { rooms } => with_rooms(alloc, *rooms),
        Job::Sas { file } => with_file(alloc, file),
        Job::Bound { task, most } => with_most(alloc, task, *most),
        Job::Plan { task, plan } => with_plan(alloc, task, plan),
    }
}

// Whether the job is this one, as text.
fn is_job(alloc: Global, job: &Job, text: &str) -> Result<bool, AllocError> {
    let told = told_of(alloc, job)?;
    Ok(told.as_str() == text)
}

// The same, where no job is `no job`.
fn is_job_or_none(alloc: Global, job: &Option<Job>, text: &str) -> Result<bool, AllocError> {
    match job {
        Some(job) => is_job(alloc, job, text),
        None => Ok(text == "no job"),
    }
}

// Whether these words name this job.
fn name_job(alloc: Global, words: &Words, text: &str) -> Result<bool, AllocError> {
    let job = read_job(alloc, words)?;
    is_job_or_none(alloc, &job, text)
}

// Whether the words of the text name this job.
fn names(alloc: Global, text: &str, job: &str) -> Result<bool, AllocError> {
    let mut words = Words::new(alloc);
    put_words(&mut words, text)?;
    name_job(alloc, &words, job)
}

static JOBS: [(&str, &str); 22] = [
    ("check t p", "check t p none 1000000"),
    ("check t p --budget 1", "check t p none 1"),
    ("check t p --budget 16777216", "check t p none 16777216"),
    ("check t p --nodes n", "check t p n 1000000"),
    ("check t p --nodes n --budget 7", "check t p n 7"),
    ("check t p --budget 7 --nodes n", "check t p n 7"),
    ("explain t p", "explain t p none 1000000"),
    ("explain t p --budget 7 --nodes n", "explain t p n 7"),
    ("upgrade t p", "upgrade t p none 1000000"),
    ("upgrade t p --nodes n --budget 7", "upgrade t p n 7"),
    ("upgrade t p --budget 16777216", "upgrade t p none 16777216"),
    ("produce relaxed t", "relaxed t"),
    ("produce pairs t", "pairs t"),
    ("produce trap t", "trap t"),
    ("replay t l", "replay t l"),
    ("sample 3", "sample 3"),
    ("sample 64", "sample 64"),
    ("check check check", "check check check none 1000000"),
    ("sas f", "sas f"),
    ("bound t 0", "bound t 0"),
    ("bound t 65534", "bound t 65534"),
    ("plan t p", "plan t p"),
];

// Words that are no job.
static NO_JOBS: [&str; 93] = [
    "",
    " ",
    " t p",
    "t p",
    "Check t p",
    "--help",
    "--version",
    "help",
    "check",
    "check t",
    "check t p q",
    "check  p",
    "check t ",
    "check -t p",
    "check t -p",
    "check --help",
    "check t p --budget",
    "check t p --budget 0",
    "check t p --budget 07",
    "check t p --budget +7",
    "check t p --budget -7",
    "check t p --budget 16777217",
    "check t p --budget=7",
    "check t p --Budget 7",
    "check --budget 7 t p",
    "check t --budget 7 p",
    "check t p --budget 7 --budget 7",
    "check t p --nodes",
    "check t p --nodes -n",
    "check t p --nodes ",
    "check t p --nodes n --nodes n",
    "check t p --nodes n --budget",
    "check t p --budget 7 --nodes",
    "check t p --nodes n --budget 0",
    "check t p --nodes n --budget 7 q",
    "check t p -- --nodes n",
    "explain",
    "explain t",
    "explain t p q",
    "Explain t p",
    "explain -t p",
    "explain t ",
    "explain t p --nodes",
    "explain t p --budget 0",
    "explain t p --budget 07",
    "explain t p --budget 7 --budget 7",
    "explain --budget 7 t p",
    "explain check t p",
    "upgrade",
    "upgrade t",
    "upgrade t p q",
    "Upgrade t p",
    "upgrade t -p",
    "upgrade  p",
    "upgrade t p --nodes",
    "upgrade t p --budget 0",
    "upgrade t p --nodes n --nodes n",
    "upgrade --nodes n t p",
    "produce",
    "produce relaxed",
    "produce best t",
    "produce Relaxed t",
    "produce relaxed t q",
    "produce relaxed -t",
    "produce relaxed t --budget 7",
    "relaxed produce t",
    "replay",
    "replay t",
    "replay t l q",
    "replay t -l",
    "replay -t l",
    "sample",
    "sample 2",
    "sample 65",
    "sample 03",
    "sample -3",
    "sample 3 3",
    "sas",
    "sas f g",
    "sas -f",
    "Sas f",
    "bound",
    "bound t",
    "bound t 65535",
    "bound t 07",
    "bound t -1",
    "bound t +1",
    "bound t 1 1",
    "bound 1 t",
    "plan",
    "plan t",
    "plan t -p",
    "plan t p q",
];

// Asserts that each text names its job.
fn all_jobs(rt: &impl Abort, alloc: Global, rows: &[(&str, &str)]) {
    for (text, job) in rows {
        assert!(rt; names(alloc, text, job) == Ok(true), "{text}");
    }
}

// Asserts that no text names one.
fn all_no_jobs(rt: &impl Abort, alloc: Global, texts: &[&str]) {
    for text in texts {
        assert!(rt; names(alloc, text, "no job") == Ok(true), "{text}");
    }
}

#[test]
fn reads_words_that_are_a_job(rt: HostRuntime) {
    all_jobs(&rt, rt.alloc(), &JOBS);
    all_no_jobs(&rt, rt.alloc(), &NO_JOBS);
}

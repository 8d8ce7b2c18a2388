//! Tests of plan files, and of lists of steps against a task.

ghost use Rattle.std.specs.Prelude.{◌≤◌, length, IfOk};

use crate::texts::{BACK_AND_FORTH, task_of};
use hv_bound::{PlanAnswer, PlanFault, PlanList, check_plan, read_plan};
use hv_bytes::{MemoryShelf, SureShelf};
use hv_task::Task;
use hv_task_text::TaskFault;
use std::alloc::{AllocError, Global};

const NAME: &str = "plan";

// The list that the plan file of these bytes is read as.
fn read(alloc: Global, text: &[u8]) -> Result<Result<PlanList, PlanFault>, AllocError>
    ensures { IfOk result (λ plan. IfOk plan (λ list. length list ≤ 4194304)) }
{
    let mut shelf = SureShelf::new(alloc);
    shelf.add(NAME, text)?;
    Ok(read_plan(alloc, &mut shelf, NAME))
}

// Whether the plan file is read as these steps.
fn says(alloc: Global, text: &str, want: &[u32]) -> Result<bool, AllocError> {
    match read(alloc, text.as_bytes())? {
        Ok(list) => Ok(list.as_slice() == want && list.len() == want.len()),
        Err(_) => Ok(false),
    }
}

// Whether the plan file has this fault.
fn fails(alloc: Global, text: &str, want: PlanFault) -> Result<bool, AllocError> {
    Ok(read(alloc, text.as_bytes())?.err() == Some(want))
}

/// Plan files, and their steps. The first ones are all beginnings of one of them.
static STEPS: [(&str, &[u32]); 14] = [
    ("", &[]),
    ("#", &[]),
    ("#a", &[]),
    ("#a\n", &[]),
    ("#a\n1", &[1]),
    ("#a\n12", &[12]),
    ("#a\n12\n", &[12]),
    ("#a\n12\n\n", &[12]),
    ("#a\n12\n\n0", &[12, 0]),
    ("#a\n12\n\n0\n", &[12, 0]),
    ("7\n7\n7\n", &[7, 7, 7]),
    ("\n\n\n", &[]),
    ("##\n# 1\n#\n", &[]),
    ("999999999\n0", &[999_999_999, 0]),
];

#[test]
fn plan_files(rt: HostRuntime) {
    for (text, want) in &STEPS {
        assert!(rt; says(rt.alloc(), text, want) == Ok(true), "file {text}");
    }
}

/// Plan files, and their first fault.
static FAULTS: [(&str, PlanFault); 16] = [
    ("00", PlanFault::Place(1)),
    ("01\n", PlanFault::Place(1)),
    (" ", PlanFault::Place(1)),
    (" 1", PlanFault::Place(1)),
    ("1 ", PlanFault::Place(1)),
    ("+1", PlanFault::Place(1)),
    ("-1", PlanFault::Place(1)),
    ("1\r\n", PlanFault::Place(1)),
    ("1 2", PlanFault::Place(1)),
    ("1 # a step", PlanFault::Place(1)),
    (" # a comment", PlanFault::Place(1)),
    ("; a comment", PlanFault::Place(1)),
    ("1000000000", PlanFault::Place(1)),
    ("1\n\n#\n(step)\n2\n", PlanFault::Place(4)),
    ("1\nx\ny\n", PlanFault::Place(2)),
    ("\n0x1", PlanFault::Place(2)),
];

#[test]
fn first_faults_of_plan_files(rt: HostRuntime) {
    for (text, want) in &FAULTS {
        assert!(rt; fails(rt.alloc(), text, *want) == Ok(true), "file {text}");
    }
}

// A comment of so many bytes, and then these.
fn behind_comment(alloc: Global, bytes: usize, rest: &str) -> Result<Vec<u8>, AllocError> {
    let mut text = vec![in alloc; b'#'; bytes]?;
    text.extend_from_slice(rest.as_bytes())?;
    Ok(text)
}

// What comes of a plan file, in the words of these tests.
fn told(read: &Result<PlanList, PlanFault>) -> &'static str {
    match read {
        Ok(list) if list.len() == 0 => "no step",
        Ok(list) if list.len() == 1 => "one step",
        Ok(_) => "more steps",
        Err(PlanFault::Limit(1)) => "limit 1",
        Err(PlanFault::Limit(2)) => "limit 2",
        Err(_) => "another fault",
    }
}

// Whether such a plan file is answered so.
fn is_told(alloc: Global, bytes: usize, rest: &str, want: &str) -> Result<bool, AllocError> {
    let text = behind_comment(alloc, bytes, rest)?;
    let plan = read(alloc, text.as_slice())?;
    Ok(told(&plan) == want)
}

/// How long the comment of a plan file is, what follows it, and what comes of the file.
static LENGTHS: [(usize, &str, &str); 7] = [
    (8_388_608, "", "no step"),
    (8_388_609, "", "limit 1"),
    (8_388_608, "\n", "no step"),
    (8_388_606, "\n7", "one step"),
    (8_388_606, "\n7\n", "one step"),
    (8_388_606, "\n77", "limit 2"),
    (8_388_606, "\nxx", "limit 2"),
];

#[test]
fn the_longest_plan_files(rt: HostRuntime) {
    for (bytes, rest, want) in &LENGTHS {
        let told = is_told(rt.alloc(), *bytes, rest, want);
        assert!(rt; told == Ok(true), "comment of {bytes} bytes");
    }
}

// A shelf with a plan file of two steps whose call of this number fails.
fn failing_shelf(alloc: Global, call: u64) -> Result<MemoryShelf, AllocError> {
    let mut shelf = MemoryShelf::new(alloc, 3);
    shelf.add(NAME, b"10\n20\n")?;
    shelf.fail_at(call)?;
    Ok(shelf)
}

// Whether the shelf fails before the plan is read.
fn fails_at(alloc: Global, call: u64) -> Result<bool, AllocError> {
    let mut shelf = failing_shelf(alloc, call)?;
    Ok(read_plan(alloc, &mut shelf, NAME).err() == Some(PlanFault::ReadFault))
}

#[test]
fn failing_reads(rt: HostRuntime) {
    assert!(rt; fails_at(rt.alloc(), 1) == Ok(true));
    assert!(rt; fails_at(rt.alloc(), 2) == Ok(true));
    assert!(rt; fails_at(rt.alloc(), 3) == Ok(true));
    assert!(rt; fails_at(rt.alloc(), 9) == Ok(false));
}

// Whether the plan file is read, and is this against the task.
fn is_checked(
    alloc: Global,
    task: &Task,
    text: &str,
    want: PlanAnswer,
) -> Result<bool, AllocError> {
    match read(alloc, text.as_bytes())? {
        Ok(list) => Ok(check_plan(alloc, task, list.as_slice())? == want),
        Err(_) => Ok(false),
    }
}

/// Plan files against the task of two actions, and what they are.
static ANSWERS: [(&str, PlanAnswer); 11] = [
    ("0", PlanAnswer::Cost(1)),
    ("0\n1\n0", PlanAnswer::Cost(3)),
    ("# there, back and there\n0\n1\n0\n", PlanAnswer::Cost(3)),
    ("1", PlanAnswer::NotApplicable(1)),
    ("1\n7", PlanAnswer::NotApplicable(1)),
    ("0\n0", PlanAnswer::NotApplicable(2)),
    ("7", PlanAnswer::Unknown(1)),
    ("2", PlanAnswer::Unknown(1)),
    ("0\n1\n\n999999999\n1", PlanAnswer::Unknown(3)),
    ("", PlanAnswer::NoGoal),
    ("0\n1", PlanAnswer::NoGoal),
];

// Whether the plan file is this against the task of two actions.
fn is_answered(alloc: Global, text: &str, want: PlanAnswer) -> Result<bool, TaskFault> {
    let task = task_of(alloc, &BACK_AND_FORTH)?;
    Ok(is_checked(alloc, &task, text, want) == Ok(true))
}

#[test]
fn steps_and_their_answers(rt: HostRuntime) {
    for (text, want) in &ANSWERS {
        assert!(rt;
            is_answered(rt.alloc(), text, *want) == Ok(true),
            "plan {text}"
        );
    }
}

// Whether a list of one number has it alone.
fn is_listed(alloc: Global, number: u32) -> Result<bool, AllocError> {
    let mut list = PlanList::new(alloc);
    list.push(number)?;
    Ok(list.len() == 1 && list.as_slice() == [number].as_slice())
}

#[test]
fn a_list_of_one_step(rt: HostRuntime) {
    assert!(rt; is_listed(rt.alloc(), u32::MAX) == Ok(true));
}

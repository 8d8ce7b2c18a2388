//! Tests of logs, of their first holes, and of the proofs of closed ones.

ghost use Rattle.std.specs.Prelude.{◌≡◌, IfOk};
ghost use Rattle.hv_task.specs.Strips.{atoms};

use crate::tasks::{Change, robot, task_with};
use hv_bytes::{MemoryShelf, SureShelf};
use hv_lines::{Draft, Pruner};
use hv_replay::{Log, LogFault, ReplayFault, read_log, replay};
use hv_sets::StateBuffer;
use hv_task::{State, Task};
use std::alloc::{AllocError, Global};

const NAME: &str = "log";

/// Logs over three atoms, and what is answered to their texts.
const TEXTS: &[(&str, &str)] = &[
    ("x 0\nx 1\nend\n", "read"),
    ("x 0\nx 1\nend", "read"),
    ("end\n", "read"),
    ("x\np\nend\n", "read"),
    ("p 0 1 2\nx 2\nx 2\np 2\nend\n", "read"),
    ("", "place 1"),
    ("x 0", "place 2"),
    ("x 0\n", "place 2"),
    ("x 0\n\nend\n", "place 2"),
    ("x 0\nend\n\n", "place 3"),
    ("x 0\nend\nx 1\n", "place 3"),
    ("end\nend\n", "place 2"),
    ("end \n", "place 1"),
    ("End\n", "place 1"),
    ("x \nend\n", "place 1"),
    (" x\nend\n", "place 1"),
    ("x  0\nend\n", "place 1"),
    ("x 0 \nend\n", "place 1"),
    ("x0\nend\n", "place 1"),
    ("xx 0\nend\n", "place 1"),
    ("X 0\nend\n", "place 1"),
    ("q 0\nend\n", "place 1"),
    ("x 0\r\nend\n", "place 1"),
    ("x 00\nend\n", "place 1"),
    ("x -1\nend\n", "place 1"),
    ("x 3\nend\n", "place 1"),
    ("x 4294967296\nend\n", "place 1"),
    ("x 1 0\nend\n", "place 1"),
    ("p 0 0\nend\n", "place 1"),
    ("x 0\np 2 1\nend\n", "place 2"),
];

/// Logs of the task with two places and a key, and their first holes.
const HOLES: &[(&str, &str)] = &[
    ("x 0\nx 1\nend\n", "none"),
    ("x 1\nx 0\nx 0\nend\n", "none"),
    ("p 0\nend\n", "none"),
    ("x 0\np 1\nend\n", "none"),
    ("x 1\np 0\nx 0\nend\n", "none"),
    ("x 0\nend\n", "line 1 action 0"),
    ("x 1\nx 0 1\np 0\nend\n", "none"),
    ("p 0\nx 0 1\nend\n", "line 2 action 0"),
    ("x 1\nend\n", "no initial state"),
    ("end\n", "no initial state"),
    ("x 0\nx 1\nx 0 2\nend\n", "line 3 goal"),
    ("x 0\nx 2\nend\n", "line 2 goal"),
    ("x 1\nx 2\nend\n", "no initial state"),
    ("x 0\nx 1\np 2\nend\n", "none"),
];

/// Actions of a task with four atoms. None adds the goal, the last atom. Action 3 has no
/// precondition, and action 5 deletes and adds the same atom.
const ACTIONS: &[Change] = &[
    (&[0, 2], &[1], &[0]),
    (&[1], &[2], &[1]),
    (&[0], &[2], &[0]),
    (&[], &[0], &[]),
    (&[0, 1], &[], &[0, 1]),
    (&[2], &[2], &[2]),
];

/// Logs of this task, and their first holes. In the state of 0 and 1 the actions 1 to 4
/// are applicable, and lead to the states of 0 and 2, of 1 and 2, of 0 and 1, and to the empty one.
const EXITS: &[(&str, &str)] = &[
    ("x 0 1\nend\n", "line 1 action 1"),
    ("x 0 1\np 0 2\nend\n", "line 1 action 2"),
    ("p\nx 0 1\np 0 2\nend\n", "line 2 action 2"),
    ("x 0 1\np 0 2\np 1 2\nend\n", "line 1 action 4"),
    ("x 0 1\np 0 2\np 1 2\np\nend\n", "none"),
    ("p\nx 0 1\np 1 2\np 0 2\nx\nend\n", "line 5 action 3"),
    ("x 0 1\nx 0 2\np 1 2\np\nend\n", "line 2 action 2"),
    ("x 0 1\nx 0 2\np 1 2\np\np 2\nend\n", "none"),
];

/// Logs of the first task, and what is answered where no state is covered.
const REPLAYS: &[(&str, &str)] = &[
    ("x 0\nx 1\nend\n", "17 lines"),
    ("x 1\nx 0\nx 0\nend\n", "17 lines"),
    ("p 0\nend\n", "line 1 unjustified"),
    ("x 0\np 1\nend\n", "line 2 unjustified"),
    ("x 0\nx 1\np 2\np 1\nend\n", "line 3 unjustified"),
    ("p 0\nx 0 1\nend\n", "line 2 action 0"),
    ("x 1\nend\n", "no initial state"),
];

// A pruner that covers no state.
#[derive(Drop)]
struct Nothing {
    begun: bool,
}

impl Pruner for Nothing {
    ghost covers = { λ _ _ _. ⊥ };

    ghost fits = { λ _ _ _. Unit {0} };

    fn begin(&mut self) {
        self.begun = true;
    }

    fn justify(
        &mut self,
        _alloc: Global,
        _task: &Task,
        _draft: &mut Draft,
        _state: &State,
    ) -> Result<Option<usize>, AllocError> {
        Ok(None)
    }

    ghost fits_extensions = { λ _ _ _ _ _ _. tt };
}

fn read(alloc: Global, task: &Task, text: &[u8]) -> Result<Log, LogFault>
    ensures { IfOk result (λ log. log.atoms ≡ atoms task.now) }
{
    let mut shelf = SureShelf::new(alloc);
    shelf.add(NAME, text)?;
    read_log(alloc, &mut shelf, NAME, task)
}

// The answer to a text, in the words of the program.
fn answer(alloc: Global, task: &Task, text: &[u8]) -> Result<String, AllocError> {
    match read(alloc, task, text) {
        Ok(_log) => format!(in alloc; "read"),
        Err(LogFault::Place(line)) => format!(in alloc; "place {line}"),
        Err(LogFault::Limit(line, limit)) => format!(in alloc; "limit {line} {}", limit.word()),
        Err(LogFault::ReadFault) => format!(in alloc; "read fault"),
        Err(LogFault::Memory) => Err(AllocError),
    }
}

// One pruner, which covers no state.
fn nothing_covered(alloc: Global) -> Result<Vec<Box<dyn Pruner>>, AllocError> {
    let mut pruners: Vec<Box<dyn Pruner>> = Vec::new(alloc);
    pruners.push(Box::new(alloc, Nothing { begun: false })?)?;
    Ok(pruners)
}

// What becomes of a log where no state is covered.
fn draft_of(alloc: Global, task: &Task, log: &Log) -> Result<Draft, ReplayFault>
    requires { log.now.atoms ≡ atoms task.now }
{
    let mut pruners = nothing_covered(alloc)?;
    replay(alloc, task, log, &mut pruners)
}

// The first hole of the search of a log: pruned states that aren't covered are none.
fn hole(alloc: Global, task: &Task, text: &[u8]) -> Result<String, AllocError> {
    let Ok(log) = read(alloc, task, text) else {
        return format!(in alloc; "no log");
    };
    match draft_of(alloc, task, &log) {
        Ok(_) | Err(ReplayFault::Unjustified(_)) => format!(in alloc; "none"),
        Err(fault) => told(alloc, fault),
    }
}

fn replayed(alloc: Global, task: &Task, text: &[u8]) -> Result<String, AllocError> {
    let Ok(log) = read(alloc, task, text) else {
        return format!(in alloc; "no log");
    };
    match draft_of(alloc, task, &log) {
        Ok(draft) => format!(in alloc; "{} lines", draft.table().len()),
        Err(fault) => told(alloc, fault),
    }
}

// The fault in words.
fn told(alloc: Global, fault: ReplayFault) -> Result<String, AllocError> {
    match fault {
        ReplayFault::NoInitial => format!(in alloc; "no initial state"),
        ReplayFault::GoalExpanded(line) => format!(in alloc; "line {line} goal"),
        ReplayFault::Open(line, action) => format!(in alloc; "line {line} action {action}"),
        ReplayFault::Unjustified(line) => format!(in alloc; "line {line} unjustified"),
        ReplayFault::Memory => Err(AllocError),
    }
}

// Whether this is answered to the text.
fn is_answered(alloc: Global, task: &Task, text: &[u8], want: &str) -> Result<bool, AllocError> {
    Ok(answer(alloc, task, text)?.as_str() == want)
}

// Whether this is the first hole of the log.
fn is_hole(alloc: Global, task: &Task, text: &str, want: &str) -> Result<bool, AllocError> {
    Ok(hole(alloc, task, text.as_bytes())?.as_str() == want)
}

// Whether this becomes of the log.
fn is_replayed(alloc: Global, task: &Task, text: &str, want: &str) -> Result<bool, AllocError> {
    Ok(replayed(alloc, task, text.as_bytes())?.as_str() == want)
}

// Whether this is answered to the text, for a robot and a key.
fn robot_is_answered(alloc: Global, text: &str, want: &str) -> Result<bool, AllocError> {
    let task = robot(alloc)?;
    is_answered(alloc, &task, text.as_bytes(), want)
}

#[test]
fn logs_and_their_first_faults(rt: HostRuntime) {
    for (text, want) in TEXTS {
        assert!(rt;
            robot_is_answered(rt.alloc(), text, want) == Ok(true),
            "{text:?}"
        );
    }
}

// Whether this is the first hole of the log, for a robot and a key.
fn robot_has_hole(alloc: Global, text: &str, want: &str) -> Result<bool, AllocError> {
    let task = robot(alloc)?;
    is_hole(alloc, &task, text, want)
}

#[test]
fn logs_and_their_first_holes(rt: HostRuntime) {
    for (text, want) in HOLES {
        assert!(rt;
            robot_has_hole(rt.alloc(), text, want) == Ok(true),
            "{text:?}"
        );
    }
}

// Whether this is the first hole of the log, for the task with four atoms.
fn exit_is_hole(alloc: Global, text: &str, want: &str) -> Result<bool, AllocError> {
    let task = task_with(alloc, 4, &[0, 1], &[3], ACTIONS)?;
    is_hole(alloc, &task, text, want)
}

#[test]
fn least_actions_that_lead_out(rt: HostRuntime) {
    for (text, want) in EXITS {
        assert!(rt;
            exit_is_hole(rt.alloc(), text, want) == Ok(true),
            "{text:?}"
        );
    }
}

// Whether this becomes of the log, for a robot and a key.
fn robot_is_replayed(alloc: Global, text: &str, want: &str) -> Result<bool, AllocError> {
    let task = robot(alloc)?;
    is_replayed(alloc, &task, text, want)
}

#[test]
fn logs_and_their_proofs(rt: HostRuntime) {
    for (text, want) in REPLAYS {
        assert!(rt;
            robot_is_replayed(rt.alloc(), text, want) == Ok(true),
            "{text:?}"
        );
    }
}

// The text twice.
fn twice(alloc: Global, text: &[u8]) -> Result<Vec<u8>, AllocError> {
    let mut whole = Vec::from_slice(alloc, text)?;
    whole.extend_from_slice(text)?;
    Ok(whole)
}

// The line, 2 to this power times, and then the last line.
fn doubled(alloc: Global, line: &[u8], power: u32, last: &[u8]) -> Result<Vec<u8>, AllocError> {
    let mut text = Vec::from_slice(alloc, line)?;
    for _turn in 0..power {
        text = twice(alloc, text.as_slice())?;
    }
    text.extend_from_slice(last)?;
    Ok(text)
}

/// A line, the power of two that says how often it stands, a last line, and the answer.
type Long = (&'static [u8], u32, &'static [u8], &'static str);

const LONG: &[Long] = &[
    (b"p\n", 15, b"end", "read"),
    (b"p\n", 16, b"end", "limit 65001 pruned"),
    (b"p 0\n", 16, b"p", "limit 65001 pruned"),
    (b"z", 23, b"\n", "place 1"),
    (b"z", 23, b"z\n", "limit 1 bytes"),
];

// Whether the long text gets its answer.
fn is_limited(alloc: Global, task: &Task, row: &Long) -> Result<bool, AllocError> {
    let text = doubled(alloc, row.0, row.1, row.2)?;
    is_answered(alloc, task, text.as_slice(), row.3)
}

// The same for a robot and a key.
fn robot_is_limited(alloc: Global, row: &Long) -> Result<bool, AllocError> {
    let task = robot(alloc)?;
    is_limited(alloc, &task, row)
}

#[test]
fn limits_of_a_log(rt: HostRuntime) {
    for row in LONG {
        assert!(rt; robot_is_limited(rt.alloc(), row) == Ok(true), "{row:?}");
    }
}

// Whether the state of the entry at the place has just these atoms.
fn is_state(log: &Log, place: usize, atoms: &[u32]) -> bool {
    if place >= log.len() {
        return false;
    }
    let mut buffer = StateBuffer::new();
    log.state(place).slice(&mut buffer) == atoms
}

// Whether the entries of the log are an expanded state that holds atoms 0 and 2, and then the
// pruned empty one.
fn has_two_entries(log: &Log) -> bool {
    log.len() == 2
        && log.expanded(0)
        && !log.expanded(1)
        && is_state(log, 0, &[0, 2])
        && is_state(log, 1, &[])
}

// Whether such a log is read so.
fn is_log_of_two(alloc: Global, task: &Task) -> Result<bool, LogFault> {
    let log = read(alloc, task, b"x 0 2\np\nend\n")?;
    Ok(has_two_entries(&log))
}

// The same for a robot and a key.
fn robot_has_two(alloc: Global) -> Result<bool, LogFault> {
    let task = robot(alloc)?;
    is_log_of_two(alloc, &task)
}

#[test]
fn entries_of_a_log(rt: HostRuntime) {
    assert!(rt; robot_has_two(rt.alloc()) == Ok(true));
}

// Whether a log can't be read where this call of the shelf fails.
fn fails_at(alloc: Global, task: &Task, call: u64) -> Result<bool, AllocError> {
    let mut shelf = MemoryShelf::new(alloc, 4);
    shelf.add(NAME, b"x 0\nx 1\nend\n")?;
    shelf.fail_at(call)?;
    Ok(matches!(
        read_log(alloc, &mut shelf, NAME, task),
        Err(LogFault::ReadFault)
    ))
}

// The same for a robot and a key.
fn robot_fails_at(alloc: Global, call: u64) -> Result<bool, AllocError> {
    let task = robot(alloc)?;
    fails_at(alloc, &task, call)
}

#[test]
fn failing_reads(rt: HostRuntime) {
    for call in 1..7 {
        assert!(rt; robot_fails_at(rt.alloc(), call) == Ok(call < 6), "{call}");
    }
}

//! Devices that fail: each call of the shelf and each write of the sink in turn, for each command.

use crate::by_nodes::{NODE_PROOF, NODES};
use crate::fronts::{LAMP, OTHER_PLACE};
use crate::short::{Files, KEY_TASK, ONE_OF_TWO, THREE_WISHES, told_with_fault, written};
use std::alloc::{AllocError, Global};
use std::process::Abort;

// A run: its words, its files in short form, and how many calls of the shelf and writes of the sink
// it takes.
struct Run {
    words: &'static str,
    task: &'static str,
    proof: &'static str,
    nodes: &'static str,
    reads: u64,
    writes: u64,
}

// A file takes an open, the reads that give bytes, and one that gives none.
static RUNS: [Run; 13] = [
    Run {
        words: "check task proof",
        task: KEY_TASK,
        proof: "@e 3 x 2 0 ; 1 ;/%",
        nodes: "",
        reads: 38 + 29,
        writes: 2,
    },
    Run {
        words: "check task proof --nodes nodes --budget 7",
        task: KEY_TASK,
        proof: NODE_PROOF,
        nodes: NODES,
        reads: 38 + 4 + 28,
        writes: 2,
    },
    Run {
        words: "explain task proof --nodes nodes",
        task: KEY_TASK,
        proof: NODE_PROOF,
        nodes: NODES,
        reads: 38 + 4 + 28,
        writes: 17,
    },
    Run {
        words: "upgrade task proof --nodes nodes",
        task: KEY_TASK,
        proof: NODE_PROOF,
        nodes: NODES,
        reads: 38 + 4 + 28,
        writes: 19,
    },
    Run {
        words: "upgrade task proof --nodes nodes",
        task: KEY_TASK,
        proof: "helve 2/@e 3 b 2/%end/",
        nodes: "order 2 0 1/nodes 1/2 1 0/",
        reads: 38 + 6 + 29,
        writes: 19,
    },
    Run {
        words: "produce relaxed task",
        task: KEY_TASK,
        proof: "",
        nodes: "",
        reads: 38,
        writes: 19,
    },
    Run {
        words: "produce pairs task",
        task: ONE_OF_TWO,
        proof: "",
        nodes: "",
        reads: 32,
        writes: 19,
    },
    Run {
        words: "produce trap task",
        task: THREE_WISHES,
        proof: "",
        nodes: "",
        reads: 39,
        writes: 26,
    },
    Run {
        words: "replay task proof",
        task: KEY_TASK,
        proof: "x 0/p 1/end/",
        nodes: "",
        reads: 38 + 4,
        writes: 39,
    },
    Run {
        words: "sample 3",
        task: "",
        proof: "",
        nodes: "",
        reads: 0,
        writes: 10,
    },
    Run {
        words: "sas task",
        task: LAMP,
        proof: "",
        nodes: "",
        reads: 35,
        writes: 19,
    },
    Run {
        words: "bound task 1",
        task: OTHER_PLACE,
        proof: "",
        nodes: "",
        reads: 38,
        writes: 30,
    },
    Run {
        words: "plan task proof",
        task: OTHER_PLACE,
        proof: "0/1/0/",
        nodes: "",
        reads: 38 + 3,
        writes: 2,
    },
];

// What the run tells where the shelf's call and the sink's write of these numbers fail.
fn told(alloc: Global, run: &Run, call: u64, write: u64) -> Result<Vec<u8>, AllocError> {
    let task = written(alloc, run.task)?;
    let proof = written(alloc, run.proof)?;
    let nodes = written(alloc, run.nodes)?;
    let files = Files {
        task: task.as_slice(),
        proof: proof.as_slice(),
        nodes: nodes.as_slice(),
    };
    told_with_fault(alloc, run.words, files, call, write)
}

// How many calls of the shelf the run makes: it is told of each that fails, and nothing is written.
// None where it tells anything else.
fn shelf_calls(alloc: Global, run: &Run, whole: &[u8]) -> Result<Option<u64>, AllocError> {
    for call in 0..1000 {
        let told = told(alloc, run, call + 1, 0)?;
        if told.as_slice() == whole {
            return Ok(Some(call));
        }
        if told.as_slice() != b"4 ".as_slice() {
            return Ok(None);
        }
    }
    Ok(None)
}

// Whether it is told that a write failed, and that these bytes of the answer were written before.
fn is_cut(told: &[u8], whole: &[u8], length: usize) -> bool {
    match (told.strip_prefix(b"5 "), whole.strip_prefix(b"0 ")) {
        (Some(part), Some(answer)) => part.len() == length && answer.starts_with(part),
        _ => false,
    }
}

// How many writes the run makes: each takes 10 bytes of the answer, and one that fails none. None
// where it tells anything else.
fn sink_calls(alloc: Global, run: &Run, whole: &[u8]) -> Result<Option<u64>, AllocError> {
    for write in 0..1000 {
        let told = told(alloc, run, 0, write + 1)?;
        if told.as_slice() == whole {
            return Ok(Some(write));
        }
        if !is_cut(told.as_slice(), whole, write as usize * 10) {
            return Ok(None);
        }
    }
    Ok(None)
}

// How many calls of the shelf and writes of the sink the run makes.
fn calls(alloc: Global, run: &Run) -> Result<(Option<u64>, Option<u64>), AllocError> {
    let whole = told(alloc, run, 0, 0)?;
    let reads = shelf_calls(alloc, run, whole.as_slice())?;
    let writes = sink_calls(alloc, run, whole.as_slice())?;
    Ok((reads, writes))
}

// Asserts that each run tells of each call that fails.
fn all_told(rt: &impl Abort, alloc: Global, runs: &[Run]) {
    for run in runs {
        let words = run.words;
        let expected = (Some(run.reads), Some(run.writes));
        assert!(rt; calls(alloc, run) == Ok(expected), "{words}");
    }
}

#[test]
fn tells_each_failing_call(rt: HostRuntime) {
    all_told(&rt, rt.alloc(), &RUNS);
}

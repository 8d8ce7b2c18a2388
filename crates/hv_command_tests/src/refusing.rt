//! A pruner that is refused memory.

use crate::replay::{is_the_same, put_proof_of};
use crate::short::{Files, KEY_TASK, told_with, written};
use hv_bytes::Text;
use hv_lines::{Draft, Pruner};
use hv_reach::RelaxedPruner;
use hv_task::{State, Task};
use std::alloc::{AllocError, Global};

/// A pruner that covers what the one by reached atoms covers, and is refused memory at its second
/// question. Its questions are counted on where it begins anew.
#[derive(Drop)]
struct RefusedPruner {
    pruner: RelaxedPruner,
    asked: u32,
}

impl Pruner for RefusedPruner {
    ghost use Rattle.hv_reach.specs.Pruners.{FitRelaxed};
    ghost use Rattle.hv_reach.specs.Written.{RelaxedExcludesFrom};
    ghost use Rattle.hv_reach.specs.Working.Fitting as fitting;

    ghost covers = { λ _ task state. RelaxedExcludesFrom task state };

    ghost fits = { λ kept task lines. FitRelaxed task lines kept.pruner };

    fn begin(&mut self) {
        self.pruner.begin();
    }

    fn justify(
        &mut self,
        alloc: Global,
        task: &Task,
        draft: &mut Draft,
        state: &State,
    ) -> Result<Option<usize>, AllocError> {
        self.asked = self.asked.saturating_add(1);
        if self.asked == 2 {
            return Err(AllocError);
        }
        self.pruner.justify(alloc, task, draft, state)
    }

    ghost fits_extensions = { λ kept task old new fits extends.
        fitting.relaxed_fits task old new kept.pruner fits extends };
}

// This pruner alone.
fn refused_pruner(alloc: Global) -> Result<Vec<Box<dyn Pruner>>, AllocError> {
    let pruner = RefusedPruner {
        pruner: RelaxedPruner::new(alloc),
        asked: 0,
    };
    let mut pruners: Vec<Box<dyn Pruner>> = Vec::new(alloc);
    pruners.push(Box::new(alloc, pruner)?)?;
    Ok(pruners)
}

const ASKED_TWICE: &str = "x 0/p 1/p 1/end/";

const ASKED_ONCE: &str = "x 0/p 1/end/";

// What a replay of this log of the key task tells with this pruner.
fn told_of(alloc: Global, log: &str) -> Result<Vec<u8>, AllocError> {
    let task = written(alloc, KEY_TASK)?;
    let log = written(alloc, log)?;
    let files = Files {
        task: task.as_slice(),
        proof: log.as_slice(),
        nodes: b"",
    };
    told_with(alloc, "replay task proof", files, refused_pruner(alloc)?)
}

// Whether running out of memory is told, with nothing written.
fn tells_want_of_memory(alloc: Global, log: &str) -> Result<bool, AllocError> {
    let told = told_of(alloc, log)?;
    Ok(told.as_slice() == b"6 ".as_slice())
}

// Nothing else is in the way: with one question less the log is replayed.
#[test]
fn tells_that_a_pruner_was_refused_memory(rt: HostRuntime) {
    assert!(rt; tells_want_of_memory(rt.alloc(), ASKED_TWICE) == Ok(true));
    assert!(rt; tells_want_of_memory(rt.alloc(), ASKED_ONCE) == Ok(false));
}

// Whether a replay of this log with these pruners runs out of memory.
fn is_refused(
    alloc: Global,
    log: &str,
    pruners: &mut Vec<Box<dyn Pruner>>,
) -> Result<bool, AllocError> {
    let mut text = Text::new(alloc);
    put_proof_of(alloc, log, pruners, &mut text)?;
    Ok(text.as_bytes() == b"memory".as_slice())
}

// Whether a first replay runs out of memory, and a second one with the same pruner writes what a
// new pruner does.
fn is_begun_anew(alloc: Global) -> Result<bool, AllocError> {
    let mut pruners = refused_pruner(alloc)?;
    let refused = is_refused(alloc, ASKED_TWICE, &mut pruners)?;
    let same = is_the_same(alloc, ASKED_ONCE, &mut pruners)?;
    Ok(refused & same)
}

#[test]
fn begins_a_pruner_anew_after_want_of_memory(rt: HostRuntime) {
    assert!(rt; is_begun_anew(rt.alloc()) == Ok(true));
}

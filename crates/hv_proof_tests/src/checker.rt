//! Proofs for a task with a key that is out of reach: a robot goes between two places, and the key
//! is wanted.
ghost use Rattle.std.specs.Prelude.{◌<◌, ◌≤◌};

use crate::tasks::robot;
use hv_bdd::Diagrams;
use hv_checker::{Checker, End, Fed, Piece, Reason};
use hv_lines::Clash;
use hv_task::Task;
use std::alloc::{AllocError, Global};
use std::process::Abort;

/// The proof of two states.
pub(crate) const PROOF: [&str; 16] = [
    "a 0 a",
    "e 0 c e",
    "e 1 c i",
    "e 2 c g",
    "k 0 d 0 ed",
    "e 3 x 2 0 ; 1 ;",
    "e 4 p 3 0",
    "e 5 u 3 0",
    "e 6 i 3 2",
    "k 1 s 4 5 b2",
    "k 2 s 6 0 b1",
    "k 3 d 6 sd 2 0",
    "k 4 d 3 pg 1 0 3",
    "k 5 s 1 3 b1",
    "k 6 d 1 sd 5 4",
    "k 7 u ci 6",
];

/// Each of these lines is good.
pub(crate) fn feed_good(
    rt: &impl Abort,
    checker: &mut Checker<'_>,
    lines: &[&str],
) -> Result<(), AllocError> {
    for line in lines {
        assert!(rt; checker.fed() < 100);
        let fed = checker.feed(Piece::Line(line.as_bytes()))?;
        assert!(rt; fed == Fed::Good, "{line}");
    }
    Ok(())
}

/// The proof is good up to its last line, and then concludes.
fn accept(rt: &impl Abort, checker: &mut Checker<'_>) -> Result<(), AllocError> {
    feed_good(rt, checker, &PROOF[..15])?;
    assert_eq!(rt; checker.end(), End::NoConclusion);
    assert!(rt; checker.fed() < 100);
    let comment = checker.feed(Piece::Line(b"# the end"))?;
    assert!(rt; comment == Fed::Skipped);
    feed_good(rt, checker, &PROOF[15..])?;
    assert_eq!(rt; checker.end(), End::Unsolvable);
    assert_eq!(rt; checker.fed(), 17);
    assert!(rt; checker.reason().is_none());
    assert_eq!(rt; checker.table().known_count(), 8);
    Ok(())
}

/// The same, by a fresh checker.
fn accept_anew(rt: &impl Abort, alloc: Global, task: &Task) -> Result<(), AllocError> {
    let diagrams = Diagrams::none(alloc, task.atoms());
    let mut checker = Checker::new(alloc, task, &diagrams, 2)?;
    accept(rt, &mut checker)
}

/// The same, of a new task.
fn accept_for_robot(rt: &impl Abort, alloc: Global) -> Result<(), AllocError> {
    let task = robot(alloc)?;
    accept_anew(rt, alloc, &task)
}

#[test]
fn accepts_the_listed_proof(rt: HostRuntime) {
    assert!(rt; accept_for_robot(&rt, rt.alloc()) == Ok(()));
}

/// Good lines, and the piece behind them.
#[derive(Clone, Copy)]
struct Pieces<'p> {
    good: &'p [&'p str],
    bad: Piece<'p>,
}

/// After the good lines the checker refuses the bad piece, for this reason, and stops.
fn stop(
    rt: &impl Abort,
    checker: &mut Checker<'_>,
    pieces: Pieces<'_>,
    reason: &Reason,
) -> Result<(), AllocError> {
    feed_good(rt, checker, pieces.good)?;
    assert!(rt; checker.fed() < 100);
    let fed = checker.feed(pieces.bad)?;
    assert!(rt; is_refusal(&fed, reason));
    let later = checker.feed(Piece::Line(b""))?;
    assert!(rt; later == Fed::Stopped);
    assert_eq!(rt; checker.end(), End::Refused(pieces.good.len() as u64 + 1));
    let kept = checker.reason() == Some(reason);
    assert!(rt; kept);
    Ok(())
}

/// Whether the answer is a refusal for this reason.
pub(crate) fn is_refusal(fed: &Fed, reason: &Reason) -> bool {
    match fed {
        Fed::Refused(told) => told == reason,
        Fed::Skipped | Fed::Good | Fed::Marked | Fed::Stopped => false,
    }
}

/// The same, by a fresh checker without nodes.
fn refuse(
    rt: &impl Abort,
    alloc: Global,
    task: &Task,
    budget: u64,
    pieces: Pieces<'_>,
    reason: &Reason,
) -> Result<(), AllocError>
    requires some { 0 < budget }
    requires small { budget ≤ 16777216 }
{
    let diagrams = Diagrams::none(alloc, task.atoms());
    let mut checker = Checker::new(alloc, task, &diagrams, budget)?;
    stop(rt, &mut checker, pieces, reason)
}

/// The first lines of the proof, but for a state that set 3 lacks: that of the second place.
const MISSING: [&str; 9] = [
    "a 0 a",
    "e 0 c e",
    "e 1 c i",
    "e 2 c g",
    "k 0 d 0 ed",
    "e 3 x 1 0 ;",
    "e 4 p 3 0",
    "e 5 u 3 0",
    "e 6 i 3 2",
];

/// After so many lines of the proof this one is refused for this reason.
fn refuse_after(
    rt: &impl Abort,
    alloc: Global,
    task: &Task,
    good: usize,
    bad: &str,
    reason: &Reason,
) -> Result<(), AllocError> {
    assert!(rt; good < PROOF.len());
    let pieces = Pieces {
        good: &PROOF[..good],
        bad: Piece::Line(bad.as_bytes()),
    };
    refuse(rt, alloc, task, 2, pieces, reason)
}

/// Bad lines, each after so many good ones of the proof.
fn refuse_lines(rt: &impl Abort, alloc: Global, task: &Task) -> Result<(), AllocError> {
    refuse_after(rt, alloc, task, 0, "e 0 h 1 -3", &Reason::Grammar)?;
    refuse_after(rt, alloc, task, 0, "e 1 c e", &Reason::Number)?;
    refuse_after(rt, alloc, task, 2, "k 0 d 0 sd 0 0", &Reason::Unknown)?;
    refuse_after(rt, alloc, task, 0, "a 0 b 1 2", &Reason::Unknown)?;
    refuse_after(rt, alloc, task, 3, "k 0 d 1 ed", &Reason::Rule)?;
    refuse_after(rt, alloc, task, 0, "e 0 b 2", &Reason::Unknown)?;
    refuse_after(rt, alloc, task, 0, "e 0 h 1 1 2 0", &Reason::Family)
}

/// The same, of a new task.
fn refuse_lines_anew(rt: &impl Abort, alloc: Global) -> Result<(), AllocError> {
    let task = robot(alloc)?;
    refuse_lines(rt, alloc, &task)
}

/// A line that is too long is refused.
fn refuse_long(rt: &impl Abort, alloc: Global) -> Result<(), AllocError> {
    let task = robot(alloc)?;
    let long = Pieces {
        good: &[],
        bad: Piece::Long,
    };
    refuse(rt, alloc, &task, 2, long, &Reason::Long)
}

#[test]
fn tells_the_first_bad_line(rt: HostRuntime) {
    assert!(rt; refuse_lines_anew(&rt, rt.alloc()) == Ok(()));
    assert!(rt; refuse_long(&rt, rt.alloc()) == Ok(()));
}

/// The first action leads out from the initial state.
fn start_leads_out(alloc: Global, task: &Task) -> Result<Reason, AllocError> {
    Ok(Reason::False(Clash {
        action: Some(0),
        state: Some(task.start_state(alloc)?),
    }))
}

/// Where a state is missing the progression is refused with the action and the state that lead
/// there; by too small a budget it is refused as well.
fn refuse_progressions(rt: &impl Abort, alloc: Global, task: &Task) -> Result<(), AllocError> {
    let bad = Piece::Line(b"k 1 s 4 5 b2");
    let dear = Pieces {
        good: &PROOF[..9],
        bad,
    };
    refuse(rt, alloc, task, 1, dear, &Reason::Budget)?;
    let reason = start_leads_out(alloc, task)?;
    let missing = Pieces {
        good: &MISSING,
        bad,
    };
    refuse(rt, alloc, task, 2, missing, &reason)
}

/// The same, of a new task.
fn refuse_progressions_anew(rt: &impl Abort, alloc: Global) -> Result<(), AllocError> {
    let task = robot(alloc)?;
    refuse_progressions(rt, alloc, &task)
}

#[test]
fn tells_what_is_not_good(rt: HostRuntime) {
    assert!(rt; refuse_progressions_anew(&rt, rt.alloc()) == Ok(()));
}

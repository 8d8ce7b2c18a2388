//! Closed proofs, fed to a checker piece by piece: what it answers to the two marks, and what it
//! says of the pieces fed so far.

ghost use Rattle.std.specs.Prelude.{◌<◌, ◌≤◌};

use crate::checker::{PROOF, feed_good, is_refusal};
use crate::tasks::robot;
use hv_bdd::Diagrams;
use hv_checker::{Checker, End, Fed, Piece, Reason};
use hv_task::Task;
use std::alloc::{AllocError, Global};
use std::process::Abort;

/// The answer to this line.
fn feed_line(
    rt: &impl Abort,
    checker: &mut Checker<'_>,
    line: &str,
    answer: Fed,
) -> Result<(), AllocError> {
    assert!(rt; checker.fed() < 100);
    let fed = checker.feed(Piece::Line(line.as_bytes()))?;
    assert!(rt; fed == answer, "{line}");
    Ok(())
}

/// So far the end is missing, which would be the next line.
fn misses_the_end(rt: &impl Abort, checker: &Checker<'_>, next: u64) {
    assert_eq!(rt; checker.end(), End::Refused(next));
    let told = checker.reason() == Some(&Reason::Grammar);
    assert!(rt; told);
}

/// That the end is missing isn't kept: more lines are judged, up to the end.
fn accept_closed(rt: &impl Abort, checker: &mut Checker<'_>) -> Result<(), AllocError> {
    assert_eq!(rt; checker.end(), End::NoConclusion);
    feed_line(rt, checker, "helve 2", Fed::Marked)?;
    misses_the_end(rt, checker, 2);
    feed_good(rt, checker, &PROOF[..15])?;
    misses_the_end(rt, checker, 17);
    feed_line(rt, checker, "# soon", Fed::Skipped)?;
    misses_the_end(rt, checker, 18);
    feed_good(rt, checker, &PROOF[15..])?;
    misses_the_end(rt, checker, 19);
    feed_line(rt, checker, "end", Fed::Marked)?;
    assert_eq!(rt; checker.end(), End::Unsolvable);
    assert!(rt; checker.reason().is_none());
    feed_line(rt, checker, "", Fed::Skipped)?;
    feed_line(rt, checker, "#end", Fed::Skipped)?;
    assert_eq!(rt; checker.end(), End::Unsolvable);
    assert_eq!(rt; checker.fed(), 21);
    assert_eq!(rt; checker.table().known_count(), 8);
    Ok(())
}

/// This piece is refused for this reason, and then all others are stopped.
fn refuse_next(
    rt: &impl Abort,
    checker: &mut Checker<'_>,
    piece: Piece<'_>,
    reason: &Reason,
) -> Result<(), AllocError> {
    assert!(rt; checker.fed() < 100);
    let place = checker.fed() + 1;
    let fed = checker.feed(piece)?;
    assert!(rt; is_refusal(&fed, reason));
    assert_eq!(rt; checker.end(), End::Refused(place));
    let told = checker.reason() == Some(reason);
    assert!(rt; told);
    feed_line(rt, checker, "end", Fed::Stopped)
}

/// After these marks and lines this piece is refused for this reason.
fn refuse_after(
    rt: &impl Abort,
    alloc: Global,
    task: &Task,
    marks: &[&str],
    piece: Piece<'_>,
    reason: &Reason,
) -> Result<(), AllocError> {
    let diagrams = Diagrams::none(alloc, task.atoms());
    let mut checker = Checker::new(alloc, task, &diagrams, 2)?;
    for mark in marks {
        feed_line(rt, &mut checker, mark, Fed::Marked)?;
    }
    refuse_next(rt, &mut checker, piece, reason)
}

/// Pieces that are refused, each after these marks: before the end, behind it, and in a proof
/// without marks.
fn refuse_pieces(rt: &impl Abort, alloc: Global, task: &Task) -> Result<(), AllocError> {
    let grammar = Reason::Grammar;
    let both = ["helve 2", "end"];
    refuse_after(rt, alloc, task, &[], Piece::Line(b"end"), &grammar)?;
    refuse_after(
        rt,
        alloc,
        task,
        &both[..1],
        Piece::Line(b"helve 2"),
        &grammar,
    )?;
    refuse_after(rt, alloc, task, &both[..1], Piece::Line(b"end "), &grammar)?;
    refuse_after(rt, alloc, task, &both[..1], Piece::Long, &Reason::Long)?;
    refuse_after(rt, alloc, task, &both, Piece::Line(b"end"), &grammar)?;
    refuse_after(rt, alloc, task, &both, Piece::Line(b"a 0 a"), &grammar)?;
    refuse_after(rt, alloc, task, &both, Piece::Line(b"e 1 c e"), &grammar)?;
    refuse_after(rt, alloc, task, &both, Piece::Long, &Reason::Long)
}

/// The whole proof, by a fresh checker.
fn accept_anew(rt: &impl Abort, alloc: Global, task: &Task, budget: u64) -> Result<(), AllocError>
    requires some { 0 < budget }
    requires small { budget ≤ 16777216 }
{
    let diagrams = Diagrams::none(alloc, task.atoms());
    let mut checker = Checker::new(alloc, task, &diagrams, budget)?;
    accept_closed(rt, &mut checker)
}

/// The same, of a new task.
fn accept_for_robot(rt: &impl Abort, alloc: Global, budget: u64) -> Result<(), AllocError>
    requires some { 0 < budget }
    requires small { budget ≤ 16777216 }
{
    let task = robot(alloc)?;
    accept_anew(rt, alloc, &task, budget)
}

#[test]
fn accepts_a_closed_proof(rt: HostRuntime) {
    assert!(rt; accept_for_robot(&rt, rt.alloc(), 2) == Ok(()));
    assert!(rt; accept_for_robot(&rt, rt.alloc(), 1000000) == Ok(()));
}

/// The pieces are refused, of a new task.
fn refuse_pieces_anew(rt: &impl Abort, alloc: Global) -> Result<(), AllocError> {
    let task = robot(alloc)?;
    refuse_pieces(rt, alloc, &task)
}

#[test]
fn refuses_what_is_not_in_a_closed_proof(rt: HostRuntime) {
    assert!(rt; refuse_pieces_anew(&rt, rt.alloc()) == Ok(()));
}

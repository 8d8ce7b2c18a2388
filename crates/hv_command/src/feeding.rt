//! A proof is judged line by line, as it is read.
//!
//! Each line is read into a `Line`, tested, and put into the table, up to the first that is
//! refused. What is in memory is the accepted lines, one block, the present line, and the line that
//! is being put together where it crosses blocks. The formula of an `e` line is put into the store
//! of its family when the line is accepted; its clauses or listed states occur once, and line and
//! store both own them. Reading and cutting are linear in the bytes, and a rule costs a few
//! look-ups.

ghost use Rattle.std.specs.Prelude.{◌≡◌, ◌≢◌, ◌≤◌, [], IfSome, IsErrOf, IsTrue, OnOk};
ghost use Rattle.hv_bytes.specs.Devices.{Rose};
ghost use Rattle.hv_bytes.specs.Files.{bytes_of};
ghost use Rattle.hv_bytes.specs.Pieces.{pieces_of};
ghost use Rattle.hv_checker.specs.Checkers.{HasJudged};
ghost use Rattle.hv_bytes.specs.Standard.{standard};
ghost use Rattle.hv_bytes.specs.States.{no_lines};
ghost use Rattle.hv_checker.specs.declared.stop.Stop.TheVariants as C;

use crate::job_fault::JobFault;
use hv_bytes::{Limits, LineFault, Lines, Next, Shelf};
use hv_checker::{Checker, Fed, Piece};
use std::alloc::Global;

/// Feeds the file of this name to a new checker, line by line as it is read, and reads no further
/// than to the first line that is refused. The checker is then as the whole file leaves it.
pub(crate) fn feed_file<S: Shelf>(
    alloc: Global,
    shelf: &mut S,
    name: &str,
    checker: &mut Checker<'_>,
) -> Result<(), JobFault>
    requires allowed { IsTrue (S.allows shelf.old name.now) }
    requires unfed { checker.old.fed ≡ 0 }
    requires going { checker.old.stop ≡ C.Going }
    requires stands { HasJudged checker.old [] }
    ensures fed { OnOk result (IfSome (S.held shelf.old) (λ held.
        HasJudged checker.new (pieces_of standard (bytes_of held name.now)))) }
    ensures setting { checker.new.setting ≡ checker.old.setting }
    ensures found { OnOk result (checker.new.stop ≢ C.Memory) }
    ensures held { S.held shelf.new ≡ S.held shelf.old }
    ensures allows { S.allows shelf.new ≡ S.allows shelf.old }
    ensures later { S.faults shelf.old ≤ S.faults shelf.new }
    ensures cause { IsErrOf result JobFault.ReadFault → Rose (S.faults shelf.old)
        (S.faults shelf.new) }
{
    shelf.open(name)?;
    let mut lines = Lines::new(alloc, Limits::STANDARD)?;
    feed_lines(shelf, &mut lines, checker)
}

// Feeds what is left on the shelf, which these lines cut from its start.
fn feed_lines<S: Shelf>(
    shelf: &mut S,
    lines: &mut Lines,
    checker: &mut Checker<'_>,
) -> Result<(), JobFault>
    requires fresh { lines.old ≡ no_lines standard }
    requires unfed { checker.old.fed ≡ 0 }
    requires going { checker.old.stop ≡ C.Going }
    requires stands { HasJudged checker.old [] }
    ensures fed { OnOk result (IfSome (S.left shelf.old) (λ bytes.
        HasJudged checker.new (pieces_of standard bytes))) }
    ensures setting { checker.new.setting ≡ checker.old.setting }
    ensures found { OnOk result (checker.new.stop ≢ C.Memory) }
    ensures held { S.held shelf.new ≡ S.held shelf.old }
    ensures allows { S.allows shelf.new ≡ S.allows shelf.old }
    ensures later { S.faults shelf.old ≤ S.faults shelf.new }
    ensures cause { IsErrOf result JobFault.ReadFault → Rose (S.faults shelf.old)
        (S.faults shelf.new) }
{
    'feeding: loop {
        match lines.next(shelf) {
            Ok(Next::Line) => {
                if let Fed::Refused(_) = checker.feed(Piece::Line(lines.line()))? {
                    return Ok(());
                }
            }
            Ok(Next::End) => return Ok(()),
            Err(LineFault::Long) => {
                checker.feed(Piece::Long)?;
                return Ok(());
            }
            Err(LineFault::Failed) => return Err(JobFault::ReadFault),
            Err(LineFault::Memory) => return Err(JobFault::Memory),
        }
    }
}

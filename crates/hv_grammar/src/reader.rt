//! A file of a shelf, line by line.

ghost use Rattle.std.specs.Prelude.{◌≡◌, ◌≤◌, ◌^◌, IfErr, IfOk, IsErrOf, IsTrue};
ghost use Rattle.hv_bytes.specs.Devices.{Rose};
ghost use Rattle.hv_bytes.specs.Files.{Opens};
ghost use Rattle.hv_bytes.specs.States.{no_lines};
ghost use Rattle.hv_grammar.specs.declared.fault.ParseFault.TheVariants as ParseFault;
ghost use Rattle.hv_grammar.specs.Reads.{IsOfNoLine};

use crate::fault::ParseFault;
use crate::source::Source;
use hv_bytes::{Failed, Limits, LineFault, Lines, Next, Shelf};
use std::alloc::Global;

/// Opens the file of this name, to be cut into lines from its start.
pub fn open<S: Shelf, B>(
    alloc: Global,
    shelf: &mut S,
    name: &str,
    limits: Limits,
) -> Result<Lines, ParseFault<B>>
    requires allowed { IsTrue (S.allows shelf.old name.now) }
    requires line { limits.line ≤ 2 ^ 62 }
    requires file { limits.file ≤ 2 ^ 62 }
    ensures opened { IfOk result (λ _. Opens (S.held shelf.old) name.now (S.left shelf.new)) }
    ensures lines { IfOk result (λ lines. lines ≡ no_lines limits) }
    ensures outside { IfErr result IsOfNoLine }
    ensures held { S.held shelf.new ≡ S.held shelf.old }
    ensures allows { S.allows shelf.new ≡ S.allows shelf.old }
    ensures later { S.faults shelf.old ≤ S.faults shelf.new }
    ensures cause { IsErrOf result ParseFault.ReadFault →
        Rose (S.faults shelf.old) (S.faults shelf.new) }
{
    match shelf.open(name) {
        Ok(()) => {}
        Err(Failed) => return Err(ParseFault::ReadFault),
    }
    match Lines::new(alloc, limits) {
        Ok(lines) => Ok(lines),
        Err(_) => Err(ParseFault::Memory),
    }
}

/// The open file of a shelf, line by line: the shelf, and what cuts its bytes into lines.
#[derive(Drop)]
pub struct Reader<'a, S> {
    lines: &'a mut Lines,
    shelf: &'a mut S,
}

impl<'a, S: Shelf> Reader<'a, S> {
    /// A reader of what these lines have still to give of the shelf.
    pub fn new(lines: &'a mut Lines, shelf: &'a mut S) -> Reader<'a, S>
        ensures same_shelf { result.shelf.ghost_name ≡ shelf.entry.ghost_name }
        ensures shelf { result.shelf.now ≡ shelf.old }
        ensures lines { result.lines.now ≡ lines.old }
    {
        Reader { lines, shelf }
    }
}

impl<'a, S: Shelf> Source for Reader<'a, S> {
    ghost position = { λ r. record {
      lines = r.lines.now;
      left = S.left r.shelf.now;
      held = S.held r.shelf.now;
      allows = S.allows r.shelf.now;
      faults = S.faults r.shelf.now;
      shelf = r.shelf.ghost_name;
    } };

    #[inline(always)]
    fn advance(&mut self) -> Result<Next, LineFault> {
        self.lines.next(self.shelf)
    }

    fn line(&self) -> &[u8] {
        self.lines.line()
    }

    fn number(&self) -> u64 {
        self.lines.number()
    }
}

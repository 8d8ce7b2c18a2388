//! Plan files from a shelf, line by line.

ghost use Rattle.std.specs.Prelude.{◌≡◌, ◌≤◌, ◌++◌, length, IfOk, IfSome, IsErrOf, IsTrue, OnErr};
ghost use Rattle.std.specs.Prelude.{OnOk, option_to_list};
ghost use Rattle.hv_bytes.specs.Devices.{Rose};
ghost use Rattle.hv_bytes.specs.Files.{bytes_of};
ghost use Rattle.hv_bytes.specs.Pieces.{pieces_of};
ghost use Rattle.hv_bytes.specs.States.{no_lines};
ghost use Rattle.hv_grammar.specs.Reads.{Reads};
ghost use Rattle.hv_bound.specs.PlanFile.{IsPlanRead, plan_file, plan_limits, step_in};
ghost use Rattle.hv_bound.specs.declared.fault.PlanFault.TheVariants as PlanFault;

use crate::fault::PlanFault;
use crate::plan_list::PlanList;
use hv_bytes::{Limits, MOST_LINE_BYTES, Shelf};
use hv_grammar::{ParseFault, Reader, Source, at_line, has_line, open, short_decimal};
use std::alloc::{AllocError, Global};

/// The most bytes of a plan file. A line that is longer than a line may be ends past them.
const MOST_BYTES: u64 = 8_388_608;

/// Reads the plan file of this name: the numbers of actions, from 0 to 999,999,999, one a line.
/// Empty lines and lines that begin with `#` are skipped. A line whose last byte lies past byte
/// 8,388,608 is the fault `Limit`, whatever its form, and nothing behind it is read; so there are
/// at most 4,194,304 numbers.
pub fn read_plan<S: Shelf>(alloc: Global, shelf: &mut S, name: &str) -> Result<PlanList, PlanFault>
    requires { IsTrue (S.allows shelf.old name.now) }

    // where the source's bytes are known
    ensures read { IfSome (S.held shelf.old) (λ held.
        IsPlanRead (plan_file 0 (pieces_of plan_limits (bytes_of held name.now))) result) }

    // told or not
    ensures few { IfOk result (λ list. length list ≤ 4194304) }

    ensures held { S.held shelf.new ≡ S.held shelf.old }
    ensures allows { S.allows shelf.new ≡ S.allows shelf.old }

    ensures later { S.faults shelf.old ≤ S.faults shelf.new }
    ensures cause { IsErrOf result PlanFault.ReadFault →
        Rose (S.faults shelf.old) (S.faults shelf.new) }
{
    let limits = Limits {
        line: MOST_LINE_BYTES,
        file: MOST_BYTES,
    };
    let mut lines = open(alloc, shelf, name, limits)?;
    let mut reader = Reader::new(&mut lines, shelf);
    Ok(steps(alloc, &mut reader)?)
}

// The steps of all lines, from the first one on.
fn steps<R: Source>(alloc: Global, reader: &mut R) -> Result<PlanList, ParseFault<()>>
    requires { (R.position reader.old).lines ≡ no_lines plan_limits }
    ensures reads { Reads plan_file (R.position reader.old) (R.position reader.new) result }
    ensures few { IfOk result (λ list. length list ≤ 4194304) }
{
    let mut list = PlanList::new(alloc);
    'lines: while has_line(reader)? {
        let step = at_line(reader, step_in(reader.line()))?;
        add_step(&mut list, step)?;
    }
    Ok(list)
}

// The step that a line says, if it says one.
fn step_in(line: &[u8]) -> Result<Option<u32>, ()>
    ensures { result ≡ step_in line.now }
{
    if line.is_empty() || line[0] == b'#' {
        return Ok(None);
    }
    match short_decimal(line) {
        Some(number) => Ok(Some(number)),
        None => Err(()),
    }
}

// Appends the step that a line says, if it says one.
fn add_step(list: &mut PlanList, step: Option<u32>) -> Result<(), AllocError>
    ensures ok { OnOk result (list.new ≡ list.old ++ option_to_list step) }
    ensures err { OnErr result (list.new ≡ list.old) }
{
    match step {
        Some(number) => list.push(number),
        None => Ok(()),
    }
}

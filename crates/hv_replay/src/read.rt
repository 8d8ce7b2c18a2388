//! Logs from a shelf, line by line.

ghost use Rattle.std.specs.Prelude.{◌≡◌, ◌+◌, ◌≤◌, [], IsTrue, IfOk, IfSome, IsErrOf, OnOk, false};
ghost use Rattle.hv_bytes.specs.Devices.{Rose};
ghost use Rattle.hv_bytes.specs.Files.{bytes_of};
ghost use Rattle.hv_bytes.specs.States.{no_lines};
ghost use Rattle.hv_grammar.specs.Parsers.{line, many_till};
ghost use Rattle.hv_grammar.specs.Positions.{CanRead};
ghost use Rattle.hv_grammar.specs.Reads.{Reads};
ghost use Rattle.hv_task.specs.Strips.{atoms};
ghost use Rattle.hv_replay.specs.LogFile.{log_file, log_line};
ghost use Rattle.hv_replay.specs.Logs.{listed_bytes};
ghost use Rattle.hv_replay.specs.LogText.{IsLogReadFrom, log_limits};
ghost use Rattle.hv_replay.specs.Working.Reading.{IsReadingLog, as_entries, as_log, entries_in};
ghost use Rattle.hv_replay.specs.Working.Reading.{going_on};
ghost use Rattle.hv_replay.specs.declared.fault.LogRefusal.TheVariants as Refusal;

use crate::entries::Entries;
use crate::fault::{LogFault, LogRefusal};
use crate::log::Log;
use hv_bytes::{Limits, MOST_LINE_BYTES, Shelf};
use hv_grammar::{ParseFault, Reader, Source, end_of_input, next_line, open};
use hv_task::Task;
use std::alloc::Global;

/// The most bytes of a log. A line that is longer ends past them.
const MOST_BYTES: u64 = 8_388_608;

/// Reads the log of this name, of states of the task. It answers with the log exactly where the
/// file is the text of one within the limits, and otherwise with its first fault. A line that ends
/// past byte 8,388,608 is the fault `Limit` of `Bytes`, whatever its form, and nothing behind it is
/// read.
pub fn read_log<S: Shelf>(
    alloc: Global,
    shelf: &mut S,
    name: &str,
    task: &Task,
) -> Result<Log, LogFault>
    requires { IsTrue (S.allows shelf.old name.now) }

    // where the source's bytes are known
    ensures read { IfSome (S.held shelf.old) (λ held.
        IsLogReadFrom (atoms task.now) (bytes_of held name.now) result) }
    ensures atoms { IfOk result (λ log. log.atoms ≡ atoms task.now) }

    ensures held { S.held shelf.new ≡ S.held shelf.old }
    ensures allows { S.allows shelf.new ≡ S.allows shelf.old }

    ensures later { S.faults shelf.old ≤ S.faults shelf.new }
    ensures cause { IsErrOf result LogFault.ReadFault →
        Rose (S.faults shelf.old) (S.faults shelf.new) }
{
    let limits = Limits {
        line: MOST_LINE_BYTES,
        file: MOST_BYTES,
    };
    let mut lines = open(alloc, shelf, name, limits)?;
    let mut reader = Reader::new(&mut lines, shelf);
    let entries = whole(alloc, &mut reader, task.atoms())?;
    let log = Log::new(task, entries)?;
    Ok(log)
}

// The whole file, of a task with so many atoms.
fn whole<R: Source>(
    alloc: Global,
    reader: &mut R,
    atoms: u32,
) -> Result<Entries, ParseFault<LogRefusal>>
    requires few { atoms ≤ 65535 }
    requires fresh { (R.position reader.old).lines ≡ no_lines log_limits }
    ensures reads { Reads (log_file atoms)
        (R.position reader.old) (R.position reader.new) (as_log result) }
    ensures ready { IfOk result IsReadingLog }
    ensures atoms { IfOk result (λ entries. entries.atoms ≡ atoms) }
{
    let entries = entries(alloc, reader, atoms)?;
    end_of_input(reader, LogRefusal::Place)?;
    Ok(entries)
}

// The entries, up to the last line.
fn entries<R: Source>(
    alloc: Global,
    reader: &mut R,
    atoms: u32,
) -> Result<Entries, ParseFault<LogRefusal>>
    requires few { atoms ≤ 65535 }
    requires fresh { (R.position reader.old).lines ≡ no_lines log_limits }
    ensures reads { Reads (many_till Refusal.Place (log_line atoms) [])
        (R.position reader.old) (R.position reader.new) (as_entries result) }
    ensures ready { IfOk result IsReadingLog }
    ensures atoms { IfOk result (λ entries. entries.atoms ≡ atoms) }
{
    let mut entries = Entries::new(alloc, atoms);
    'lines: while next_entry(reader, &mut entries)? {}
    Ok(entries)
}

// One more entry. The answer is false where its line is the last one.
fn next_entry<R: Source>(
    reader: &mut R,
    entries: &mut Entries,
) -> Result<bool, ParseFault<LogRefusal>>
    requires can { CanRead (R.position reader.old) }
    requires limits { (R.position reader.old).lines.limits ≡ log_limits }
    requires ready { IsReadingLog entries.old }
    requires bytes { listed_bytes (entries_in entries.old) ≤ (R.position reader.old).lines.earlier }
    ensures reads { Reads (line Refusal.Place (log_line entries.old.atoms (entries_in entries.old)))
        (R.position reader.old) (R.position reader.new) (going_on entries.new result) }
    ensures ready { OnOk result (IsReadingLog entries.new) }
    ensures atoms { OnOk result (entries.new.atoms ≡ entries.old.atoms) }
    ensures bytes { OnOk result (listed_bytes (entries_in entries.new)
        ≤ (R.position reader.new).lines.earlier) }
    ensures same { result ≡ Ok false → entries_in entries.new ≡ entries_in entries.old }
    ensures next { OnOk result ((R.position reader.new).lines.number
        ≡ (R.position reader.old).lines.number + 1) }
{
    next_line(reader, LogRefusal::Place)?;
    entries.take_line(reader.line(), reader.number())
}

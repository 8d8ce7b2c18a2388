//! The entries of a log that is being read, and what each further line adds.

ghost use Rattle.std.specs.Prelude.{◌≡◌, ◌+◌, ◌≤◌, ◌∷◌, ◌++◌, [], length, Ok, OnOk, false};
ghost use Rattle.hv_grammar.specs.Working.Reads.{placed};
ghost use Rattle.hv_replay.specs.LogFile.{log_line, with_entry};
ghost use Rattle.hv_replay.specs.Logs.{IsAtomSet, IsLog, listed_bytes};
ghost use Rattle.hv_replay.specs.Working.Logs.{entries_of};
ghost use Rattle.hv_replay.specs.Working.Reading.{HoldsLog, IsReadingLog, IsSaid, begun_entry};
ghost use Rattle.hv_replay.specs.Working.Reading.{entries_in, going_on};

use crate::fault::LogRefusal;
use crate::log_counts::Counts;
use crate::log_line::{kind_of_letter, put_atoms};
use hv_bytes::split_field;
use hv_grammar::ParseFault;
use hv_sets::{StateList, StateListBuilder};
use std::alloc::Global;

/// The entries so far. After a fault they serve no more.
#[derive(Drop)]
pub(crate) struct Entries {
    atoms: u32,
    counts: Counts,
    states: StateListBuilder,
    // For each state whether it is an expanded one.
    expanded: Vec<bool>,
}

impl Entries {
    /// No entry, of a task with so many atoms.
    pub(crate) fn new(alloc: Global, atoms: u32) -> Entries
        requires { atoms ≤ 65535 }
        ensures ready { IsReadingLog result }
        ensures atoms { result.atoms ≡ atoms }
        ensures none { entries_in result ≡ [] }
    {
        Entries {
            atoms,
            counts: Counts {
                expanded: 0,
                pruned: 0,
            },
            states: StateListBuilder::new(alloc),
            expanded: Vec::new(alloc),
        }
    }

    /// Takes the line of this number. The answer is true where it is that of one more entry, and
    /// false where it is the last one.
    pub(crate) fn take_line(
        &mut self,
        line: &[u8],
        number: u64,
    ) -> Result<bool, ParseFault<LogRefusal>>
        requires ready { IsReadingLog self.old }
        requires room { listed_bytes (entries_in self.old) + length line.now ≤ 8388608 }
        ensures said { IsSaid number (log_line self.old.atoms (entries_in self.old) line.now)
            (going_on self.new result) }
        ensures ready { OnOk result (IsReadingLog self.new) }
        ensures atoms { OnOk result (self.new.atoms ≡ self.old.atoms) }
        ensures same { result ≡ Ok false → entries_in self.new ≡ entries_in self.old }
    {
        if line == b"end".as_slice() {
            return Ok(false);
        }
        let (letter, fields) = split_field(line);
        let Some(expanded) = kind_of_letter(letter) else {
            return Err(ParseFault::Refused(number, LogRefusal::Place));
        };
        if !put_atoms(&mut self.states, fields, self.atoms)? {
            return Err(ParseFault::Refused(number, LogRefusal::Place));
        }
        self.end_entry(expanded, number)?;
        Ok(true)
    }

    // Ends the entry whose atoms were put, in the line of this number.
    fn end_entry(&mut self, expanded: bool, number: u64) -> Result<(), ParseFault<LogRefusal>>
        requires holds { HoldsLog self.old }
        requires state { IsAtomSet self.old.atoms self.old.states.begun }
        requires room { listed_bytes (entries_in self.old ++ begun_entry expanded self.old ∷ [])
            ≤ 8388608 }
        ensures said { IsSaid number
            (with_entry (entries_in self.old) (Some (begun_entry expanded self.old)))
            (placed (Some (entries_in self.new)) result) }
        ensures ready { OnOk result (IsReadingLog self.new) }
        ensures atoms { OnOk result (self.new.atoms ≡ self.old.atoms) }
    {
        match self.counts.with(expanded) {
            Ok(counts) => {
                self.expanded.reserve(1)?;
                self.states.end()?;
                self.expanded.push_reserved(expanded);
                self.counts = counts;
                Ok(())
            }
            Err(limit) => Err(ParseFault::Refused(number, LogRefusal::Limit(limit))),
        }
    }

    /// The states, and for each whether it is an expanded one.
    pub(crate) fn lists(self) -> (StateList, Vec<bool>)
        requires { IsReadingLog self }
        ensures log { IsLog self.atoms (entries_of result.1.items result.0) }
        ensures same { entries_of result.1.items result.0 ≡ entries_in self }
        ensures size { length result.1.items ≡ length result.0 }
    {
        (self.states.list(), self.expanded)
    }
}

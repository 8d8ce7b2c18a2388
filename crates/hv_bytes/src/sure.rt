//! A shelf and a sink in memory that never fail.

ghost use Rattle.std.specs.Prelude.{◌≡◌, ◌<◌, ◌≤◌, ◌+◌, ◌-◌, ◌^◌, ◌≢◌, [], ◌∷◌, ◌++◌, ◌↔◌, ℕ, List};
ghost use Rattle.std.specs.Prelude.{length, take, drop, min, Some, Ok, IsTrue, IsOk, IsSome, IfOk};
ghost use Rattle.std.specs.Prelude.{OnOk, OnErr};
ghost use Rattle.std.specs.List.{position};
ghost use Rattle.std.specs.Str.{bytes_eq};
ghost use Rattle.std.specs.Io.{ReadsAtMost};
ghost use Rattle.std.specs.Io.KnownBytes.{Keeps, ReadConsumes, WriteAppends};
ghost use Rattle.hv_bytes.specs.Devices.{HasCause};
ghost use Rattle.hv_bytes.specs.Files.{File, Opens, bytes_of, held_of};
ghost use Rattle.hv_bytes.specs.Working.Files.{bytes_at};

use crate::outside::{Failed, Shelf, Sink};
use std::alloc::{AllocError, Global};
use std::marker::Model;

/// A file in memory.
#[derive(Drop)]
struct MemoryFile {
    name: String,
    bytes: Vec<u8>,
}

impl Model for MemoryFile {
    ghost use Rattle.std.specs.Prelude.{string_bytes};
    ghost use Rattle.hv_bytes.specs.Files.{File};

    ghost Value = { File };

    ghost view = { λ e. record { name = string_bytes e.name; bytes = e.bytes.items } };
}

impl MemoryFile {
    fn new(alloc: Global, name: &str, bytes: &[u8]) -> Result<MemoryFile, AllocError>
        ensures { IfOk result (λ e. e ≡ record { name = name.now; bytes = bytes.now }) }
    {
        let name = String::from_str(alloc, name)?;
        let bytes = Vec::from_slice(alloc, bytes)?;
        Ok(MemoryFile { name, bytes })
    }

    fn has_name(&self, name: &str) -> bool
        ensures { result ≡ bytes_eq self.now.name name.now }
    {
        self.name.as_str() == name
    }

    fn as_bytes(&self) -> &[u8]
        ensures { result.now ≡ self.now.bytes }
    {
        self.bytes.as_slice()
    }
}

/// The place of the first file of this name.
fn found_at(entries: &[MemoryFile], name: &str) -> Option<usize>
    ensures { result ≡ position (λ file. bytes_eq file.name name.now) entries.now }
{
    entries.iter().position(|entry| entry.has_name(name))
}

/// The place of the first file of this name, or the number of files.
fn place_of(entries: &[MemoryFile], name: &str) -> usize
    ensures within { result ≤ length entries.now }
    ensures held { (result < length entries.now) ↔ IsSome (held_of entries.now name.now) }
    ensures bytes { bytes_at entries.now result ≡ bytes_of (held_of entries.now) name.now }
{
    found_at(entries, name).unwrap_or(entries.len())
}

/// What is left of the file at a place, from the byte `at`.
fn rest_of(entries: &[MemoryFile], place: usize, at: usize) -> &[u8]
    requires { at ≤ length (bytes_at entries.now place) }
    ensures rest { result.now ≡ drop at (bytes_at entries.now place) }
    ensures room { at + length result.now < 2 ^ 64 }
{
    match entries.get(place) {
        Some(entry) => &entry.as_bytes()[at..],
        None => &[],
    }
}

/// A shelf in memory that never fails. A name that wasn't added holds no bytes.
#[derive(Drop)]
pub struct SureShelf {
    alloc: Global,
    entries: Vec<MemoryFile>,
    place: usize,
    at: usize,
}

impl Model for SureShelf {
    ghost use Rattle.std.specs.Prelude.{◌≤◌, vec_len, drop, length};
    ghost use Rattle.hv_bytes.specs.Working.Files.{bytes_at};
    ghost use Rattle.hv_bytes.specs.States.{SureState};

    ghost Value = { SureState };

    ghost view = { λ s. record {
      files = s.entries.items;
      left = drop s.at (bytes_at s.entries.items s.place);
    } };

    ghost invariant = { λ s. (s.place ≤ vec_len s.entries)
        × (s.at ≤ length (bytes_at s.entries.items s.place)) };
}

impl SureShelf {
    /// A shelf that holds no name yet.
    pub fn new(alloc: Global) -> SureShelf
        ensures { result ≡ record { files = []; left = [] } }
    {
        SureShelf {
            alloc,
            entries: Vec::new(alloc),
            place: 0,
            at: 0,
        }
    }

    /// Adds a file. One of the same name that is there is replaced; if it is open, its bytes stay
    /// those that are left to be read.
    pub fn add(&mut self, name: &str, bytes: &[u8]) -> Result<(), AllocError>
        ensures files { OnOk result
            (self.new.files ≡ record { name = name.now; bytes = bytes.now } ∷ self.old.files) }
        ensures left { self.new.left ≡ self.old.left }
        ensures named { OnOk result (held_of self.new.files name.now ≡ Some bytes.now) }
        ensures others { OnOk result
            ((other : List ℕ) → other ≢ name.now
            → held_of self.new.files other ≡ held_of self.old.files other) }
        ensures err { OnErr result (self.new ≡ self.old) }
    {
        let entry = MemoryFile::new(self.alloc, name, bytes)?;
        self.entries.insert(0, entry)?;
        self.place += 1;
        Ok(())
    }

    /// Whether the name was added.
    pub fn holds(&self, name: &str) -> bool
        ensures { IsTrue result ↔ IsSome (held_of self.now.files name.now) }
    {
        place_of(&self.entries, name) < self.entries.len()
    }

    /// Reads at most `step` bytes into the prefix of `into`, and says how many.
    pub(crate) fn give(&mut self, into: &mut [u8], step: usize) -> usize
        ensures count { result ≡ min step (min (length into.old) (length self.old.left)) }
        ensures given { take result into.new ≡ take result self.old.left }
        ensures left { self.new ≡ record self.old { left = drop result self.old.left } }
    {
        let rest = rest_of(&self.entries, self.place, self.at);
        let count = step.min(into.len()).min(rest.len());
        into[..count].copy_from_slice(&rest[..count]);
        self.at += count;
        count
    }
}

impl Shelf for SureShelf {
    ghost use Rattle.std.specs.Prelude.{Some, true};
    ghost use Rattle.hv_bytes.specs.Files.{held_of};

    ghost held = { λ s. Some (held_of s.files) };

    ghost left = { λ s. Some s.left };

    ghost allows = { λ _ _. true };

    ghost faults = { λ _. 0 };

    fn open(&mut self, name: &str) -> Result<(), Failed>
        ensures ok { IsOk result }
        ensures left { self.new ≡ record self.old {
          left = bytes_of
              (held_of self.old.files) name.now;
        } }
        ensures cause { HasCause 0 0 result }
    {
        self.place = place_of(&self.entries, name);
        self.at = 0;
        Ok(())
    }

    fn read(&mut self, into: &mut [u8]) -> Result<usize, Failed>
        requires { 0 < length into.old }
        ensures count { result ≡ Ok (min (length into.old) (length self.old.left)) }
        ensures bound { ReadsAtMost result into.new }
        ensures bytes { ReadConsumes (Some self.old.left) (Some self.new.left) result into.new }
        ensures files { self.new.files ≡ self.old.files }
        ensures cause { HasCause 0 0 result }
    {
        let step = into.len();
        Ok(self.give(into, step))
    }
}

/// A sink that takes everything, never fails, and keeps the number of bytes alone.
#[derive(Drop)]
pub struct SureSink {
    count: u64,
}

impl Model for SureSink {
    ghost use Rattle.std.specs.Prelude.{ℕ};

    ghost Value = { ℕ };

    ghost view = { λ s. s.count };
}

impl SureSink {
    /// A sink that took nothing yet.
    pub fn new() -> SureSink
        ensures { result ≡ 0 }
    {
        SureSink { count: 0 }
    }

    /// How many bytes it took; the number stays at its greatest value once there.
    pub fn count(&self) -> u64
        ensures { result ≡ self.now }
    {
        self.count
    }
}

impl Sink for SureSink {
    ghost use Rattle.std.specs.Prelude.{None};

    ghost taken = { λ _. None };

    ghost faults = { λ _. 0 };

    fn write(&mut self, bytes: &[u8]) -> Result<usize, Failed>
        requires { 0 < length bytes.now }
        ensures all { result ≡ Ok (length bytes.now) }
        ensures count { self.new ≡ min (self.old + length bytes.now) (2 ^ 64 - 1) }
    {
        self.count = self.count.saturating_add(bytes.len() as u64);
        Ok(bytes.len())
    }
}

//! A shelf in memory that gives its bytes in pieces and fails at calls that it is told.

ghost use Rattle.std.specs.Prelude.{◌≡◌, ◌<◌, ◌≤◌, ◌≢◌, ◌⊎◌, ◌↔◌, ℕ, List, [], ◌∷◌, ◌++◌, length};
ghost use Rattle.std.specs.Prelude.{min, None, Some, Contains, IsErr, IfOk, OnOk, OnErr};
ghost use Rattle.std.specs.Io.{ReadsAtMost};
ghost use Rattle.std.specs.Io.KnownBytes.{Keeps, ReadConsumes};
ghost use Rattle.hv_bytes.specs.Devices.{HasCause, next_count};
ghost use Rattle.hv_bytes.specs.Files.{Opens, bytes_of, held_of};

use crate::outside::{Failed, Shelf};
use crate::schedule::Schedule;
use crate::sure::SureShelf;
use std::alloc::{AllocError, Global};
use std::marker::Model;

/// A shelf in memory that fails where it is told to.
#[derive(Drop)]
pub struct MemoryShelf {
    shelf: SureShelf,
    step: usize,
    schedule: Schedule,
}

impl Model for MemoryShelf {
    ghost use Rattle.std.specs.Prelude.{◌≤◌};
    ghost use Rattle.hv_bytes.specs.States.{ShelfState};

    ghost Value = { ShelfState };

    ghost view = { λ s. record {
      files = s.shelf.files;
      left = s.shelf.left;
      step = s.step;
      failing = s.schedule.failing.items;
      calls = s.schedule.calls;
      faults = s.schedule.faults;
    } };

    ghost invariant = { λ s. 1 ≤ s.step };
}

impl MemoryShelf {
    /// A shelf that holds no name yet. A read gives at most `step` bytes.
    pub fn new(alloc: Global, step: usize) -> MemoryShelf
        requires { 1 ≤ step }
        ensures { result ≡ record {
          files = [];
          left = [];
          step = step;
          failing = [];
          calls = 0;
          faults = 0;
        } }
    {
        MemoryShelf {
            shelf: SureShelf::new(alloc),
            step,
            schedule: Schedule::new(alloc),
        }
    }

    /// Adds a file. One of the same name that is there is replaced; if it is open, its bytes stay
    /// those that are left to be read.
    pub fn add(&mut self, name: &str, bytes: &[u8]) -> Result<(), AllocError>
        ensures ok { OnOk result (self.new ≡ record self.old {
          files = record { name = name.now; bytes = bytes.now } ∷ self.old.files;
        }) }
        ensures named { OnOk result (held_of self.new.files name.now ≡ Some bytes.now) }
        ensures others { OnOk result
            ((other : List ℕ) → other ≢ name.now
            → held_of self.new.files other ≡ held_of self.old.files other) }
        ensures err { OnErr result (self.new ≡ self.old) }
    {
        self.shelf.add(name, bytes)
    }

    /// Has the call of this number fail: the calls of `open` and `read` are numbered together from
    /// 1. The number of a call stays at its greatest value once there.
    pub fn fail_at(&mut self, call: u64) -> Result<(), AllocError>
        ensures ok { OnOk result (self.new
            ≡ record self.old { failing = self.old.failing ++ call ∷ [] }) }
        ensures err { OnErr result (self.new ≡ self.old) }
    {
        self.schedule.fail_at(call)
    }
}

impl Shelf for MemoryShelf {
    ghost use Rattle.std.specs.Prelude.{Some, true};
    ghost use Rattle.hv_bytes.specs.Files.{held_of};

    ghost held = { λ s. Some (held_of s.files) };

    ghost left = { λ s. Some s.left };

    ghost allows = { λ _ _. true };

    ghost faults = { λ s. s.faults };

    fn open(&mut self, name: &str) -> Result<(), Failed>
        ensures exactly { IsErr result
            ↔ (Contains self.new.failing self.new.calls
            ⊎ (held_of self.old.files name.now ≡ None)) }
        ensures ok { OnOk result (self.new ≡ record self.old {
          left = bytes_of (held_of self.old.files) name.now;
          calls = next_count self.old.calls;
        }) }
        ensures err { OnErr result (self.new ≡ record self.old {
          calls = next_count self.old.calls;
          faults = next_count self.old.faults;
        }) }
        ensures cause { HasCause self.old.faults self.new.faults result }
    {
        let named = self.schedule.next_call();
        if named || !self.shelf.holds(name) {
            return Err(self.schedule.fault());
        }
        self.shelf.open(name)
    }

    fn read(&mut self, into: &mut [u8]) -> Result<usize, Failed>
        requires { 0 < length into.old }
        ensures exactly { IsErr result ↔ Contains self.new.failing self.new.calls }
        ensures count { IfOk result
            (λ n. n ≡ min self.old.step (min (length into.old) (length self.old.left))) }
        ensures bound { ReadsAtMost result into.new }
        ensures bytes { ReadConsumes (Some self.old.left) (Some self.new.left) result into.new }
        ensures ok { OnOk result (self.new ≡ record self.old {
          left = self.new.left;
          calls = next_count self.old.calls;
        }) }
        ensures err { OnErr result (self.new ≡ record self.old {
          calls = next_count self.old.calls;
          faults = next_count self.old.faults;
        }) }
        ensures cause { HasCause self.old.faults self.new.faults result }
    {
        if self.schedule.next_call() {
            return Err(self.schedule.fault());
        }
        Ok(self.shelf.give(into, self.step))
    }
}

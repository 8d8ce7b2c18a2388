//! A sink in memory that takes bytes in pieces and fails at calls that it is told.

ghost use Rattle.std.specs.Prelude.{◌≡◌, ◌<◌, ◌≤◌, ◌-◌, ◌⊎◌, ◌↔◌, [], ◌∷◌, ◌++◌, length, take, min};
ghost use Rattle.std.specs.Prelude.{Contains, Some, IsErr, IfOk, OnOk, OnErr};
ghost use Rattle.std.specs.Io.KnownBytes.{WriteAppends};
ghost use Rattle.hv_bytes.specs.Devices.{HasCause, next_count};

use crate::outside::{Failed, Sink};
use crate::schedule::Schedule;
use std::alloc::{AllocError, Global};
use std::marker::Model;

/// A sink in memory, of a fixed room, that fails where it is told to.
#[derive(Drop)]
pub struct MemorySink {
    bytes: Vec<u8>,
    step: usize,
    room: usize,
    schedule: Schedule,
}

impl Model for MemorySink {
    ghost use Rattle.std.specs.Prelude.{◌≤◌, vec_len, vec_capacity};
    ghost use Rattle.hv_bytes.specs.States.{SinkState};

    ghost Value = { SinkState };

    ghost view = { λ s. record {
      taken = s.bytes.items;
      step = s.step;
      room = s.room;
      failing = s.schedule.failing.items;
      calls = s.schedule.calls;
      faults = s.schedule.faults;
    } };

    ghost invariant = { λ s. (1 ≤ s.step) × (vec_len s.bytes ≤ s.room)
        × (s.room ≤ vec_capacity s.bytes) };
}

impl MemorySink {
    /// A sink that takes at most `step` bytes in a write, and at most `room` bytes in all.
    pub fn new(alloc: Global, step: usize, room: usize) -> Result<MemorySink, AllocError>
        requires { 1 ≤ step }
        ensures { IfOk result (λ sink. sink ≡ record {
          taken = [];
          step = step;
          room = room;
          failing = [];
          calls = 0;
          faults = 0;
        }) }
    {
        let bytes = Vec::with_capacity(alloc, room)?;
        Ok(MemorySink {
            bytes,
            step,
            room,
            schedule: Schedule::new(alloc),
        })
    }

    /// Has the write of this number fail: the writes are numbered from 1. The number of a write
    /// stays at its greatest value once there.
    pub fn fail_at(&mut self, call: u64) -> Result<(), AllocError>
        ensures ok { OnOk result (self.new
            ≡ record self.old { failing = self.old.failing ++ call ∷ [] }) }
        ensures err { OnErr result (self.new ≡ self.old) }
    {
        self.schedule.fail_at(call)
    }

    /// The bytes that it took.
    pub fn bytes(&self) -> &[u8]
        ensures { result.now ≡ self.now.taken }
    {
        self.bytes.as_slice()
    }
}

impl Sink for MemorySink {
    ghost use Rattle.std.specs.Prelude.{Some};

    ghost taken = { λ s. Some s.taken };

    ghost faults = { λ s. s.faults };

    fn write(&mut self, bytes: &[u8]) -> Result<usize, Failed>
        requires { 0 < length bytes.now }
        ensures exactly { IsErr result
            ↔ (Contains self.new.failing self.new.calls ⊎ (self.old.room ≤ length self.old.taken)) }
        ensures some { IfOk result (λ n. 0 < n) }
        ensures count { IfOk result
            (λ n. n ≡ min (min self.old.step (length bytes.now))
            (self.old.room - length self.old.taken)) }
        ensures ok { IfOk result (λ n. self.new ≡ record self.old {
          taken = self.old.taken ++ take n bytes.now;
          calls = next_count self.old.calls;
        }) }
        ensures err { OnErr result (self.new ≡ record self.old {
          calls = next_count self.old.calls;
          faults = next_count self.old.faults;
        }) }
        ensures cause { HasCause self.old.faults self.new.faults result }
    {
        let named = self.schedule.next_call();
        let room = self.room - self.bytes.len();
        if named || room == 0 {
            return Err(self.schedule.fault());
        }
        let count = self.step.min(bytes.len()).min(room);
        match self.bytes.extend_from_slice(&bytes[..count]) {
            Ok(()) => Ok(count),
            Err(_) => unreachable!(),
        }
    }
}

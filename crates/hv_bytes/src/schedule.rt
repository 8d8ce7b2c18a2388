//! Which calls of a device in memory fail.

ghost use Rattle.std.specs.Prelude.{◌≡◌, ◌≤◌, [], ◌∷◌, ◌++◌, ◌↔◌, IsTrue, Contains, OnOk, OnErr};
ghost use Rattle.hv_bytes.specs.Devices.{next_count};

use crate::outside::Failed;
use std::alloc::{AllocError, Global};

/// Which calls of a device in memory fail. Its calls are numbered from 1.
#[derive(Drop)]
pub(crate) struct Schedule {
    pub(crate) failing: Vec<u64>,
    pub(crate) calls: u64,
    pub(crate) faults: u64,
}

impl Schedule {
    pub(crate) fn new(alloc: Global) -> Schedule
        ensures failing { result.failing.items ≡ [] }
        ensures calls { result.calls ≡ 0 }
        ensures faults { result.faults ≡ 0 }
    {
        Schedule {
            failing: Vec::new(alloc),
            calls: 0,
            faults: 0,
        }
    }

    /// Names one more call that is to fail.
    pub(crate) fn fail_at(&mut self, call: u64) -> Result<(), AllocError>
        ensures ok { OnOk result (self.new.failing.items ≡ self.old.failing.items ++ call ∷ []) }
        ensures err { OnErr result (self.new.failing.items ≡ self.old.failing.items) }
        ensures calls { self.new.calls ≡ self.old.calls }
        ensures faults { self.new.faults ≡ self.old.faults }
    {
        self.failing.push(call)?;
        Ok(())
    }

    /// Counts a call, and says whether it is one that is to fail.
    pub(crate) fn next_call(&mut self) -> bool
        ensures named { IsTrue result ↔ Contains self.new.failing.items self.new.calls }
        ensures calls { self.new.calls ≡ next_count self.old.calls }
        ensures failing { self.new.failing.items ≡ self.old.failing.items }
        ensures faults { self.new.faults ≡ self.old.faults }
    {
        self.calls = self.calls.saturating_add(1);
        self.failing.contains(&self.calls)
    }

    /// Counts a fault.
    pub(crate) fn fault(&mut self) -> Failed
        ensures faults { self.new.faults ≡ next_count self.old.faults }
        ensures later { self.old.faults ≤ self.new.faults }
        ensures calls { self.new.calls ≡ self.old.calls }
        ensures failing { self.new.failing.items ≡ self.old.failing.items }
    {
        self.faults = self.faults.saturating_add(1);
        Failed
    }
}

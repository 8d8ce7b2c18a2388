//! Standard output as a sink.
//!
//! It isn't flushed at the end: neither the program nor the kit keeps bytes back. A write that
//! takes nothing counts as a fault of the sink.

use crate::faults::Faults;
use hv_bytes::{Failed, Sink};

/// Standard output. Each error of the system, whatever its cause, counts as a fault, and so does a
/// write that takes nothing; a call that was interrupted is tried again, and any other error is
/// answered, also that of a descriptor which can't take anything at once and doesn't wait. A write
/// goes to the system at once, so nothing is kept that would have to be flushed.
#[derive(Drop)]
pub(crate) struct FileSink<'a> {
    rt: &'a HostRuntime,
    faults: Faults,
}

impl<'a> FileSink<'a> {
    pub(crate) fn new(rt: &'a HostRuntime) -> FileSink<'a> {
        FileSink {
            rt,
            faults: Faults::new(),
        }
    }
}

impl Sink for FileSink<'_> {
    ghost use Rattle.std.specs.Prelude.{None};

    ghost taken = { λ _. None };

    ghost faults = { λ s. s.faults.count };

    fn write(&mut self, bytes: &[u8]) -> Result<usize, Failed> {
        for _ in 0..u64::MAX {
            match self.rt.write_some(bytes) {
                Ok(0) => return Err(self.faults.fault()),
                Ok(count) => return Ok(count),
                Err(error) => self.faults.error(&error)?,
            }
        }
        Err(self.faults.fault())
    }
}

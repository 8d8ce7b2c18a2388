//! How many calls of a device failed.

ghost use Rattle.std.specs.Prelude.{◌≡◌, ◌≤◌, ◌↔◌, IsOk};
ghost use Rattle.std.specs.IoError.{error_kind};
ghost use Rattle.hv_bytes.specs.Devices.{Rose};

use hv_bytes::Failed;
use std::io::{Error, ErrorKind};

/// How many calls of a device met an error of the system. The count stays at its greatest value
/// once there.
#[derive(Drop)]
pub(crate) struct Faults {
    pub(crate) count: u64,
}

impl Faults {
    pub(crate) fn new() -> Faults {
        Faults { count: 0 }
    }

    /// Counts a fault.
    pub(crate) fn fault(&mut self) -> Failed
        ensures rose { Rose self.old.count self.new.count }
        ensures later { self.old.count ≤ self.new.count }
    {
        self.count = self.count.saturating_add(1);
        Failed
    }

    /// Counts an error of the system, whatever its cause. It is answered, but for that of a call
    /// which was interrupted: such a call is to be tried again.
    pub(crate) fn error(&mut self, error: &Error) -> Result<(), Failed>
        ensures rose { Rose self.old.count self.new.count }
        ensures later { self.old.count ≤ self.new.count }
        ensures again { IsOk result ↔ (error_kind error.now ≡ ErrorKind.Interrupted) }
    {
        let failed = self.fault();
        if error.kind() == ErrorKind::Interrupted {
            Ok(())
        } else {
            Err(failed)
        }
    }
}

//! The files of the system as a shelf.
//!
//! A missing file, a folder in a file's place, and each other error of the system while reading is
//! the read fault, with nothing written, but for a call that was interrupted: it is tried again,
//! and an interrupted read counts as a fault.

ghost use Rattle.std.specs.Io.{ReadsAtMost};
ghost use Rattle.hv_bytes.specs.Devices.{HasCause};

use crate::faults::Faults;
use hv_bytes::{Failed, Shelf};
use std::fs::File;
use std::io::Read;

/// The files of the system. Each error of the system, whatever its cause, counts as a fault; a call
/// that was interrupted is tried again, and any other error is answered, also that of a descriptor
/// which has nothing to give at once and doesn't wait. Nothing is said of what files hold.
#[derive(Drop)]
pub(crate) struct FileShelf<'a> {
    rt: &'a HostRuntime,
    /// The open file; a read before the first open gives no bytes.
    file: Option<File>,
    faults: Faults,
}

impl<'a> FileShelf<'a> {
    pub(crate) fn new(rt: &'a HostRuntime) -> FileShelf<'a> {
        FileShelf {
            rt,
            file: None,
            faults: Faults::new(),
        }
    }
}

impl Shelf for FileShelf<'_> {
    ghost use Rattle.std.specs.Prelude.{None, true};

    ghost held = { λ _. None };

    ghost left = { λ _. None };

    ghost allows = { λ _ _. true };

    ghost faults = { λ s. s.faults.count };

    fn open(&mut self, name: &str) -> Result<(), Failed> {
        for _ in 0..u64::MAX {
            match File::open(self.rt, name) {
                Ok(file) => {
                    self.file = Some(file);
                    return Ok(());
                }
                Err(error) => self.faults.error(&error)?,
            }
        }
        Err(self.faults.fault())
    }

    fn read(&mut self, into: &mut [u8]) -> Result<usize, Failed> {
        match &mut self.file {
            Some(file) => read_some(file, &mut self.faults, into),
            None => Ok(0),
        }
    }
}

// Reads the next bytes of the file into the prefix of `into`, and says how many.
fn read_some(file: &mut File, faults: &mut Faults, into: &mut [u8]) -> Result<usize, Failed>
    ensures bound { ReadsAtMost result into.new }
    ensures cause { HasCause faults.old.count faults.new.count result }
{
    for _ in 0..u64::MAX {
        match file.read(into) {
            Ok(count) => return Ok(count),
            Err(error) => faults.error(&error)?,
        }
    }
    Err(faults.fault())
}

//! The outside as contracts see it: shelves that files are read from, sinks that take bytes.

ghost use Rattle.std.specs.Prelude.{◌≡◌, ℕ, ◌<◌, ◌≤◌, Bool, List, Option, IsTrue, OnOk, OnErr};
ghost use Rattle.std.specs.Prelude.{IfOk, length};
ghost use Rattle.std.specs.Io.{ReadsAtMost};
ghost use Rattle.std.specs.Io.KnownBytes.{Keeps, ReadConsumes, WriteAppends};
ghost use Rattle.hv_bytes.specs.Devices.{HasCause};
ghost use Rattle.hv_bytes.specs.Files.{Names, Opens};

use thiserror::Error;

/// A device failed. What it holds and what it took are as before the call.
#[derive(Clone, Copy, Debug, PartialEq, Eq, Error)]
#[error("the device failed")]
pub struct Failed;

/// A place that files are read from, one at a time.
///
/// `held` tells what is under each name, nothing where the name isn't held, and `left` the
/// bytes that are still to be read of the open file; a shelf over real files tells neither.
/// `allows` says which names may be opened. `faults` counts the failed calls: it never falls, and
/// it stays at its greatest value once there.
pub trait Shelf {
    ghost held: { Self → Option Names };

    ghost left: { Self → Option (List ℕ) };

    ghost allows: { Self → List ℕ → Bool };

    ghost faults: { Self → ℕ };

    /// Opens the file of this name, from its start.
    fn open(&mut self, name: &str) -> Result<(), Failed>
        requires { IsTrue (allows self.old name.now) }
        ensures opened { OnOk result (Opens (held self.old) name.now (left self.new)) }
        ensures kept { OnErr result (Keeps (left self.old) (left self.new)) }
        ensures held { held self.new ≡ held self.old }
        ensures allows { allows self.new ≡ allows self.old }
        ensures cause { HasCause (faults self.old) (faults self.new) result };

    /// Reads the next bytes of the open file into the prefix of `into`, and says how many: 0
    /// exactly at its end.
    fn read(&mut self, into: &mut [u8]) -> Result<usize, Failed>
        requires { 0 < length into.old }
        ensures bound { ReadsAtMost result into.new }
        ensures bytes { ReadConsumes (left self.old) (left self.new) result into.new }
        ensures held { held self.new ≡ held self.old }
        ensures allows { allows self.new ≡ allows self.old }
        ensures cause { HasCause (faults self.old) (faults self.new) result };
}

/// A place that bytes are written to.
///
/// `taken` tells the bytes that it took so far; a sink over a real device doesn't tell them.
/// `faults` counts the failed calls, as at a `Shelf`.
pub trait Sink {
    ghost taken: { Self → Option (List ℕ) };

    ghost faults: { Self → ℕ };

    /// Takes some of the bytes from their prefix, and says how many. A device that takes none of
    /// them counts as a fault.
    fn write(&mut self, bytes: &[u8]) -> Result<usize, Failed>
        requires { 0 < length bytes.now }
        ensures some { IfOk result (λ n. 0 < n) }
        ensures bound { IfOk result (λ n. n ≤ length bytes.now) }
        ensures taken { WriteAppends (taken self.old) (taken self.new) result bytes.now }
        ensures cause { HasCause (faults self.old) (faults self.new) result };
}

//! All bytes of an answer, to a sink that may take them in pieces.

ghost use Rattle.std.specs.Prelude.{OnOk, OnErr};
ghost use Rattle.std.specs.Io.KnownBytes.{Appends};
ghost use Rattle.hv_bytes.specs.Devices.{AppendsFront, HasCause};

use crate::outside::{Failed, Sink};

/// Writes all the bytes, in as many pieces as the sink takes them.
pub fn send<K: Sink>(sink: &mut K, bytes: &[u8]) -> Result<(), Failed>
    ensures sent { OnOk result (Appends (K.taken sink.old) (K.taken sink.new) bytes.now) }
    ensures front { OnErr result (AppendsFront (K.taken sink.old) (K.taken sink.new) bytes.now) }
    ensures cause { HasCause (K.faults sink.old) (K.faults sink.new) result }
{
    let mut at = 0;
    'sending: while at < bytes.len() {
        at += sink.write(&bytes[at..])?;
    }
    Ok(())
}

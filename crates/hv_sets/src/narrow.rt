//! Lists of states in one byte an atom, where that takes much less memory: a task of a puzzle has
//! fewer than 256 atoms, and a state of it holds many of them.

ghost use Rattle.std.specs.Prelude.{◌≡◌, ◌<◌, ◌≤◌, ◌-◌, IfOk, IfSome, IsTrue, length};
ghost use Rattle.std.specs.List.{All};
ghost use Rattle.hv_sets.specs.Working.Pieces.{EndWithin, gathered};
ghost use Rattle.hv_sets.specs.Working.KeptStates.{AreShort, HasFewAtoms};

use crate::flat::{Flat, Parts};
use crate::listed_state::MOST_ATOMS;
use std::alloc::{AllocError, Global};

// States that hold fewer atoms than this, as a mean, stay as they are: they are read more quickly.
const MANY_ATOMS: usize = 8;

/// The states in one byte an atom, where no atom is above 255, none holds more than 64, and they
/// hold eight or more as a mean.
pub(crate) fn narrowed(alloc: Global, parts: Parts<'_, u32>) -> Result<Option<Flat<u8>>, AllocError>
    requires { EndWithin parts.items.now 0 parts.ends.now }
    ensures same { IfOk result (λ found. IfSome found (λ flat.
        flat ≡ gathered parts.entry.items.now parts.entry.ends.now)) }
    ensures short { IfOk result (λ found. IfSome found (λ flat. All HasFewAtoms flat.whole)) }
{
    if parts.items.len() / MANY_ATOMS < parts.ends.len() || !are_short(parts.ends) {
        return Ok(None);
    }
    let Some(items) = bytes_of(alloc, parts.items)? else {
        return Ok(None);
    };
    let ends = copy_of(alloc, parts.ends)?;
    Ok(Some(Flat::from_parts(items, ends)))
}

/// The states in four bytes an atom.
pub(crate) fn widened(alloc: Global, parts: Parts<'_, u8>) -> Result<Flat<u32>, AllocError>
    requires { EndWithin parts.items.now 0 parts.ends.now }
    ensures { IfOk result (λ flat.
        flat ≡ gathered parts.entry.items.now parts.entry.ends.now) }
{
    let mut items = Vec::with_capacity(alloc, parts.items.len())?;
    for item in parts.items {
        items.push(u32::from(*item))?;
    }
    let ends = copy_of(alloc, parts.ends)?;
    Ok(Flat::from_parts(items, ends))
}

// The items in one byte each, if each fits.
fn bytes_of(alloc: Global, items: &[u32]) -> Result<Option<Vec<u8>>, AllocError>
    ensures { IfOk result (λ found. IfSome found (λ bytes. bytes.items ≡ items.now)) }
{
    let mut bytes = vec![in alloc; 0; items.len()]?;
    if !put_bytes(bytes.as_mut_slice(), items) {
        return Ok(None);
    }
    Ok(Some(bytes))
}

// Puts the items into as many bytes, if each fits.
fn put_bytes(bytes: &mut [u8], items: &[u32]) -> bool
    requires { length bytes.old ≡ length items.now }
    ensures bytes { IsTrue result → bytes.new ≡ items.now }
    ensures length { length bytes.new ≡ length bytes.old }
{
    for (place, item) in items.iter().enumerate() {
        if *item > u32::from(u8::MAX) {
            return false;
        }
        bytes[place] = *item as u8;
    }
    true
}

fn copy_of(alloc: Global, ends: &[u32]) -> Result<Vec<u32>, AllocError>
    ensures { IfOk result (λ copy. copy.items ≡ ends.now) }
{
    let mut copy = Vec::with_capacity(alloc, ends.len())?;
    copy.extend_from_slice(ends)?;
    Ok(copy)
}

// Whether no piece with these ends has more than 64 items.
fn are_short(ends: &[u32]) -> bool
    ensures { IsTrue result → AreShort 0 ends.now }
{
    let mut start: u32 = 0;
    for end in ends {
        if end.saturating_sub(start) as usize > MOST_ATOMS {
            return false;
        }
        start = *end;
    }
    true
}

//! What is asked about with one sign, in order and once.

ghost use Rattle.std.specs.Prelude.{◌≡◌, ◌↔◌, ℕ, Bool, true, IfOk, IfSome, IsTrue};
ghost use Rattle.std.specs.BTreeSet.{IsOrdered};
ghost use Rattle.std.specs.List.{Contains};
ghost use Rattle.hv_lines.specs.Shapes.{AskedBefore, AskingsRise};
ghost use Rattle.hv_basic.specs.Sharing.{order};
ghost use Rattle.hv_basic.specs.Working.Asked.{AreChosen, AreKeys};

use crate::signed_sets::Asking;
use std::alloc::{AllocError, Global};
use std::collections::BTreeSet;

/// What is asked about with this sign: rising, and none twice.
pub(crate) fn in_order(
    alloc: Global,
    askings: &[Asking],
    positive: bool,
) -> Result<Vec<(usize, bool)>, AllocError>
    ensures rises { IfOk result (λ chosen. AskingsRise chosen.items) }
    ensures chosen { IfOk result (λ chosen. AreChosen askings.now positive chosen.items) }
{
    if let Some(chosen) = from_last(alloc, askings, positive)? {
        return Ok(chosen);
    }
    let keys = keys_of(alloc, askings, positive)?;
    let list = list_of(alloc, &keys)?;
    Ok(list)
}

/// The same, from the last to the first, if they rise so: leaves are gathered from the newest on.
fn from_last(
    alloc: Global,
    askings: &[Asking],
    positive: bool,
) -> Result<Option<Vec<(usize, bool)>>, AllocError>
    ensures rises { IfOk result (λ found. IfSome found (λ chosen. AskingsRise chosen.items)) }
    ensures chosen { IfOk result (λ found. IfSome found
        (λ chosen. AreChosen askings.now positive chosen.items)) }
{
    let mut chosen = Vec::new(alloc);
    for count in 0..askings.len() {
        let asking = askings[askings.len() - 1 - count];
        if has_sign(&asking, positive) {
            if !comes_last(&chosen, (asking.set, asking.after)) {
                return Ok(None);
            }
            chosen.push((asking.set, asking.after))?;
        }
    }
    Ok(Some(chosen))
}

/// Whether this comes behind all that is asked about.
fn comes_last(asked: &[(usize, bool)], next: (usize, bool)) -> bool
    requires { AskingsRise asked.now }
    ensures { result ≡ true → (a : ℕ × Bool) → Contains asked.now a → AskedBefore a next }
{
    let count = asked.len();
    if count > 0 {
        return comes_before(asked[count - 1], next);
    }
    true
}

/// Whether the one is asked about before the other.
fn comes_before(first: (usize, bool), second: (usize, bool)) -> bool
    ensures { result ≡ true → AskedBefore first second }
{
    if first.0 < second.0 {
        return true;
    }
    first.0 == second.0 && !first.1 && second.1
}

fn list_of(alloc: Global, keys: &BTreeSet<(usize, bool)>) -> Result<Vec<(usize, bool)>, AllocError>
    ensures list { IfOk result (λ list. list.items ≡ keys.now.keys) }
    ensures ordered { IsOrdered order keys.now }
{
    keys.iter().copied().collect(alloc)
}

fn keys_of(
    alloc: Global,
    askings: &[Asking],
    positive: bool,
) -> Result<BTreeSet<(usize, bool)>, AllocError>
    ensures { IfOk result (AreKeys askings.now positive) }
{
    let mut keys = BTreeSet::new(alloc);
    for asking in askings {
        if has_sign(asking, positive) {
            keys.insert((asking.set, asking.after))?;
        }
    }
    Ok(keys)
}

fn has_sign(asking: &Asking, positive: bool) -> bool
    ensures { IsTrue result ↔ (asking.now.positive ≡ positive) }
{
    asking.positive == positive
}

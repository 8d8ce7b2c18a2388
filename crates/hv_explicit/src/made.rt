//! Whether a list is found to be what an action makes of a state: one walk over both, which need
//! not find it. It is quicker than the exact one of `results`, where the lists are short; long ones
//! are left to that one.

ghost use Rattle.std.specs.Prelude.{◌≡◌, ◌<◌, ◌≤◌, ◌⊎◌, ℕ, IsTrue, false, length, slice_index};
ghost use Rattle.std.specs.List.{All, Contains};
ghost use Rattle.std.specs.List.Sorted.{IsStrictlyIncreasing};
ghost use Rattle.hv_task.specs.Atoms.{is_after};
ghost use Rattle.hv_explicit.specs.Working.Codes.{IsSame};

use crate::results::{has_no_other, is_result, named};
use hv_task::Action;

// A list of more atoms is long.
const SHORT: usize = 64;

/// Whether the list is found to be the result of the action in the state of these atoms.
pub(crate) fn is_found_result(list: &[u32], held: &[u32], action: &Action) -> bool
    requires list { IsStrictlyIncreasing list.now }
    requires held { IsStrictlyIncreasing held.now }
    ensures { IsTrue result → IsSame (is_after action.now held.now) list.now }
{
    if list.len() > SHORT {
        return is_result(list, held, action);
    }
    let add = action.add.as_slice();
    let del = action.del.as_slice();
    if !is_changed(list, held, add, del) {
        return false;
    }
    has_no_other(list, del, add)
}

// Whether the list has all that is added, beside it nothing that isn't held, and all that is held
// and isn't deleted.
fn is_changed(list: &[u32], held: &[u32], add: &[u32], del: &[u32]) -> bool
    requires { IsStrictlyIncreasing del.now }
    ensures added { IsTrue result → All (λ a. Contains list.now a) add.now }
    ensures listed { IsTrue result
        → All (λ a. Contains held.now a ⊎ Contains add.now a) list.now }
    ensures kept { IsTrue result
        → All (λ a. Contains list.now a ⊎ Contains del.now a) held.now }
{
    let mut kept = 0;
    let mut added = 0;
    for atom in list {
        let stand = past_deleted(held, del, kept, *atom);
        let next = past(held, stand, *atom);
        let more = past(add, added, *atom);
        if both_stay(stand, next, added, more) {
            return false;
        }
        kept = next;
        added = more;
    }
    let end = past_deleted(held, del, kept, u32::MAX);
    if !is_end(held, end) {
        return false;
    }
    is_end(add, added)
}

// Whether no place is passed in either list.
fn both_stay(stand: usize, next: usize, added: usize, more: usize) -> bool
    ensures { result ≡ false → (stand < next) ⊎ (added < more) }
{
    if stand < next {
        return false;
    }
    if added < more {
        return false;
    }
    true
}

// Whether nothing is left of the list from this place on.
fn is_end(list: &[u32], place: usize) -> bool
    ensures { IsTrue result → length list.now ≤ place }
{
    if place < list.len() {
        return false;
    }
    true
}

// The place behind those from this one on that are less than the atom and deleted.
fn past_deleted(held: &[u32], del: &[u32], place: usize, atom: u32) -> usize
    requires del { IsStrictlyIncreasing del.now }
    requires within { place ≤ length held.now }
    ensures from { place ≤ result }
    ensures within { result ≤ length held.now }
    ensures deleted { (k : ℕ) → place ≤ k → k < result
        → Contains del.now (slice_index held.now k) }
{
    let mut end = place;
    while end < held.len() && held[end] < atom && named(del, held[end]) {
        end += 1;
    }
    end
}

// The next place, where the list has the atom at this one, and else this place.
fn past(list: &[u32], place: usize, atom: u32) -> usize
    requires { place ≤ length list.now }
    ensures from { place ≤ result }
    ensures within { result ≤ length list.now }
    ensures only { (k : ℕ) → place ≤ k → k < result → slice_index list.now k ≡ atom }
{
    if place >= list.len() {
        return place;
    }
    if list[place] != atom {
        return place;
    }
    place + 1
}

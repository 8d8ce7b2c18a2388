//! Whether two sets cover all states, by the cubes outside the left one.

ghost use Rattle.std.specs.Prelude.{◌≡◌, ◌<◌, ◌≤◌, length, IfOk};
ghost use Rattle.hv_sets.specs.Cost.{IsAnswer};
ghost use Rattle.hv_sets.specs.Room.{KeepsLengths};
ghost use Rattle.hv_mixed.specs.Inclusion.{complement, difference};

use hv_paths::{OutsideAsked, OutsideWalked, meet_along};
use hv_sets::{Finding, Scratch};
use std::alloc::{AllocError, Global};

/// Whether the complement of the left set is within the right one: Over exactly where the walk over
/// the states outside the left set has more steps than the budget; else Clash exactly where a state
/// is in neither, and such a state then is in the scratch; else Empty.
///
/// A set takes part by the traits of `hv_paths`: a type with those of `hv_sets` has them by one
/// line each, with the plain walks and questions of that crate.
pub fn together<'a, L: OutsideWalked<'a>, R: OutsideAsked<'a>>(
    alloc: Global,
    left: &'a L,
    right: &'a R,
    budget: u64,
    scratch: &mut Scratch,
) -> Result<Finding, AllocError>
    requires atoms { L.atoms left.now ≡ R.atoms right.now }
    requires budget { budget ≤ 16777216 }
    ensures answer { IfOk result
        (λ found. IsAnswer found (budget < length (L.outside left.now)) (L.atoms left.now)
        (difference (complement (L.has left.now)) (R.has right.now)) scratch.new.state) }
    ensures lengths { KeepsLengths scratch.old scratch.new }
{
    if left.outside_count(alloc, budget)? > budget {
        return Ok(Finding::Over);
    }
    let mut walk = left.walk_outside(alloc, right.places_outside())?;
    let mut asked = right.ask_outside(alloc)?;
    if meet_along(alloc, &mut walk, &mut asked, scratch)? {
        Ok(Finding::Clash)
    } else {
        Ok(Finding::Empty)
    }
}

//! Whether two sets are apart, by the cubes of the left one.

ghost use Rattle.std.specs.Prelude.{◌≡◌, ◌<◌, ◌≤◌, length, IfOk};
ghost use Rattle.hv_sets.specs.Cost.{IsAnswer};
ghost use Rattle.hv_sets.specs.Room.{KeepsLengths};
ghost use Rattle.hv_mixed.specs.Inclusion.{complement, difference};

use hv_paths::{InsideAsked, InsideWalked, meet_along};
use hv_sets::{Finding, Scratch};
use std::alloc::{AllocError, Global};

/// Whether the left set is within the complement of the right one: Over exactly where the walk over
/// the left set has more steps than the budget; else Clash exactly where a state is in both, and
/// such a state then is in the scratch; else Empty.
///
/// A set takes part by the traits of `hv_paths`: a type with those of `hv_sets` has them by one
/// line each, with the plain walks and questions of that crate.
pub fn apart<'a, L: InsideWalked<'a>, R: InsideAsked<'a>>(
    alloc: Global,
    left: &'a L,
    right: &'a R,
    budget: u64,
    scratch: &mut Scratch,
) -> Result<Finding, AllocError>
    requires atoms { L.atoms left.now ≡ R.atoms right.now }
    requires budget { budget ≤ 16777216 }
    ensures answer { IfOk result
        (λ found. IsAnswer found (budget < length (L.inside left.now)) (L.atoms left.now)
        (difference (L.has left.now) (complement (R.has right.now))) scratch.new.state) }
    ensures lengths { KeepsLengths scratch.old scratch.new }
{
    if left.inside_count(alloc, budget)? > budget {
        return Ok(Finding::Over);
    }
    let mut walk = left.walk_inside(alloc)?;
    let mut asked = right.ask_inside(alloc)?;
    if meet_along(alloc, &mut walk, &mut asked, scratch)? {
        Ok(Finding::Clash)
    } else {
        Ok(Finding::Empty)
    }
}

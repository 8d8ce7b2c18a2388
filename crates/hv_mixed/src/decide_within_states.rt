//! Whether a set is within another, by its own cubes.

ghost use Rattle.std.specs.Prelude.{◌≡◌, ◌<◌, ◌≤◌, length, IfOk};
ghost use Rattle.hv_sets.specs.Cost.{IsAnswer};
ghost use Rattle.hv_sets.specs.Room.{KeepsLengths};
ghost use Rattle.hv_mixed.specs.Inclusion.{difference};

use hv_paths::{InsideWalked, OutsideAsked, meet_along};
use hv_sets::{Finding, Scratch};
use std::alloc::{AllocError, Global};

/// The same as `within`, by the walk over the left set: Over exactly where that has more steps than
/// the budget.
///
/// A set takes part by the traits of `hv_paths`: a type with those of `hv_sets` has them by one
/// line each, with the plain walks and questions of that crate.
pub fn within_states<'a, L: InsideWalked<'a>, R: OutsideAsked<'a>>(
    alloc: Global,
    left: &'a L,
    right: &'a R,
    budget: u64,
    scratch: &mut Scratch,
) -> Result<Finding, AllocError>
    requires atoms { L.atoms left.now ≡ R.atoms right.now }
    requires budget { budget ≤ 16777216 }
    ensures answer { IfOk result
        (λ found. IsAnswer found (budget < length (L.inside left.now)) (L.atoms left.now)
        (difference (L.has left.now) (R.has right.now)) scratch.new.state) }
    ensures lengths { KeepsLengths scratch.old scratch.new }
{
    if left.inside_count(alloc, budget)? > budget {
        return Ok(Finding::Over);
    }
    let mut walk = left.walk_inside(alloc)?;
    let mut asked = right.ask_outside(alloc)?;
    if meet_along(alloc, &mut walk, &mut asked, scratch)? {
        Ok(Finding::Clash)
    } else {
        Ok(Finding::Empty)
    }
}

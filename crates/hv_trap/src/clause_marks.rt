//! Which clauses are left while an action is visited: a mark for each, so that nothing is copied
//! before the visit ends.

ghost use Rattle.std.specs.Prelude.{◌≡◌, ◌++◌, ◌∷◌, ◌<◌, ◌&&◌, [], ℕ, Bool, List, length, IfOk};
ghost use Rattle.std.specs.Prelude.{OnOk, false, true, replicate, slice_index_or};
ghost use Rattle.std.specs.List.{filter};
ghost use Rattle.hv_sets.specs.declared.literal.Literal.{Literal};
ghost use Rattle.hv_trap.specs.Working.Marks.{AreMarks};

use hv_sets::{Clauses, Literal};
use std::alloc::{AllocError, Global};

/// Marks so many clauses as left.
pub(crate) fn leave_all(left: &mut Vec<bool>, count: usize) -> Result<(), AllocError>
    ensures { OnOk result (left.new.items ≡ replicate count true) }
{
    left.clear();
    left.resize(count, true)?;
    Ok(())
}

/// The clauses that are left, in order.
pub(crate) fn left_of(
    alloc: Global,
    clauses: &Clauses,
    left: &Vec<bool>,
) -> Result<Clauses, AllocError>
    requires { length left.now.items ≡ length clauses.now }
    ensures { IfOk result (λ kept. (stays : List Literal → Bool)
        → AreMarks stays clauses.now left.now.items → kept ≡ filter stays clauses.now) }
{
    let mut kept = Clauses::new(alloc);
    for place in 0..clauses.len() {
        put_left(&mut kept, clauses.get(place), left[place])?;
    }
    Ok(kept)
}

// Puts the clause, if it is left.
fn put_left(kept: &mut Clauses, clause: &[Literal], left: bool) -> Result<(), AllocError>
    ensures { OnOk result ((stays : List Literal → Bool) → left ≡ stays clause.now
        → kept.new ≡ kept.old ++ filter stays (clause.now ∷ [])) }
{
    if left {
        kept.push_literals(clause)?;
    }
    Ok(())
}

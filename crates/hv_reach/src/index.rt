//! Which actions ask for an atom. A pruner makes the index of its task at the first question after
//! it was begun, and keeps it: what fits says whose index it is. Once it was asked, a pruner fits
//! drafts of that task alone, until it is begun.

ghost use Rattle.std.specs.Prelude.{◌≡◌, ◌<◌, ◌+◌, ℕ, length, IfOk, OnOk};
ghost use Rattle.std.specs.List.{All};
ghost use Rattle.hv_task.specs.State.{AreBelow};
ghost use Rattle.hv_rows.specs.Rows.{IsInRow, RowsBelow};
ghost use Rattle.hv_reach.specs.Index.{IsTaskIndex};

use hv_rows::{empty_rows, enter};
use hv_task::Task;
use std::alloc::{AllocError, Global};

/// The actions of each atom, by number; in a last row those without precondition.
pub(crate) fn index(alloc: Global, task: &Task) -> Result<Vec<Vec<u32>>, AllocError>
    ensures { IfOk result (λ rows. IsTaskIndex task.now rows.items) }
{
    let mut rows = empty_rows(alloc, task.atoms() + 1)?;
    for number in 0..task.actions() {
        enter_action(
            task.atoms(),
            &mut rows,
            task.action(number).pre.as_slice(),
            number,
        )?;
    }
    Ok(rows)
}

// Puts the number into the rows of these places, or where there is none, into that past the atoms.
fn enter_action(
    atoms: u32,
    rows: &mut Vec<Vec<u32>>,
    places: &[u32],
    number: u32,
) -> Result<(), AllocError>
    requires size { length rows.old.items ≡ atoms + 1 }
    requires below { AreBelow atoms places.now }
    ensures size { length rows.new.items ≡ length rows.old.items }
    ensures keeps { OnOk result ((p k : ℕ) → IsInRow rows.old.items p k
        → IsInRow rows.new.items p k) }
    ensures has { OnOk result (All (λ p. IsInRow rows.new.items p number) places.now) }
    ensures past { OnOk result (length places.now ≡ 0 → IsInRow rows.new.items atoms number) }
    ensures below { OnOk result ((bound : ℕ) → number < bound
        → RowsBelow bound rows.old.items → RowsBelow bound rows.new.items) }
{
    if places.len() == 0 {
        enter(rows, atoms, number)?;
        return Ok(());
    }
    enter_all(rows, places, number)?;
    Ok(())
}

// Puts the number into the rows of these places.
fn enter_all(rows: &mut Vec<Vec<u32>>, places: &[u32], number: u32) -> Result<(), AllocError>
    requires { AreBelow (length rows.old.items) places.now }
    ensures size { length rows.new.items ≡ length rows.old.items }
    ensures keeps { OnOk result ((p k : ℕ) → IsInRow rows.old.items p k
        → IsInRow rows.new.items p k) }
    ensures has { OnOk result (All (λ p. IsInRow rows.new.items p number) places.now) }
    ensures below { OnOk result ((bound : ℕ) → number < bound
        → RowsBelow bound rows.old.items → RowsBelow bound rows.new.items) }
{
    for place in places {
        enter(rows, *place, number)?;
    }
    Ok(())
}

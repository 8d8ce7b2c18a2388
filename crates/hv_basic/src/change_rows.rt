//! The actions of a task in rows, by atoms that they change.

ghost use Rattle.std.specs.Prelude.{◌≡◌, ℕ, length, true, IfOk, OnOk};
ghost use Rattle.std.specs.List.{Contains};
ghost use Rattle.hv_task.specs.State.{AreBelow};
ghost use Rattle.hv_rows.specs.Rows.{IsInRow};
ghost use Rattle.hv_basic.specs.ChangeRows.{AreChangeRows, AreRowsTo, changed_to};

use hv_rows::{empty_rows, enter};
use hv_task::{Action, Task};
use std::alloc::{AllocError, Global};

/// The actions of a task, each in the row of each atom that it adds, and of each that it deletes.
#[derive(Drop)]
pub(crate) struct ChangeRows {
    pub adds: Vec<Vec<u32>>,
    pub deletes: Vec<Vec<u32>>,
}

/// The actions of the task in rows by atoms that they change.
pub(crate) fn change_rows(alloc: Global, task: &Task) -> Result<ChangeRows, AllocError>
    ensures { IfOk result (AreChangeRows task.now) }
{
    let adds = rows_to(alloc, task, true)?;
    let deletes = rows_to(alloc, task, false)?;
    Ok(ChangeRows { adds, deletes })
}

/// The actions in rows by atoms that they add, or by atoms that they delete.
fn rows_to(alloc: Global, task: &Task, adds: bool) -> Result<Vec<Vec<u32>>, AllocError>
    ensures { IfOk result (λ rows. AreRowsTo adds task.now rows.items) }
{
    let mut rows = empty_rows(alloc, task.atoms())?;
    for number in 0..task.actions() {
        enter_all(&mut rows, changed_to(task.action(number), adds), number)?;
    }
    Ok(rows)
}

/// The atoms that the action adds, or those that it deletes.
pub(crate) fn changed_to(action: &Action, adds: bool) -> &[u32]
    ensures { result.now ≡ changed_to adds action.now }
{
    if adds {
        action.add.as_slice()
    } else {
        action.del.as_slice()
    }
}

/// Puts the number into the rows of these atoms.
fn enter_all(rows: &mut Vec<Vec<u32>>, atoms: &[u32], number: u32) -> Result<(), AllocError>
    requires { AreBelow (length rows.old.items) atoms.now }
    ensures size { length rows.new.items ≡ length rows.old.items }
    ensures keeps { OnOk result ((p k : ℕ) → IsInRow rows.old.items p k
        → IsInRow rows.new.items p k) }
    ensures has { OnOk result ((p : ℕ) → Contains atoms.now p → IsInRow rows.new.items p number) }
{
    for atom in atoms {
        enter(rows, *atom, number)?;
    }
    Ok(())
}

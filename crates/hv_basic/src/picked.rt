//! Actions that are picked out by their numbers.

ghost use Rattle.std.specs.Prelude.{◌<◌, ◌⊎◌, ℕ, OnOk};
ghost use Rattle.std.specs.List.{Contains};

use hv_task::AtomSet;
use std::alloc::AllocError;

/// Puts in the numbers of the row, if they are among so many.
pub(crate) fn put_row(row: &[u32], actions: u32, found: &mut AtomSet) -> Result<(), AllocError>
    ensures kept { OnOk result ((k : ℕ) → Contains found.old k → Contains found.new k) }
    ensures has { OnOk result ((k : ℕ) → Contains row.now k → k < actions
        → Contains found.new k) }
    ensures below { OnOk result ((k : ℕ) → Contains found.new k
        → Contains found.old k ⊎ (k < actions)) }
{
    for number in row {
        put(*number, actions, found)?;
    }
    Ok(())
}

/// Puts the number in, if it is among so many.
pub(crate) fn put(number: u32, actions: u32, found: &mut AtomSet) -> Result<(), AllocError>
    ensures kept { OnOk result ((k : ℕ) → Contains found.old k → Contains found.new k) }
    ensures has { OnOk result (number < actions → Contains found.new number) }
    ensures below { OnOk result ((k : ℕ) → Contains found.new k
        → Contains found.old k ⊎ (k < actions)) }
{
    if number >= actions {
        return Ok(());
    }
    found.insert(number)?;
    Ok(())
}

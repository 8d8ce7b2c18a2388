//! Rows to which numbers are put one by one.

ghost use Rattle.std.specs.Prelude.{◌≡◌, ◌<◌, ℕ, length, IfOk, OnOk};
ghost use Rattle.hv_rows.specs.Rows.{HasEntered, RowsBelow};

use std::alloc::{AllocError, Global};

/// So many rows, in which there is no number.
pub fn empty_rows(alloc: Global, count: u32) -> Result<Vec<Vec<u32>>, AllocError>
    ensures size { IfOk result (λ rows. length rows.items ≡ count) }
    ensures below { IfOk result (λ rows. (bound : ℕ) → RowsBelow bound rows.items) }
{
    let mut rows = Vec::new(alloc);
    for place in 0..count {
        let _ = place;
        rows.push(Vec::new(alloc))?;
    }
    Ok(rows)
}

/// Puts the number at the end of the row of this place.
pub fn enter(rows: &mut Vec<Vec<u32>>, place: u32, number: u32) -> Result<(), AllocError>
    requires { place < length rows.old.items }
    ensures size { length rows.new.items ≡ length rows.old.items }
    ensures entered { OnOk result (HasEntered place number rows.old.items rows.new.items) }
{
    rows[place as usize].push(number)?;
    Ok(())
}

//! The actions of a task in rows, by atoms of their preconditions.

ghost use Rattle.std.specs.Prelude.{◌≡◌, ◌<◌, ◌⊎◌, length, IfOk};
ghost use Rattle.std.specs.List.{Contains};
ghost use Rattle.hv_task.specs.State.{AreBelow};
ghost use Rattle.hv_rows.specs.ActionRows.{AreActionRows};

use crate::entering::{empty_rows, enter};
use hv_task::Task;
use std::alloc::{AllocError, Global};

/// The actions of the task in a row for each atom and one past them: each is in the row of an atom
/// of its precondition, or in the last row.
pub fn action_rows(alloc: Global, task: &Task) -> Result<Vec<Vec<u32>>, AllocError>
    ensures { IfOk result (λ rows. AreActionRows task.now rows.items) }
{
    let past = task.atoms();
    let mut rows = empty_rows(alloc, past + 1)?;
    for number in 0..task.actions() {
        let place = place_for(&rows, task.action(number).pre.as_slice(), past);
        enter(&mut rows, place, number)?;
    }
    Ok(rows)
}

// The atom whose row is the shortest; where there is none, the place past the atoms.
fn place_for(rows: &[Vec<u32>], atoms: &[u32], past: u32) -> u32
    requires { AreBelow (length rows.now) atoms.now }
    ensures { Contains atoms.now result ⊎ (result ≡ past) }
{
    if atoms.is_empty() {
        return past;
    }
    let mut place = atoms[0];
    for atom in atoms {
        place = shorter(rows, place, *atom);
    }
    place
}

// The one of two places whose row is shorter.
fn shorter(rows: &[Vec<u32>], place: u32, other: u32) -> u32
    requires place { place < length rows.now }
    requires other { other < length rows.now }
    ensures { (result ≡ place) ⊎ (result ≡ other) }
{
    if rows[other as usize].len() < rows[place as usize].len() {
        other
    } else {
        place
    }
}

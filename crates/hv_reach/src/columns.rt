//! Columns of a block of rows: for each atom, at which places of the block the row has it. A block
//! has 512 rows, each column being a state of 512 "atoms", so that meeting columns and finding the
//! first flag are the proved calls of states, and nothing is proved of words anew.

ghost use Rattle.std.specs.Prelude.{◌≡◌, ◌<◌, ℕ, [], true, false, length, IfOk, slice_index_or};
ghost use Rattle.hv_task.specs.State.{AreBelow, has_atom};
ghost use Rattle.hv_reach.specs.Working.NoteRows.{AreColumns, ColumnsHave, IsFirstPlace};
ghost use Rattle.hv_reach.specs.Reached.{has_pair};

use hv_task::{Atoms, Hint, State};
use std::alloc::{AllocError, Global};

/// So many states that hold nothing, each over so many atoms: the columns of a block without rows.
pub(crate) fn empty_states(alloc: Global, count: u32, atoms: u32) -> Result<Vec<State>, AllocError>
    ensures size { IfOk result (λ states. length states.items ≡ count) }
    ensures columns { IfOk result (λ states. AreColumns atoms states.items) }
    ensures none { IfOk result (λ states. (p j : ℕ) → has_pair states.items p j ≡ false) }
{
    let mut states = Vec::new(alloc);
    for place in 0..count {
        let _ = place;
        states.push(State::empty(alloc, atoms)?)?;
    }
    Ok(states)
}

/// Writes the row at this place.
pub(crate) fn enter(columns: &mut Vec<State>, place: u32, row: &State)
    requires place { place < 512 }
    requires columns { AreColumns 512 columns.old.items }
    requires row { length row.now ≡ length columns.old.items }
    ensures size { length columns.new.items ≡ length columns.old.items }
    ensures columns { AreColumns 512 columns.new.items }
    ensures here { (p : ℕ) → p < length columns.old.items
        → has_pair columns.new.items p place ≡ has_atom row.now p }
    ensures others { (p j : ℕ) → (j ≡ place → ⊥)
        → has_pair columns.new.items p j ≡ has_pair columns.old.items p j }
{
    for atom in 0..row.atoms() {
        put(columns, atom, place, row.has(atom));
    }
}

// Writes whether the row at this place has the atom.
fn put(columns: &mut Vec<State>, atom: u32, place: u32, held: bool)
    requires place { place < 512 }
    requires columns { AreColumns 512 columns.old.items }
    requires atom { atom < length columns.old.items }
    ensures size { length columns.new.items ≡ length columns.old.items }
    ensures columns { AreColumns 512 columns.new.items }
    ensures here { has_pair columns.new.items atom place ≡ held }
    ensures atoms { (p j : ℕ) → (p ≡ atom → ⊥)
        → has_pair columns.new.items p j ≡ has_pair columns.old.items p j }
    ensures places { (p j : ℕ) → (j ≡ place → ⊥)
        → has_pair columns.new.items p j ≡ has_pair columns.old.items p j }
{
    columns[atom as usize].set(place, held);
}

/// The first place of the block, from this one on, whose row has each of these atoms. There are
/// some.
pub(crate) fn first_in(
    columns: &Vec<State>,
    mask: &mut State,
    list: &[u32],
    from: usize,
) -> Option<usize>
    requires columns { AreColumns 512 columns.now.items }
    requires below { AreBelow (length columns.now.items) list.now }
    requires some { 0 < length list.now }
    requires mask { length mask.old ≡ 512 }
    ensures mask { length mask.new ≡ 512 }
    ensures found { IsFirstPlace (ColumnsHave columns.now.items list.now) 512 from result }
{
    if from >= 512 {
        return None;
    }
    meet_columns(columns, mask, list);
    let place = mask.next(from as u32, &mut Hint::default())?;
    Some(place as usize)
}

// Makes the mask that of the places whose rows have each of these atoms.
fn meet_columns(columns: &Vec<State>, mask: &mut State, list: &[u32])
    requires columns { AreColumns 512 columns.now.items }
    requires below { AreBelow (length columns.now.items) list.now }
    requires some { 0 < length list.now }
    requires mask { length mask.old ≡ 512 }
    ensures size { length mask.new ≡ 512 }
    ensures sound { (j : ℕ) → has_atom mask.new j ≡ true
        → ColumnsHave columns.now.items list.now j }
    ensures complete { (j : ℕ) → ColumnsHave columns.now.items list.now j
        → has_atom mask.new j ≡ true }
{
    mask.copy_from(&columns[list[0] as usize]);
    for atom in list {
        mask.meet(&columns[*atom as usize]);
    }
}

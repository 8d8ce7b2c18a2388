//! What was reached for each note, kept by atom too, so that the first note is found that has all
//! atoms of a state.
//!
//! Beside each note is what was reached when it was written: a row of atoms, or such a row for each
//! atom where pairs were reached. A state is in the note's formula exactly where it holds nothing
//! else. The notes are asked all at once, by atom: for each atom a column has a flag for each note,
//! which says whether the note's row has the atom (`columns`). The notes that answer for a state
//! are those in the columns of all its atoms, met 64 notes a word, and the first of them answers.
//! Where pairs were reached, the columns are of the atoms that are in a pair with themselves, and a
//! note that is in all of them is asked by its table.

ghost use Rattle.std.specs.Prelude.{◌≡◌, ◌<◌, ◌≤◌, ◌+◌, ◌*◌, ◌∷◌, ◌++◌, [], ℕ, length, IfOk};
ghost use Rattle.std.specs.Prelude.{MatchOption, OnOk, OnErr, slice_index_or, vec_capacity};
ghost use Rattle.std.specs.Prelude.{vec_len};
ghost use Rattle.hv_task.specs.State.{AreBelow};
ghost use Rattle.hv_reach.specs.Working.NoteRows.{AreRowsIn, AreRowsOver, IsFirstPlace, RowHas};

use crate::columns::{empty_states, enter, first_in};
use hv_task::State;
use std::alloc::{AllocError, Global};
use std::marker::Model;

// How many rows are in a block.
const BLOCK: usize = 512;

/// A row of atoms for each note, and the same rows by atom.
///
/// A row with all of some atoms is found by the columns of these atoms, 64 rows at a time.
#[derive(Drop)]
pub(crate) struct NoteRows {
    rows: Vec<State>,
    // For each 512 rows a column for each atom.
    blocks: Vec<Vec<State>>,
    // Of how many atoms there are columns.
    atoms: u32,
}

impl Model for NoteRows {
    ghost use Rattle.hv_reach.specs.Working.NoteRows.{AreRowsIn, KeptRows, room_in};

    ghost Value = { KeptRows };

    ghost view = { λ kept. record {
      rows = kept.rows.items;
      atoms = kept.atoms;
      room = room_in kept.rows kept.blocks.items;
    } };

    ghost invariant = { λ kept. AreRowsIn kept.atoms kept.blocks.items kept.rows.items };
}

impl NoteRows {
    /// No rows.
    pub(crate) fn new(alloc: Global) -> NoteRows
        ensures { result.rows ≡ [] }
    {
        NoteRows {
            rows: Vec::new(alloc),
            blocks: Vec::new(alloc),
            atoms: 0,
        }
    }

    /// Takes all rows out.
    pub(crate) fn clear(&mut self)
        ensures { self.new.rows ≡ [] }
    {
        self.rows.clear();
        self.blocks.clear();
    }

    /// Makes space for a further row, over as many atoms as the others.
    pub(crate) fn reserve(&mut self, alloc: Global, atoms: u32) -> Result<(), AllocError>
        requires { AreRowsOver atoms self.old.rows }
        ensures rows { self.new.rows ≡ self.old.rows }
        ensures atoms { OnOk result (self.new.atoms ≡ atoms) }
        ensures room { OnOk result (0 < self.new.room) }
    {
        if self.rows.len() == 0 {
            self.blocks.clear();
            self.atoms = atoms;
        }
        self.rows.reserve(1)?;
        make_room(alloc, &self.rows, &mut self.blocks, atoms)
    }

    /// Puts a row last, for which there is room.
    pub(crate) fn push_reserved(&mut self, row: State)
        requires over { length row ≡ self.old.atoms }
        requires room { 0 < self.old.room }
        ensures { self.new.rows ≡ self.old.rows ++ row ∷ [] }
    {
        put_row(&mut self.rows, &mut self.blocks, row);
    }

    /// The first row from this place on that has each of these atoms.
    pub(crate) fn first(
        &self,
        alloc: Global,
        list: &[u32],
        from: usize,
    ) -> Result<Option<usize>, AllocError>
        requires { (k : ℕ) → k < length self.now.rows
            → AreBelow (length (slice_index_or self.now.rows k [])) list.now }
        ensures { IfOk result
            (IsFirstPlace (RowHas self.now.rows list.now) (length self.now.rows) from) }
    {
        if list.len() == 0 || self.rows.len() == 0 {
            return Ok(place_from(self.rows.len(), from));
        }
        let mut mask = empty_mask(alloc, BLOCK as u32)?;
        Ok(first_row(&self.rows, &self.blocks, &mut mask, list, from))
    }
}

// The state that holds none of so many atoms.
fn empty_mask(alloc: Global, room: u32) -> Result<State, AllocError>
    ensures { IfOk result (λ mask. length mask ≡ room) }
{
    State::empty(alloc, room)
}

// The first place below a bound, from this one on.
fn place_from(bound: usize, from: usize) -> Option<usize>
    ensures { MatchOption result (bound ≤ from) (λ place. (place ≡ from) × (from < bound)) }
{
    if from < bound {
        return Some(from);
    }
    None
}

// The first row from this place on that has each of these atoms. There are atoms and rows.
fn first_row(
    rows: &Vec<State>,
    blocks: &Vec<Vec<State>>,
    mask: &mut State,
    list: &[u32],
    from: usize,
) -> Option<usize>
    requires rows { (atoms : ℕ) × AreRowsIn atoms blocks.now.items rows.now.items }
    requires below { (k : ℕ) → k < length rows.now.items
        → AreBelow (length (slice_index_or rows.now.items k [])) list.now }
    requires some { 0 < length list.now }
    requires any { 0 < length rows.now.items }
    requires mask { length mask.old ≡ 512 }
    ensures { IsFirstPlace (RowHas rows.now.items list.now) (length rows.now.items) from result }
{
    let count = rows.len();
    for block in 0..blocks.len() {
        let start = BLOCK * block;
        if let Some(place) = first_in(&blocks[block], mask, list, from.saturating_sub(start)) {
            return Some(start + place);
        }
    }
    let _ = count;
    None
}

// Puts a row last.
fn put_row(rows: &mut Vec<State>, blocks: &mut Vec<Vec<State>>, row: State)
    requires kept { AreRowsIn (length row) blocks.old.items rows.old.items }
    requires room { length rows.old.items < 512 * length blocks.old.items }
    requires capacity { vec_len rows.old < vec_capacity rows.old }
    ensures kept { AreRowsIn (length row) blocks.new.items rows.new.items }
    ensures rows { rows.new.items ≡ rows.old.items ++ row ∷ [] }
{
    let last = blocks.len() - 1;
    let place = rows.len() - last * BLOCK;
    enter(&mut blocks[last], place as u32, &row);
    rows.push_reserved(row);
}

// Puts a further block, where the others are full.
fn make_room(
    alloc: Global,
    rows: &Vec<State>,
    blocks: &mut Vec<Vec<State>>,
    atoms: u32,
) -> Result<(), AllocError>
    requires { AreRowsIn atoms blocks.old.items rows.now.items }
    ensures kept { AreRowsIn atoms blocks.new.items rows.now.items }
    ensures room { OnOk result (length rows.now.items < 512 * length blocks.new.items) }
{
    if rows.len() / BLOCK < blocks.len() {
        return Ok(());
    }
    blocks.push(empty_states(alloc, atoms, BLOCK as u32)?)?;
    Ok(())
}

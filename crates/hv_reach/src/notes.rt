//! Notes of formulas whose states are dead.

ghost use Rattle.std.specs.Prelude.{◌≡◌, ◌<◌, ◌≤◌, ◌+◌, ◌++◌, [], ◌∷◌, length, IfOk, OnOk, OnErr};
ghost use Rattle.std.specs.Prelude.{vec_capacity, vec_len};
ghost use Rattle.hv_task.specs.Strips.{IsTask};
ghost use Rattle.hv_lines.specs.Drafts.{IsGoodTable, most_lines, onto};
ghost use Rattle.hv_lines.specs.Numbering.{expr_count, known_count};
ghost use Rattle.hv_reach.specs.Working.NoteRows.{AreRowsOver};
ghost use Rattle.hv_reach.specs.Written.{dead_block};
ghost use Rattle.hv_reach.specs.Working.Written.{IsDeadEnd};

use crate::horn_proof::dead_block;
use crate::note_rows::NoteRows;
use hv_lines::{Draft, Note};
use hv_sets::Clauses;
use hv_task::{State, Task};
use std::alloc::{AllocError, Global};

/// What was written, in order, and for each note a row of the atoms that were reached.
#[derive(Drop)]
pub(crate) struct Noted {
    pub(crate) notes: Vec<Note>,
    pub(crate) rows: NoteRows,
    /// Space for the atoms of the state that is asked about.
    pub(crate) held: Vec<u32>,
}

impl Noted {
    /// No notes.
    pub(crate) fn new(alloc: Global) -> Noted
        ensures notes { result.notes.items ≡ [] }
        ensures rows { result.rows.rows ≡ [] }
    {
        Noted {
            notes: Vec::new(alloc),
            rows: NoteRows::new(alloc),
            held: Vec::new(alloc),
        }
    }

    /// Takes all notes out.
    pub(crate) fn clear(&mut self)
        ensures notes { self.new.notes.items ≡ [] }
        ensures rows { self.new.rows.rows ≡ [] }
    {
        self.notes.clear();
        self.rows.clear();
    }
}

/// Writes the block which shows that the states of the formula are dead, and notes it with this row
/// of atoms. All memory is taken before the first line is written.
pub(crate) fn write_block(
    alloc: Global,
    task: &Task,
    draft: &mut Draft,
    noted: &mut Noted,
    clauses: Clauses,
    row: State,
) -> Result<usize, AllocError>
    requires task { IsTask task.now }
    requires good { IsGoodTable task.now draft.old.lines }
    requires dead { IsDeadEnd task.now clauses }
    requires over { AreRowsOver (length row) noted.old.rows.rows }
    ensures lines { OnOk result (draft.new.lines ≡ onto (dead_block (expr_count draft.old.lines)
        (known_count draft.old.lines) clauses) draft.old.lines) }
    ensures line { IfOk result (λ line. line ≡ known_count draft.old.lines + 3) }
    ensures notes { OnOk result (noted.new.notes.items ≡ noted.old.notes.items ++ record {
      set = expr_count draft.old.lines;
      line = known_count draft.old.lines + 3;
    } ∷ []) }
    ensures rows { OnOk result (noted.new.rows.rows ≡ noted.old.rows.rows ++ row ∷ []) }
    ensures good { OnOk result (IsGoodTable task.now draft.new.lines) }
    ensures err_draft { OnErr result (draft.new ≡ draft.old) }
    ensures err_notes { OnErr result (noted.new.notes.items ≡ noted.old.notes.items) }
    ensures err_rows { OnErr result (noted.new.rows.rows ≡ noted.old.rows.rows) }
{
    let set = draft.table().expr_count();
    let id = draft.table().known_count();
    let block = dead_block(alloc, set, id, clauses)?;
    take_room(alloc, draft, noted, row.atoms())?;
    draft.push_all(task, block);
    noted.rows.push_reserved(row);
    noted.notes.push_reserved(Note { set, line: id + 3 });
    Ok(id + 3)
}

// Takes the memory for eight lines, a note, and a row of so many atoms.
fn take_room(
    alloc: Global,
    draft: &mut Draft,
    noted: &mut Noted,
    atoms: u32,
) -> Result<(), AllocError>
    requires { AreRowsOver atoms noted.old.rows.rows }
    ensures lines { draft.new.lines ≡ draft.old.lines }
    ensures few { OnOk result (length draft.new.lines + 8 ≤ most_lines) }
    ensures spare { OnOk result (8 ≤ draft.new.spare) }
    ensures err { OnErr result (draft.new ≡ draft.old) }
    ensures notes { noted.new.notes.items ≡ noted.old.notes.items }
    ensures note_room { OnOk result (vec_len noted.new.notes < vec_capacity noted.new.notes) }
    ensures rows { noted.new.rows.rows ≡ noted.old.rows.rows }
    ensures row_atoms { OnOk result (noted.new.rows.atoms ≡ atoms) }
    ensures row_room { OnOk result (0 < noted.new.rows.room) }
{
    noted.notes.reserve(1)?;
    noted.rows.reserve(alloc, atoms)?;
    draft.reserve(8)?;
    Ok(())
}

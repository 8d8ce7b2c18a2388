//! The pruner by reached pairs.

ghost use Rattle.std.specs.Prelude.{◌≡◌, ◌≤◌, ◌+◌, ◌++◌, [], ◌∷◌, ◌↔◌, Bool, List, length};
ghost use Rattle.std.specs.Prelude.{IsTrue, IfOk, IfSome, IfNone, MatchOption, OnErr, OnOk, None};
ghost use Rattle.std.specs.Prelude.{is_some};
ghost use Rattle.hv_task.specs.AtomList.{IsListOf};
ghost use Rattle.hv_task.specs.Strips.{IsState, atoms};
ghost use Rattle.hv_lines.specs.Drafts.{IsGoodTable, onto};
ghost use Rattle.hv_lines.specs.Numbering.{expr_count, known_count};
ghost use Rattle.hv_lines.specs.Pruning.{Extends, IsPrunerAnswer, IsDeadBy, IsFirstNoted};
ghost use Rattle.hv_lines.specs.Pruning.{NoneNoted};
ghost use Rattle.hv_lines.specs.Working.Pruning.{IsOutcome};
ghost use Rattle.hv_reach.specs.Index.{IsTaskIndex};
ghost use Rattle.hv_reach.specs.Pruners.{AreDescribed, AreHornNotes, FitPairs, HoldsPairsOf};
ghost use Rattle.hv_reach.specs.Pruners.{IsDenied, IsPairsBlock, PairsCover};
ghost use Rattle.hv_reach.specs.Reached.{has_pair};
ghost use Rattle.hv_reach.specs.Working.NoteRows.{AreRowsOver, IsDiagonal};
ghost use Rattle.hv_reach.specs.Working.Pruners.{AreDiagonals};
ghost use Rattle.hv_reach.specs.Working.Written.{IsDeadEnd};
ghost use Rattle.hv_reach.specs.Written.{dead_block, pairs_formula};

use crate::notes::{Noted, write_block};
use crate::pair_formula::{MOST_ATOMS, pairs_formula};
use crate::pairs::{PairSpace, Pairs};
use hv_lines::{Draft, Pruner};
use hv_task::{State, Task};
use std::alloc::{AllocError, Global};
use std::marker::Model;

// What was written, with the atoms that were reached in a pair with themselves, and for each note
// the pairs that were reached.
#[derive(Drop)]
struct NotedPairs {
    noted: Noted,
    reached: Vec<Pairs>,
}

/// A pruner that covers the states from which some pair of goal atoms, possibly equal, isn't
/// reached, in tasks of at most 1,024 atoms. For such a state it writes that the states are dead
/// which hold no other pairs than those reached from it.
///
/// A state is looked for in the notes by the atoms that are in a pair with themselves, for all
/// notes at once, and where a note's row has each atom of the state, by the table of the pairs that
/// were reached.
#[derive(Drop)]
pub struct PairPruner {
    kept: NotedPairs,
    // What the search for reached pairs goes by, from the first question on.
    space: Option<PairSpace>,
}

impl Model for PairPruner {
    ghost use Rattle.hv_reach.specs.Pruners.{PairNotes};
    ghost use Rattle.hv_reach.specs.Working.Pruners.{AreDiagonals};

    ghost Value = { PairNotes };

    ghost view = { λ p. record {
      notes = p.kept.noted.notes.items;
      reached = p.kept.reached.items;
      index = p.space;
    } };

    ghost invariant = { λ p. AreDiagonals p.kept.noted.rows.rows p.kept.reached.items };
}

impl PairPruner {
    /// The pruner without notes.
    pub fn new(alloc: Global) -> PairPruner
        ensures { result ≡ record { notes = []; reached = []; index = None } }
    {
        PairPruner {
            kept: NotedPairs {
                noted: Noted::new(alloc),
                reached: Vec::new(alloc),
            },
            space: None,
        }
    }

    /// The line of the first note whose formula holds the state. Where there is none and the state
    /// is covered, the block of the pairs reached from it is put last into the draft, and noted.
    /// After running out of memory, draft and notes are as before.
    pub fn answer(
        &mut self,
        alloc: Global,
        task: &Task,
        draft: &mut Draft,
        state: &State,
    ) -> Result<Option<usize>, AllocError>
        requires good { IsGoodTable task.now draft.old.lines }
        requires fits { FitPairs task.now draft.old.lines self.old }
        requires state { IsState task.now state.now }
        ensures answer { IfOk result (λ found. IsPrunerAnswer task.now (PairsCover task.now)
            (IsPairsBlock task.now state.now draft.old.lines) state.now found
            self.old.notes draft.old self.new.notes draft.new) }
        ensures some { IfOk result (λ found. IsTrue (is_some found)
            ↔ PairsCover task.now state.now) }
        ensures dead { IfOk result (λ found. IfSome found (λ line.
            IsDeadBy task.now draft.new.lines state.now line)) }
        ensures extends { Extends task.now draft.old.lines draft.new.lines }
        ensures none { IfOk result (λ found. IfNone found (draft.new ≡ draft.old)) }
        ensures fits { FitPairs task.now draft.new.lines self.new }
        ensures err_draft { OnErr result (draft.new ≡ draft.old) }
        ensures err_notes { OnErr result (self.new ≡ self.old) }
    {
        if task.atoms() > MOST_ATOMS {
            return Ok(None);
        }
        match &mut self.space {
            Some(space) => pairs_answer(alloc, task, draft, &mut self.kept, space, state),
            None => {
                let mut space = PairSpace::new(alloc, task)?;
                let found = pairs_answer(alloc, task, draft, &mut self.kept, &mut space, state)?;
                self.space = Some(space);
                Ok(found)
            }
        }
    }
}

impl Pruner for PairPruner {
    ghost use Rattle.hv_reach.specs.Pruners.{FitPairs, PairsCover};
    ghost use Rattle.hv_reach.specs.Working.Fitting as fitting;

    ghost covers = { λ _ task state. PairsCover task state };

    ghost fits = { λ kept task lines. FitPairs task lines kept };

    fn begin(&mut self) {
        self.kept.noted.clear();
        self.kept.reached.clear();
        self.space = None;
    }

    fn justify(
        &mut self,
        alloc: Global,
        task: &Task,
        draft: &mut Draft,
        state: &State,
    ) -> Result<Option<usize>, AllocError> {
        self.answer(alloc, task, draft, state)
    }

    ghost fits_extensions = { λ kept task old new fits extends.
        fitting.pairs_fit task old new kept fits extends };
}

// The answer by these notes, in a task of few atoms.
fn pairs_answer(
    alloc: Global,
    task: &Task,
    draft: &mut Draft,
    kept: &mut NotedPairs,
    space: &mut PairSpace,
    state: &State,
) -> Result<Option<usize>, AllocError>
    requires few { atoms task.now ≤ 1024 }
    requires good { IsGoodTable task.now draft.old.lines }
    requires fits { AreHornNotes task.now (PairsCover task.now)
        draft.old.lines kept.old.noted.notes.items }
    requires described { AreDescribed HoldsPairsOf task.now
        draft.old.lines kept.old.noted.notes.items kept.old.reached.items }
    requires diagonals { AreDiagonals kept.old.noted.rows.rows kept.old.reached.items }
    requires index { IsTaskIndex task.now space.old }
    requires state { IsState task.now state.now }
    ensures outcome { IfOk result (λ found. IsOutcome task.now (PairsCover task.now)
        (IsDenied (atoms task.now)) (IsPairsBlock task.now state.now draft.old.lines)
        state.now found kept.old.noted.notes.items draft.old
        kept.new.noted.notes.items draft.new) }
    ensures described { IfOk result (λ _. AreDescribed HoldsPairsOf task.now
        draft.new.lines kept.new.noted.notes.items kept.new.reached.items) }
    ensures diagonals { AreDiagonals kept.new.noted.rows.rows kept.new.reached.items }
    ensures err_draft { OnErr result (draft.new ≡ draft.old) }
    ensures err_notes { OnErr result
        (kept.new.noted.notes.items ≡ kept.old.noted.notes.items) }
    ensures err_reached { OnErr result (kept.new.reached.items ≡ kept.old.reached.items) }
    ensures index { space.new ≡ space.old }
{
    state.list_atoms(&mut kept.noted.held)?;
    let noted = first_noted(alloc, task, draft, kept, state, kept.noted.held.as_slice())?;
    if noted.is_some() {
        return Ok(noted);
    }
    match space.reason(alloc, task, state, kept.noted.held.as_slice())? {
        Some(pairs) => {
            kept.reached.reserve(1)?;
            let line = write_pairs(alloc, task, draft, &mut kept.noted, &pairs)?;
            kept.reached.push_reserved(pairs);
            Ok(Some(line))
        }
        None => Ok(None),
    }
}

// Writes the block of these pairs, and notes it.
fn write_pairs(
    alloc: Global,
    task: &Task,
    draft: &mut Draft,
    noted: &mut Noted,
    pairs: &Pairs,
) -> Result<usize, AllocError>
    requires good { IsGoodTable task.now draft.old.lines }
    requires size { length pairs.now ≡ atoms task.now }
    requires dead { IsDeadEnd task.now (pairs_formula (atoms task.now) (has_pair pairs.now)) }
    requires over { AreRowsOver (length pairs.now) noted.old.rows.rows }
    ensures lines { OnOk result (draft.new.lines ≡ onto (dead_block (expr_count draft.old.lines)
        (known_count draft.old.lines) (pairs_formula (atoms task.now) (has_pair pairs.now)))
        draft.old.lines) }
    ensures line { IfOk result (λ line. line ≡ known_count draft.old.lines + 3) }
    ensures notes { OnOk result (noted.new.notes.items ≡ noted.old.notes.items ++ record {
      set = expr_count draft.old.lines;
      line = known_count draft.old.lines + 3;
    } ∷ []) }
    ensures rows { OnOk result ((row : List Bool) × IsDiagonal row pairs.now
        × (noted.new.rows.rows ≡ noted.old.rows.rows ++ row ∷ [])) }
    ensures good { OnOk result (IsGoodTable task.now draft.new.lines) }
    ensures err_draft { OnErr result (draft.new ≡ draft.old) }
    ensures err_notes { OnErr result (noted.new.notes.items ≡ noted.old.notes.items) }
    ensures err_rows { OnErr result (noted.new.rows.rows ≡ noted.old.rows.rows) }
{
    let clauses = pairs_formula(alloc, task.atoms(), pairs)?;
    let row = pairs.diagonal(alloc, task.atoms())?;
    let line = write_block(alloc, task, draft, noted, clauses, row)?;
    Ok(line)
}

// The line of the first note whose formula holds the state of these atoms: all their pairs were
// reached.
fn first_noted(
    alloc: Global,
    task: &Task,
    draft: &Draft,
    kept: &NotedPairs,
    state: &State,
    held: &[u32],
) -> Result<Option<usize>, AllocError>
    requires state { IsState task.now state.now }
    requires held { IsListOf state.now held.now }
    requires described { AreDescribed HoldsPairsOf task.now
        draft.now.lines kept.now.noted.notes.items kept.now.reached.items }
    requires diagonals { AreDiagonals kept.now.noted.rows.rows kept.now.reached.items }
    ensures { IfOk result (λ found. MatchOption found
        (NoneNoted task.now draft.now.lines kept.now.noted.notes.items state.now)
        (λ line. IsFirstNoted task.now draft.now.lines kept.now.noted.notes.items state.now
        line)) }
{
    let _ = task;
    let _ = draft;
    let mut from = 0;
    while let Some(place) = kept.noted.rows.first(alloc, held, from)? {
        if kept.reached[place].has_all(state.atoms(), held) {
            return Ok(Some(kept.noted.notes[place].line));
        }
        from = place + 1;
    }
    Ok(None)
}

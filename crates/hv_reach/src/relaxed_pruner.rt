//! The pruner by reached atoms.

ghost use Rattle.std.specs.Prelude.{◌≡◌, [], ◌↔◌, IsTrue, IfOk, IfSome, IfNone, MatchOption, OnErr};
ghost use Rattle.std.specs.Prelude.{None, is_some};
ghost use Rattle.hv_task.specs.AtomList.{IsListOf};
ghost use Rattle.hv_task.specs.Strips.{IsState, atoms};
ghost use Rattle.hv_lines.specs.Drafts.{IsGoodTable};
ghost use Rattle.hv_lines.specs.Pruning.{Extends, IsPrunerAnswer, IsDeadBy, IsFirstNoted};
ghost use Rattle.hv_lines.specs.Pruning.{NoneNoted};
ghost use Rattle.hv_lines.specs.Working.Pruning.{IsOutcome};
ghost use Rattle.hv_reach.specs.Index.{AreSearchRowsOf};
ghost use Rattle.hv_reach.specs.Pruners.{AreDescribed, AreHornNotes, FitRelaxed, HoldsAtomsOf};
ghost use Rattle.hv_reach.specs.Pruners.{IsDenied, IsRelaxedBlock};
ghost use Rattle.hv_reach.specs.Written.{RelaxedExcludesFrom};

use crate::atom_search::AtomSearch;
use crate::notes::{Noted, write_block};
use crate::relaxed::relaxed_formula;
use hv_lines::{Draft, Pruner};
use hv_task::{State, Task};
use std::alloc::{AllocError, Global};
use std::marker::Model;

/// A pruner that covers the states from which some goal atom isn't reached. For such a state it
/// writes that the states are dead which hold no other atoms than those reached from it.
///
/// A state is looked for in all notes at once, by rows of the atoms that were reached: the first
/// note whose row has each atom of the state answers.
#[derive(Drop)]
pub struct RelaxedPruner {
    // What was written, with the atoms that were reached.
    noted: Noted,
    // What the search for reached atoms goes by, from the first question on.
    search: Option<AtomSearch>,
}

impl Model for RelaxedPruner {
    ghost use Rattle.hv_reach.specs.Pruners.{RelaxedNotes};

    ghost Value = { RelaxedNotes };

    ghost view = { λ p. record {
      notes = p.noted.notes.items;
      reached = p.noted.rows.rows;
      search = p.search;
    } };
}

impl RelaxedPruner {
    /// The pruner without notes.
    pub fn new(alloc: Global) -> RelaxedPruner
        ensures { result ≡ record { notes = []; reached = []; search = None } }
    {
        RelaxedPruner {
            noted: Noted::new(alloc),
            search: None,
        }
    }

    /// The line of the first note whose formula holds the state. Where there is none and the state
    /// is covered, the block of the atoms reached from it is put last into the draft, and noted.
    /// After running out of memory, draft and notes are as before.
    pub fn answer(
        &mut self,
        alloc: Global,
        task: &Task,
        draft: &mut Draft,
        state: &State,
    ) -> Result<Option<usize>, AllocError>
        requires good { IsGoodTable task.now draft.old.lines }
        requires fits { FitRelaxed task.now draft.old.lines self.old }
        requires state { IsState task.now state.now }
        ensures answer { IfOk result
            (λ found. IsPrunerAnswer task.now (RelaxedExcludesFrom task.now)
            (IsRelaxedBlock task.now state.now draft.old.lines) state.now found
            self.old.notes draft.old self.new.notes draft.new) }
        ensures some { IfOk result (λ found. IsTrue (is_some found)
            ↔ RelaxedExcludesFrom task.now state.now) }
        ensures dead { IfOk result (λ found. IfSome found (λ line.
            IsDeadBy task.now draft.new.lines state.now line)) }
        ensures extends { Extends task.now draft.old.lines draft.new.lines }
        ensures none { IfOk result (λ found. IfNone found (draft.new ≡ draft.old)) }
        ensures fits { FitRelaxed task.now draft.new.lines self.new }
        ensures err_draft { OnErr result (draft.new ≡ draft.old) }
        ensures err_notes { OnErr result (self.new ≡ self.old) }
    {
        match &mut self.search {
            Some(search) => relaxed_answer(alloc, task, draft, &mut self.noted, search, state),
            None => {
                let mut search = AtomSearch::new(alloc, task)?;
                let found = relaxed_answer(
                    alloc,
                    task,
                    draft,
                    &mut self.noted,
                    &mut search,
                    state,
                )?;
                self.search = Some(search);
                Ok(found)
            }
        }
    }
}

impl Pruner for RelaxedPruner {
    ghost use Rattle.hv_reach.specs.Pruners.{FitRelaxed};
    ghost use Rattle.hv_reach.specs.Written.{RelaxedExcludesFrom};
    ghost use Rattle.hv_reach.specs.Working.Fitting as fitting;

    ghost covers = { λ _ task state. RelaxedExcludesFrom task state };

    ghost fits = { λ kept task lines. FitRelaxed task lines kept };

    fn begin(&mut self) {
        self.noted.clear();
        self.search = None;
    }

    fn justify(
        &mut self,
        alloc: Global,
        task: &Task,
        draft: &mut Draft,
        state: &State,
    ) -> Result<Option<usize>, AllocError> {
        self.answer(alloc, task, draft, state)
    }

    ghost fits_extensions = { λ kept task old new fits extends.
        fitting.relaxed_fits task old new kept fits extends };
}

// The answer by these notes.
fn relaxed_answer(
    alloc: Global,
    task: &Task,
    draft: &mut Draft,
    noted: &mut Noted,
    search: &mut AtomSearch,
    state: &State,
) -> Result<Option<usize>, AllocError>
    requires good { IsGoodTable task.now draft.old.lines }
    requires fits { AreHornNotes task.now (RelaxedExcludesFrom task.now)
        draft.old.lines noted.old.notes.items }
    requires described { AreDescribed HoldsAtomsOf task.now
        draft.old.lines noted.old.notes.items noted.old.rows.rows }
    requires search { AreSearchRowsOf task.now search.old }
    requires state { IsState task.now state.now }
    ensures outcome { IfOk result (λ found. IsOutcome task.now (RelaxedExcludesFrom task.now)
        (IsDenied (atoms task.now)) (IsRelaxedBlock task.now state.now draft.old.lines)
        state.now found noted.old.notes.items draft.old noted.new.notes.items draft.new) }
    ensures described { IfOk result (λ _. AreDescribed HoldsAtomsOf task.now
        draft.new.lines noted.new.notes.items noted.new.rows.rows) }
    ensures err_draft { OnErr result (draft.new ≡ draft.old) }
    ensures err_notes { OnErr result (noted.new.notes.items ≡ noted.old.notes.items) }
    ensures err_reached { OnErr result (noted.new.rows.rows ≡ noted.old.rows.rows) }
    ensures search { search.new ≡ search.old }
{
    // For its contract alone: the task is one.
    let _atoms = task.atoms();
    state.list_atoms(&mut noted.held)?;
    let told = first_noted(alloc, task, draft, noted, state, noted.held.as_slice())?;
    if told.is_some() {
        return Ok(told);
    }
    match search.reason(alloc, task, state)? {
        Some(row) => {
            let clauses = relaxed_formula(alloc, &row)?;
            let line = write_block(alloc, task, draft, noted, clauses, row)?;
            Ok(Some(line))
        }
        None => Ok(None),
    }
}

// The line of the first note whose formula holds the state of these atoms: its row has each of
// them.
fn first_noted(
    alloc: Global,
    task: &Task,
    draft: &Draft,
    noted: &Noted,
    state: &State,
    held: &[u32],
) -> Result<Option<usize>, AllocError>
    requires state { IsState task.now state.now }
    requires held { IsListOf state.now held.now }
    requires described { AreDescribed HoldsAtomsOf task.now
        draft.now.lines noted.now.notes.items noted.now.rows.rows }
    ensures { IfOk result (λ found. MatchOption found
        (NoneNoted task.now draft.now.lines noted.now.notes.items state.now)
        (λ line. IsFirstNoted task.now draft.now.lines noted.now.notes.items state.now line)) }
{
    let _ = task;
    let _ = draft;
    let _ = state;
    match noted.rows.first(alloc, held, 0)? {
        Some(place) => Ok(Some(noted.notes[place].line)),
        None => Ok(None),
    }
}

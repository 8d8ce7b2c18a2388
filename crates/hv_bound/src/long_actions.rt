//! Steps of a plan, where an action that names many atoms goes by rows of words.
//!
//! A plan can take such an action a million times. So its rows are made when it is taken first,
//! and kept. A task can have many of them: past the first ones the others go by their lists.

ghost use Rattle.std.specs.Prelude.{◌≡◌, ◌<◌, length, true, IfOk, OnOk, IfSome, Some, slice_get};
ghost use Rattle.hv_task.specs.declared.action.Action.{Action};
ghost use Rattle.hv_task.specs.ActionWords.{AreRowsOf, HaveAtoms};
ghost use Rattle.hv_task.specs.Strips.{Strips, IsOver, IsState};
ghost use Rattle.hv_bound.specs.Working.LongActions.{AreKeptWords, AreThere, IsStepTaken, IsStepOf};

use hv_task::{Action, ActionWords, State, Task};
use std::alloc::{AllocError, Global};

// Of how many actions rows are kept.
const MOST_KEPT: usize = 512;

/// The rows of the actions that name many atoms and were taken.
#[derive(Drop)]
pub(crate) struct LongActions {
    // Where the rows of an action may be, by its number: they are looked at before they are used.
    places: Vec<usize>,
    rows: Vec<NumberedRows>,
}

/// The rows of the action of this number.
#[derive(Drop)]
pub(crate) struct NumberedRows {
    pub number: u32,
    pub rows: ActionWords,
}

impl LongActions {
    /// None yet.
    pub(crate) fn new(alloc: Global) -> LongActions
        ensures { (task : Strips) → AreKeptWords task result }
    {
        LongActions {
            places: Vec::new(alloc),
            rows: Vec::new(alloc),
        }
    }

    /// Takes the step of the action of this number, if it is applicable in the state. The answer
    /// is whether it is.
    pub(crate) fn step(
        &mut self,
        alloc: Global,
        task: &Task,
        number: u32,
        state: &mut State,
    ) -> Result<bool, AllocError>
        requires number { number < length task.now.actions }
        requires state { IsState task.now state.old }
        requires kept { AreKeptWords task.now self.old }
        ensures kept { OnOk result (AreKeptWords task.now self.new) }
        ensures step { IfOk result
            (λ taken. IsStepTaken task.now number state.old state.new taken) }
        ensures state { IsState task.now state.new }
    {
        let action = task.action(number);
        if !is_long(action, task.atoms()) {
            return Ok(step_by_lists(task, number, state));
        }
        match self.place_for(alloc, task, number)? {
            Some(place) => Ok(step_by_rows(action, &self.rows[place].rows, state)),
            None => Ok(step_by_lists(task, number, state)),
        }
    }

    // Where the rows of the action are. They are made if there are none, but for too many.
    fn place_for(
        &mut self,
        alloc: Global,
        task: &Task,
        number: u32,
    ) -> Result<Option<usize>, AllocError>
        requires number { number < length task.now.actions }
        requires kept { AreKeptWords task.now self.old }
        ensures kept { OnOk result (AreKeptWords task.now self.new) }
        ensures there { IfOk result (λ found. IfSome found (AreThere number self.new)) }
    {
        let found = self.place_of(number);
        if found.is_some() || self.rows.len() >= MOST_KEPT {
            return Ok(found);
        }
        let place = self.keep(alloc, task, number)?;
        Ok(Some(place))
    }

    // Where the rows of the action are, if they are kept.
    fn place_of(&self, number: u32) -> Option<usize>
        ensures { IfSome result (AreThere number self.now) }
    {
        let at = number as usize;
        if at >= self.places.len() {
            return None;
        }
        let place = self.places[at];
        if place < self.rows.len() && self.rows[place].number == number {
            return Some(place);
        }
        None
    }

    // Makes the rows of the action, and says where they are.
    fn keep(&mut self, alloc: Global, task: &Task, number: u32) -> Result<usize, AllocError>
        requires number { number < length task.now.actions }
        requires kept { AreKeptWords task.now self.old }
        ensures kept { OnOk result (AreKeptWords task.now self.new) }
        ensures there { IfOk result (λ place. AreThere number self.new place) }
    {
        let place = self.rows.len();
        note(&mut self.places, number, place)?;
        let rows = ActionWords::of(alloc, task.atoms(), task.action(number))?;
        self.rows.push(NumberedRows { number, rows })?;
        Ok(place)
    }
}

// Notes where the rows of the action are.
fn note(places: &mut Vec<usize>, number: u32, place: usize) -> Result<(), AllocError> {
    let at = number as usize;
    if at >= places.len() {
        places.resize(at + 1, 0)?;
    }
    places[at] = place;
    Ok(())
}

// Whether the action names so many atoms, of a task with this many, that its rows are shorter than
// its lists.
fn is_long(action: &Action, atoms: u32) -> bool {
    let named = action
        .pre
        .len()
        .saturating_add(action.add.len())
        .saturating_add(action.del.len());
    named > atoms as usize / 32 + 2
}

// Takes the step by the lists of the action.
fn step_by_lists(task: &Task, number: u32, state: &mut State) -> bool
    requires number { number < length task.now.actions }
    requires state { IsState task.now state.old }
    ensures step { IsStepTaken task.now number state.old state.new result }
    ensures state { IsState task.now state.new }
{
    if !task.applicable(number, state) {
        return false;
    }
    task.action(number).apply(state);
    true
}

// Takes the step by the rows of the action.
fn step_by_rows(action: &Action, rows: &ActionWords, state: &mut State) -> bool
    requires over { IsOver (length state.old) action.now }
    requires atoms { HaveAtoms (length state.old) rows.now }
    requires rows { AreRowsOf (length state.old) action.now rows.now }
    ensures step { IsStepOf action.now state.old state.new result }
    ensures atoms { length state.new ≡ length state.old }
{
    let _ = action;
    if !rows.applicable(state) {
        return false;
    }
    rows.apply(state);
    true
}

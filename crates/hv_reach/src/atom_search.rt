//! The atoms that are reached from a state.
//!
//! Each action is under each atom of its precondition (`index`), and keeps the place of the first
//! one that isn't held (`passed`): no counts. When one of its atoms is taken up, it goes on from
//! that place. So each action goes over its precondition once, and the work is linear in the task.

ghost use Rattle.std.specs.Prelude.{◌≡◌, ◌<◌, ◌≤◌, ◌↔◌, ◌⊎◌, ℕ, Bool, true, false, length, Some};
ghost use Rattle.std.specs.Prelude.{IfOk, IfSome, IsTrue, OnOk, is_some, slice_get, slice_index};
ghost use Rattle.std.specs.List.{Contains};
ghost use Rattle.hv_task.specs.declared.action.Action.{Action};
ghost use Rattle.hv_task.specs.State.{AreBelow, has_atom};
ghost use Rattle.hv_task.specs.Strips.{IsState, atoms};
ghost use Rattle.hv_reach.specs.Reached.{AreIn, Keeps, ReachedAtom};
ghost use Rattle.hv_reach.specs.Index.{AreSearchRowsOf, IsTaskIndex};
ghost use Rattle.hv_reach.specs.Written.{RelaxedExcludesFrom};
ghost use Rattle.hv_reach.specs.Working.Passed.{AreZeros};
ghost use Rattle.hv_reach.specs.Working.Waiting.{AreActionsSettled, AreActionsSettledBut};
ghost use Rattle.hv_reach.specs.Working.Waiting.{GrowsWithin, IsKeptSearch, IsActionSettled};
ghost use Rattle.hv_reach.specs.Working.Waiting.{GrowsQueued};

use crate::index::index;
use crate::mask::row_has;
use crate::passed::Passed;
use hv_task::{AtomList, State, Task};
use std::alloc::{AllocError, Global};
use std::marker::Model;

/// What the search for reached atoms goes by, made once for a task: which actions ask for an atom,
/// and space for how far it came.
#[derive(Drop)]
pub(crate) struct AtomSearch {
    rows: Vec<Vec<u32>>,
    // The first place for each action, but during a search.
    passed: Passed,
    // What the last search reached, and its queue: the next one fills them anew.
    held: State,
    queue: Vec<u32>,
}

impl Model for AtomSearch {
    ghost use Rattle.std.specs.Prelude.{length};
    ghost use Rattle.hv_reach.specs.Index.{SearchRows};
    ghost use Rattle.hv_reach.specs.Working.Passed.{AreZeros};

    ghost Value = { SearchRows };

    ghost view = { λ s. record { rows = s.rows.items; actions = length s.passed } };

    ghost invariant = { λ s. AreZeros s.passed };
}

impl AtomSearch {
    /// That of the task.
    pub(crate) fn new(alloc: Global, task: &Task) -> Result<AtomSearch, AllocError>
        ensures { IfOk result (AreSearchRowsOf task.now) }
    {
        let rows = index(alloc, task)?;
        let passed = Passed::new(alloc, task.actions())?;
        Ok(AtomSearch {
            rows,
            passed,
            held: State::empty(alloc, task.atoms())?,
            queue: Vec::new(alloc),
        })
    }

    /// The atoms that are reached from a state, as the state that holds these atoms. The work is
    /// linear in the actions that ask for them, and in the atoms.
    pub(crate) fn reached(
        &mut self,
        alloc: Global,
        task: &Task,
        start: &State,
    ) -> Result<State, AllocError>
        requires search { AreSearchRowsOf task.now self.old }
        requires state { IsState task.now start.now }
        ensures size { IfOk result (λ held. length held ≡ atoms task.now) }
        ensures reached { IfOk result (λ held. (p : ℕ)
            → (has_atom held p ≡ true) ↔ ReachedAtom task.now start.now p) }
        ensures kept { self.new ≡ self.old }
    {
        fill(
            task,
            &self.rows,
            &mut self.passed,
            &mut self.held,
            &mut self.queue,
            start,
        )?;
        let held = copy_of(alloc, &self.held)?;
        Ok(held)
    }

    /// The same, where some goal atom isn't reached; otherwise there is none to tell.
    pub(crate) fn reason(
        &mut self,
        alloc: Global,
        task: &Task,
        start: &State,
    ) -> Result<Option<State>, AllocError>
        requires search { AreSearchRowsOf task.now self.old }
        requires state { IsState task.now start.now }
        ensures some { IfOk result (λ found. IsTrue (is_some found)
            ↔ RelaxedExcludesFrom task.now start.now) }
        ensures size { IfOk result (λ found. IfSome found (λ held.
            length held ≡ atoms task.now)) }
        ensures reached { IfOk result (λ found. IfSome found (λ held. (p : ℕ)
            → (has_atom held p ≡ true) ↔ ReachedAtom task.now start.now p)) }
        ensures kept { self.new ≡ self.old }
    {
        fill(
            task,
            &self.rows,
            &mut self.passed,
            &mut self.held,
            &mut self.queue,
            start,
        )?;
        if row_has(&self.held, task.goal().as_slice()) {
            return Ok(None);
        }
        let held = copy_of(alloc, &self.held)?;
        Ok(Some(held))
    }
}

/// The atoms that are reached from a state: those of the least set that has the state's atoms and,
/// with all of an action's precondition, its add set. The work is linear in the task: each action
/// waits for one atom of its precondition at a time.
pub fn reached_atoms(alloc: Global, task: &Task, start: &State) -> Result<AtomList, AllocError>
    requires { IsState task.now start.now }
    ensures { IfOk result (λ list. (p : ℕ) → Contains list p ↔ ReachedAtom task.now start.now p) }
{
    let held = reached_state(alloc, task, start)?;
    let list = list_of(alloc, &held)?;
    Ok(list)
}

// The same atoms, as the state that holds them.
fn reached_state(alloc: Global, task: &Task, start: &State) -> Result<State, AllocError>
    requires { IsState task.now start.now }
    ensures { IfOk result (λ held. (p : ℕ)
        → (has_atom held p ≡ true) ↔ ReachedAtom task.now start.now p) }
{
    let mut search = AtomSearch::new(alloc, task)?;
    search.reached(alloc, task, start)
}

// Makes this the state that holds the atoms that are reached, and puts the places back.
fn fill(
    task: &Task,
    rows: &Vec<Vec<u32>>,
    passed: &mut Passed,
    held: &mut State,
    queue: &mut Vec<u32>,
    start: &State,
) -> Result<(), AllocError>
    requires index { IsTaskIndex task.now rows.now.items }
    requires actions { length passed.old ≡ length task.now.actions }
    requires zeros { AreZeros passed.old }
    requires state { IsState task.now start.now }
    ensures size { OnOk result (length held.new ≡ atoms task.now) }
    ensures reached { OnOk result ((p : ℕ)
        → (has_atom held.new p ≡ true) ↔ ReachedAtom task.now start.now p) }
    ensures actions { length passed.new ≡ length passed.old }
    ensures zeros { AreZeros passed.new }
{
    let found = reach_from(task, rows, passed, held, queue, start);
    passed.put_back();
    found
}

// The same, but for the places: actions without precondition are visited first, and then those that
// ask for an atom which is held.
fn reach_from(
    task: &Task,
    rows: &Vec<Vec<u32>>,
    passed: &mut Passed,
    held: &mut State,
    queue: &mut Vec<u32>,
    start: &State,
) -> Result<(), AllocError>
    requires index { IsTaskIndex task.now rows.now.items }
    requires actions { length passed.old ≡ length task.now.actions }
    requires zeros { AreZeros passed.old }
    requires state { IsState task.now start.now }
    ensures size { OnOk result (length held.new ≡ atoms task.now) }
    ensures reached { OnOk result ((p : ℕ)
        → (has_atom held.new p ≡ true) ↔ ReachedAtom task.now start.now p) }
    ensures actions { length passed.new ≡ length passed.old }
{
    held.resize(task.atoms())?;
    held.copy_from(start);
    start.list_atoms(queue)?;
    let free = &rows[task.atoms() as usize];
    wake(task, held, queue, passed, free.as_slice())?;
    close(task, held, queue, passed, rows)?;
    Ok(())
}

// The same state once more.
fn copy_of(alloc: Global, state: &State) -> Result<State, AllocError>
    ensures { IfOk result (λ copy. copy ≡ state.now) }
{
    let mut copy = State::empty(alloc, state.atoms())?;
    copy.copy_from(state);
    Ok(copy)
}

// The atoms of a state, as a list.
fn list_of(alloc: Global, held: &State) -> Result<AtomList, AllocError>
    ensures { IfOk result (λ list. (p : ℕ) → Contains list p ↔ (has_atom held.now p ≡ true)) }
{
    let mut list = AtomList::new(alloc);
    for atom in 0..held.atoms() {
        put(&mut list, held, atom)?;
    }
    Ok(list)
}

// Puts the atom into the list where the state holds it.
fn put(list: &mut AtomList, held: &State, atom: u32) -> Result<(), AllocError>
    requires { atom < length held.now }
    ensures { OnOk result ((p : ℕ) → Contains list.new p
        ↔ (Contains list.old p ⊎ ((p ≡ atom) × (has_atom held.now p ≡ true)))) }
{
    if !held.has(atom) {
        return Ok(());
    }
    list.insert(atom)?;
    Ok(())
}

// Goes on until the queue is empty.
fn close(
    task: &Task,
    held: &mut State,
    queue: &mut Vec<u32>,
    passed: &mut Passed,
    rows: &Vec<Vec<u32>>,
) -> Result<(), AllocError>
    requires index { IsTaskIndex task.now rows.now.items }
    requires state { IsState task.now held.old }
    requires kept { IsKeptSearch task.now.actions held.old queue.old.items passed.old }
    requires settled { AreActionsSettled task.now.actions held.old queue.old.items passed.old }
    ensures size { OnOk result (length held.new ≡ length held.old) }
    ensures grows { OnOk result ((p : ℕ) → has_atom held.old p ≡ true
        → has_atom held.new p ≡ true) }
    ensures keeps { OnOk result (Keeps task.now.actions (has_atom held.new)) }
    ensures least { OnOk result (GrowsWithin (Keeps task.now.actions) held.old held.new) }
    ensures actions { length passed.new ≡ length passed.old }
{
    while let Some(atom) = queue.pop() {
        let row = &rows[atom as usize];
        wake(task, held, queue, passed, row.as_slice())?;
    }
    Ok(())
}

// Goes on with each of these actions.
fn wake(
    task: &Task,
    held: &mut State,
    queue: &mut Vec<u32>,
    passed: &mut Passed,
    numbers: &[u32],
) -> Result<(), AllocError>
    requires numbers { AreBelow (length task.now.actions) numbers.now }
    requires state { IsState task.now held.old }
    requires kept { IsKeptSearch task.now.actions held.old queue.old.items passed.old }
    requires settled { AreActionsSettledBut numbers.now 0
        task.now.actions held.old queue.old.items passed.old }
    ensures step { OnOk result (GrowsQueued held.old queue.old.items held.new queue.new.items) }
    ensures kept { OnOk result
        (IsKeptSearch task.now.actions held.new queue.new.items passed.new) }
    ensures settled { OnOk result
        (AreActionsSettled task.now.actions held.new queue.new.items passed.new) }
    ensures least { OnOk result (GrowsWithin (Keeps task.now.actions) held.old held.new) }
    ensures actions { length passed.new ≡ length passed.old }
{
    for number in numbers {
        visit(task, held, queue, passed, *number)?;
    }
    Ok(())
}

// Goes on with an action: it then waits for an atom that isn't held, or its add set is held.
fn visit(
    task: &Task,
    held: &mut State,
    queue: &mut Vec<u32>,
    passed: &mut Passed,
    number: u32,
) -> Result<(), AllocError>
    requires number { number < length task.now.actions }
    requires state { IsState task.now held.old }
    requires kept { IsKeptSearch task.now.actions held.old queue.old.items passed.old }
    ensures step { OnOk result (GrowsQueued held.old queue.old.items held.new queue.new.items) }
    ensures kept { OnOk result
        (IsKeptSearch task.now.actions held.new queue.new.items passed.new) }
    ensures settles { OnOk result ((a : Action) → slice_get task.now.actions number ≡ Some a
        → IsActionSettled held.new queue.new.items a (slice_index passed.new number)) }
    ensures others { OnOk result ((k : ℕ) → (k ≡ number → ⊥)
        → slice_index passed.new k ≡ slice_index passed.old k) }
    ensures least { OnOk result (GrowsWithin (Keeps task.now.actions) held.old held.new) }
    ensures actions { length passed.new ≡ length passed.old }
{
    let action = task.action(number);
    let from = passed.get(number);
    let size = action.pre.len();
    if from == size && from > 0 {
        return Ok(());
    }
    let place = first_missing(action.pre.as_slice(), held, from);
    passed.put(number, place)?;
    if place < size {
        return Ok(());
    }
    reach_all(held, queue, action.add.as_slice())?;
    Ok(())
}

// The first place from here on whose atom isn't held, or the length.
fn first_missing(pre: &[u32], held: &State, from: usize) -> usize
    requires from { from ≤ length pre.now }
    requires below { AreBelow (length held.now) pre.now }
    ensures from { from ≤ result }
    ensures upto { result ≤ length pre.now }
    ensures front { (i : ℕ) → from ≤ i → i < result
        → has_atom held.now (slice_index pre.now i) ≡ true }
    ensures missing { result < length pre.now
        → has_atom held.now (slice_index pre.now result) ≡ false }
{
    for place in from..pre.len() {
        if !held.has(pre[place]) {
            return place;
        }
    }
    pre.len()
}

// Puts these atoms in, and each that is new into the queue.
fn reach_all(held: &mut State, queue: &mut Vec<u32>, atoms: &[u32]) -> Result<(), AllocError>
    requires { AreBelow (length held.old) atoms.now }
    ensures step { OnOk result (GrowsQueued held.old queue.old.items held.new queue.new.items) }
    ensures has { OnOk result (AreIn (has_atom held.new) atoms.now) }
    ensures least { OnOk result (GrowsWithin (λ set. AreIn set atoms.now) held.old held.new) }
{
    for atom in atoms {
        reach(held, queue, *atom)?;
    }
    Ok(())
}

// Puts the atom in, and into the queue if it is new.
fn reach(held: &mut State, queue: &mut Vec<u32>, atom: u32) -> Result<(), AllocError>
    requires { atom < length held.old }
    ensures step { OnOk result (GrowsQueued held.old queue.old.items held.new queue.new.items) }
    ensures has { OnOk result (has_atom held.new atom ≡ true) }
    ensures least { OnOk result (GrowsWithin (λ set. set atom ≡ true) held.old held.new) }
{
    if held.has(atom) {
        return Ok(());
    }
    held.set(atom, true);
    queue.push(atom)?;
    Ok(())
}

//! Which sets list a state.
//!
//! A query with many negative operands asks the sets that list the state: the entries under its
//! code, each tested by its own set. What is found so is a hit. Where nothing is found all operands
//! are gone through, and that is so of a counterexample alone, which ends the search, or where more
//! sets list the state than there are operands. So no answer depends on what is entered, and the
//! entries can be made behind a shared reference: by the first query with many negative operands,
//! asked of a store of more than four sets. From then on each set that is added is entered. The
//! number of sets is bounded by nothing but memory; where all sets together have more states than
//! 32 bits count, nothing is entered.

ghost use Rattle.std.specs.Prelude.{◌≡◌, ◌↔◌, Bool, List, length, IsTrue};
ghost use Rattle.hv_task.specs.State.{AreBelow};
ghost use Rattle.hv_explicit.specs.Codes.{IsBelow, IsSetOf};
ghost use Rattle.hv_explicit.specs.ListedStates.{AreListsOver};
ghost use Rattle.hv_explicit.specs.Working.Owners.{AreListings, IsOwned, IsOwner};
ghost use Rattle.hv_explicit.specs.Working.SomeStates.{state_atoms};

use crate::coding::{Coding, can_meet, code_by, tells_apart};
use crate::explicit::Explicit;
use crate::named_sets::NamedSets;
use crate::places::Places;
use crate::sought::{SomeState, Sought};
use hv_sets::StateBuffer;
use std::alloc::{AllocError, Global};

/// A listed state: the number of a set, and a place in its list.
#[derive(Clone, Copy)]
pub(crate) struct ListedAt {
    pub set: u32,
    pub place: u32,
}

/// The states of all sets, to find by a state the sets that list it.
#[derive(Drop)]
pub(crate) struct StateOwners {
    /// How they are coded: by sums, unless two states have one or a set has its second key.
    pub coding: Coding,
    entries: Vec<ListedAt>,
    /// The codes of the entries.
    codes: Places,
}

impl StateOwners {
    // Nothing is entered.
    fn new(alloc: Global, coding: Coding) -> StateOwners {
        StateOwners {
            coding,
            entries: Vec::new(alloc),
            codes: Places::new(alloc),
        }
    }

    /// Where the chain of the code's slot starts.
    pub(crate) fn start_of(&self, code: u64) -> usize {
        self.codes.start_of(code)
    }

    /// An entry of this code, if it is found by where the chain of its slot starts.
    pub(crate) fn entry_from(&self, start: usize, code: u64) -> Option<ListedAt> {
        let entry = self.codes.place_from(start, code)?;
        match self.entries.get(entry) {
            Some(entry) => Some(*entry),
            None => None,
        }
    }
}

/// The states of these sets: by sums, or else by SipHashes. There are none where they are more than
/// 4,294,967,295.
pub(crate) fn owners_of(alloc: Global, sets: &[Explicit]) -> Result<StateOwners, AllocError> {
    if let Some(last) = sets.last() {
        if let Some(owners) = owners_by(alloc, Coding::Sums(last.key()), sets)? {
            return Ok(owners);
        }
    }
    match owners_by(alloc, Coding::Sips, sets)? {
        Some(owners) => Ok(owners),
        None => Ok(StateOwners::new(alloc, Coding::Sips)),
    }
}

// The same by one coding, unless two states have one code.
fn owners_by(
    alloc: Global,
    coding: Coding,
    sets: &[Explicit],
) -> Result<Option<StateOwners>, AllocError> {
    let mut owners = StateOwners::new(alloc, coding);
    for number in 0..sets.len() {
        if !enter_set(&mut owners, sets, &sets[number], number)? {
            return Ok(None);
        }
    }
    Ok(Some(owners))
}

/// Enters the states of the set of this number, by the places of the first ones. Answers false
/// where they can't all be told apart by their codes, or there are too many; then some of them may
/// be entered.
pub(crate) fn enter_set(
    owners: &mut StateOwners,
    sets: &[Explicit],
    set: &Explicit,
    number: usize,
) -> Result<bool, AllocError> {
    if number > u32::MAX as usize || !tells_apart(owners.coding, set.key()) {
        return Ok(false);
    }
    let mut buffer = StateBuffer::new();
    for place in set.firsts() {
        let entry = ListedAt {
            set: number as u32,
            place: *place,
        };
        let state = set.at(*place as usize, &mut buffer);
        if !enter_some(owners, sets, entry, state, set.atoms())? {
            return Ok(false);
        }
    }
    Ok(true)
}

// Enters a state of a set, however it is kept, unless another one has its sum, or there is no room.
fn enter_some(
    owners: &mut StateOwners,
    sets: &[Explicit],
    entry: ListedAt,
    state: SomeState<'_>,
    atoms: u32,
) -> Result<bool, AllocError>
    requires { AreBelow atoms (state_atoms state) }
{
    match state {
        SomeState::Listed(state) => enter(owners, sets, entry, &state, atoms),
        SomeState::Word(state) => enter(owners, sets, entry, &state, atoms),
    }
}

// Enters a state, unless another one has its sum, or there is no room.
fn enter<A: Sought>(
    owners: &mut StateOwners,
    sets: &[Explicit],
    entry: ListedAt,
    state: &A,
    atoms: u32,
) -> Result<bool, AllocError>
    requires { IsBelow atoms (A.has state.now) }
{
    let code = code_by(owners.coding, state, atoms);
    if owners.codes.len() >= u32::MAX as usize || meets_other(owners, sets, code, state, atoms) {
        return Ok(false);
    }
    owners.entries.truncate(owners.codes.len());
    owners.entries.push(entry)?;
    owners.codes.push(code)?;
    Ok(true)
}

// Whether the sums are to be given up: the last entry of the code is of another state.
fn meets_other<A: Sought>(
    owners: &StateOwners,
    sets: &[Explicit],
    code: u64,
    state: &A,
    atoms: u32,
) -> bool
    requires { IsBelow atoms (A.has state.now) }
{
    if !can_meet(owners.coding, atoms) {
        return false;
    }
    let end = owners.codes.last(code);
    if end == 0 || end > owners.entries.len() {
        return false;
    }
    let entry = owners.entries[end - 1];
    let number = entry.set as usize;
    if number >= sets.len() {
        return false;
    }
    let set = &sets[number];
    set.atoms() == atoms && !set.has_state_at(entry.place as usize, state)
}

/// Whether one of the operands, asked about after the action (true) or before it, is found to be a
/// set that lists the state of these atoms. It is looked for among as many entries as there are
/// operands.
pub(crate) fn finds_owner<A: Sought>(
    owners: &StateOwners,
    sets: &[Explicit],
    operands: &NamedSets<'_>,
    after: bool,
    held: &A,
    atoms: u32,
) -> bool
    requires listed { AreListings sets.now }
    requires over { AreListsOver sets.now atoms }
    requires below { IsBelow atoms (A.has held.now) }
    ensures { IsTrue result → (state : List Bool) → length state ≡ atoms
        → IsSetOf (A.has held.now) state → IsOwned sets.now operands.now after state }
{
    let code = code_by(owners.coding, held, atoms);
    let mut rest = owners.codes.last(code);
    for _ in 0..operands.len() {
        if rest == 0 || rest > owners.entries.len() {
            return false;
        }
        if is_owner(sets, operands, after, owners.entries[rest - 1], held, atoms) {
            return true;
        }
        rest = owners.codes.earlier(rest - 1);
    }
    false
}

// Whether the entry is of a set that the operands name, and its state has just these atoms.
fn is_owner<A: Sought>(
    sets: &[Explicit],
    operands: &NamedSets<'_>,
    after: bool,
    entry: ListedAt,
    held: &A,
    atoms: u32,
) -> bool
    requires over { AreListsOver sets.now atoms }
    requires below { IsBelow atoms (A.has held.now) }
    ensures { IsTrue result ↔ IsOwner (A.has held.now) sets.now operands.now after entry }
{
    let _ = atoms;
    let number = entry.set as usize;
    if number >= sets.len() || !operands.names(number, after) {
        return false;
    }
    sets[number].has_state_at(entry.place as usize, held)
}

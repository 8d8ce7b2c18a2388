//! Sets of listed states.
//!
//! A listed state is kept once: a set has the list of its states, and an index (`places`) of codes
//! (`codes`). A hit is confirmed on the atoms, where codes aren't exact, and a result is compared
//! with a listed state through the effect. Only the first of equal states is entered, in the set
//! and in the store, and the search goes through these alone, so repeats cost one look-up each. The
//! cost of a query stays the length of the list.

ghost use Rattle.std.specs.Prelude.{◌≡◌, ◌<◌, ◌-◌, ◌^◌, ℕ, Bool, List, [], length, map, min, drop};
ghost use Rattle.std.specs.Prelude.{slice_index_or, IsTrue, IfOk, IfSome, OnOk};
ghost use Rattle.std.specs.Prelude.{⊤, ◌↔◌, true};
ghost use Rattle.std.specs.List.Sorted.{IsStrictlyIncreasing};
ghost use Rattle.hv_task.specs.State.{AreBelow};
ghost use Rattle.hv_task.specs.Strips.{atoms};
ghost use Rattle.hv_task.specs.Atoms.{is_after};
ghost use Rattle.hv_sets.specs.Cubes.{SpeakBelow};
ghost use Rattle.hv_sets.specs.Walks.{IsStateOf, Meets};
ghost use Rattle.hv_sets.specs.Truth.{in_states};
ghost use Rattle.hv_explicit.specs.Codes.{IsBelow, IsSetOf};
ghost use Rattle.hv_explicit.specs.ListedStates.{AreRising, AreStates, full_cube, full_cubes};
ghost use Rattle.hv_explicit.specs.ListedStates.{in_listing};
ghost use Rattle.hv_explicit.specs.Working.Codes.{IsSame};
ghost use Rattle.hv_explicit.specs.Working.Listing.{AreFirsts};
ghost use Rattle.hv_explicit.specs.Working.Holders.{AreHolders, listed_places};
ghost use Rattle.hv_explicit.specs.Working.SomeStates.{IsOfFew, state_atoms};
ghost use Rattle.hv_explicit.specs.Working.Laws as laws;

use crate::holders::SomePlaces;
use crate::made::is_found_result;
use crate::sought::{ActionResult, Coded, ReadInOrder, SomeState, Sought};
use crate::state_index::{
    StateIndex, firsts_in, held_in, index_of, is_in, kept_code, lists_in, place_in, start_in,
    state_in,
};
use hv_sets::{
    Cube, Cursor, Inside, KeptState, Literal, Scratch, StateBuffer, StateList, StateSet, Step,
};
use hv_task::{Action, Atoms, State, Task, names_atom};
use std::alloc::{AllocError, Global};
use std::marker::Model;

/// A set of states of a task that are listed one by one. Each is kept once, as its atoms.
#[derive(Drop)]
pub struct Explicit {
    atoms: u32,
    states: StateList,
    // Where the states are that no earlier one is, to look one up.
    index: StateIndex,
}

impl Model for Explicit {
    ghost use Rattle.hv_explicit.specs.Working.Holders.{IsKeptListing};
    ghost use Rattle.hv_explicit.specs.ListedStates.{ListedStates};

    ghost Value = { ListedStates };

    ghost view = { λ s. record { atoms = s.atoms; states = s.states } };

    ghost invariant = { λ s. IsKeptListing s.atoms s.states s.index };
}

impl Explicit {
    /// The set of these states of the task, which are shared where the list is, and else copied.
    /// More than 4,294,967,295 states are answered as out of memory; a line has fewer than
    /// 8,388,608, since a state takes two bytes at least.
    pub fn new(alloc: Global, task: &Task, states: &StateList) -> Result<Explicit, AllocError>
        requires { AreStates (atoms task.now) states.now }
        ensures { IfOk result (λ set.
            set ≡ record { atoms = atoms task.now; states = states.now }) }
    {
        Explicit::from_list(alloc, task, states.copy(alloc)?)
    }

    /// The set of these states of the task. There is no space for more than 4,294,967,295.
    pub fn from_list(alloc: Global, task: &Task, states: StateList) -> Result<Explicit, AllocError>
        requires { AreStates (atoms task.now) states }
        ensures { IfOk result (λ set. set ≡ record { atoms = atoms task.now; states = states }) }
    {
        let atoms = task.atoms();
        let index = index_of(alloc, atoms, &states)?;
        Ok(Explicit {
            atoms,
            states,
            index,
        })
    }

    /// The listed states, in order.
    pub fn states(&self) -> &StateList
        ensures states { result.now ≡ self.now.states }
        ensures below { AreStates self.now.atoms result.now }
        ensures rise { AreRising result.now }
    {
        &self.states
    }

    /// The places of the states that no earlier one is; of two states both.
    pub(crate) fn firsts(&self) -> &[u32]
        ensures { AreFirsts self.now.states result.now (length self.now.states) }
    {
        firsts_in(&self.index, &self.states)
    }

    /// The places of the states that hold all of these atoms, and maybe others. There are none
    /// where no atom is given, and where a walk through all states is as short.
    pub(crate) fn held_by(
        &self,
        alloc: Global,
        atoms: &[u32],
    ) -> Result<Option<SomePlaces<'_>>, AllocError>
        ensures { IfOk result (λ o. IfSome o (λ part.
            AreHolders self.now.states atoms.now (listed_places part))) }
    {
        held_in(alloc, &self.index, &self.states, atoms)
    }

    /// Whether the state of these atoms is listed: of a state, of a list, or of the result of an
    /// action, which isn't built.
    pub fn lists<A: Atoms>(&self, held: &A) -> bool
        requires { IsBelow self.now.atoms (A.has held.now) }
        ensures { (state : List Bool) → length state ≡ self.now.atoms
            → IsSetOf (A.has held.now) state → result ≡ in_listing self.now state }
    {
        self.has(&ReadInOrder { set: held })
    }

    /// Whether the result of the action in the state of these atoms is listed. It isn't built.
    pub fn lists_after(&self, held: &[u32], action: &Action) -> bool
        requires rises { IsStrictlyIncreasing held.now }
        requires below { IsBelow self.now.atoms (is_after action.now held.now) }
        ensures { (state : List Bool) → length state ≡ self.now.atoms
            → IsSetOf (is_after action.now held.now) state → result ≡ in_listing self.now state }
    {
        let state = Coded::new(self.key(), held);
        self.has(&ActionResult::of(state, action))
    }

    /// How many states are listed.
    pub(crate) fn len(&self) -> usize
        ensures { result ≡ length self.now.states }
    {
        self.states.len()
    }

    /// How many atoms the task has.
    pub(crate) fn atoms(&self) -> u32
        ensures { result ≡ self.now.atoms }
    {
        self.atoms
    }

    /// The key of the codes of the states.
    pub(crate) fn key(&self) -> u64 {
        self.index.key(self.atoms)
    }

    /// Whether the set of atoms is listed.
    pub(crate) fn has<A: Sought>(&self, held: &A) -> bool
        requires { IsBelow self.now.atoms (A.has held.now) }
        ensures { (state : List Bool) → length state ≡ self.now.atoms
            → IsSetOf (A.has held.now) state → result ≡ in_listing self.now state }
    {
        lists_in(&self.index, &self.states, held, self.atoms)
    }

    /// Whether the state at this place has just these atoms.
    pub(crate) fn has_state_at<A: Sought>(&self, place: usize, held: &A) -> bool
        requires { IsBelow self.now.atoms (A.has held.now) }
        ensures { IsTrue result ↔ ((place < length self.now.states)
            × IsSame (A.has held.now) (slice_index_or self.now.states place [])) }
    {
        if place >= self.states.len() {
            return false;
        }
        is_in(&self.index, &self.states, place, held, self.atoms)
    }

    /// Whether the state at this place has just these atoms, and so they are those of a listed
    /// state.
    pub(crate) fn lists_at<A: Sought>(&self, place: usize, held: &A) -> bool
        requires { IsBelow self.now.atoms (A.has held.now) }
        ensures { IsTrue result → (state : List Bool) → length state ≡ self.now.atoms
            → IsSetOf (A.has held.now) state → in_listing self.now state ≡ true }
    {
        let states = self.states();
        place < states.len() && self.has_state_at(place, held)
    }

    /// Whether the state at this place is what the action makes of the state of these atoms.
    /// The buffer may give the space for the state.
    pub(crate) fn has_result_at(
        &self,
        place: usize,
        held: &[u32],
        action: &Action,
        buffer: &mut StateBuffer,
    ) -> bool
        requires below { IsBelow self.now.atoms (is_after action.now held.now) }
        requires rises { IsStrictlyIncreasing held.now }
        ensures { IsTrue result → (state : List Bool) → length state ≡ self.now.atoms
            → IsSetOf (is_after action.now held.now) state → in_listing self.now state ≡ true }
    {
        let states = self.states();
        if place >= states.len() {
            return false;
        }
        is_found_result(states.get(place).slice(buffer), held, action)
    }

    /// The code of the state at this place, where one is kept, and else 0.
    pub(crate) fn code_at(&self, place: usize) -> u64 {
        kept_code(&self.index, &self.states, place)
    }

    /// Where the chain of a code starts.
    pub(crate) fn start_of(&self, code: u64) -> usize {
        start_in(&self.index, code)
    }

    /// The place of a state of this code, if it is found by where its chain starts.
    pub(crate) fn place_from(&self, start: usize, code: u64) -> Option<u32> {
        place_in(&self.index, start, code)
    }

    /// The atoms of the state at this place, rising.
    pub(crate) fn atoms_at(&self, place: usize) -> KeptState<'_>
        requires { place < length self.now.states }
        ensures atoms { result ≡ slice_index_or self.now.states place [] }
        ensures below { AreBelow self.now.atoms result }
    {
        self.states.get(place)
    }

    /// The state at this place, for which the buffer may give the space.
    pub(crate) fn at<'a>(&'a self, place: usize, buffer: &'a mut StateBuffer) -> SomeState<'a>
        requires { place < length self.now.states }
        ensures atoms { state_atoms result ≡ slice_index_or self.now.states place [] }
        ensures below { AreBelow self.now.atoms (state_atoms result) }
        ensures few { IsOfFew self.now.atoms result }
    {
        state_in(&self.index, &self.states, place, self.atoms, buffer)
    }
}

impl StateSet for Explicit {
    ghost atoms = { λ set. set.atoms };

    ghost has = { in_listing };

    fn holds(&self, state: &State) -> bool {
        self.lists(state)
    }

    fn meets(&self, alloc: Global, cube: &Cube, scratch: &mut Scratch) -> Result<bool, AllocError> {
        let _ = alloc;
        scratch.reserve(self.atoms, 0, 0)?;
        Ok(meets_some(&self.states, cube, &mut scratch.state))
    }
}

impl Inside for Explicit {
    ghost inside = { full_cubes };

    ghost stands_inside = { λ _ _. ⊤ };

    ghost inside_left = { λ set cursor. drop cursor.place (full_cubes set) };

    fn inside_next(&self, cursor: &mut Cursor, cube: &mut Cube) -> Result<Step, AllocError> {
        if cursor.place >= self.states.len() as u64 {
            return Ok(Step::End);
        }
        let mut buffer = StateBuffer::new();
        let held = self.states.get(cursor.place as usize).slice(&mut buffer);
        fill(cube, self.atoms, held)?;
        cursor.place += 1;
        Ok(Step::Cube)
    }

    fn inside_count(&self, alloc: Global, cap: u64) -> Result<u64, AllocError> {
        let _ = alloc;
        Ok((self.states.len() as u64).min(cap + 1))
    }

    ghost starts_inside = { λ _ _ _. tt };

    ghost starts_with_inside = { laws.starts_with_all };

    ghost inside_is = { laws.full_cubes_are };
}

// Looks for a listed state in the cube, and leaves it in the state.
fn meets_some(states: &StateList, cube: &Cube, state: &mut State) -> bool
    requires states { AreStates (length state.old) states.now }
    requires cube { SpeakBelow (length state.old) cube.now }
    ensures meets { Meets result (length state.old) (in_states (length state.old) states.now)
        cube.now state.new }
    ensures length { length state.new ≡ length state.old }
{
    let mut buffer = StateBuffer::new();
    for place in 0..states.len() {
        state.hold(states.get(place).slice(&mut buffer));
        if cube.has(state) {
            return true;
        }
    }
    false
}

// Makes the cube that of one state alone.
fn fill(cube: &mut Cube, atoms: u32, held: &[u32]) -> Result<(), AllocError>
    requires { IsStrictlyIncreasing held.now }
    ensures { OnOk result (cube.new ≡ full_cube atoms held.now) }
{
    cube.clear();
    for atom in 0..atoms {
        let positive = names_atom(held, atom);
        cube.add(Literal { atom, positive })?;
    }
    Ok(())
}

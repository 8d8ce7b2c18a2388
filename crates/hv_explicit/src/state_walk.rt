//! The walk over listed states. It is at each as a state, and writes no cube.

ghost use Rattle.std.specs.Prelude.{◌≡◌, ◌≤◌, ◌<◌, Bool, List, [], IfOk, drop, length};
ghost use Rattle.std.specs.Prelude.{slice_index_or};
ghost use Rattle.hv_task.specs.State.{AreBelow, put_all, state_of};
ghost use Rattle.hv_sets.specs.Walks.{IsStateOf, in_cubes};
ghost use Rattle.hv_explicit.specs.ListedStates.{AreStates, full_cubes, in_listing};
ghost use Rattle.hv_explicit.specs.Walked.{StandsAfter, last_atoms, path_at};

use crate::explicit::Explicit;
use hv_paths::{WalkStop, Walker};
use hv_sets::{StateBuffer, StateList};
use hv_task::State;
use std::alloc::{AllocError, Global};

// With fewer atoms a state is written anew for each step.
const WIDE: u32 = 1024;

/// The walk over the states of an explicit set, in order.
#[derive(Drop)]
pub struct StateWalk<'a> {
    set: &'a Explicit,
    // How many states were taken, and the last of them.
    taken: usize,
    state: State,
}

impl<'a> StateWalk<'a> {
    /// The walk before its first step.
    pub(crate) fn new(alloc: Global, set: &'a Explicit) -> Result<StateWalk<'a>, AllocError>
        ensures stands { IfOk result (λ walk. ⟦<StateWalk<'a> as Walker>⟧.stands walk) }
        ensures atoms { IfOk result
            (λ walk. ⟦<StateWalk<'a> as Walker>⟧.atoms walk ≡ set.now.atoms) }
        ensures all { IfOk result (λ walk. (s : List Bool) → IsStateOf set.now.atoms s
            → in_cubes (⟦<StateWalk<'a> as Walker>⟧.left walk) s ≡ in_listing set.now s) }
    {
        let state = State::empty(alloc, set.atoms())?;
        Ok(StateWalk {
            set,
            taken: 0,
            state,
        })
    }
}

impl<'a> Walker for StateWalk<'a> {
    ghost atoms = { λ w. w.set.now.atoms };

    ghost stands = { λ w. StandsAfter w.set.now w.taken w.state };

    ghost path = { λ w. path_at w.set.now w.taken };

    ghost left = { λ w. drop w.taken (full_cubes w.set.now) };

    fn advance(&mut self) -> Result<Option<usize>, AllocError> {
        let states = self.set.states();
        if self.taken >= states.len() {
            return Ok(None);
        }
        stand_at(&mut self.state, states, self.taken);
        self.taken += 1;
        Ok(Some(0))
    }

    fn stop(&self) -> WalkStop<'_> {
        let states = self.set.states();
        if self.taken == 0 {
            return WalkStop::Cube(&[]);
        }
        WalkStop::State(states.get(self.taken - 1), &self.state)
    }
}

// Makes the state that of the place, from that of the place before it.
fn stand_at(state: &mut State, states: &StateList, place: usize)
    requires place { place < length states.now }
    requires below { AreStates (length state.old) states.now }
    requires is { state.old ≡ state_of (length state.old) (last_atoms states.now place) }
    ensures held { state.new ≡ state_of (length state.old)
        (slice_index_or states.now place []) }
    ensures atoms { length state.new ≡ length state.old }
{
    let mut buffer = StateBuffer::new();
    let after = states.get(place).slice(&mut buffer);
    if state.atoms() < WIDE {
        state.hold(after);
        return;
    }
    let mut earlier = StateBuffer::new();
    change(state, last_of(states, place, &mut earlier), after);
}

// The atoms of the state that was taken last, where so many were taken; none before the first.
fn last_of<'a>(states: &'a StateList, taken: usize, buffer: &'a mut StateBuffer) -> &'a [u32]
    requires { taken ≤ length states.now }
    ensures { result.now ≡ last_atoms states.now taken }
{
    if taken == 0 {
        return &[];
    }
    states.get(taken - 1).slice(buffer)
}

// Makes the state of the one list that of the other; where the first has no more atoms than the
// state has words, by the atoms of the two alone.
fn change(state: &mut State, before: &[u32], after: &[u32])
    requires before { AreBelow (length state.old) before.now }
    requires after { AreBelow (length state.old) after.now }
    requires is { state.old ≡ state_of (length state.old) before.now }
    ensures held { state.new ≡ state_of (length state.old) after.now }
    ensures atoms { length state.new ≡ length state.old }
{
    if before.len() > state.words().len() {
        state.hold(after);
        return;
    }
    put_all(state, before, false);
    put_all(state, after, true);
}

// Puts these atoms in (true) or takes them out (false).
fn put_all(state: &mut State, atoms: &[u32], value: bool)
    requires { AreBelow (length state.old) atoms.now }
    ensures put { state.new ≡ put_all value atoms.now state.old }
    ensures atoms { length state.new ≡ length state.old }
{
    for atom in atoms {
        state.set(*atom, value);
    }
}

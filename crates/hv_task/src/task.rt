//! Planning tasks: their atoms, initial state, goal and actions, and which lists are plans.
//!
//! The atoms of a task are the places of the list of names, so there is no second number that has
//! to agree with it. `Task::after` asks less than it might: it gives the successor also where the
//! action isn't applicable.

ghost use Rattle.std.specs.Prelude.{◌≡◌, ◌<◌, ◌++◌, ◌∷◌, ◌↔◌, [], length, true, IsTrue, IfOk};
ghost use Rattle.std.specs.Prelude.{OnErr, Some, is_some, slice_get};
ghost use Rattle.hv_task.specs.declared.action.Action.{Action};
ghost use Rattle.hv_task.specs.State.{AreBelow, applicable, successor};
ghost use Rattle.hv_task.specs.Strips.{atoms, start_state, is_goal, IsOver, IsState, IsTask};
ghost use Rattle.hv_task.specs.Plan.{Solves, step_of};

use crate::action::Action;
use crate::atom_list::AtomList;
use crate::name::Name;
use crate::state::State;
use std::alloc::{AllocError, Global};
use std::marker::Model;

/// A planning task in STRIPS form (Eriksson, Röger and Helmert, 2018). Atoms and actions are
/// numbered from 0 in the order in which they were added.
#[derive(Drop)]
pub struct Task {
    names: Vec<Name>,
    start: AtomList,
    goal: AtomList,
    actions: Vec<Action>,
}

impl Model for Task {
    ghost use Rattle.hv_task.specs.Strips.{Strips, IsTask};

    ghost Value = { Strips };

    ghost view = { λ t. record {
      names = t.names.items;
      start = t.start;
      goal = t.goal;
      actions = t.actions.items;
    } };

    ghost invariant = { λ t. IsTask record {
      names = t.names.items;
      start = t.start;
      goal = t.goal;
      actions = t.actions.items;
    } };
}

impl Task {
    /// A task without atoms and actions.
    pub fn new(alloc: Global) -> Task
        ensures { result ≡ record { names = []; start = []; goal = []; actions = [] } }
    {
        Task {
            names: Vec::new(alloc),
            start: AtomList::new(alloc),
            goal: AtomList::new(alloc),
            actions: Vec::new(alloc),
        }
    }

    /// Adds an atom, which is false at the start and not in the goal, and gives its number.
    pub fn add_atom(&mut self, name: Name) -> Result<u32, AllocError>
        requires { atoms self.old < 65535 }
        ensures number { IfOk result (λ number. number ≡ atoms self.old) }
        ensures ok { IfOk result (λ _. self.new
            ≡ record self.old { names = self.old.names ++ name ∷ [] }) }
        ensures err { OnErr result (self.new ≡ self.old) }
    {
        let number = self.atoms();
        self.names.push(name)?;
        Ok(number)
    }

    /// The atoms that are true at the start, in place of those before.
    pub fn set_start(&mut self, start: AtomList)
        requires { AreBelow (atoms self.old) start }
        ensures { self.new ≡ record self.old { start = start } }
    {
        // For its contract alone: the list rises.
        let _len = start.len();
        self.start = start;
    }

    /// The atoms that the goal asks for, in place of those before.
    pub fn set_goal(&mut self, goal: AtomList)
        requires { AreBelow (atoms self.old) goal }
        ensures { self.new ≡ record self.old { goal = goal } }
    {
        // For its contract alone: the list rises.
        let _len = goal.len();
        self.goal = goal;
    }

    /// Adds an action, and gives its number.
    #[inline(always)]
    pub fn add_action(&mut self, action: Action) -> Result<u32, AllocError>
        requires over { IsOver (atoms self.old) action }
        requires room { length self.old.actions < 1000000 }
        ensures number { IfOk result (λ number. number ≡ length self.old.actions) }
        ensures ok { IfOk result (λ _. self.new
            ≡ record self.old { actions = self.old.actions ++ action ∷ [] }) }
        ensures err { OnErr result (self.new ≡ self.old) }
    {
        let number = self.actions();
        self.actions.push(action)?;
        Ok(number)
    }

    /// How many atoms the task has, at most 65,535.
    pub fn atoms(&self) -> u32
        ensures atoms { result ≡ atoms self.now }
        ensures task { IsTask self.now }
    {
        self.names.len() as u32
    }

    /// How many actions the task has, at most 1,000,000.
    pub fn actions(&self) -> u32
        ensures actions { result ≡ length self.now.actions }
        ensures task { IsTask self.now }
    {
        self.actions.len() as u32
    }

    /// The action of this number.
    pub fn action(&self, number: u32) -> &Action
        requires { number < length self.now.actions }
        ensures named { slice_get self.now.actions number ≡ Some result.now }
        ensures over { IsOver (atoms self.now) result.now }
    {
        &self.actions[number as usize]
    }

    /// The name of the atom of this number.
    pub fn atom_name(&self, atom: u32) -> &Name
        requires { atom < atoms self.now }
        ensures { slice_get self.now.names atom ≡ Some result.now }
    {
        &self.names[atom as usize]
    }

    /// The atoms that are true at the start.
    pub fn start(&self) -> &AtomList
        ensures start { result.now ≡ self.now.start }
        ensures below { AreBelow (atoms self.now) result.now }
    {
        &self.start
    }

    /// The atoms that the goal asks for.
    pub fn goal(&self) -> &AtomList
        ensures goal { result.now ≡ self.now.goal }
        ensures below { AreBelow (atoms self.now) result.now }
    {
        &self.goal
    }

    /// The initial state.
    pub fn start_state(&self, alloc: Global) -> Result<State, AllocError>
        ensures start { IfOk result (λ state. state ≡ start_state self.now) }
        ensures state { IfOk result (λ state. IsState self.now state) }
    {
        let mut state = State::empty(alloc, self.atoms())?;
        state.put_all(self.start().as_slice(), true);
        Ok(state)
    }

    /// Whether the action's whole precondition holds in the state.
    pub fn applicable(&self, action: u32, state: &State) -> bool
        requires action { action < length self.now.actions }
        requires state { IsState self.now state.now }
        ensures { (a : Action) → slice_get self.now.actions action ≡ Some a
            → result ≡ applicable a state.now }
    {
        state.has_all(self.action(action).pre.as_slice())
    }

    /// Writes the successor of the state by the action into another state.
    pub fn after(&self, action: u32, state: &State, into: &mut State)
        requires action { action < length self.now.actions }
        requires state { IsState self.now state.now }
        requires into { IsState self.now into.old }
        ensures successor { (a : Action) → slice_get self.now.actions action ≡ Some a
            → into.new ≡ successor a state.now }
        ensures state { IsState self.now into.new }
    {
        into.copy_from(state);
        self.action(action).apply(into);
    }

    /// Whether the state holds the whole goal.
    pub fn goal_in(&self, state: &State) -> bool
        requires { IsState self.now state.now }
        ensures { result ≡ is_goal self.now state.now }
    {
        state.has_all(self.goal().as_slice())
    }

    /// Whether the list is a plan. A number that names no action makes it none.
    pub fn solves(&self, alloc: Global, list: &[u32]) -> Result<bool, AllocError>
        ensures { IfOk result (λ yes. IsTrue yes ↔ Solves self.now list.now) }
    {
        let mut state = self.start_state(alloc)?;
        for number in list {
            if !self.has_step(*number, &state) {
                return Ok(false);
            }
            self.action(*number).apply(&mut state);
        }
        Ok(self.goal_in(&state))
    }

    // Whether the number names an action that is applicable in the state.
    fn has_step(&self, number: u32, state: &State) -> bool
        requires { IsState self.now state.now }
        ensures { result ≡ is_some (step_of (slice_get self.now.actions number) state.now) }
    {
        number < self.actions() && self.applicable(number, state)
    }
}

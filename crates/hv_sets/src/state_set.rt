//! What sets of states can be asked: the traits, each with its laws.

ghost use Rattle.std.specs.Prelude.{◌≡◌, ◌≤◌, ◌+◌, ℕ, Bool, List, Option, length, min, not, IfOk};
ghost use Rattle.std.specs.Prelude.{OnOk};
ghost use Rattle.hv_sets.specs.Cost.{most_counted};
ghost use Rattle.hv_sets.specs.Cubes.{SpeakBelow};
ghost use Rattle.hv_sets.specs.Room.{KeepsLengths};
ghost use Rattle.hv_sets.specs.Walks.{Covers, IsNew, IsStateOf, Meets, StepSpeaksBelow, TakesCube};
ghost use Rattle.hv_sets.specs.Walks.{TakesStep, in_cubes, in_steps};
ghost use Rattle.hv_sets.specs.declared.cursor.Cursor.{Cursor};
ghost use Rattle.hv_sets.specs.declared.literal.Literal.{Literal};

use crate::cube::Cube;
use crate::cursor::{Cursor, Step};
use crate::scratch::Scratch;
use hv_task::State;
use std::alloc::{AllocError, Global};

/// Nothing is counted further: no inclusion and no check has a greater budget, no walk is asked for
/// more steps, and no list has more nodes.
pub const MOST_COUNTED: u64 = 16_777_216;

/// A set of states of a task.
pub trait StateSet {
    // How many atoms the task has.
    ghost atoms: { Self → ℕ };

    // Whether a state is in the set.
    ghost has: { Self → List Bool → Bool };

    /// Whether the state is in the set.
    fn holds(&self, state: &State) -> bool
        requires { IsStateOf (atoms self.now) state.now }
        ensures { result ≡ has self.now state.now };

    /// Whether some state is in the cube and in the set. One such state then is in the scratch.
    fn meets(&self, alloc: Global, cube: &Cube, scratch: &mut Scratch) -> Result<bool, AllocError>
        requires { SpeakBelow (atoms self.now) cube.now }
        ensures meets { IfOk result (λ yes.
            Meets yes (atoms self.now) (has self.now) cube.now scratch.new.state) }
        ensures lengths { KeepsLengths scratch.old scratch.new };
}

/// A set whose complement is a union of cubes that can be gone through one by one.
pub trait Outside: StateSet {
    // The steps of the walk over the complement.
    ghost outside: { Self → List (Option (List Literal)) };

    // The cursor denotes this walk.
    ghost stands_outside: { Self → Cursor → Type 0 };

    // The steps that are left where it does.
    ghost outside_left: { Self → Cursor → List (Option (List Literal)) };

    /// Takes the next step. After running out of memory the walk is over.
    fn outside_next(&self, cursor: &mut Cursor, cube: &mut Cube) -> Result<Step, AllocError>
        requires { stands_outside self.now cursor.old }
        ensures step { IfOk result (λ step.
            TakesStep step cube.new (outside_left self.now cursor.old)
            (outside_left self.now cursor.new)) }
        ensures stands { OnOk result (stands_outside self.now cursor.new) }
        ensures cube { IfOk result (λ step. StepSpeaksBelow (Self.atoms self.now) step cube.new) };

    /// How many steps there are: exact up to `cap`, and `cap + 1` beyond. No cap is above
    /// `MOST_COUNTED`.
    fn outside_count(&self, alloc: Global, cap: u64) -> Result<u64, AllocError>
        requires { cap ≤ most_counted }
        ensures { IfOk result (λ count. count ≡ min (length (outside self.now)) (cap + 1)) };

    // A new cursor denotes the walk, and all its steps are left.
    ghost starts_outside: { (set : Self) (cursor : Cursor) → IsNew cursor
        → stands_outside set cursor };

    ghost starts_with_outside: { (set : Self) (cursor : Cursor) → IsNew cursor
        → outside_left set cursor ≡ outside set };

    // The cubes of the steps are the states outside the set.
    ghost outside_is: { (set : Self) (state : List Bool) → IsStateOf (Self.atoms set) state
        → in_steps (outside set) state ≡ not (Self.has set state) };
}

/// A set that is a union of cubes that can be gone through one by one.
pub trait Inside: StateSet {
    // The cubes of the walk over the set.
    ghost inside: { Self → List (List Literal) };

    // The cursor denotes this walk.
    ghost stands_inside: { Self → Cursor → Type 0 };

    // The cubes that are left where it does.
    ghost inside_left: { Self → Cursor → List (List Literal) };

    /// Takes the next cube. After running out of memory the walk is over.
    fn inside_next(&self, cursor: &mut Cursor, cube: &mut Cube) -> Result<Step, AllocError>
        requires { stands_inside self.now cursor.old }
        ensures step { IfOk result (λ step.
            TakesCube step cube.new (inside_left self.now cursor.old)
            (inside_left self.now cursor.new)) }
        ensures stands { OnOk result (stands_inside self.now cursor.new) }
        ensures cube { IfOk result (λ step. StepSpeaksBelow (Self.atoms self.now) step cube.new) };

    /// How many cubes there are: exact up to `cap`, and `cap + 1` beyond. No cap is above
    /// `MOST_COUNTED`.
    fn inside_count(&self, alloc: Global, cap: u64) -> Result<u64, AllocError>
        requires { cap ≤ most_counted }
        ensures { IfOk result (λ count. count ≡ min (length (inside self.now)) (cap + 1)) };

    // A new cursor denotes the walk, and all its cubes are left.
    ghost starts_inside: { (set : Self) (cursor : Cursor) → IsNew cursor
        → stands_inside set cursor };

    ghost starts_with_inside: { (set : Self) (cursor : Cursor) → IsNew cursor
        → inside_left set cursor ≡ inside set };

    // The cubes are the states of the set.
    ghost inside_is: { (set : Self) (state : List Bool) → IsStateOf (Self.atoms set) state
        → in_cubes (inside set) state ≡ Self.has set state };
}

/// A set of which it can be told whether it has every state of a cube.
pub trait Covering: StateSet {
    /// Whether each state of the cube is in the set. Otherwise a state of the cube outside the set
    /// is in the scratch.
    fn covers(&self, alloc: Global, cube: &Cube, scratch: &mut Scratch) -> Result<bool, AllocError>
        requires { SpeakBelow (Self.atoms self.now) cube.now }
        ensures covers { IfOk result (λ yes.
            Covers yes (Self.atoms self.now) (Self.has self.now) cube.now scratch.new.state) }
        ensures lengths { KeepsLengths scratch.old scratch.new };
}

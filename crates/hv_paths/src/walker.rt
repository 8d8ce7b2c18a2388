//! Walks over cubes.
//!
//! The walk says how many literals of a cube are those of the cube before, in the order in which
//! they are. The order of the literals is the walk's own, and not that of the atoms, so that what
//! two paths have in common is a prefix of both. A question may say in which order of the atoms it
//! answers best, and a walk that may choose goes by it; no promise rests on it, only how long an
//! answer takes.
//!
//! A walk may occur at a state: a listed state is handed over as its atoms and as a `State`, and is
//! never written as a cube of as many literals as there are atoms. What is left of a walk is
//! reported by its states, and not by its cubes: a step takes a cube and leaves cubes that have,
//! with it, the states that were left (`LeavesRest`). So a walk may write the literals of a cube in
//! the order that serves the question, with no promise about that order.

ghost use Rattle.std.specs.Prelude.{ℕ, List, IfOk, IfSome, ◌≡◌};
ghost use Rattle.hv_sets.specs.declared.literal.Literal.{Literal};
ghost use Rattle.hv_paths.specs.Along.{IsStop, TakesPath};

use hv_sets::{KeptState, Literal};
use hv_task::State;
use std::alloc::AllocError;

/// Where a walk stands: at a cube, by its literals; or at one state alone, by the atoms that it
/// holds and as a state.
pub enum WalkStop<'a> {
    Cube(&'a [Literal]),
    State(KeptState<'a>, &'a State),
}

/// A walk over cubes, each written in the order of the walk. Many begin as the one before.
pub trait Walker {
    // How many atoms the task has.
    ghost atoms: { Self → ℕ };

    // The walk is as it should be.
    ghost stands: { Self → Type 0 };

    // The cube of the last step.
    ghost path: { Self → List Literal };

    // The cubes that are left.
    ghost left: { Self → List (List Literal) };

    /// Takes the next cube, and tells with how many of the literals of the one before it begins.
    /// After the last cube, and after running out of memory, the walk is over.
    fn advance(&mut self) -> Result<Option<usize>, AllocError>
        requires { stands self.old }
        ensures step { IfOk result (λ kept.
            TakesPath kept (path self.old) (path self.new) (left self.old) (left self.new)) }
        ensures stands { IfOk result (λ kept. IfSome kept (λ _. stands self.new)) }
        ensures atoms { atoms self.new ≡ atoms self.old };

    /// Where the walk is after the last step.
    fn stop(&self) -> WalkStop<'_>
        requires { stands self.now }
        ensures { IsStop (atoms self.now) (path self.now) result };
}

//! The plain walks: each cube is written anew, and nothing is said to stay.

ghost use Rattle.std.specs.Prelude.{◌≡◌, Bool, List, true, not, IfOk, OnOk};
ghost use Rattle.hv_sets.specs.Cubes.{SpeakBelow};
ghost use Rattle.hv_sets.specs.Walks.{in_cubes, IsStateOf};
ghost use Rattle.hv_paths.specs.Along.{cubes_of};
ghost use Rattle.hv_paths.specs.Working.Along.{TakesNext};

use crate::walker::{WalkStop, Walker};
use hv_sets::{Cube, Cursor, Inside, Outside, Step};
use std::alloc::{AllocError, Global};

/// The walk over the cubes of a set by its steps.
#[derive(Drop)]
pub struct InsideWalk<'a, L: Inside> {
    set: &'a L,
    cursor: Cursor,
    cube: Cube,
}

impl<'a, L: Inside> InsideWalk<'a, L> {
    /// The walk before its first step.
    pub fn new(alloc: Global, set: &'a L) -> InsideWalk<'a, L>
        ensures stands { ⟦<InsideWalk<'a, L> as Walker>⟧.stands result }
        ensures atoms { ⟦<InsideWalk<'a, L> as Walker>⟧.atoms result ≡ L.atoms set.now }
        ensures all { (s : List Bool) → IsStateOf (L.atoms set.now) s
            → in_cubes (⟦<InsideWalk<'a, L> as Walker>⟧.left result) s ≡ L.has set.now s }
    {
        InsideWalk {
            set,
            cursor: Cursor::new(alloc),
            cube: Cube::new(alloc),
        }
    }
}

impl<'a, L: Inside> Walker for InsideWalk<'a, L> {
    ghost atoms = { λ w. L.atoms w.set.now };

    ghost stands = { λ w. L.stands_inside w.set.now w.cursor
        × SpeakBelow (L.atoms w.set.now) w.cube };

    ghost path = { λ w. w.cube };

    ghost left = { λ w. L.inside_left w.set.now w.cursor };

    fn advance(&mut self) -> Result<Option<usize>, AllocError> {
        match self.set.inside_next(&mut self.cursor, &mut self.cube)? {
            Step::Cube => Ok(Some(0)),
            _ => Ok(None),
        }
    }

    fn stop(&self) -> WalkStop<'_> {
        WalkStop::Cube(self.cube.as_slice())
    }
}

/// The walk over the cubes of the complement of a set by its steps. It passes over those without a
/// cube.
#[derive(Drop)]
pub struct OutsideWalk<'a, R: Outside> {
    set: &'a R,
    cursor: Cursor,
    cube: Cube,
}

impl<'a, R: Outside> OutsideWalk<'a, R> {
    /// The walk before its first step.
    #[tactic(auto, using(crate::proofs::Filled::cubes_are))]
    pub fn new(alloc: Global, set: &'a R) -> OutsideWalk<'a, R>
        ensures stands { ⟦<OutsideWalk<'a, R> as Walker>⟧.stands result }
        ensures atoms { ⟦<OutsideWalk<'a, R> as Walker>⟧.atoms result ≡ R.atoms set.now }
        ensures all { (s : List Bool) → IsStateOf (R.atoms set.now) s
            → in_cubes (⟦<OutsideWalk<'a, R> as Walker>⟧.left result) s ≡ not (R.has set.now s) }
    {
        OutsideWalk {
            set,
            cursor: Cursor::new(alloc),
            cube: Cube::new(alloc),
        }
    }
}

impl<'a, R: Outside> Walker for OutsideWalk<'a, R> {
    ghost atoms = { λ w. R.atoms w.set.now };

    ghost stands = { λ w. R.stands_outside w.set.now w.cursor
        × SpeakBelow (R.atoms w.set.now) w.cube };

    ghost path = { λ w. w.cube };

    ghost left = { λ w. cubes_of (R.outside_left w.set.now w.cursor) };

    fn advance(&mut self) -> Result<Option<usize>, AllocError> {
        if next_cube(self.set, &mut self.cursor, &mut self.cube)? {
            Ok(Some(0))
        } else {
            Ok(None)
        }
    }

    fn stop(&self) -> WalkStop<'_> {
        WalkStop::Cube(self.cube.as_slice())
    }
}

// Takes the steps up to the next one that has a cube. The answer is false if there is none.
fn next_cube<R: Outside>(set: &R, cursor: &mut Cursor, cube: &mut Cube) -> Result<bool, AllocError>
    requires { R.stands_outside set.now cursor.old }
    ensures step { IfOk result (λ yes. TakesNext yes cube.new
        (cubes_of (R.outside_left set.now cursor.old))
        (cubes_of (R.outside_left set.now cursor.new))) }
    ensures stands { OnOk result (R.stands_outside set.now cursor.new) }
    ensures below { IfOk result (λ yes. yes ≡ true → SpeakBelow (R.atoms set.now) cube.new) }
{
    loop {
        match set.outside_next(cursor, cube)? {
            Step::Cube => return Ok(true),
            Step::Void => {}
            Step::End => return Ok(false),
        }
    }
}

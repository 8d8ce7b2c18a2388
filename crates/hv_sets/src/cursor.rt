//! Where a walk over the cubes of a set stands, and what its next step is.

ghost use Rattle.hv_sets.specs.Walks.{IsNew};

use std::alloc::Global;

/// What the next step of a walk is.
#[derive(Clone, Copy, Debug, PartialEq, Eq)]
pub enum Step {
    /// A cube.
    Cube,
    /// A step that has no cube, since no state belongs to it.
    Void,
    /// No step: the walk is over.
    End,
}

/// Where a walk over a set stands.
#[derive(Drop)]
pub struct Cursor {
    /// A place in a list.
    pub place: u64,
    /// A path in a diagram.
    pub path: Vec<u32>,
}

impl Cursor {
    /// The cursor before the first step of a walk.
    pub fn new(alloc: Global) -> Cursor
        ensures { IsNew result }
    {
        Cursor {
            place: 0,
            path: Vec::new(alloc),
        }
    }
}

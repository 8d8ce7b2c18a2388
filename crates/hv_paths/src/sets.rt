//! Sets of states that can be walked over and asked about.

ghost use Rattle.std.specs.Prelude.{◌≡◌, [], List, Bool, not, IfOk};
ghost use Rattle.hv_sets.specs.Walks.{IsStateOf, in_cubes};

use crate::asker::Asker;
use crate::walker::Walker;
use hv_sets::{Covering, Inside, Outside, StateSet};
use std::alloc::{AllocError, Global};

/// A set with a walk over its cubes.
pub trait InsideWalked<'a>: Inside {
    /// The walk.
    type Walk: Walker + Drop;

    /// The walk over the set before its first step.
    fn walk_inside(&'a self, alloc: Global) -> Result<Self::Walk, AllocError>
        ensures stands { IfOk result (λ walk. Self.Walk.stands walk) }
        ensures atoms { IfOk result (λ walk. Self.Walk.atoms walk ≡ Self.atoms self.now) }
        ensures all { IfOk result (λ walk. (s : List Bool) → IsStateOf (Self.atoms self.now) s
            → in_cubes (Self.Walk.left walk) s ≡ Self.has self.now s) };
}

/// A set with a walk over the cubes of its complement.
pub trait OutsideWalked<'a>: Outside {
    /// The walk.
    type Walk: Walker + Drop;

    /// The walk over the complement before its first step. Where the places of the atoms in an
    /// order are given, a walk that may choose takes its cubes and their literals in this order;
    /// where they are places of no atom, in whichever order it likes.
    fn walk_outside(
        &'a self,
        alloc: Global,
        places: Option<&'a [u32]>,
    ) -> Result<Self::Walk, AllocError>
        ensures stands { IfOk result (λ walk. Self.Walk.stands walk) }
        ensures atoms { IfOk result (λ walk. Self.Walk.atoms walk ≡ Self.atoms self.now) }
        ensures all { IfOk result (λ walk. (s : List Bool) → IsStateOf (Self.atoms self.now) s
            → in_cubes (Self.Walk.left walk) s ≡ not (Self.has self.now s)) };
}

/// A set with the question whether some state of it is in a cube.
pub trait InsideAsked<'a>: StateSet {
    /// The question.
    type Ask: Asker + Drop;

    /// The places of the atoms in the order in which literals are best assumed: none where that is
    /// the rising one, and places of no atom where every order serves. Only how long an answer
    /// takes hangs on it.
    fn places_inside(&'a self) -> Option<&'a [u32]>;

    /// The question about the states of the set, with nothing assumed.
    fn ask_inside(&'a self, alloc: Global) -> Result<Self::Ask, AllocError>
        ensures stands { IfOk result (λ ask. Self.Ask.stands ask) }
        ensures atoms { IfOk result (λ ask. Self.Ask.atoms ask ≡ Self.atoms self.now) }
        ensures first { IfOk result (λ ask. Self.Ask.assumed ask ≡ []) }
        ensures wanted { IfOk result (λ ask. (s : List Bool)
            → Self.Ask.wanted ask s ≡ Self.has self.now s) };
}

/// A set with the question whether some state outside it is in a cube.
pub trait OutsideAsked<'a>: Covering {
    /// The question.
    type Ask: Asker + Drop;

    /// The places of the atoms in the order in which literals are best assumed: none where that is
    /// the rising one, and places of no atom where every order serves. Only how long an answer
    /// takes hangs on it.
    fn places_outside(&'a self) -> Option<&'a [u32]>;

    /// The question about the states outside the set, with nothing assumed.
    fn ask_outside(&'a self, alloc: Global) -> Result<Self::Ask, AllocError>
        ensures stands { IfOk result (λ ask. Self.Ask.stands ask) }
        ensures atoms { IfOk result (λ ask. Self.Ask.atoms ask ≡ Self.atoms self.now) }
        ensures first { IfOk result (λ ask. Self.Ask.assumed ask ≡ []) }
        ensures wanted { IfOk result (λ ask. (s : List Bool)
            → Self.Ask.wanted ask s ≡ not (Self.has self.now s)) };
}

//! Lists of states.
//!
//! Listed states are in one list of atoms, with the end of each: a state of nine atoms takes 40
//! bytes there, where a list of its own takes 32 and a block of 36 to 80. Where a list is shared,
//! all its atoms are below 256, and its states hold eight or more as a mean and none more than 64,
//! they are kept in one byte each: a state of 24 of 48 atoms takes 28 bytes, and not 100. So `get`
//! of a `StateList` and `Log::state` answer a `KeptState`, from which the atoms are taken as a
//! slice that rises, and not an `AtomList`, which stays the type in which one state is put
//! together. The readers put atoms last one by one (`StateListBuilder`, as literals by
//! `ClausesBuilder`), so a line of two million states takes no memory a state but its atoms and its
//! end. Lists are shared as those of clauses are: of at most three states of at most eight atoms in
//! all each owner has its own.

ghost use Rattle.std.specs.Prelude.{◌≡◌, ◌<◌, [], ◌∷◌, ◌++◌, ◌==◌, length, slice_get, IfOk, Some};
ghost use Rattle.std.specs.Prelude.{OnOk, OnErr};
ghost use Rattle.std.specs.List.{All};
ghost use Rattle.std.specs.List.Sorted.{IsStrictlyIncreasing};
ghost use Rattle.hv_task.specs.State.{AreBelow};

use crate::flat::Flat;
use crate::listed_state::KeptState;
use crate::state_pieces::StatePieces;
use hv_task::AtomList;
use std::alloc::{AllocError, Global};
use std::marker::Model;

/// A list of states, each by the atoms that it holds, which rise.
#[derive(Drop)]
pub struct StateList {
    alloc: Global,
    pieces: StatePieces,
}

impl Model for StateList {
    ghost use Rattle.std.specs.Prelude.{◌≡◌, ℕ, List, []};
    ghost use Rattle.std.specs.List.{All};
    ghost use Rattle.std.specs.List.Sorted.{IsStrictlyIncreasing};
    ghost use Rattle.hv_sets.specs.Working.KeptStates.{AreFit, held_states};

    ghost Value = { List (List ℕ) };

    ghost view = { λ l. (held_states l.pieces).whole };

    ghost invariant = { λ l. ((held_states l.pieces).begun ≡ [])
        × All IsStrictlyIncreasing (held_states l.pieces).whole × AreFit l.pieces };
}

impl StateList {
    /// The empty list.
    pub fn new(alloc: Global) -> StateList
        ensures { result ≡ [] }
    {
        StateList {
            alloc,
            pieces: StatePieces::of(Flat::new(alloc)),
        }
    }

    /// The same list, of which each further copy takes no memory of its own.
    pub fn share(self) -> Result<StateList, AllocError>
        ensures { IfOk result (λ shared. shared ≡ self) }
    {
        let StateList { alloc, pieces } = self;
        Ok(StateList {
            alloc,
            pieces: pieces.share(alloc)?,
        })
    }

    /// The same list once more: together with this one where it is shared, and otherwise in as much
    /// memory as it needs.
    pub fn copy(&self, alloc: Global) -> Result<StateList, AllocError>
        ensures { IfOk result (λ copy. copy ≡ self.now) }
    {
        Ok(StateList {
            alloc,
            pieces: self.pieces.copy(alloc)?,
        })
    }

    /// Puts the item last. More than 4,294,967,295 atoms in all are answered as want
    /// of memory; a line has fewer than 8,388,608.
    pub fn push(&mut self, item: AtomList) -> Result<(), AllocError>
        ensures ok { OnOk result (self.new ≡ self.old ++ item ∷ []) }
        ensures err { OnErr result (self.new ≡ self.old) }
    {
        self.push_atoms(item.as_slice())
    }

    /// Puts the state of these atoms last. Copies that are shared stay as they are. More than
    /// 4,294,967,295 atoms in all are answered as out of memory; a line has fewer than
    /// 8,388,608.
    pub fn push_atoms(&mut self, atoms: &[u32]) -> Result<(), AllocError>
        requires { IsStrictlyIncreasing atoms.now }
        ensures ok { OnOk result (self.new ≡ self.old ++ atoms.now ∷ []) }
        ensures err { OnErr result (self.new ≡ self.old) }
    {
        self.pieces.push(self.alloc, atoms)
    }

    /// How many states there are.
    pub fn len(&self) -> usize
        ensures len { result ≡ length self.now }
        ensures rise { All IsStrictlyIncreasing self.now }
    {
        self.pieces.len()
    }

    /// Whether there is none.
    pub fn is_empty(&self) -> bool
        ensures { result ≡ (length self.now == 0) }
    {
        self.len() == 0
    }

    /// The state at a place from 0.
    pub fn get(&self, place: usize) -> KeptState<'_>
        requires { place < length self.now }
        ensures state { slice_get self.now place ≡ Some result }
        ensures rises { IsStrictlyIncreasing result }
    {
        self.pieces.get(place)
    }
}

/// States that are put together atom by atom.
#[derive(Drop)]
pub struct StateListBuilder {
    alloc: Global,
    pieces: Flat<u32>,
}

impl Model for StateListBuilder {
    ghost use Rattle.std.specs.Prelude.{ℕ};
    ghost use Rattle.std.specs.List.{All};
    ghost use Rattle.std.specs.List.Sorted.{IsStrictlyIncreasing};
    ghost use Rattle.hv_sets.specs.Gathered.{Gathered};

    ghost Value = { Gathered ℕ };

    ghost view = { λ b. b.pieces };

    ghost invariant = { λ b. All IsStrictlyIncreasing b.pieces.whole
        × IsStrictlyIncreasing b.pieces.begun };
}

impl StateListBuilder {
    /// No state, and none that is begun.
    pub fn new(alloc: Global) -> StateListBuilder
        ensures { result ≡ record { whole = []; begun = [] } }
    {
        StateListBuilder {
            alloc,
            pieces: Flat::new(alloc),
        }
    }

    /// Takes space for so many states more, and for so many atoms.
    pub fn reserve(&mut self, states: usize, atoms: usize) -> Result<(), AllocError>
        ensures { self.new ≡ self.old }
    {
        self.pieces.reserve(states, atoms)
    }

    /// Puts an atom last in the state that is begun: one that is greater than its others.
    pub fn put(&mut self, atom: u32) -> Result<(), AllocError>
        requires { AreBelow atom self.old.begun }
        ensures ok { OnOk result
            (self.new ≡ record self.old { begun = self.old.begun ++ atom ∷ [] }) }
        ensures err { OnErr result (self.new ≡ self.old) }
    {
        self.pieces.put(atom)
    }

    /// Ends the state that is begun; without an atom it is the one that holds none. More than
    /// 4,294,967,295 atoms in all are answered as out of memory; a line has fewer than
    /// 8,388,608.
    pub fn end(&mut self) -> Result<(), AllocError>
        ensures ok { OnOk result
            (self.new ≡ record { whole = self.old.whole ++ self.old.begun ∷ []; begun = [] }) }
        ensures err { OnErr result (self.new ≡ self.old) }
    {
        self.pieces.end()
    }

    /// How many states have been ended.
    pub fn len(&self) -> usize
        ensures len { result ≡ length self.now.whole }
        ensures rise { All IsStrictlyIncreasing self.now.whole }
    {
        self.pieces.len()
    }

    /// How many atoms the state has that is begun.
    pub fn begun(&self) -> usize
        ensures { result ≡ length self.now.begun }
    {
        self.pieces.begun()
    }

    /// The list of the states, where none is begun.
    pub fn list(self) -> StateList
        requires { self.begun ≡ [] }
        ensures { result ≡ self.whole }
    {
        let StateListBuilder { alloc, pieces } = self;
        StateList {
            alloc,
            pieces: StatePieces::of(pieces),
        }
    }
}

//! Lists of states that have one owner or several, in four bytes an atom or in one.
//!
//! The forms are those of `SharedPieces`, where what is held together has two forms itself: so a
//! list is no larger than one of clauses.

ghost use Rattle.std.specs.Prelude.{◌≡◌, ◌<◌, ◌++◌, ◌∷◌, [], length, slice_get, IfOk, OnErr, OnOk};
ghost use Rattle.std.specs.Prelude.{Some};
ghost use Rattle.std.specs.List.{All};
ghost use Rattle.std.specs.List.Sorted.{IsStrictlyIncreasing};
ghost use Rattle.hv_sets.specs.Working.KeptStates.{AreFit, held_states};

use crate::few::Few;
use crate::flat::Flat;
use crate::listed_state::KeptState;
use crate::narrow::{narrowed, widened};
use std::alloc::{AllocError, Global};
use std::rc::Rc;

/// A shared list of states has at most so many atoms in the value itself.
const FEW_ATOMS: usize = 8;

/// States that are held alone, or together with others who only read them.
#[derive(Drop)]
pub(crate) enum StatePieces {
    Together(SharedStates),
    Alone(Flat<u32>),
    Few(Few<u32, FEW_ATOMS>),
}

/// States that are held together.
#[derive(Drop)]
pub(crate) enum SharedStates {
    /// In four bytes an atom.
    Wide(Rc<Flat<u32>, Global>),
    /// In one byte an atom, of states of at most 64.
    Narrow(Rc<Flat<u8>, Global>),
}

impl StatePieces {
    /// The states of this list.
    pub(crate) fn of(flat: Flat<u32>) -> StatePieces
        ensures held { held_states result ≡ flat }
        ensures fit { AreFit result }
    {
        StatePieces::Alone(flat)
    }

    /// The same states, of which each further copy takes no memory of its own; in one byte an atom
    /// where that takes much less.
    pub(crate) fn share(self, alloc: Global) -> Result<StatePieces, AllocError>
        requires { AreFit self }
        ensures held { IfOk result (λ shared. held_states shared ≡ held_states self) }
        ensures fit { IfOk result AreFit }
    {
        match self {
            StatePieces::Alone(flat) => shared_flat(alloc, flat),
            shared => Ok(shared),
        }
    }

    /// The same states once more: together with these where they are shared, and otherwise in as
    /// much memory as they need.
    pub(crate) fn copy(&self, alloc: Global) -> Result<StatePieces, AllocError>
        requires { AreFit self.now }
        ensures held { IfOk result (λ copy. held_states copy ≡ held_states self.now) }
        ensures fit { IfOk result AreFit }
    {
        match self {
            StatePieces::Together(SharedStates::Wide(shared)) => {
                Ok(StatePieces::Together(SharedStates::Wide(shared.clone()?)))
            }
            StatePieces::Together(SharedStates::Narrow(shared)) => {
                Ok(StatePieces::Together(SharedStates::Narrow(shared.clone()?)))
            }
            StatePieces::Alone(flat) => Ok(StatePieces::Alone(Flat::of(alloc, flat.parts())?)),
            StatePieces::Few(few) => Ok(StatePieces::Few(few.copy())),
        }
    }

    /// Puts the state of these atoms last, where none is begun. Copies that are shared stay as they
    /// are.
    pub(crate) fn push(&mut self, alloc: Global, atoms: &[u32]) -> Result<(), AllocError>
        requires begun { (held_states self.old).begun ≡ [] }
        requires fit { AreFit self.old }
        ensures ok { OnOk result (held_states self.new ≡ record (held_states self.old) {
          whole = (held_states self.old).whole ++ atoms.now ∷ [];
        }) }
        ensures err { OnErr result (held_states self.new ≡ held_states self.old) }
        ensures fit { AreFit self.new }
    {
        if let StatePieces::Alone(flat) = self {
            return flat.push(atoms);
        }
        let mut own = self.own(alloc)?;
        own.push(atoms)?;
        *self = StatePieces::Alone(own);
        Ok(())
    }

    // The same states, held alone.
    fn own(&self, alloc: Global) -> Result<Flat<u32>, AllocError>
        ensures { IfOk result (λ own. own ≡ held_states self.now) }
    {
        match self {
            StatePieces::Together(SharedStates::Wide(shared)) => Flat::of(
                alloc,
                Rc::as_ref(shared).parts(),
            ),
            StatePieces::Together(SharedStates::Narrow(shared)) => widened(
                alloc,
                Rc::as_ref(shared).parts(),
            ),
            StatePieces::Alone(flat) => Flat::of(alloc, flat.parts()),
            StatePieces::Few(few) => Flat::of(alloc, few.parts()),
        }
    }

    /// How many states there are.
    pub(crate) fn len(&self) -> usize
        ensures { result ≡ length (held_states self.now).whole }
    {
        match self {
            StatePieces::Together(SharedStates::Wide(shared)) => Rc::as_ref(shared).len(),
            StatePieces::Together(SharedStates::Narrow(shared)) => Rc::as_ref(shared).len(),
            StatePieces::Alone(flat) => flat.len(),
            StatePieces::Few(few) => few.len(),
        }
    }

    /// The state at a place from 0.
    pub(crate) fn get(&self, place: usize) -> KeptState<'_>
        requires place { place < length (held_states self.now).whole }
        requires rise { All IsStrictlyIncreasing (held_states self.now).whole }
        requires fit { AreFit self.now }
        ensures { slice_get (held_states self.now).whole place ≡ Some result }
    {
        match self {
            StatePieces::Together(SharedStates::Wide(shared)) => {
                KeptState::wide(Rc::as_ref(shared).get(place))
            }
            StatePieces::Together(SharedStates::Narrow(shared)) => {
                KeptState::narrow(Rc::as_ref(shared).get(place))
            }
            StatePieces::Alone(flat) => KeptState::wide(flat.get(place)),
            StatePieces::Few(few) => KeptState::wide(few.get(place)),
        }
    }
}

// The same states, shared.
fn shared_flat(alloc: Global, flat: Flat<u32>) -> Result<StatePieces, AllocError>
    ensures held { IfOk result (λ shared. held_states shared ≡ flat) }
    ensures fit { IfOk result AreFit }
{
    if let Some(narrow) = narrowed(alloc, flat.parts())? {
        return Ok(StatePieces::Together(SharedStates::Narrow(Rc::new(alloc, narrow)?)));
    }
    match Few::of(flat.parts()) {
        Some(few) => Ok(StatePieces::Few(few)),
        None => Ok(StatePieces::Together(SharedStates::Wide(Rc::new(alloc, flat)?))),
    }
}

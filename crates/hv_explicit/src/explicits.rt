//! Stores of explicit sets.

ghost use Rattle.std.specs.Prelude.{◌≡◌, ◌<◌, ◌++◌, ◌∷◌, ℕ, Bool, List, [], length, slice_get};
ghost use Rattle.std.specs.Prelude.{⊤, Some, IsTrue, IfOk, OnErr};
ghost use Rattle.hv_task.specs.Strips.{atoms};
ghost use Rattle.hv_sets.specs.Cost.{StatesPass};
ghost use Rattle.hv_sets.specs.Query.{HasAnchor, IsReady};
ghost use Rattle.hv_explicit.specs.Codes.{IsBelow, IsSetOf};
ghost use Rattle.hv_explicit.specs.ListedStates.{AreListsOver, in_set, states_listed};
ghost use Rattle.hv_explicit.specs.Working.Owners.{IsOwned};

use crate::explicit::Explicit;
use crate::idle::is_idle;
use crate::named_sets::{FEW, NamedSets};
use crate::sets_query::SetsQuery;
use crate::sought::Sought;
use crate::state_owners::{StateOwners, enter_set, finds_owner, owners_of};
use hv_sets::{Family, Finding, Query, Scratch};
use hv_task::Task;
use std::alloc::{AllocError, Global};
use std::cell::OnceCell;
use std::marker::Model;

/// The explicit sets of a proof, numbered from 0 in the order in which they were added.
#[derive(Drop)]
pub struct Explicits {
    sets: Vec<Explicit>,
    // Which sets list a state, once a query has asked for it. No answer depends on it.
    owners: OnceCell<StateOwners>,
}

impl Model for Explicits {
    ghost use Rattle.std.specs.Prelude.{List};
    ghost use Rattle.hv_explicit.specs.ListedStates.{ListedStates};
    ghost use Rattle.hv_explicit.specs.Working.Owners.{AreListings};

    ghost Value = { List ListedStates };

    ghost view = { λ s. s.sets.items };

    ghost invariant = { λ s. AreListings s.sets.items };
}

impl Explicits {
    /// A store without sets.
    pub fn new(alloc: Global) -> Explicits
        ensures { result ≡ [] }
    {
        Explicits {
            sets: Vec::new(alloc),
            owners: OnceCell::new(),
        }
    }

    /// Adds a set, and gives its number.
    pub fn add(&mut self, set: Explicit) -> Result<usize, AllocError>
        ensures number { IfOk result (λ number. number ≡ length self.old) }
        ensures ok { IfOk result (λ _. self.new ≡ self.old ++ set ∷ []) }
        ensures err { OnErr result (self.new ≡ self.old) }
    {
        let number = self.sets.len();
        take_in(&mut self.owners, self.sets.as_slice(), &set)?;
        self.sets.push(set)?;
        Ok(number)
    }

    /// How many sets there are.
    pub fn len(&self) -> usize
        ensures { result ≡ length self.now }
    {
        self.sets.len()
    }

    /// The set of this number.
    pub fn get(&self, place: usize) -> &Explicit
        requires { place < length self.now }
        ensures { slice_get self.now place ≡ Some result.now }
    {
        &self.sets[place]
    }

    /// Which sets list a state, for a query with so many negative operands: made here at the first
    /// query with many of them, and none where these or the sets are few.
    pub(crate) fn owners_for(
        &self,
        alloc: Global,
        operands: usize,
    ) -> Result<Option<&StateOwners>, AllocError> {
        if operands <= FEW || self.sets.len() <= FEW {
            return Ok(None);
        }
        if self.owners.get().is_none() {
            let _ = self.owners.set(owners_of(alloc, self.sets.as_slice())?);
        }
        Ok(self.owners.get())
    }

    /// Whether one of the operands, asked about after the action (true) or before it, is found to
    /// be a set that lists the state of these atoms.
    pub(crate) fn finds_owner<A: Sought>(
        &self,
        owners: &StateOwners,
        operands: &NamedSets<'_>,
        after: bool,
        held: &A,
        atoms: u32,
    ) -> bool
        requires over { AreListsOver self.now atoms }
        requires below { IsBelow atoms (A.has held.now) }
        ensures { IsTrue result → (state : List Bool) → length state ≡ atoms
            → IsSetOf (A.has held.now) state → IsOwned self.now operands.now after state }
    {
        finds_owner(owners, self.sets.as_slice(), operands, after, held, atoms)
    }
}

// Enters the states of a set that is to be the last one, where those of the others are entered.
// Where they can't be, all are to be entered anew.
fn take_in(
    owners: &mut OnceCell<StateOwners>,
    sets: &[Explicit],
    last: &Explicit,
) -> Result<(), AllocError> {
    if !is_taken_in(owners, sets, last)? {
        *owners = OnceCell::new();
    }
    Ok(())
}

// The same, but answers false where they can't be.
fn is_taken_in(
    owners: &mut OnceCell<StateOwners>,
    sets: &[Explicit],
    last: &Explicit,
) -> Result<bool, AllocError> {
    match owners.get_mut() {
        Some(owners) => enter_set(owners, sets, last, sets.len()),
        None => Ok(true),
    }
}

impl Family for Explicits {
    ghost has = { in_set };

    ghost is_over = { AreListsOver };

    ghost count = { λ sets. length sets };

    ghost wants_anchor = { λ _. ⊤ };

    ghost passes = { λ sets _ query budget. StatesPass (states_listed sets) query budget };

    fn find(
        &self,
        alloc: Global,
        task: &Task,
        query: &Query,
        budget: u64,
        scratch: &mut Scratch,
    ) -> Result<Finding, AllocError> {
        if is_idle(task, self, query, budget) {
            return Ok(Finding::Empty);
        }
        scratch.reserve(task.atoms(), 0, 0)?;
        let search = SetsQuery::new(alloc, task, self, query)?;
        search.answer(alloc, budget, &mut scratch.state)
    }
}

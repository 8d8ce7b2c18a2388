//! The search through the states of the anchor.
//!
//! It goes through each different state of the anchor, or, where the query has an action with a
//! precondition and the anchor has `holders`, only through those that hold the precondition: where
//! each of its atoms has a column, the flags that are set in all, 64 states a word; else the row of
//! the rarest atom, less what isn't in the columns of the others or in rows that aren't much
//! longer. Each of these costs the search for the precondition's atoms in its list, and then a
//! look-up for each operand: the code of a result costs the effect, and a hit is compared atom by
//! atom. Where the states are many it is guessed first where their results are (`guesses`). With at
//! most 64 atoms states are words, and all but the look-up are some steps on these (`action_bits`).
//! The counterexample alone is written as a state.

ghost use Rattle.std.specs.Prelude.{◌≡◌, ◌<◌, ◌≤◌, ◌↔◌, ◌∷◌, ℕ, Bool, List, [], length, slice_index_or};
ghost use Rattle.std.specs.Prelude.{slice_get, None, Some, false, true, IsTrue, IfOk, IfSome};
ghost use Rattle.std.specs.Prelude.{MatchOption};
ghost use Rattle.std.specs.List.{All, Contains, list_all};
ghost use Rattle.hv_task.specs.State.{AreBelow, names_atom, state_of};
ghost use Rattle.hv_task.specs.Strips.{IsOver, IsState, atoms};
ghost use Rattle.hv_task.specs.Atoms.{is_after};
ghost use Rattle.std.specs.List.Sorted.{IsStrictlyIncreasing};
ghost use Rattle.hv_sets.specs.Names.{AsksAbout};
ghost use Rattle.hv_sets.specs.Cost.{IsAnswer, StatesPass};
ghost use Rattle.hv_sets.specs.Query.{CanAnchor, IsAnchor, IsNamed, Rises, action_of};
ghost use Rattle.hv_sets.specs.declared.operand.Operand.{Operand};
ghost use Rattle.hv_sets.specs.declared.operand.Which.TheVariants as W;
ghost use Rattle.hv_explicit.specs.Codes.{IsBelow};
ghost use Rattle.hv_explicit.specs.Working.Codes.{IsSame};
ghost use Rattle.hv_explicit.specs.Working.Holders.{AreAllBut, listed_places};
ghost use Rattle.hv_explicit.specs.Working.Owners.{IsOwned};
ghost use Rattle.hv_explicit.specs.Working.SomeStates.{IsOfFew, state_atoms};
ghost use Rattle.hv_explicit.specs.Working.Words.{word_atoms};
ghost use Rattle.hv_explicit.specs.ListedStates.{AreRising, AreStates, states_listed};
ghost use Rattle.hv_explicit.specs.Working.Listing.{AreFirsts};
ghost use Rattle.hv_explicit.specs.Working.Search.{IsFoundListed, IsHit, IsHitBy, HasJust};
ghost use Rattle.hv_explicit.specs.Working.Search.{IsListedSearch, NamesAnchor, clashes_at};
ghost use Rattle.hv_explicit.specs.Working.Search.{clashes_in, in_either, in_named, is_fit};
ghost use Rattle.hv_explicit.specs.Working.Search.{is_in_none};

use crate::action_bits::{ActionBits, bits_of};
use crate::explicit::Explicit;
use crate::explicits::Explicits;
use crate::firsts::PLAIN;
use crate::guesses::Guesses;
use crate::holders::SomePlaces;
use crate::named_sets::NamedSets;
use crate::near::names_each;
use crate::results::is_left;
use crate::sought::{ActionResult, Coded, SomeState, Sought};
use crate::state_owners::{ListedAt, StateOwners};
use crate::state_word::StateWord;
use hv_sets::{Finding, Operand, Query, StateBuffer, Which};
use hv_task::{Action, State, Task};
use std::alloc::{AllocError, Global};
use std::marker::Model;

// Space for the atoms of a state of the anchor, and for those of a listed state.
#[derive(Drop)]
struct Spaces {
    held: StateBuffer,
    listed: StateBuffer,
}

impl Spaces {
    // Both free.
    fn new() -> Spaces {
        Spaces {
            held: StateBuffer::new(),
            listed: StateBuffer::new(),
        }
    }
}

/// A query, with the task and the sets of which it is asked.
#[derive(Drop)]
pub(crate) struct SetsQuery<'a> {
    task: &'a Task,
    sets: &'a Explicits,
    query: &'a Query,
    // Whether some negative operand is asked about before the action.
    asks_before: bool,
    // The negative operands.
    named: NamedSets<'a>,
    // Which sets list a state, where the negative operands are many.
    owners: Option<&'a StateOwners>,
    // The action, where there are at most 64 atoms.
    bits: Option<ActionBits<'a>>,
}

impl<'a> Model for SetsQuery<'a> {
    ghost use Rattle.hv_explicit.specs.Working.Search.{IsPreparedSearch, ListedSearch};

    ghost Value = { ListedSearch };

    ghost view = { λ s. record { task = s.task.now; sets = s.sets.now; query = s.query.now } };

    ghost invariant = { λ s. IsPreparedSearch record {
      task = s.task.now;
      sets = s.sets.now;
      query = s.query.now;
    } s.asks_before s.named s.bits };
}

impl<'a> SetsQuery<'a> {
    /// The query, asked of these sets.
    pub(crate) fn new(
        alloc: Global,
        task: &'a Task,
        sets: &'a Explicits,
        query: &'a Query,
    ) -> Result<SetsQuery<'a>, AllocError>
        requires { IsListedSearch record {
          task = task.now;
          sets = sets.now;
          query = query.now;
        } }
        ensures { IfOk result (λ search.
            search ≡ record { task = task.now; sets = sets.now; query = query.now }) }
    {
        let after = query.action.is_some();
        let states = first_len(sets, query.positive.as_slice());
        let owners = sets.owners_for(alloc, query.negative.len())?;
        let named = NamedSets::new(alloc, &query.negative, after, states, sets.len())?;
        let asks_before = ask_before(query.negative.as_slice());
        let bits = bits_of(task, query.action);
        Ok(SetsQuery {
            task,
            sets,
            query,
            asks_before,
            named,
            owners,
            bits,
        })
    }

    // The set of this number.
    fn set(&self, number: usize) -> &'a Explicit
        requires { number < length self.now.sets }
        ensures named { slice_get self.now.sets number ≡ Some result.now }
        ensures over { result.now.atoms ≡ atoms self.now.task }
    {
        self.sets.get(number)
    }

    // The initial state, with its code.
    fn start(&self) -> Coded<'a>
        ensures start { result.atoms.now ≡ self.now.task.start }
        ensures below { AreBelow (atoms self.now.task) result.atoms.now }
    {
        Coded::new(PLAIN, self.task.start().as_slice())
    }

    // The action that is asked about, if there is one.
    fn action(&self) -> Option<&'a Action>
        ensures { MatchOption result (action_of self.now.task self.now.query.action ≡ None)
            (λ action. (action_of self.now.task self.now.query.action ≡ Some action.now)
            × IsOver (atoms self.now.task) action.now) }
    {
        match self.query.action {
            None => None,
            Some(number) => Some(self.task.action(number)),
        }
    }

    // The action by bits, in a task with at most 64 atoms.
    fn bits(&self) -> Option<&ActionBits<'a>>
        ensures { MatchOption result (atoms self.now.task ≤ 64
            → action_of self.now.task self.now.query.action ≡ None)
            (λ bits. (action_of self.now.task self.now.query.action ≡ Some bits.now.action.now)
            × IsOver (atoms self.now.task) bits.now.action.now) }
    {
        self.bits.as_ref()
    }

    // Whether there is an action, without which nothing is asked about after it.
    fn acts(&self) -> bool
        ensures { result ≡ false → All (λ o. o.after ≡ false) self.now.query.negative }
    {
        self.query.action.is_some()
    }

    // Whether some negative operand is asked about after the action (true), or before it.
    fn asks(&self, after: bool) -> bool
        ensures { result ≡ false → All (λ o. o.after ≡ after → ⊥) self.now.query.negative }
    {
        if after {
            return true;
        }
        self.asks_before
    }

    // What the anchor names.
    fn anchor(&self) -> Which
        ensures { NamesAnchor self.now result }
    {
        match anchor_of(self.query.positive.as_slice()) {
            Some(anchor) => anchor.which,
            None => Which::Empty,
        }
    }

    // The positive operands.
    fn positive(&self) -> &'a [Operand]
        ensures list { result.now ≡ self.now.query.positive }
        ensures named { All (λ o. IsNamed (length self.now.sets) o.which) result.now }
    {
        self.query.positive.as_slice()
    }

    // The negative operands.
    fn negative(&self) -> &'a [Operand]
        ensures list { result.now ≡ self.now.query.negative }
        ensures named { All (λ o. IsNamed (length self.now.sets) o.which) result.now }
    {
        self.query.negative.as_slice()
    }

    // Whether some negative operand is this set, asked about after the action (true) or before it.
    fn denies(&self, which: Which, after: bool) -> bool
        ensures asks { IsTrue result ↔ AsksAbout self.now.query.negative which after }
        ensures named { IsTrue result → IsNamed (length self.now.sets) which }
    {
        self.query.negative.names(which, after)
    }

    // Which sets list a state, where the negative operands are many.
    fn owners(&self) -> Option<&'a StateOwners> {
        self.owners
    }

    // Whether one of the negative operands, asked about after the action (true) or before it, is
    // found to be a set that lists the state.
    fn finds_owner<A: Sought>(&self, owners: &StateOwners, held: &A, after: bool) -> bool
        requires { IsBelow (atoms self.now.task) (A.has held.now) }
        ensures { IsTrue result → (state : List Bool) → HasJust self.now.task (A.has held.now) state
            → IsOwned self.now.sets self.now.query.negative after state }
    {
        self.sets
            .finds_owner(owners, &self.named, after, held, self.task.atoms())
    }
}

impl SetsQuery<'_> {
    /// The exact answer to the query. The state is overwritten.
    pub(crate) fn answer(
        &self,
        alloc: Global,
        budget: u64,
        state: &mut State,
    ) -> Result<Finding, AllocError>
        requires { IsState self.now.task state.old }
        ensures { IfOk result (λ found. IsAnswer found
            (StatesPass (states_listed self.now.sets) self.now.query budget)
            (atoms self.now.task) (clashes_in self.now) state.new) }
    {
        let anchor = self.anchor();
        match anchor {
            Which::Start => Ok(self.find_start(budget, state)),
            Which::Set(number) => { self.answer_in(alloc, anchor, self.set(number), budget, state) }
            _ => Ok(Finding::Empty),
        }
    }

    // The places of states of the set, such that no other state of it is a counterexample: those
    // that hold the action's precondition, or none for all.
    fn places_in<'a>(
        &self,
        alloc: Global,
        set: &'a Explicit,
    ) -> Result<Option<SomePlaces<'a>>, AllocError>
        ensures { IfOk result (λ o. IfSome o (λ part.
            AreAllBut (clashes_at self.now) set.now.states (listed_places part))) }
    {
        let Some(action) = self.action() else {
            return Ok(None);
        };
        set.held_by(alloc, action.pre.as_slice())
    }

    // The answer, where the anchor is this set.
    fn answer_in(
        &self,
        alloc: Global,
        anchor: Which,
        set: &Explicit,
        budget: u64,
        state: &mut State,
    ) -> Result<Finding, AllocError>
        requires atoms { set.now.atoms ≡ atoms self.now.task }
        requires anchor { All (λ held. in_named self.now anchor
            (state_of (atoms self.now.task) held) ≡ true) set.now.states }
        requires state { IsState self.now.task state.old }
        ensures { IfOk result (λ found. IsFoundListed found budget self.now set.now.states
            state.new) }
    {
        match self.places_in(alloc, set)? {
            Some(part) => Ok(self.find_among(anchor, set, part.as_slice(), budget, state)),
            None => Ok(self.find_among(anchor, set, set.firsts(), budget, state)),
        }
    }

    // Asks whether the initial state is a counterexample, where the anchor names it.
    fn find_start(&self, budget: u64, state: &mut State) -> Finding
        requires { IsState self.now.task state.old }
        ensures { IsFoundListed result budget self.now (self.now.task.start ∷ []) state.new }
    {
        if budget == 0 {
            return Finding::Over;
        }
        let held = self.start();
        if self.clashes(Which::Start, held) {
            state.hold(held.atoms);
            return Finding::Clash;
        }
        Finding::Empty
    }

    // Looks for a counterexample among the states of the set, of which none is one but those at
    // these places.
    fn find_among(
        &self,
        anchor: Which,
        set: &Explicit,
        places: &[u32],
        budget: u64,
        state: &mut State,
    ) -> Finding
        requires atoms { set.now.atoms ≡ atoms self.now.task }
        requires anchor { All (λ held. in_named self.now anchor
            (state_of (atoms self.now.task) held) ≡ true) set.now.states }
        requires places { AreAllBut (clashes_at self.now) set.now.states places.now }
        requires state { IsState self.now.task state.old }
        ensures { IsFoundListed result budget self.now set.now.states state.new }
    {
        if set.len() as u64 > budget {
            return Finding::Over;
        }
        let mut spaces = Spaces::new();
        let mut guesses = self.guesses(set, places);
        for place in places {
            if self.is_clash_at(anchor, set, *place as usize, &mut guesses, &mut spaces) {
                state.hold(set.atoms_at(*place as usize).slice(&mut spaces.held));
                return Finding::Clash;
            }
        }
        Finding::Empty
    }

    // Whether the state at this place of the set, which is in what the anchor names, is a
    // counterexample.
    fn is_clash_at(
        &self,
        anchor: Which,
        set: &Explicit,
        place: usize,
        guesses: &mut Guesses<'_>,
        spaces: &mut Spaces,
    ) -> bool
        requires atoms { set.now.atoms ≡ atoms self.now.task }
        requires place { place < length set.now.states }
        requires anchor { in_named self.now anchor
            (state_of (atoms self.now.task) (slice_index_or set.now.states place [])) ≡ true }
        ensures { result ≡ clashes_at self.now (slice_index_or set.now.states place []) }
    {
        let guess = guesses.next();
        let held = set.at(place, &mut spaces.held);
        if self.is_settled(guess, held, &mut spaces.listed) {
            return false;
        }
        guesses.refuse(guess);
        self.some_clashes(anchor, held)
    }

    // Guesses where the results of the action in the states at these places are listed.
    fn guesses<'b>(&'b self, set: &'b Explicit, places: &'b [u32]) -> Guesses<'b> {
        match self.action() {
            None => Guesses::none(set, places),
            Some(action) => Guesses::of(
                self.sets,
                self.owners,
                self.negative(),
                action,
                self.bits(),
                set,
                places,
            ),
        }
    }

    // Whether the state is no counterexample, because the state of the guess is what the action
    // makes of it.
    fn is_settled(&self, guess: ListedAt, held: SomeState<'_>, buffer: &mut StateBuffer) -> bool
        requires { AreBelow (atoms self.now.task) (state_atoms held) }
        ensures { IsTrue result → clashes_at self.now (state_atoms held.entry) ≡ false }
    {
        if guess.place == u32::MAX {
            return false;
        }
        match held {
            SomeState::Listed(held) => self.is_list_settled(guess, held.atoms, buffer),
            SomeState::Word(held) => self.is_word_settled(guess, held),
        }
    }

    // The same of a list.
    fn is_list_settled(&self, guess: ListedAt, held: &[u32], buffer: &mut StateBuffer) -> bool
        requires below { AreBelow (atoms self.now.task) held.now }
        requires rises { IsStrictlyIncreasing held.now }
        ensures { IsTrue result → clashes_at self.now held.now ≡ false }
    {
        match self.action() {
            None => false,
            Some(action) => self.is_result_hit(guess, held, action, buffer),
        }
    }

    // The same of a word.
    fn is_word_settled(&self, guess: ListedAt, held: StateWord) -> bool
        requires { AreBelow (atoms self.now.task) (word_atoms held.bits) }
        ensures { IsTrue result → clashes_at self.now (word_atoms held.bits) ≡ false }
    {
        match self.bits() {
            None => false,
            Some(bits) => {
                let after = bits.result_in(held);
                self.is_state_hit(guess, &after)
            }
        }
    }

    // Whether the state of the guess is this one, and its set is a negative operand that is asked
    // about after the action.
    fn is_state_hit<A: Sought>(&self, guess: ListedAt, held: &A) -> bool
        requires { IsBelow (atoms self.now.task) (A.has held.now) }
        ensures { IsTrue result → (state : List Bool) → HasJust self.now.task (A.has held.now) state
            → IsHit self.now self.now.query.negative true state }
    {
        let number = guess.set as usize;
        if !self.names_set(number, true) {
            return false;
        }
        self.set(number).lists_at(guess.place as usize, held)
    }

    // Whether the state of the guess is what the action makes of the state of these atoms, and its
    // set is a negative operand that is asked about after the action.
    fn is_result_hit(
        &self,
        guess: ListedAt,
        held: &[u32],
        action: &Action,
        buffer: &mut StateBuffer,
    ) -> bool
        requires below { IsBelow (atoms self.now.task) (is_after action.now held.now) }
        requires rises { IsStrictlyIncreasing held.now }
        ensures { IsTrue result → (state : List Bool)
            → HasJust self.now.task (is_after action.now held.now) state
            → IsHit self.now self.now.query.negative true state }
    {
        let number = guess.set as usize;
        if !self.names_set(number, true) {
            return false;
        }
        self.set(number)
            .has_result_at(guess.place as usize, held, action, buffer)
    }

    // Whether some negative operand is the set of this number, asked about after the action (true)
    // or before it.
    fn names_set(&self, number: usize, after: bool) -> bool
        ensures asks { IsTrue result ↔ AsksAbout self.now.query.negative (W.Set number) after }
        ensures named { IsTrue result → number < length self.now.sets }
    {
        self.named.names(number, after)
    }

    // Whether the state, which is in what the anchor names, is a counterexample, however it is
    // kept.
    fn some_clashes(&self, anchor: Which, held: SomeState<'_>) -> bool
        requires anchor { in_named self.now anchor
            (state_of (atoms self.now.task) (state_atoms held)) ≡ true }
        requires held { AreBelow (atoms self.now.task) (state_atoms held) }
        requires few { IsOfFew (atoms self.now.task) held }
        ensures { result ≡ clashes_at self.now (state_atoms held.entry) }
    {
        match held {
            SomeState::Listed(held) => self.clashes(anchor, held),
            SomeState::Word(held) => self.word_clashes(anchor, held),
        }
    }

    // The same of a word.
    fn word_clashes(&self, anchor: Which, held: StateWord) -> bool
        requires anchor { in_named self.now anchor
            (state_of (atoms self.now.task) (word_atoms held.bits)) ≡ true }
        requires held { AreBelow (atoms self.now.task) (word_atoms held.bits) }
        requires few { atoms self.now.task ≤ 64 }
        ensures { result ≡ clashes_at self.now (word_atoms held.bits) }
    {
        match self.bits() {
            None => self.fits(anchor, &held, &held),
            Some(bits) => bits.is_enabled(held) && self.word_fits_after(anchor, held, bits),
        }
    }

    // Whether the word and the result of the action fit. Where the action leaves the state as it
    // is, and the anchor is a negative operand that is asked about after it, they don't.
    fn word_fits_after(&self, anchor: Which, held: StateWord, bits: &ActionBits<'_>) -> bool
        requires anchor { in_named self.now anchor
            (state_of (atoms self.now.task) (word_atoms held.bits)) ≡ true }
        requires held { AreBelow (atoms self.now.task) (word_atoms held.bits) }
        requires over { IsOver (atoms self.now.task) bits.now.action.now }
        ensures { (b a : List Bool) → HasJust self.now.task (names_atom (word_atoms held.bits)) b
            → HasJust self.now.task (is_after bits.now.action.now (word_atoms held.bits)) a
            → result ≡ is_fit self.now b a }
    {
        let after = bits.result_in(held);
        if after.bits == held.bits && self.denies(anchor, true) {
            return false;
        }
        self.fits(anchor, &held, &after)
    }

    // Whether the state, which is in what the anchor names, is a counterexample.
    fn clashes(&self, anchor: Which, held: Coded<'_>) -> bool
        requires anchor { in_named self.now anchor
            (state_of (atoms self.now.task) held.atoms.now) ≡ true }
        requires held { AreBelow (atoms self.now.task) held.atoms.now }
        ensures { result ≡ clashes_at self.now held.entry.atoms.now }
    {
        match self.action() {
            None => self.fits(anchor, &held, &held),
            Some(action) => { is_enabled(held, action) && self.fits_after(anchor, held, action) }
        }
    }

    // Whether the state and the result of the action fit. Where the action leaves the state as it
    // is, and the anchor is a negative operand that is asked about after it, they don't.
    fn fits_after(&self, anchor: Which, held: Coded<'_>, action: &Action) -> bool
        requires anchor { in_named self.now anchor
            (state_of (atoms self.now.task) held.atoms.now) ≡ true }
        requires held { AreBelow (atoms self.now.task) held.atoms.now }
        requires over { IsOver (atoms self.now.task) action.now }
        ensures { (b a : List Bool) → HasJust self.now.task (names_atom held.entry.atoms.now) b
            → HasJust self.now.task (is_after action.now held.entry.atoms.now) a
            → result ≡ is_fit self.now b a }
    {
        let after = ActionResult::of(held, action);
        if after.code == held.code && self.stays(anchor, held.atoms, action) {
            return false;
        }
        self.fits(anchor, &held, &after)
    }

    // Whether what the anchor names is a negative operand that is asked about after the action, and
    // the action leaves the state as it is.
    fn stays(&self, anchor: Which, held: &[u32], action: &Action) -> bool
        requires { IsStrictlyIncreasing held.now }
        ensures asks { IsTrue result → AsksAbout self.now.query.negative anchor true }
        ensures left { IsTrue result → IsSame (is_after action.now held.now) held.now }
    {
        self.denies(anchor, true) && is_left(held, action)
    }

    // Whether the states before and after the action are in each positive operand and in no
    // negative one.
    fn fits<B: Sought, A: Sought>(&self, anchor: Which, before: &B, after: &A) -> bool
        requires anchor { (b : List Bool) → HasJust self.now.task (B.has before.now) b
            → in_named self.now anchor b ≡ true }
        requires before { IsBelow (atoms self.now.task) (B.has before.now) }
        requires after { IsBelow (atoms self.now.task) (A.has after.now) }
        ensures { (b a : List Bool) → HasJust self.now.task (B.has before.now) b
            → HasJust self.now.task (A.has after.now) a → result ≡ is_fit self.now b a }
    {
        self.are_all(anchor, self.positive(), before, after) && self.are_none(before, after)
    }

    fn are_all<B: Sought, A: Sought>(
        &self,
        anchor: Which,
        operands: &[Operand],
        before: &B,
        after: &A,
    ) -> bool
        requires anchor { (b : List Bool) → HasJust self.now.task (B.has before.now) b
            → in_named self.now anchor b ≡ true }
        requires operands { All (λ o. IsNamed (length self.now.sets) o.which) operands.now }
        requires before { IsBelow (atoms self.now.task) (B.has before.now) }
        requires after { IsBelow (atoms self.now.task) (A.has after.now) }
        ensures { (b a : List Bool) → HasJust self.now.task (B.has before.now) b
            → HasJust self.now.task (A.has after.now) a
            → result ≡ list_all (in_either self.now b a)
            operands.now }
    {
        for operand in operands {
            if !self.is_in(anchor, operand, before, after) {
                return false;
            }
        }
        true
    }

    fn are_none<B: Sought, A: Sought>(&self, before: &B, after: &A) -> bool
        requires before { IsBelow (atoms self.now.task) (B.has before.now) }
        requires after { IsBelow (atoms self.now.task) (A.has after.now) }
        ensures { (b a : List Bool) → HasJust self.now.task (B.has before.now) b
            → HasJust self.now.task (A.has after.now) a
            → result ≡ is_in_none self.now b a }
    {
        if self.is_owned(before, after) {
            return false;
        }
        !self.is_hit(before, false) && (!self.acts() || !self.is_hit(after, true))
    }

    // Whether a negative operand is found that has one of the states, without going through many.
    fn is_owned<B: Sought, A: Sought>(&self, before: &B, after: &A) -> bool
        requires before { IsBelow (atoms self.now.task) (B.has before.now) }
        requires after { IsBelow (atoms self.now.task) (A.has after.now) }
        ensures { (b a : List Bool) → HasJust self.now.task (B.has before.now) b
            → HasJust self.now.task (A.has after.now) a
            → IsTrue result → is_in_none self.now b a ≡ false }
    {
        let Some(owners) = self.owners() else {
            return false;
        };
        if self.is_found(owners, before, false) {
            return true;
        }
        if !self.acts() {
            return false;
        }
        self.is_found(owners, after, true)
    }

    // Whether a negative operand that is asked about after the action (true) or before it (false)
    // is found to have the state: a set that lists it, or one of the two that list nothing.
    fn is_found<A: Sought>(&self, owners: &StateOwners, held: &A, after: bool) -> bool
        requires { IsBelow (atoms self.now.task) (A.has held.now) }
        ensures { (state : List Bool) → HasJust self.now.task (A.has held.now) state
            → IsTrue result → IsHit self.now self.now.query.negative after state }
    {
        if !self.asks(after) {
            return false;
        }
        self.finds_owner(owners, held, after)
            || self.is_hit_by(Which::Start, held, after)
            || self.is_hit_by(Which::Goal, held, after)
    }

    // Whether a negative operand that is asked about after the action (true) or before it (false)
    // has the state.
    fn is_hit<A: Sought>(&self, held: &A, after: bool) -> bool
        requires { IsBelow (atoms self.now.task) (A.has held.now) }
        ensures { (state : List Bool) → HasJust self.now.task (A.has held.now) state
            → IsTrue result ↔ IsHit self.now self.now.query.negative after state }
    {
        self.asks(after) && self.is_hit_among(self.negative(), held, after)
    }

    fn is_hit_among<A: Sought>(&self, operands: &[Operand], held: &A, after: bool) -> bool
        requires operands { All (λ o. IsNamed (length self.now.sets) o.which) operands.now }
        requires below { IsBelow (atoms self.now.task) (A.has held.now) }
        ensures { (state : List Bool) → HasJust self.now.task (A.has held.now) state
            → IsTrue result ↔ IsHit self.now operands.now after state }
    {
        for operand in operands {
            if operand.after == after && self.has(operand.which, held) {
                return true;
            }
        }
        false
    }

    // Whether this set is a negative operand and has the state.
    fn is_hit_by<A: Sought>(&self, which: Which, held: &A, after: bool) -> bool
        requires { IsBelow (atoms self.now.task) (A.has held.now) }
        ensures { (state : List Bool) → HasJust self.now.task (A.has held.now) state
            → IsTrue result ↔ IsHitBy self.now which after state }
    {
        self.denies(which, after) && self.has(which, held)
    }

    fn is_in<B: Sought, A: Sought>(
        &self,
        anchor: Which,
        operand: &Operand,
        before: &B,
        after: &A,
    ) -> bool
        requires anchor { (b : List Bool) → HasJust self.now.task (B.has before.now) b
            → in_named self.now anchor b ≡ true }
        requires operand { IsNamed (length self.now.sets) operand.now.which }
        requires before { IsBelow (atoms self.now.task) (B.has before.now) }
        requires after { IsBelow (atoms self.now.task) (A.has after.now) }
        ensures { (b a : List Bool) → HasJust self.now.task (B.has before.now) b
            → HasJust self.now.task (A.has after.now) a
            → result ≡ in_either self.now b a operand.now }
    {
        if operand.after {
            return self.has(operand.which, after);
        }
        operand.which == anchor || self.has(operand.which, before)
    }

    fn has<A: Sought>(&self, which: Which, held: &A) -> bool
        requires which { IsNamed (length self.now.sets) which }
        requires below { IsBelow (atoms self.now.task) (A.has held.now) }
        ensures { (state : List Bool) → HasJust self.now.task (A.has held.now) state
            → result ≡ in_named self.now which state }
    {
        match which {
            Which::Empty => false,
            Which::Start => is_start(self.task, held),
            Which::Goal => has_goal(self.task, held),
            Which::Set(number) => self.set(number).has(held),
        }
    }
}

// Whether the action's precondition holds in the state.
fn is_enabled(held: Coded<'_>, action: &Action) -> bool
    ensures { IsTrue result ↔ All (λ p. Contains held.entry.atoms.now p) action.now.pre }
{
    names_each(held.atoms, action.pre.as_slice())
}

fn is_start<A: Sought>(task: &Task, held: &A) -> bool
    ensures same { IsTrue result ↔ IsSame (A.has held.now) task.now.start }
    ensures below { AreBelow (atoms task.now) task.now.start }
{
    // For its contract alone: the task is one.
    let _atoms = task.atoms();
    held.is(task.start().as_slice())
}

fn has_goal<A: Sought>(task: &Task, held: &A) -> bool
    ensures { IsTrue result ↔ All (λ p. IsTrue (A.has held.now p)) task.now.goal }
{
    has_all(task.goal().as_slice(), held)
}

fn has_all<A: Sought>(atoms: &[u32], held: &A) -> bool
    ensures { IsTrue result ↔ All (λ p. IsTrue (A.has held.now p)) atoms.now }
{
    for atom in atoms {
        if !has_atom(*atom, held) {
            return false;
        }
    }
    true
}

fn has_atom<A: Sought>(atom: u32, held: &A) -> bool
    ensures { result ≡ A.has held.now atom }
{
    held.holds(atom)
}

// How many states the first of these operands lists.
fn first_len(sets: &Explicits, operands: &[Operand]) -> usize {
    if operands.is_empty() {
        return 0;
    }
    match operands[0].which {
        Which::Set(number) if number < sets.len() => sets.get(number).len(),
        _ => 0,
    }
}

// Whether some of these operands is asked about before the action.
fn ask_before(operands: &[Operand]) -> bool
    ensures { result ≡ false → All (λ o. o.after ≡ true) operands.now }
{
    for operand in operands {
        if !operand.after {
            return true;
        }
    }
    false
}

/// The first operand that can be the anchor, which has the least identifier, since identifiers
/// rise.
pub(crate) fn anchor_of(operands: &[Operand]) -> Option<Operand>
    requires { Rises operands.now }
    ensures { MatchOption result ((o : Operand) → Contains operands.now o → CanAnchor o → ⊥)
        (λ o. IsAnchor operands.now o) }
{
    for operand in operands {
        if can_anchor(operand) {
            return Some(*operand);
        }
    }
    None
}

fn can_anchor(operand: &Operand) -> bool
    ensures { IsTrue result ↔ CanAnchor operand.now }
{
    match operand.which {
        Which::Goal => false,
        _ => !operand.after,
    }
}

//! What is known of all searches of the same operands whose actions mark none of some places.
//!
//! The marks of an action are read at the places for which the tuples of its search ask, and
//! nowhere else. So where it marks none of them, each other action that marks none of them leads to
//! the same tuples; and where none of these ends, no state suits the operands by any such action.

ghost use Rattle.std.specs.Prelude.{◌≡◌, ◌<◌, ◌≤◌, ℕ, [], None, length, true, IfOk, IfSome, OnOk};
ghost use Rattle.std.specs.List.{All};
ghost use Rattle.hv_task.specs.State.{has_atom};
ghost use Rattle.hv_bdd.specs.Working.Graphs.{IsLiveAnswer};
ghost use Rattle.hv_bdd.specs.Working.Untouched.{IsFruitless, IsKeptOf, IsKeptTruly};

use crate::asked::Asked;
use crate::atom_bits::AtomBits;
use crate::diagrams::Diagrams;
use crate::place_sweep::{Swept, WaitingTuples};
use crate::reach::Reached;
use crate::tuple_search::Search;
use hv_sets::Finding;
use hv_task::{State, Task};
use std::alloc::{AllocError, Global};

/// Searches of the same operands whose actions mark none of some places.
#[derive(Drop)]
pub(crate) struct Untouched {
    pub asked: Vec<Asked>,
    pub places: State,
    /// How many tuples each of them reaches, where it is known that no state suits the operands.
    pub count: Option<usize>,
    /// So many more searches that reach few tuples make no sweep, since too many waited in one.
    /// Only how long a query takes hangs on it.
    pub crowded: u32,
}

// So many searches that reach few tuples make no sweep, once too many waited in one: so it is tried
// again where the operands are searched for by many actions, and no search in vain costs much
// beside these.
const CALM: u32 = 8;

// The most nodes that few tuples have.
const FEW: usize = 1024;

impl Untouched {
    /// Of these operands nothing is known yet.
    pub(crate) fn new(alloc: Global, asked: &[Asked], atoms: u32) -> Result<Untouched, AllocError>
        ensures asked { IfOk result (λ new. new.asked.items ≡ asked.now) }
        ensures places { IfOk result (λ new. length new.places ≡ atoms) }
        ensures count { IfOk result (λ new. new.count ≡ None) }
    {
        let mut own = Vec::new(alloc);
        own.extend_from_slice(asked)?;
        let places = State::empty(alloc, atoms)?;
        Ok(Untouched {
            asked: own,
            places,
            count: None,
            crowded: 0,
        })
    }

    /// Whether these are the operands.
    pub(crate) fn is_for(&self, asked: &[Asked]) -> bool
        ensures { result ≡ true → self.now.asked.items ≡ asked.now }
    {
        let own = self.asked.as_slice();
        if own.len() != asked.len() {
            return false;
        }
        for k in 0..asked.len() {
            if !is_one(&own[k], &asked[k]) {
                return false;
            }
        }
        true
    }
}

// Whether the two are one operand.
fn is_one(one: &Asked, other: &Asked) -> bool
    ensures which { result ≡ true → one.now.which ≡ other.now.which }
    ensures after { result ≡ true → one.now.after ≡ other.now.after }
    ensures positive { result ≡ true → one.now.positive ≡ other.now.positive }
{
    one.which == other.which && one.after == other.after && one.positive == other.positive
}

/// Sees to it that what is kept is kept of searches for these operands: what was kept of others
/// makes room. Nothing is kept of a first query, since mostly it is the only one.
pub(crate) fn keep_for(
    alloc: Global,
    known: &mut Option<Untouched>,
    again: bool,
    nodes: &Diagrams,
    task: &Task,
    asked: &[Asked],
) -> Result<(), AllocError>
    requires { IsKeptOf nodes.now task.now known.old }
    ensures asked { OnOk result (IfSome known.new (λ k. k.asked.items ≡ asked.now)) }
    ensures known { OnOk result (IsKeptOf nodes.now task.now known.new) }
{
    if again && is_of(known, asked) {
        return Ok(());
    }
    *known = None;
    if again {
        let new = Untouched::new(alloc, asked, nodes.atoms())?;
        *known = Some(new);
    }
    Ok(())
}

// Whether something is kept of these operands.
fn is_of(known: &Option<Untouched>, asked: &[Asked]) -> bool
    ensures { result ≡ true → IfSome known.now (λ k. k.asked.items ≡ asked.now) }
{
    match known {
        None => false,
        Some(known) => known.is_for(asked),
    }
}

/// Whether it is known that no state suits the operands by an action of these marks, and that its
/// search is within the budget.
pub(crate) fn is_fruitless(
    known: &Option<Untouched>,
    nodes: &Diagrams,
    needed: &AtomBits<'_>,
    changed: &AtomBits<'_>,
    budget: u64,
) -> bool
    requires known { IfSome known.now (λ k. length k.places ≡ nodes.now.atoms) }
    requires needed { length needed.now ≡ nodes.now.atoms }
    requires changed { length changed.now ≡ nodes.now.atoms }
    ensures { result ≡ true
        → IsFruitless nodes.now needed.now changed.now budget known.now }
{
    match known {
        None => false,
        Some(known) => match known.count {
            None => false,
            Some(count) => {
                count as u64 <= budget
                    && needed.is_none_at(nodes, &known.places, most_for(count))
                    && changed.is_none_at(nodes, &known.places, most_for(count))
            }
        },
    }
}

// Whether too many tuples waited in a sweep for these operands.
fn is_crowded(known: &Option<Untouched>) -> bool {
    match known {
        None => false,
        Some(known) => known.crowded > 0,
    }
}

// How many marks of an action are looked at in the place of a search that reaches so many tuples.
fn most_for(tuples: usize) -> usize {
    tuples.saturating_mul(16).saturating_add(16)
}

// Puts in the listed places.
fn note_places(list: &[u32], places: &mut State)
    requires { All (λ v. v < length places.old) list.now }
    ensures size { length places.new ≡ length places.old }
    ensures noted { All (λ v. has_atom places.new v ≡ true) list.now }
{
    for v in list {
        places.set(*v, true);
    }
}

impl Search<'_> {
    ghost use Rattle.hv_bdd.specs.Working.Search.{Explored, IsDone};
    ghost use Rattle.hv_bdd.specs.Working.Sweeping.{SweptSoFar};
    ghost use Rattle.hv_bdd.specs.Working.Untouched.{AsksAmong, IsKeptTrulyFor};

    /// Looks for a state that suits the operands; and keeps what is so known of other actions. It
    /// is counted what this costs, if it is done once more.
    pub(crate) fn count_and_find(
        &mut self,
        alloc: Global,
        again: bool,
        budget: u64,
        state: &mut State,
        known: &mut Option<Untouched>,
        waiting: &mut WaitingTuples,
    ) -> Result<Finding, AllocError>
        requires state { length state.old ≡ self.old.setting.list.atoms }
        requires known { IsKeptTrulyFor self.old known.old }
        ensures answer { IfOk result (λ found.
            IsLiveAnswer found self.old.setting self.old.asked budget state.new) }
        ensures same { self.new ≡ self.old }
        ensures known { OnOk result (IsKeptTrulyFor self.old known.new) }
    {
        self.count_root(alloc, again)?;
        self.find_and_keep(alloc, budget, state, known, waiting)
    }

    // The same without counting it.
    fn find_and_keep(
        &mut self,
        alloc: Global,
        budget: u64,
        state: &mut State,
        known: &mut Option<Untouched>,
        waiting: &mut WaitingTuples,
    ) -> Result<Finding, AllocError>
        requires state { length state.old ≡ self.old.setting.list.atoms }
        requires known { IsKeptTrulyFor self.old known.old }
        ensures answer { IfOk result (λ found.
            IsLiveAnswer found self.old.setting self.old.asked budget state.new) }
        ensures same { self.new ≡ self.old }
        ensures known { OnOk result (IsKeptTrulyFor self.old known.new) }
    {
        if is_crowded(known) {
            return self.find_among_all(alloc, budget, state, known);
        }
        match self.sweep(alloc, budget, waiting)? {
            Swept::Over => Ok(Finding::Over),
            Swept::NoneEnds(count) => {
                self.keep_swept(count, waiting.places.as_slice(), known);
                Ok(Finding::Empty)
            }
            Swept::Unsettled => {
                self.keep_crowded(waiting.crowded, known);
                waiting.give_back(alloc);
                self.find_among_all(alloc, budget, state, known)
            }
        }
    }

    // Keeps whether too many waited.
    fn keep_crowded(&self, crowded: bool, known: &mut Option<Untouched>)
        requires { IsKeptTrulyFor self.now known.old }
        ensures { IsKeptTrulyFor self.now known.new }
    {
        match known {
            None => {}
            Some(known) => known.crowded = if crowded { CALM } else { 0 },
        }
    }

    // Counts a search that made no sweep, if it reached few tuples.
    fn count_calm(&self, reached: &Reached, known: &mut Option<Untouched>)
        requires { IsKeptTrulyFor self.now known.old }
        ensures { IsKeptTrulyFor self.now known.new }
    {
        match known {
            None => {}
            Some(known) => {
                if reached.tuples.len().saturating_mul(self.operands()) <= FEW {
                    known.crowded = known.crowded.saturating_sub(1);
                }
            }
        }
    }

    // The same by the search through all tuples.
    fn find_among_all(
        &mut self,
        alloc: Global,
        budget: u64,
        state: &mut State,
        known: &mut Option<Untouched>,
    ) -> Result<Finding, AllocError>
        requires state { length state.old ≡ self.old.setting.list.atoms }
        requires known { IsKeptTrulyFor self.old known.old }
        ensures answer { IfOk result (λ found.
            IsLiveAnswer found self.old.setting self.old.asked budget state.new) }
        ensures same { self.new ≡ self.old }
        ensures known { OnOk result (IsKeptTrulyFor self.old known.new) }
    {
        let reached = self.reach(alloc, budget)?;
        Ok(self.conclude_and_keep(budget, &reached, state, known))
    }

    // What was found, where these tuples were reached by a search that made no sweep. What it tells
    // of other actions is kept.
    fn conclude_and_keep(
        &self,
        budget: u64,
        reached: &Reached,
        state: &mut State,
        known: &mut Option<Untouched>,
    ) -> Finding
        requires done { IsDone self.now budget reached.now }
        requires state { length state.old ≡ self.now.setting.list.atoms }
        requires known { IsKeptTrulyFor self.now known.old }
        ensures answer { IsLiveAnswer result self.now.setting self.now.asked budget state.new }
        ensures known { IsKeptTrulyFor self.now known.new }
    {
        self.count_calm(reached, known);
        self.keep(budget, reached, known);
        self.conclude(budget, reached, state)
    }

    // Keeps what a sweep found, which reached so many tuples and passed these places.
    fn keep_swept(&self, count: usize, places: &[u32], known: &mut Option<Untouched>)
        requires swept { SweptSoFar self.now count places.now [] }
        requires known { IsKeptTrulyFor self.now known.old }
        ensures { IsKeptTrulyFor self.now known.new }
    {
        match known {
            None => {}
            Some(known) => self.keep_places(count, places, known),
        }
    }

    // Keeps it, where the action marks no place that was asked for so far, and none of these.
    fn keep_places(&self, count: usize, places: &[u32], known: &mut Untouched)
        requires swept { SweptSoFar self.now count places.now [] }
        requires asked { known.old.asked.items ≡ self.now.asked }
        requires known { IsKeptTruly self.now.setting.list self.now.setting.start
            self.now.setting.goal known.old }
        ensures asked { known.new.asked.items ≡ self.now.asked }
        ensures known { IsKeptTruly self.now.setting.list self.now.setting.start
            self.now.setting.goal known.new }
    {
        let most = most_for(count);
        if known.count.is_some() || !self.marks_none(&known.places, most) {
            return;
        }
        note_places(places, &mut known.places);
        if self.marks_none(&known.places, most) {
            known.count = Some(count);
        }
    }

    // Keeps it, where all tuples were reached.
    fn keep(&self, budget: u64, reached: &Reached, known: &mut Option<Untouched>)
        requires done { IsDone self.now budget reached.now }
        requires known { IsKeptTrulyFor self.now known.old }
        ensures { IsKeptTrulyFor self.now known.new }
    {
        if reached.tuples.len() as u64 > budget {
            return;
        }
        match known {
            None => {}
            Some(known) => self.keep_in(reached, known),
        }
    }

    // Keeps it, where the action marks no place that was asked for so far, and none for which these
    // tuples ask.
    fn keep_in(&self, reached: &Reached, known: &mut Untouched)
        requires done { (done : ℕ) × Explored self.now done reached.now
            × (length reached.now.tuples.keys ≤ done) }
        requires asked { known.old.asked.items ≡ self.now.asked }
        requires known { IsKeptTruly self.now.setting.list self.now.setting.start
            self.now.setting.goal known.old }
        ensures asked { known.new.asked.items ≡ self.now.asked }
        ensures known { IsKeptTruly self.now.setting.list self.now.setting.start
            self.now.setting.goal known.new }
    {
        let count = reached.tuples.len();
        let most = most_for(count);
        if known.count.is_some() || !self.marks_none(&known.places, most) {
            return;
        }
        if !self.note(reached, &mut known.places) {
            return;
        }
        if self.marks_none(&known.places, most) {
            known.count = Some(count);
        }
    }

    // Puts in the places for which the tuples ask. The answer is whether none of them ends.
    fn note(&self, reached: &Reached, places: &mut State) -> bool
        requires explored { (done : ℕ) × Explored self.now done reached.now }
        requires places { length places.old ≡ self.now.setting.list.atoms }
        ensures places { length places.new ≡ self.now.setting.list.atoms }
        ensures noted { result ≡ true
            → All (λ t. AsksAmong self.now places.new t.items) reached.now.tuples.keys }
    {
        for tuple in reached.tuples.as_slice() {
            let place = self.least(tuple.as_slice());
            if place >= self.atoms() {
                return false;
            }
            places.set(place, true);
        }
        true
    }
}

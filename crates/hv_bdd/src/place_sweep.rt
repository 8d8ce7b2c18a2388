//! The sweep through live tuples, place by place. Those that ask for the least place move, and are
//! gone then: a move leads to a later place, so none of them is reached again. At the end it is
//! known how many there were, for which places they asked, and that none of them ends; most queries
//! are answered so, and only the tuples of a few places take room at a time.
//!
//! Where one ends, a state is asked for, so the search through all of them is made (`reach.rt`);
//! and so it is where too many wait for later places while others move. The next searches for the
//! same operands begin with it then.

ghost use Rattle.std.specs.Prelude.{◌≡◌, ◌<◌, ◌≤◌, ◌+◌, ◌++◌, ◌∷◌, ℕ, List, [], length, map, true};
ghost use Rattle.std.specs.Prelude.{option_map, filter, nat_eq, false, IfOk, OnOk};
ghost use Rattle.std.specs.List.{All};
ghost use Rattle.hv_bdd.specs.Live.{moves, roots};
ghost use Rattle.hv_bdd.specs.Tuples.{IsReached, is_live, least, next};
ghost use Rattle.hv_bdd.specs.Working.Search.{tuples_of};
ghost use Rattle.hv_bdd.specs.Working.Sweeping.{IsTupleAdded};

use crate::tuple_search::{FEW, PlaceMarks, Search, Tuple};
use indexmap::IndexSet;
use smallvec::SmallVec;
use std::alloc::{AllocError, Global};
use std::mem;

/// What a sweep finds out.
pub(crate) enum Swept {
    /// More tuples than the budget are reached.
    Over,
    /// So many are reached, and none of them ends.
    NoneEnds(usize),
    /// It isn't found out: one ends, or too many wait.
    Unsettled,
}

/// What the sweep comes to at one place.
pub(crate) enum PlacePass {
    /// So many tuples moved.
    Moved(usize),
    /// More are reached than are left of the budget.
    Over,
    /// It isn't found out: one ends, or too many wait.
    Unsettled,
}

/// The tuples that wait to move, and the places for which those asked that are gone.
#[derive(Drop)]
pub(crate) struct WaitingTuples {
    pub here: IndexSet<Tuple>,
    /// Those that wait once these have moved.
    pub later: IndexSet<Tuple>,
    /// The places for which the tuples ask.
    pub tops: Vec<u32>,
    pub places: Vec<u32>,
    /// How many moved in the last sweep. Only how long a query takes hangs on it.
    pub moved: usize,
    /// Whether too many waited in it.
    pub crowded: bool,
}

impl WaitingTuples {
    /// None.
    pub(crate) fn none(alloc: Global) -> WaitingTuples {
        WaitingTuples {
            here: IndexSet::new(alloc),
            later: IndexSet::new(alloc),
            tops: Vec::new(alloc),
            places: Vec::new(alloc),
            moved: 0,
            crowded: false,
        }
    }

    /// Gives its room back.
    pub(crate) fn give_back(&mut self, alloc: Global) {
        *self = WaitingTuples::none(alloc);
    }
}

impl Search<'_> {
    ghost use Rattle.hv_bdd.specs.Working.Search.{AreMarksOf, IsTuple, IsTupleSearch};
    ghost use Rattle.hv_bdd.specs.Working.Sweeping.{AreMany, IsPlacePass, IsSweepAnswer, IsSweptPlace};
    ghost use Rattle.hv_bdd.specs.Working.Sweeping.{SweptSoFar};

    /// Goes through the live tuples place by place.
    pub(crate) fn sweep(
        &mut self,
        alloc: Global,
        budget: u64,
        waiting: &mut WaitingTuples,
    ) -> Result<Swept, AllocError>
        ensures swept { IfOk result (λ swept.
            IsSweepAnswer self.old budget waiting.new.places.items swept) }
        ensures same { self.new ≡ self.old }
    {
        self.begin(alloc, waiting)?;
        let mut left = budget;
        let mut credit = 1024;
        // Each place is later than the one before, so there are no more of them.
        for _ in 0..u64::from(self.atoms()) + 1 {
            if waiting.here.len() as u64 > left {
                return Ok(Swept::Over);
            }
            if waiting.here.len() == 0 {
                return Ok(Swept::NoneEnds((budget - left) as usize));
            }
            match self.pass_place(alloc, left, waiting, &mut credit)? {
                PlacePass::Moved(moved) => left -= moved as u64,
                PlacePass::Over => return Ok(Swept::Over),
                PlacePass::Unsettled => return Ok(Swept::Unsettled),
            }
        }
        Ok(Swept::Unsettled)
    }

    // Lets the tuple of the roots wait, if it is live, and no other.
    fn begin(&self, alloc: Global, waiting: &mut WaitingTuples) -> Result<(), AllocError>
        ensures { OnOk result (SweptSoFar self.now 0 waiting.new.places.items
            (tuples_of waiting.new.here)) }
    {
        empty(alloc, &mut waiting.here, waiting.moved);
        waiting.places.clear();
        waiting.moved = 0;
        waiting.crowded = false;
        let root = self.live_root(alloc)?;
        add(&mut waiting.here, root)?;
        Ok(())
    }

    // Lets the tuples move that ask for the least place.
    fn pass_place(
        &mut self,
        alloc: Global,
        left: u64,
        waiting: &mut WaitingTuples,
        credit: &mut usize,
    ) -> Result<PlacePass, AllocError>
        requires swept { (count : ℕ) × SweptSoFar self.old count waiting.old.places.items
            (tuples_of waiting.old.here) }
        ensures passed { IfOk result (IsPlacePass self.old left waiting.old.places.items
            (tuples_of waiting.old.here) waiting.new.places.items (tuples_of waiting.new.here)) }
        ensures same { self.new ≡ self.old }
    {
        let place = self.read_tops(waiting.here.as_slice(), &mut waiting.tops)?;
        let moved = count_of(waiting.tops.as_slice(), place);
        if place >= self.atoms() {
            return Ok(PlacePass::Unsettled);
        }
        let all = waiting.tops.len();
        waiting.moved = waiting.moved.saturating_add(moved);
        waiting.crowded = !may_wait(credit, self.operands(), moved, all);
        if waiting.crowded {
            return Ok(PlacePass::Unsettled);
        }
        self.count_all(alloc, place, moved)?;
        empty(alloc, &mut waiting.later, all);
        let here = waiting.here.as_slice();
        let tops = waiting.tops.as_slice();
        if !self.pass(alloc, left, place, here, tops, &mut waiting.later)? {
            return Ok(PlacePass::Over);
        }
        mem::swap(&mut waiting.here, &mut waiting.later);
        waiting.places.push(place)?;
        Ok(PlacePass::Moved(moved))
    }

    // Writes the places for which the tuples ask. The answer is the least of them.
    fn read_tops(&self, tuples: &[Tuple], tops: &mut Vec<u32>) -> Result<u32, AllocError>
        requires { All (λ t. IsTuple self.now t.items) tuples.now }
        ensures tops { OnOk result (tops.new.items
            ≡ map (λ t. least (moves self.now.setting) self.now.asked t.items) tuples.now) }
        ensures least { IfOk result (λ place. All (λ v. place ≤ v) tops.new.items) }
        ensures great { IfOk result (λ place. (w : ℕ) → w ≤ self.now.setting.list.atoms
            → All (λ v. w ≤ v) tops.new.items → w ≤ place) }
    {
        tops.clear();
        let mut least = self.atoms();
        for tuple in tuples {
            let top = self.least(tuple.as_slice());
            tops.push(top)?;
            least = least.min(top);
        }
        Ok(least)
    }

    // Counts what the moves cost of so many tuples that ask for this place, as long as the goal's
    // places may come to be listed.
    fn count_all(&mut self, alloc: Global, place: u32, tuples: usize) -> Result<(), AllocError>
        ensures { self.new ≡ self.old }
    {
        for _ in 0..tuples {
            if !self.may_list() {
                return Ok(());
            }
            self.count_moves(alloc, place)?;
        }
        Ok(())
    }

    // Lets the tuples move that ask for the place, and the others wait on. The answer is whether
    // all are passed: it ends where more than so many wait.
    fn pass(
        &self,
        alloc: Global,
        most: u64,
        place: u32,
        tuples: &[Tuple],
        tops: &[u32],
        later: &mut IndexSet<Tuple>,
    ) -> Result<bool, AllocError>
        requires place { place < self.now.setting.list.atoms }
        requires reached { All (λ t. IsReached (moves self.now.setting) self.now.asked
            (roots self.now.setting self.now.asked) t.items) tuples.now }
        requires tops { tops.now
            ≡ map (λ t. least (moves self.now.setting) self.now.asked t.items) tuples.now }
        requires least { All (λ v. place ≤ v) tops.now }
        requires none { later.old.keys ≡ [] }
        ensures all { IfOk result (λ all. all ≡ true
            → IsSweptPlace (moves self.now.setting) self.now.asked
            (roots self.now.setting self.now.asked) place (map (λ t. t.items) tuples.now)
            (tuples_of later.new)) }
        ensures many { IfOk result (λ all. all ≡ false
            → AreMany (moves self.now.setting) self.now.asked
            (roots self.now.setting self.now.asked) place most (tuples_of later.new)) }
    {
        let marks = self.marks_at(place, PlaceMarks::none(self.atoms()));
        for k in 0..tuples.len() {
            if later.len() as u64 > most {
                return Ok(false);
            }
            self.pass_on(alloc, tuples[k].as_slice(), tops[k] == place, &marks, later)?;
        }
        Ok(true)
    }

    // Lets a tuple move, if it asks for the place of these marks, or else wait on.
    fn pass_on(
        &self,
        alloc: Global,
        tuple: &[u32],
        asks: bool,
        marks: &PlaceMarks,
        later: &mut IndexSet<Tuple>,
    ) -> Result<(), AllocError>
        requires reached { IsReached (moves self.now.setting) self.now.asked
            (roots self.now.setting self.now.asked) tuple.now }
        requires place { marks.now.place < self.now.setting.list.atoms }
        requires upto { marks.now.place ≤ least (moves self.now.setting) self.now.asked tuple.now }
        requires asks { asks
            ≡ nat_eq (least (moves self.now.setting) self.now.asked tuple.now) marks.now.place }
        requires marks { AreMarksOf self.now.setting marks.now }
        requires search { IsTupleSearch self.now }
        ensures { OnOk result ((tuples : List (List ℕ))
            → IsSweptPlace (moves self.now.setting) self.now.asked
            (roots self.now.setting self.now.asked) marks.now.place tuples (tuples_of later.old)
            → IsSweptPlace (moves self.now.setting) self.now.asked
            (roots self.now.setting self.now.asked) marks.now.place (tuples ++ tuple.now ∷ [])
            (tuples_of later.new)) }
    {
        if !asks {
            let copy = SmallVec::from_slice(alloc, tuple)?;
            add(later, Some(copy))?;
            return Ok(());
        }
        self.add_next(alloc, tuple, marks, false, later)?;
        self.add_next(alloc, tuple, marks, true, later)?;
        Ok(())
    }

    // Adds the live tuple to which a bit at the place of these marks leads, if there is one.
    fn add_next(
        &self,
        alloc: Global,
        tuple: &[u32],
        marks: &PlaceMarks,
        bit: bool,
        later: &mut IndexSet<Tuple>,
    ) -> Result<(), AllocError>
        requires tuple { IsTuple self.now tuple.now }
        requires live { is_live (moves self.now.setting) self.now.asked tuple.now ≡ true }
        requires least { marks.now.place ≡ least (moves self.now.setting) self.now.asked tuple.now }
        requires marks { AreMarksOf self.now.setting marks.now }
        ensures { OnOk result (IsTupleAdded (tuples_of later.old)
            (next (moves self.now.setting) self.now.asked tuple.now bit) (tuples_of later.new)) }
    {
        if tuple.len() > FEW || !self.allows(marks, bit) {
            let next = self.next(alloc, tuple, marks, bit)?;
            return add(later, next);
        }
        match self.move_few(tuple, marks, bit) {
            None => Ok(()),
            Some(row) => {
                let moved = SmallVec::from_buf_and_len(alloc, row, tuple.len());
                add(later, Some(moved))
            }
        }
    }
}

// Takes all out of a set. Its room is kept, but where it is much more than what so many take: to
// clear it takes as long as it is large.
fn empty(alloc: Global, set: &mut IndexSet<Tuple>, many: usize)
    ensures { set.new.keys ≡ [] }
{
    if set.capacity() / 8 > many.saturating_add(32) {
        *set = IndexSet::new(alloc);
    } else {
        set.clear();
    }
}

// Puts the tuple last, if there is one and it isn't there.
fn add(set: &mut IndexSet<Tuple>, tuple: Option<Tuple>) -> Result<(), AllocError>
    ensures { OnOk result (IsTupleAdded (tuples_of set.old)
        (option_map (λ t. t.items) tuple) (tuples_of set.new)) }
{
    if let Some(tuple) = tuple {
        set.insert(tuple)?;
    }
    Ok(())
}

// How many of the places are this one.
fn count_of(places: &[u32], place: u32) -> usize
    ensures { result ≡ length (filter (λ v. nat_eq v place) places.now) }
{
    let mut count = 0;
    for v in places {
        if *v == place {
            count += 1;
        }
    }
    count
}

// Whether those that wait aren't too many, beside all that moved so far, each by the nodes that it
// has: each that moves gives credit for two. Only how long a query takes hangs on it.
fn may_wait(credit: &mut usize, nodes: usize, moved: usize, all: usize) -> bool {
    let given = moved.saturating_mul(nodes).saturating_mul(2);
    *credit = credit.saturating_add(given);
    let waiting = all.saturating_sub(moved).saturating_mul(nodes);
    if waiting > *credit {
        return false;
    }
    *credit -= waiting;
    true
}

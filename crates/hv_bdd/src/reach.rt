//! The search through live tuples: all that are reached, up to the budget, and the state of one
//! that ends.

ghost use Rattle.std.specs.Prelude.{◌≡◌, ◌<◌, ◌+◌, ℕ, List, length, map, option_map};
ghost use Rattle.std.specs.Prelude.{slice_index_or, [], IfOk, MatchOption, OnOk};
ghost use Rattle.std.specs.List.{All};
ghost use Rattle.hv_bdd.specs.Working.Graphs.{AgreesWithNodes, FitsBits, IsLiveAnswer, Suits};
ghost use Rattle.hv_bdd.specs.Working.Graphs.{in_asked};
ghost use Rattle.hv_bdd.specs.Live.{moves, roots};
ghost use Rattle.hv_bdd.specs.Tuples.{if_live};

use crate::tuple_search::{Link, PlaceMarks, Search, Tuple};
use hv_sets::Finding;
use hv_task::State;
use indexmap::IndexSet;
use std::alloc::{AllocError, Global};

/// The tuples that are reached, each with the link that led to it.
#[derive(Drop)]
pub(crate) struct Reached {
    pub tuples: IndexSet<Tuple>,
    pub links: Vec<Link>,
}

impl Reached {
    ghost use Rattle.hv_bdd.specs.Working.Search.{IsPutSome, tuples_of};

    // Puts the tuple last, if there is one and it isn't there.
    fn put(&mut self, tuple: Option<Tuple>, parent: usize, bit: bool) -> Result<(), AllocError>
        ensures { OnOk result
            (IsPutSome (tuples_of self.old.tuples) self.old.links.items
            (option_map (λ t. t.items) tuple) record { parent = parent; bit = bit }
            (tuples_of self.new.tuples) self.new.links.items) }
    {
        if let Some(tuple) = tuple {
            if self.tuples.insert(tuple)? {
                self.links.push(Link { parent, bit })?;
            }
        }
        Ok(())
    }
}

impl Search<'_> {
    ghost use Rattle.hv_bdd.specs.Working.Search.{AreMarksOf};
    ghost use Rattle.hv_bdd.specs.Working.Search.{Explored, IsDone, IsEndTuple, IsTuple};
    ghost use Rattle.hv_bdd.specs.Working.Search.{IsTupleSearch, tuple_at, tuples_of};

    /// Looks for a state that suits the operands.
    pub(crate) fn find(
        &mut self,
        alloc: Global,
        budget: u64,
        state: &mut State,
    ) -> Result<Finding, AllocError>
        requires { length state.old ≡ self.old.setting.list.atoms }
        ensures answer { IfOk result (λ found.
            IsLiveAnswer found self.old.setting self.old.asked budget state.new) }
        ensures same { self.new ≡ self.old }
    {
        let reached = self.reach(alloc, budget)?;
        Ok(self.conclude(budget, &reached, state))
    }

    // What was found, where these tuples were reached.
    pub(crate) fn conclude(&self, budget: u64, reached: &Reached, state: &mut State) -> Finding
        requires done { IsDone self.now budget reached.now }
        requires state { length state.old ≡ self.now.setting.list.atoms }
        ensures { IsLiveAnswer result self.now.setting self.now.asked budget state.new }
    {
        if reached.tuples.len() as u64 > budget {
            return Finding::Over;
        }
        match self.first_end(reached.tuples.as_slice()) {
            None => Finding::Empty,
            Some(end) => {
                self.fill(state);
                self.take_bits(reached, end, state);
                Finding::Clash
            }
        }
    }

    // All live tuples that are reached, or more of them than the budget.
    pub(crate) fn reach(&mut self, alloc: Global, budget: u64) -> Result<Reached, AllocError>
        ensures done { IfOk result (λ reached. IsDone self.old budget reached) }
        ensures search { IsTupleSearch self.old }
        ensures same { self.new ≡ self.old }
    {
        let mut reached = Reached {
            tuples: IndexSet::new(alloc),
            links: Vec::new(alloc),
        };
        self.reach_all(alloc, budget, &mut reached)?;
        Ok(reached)
    }

    // Puts them in, where none is.
    fn reach_all(
        &mut self,
        alloc: Global,
        budget: u64,
        reached: &mut Reached,
    ) -> Result<(), AllocError>
        requires tuples { reached.old.tuples.keys ≡ [] }
        requires links { reached.old.links.items ≡ [] }
        ensures done { OnOk result (IsDone self.old budget reached.new) }
        ensures search { IsTupleSearch self.old }
        ensures same { self.new ≡ self.old }
    {
        self.put_root(alloc, reached)?;
        let mut marks = PlaceMarks::none(self.atoms());
        let mut done = 0;
        while done < reached.tuples.len() && reached.tuples.len() as u64 <= budget {
            self.prepare(alloc, done, reached)?;
            self.expand(alloc, done, reached, &mut marks)?;
            done += 1;
        }
        Ok(())
    }

    // Puts in the tuple of the roots, if it is live, where none is.
    fn put_root(&self, alloc: Global, reached: &mut Reached) -> Result<(), AllocError>
        requires tuples { reached.old.tuples.keys ≡ [] }
        requires links { reached.old.links.items ≡ [] }
        ensures explored { OnOk result (Explored self.now 0 reached.new) }
        ensures search { IsTupleSearch self.now }
    {
        let root = self.live_root(alloc)?;
        reached.put(root, 0, false)?;
        Ok(())
    }

    // The tuple of the roots, if it is live.
    pub(crate) fn live_root(&self, alloc: Global) -> Result<Option<Tuple>, AllocError>
        ensures root { IfOk result (λ root.
            option_map (λ t. t.items) root
            ≡ if_live (moves self.now.setting) self.now.asked
            (roots self.now.setting self.now.asked)) }
        ensures search { IsTupleSearch self.now }
    {
        let root = self.roots(alloc)?;
        if !self.is_live(root.as_slice()) {
            return Ok(None);
        }
        Ok(Some(root))
    }

    // Counts what the moves of one more tuple cost, where the goal's places may come to be listed.
    fn prepare(&mut self, alloc: Global, done: usize, reached: &Reached) -> Result<(), AllocError>
        requires explored { Explored self.old done reached.now }
        requires done { done < length reached.now.tuples.keys }
        ensures { self.new ≡ self.old }
    {
        if !self.may_list() {
            return Ok(());
        }
        let place = self.least(reached.tuples.as_slice()[done].as_slice());
        self.count_moves(alloc, place)
    }

    // Puts in what the bits lead to from one more tuple. The marks become those of its place.
    fn expand(
        &self,
        alloc: Global,
        done: usize,
        reached: &mut Reached,
        marks: &mut PlaceMarks,
    ) -> Result<(), AllocError>
        requires explored { Explored self.now done reached.old }
        requires done { done < length reached.old.tuples.keys }
        requires marks { AreMarksOf self.now.setting marks.old }
        ensures explored { OnOk result (Explored self.now (done + 1) reached.new) }
        ensures marks { OnOk result (AreMarksOf self.now.setting marks.new) }
    {
        let tuple = reached.tuples.as_slice()[done].as_slice();
        let here = self.marks_at(self.least(tuple), *marks);
        *marks = here;
        let low = self.next(alloc, tuple, &here, false)?;
        let high = self.next(alloc, tuple, &here, true)?;
        reached.put(low, done, false)?;
        reached.put(high, done, true)?;
        Ok(())
    }

    // The first tuple of ends.
    fn first_end(&self, tuples: &[Tuple]) -> Option<usize>
        requires { All (λ t. IsTuple self.now t.items) tuples.now }
        ensures { MatchOption result (All (λ t. IsEndTuple self.now t.items → ⊥) tuples.now) (λ k.
            (k < length tuples.now)
            × IsEndTuple self.now (tuple_at (map (λ t. t.items) tuples.now) k)) }
    {
        for (k, tuple) in tuples.iter().enumerate() {
            if self.least(tuple.as_slice()) == self.atoms() {
                return Some(k);
            }
        }
        None
    }

    // Makes the state the one that has the needed atoms and no other.
    fn fill(&self, state: &mut State)
        requires { length state.old ≡ self.now.setting.list.atoms }
        ensures { FitsBits (moves self.now.setting) state.new }
    {
        for atom in 0..self.atoms() {
            state.set(atom, self.needs(atom) == Some(true));
        }
    }

    // Writes the bits into the state that lead to a tuple.
    fn take_bits(&self, reached: &Reached, end: usize, state: &mut State)
        requires explored { (done : ℕ) × Explored self.now done reached.now }
        requires end { end < length reached.now.tuples.keys }
        requires fits { FitsBits (moves self.now.setting) state.old }
        requires agrees { AgreesWithNodes (in_asked self.now.setting) (λ o. o.positive) state.old
            self.now.asked (tuple_at (tuples_of reached.now.tuples) end) }
        ensures { Suits self.now.setting self.now.asked state.new }
    {
        let mut at = end;
        while at > 0 {
            let link = reached.links[at];
            let place = self.least(reached.tuples.as_slice()[link.parent].as_slice());
            state.set(self.atom_at(place), link.bit);
            at = link.parent;
        }
    }
}

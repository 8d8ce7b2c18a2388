//! The search through live tuples: how a tuple moves.

ghost use Rattle.std.specs.Prelude.{◌≡◌, ◌<◌, ◌≤◌, ◌-◌, ◌&&◌, true, false, cond, length, nat_eq};
ghost use Rattle.std.specs.Prelude.{nat_lt, option_map, take, IfOk, IfSome, slice_index_or};
ghost use Rattle.std.specs.List.{All};
ghost use Rattle.std.specs.List.Sorted.{IsStrictlyIncreasing};
ghost use Rattle.hv_task.specs.Atoms.{IsNext};
ghost use Rattle.hv_task.specs.State.{names_atom};
ghost use Rattle.hv_sets.specs.declared.operand.Which.TheVariants as W;
ghost use Rattle.hv_bdd.specs.Working.Graphs.{limit};
ghost use Rattle.hv_bdd.specs.Live.{asks_goal, first_asked, graph_child, graph_top, is_marked};
ghost use Rattle.hv_bdd.specs.Live.{bit_mark_of, moves, bit_or, root, roots};
ghost use Rattle.hv_bdd.specs.Nodes.{node_count};
ghost use Rattle.hv_bdd.specs.Order.{atom_at};
ghost use Rattle.hv_bdd.specs.Tuples.{if_live, is_live, least, move_all, move_one, next};

use crate::asked::Asked;
use crate::atom_bits::{AtomBits, ListedState, first_from};
use crate::diagrams::Diagrams;
use crate::goal::{Goal, GoalPlaces};
use hv_sets::Which;
use hv_task::State;
use smallvec::SmallVec;
use std::alloc::{AllocError, Global};
use std::marker::Model;

// A tuple of so many operands takes no room of its own.
pub(crate) const FEW: usize = 8;

/// A node for each operand.
pub(crate) type Tuple = SmallVec<u32, FEW>;

/// From which tuple a tuple was reached, and by which bit.
#[derive(Clone, Copy)]
pub(crate) struct Link {
    pub parent: usize,
    pub bit: bool,
}

/// The marks of the atom at a place: the bit that the state needs of it, and the one that the
/// action makes of it, if there are such. Past the last place there is none.
#[derive(Clone, Copy)]
pub(crate) struct PlaceMarks {
    pub place: u32,
    pub needed: Option<bool>,
    pub changed: Option<bool>,
}

impl PlaceMarks {
    /// No marks, at a place.
    pub(crate) fn none(place: u32) -> PlaceMarks
        ensures { result.place ≡ place }
    {
        PlaceMarks {
            place,
            needed: None,
            changed: None,
        }
    }
}

/// What tuples move through, and the operands that are asked.
#[derive(Drop)]
pub(crate) struct Search<'a> {
    nodes: &'a Diagrams,
    // The initial state.
    start: ListedState<'a>,
    // The atoms of the goal.
    goal: Goal<'a>,
    // The bit that the state needs at an atom, if it needs one.
    needed: AtomBits<'a>,
    // The bit of an atom after the action, if the action changes it.
    changed: AtomBits<'a>,
    asked: &'a [Asked],
}

impl<'a> Model for Search<'a> {
    ghost use Rattle.std.specs.Prelude.{◌≡◌, IfSome, length};
    ghost use Rattle.hv_bdd.specs.Working.Search.{IsTupleSearch, ListsPlaces, TupleSearch};

    ghost Value = { TupleSearch };

    ghost view = { λ s. record {
      setting = record {
        list = s.nodes.now;
        start = s.start;
        goal = s.goal.held;
        needed = s.needed;
        changed = s.changed;
      };
      asked = s.asked.now;
    } };

    ghost invariant = { λ s. IsTupleSearch record {
      setting = record {
        list = s.nodes.now;
        start = s.start;
        goal = s.goal.held;
        needed = s.needed;
        changed = s.changed;
      };
      asked = s.asked.now;
    } × IfSome s.goal.places.listed (λ places.
        ListsPlaces s.nodes.now s.goal.held places.items)
        × (length s.goal.held ≡ s.nodes.now.atoms) };
}

impl<'a> Search<'a> {
    ghost use Rattle.hv_bdd.specs.Working.Search.{AreMarksOf, IsAskable, IsTupleSearch};
    ghost use Rattle.hv_bdd.specs.Working.Search.{ListsPlaces};
    ghost use Rattle.hv_bdd.specs.Working.Untouched.{MarksNone};

    /// The search for these operands.
    pub(crate) fn new(
        nodes: &'a Diagrams,
        start: ListedState<'a>,
        goal: Goal<'a>,
        needed: AtomBits<'a>,
        changed: AtomBits<'a>,
        asked: &'a [Asked],
    ) -> Search<'a>
        requires tuples { IsTupleSearch record {
          setting = record {
            list = nodes.now;
            start = start;
            goal = goal.held;
            needed = needed;
            changed = changed;
          };
          asked = asked.now;
        } }
        requires places { IfSome goal.places.listed (λ places.
            ListsPlaces nodes.now goal.held places.items) }
        requires goal { length goal.held ≡ nodes.now.atoms }
        ensures setting { result.setting
            ≡ record {
              list = nodes.now;
              start = start.entry;
              goal = goal.entry.held;
              needed = needed.entry;
              changed = changed.entry;
            } }
        ensures asked { result.asked ≡ asked.now }
    {
        Search {
            nodes,
            start,
            goal,
            needed,
            changed,
            asked,
        }
    }

    /// How many atoms there are.
    pub(crate) fn atoms(&self) -> u32
        ensures atoms { result ≡ self.now.setting.list.atoms }
        ensures search { IsTupleSearch self.now }
    {
        self.nodes.atoms()
    }

    /// How many nodes there are.
    pub(crate) fn count(&self) -> usize
        ensures count { result ≡ node_count self.now.setting.list }
        ensures search { IsTupleSearch self.now }
    {
        self.nodes.count()
    }

    /// How many operands are asked, each of which has a node in a tuple.
    pub(crate) fn operands(&self) -> usize {
        self.asked.len()
    }

    /// The atom at a place.
    pub(crate) fn atom_at(&self, place: u32) -> u32
        requires { place < self.now.setting.list.atoms }
        ensures atom { result ≡ atom_at self.now.setting.list place }
        ensures within { result < self.now.setting.list.atoms }
    {
        self.nodes.atom_at(place)
    }

    /// The bit that the state needs at an atom, if it needs one.
    pub(crate) fn needs(&self, atom: u32) -> Option<bool>
        requires { atom < self.now.setting.list.atoms }
        ensures { result ≡ bit_mark_of self.now.setting.needed atom }
    {
        self.needed.read(atom)
    }

    /// Whether the action marks none of these places, as far as it has at most so many marks of one
    /// kind.
    pub(crate) fn marks_none(&self, places: &State, most: usize) -> bool
        requires { length places.now ≡ self.now.setting.list.atoms }
        ensures needed { result ≡ true
            → MarksNone self.now.setting.list self.now.setting.needed places.now }
        ensures changed { result ≡ true
            → MarksNone self.now.setting.list self.now.setting.changed places.now }
    {
        self.needed.is_none_at(self.nodes, places, most)
            && self.changed.is_none_at(self.nodes, places, most)
    }

    /// The places of the goal's atoms, as far as they are listed.
    pub(crate) fn places(self) -> GoalPlaces
        ensures { IfSome result.listed (λ places.
            ListsPlaces self.entry.setting.list self.entry.setting.goal places.items) }
    {
        self.goal.places
    }

    // The bit that the action makes of an atom, if it changes it.
    fn changes(&self, atom: u32) -> Option<bool>
        requires { atom < self.now.setting.list.atoms }
        ensures { result ≡ bit_mark_of self.now.setting.changed atom }
    {
        self.changed.read(atom)
    }

    /// The marks of a place. Tuples come mostly place by place, so those of the last one are tried.
    pub(crate) fn marks_at(&self, place: u32, last: PlaceMarks) -> PlaceMarks
        requires { AreMarksOf self.now.setting last }
        ensures place { result.place ≡ place }
        ensures marks { AreMarksOf self.now.setting result }
    {
        if last.place == place {
            return last;
        }
        if place >= self.atoms() {
            return PlaceMarks::none(place);
        }
        let atom = self.atom_at(place);
        PlaceMarks {
            place,
            needed: self.needs(atom),
            changed: self.changes(atom),
        }
    }

    /// Whether the places of the goal may come to be listed.
    pub(crate) fn may_list(&self) -> bool {
        self.goal.counts && self.goal.places.left > 0
    }

    /// Counts what it costs to look for the first place of the goal, if that is done once more.
    pub(crate) fn count_root(&mut self, alloc: Global, again: bool) -> Result<(), AllocError>
        ensures { self.new ≡ self.old }
    {
        if !again || !self.may_list() {
            return Ok(());
        }
        let cost = self.nodes.cost_of_next(&self.goal.held, 0);
        self.spend(alloc, cost)
    }

    /// Counts what the moves cost of a tuple that asks for this place.
    pub(crate) fn count_moves(&mut self, alloc: Global, place: u32) -> Result<(), AllocError>
        ensures { self.new ≡ self.old }
    {
        let cost = self.cost_at(place);
        self.spend(alloc, cost)
    }

    // Counts such a cost, and lists the places of the goal once that comes to as much as listing
    // them.
    fn spend(&mut self, alloc: Global, cost: u32) -> Result<(), AllocError>
        ensures { self.new ≡ self.old }
    {
        if cost < self.goal.places.left {
            self.goal.places.left -= cost;
            return Ok(());
        }
        self.goal.places.left = 0;
        let listed = self.nodes.places_of(alloc, &self.goal.held)?;
        self.goal.places.listed = Some(listed);
        Ok(())
    }

    // What it costs to look for the next place of the goal, where its atom is at this place.
    fn cost_at(&self, place: u32) -> u32 {
        if place >= self.atoms() || !self.goal.held.has(self.atom_at(place)) {
            return 1;
        }
        self.nodes.cost_of_next(&self.goal.held, place + 1)
    }

    // The operand of a place of the tuples.
    fn operand(&self, place: usize) -> &'a Asked
        requires { place < length self.now.asked }
        ensures at { result.now ≡ slice_index_or self.now.asked place result.now }
        ensures askable { IsAskable self.now.setting result.now.which }
    {
        let asked = self.asked;
        &asked[place]
    }
}

impl Search<'_> {
    ghost use Rattle.hv_bdd.specs.Working.Search.{AreMarksOf, IsAskable, IsTuple};
    ghost use Rattle.hv_bdd.specs.Working.Search.{IsTupleSearch};

    // The root of an operand.
    pub(crate) fn root(&self, which: Which) -> u32
        requires { IsAskable self.now.setting which }
        ensures { result ≡ root self.now.setting which }
    {
        // For its contract alone: the setting is one.
        let _atoms = self.atoms();
        match which {
            Which::Empty => 0,
            Which::Start => self.start_from(0),
            Which::Goal => self.goal_from(0),
            Which::Set(number) => number as u32,
        }
    }

    // The place for which a node of an operand asks.
    pub(crate) fn top(&self, which: Which, node: u32) -> u32
        requires { node < limit self.now.setting which }
        ensures { result ≡ graph_top self.now.setting which node }
    {
        match which {
            Which::Set(_) => self.nodes.top(node),
            _ if node < 2 => self.atoms(),
            _ => node - 2,
        }
    }

    // The node to which a bit leads.
    pub(crate) fn child(&self, which: Which, node: u32, bit: bool) -> u32
        requires askable { IsAskable self.now.setting which }
        requires inner { 2 ≤ node }
        requires node { node < limit self.now.setting which }
        ensures { result ≡ graph_child self.now.setting which node bit }
    {
        match which {
            Which::Empty => 0,
            Which::Start => self.start_child(node, bit),
            Which::Goal => self.goal_child(node, bit),
            Which::Set(_) => self.nodes.child(node, bit),
        }
    }

    // The node of the initial state's chain for a place, or node 1 past the last.
    fn start_from(&self, place: u32) -> u32
        requires askable { IsAskable self.now.setting W.Start }
        requires place { place ≤ self.now.setting.list.atoms }
        ensures { result ≡ first_asked (λ v. true) (self.now.setting.list.atoms - place) place }
    {
        if place < self.atoms() { place + 2 } else { 1 }
    }

    // The first node of the goal's chain from a place on, or node 1 where there is none.
    fn goal_from(&self, place: u32) -> u32
        requires askable { IsAskable self.now.setting W.Goal }
        requires place { place ≤ self.now.setting.list.atoms }
        ensures { result
            ≡ first_asked (asks_goal self.now.setting) (self.now.setting.list.atoms - place) place }
    {
        match self.next_of_goal(place) {
            Some(next) => next + 2,
            None => 1,
        }
    }

    // The least place from this one on whose atom is one of the goal.
    fn next_of_goal(&self, from: u32) -> Option<u32>
        requires { IsAskable self.now.setting W.Goal }
        ensures next { IsNext (asks_goal self.now.setting) from result }
        ensures within { IfSome result (λ v. v < self.now.setting.list.atoms) }
    {
        match &self.goal.places.listed {
            Some(places) => next_listed(places.as_slice(), from),
            None => self.nodes.next_place(&self.goal.held, from),
        }
    }

    fn start_child(&self, node: u32, bit: bool) -> u32
        requires askable { IsAskable self.now.setting W.Start }
        requires inner { 2 ≤ node }
        requires node { node < limit self.now.setting W.Start }
        ensures { result ≡ graph_child self.now.setting W.Start node bit }
    {
        if bit == self.start.has(self.atom_at(node - 2)) {
            self.start_from(node - 1)
        } else {
            0
        }
    }

    fn goal_child(&self, node: u32, bit: bool) -> u32
        requires askable { IsAskable self.now.setting W.Goal }
        requires inner { 2 ≤ node }
        requires node { node < limit self.now.setting W.Goal }
        ensures { result ≡ graph_child self.now.setting W.Goal node bit }
    {
        if bit { self.goal_from(node - 1) } else { 0 }
    }

    // Whether the state may have this bit at a place, if there is such a place.
    pub(crate) fn allows(&self, marks: &PlaceMarks, bit: bool) -> bool
        requires { AreMarksOf self.now.setting marks.now }
        ensures allows { result
            ≡ (nat_lt marks.now.place self.now.setting.list.atoms
            && (moves self.now.setting).allows marks.now.place bit) }
        ensures place { result ≡ true → marks.now.place < self.now.setting.list.atoms }
        ensures search { IsTupleSearch self.now }
    {
        if marks.place >= self.atoms() {
            return false;
        }
        is_marked(marks.needed, bit)
    }

    /// The least place for which a node of the tuple asks, or the place past all atoms.
    pub(crate) fn least(&self, tuple: &[u32]) -> u32
        requires { IsTuple self.now tuple.now }
        ensures { result ≡ least (moves self.now.setting) self.now.asked tuple.now }
    {
        let mut least = self.atoms();
        for (k, node) in tuple.iter().enumerate() {
            least = least.min(self.top(self.operand(k).which, *node));
        }
        least
    }

    // Whether no place rules its operand out.
    pub(crate) fn is_live(&self, tuple: &[u32]) -> bool
        requires { IsTuple self.now tuple.now }
        ensures { result ≡ is_live (moves self.now.setting) self.now.asked tuple.now }
    {
        for (k, node) in tuple.iter().enumerate() {
            if *node == ruled_out(self.operand(k).positive) {
                return false;
            }
        }
        true
    }

    // The tuple to which a bit at a place leads, if it is live.
    fn move_all(
        &self,
        alloc: Global,
        tuple: &[u32],
        marks: &PlaceMarks,
        bit: bool,
    ) -> Result<Option<Tuple>, AllocError>
        requires tuple { IsTuple self.now tuple.now }
        requires live { is_live (moves self.now.setting) self.now.asked tuple.now ≡ true }
        requires place { marks.now.place < self.now.setting.list.atoms }
        requires marks { AreMarksOf self.now.setting marks.now }
        ensures { IfOk result (λ to.
            option_map (λ t. t.items) to
            ≡ if_live (moves self.now.setting) self.now.asked
            (move_all (moves self.now.setting) marks.now.place bit self.now.asked tuple.now)) }
    {
        if tuple.len() > FEW {
            return self.move_many(alloc, tuple, marks, bit);
        }
        match self.move_few(tuple, marks, bit) {
            None => Ok(None),
            Some(row) => Ok(Some(SmallVec::from_buf_and_len(alloc, row, tuple.len()))),
        }
    }

    // The nodes of the tuple to which a bit at a place leads from one of few operands, if it is
    // live, at the front of a row.
    #[tactic(auto, using(crate::proofs::Moving::moved_into))]
    pub(crate) fn move_few(
        &self,
        tuple: &[u32],
        marks: &PlaceMarks,
        bit: bool,
    ) -> Option<[u32; FEW]>
        requires few { length tuple.now ≤ FEW }
        requires tuple { IsTuple self.now tuple.now }
        requires live { is_live (moves self.now.setting) self.now.asked tuple.now ≡ true }
        requires place { marks.now.place < self.now.setting.list.atoms }
        requires marks { AreMarksOf self.now.setting marks.now }
        ensures { option_map (take (length tuple.now)) result
            ≡ if_live (moves self.now.setting) self.now.asked
            (move_all (moves self.now.setting) marks.now.place bit self.now.asked tuple.now) }
    {
        let mut row = [0; FEW];
        for (k, node) in tuple.iter().enumerate() {
            let asked = self.operand(k);
            let to = self.move_one(asked, *node, marks, bit);
            if to == ruled_out(asked.positive) {
                return None;
            }
            row[k] = to;
        }
        Some(row)
    }

    // The same for a tuple of many operands: it takes room only where it leads to a live one.
    fn move_many(
        &self,
        alloc: Global,
        tuple: &[u32],
        marks: &PlaceMarks,
        bit: bool,
    ) -> Result<Option<Tuple>, AllocError>
        requires tuple { IsTuple self.now tuple.now }
        requires live { is_live (moves self.now.setting) self.now.asked tuple.now ≡ true }
        requires place { marks.now.place < self.now.setting.list.atoms }
        requires marks { AreMarksOf self.now.setting marks.now }
        ensures { IfOk result (λ to.
            option_map (λ t. t.items) to
            ≡ if_live (moves self.now.setting) self.now.asked
            (move_all (moves self.now.setting) marks.now.place bit self.now.asked tuple.now)) }
    {
        if !self.stays_live(tuple, marks, bit) {
            return Ok(None);
        }
        let mut moved = SmallVec::from_slice(alloc, tuple)?;
        self.move_each(moved.as_mut_slice(), marks, bit);
        Ok(Some(moved))
    }

    // Whether the tuple to which a bit at a place leads from a live one is live.
    fn stays_live(&self, tuple: &[u32], marks: &PlaceMarks, bit: bool) -> bool
        requires tuple { IsTuple self.now tuple.now }
        requires live { is_live (moves self.now.setting) self.now.asked tuple.now ≡ true }
        requires place { marks.now.place < self.now.setting.list.atoms }
        requires marks { AreMarksOf self.now.setting marks.now }
        ensures { result
            ≡ is_live (moves self.now.setting) self.now.asked
            (move_all (moves self.now.setting) marks.now.place bit self.now.asked tuple.now) }
    {
        for (k, node) in tuple.iter().enumerate() {
            if self.rules_out(self.operand(k), *node, marks, bit) {
                return false;
            }
        }
        true
    }

    // Whether a bit at a place rules out an operand that its node doesn't rule out: more is looked
    // at only where it asks for the place.
    #[tactic(auto, using(crate::proofs::Moving::stays_put))]
    fn rules_out(&self, asked: &Asked, node: u32, marks: &PlaceMarks, bit: bool) -> bool
        requires askable { IsAskable self.now.setting asked.now.which }
        requires node { node < limit self.now.setting asked.now.which }
        requires live { nat_eq node (cond asked.now.positive 0 1) ≡ false }
        requires place { marks.now.place < self.now.setting.list.atoms }
        requires marks { AreMarksOf self.now.setting marks.now }
        ensures { result
            ≡ nat_eq (move_one (moves self.now.setting) marks.now.place bit asked.now node)
            (cond asked.now.positive 0 1) }
    {
        if node < 2 || self.top(asked.which, node) != marks.place {
            return false;
        }
        self.move_one(asked, node, marks, bit) == ruled_out(asked.positive)
    }

    // Moves each node of a tuple by a bit at a place.
    #[tactic(auto, using(crate::proofs::Moving::moved_more))]
    fn move_each(&self, tuple: &mut [u32], marks: &PlaceMarks, bit: bool)
        requires tuple { IsTuple self.now tuple.old }
        requires place { marks.now.place < self.now.setting.list.atoms }
        requires marks { AreMarksOf self.now.setting marks.now }
        ensures { tuple.new
            ≡ move_all (moves self.now.setting) marks.now.place bit self.now.asked tuple.old }
    {
        for k in 0..tuple.len() {
            tuple[k] = self.move_one(self.operand(k), tuple[k], marks, bit);
        }
    }

    // The node to which a bit at a place leads.
    #[tactic(auto, using(crate::proofs::Graphs::graph_outer))]
    fn move_one(&self, asked: &Asked, node: u32, marks: &PlaceMarks, bit: bool) -> u32
        requires askable { IsAskable self.now.setting asked.now.which }
        requires node { node < limit self.now.setting asked.now.which }
        requires place { marks.now.place < self.now.setting.list.atoms }
        requires marks { AreMarksOf self.now.setting marks.now }
        ensures { result ≡ move_one (moves self.now.setting) marks.now.place bit asked.now node }
    {
        if node < 2 {
            return node;
        }
        let seen = self.seen(marks, asked.after, bit);
        match asked.which {
            Which::Set(_) => self.nodes.moved(node, marks.place, seen),
            which => self.move_chain(which, node, marks.place, seen),
        }
    }

    // The same in a graph that is a chain, with the bit that the operand sees.
    #[inline(never)]
    fn move_chain(&self, which: Which, node: u32, place: u32, bit: bool) -> u32
        requires askable { IsAskable self.now.setting which }
        requires node { node < limit self.now.setting which }
        requires place { place < self.now.setting.list.atoms }
        ensures { result ≡ cond (nat_eq (graph_top self.now.setting which node) place)
            (graph_child self.now.setting which node bit) node }
    {
        if self.top(which, node) == place {
            self.child(which, node, bit)
        } else {
            node
        }
    }

    // The bit that an operand sees where the state before the action has this bit at a place.
    fn seen(&self, marks: &PlaceMarks, after: bool, bit: bool) -> bool
        requires place { marks.now.place < self.now.setting.list.atoms }
        requires marks { AreMarksOf self.now.setting marks.now }
        ensures { result
            ≡ cond after
            (bit_or (bit_mark_of self.now.setting.changed
            (atom_at self.now.setting.list marks.now.place)) bit) bit }
    {
        if after {
            bit_or(marks.changed, bit)
        } else {
            bit
        }
    }

    // The live tuple to which a bit at the least place leads, if there is one.
    pub(crate) fn next(
        &self,
        alloc: Global,
        tuple: &[u32],
        marks: &PlaceMarks,
        bit: bool,
    ) -> Result<Option<Tuple>, AllocError>
        requires tuple { IsTuple self.now tuple.now }
        requires live { is_live (moves self.now.setting) self.now.asked tuple.now ≡ true }
        requires least { marks.now.place ≡ least (moves self.now.setting) self.now.asked tuple.now }
        requires marks { AreMarksOf self.now.setting marks.now }
        ensures { IfOk result (λ to.
            option_map (λ t. t.items) to
            ≡ next (moves self.now.setting) self.now.asked tuple.now bit) }
    {
        if !self.allows(marks, bit) {
            return Ok(None);
        }
        self.move_all(alloc, tuple, marks, bit)
    }

    // The tuple of the roots.
    pub(crate) fn roots(&self, alloc: Global) -> Result<Tuple, AllocError>
        ensures roots { IfOk result (λ tuple.
            tuple.items ≡ roots self.now.setting self.now.asked) }
        ensures search { IsTupleSearch self.now }
    {
        let mut tuple = SmallVec::new(alloc);
        for asked in self.asked {
            tuple.push(self.root(asked.which))?;
        }
        Ok(tuple)
    }
}

// The least of these places from this one on.
fn next_listed(places: &[u32], from: u32) -> Option<u32>
    requires { IsStrictlyIncreasing places.now }
    ensures { IsNext (names_atom places.now) from result }
{
    let at = first_from(places, from);
    if at < places.len() {
        return Some(places[at]);
    }
    None
}

fn bit_or(mark: Option<bool>, bit: bool) -> bool
    ensures { result ≡ bit_or mark bit }
{
    match mark {
        None => bit,
        Some(marked) => marked,
    }
}

fn is_marked(mark: Option<bool>, bit: bool) -> bool
    ensures { result ≡ is_marked mark bit }
{
    match mark {
        None => true,
        Some(marked) => marked == bit,
    }
}

// The end that rules an operand out.
fn ruled_out(positive: bool) -> u32
    ensures { result ≡ cond positive 0 1 }
{
    if positive { 0 } else { 1 }
}

//! Queries about one task that are asked of diagrams one after the other.

ghost use Rattle.std.specs.Prelude.{◌≡◌, ◌<◌, Bool, List, length, true, IfOk, IfSome, OnOk};
ghost use Rattle.hv_task.specs.State.{state_of};
ghost use Rattle.hv_task.specs.Strips.{IsTask, atoms};
ghost use Rattle.hv_sets.specs.Cost.{IsAnswer};
ghost use Rattle.hv_sets.specs.Query.{IsReady, is_clash};
ghost use Rattle.hv_sets.specs.Room.{KeepsLengths};
ghost use Rattle.hv_sets.specs.declared.finding.Finding.TheVariants as F;
ghost use Rattle.hv_bdd.specs.Live.{LivePass, operands_of};
ghost use Rattle.hv_bdd.specs.Nodes.{in_node, node_count};
ghost use Rattle.hv_bdd.specs.Reduced.{IsReduced};
ghost use Rattle.hv_bdd.specs.Working.Search.{ListsPlaces, active, search_for};
ghost use Rattle.hv_bdd.specs.Working.Untouched.{IsKeptOf, IsKeptTrulyFor};

use crate::asked::Asked;
use crate::atom_bits::ListedState;
use crate::diagrams::Diagrams;
use crate::goal::{Goal, GoalPlaces, is_asked};
use crate::node_queries::{active_operands, changed_by, needed_by};
use crate::place_sweep::WaitingTuples;
use crate::tuple_search::Search;
use crate::untouched::{Untouched, is_fruitless, keep_for};
use hv_sets::{Finding, Query, Scratch};
use hv_task::{State, Task};
use std::alloc::{AllocError, Global};
use std::marker::Model;
use std::mem;

/// Asks diagrams queries about one task, one after the other. What serves all of them is kept: the
/// places of the goal's atoms, where the diagrams list an order; the room for tuples; and what is
/// known of the actions that touch no place of the operands, so that few of these are searched for.
#[derive(Drop)]
pub struct NodeInquiry<'a> {
    nodes: &'a Diagrams,
    task: &'a Task,
    places: GoalPlaces,
    known: Option<Untouched>,
    // Room for the tuples of a query.
    waiting: Option<WaitingTuples>,
    // Whether a query was asked before.
    again: bool,
}

impl<'a> Model for NodeInquiry<'a> {
    ghost use Rattle.std.specs.Prelude.{◌≡◌, IfSome};
    ghost use Rattle.hv_task.specs.State.{state_of};
    ghost use Rattle.hv_task.specs.Strips.{atoms};
    ghost use Rattle.hv_bdd.specs.Live.{NodeTask};
    ghost use Rattle.hv_bdd.specs.Working.Search.{ListsPlaces};
    ghost use Rattle.hv_bdd.specs.Working.Untouched.{IsKeptOf};

    ghost Value = { NodeTask };

    ghost view = { λ q. record { list = q.nodes.now; task = q.task.now } };

    // The places that are kept are those of the atoms of this task's goal, in this order.
    ghost invariant = { λ q. (q.nodes.now.atoms ≡ atoms q.task.now)
        × IfSome q.places.listed (λ places.
        ListsPlaces q.nodes.now (state_of (atoms q.task.now) q.task.now.goal) places.items)
        × IsKeptOf q.nodes.now q.task.now q.known };
}

impl<'a> NodeInquiry<'a> {
    /// An inquiry of which nothing was asked.
    pub fn new(nodes: &'a Diagrams, task: &'a Task) -> NodeInquiry<'a>
        requires { nodes.now.atoms ≡ atoms task.now }
        ensures list { result.list ≡ nodes.now }
        ensures task { result.task ≡ task.now }
    {
        let held = ListedState::new(task.atoms(), task.goal());
        let places = GoalPlaces::none_yet(nodes, &held);
        NodeInquiry {
            nodes,
            task,
            places,
            known: None,
            waiting: None,
            again: false,
        }
    }

    /// The exact answer to a query, as `find` of the diagrams gives it.
    pub fn find(
        &mut self,
        alloc: Global,
        query: &Query,
        budget: u64,
        scratch: &mut Scratch,
    ) -> Result<Finding, AllocError>
        requires ready { IsReady (node_count self.old.list) query.now }
        requires action { IfSome query.now.action (λ a. a < length self.old.task.actions) }
        ensures answer { IfOk result (λ found.
            IsAnswer found (LivePass self.old.list self.old.task query.now budget)
            (atoms self.old.task) (is_clash self.old.task (in_node self.old.list) query.now)
            scratch.new.state) }
        ensures lengths { KeepsLengths scratch.old scratch.new }
        ensures same { self.new ≡ self.old }
    {
        scratch.reserve(self.task.atoms(), 0, 0)?;
        let asked = active_operands(alloc, query)?;
        self.answer(alloc, query, budget, asked.as_slice(), &mut scratch.state)
    }

    // The same, where these are the operands. What is known lies apart meanwhile, and is given up
    // where memory runs out.
    fn answer(
        &mut self,
        alloc: Global,
        query: &Query,
        budget: u64,
        asked: &[Asked],
        state: &mut State,
    ) -> Result<Finding, AllocError>
        requires ready { IsReady (node_count self.old.list) query.now }
        requires action { IfSome query.now.action (λ a. a < length self.old.task.actions) }
        requires asked { asked.now ≡ active (operands_of query.now) }
        requires state { length state.old ≡ atoms self.old.task }
        ensures answer { IfOk result (λ found.
            IsAnswer found (LivePass self.old.list self.old.task query.now budget)
            (atoms self.old.task) (is_clash self.old.task (in_node self.old.list) query.now)
            state.new) }
        ensures same { self.new ≡ self.old }
    {
        let mut known = mem::replace(&mut self.known, None);
        let found = self.answer_by(alloc, query, budget, asked, state, &mut known)?;
        self.known = known;
        Ok(found)
    }

    // The same by what is known, or else by a search.
    fn answer_by(
        &mut self,
        alloc: Global,
        query: &Query,
        budget: u64,
        asked: &[Asked],
        state: &mut State,
        known: &mut Option<Untouched>,
    ) -> Result<Finding, AllocError>
        requires ready { IsReady (node_count self.old.list) query.now }
        requires action { IfSome query.now.action (λ a. a < length self.old.task.actions) }
        requires asked { asked.now ≡ active (operands_of query.now) }
        requires state { length state.old ≡ atoms self.old.task }
        requires known { IsKeptOf self.old.list self.old.task known.old }
        ensures answer { IfOk result (λ found.
            IsAnswer found (LivePass self.old.list self.old.task query.now budget)
            (atoms self.old.task) (is_clash self.old.task (in_node self.old.list) query.now)
            state.new) }
        ensures same { self.new ≡ self.old }
        ensures known { OnOk result (IsKeptOf self.old.list self.old.task known.new) }
    {
        keep_for(alloc, known, self.again, self.nodes, self.task, asked)?;
        if self.tells_none(known, query, budget) {
            return Ok(Finding::Empty);
        }
        let mut waiting = room(alloc, mem::replace(&mut self.waiting, None));
        let found = self.search(alloc, query, budget, asked, state, known, &mut waiting);
        self.waiting = Some(waiting);
        found
    }

    // Whether what is known of the operands of a query tells that no state suits them.
    fn tells_none(&self, known: &Option<Untouched>, query: &Query, budget: u64) -> bool
        requires ready { IsReady (node_count self.now.list) query.now }
        requires action { IfSome query.now.action (λ a. a < length self.now.task.actions) }
        requires asked { IfSome known.now (λ k. k.asked.items ≡ active (operands_of query.now)) }
        requires known { IsKeptOf self.now.list self.now.task known.now }
        ensures { result ≡ true → (state : List Bool)
            → IsAnswer F.Empty (LivePass self.now.list self.now.task query.now budget)
            (atoms self.now.task) (is_clash self.now.task (in_node self.now.list) query.now)
            state }
    {
        // For its contract alone: the nodes are reduced.
        let _atoms = self.nodes.atoms();
        let needed = needed_by(self.task, query.action);
        let changed = changed_by(self.task, query.action);
        is_fruitless(known, self.nodes, &needed, &changed, budget)
    }

    // The same by a search.
    fn search(
        &mut self,
        alloc: Global,
        query: &Query,
        budget: u64,
        asked: &[Asked],
        state: &mut State,
        known: &mut Option<Untouched>,
        waiting: &mut WaitingTuples,
    ) -> Result<Finding, AllocError>
        requires ready { IsReady (node_count self.old.list) query.now }
        requires action { IfSome query.now.action (λ a. a < length self.old.task.actions) }
        requires asked { asked.now ≡ active (operands_of query.now) }
        requires state { length state.old ≡ atoms self.old.task }
        requires known { IsKeptTrulyFor (search_for self.old.list self.old.task query.now)
            known.old }
        ensures answer { IfOk result (λ found.
            IsAnswer found (LivePass self.old.list self.old.task query.now budget)
            (atoms self.old.task) (is_clash self.old.task (in_node self.old.list) query.now)
            state.new) }
        ensures same { self.new ≡ self.old }
        ensures known { OnOk result (IsKeptTrulyFor
            (search_for self.old.list self.old.task query.now) known.new) }
    {
        let places = mem::replace(&mut self.places, GoalPlaces::never());
        let mut search = search_for(self.nodes, self.task, query, asked, places);
        let again = mem::replace(&mut self.again, true);
        let found = search.count_and_find(alloc, again, budget, state, known, waiting)?;
        self.places = search.places();
        Ok(found)
    }
}

// The search for the operands of a query, where the places of the goal's atoms are these, as far as
// they are listed.
fn search_for<'a>(
    nodes: &'a Diagrams,
    task: &'a Task,
    query: &Query,
    asked: &'a [Asked],
    places: GoalPlaces,
) -> Search<'a>
    requires ready { IsReady (node_count nodes.now) query.now }
    requires action { IfSome query.now.action (λ a. a < length task.now.actions) }
    requires over { nodes.now.atoms ≡ atoms task.now }
    requires asked { asked.now ≡ active (operands_of query.now) }
    requires places { IfSome places.listed (λ places.
        ListsPlaces nodes.now (state_of (atoms task.now) task.now.goal) places.items) }
    ensures search { result ≡ search_for nodes.now task.now query.now }
    ensures reduced { IsReduced nodes.now }
    ensures task { IsTask task.now }
{
    // For its contract alone: the nodes are reduced.
    let _atoms = nodes.atoms();
    let atoms = task.atoms();
    let goal = Goal {
        held: ListedState::new(atoms, task.goal()),
        places,
        counts: is_asked(asked),
    };
    let start = ListedState::new(atoms, task.start());
    let needed = needed_by(task, query.action);
    let changed = changed_by(task, query.action);
    Search::new(nodes, start, goal, needed, changed, asked)
}

// Room for the tuples of a query: that of the query before, if there was one.
fn room(alloc: Global, kept: Option<WaitingTuples>) -> WaitingTuples {
    match kept {
        Some(waiting) => waiting,
        None => WaitingTuples::none(alloc),
    }
}

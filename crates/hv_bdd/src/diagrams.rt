//! Lists of nodes of decision diagrams, and which states a node holds.

ghost use Rattle.std.specs.Prelude.{◌≡◌, ◌<◌, ◌≤◌, ◌↔◌, ◌&&◌, None, Some, IfSome, IsTrue};
ghost use Rattle.std.specs.Prelude.{IfNone, IfOk, MatchResult, OnErr, OnOk, cond, is_some, length};
ghost use Rattle.std.specs.Prelude.{nat_eq, nat_lt};
ghost use Rattle.hv_task.specs.Atoms.{IsNext};
ghost use Rattle.hv_task.specs.State.{has_atom};
ghost use Rattle.hv_bdd.specs.Building.{fault_of, is_later, plain_fault};
ghost use Rattle.hv_bdd.specs.Working.Building.{as_node, with_node};
ghost use Rattle.hv_bdd.specs.Working.Inverse.{AreInverse};
ghost use Rattle.hv_bdd.specs.Working.NodeText.{node_start};
ghost use Rattle.hv_bdd.specs.Working.Search.{ArePlaced, ListsPlaces};
ghost use Rattle.hv_bdd.specs.Nodes.{IsNode, in_node, no_nodes, no_nodes_by, node_count};
ghost use Rattle.hv_bdd.specs.Order.{IsOrder, atom_at, place};
ghost use Rattle.hv_bdd.specs.Reduced.{AreOneSet, IsReduced, child, node_at, top};

use crate::atom_bits::ListedState;
use crate::atom_order::Order;
use crate::fault::NodeKind;
use crate::goal::near;
use crate::node::Node;
use crate::numbers::Triple;
use crate::set::DiagramSet;
use hv_task::State;
use std::alloc::{AllocError, Global};
use std::marker::Model;

/// The decision diagrams of a node file. Node 0 is false, node 1 is true, and the listed nodes have
/// the numbers from 2 on. The list is reduced and ordered, so different nodes denote different
/// sets.
#[derive(Drop)]
pub struct Diagrams {
    atoms: u32,
    // The order in which nodes ask for atoms, where the file lists one.
    order: Option<Order>,
    nodes: Vec<Node>,
}

impl Model for Diagrams {
    ghost use Rattle.hv_bdd.specs.Nodes.{NodeList};
    ghost use Rattle.hv_bdd.specs.Reduced.{IsReduced};

    ghost Value = { NodeList };

    ghost view = { λ d. record { atoms = d.atoms; order = d.order; nodes = d.nodes.items } };

    ghost invariant = { λ d. IsReduced record {
      atoms = d.atoms;
      order = d.order;
      nodes = d.nodes.items;
    } };
}

impl Diagrams {
    /// The nodes 0 and 1 alone, over this many atoms.
    pub fn none(alloc: Global, atoms: u32) -> Diagrams
        ensures { result ≡ no_nodes atoms }
    {
        Diagrams {
            atoms,
            order: None,
            nodes: Vec::new(alloc),
        }
    }

    // The same where the atoms come in this order.
    pub(crate) fn by_order(alloc: Global, atoms: u32, order: Order) -> Diagrams
        requires { IsOrder (no_nodes_by atoms order) }
        ensures { result ≡ no_nodes_by atoms order }
    {
        Diagrams {
            atoms,
            order: Some(order),
            nodes: Vec::new(alloc),
        }
    }

    // The number of the line of the first node in a file of the list.
    pub(crate) fn node_start(&self) -> u64
        ensures { result ≡ node_start self.now.order }
    {
        match &self.order {
            None => 2,
            Some(_order) => 3,
        }
    }

    /// How many nodes there are, 0 and 1 among them.
    pub fn count(&self) -> usize
        ensures { result ≡ node_count self.now }
    {
        self.nodes.len() + 2
    }

    // The listed nodes.
    pub(crate) fn listed(&self) -> &[Node]
        ensures { result.now ≡ self.now.nodes }
    {
        self.nodes.as_slice()
    }

    /// Whether the state is in the node.
    pub fn holds(&self, node: u32, state: &State) -> bool
        requires node { IsNode self.now node }
        requires state { length state.now ≡ self.now.atoms }
        ensures { result ≡ in_node self.now node state.now }
    {
        // For its contract alone: the nodes are reduced.
        let _atoms = self.atoms();
        let mut at = node;
        while at >= 2 {
            at = self.child(at, state.has(self.node(at).atom));
        }
        at == 1
    }

    /// Whether the two nodes denote one set.
    pub fn same(&self, left: u32, right: u32) -> bool
        requires left { IsNode self.now left }
        requires right { IsNode self.now right }
        ensures { IsTrue result ↔ AreOneSet self.now left right }
    {
        // For its contract alone: the nodes are reduced.
        let _atoms = self.atoms();
        left == right
    }

    /// The set for which the node stands.
    pub fn set(&self, node: u32) -> DiagramSet<'_>
        requires { IsNode self.now node }
        ensures nodes { result.nodes.now ≡ self.now }
        ensures node { result.node ≡ node }
    {
        // For its contract alone: the nodes are reduced.
        let _atoms = self.atoms();
        DiagramSet { nodes: self, node }
    }

    /// How many atoms the task has.
    pub(crate) fn atoms(&self) -> u32
        ensures atoms { result ≡ self.now.atoms }
        ensures reduced { IsReduced self.now }
    {
        self.atoms
    }

    // The listed node of this number.
    pub(crate) fn node(&self, node: u32) -> Node
        requires inner { 2 ≤ node }
        requires node { IsNode self.now node }
        ensures node { result ≡ node_at self.now node }
        ensures reduced { IsReduced self.now }
    {
        self.nodes[node as usize - 2]
    }

    // The node to which a bit leads.
    pub(crate) fn child(&self, node: u32, bit: bool) -> u32
        requires inner { 2 ≤ node }
        requires node { IsNode self.now node }
        ensures child { result ≡ child self.now node bit }
        ensures less { result < node }
        ensures reduced { IsReduced self.now }
    {
        let listed = self.node(node);
        if bit { listed.high } else { listed.low }
    }

    // The node to which a bit at a place leads: its child where it asks for the atom there, and
    // itself elsewhere.
    pub(crate) fn moved(&self, node: u32, place: u32, bit: bool) -> u32
        requires node { IsNode self.now node }
        requires place { place < self.now.atoms }
        ensures { result ≡ cond (nat_eq (top self.now node) place) (child self.now node bit) node }
    {
        if node < 2 {
            return node;
        }
        let listed = self.node(node);
        if self.place(listed.atom) != place {
            return node;
        }
        match bit {
            true => listed.high,
            false => listed.low,
        }
    }

    // The place of the atom for which a node asks, or that past all atoms for an end.
    pub(crate) fn top(&self, node: u32) -> u32
        requires { IsNode self.now node }
        ensures top { result ≡ top self.now node }
        ensures reduced { IsReduced self.now }
    {
        let atoms = self.atoms();
        if node < 2 {
            atoms
        } else {
            self.place(self.node(node).atom)
        }
    }

    /// The place of an atom in the order, from 0.
    pub fn place(&self, atom: u32) -> u32
        requires { atom < self.now.atoms }
        ensures { result ≡ place self.now atom }
    {
        match &self.order {
            None => atom,
            Some(order) => order.place(atom),
        }
    }

    // The atom at a place.
    pub(crate) fn atom_at(&self, place: u32) -> u32
        requires { place < self.now.atoms }
        ensures { result ≡ atom_at self.now place }
    {
        match &self.order {
            None => place,
            Some(order) => order.atom_at(place),
        }
    }

    // The place of each atom, where an order is listed.
    pub(crate) fn places(&self) -> Option<&[u32]>
        ensures none { IfNone result (self.now.order ≡ None) }
        ensures some { IfSome result (λ places.
            IfSome self.now.order (λ order. AreInverse order places.now)) }
    {
        match &self.order {
            None => None,
            Some(order) => Some(order.places()),
        }
    }

    // Whether an order of the atoms is listed.
    pub(crate) fn lists_order(&self) -> bool
        ensures { result ≡ is_some self.now.order }
    {
        self.order.is_some()
    }

    // The flag of each atom, at its place.
    pub(crate) fn placed(&self, alloc: Global, held: &ListedState<'_>) -> Result<State, AllocError>
        requires { length held.now ≡ self.now.atoms }
        ensures { IfOk result (ArePlaced self.now held.now) }
    {
        let mut placed = State::empty(alloc, self.atoms())?;
        for atom in held.listed() {
            placed.set(self.place(*atom), true);
        }
        Ok(placed)
    }

    // The places of the atoms that are held, rising.
    pub(crate) fn places_of(
        &self,
        alloc: Global,
        held: &ListedState<'_>,
    ) -> Result<Vec<u32>, AllocError>
        requires { length held.now ≡ self.now.atoms }
        ensures { IfOk result (λ places. ListsPlaces self.now held.now places.items) }
    {
        let flags = self.placed(alloc, held)?;
        let mut places = Vec::new(alloc);
        flags.list_atoms(&mut places)?;
        Ok(places)
    }

    // The least place from this one on whose atom is held.
    pub(crate) fn next_place(&self, held: &ListedState<'_>, from: u32) -> Option<u32>
        requires { length held.now ≡ self.now.atoms }
        ensures next { IsNext (λ v. has_atom held.now (atom_at self.now v)) from result }
        ensures within { IfSome result (λ v. v < self.now.atoms) }
    {
        match &self.order {
            None => held.next(from),
            Some(order) => {
                let to = from.saturating_add(near(held)).min(self.atoms);
                match order.next_below(held, from, to) {
                    Some(place) => Some(place),
                    None => self.least_place(held, from),
                }
            },
        }
    }

    // The same by the place of each atom that is held.
    fn least_place(&self, held: &ListedState<'_>, from: u32) -> Option<u32>
        requires { length held.now ≡ self.now.atoms }
        ensures next { IsNext (λ v. has_atom held.now (atom_at self.now v)) from result }
        ensures within { IfSome result (λ v. v < self.now.atoms) }
    {
        let atoms = self.atoms();
        let mut least = atoms;
        for atom in held.listed() {
            let place = self.place(*atom);
            if from <= place && place < least {
                least = place;
            }
        }
        if least < atoms { Some(least) } else { None }
    }

    // What it costs to look for the least place from this one on whose atom is held, in places that
    // are looked at.
    pub(crate) fn cost_of_next(&self, held: &ListedState<'_>, from: u32) -> u32
        requires { length held.now ≡ self.now.atoms }
    {
        let most = near(held).saturating_mul(2).max(1);
        match self.next_place(held, from) {
            Some(next) => (next - from).saturating_add(1).min(most),
            None => most,
        }
    }

    // The node of these numbers, or the first of its faults that can be seen from it alone.
    pub(crate) fn plain_node(&self, triple: &Triple) -> Result<Node, NodeKind>
        ensures { MatchResult result
            (λ node. (node ≡ as_node triple.now) × (plain_fault self.now node ≡ None))
            (λ kind. plain_fault self.now (as_node triple.now) ≡ Some kind) }
    {
        if triple.atom >= u64::from(self.atoms()) {
            return Err(NodeKind::Atom);
        }
        if !self.are_listed(triple) {
            return Err(NodeKind::Child);
        }
        let node = Node {
            atom: triple.atom as u32,
            low: triple.low as u32,
            high: triple.high as u32,
        };
        if !self.are_later(&node) {
            return Err(NodeKind::Order);
        }
        if node.low == node.high {
            return Err(NodeKind::SameChildren);
        }
        Ok(node)
    }

    // Whether its children are listed.
    fn are_listed(&self, triple: &Triple) -> bool
        ensures { result ≡ (nat_lt triple.now.low (node_count self.now)
            && nat_lt triple.now.high (node_count self.now)) }
    {
        let count = self.count() as u64;
        triple.low < count && triple.high < count
    }

    // Whether its children ask for later atoms.
    fn are_later(&self, node: &Node) -> bool
        requires atom { node.now.atom < self.now.atoms }
        requires low { IsNode self.now node.now.low }
        requires high { IsNode self.now node.now.high }
        ensures { result
            ≡ (is_later self.now node.now.atom node.now.low
            && is_later self.now node.now.atom node.now.high) }
    {
        let place = self.place(node.atom);
        place < self.top(node.low) && place < self.top(node.high)
    }

    // Adds a node without faults.
    pub(crate) fn push(&mut self, node: Node) -> Result<(), AllocError>
        requires good { fault_of self.old node ≡ None }
        requires few { length self.old.nodes < 16777216 }
        ensures ok { OnOk result (self.new ≡ with_node self.old node) }
        ensures err { OnErr result (self.new ≡ self.old) }
    {
        self.nodes.push(node)?;
        Ok(())
    }
}

//! Nodes of a list, found by their numbers: by chains of the places whose nodes fall into one slot,
//! so a file takes time linear in its nodes, and no node is kept twice. Nodes that were made to
//! fall into one slot are chained again by another factor, and then a chain may be 4 longer, until
//! there are more slots. So n nodes that were made to meet by one factor after another are chained
//! no more than some root of n times, and no search passes much more nodes than 64 and 3 times that
//! root, but for one before each of these times.

ghost use Rattle.std.specs.Prelude.{◌≡◌, ◌<◌, ◌≤◌, ◌-◌, ◌+◌, ◌^◌, ◌++◌, ◌∷◌, ℕ, [], false, length};
ghost use Rattle.std.specs.Prelude.{slice_index, IsTrue, OnOk};
ghost use Rattle.std.specs.List.{list_any};
ghost use Rattle.hv_bdd.specs.Building.{same_node};
ghost use Rattle.hv_bdd.specs.Working.Chains.{IsNodeChain, IsChained, IsNodeLinked, listed_at};
ghost use Rattle.hv_bdd.specs.Working.Chains.{node_slot_at};
ghost use Rattle.hv_bdd.specs.Working.Chains.{node_slot_of};
ghost use Rattle.hv_bdd.specs.Working.Chains.{AreAllBelow, IsListedNode};

use crate::node::Node;
use crate::node_listing::BLOCK;
use crate::numbers::Triple;
use std::alloc::{AllocError, Global};

// A search that passes so many nodes is long at first.
const LONG: usize = 64;

// How many more it may pass after each change of the factor, until there are more slots.
const MORE: usize = 4;

/// Finds the nodes of a list without a walk over it. Each slot has a chain of the places whose
/// nodes fall into it. Nodes that were made to fall into one slot are chained again by another
/// factor.
#[derive(Drop)]
pub struct Chains {
    // For each place, one more than the last earlier place in its slot, or 0.
    before: Vec<u32>,
    // For each slot, one more than the last place in it, or 0.
    heads: Vec<u32>,
    turn: NodeFactor,
    // There will be no more nodes than so many. Only how many slots are made hangs on it.
    most: usize,
    // What was read ahead. Only how long searches take hangs on it.
    ahead: u32,
}

// The factor by which nodes fall into slots, and how many nodes a long search passes.
#[derive(Clone, Copy)]
struct NodeFactor {
    factor: u64,
    long: usize,
}

/// What a search for a node found.
#[derive(Clone, Copy)]
pub struct FoundNode {
    /// Whether the node is listed.
    pub listed: bool,
    /// How many other nodes the search passed.
    pub passed: usize,
}

impl Chains {
    /// The chains of no node, where there will be no more than so many.
    pub fn new(alloc: Global, most: usize) -> Chains
        ensures { IsChained [] result }
    {
        Chains {
            before: Vec::new(alloc),
            heads: Vec::new(alloc),
            turn: NodeFactor {
                factor: 0x9e37_79b9_7f4a_7c15,
                long: LONG,
            },
            most,
            ahead: 0,
        }
    }

    /// Reads ahead where the children of these nodes stand, and where the searches for them begin.
    /// Nothing waits for what is read, so many reads are under way at once, and what is then tested
    /// is at hand.
    pub fn look_ahead(&mut self, nodes: &[Node], triples: &[Triple])
        requires { IsChained nodes.now self.old }
        ensures { IsChained nodes.now self.new }
    {
        self.ahead = read_ahead(
            nodes,
            self.turn.factor,
            self.before.as_slice(),
            self.heads.as_slice(),
            triples,
        );
    }

    /// Looks for a node among those listed.
    pub fn seek(&self, nodes: &[Node], node: &Node) -> FoundNode
        requires { IsChained nodes.now self.now }
        ensures { result.listed ≡ list_any (same_node node.now) nodes.now }
    {
        if self.heads.is_empty() {
            return FoundNode {
                listed: false,
                passed: 0,
            };
        }
        let slot = node_slot_of(self.turn.factor, self.heads.len(), node);
        seek_from(
            nodes,
            self.turn.factor,
            self.before.as_slice(),
            self.heads.len(),
            node,
            self.heads[slot] as usize,
        )
    }

    /// Chains a node that is to be listed last. The search for it passed so many others.
    pub fn push(&mut self, nodes: &[Node], node: &Node, passed: usize) -> Result<(), AllocError>
        requires few { length nodes.now < 16777216 }
        requires chained { IsChained nodes.now self.old }
        ensures { OnOk result (IsChained (nodes.now ++ node.now ∷ []) self.new) }
    {
        self.make_room(nodes, passed)?;
        let slot = node_slot_of(self.turn.factor, self.heads.len(), node);
        self.before.push(self.heads[slot])?;
        self.heads[slot] = nodes.len() as u32 + 1;
        Ok(())
    }

    // Makes more slots than there are nodes, and chains all nodes by another factor where one of
    // them has a long chain.
    fn make_room(&mut self, nodes: &[Node], passed: usize) -> Result<(), AllocError>
        requires few { length nodes.now < 16777216 }
        requires chained { IsChained nodes.now self.old }
        ensures chained { OnOk result (IsChained nodes.now self.new) }
        ensures room { OnOk result (0 < length self.new.heads.items) }
    {
        if nodes.len() >= self.heads.len() {
            let size = slots_for(nodes.len(), self.most);
            self.heads = vec![in *self.heads.allocator(); 0; size]?;
            self.turn.long = LONG;
        } else if passed >= self.turn.long {
            self.heads.fill(0);
            self.turn.factor = self.turn.factor.wrapping_mul(0xd134_2543_de82_ef95);
            self.turn.long = self.turn.long.saturating_add(MORE);
        } else {
            return Ok(());
        }
        link_all(nodes, self.turn.factor, &mut self.before, &mut self.heads);
        Ok(())
    }
}

// How many slots are made once there are so many nodes: some for each, but no more than there will
// be nodes.
fn slots_for(nodes: usize, most: usize) -> usize
    requires { nodes < 16777216 }
    ensures { nodes < result }
{
    (nodes * 8).min(most).max(nodes + 1).max(16)
}

// Into which of so many slots a node falls.
#[tactic(auto, unfolding(crate::specs::Working::Chains::node_slot_of))]
fn node_slot_of(factor: u64, slots: usize, node: &Node) -> usize
    requires { 0 < slots }
    ensures slot { result ≡ node_slot_of factor slots node.now }
    ensures within { result < slots }
{
    let children = u64::from(node.low) + u64::from(node.high) * 4_294_967_296;
    let mixed = (children.wrapping_mul(factor) >> 32) + u64::from(node.atom);
    ((mixed.wrapping_mul(factor) as u128 * slots as u128) >> 64) as usize
}

// Into which of so many slots the node of these numbers falls.
fn slot_ahead(factor: u64, slots: usize, triple: &Triple) -> usize
    requires { 0 < slots }
    ensures { result < slots }
{
    let children = triple
        .low
        .wrapping_add(triple.high.wrapping_mul(4_294_967_296));
    let mixed = (children.wrapping_mul(factor) >> 32).wrapping_add(triple.atom);
    ((mixed.wrapping_mul(factor) as u128 * slots as u128) >> 64) as usize
}

// Reads of each of these nodes the children, the start of its chain, and the node there. The answer
// is a sum of what was read, so that it is read.
fn read_ahead(nodes: &[Node], factor: u64, before: &[u32], heads: &[u32], triples: &[Triple]) -> u32
    requires { length nodes.now ≤ length before.now }
{
    if nodes.is_empty() || heads.is_empty() {
        return 0;
    }
    let last = nodes.len() - 1;
    let mut starts = [0; BLOCK];
    let mut sum: u32 = 0;
    for k in 0..triples.len().min(BLOCK) {
        let triple = &triples[k];
        let low = nodes[(triple.low as usize).saturating_sub(2).min(last)];
        let high = nodes[(triple.high as usize).saturating_sub(2).min(last)];
        sum = sum.wrapping_add(low.atom).wrapping_add(high.atom);
        starts[k] = heads[slot_ahead(factor, heads.len(), triple)];
    }
    for start in starts {
        let place = (start as usize).saturating_sub(1).min(last);
        sum = sum
            .wrapping_add(nodes[place].low)
            .wrapping_add(before[place]);
    }
    sum
}

// Goes back along a chain to the node.
fn seek_from(
    nodes: &[Node],
    factor: u64,
    before: &[u32],
    slots: usize,
    node: &Node,
    start: usize,
) -> FoundNode
    requires fits { start ≤ length nodes.now }
    requires before { length nodes.now ≤ length before.now }
    requires chain { IsNodeChain nodes.now before.now factor slots (length nodes.now) }
    requires slot { 0 < start
        → node_slot_at nodes.now factor slots (start - 1) ≡ node_slot_of factor slots node.now }
    requires all { AreAllBelow nodes.now node.now start }
    ensures listed { IsTrue result.listed → IsListedNode nodes.now node.now }
    ensures absent { result.listed ≡ false → AreAllBelow nodes.now node.now 0 }
{
    let _ = factor;
    let _ = slots;
    let mut end = start;
    let mut passed = 0;
    while end > 0 {
        let place = end - 1;
        if nodes[place] == *node {
            return FoundNode {
                listed: true,
                passed,
            };
        }
        end = before[place] as usize;
        passed += 1;
    }
    FoundNode {
        listed: false,
        passed,
    }
}

// Chains a place in its slot.
fn link(nodes: &[Node], factor: u64, before: &mut Vec<u32>, heads: &mut Vec<u32>, place: usize)
    requires nodes { place < length nodes.now }
    requires few { length nodes.now < 2 ^ 32 }
    requires before { length nodes.now ≤ length before.old.items }
    requires heads { 0 < length heads.old.items }
    requires linked { IsNodeLinked nodes.now before.old.items heads.old.items factor
        (length heads.old.items) place }
    ensures linked { IsNodeLinked nodes.now before.new.items heads.new.items factor
        (length heads.new.items) (place + 1) }
    ensures before { length before.new.items ≡ length before.old.items }
    ensures heads { length heads.new.items ≡ length heads.old.items }
{
    let slot = node_slot_of(factor, heads.len(), &nodes[place]);
    before[place] = heads[slot];
    heads[slot] = (place + 1) as u32;
}

// Chains all places in slots that were empty.
fn link_all(nodes: &[Node], factor: u64, before: &mut Vec<u32>, heads: &mut Vec<u32>)
    requires few { length nodes.now < 2 ^ 32 }
    requires before { length nodes.now ≤ length before.old.items }
    requires heads { 0 < length heads.old.items }
    requires none { (b : ℕ) → b < length heads.old.items → slice_index heads.old.items b ≡ 0 }
    ensures linked { IsNodeLinked nodes.now before.new.items heads.new.items factor
        (length heads.new.items) (length nodes.now) }
    ensures before { length before.new.items ≡ length before.old.items }
    ensures heads { length heads.new.items ≡ length heads.old.items }
{
    for place in 0..nodes.len() {
        link(nodes, factor, before, heads, place);
    }
}

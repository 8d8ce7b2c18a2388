//! The walk of a state through a diagram, where the state holds few atoms.
//!
//! Such a state leaves nearly all nodes by their low children. So each node has a jump to a node
//! further down this chain. The jump is as long as that of the low child and the next one together,
//! where these two are of one length, and else leads to the low child alone: then each place along
//! a chain is reached by steps as many as the chain's length has digits. An atom that is held takes
//! so many steps. The jumps of a diagram are made once the plain walks have cost a few times as
//! much as it takes to make them, so that no question about few states pays for them.

ghost use Rattle.std.specs.Prelude.{◌≡◌, ◌+◌, ◌<◌, ◌≤◌, [], Bool, List, length, map, IfOk, OnOk};
ghost use Rattle.std.specs.List.{All};
ghost use Rattle.std.specs.List.Sorted.{IsNonDecreasing};
ghost use Rattle.hv_task.specs.State.{AreBelow, state_of};
ghost use Rattle.hv_bdd.specs.Jumps.{AreJumps, IsJump, PassesAlong};
ghost use Rattle.hv_bdd.specs.Nodes.{IsNode, in_node, node_count};
ghost use Rattle.hv_bdd.specs.Reduced.{top};
ghost use Rattle.hv_bdd.specs.Working.Jumping.{HoldsAt, TurnsAt};

use crate::diagrams::Diagrams;
use hv_task::State;
use std::alloc::{AllocError, Global};

/// The jumps of the nodes of a diagram, once they are made.
#[derive(Drop)]
pub(crate) struct Jumps {
    pub to: Vec<u32>,
    // A list to write to.
    places: Vec<u32>,
    // How many nodes the plain walks went through.
    passed: usize,
}

impl Jumps {
    /// None yet.
    pub(crate) fn none(alloc: Global) -> Jumps
        ensures { result.to.items ≡ [] }
    {
        Jumps {
            to: Vec::new(alloc),
            places: Vec::new(alloc),
            passed: 0,
        }
    }

    /// Whether a state, which holds just these atoms, is in the node.
    pub(crate) fn has(
        &mut self,
        alloc: Global,
        nodes: &Diagrams,
        node: u32,
        held: &[u32],
        state: &State,
    ) -> Result<bool, AllocError>
        requires node { IsNode nodes.now node }
        requires jumps { AreJumps nodes.now self.old.to.items }
        requires below { AreBelow nodes.now.atoms held.now }
        requires state { state.now ≡ state_of nodes.now.atoms held.now }
        ensures has { IfOk result (λ yes. yes ≡ in_node nodes.now node state.now) }
        ensures jumps { OnOk result (AreJumps nodes.now self.new.to.items) }
    {
        if (node as usize) < self.to.len() && held.len() < nodes.atoms() as usize / 32 {
            list_places(nodes, held, &mut self.places)?;
            return Ok(leads(nodes, self.to.as_slice(), node, self.places.as_slice()));
        }
        let (yes, count) = walk(nodes, node, state);
        self.count(alloc, nodes, node, count)?;
        Ok(yes)
    }

    // Counts so many nodes of a plain walk, and makes the jumps once it is time.
    fn count(
        &mut self,
        alloc: Global,
        nodes: &Diagrams,
        node: u32,
        count: usize,
    ) -> Result<(), AllocError>
        requires node { IsNode nodes.now node }
        requires jumps { AreJumps nodes.now self.old.to.items }
        ensures jumps { OnOk result (AreJumps nodes.now self.new.to.items) }
    {
        self.passed = self.passed.wrapping_add(count);
        if self.to.is_empty() && self.passed / 8 > node as usize {
            self.to = jumps_below(alloc, nodes, node.saturating_add(1))?;
        }
        Ok(())
    }
}

// Whether the state is in the node, and how many nodes were asked.
fn walk(nodes: &Diagrams, node: u32, state: &State) -> (bool, usize)
    requires node { IsNode nodes.now node }
    requires state { length state.now ≡ nodes.now.atoms }
    ensures { result.0 ≡ in_node nodes.now node state.now }
{
    // For its contract alone: the nodes are reduced.
    let _atoms = nodes.atoms();
    let mut count: usize = 0;
    let mut at = node;
    while at >= 2 {
        at = nodes.child(at, state.has(nodes.node(at).atom));
        count = count.wrapping_add(1);
    }
    (at == 1, count)
}

// The jumps of the nodes below a number.
fn jumps_below(alloc: Global, nodes: &Diagrams, bound: u32) -> Result<Vec<u32>, AllocError>
    requires { bound ≤ node_count nodes.now }
    ensures { IfOk result (λ to. AreJumps nodes.now to.items) }
{
    let mut to = Vec::with_capacity(alloc, bound as usize)?;
    let mut depths = Vec::with_capacity(alloc, bound as usize)?;
    for node in 0..bound {
        let (jump, depth) = jump_of(nodes, node, to.as_slice(), depths.as_slice());
        to.push(jump)?;
        depths.push(depth)?;
    }
    Ok(to)
}

// The jump of a node behind those whose jumps are there, and how far the end of its chain is.
fn jump_of(nodes: &Diagrams, node: u32, to: &[u32], depths: &[u32]) -> (u32, u32)
    requires node { IsNode nodes.now node }
    requires jumps { AreJumps nodes.now to.now }
    requires size { length to.now ≡ node }
    requires depths { length depths.now ≡ node }
    ensures { IsJump nodes.now node result.0 }
{
    if node < 2 {
        return (node, 0);
    }
    let low = nodes.child(node, false);
    let next = to[low as usize];
    let last = to[next as usize];
    let depth = depths[low as usize];
    let middle = depths[next as usize];
    let is_even = depth.wrapping_sub(middle) == middle.wrapping_sub(depths[last as usize]);
    (if is_even { last } else { low }, depth.wrapping_add(1))
}

// Lists the places of atoms in order.
fn list_places(nodes: &Diagrams, held: &[u32], places: &mut Vec<u32>) -> Result<(), AllocError>
    requires { AreBelow nodes.now.atoms held.now }
    ensures below { OnOk result (All (λ v. v < nodes.now.atoms) places.new.items) }
    ensures held { OnOk result
        (HoldsAt nodes.now (state_of nodes.now.atoms held.now) places.new.items) }
{
    // For its contract alone: the nodes are reduced.
    let _atoms = nodes.atoms();
    places.clear();
    for atom in held {
        places.push(nodes.place(*atom))?;
    }
    places.sort_unstable();
    Ok(())
}

// Whether the states that hold just the atoms at these places are in the node.
fn leads(nodes: &Diagrams, to: &[u32], node: u32, places: &[u32]) -> bool
    requires node { node < length to.now }
    requires jumps { AreJumps nodes.now to.now }
    requires below { All (λ v. v < nodes.now.atoms) places.now }
    ensures { (s : List Bool) → HoldsAt nodes.now s places.now
        → result ≡ in_node nodes.now node s }
{
    let atoms = nodes.atoms();
    let mut at = node;
    for place in places {
        at = behind(nodes, to, at, *place);
    }
    first_from(nodes, to, at, atoms) == 1
}

// The node behind the atom at a place, which is held, where none before it is.
fn behind(nodes: &Diagrams, to: &[u32], node: u32, place: u32) -> u32
    requires node { node < length to.now }
    requires jumps { AreJumps nodes.now to.now }
    requires place { place < nodes.now.atoms }
    ensures { TurnsAt nodes.now node result place }
{
    let first = first_from(nodes, to, node, place);
    if nodes.top(first) == place {
        nodes.child(first, true)
    } else {
        first
    }
}

// The first node along low children that doesn't ask for an atom before a place.
fn first_from(nodes: &Diagrams, to: &[u32], node: u32, place: u32) -> u32
    requires node { node < length to.now }
    requires jumps { AreJumps nodes.now to.now }
    requires place { place ≤ nodes.now.atoms }
    ensures passes { PassesAlong nodes.now node result place }
    ensures there { place ≤ top nodes.now result }
{
    let mut at = node;
    while nodes.top(at) < place {
        at = further(nodes, to, at, place);
    }
    at
}

// A node further along low children, and not past the first one that doesn't ask for an atom before
// a place.
fn further(nodes: &Diagrams, to: &[u32], node: u32, place: u32) -> u32
    requires node { node < length to.now }
    requires jumps { AreJumps nodes.now to.now }
    requires place { place ≤ nodes.now.atoms }
    requires before { top nodes.now node < place }
    ensures passes { PassesAlong nodes.now node result place }
    ensures less { result < node }
{
    let jump = to[node as usize];
    if nodes.top(jump) <= place {
        jump
    } else {
        nodes.child(node, false)
    }
}

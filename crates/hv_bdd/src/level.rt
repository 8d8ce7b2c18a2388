//! Fronts of nodes: where the states that are looked for are, after some literals.

ghost use Rattle.std.specs.Prelude.{◌≡◌, ◌<◌, ◌≤◌, ◌++◌, ◌∷◌, ◌⊎◌, ◌≢◌, ◌+◌, [], Bool, List, IfOk};
ghost use Rattle.std.specs.Prelude.{OnOk, true, length, cond, slice_index_or, ℕ};
ghost use Rattle.std.specs.List.{All, Contains};
ghost use Rattle.hv_sets.specs.Truth.{in_literal};
ghost use Rattle.hv_bdd.specs.Nodes.{IsNode, in_node, node_count};
ghost use Rattle.hv_bdd.specs.Fronts.{AreBelowBound};
ghost use Rattle.hv_bdd.specs.Working.Fronts.{GoesDeeper, IsContinued, IsAhead, IsMovedDown};
ghost use Rattle.hv_bdd.specs.Working.Fronts.{IsNextLevel, MovesTo, LiesIn, Turns};

use crate::diagrams::Diagrams;
use hv_sets::Literal;
use std::alloc::{AllocError, Global};
use std::mem;

/// The nodes of a list, and whether the states that are looked for are in them or outside them.
#[derive(Clone, Copy)]
pub(crate) struct NodeSide<'a> {
    pub nodes: &'a Diagrams,
    pub inside: bool,
}

/// The nodes that are met after some literals; and, if it is ready, the same nodes moved down so
/// that none asks for an atom before the place `upto`.
#[derive(Drop)]
pub(crate) struct Level {
    pub start: Vec<u32>,
    pub moved: Vec<u32>,
    pub ready: bool,
    pub upto: u32,
}

impl Level {
    // Whether there is no node.
    pub(crate) fn is_met_nowhere(&self) -> bool
        ensures { result ≡ true → length self.now.start.items ≡ 0 }
    {
        self.start.len() == 0
    }

    // One that isn't made yet.
    fn none(alloc: Global) -> Level {
        Level {
            start: Vec::new(alloc),
            moved: Vec::new(alloc),
            ready: false,
            upto: 0,
        }
    }

    // That of one node.
    pub(crate) fn of(alloc: Global, node: u32) -> Result<Level, AllocError>
        ensures start { IfOk result (λ l. l.start.items ≡ node ∷ []) }
        ensures moved { IfOk result (λ l. l.moved.items ≡ node ∷ []) }
    {
        let mut start = Vec::new(alloc);
        start.push(node)?;
        let mut moved = Vec::new(alloc);
        moved.push(node)?;
        Ok(Level {
            start,
            moved,
            ready: true,
            upto: 0,
        })
    }
}

// Makes the level after the one at this depth, for one more literal. The lists of a level that was
// taken back are filled again; `spare` is one to write to.
pub(crate) fn deepen(
    side: &NodeSide<'_>,
    levels: &mut Vec<Level>,
    depth: usize,
    places: &mut Vec<u32>,
    spare: &mut Vec<u32>,
    literal: Literal,
) -> Result<(), AllocError>
    requires atom { literal.atom < side.now.nodes.now.atoms }
    requires bound { length places.old.items ≤ node_count side.now.nodes.now }
    requires depth { depth < length levels.old.items }
    requires start { (d : Level) → AreBelowBound (length places.old.items)
        (slice_index_or levels.old.items depth d).start.items }
    requires moved { (d : Level) → AreBelowBound (length places.old.items)
        (slice_index_or levels.old.items depth d).moved.items }
    ensures deeper { OnOk result (GoesDeeper side.now.nodes.now side.now.inside
        (length places.old.items) literal depth levels.old.items levels.new.items) }
{
    let alloc = *levels.allocator();
    make_room(alloc, levels, depth)?;
    let mut next = mem::replace(&mut levels[depth + 1], Level::none(alloc));
    next_level(side, &mut levels[depth], places, spare, literal, &mut next)?;
    levels[depth + 1] = next;
    Ok(())
}

// Sees to it that there is a level after the one at this depth.
fn make_room(alloc: Global, levels: &mut Vec<Level>, depth: usize) -> Result<(), AllocError>
    requires { depth < length levels.old.items }
    ensures room { OnOk result (depth + 1 < length levels.new.items) }
    ensures same { OnOk result ((i : ℕ) (d : Level) → i ≤ depth
        → slice_index_or levels.new.items i d ≡ slice_index_or levels.old.items i d) }
{
    if levels.len() > depth + 1 {
        return Ok(());
    }
    levels.push(Level::none(alloc))?;
    Ok(())
}

// Makes the next level that of the nodes that are met after one more literal.
fn next_level(
    side: &NodeSide<'_>,
    level: &mut Level,
    places: &mut Vec<u32>,
    spare: &mut Vec<u32>,
    literal: Literal,
    next: &mut Level,
) -> Result<(), AllocError>
    requires atom { literal.atom < side.now.nodes.now.atoms }
    requires bound { length places.old.items ≤ node_count side.now.nodes.now }
    requires start { AreBelowBound (length places.old.items) level.old.start.items }
    requires moved { AreBelowBound (length places.old.items) level.old.moved.items }
    ensures next { OnOk result (IsNextLevel side.now.nodes.now side.now.inside
        (length places.old.items) literal level.old level.new next.new) }
{
    move_down(side, side.nodes.place(literal.atom), level, places, spare)?;
    next.start.clear();
    next.moved.clear();
    next.ready = false;
    restrict(
        side,
        level.moved.as_slice(),
        literal,
        places,
        &mut next.start,
    )?;
    Ok(())
}

// Moves the nodes of the level down to the place, where they aren't moved there.
fn move_down(
    side: &NodeSide<'_>,
    place: u32,
    level: &mut Level,
    places: &mut Vec<u32>,
    spare: &mut Vec<u32>,
) -> Result<(), AllocError>
    requires bound { length places.old.items ≤ node_count side.now.nodes.now }
    requires start { AreBelowBound (length places.old.items) level.old.start.items }
    requires moved { AreBelowBound (length places.old.items) level.old.moved.items }
    ensures start { OnOk result (level.new.start.items ≡ level.old.start.items) }
    ensures moved { OnOk result
        (IsMovedDown side.now.nodes.now side.now.inside level.old level.new) }
    ensures below { OnOk result
        (AreBelowBound (length places.old.items) level.new.moved.items) }
    ensures places { length places.new.items ≡ length places.old.items }
{
    if level.ready && level.upto == place {
        return Ok(());
    }
    restart(level, place)?;
    spare.clear();
    advance(side, place, places, &mut level.moved, spare)?;
    mem::swap(&mut level.moved, spare);
    level.upto = place;
    Ok(())
}

// Begins anew where the nodes were moved past the place.
fn restart(level: &mut Level, place: u32) -> Result<(), AllocError>
    ensures start { OnOk result (level.new.start.items ≡ level.old.start.items) }
    ensures ready { OnOk result (level.new.ready ≡ true) }
    ensures moved { OnOk result ((level.new.moved.items ≡ level.old.start.items)
        ⊎ ((level.old.ready ≡ true) × (level.new.moved.items ≡ level.old.moved.items))) }
{
    if level.ready && level.upto <= place {
        return Ok(());
    }
    level.moved.clear();
    level.moved.extend_from_slice(&level.start)?;
    level.ready = true;
    Ok(())
}

// Puts a node into the list, unless it is there.
fn put(places: &mut Vec<u32>, list: &mut Vec<u32>, node: u32) -> Result<(), AllocError>
    requires { node < length places.old.items }
    ensures put { OnOk result (LiesIn list.old.items node list.new.items) }
    ensures places { length places.new.items ≡ length places.old.items }
{
    let at = places[node as usize] as usize;
    if at < list.len() && list[at] == node {
        return Ok(());
    }
    places[node as usize] = list.len().min(u32::MAX as usize) as u32;
    list.push(node)?;
    Ok(())
}

// The same, unless it is the end that isn't looked for.
fn put_live(
    inside: bool,
    places: &mut Vec<u32>,
    list: &mut Vec<u32>,
    node: u32,
) -> Result<(), AllocError>
    requires { node < length places.old.items }
    ensures extends { OnOk result (IsContinued list.old.items list.new.items) }
    ensures below { OnOk result ((bound : ℕ) → node < bound → AreBelowBound bound list.old.items
        → AreBelowBound bound list.new.items) }
    ensures put { OnOk result ((node ≡ cond inside 0 1) ⊎ Contains list.new.items node) }
    ensures places { length places.new.items ≡ length places.old.items }
{
    let bad = if inside { 0 } else { 1 };
    if node == bad {
        return Ok(());
    }
    put(places, list, node)
}

// Remembers where each node of the list stands.
fn note_all(places: &mut Vec<u32>, list: &[u32])
    requires { AreBelowBound (length places.old.items) list.now }
    ensures { length places.new.items ≡ length places.old.items }
{
    for k in 0..list.len() {
        places[list[k] as usize] = k.min(u32::MAX as usize) as u32;
    }
}

// Moves the nodes down, until none asks for an atom before the place.
fn advance(
    side: &NodeSide<'_>,
    place: u32,
    places: &mut Vec<u32>,
    queue: &mut Vec<u32>,
    out: &mut Vec<u32>,
) -> Result<(), AllocError>
    requires bound { length places.old.items ≤ node_count side.now.nodes.now }
    requires queue { AreBelowBound (length places.old.items) queue.old.items }
    requires out { out.old.items ≡ [] }
    ensures moves { OnOk result
        (MovesTo side.now.nodes.now side.now.inside queue.old.items out.new.items) }
    ensures below { OnOk result (AreBelowBound (length places.old.items) out.new.items) }
    ensures places { length places.new.items ≡ length places.old.items }
{
    note_all(places, queue.as_slice());
    let most = queue.len().saturating_add(side.nodes.count());
    for at in 0..most {
        if at >= queue.len() {
            return Ok(());
        }
        move_one(side, place, places, queue, at, out)?;
    }
    // This many are never left.
    out.extend_from_slice(queue.as_slice())?;
    Ok(())
}

// Moves one node down, or leaves it as it is.
fn move_one(
    side: &NodeSide<'_>,
    place: u32,
    places: &mut Vec<u32>,
    queue: &mut Vec<u32>,
    at: usize,
    out: &mut Vec<u32>,
) -> Result<(), AllocError>
    requires bound { length places.old.items ≤ node_count side.now.nodes.now }
    requires queue { AreBelowBound (length places.old.items) queue.old.items }
    requires out { AreBelowBound (length places.old.items) out.old.items }
    requires at { at < length queue.old.items }
    requires ahead { IsAhead side.now.nodes.now side.now.inside out.old.items queue.old.items at }
    ensures ahead { OnOk result
        (IsAhead side.now.nodes.now side.now.inside out.new.items queue.new.items (at + 1)) }
    ensures extends { OnOk result (IsContinued queue.old.items queue.new.items) }
    ensures queue { OnOk result (AreBelowBound (length places.old.items) queue.new.items) }
    ensures out { OnOk result (AreBelowBound (length places.old.items) out.new.items) }
    ensures places { length places.new.items ≡ length places.old.items }
{
    let node = queue[at];
    if node < 2 || side.nodes.top(node) >= place {
        out.push(node)?;
        return Ok(());
    }
    put_live(side.inside, places, queue, side.nodes.child(node, false))?;
    put_live(side.inside, places, queue, side.nodes.child(node, true))?;
    Ok(())
}

// Lists where the nodes lead by the literal.
fn restrict(
    side: &NodeSide<'_>,
    front: &[u32],
    literal: Literal,
    places: &mut Vec<u32>,
    list: &mut Vec<u32>,
) -> Result<(), AllocError>
    requires bound { length places.old.items ≤ node_count side.now.nodes.now }
    requires front { AreBelowBound (length places.old.items) front.now }
    requires list { list.old.items ≡ [] }
    ensures turns { OnOk result
        (Turns side.now.nodes.now side.now.inside literal front.now list.new.items) }
    ensures below { OnOk result (AreBelowBound (length places.old.items) list.new.items) }
    ensures places { length places.new.items ≡ length places.old.items }
{
    // For its contract alone: the nodes are reduced.
    let _atoms = side.nodes.atoms();
    for at in 0..front.len() {
        let node = turned(side.nodes, front[at], literal);
        put_live(side.inside, places, list, node)?;
    }
    Ok(())
}

// The node to which a literal leads.
fn turned(nodes: &Diagrams, node: u32, literal: Literal) -> u32
    requires { IsNode nodes.now node }
    ensures same { (s : List Bool) → in_literal literal s ≡ true
        → in_node nodes.now node s ≡ in_node nodes.now result s }
    ensures less { result ≤ node }
{
    if node >= 2 && nodes.node(node).atom == literal.atom {
        nodes.child(node, literal.positive)
    } else {
        node
    }
}

//! Walks over the paths from a node to an end: a cursor has the nodes of the present path, and a
//! step changes what follows the last of them where the walk can still turn.
//!
//! A walk keeps the nodes of the present path and nothing else: a step goes up to the last low
//! child whose sibling has a path to the end, turns to that, and goes down by low children first.
//! Each inner node has a path to both ends, since its children differ, so a walk never goes down in
//! vain and takes no table of counts. It is a bounded number of steps, one for each node: each
//! leads to a lower number, so this is always enough. A step of a cursor writes the cube anew,
//! since the caller may hand in any cube: it costs the length of the path, and not the number of
//! atoms. What is left of a walk is a function of its path, so each move of the path is one
//! equation between lists of paths.

ghost use Rattle.std.specs.Prelude.{◌≡◌, ◌<◌, ◌≤◌, ◌≢◌, ◌++◌, ◌∷◌, [], ◌-◌, ℕ, List, Ok, false};
ghost use Rattle.std.specs.Prelude.{true, length, map, take, IsTrue, IfNone, IfOk, IfSome, OnOk};
ghost use Rattle.hv_sets.specs.Cubes.{SpeakBelow, cube_of};
ghost use Rattle.hv_sets.specs.Walks.{StepSpeaksBelow, TakesCube};
ghost use Rattle.hv_bdd.specs.Nodes.{IsNode};
ghost use Rattle.hv_bdd.specs.Paths.{IsStack, StandsForWalk, last_of, left_at, left_of, paths};
ghost use Rattle.hv_bdd.specs.Working.Paths.{literals_of};
ghost use Rattle.hv_bdd.specs.Reduced.{node_at};
ghost use Rattle.hv_bdd.specs.Working.Turning.{TurnsTo};
ghost use Rattle.hv_paths.specs.Along.{KeepsFront};

use crate::diagrams::Diagrams;
use hv_sets::{Cube, Cursor, Literal, Step};
use std::alloc::AllocError;

/// Takes the next step of the walk over the paths from the root to the end.
pub(crate) fn next(
    nodes: &Diagrams,
    root: u32,
    end: u32,
    cursor: &mut Cursor,
    cube: &mut Cube,
) -> Result<Step, AllocError>
    requires end { end < 2 }
    requires root { IsNode nodes.now root }
    requires stands { StandsForWalk nodes.now end cursor.old }
    ensures step { IfOk result (λ step. TakesCube step cube.new
        (map cube_of (left_at nodes.now end root cursor.old))
        (map cube_of (left_at nodes.now end root cursor.new))) }
    ensures stands { OnOk result (StandsForWalk nodes.now end cursor.new) }
    ensures cube { IfOk result (λ step. StepSpeaksBelow nodes.now.atoms step cube.new) }
{
    if advance(nodes, root, end, cursor)?.is_none() {
        return Ok(Step::End);
    }
    fill(nodes, cursor.path.as_slice(), cube)?;
    Ok(Step::Cube)
}

/// Goes to the next path, and tells how many literals at the front of the path before it has.
pub(crate) fn advance(
    nodes: &Diagrams,
    root: u32,
    end: u32,
    cursor: &mut Cursor,
) -> Result<Option<usize>, AllocError>
    requires end { end < 2 }
    requires root { IsNode nodes.now root }
    requires stands { StandsForWalk nodes.now end cursor.old }
    ensures stands { OnOk result (StandsForWalk nodes.now end cursor.new) }
    ensures stack { IfOk result (λ next. IfSome next (λ _.
        IsStack nodes.now cursor.new.path.items)) }
    ensures front { IfOk result (λ next. IfSome next (λ kept. KeepsFront kept
        (literals_of nodes.now cursor.old.path.items)
        (literals_of nodes.now cursor.new.path.items))) }
    ensures more { IfOk result (λ next. IfSome next (λ _. left_at nodes.now end root cursor.old
        ≡ literals_of nodes.now cursor.new.path.items ∷ left_at nodes.now end root cursor.new)) }
    ensures none { IfOk result (λ next. IfNone next (left_at nodes.now end root cursor.old ≡ [])) }
    ensures over { IfOk result (λ next. IfNone next (left_at nodes.now end root cursor.new ≡ [])) }
{
    if !start_or_turn(nodes, root, end, cursor)? {
        return Ok(None);
    }
    let kept = cursor.path.len().saturating_sub(2);
    descend(nodes, &mut cursor.path, end)?;
    Ok(Some(kept))
}

// Puts the root on a new path, or turns the path that is there. The answer is false where no path
// to the end is left.
fn start_or_turn(
    nodes: &Diagrams,
    root: u32,
    end: u32,
    cursor: &mut Cursor,
) -> Result<bool, AllocError>
    requires end { end < 2 }
    requires root { IsNode nodes.now root }
    requires stands { StandsForWalk nodes.now end cursor.old }
    ensures place { OnOk result (cursor.new.place ≢ 0) }
    ensures stack { result ≡ Ok true → IsStack nodes.now cursor.new.path.items }
    ensures other { result ≡ Ok true → last_of cursor.new.path.items ≢ 1 - end }
    ensures more { result ≡ Ok true → left_of nodes.now end cursor.new.path.items
        (paths nodes.now end (last_of cursor.new.path.items))
        ≡ left_at nodes.now end root cursor.old }
    ensures front { result ≡ Ok true → TurnsTo cursor.old.path.items cursor.new.path.items }
    ensures empty { result ≡ Ok false → cursor.new.path.items ≡ [] }
    ensures none { result ≡ Ok false → left_at nodes.now end root cursor.old ≡ [] }
{
    if cursor.place != 0 {
        return Ok(turn(nodes, &mut cursor.path, end));
    }
    cursor.place = 1;
    if root == 1 - end {
        return Ok(false);
    }
    cursor.path.push(root)?;
    Ok(true)
}

// Goes down to the next end of the walk, by low children first.
fn descend(nodes: &Diagrams, path: &mut Vec<u32>, end: u32) -> Result<(), AllocError>
    requires end { end < 2 }
    requires stack { IsStack nodes.now path.old.items }
    requires other { last_of path.old.items ≢ 1 - end }
    ensures stack { OnOk result (IsStack nodes.now path.new.items) }
    ensures end { OnOk result (last_of path.new.items ≡ end) }
    ensures front { OnOk result (take (length path.old.items) path.new.items ≡ path.old.items) }
    ensures left { OnOk result (left_of nodes.now end path.new.items (paths nodes.now end end)
        ≡ left_of nodes.now end path.old.items (paths nodes.now end (last_of path.old.items))) }
{
    let mut last = path[path.len() - 1];
    while last >= 2 {
        last = first_child(nodes, last, end);
        path.push(last)?;
    }
    Ok(())
}

// The first child with a path to the end.
fn first_child(nodes: &Diagrams, node: u32, end: u32) -> u32
    requires end { end < 2 }
    requires inner { 2 ≤ node }
    requires node { IsNode nodes.now node }
    ensures node { IsNode nodes.now result }
    ensures less { result < node }
    ensures other { result ≢ 1 - end }
    ensures left { (front : List ℕ)
        → left_of nodes.now end (front ++ node ∷ []) (paths nodes.now end node)
        ≡ left_of nodes.now end (front ++ node ∷ result ∷ []) (paths nodes.now end result) }
{
    let listed = nodes.node(node);
    if listed.low == 1 - end {
        listed.high
    } else {
        listed.low
    }
}

// Turns from the last low child whose sibling has a path to that sibling. Where there is none, the
// path is left empty, and the answer is false.
fn turn(nodes: &Diagrams, path: &mut Vec<u32>, end: u32) -> bool
    requires end { end < 2 }
    requires stack { path.old.items ≢ [] → IsStack nodes.now path.old.items }
    ensures stack { IsTrue result → IsStack nodes.now path.new.items }
    ensures other { IsTrue result → last_of path.new.items ≢ 1 - end }
    ensures left { IsTrue result → left_of nodes.now end path.new.items
        (paths nodes.now end (last_of path.new.items)) ≡ left_of nodes.now end path.old.items [] }
    ensures front { IsTrue result → TurnsTo path.old.items path.new.items }
    ensures empty { result ≡ false → path.new.items ≡ [] }
    ensures none { result ≡ false → left_of nodes.now end path.old.items [] ≡ [] }
{
    // How many nodes of the path are still looked at.
    let mut count = path.len();
    while count > 1 {
        let node = path[count - 2];
        if let Some(high) = sibling(nodes, node, path[count - 1], end) {
            path.truncate(count - 1);
            path.push_reserved(high);
            return true;
        }
        count -= 1;
    }
    path.clear();
    false
}

// The high child of a node, where the walk comes from the low one and a path leads from the high
// one to the end.
fn sibling(nodes: &Diagrams, node: u32, child: u32, end: u32) -> Option<u32>
    requires end { end < 2 }
    requires inner { 2 ≤ node }
    requires node { IsNode nodes.now node }
    ensures node { IfSome result (λ high. IsNode nodes.now high) }
    ensures other { IfSome result (λ high. high ≢ 1 - end) }
    ensures some { IfSome result (λ high. (front : List ℕ) →
        left_of nodes.now end (front ++ node ∷ high ∷ []) (paths nodes.now end high)
        ≡ left_of nodes.now end (front ++ node ∷ child ∷ []) []) }
    ensures none { IfNone result ((front : List ℕ) →
        left_of nodes.now end (front ++ node ∷ []) []
        ≡ left_of nodes.now end (front ++ node ∷ child ∷ []) []) }
{
    let high = nodes.node(node).high;
    if child == high {
        return None;
    }
    if high == 1 - end {
        return None;
    }
    Some(high)
}

/// Puts the literals of the rest of a path behind those that are there.
pub(crate) fn extend(
    nodes: &Diagrams,
    path: &[u32],
    literals: &mut Vec<Literal>,
) -> Result<(), AllocError>
    requires stack { IsStack nodes.now path.now }
    requires front { literals.old.items
        ≡ take (length literals.old.items) (literals_of nodes.now path.now) }
    requires below { SpeakBelow nodes.now.atoms literals.old.items }
    ensures literals { OnOk result (literals.new.items ≡ literals_of nodes.now path.now) }
    ensures below { OnOk result (SpeakBelow nodes.now.atoms literals.new.items) }
{
    for at in literals.len()..path.len() - 1 {
        let node = nodes.node(path[at]);
        literals.push(Literal {
            atom: node.atom,
            positive: path[at + 1] == node.high,
        })?;
    }
    Ok(())
}

// Makes the cube that of a path.
fn fill(nodes: &Diagrams, path: &[u32], cube: &mut Cube) -> Result<(), AllocError>
    requires { IsStack nodes.now path.now }
    ensures cube { OnOk result (cube.new ≡ cube_of (literals_of nodes.now path.now)) }
    ensures below { OnOk result (SpeakBelow nodes.now.atoms cube.new) }
{
    cube.clear();
    for at in 1..path.len() {
        let node = nodes.node(path[at - 1]);
        cube.add(Literal {
            atom: node.atom,
            positive: path[at] == node.high,
        })?;
    }
    Ok(())
}

//! Sets that nodes denote. Such a set carries two proved fields, that its list is reduced and its
//! node is listed, since the laws of the traits speak of every value of the type. Some lemmas about
//! paths are in specs/ (`Laws`, `Cubed`, `Ordered`): those laws cite them, and a law may cite
//! specs/ alone.

ghost use Rattle.std.specs.Prelude.{◌≡◌, length, map, Some, IfOk};
ghost use Rattle.std.proofs.Common.{ap};
ghost use Rattle.std.specs.List.Sorted.{IsStrictlyIncreasing};
ghost use Rattle.hv_sets.specs.Cubes.{SpeakBelow, atoms_of, cube_of};
ghost use Rattle.hv_bdd.specs.Nodes.{IsNode, in_node};
ghost use Rattle.hv_bdd.specs.Paths.{StandsForWalk, left_at, path_cubes};
ghost use Rattle.hv_bdd.specs.Reduced.{IsReduced};
ghost use Rattle.hv_bdd.specs.Working.Sets.{Finds};
ghost use Rattle.hv_bdd.specs.Working.Laws as laws;

use crate::asked::Asked;
use crate::atom_bits::{AtomBits, ListedState};
use crate::counts::path_count;
use crate::diagrams::Diagrams;
use crate::goal::{Goal, GoalPlaces};
use crate::tuple_search::Search;
use crate::walk::next;
use hv_sets::{Covering, Cube, Cursor, Finding, Inside, Outside, Scratch, StateSet, Step, Which};
use hv_task::{AtomList, State};
use std::alloc::{AllocError, Global};
use std::slice;

/// The set of states for which a node stands.
#[derive(Clone, Copy)]
pub struct DiagramSet<'a> {
    /// The list of the node.
    pub nodes: &'a Diagrams,
    /// Its number.
    pub node: u32,
    pub ghost reduced: { IsReduced nodes.now },
    pub ghost within: { IsNode nodes.now node },
}

impl StateSet for DiagramSet<'_> {
    ghost atoms = { λ set. set.nodes.now.atoms };

    ghost has = { λ set. in_node set.nodes.now set.node };

    fn holds(&self, state: &State) -> bool {
        self.nodes.holds(self.node, state)
    }

    fn meets(&self, alloc: Global, cube: &Cube, scratch: &mut Scratch) -> Result<bool, AllocError> {
        scratch.reserve(self.nodes.atoms(), 0, 0)?;
        find(alloc, self.nodes, self.node, cube, true, &mut scratch.state)
    }
}

impl Outside for DiagramSet<'_> {
    ghost outside = { λ set. map (λ cube. Some cube) (path_cubes set.nodes.now 0 set.node) };

    ghost stands_outside = { λ set cursor. StandsForWalk set.nodes.now 0 cursor };

    ghost outside_left = { λ set cursor.
        map (λ cube. Some cube) (map cube_of (left_at set.nodes.now 0 set.node cursor)) };

    fn outside_next(&self, cursor: &mut Cursor, cube: &mut Cube) -> Result<Step, AllocError> {
        next(self.nodes, self.node, 0, cursor, cube)
    }

    fn outside_count(&self, alloc: Global, cap: u64) -> Result<u64, AllocError> {
        path_count(alloc, self.nodes, self.node, 0, cap)
    }

    ghost starts_outside = { λ set cursor new. laws.stands_first set.nodes.now 0 cursor new };

    ghost starts_with_outside = { λ set cursor new.
        ap (λ ps. map (λ cube. Some cube) (map cube_of ps))
        (laws.left_first set.nodes.now 0 set.node cursor new) };

    ghost outside_is = { λ set state _.
        laws.outside_is set.nodes.now set.node set.reduced set.within state };
}

impl Inside for DiagramSet<'_> {
    ghost inside = { λ set. path_cubes set.nodes.now 1 set.node };

    ghost stands_inside = { λ set cursor. StandsForWalk set.nodes.now 1 cursor };

    ghost inside_left = { λ set cursor. map cube_of (left_at set.nodes.now 1 set.node cursor) };

    fn inside_next(&self, cursor: &mut Cursor, cube: &mut Cube) -> Result<Step, AllocError> {
        next(self.nodes, self.node, 1, cursor, cube)
    }

    fn inside_count(&self, alloc: Global, cap: u64) -> Result<u64, AllocError> {
        path_count(alloc, self.nodes, self.node, 1, cap)
    }

    ghost starts_inside = { λ set cursor new. laws.stands_first set.nodes.now 1 cursor new };

    ghost starts_with_inside = { λ set cursor new.
        ap (map cube_of) (laws.left_first set.nodes.now 1 set.node cursor new) };

    ghost inside_is = { λ set state _.
        laws.inside_is set.nodes.now set.node set.reduced set.within state };
}

impl Covering for DiagramSet<'_> {
    fn covers(
        &self,
        alloc: Global,
        cube: &Cube,
        scratch: &mut Scratch,
    ) -> Result<bool, AllocError> {
        scratch.reserve(self.nodes.atoms(), 0, 0)?;
        let outside = find(
            alloc,
            self.nodes,
            self.node,
            cube,
            false,
            &mut scratch.state,
        )?;
        Ok(!outside)
    }
}

// Whether some state of the cube is in the node (true) or outside it (false). One such state is
// then left in the state.
fn find(
    alloc: Global,
    nodes: &Diagrams,
    node: u32,
    cube: &Cube,
    inside: bool,
    state: &mut State,
) -> Result<bool, AllocError>
    requires node { IsNode nodes.now node }
    requires cube { SpeakBelow nodes.now.atoms cube.now }
    requires state { length state.old ≡ nodes.now.atoms }
    ensures { IfOk result (λ yes.
        Finds inside yes nodes.now.atoms (in_node nodes.now node) cube.now state.new) }
{
    let none = AtomList::new(alloc);
    let atoms = nodes.atoms();
    let asked = Asked {
        which: Which::Set(node as usize),
        after: false,
        positive: inside,
    };
    let mut search = Search::new(
        nodes,
        ListedState::new(atoms, &none),
        Goal {
            held: ListedState::new(atoms, &none),
            places: GoalPlaces::never(),
            counts: false,
        },
        AtomBits::signs(atoms, cube),
        AtomBits::none(atoms),
        slice::from_ref(&asked),
    );
    search.finds(alloc, node, cube, inside, state)
}

impl Search<'_> {
    ghost use Rattle.hv_bdd.specs.Working.Search.{SearchesCube};

    // Whether some state of the cube is in the node or outside it, where the search is for that.
    fn finds(
        &mut self,
        alloc: Global,
        node: u32,
        cube: &Cube,
        inside: bool,
        state: &mut State,
    ) -> Result<bool, AllocError>
        requires within { SearchesCube node inside cube.now self.old }
        requires cube { SpeakBelow self.old.setting.list.atoms cube.now }
        requires rises { IsStrictlyIncreasing (atoms_of cube.now) }
        requires state { length state.old ≡ self.old.setting.list.atoms }
        ensures { IfOk result (λ yes.
            Finds inside yes self.old.setting.list.atoms (in_node self.old.setting.list node)
            cube.now state.new) }
    {
        let count = self.count() as u64;
        match self.find(alloc, count, state)? {
            Finding::Clash => Ok(true),
            Finding::Empty => Ok(false),
            Finding::Over => Ok(false),
        }
    }
}

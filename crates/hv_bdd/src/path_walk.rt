//! Walks over the paths of a node that say what stays from path to path: the literals of the path
//! are kept too, and a step costs the nodes that it leaves and those that it reaches.

ghost use Rattle.std.specs.Prelude.{◌≡◌, ◌<◌, Bool, List, true, IfOk};
ghost use Rattle.hv_sets.specs.Walks.{in_cubes};
ghost use Rattle.hv_bdd.specs.Nodes.{IsNode};
ghost use Rattle.hv_bdd.specs.Paths.{left_at, paths};
ghost use Rattle.hv_bdd.specs.Working.Turning.{StandsWith};

use crate::diagrams::Diagrams;
use crate::walk::{advance, extend};
use hv_paths::{WalkStop, Walker};
use hv_sets::{Cursor, Literal};
use std::alloc::{AllocError, Global};

/// The walk over the paths from a node to an end. A step costs the nodes in which the next path
/// differs from the one before.
#[derive(Drop)]
pub struct PathWalk<'a> {
    nodes: &'a Diagrams,
    root: u32,
    end: u32,
    cursor: Cursor,
    literals: Vec<Literal>,
}

impl<'a> PathWalk<'a> {
    // The walk before its first step.
    pub(crate) fn new(alloc: Global, nodes: &'a Diagrams, root: u32, end: u32) -> PathWalk<'a>
        requires root { IsNode nodes.now root }
        requires end { end < 2 }
        ensures stands { ⟦<PathWalk<'a> as Walker>⟧.stands result }
        ensures atoms { ⟦<PathWalk<'a> as Walker>⟧.atoms result ≡ nodes.now.atoms }
        ensures all { ⟦<PathWalk<'a> as Walker>⟧.left result ≡ paths nodes.now end root }
    {
        PathWalk {
            nodes,
            root,
            end,
            cursor: Cursor::new(alloc),
            literals: Vec::new(alloc),
        }
    }
}

impl<'a> Walker for PathWalk<'a> {
    ghost atoms = { λ w. w.nodes.now.atoms };

    ghost stands = { λ w. StandsWith w.nodes.now w.root w.end w.cursor w.literals.items };

    ghost path = { λ w. w.literals.items };

    ghost left = { λ w. left_at w.nodes.now w.end w.root w.cursor };

    fn advance(&mut self) -> Result<Option<usize>, AllocError> {
        let Some(kept) = advance(self.nodes, self.root, self.end, &mut self.cursor)? else {
            return Ok(None);
        };
        self.literals.truncate(kept);
        extend(self.nodes, self.cursor.path.as_slice(), &mut self.literals)?;
        Ok(Some(kept))
    }

    fn stop(&self) -> WalkStop<'_> {
        WalkStop::Cube(self.literals.as_slice())
    }
}

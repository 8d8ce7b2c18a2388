//! The question to a node along a path: after each literal the nodes are kept that are still met.
//!
//! They are moved down as far as the next literal goes. The lists of a literal that was taken back
//! are filled again by the next one at that place, and nodes that were moved down to a place aren't
//! moved there once more. A node that is moved gives way to children, which are less, so a node's
//! witness is never the node itself; no order of the atoms occurs in the proof. Where the literals
//! of a walk don't go by the order of the diagram, a prefix is refuted later, and the question that
//! is wrapped answers. A question that is wrapped so only gets a refutation more. A listed state is
//! asked of the node itself, and the question that is wrapped only about one that may be wanted.
//!
//! A literal that is true in nearly all states leaves a front as wide as the diagram, and such a
//! front is moved down anew for each literal with which a cube goes on. Two literals of most of
//! these cubes exclude each other. So once the fronts have moved as many nodes as it costs to find
//! out all exclusions, that is done (`node_exclusions.rt`), and from then on two such literals
//! refute a cube by one look: the fronts after its first literals are made only once there are a
//! few, or once all are assumed and the question that is wrapped has to answer.

ghost use Rattle.std.specs.Prelude.{◌≡◌, ◌<◌, ◌≤◌, [], Bool, List, IfOk, true, not, ◌&&◌, length};
ghost use Rattle.hv_bdd.specs.Nodes.{IsNode, in_node};
ghost use Rattle.hv_bdd.specs.Fronts.{StandsAlong};
ghost use Rattle.hv_bdd.specs.Jumps.{StandsAtNode};

use crate::diagrams::Diagrams;
use crate::jumps::Jumps;
use crate::level::NodeSide;
use crate::node_exclusions::{COMPARED, Exclusions};
use crate::node_fronts::Fronts;
use hv_paths::Asker;
use hv_sets::{Literal, Scratch};
use hv_task::State;
use std::alloc::{AllocError, Global};

/// A question beside which stands which nodes are met after each literal, and which two literals
/// exclude each other, once that is found out.
#[derive(Drop)]
pub struct FrontAsk<'a, A: Asker + Drop> {
    asked: A,
    nodes: &'a Diagrams,
    node: u32,
    inside: bool,
    jumps: Jumps,
    // What is assumed.
    literals: Vec<Literal>,
    fronts: Fronts,
    exclusions: Exclusions,
    refuted: bool,
}

impl<'a, A: Asker + Drop> FrontAsk<'a, A> {
    // The question with nothing assumed.
    pub(crate) fn new(
        alloc: Global,
        asked: A,
        nodes: &'a Diagrams,
        node: u32,
        inside: bool,
    ) -> Result<FrontAsk<'a, A>, AllocError>
        requires node { IsNode nodes.now node }
        requires asked { A.stands asked }
        requires over { A.atoms asked ≡ nodes.now.atoms }
        requires first { A.assumed asked ≡ [] }
        requires wanted { (s : List Bool) → A.wanted asked s ≡ true
            → in_node nodes.now node s ≡ inside }
        ensures stands { IfOk result (λ ask. ⟦<FrontAsk<'a, A> as Asker>⟧.stands ask) }
        ensures atoms { IfOk result
            (λ ask. ⟦<FrontAsk<'a, A> as Asker>⟧.atoms ask ≡ A.atoms asked) }
        ensures first { IfOk result (λ ask. ⟦<FrontAsk<'a, A> as Asker>⟧.assumed ask ≡ []) }
        ensures wanted { IfOk result (λ ask. (s : List Bool)
            → ⟦<FrontAsk<'a, A> as Asker>⟧.wanted ask s ≡ A.wanted asked s) }
    {
        let fronts = Fronts::of(alloc, node)?;
        Ok(FrontAsk {
            asked,
            nodes,
            node,
            inside,
            jumps: Jumps::none(alloc),
            literals: Vec::new(alloc),
            fronts,
            exclusions: Exclusions {
                words: Vec::new(alloc),
            },
            refuted: false,
        })
    }
}

impl<'a, A: Asker + Drop> Asker for FrontAsk<'a, A> {
    ghost atoms = { λ q. A.atoms q.asked };

    ghost wanted = { λ q. A.wanted q.asked };

    ghost stands = { λ q. A.stands q.asked
        × StandsAlong q.nodes.now q.inside q.node (A.atoms q.asked) (A.wanted q.asked)
        (A.assumed q.asked) q.literals.items q.fronts.reached q.fronts.levels.items
        q.exclusions.words.items q.refuted
        × StandsAtNode q.nodes.now q.inside (A.wanted q.asked) q.node q.jumps.to.items };

    ghost assumed = { λ q. A.assumed q.asked };

    ghost alive = { λ q. not q.refuted && A.alive q.asked };

    fn depth(&self) -> usize {
        self.asked.depth()
    }

    fn is_open(&self) -> bool {
        !self.refuted && self.asked.is_open()
    }

    fn assume(&mut self, literal: Literal) -> Result<(), AllocError> {
        let side = NodeSide {
            nodes: self.nodes,
            inside: self.inside,
        };
        self.asked.assume(literal)?;
        let known = self.exclusions.learn(&side, self.node, self.fronts.moved)?;
        let excluded = self.exclusions.exclude(self.literals.as_slice(), literal);
        self.literals.push(literal)?;
        if excluded || known && self.literals.len() < COMPARED {
            self.refuted = excluded;
            return Ok(());
        }
        let none = self
            .fronts
            .follow(&side, self.node, self.literals.as_slice())?;
        self.refuted = none;
        Ok(())
    }

    fn take_back(&mut self, depth: usize) {
        self.asked.take_back(depth);
        self.literals.truncate(depth);
        self.fronts.reached = self.fronts.reached.min(depth);
        self.refuted = false;
    }

    fn meets(&mut self, alloc: Global, scratch: &mut Scratch) -> Result<bool, AllocError> {
        let side = NodeSide {
            nodes: self.nodes,
            inside: self.inside,
        };
        if self
            .fronts
            .follow(&side, self.node, self.literals.as_slice())?
        {
            return Ok(false);
        }
        let yes = self.asked.meets(alloc, scratch)?;
        Ok(yes)
    }

    fn wants(&mut self, alloc: Global, held: &[u32], state: &State) -> Result<bool, AllocError> {
        let has = self.jumps.has(alloc, self.nodes, self.node, held, state)?;
        if has != self.inside {
            return Ok(false);
        }
        let yes = self.asked.wants(alloc, held, state)?;
        Ok(yes)
    }
}

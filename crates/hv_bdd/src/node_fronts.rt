//! The fronts after some literals, as far as they are made.

ghost use Rattle.std.specs.Prelude.{◌≡◌, ◌∷◌, [], IfOk, OnOk, true, length};
ghost use Rattle.hv_sets.specs.Cubes.{SpeakBelow};
ghost use Rattle.hv_bdd.specs.Fronts.{AreFronts};
ghost use Rattle.hv_bdd.specs.Working.Fronts.{IsMetNowhere};

use crate::level::{Level, NodeSide, deepen};
use hv_sets::Literal;
use std::alloc::{AllocError, Global};

/// A level before the first literal, and one after each literal up to some; others are filled
/// again.
#[derive(Drop)]
pub(crate) struct Fronts {
    pub levels: Vec<Level>,
    /// After so many literals the levels are made.
    pub reached: usize,
    /// How many nodes were moved down.
    pub moved: usize,
    // Where each node was put last.
    places: Vec<u32>,
    // A list to write to.
    spare: Vec<u32>,
}

impl Fronts {
    /// That of a node before any literal.
    pub(crate) fn of(alloc: Global, node: u32) -> Result<Fronts, AllocError>
        ensures reached { IfOk result (λ f. f.reached ≡ 0) }
        ensures level { IfOk result (λ f. (level : Level) × (f.levels.items ≡ level ∷ [])
            × (level.start.items ≡ node ∷ []) × (level.moved.items ≡ node ∷ [])) }
    {
        let mut levels = Vec::new(alloc);
        let level = Level::of(alloc, node)?;
        levels.push(level)?;
        Ok(Fronts {
            levels,
            reached: 0,
            moved: 0,
            places: Vec::new(alloc),
            spare: Vec::new(alloc),
        })
    }

    /// Makes the levels after all literals. The answer is whether no node is met after them.
    pub(crate) fn follow(
        &mut self,
        side: &NodeSide<'_>,
        node: u32,
        literals: &[Literal],
    ) -> Result<bool, AllocError>
        requires below { SpeakBelow side.now.nodes.now.atoms literals.now }
        requires fronts { AreFronts side.now.nodes.now side.now.inside node literals.now
            self.old.reached self.old.levels.items }
        ensures fronts { OnOk result (AreFronts side.now.nodes.now side.now.inside node
            literals.now self.new.reached self.new.levels.items) }
        ensures reached { OnOk result (self.new.reached ≡ length literals.now) }
        ensures none { IfOk result (λ none. none ≡ true
            → IsMetNowhere side.now.nodes.now side.now.inside node literals.now) }
    {
        // For its contract alone: the nodes are reduced.
        let _atoms = side.nodes.atoms();
        for place in self.reached..literals.len() {
            let literal = literals[place];
            self.places.resize(node as usize + 1, 0)?;
            self.spare.clear();
            deepen(
                side,
                &mut self.levels,
                place,
                &mut self.places,
                &mut self.spare,
                literal,
            )?;
            self.moved = self.moved.saturating_add(self.spare.len());
            self.reached = place + 1;
        }
        Ok(self.levels[self.reached].is_met_nowhere())
    }
}

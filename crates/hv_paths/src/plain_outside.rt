//! The plain question about the states outside a set: what is assumed is only listed, and each
//! question is asked from nothing.

ghost use Rattle.std.specs.Prelude.{◌≡◌, [], Bool, List, true, not};
ghost use Rattle.hv_sets.specs.Cubes.{SpeakBelow};

use crate::asker::Asker;
use crate::filling::fill;
use hv_sets::{Covering, Cube, Literal, Scratch};
use hv_task::State;
use std::alloc::{AllocError, Global};

/// The question whether some state outside a set is in a cube.
#[derive(Drop)]
pub struct OutsideAsk<'a, R: Covering> {
    set: &'a R,
    literals: Vec<Literal>,
    cube: Cube,
}

impl<'a, R: Covering> OutsideAsk<'a, R> {
    /// The question with nothing assumed.
    pub fn new(alloc: Global, set: &'a R) -> OutsideAsk<'a, R>
        ensures stands { ⟦<OutsideAsk<'a, R> as Asker>⟧.stands result }
        ensures atoms { ⟦<OutsideAsk<'a, R> as Asker>⟧.atoms result ≡ R.atoms set.now }
        ensures wanted { (s : List Bool)
            → ⟦<OutsideAsk<'a, R> as Asker>⟧.wanted result s ≡ not (R.has set.now s) }
        ensures first { ⟦<OutsideAsk<'a, R> as Asker>⟧.assumed result ≡ [] }
    {
        OutsideAsk {
            set,
            literals: Vec::new(alloc),
            cube: Cube::new(alloc),
        }
    }
}

impl<'a, R: Covering> Asker for OutsideAsk<'a, R> {
    ghost atoms = { λ q. R.atoms q.set.now };

    ghost wanted = { λ q s. not (R.has q.set.now s) };

    ghost stands = { λ q. SpeakBelow (R.atoms q.set.now) q.literals.items };

    ghost assumed = { λ q. q.literals.items };

    ghost alive = { λ _. true };

    fn depth(&self) -> usize {
        self.literals.len()
    }

    fn is_open(&self) -> bool {
        true
    }

    fn assume(&mut self, literal: Literal) -> Result<(), AllocError> {
        self.literals.push(literal)?;
        Ok(())
    }

    fn take_back(&mut self, depth: usize) {
        self.literals.truncate(depth);
    }

    fn meets(&mut self, alloc: Global, scratch: &mut Scratch) -> Result<bool, AllocError> {
        if !fill(alloc, &mut self.cube, self.literals.as_slice())? {
            return Ok(false);
        }
        let covered = self.set.covers(alloc, &self.cube, scratch)?;
        Ok(!covered)
    }

    fn wants(&mut self, alloc: Global, held: &[u32], state: &State) -> Result<bool, AllocError> {
        let _ = alloc;
        let _ = held;
        Ok(!self.set.holds(state))
    }
}

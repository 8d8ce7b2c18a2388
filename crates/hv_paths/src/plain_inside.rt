//! The plain question about a set: what is assumed is only listed, and each question is asked from
//! nothing.

ghost use Rattle.std.specs.Prelude.{◌≡◌, [], Bool, List, true};
ghost use Rattle.hv_sets.specs.Cubes.{SpeakBelow};

use crate::asker::Asker;
use crate::filling::fill;
use hv_sets::{Cube, Literal, Scratch, StateSet};
use hv_task::State;
use std::alloc::{AllocError, Global};

/// The question whether some state of a set is in a cube.
#[derive(Drop)]
pub struct InsideAsk<'a, R: StateSet> {
    set: &'a R,
    literals: Vec<Literal>,
    cube: Cube,
}

impl<'a, R: StateSet> InsideAsk<'a, R> {
    /// The question with nothing assumed.
    pub fn new(alloc: Global, set: &'a R) -> InsideAsk<'a, R>
        ensures stands { ⟦<InsideAsk<'a, R> as Asker>⟧.stands result }
        ensures atoms { ⟦<InsideAsk<'a, R> as Asker>⟧.atoms result ≡ R.atoms set.now }
        ensures wanted { (s : List Bool)
            → ⟦<InsideAsk<'a, R> as Asker>⟧.wanted result s ≡ R.has set.now s }
        ensures first { ⟦<InsideAsk<'a, R> as Asker>⟧.assumed result ≡ [] }
    {
        InsideAsk {
            set,
            literals: Vec::new(alloc),
            cube: Cube::new(alloc),
        }
    }
}

impl<'a, R: StateSet> Asker for InsideAsk<'a, R> {
    ghost atoms = { λ q. R.atoms q.set.now };

    ghost wanted = { λ q. R.has q.set.now };

    ghost stands = { λ q. SpeakBelow (R.atoms q.set.now) q.literals.items };

    ghost assumed = { λ q. q.literals.items };

    ghost alive = { λ _. true };

    fn depth(&self) -> usize {
        self.literals.len()
    }

    fn is_open(&self) -> bool {
        true
    }

    fn assume(&mut self, literal: Literal) -> Result<(), AllocError> {
        self.literals.push(literal)?;
        Ok(())
    }

    fn take_back(&mut self, depth: usize) {
        self.literals.truncate(depth);
    }

    fn meets(&mut self, alloc: Global, scratch: &mut Scratch) -> Result<bool, AllocError> {
        if !fill(alloc, &mut self.cube, self.literals.as_slice())? {
            return Ok(false);
        }
        self.set.meets(alloc, &self.cube, scratch)
    }

    fn wants(&mut self, alloc: Global, held: &[u32], state: &State) -> Result<bool, AllocError> {
        let _ = alloc;
        let _ = held;
        Ok(self.set.holds(state))
    }
}

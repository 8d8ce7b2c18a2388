//! Space for the work of calls, so that the next one needs no new memory.

ghost use Rattle.std.specs.Prelude.{◌≡◌, ◌≤◌, [], IfOk, OnOk};
ghost use Rattle.std.specs.Vec.{vec_len};
ghost use Rattle.hv_sets.specs.Room.{HasRoom, KeepsLengths};

use hv_task::State;
use std::alloc::{AllocError, Global};

/// Space for the work of a call, so that the next call needs no new memory. A call that takes a
/// scratch says nothing of what is in it afterwards, but for the state that it names, and that
/// none of its four lengths fell.
#[derive(Drop)]
pub struct Scratch {
    /// A state of the task.
    pub state: State,
    /// Marks for atoms and literals.
    pub marks: Vec<u32>,
    /// Counters for clauses.
    pub counts: Vec<u32>,
    /// A queue of literals.
    pub queue: Vec<u32>,
    /// Choices for operands.
    pub choice: Vec<u32>,
}

impl Scratch {
    /// A scratch without room, whose state has no atoms.
    pub fn new(alloc: Global) -> Result<Scratch, AllocError>
        ensures { IfOk result (λ s. s.state ≡ []) }
    {
        Ok(Scratch {
            state: State::empty(alloc, 0)?,
            marks: Vec::new(alloc),
            counts: Vec::new(alloc),
            queue: Vec::new(alloc),
            choice: Vec::new(alloc),
        })
    }

    /// Makes space for a task with so many atoms, and for so many operands and clauses.
    pub fn reserve(&mut self, atoms: u32, operands: usize, clauses: usize) -> Result<(), AllocError>
        ensures room { OnOk result (HasRoom atoms operands clauses self.new) }
        ensures lengths { KeepsLengths self.old self.new }
    {
        let literals = 4 * atoms as usize;
        self.state.resize(atoms)?;
        grow(&mut self.marks, literals)?;
        grow(&mut self.counts, clauses)?;
        grow(&mut self.queue, literals)?;
        grow(&mut self.choice, operands)?;
        Ok(())
    }

    /// Its state.
    pub fn state(&self) -> &State
        ensures { result.now ≡ self.now.state }
    {
        &self.state
    }
}

fn grow(numbers: &mut Vec<u32>, len: usize) -> Result<(), AllocError>
    ensures len { OnOk result (len ≤ vec_len numbers.new) }
    ensures kept { vec_len numbers.old ≤ vec_len numbers.new }
{
    if numbers.len() < len {
        numbers.resize(len, 0)?;
    }
    Ok(())
}

//! Which sets the operands of a query name, by a flag for each set.
//!
//! A query asks this for each state that it finds in some set. The flags are made once for it, for
//! the side that it asks about most, where the states of which it asks are 16 times as many as its
//! operands, these are more than 4 or the states 1,024, and the flags are no more words than one of
//! the two; else the operands are looked up.

ghost use Rattle.std.specs.Prelude.{◌≡◌, ◌<◌, ◌⊎◌, ◌↔◌, ℕ, IsTrue, IfOk, length, false, true};
ghost use Rattle.hv_task.specs.State.{has_atom};
ghost use Rattle.hv_sets.specs.Names.{AsksAbout};
ghost use Rattle.hv_sets.specs.declared.operand.Which.TheVariants as W;
ghost use Rattle.hv_explicit.specs.Working.Owners.{AreFlagged};

use hv_sets::{Operand, Operands, Which};
use hv_task::State;
use std::alloc::{AllocError, Global};
use std::marker::Model;

/// To go through so many operands is no dearer than to look up the sets that list a state.
pub(crate) const FEW: usize = 4;

// So many states pay for flags of any operands.
const MANY: usize = 1024;

/// The operands of a query, with a flag for each set that they name on one side.
#[derive(Drop)]
pub(crate) struct NamedSets<'a> {
    operands: &'a Operands,
    // Whether the flags are of what is asked about after the action.
    after: bool,
    // There are none where they wouldn't pay.
    flags: State,
}

impl<'a> Model for NamedSets<'a> {
    ghost use Rattle.std.specs.Prelude.{List};
    ghost use Rattle.hv_sets.specs.declared.operand.Operand.{Operand};
    ghost use Rattle.hv_explicit.specs.Working.Owners.{AreFlagged};

    ghost Value = { List Operand };

    ghost view = { λ n. n.operands.now };

    ghost invariant = { λ n. AreFlagged n.operands.now n.after n.flags };
}

impl<'a> NamedSets<'a> {
    /// These operands, asked about so many states and about sets of a store that has so many; the
    /// flags are for those that are asked about after the action (true) or before it.
    pub(crate) fn new(
        alloc: Global,
        operands: &'a Operands,
        after: bool,
        states: usize,
        sets: usize,
    ) -> Result<NamedSets<'a>, AllocError>
        ensures { IfOk result (λ named. named ≡ operands.now) }
    {
        let mut flags = State::empty(alloc, flagged(operands.len(), states, sets))?;
        put_flags(&mut flags, operands.as_slice(), after);
        Ok(NamedSets {
            operands,
            after,
            flags,
        })
    }

    /// How many operands there are.
    pub(crate) fn len(&self) -> usize
        ensures { result ≡ length self.now }
    {
        self.operands.len()
    }

    /// Whether some operand is the set of this number, asked about after the action (true) or
    /// before it.
    pub(crate) fn names(&self, number: usize, after: bool) -> bool
        ensures { IsTrue result ↔ AsksAbout self.now (W.Set number) after }
    {
        if after == self.after && number < self.flags.atoms() as usize {
            return self.flags.has(number as u32);
        }
        self.operands.names(Which::Set(number), after)
    }
}

// For how many sets flags pay, where so many operands are asked about so many states.
fn flagged(operands: usize, states: usize, sets: usize) -> u32 {
    if operands == 0 || operands > states / 16 || (operands <= FEW && states < MANY) {
        return 0;
    }
    if sets / 64 > operands.max(states / MANY) || sets > u32::MAX as usize {
        return 0;
    }
    sets as u32
}

// Puts the flags of the sets that the operands name, where none is put.
fn put_flags(flags: &mut State, operands: &[Operand], after: bool)
    requires { (p : ℕ) → has_atom flags.old p ≡ false }
    ensures { AreFlagged operands.now after flags.new }
{
    if flags.atoms() == 0 {
        return;
    }
    for operand in operands {
        put_flag(flags, *operand, after);
    }
}

fn put_flag(flags: &mut State, operand: Operand, after: bool)
    ensures put { (p : ℕ) → operand.after ≡ after → operand.which ≡ W.Set p
        → p < length flags.old → has_atom flags.new p ≡ true }
    ensures kept { (p : ℕ) → has_atom flags.old p ≡ true → has_atom flags.new p ≡ true }
    ensures only { (p : ℕ) → has_atom flags.new p ≡ true
        → (has_atom flags.old p ≡ true) ⊎ ((operand.after ≡ after) × (operand.which ≡ W.Set p)) }
    ensures atoms { length flags.new ≡ length flags.old }
{
    match operand.which {
        Which::Set(number) if operand.after == after && number < flags.atoms() as usize => {
            flags.set(number as u32, true);
        }
        _ => {}
    }
}

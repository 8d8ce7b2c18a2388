//! Which actions can turn a literal of clauses, by a look at what each of them changes.

ghost use Rattle.std.specs.Prelude.{◌≡◌, ◌<◌, ◌⊎◌, ℕ, true, false, Some, length, slice_get};
ghost use Rattle.std.specs.Prelude.{IfOk, IsTrue, OnOk};
ghost use Rattle.std.specs.List.{All, Contains};
ghost use Rattle.hv_task.specs.Strips.{atoms};
ghost use Rattle.hv_task.specs.declared.action.Action.{Action};
ghost use Rattle.hv_basic.specs.Working.Flags.{flag_or_false};
ghost use Rattle.hv_basic.specs.Working.Framed.{AreFlagsFor, AreTurning, ChangesOne, HaveFlag};
ghost use Rattle.hv_basic.specs.Working.Framed.{IsFlagged};

use crate::picked::put;
use crate::turned::sign_to;
use hv_sets::{Clauses, Literal};
use hv_task::{Action, AtomList, AtomSet, Task};
use std::alloc::{AllocError, Global};

/// The first action and those that can make a literal of the clauses true, or false.
pub(crate) fn turning_by_look(
    alloc: Global,
    task: &Task,
    clauses: &Clauses,
    value: bool,
) -> Result<AtomList, AllocError>
    ensures { IfOk result (AreTurning task.now clauses.now value) }
{
    let added = flags_for(alloc, task.atoms(), clauses, value, true)?;
    let deleted = flags_for(alloc, task.atoms(), clauses, value, false)?;
    let mut found = AtomSet::new(alloc);
    put(0, task.actions(), &mut found)?;
    for number in 0..task.actions() {
        put_changing(task, number, &added, &deleted, &mut found)?;
    }
    let numbers = found.take(alloc)?;
    Ok(numbers)
}

/// Puts the action in, if it adds one of the atoms with a flag, or deletes one.
fn put_changing(
    task: &Task,
    number: u32,
    added: &[bool],
    deleted: &[bool],
    found: &mut AtomSet,
) -> Result<(), AllocError>
    requires { number < length task.now.actions }
    ensures kept { OnOk result ((k : ℕ) → Contains found.old k → Contains found.new k) }
    ensures has { OnOk result ((action : Action) → slice_get task.now.actions number ≡ Some action
        → ChangesOne added.now deleted.now action → Contains found.new number) }
    ensures below { OnOk result ((k : ℕ) → Contains found.new k
        → Contains found.old k ⊎ (k < length task.now.actions)) }
{
    if changes_one(task.action(number), added, deleted) {
        put(number, task.actions(), found)?;
    }
    Ok(())
}

/// Flags for the atoms at which a literal of the clauses becomes true, or false, where they are
/// added, or deleted.
fn flags_for(
    alloc: Global,
    atoms: u32,
    clauses: &Clauses,
    value: bool,
    adds: bool,
) -> Result<Vec<bool>, AllocError>
    ensures { IfOk result (λ flags. AreFlagsFor value adds atoms clauses.now flags.items) }
{
    let mut flags = vec![in alloc; false; atoms as usize]?;
    for place in 0..clauses.len() {
        flag_clause(clauses.get(place), value, adds, &mut flags);
    }
    Ok(flags)
}

/// Sets the flags of the atoms at which a literal of the clause becomes true, or false.
fn flag_clause(clause: &[Literal], value: bool, adds: bool, flags: &mut Vec<bool>)
    ensures size { length flags.new.items ≡ length flags.old.items }
    ensures kept { (atom : ℕ) → flag_or_false flags.old.items atom ≡ true
        → flag_or_false flags.new.items atom ≡ true }
    ensures has { All (IsFlagged value adds flags.new.items) clause.now }
{
    for literal in clause {
        if sign_to(value, literal.positive) == adds {
            set_flag(flags, literal.atom);
        }
    }
}

/// Sets the flag of the atom, if it has one.
pub(crate) fn set_flag(flags: &mut Vec<bool>, atom: u32)
    ensures size { length flags.new.items ≡ length flags.old.items }
    ensures kept { (other : ℕ) → flag_or_false flags.old.items other ≡ true
        → flag_or_false flags.new.items other ≡ true }
    ensures has { atom < length flags.old.items → flag_or_false flags.new.items atom ≡ true }
    ensures only { (other : ℕ) → flag_or_false flags.new.items other ≡ true
        → (flag_or_false flags.old.items other ≡ true) ⊎ (other ≡ atom) }
{
    let place = atom as usize;
    if place < flags.len() {
        flags[place] = true;
    }
}

/// Whether the action adds one of the atoms with a flag, or deletes one.
fn changes_one(action: &Action, added: &[bool], deleted: &[bool]) -> bool
    ensures { ChangesOne added.now deleted.now action.now → IsTrue result }
{
    has_flag(added, action.add.as_slice()) || has_flag(deleted, action.del.as_slice())
}

/// Whether one of the atoms has a flag.
fn has_flag(flags: &[bool], atoms: &[u32]) -> bool
    ensures { HaveFlag flags.now atoms.now → IsTrue result }
{
    for atom in atoms {
        if flag_at(flags, *atom as usize) {
            return true;
        }
    }
    false
}

/// The flag of the atom, if it has one.
pub(crate) fn flag_at(flags: &[bool], atom: usize) -> bool
    ensures { result ≡ flag_or_false flags.now atom }
{
    match flags.get(atom) {
        Some(flag) => *flag,
        None => false,
    }
}

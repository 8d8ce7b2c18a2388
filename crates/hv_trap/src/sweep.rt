//! Sweeps over the actions, in which most of what can't be in a trap is taken out.
//!
//! A clause that an action turns gives a state from which it may lead in (`implications`). That
//! state is written down and tried on all clauses before any is marked. A visit looks for one state
//! after another by the same rows, with what each marked taken out of what follows by one clause;
//! then what is marked is taken out. A visit that took something out is followed by another, with
//! rows made anew; later an action is visited again only where something else follows from a
//! literal that its visit reads: whenever clauses were taken out, the rows before and after are
//! compared, and the literals whose rows differ count for this sweep and the next. What would be
//! missed is found by the queries, so nothing of this is proved.

ghost use Rattle.std.specs.Prelude.{◌≡◌, ◌<◌, ◌≤◌, true, false, List, IfOk, OnOk, length};
ghost use Rattle.hv_task.specs.Strips.{IsState, atoms};
ghost use Rattle.hv_sets.specs.declared.literal.Literal.{Literal};
ghost use Rattle.hv_trap.specs.Working.Marks.{AreMarkedLeft};
ghost use Rattle.hv_trap.specs.Working.Quick.{ArePairs};
ghost use Rattle.hv_trap.specs.Working.Room.{HasStates};
ghost use Rattle.hv_trap.specs.Working.Trap.{EncloseTrap, Escapes};

use crate::clause_marks::{leave_all, left_of};
use crate::implications::Implications;
use crate::literal_mask::{Mask, has_bit};
use crate::literal_table::LiteralTable;
use crate::quick::QuickClauses;
use hv_sets::Clauses;
use hv_task::{State, Task};
use std::alloc::{AllocError, Global};

/// What follows by the clauses that are left, from which literals that changed in the last sweep
/// and in this one, which clauses are left in a visit, and space for two states.
#[derive(Drop)]
pub(crate) struct SweepState {
    // As the last visit began.
    rows: Implications,
    // By one clause that is left.
    next: LiteralTable,
    // The clauses, and which of them are left, in a visit.
    quick: QuickClauses,
    left: Vec<bool>,
    earlier: Mask,
    changed: Mask,
    before: State,
    after: State,
}

/// Takes out clauses that deny conjunctions from which an action leads to a state in which all are
/// true, as far as that is seen by what follows from which literals.
pub(crate) fn take_out(alloc: Global, task: &Task, clauses: &mut Clauses) -> Result<(), AllocError>
    requires few { atoms task.now ≤ 64 }
    requires clauses { EncloseTrap task.now clauses.old }
    ensures { OnOk result (EncloseTrap task.now clauses.new) }
{
    let rows = Implications::of(clauses);
    let mut room = SweepState {
        rows,
        next: rows.next,
        quick: QuickClauses::new(alloc),
        left: Vec::new(alloc),
        earlier: Mask::all(),
        changed: Mask::none(),
        before: State::empty(alloc, task.atoms())?,
        after: State::empty(alloc, task.atoms())?,
    };
    while sweep(alloc, task, &mut room, clauses)? {}
    Ok(())
}

// Visits each action of which something else can be seen than when it was visited last. The answer
// is whether a clause was taken out.
fn sweep(
    alloc: Global,
    task: &Task,
    room: &mut SweepState,
    clauses: &mut Clauses,
) -> Result<bool, AllocError>
    requires few { atoms task.now ≤ 64 }
    requires room { HasStates task.now room.old }
    requires clauses { EncloseTrap task.now clauses.old }
    ensures room { OnOk result (HasStates task.now room.new) }
    ensures enclose { OnOk result (EncloseTrap task.now clauses.new) }
    ensures fewer { IfOk result (λ moved. moved ≡ true → length clauses.new < length clauses.old) }
{
    let mut moved = false;
    for action in 0..task.actions() {
        if has_news(task, room, action) {
            moved |= exhaust(alloc, task, room, action, clauses)?;
        }
    }
    room.earlier = room.changed;
    room.changed = Mask::none();
    Ok(moved)
}

// Whether something else can be seen of the action than when it was visited last.
fn has_news(task: &Task, room: &SweepState, action: u32) -> bool
    requires few { atoms task.now ≤ 64 }
    requires action { action < length task.now.actions }
{
    let news = room.earlier.joined(room.changed);
    room.rows.concerns(task.action(action), news)
}

// Visits the action until nothing is taken out. The answer is whether a clause was.
fn exhaust(
    alloc: Global,
    task: &Task,
    room: &mut SweepState,
    action: u32,
    clauses: &mut Clauses,
) -> Result<bool, AllocError>
    requires few { atoms task.now ≤ 64 }
    requires action { action < length task.now.actions }
    requires room { HasStates task.now room.old }
    requires clauses { EncloseTrap task.now clauses.old }
    ensures room { OnOk result (HasStates task.now room.new) }
    ensures enclose { OnOk result (EncloseTrap task.now clauses.new) }
    ensures shrinks { OnOk result (length clauses.new ≤ length clauses.old) }
    ensures fewer { IfOk result (λ found. found ≡ true → length clauses.new < length clauses.old) }
{
    let mut found = false;
    while visit(alloc, task, room, action, clauses)? {
        let rows = Implications::by(room.next);
        room.changed = room.changed.joined(rows.changed(&room.rows));
        room.rows = rows;
        found = true;
    }
    Ok(found)
}

// Takes out the clauses that are false in states from which the action leads to one in which all
// are true, as far as such states are seen by the rows. The answer is whether a clause is taken
// out.
fn visit(
    alloc: Global,
    task: &Task,
    room: &mut SweepState,
    action: u32,
    clauses: &mut Clauses,
) -> Result<bool, AllocError>
    requires few { atoms task.now ≤ 64 }
    requires action { action < length task.now.actions }
    requires room { HasStates task.now room.old }
    requires clauses { EncloseTrap task.now clauses.old }
    ensures room { OnOk result (HasStates task.now room.new) }
    ensures enclose { OnOk result (EncloseTrap task.now clauses.new) }
    ensures shrinks { OnOk result (length clauses.new ≤ length clauses.old) }
    ensures fewer { IfOk result (λ found. found ≡ true → length clauses.new < length clauses.old) }
{
    if room.rows.lacked(&room.next, task.action(action)).is_none() {
        return Ok(false);
    }
    let short = room.quick.set(clauses)?;
    if !short {
        return Ok(false);
    }
    leave_all(&mut room.left, clauses.len())?;
    if !mark_all(task, room, action) {
        return Ok(false);
    }
    let kept = left_of(alloc, clauses, &room.left)?;
    let fewer = kept.len() < clauses.len();
    *clauses = kept;
    Ok(fewer)
}

// Marks the clauses that are false in such states, one state after another. The answer is whether
// there is one.
fn mark_all(task: &Task, room: &mut SweepState, action: u32) -> bool
    requires few { atoms task.now ≤ 64 }
    requires action { action < length task.now.actions }
    requires room { HasStates task.now room.old }
    requires marks { length room.old.left.items ≡ length room.old.quick.pairs.items }
    ensures room { HasStates task.now room.new }
    ensures left { (clauses : List (List Literal)) → EncloseTrap task.now clauses
        → ArePairs (atoms task.now) clauses room.old.quick.pairs.items
        → AreMarkedLeft task.now clauses room.old.left.items
        → AreMarkedLeft task.now clauses room.new.left.items }
{
    let mut found = false;
    for _ in 0..room.left.len() {
        if !mark(task, room, action) {
            return found;
        }
        found = true;
    }
    found
}

// Marks the clauses that are false in such a state, if one is seen. The answer is whether one is.
fn mark(task: &Task, room: &mut SweepState, action: u32) -> bool
    requires few { atoms task.now ≤ 64 }
    requires action { action < length task.now.actions }
    requires room { HasStates task.now room.old }
    requires marks { length room.old.left.items ≡ length room.old.quick.pairs.items }
    ensures room { HasStates task.now room.new }
    ensures pairs { room.new.quick.pairs.items ≡ room.old.quick.pairs.items }
    ensures marks { length room.new.left.items ≡ length room.new.quick.pairs.items }
    ensures left { (clauses : List (List Literal)) → EncloseTrap task.now clauses
        → ArePairs (atoms task.now) clauses room.old.quick.pairs.items
        → AreMarkedLeft task.now clauses room.old.left.items
        → AreMarkedLeft task.now clauses room.new.left.items }
{
    let Some(lacked) = room.rows.lacked(&room.next, task.action(action)) else {
        return false;
    };
    hold_others(&mut room.before, lacked);
    if !escapes(task, room, action) {
        return false;
    }
    room.quick.mark_false(&mut room.left, &room.before);
    room.next.keep(Mask {
        holds: !lacked,
        denies: lacked,
    });
    true
}

// Makes it the state that lacks these atoms alone.
fn hold_others(state: &mut State, lacked: u64)
    requires { length state.old ≤ 64 }
    ensures { length state.new ≡ length state.old }
{
    for atom in 0..state.atoms() {
        state.set(atom, !has_bit(lacked, atom));
    }
}

// Whether a clause is false in the first state, and the action leads from it to one in which all
// are true.
fn escapes(task: &Task, room: &mut SweepState, action: u32) -> bool
    requires few { atoms task.now ≤ 64 }
    requires action { action < length task.now.actions }
    requires room { HasStates task.now room.old }
    ensures escapes { result ≡ true → (clauses : List (List Literal))
        → ArePairs (atoms task.now) clauses room.old.quick.pairs.items
        → Escapes task.now clauses action room.old.before }
    ensures before { room.new.before ≡ room.old.before }
    ensures room { HasStates task.now room.new }
    ensures pairs { room.new.quick.pairs.items ≡ room.old.quick.pairs.items }
    ensures left { room.new.left.items ≡ room.old.left.items }
{
    if room.quick.are_true_in(&room.before) {
        return false;
    }
    if !task.applicable(action, &room.before) {
        return false;
    }
    task.after(action, &room.before, &mut room.after);
    room.quick.are_true_in(&room.after)
}

//! Which actions can lead into a formula of exclusions, or out of it. An action that leads out of
//! it makes the atoms of some clause all have the value, so it turns one of them; and the other one
//! has the value too, afterwards. That one didn't have it before, if it isn't a companion of each
//! atom of which the value is known.

ghost use Rattle.std.specs.Prelude.{◌≡◌, ◌⊎◌, ◌<◌, ◌&&◌, ℕ, Some, false, length, not, slice_get};
ghost use Rattle.std.specs.Prelude.{IfOk, IfSome, IsTrue, OnOk, true};
ghost use Rattle.std.specs.List.{All, Contains};
ghost use Rattle.hv_task.specs.State.{AreBelow, has_atom, put_all};
ghost use Rattle.hv_task.specs.Strips.{IsOver, atoms};
ghost use Rattle.hv_task.specs.declared.action.Action.{Action};
ghost use Rattle.hv_basic.specs.Working.Excluded.{AreAbleAt, AreCompanions, AreLeading, AreSquare};
ghost use Rattle.hv_basic.specs.Working.Excluded.{IsFixed, KeepsFormula, fixed_first, fixed_later};
ghost use Rattle.hv_basic.specs.Working.Excluded.{goes_with, turned_atoms};

use crate::change_rows::changed_to;
use crate::companions::{Companions, companions_of, excluded_value};
use crate::picked::put;
use crate::turned::sign_to;
use hv_sets::Clauses;
use hv_task::{Action, AtomList, AtomSet, State, Task};
use std::alloc::{AllocError, Global};

/// The first action and those that can lead out of the formula, or into it, if it is one of
/// exclusions, and to make the companions is little beside a look at so many actions (many).
pub(crate) fn leading(
    alloc: Global,
    task: &Task,
    clauses: &Clauses,
    into: bool,
    many: usize,
) -> Result<Option<AtomList>, AllocError>
    ensures { IfOk result (λ found. IfSome found (AreLeading task.now clauses.now into)) }
{
    if !are_worth_companions(task.atoms(), clauses, many) {
        return Ok(None);
    }
    let Some(value) = excluded_value(task.atoms(), clauses) else {
        return Ok(None);
    };
    let companions = companions_of(alloc, task.atoms(), value, clauses)?;
    let numbers = leading_by(alloc, task, clauses, &companions, into)?;
    Ok(Some(numbers))
}

/// Whether the clauses are many beside the atoms and the words of the companions, and few beside
/// the actions that may turn a literal of the formula.
fn are_worth_companions(atoms: u32, clauses: &Clauses, many: usize) -> bool {
    let atoms = atoms as usize;
    let words = atoms / 64 + 1;
    clauses.len() / 2 >= atoms && clauses.len() / words >= atoms / 2 && clauses.len() / 32 <= many
}

/// The first action and those that can lead out of the formula, or into it.
fn leading_by(
    alloc: Global,
    task: &Task,
    clauses: &Clauses,
    companions: &Companions,
    into: bool,
) -> Result<AtomList, AllocError>
    requires { AreCompanions (atoms task.now) clauses.now companions.now }
    ensures { IfOk result (AreLeading task.now clauses.now into) }
{
    let mut able = State::empty(alloc, task.atoms())?;
    let mut found = AtomSet::new(alloc);
    put(0, task.actions(), &mut found)?;
    for number in 0..task.actions() {
        put_leading(
            task, clauses, number, companions, into, &mut able, &mut found,
        )?;
    }
    let numbers = found.take(alloc)?;
    Ok(numbers)
}

/// Puts the action in, but for some that keep the formula.
fn put_leading(
    task: &Task,
    clauses: &Clauses,
    number: u32,
    companions: &Companions,
    into: bool,
    able: &mut State,
    found: &mut AtomSet,
) -> Result<(), AllocError>
    requires number { number < length task.now.actions }
    requires companions { AreCompanions (atoms task.now) clauses.now companions.now }
    requires able { length able.old ≡ atoms task.now }
    ensures able { length able.new ≡ length able.old }
    ensures kept { OnOk result ((k : ℕ) → Contains found.old k → Contains found.new k) }
    ensures each { OnOk result ((action : Action) → slice_get task.now.actions number ≡ Some action
        → KeepsFormula (atoms task.now) clauses.now into action ⊎ Contains found.new number) }
    ensures below { OnOk result ((k : ℕ) → Contains found.new k
        → Contains found.old k ⊎ (k < length task.now.actions)) }
{
    if can_lead(clauses, task.action(number), companions, into, able) {
        put(number, task.actions(), found)?;
    }
    Ok(())
}

/// Whether the action may make the atoms of a clause all have the value.
fn can_lead(
    clauses: &Clauses,
    action: &Action,
    companions: &Companions,
    into: bool,
    able: &mut State,
) -> bool
    requires over { IsOver (length companions.now.all) action.now }
    requires companions { AreCompanions (length companions.now.all) clauses.now companions.now }
    requires able { length able.old ≡ length companions.now.all }
    ensures able { length able.new ≡ length able.old }
    ensures keeps { result ≡ false
        → KeepsFormula (length companions.now.all) clauses.now into action.now }
{
    let turned = turned_atoms(action, companions.value, into);
    if turned.is_empty() {
        return false;
    }
    able.copy_from(&companions.all);
    keep_companions(clauses, action, companions, into, able);
    if lacks_known(clauses, action, companions.value, into, able) {
        return false;
    }
    able_later(clauses, action, companions.value, into, able);
    has_stranger(turned, &companions.rows, able)
}

/// The atoms that can get the value between the two times.
fn turned_atoms(action: &Action, value: bool, into: bool) -> &[u32]
    ensures { result.now ≡ turned_atoms value into action.now }
{
    changed_to(action, sign_to(into, !value))
}

/// Keeps the companions of each atom that has the value at first.
fn keep_companions(
    clauses: &Clauses,
    action: &Action,
    companions: &Companions,
    into: bool,
    able: &mut State,
)
    requires over { IsOver (length companions.now.all) action.now }
    requires companions { AreCompanions (length companions.now.all) clauses.now companions.now }
    requires size { length able.old ≡ length companions.now.all }
    requires able { AreAbleAt (length companions.now.all) clauses.now companions.now.value into into
        action.now able.old }
    ensures size { length able.new ≡ length companions.now.all }
    ensures able { AreAbleAt (length companions.now.all) clauses.now companions.now.value into into
        action.now able.new }
{
    for atom in fixed_first(action, companions.value, into) {
        keep_beside(clauses, action, companions, *atom, into, able);
    }
}

/// Keeps the companions of this atom, if it has the value at first.
fn keep_beside(
    clauses: &Clauses,
    action: &Action,
    companions: &Companions,
    atom: u32,
    into: bool,
    able: &mut State,
)
    requires companions { AreCompanions (length companions.now.all) clauses.now companions.now }
    requires atom { Contains (fixed_first companions.now.value into action.now) atom }
    requires below { atom < length companions.now.all }
    requires size { length able.old ≡ length companions.now.all }
    requires able { AreAbleAt (length companions.now.all) clauses.now companions.now.value into into
        action.now able.old }
    ensures size { length able.new ≡ length companions.now.all }
    ensures able { AreAbleAt (length companions.now.all) clauses.now companions.now.value into into
        action.now able.new }
{
    if is_fixed(action, atom, companions.value, into) {
        meet_row(&companions.rows, atom, able);
    }
}

/// Keeps what is in the row of the atom.
fn meet_row(rows: &[State], atom: u32, able: &mut State)
    requires square { AreSquare rows.now }
    requires atom { atom < length rows.now }
    requires size { length able.old ≡ length rows.now }
    ensures size { length able.new ≡ length able.old }
    ensures met { (p : ℕ)
        → has_atom able.new p ≡ (has_atom able.old p && goes_with rows.now atom p) }
{
    able.meet(&rows[atom as usize]);
}

/// Whether an atom that has the value at first isn't among these.
fn lacks_known(clauses: &Clauses, action: &Action, value: bool, into: bool, able: &State) -> bool
    requires { IsOver (length able.now) action.now }
    ensures { IsTrue result
        → AreAbleAt (length able.now) clauses.now value into into action.now able.now
        → KeepsFormula (length able.now) clauses.now into action.now }
{
    for atom in fixed_first(action, value, into) {
        if is_missing(action, *atom, value, into, able) {
            return true;
        }
    }
    false
}

/// Whether the atom has the value at first and isn't among these.
fn is_missing(action: &Action, atom: u32, value: bool, into: bool, able: &State) -> bool
    requires { atom < length able.now }
    ensures fixed { IsTrue result → IsFixed value into action.now atom }
    ensures missing { IsTrue result → has_atom able.now atom ≡ false }
{
    is_fixed(action, atom, value, into) && !able.has(atom)
}

/// The atoms that have the value at first, but for those that are deleted and added.
fn fixed_first(action: &Action, value: bool, into: bool) -> &[u32]
    ensures { result.now ≡ fixed_first value into action.now }
{
    if into {
        changed_to(action, value)
    } else if value {
        action.pre.as_slice()
    } else {
        &[]
    }
}

/// Whether the atom has the value at first: it isn't added, where that is deleted.
fn is_fixed(action: &Action, atom: u32, value: bool, into: bool) -> bool
    ensures { IsTrue result → IsFixed value into action.now atom }
{
    value || !into || !action.add.has(atom)
}

/// Takes out of these atoms those that don't have the value later, and puts in those that can
/// have got it.
fn able_later(clauses: &Clauses, action: &Action, value: bool, into: bool, able: &mut State)
    requires { IsOver (length able.old) action.now }
    ensures size { length able.new ≡ length able.old }
    ensures able { AreAbleAt (length able.old) clauses.now value into into action.now able.old
        → AreAbleAt (length able.old) clauses.now value into (not into) action.now able.new }
{
    put_atoms(able, fixed_later(action, value, into), false);
    put_atoms(able, turned_atoms(action, value, into), true);
}

/// The atoms that don't have the value later, but for those that are deleted and added.
fn fixed_later(action: &Action, value: bool, into: bool) -> &[u32]
    ensures { result.now ≡ fixed_later value into action.now }
{
    if !into {
        changed_to(action, !value)
    } else if value {
        &[]
    } else {
        action.pre.as_slice()
    }
}

/// Puts the atoms in (true) or takes them out (false).
fn put_atoms(able: &mut State, atoms: &[u32], value: bool)
    requires { AreBelow (length able.old) atoms.now }
    ensures { able.new ≡ put_all value atoms.now able.old }
{
    for atom in atoms {
        able.set(*atom, value);
    }
}

/// Whether one of the other atoms isn't in the row of one of these.
fn has_stranger(turned: &[u32], rows: &[State], able: &State) -> bool
    requires below { AreBelow (length rows.now) turned.now }
    requires size { All (λ row. length able.now ≡ length row) rows.now }
    ensures { result ≡ false → (p q : ℕ) → Contains turned.now p → has_atom able.now q ≡ true
        → goes_with rows.now p q ≡ true }
{
    for atom in turned {
        if able.next_outside(&rows[*atom as usize], 0).is_some() {
            return true;
        }
    }
    false
}

//! Tasks for the tests, and their states.

ghost use Rattle.std.specs.Prelude.{◌≡◌, ◌<◌, ◌≤◌, ◌+◌, IfOk, OnOk};
ghost use Rattle.hv_task.specs.State.{AreBelow};
ghost use Rattle.hv_task.specs.Strips.{IsOver, IsState, atoms};

use hv_task::{Action, AtomList, Name, State, Task};
use std::alloc::{AllocError, Global};

/// What an action asks for, adds and deletes.
pub(crate) type Change = (&'static [u32], &'static [u32], &'static [u32]);

/// From each of two places to the other.
pub(crate) const WAYS: &[Change] = &[(&[0], &[1], &[0]), (&[1], &[0], &[1])];

/// Three actions that each take away what the next one adds.
pub(crate) const THREE: &[Change] = &[(&[], &[0], &[1]), (&[], &[1], &[2]), (&[], &[2], &[0])];

// Puts the atom in where it is below the bound.
fn put(list: &mut AtomList, bound: u32, atom: u32) -> Result<(), AllocError>
    requires { AreBelow bound list.old }
    ensures { OnOk result (AreBelow bound list.new) }
{
    if atom >= bound {
        return Ok(());
    }
    list.insert(atom)?;
    Ok(())
}

// Those of the atoms that are below the bound.
fn list_of(alloc: Global, bound: u32, atoms: &[u32]) -> Result<AtomList, AllocError>
    ensures { IfOk result (λ list. AreBelow bound list) }
{
    let mut list = AtomList::new(alloc);
    for atom in atoms {
        put(&mut list, bound, *atom)?;
    }
    Ok(list)
}

// An action that asks for these atoms, adds and deletes these.
fn action_of(
    alloc: Global,
    bound: u32,
    pre: &[u32],
    add: &[u32],
    del: &[u32],
) -> Result<Action, AllocError>
    ensures { IfOk result (λ action. IsOver bound action) }
{
    Ok(Action {
        name: Name::new(alloc, b"go")?,
        cost: 1,
        pre: list_of(alloc, bound, pre)?,
        add: list_of(alloc, bound, add)?,
        del: list_of(alloc, bound, del)?,
    })
}

/// Puts an action last, where there are fewer than a thousand. Of the atoms those count that the
/// task has.
pub(crate) fn add(
    alloc: Global,
    task: &mut Task,
    pre: &[u32],
    add: &[u32],
    del: &[u32],
) -> Result<(), AllocError>
    ensures { atoms task.new ≡ atoms task.old }
{
    if task.actions() >= 1000 {
        return Ok(());
    }
    let action = action_of(alloc, task.atoms(), pre, add, del)?;
    task.add_action(action)?;
    Ok(())
}

// Puts an atom last.
fn put_atom(alloc: Global, task: &mut Task) -> Result<(), AllocError>
    requires { atoms task.old < 2000 }
    ensures { OnOk result (atoms task.new ≡ atoms task.old + 1) }
{
    let name = Name::new(alloc, b"p")?;
    task.add_atom(name)?;
    Ok(())
}

// So many atoms, and nothing else.
fn bare(alloc: Global, count: u32) -> Result<Task, AllocError>
    requires { count ≤ 2000 }
    ensures { IfOk result (λ task. atoms task ≡ count) }
{
    let mut task = Task::new(alloc);
    for number in 0..count {
        let _ = number;
        put_atom(alloc, &mut task)?;
    }
    Ok(task)
}

/// A task of so many atoms without actions.
pub(crate) fn task_of(
    alloc: Global,
    count: u32,
    start: &[u32],
    goal: &[u32],
) -> Result<Task, AllocError>
    requires { count ≤ 2000 }
    ensures { IfOk result (λ task. atoms task ≡ count) }
{
    let mut task = bare(alloc, count)?;
    task.set_start(list_of(alloc, count, start)?);
    task.set_goal(list_of(alloc, count, goal)?);
    Ok(task)
}

/// A task of so many atoms with these actions.
pub(crate) fn task_with(
    alloc: Global,
    count: u32,
    start: &[u32],
    goal: &[u32],
    changes: &[Change],
) -> Result<Task, AllocError>
    requires { count ≤ 2000 }
    ensures { IfOk result (λ task. atoms task ≡ count) }
{
    let mut task = task_of(alloc, count, start, goal)?;
    for change in changes {
        add(alloc, &mut task, change.0, change.1, change.2)?;
    }
    Ok(task)
}

/// A robot that goes between two places, and a key that it can't get, which is the goal.
pub(crate) fn robot(alloc: Global) -> Result<Task, AllocError>
    ensures { IfOk result (λ task. atoms task ≡ 3) }
{
    task_with(alloc, 3, &[0], &[2], WAYS)
}

/// Two atoms, of which each comes in place of the other; the goal is to have both.
pub(crate) fn either(alloc: Global) -> Result<Task, AllocError>
    ensures { IfOk result (λ task. atoms task ≡ 2) }
{
    task_with(alloc, 2, &[0], &[0, 1], WAYS)
}

/// The state of the task that holds those of these atoms that it has.
pub(crate) fn holding(alloc: Global, task: &Task, atoms: &[u32]) -> Result<State, AllocError>
    ensures { IfOk result (IsState task.now) }
{
    let mut state = State::empty(alloc, task.atoms())?;
    for atom in atoms {
        if *atom < state.atoms() {
            state.set(*atom, true);
        }
    }
    Ok(state)
}

//! Tests of lists of atoms, states, results of actions and plans.

ghost use Rattle.std.specs.Prelude.{ℕ, ◌<◌, ◌≡◌, ◌+◌, length, IfOk, OnOk};
ghost use Rattle.hv_task.specs.State.{AreBelow};
ghost use Rattle.hv_task.specs.Strips.{IsOver, atoms};

use hv_task::{Action, After, AtomList, Atoms, Hint, Name, State, Task};
use std::alloc::{AllocError, Global};

// The list of this atom.
fn list_of(alloc: Global, atom: u32) -> Result<AtomList, AllocError>
    ensures { IfOk result (λ list. (bound : ℕ) → atom < bound → AreBelow bound list) }
{
    let mut list = AtomList::new(alloc);
    list.insert(atom)?;
    Ok(list)
}

// An action without atoms.
fn empty_action(alloc: Global) -> Result<Action, AllocError> {
    Ok(Action {
        name: Name::new(alloc, b"go")?,
        cost: 1,
        pre: AtomList::new(alloc),
        add: AtomList::new(alloc),
        del: AtomList::new(alloc),
    })
}

// Gives the action its lists, of one atom each.
fn set_lists(
    alloc: Global,
    action: &mut Action,
    pre: u32,
    add: u32,
    del: u32,
) -> Result<(), AllocError>
    ensures { OnOk result ((bound : ℕ) → pre < bound → add < bound → del < bound
        → IsOver bound action.new) }
{
    action.pre = list_of(alloc, pre)?;
    action.add = list_of(alloc, add)?;
    action.del = list_of(alloc, del)?;
    Ok(())
}

// From the one atom to another, with the third deleted.
fn going(alloc: Global, pre: u32, add: u32, del: u32) -> Result<Action, AllocError>
    ensures { IfOk result (λ action. (bound : ℕ) → pre < bound → add < bound → del < bound
        → IsOver bound action) }
{
    let mut action = empty_action(alloc)?;
    set_lists(alloc, &mut action, pre, add, del)?;
    Ok(action)
}

// Puts such an action last.
fn add_action_of(
    task: &mut Task,
    alloc: Global,
    pre: u32,
    add: u32,
    del: u32,
) -> Result<(), AllocError>
    requires pre { pre < atoms task.old }
    requires add { add < atoms task.old }
    requires del { del < atoms task.old }
    requires room { length task.old.actions < 1000 }
    ensures atoms { atoms task.new ≡ atoms task.old }
    ensures actions { OnOk result (length task.new.actions ≡ length task.old.actions + 1) }
{
    let action = going(alloc, pre, add, del)?;
    let _number = task.add_action(action)?;
    Ok(())
}

// The list of these atoms.
fn atoms_of(alloc: Global, atoms: &[u32]) -> Result<AtomList, AllocError> {
    let mut list = AtomList::new(alloc);
    for atom in atoms {
        list.insert(*atom)?;
    }
    Ok(list)
}

// Whether these are the list's atoms, in this order.
fn lists(list: &AtomList, atoms: &[u32]) -> bool {
    let mut right = list.len() == atoms.len();
    for (place, atom) in atoms.iter().enumerate() {
        right &= place < list.len() && list.get(place) == *atom;
    }
    right
}

// Whether a list of seven atoms, of which one comes twice, rises and has just these.
fn rises(alloc: Global) -> Result<bool, AllocError> {
    let list = atoms_of(alloc, &[2, 5, 2, 9, 0, 5, 7])?;
    Ok(lists(&list, &[0, 2, 5, 7, 9]) & list.has(9) & !list.has(3))
}

#[test]
fn a_list_rises_without_repeats(rt: HostRuntime) {
    assert!(rt; rises(rt.alloc()) == Ok(true));
}

// Whether a state with an atom put in is told apart from another one until it is copied.
fn are_compared(alloc: Global) -> Result<bool, AllocError> {
    let mut first = State::empty(alloc, 3)?;
    let mut second = State::empty(alloc, 3)?;
    first.set(1, true);
    let apart = first.has(1) & !first.has(2) & !first.same(&second);
    second.copy_from(&first);
    Ok(apart & first.same(&second))
}

#[test]
fn states_compare_by_their_atoms(rt: HostRuntime) {
    assert!(rt; are_compared(rt.alloc()) == Ok(true));
}

// Whether the empty state keeps its first and its last atom, and those on both sides of where its
// second word begins.
fn keeps(state: &mut State, hint: &mut Hint) -> bool
    requires { length state.old ≡ 130 }
    ensures { length state.new ≡ 130 }
{
    state.set(0, true);
    state.set(63, true);
    state.set(64, true);
    state.set(129, true);
    (state.words() == [0x8000_0000_0000_0001, 1, 2].as_slice())
        & (state.next(1, hint) == Some(63))
        & (state.next(65, hint) == Some(129))
}

// Whether the state then loses the atoms that it has no space for.
fn loses(state: &mut State, hint: &mut Hint) -> Result<bool, AllocError> {
    state.resize(64)?;
    state.resize(130)?;
    let right = state.words() == [0x8000_0000_0000_0001, 0, 0].as_slice();
    Ok(right & state.next(64, hint).is_none())
}

// The same of a new state.
fn keeps_and_loses(alloc: Global) -> Result<bool, AllocError> {
    let mut state = State::empty(alloc, 130)?;
    let mut hint = Hint::default();
    let right = keeps(&mut state, &mut hint);
    Ok(right & loses(&mut state, &mut hint)?)
}

#[test]
fn a_word_keeps_64_atoms(rt: HostRuntime) {
    assert!(rt; keeps_and_loses(rt.alloc()) == Ok(true));
}

// Puts atom 5 to those that the action adds, and the atoms 0 and 7 to those that it deletes.
fn put_exchange(action: &mut Action) -> Result<(), AllocError> {
    action.add.insert(5)?;
    action.del.insert(0)?;
    action.del.insert(7)
}

// The action that adds and deletes these.
fn exchange(alloc: Global) -> Result<Action, AllocError> {
    let mut action = empty_action(alloc)?;
    put_exchange(&mut action)?;
    Ok(action)
}

// Whether the atoms after the action are found from the atoms 0, 2 and 7 before it.
fn is_read(alloc: Global, action: &Action) -> Result<bool, AllocError> {
    let held = atoms_of(alloc, &[0, 2, 7])?;
    let after = After {
        held: held.as_slice(),
        action,
    };
    let mut hint = Hint::default();
    let mut right = after.next(0, &mut hint) == Some(2);
    right &= after.next(3, &mut hint) == Some(5);
    right &= after.next(6, &mut hint).is_none();
    Ok(right & held.has_all(&[7, 0]) & !held.has_all(&[0, 5]))
}

// The same of that action.
fn exchange_is_read(alloc: Global) -> Result<bool, AllocError> {
    let action = exchange(alloc)?;
    is_read(alloc, &action)
}

#[test]
fn the_result_of_an_action_is_read_without_being_built(rt: HostRuntime) {
    assert!(rt; exchange_is_read(rt.alloc()) == Ok(true));
}

// Puts an atom of this name last.
fn put_atom(alloc: Global, task: &mut Task, name: &[u8]) -> Result<(), AllocError>
    requires { atoms task.old < 10 }
    ensures atoms { OnOk result (atoms task.new ≡ atoms task.old + 1) }
    ensures actions { OnOk result (task.new.actions ≡ task.old.actions) }
{
    let name = Name::new(alloc, name)?;
    let _number = task.add_atom(name)?;
    Ok(())
}

// Sets the initial state and the goal, an atom each.
fn set_ends(alloc: Global, task: &mut Task, start: u32, goal: u32) -> Result<(), AllocError>
    requires start { start < atoms task.old }
    requires goal { goal < atoms task.old }
    ensures atoms { atoms task.new ≡ atoms task.old }
    ensures actions { task.new.actions ≡ task.old.actions }
{
    task.set_start(list_of(alloc, start)?);
    task.set_goal(list_of(alloc, goal)?);
    Ok(())
}

// A robot goes between two places, and is wanted at the second one.
fn put_next_door(alloc: Global, task: &mut Task) -> Result<(), AllocError>
    requires atoms { atoms task.old ≡ 0 }
    requires actions { length task.old.actions ≡ 0 }
    ensures atoms { OnOk result (atoms task.new ≡ 3) }
    ensures actions { OnOk result (length task.new.actions ≡ 2) }
{
    put_atom(alloc, task, b"Atom at(r, a)")?;
    put_atom(alloc, task, b"Atom at(r, b)")?;
    put_atom(alloc, task, b"Atom have(key)")?;
    set_ends(alloc, task, 0, 1)?;
    add_action_of(task, alloc, 0, 1, 0)?;
    add_action_of(task, alloc, 1, 0, 1)
}

// The same as a task.
fn next_door(alloc: Global) -> Result<Task, AllocError>
    ensures atoms { IfOk result (λ task. atoms task ≡ 3) }
    ensures actions { IfOk result (λ task. length task.actions ≡ 2) }
{
    let mut task = Task::new(alloc);
    put_next_door(alloc, &mut task)?;
    Ok(task)
}

// Whether the last atom has its name.
fn is_named(task: &Task) -> bool
    requires { atoms task.now ≡ 3 }
{
    task.atom_name(2).as_bytes() == b"Atom have(key)".as_slice()
}

// Lists of actions, and whether they are plans.
static PLANS: [(&[u32], bool); 5] = [
    (&[0], true),
    (&[], false),
    (&[1], false),
    (&[0, 1], false),
    (&[5], false),
];

// Whether the task has just these plans. The program itself doesn't try lists of actions in this
// way: `solves` is there for callers.
fn has_plans(alloc: Global, task: &Task) -> Result<bool, AllocError> {
    let mut right = true;
    for (list, plan) in &PLANS {
        right &= task.solves(alloc, list)? == *plan;
    }
    Ok(right)
}

// Whether the task has its names and its plans.
fn next_door_has_plans(alloc: Global) -> Result<bool, AllocError> {
    let task = next_door(alloc)?;
    let named = is_named(&task);
    Ok(named & has_plans(alloc, &task)?)
}

#[test]
fn plans_of_a_task_with_a_goal_next_door(rt: HostRuntime) {
    assert!(rt; next_door_has_plans(rt.alloc()) == Ok(true));
}

// Whether the first action leads from the initial state to the goal.
fn leads(alloc: Global, task: &Task) -> Result<bool, AllocError>
    requires atoms { atoms task.now ≡ 3 }
    requires actions { length task.now.actions ≡ 2 }
{
    let start = task.start_state(alloc)?;
    let mut next = State::empty(alloc, 3)?;
    task.after(0, &start, &mut next);
    Ok(!next.has(0) & next.has(1) & task.goal_in(&next) & !task.applicable(0, &next))
}

// The same in the task with the goal next door.
fn leads_next_door(alloc: Global) -> Result<bool, AllocError> {
    let task = next_door(alloc)?;
    leads(alloc, &task)
}

#[test]
fn the_state_after_an_action(rt: HostRuntime) {
    assert!(rt; leads_next_door(rt.alloc()) == Ok(true));
}

// Whether no action is a plan of the empty task.
fn needs_no_action(alloc: Global) -> Result<bool, AllocError> {
    let task = Task::new(alloc);
    task.solves(alloc, &[])
}

#[test]
fn an_empty_goal_needs_no_action(rt: HostRuntime) {
    assert!(rt; needs_no_action(rt.alloc()) == Ok(true));
}

// One atom, which is true and wanted, and which the action needs, adds and deletes.
fn put_one_atom(alloc: Global, task: &mut Task) -> Result<(), AllocError>
    requires atoms { atoms task.old ≡ 0 }
    requires actions { length task.old.actions ≡ 0 }
{
    put_atom(alloc, task, b"p")?;
    set_ends(alloc, task, 0, 0)?;
    add_action_of(task, alloc, 0, 0, 0)
}

// Whether the action can be used twice there.
fn is_used_twice(alloc: Global) -> Result<bool, AllocError> {
    let mut task = Task::new(alloc);
    put_one_atom(alloc, &mut task)?;
    task.solves(alloc, &[0, 0])
}

#[test]
fn an_atom_added_and_deleted_is_true_afterwards(rt: HostRuntime) {
    assert!(rt; is_used_twice(rt.alloc()) == Ok(true));
}

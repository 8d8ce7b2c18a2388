//! The task that has a plan exactly where a given task has one that costs at most so much.

ghost use Rattle.std.specs.Prelude.{◌≡◌, ℕ, ◌+◌, ◌<◌, ◌≤◌, ◌++◌, ◌∷◌, ◌↔◌, ◌^◌, [], length, map};
ghost use Rattle.std.specs.Prelude.{◌-◌, IfOk, OnOk, IsErrOf, IsTrue, decimal};
ghost use Rattle.hv_task.specs.State.{AreBelow};
ghost use Rattle.hv_task.specs.Strips.{IsOver, IsTask, atoms};
ghost use Rattle.hv_bound.specs.declared.fault.BoundFault.TheVariants as BoundFault;
ghost use Rattle.hv_bound.specs.Bounded.{IsTooLarge, all_copies, amounts, bounded_task, copies};
ghost use Rattle.hv_bound.specs.Bounded.{counter_name, free_copy, paid_copy, paid_name};
ghost use Rattle.hv_bound.specs.Costs.{IsSolvable, IsSolvableWithin};

use crate::fault::BoundFault;
use hv_bytes::Text;
use hv_task::{Action, AtomList, Name, Task};
use std::alloc::{AllocError, Global};

/// The most atoms of a task.
const MOST_ATOMS: u64 = 65_535;

/// The most actions of a task.
const MOST_ACTIONS: u64 = 1_000_000;

/// The task that has a plan exactly where the given one has a plan that costs at most `most`. Its
/// further atoms, one for each amount from 0 to `most`, say how much is left to spend. An action
/// that costs something is there once for each amount that pays for it, and takes its cost from
/// what is left. `TooLarge` is answered exactly where the task would pass a limit of tasks, and
/// then nothing of it is made.
pub fn bounded(alloc: Global, task: &Task, most: u32) -> Result<Task, BoundFault>
    ensures made { IfOk result (λ made. made ≡ bounded_task task.now most) }
    ensures solvable { IfOk result (λ made. IsSolvable made ↔ IsSolvableWithin most task.now) }
    ensures large { IsErrOf result BoundFault.TooLarge ↔ IsTooLarge task.now most }
{
    if is_too_large(task, most) {
        return Err(BoundFault::TooLarge);
    }
    Ok(made_task(alloc, task, most)?)
}

// Whether the made task would pass a limit of tasks.
fn is_too_large(task: &Task, most: u32) -> bool
    ensures task { IsTask task.now }
    ensures large { IsTrue result ↔ IsTooLarge task.now most }
{
    u64::from(task.atoms()) + u64::from(most) + 1 > MOST_ATOMS
        || count_all_copies(task, most) > MOST_ACTIONS
}

// How many actions the made task would have: they may be more than a task can have.
fn count_all_copies(task: &Task, most: u32) -> u64
    ensures { result ≡ length (all_copies (atoms task.now) most task.now.actions) }
{
    let mut count = 0;
    for number in 0..task.actions() {
        count += count_copies(task.action(number), most);
    }
    count
}

// How many copies an action has.
fn count_copies(action: &Action, most: u32) -> u64
    ensures count { (first_counter number : ℕ)
        → result ≡ length (copies first_counter most number action.now) }
    ensures few { result ≤ 2 ^ 32 }
{
    if action.cost == 0 {
        1
    } else {
        (u64::from(most) + 1).saturating_sub(u64::from(action.cost))
    }
}

// The made task, which is within the limits.
fn made_task(alloc: Global, task: &Task, most: u32) -> Result<Task, AllocError>
    requires { IsTooLarge task.now most → ⊥ }
    ensures { IfOk result (λ made. made ≡ bounded_task task.now most) }
{
    let mut made = Task::new(alloc);
    add_parts(alloc, task, most, &mut made)?;
    Ok(made)
}

// Adds all that the made task has.
fn add_parts(alloc: Global, task: &Task, most: u32, made: &mut Task) -> Result<(), AllocError>
    requires within { IsTooLarge task.now most → ⊥ }
    requires none { made.old ≡ record { names = []; start = []; goal = []; actions = [] } }
    ensures { OnOk result (made.new ≡ bounded_task task.now most) }
{
    add_atoms(alloc, task, made)?;
    add_counters(alloc, most, made)?;
    made.set_start(with_atom(alloc, task.start(), task.atoms() + most)?);
    made.set_goal(task.goal().copy(alloc)?);
    add_copies(alloc, task, most, made)
}

// Adds the atoms of the given task.
fn add_atoms(alloc: Global, task: &Task, made: &mut Task) -> Result<(), AllocError>
    requires { made.old.names ≡ [] }
    ensures { OnOk result (made.new ≡ record made.old { names = task.now.names }) }
{
    for atom in 0..task.atoms() {
        made.add_atom(Name::new(alloc, task.atom_name(atom).as_bytes())?)?;
    }
    Ok(())
}

// Adds the atoms that say how much is left.
fn add_counters(alloc: Global, most: u32, made: &mut Task) -> Result<(), AllocError>
    requires { atoms made.old + (most + 1) ≤ 65535 }
    ensures { OnOk result (made.new
        ≡ record made.old { names = made.old.names ++ map counter_name (amounts 0 most) }) }
{
    for left in 0..most + 1 {
        made.add_atom(counter_name(alloc, left)?)?;
    }
    Ok(())
}

// The name of the atom that says that so much is left.
fn counter_name(alloc: Global, left: u32) -> Result<Name, AllocError>
    ensures { IfOk result (λ name. name ≡ counter_name left) }
{
    let mut text = Text::new(alloc);
    text.push_bytes(b"left ")?;
    text.push_number(u64::from(left))?;
    Name::new(alloc, text.as_bytes())
}

// The set with a further atom, which is greater than each of its own.
fn with_atom(alloc: Global, set: &AtomList, atom: u32) -> Result<AtomList, AllocError>
    requires { AreBelow atom set.now }
    ensures { IfOk result (λ list. list ≡ set.now ++ atom ∷ []) }
{
    // For its contract alone: the list rises.
    let _len = set.len();
    let mut list = set.copy(alloc)?;
    list.insert(atom)?;
    Ok(list)
}

// Adds the copies of all actions.
fn add_copies(alloc: Global, task: &Task, most: u32, made: &mut Task) -> Result<(), AllocError>
    requires none { made.old.actions ≡ [] }
    requires atoms { atoms made.old ≡ atoms task.now + (most + 1) }
    requires few { length (all_copies (atoms task.now) most task.now.actions) ≤ 1000000 }
    ensures { OnOk result (made.new
        ≡ record made.old { actions = all_copies (atoms task.now) most task.now.actions }) }
{
    for number in 0..task.actions() {
        let action = task.action(number);
        if action.cost == 0 {
            made.add_action(free_copy(alloc, number, action)?)?;
        } else {
            add_paid_copies(alloc, task.atoms(), most, number, action, made)?;
        }
    }
    Ok(())
}

// Adds the copies of an action that costs something.
fn add_paid_copies(
    alloc: Global,
    first_counter: u32,
    most: u32,
    number: u32,
    action: &Action,
    made: &mut Task,
) -> Result<(), AllocError>
    requires over { IsOver first_counter action.now }
    requires atoms { atoms made.old ≡ first_counter + (most + 1) }
    requires few { length made.old.actions + length (amounts action.now.cost most) ≤ 1000000 }
    ensures { OnOk result (made.new ≡ record made.old {
      actions = made.old.actions
          ++ map (paid_copy first_counter number action.now) (amounts action.now.cost most);
    }) }
{
    // For its contract alone: the task is one.
    let _atoms = made.atoms();
    for left in action.cost..most + 1 {
        made.add_action(paid_copy(alloc, first_counter, number, action, left)?)?;
    }
    Ok(())
}

// The copy of an action that costs nothing.
fn free_copy(alloc: Global, number: u32, action: &Action) -> Result<Action, AllocError>
    ensures { IfOk result (λ copy. copy ≡ free_copy number action.now) }
{
    let mut copy = no_lists(alloc, free_name(alloc, number)?, action.cost);
    put_free_lists(alloc, action, &mut copy)?;
    Ok(copy)
}

// An action of this name and cost that has no atoms yet.
fn no_lists(alloc: Global, name: Name, cost: u32) -> Action
    ensures { result ≡ record { name = name; cost = cost; pre = []; add = []; del = [] } }
{
    Action {
        name,
        cost,
        pre: AtomList::new(alloc),
        add: AtomList::new(alloc),
        del: AtomList::new(alloc),
    }
}

// Gives the copy of an action that costs nothing its lists.
fn put_free_lists(alloc: Global, action: &Action, copy: &mut Action) -> Result<(), AllocError>
    ensures { OnOk result (copy.new ≡ record copy.old {
      pre = action.now.pre;
      add = action.now.add;
      del = action.now.del;
    }) }
{
    copy.pre = action.pre.copy(alloc)?;
    copy.add = action.add.copy(alloc)?;
    copy.del = action.del.copy(alloc)?;
    Ok(())
}

// Its name.
fn free_name(alloc: Global, number: u32) -> Result<Name, AllocError>
    ensures { IfOk result (λ name. name ≡ decimal number) }
{
    let mut text = Text::new(alloc);
    text.push_number(u64::from(number))?;
    Name::new(alloc, text.as_bytes())
}

// The copy of an action for where so much is left.
fn paid_copy(
    alloc: Global,
    first_counter: u32,
    number: u32,
    action: &Action,
    left: u32,
) -> Result<Action, AllocError>
    requires over { IsOver first_counter action.now }
    requires pays { action.now.cost ≤ left }
    requires small { first_counter + left < 65535 }
    ensures { IfOk result (λ copy. copy ≡ paid_copy first_counter number action.now left) }
{
    let mut copy = no_lists(alloc, paid_name(alloc, number, left)?, action.cost);
    put_paid_lists(alloc, first_counter, action, left, &mut copy)?;
    Ok(copy)
}

// Gives the copy of an action that costs something its lists.
fn put_paid_lists(
    alloc: Global,
    first_counter: u32,
    action: &Action,
    left: u32,
    copy: &mut Action,
) -> Result<(), AllocError>
    requires over { IsOver first_counter action.now }
    requires pays { action.now.cost ≤ left }
    requires small { first_counter + left < 65535 }
    ensures { OnOk result (copy.new ≡ record copy.old {
      pre = action.now.pre ++ (first_counter + left) ∷ [];
      add = action.now.add ++ (first_counter + left - action.now.cost) ∷ [];
      del = action.now.del ++ (first_counter + left) ∷ [];
    }) }
{
    copy.pre = with_atom(alloc, &action.pre, first_counter + left)?;
    copy.add = with_atom(alloc, &action.add, first_counter + left - action.cost)?;
    copy.del = with_atom(alloc, &action.del, first_counter + left)?;
    Ok(())
}

// Its name.
fn paid_name(alloc: Global, number: u32, left: u32) -> Result<Name, AllocError>
    ensures { IfOk result (λ name. name ≡ paid_name number left) }
{
    let mut text = Text::new(alloc);
    text.push_number(u64::from(number))?;
    text.push_bytes(b" ")?;
    text.push_number(u64::from(left))?;
    Name::new(alloc, text.as_bytes())
}

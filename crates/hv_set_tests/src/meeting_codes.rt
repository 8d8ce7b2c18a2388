//! Tests of listed states that were made to have one hash code.

ghost use Rattle.std.specs.Prelude.{◌≡◌, ◌<◌, ◌≤◌, ◌+◌, OnOk, IfOk, length};
ghost use Rattle.hv_task.specs.State.{AreBelow};
ghost use Rattle.hv_task.specs.Strips.{atoms};
ghost use Rattle.hv_explicit.specs.ListedStates.{AreStates};

use hv_explicit::Explicit;
use hv_sets::{Inside, StateList, StateSet};
use hv_task::{AtomList, Name, State, Task};
use std::alloc::{AllocError, Global};

// So many atoms have the states.
const ATOMS: u32 = 65_535;

fn add_atom(alloc: Global, task: &mut Task) -> Result<(), AllocError>
    requires { atoms task.old < ATOMS }
    ensures { OnOk result (atoms task.new ≡ atoms task.old + 1) }
{
    let name = Name::new(alloc, b"p")?;
    task.add_atom(name)?;
    Ok(())
}

// A task of so many atoms, without actions.
fn task_of(alloc: Global, count: u32) -> Result<Task, AllocError>
    requires { count ≤ ATOMS }
    ensures { IfOk result (λ task. atoms task ≡ count) }
{
    let mut task = Task::new(alloc);
    for _number in 0..count {
        add_atom(alloc, &mut task)?;
    }
    Ok(task)
}

fn put_atom(list: &mut AtomList, atom: u32) -> Result<(), AllocError>
    requires atom { atom < ATOMS }
    requires list { AreBelow ATOMS list.old }
    ensures { OnOk result (AreBelow ATOMS list.new) }
{
    list.insert(atom)?;
    Ok(())
}

// Three atoms.
fn three_of(alloc: Global, first: u32, second: u32, third: u32) -> Result<AtomList, AllocError>
    requires first { first < ATOMS }
    requires second { second < ATOMS }
    requires third { third < ATOMS }
    ensures { IfOk result (λ list. AreBelow ATOMS list) }
{
    let mut list = AtomList::new(alloc);
    put_atom(&mut list, first)?;
    put_atom(&mut list, second)?;
    put_atom(&mut list, third)?;
    Ok(list)
}

fn put_state(states: &mut StateList, state: AtomList) -> Result<(), AllocError>
    requires states { AreStates ATOMS states.old }
    requires state { AreBelow ATOMS state }
    ensures { OnOk result (AreStates ATOMS states.new) }
{
    states.push(state)?;
    Ok(())
}

// Two states whose codes are one by the key that is tried first, and the first of them once more.
fn meeting_states(alloc: Global) -> Result<StateList, AllocError>
    ensures { IfOk result (λ states. AreStates ATOMS states) }
{
    let mut states = StateList::new(alloc);
    put_state(&mut states, three_of(alloc, 16_367, 27_817, 42_151)?)?;
    put_state(&mut states, three_of(alloc, 12_346, 33_519, 62_798)?)?;
    put_state(&mut states, three_of(alloc, 16_367, 27_817, 42_151)?)?;
    Ok(states)
}

// The set that lists them.
fn meeting_set(alloc: Global) -> Result<Explicit, AllocError>
    ensures { IfOk result (λ set. set.atoms ≡ ATOMS) }
{
    let task = task_of(alloc, ATOMS)?;
    let states = meeting_states(alloc)?;
    let set = Explicit::new(alloc, &task, &states)?;
    Ok(set)
}

fn put_in(state: &mut State, atom: u32)
    requires { atom < length state.old }
    ensures { length state.new ≡ length state.old }
{
    state.set(atom, true);
}

// Whether the set has the state of these three atoms.
fn has(
    alloc: Global,
    set: &Explicit,
    first: u32,
    second: u32,
    third: u32,
) -> Result<bool, AllocError>
    requires set { set.now.atoms ≡ ATOMS }
    requires first { first < ATOMS }
    requires second { second < ATOMS }
    requires third { third < ATOMS }
{
    let mut state = State::empty(alloc, ATOMS)?;
    put_in(&mut state, first);
    put_in(&mut state, second);
    put_in(&mut state, third);
    Ok(set.holds(&state))
}

#[test]
fn states_made_for_one_code_are_told_apart(rt: HostRuntime) {
    let Ok(set) = meeting_set(rt.alloc()) else {
        panic!(&rt; "no set");
    };
    assert!(rt; set.inside_count(rt.alloc(), 9) == Ok(3));
    assert!(rt; has(rt.alloc(), &set, 16_367, 27_817, 42_151) == Ok(true));
    assert!(rt; has(rt.alloc(), &set, 12_346, 33_519, 62_798) == Ok(true));
    assert!(rt; has(rt.alloc(), &set, 12_346, 27_817, 42_151) == Ok(false));
}

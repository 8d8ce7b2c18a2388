//! Tests of listed states: repeated ones, ones that were made to meet in one code, and queries with
//! many sets.

ghost use Rattle.std.specs.Prelude.{◌≡◌, ◌<◌, ◌++◌, ◌∷◌, [], false, None, IfOk, IfSome, OnOk};
ghost use Rattle.std.specs.Prelude.{length};
ghost use Rattle.hv_task.specs.State.{AreBelow};
ghost use Rattle.hv_task.specs.Strips.{IsOver, atoms};
ghost use Rattle.hv_sets.specs.Query.{HasAnchor, IsNamed, IsReady};
ghost use Rattle.hv_sets.specs.declared.operand.Which.TheVariants as W;
ghost use Rattle.hv_explicit.specs.ListedStates.{AreListsOver, AreStates};

use hv_explicit::{Explicit, Explicits};
use hv_sets::{
    Family, Finding, Inside, Operand, Operands, Query, Scratch, StateList, StateSet, Which,
};
use hv_task::{Action, AtomList, Name, State, Task};
use std::alloc::{AllocError, Global};

// A state of a task with two atoms is a code below 4, with a bit for each atom. A set is a mask,
// with a bit for each code.
fn has_bit(bits: u32, place: u32) -> bool
    requires { place < 32 }
{
    (bits >> place) & 1 == 1
}

fn put_atom(list: &mut AtomList, code: u32, atom: u32) -> Result<(), AllocError>
    requires atom { atom < 2 }
    requires list { AreBelow 2 list.old }
    ensures { OnOk result (AreBelow 2 list.new) }
{
    if !has_bit(code, atom) {
        return Ok(());
    }
    list.insert(atom)?;
    Ok(())
}

fn atoms_of(alloc: Global, code: u32) -> Result<AtomList, AllocError>
    ensures { IfOk result (λ list. AreBelow 2 list) }
{
    let mut list = AtomList::new(alloc);
    put_atom(&mut list, code, 0)?;
    put_atom(&mut list, code, 1)?;
    Ok(list)
}

fn state_from(alloc: Global, code: u32) -> Result<State, AllocError>
    ensures { IfOk result (λ state. length state ≡ 2) }
{
    let mut state = State::empty(alloc, 2)?;
    let held = atoms_of(alloc, code)?;
    state.hold(held.as_slice());
    Ok(state)
}

fn set_from(alloc: Global, task: &Task, mask: u32) -> Result<Explicit, AllocError>
    requires { atoms task.now ≡ 2 }
    ensures { IfOk result (λ set. set.atoms ≡ 2) }
{
    let mut states = StateList::new(alloc);
    for code in 0..4 {
        put_state(alloc, &mut states, mask, code)?;
    }
    let set = Explicit::new(alloc, task, &states)?;
    Ok(set)
}

fn put_state(alloc: Global, states: &mut StateList, mask: u32, code: u32) -> Result<(), AllocError>
    requires code { code < 4 }
    requires states { AreStates 2 states.old }
    ensures { OnOk result (AreStates 2 states.new) }
{
    if !has_bit(mask, code) {
        return Ok(());
    }
    states.push(atoms_of(alloc, code)?)?;
    Ok(())
}

// From atom 0 alone to atom 1: the action takes the one and adds the other.
fn going(alloc: Global) -> Result<Action, AllocError>
    ensures { IfOk result (λ action. IsOver 2 action) }
{
    Ok(Action {
        name: Name::new(alloc, b"go")?,
        cost: 1,
        pre: atoms_of(alloc, 1)?,
        add: atoms_of(alloc, 2)?,
        del: atoms_of(alloc, 1)?,
    })
}

// The task of this action, from atom 0 alone to atom 1.
fn task_of_two(alloc: Global) -> Result<Task, AllocError>
    ensures atoms { IfOk result (λ task. atoms task ≡ 2) }
    ensures actions { IfOk result (λ task. length task.actions ≡ 1) }
{
    let mut task = Task::new(alloc);
    task.add_atom(Name::new(alloc, b"p")?)?;
    task.add_atom(Name::new(alloc, b"q")?)?;
    task.set_start(atoms_of(alloc, 1)?);
    task.set_goal(atoms_of(alloc, 2)?);
    task.add_action(going(alloc)?)?;
    Ok(task)
}

fn add_negative(query: &mut Query, operand: Operand) -> Result<(), AllocError>
    ensures { OnOk result (query.new ≡ record {
      positive = query.old.positive;
      negative = query.old.negative ++ operand ∷ [];
      action = query.old.action;
    }) }
{
    query.negative.push(operand)?;
    Ok(())
}

// Of a store with so many sets the first is in the query, and the others and one more are not.
fn wide_query_of(
    alloc: Global,
    count: usize,
    last: Which,
    action: Option<u32>,
    after: bool,
) -> Result<Query, AllocError>
    requires count { 1 < count }
    requires last { IsNamed count last }
    requires after { action ≡ None → after ≡ false }
    ensures ready { IfOk result (IsReady count) }
    ensures anchor { IfOk result HasAnchor }
    ensures action { IfOk result (λ query. query.action ≡ action) }
{
    let mut query = Query {
        positive: Operands::new(alloc),
        negative: Operands::new(alloc),
        action,
    };
    query.positive.push(Operand {
        which: Which::Set(0),
        id: 0,
        after: false,
    })?;
    for number in 1..count {
        let operand = Operand {
            which: Which::Set(number),
            id: number,
            after,
        };
        add_negative(&mut query, operand)?;
    }
    let operand = Operand {
        which: last,
        id: count,
        after,
    };
    add_negative(&mut query, operand)?;
    Ok(query)
}

fn many_sets_of(alloc: Global, task: &Task, masks: &[u32]) -> Result<Explicits, AllocError>
    requires { atoms task.now ≡ 2 }
    ensures len { IfOk result (λ sets. length sets ≡ length masks.now) }
    ensures over { IfOk result (λ sets. AreListsOver sets 2) }
{
    let mut sets = Explicits::new(alloc);
    for mask in masks {
        sets.add(set_from(alloc, task, *mask)?)?;
    }
    Ok(sets)
}

// The counterexample to the query of these sets: its code, or 4 where there is none and 5 where the
// query costs more than the budget.
fn found_in(
    alloc: Global,
    task: &Task,
    sets: &Explicits,
    query: &Query,
    budget: u64,
) -> Result<u32, AllocError>
    requires atoms { atoms task.now ≡ 2 }
    requires actions { length task.now.actions ≡ 1 }
    requires sets { AreListsOver sets.now 2 }
    requires ready { IsReady (length sets.now) query.now }
    requires anchor { HasAnchor query.now }
    requires action { IfSome query.now.action (λ a. a < 1) }
{
    let mut scratch = Scratch::new(alloc)?;
    let found = sets.find(alloc, task, query, budget, &mut scratch)?;
    Ok(match found {
        Finding::Over => 5,
        Finding::Empty => 4,
        Finding::Clash => code_of(scratch.state()),
    })
}

// The counterexample to the query of the first set, and of none of the others and the last.
fn found_by(
    alloc: Global,
    masks: [u32; 6],
    last: Which,
    acts: bool,
    after: bool,
    budget: u64,
) -> Result<u32, AllocError>
    requires last { IsNamed 6 last }
    requires after { acts ≡ false → after ≡ false }
{
    let task = task_of_two(alloc)?;
    let sets = many_sets_of(alloc, &task, &masks)?;
    let action = if acts { Some(0) } else { None };
    let query = wide_query_of(alloc, 6, last, action, after)?;
    found_in(alloc, &task, &sets, &query, budget)
}

fn code_of(state: &State) -> u32
    requires { length state.now ≡ 2 }
{
    state.has(0) as u32 + 2 * (state.has(1) as u32)
}

// The states of the codes 1, 2 and 1.
fn put_one_twice(alloc: Global, states: &mut StateList) -> Result<(), AllocError>
    requires { AreStates 2 states.old }
    ensures { OnOk result (AreStates 2 states.new) }
{
    put_state(alloc, states, 15, 1)?;
    put_state(alloc, states, 15, 2)?;
    put_state(alloc, states, 15, 1)
}

// The set that lists them.
fn one_listed_twice(alloc: Global, task: &Task) -> Result<Explicit, AllocError>
    requires { atoms task.now ≡ 2 }
    ensures { IfOk result (λ set. set.atoms ≡ 2) }
{
    let mut states = StateList::new(alloc);
    put_one_twice(alloc, &mut states)?;
    let set = Explicit::new(alloc, task, &states)?;
    Ok(set)
}

// Whether the set holds the state of this code.
fn holds(alloc: Global, set: &Explicit, code: u32) -> Result<bool, AllocError>
    requires { set.now.atoms ≡ 2 }
{
    let state = state_from(alloc, code)?;
    Ok(set.holds(&state))
}

#[test]
fn a_repeated_state_is_listed_and_counted(rt: HostRuntime) {
    let Ok(task) = task_of_two(rt.alloc()) else {
        panic!(&rt; "no task");
    };
    let Ok(set) = one_listed_twice(rt.alloc(), &task) else {
        panic!(&rt; "no set");
    };
    assert!(rt; set.inside_count(rt.alloc(), 9) == Ok(3));
    assert!(rt; holds(rt.alloc(), &set, 2) == Ok(true));
    assert!(rt; holds(rt.alloc(), &set, 3) == Ok(false));
}

// By hand: a mask is a set of codes, the action leads from 1 and 3 to 2, and 1 is the start.
#[test]
fn queries_are_answered_by_the_sets_that_list_a_state(rt: HostRuntime) {
    let shared = [10, 4, 6, 2, 2, 4];
    assert!(rt; found_by(rt.alloc(), shared, Which::Empty, false, false, 2) == Ok(3));
    assert!(rt; found_by(rt.alloc(), shared, Which::Goal, false, false, 2) == Ok(4));
    assert!(rt; found_by(rt.alloc(), shared, Which::Empty, false, false, 1) == Ok(5));
    assert!(rt; found_by(rt.alloc(), shared, Which::Empty, true, true, 2) == Ok(4));
    let apart = [8, 1, 9, 2, 2, 0];
    assert!(rt; found_by(rt.alloc(), apart, Which::Start, true, true, 1) == Ok(3));
    assert!(rt; found_by(rt.alloc(), apart, Which::Goal, true, true, 1) == Ok(4));
}

//! A task of three atoms, its states, and sets of states, all as numbers.
//!
//! A state is a code below 8, with a bit for each atom. A clause is a code below 256, with a bit
//! for each literal: the place of a literal is twice its atom, and one more if it is negative. With
//! 64 each of them is there twice, and with 128 they are in the falling order. Several states
//! are a mask, with a bit for the code of each.

ghost use Rattle.std.specs.Prelude.{◌≡◌, ◌<◌, ◌+◌, [], IfOk, OnOk, length};
ghost use Rattle.hv_task.specs.State.{AreBelow};
ghost use Rattle.hv_task.specs.Strips.{IsOver, atoms};
ghost use Rattle.hv_sets.specs.Cubes.{SpeakBelow};
ghost use Rattle.hv_propagation.specs.Clauses.{AreClauses};
ghost use Rattle.hv_explicit.specs.ListedStates.{AreStates};

use hv_explicit::Explicit;
use hv_formula::{ClauseKind, Formula};
use hv_sets::{Clause, Clauses, Finding, Literal, StateList};
use hv_task::{Action, AtomList, Name, State, Task};
use std::alloc::{AllocError, Global};

const START: u32 = 5;

const GOAL: u32 = 6;

const ADD: u32 = 2;

const DEL: u32 = 3;

// The start alone.
pub(crate) const START_STATES: u32 = 32;

// The states with the atoms 1 and 2.
pub(crate) const GOAL_STATES: u32 = 192;

// All states.
pub(crate) const ALL: u32 = 255;

pub(crate) fn has_bit(bits: u32, place: u32) -> bool
    requires { place < 32 }
{
    (bits >> place) & 1 == 1
}

fn put_atom(list: &mut AtomList, code: u32, atom: u32) -> Result<(), AllocError>
    requires atom { atom < 3 }
    requires list { AreBelow 3 list.old }
    ensures { OnOk result (AreBelow 3 list.new) }
{
    if !has_bit(code, atom) {
        return Ok(());
    }
    list.insert(atom)?;
    Ok(())
}

fn put_all(list: &mut AtomList, code: u32) -> Result<(), AllocError>
    requires { AreBelow 3 list.old }
    ensures { OnOk result (AreBelow 3 list.new) }
{
    put_atom(list, code, 0)?;
    put_atom(list, code, 1)?;
    put_atom(list, code, 2)
}

fn atoms_of(alloc: Global, code: u32) -> Result<AtomList, AllocError>
    ensures { IfOk result (λ list. AreBelow 3 list) }
{
    let mut list = AtomList::new(alloc);
    put_all(&mut list, code)?;
    Ok(list)
}

// The state that holds these atoms.
fn state_holding(alloc: Global, held: &AtomList) -> Result<State, AllocError>
    requires { AreBelow 3 held.now }
    ensures { IfOk result (λ state. length state ≡ 3) }
{
    let mut state = State::empty(alloc, 3)?;
    state.hold(held.as_slice());
    Ok(state)
}

pub(crate) fn state_from(alloc: Global, code: u32) -> Result<State, AllocError>
    ensures { IfOk result (λ state. length state ≡ 3) }
{
    let held = atoms_of(alloc, code)?;
    state_holding(alloc, &held)
}

// Whether it is one of the states of the mask.
fn is_one_of(state: &State, mask: u32) -> bool {
    if state.atoms() != 3 {
        return false;
    }
    let code = state.has(0) as u32 + 2 * (state.has(1) as u32) + 4 * (state.has(2) as u32);
    code < 8 && has_bit(mask, code)
}

// Whether it is right that a state of the mask was found, or not, and what was found is one.
pub(crate) fn is_found(found: bool, mask: u32, state: &State) -> bool {
    if found {
        is_one_of(state, mask)
    } else {
        mask == 0
    }
}

// Whether this is the answer where those of the mask are the counterexamples.
pub(crate) fn fits(found: Finding, state: &State, mask: u32, is_over: bool) -> bool {
    match found {
        Finding::Over => is_over,
        Finding::Clash => !is_over && is_found(true, mask, state),
        Finding::Empty => !is_over && is_found(false, mask, state),
    }
}

fn add_atom(alloc: Global, task: &mut Task, name: &[u8]) -> Result<(), AllocError>
    requires { atoms task.old < 100 }
    ensures atoms { OnOk result (atoms task.new ≡ atoms task.old + 1) }
    ensures actions { OnOk result (task.new.actions ≡ task.old.actions) }
{
    let name = Name::new(alloc, name)?;
    task.add_atom(name)?;
    Ok(())
}

fn add_atoms(alloc: Global, task: &mut Task) -> Result<(), AllocError>
    requires { atoms task.old ≡ 0 }
    ensures atoms { OnOk result (atoms task.new ≡ 3) }
    ensures actions { OnOk result (task.new.actions ≡ task.old.actions) }
{
    add_atom(alloc, task, b"p")?;
    add_atom(alloc, task, b"q")?;
    add_atom(alloc, task, b"r")
}

fn set_ends(alloc: Global, task: &mut Task) -> Result<(), AllocError>
    requires { atoms task.old ≡ 3 }
    ensures atoms { OnOk result (atoms task.new ≡ 3) }
    ensures actions { OnOk result (task.new.actions ≡ task.old.actions) }
{
    task.set_start(atoms_of(alloc, START)?);
    task.set_goal(atoms_of(alloc, GOAL)?);
    Ok(())
}

// The action asks for these atoms; it deletes and adds atom 1, and deletes atom 0.
fn action_of(alloc: Global, pre: u32) -> Result<Action, AllocError>
    ensures { IfOk result (λ action. IsOver 3 action) }
{
    Ok(Action {
        name: Name::new(alloc, b"go")?,
        cost: 1,
        pre: atoms_of(alloc, pre)?,
        add: atoms_of(alloc, ADD)?,
        del: atoms_of(alloc, DEL)?,
    })
}

fn add_go(alloc: Global, task: &mut Task, pre: u32) -> Result<(), AllocError>
    requires atoms { atoms task.old ≡ 3 }
    requires none { task.old.actions ≡ [] }
    ensures atoms { OnOk result (atoms task.new ≡ 3) }
    ensures actions { OnOk result (length task.new.actions ≡ 1) }
{
    let action = action_of(alloc, pre)?;
    task.add_action(action)?;
    Ok(())
}

// The three atoms, the start and the goal, and the action.
fn fill_task(alloc: Global, task: &mut Task, pre: u32) -> Result<(), AllocError>
    requires atoms { atoms task.old ≡ 0 }
    requires none { task.old.actions ≡ [] }
    ensures atoms { OnOk result (atoms task.new ≡ 3) }
    ensures actions { OnOk result (length task.new.actions ≡ 1) }
{
    add_atoms(alloc, task)?;
    set_ends(alloc, task)?;
    add_go(alloc, task, pre)
}

pub(crate) fn task_of(alloc: Global, pre: u32) -> Result<Task, AllocError>
    ensures atoms { IfOk result (λ task. atoms task ≡ 3) }
    ensures actions { IfOk result (λ task. length task.actions ≡ 1) }
{
    let mut task = Task::new(alloc);
    fill_task(alloc, &mut task, pre)?;
    Ok(task)
}

// The state of this code alone, where it is one of them.
pub(crate) fn bit_if(code: u32, holds: bool) -> u32 {
    if holds { 1 << (code % 8) } else { 0 }
}

// The states in which all these atoms are.
pub(crate) fn holding(atoms: u32) -> u32 {
    let mut mask = 0;
    for code in 0..8 {
        mask |= bit_if(code, code & atoms == atoms);
    }
    mask
}

// The result of the action in the state of this code.
pub(crate) fn result_of(code: u32) -> u32
    ensures { result < 8 }
{
    ((code & 4) | ADD) % 8
}

// The states of which the result of the action is one of these.
pub(crate) fn leading_to(mask: u32) -> u32 {
    let mut before = 0;
    for code in 0..8 {
        before |= bit_if(code, has_bit(mask, result_of(code)));
    }
    before
}

fn literal_at(place: u32) -> Literal
    requires { place < 6 }
    ensures { result.atom < 3 }
{
    Literal {
        atom: place / 2,
        positive: place % 2 == 0,
    }
}

fn put_literal(clause: &mut Clause, code: u32, place: u32) -> Result<(), AllocError>
    requires place { place < 6 }
    requires clause { SpeakBelow 3 clause.old }
    ensures { OnOk result (SpeakBelow 3 clause.new) }
{
    if !has_bit(code, place) {
        return Ok(());
    }
    clause.push(literal_at(place))?;
    if !has_bit(code, 6) {
        return Ok(());
    }
    clause.push(literal_at(place))?;
    Ok(())
}

// The place whose turn it is: with 128 the literals come in the falling order.
fn in_turn(code: u32, place: u32) -> u32
    requires { place < 6 }
    ensures { result < 6 }
{
    if has_bit(code, 7) {
        return 5 - place;
    }
    place
}

fn clause_from(alloc: Global, code: u32) -> Result<Clause, AllocError>
    ensures { IfOk result (SpeakBelow 3) }
{
    let mut clause = Clause::new(alloc);
    for place in 0..6 {
        put_literal(&mut clause, code, in_turn(code, place))?;
    }
    Ok(clause)
}

fn put_clause(alloc: Global, clauses: &mut Clauses, code: u32) -> Result<(), AllocError>
    requires { AreClauses 3 clauses.old }
    ensures { OnOk result (AreClauses 3 clauses.new) }
{
    let clause = clause_from(alloc, code)?;
    clauses.push(clause)
}

fn clauses_from(alloc: Global, codes: &[u32]) -> Result<Clauses, AllocError>
    ensures { IfOk result (AreClauses 3) }
{
    let mut clauses = Clauses::new(alloc);
    for code in codes {
        put_clause(alloc, &mut clauses, *code)?;
    }
    Ok(clauses)
}

// The set of these clauses.
pub(crate) fn formula_of<K: ClauseKind>(
    alloc: Global,
    task: &Task,
    codes: &[u32],
) -> Result<Formula<K>, K::Fault>
    requires { atoms task.now ≡ 3 }
    ensures { IfOk result (λ set. set.atoms ≡ 3) }
{
    let clauses = clauses_from(alloc, codes)?;
    Formula::<K>::new(alloc, task, &clauses)
}

fn put_state(alloc: Global, states: &mut StateList, code: u32) -> Result<(), AllocError>
    requires { AreStates 3 states.old }
    ensures { OnOk result (AreStates 3 states.new) }
{
    let held = atoms_of(alloc, code)?;
    states.push(held)
}

fn states_from(alloc: Global, codes: &[u32]) -> Result<StateList, AllocError>
    ensures { IfOk result (AreStates 3) }
{
    let mut states = StateList::new(alloc);
    for code in codes {
        put_state(alloc, &mut states, *code)?;
    }
    Ok(states)
}

// The set of these states, each as often as it is listed.
pub(crate) fn explicit_of(alloc: Global, task: &Task, codes: &[u32]) -> Result<Explicit, AllocError>
    requires { atoms task.now ≡ 3 }
    ensures { IfOk result (λ set. set.atoms ≡ 3) }
{
    let states = states_from(alloc, codes)?;
    Explicit::new(alloc, task, &states)
}

// Whether the literal at this place of the clause is true in the state.
fn is_literal_true(clause: u32, place: u32, code: u32) -> bool
    requires { place < 6 }
{
    has_bit(clause, place) & (has_bit(code, place / 2) == (place % 2 == 0))
}

fn is_clause_true(clause: u32, code: u32) -> bool {
    let mut holds = false;
    for place in 0..6 {
        holds |= is_literal_true(clause, place, code);
    }
    holds
}

// The states in which the clause is false.
pub(crate) fn states_denied(clause: u32) -> u32 {
    let mut mask = 0;
    for code in 0..8 {
        mask |= bit_if(code, !is_clause_true(clause, code));
    }
    mask
}

// The states in which each clause is true.
pub(crate) fn states_of_clauses(clauses: &[u32]) -> u32 {
    let mut mask = ALL;
    for clause in clauses {
        mask &= !states_denied(*clause);
    }
    mask
}

// The listed states.
pub(crate) fn states_of_list(codes: &[u32]) -> u32 {
    let mut mask = 0;
    for code in codes {
        mask |= bit_if(*code, true);
    }
    mask
}

// Whether a clause has positive literals of one atom at most.
pub(crate) fn is_horn_code(clause: u32) -> bool {
    (clause & 21).count_ones() <= 1
}

// Whether a clause has negative literals of one atom at most.
pub(crate) fn is_dual_code(clause: u32) -> bool {
    (clause & 42).count_ones() <= 1
}

// Whether a clause has at most two different literals.
pub(crate) fn is_two_code(clause: u32) -> bool {
    (clause & 63).count_ones() <= 2
}

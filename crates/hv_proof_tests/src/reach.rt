//! Tests of what is reached.

ghost use Rattle.std.specs.Prelude.{◌≡◌, ◌≤◌, IfOk};
ghost use Rattle.hv_task.specs.Strips.{IsState, atoms};

use crate::tasks::{Change, THREE, WAYS, add, task_of, task_with};
use hv_reach::{reached_atoms, reached_pairs};
use hv_task::{Action, State, Task};
use std::alloc::{AllocError, Global};

/// An atom that is added and deleted stays.
const STAYS: &[Change] = &[(&[0], &[0, 1], &[0]), (&[], &[2], &[1])];

// The atoms that are reached, as bits. The program writes proofs by them and doesn't list them:
// `reached_atoms` and `reached_pairs` are there for callers.
fn atoms_reached(alloc: Global, task: &Task, state: &State) -> Result<u32, AllocError>
    requires { IsState task.now state.now }
{
    let list = reached_atoms(alloc, task, state)?;
    let mut bits = 0;
    for atom in 0..4u32 {
        bits |= u32::from(list.has(atom)) << atom;
    }
    Ok(bits)
}

// The pairs that are reached, as a digit for each atom, that of the last one first.
fn pairs_reached(alloc: Global, task: &Task, state: &State) -> Result<u32, AllocError>
    requires state { IsState task.now state.now }
    requires atoms { atoms task.now ≡ 4 }
{
    let pairs = reached_pairs(alloc, task, state)?;
    let mut digits = 0;
    for place in 0..16u32 {
        digits |= u32::from(pairs.has(place / 4, place % 4)) << place;
    }
    Ok(digits)
}

// Whether these of four atoms are reached, as bits, and these pairs, as digits.
fn are_reached(alloc: Global, task: &Task, bits: u32, digits: u32) -> Result<bool, AllocError>
    requires { atoms task.now ≡ 4 }
{
    let state = task.start_state(alloc)?;
    let alike = atoms_reached(alloc, task, &state)? == bits;
    Ok(alike & (pairs_reached(alloc, task, &state)? == digits))
}

// Whether these are reached from the first of four atoms by these actions.
fn reaches(alloc: Global, changes: &[Change], bits: u32, digits: u32) -> Result<bool, AllocError> {
    let task = task_with(alloc, 4, &[0], &[], changes)?;
    are_reached(alloc, &task, bits, digits)
}

// A chain of 70 atoms whose actions are in the order that is worst.
fn chain(alloc: Global) -> Result<Task, AllocError>
    ensures { IfOk result (λ task. atoms task ≡ 70) }
{
    let mut task = task_of(alloc, 70, &[69], &[])?;
    for atom in 0..69u32 {
        add(alloc, &mut task, &[atom + 1], &[atom], &[])?;
    }
    Ok(task)
}

// Whether all 70 atoms are reached.
fn are_all_atoms(alloc: Global, task: &Task, state: &State) -> Result<bool, AllocError>
    requires { IsState task.now state.now }
{
    let list = reached_atoms(alloc, task, state)?;
    Ok((0..70).all(|atom| list.has(atom)))
}

// Whether the pairs with the first and with the last of 70 atoms are reached.
fn are_all_pairs(alloc: Global, task: &Task, state: &State) -> Result<bool, AllocError>
    requires state { IsState task.now state.now }
    requires atoms { atoms task.now ≡ 70 }
{
    let pairs = reached_pairs(alloc, task, state)?;
    let mut all = true;
    for atom in 0..70 {
        all &= pairs.has(0, atom) & pairs.has(atom, 69);
    }
    Ok(all)
}

// Whether all is reached in a task of 70 atoms.
fn is_all_reached(alloc: Global, task: &Task) -> Result<bool, AllocError>
    requires { atoms task.now ≡ 70 }
{
    let state = task.start_state(alloc)?;
    Ok(are_all_atoms(alloc, task, &state)? & are_all_pairs(alloc, task, &state)?)
}

// Whether all is reached in the chain.
fn all_of_a_chain(alloc: Global) -> Result<bool, AllocError> {
    let task = chain(alloc)?;
    is_all_reached(alloc, &task)
}

// A robot gets no key, and an atom that isn't reached is in no pair.
#[test]
fn small_tasks_and_a_chain(rt: HostRuntime) {
    assert!(rt; reaches(rt.alloc(), WAYS, 0b0011, 0x0021) == Ok(true));
    assert!(rt; reaches(rt.alloc(), THREE, 0b0111, 0x0777) == Ok(true));
    assert!(rt; reaches(rt.alloc(), STAYS, 0b0111, 0x0777) == Ok(true));
    assert!(rt; all_of_a_chain(rt.alloc()) == Ok(true));
}

// The plain program to compare with: sweeps over all actions, as often as there can be something
// new.

fn at(table: &[bool], place: u32) -> bool {
    if (place as usize) < table.len() {
        return table[place as usize];
    }
    false
}

fn set(table: &mut [bool], place: u32) {
    if (place as usize) < table.len() {
        table[place as usize] = true;
    }
}

fn cell(count: u32, first: u32, second: u32) -> u32 {
    first.wrapping_mul(count).wrapping_add(second)
}

// Whether the atom is in with each of these.
fn in_with(table: &[bool], count: u32, list: &[u32], atom: u32) -> bool {
    for other in list {
        if !at(table, cell(count, *other, atom)) {
            return false;
        }
    }
    true
}

fn are_pairs(table: &[bool], count: u32, list: &[u32]) -> bool {
    for atom in list {
        if !in_with(table, count, list, *atom) {
            return false;
        }
    }
    true
}

// Whether the action gives the pairs of this atom with those that it adds.
fn gives(table: &[bool], count: u32, action: &Action, atom: u32) -> bool {
    let pre = action.pre.as_slice();
    if !are_pairs(table, count, pre) {
        return false;
    }
    action.add.has(atom)
        || (!action.del.has(atom)
            && at(table, cell(count, atom, atom))
            && in_with(table, count, pre, atom))
}

fn plain_visit(table: &mut [bool], count: u32, action: &Action) {
    for second in 0..count {
        if gives(table, count, action, second) {
            for first in action.add.as_slice() {
                set(table, cell(count, *first, second));
                set(table, cell(count, second, *first));
            }
        }
    }
}

fn plain_pairs(alloc: Global, task: &Task, start: &State) -> Result<Vec<bool>, AllocError>
    requires state { IsState task.now start.now }
    requires few { atoms task.now ≤ 10 }
{
    let count = task.atoms();
    let mut table = vec![in alloc; false; (count * count) as usize]?;
    for first in 0..count {
        for second in 0..count {
            if start.has(first) && start.has(second) {
                set(&mut table, cell(count, first, second));
            }
        }
    }
    for round in 0..count * count {
        let _ = round;
        for number in 0..task.actions() {
            plain_visit(&mut table, count, task.action(number));
        }
    }
    Ok(table)
}

fn plain_atoms(alloc: Global, task: &Task, start: &State) -> Result<Vec<bool>, AllocError>
    requires { IsState task.now start.now }
{
    let mut held = vec![in alloc; false; task.atoms() as usize]?;
    for atom in 0..task.atoms() {
        if start.has(atom) {
            set(&mut held, atom);
        }
    }
    for round in 0..task.atoms() {
        let _ = round;
        for number in 0..task.actions() {
            let action = task.action(number);
            if action.pre.as_slice().iter().all(|atom| at(&held, *atom)) {
                for atom in action.add.as_slice() {
                    set(&mut held, *atom);
                }
            }
        }
    }
    Ok(held)
}

fn next(seed: u32) -> u32 {
    seed.wrapping_mul(1664525).wrapping_add(1013904223)
}

// A task with six atoms and seven actions.
fn made_task(alloc: Global, seed: u32) -> Result<Task, AllocError>
    ensures { IfOk result (λ task. atoms task ≡ 6) }
{
    let mut s = next(seed);
    let mut task = task_of(alloc, 6, &[(s >> 8) % 8, (s >> 16) % 8], &[])?;
    for number in 0..7 {
        let _ = number;
        s = next(s);
        let pre = [(s >> 8) % 8, (s >> 12) % 10];
        let more = [(s >> 16) % 6, (s >> 20) % 12];
        let less = [(s >> 24) % 6, (s >> 28) % 8];
        add(alloc, &mut task, &pre, &more, &less)?;
    }
    Ok(task)
}

// Whether these are the atoms that the plain program finds.
fn are_plain_atoms(alloc: Global, task: &Task, start: &State) -> Result<bool, AllocError>
    requires { IsState task.now start.now }
{
    let list = reached_atoms(alloc, task, start)?;
    let held = plain_atoms(alloc, task, start)?;
    let mut alike = true;
    for atom in 0..6 {
        alike &= list.has(atom) == at(&held, atom);
    }
    Ok(alike)
}

// Whether these are the pairs that the plain program finds.
fn are_plain_pairs(alloc: Global, task: &Task, start: &State) -> Result<bool, AllocError>
    requires state { IsState task.now start.now }
    requires atoms { atoms task.now ≡ 6 }
{
    let pairs = reached_pairs(alloc, task, start)?;
    let table = plain_pairs(alloc, task, start)?;
    let mut alike = true;
    for place in 0..36 {
        alike &= pairs.has(place / 6, place % 6) == at(&table, place);
    }
    Ok(alike)
}

// Whether all that is reached in a task of six atoms is what the plain program finds.
fn are_plain(alloc: Global, task: &Task) -> Result<bool, AllocError>
    requires { atoms task.now ≡ 6 }
{
    let start = task.start_state(alloc)?;
    Ok(are_plain_atoms(alloc, task, &start)? & are_plain_pairs(alloc, task, &start)?)
}

// The same of the task of this number.
fn is_as_plain(alloc: Global, seed: u32) -> Result<bool, AllocError> {
    let task = made_task(alloc, seed)?;
    are_plain(alloc, &task)
}

#[test]
fn answers_are_those_of_plain_sweeps(rt: HostRuntime) {
    for seed in 0..3000 {
        assert!(rt; is_as_plain(rt.alloc(), seed) == Ok(true), "{seed}");
    }
}

//! Whether diagrams hold states, meet and cover cubes, and answer queries as going through all
//! states says.

ghost use Rattle.std.specs.Prelude.{◌≡◌, ◌<◌, IfOk};
ghost use Rattle.hv_bdd.specs.Nodes.{node_count};

use crate::cubes::{cubes_are_covered, cubes_are_met, holds_rightly};
use crate::queries::{Measure, Named, Wanted, all_are_right};
use crate::three::task_of;
use crate::tuples::Fronts;
use hv_bdd::{Diagrams, NodesFault, read_nodes};
use hv_bytes::{Limits, SureShelf};
use std::alloc::{AllocError, Global};
use std::test::Fail;

const NAME: &str = "nodes";

// The last atom and its negation, the last two different and alike, an odd number of atoms, and the
// first atom with the last two different.
const WOVEN: &[u8] = b"nodes 6\n2 0 1\n2 1 0\n1 2 3\n1 3 2\n0 4 5\n0 0 4\n";

// The states of each of its nodes, 0 and 1 among them.
const WOVEN_SETS: [u32; 8] = [0, 255, 240, 15, 60, 195, 150, 40];

// Without the second atom, and of these without the first; the first without the second; the last
// atom, the last two, and the first or the last.
const PAIRED: &[u8] = b"nodes 6\n1 1 0\n0 2 0\n0 0 2\n2 0 1\n1 0 5\n0 5 1\n";

const PAIRED_SETS: [u32; 8] = [0, 255, 51, 17, 34, 240, 192, 250];

// The prefixes of the rising order.
const RISING: Fronts = [0, 1, 3, 7];

// In the order of the atoms 1, 2, 0: the first atom and its negation, the first and the last
// different and alike, an odd number of atoms, and the second atom with those two different.
const TURNED: &[u8] = b"order 1 2 0\nnodes 6\n0 0 1\n0 1 0\n2 2 3\n2 3 2\n1 4 5\n1 0 4\n";

const TURNED_SETS: [u32; 8] = [0, 255, 170, 85, 90, 165, 150, 72];

const TURNED_FRONTS: Fronts = [0, 2, 6, 7];

// In the falling order: the first atom, the first two together and one of them, all three, two of
// the three, and the first or not the last.
const FALLING: &[u8] = b"order 2 1 0\nnodes 6\n0 0 1\n1 0 2\n1 2 1\n2 0 3\n2 3 4\n2 1 2\n";

const FALLING_SETS: [u32; 8] = [0, 255, 170, 136, 238, 128, 232, 175];

const FALLING_FRONTS: Fronts = [0, 4, 6, 7];

fn shelf_of(alloc: Global, text: &[u8]) -> Result<SureShelf, AllocError> {
    let mut shelf = SureShelf::new(alloc);
    shelf.add(NAME, text)?;
    Ok(shelf)
}

fn list_of(alloc: Global, text: &[u8]) -> Result<Diagrams, NodesFault>
    ensures { IfOk result (λ list. list.atoms ≡ 3) }
{
    let mut shelf = shelf_of(alloc, text)?;
    read_nodes(alloc, &mut shelf, NAME, 3, Limits::STANDARD)
}

// The node of this number, and its states.
fn node_of(number: usize, sets: &[u32; 8]) -> Named
    requires { number < 8 }
    ensures { result.number ≡ number }
{
    Named {
        number,
        states: sets[number],
        size: 0,
    }
}

// What is asked of a list of eight nodes, of two of them.
fn nodes_wanted(pre: u32, first: usize, second: usize, sets: &[u32; 8], fronts: Fronts) -> Wanted
    requires first { first < 8 }
    requires second { second < 8 }
    ensures count { result.count ≡ 8 }
    ensures first { result.first.number ≡ first }
    ensures second { result.second.number ≡ second }
{
    Wanted {
        count: 8,
        first: node_of(first, sets),
        second: node_of(second, sets),
        pre,
        measure: Measure::Tuples(fronts),
    }
}

// What the action asks for in the queries of each node of the first half, and one of the second.
const PRES: [u32; 4] = [1, 0, 4, 1];

// Whether the queries of two nodes are answered rightly, of which this one is the first.
fn pair_is_right(
    alloc: Global,
    list: &Diagrams,
    first: usize,
    sets: &[u32; 8],
    fronts: Fronts,
) -> Result<bool, AllocError>
    requires atoms { list.now.atoms ≡ 3 }
    requires count { node_count list.now ≡ 8 }
    requires first { first < 4 }
{
    let pre = PRES[first];
    let task = task_of(alloc, pre)?;
    all_are_right(
        alloc,
        &task,
        list,
        nodes_wanted(pre, first, 7 - first, sets, fronts),
    )
}

// Whether the cubes of a node are met and covered rightly, and its states held.
fn node_is_right(
    alloc: Global,
    list: &Diagrams,
    number: usize,
    sets: &[u32; 8],
) -> Result<bool, AllocError>
    requires atoms { list.now.atoms ≡ 3 }
    requires count { node_count list.now ≡ 8 }
    requires number { number < 8 }
{
    let set = list.set(number as u32);
    let holds = holds_rightly(alloc, &set, sets[number])?;
    let met = cubes_are_met(alloc, &set, sets[number])?;
    let covered = cubes_are_covered(alloc, &set, sets[number])?;
    Ok(holds & met & covered)
}

// Whether the queries of the nodes are answered rightly, where the list has eight.
fn pairs_are_right(
    alloc: Global,
    list: &Diagrams,
    sets: &[u32; 8],
    fronts: Fronts,
) -> Result<bool, AllocError>
    requires { list.now.atoms ≡ 3 }
{
    if list.count() != 8 {
        return Ok(false);
    }
    let mut right = true;
    for first in 0..4 {
        right &= pair_is_right(alloc, list, first, sets, fronts)?;
    }
    Ok(right)
}

fn queries_are_right(
    alloc: Global,
    text: &[u8],
    sets: &[u32; 8],
    fronts: Fronts,
) -> Result<bool, NodesFault> {
    let list = list_of(alloc, text)?;
    Ok(pairs_are_right(alloc, &list, sets, fronts)?)
}

// The same of their cubes and states.
fn nodes_are_right(alloc: Global, list: &Diagrams, sets: &[u32; 8]) -> Result<bool, AllocError>
    requires { list.now.atoms ≡ 3 }
{
    if list.count() != 8 {
        return Ok(false);
    }
    let mut right = true;
    for number in 0..8 {
        right &= node_is_right(alloc, list, number, sets)?;
    }
    Ok(right)
}

fn sets_are_right(alloc: Global, text: &[u8], sets: &[u32; 8]) -> Result<bool, NodesFault> {
    let list = list_of(alloc, text)?;
    Ok(nodes_are_right(alloc, &list, sets)?)
}

#[test]
fn nodes_answer_as_all_states_say(rt: HostRuntime) -> Result<(), Fail> {
    assert!(rt; queries_are_right(rt.alloc(), WOVEN, &WOVEN_SETS, RISING)?);
    assert!(rt; queries_are_right(rt.alloc(), PAIRED, &PAIRED_SETS, RISING)?);
    Ok(())
}

#[test]
fn nodes_with_an_order_answer_as_all_states_say(rt: HostRuntime) -> Result<(), Fail> {
    assert!(rt; queries_are_right(rt.alloc(), TURNED, &TURNED_SETS, TURNED_FRONTS)?);
    assert!(rt; queries_are_right(rt.alloc(), FALLING, &FALLING_SETS, FALLING_FRONTS)?);
    Ok(())
}

#[test]
fn cubes_of_nodes_are_answered_as_all_states_say(rt: HostRuntime) -> Result<(), Fail> {
    assert!(rt; sets_are_right(rt.alloc(), WOVEN, &WOVEN_SETS)?);
    assert!(rt; sets_are_right(rt.alloc(), PAIRED, &PAIRED_SETS)?);
    assert!(rt; sets_are_right(rt.alloc(), TURNED, &TURNED_SETS)?);
    assert!(rt; sets_are_right(rt.alloc(), FALLING, &FALLING_SETS)?);
    Ok(())
}

//! Listed states without their repeats, to look one up.

ghost use Rattle.std.specs.Prelude.{◌≡◌, ◌<◌, ◌+◌, ◌-◌, ◌^◌, ◌↔◌, ℕ, true, false, [], length};
ghost use Rattle.std.specs.Prelude.{slice_index, slice_index_or, IsTrue, IfOk, IfSome, OnOk};
ghost use Rattle.hv_explicit.specs.ListedStates.{AreRising, AreStates};
ghost use Rattle.hv_explicit.specs.Working.Codes.{IsCode, IsSame};
ghost use Rattle.hv_explicit.specs.Working.Listing.{AreFirsts, ArePlacesOf, IsEnteredState};
ghost use Rattle.hv_explicit.specs.Working.Listing.{IsIndex};
ghost use Rattle.hv_explicit.specs.Working.Words.{word_atoms};

use crate::codes::BITS;
use crate::places::Places;
use crate::sought::{Coded, Sought};
use crate::state_word::word_of_list;
use hv_sets::{StateBuffer, StateList};
use std::alloc::{AllocError, Global};
use std::hash::{DefaultHasher, Hasher};

/// The first key where there are more than 64 atoms: that of the sets in which no two states have
/// one code by it.
pub(crate) const PLAIN: u64 = 0x243f_6a88_85a3_08d3;

/// The key by which the states of a task with so many atoms are entered first.
pub(crate) fn first_key(atoms: u32) -> u64 {
    if atoms <= 64 { BITS } else { PLAIN }
}

/// The places of the states that no earlier one is, and the codes of these states by a key.
#[derive(Drop)]
pub(crate) struct Firsts {
    pub key: u64,
    pub places: Vec<u32>,
    pub codes: Places,
}

impl Firsts {
    /// No state, and a key.
    fn new(alloc: Global, key: u64) -> Firsts
        ensures key { result.key ≡ key }
        ensures places { result.places.items ≡ [] }
        ensures codes { result.codes ≡ [] }
    {
        Firsts {
            key,
            places: Vec::new(alloc),
            codes: Places::new(alloc),
        }
    }
}

/// Enters each state that no earlier one is, by a key for which no two of them have one code, if
/// possible. The second key hangs on all states, so none of them can be chosen for it.
pub(crate) fn firsts_of(alloc: Global, atoms: u32, states: &StateList) -> Result<Firsts, AllocError>
    requires { AreStates (2 ^ 32 - 1) states.now }
    ensures rise { OnOk result (AreRising states.now) }
    ensures firsts { IfOk result (λ firsts.
        AreFirsts states.now firsts.places.items (length states.now)) }
    ensures index { IfOk result (λ firsts.
        IsIndex firsts.key firsts.codes firsts.places.items states.now) }
{
    let mut firsts = Firsts::new(alloc, first_key(atoms));
    if enter_all(states, &mut firsts, true)? {
        return Ok(firsts);
    }
    let mut firsts = Firsts::new(alloc, key_of(states));
    let _ = enter_all(states, &mut firsts, false)?;
    Ok(firsts)
}

// A key that all listed states together give.
fn key_of(states: &StateList) -> u64 {
    let mut hasher = DefaultHasher::new();
    let mut buffer = StateBuffer::new();
    for place in 0..states.len() {
        put_state(&mut hasher, states.get(place).slice(&mut buffer));
    }
    hasher.finish()
}

fn put_state(hasher: &mut DefaultHasher, atoms: &[u32]) {
    for atom in atoms {
        hasher.write_u64(*atom as u64);
    }
    hasher.write_u64(u64::MAX);
}

// Enters each state that no earlier one is. In haste it stops, and answers false, where two of them
// have one code.
fn enter_all(states: &StateList, firsts: &mut Firsts, hasty: bool) -> Result<bool, AllocError>
    requires states { AreStates (2 ^ 32 - 1) states.now }
    requires places { firsts.old.places.items ≡ [] }
    requires codes { firsts.old.codes ≡ [] }
    ensures rise { OnOk result (AreRising states.now) }
    ensures firsts { IfOk result (λ whole. whole ≡ true
        → AreFirsts states.now firsts.new.places.items (length states.now)) }
    ensures index { IfOk result (λ whole. whole ≡ true
        → IsIndex firsts.new.key firsts.new.codes firsts.new.places.items states.now) }
    ensures whole { hasty ≡ false → IfOk result (λ whole. whole ≡ true) }
{
    if states.len() > u32::MAX as usize {
        return Err(AllocError);
    }
    for place in 0..states.len() {
        if !enter(states, firsts, place, hasty)? {
            return Ok(false);
        }
    }
    Ok(true)
}

// Enters the state at a place, unless an earlier one is this state. In haste it does nothing, and
// answers false, where another state has its code.
fn enter(
    states: &StateList,
    firsts: &mut Firsts,
    place: usize,
    hasty: bool,
) -> Result<bool, AllocError>
    requires place { place < length states.now }
    requires few { length states.now < 2 ^ 32 }
    requires below { AreStates (2 ^ 32 - 1) states.now }
    requires rise { AreRising states.now }
    requires firsts { AreFirsts states.now firsts.old.places.items place }
    requires index { IsIndex firsts.old.key firsts.old.codes firsts.old.places.items states.now }
    ensures firsts { IfOk result (λ done. done ≡ true
        → AreFirsts states.now firsts.new.places.items (place + 1)) }
    ensures index { IfOk result (λ done. done ≡ true
        → IsIndex firsts.new.key firsts.new.codes firsts.new.places.items states.now) }
    ensures whole { hasty ≡ false → IfOk result (λ done. done ≡ true) }
{
    let mut buffer = StateBuffer::new();
    let held = Coded::new(firsts.key, states.get(place).slice(&mut buffer));
    if look_up(states, firsts, held.code, &held) {
        return Ok(true);
    }
    if hasty && firsts.codes.last(held.code) > 0 {
        return Ok(false);
    }
    firsts.codes.push(held.code)?;
    firsts.places.push(place as u32)?;
    Ok(true)
}

/// Whether the state at some entry has just these atoms, of which this is the code.
pub(crate) fn look_up<A: Sought>(states: &StateList, firsts: &Firsts, code: u64, held: &A) -> bool
    requires code { IsCode firsts.now.key (A.has held.now) code }
    requires below { AreStates (2 ^ 32 - 1) states.now }
    requires rise { AreRising states.now }
    requires firsts { ArePlacesOf states.now firsts.now.places.items }
    requires index { IsIndex firsts.now.key firsts.now.codes firsts.now.places.items states.now }
    ensures { IsTrue result ↔ IsEnteredState (A.has held.now) states.now firsts.now.places.items }
{
    let mut end = firsts.codes.last(code);
    while end > 0 {
        let entry = end - 1;
        if is_at(states, firsts.places[entry] as usize, held) {
            return true;
        }
        end = firsts.codes.earlier(entry);
    }
    false
}

/// Whether the state at a place has just these atoms.
pub(crate) fn is_at<A: Sought>(states: &StateList, place: usize, held: &A) -> bool
    requires place { place < length states.now }
    requires below { AreStates (2 ^ 32 - 1) states.now }
    ensures { IsTrue result ↔ IsSame (A.has held.now) (slice_index_or states.now place []) }
{
    let mut buffer = StateBuffer::new();
    held.is(states.get(place).slice(&mut buffer))
}

/// The state at a place, with its code; the buffer may give the space for its atoms.
pub(crate) fn coded_state<'a>(
    states: &'a StateList,
    firsts: &Firsts,
    place: usize,
    buffer: &'a mut StateBuffer,
) -> Coded<'a>
    requires place { place < length states.now }
    requires index { IsIndex firsts.now.key firsts.now.codes firsts.now.places.items states.now }
    ensures atoms { result.atoms.now ≡ slice_index_or states.now place [] }
    ensures key { result.key ≡ firsts.now.key }
{
    let atoms = states.get(place).slice(buffer);
    let Some(entry) = entry_of(firsts.places.as_slice(), place) else {
        return Coded::new(firsts.key, atoms);
    };
    Coded {
        atoms,
        key: firsts.key,
        code: firsts.codes.get(entry),
    }
}

/// The word of the state at a place, where codes are words.
pub(crate) fn word_of_state(states: &StateList, firsts: &Firsts, place: usize) -> u64
    requires place { place < length states.now }
    requires below { AreStates 64 states.now }
    requires rise { AreRising states.now }
    requires bits { firsts.now.key ≡ 0 }
    requires index { IsIndex firsts.now.key firsts.now.codes firsts.now.places.items states.now }
    ensures { word_atoms result ≡ slice_index_or states.now place [] }
{
    match entry_of(firsts.places.as_slice(), place) {
        Some(entry) => firsts.codes.get(entry),
        None => word_anew(states, place),
    }
}

/// The same, where no code is kept.
#[inline(never)]
pub(crate) fn word_anew(states: &StateList, place: usize) -> u64
    requires place { place < length states.now }
    requires below { AreStates 64 states.now }
    requires rise { AreRising states.now }
    ensures { word_atoms result ≡ slice_index_or states.now place [] }
{
    let mut buffer = StateBuffer::new();
    word_of_list(states.get(place).slice(&mut buffer))
}

/// The code of the state at a place, or 0 where it is the same as an earlier one.
pub(crate) fn code_at(states: &StateList, firsts: &Firsts, place: usize) -> u64 {
    if firsts.places.len() == states.len() {
        return firsts.codes.code_or_none(place);
    }
    match entry_of(firsts.places.as_slice(), place) {
        Some(entry) => firsts.codes.code_or_none(entry),
        None => 0,
    }
}

/// The place of a state of this code, if it is found by where the chain of its slot starts.
pub(crate) fn place_from(firsts: &Firsts, start: usize, code: u64) -> Option<u32> {
    let entry = firsts.codes.place_from(start, code)?;
    match firsts.places.get(entry) {
        Some(place) => Some(*place),
        None => None,
    }
}

// The entry of a place, if it is found: without repeats before it it is the place itself.
fn entry_of(places: &[u32], place: usize) -> Option<usize>
    ensures { IfSome result (λ entry. (entry < length places.now)
        × (slice_index places.now entry ≡ place)) }
{
    if place < places.len() && places[place] as usize == place {
        return Some(place);
    }
    match places.binary_search(&(place.min(u32::MAX as usize) as u32)) {
        Ok(entry) if places[entry] as usize == place => Some(entry),
        _ => None,
    }
}

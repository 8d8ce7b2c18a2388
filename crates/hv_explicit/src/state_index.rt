//! What a set keeps of its states besides their list. Of at most two states it keeps nothing that
//! lies in a block of memory of its own: to go through two is no dearer than to look one up, and a
//! proof can have hundreds of thousands of such sets.

ghost use Rattle.std.specs.Prelude.{◌≡◌, ◌<◌, ◌≤◌, ◌-◌, ◌^◌, ◌↔◌, ℕ, [], length, slice_index_or};
ghost use Rattle.std.specs.Prelude.{IsTrue, IfOk, IfSome, OnOk};
ghost use Rattle.hv_explicit.specs.ListedStates.{AreRising, AreStates};
ghost use Rattle.hv_explicit.specs.Codes.{IsBelow};
ghost use Rattle.hv_explicit.specs.Working.Codes.{HasListed, IsCode, IsSame};
ghost use Rattle.hv_explicit.specs.Working.Listing.{AreFirsts, ArePlacesOf};
ghost use Rattle.hv_explicit.specs.Working.Holders.{AreHolders, IsHolderIndex, IsManyIndex};
ghost use Rattle.hv_explicit.specs.Working.Holders.{IsStateIndex, listed_places};
ghost use Rattle.hv_explicit.specs.Working.SomeStates.{IsOfFew, state_atoms};
ghost use Rattle.hv_explicit.specs.Working.Words.{word_atoms};

use crate::codes::{BITS, is_exact};
use crate::firsts::{
    Firsts, code_at, coded_state, first_key, firsts_of, is_at, look_up, place_from, word_anew,
    word_of_state,
};
use crate::holders::{Holders, SomePlaces, holders_of, holding_all};
use crate::sought::{Coded, SomeState, Sought};
use crate::state_word::{StateWord, is_word};
use hv_sets::{StateBuffer, StateList};
use std::alloc::{AllocError, Global};

// So many states are gone through without a choice.
const FEW: usize = 64;

/// Where the states of a set are that no earlier one is, and what finds them.
#[derive(Drop)]
pub(crate) enum StateIndex {
    /// Of at most two states: their places are the first of these, which are 0 and 1.
    Pair([u32; 2]),
    /// Of more.
    Many(Box<ManyIndex>),
}

/// Where the states of a set of more than two are that no earlier one is, and what finds them.
#[derive(Drop)]
pub(crate) struct ManyIndex {
    /// To look one up.
    pub firsts: Firsts,
    /// The places of the same states by the atoms that are held, if they are many.
    pub holders: Option<Holders>,
}

impl StateIndex {
    /// The key of the codes of the states; the task has so many atoms.
    pub(crate) fn key(&self, atoms: u32) -> u64 {
        match self {
            StateIndex::Pair(_) => first_key(atoms),
            StateIndex::Many(many) => many.firsts.key,
        }
    }
}

/// The index of these states of a task with so many atoms.
pub(crate) fn index_of(
    alloc: Global,
    atoms: u32,
    states: &StateList,
) -> Result<StateIndex, AllocError>
    requires { AreStates (2 ^ 32 - 1) states.now }
    ensures rise { OnOk result (AreRising states.now) }
    ensures index { IfOk result (IsStateIndex states.now) }
{
    if states.len() <= 2 {
        return Ok(StateIndex::Pair([0, 1]));
    }
    let many = many_of(alloc, atoms, states)?;
    Ok(StateIndex::Many(Box::new(alloc, many)?))
}

// The index of more than two.
fn many_of(alloc: Global, atoms: u32, states: &StateList) -> Result<ManyIndex, AllocError>
    requires { AreStates (2 ^ 32 - 1) states.now }
    ensures rise { OnOk result (AreRising states.now) }
    ensures index { IfOk result (IsManyIndex states.now) }
{
    let firsts = firsts_of(alloc, atoms, states)?;
    let holders = holders_if_many(alloc, atoms, states, firsts.places.as_slice())?;
    Ok(ManyIndex { firsts, holders })
}

// The holders among the states at these places, if they are many.
fn holders_if_many(
    alloc: Global,
    atoms: u32,
    states: &StateList,
    firsts: &[u32],
) -> Result<Option<Holders>, AllocError>
    requires { ArePlacesOf states.now firsts.now }
    ensures { IfOk result (λ found. IfSome found (IsHolderIndex states.now firsts.now)) }
{
    if firsts.len() <= FEW {
        return Ok(None);
    }
    holders_of(alloc, atoms, states, firsts)
}

/// The places of the states that no earlier one is; of two states both.
pub(crate) fn firsts_in<'a>(index: &'a StateIndex, states: &StateList) -> &'a [u32]
    requires { IsStateIndex states.now index.now }
    ensures { AreFirsts states.now result.now (length states.now) }
{
    match index {
        StateIndex::Pair(places) => &places[..states.len()],
        StateIndex::Many(many) => many.firsts.places.as_slice(),
    }
}

/// The places of the states that hold all of these atoms, and maybe others. There are none where no
/// atom is given, and where a walk through all states is as short.
pub(crate) fn held_in<'a>(
    alloc: Global,
    index: &'a StateIndex,
    states: &StateList,
    atoms: &[u32],
) -> Result<Option<SomePlaces<'a>>, AllocError>
    requires { IsStateIndex states.now index.now }
    ensures { IfOk result (λ o. IfSome o (λ part.
        AreHolders states.now atoms.now (listed_places part))) }
{
    match index {
        StateIndex::Pair(_) => Ok(None),
        StateIndex::Many(many) => held_in_many(alloc, many, states, atoms),
    }
}

// The same among more than two.
fn held_in_many<'a>(
    alloc: Global,
    many: &'a ManyIndex,
    states: &StateList,
    atoms: &[u32],
) -> Result<Option<SomePlaces<'a>>, AllocError>
    requires { IsManyIndex states.now many.now }
    ensures { IfOk result (λ o. IfSome o (λ part.
        AreHolders states.now atoms.now (listed_places part))) }
{
    match &many.holders {
        None => Ok(None),
        Some(holders) => holding_all(alloc, holders, atoms, states.len()),
    }
}

/// Whether the set of atoms is listed; the task has so many atoms.
pub(crate) fn lists_in<A: Sought>(
    index: &StateIndex,
    states: &StateList,
    held: &A,
    atoms: u32,
) -> bool
    requires below { AreStates (2 ^ 32 - 1) states.now }
    requires rise { AreRising states.now }
    requires of_task { AreStates atoms states.now }
    requires index { IsStateIndex states.now index.now }
    requires fits { IsBelow atoms (A.has held.now) }
    ensures { IsTrue result ↔ HasListed (A.has held.now) states.now }
{
    match index {
        StateIndex::Pair(_) => has_among(states, held),
        StateIndex::Many(many) => has_in_many(many, states, held, atoms),
    }
}

// The same among more than two.
fn has_in_many<A: Sought>(many: &ManyIndex, states: &StateList, held: &A, atoms: u32) -> bool
    requires below { AreStates (2 ^ 32 - 1) states.now }
    requires rise { AreRising states.now }
    requires of_task { AreStates atoms states.now }
    requires index { IsManyIndex states.now many.now }
    requires fits { IsBelow atoms (A.has held.now) }
    ensures { IsTrue result ↔ HasListed (A.has held.now) states.now }
{
    let code = held.code(many.firsts.key, atoms);
    if is_exact(many.firsts.key, atoms) {
        return has_code(many, states, held, code, atoms);
    }
    look_up(states, &many.firsts, code, held)
}

// The same where codes are exact, by the set's code.
fn has_code<A: Sought>(
    many: &ManyIndex,
    states: &StateList,
    held: &A,
    code: u64,
    atoms: u32,
) -> bool
    requires bits { many.now.firsts.key ≡ 0 }
    requires few { atoms ≤ 64 }
    requires code { IsCode many.now.firsts.key (A.has held.now) code }
    requires of_task { AreStates atoms states.now }
    requires index { IsManyIndex states.now many.now }
    requires fits { IsBelow atoms (A.has held.now) }
    ensures { IsTrue result ↔ HasListed (A.has held.now) states.now }
{
    let _ = states;
    let _ = held;
    let _ = atoms;
    let end = many.firsts.codes.last(code);
    if end == 0 {
        return false;
    }
    true
}

// The same by going through the states.
fn has_among<A: Sought>(states: &StateList, held: &A) -> bool
    requires below { AreStates (2 ^ 32 - 1) states.now }
    ensures { IsTrue result ↔ HasListed (A.has held.now) states.now }
{
    for place in 0..states.len() {
        if is_at(states, place, held) {
            return true;
        }
    }
    false
}

/// Whether the state at this place is the set; the task has so many atoms.
pub(crate) fn is_in<A: Sought>(
    index: &StateIndex,
    states: &StateList,
    place: usize,
    held: &A,
    atoms: u32,
) -> bool
    requires place { place < length states.now }
    requires below { AreStates (2 ^ 32 - 1) states.now }
    requires rise { AreRising states.now }
    requires of_task { AreStates atoms states.now }
    requires index { IsStateIndex states.now index.now }
    requires fits { IsBelow atoms (A.has held.now) }
    ensures { IsTrue result ↔ IsSame (A.has held.now) (slice_index_or states.now place []) }
{
    if atoms > 64 {
        return is_at(states, place, held);
    }
    is_word(word_in(index, states, place), held, atoms)
}

/// The state at this place, for which the buffer may give the space; the task has so many atoms.
pub(crate) fn state_in<'a>(
    index: &StateIndex,
    states: &'a StateList,
    place: usize,
    atoms: u32,
    buffer: &'a mut StateBuffer,
) -> SomeState<'a>
    requires place { place < length states.now }
    requires of_task { AreStates atoms states.now }
    requires rise { AreRising states.now }
    requires index { IsStateIndex states.now index.now }
    ensures atoms { state_atoms result ≡ slice_index_or states.now place [] }
    ensures few { IsOfFew atoms result }
{
    if atoms > 64 {
        return SomeState::Listed(coded_in(index, states, place, atoms, buffer));
    }
    let bits = word_in(index, states, place);
    SomeState::Word(StateWord { bits })
}

// The word of the state at this place.
fn word_in(index: &StateIndex, states: &StateList, place: usize) -> u64
    requires place { place < length states.now }
    requires below { AreStates 64 states.now }
    requires rise { AreRising states.now }
    requires index { IsStateIndex states.now index.now }
    ensures { word_atoms result ≡ slice_index_or states.now place [] }
{
    match index {
        StateIndex::Many(many) if many.firsts.key == BITS => {
            word_of_state(states, &many.firsts, place)
        }
        _ => word_anew(states, place),
    }
}

// The state at this place, with its code.
fn coded_in<'a>(
    index: &StateIndex,
    states: &'a StateList,
    place: usize,
    atoms: u32,
    buffer: &'a mut StateBuffer,
) -> Coded<'a>
    requires place { place < length states.now }
    requires index { IsStateIndex states.now index.now }
    ensures { result.atoms.now ≡ slice_index_or states.now place [] }
{
    match index {
        StateIndex::Pair(_) => coded_anew(states, place, first_key(atoms), buffer),
        StateIndex::Many(many) => coded_state(states, &many.firsts, place, buffer),
    }
}

// The same, where no code is kept.
fn coded_anew<'a>(
    states: &'a StateList,
    place: usize,
    key: u64,
    buffer: &'a mut StateBuffer,
) -> Coded<'a>
    requires { place < length states.now }
    ensures { result.atoms.now ≡ slice_index_or states.now place [] }
{
    Coded::new(key, states.get(place).slice(buffer))
}

/// The code of the state at a place, where one is kept, and else 0.
pub(crate) fn kept_code(index: &StateIndex, states: &StateList, place: usize) -> u64 {
    match index {
        StateIndex::Pair(_) => 0,
        StateIndex::Many(many) => code_at(states, &many.firsts, place),
    }
}

/// Where the chain of the code's slot starts.
pub(crate) fn start_in(index: &StateIndex, code: u64) -> usize {
    match index {
        StateIndex::Pair(_) => 0,
        StateIndex::Many(many) => many.firsts.codes.start_of(code),
    }
}

/// The place of a state of this code, if it is found by where the chain of its slot starts.
pub(crate) fn place_in(index: &StateIndex, start: usize, code: u64) -> Option<u32> {
    match index {
        StateIndex::Pair(_) => None,
        StateIndex::Many(many) => place_from(&many.firsts, start, code),
    }
}

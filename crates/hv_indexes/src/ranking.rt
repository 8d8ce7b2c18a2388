//! The order in which a walk takes clauses, and their literals: codes of the places, which rise as
//! the walk goes.
//!
//! A formula is walked over by its clauses in the order of their first two literals, and the
//! literals of each in one order too, so that clauses that were shuffled have the prefixes of
//! sorted ones. Both orders are by one function of a literal, which is its atom, or that one's
//! place in the order of a diagram, and its sign. Where each order serves, since a formula is asked
//! (it says so by places of no atom), literals that are in more than half of the clauses come
//! first, 16 at most, and the clauses go by which of these they have: so what follows from what
//! clauses have in common is found out once, and not for each clause anew. A clause of more than
//! 2^28 literals is answered as out of memory when it is walked over, since a code has 28 bits for
//! a place; that many clauses exceed every budget before.

ghost use Rattle.std.specs.Prelude.{◌≡◌, ◌<◌, ◌≤◌, length, IfOk, OnOk};
ghost use Rattle.hv_indexes.specs.Orders.{OrdersUpto, place_in};

use crate::occurrences::{Occurrences, SignedOccurrences};
use crate::rows;
use hv_sets::{Clauses, Literal};
use std::alloc::{AllocError, Global};

// Places and ranks are below these numbers. A line of 16,777,216 bytes has fewer than 8,388,608
// clauses, and fewer literals, since each takes two bytes at least; so no place comes near 2^28.
const PLACES: usize = 1 << 28;

const RANKS: usize = 1 << 36;

// A rank is that of a group and of the keys of two literals; the last key is that of no literal.
const KEYS: usize = 1 << 17;

const LAST: usize = KEYS - 1;

const PAIRS: usize = KEYS * KEYS;

// Of so many clauses, or more, those literals come first that are in more than half, and so many at
// most. The clauses with the same of these are a group.
const MANY_CLAUSES: usize = 16;

const MOST_SHARED: usize = 16;

const MOST_GROUPS: usize = 1 << MOST_SHARED;

/// The order of the literals in a walk: those that come first, and then the others by the places of
/// their atoms.
#[derive(Drop)]
pub struct LiteralOrder<'a> {
    shared: Vec<Literal>,
    places: Option<&'a [u32]>,
}

impl<'a> LiteralOrder<'a> {
    /// The order in a walk over so many clauses, whose literals stand there. Where no places are
    /// told, it is that of the atoms. Where places are told, but of no atom, each order serves;
    /// then literals that most of the clauses have come first, so that the cubes of the walk have
    /// them in common.
    pub fn new(
        alloc: Global,
        count: usize,
        occurs: &Occurrences,
        places: Option<&'a [u32]>,
    ) -> Result<LiteralOrder<'a>, AllocError> {
        let mut shared = Vec::new(alloc);
        if count >= MANY_CLAUSES && is_of_none(places) {
            put_shared(&mut shared, count, &occurs.signed(false), false)?;
            put_shared(&mut shared, count, &occurs.signed(true), true)?;
        }
        Ok(LiteralOrder { shared, places })
    }
}

// Whether places are told, but of no atom.
fn is_of_none(places: Option<&[u32]>) -> bool {
    match places {
        None => false,
        Some(places) => places.is_empty(),
    }
}

// Puts the literals of this sign last that are in more than half of so many clauses.
fn put_shared(
    shared: &mut Vec<Literal>,
    count: usize,
    signed: &SignedOccurrences<'_>,
    positive: bool,
) -> Result<(), AllocError> {
    let heads = signed.heads;
    for place in 0..heads.len() {
        let end = match heads.get(place + 1) {
            None => signed.places.len(),
            Some(next) => next.start as usize,
        };
        let head = heads[place];
        let standing = end.saturating_sub(head.start as usize);
        if standing > count / 2 && shared.len() < MOST_SHARED {
            shared.push(Literal {
                atom: head.key,
                positive,
            })?;
        }
    }
    Ok(())
}

// Where a literal is in the order of the walk: behind those that come first, if it isn't one of
// them, by the place of its atom.
fn key_of(literal: Literal, order: &LiteralOrder<'_>) -> usize {
    let shared = order.shared.as_slice();
    match shared.iter().position(|one| *one == literal) {
        Some(place) => place,
        None => shared.len().min(LAST) + late_key(literal, order.places),
    }
}

// Where a literal is among those that don't come first.
fn late_key(literal: Literal, places: Option<&[u32]>) -> usize
    ensures { result < 8589934592 }
{
    let place = match places {
        None => literal.atom,
        Some(places) => place_of_atom(places, literal.atom),
    };
    place as usize * 2 + literal.positive as usize
}

// The place of an atom.
fn place_of_atom(places: &[u32], atom: u32) -> u32 {
    match places.get(atom as usize) {
        Some(place) => *place,
        None => atom,
    }
}

// A code of the place, that is greater where the rank is.
fn code_of(rank: usize, place: usize) -> usize
    requires { place < 268435456 }
    ensures { place_in result ≡ place }
{
    rank % RANKS * PLACES + place
}

/// The place for which a code stands.
pub fn place_of(code: usize) -> usize
    ensures { result ≡ place_in code }
{
    code % PLACES
}

/// The places of the clauses, by the literals that come first and are in them, and then by their
/// first two others. More than 268,435,456 clauses are taken as out of memory.
pub fn of_clauses(
    alloc: Global,
    clauses: &Clauses,
    order: &LiteralOrder<'_>,
) -> Result<Vec<usize>, AllocError>
    ensures { IfOk result (λ codes. OrdersUpto (length clauses.now) codes.items) }
{
    if clauses.len() > PLACES {
        return Err(AllocError);
    }
    let mut codes = Vec::with_capacity(alloc, clauses.len())?;
    for place in 0..clauses.len() {
        codes.push(code_of(rank_of(clauses.get(place), order), place))?;
    }
    rows::sort(&mut codes);
    Ok(codes)
}

/// The places of the literals of a clause, in the order of the walk. More than 268,435,456 literals
/// are taken as out of memory.
pub fn of_literals(
    codes: &mut Vec<usize>,
    clause: &[Literal],
    order: &LiteralOrder<'_>,
) -> Result<(), AllocError>
    ensures { OnOk result (OrdersUpto (length clause.now) codes.new.items) }
{
    if clause.len() > PLACES {
        return Err(AllocError);
    }
    codes.clear();
    for place in 0..clause.len() {
        codes.push(code_of(key_of(clause[place], order), place))?;
    }
    rows::sort(codes);
    Ok(())
}

// The rank of a clause: by which of the literals that come first are in it, and then by the two
// least keys of the others.
fn rank_of(clause: &[Literal], order: &LiteralOrder<'_>) -> usize {
    let group = group_of(clause, order.shared.as_slice());
    let rank = rank_of_others(clause, order);
    (group.number * RANKS + rank * (RANKS / PAIRS)) / group.count
}

// The rank of a clause by the two least keys of the literals that don't come first.
fn rank_of_others(clause: &[Literal], order: &LiteralOrder<'_>) -> usize
    ensures { result < 17179869184 }
{
    let mut first = LAST;
    let mut second = LAST;
    for literal in clause {
        let key = key_of_other(*literal, order);
        if key < first {
            second = first;
            first = key;
        } else if key < second {
            second = key;
        }
    }
    first * KEYS + second
}

// The key of a literal that doesn't come first; that of any other is that of no literal.
fn key_of_other(literal: Literal, order: &LiteralOrder<'_>) -> usize
    ensures { result ≤ 131071 }
{
    if has(order.shared.as_slice(), literal) {
        LAST
    } else {
        late_key(literal, order.places).min(LAST)
    }
}

// A group of clauses, and how many groups there are.
#[derive(Clone, Copy)]
struct ClauseGroup {
    number: usize,
    count: usize,
}

// The group of a clause: those are in one that have the same of these literals. Those with the
// first of them come before those without, and so on within both.
fn group_of(clause: &[Literal], shared: &[Literal]) -> ClauseGroup
    ensures { (result.number < result.count) × (result.count ≤ 65536) }
{
    let mut group = ClauseGroup {
        number: 0,
        count: 1,
    };
    for literal in shared {
        if group.count > MOST_GROUPS / 2 {
            return group;
        }
        group = ClauseGroup {
            number: group.number * 2 + !has(clause, *literal) as usize,
            count: group.count * 2,
        };
    }
    group
}

fn has(literals: &[Literal], literal: Literal) -> bool {
    literals.iter().any(|one| *one == literal)
}

//! The literals that are beside others in clauses of two, so that these need not be looked into.
//!
//! The other literal of a clause of two is beside each of its literals, in a list of its own that
//! goes with the places of the clauses, as far as the last of these. So to follow a literal reads
//! that list alone, four bytes a clause and in order, and neither the clause nor its place. A
//! choice that the effect touches is refuted by that list alone too, where the other literal is
//! known to be true. One number denotes no literal; it is also that of the last atom that there can
//! be, so a clause of two with that literal is looked into like a longer one.

ghost use Rattle.std.specs.Prelude.{◌≡◌, ◌<◌, ◌≤◌, ◌⊎◌, ◌↔◌, ◌^◌, ◌∷◌, ℕ, [], List, Some, length};
ghost use Rattle.std.specs.Prelude.{slice_index, IfOk, IfSome, IsTrue, MatchOption, OnOk};
ghost use Rattle.std.specs.List.{All};
ghost use Rattle.hv_sets.specs.declared.literal.Literal.{Literal};
ghost use Rattle.hv_sets.specs.Cubes.{SpeakBelow};
ghost use Rattle.hv_indexes.specs.Implied.{IsPair};
ghost use Rattle.hv_indexes.specs.Occurrences.{ArePartners, IsPartner, entry_or_none, no_literal};
ghost use Rattle.hv_indexes.specs.Occurrences.{literal_of};
ghost use Rattle.hv_indexes.specs.Places.{clause_at};
ghost use Rattle.hv_indexes.specs.Working.Occurrences.{AreEntriesJoined, PutsEntry};
ghost use Rattle.hv_indexes.specs.Working.Pairs.{AreEntryPairs, IsEntryPair};
ghost use Rattle.hv_indexes.specs.Rows.{place_of_code};

use crate::rows;
use hv_sets::{Clauses, Literal};
use std::alloc::{AllocError, Global};

// Stands for no literal.
const NONE: u32 = u32::MAX;

// Of fewer clauses each is looked into, wherever that is.
const FEW: usize = 16;

/// The entries for the two literals of a clause; of any other clause both denote none.
#[derive(Clone, Copy, Drop)]
pub(crate) struct EntryPair {
    pub first: u32,
    pub second: u32,
}

// The entries for the literals of each clause up to the last one of two literals, made in one way
// through the clauses: eight bytes each, where a look into a clause far away reads more of them, at
// two places. Nothing of few.
pub(crate) fn pairs_of(alloc: Global, clauses: &Clauses) -> Result<Vec<EntryPair>, AllocError>
    requires { All (SpeakBelow (2 ^ 31)) clauses.now }
    ensures { IfOk result (λ pairs. AreEntryPairs clauses.now pairs.items) }
{
    let upto = after_last_pair(clauses);
    if upto < FEW {
        return Ok(Vec::new(alloc));
    }
    let mut pairs = Vec::with_capacity(alloc, upto)?;
    for place in 0..upto {
        pairs.push(entries_in(clauses.get(place)))?;
    }
    Ok(pairs)
}

// The place after the last clause of two literals, or 0 if there is none.
fn after_last_pair(clauses: &Clauses) -> usize
    ensures { result ≤ length clauses.now }
{
    let mut place = clauses.len();
    while place > 0 {
        if clauses.get(place - 1).len() == 2 {
            return place;
        }
        place -= 1;
    }
    0
}

// The entries for the literals of a clause.
fn entries_in(clause: &[Literal]) -> EntryPair
    requires { SpeakBelow (2 ^ 31) clause.now }
    ensures { IsEntryPair clause.now result }
{
    if clause.len() != 2 {
        return EntryPair {
            first: NONE,
            second: NONE,
        };
    }
    let first = entry_of(clause[0]);
    let second = entry_of(clause[1]);
    EntryPair { first, second }
}

// The entry for a literal.
fn entry_of(literal: Literal) -> u32
    requires { literal.atom < 2 ^ 31 }
    ensures { literal_of result ≡ literal }
{
    literal.atom * 2 + literal.positive as u32
}

// The entries for the literals beside those with these codes, which are of this sign, up to the
// last one that denotes a literal. What the entries of clauses are is told as far as it is known.
pub(crate) fn entries_of(
    alloc: Global,
    clauses: &Clauses,
    pairs: &[EntryPair],
    codes: &[usize],
    sign: bool,
) -> Result<Vec<u32>, AllocError>
    requires below { All (SpeakBelow (2 ^ 31)) clauses.now }
    requires pairs { AreEntryPairs clauses.now pairs.now }
    requires inside { (k : ℕ) → k < length codes.now
        → place_of_code (slice_index codes.now k) < length clauses.now }
    ensures partners { IfOk result
        (λ entries. ArePartners sign clauses.now codes.now entries.items) }
    ensures few { IfOk result (λ entries. length entries.items ≤ length codes.now) }
{
    let mut entries = Vec::new(alloc);
    for place in 0..codes.len() {
        let code = codes[place];
        let own = Literal {
            atom: rows::key_in(code),
            positive: sign,
        };
        let number = rows::number_in(code) as usize;
        put_entry(&mut entries, place, entry_at(clauses, pairs, number, own))?;
    }
    Ok(entries)
}

// The entry for the literal beside this one in the clause at a place.
fn entry_at(clauses: &Clauses, pairs: &[EntryPair], place: usize, own: Literal) -> u32
    requires below { All (SpeakBelow (2 ^ 31)) clauses.now }
    requires pairs { AreEntryPairs clauses.now pairs.now }
    requires place { place < length clauses.now }
    ensures { IsPartner (clause_at clauses.now place) own result }
{
    if place < pairs.len() {
        return entry_beside(pairs[place], own);
    }
    entry_of_partner(clauses.get(place), own)
}

// The entry for the literal beside this one, where the entries of the clause are these.
fn entry_beside(pair: EntryPair, own: Literal) -> u32
    ensures { (clause : List Literal) → IsEntryPair clause pair → IsPartner clause own result }
{
    if denotes(pair.first, own) {
        return pair.second;
    }
    if denotes(pair.second, own) {
        return pair.first;
    }
    NONE
}

// Whether the entry denotes the literal.
fn denotes(entry: u32, literal: Literal) -> bool
    ensures { IsTrue result ↔ (literal_of entry ≡ literal) }
{
    let denoted = Literal {
        atom: entry / 2,
        positive: entry % 2 == 1,
    };
    denoted == literal
}

// Puts an entry at a place, if it denotes a literal.
fn put_entry(entries: &mut Vec<u32>, place: usize, entry: u32) -> Result<(), AllocError>
    requires { length entries.old.items ≤ place }
    ensures { OnOk result (PutsEntry entries.old.items place entry entries.new.items) }
{
    if entry == NONE {
        return Ok(());
    }
    if entries.len() < place {
        entries.resize(place, NONE)?;
    }
    entries.push(entry)?;
    Ok(())
}

// The entries beside so many places, and behind them those beside others, if there are any.
pub(crate) fn joined(first: Vec<u32>, upto: usize, second: Vec<u32>) -> Result<Vec<u32>, AllocError>
    requires { length first.items ≤ upto }
    ensures { IfOk result (λ joined. AreEntriesJoined first.items upto second.items joined.items) }
{
    if upto == 0 {
        return Ok(second);
    }
    if second.is_empty() {
        return Ok(first);
    }
    let mut joined = first;
    joined.resize(upto, NONE)?;
    joined.extend_from_slice(&second)?;
    Ok(joined)
}

// The entry for the literal beside this one.
fn entry_of_partner(clause: &[Literal], own: Literal) -> u32
    requires { SpeakBelow (2 ^ 31) clause.now }
    ensures { IsPartner clause.now own result }
{
    match partner(clause, own) {
        None => NONE,
        Some(other) => entry_of(other),
    }
}

// The literal beside this one, if the clause has two and this is one of them.
fn partner(clause: &[Literal], own: Literal) -> Option<Literal>
    ensures pair { IfSome result (λ other. IsPair clause.now own other) }
    ensures two { (other : Literal) → (clause.now ≡ own ∷ other ∷ [])
        ⊎ (clause.now ≡ other ∷ own ∷ []) → result ≡ Some other }
{
    if clause.len() != 2 {
        return None;
    }
    let first = clause[0];
    let second = clause[1];
    if first == own {
        return Some(second);
    }
    if second == own {
        return Some(first);
    }
    None
}

/// The literal that the entry at a place denotes.
pub fn literal_at(entries: &[u32], place: usize) -> Option<Literal>
    ensures { MatchOption result (entry_or_none entries.now place ≡ no_literal)
        (λ literal. (literal ≡ literal_of (entry_or_none entries.now place))
        × (entry_or_none entries.now place ≡ no_literal → ⊥)) }
{
    let Some(&entry) = entries.get(place) else {
        return None;
    };
    if entry == NONE {
        return None;
    }
    Some(Literal {
        atom: entry / 2,
        positive: entry % 2 == 1,
    })
}

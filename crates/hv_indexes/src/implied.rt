//! The codes of the literals that literals imply at once.
//!
//! They are read from where the literals stand, one literal after the other, and not clause by
//! clause: so of what a literal implies the numbers come in order, mostly, however the clauses are
//! ordered. Where clauses of literals of one sign are in order, it is what the opposite of each
//! literal implies that is read (turned), and then all codes come in order.

ghost use Rattle.std.specs.Prelude.{◌≡◌, ◌<◌, ◌↔◌, ◌^◌, [], length, slice_index, slice_index_or};
ghost use Rattle.std.specs.Prelude.{IfOk, IsTrue, MatchOption, OnOk};
ghost use Rattle.std.specs.List.{All, Contains};
ghost use Rattle.hv_sets.specs.declared.literal.Literal.{Literal};
ghost use Rattle.hv_sets.specs.Cubes.{SpeakBelow, opposite};
ghost use Rattle.hv_indexes.specs.Implied.{IsEither, IsPair, literal_number};
ghost use Rattle.hv_indexes.specs.Working.Implied.{IsImpliedCode, PutsImplied, PutsSigned};
ghost use Rattle.hv_indexes.specs.Working.Implied.{pair_code};
ghost use Rattle.hv_indexes.specs.Occurrences.{AreStanding, IsIndexOf};
ghost use Rattle.hv_indexes.specs.Working.Rows.{ListsCodes, PutsCodes};
ghost use Rattle.hv_indexes.specs.Rows.{code};
ghost use Rattle.hv_indexes.specs.Signed.{StandsAs};

use crate::occurrences::{Occurrences, SignedOccurrences, Standing};
use crate::{partners, rows};
use hv_sets::{Clauses, Literal};
use std::alloc::{AllocError, Global};

// The number of a literal.
pub(crate) fn number_of(literal: Literal) -> u32
    requires { literal.atom < 2 ^ 31 }
    ensures { result ≡ literal_number literal }
{
    if literal.positive {
        2 * literal.atom
    } else {
        2 * literal.atom + 1
    }
}

// The codes of what the clauses of one or two literals imply.
pub(crate) fn codes_of(
    alloc: Global,
    clauses: &Clauses,
    occurs: &Occurrences,
) -> Result<Vec<usize>, AllocError>
    requires below { All (SpeakBelow (2 ^ 31)) clauses.now }
    requires index { IsIndexOf clauses.now occurs.now }
    ensures { IfOk result (λ codes. ListsCodes
        (λ k. IsImpliedCode (slice_index_or clauses.now k [])) (length clauses.now) codes.items) }
{
    let mut codes = Vec::new(alloc);
    let turned = come_in_order(occurs);
    put_signed(&mut codes, clauses, occurs, false, turned)?;
    put_signed(&mut codes, clauses, occurs, true, turned)?;
    Ok(codes)
}

// Whether all literals are of one sign, and those that are beside each come in order.
fn come_in_order(occurs: &Occurrences) -> bool {
    let negative = occurs.signed(false);
    let positive = occurs.signed(true);
    if negative.heads.is_empty() {
        return are_rows_in_order(&positive);
    }
    positive.heads.is_empty() && are_rows_in_order(&negative)
}

// Whether there are entries for the literals beside all of these, and those of each atom rise.
fn are_rows_in_order(signed: &SignedOccurrences<'_>) -> bool {
    let entries = signed.partners;
    if entries.len() < signed.places.len() {
        return false;
    }
    let heads = signed.heads;
    for at in 0..heads.len() {
        let upto = match heads.get(at + 1) {
            None => entries.len(),
            Some(next) => next.start as usize,
        };
        if !rise_between(entries, heads[at].start as usize, upto) {
            return false;
        }
    }
    true
}

// Whether the entries from a place up to another one rise.
fn rise_between(entries: &[u32], from: usize, upto: usize) -> bool {
    for place in from..upto.min(entries.len()) {
        if place > from && entries[place - 1] >= entries[place] {
            return false;
        }
    }
    true
}

// Puts the codes of how the literals of this sign are implied last, by rising atoms; or, turned, of
// what their opposites imply.
fn put_signed(
    codes: &mut Vec<usize>,
    clauses: &Clauses,
    occurs: &Occurrences,
    sign: bool,
    turned: bool,
) -> Result<(), AllocError>
    requires below { All (SpeakBelow (2 ^ 31)) clauses.now }
    requires index { IsIndexOf clauses.now occurs.now }
    ensures { OnOk result
        (PutsSigned turned clauses.now sign codes.old.items codes.new.items) }
{
    let heads = occurs.signed(sign).heads;
    for at in 0..heads.len() {
        put_atom(codes, clauses, occurs, sign, heads[at].key, turned)?;
    }
    Ok(())
}

// The same for the literal of an atom.
fn put_atom(
    codes: &mut Vec<usize>,
    clauses: &Clauses,
    occurs: &Occurrences,
    sign: bool,
    atom: u32,
    turned: bool,
) -> Result<(), AllocError>
    requires below { All (SpeakBelow (2 ^ 31)) clauses.now }
    requires index { IsIndexOf clauses.now occurs.now }
    ensures { OnOk result (PutsImplied turned clauses.now
        (StandsAs sign clauses.now atom) (record { atom = atom; positive = sign })
        codes.old.items codes.new.items) }
{
    let own = Literal {
        atom,
        positive: sign,
    };
    let standing = occurs.standing(own);
    put_standing(codes, clauses, &standing, turned)?;
    Ok(())
}

// Puts the codes of how a literal is implied last, where it stands; or, turned, of what its
// opposite implies.
fn put_standing(
    codes: &mut Vec<usize>,
    clauses: &Clauses,
    standing: &Standing<'_>,
    turned: bool,
) -> Result<(), AllocError>
    requires below { All (SpeakBelow (2 ^ 31)) clauses.now }
    requires standing { AreStanding clauses.now standing.now }
    ensures { OnOk result (PutsImplied turned clauses.now (Contains standing.now.places.now)
        standing.now.literal codes.old.items codes.new.items) }
{
    for index in 0..standing.places.len() {
        put_at(codes, clauses, standing, index, turned)?;
    }
    Ok(())
}

// Puts the codes of how a literal is implied by one of these clauses last. Of two literals, what
// the other one is tells the list, without a look into the clause.
fn put_at(
    codes: &mut Vec<usize>,
    clauses: &Clauses,
    standing: &Standing<'_>,
    index: usize,
    turned: bool,
) -> Result<(), AllocError>
    requires below { All (SpeakBelow (2 ^ 31)) clauses.now }
    requires standing { AreStanding clauses.now standing.now }
    requires index { index < length standing.now.places.now }
    ensures { OnOk result (PutsImplied turned clauses.now
        (λ p. p ≡ slice_index standing.now.places.now index) standing.now.literal codes.old.items
        codes.new.items) }
{
    match partners::literal_at(standing.entries, index) {
        Some(other) => {
            put_either(codes, other, standing.literal, turned)?;
            Ok(())
        }
        None => {
            put_clause(codes, clauses.get(standing.places[index]))?;
            Ok(())
        }
    }
}

// Puts the code of how the second of these two literals of a clause is implied last; or, turned, of
// how the first one is.
fn put_either(
    codes: &mut Vec<usize>,
    first: Literal,
    second: Literal,
    turned: bool,
) -> Result<(), AllocError>
    requires first { first.atom < 2 ^ 31 }
    requires second { second.atom < 2 ^ 31 }
    ensures { OnOk result
        (PutsCodes (λ c. c ≡ pair_code turned first second) codes.old.items codes.new.items) }
{
    if turned {
        put(codes, second, first)?;
        return Ok(());
    }
    put(codes, first, second)?;
    Ok(())
}

// Puts the codes of what a clause implies last, if it has one or two literals.
fn put_clause(codes: &mut Vec<usize>, clause: &[Literal]) -> Result<(), AllocError>
    requires { SpeakBelow (2 ^ 31) clause.now }
    ensures { OnOk result (PutsCodes (IsImpliedCode clause.now) codes.old.items codes.new.items) }
{
    match pair_of(clause) {
        None => Ok(()),
        Some((first, second)) => {
            put(codes, first, second)?;
            put(codes, second, first)?;
            Ok(())
        }
    }
}

// Puts the code of what a clause of these two literals implies where the first one is false last.
fn put(codes: &mut Vec<usize>, first: Literal, second: Literal) -> Result<(), AllocError>
    requires first { first.atom < 2 ^ 31 }
    requires second { second.atom < 2 ^ 31 }
    ensures { OnOk result (PutsCodes
        (λ c. c ≡ code (literal_number (opposite first)) (literal_number second))
        codes.old.items codes.new.items) }
{
    let opposite = Literal {
        atom: first.atom,
        positive: !first.positive,
    };
    codes.push(rows::code_of(number_of(opposite), number_of(second)))?;
    Ok(())
}

// The two literals of a clause, which may be one, if it has no other.
fn pair_of(clause: &[Literal]) -> Option<(Literal, Literal)>
    ensures { MatchOption result ((first second : Literal) → IsPair clause.now first second → ⊥)
        (λ pair. IsPair clause.now pair.0 pair.1) }
{
    let Some(first) = clause.first() else {
        return None;
    };
    let second = other_of(clause, *first);
    if has_only(clause, *first, second) {
        Some((*first, second))
    } else {
        None
    }
}

// A literal of the clause that isn't this one, if there is one, and else this one.
fn other_of(clause: &[Literal], first: Literal) -> Literal
    requires { Contains clause.now first }
    ensures has { Contains clause.now result }
    ensures only { result ≡ first → (l : Literal) → Contains clause.now l → l ≡ first }
{
    for literal in clause {
        if *literal != first {
            return *literal;
        }
    }
    first
}

// Whether each literal of the clause is one of these two.
fn has_only(clause: &[Literal], first: Literal, second: Literal) -> bool
    ensures { IsTrue result ↔ All (IsEither first second) clause.now }
{
    clause
        .iter()
        .all(|literal| *literal == first || *literal == second)
}

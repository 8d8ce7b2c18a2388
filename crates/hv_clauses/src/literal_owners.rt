//! Which positive operands of a query have a literal, where there are many of them: so only these
//! are gone through when the literal is found false.
//!
//! From 16 operands on it is counted how many literals they have, each once in each. Once all
//! operands were gone through for half as many literals of the trail as an operand has on average,
//! or for one, which costs what the lists do, or where there are so many choices that this is to be
//! expected, the places of the operands that have each literal are listed for this query, by rising
//! atoms; so a query costs no more than some multiple of what its operands have. The lists may have
//! places too many, and are read as such. `find` takes memory for them, some 30 bytes a literal at
//! most; where there is none, and in `find_in`, all operands are gone through.

ghost use Rattle.std.specs.Prelude.{◌≡◌, ◌≤◌, ℕ, Bool, IfOk, IfSome, OnOk, length};
ghost use Rattle.std.specs.List.{Contains};
ghost use Rattle.hv_sets.specs.Query.{IsNamed};
ghost use Rattle.hv_clauses.specs.Working.Owners.{AreOwners, AreSignedOwners, ListsUpto, Owns};
ghost use Rattle.hv_clauses.specs.Working.Owners.{Gains, IsCodeOfHead, PutsOwner, signed_owners};
ghost use Rattle.hv_clauses.specs.Working.Posed.{ProblemState as ProblemOf};

use crate::problem::Problem;
use hv_formula::ClauseKind;
use hv_indexes::{RowHead, rows};
use hv_sets::{Literal, Operand, Which};
use std::alloc::{AllocError, Global};

// Fewer positive operands are gone through one by one.
const MANY: usize = 16;

// How many literals of operands are listed in the time in which one is looked for in an operand.
const LISTED: usize = 2;

// How many choices are tried before one is taken to be followed up in all operands.
const CHOICES: usize = 64;

/// By rising atoms the places of the positive operands in which a literal of one sign stands, and
/// where those of each atom begin.
#[derive(Drop)]
pub(crate) struct SignedOwners {
    pub heads: Vec<RowHead>,
    pub places: Vec<u32>,
}

/// The places of the positive operands in which each literal stands.
#[derive(Drop)]
pub(crate) struct ClauseOwners {
    pub negative: SignedOwners,
    pub positive: SignedOwners,
}

impl ClauseOwners {
    /// Those of this query. More than 4,294,967,295 operands, or literals of one sign, are taken as
    /// out of memory.
    pub(crate) fn of<K: ClauseKind>(
        alloc: Global,
        problem: &Problem<'_, K>,
    ) -> Result<ClauseOwners, AllocError>
        ensures { IfOk result (AreOwners problem.now) }
    {
        let negative = SignedOwners::of(alloc, problem, false)?;
        let positive = SignedOwners::of(alloc, problem, true)?;
        Ok(ClauseOwners { negative, positive })
    }

    /// The places of the operands that have a literal, and perhaps others.
    pub(crate) fn row(&self, literal: Literal) -> &[u32]
        requires { (p : ProblemOf) × AreOwners p self.now }
        ensures { (p : ProblemOf) → AreOwners p self.now → (place : ℕ) → Owns p literal place
            → Contains result.now place }
    {
        self.signed(literal.positive).row(literal.atom)
    }

    fn signed(&self, sign: bool) -> &SignedOwners
        ensures { result.now ≡ signed_owners self.now sign }
    {
        if sign { &self.positive } else { &self.negative }
    }
}

impl SignedOwners {
    // Those for the literals of this sign.
    fn of<K: ClauseKind>(
        alloc: Global,
        problem: &Problem<'_, K>,
        sign: bool,
    ) -> Result<SignedOwners, AllocError>
        ensures { IfOk result (AreSignedOwners problem.now sign) }
    {
        let mut codes = codes_of(alloc, problem, sign)?;
        rows::sort(&mut codes);
        let heads = rows::heads_of(alloc, &codes)?;
        let places = rows::numbers_of(alloc, &codes)?;
        Ok(SignedOwners { heads, places })
    }

    // The places of the operands that have a literal of this atom, and perhaps others.
    fn row(&self, atom: u32) -> &[u32]
        requires { (p : ProblemOf) × (sign : Bool) × AreSignedOwners p sign self.now }
        ensures { (p : ProblemOf) (sign : Bool) → AreSignedOwners p sign self.now → (place : ℕ)
            → Owns p (record { atom = atom; positive = sign }) place → Contains result.now place }
    {
        rows::numbers_at(&self.heads, &self.places, atom)
    }
}

// The codes of the literals of this sign: the atom is the key, and the operand's place the number.
fn codes_of<K: ClauseKind>(
    alloc: Global,
    problem: &Problem<'_, K>,
    sign: bool,
) -> Result<Vec<usize>, AllocError>
    ensures few { IfOk result (λ _. length problem.now.query.positive ≤ 4294967295) }
    ensures lists { IfOk result (λ codes. ListsUpto problem.now sign
        (length problem.now.query.positive) codes.items) }
{
    let positive = problem.positive();
    if positive.len() > u32::MAX as usize {
        return Err(AllocError);
    }
    let mut codes = Vec::new(alloc);
    for place in 0..positive.len() {
        put_operand(&mut codes, problem, positive[place], sign, place as u32)?;
    }
    Ok(codes)
}

// Puts the codes of the literals of this sign of an operand last.
fn put_operand<K: ClauseKind>(
    codes: &mut Vec<usize>,
    problem: &Problem<'_, K>,
    operand: Operand,
    sign: bool,
    place: u32,
) -> Result<(), AllocError>
    requires { IsNamed (length problem.now.store) operand.which }
    ensures { OnOk result
        (PutsOwner problem.now operand sign place codes.old.items codes.new.items) }
{
    let Which::Set(number) = operand.which else {
        return Ok(());
    };
    let signed = problem.set(number).occurs().signed(sign);
    put_heads(codes, signed.heads, place)?;
    Ok(())
}

// Puts the codes of the literals last that stand somewhere, with this place.
fn put_heads(codes: &mut Vec<usize>, heads: &[RowHead], place: u32) -> Result<(), AllocError>
    ensures { OnOk result
        (Gains (IsCodeOfHead heads.now place) codes.old.items codes.new.items) }
{
    for index in 0..heads.len() {
        codes.push(rows::code_of(heads[index].key, place))?;
    }
    Ok(())
}

/// How many literals are in the positive operands, each once in each; the greatest number, where
/// there are few operands, which are gone through one by one.
pub(crate) fn size_of<K: ClauseKind>(problem: &Problem<'_, K>) -> usize {
    let positive = problem.positive();
    if positive.len() < MANY {
        return usize::MAX;
    }
    let mut size: usize = 0;
    for operand in positive {
        if let Which::Set(number) = operand.which {
            let occurs = problem.set(number).occurs();
            size = size.saturating_add(occurs.signed(false).heads.len());
            size = size.saturating_add(occurs.signed(true).heads.len());
        }
    }
    size
}

/// After how many literals of the trail it has cost as much to go through all positive operands as
/// it does to list those that have each literal. Where these are listed, it is the greatest number.
pub(crate) fn patience<K: ClauseKind>(problem: &Problem<'_, K>, size: usize) -> usize {
    if problem.has_owners() {
        return usize::MAX;
    }
    let count = problem.positive().len();
    (size / count.max(1) / LISTED).max(1)
}

/// Whether so many choices are worth the listing, if each is followed up by a literal or so.
pub(crate) fn pays<K: ClauseKind>(problem: &Problem<'_, K>, size: usize, cost: u64) -> bool {
    let count = problem.positive().len();
    size <= (cost as usize).saturating_mul(count) / CHOICES
}

/// The positive operands that have each literal, if there is memory for them.
pub(crate) fn listed<K: ClauseKind>(
    alloc: Option<Global>,
    problem: &Problem<'_, K>,
) -> Option<ClauseOwners>
    ensures { IfSome result (AreOwners problem.now) }
{
    ClauseOwners::of(alloc?, problem).ok()
}

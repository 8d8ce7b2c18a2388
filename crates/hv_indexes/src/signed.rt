//! The codes of the literals of each sign: the atom is the key, and the clause's place the number.

ghost use Rattle.std.specs.Prelude.{◌≡◌, ◌≤◌, ◌^◌, length, slice_index_or, [], IfOk, OnOk};
ghost use Rattle.std.specs.Prelude.{true, false};
ghost use Rattle.hv_indexes.specs.Working.Signed.{IsSignedCode};
ghost use Rattle.hv_indexes.specs.Working.Rows.{ListsCodes, PutsCodes};
ghost use Rattle.hv_indexes.specs.Rows.{code};

use crate::rows;
use hv_sets::{Clauses, Literal};
use std::alloc::{AllocError, Global};

/// The codes of literals, for each sign.
#[derive(Drop)]
pub(crate) struct SignedCodes {
    pub negative: Vec<usize>,
    pub positive: Vec<usize>,
}

impl SignedCodes {
    // Whether there is none.
    pub(crate) fn is_empty(&self) -> bool
        ensures negative { result ≡ true → self.now.negative.items ≡ [] }
        ensures positive { result ≡ true → self.now.positive.items ≡ [] }
    {
        self.negative.is_empty() && self.positive.is_empty()
    }
}

// The codes of all literals.
pub(crate) fn codes_of(alloc: Global, clauses: &Clauses) -> Result<SignedCodes, AllocError>
    requires { length clauses.now ≤ 2 ^ 32 }
    ensures negative { IfOk result (λ codes. ListsCodes
        (λ k. IsSignedCode false (slice_index_or clauses.now k []) k)
        (length clauses.now) codes.negative.items) }
    ensures positive { IfOk result (λ codes. ListsCodes
        (λ k. IsSignedCode true (slice_index_or clauses.now k []) k)
        (length clauses.now) codes.positive.items) }
{
    let mut negative = Vec::new(alloc);
    let mut positive = Vec::new(alloc);
    for place in 0..clauses.len() {
        put_all(
            &mut negative,
            &mut positive,
            clauses.get(place),
            place as u32,
        )?;
    }
    Ok(SignedCodes { negative, positive })
}

// Puts the codes of the literals of a clause last, each among those of its sign.
fn put_all(
    negative: &mut Vec<usize>,
    positive: &mut Vec<usize>,
    clause: &[Literal],
    number: u32,
) -> Result<(), AllocError>
    ensures negative { OnOk result (PutsCodes (IsSignedCode false clause.now number)
        negative.old.items negative.new.items) }
    ensures positive { OnOk result (PutsCodes (IsSignedCode true clause.now number)
        positive.old.items positive.new.items) }
{
    for literal in clause {
        put(negative, positive, *literal, number)?;
    }
    Ok(())
}

// Puts the code of a literal last among those of its sign.
fn put(
    negative: &mut Vec<usize>,
    positive: &mut Vec<usize>,
    literal: Literal,
    number: u32,
) -> Result<(), AllocError>
    ensures negative { OnOk result (PutsCodes
        (λ c. (literal.positive ≡ false) × (c ≡ code literal.atom number))
        negative.old.items negative.new.items) }
    ensures positive { OnOk result (PutsCodes
        (λ c. (literal.positive ≡ true) × (c ≡ code literal.atom number))
        positive.old.items positive.new.items) }
{
    let code = rows::code_of(literal.atom, number);
    if literal.positive {
        positive.push(code)?;
    } else {
        negative.push(code)?;
    }
    Ok(())
}

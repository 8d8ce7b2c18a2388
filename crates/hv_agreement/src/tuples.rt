//! The live tuples of a query over diagrams, counted by what is left of its operands.
//!
//! Once the bits of the first atoms are known, of a set there is left the set of the states that
//! are in it with these bits in place of their own. A node denotes what is left of its operand,
//! and different nodes for different sets, so a tuple says what is left of each operand; it is live
//! where of no positive operand nothing is left, and of no negative one everything.

use crate::queries::{Wanted, states_in};
use crate::three::{ALL, bit_if, has_bit, result_of};
use hv_sets::{Operand, Query};
use std::alloc::{AllocError, Global};

// The bits of some atoms: those of the code.
#[derive(Clone, Copy)]
struct Bits {
    atoms: u32,
    code: u32,
}

/// No atom, the first one in an order, the first two, and all three.
pub(crate) type Fronts = [u32; 4];

// What is left of the set of these states.
fn left_of(mask: u32, bits: Bits) -> u32 {
    let mut left = 0;
    for code in 0..8 {
        let within = (code & !bits.atoms) | (bits.code & bits.atoms);
        left |= bit_if(code, has_bit(mask, within % 8));
    }
    left
}

// What is left of an operand, which sees the bits after the action if it is asked about then.
fn operand_left(operand: &Operand, wanted: Wanted, bits: Bits) -> u32 {
    let seen = if operand.after {
        result_of(bits.code)
    } else {
        bits.code
    };
    let mask = states_in(operand.which, wanted);
    left_of(
        mask,
        Bits {
            atoms: bits.atoms,
            code: seen,
        },
    )
}

// A live tuple, as a number that has what is left of each operand, with some operands more; none
// where this is left of one of them.
fn with_operands(
    tuple: Option<u32>,
    operands: &[Operand],
    dead: u32,
    wanted: Wanted,
    bits: Bits,
) -> Option<u32> {
    let mut number = tuple?;
    for operand in operands {
        let left = operand_left(operand, wanted, bits);
        if left == dead {
            return None;
        }
        number = (number << 8) | left;
    }
    Some(number)
}

// Whether the code has bits of these atoms alone, and the action, if there is one, allows them.
fn are_allowed(query: &Query, wanted: Wanted, bits: Bits) -> bool {
    let needed = wanted.pre & bits.atoms;
    let allowed = query.action.is_none() || bits.code & needed == needed;
    allowed && bits.code & !bits.atoms == 0
}

// The live tuple to which the bits lead.
fn tuple_at(query: &Query, wanted: Wanted, bits: Bits) -> Option<u32> {
    if !are_allowed(query, wanted, bits) {
        return None;
    }
    let positive = with_operands(Some(1), query.positive.as_slice(), 0, wanted, bits);
    with_operands(positive, query.negative.as_slice(), ALL, wanted, bits)
}

fn put_new(tuples: &mut Vec<u32>, tuple: Option<u32>) -> Result<(), AllocError> {
    if let Some(number) = tuple {
        if !tuples.contains(&number) {
            tuples.push(number)?;
        }
    }
    Ok(())
}

// Puts the live tuples to which bits of these atoms lead.
fn put_all(
    tuples: &mut Vec<u32>,
    query: &Query,
    wanted: Wanted,
    atoms: u32,
) -> Result<(), AllocError> {
    for code in 0..8 {
        put_new(tuples, tuple_at(query, wanted, Bits { atoms, code }))?;
    }
    Ok(())
}

// How many live tuples the query has in the order with these prefixes.
pub(crate) fn live_tuples(
    alloc: Global,
    query: &Query,
    wanted: Wanted,
    fronts: Fronts,
) -> Result<u64, AllocError> {
    let mut tuples = Vec::new(alloc);
    for atoms in fronts {
        put_all(&mut tuples, query, wanted, atoms)?;
    }
    Ok(tuples.len() as u64)
}

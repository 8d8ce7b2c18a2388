//! The pruners that replays ask.

use hv_lines::Pruner;
use hv_reach::{PairPruner, RelaxedPruner};
use hv_trap::TrapPruner;
use std::alloc::{AllocError, Global};

// Puts a pruner last that asks what is reached as if nothing were deleted.
fn put_relaxed(alloc: Global, pruners: &mut Vec<Box<dyn Pruner>>) -> Result<(), AllocError> {
    pruners.push(Box::new(alloc, RelaxedPruner::new(alloc))?)?;
    Ok(())
}

// Puts a pruner last that asks which pairs are reached.
fn put_pairs(alloc: Global, pruners: &mut Vec<Box<dyn Pruner>>) -> Result<(), AllocError> {
    pruners.push(Box::new(alloc, PairPruner::new(alloc))?)?;
    Ok(())
}

// Puts a pruner last that asks for traps.
fn put_trap(alloc: Global, pruners: &mut Vec<Box<dyn Pruner>>) -> Result<(), AllocError> {
    pruners.push(Box::new(alloc, TrapPruner::new(alloc))?)?;
    Ok(())
}

// Puts the three pruners last.
fn put_three(alloc: Global, pruners: &mut Vec<Box<dyn Pruner>>) -> Result<(), AllocError> {
    put_relaxed(alloc, pruners)?;
    put_pairs(alloc, pruners)?;
    put_trap(alloc, pruners)
}

/// The three pruners.
pub(crate) fn three_pruners(alloc: Global) -> Result<Vec<Box<dyn Pruner>>, AllocError> {
    let mut pruners: Vec<Box<dyn Pruner>> = Vec::new(alloc);
    put_three(alloc, &mut pruners)?;
    Ok(pruners)
}

/// The three pruners where these are asked for, and none otherwise.
pub(crate) fn pruners_of(alloc: Global, pruned: bool) -> Result<Vec<Box<dyn Pruner>>, AllocError> {
    if pruned {
        three_pruners(alloc)
    } else {
        Ok(Vec::new(alloc))
    }
}

//! The first line of a node file.

ghost use Rattle.std.specs.Prelude.{◌≡◌, IfOk};
ghost use Rattle.hv_bdd.specs.NodeFile.{first_in};
ghost use Rattle.hv_bdd.specs.OrderLine.{begins_with};

use crate::atom_order::{Order, order_of};
use crate::fault::{NodeKind, NodeLimit, NodeRefusal};
use hv_grammar::{at_most, number_behind};
use std::alloc::{AllocError, Global};

/// The most nodes of a file.
pub(crate) const MOST_NODES: u64 = 16_777_216;

/// What the first line of a node file says.
#[derive(Drop)]
pub enum FirstLine {
    /// The order of the atoms.
    Listed(Order),
    /// How many nodes follow; the atoms rise.
    Counted(u64),
}

// Whether the line begins with the word.
fn begins_with(line: &[u8], word: &[u8]) -> bool
    ensures { result ≡ begins_with word.now line.now }
{
    match line.strip_prefix(word) {
        Some(rest) => {
            let _ = rest;
            true
        },
        None => false,
    }
}

/// What the line says, or what is wrong with it, for a task with so many atoms.
pub(crate) fn first_in(
    alloc: Global,
    line: &[u8],
    atoms: u32,
) -> Result<Result<FirstLine, NodeRefusal>, AllocError>
    ensures { IfOk result (λ said. said ≡ first_in atoms line.now) }
{
    if begins_with(line, b"order") {
        return match order_of(alloc, line, atoms)? {
            Some(order) => Ok(Ok(FirstLine::Listed(order))),
            None => Ok(Err(NodeRefusal::Place(NodeKind::Permutation))),
        };
    }
    let header = NodeRefusal::Place(NodeKind::Header);
    let many = NodeRefusal::Limit(NodeLimit::Nodes);
    match at_most(number_behind(b"nodes ", line), MOST_NODES, header, many) {
        Ok(count) => Ok(Ok(FirstLine::Counted(count))),
        Err(refusal) => Ok(Err(refusal)),
    }
}

//! How many paths lead from a node to an end.

ghost use Rattle.std.specs.Prelude.{◌≡◌, ◌<◌, ◌≤◌, ◌+◌, IfOk, length, min};
ghost use Rattle.hv_bdd.specs.Nodes.{IsNode};
ghost use Rattle.hv_bdd.specs.Paths.{paths};
ghost use Rattle.hv_bdd.specs.Working.Paths.{AreCounted};

use crate::diagrams::Diagrams;
use std::alloc::{AllocError, Global};

/// How many paths lead from the node to the end: exact up to `cap`, and `cap + 1` beyond.
pub(crate) fn path_count(
    alloc: Global,
    nodes: &Diagrams,
    node: u32,
    end: u32,
    cap: u64,
) -> Result<u64, AllocError>
    requires node { IsNode nodes.now node }
    requires cap { cap ≤ 16777216 }
    ensures { IfOk result (λ count. count ≡ min (length (paths nodes.now end node)) (cap + 1)) }
{
    let mut counts = Vec::new(alloc);
    for lesser in 0..node {
        let count = count_at(nodes, counts.as_slice(), lesser, end, cap);
        counts.push(count)?;
    }
    Ok(count_at(nodes, counts.as_slice(), node, end, cap))
}

// The same, where the counts of all lesser nodes are at hand.
fn count_at(nodes: &Diagrams, counts: &[u64], node: u32, end: u32, cap: u64) -> u64
    requires node { IsNode nodes.now node }
    requires cap { cap ≤ 16777216 }
    requires counts { AreCounted nodes.now end cap counts.now }
    requires lesser { node ≤ length counts.now }
    ensures { result ≡ min (length (paths nodes.now end node)) (cap + 1) }
{
    if node < 2 {
        return if node == end { 1 } else { 0 };
    }
    let listed = nodes.node(node);
    (counts[listed.low as usize] + counts[listed.high as usize]).min(cap + 1)
}

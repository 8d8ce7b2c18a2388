//! Kinds of places and limits of a node file, and why one isn't read.

ghost use Rattle.std.specs.Prelude.{◌≡◌};
ghost use Rattle.hv_bdd.specs.declared.fault.NodesFault.TheVariants as F;
ghost use Rattle.hv_bdd.specs.Words.{node_kind_word, node_limit_word};
ghost use Rattle.hv_bdd.specs.NodeFile.{nodes_fault};

use hv_grammar::ParseFault;
use std::alloc::AllocError;
use thiserror::Error;

/// What isn't as it should be at a place of a node file, in the order in which a line is tested.
#[derive(Clone, Copy, Debug, PartialEq, Eq)]
pub enum NodeKind {
    /// The first line begins as that of an order, and doesn't have each atom once.
    Permutation,
    /// The first line, or that behind an order, doesn't say how many nodes follow.
    Header,
    /// The line isn't three decimals, or it isn't there.
    Node,
    /// The atom isn't one of the task.
    Atom,
    /// A child isn't listed before the node.
    Child,
    /// A child doesn't ask for a later atom.
    Order,
    /// The two children are one node.
    SameChildren,
    /// An earlier node has the same atom and children.
    Twin,
    /// A line follows the last node.
    End,
}

/// A limit that a line of a node file exceeds.
#[derive(Clone, Copy, Debug, PartialEq, Eq)]
pub enum NodeLimit {
    /// More than 16,777,216 nodes.
    Nodes,
    /// A line of too many bytes, or too far from the start of the file.
    Long,
}

/// Why a line of a node file is refused.
#[derive(Clone, Copy, Debug, PartialEq, Eq)]
pub enum NodeRefusal {
    /// What its place expects isn't there.
    Place(NodeKind),
    /// The line is there, and exceeds this limit.
    Limit(NodeLimit),
}

/// Why a node file isn't read. Lines are counted from 1; at the end of the input the line is the
/// one after the last.
#[derive(Clone, Copy, Debug, PartialEq, Eq, Error)]
pub enum NodesFault {
    /// What this place expects isn't there.
    #[error("line {0} isn't what the text expects there")]
    Place(u64, NodeKind),
    /// The line is there, and exceeds this limit; or it is long, whatever its form.
    #[error("line {0} passes a limit")]
    Limit(u64, NodeLimit),
    /// The shelf failed.
    #[error("the file can't be read")]
    ReadFault,
    /// Memory ran out.
    #[error("out of memory")]
    Memory,
}

impl From<AllocError> for NodesFault {
    ghost from_gives = { λ _ fault. fault ≡ F.Memory };

    fn from(_error: AllocError) -> NodesFault {
        NodesFault::Memory
    }
}

impl From<ParseFault<NodeRefusal>> for NodesFault {
    ghost from_gives = { λ given fault. fault ≡ nodes_fault given };

    fn from(given: ParseFault<NodeRefusal>) -> NodesFault {
        match given {
            ParseFault::Refused(line, NodeRefusal::Place(kind)) => NodesFault::Place(line, kind),
            ParseFault::Refused(line, NodeRefusal::Limit(limit)) => NodesFault::Limit(line, limit),
            ParseFault::Long(line) => NodesFault::Limit(line, NodeLimit::Long),
            ParseFault::ReadFault => NodesFault::ReadFault,
            ParseFault::Memory => NodesFault::Memory,
        }
    }
}

impl NodeKind {
    /// The word that names the kind in a refusal.
    pub fn word(&self) -> &'static str
        ensures { result.now ≡ node_kind_word self.now }
    {
        match self {
            NodeKind::Permutation => "permutation",
            NodeKind::Header => "header",
            NodeKind::Node => "node",
            NodeKind::Atom => "atom",
            NodeKind::Child => "child",
            NodeKind::Order => "order",
            NodeKind::SameChildren => "same_children",
            NodeKind::Twin => "twin",
            NodeKind::End => "end",
        }
    }
}

impl NodeLimit {
    /// The word that names the limit in a refusal.
    pub fn word(&self) -> &'static str
        ensures { result.now ≡ node_limit_word self.now }
    {
        match self {
            NodeLimit::Nodes => "nodes",
            NodeLimit::Long => "long",
        }
    }
}

//! Nodes that come one after another, and are tested in blocks of 64: what the tests of a block
//! will read is read ahead, so that the look-ups of one node don't wait for those of another.
//! Whatever ends the reading, the nodes that wait are tested first, so the first fault is the same.
//!
//! The tests of a line are in the order of the kinds of fault, so a contract can say "the first
//! fault" by one function of the list and the numbers. What comes of the lines that follow nodes
//! that are read and not yet tested is a part of the format like any other (`behind_tried`).

ghost use Rattle.std.specs.Prelude.{◌≡◌, ◌<◌, ◌≤◌, ◌+◌, [], OnOk, length, map};
ghost use Rattle.hv_bdd.specs.Working.Building.{as_node};
ghost use Rattle.hv_bdd.specs.Working.Chains.{IsChained};
ghost use Rattle.hv_bdd.specs.Working.Listing.{IsEarliest, IsListing, ListsAll, MakesRoom};
ghost use Rattle.hv_bdd.specs.Working.Listing.{PutsNode, Finishes, Settles, read_count};

use crate::building::add;
use crate::chains::Chains;
use crate::diagrams::Diagrams;
use crate::fault::NodeRefusal;
use crate::numbers::Triple;
use hv_grammar::ParseFault;
use std::alloc::Global;

// So many nodes are read before they are tested.
pub(crate) const BLOCK: usize = 64;

/// The nodes of a file that were read so far.
#[derive(Drop)]
pub struct NodeListing {
    list: Diagrams,
    // The listed nodes, by their numbers.
    seen: Chains,
    // The nodes that were read last, and aren't tested yet.
    waiting: Vec<Triple>,
}

impl NodeListing {
    /// No node yet, where there will be no more than so many.
    pub fn new(alloc: Global, list: Diagrams, most: usize) -> NodeListing
        requires { list.nodes ≡ [] }
        ensures ready { IsListing result }
        ensures list { result.list ≡ list }
        ensures waiting { result.waiting.items ≡ [] }
    {
        NodeListing {
            list,
            seen: Chains::new(alloc, most),
            waiting: Vec::new(alloc),
        }
    }

    /// Takes one more node.
    pub fn put(&mut self, triple: Triple) -> Result<(), ParseFault<NodeRefusal>>
        requires ready { IsListing self.old }
        requires few { read_count self.old < 16777216 }
        ensures { PutsNode result self.old triple self.new }
    {
        self.make_room()?;
        match self.waiting.push(triple) {
            Ok(()) => Ok(()),
            Err(_) => Err(ParseFault::Memory),
        }
    }

    // Sees to it that fewer nodes wait than a block has.
    fn make_room(&mut self) -> Result<(), ParseFault<NodeRefusal>>
        requires { IsListing self.old }
        ensures { MakesRoom result self.old self.new }
    {
        if self.waiting.len() < BLOCK {
            return Ok(());
        }
        self.settle()
    }

    // Tests the nodes that wait, and lists them.
    fn settle(&mut self) -> Result<(), ParseFault<NodeRefusal>>
        requires { IsListing self.old }
        ensures { Settles result self.old self.new }
    {
        let waiting = self.waiting.as_slice();
        self.seen.look_ahead(self.list.listed(), waiting);
        add_all(&mut self.list, &mut self.seen, waiting)?;
        self.waiting.clear();
        Ok(())
    }

    /// The fault of a node that was read, or else this one.
    pub fn earliest(mut self, fault: ParseFault<NodeRefusal>) -> ParseFault<NodeRefusal>
        requires { IsListing self }
        ensures { IsEarliest self fault result }
    {
        match self.settle() {
            Err(earlier) => earlier,
            Ok(()) => fault,
        }
    }

    /// The list of the nodes.
    pub fn finish(mut self) -> Result<Diagrams, ParseFault<NodeRefusal>>
        requires { IsListing self }
        ensures { Finishes result self }
    {
        self.settle()?;
        Ok(self.list)
    }
}

// Tests these nodes and lists them.
fn add_all(
    list: &mut Diagrams,
    seen: &mut Chains,
    triples: &[Triple],
) -> Result<(), ParseFault<NodeRefusal>>
    requires few { length list.old.nodes + length triples.now ≤ 16777216 }
    requires seen { IsChained list.old.nodes seen.old }
    ensures lists { ListsAll result list.old (map as_node triples.now) list.new }
    ensures size { OnOk result
        (length list.new.nodes ≡ length list.old.nodes + length triples.now) }
    ensures seen { OnOk result (IsChained list.new.nodes seen.new) }
{
    for triple in triples {
        if let Some(kind) = add(list, seen, triple)? {
            let line = list.listed().len() as u64 + list.node_start();
            return Err(ParseFault::Refused(line, NodeRefusal::Place(kind)));
        }
    }
    Ok(())
}

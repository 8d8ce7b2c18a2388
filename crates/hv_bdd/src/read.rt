//! Node files from a shelf, line by line.

ghost use Rattle.std.specs.Prelude.{◌≡◌, ◌+◌, ◌≤◌, ◌^◌, [], IsTrue, IfOk, IfSome, IsErrOf};
ghost use Rattle.hv_bytes.specs.Devices.{Rose};
ghost use Rattle.hv_bytes.specs.Files.{bytes_of};
ghost use Rattle.hv_grammar.specs.Parsers.{line};
ghost use Rattle.hv_grammar.specs.Positions.{CanRead};
ghost use Rattle.hv_grammar.specs.Reads.{Reads};
ghost use Rattle.hv_bdd.specs.declared.fault.NodeKind.TheVariants as K;
ghost use Rattle.hv_bdd.specs.declared.fault.NodeRefusal.TheVariants as Refusal;
ghost use Rattle.hv_bdd.specs.NodeFile.{behind_first, behind_order, first_in, node_file, node_in};
ghost use Rattle.hv_bdd.specs.NodeFile.{so_many};
ghost use Rattle.hv_bdd.specs.NodeText.{IsNodesReadFrom};
ghost use Rattle.hv_bdd.specs.Working.NodeText.{IsBegun, as_nodes, node_start};

use crate::diagrams::Diagrams;
use crate::fault::{NodeKind, NodeLimit, NodeRefusal, NodesFault};
use crate::first::{FirstLine, MOST_NODES, first_in};
use crate::node_listing::NodeListing;
use crate::numbers::{Triple, triple_of};
use hv_bytes::{Limits, Shelf};
use hv_grammar::{
    ParseFault, Reader, Source, at_line, end_of_input, next_line, numbered_line, open,
};
use std::alloc::Global;

/// Reads the node file of this name, over so many atoms. It answers with the diagrams exactly where
/// the file is the text of a reduced ordered list of nodes within the limits, and otherwise with
/// its first fault. It takes memory for the nodes that it read, whatever number of them the first
/// line says.
pub fn read_nodes<S: Shelf>(
    alloc: Global,
    shelf: &mut S,
    name: &str,
    atoms: u32,
    limits: Limits,
) -> Result<Diagrams, NodesFault>
    requires allowed { IsTrue (S.allows shelf.old name.now) }
    requires line { limits.line ≤ 2 ^ 62 }
    requires file { limits.file ≤ 2 ^ 62 }

    // where the source's bytes are known
    ensures read { IfSome (S.held shelf.old) (λ held.
        IsNodesReadFrom limits atoms (bytes_of held name.now) result) }
    ensures atoms { IfOk result (λ list. list.atoms ≡ atoms) }

    ensures held { S.held shelf.new ≡ S.held shelf.old }
    ensures allows { S.allows shelf.new ≡ S.allows shelf.old }

    ensures later { S.faults shelf.old ≤ S.faults shelf.new }
    ensures cause { IsErrOf result NodesFault.ReadFault →
        Rose (S.faults shelf.old) (S.faults shelf.new) }
{
    let mut lines = open(alloc, shelf, name, limits)?;
    let mut reader = Reader::new(&mut lines, shelf);
    match whole(alloc, &mut reader, atoms) {
        Ok(list) => Ok(list),
        Err(fault) => Err(NodesFault::from(fault)),
    }
}

// The whole file.
fn whole<R: Source>(
    alloc: Global,
    reader: &mut R,
    atoms: u32,
) -> Result<Diagrams, ParseFault<NodeRefusal>>
    requires can { CanRead (R.position reader.old) }
    requires start { (R.position reader.old).lines.number ≡ 0 }
    ensures reads { Reads (node_file atoms) (R.position reader.old) (R.position reader.new) result }
    ensures atoms { IfOk result (λ list. list.atoms ≡ atoms) }
{
    let first = first_line(alloc, reader, atoms)?;
    let list = behind_first(alloc, reader, atoms, first)?;
    end_of_input(reader, NodeRefusal::Place(NodeKind::End))?;
    Ok(list)
}

// The first line.
fn first_line<R: Source>(
    alloc: Global,
    reader: &mut R,
    atoms: u32,
) -> Result<FirstLine, ParseFault<NodeRefusal>>
    requires { CanRead (R.position reader.old) }
    ensures reads { Reads (line (Refusal.Place K.Header) (first_in atoms))
        (R.position reader.old) (R.position reader.new) result }
    ensures next { IfOk result (λ _. (R.position reader.new).lines.number
        ≡ (R.position reader.old).lines.number + 1) }
    ensures begun { IfOk result (IsBegun atoms) }
{
    next_line(reader, NodeRefusal::Place(NodeKind::Header))?;
    let said = first_in(alloc, reader.line(), atoms)?;
    at_line(reader, said)
}

// What is behind the first line.
fn behind_first<R: Source>(
    alloc: Global,
    reader: &mut R,
    atoms: u32,
    first: FirstLine,
) -> Result<Diagrams, ParseFault<NodeRefusal>>
    requires can { CanRead (R.position reader.old) }
    requires start { (R.position reader.old).lines.number ≡ 1 }
    requires begun { IsBegun atoms first }
    ensures reads { Reads (behind_first atoms first)
        (R.position reader.old) (R.position reader.new) result }
    ensures atoms { IfOk result (λ list. list.atoms ≡ atoms) }
{
    match first {
        FirstLine::Listed(order) => {
            behind_order(alloc, reader, Diagrams::by_order(alloc, atoms, order))
        }
        FirstLine::Counted(count) => nodes(alloc, reader, Diagrams::none(alloc, atoms), count),
    }
}

// What is behind an order, by which this list has no nodes yet.
fn behind_order<R: Source>(
    alloc: Global,
    reader: &mut R,
    list: Diagrams,
) -> Result<Diagrams, ParseFault<NodeRefusal>>
    requires can { CanRead (R.position reader.old) }
    requires start { (R.position reader.old).lines.number + 2 ≡ node_start list.order }
    requires none { list.nodes ≡ [] }
    ensures reads { Reads (behind_order list)
        (R.position reader.old) (R.position reader.new) result }
    ensures atoms { IfOk result (λ read. read.atoms ≡ list.atoms) }
{
    let count = numbered_line(
        reader,
        b"nodes ",
        MOST_NODES,
        NodeRefusal::Place(NodeKind::Header),
        NodeRefusal::Limit(NodeLimit::Nodes),
    )?;
    nodes(alloc, reader, list, count)
}

// So many nodes, behind none.
fn nodes<R: Source>(
    alloc: Global,
    reader: &mut R,
    list: Diagrams,
    count: u64,
) -> Result<Diagrams, ParseFault<NodeRefusal>>
    requires can { CanRead (R.position reader.old) }
    requires start { (R.position reader.old).lines.number + 1 ≡ node_start list.order }
    requires few { count ≤ 16777216 }
    requires none { list.nodes ≡ [] }
    ensures reads { Reads (so_many list count)
        (R.position reader.old) (R.position reader.new) result }
    ensures atoms { IfOk result (λ read. read.atoms ≡ list.atoms) }
{
    let mut listing = NodeListing::new(alloc, list, count as usize);
    for done in 0..count {
        let _ = done;
        match node(reader) {
            Ok(triple) => listing.put(triple)?,
            Err(fault) => return Err(listing.earliest(fault)),
        }
    }
    listing.finish()
}

// The line of a node.
fn node<R: Source>(reader: &mut R) -> Result<Triple, ParseFault<NodeRefusal>>
    requires { CanRead (R.position reader.old) }
    ensures reads { Reads (line (Refusal.Place K.Node) node_in)
        (R.position reader.old) (R.position reader.new) (as_nodes result) }
    ensures next { IfOk result (λ _. (R.position reader.new).lines.number
        ≡ (R.position reader.old).lines.number + 1) }
{
    next_line(reader, NodeRefusal::Place(NodeKind::Node))?;
    match triple_of(reader.line()) {
        Some(triple) => Ok(triple),
        None => {
            let refusal = NodeRefusal::Place(NodeKind::Node);
            Err(ParseFault::Refused(reader.number(), refusal))
        }
    }
}

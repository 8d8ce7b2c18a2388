//! Decision diagrams: the nodes of a node file, as sets of states, and queries about them.
//!
//! An order of the atoms is a list of them, or none where they rise: so a file without an order
//! costs what it did, and what is said of nodes, paths and tuples is said by places (`place`,
//! `atom_at`), whatever the order. One pass over the line writes the list, and the place of each
//! atom. The list is as long as there are atoms, so each occurs in it once if each has a place.
//!
//! Where an order is listed and the goal is among the operands, the next place of the goal is
//! looked for at the places that follow, and then by the places of all its atoms; the search counts
//! what this costs before each move, and lists the places of all the atoms, rising, once it comes
//! to as much as that: from then on the next place is found in this list, as an atom is in the goal
//! where atoms rise. A `NodeInquiry`, which asks many queries about one task, keeps the list for
//! all of them. So queries that ask for few of the atoms, or for such as follow each other closely,
//! list nothing, and no inquiry costs more than a few times the listing besides.
//!
//! From its second query on an inquiry also keeps, for one list of operands, the places for which
//! tuples asked and how many tuples there were, once an action that marks none of these places had
//! no counterexample (`untouched.rt`). No other action that marks none of them has one then, by as
//! many tuples, so none of these is searched for; but where an action has many more marks than
//! there were tuples, these aren't looked at.
//!
//! A tuple's places are the positive operands of a query and then the negative ones: the order of
//! the places doesn't change the number of tuples. An operand that says that a state isn't in the
//! empty set has no place: with it there are as many tuples. The tuples of a query are swept place
//! by place, and are given back once they have moved (`place_sweep.rt`). Where one ends, the search
//! that keeps all of them follows, with a link from each tuple to the one before it, which gives
//! the counterexample backwards, so no bits are stored (`reach.rt`). It follows, too, where too
//! many tuples wait while others move, and later queries for the same operands begin with it then.
//! That search alone serves `meets` and `covers`.
//!
//! The other modules, by what they do: `read` reads a node file, by `first`, `numbers` and
//! `building`; `node_listing` tests its nodes, and `chains` finds them. `fault` says why a file
//! isn't read, `laws` that it has one answer. `diagrams` has the list, `atom_order` the order of
//! its atoms, `set` what a node denotes, `walk` and `counts` the paths. A query asks for `asked`
//! sets, by `node_queries` or `node_inquiry`; `tuple_search` has how a tuple moves, `atom_bits`
//! what an action needs or changes, `goal` the goal, and `jumps` a state's quick way down. For
//! inclusions `path_walk` goes along the paths, and `front_ask` answers about a cube by the fronts
//! of nodes (`level`, `node_fronts`) and by which literals exclude each other (`node_exclusions`);
//! `paths` joins both to the traits.
#![tactic(auto)]

pub mod asked;
mod atom_bits;
pub mod atom_order;
mod building;
mod chains;
mod counts;
pub mod diagrams;
pub mod fault;
pub mod first;
mod front_ask;
mod goal;
mod jumps;
pub mod laws;
mod level;
pub mod node;
mod node_exclusions;
mod node_fronts;
pub mod node_inquiry;
mod node_listing;
mod node_queries;
mod numbers;
mod path_walk;
mod paths;
mod place_sweep;
mod reach;
pub mod read;
pub mod set;
mod tuple_search;
mod untouched;
mod walk;

pub use asked::Asked;
pub use diagrams::Diagrams;
pub use fault::{NodeKind, NodeLimit, NodeRefusal, NodesFault};
pub use front_ask::FrontAsk;
pub use laws::{one_answer, text_by_lines};
pub use node::Node;
pub use node_inquiry::NodeInquiry;
pub use read::read_nodes;
pub use set::DiagramSet;

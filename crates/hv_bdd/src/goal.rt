//! The goal as an operand of queries.

ghost use Rattle.std.specs.Prelude.{◌≡◌, ◌≤◌, None};

use crate::asked::Asked;
use crate::atom_bits::ListedState;
use crate::diagrams::Diagrams;
use hv_sets::Which;

/// The atoms of a goal, and their places in the order, where these were listed.
#[derive(Drop)]
pub(crate) struct Goal<'a> {
    pub held: ListedState<'a>,
    pub places: GoalPlaces,
    /// Whether it is counted what it costs to look for the next place. Only how long a query takes
    /// hangs on it.
    pub counts: bool,
}

/// The places of a goal's atoms, rising, once they are listed.
#[derive(Drop)]
pub(crate) struct GoalPlaces {
    pub listed: Option<Vec<u32>>,
    /// How much may still be spent on looking for the next place before they are listed, or nothing
    /// where they aren't to be. Only how long queries take hangs on it.
    pub left: u32,
}

impl GoalPlaces {
    /// Not listed yet, for the goal of these atoms.
    pub(crate) fn none_yet(nodes: &Diagrams, held: &ListedState<'_>) -> GoalPlaces
        ensures { result.listed ≡ None }
    {
        let left = if nodes.lists_order() {
            cost_of_listing(nodes, held)
        } else {
            0
        };
        GoalPlaces { listed: None, left }
    }

    /// Never listed.
    pub(crate) fn never() -> GoalPlaces
        ensures { result.listed ≡ None }
    {
        GoalPlaces {
            listed: None,
            left: 0,
        }
    }
}

/// How many places of the order are looked at before all atoms of the goal are: to look for one of
/// them at a place takes some eight times as long as to look up the place of one.
pub(crate) fn near(held: &ListedState<'_>) -> u32 {
    size(held) / 8
}

/// Whether the goal is among the operands. Only how long a query takes hangs on it.
pub(crate) fn is_asked(asked: &[Asked]) -> bool {
    for operand in asked {
        if let Which::Goal = operand.which {
            return true;
        }
    }
    false
}

// What it costs to list the places, in places that are looked at.
fn cost_of_listing(nodes: &Diagrams, held: &ListedState<'_>) -> u32 {
    size(held) / 4 + nodes.atoms() / 2048 + 8
}

// How many atoms it has, as far as a task can have them.
fn size(held: &ListedState<'_>) -> u32
    ensures { result ≤ 65535 }
{
    held.listed().len().min(65535) as u32
}

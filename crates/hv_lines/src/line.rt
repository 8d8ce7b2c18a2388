//! The lines of a proof: action sets, sets of states, and claims with their words.

use crate::action_list::ActionList;
use crate::premises::Premises;
use hv_sets::{Clauses, StateList};

/// A set of states that every task has.
#[derive(Clone, Copy, Debug, PartialEq, Eq)]
pub enum Constant {
    /// No state.
    Empty,
    /// The initial state alone.
    Start,
    /// The states that hold the whole goal.
    Goal,
}

/// What an `e` line says: a set of states. A `usize` is the identifier of an earlier `e` line, and
/// in `After` and `Before` the second one that of an earlier `a` line.
#[derive(Drop)]
pub enum Expr {
    /// A set that every task has.
    Constant(Constant),
    /// A Horn formula: each clause has at most one positive atom.
    Horn(Clauses),
    /// A dual Horn formula: each clause has at most one negative atom.
    Dual(Clauses),
    /// A 2CNF formula: each clause has at most two literals.
    Two(Clauses),
    /// An explicit set: the states are listed.
    States(StateList),
    /// A node of the node file, or 0 or 1.
    Node(u32),
    /// The states that aren't in the set.
    Not(usize),
    /// The states in both sets.
    And(usize, usize),
    /// The states in at least one of the sets.
    Or(usize, usize),
    /// Progression: the results of the actions in the states of the set.
    After(usize, usize),
    /// Regression: the states in which some of the actions leads into the set.
    Before(usize, usize),
}

/// What an `a` line says: a set of actions. A `usize` is the identifier of an earlier `a` line.
#[derive(Drop)]
pub enum Acts {
    /// All actions of the task.
    All,
    /// The actions with these numbers.
    List(ActionList),
    /// The actions in at least one of the sets.
    Both(usize, usize),
}

/// What a `k` line claims.
#[derive(Clone, Copy, Debug, PartialEq, Eq)]
pub enum Statement {
    /// Each state of the first set is in the second.
    Sub(usize, usize),
    /// Each action of the first action set is in the second.
    ActSub(usize, usize),
    /// No plan traverses a state of the set.
    Dead(usize),
    /// No list of actions is a plan.
    Unsolvable,
}

/// How a `k` line is justified: the five kinds of basic statement, and the 23 derivation rules
/// (after the proof system of Eriksson, Röger and Helmert, 2018, and Eriksson, 2019; the letters
/// are this project's own).
#[derive(Clone, Copy, Debug, PartialEq, Eq)]
pub enum Word {
    /// A basic inclusion between sets as they stand.
    B1,
    /// A basic inclusion with a progression on the left.
    B2,
    /// A basic inclusion with a regression on the left.
    B3,
    /// A basic inclusion between formulas of two families.
    B4,
    /// A basic inclusion between action sets.
    B5,
    /// The empty set is dead.
    Ed,
    /// The union of two dead sets is dead.
    Ud,
    /// A set within a dead set is dead.
    Sd,
    /// A set that leads only into itself or a dead set, and whose goal states are dead, is dead.
    Pg,
    /// What is outside a set that holds the initial state and leads only into itself or a dead set
    /// is dead.
    Pi,
    /// What is outside a set that is led into only from itself or a dead set is dead, where the
    /// goal states out there are.
    Rg,
    /// A set that is led into only from itself or a dead set, and doesn't hold the initial state,
    /// is dead.
    Ri,
    /// There is no plan where the initial state is dead.
    Ci,
    /// There is no plan where the goal states are dead.
    Cg,
    /// A set is within its union with another on the right.
    Ur,
    /// A set is within its union with another on the left.
    Ul,
    /// An intersection is within its left part.
    Ir,
    /// An intersection is within its right part.
    Il,
    /// Intersection distributes over union.
    Di,
    /// A union is within what both its parts are within.
    Su,
    /// What is within two sets is within their intersection.
    Si,
    /// Inclusion is transitive.
    St,
    /// Fewer actions have fewer results.
    At,
    /// Where the results of each of two action sets are within a set, so are those of their union.
    Au,
    /// A smaller set has fewer results.
    Pt,
    /// Where the results in each of two sets are within a set, so are those in their union.
    Pu,
    /// Where all results of a set are within another, the states with a result outside the other
    /// are outside the set.
    Pr,
    /// Where the states with a result outside one set are outside another, all results of the other
    /// are within the one.
    Rp,
}

/// A line of a proof. Its identifier is the number of earlier lines of its letter.
#[derive(Drop)]
pub enum Line {
    /// An `a` line: it names a set of actions.
    Acts {
        id: usize,
        acts: Acts,
    },
    /// An `e` line: it names a set of states.
    Expr {
        id: usize,
        expr: Expr,
    },
    /// A `k` line: it claims a statement, and says why it is true.
    Known {
        id: usize,
        statement: Statement,
        word: Word,
        premises: Premises,
    },
}

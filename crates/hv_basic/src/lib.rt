//! Basic statements, which are decided without premises: their shapes, the stores of formulas, and
//! their verdicts.
//!
//! The way of a statement with the word `b2`, which says that a left set, whose leaves are literals
//! and one progression, is within a right one, whose leaves are literals:
//!
//! - `shared_verdicts::verdict_of` takes it, with the `case` that it is judged in (task, lines,
//!   nodes, stores, budget) and what is kept of the right sides before it (`shared`).
//! - `lefts::left_of` reads the left side, once for both ways of asking: `leaves` takes it apart
//!   and reads of each leaf's line which literal that is and of what family, `kept_leaves` keeps
//!   that of an intersection, `signed_sets` gathers what the literals ask about, and the set of the
//!   progression is read like it.
//! - `recent` brings what is kept of the right side, if that is a union, or of a part of it, and
//!   `rights` keeps it, if its leaves are literals: where it is what is kept and a further set,
//!   only the leaves of that set are looked up.
//! - Where what is kept serves, `told` looks whether the left side asks for a set that the right
//!   one has, or for one that is within it by few literals: then the statement is true.
//! - Else, where all that the left side asks about is positive, the question is there already:
//!   `families` says whose family it is, and `rising` puts the left part in order.
//! - Else `shapes::question_beside` makes the question: `sides` reads the leaves of the right side
//!   too, `families` looks for the one family, and `rising` puts both parts in order.
//! - Either way `verdicts::decide_sets` decides the question. It makes the query of it by the names
//!   that the `store` keeps. `candidates` says for which actions it is asked: where these are all,
//!   or most (`long_lists`), and few states are asked about before the action, for those that can
//!   be applicable there, by the `action_rows` that the `store` keeps; where one formula is asked
//!   about at both times (`framed`), for those that can turn a literal of it (`turned`), by the
//!   `change_rows` that the `store` keeps, or by a look at each action (`turned_by_look`); where
//!   that formula says of pairs of atoms that they exclude each other, for those that its
//!   `companions` don't tell to stay in it (`exclusions`); where formulas before the action deny
//!   atoms (`denied`), for those that need none of these, by the `action_rows` too. Those that rows
//!   give are `picked` out by their numbers. Else `actions` lists the actions of the progression:
//!   those of a list that rises as they are there, else by the flags of `acts`. For each of them
//!   `clausal_walk` asks the query of the store of the family by one inquiry, `node_walk` asks it
//!   of the diagrams in the same way, and `query_walk` of listed states; the first query that
//!   exceeds the budget or has a counterexample decides.
//!
//! Statements with `b1` and `b3` go the same way, without a step or with a regression. Those with
//! `b4`, of two families, are decided in `mixed`, over the formulas that `any_formula` finds, and
//! those with `b5`, of action sets, in `acts_verdicts`, by the flags of `acts`, which `kept_flags`
//! keeps. What such a statement asks is what `basic` holds, as `shape` gives it. `kinds` says
//! whether clauses are of their family, and `laws` what a verdict says of its statement.
//!
//! What a right side asks is kept for the statements after it, of the four unions that were asked
//! about last. One of these is there already, and where a right side is the union of one of them
//! and a further set, only that set is looked at, and its leaves are put where they belong by their
//! identifiers. So n unions, each of which has the one before as a part and is asked about in a
//! line of its own, cost their number of lines, in whatever order their parts were written; and so
//! do four such rows of unions that are asked about by turns. Every other union on the right is
//! looked at anew and kept in place of the one that wasn't asked about for longest. The leaves of
//! the four intersections that were on the left last are kept in the same way, and what they ask is
//! gathered for each statement. Negations among the leaves on the right are kept beside, with their
//! family: what they ask about has the sign of the left side, and is gathered with what that asks,
//! where the statement isn't told to be true before. Where a negation
//! on the left gives it something that is asked about with the sign of the right one, the statement
//! is decided as if nothing were kept. What is kept is the negative half of a question and of its
//! query; the invariant says that it is right for the lines so far, and a further line changes
//! nothing of it. The operands of a right side whose sets didn't come in order are made once a
//! query is asked.
//!
//! An intersection on the left that was asked about before, has 16 leaves or more, and whose leaves
//! are formulas in clauses of one family, with few clauses and literals, is kept as one formula
//! with the clauses of all (`joint`, `kept_joints`), of the four left sides that were made so last.
//! A statement without an action whose right side is one formula of the family is decided on it:
//! each clause of the right formula is made false, and costs what follows from that, and not the
//! number of leaves.
//!
//! Where the left side asks for a set that the right one has, no query is asked, since no state is
//! in a set and outside of it. For that the cost has to be known to be within the budget: over
//! formulas in clauses that is the number of ways to choose one clause of each, which is kept with
//! the right side (nothing is known of it where the initial state or the goal is among the sets);
//! over listed states the length of the one list that the left side asks about. A right side that
//! is one formula in clauses is looked for in the same way, whether it is kept or not. Nor is one
//! asked where the left side asks for a formula, at the time of the right side, with a clause each
//! of whose literals is in the only clause of some set of the right one, or the opposite of a lone
//! literal of a formula that the right side has the negation of: a state in which the clause is
//! true is in such a set, or outside of such a formula. The literals of the sets whose only clause
//! has at most four, and of negated formulas with at most eight clauses, are kept with the right
//! side; on the left at most eight sets are looked at, each with at most eight clauses. This is
//! looked for before what the negations ask is gathered, so that a union that grows by negations
//! doesn't cost more than one that grows by formulas.
//!
//! An action set is looked at from its newest part to its oldest, each part once, so a union that
//! shares its parts costs its number of lines and not of paths. A list of actions that rises is
//! asked about as it is, so a statement over a few actions doesn't cost their whole number. The
//! flags of four action sets are kept, of those that were compared by flags last: where a further
//! one is the union of one of these and a list, only the list is looked at. A set is within a union
//! of which it is a part without a look at its actions.
//!
//! Where few states are asked about before the action, a statement over all actions is asked about
//! those actions alone that can be applicable in one of the states, and about the first one, which
//! has the cost, since all have the same. For this the actions are in rows, each in that of an atom
//! of its precondition, the shortest at the time. The store makes the rows with the ninth explicit
//! set; a statement over clauses that has the initial state before the action makes them where the
//! store has none, since each query would put that state down anew. All actions are asked about
//! where a list has more than 64 states, or the rows of its atoms have more than a quarter as many
//! actions as the task; over diagrams, whose cost hangs on the action; and where the action set is
//! a union or a short list. The atoms of a state are compared as rising lists, which differ exactly
//! where the states do.
//!
//! Where the action set is a list that rises and has at least half of the task's actions
//! (`long_lists`), the actions are found in the same ways, and those are asked about that it lists,
//! and the first one that it lists, which has the cost. They are looked up in the list, which isn't
//! gone through but to see that it rises.
//!
//! Where a formula in clauses is asked about positively before the action and negatively after it,
//! a counterexample leads out of the formula, so its action makes some literal of it false: it
//! deletes the atom of a positive one, or adds that of a negative one. With a regression it leads
//! into the formula, and makes some literal true. So a statement over all actions is asked about
//! those actions alone that change such an atom so, and about the first one. They are in the rows
//! of these atoms, which the store makes with the ninth formula in clauses. Before that, and where
//! the literals and the actions in their rows are together more than a quarter as many as the
//! task's actions, each action is looked at, and the atoms have flags. All actions are asked about
//! where the literals are that many themselves, with a sixteenth of the atoms for the flags; or,
//! where several formulas are asked about positively, where they are more for each action than six
//! and one for each of these formulas and of their clauses, but for the formula with the most,
//! since to ask about an action may be to go through the clauses of the others, above all of those
//! that are asked about after it. Of several formulas that are asked about at both times the one is
//! taken for which the least is looked at.
//!
//! Where that formula's clauses have at most two literals, all negative or all positive, are many
//! beside the atoms and their words, as where they say which pairs of atoms are never reached, and
//! are at most 32 for each action that can turn one of its literals, a word has what 64 atoms say:
//! for each atom those that can be true beside it, or false, are worked out for the statement. An
//! action that leads out of the formula turns an atom of some clause whose other atom has the value
//! too, afterwards. So it is left out if each atom that is no companion of one that it turns is
//! known not to have the value: by the action's own lists, or since it is no companion of an atom
//! that the precondition needs, and isn't turned. All this takes some words an atom of the action's
//! lists, and not the clauses of these atoms. Where the actions are found by rows, it isn't done.
//!
//! Where formulas in clauses are asked about before the action, an atom that one of their clauses
//! denies, as its only literal, is in no state there, and no action that needs it is applicable. So
//! before each action is looked at, a statement over all actions is asked about those alone that
//! aren't in the row of such an atom, by their preconditions, and about the first one: if these
//! rows are there, and the other rows have at most a quarter of the actions.
#![tactic(auto)]

mod actions;
mod acts;
mod acts_verdicts;
mod any_formula;
pub mod basic;
mod candidates;
pub mod case;
mod change_rows;
mod clausal_walk;
mod companions;
mod denied;
mod exclusions;
mod families;
mod framed;
mod joint;
mod kept_flags;
mod kept_joints;
mod kept_leaves;
pub mod kinds;
pub mod laws;
mod leaves;
mod lefts;
mod long_lists;
mod mixed;
mod node_walk;
mod picked;
mod query_walk;
mod recent;
mod rights;
mod rising;
pub mod shapes;
pub mod shared;
pub mod shared_verdicts;
mod sides;
mod signed_sets;
pub mod store;
mod told;
mod turned;
mod turned_by_look;
pub mod verdicts;

pub use basic::Basic;
pub use case::Case;
pub use hv_lines::{Clash, Verdict};
pub use kinds::is_of_its_family;
pub use laws::laws_of_verdicts;
pub use shapes::{ShapeFault, shape};
pub use shared::Shared;
pub use shared_verdicts::verdict_of;
pub use store::Store;
pub use verdicts::decide;

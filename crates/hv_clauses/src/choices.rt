//! How many choices of one clause of each negative operand there are, and what follows from one.

ghost use Rattle.std.specs.Prelude.{◌≡◌, ◌<◌, ◌≤◌, ◌*◌, MatchOption, false, true, length};
ghost use Rattle.std.specs.List.{All};
ghost use Rattle.hv_clauses.specs.Working.Posed.{choices, size_in, width};
ghost use Rattle.hv_clauses.specs.Working.Problem.{AreMissed, IsMissed, MissesAll, MissesClause};
ghost use Rattle.hv_propagation.specs.Trail.{Grows, marks_of};
ghost use Rattle.hv_propagation.specs.Units.{IsConcluded};

use crate::problem::Problem;
use hv_formula::ClauseKind;
use hv_propagation::{Assignment, literals};
use hv_sets::{Literal, Operand, Which};
use std::slice;

// The cost of a query, if that is within the budget.
pub(crate) fn cost_within<K: ClauseKind>(problem: &Problem<'_, K>, budget: u64) -> Option<u64>
    ensures { MatchOption result (budget < choices problem.now)
        (λ cost. (cost ≡ choices problem.now) × (cost ≤ budget)) }
{
    let negative = problem.negative();
    if has_empty(problem) {
        return Some(0);
    }
    let mut cost = 1;
    for operand in negative {
        cost = times(cost, problem.count_of(operand.which), budget)?;
    }
    if cost <= budget { Some(cost) } else { None }
}

// Whether some negative operand has no clause, so that there is no choice.
fn has_empty<K: ClauseKind>(problem: &Problem<'_, K>) -> bool
    ensures none { result ≡ true → choices problem.now ≡ 0 }
    ensures some { result ≡ false
        → All (λ o. 0 < size_in problem.now o.which) problem.now.query.negative }
{
    let negative = problem.negative();
    for operand in negative {
        if problem.count_of(operand.which) == 0 {
            return true;
        }
    }
    false
}

// The product, if that is within the budget.
fn times(left: u64, right: u64, budget: u64) -> Option<u64>
    ensures { MatchOption result (budget < left * right)
        (λ product. (product ≡ left * right) × (product ≤ budget)) }
{
    left.checked_mul(right).filter(|product| *product <= budget)
}

// Marks each literal of the clause at this place of an operand as false. The answer is false if one
// is known to be true.
pub(crate) fn deny_clause<K: ClauseKind>(
    problem: &Problem<'_, K>,
    operand: Operand,
    place: u64,
    marks: &mut Assignment<'_>,
) -> bool
    requires place { place < size_in problem.now operand.which }
    requires size { length marks.old.roots ≡ width problem.now }
    ensures denied { IsConcluded (MissesClause problem.now operand place)
        (IsMissed problem.now operand place) (marks_of marks.old) (marks_of marks.new) result }
    ensures grown { Grows marks.old marks.new }
{
    let seen = problem.seen(operand.after);
    match operand.which {
        Which::Empty => true,
        Which::Start => {
            let literal = problem.start_literal(place);
            literals::deny(slice::from_ref(&literal), &seen, marks)
        }
        Which::Goal => {
            let literal = goal_literal(problem.goal().get(place as usize));
            literals::deny(slice::from_ref(&literal), &seen, marks)
        }
        Which::Set(number) => {
            let clauses = problem.set(number).clauses();
            literals::deny(clauses.get(place as usize), &seen, marks)
        }
    }
}

// Marks the clauses that the number chooses as false. The answer is false if a literal of one is
// known to be true.
pub(crate) fn deny_all<K: ClauseKind>(
    problem: &Problem<'_, K>,
    number: u64,
    marks: &mut Assignment<'_>,
) -> bool
    requires number { number < choices problem.now }
    requires size { length marks.old.roots ≡ width problem.now }
    ensures denied { IsConcluded (MissesAll problem.now number) (AreMissed problem.now number)
        (marks_of marks.old) (marks_of marks.new) result }
    ensures grown { Grows marks.old marks.new }
{
    let mut rest = number;
    let negative = problem.negative();
    for operand in negative {
        let count = problem.count_of(operand.which);
        if !deny_clause(problem, *operand, rest % count, marks) {
            return false;
        }
        rest /= count;
    }
    true
}

// The literal of an atom that the goal asks for.
pub(crate) fn goal_literal(atom: u32) -> Literal
    ensures { result ≡ record { atom = atom; positive = true } }
{
    Literal {
        atom,
        positive: true,
    }
}

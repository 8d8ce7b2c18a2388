//! The conjunctions that can be in a trap, as the clauses that deny them.

ghost use Rattle.std.specs.Prelude.{◌≡◌, ◌++◌, ◌∷◌, ◌<◌, ◌&&◌, ◌||◌, [], IfOk, OnOk, not};
ghost use Rattle.std.specs.List.{flat_map, range_with_len};
ghost use Rattle.hv_task.specs.State.{names_atom};
ghost use Rattle.hv_task.specs.Strips.{atoms};
ghost use Rattle.hv_sets.specs.Cubes.{opposite};
ghost use Rattle.hv_trap.specs.Conjunctions.{denial_in, denials, denials_of, denies, denies_one};
ghost use Rattle.hv_trap.specs.Conjunctions.{affirms, over_greater, over_one, over_two};

use hv_sets::{Clauses, Literal};
use hv_task::{AtomList, Task};
use std::alloc::{AllocError, Global};

/// The clauses that deny all conjunctions of one or two literals with a negated goal atom, in
/// order.
pub(crate) fn candidates(alloc: Global, task: &Task) -> Result<Clauses, AllocError>
    ensures { IfOk result (λ clauses.
        clauses ≡ denials (denies_one task.now.goal) (atoms task.now)) }
{
    let mut clauses = Clauses::new(alloc);
    put_singles(&mut clauses, task.goal(), task.atoms())?;
    put_pairs(&mut clauses, task.goal(), task.atoms())?;
    Ok(clauses)
}

// Puts the clauses that deny the conjunctions of one literal.
fn put_singles(clauses: &mut Clauses, goal: &AtomList, atoms: u32) -> Result<(), AllocError>
    ensures { OnOk result (clauses.new ≡ clauses.old
        ++ denials_of (denies_one goal.now) (flat_map over_one (range_with_len 0 atoms))) }
{
    for atom in 0..atoms {
        put_one(clauses, goal, atom)?;
    }
    Ok(())
}

// Puts the clauses that deny the conjunctions of two literals.
fn put_pairs(clauses: &mut Clauses, goal: &AtomList, atoms: u32) -> Result<(), AllocError>
    ensures { OnOk result (clauses.new ≡ clauses.old
        ++ denials_of (denies_one goal.now)
        (flat_map (over_greater atoms) (range_with_len 0 atoms))) }
{
    for first in 0..atoms {
        put_row(clauses, goal, atoms, first)?;
    }
    Ok(())
}

// Those over this atom and a greater one.
fn put_row(clauses: &mut Clauses, goal: &AtomList, atoms: u32, first: u32) -> Result<(), AllocError>
    requires { first < atoms }
    ensures { OnOk result (clauses.new ≡ clauses.old
        ++ denials_of (denies_one goal.now) (over_greater atoms first)) }
{
    for second in first + 1..atoms {
        put_pair(clauses, goal, first, second)?;
    }
    Ok(())
}

// Those over these two atoms.
fn put_pair(
    clauses: &mut Clauses,
    goal: &AtomList,
    first: u32,
    second: u32,
) -> Result<(), AllocError>
    ensures { OnOk result (clauses.new ≡ clauses.old
        ++ denials_of (denies_one goal.now) (over_two first second)) }
{
    put_two(clauses, goal, denies(first), denies(second))?;
    put_two(clauses, goal, denies(first), holds(second))?;
    put_two(clauses, goal, holds(first), denies(second))
}

// Puts the clause that denies the conjunction which denies this atom, if it is a goal atom.
fn put_one(clauses: &mut Clauses, goal: &AtomList, atom: u32) -> Result<(), AllocError>
    ensures { OnOk result (clauses.new ≡ clauses.old
        ++ denials_of (denies_one goal.now) (over_one atom)) }
{
    if denies_goal(goal, denies(atom)) {
        clauses.push_literals(&[opposite(denies(atom))])?;
    }
    Ok(())
}

// Puts the clause that denies the conjunction of these literals, if it has a negated goal atom.
fn put_two(
    clauses: &mut Clauses,
    goal: &AtomList,
    first: Literal,
    second: Literal,
) -> Result<(), AllocError>
    ensures { OnOk result (clauses.new ≡ clauses.old
        ++ denial_in (denies_one goal.now) (first ∷ second ∷ [])) }
{
    if denies_goal(goal, first) || denies_goal(goal, second) {
        clauses.push_literals(&[opposite(first), opposite(second)])?;
    }
    Ok(())
}

// Whether the literal is the negation of a goal atom.
fn denies_goal(goal: &AtomList, literal: Literal) -> bool
    ensures { result ≡ (not literal.positive && names_atom goal.now literal.atom) }
{
    !literal.positive && goal.has(literal.atom)
}

/// The literal of the atom.
pub(crate) fn holds(atom: u32) -> Literal
    ensures { result ≡ affirms atom }
{
    Literal {
        atom,
        positive: true,
    }
}

/// The literal that denies the atom.
pub(crate) fn denies(atom: u32) -> Literal
    ensures { result ≡ denies atom }
{
    Literal {
        atom,
        positive: false,
    }
}

/// The literal of the same atom with the other sign.
pub(crate) fn opposite(literal: Literal) -> Literal
    ensures { result ≡ opposite literal }
{
    Literal {
        atom: literal.atom,
        positive: !literal.positive,
    }
}

//! Tests of kinds whose clauses have literals of one sign for one atom at most: which clauses are
//! refused, and a store's numbers.

ghost use Rattle.std.specs.Prelude.{◌≡◌, ◌<◌, IfOk};
ghost use Rattle.hv_task.specs.Strips.{atoms};
ghost use Rattle.hv_sets.specs.Cubes.{SpeakBelow};
ghost use Rattle.hv_propagation.specs.Clauses.{AreClauses};

use crate::three_atoms::task_of_three;
use hv_clauses::Formulas;
use hv_formula::{ClauseKind, Formula};
use hv_sets::{Clause, Clauses, Literal, StateSet};
use hv_task::{State, Task};
use std::alloc::{AllocError, Global};

/// Such a kind.
pub(crate) trait OneHead: ClauseKind {
    /// Whether the sign is the positive one.
    fn is_positive() -> bool;

    /// The place of the clause that the fault names, unless it is another fault.
    fn place(fault: Self::Fault) -> Result<usize, Self::Fault>;
}

/// The places of two literals, which may be one and the same. The place of a literal is twice its
/// atom, and one more if it is negative.
pub(crate) type HeadPlaces = [u32; 2];

fn literal_at(place: u32) -> Literal
    requires { place < 6 }
    ensures { result.atom < 3 }
{
    Literal {
        atom: place / 2,
        positive: place % 2 == 0,
    }
}

fn clause_of_two(alloc: Global, places: HeadPlaces) -> Result<Clause, AllocError>
    ensures { IfOk result (SpeakBelow 3) }
{
    let mut clause = Clause::new(alloc);
    clause.push(literal_at(places[0] % 6))?;
    clause.push(literal_at(places[1] % 6))?;
    Ok(clause)
}

// The clauses of these places.
fn clauses_of(alloc: Global, clauses: [HeadPlaces; 2]) -> Result<Clauses, AllocError>
    ensures { IfOk result (AreClauses 3) }
{
    let [first, second] = clauses;
    let mut clauses = Clauses::new(alloc);
    clauses.push(clause_of_two(alloc, first)?)?;
    clauses.push(clause_of_two(alloc, second)?)?;
    Ok(clauses)
}

// The set of these clauses.
fn set_of<K: OneHead>(
    alloc: Global,
    task: &Task,
    clauses: [HeadPlaces; 2],
) -> Result<Formula<K>, K::Fault>
    requires { atoms task.now ≡ 3 }
{
    let clauses = clauses_of(alloc, clauses)?;
    Formula::<K>::new(alloc, task, &clauses)
}

// The place of the first clause that is refused.
fn fault_of<K: OneHead>(
    alloc: Global,
    task: &Task,
    clauses: [HeadPlaces; 2],
) -> Result<Option<usize>, K::Fault>
    requires { atoms task.now ≡ 3 }
{
    match set_of::<K>(alloc, task, clauses).err() {
        None => Ok(None),
        Some(fault) => Ok(Some(K::place(fault)?)),
    }
}

// Both literals are of the sign, and of different atoms.
fn is_other<K: OneHead>(places: HeadPlaces) -> bool {
    let sign = if K::is_positive() { 0 } else { 1 };
    places[0] % 2 == sign && places[1] % 2 == sign && places[0] != places[1]
}

// The place of the first such clause.
fn fault_wanted<K: OneHead>(clauses: [HeadPlaces; 2]) -> Option<usize> {
    match (is_other::<K>(clauses[0]), is_other::<K>(clauses[1])) {
        (true, _) => Some(0),
        (false, true) => Some(1),
        (false, false) => None,
    }
}

// Whether the first other clause is named, for this first clause and each second one.
fn is_named<K: OneHead>(alloc: Global, task: &Task, first: HeadPlaces) -> Result<bool, K::Fault>
    requires { atoms task.now ≡ 3 }
{
    let mut right = true;
    for number in 0..36 {
        let clauses = [first, [number % 6, number / 6]];
        right &= fault_of::<K>(alloc, task, clauses)? == fault_wanted::<K>(clauses);
    }
    Ok(right)
}

/// The same for the first clause of this number, of which there are 36.
pub(crate) fn is_named_behind<K: OneHead>(alloc: Global, number: u32) -> Result<bool, K::Fault> {
    let task = task_of_three(alloc)?;
    is_named::<K>(alloc, &task, [number % 6, number / 6])
}

/// The place of the first of these clauses that is refused.
pub(crate) fn first_refused<K: OneHead>(
    alloc: Global,
    clauses: [HeadPlaces; 2],
) -> Result<Option<usize>, K::Fault> {
    let task = task_of_three(alloc)?;
    fault_of::<K>(alloc, &task, clauses)
}

// Puts two sets last: whether they get the numbers 0 and 1.
fn put_sets<K: OneHead>(
    alloc: Global,
    task: &Task,
    sets: &mut Formulas<K>,
    rows: [[HeadPlaces; 2]; 2],
) -> Result<bool, K::Fault>
    requires { atoms task.now ≡ 3 }
{
    let first = sets.add(set_of::<K>(alloc, task, rows[0])?)?;
    let second = sets.add(set_of::<K>(alloc, task, rows[1])?)?;
    Ok((first, second) == (0, 1))
}

// Whether the state is in the set of this number; none where there is no such set over its atoms.
fn is_in<K: OneHead>(sets: &Formulas<K>, number: usize, state: &State) -> Option<bool> {
    if sets.len() <= number {
        return None;
    }
    let set = sets.get(number);
    if set.atoms() != state.atoms() {
        return None;
    }
    Some(set.holds(state))
}

// Whether there are two sets, and the empty state is so in the one and in the other.
fn are_two<K: OneHead>(
    alloc: Global,
    sets: &Formulas<K>,
    holds: [bool; 2],
) -> Result<bool, AllocError> {
    let empty = State::empty(alloc, 3)?;
    Ok(
        sets.len() == 2
            && is_in(sets, 0, &empty) == Some(holds[0])
            && is_in(sets, 1, &empty) == Some(holds[1]),
    )
}

// Whether a store of this task numbers these sets.
fn numbers<K: OneHead>(
    alloc: Global,
    task: &Task,
    rows: [[HeadPlaces; 2]; 2],
    holds: [bool; 2],
) -> Result<bool, K::Fault>
    requires { atoms task.now ≡ 3 }
{
    let mut sets = Formulas::<K>::new(alloc);
    let none = sets.len() == 0;
    let numbered = put_sets(alloc, task, &mut sets, rows)?;
    Ok(none & numbered & are_two(alloc, &sets, holds)?)
}

/// Whether a store numbers the sets of these clauses, and the empty state is so in the one and in
/// the other.
pub(crate) fn numbers_sets<K: OneHead>(
    alloc: Global,
    rows: [[HeadPlaces; 2]; 2],
    holds: [bool; 2],
) -> Result<bool, K::Fault> {
    let task = task_of_three(alloc)?;
    numbers::<K>(alloc, &task, rows, holds)
}

//! Tests of which clauses have at most two literals, and in which order a walk takes them.

ghost use Rattle.std.specs.Prelude.{◌≡◌, true, IfOk, OnOk};
ghost use Rattle.hv_task.specs.Strips.{atoms};
ghost use Rattle.hv_sets.specs.Cubes.{SpeakBelow};
ghost use Rattle.hv_propagation.specs.Clauses.{AreClauses};

use crate::three_atoms::task_of_three;
use hv_paths::{OutsideWalked, WalkStop, Walker};
use hv_sets::{Clause, Clauses, Literal};
use hv_task::Task;
use hv_twocnf::{TwoCnf, TwoCnfFault};
use std::alloc::{AllocError, Global};

// A clause is three numbers: 1 denotes atom 0, -1 for its negation, 2 for atom 1, and so on; 0
// denotes no literal.
fn put_literal(clause: &mut Clause, number: i32) -> Result<(), AllocError>
    requires { SpeakBelow 3 clause.old }
    ensures { OnOk result (SpeakBelow 3 clause.new) }
{
    let name = number.unsigned_abs();
    if name == 0 || name > 3 {
        return Ok(());
    }
    clause.push(Literal {
        atom: name - 1,
        positive: number > 0,
    })?;
    Ok(())
}

// Puts the three literals of the row.
fn put_row(clause: &mut Clause, row: &[i32; 3]) -> Result<(), AllocError>
    requires { SpeakBelow 3 clause.old }
    ensures { OnOk result (SpeakBelow 3 clause.new) }
{
    put_literal(clause, row[0])?;
    put_literal(clause, row[1])?;
    put_literal(clause, row[2])
}

// The clause of the row.
fn clause_of(alloc: Global, row: &[i32; 3]) -> Result<Clause, AllocError>
    ensures { IfOk result (SpeakBelow 3) }
{
    let mut clause = Clause::new(alloc);
    put_row(&mut clause, row)?;
    Ok(clause)
}

// Puts the clause of the row last.
fn put_clause(alloc: Global, clauses: &mut Clauses, row: &[i32; 3]) -> Result<(), AllocError>
    requires { AreClauses 3 clauses.old }
    ensures { OnOk result (AreClauses 3 clauses.new) }
{
    let clause = clause_of(alloc, row)?;
    clauses.push(clause)
}

// The clauses of the rows.
fn clauses_of(alloc: Global, rows: &[[i32; 3]]) -> Result<Clauses, AllocError>
    ensures { IfOk result (AreClauses 3) }
{
    let mut clauses = Clauses::new(alloc);
    for row in rows {
        put_clause(alloc, &mut clauses, row)?;
    }
    Ok(clauses)
}

// The place of the first of these clauses that is refused.
fn first_refused(alloc: Global, task: &Task, clauses: &Clauses) -> Result<Option<usize>, AllocError>
    requires task { atoms task.now ≡ 3 }
    requires clauses { AreClauses 3 clauses.now }
{
    match TwoCnf::new(alloc, task, clauses).err() {
        None => Ok(None),
        Some(TwoCnfFault::NotTwo(place)) => Ok(Some(place)),
        Some(TwoCnfFault::Memory) => Err(AllocError),
    }
}

// The same of the clauses of these rows.
fn refused(alloc: Global, rows: &[[i32; 3]]) -> Result<Option<usize>, AllocError> {
    let task = task_of_three(alloc)?;
    let clauses = clauses_of(alloc, rows)?;
    first_refused(alloc, &task, &clauses)
}

#[test]
fn the_first_clause_with_three_literals_is_named(rt: HostRuntime) {
    assert!(rt; matches!(refused(rt.alloc(), &[[1, 1, 2], [1, 2, 3]]), Ok(Some(1))));
    assert!(rt; matches!(refused(rt.alloc(), &[[1, -1, 2], [1, 2, 3]]), Ok(Some(0))));
    assert!(rt;
        matches!(
            refused(rt.alloc(), &[[1, -1, 0], [2, 1, 2], [3, -2, -2], [0, 0, 0]]),
            Ok(None)
        )
    );
}

// Puts the atoms of the literals last.
fn put_atoms(numbers: &mut Vec<u32>, literals: &[Literal]) -> Result<(), AllocError> {
    for literal in literals {
        numbers.push(literal.atom)?;
    }
    Ok(())
}

// Takes the next cube, and puts last how many of its literals stay and the atoms of all of them.
// The answer is false where no cube is left.
fn put_next<W: Walker>(walk: &mut W, numbers: &mut Vec<u32>) -> Result<bool, AllocError>
    requires { W.stands walk.old }
    ensures { IfOk result (λ yes. yes ≡ true → W.stands walk.new) }
{
    let Some(kept) = walk.advance()? else {
        return Ok(false);
    };
    numbers.push(kept.min(u32::MAX as usize) as u32)?;
    match walk.stop() {
        WalkStop::Cube(literals) => put_atoms(numbers, literals)?,
        WalkStop::State(held, state) => {
            let _ = held;
            let _ = state;
        },
    }
    Ok(true)
}

// The numbers of the first three cubes of a walk.
fn three_cubes<W: Walker>(alloc: Global, walk: &mut W) -> Result<Vec<u32>, AllocError>
    requires { W.stands walk.old }
{
    let mut numbers = Vec::new(alloc);
    if !put_next(walk, &mut numbers)? {
        return Ok(numbers);
    }
    if !put_next(walk, &mut numbers)? {
        return Ok(numbers);
    }
    put_next(walk, &mut numbers)?;
    Ok(numbers)
}

// The numbers of a walk over the clauses, where the atoms have these places.
fn walked_of(
    alloc: Global,
    task: &Task,
    clauses: &Clauses,
    places: Option<&[u32]>,
) -> Result<Vec<u32>, TwoCnfFault>
    requires task { atoms task.now ≡ 3 }
    requires clauses { AreClauses 3 clauses.now }
{
    let set = TwoCnf::new(alloc, task, clauses)?;
    let mut walk = set.walk_outside(alloc, places)?;
    Ok(three_cubes(alloc, &mut walk)?)
}

// Whether these are the numbers of the clauses of these rows.
fn are_walked(
    alloc: Global,
    rows: &[[i32; 3]],
    places: Option<&[u32]>,
    want: &[u32],
) -> Result<bool, TwoCnfFault> {
    let task = task_of_three(alloc)?;
    let clauses = clauses_of(alloc, rows)?;
    let numbers = walked_of(alloc, &task, &clauses, places)?;
    Ok(numbers.as_slice() == want)
}

#[test]
fn clauses_and_literals_are_walked_by_their_places(rt: HostRuntime) {
    let rows = [[-1, -3, 0], [-2, -3, 0], [-1, -2, 0]];
    let rising = [0, 0, 1, 1, 0, 2, 0, 1, 2];
    let falling = [0, 2, 1, 1, 2, 0, 0, 1, 0];
    assert!(rt; matches!(are_walked(rt.alloc(), &rows, None, &rising), Ok(true)));
    assert!(rt;
        matches!(
            are_walked(rt.alloc(), &rows, Some(&[0, 1, 2]), &rising),
            Ok(true)
        )
    );
    assert!(rt;
        matches!(
            are_walked(rt.alloc(), &rows, Some(&[2, 1, 0]), &falling),
            Ok(true)
        )
    );
}

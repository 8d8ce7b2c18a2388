//! Whether clauses are true in each state of a cube.

ghost use Rattle.std.specs.Prelude.{◌≡◌, ◌≤◌, ◌^◌, ℕ, Bool, List, None, [], false, true, length};
ghost use Rattle.hv_sets.specs.Cubes.{SpeakBelow};
ghost use Rattle.hv_sets.specs.Truth.{in_clause, in_clauses};
ghost use Rattle.hv_sets.specs.Walks.{Covers};
ghost use Rattle.hv_propagation.specs.Clauses.{AreClauses};
ghost use Rattle.hv_propagation.specs.Marks.{known, Agrees};
ghost use Rattle.hv_propagation.specs.Trail.{Grows, marks_of};
ghost use Rattle.hv_propagation.specs.Units.{AreFalse};

use crate::effect::ActionEffect;
use crate::literals;
use crate::trail::Assignment;
use hv_sets::{Clauses, Literal};
use hv_task::State;

/// Looks for a state of the cube in which a clause is false, in space for each atom. The answer is
/// false if there is one.
pub fn cover(
    clauses: &Clauses,
    cube: &[Literal],
    places: &mut [u32],
    queue: &mut [u32],
    state: &mut State,
) -> bool
    requires clauses { AreClauses (length state.old) clauses.now }
    requires cube { SpeakBelow (length state.old) cube.now }
    requires few { length state.old ≤ 2 ^ 31 }
    requires places { length state.old ≤ length places.old }
    requires queue { length state.old ≤ length queue.old }
    ensures covers { Covers result (length state.old) (in_clauses clauses.now) cube.now state.new }
    ensures places { length places.new ≡ length places.old }
    ensures queue { length queue.new ≡ length queue.old }
    ensures state { length state.new ≡ length state.old }
{
    let atoms = state.atoms() as usize;
    let mut marks = Assignment::over(atoms, &[], places, queue, &mut []);
    cover_from(clauses, cube, &mut marks, state)
}

// The same from marks that say nothing.
fn cover_from(
    clauses: &Clauses,
    cube: &[Literal],
    marks: &mut Assignment<'_>,
    state: &mut State,
) -> bool
    requires clauses { AreClauses (length state.old) clauses.now }
    requires cube { SpeakBelow (length state.old) cube.now }
    requires marks { length marks.old.roots ≡ length state.old }
    requires none { (p : ℕ) → known (marks_of marks.old) p ≡ None }
    ensures covers { Covers result (length state.old) (in_clauses clauses.now) cube.now state.new }
    ensures state { length state.new ≡ length state.old }
{
    let none = ActionEffect::none();
    if !literals::force_all(cube, &none, marks) {
        return true;
    }
    for place in 0..clauses.len() {
        if breaks(clauses.get(place), marks) {
            marks.fill(false, state);
            return false;
        }
    }
    true
}

// Marks the literals of the clause as false. The answer is false if the clause is true in each
// state that agrees with what is known: that is then as it was.
fn breaks(clause: &[Literal], marks: &mut Assignment<'_>) -> bool
    requires { SpeakBelow (length marks.old.roots) clause.now }
    ensures broken { result ≡ true → AreFalse [] clause.now (marks_of marks.new) × Grows marks.old
        marks.new }
    ensures same { result ≡ false → marks.new ≡ marks.old }
    ensures true_in { result ≡ false → (state : List Bool) → length state ≡ length marks.old.roots →
        Agrees (marks_of marks.old) state → in_clause clause.now state ≡ true }
{
    let none = ActionEffect::none();
    if literals::has_true(clause, &none, marks) {
        return false;
    }
    let point = marks.len();
    if literals::deny(clause, &none, marks) {
        return true;
    }
    marks.undo(point);
    false
}

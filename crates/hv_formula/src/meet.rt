//! Whether clauses are true in some state of a cube.

ghost use Rattle.std.specs.Prelude.{◌≡◌, ◌≤◌, Bool, List, [], true, length};
ghost use Rattle.std.specs.List.{All};
ghost use Rattle.hv_sets.specs.Cubes.{SpeakBelow};
ghost use Rattle.hv_sets.specs.Truth.{in_clauses};
ghost use Rattle.hv_sets.specs.Walks.{Meets};
ghost use Rattle.hv_propagation.specs.Clauses.{AreClauses};
ghost use Rattle.hv_formula.specs.Clausal.{in_formula};
ghost use Rattle.hv_propagation.specs.Marks.{Agrees};
ghost use Rattle.hv_indexes.specs.Occurrences.{IsIndexOf};
ghost use Rattle.hv_propagation.specs.Trail.{marks_of};
ghost use Rattle.hv_propagation.specs.Units.{AreSettled};

use crate::clause_kind::ClauseKind;
use crate::formula::Formula;
use hv_propagation::{ActionEffect, Assignment, BareClauses, literals, propagation};
use hv_sets::Literal;
use hv_task::State;

// Looks for a state of the cube in the set, in space for each atom.
pub(crate) fn meet<K: ClauseKind>(
    set: &Formula<K>,
    cube: &[Literal],
    places: &mut [u32],
    queue: &mut [u32],
    watches: &mut [u32],
    state: &mut State,
) -> bool
    requires atoms { length state.old ≡ set.now.atoms }
    requires cube { SpeakBelow set.now.atoms cube.now }
    requires places { set.now.atoms ≤ length places.old }
    requires queue { set.now.atoms ≤ length queue.old }
    ensures meets { Meets result set.now.atoms (in_formula set.now) cube.now state.new }
    ensures places { length places.new ≡ length places.old }
    ensures queue { length queue.new ≡ length queue.old }
    ensures watches { length watches.new ≡ length watches.old }
    ensures state { length state.new ≡ length state.old }
{
    let Some(forced) = set.forced() else {
        return false;
    };
    let bare = set.bare();
    let atoms = set.atoms() as usize;
    let mut marks = Assignment::over(atoms, forced, places, queue, watches);
    meet_from::<K>(&bare, cube, &mut marks, state)
}

// The same from what follows from the clauses alone.
fn meet_from<K: ClauseKind>(
    bare: &BareClauses<'_>,
    cube: &[Literal],
    marks: &mut Assignment<'_>,
    state: &mut State,
) -> bool
    requires kind { All K.is_of bare.now.clauses.now }
    requires clauses { AreClauses (length state.old) bare.now.clauses.now }
    requires index { IsIndexOf bare.now.clauses.now bare.now.occurs.now }
    requires cube { SpeakBelow (length state.old) cube.now }
    requires marks { length marks.old.roots ≡ length state.old }
    requires none { marks.old.trail ≡ [] }
    requires settled { AreSettled [] bare.now.clauses.now (marks_of marks.old) }
    requires follows { (state : List Bool) → length state ≡ length marks.old.roots → in_clauses
        bare.now.clauses.now state ≡ true → Agrees (marks_of marks.old) state }
    ensures meets { Meets result (length state.old) (in_clauses bare.now.clauses.now) cube.now
        state.new }
    ensures state { length state.new ≡ length state.old }
{
    let none = ActionEffect::none();
    if !literals::force_all(cube, &none, marks) {
        return false;
    }
    if !propagation::close(bare, marks, 0) {
        return false;
    }
    propagation::complete(K::completion(), bare, marks, state)
}

//! What an action asks for.

ghost use Rattle.std.specs.Prelude.{◌≡◌, true, length};
ghost use Rattle.hv_task.specs.State.{AreBelow, has_all};
ghost use Rattle.hv_sets.specs.Query.{action_of};
ghost use Rattle.hv_clauses.specs.Working.Enabling.{AreMarkedIn, IsEnabled};
ghost use Rattle.hv_clauses.specs.Working.Posed.{Applies, width};
ghost use Rattle.hv_propagation.specs.Trail.{Grows, marks_of};
ghost use Rattle.hv_propagation.specs.Units.{IsConcluded};

use crate::problem::Problem;
use hv_formula::ClauseKind;
use hv_propagation::{ActionEffect, Assignment, literals};
use hv_sets::Literal;

// Marks what the action asks for. The answer is false if it is applicable in no state that agrees
// with the marks.
pub(crate) fn mark_pre<K: ClauseKind>(problem: &Problem<'_, K>, marks: &mut Assignment<'_>) -> bool
    requires { length marks.old.roots ≡ width problem.now }
    ensures marked { IsConcluded (Applies problem.now)
        (IsEnabled (action_of problem.now.task problem.now.query.action)) (marks_of marks.old)
        (marks_of marks.new) result }
    ensures grown { Grows marks.old marks.new }
{
    match problem.action() {
        None => true,
        Some(action) => force_in(action.pre.as_slice(), marks),
    }
}

// Marks each atom as in. The answer is false if one is known to be out.
fn force_in(atoms: &[u32], marks: &mut Assignment<'_>) -> bool
    requires { AreBelow (length marks.old.roots) atoms.now }
    ensures marked { IsConcluded (λ state. has_all atoms.now state ≡ true) (AreMarkedIn atoms.now)
        (marks_of marks.old) (marks_of marks.new) result }
    ensures grown { Grows marks.old marks.new }
{
    let none = ActionEffect::none();
    for atom in atoms {
        let literal = Literal {
            atom: *atom,
            positive: true,
        };
        if !literals::force(literal, &none, marks) {
            return false;
        }
    }
    true
}

//! Where the search for a counterexample starts: at what follows from one positive operand alone.
//!
//! It is the positive operand that is a formula with the most clauses, at whichever time it is
//! asked about. What it forces lies under the trail as it is, without a copy. Where it is asked
//! about after the action, its literals are true in the state after, and so in the state before,
//! but for those whose atoms the action touches: these are read as if nothing were known, which
//! costs each read two more searches of the effect's lists. Where the action makes a literal false
//! that the operand forces, no state is left, and no clause is looked at.

ghost use Rattle.std.specs.Prelude.{◌≡◌, ◌<◌, [], Bool, List, MatchOption, IfSome, None, length};
ghost use Rattle.std.specs.List.{All, Contains};
ghost use Rattle.hv_sets.specs.Query.{IsNamed};
ghost use Rattle.hv_clauses.specs.Working.Posed.{InEach, width};
ghost use Rattle.hv_clauses.specs.Working.Start.{IsSetAmong, IsStart};

use crate::formulas::Formulas;
use crate::problem::Problem;
use hv_formula::ClauseKind;
use hv_propagation::Roots;
use hv_sets::{Operand, Which};

/// A positive operand on which all is based, if there is one, and what is known before the search
/// begins.
#[derive(Drop)]
pub(crate) struct Start<'a> {
    pub operand: Option<Operand>,
    pub roots: Roots<'a>,
}

// What follows from one positive operand that is a set: what the set forces, but for the atoms that
// the effect makes anew, where the operand is asked about after the action. The answer is None only
// if no state is in the operand.
pub(crate) fn start_of<'a, K: ClauseKind>(problem: &Problem<'a, K>) -> Option<Start<'a>>
    ensures { MatchOption result ((state : List Bool) → length state ≡ width problem.now
        → InEach problem.now state → ⊥) (IsStart problem.now) }
{
    let positive = problem.positive();
    match largest(problem.store(), positive) {
        None => Some(nothing()),
        Some(operand) => start_at(problem, operand),
    }
}

// Nothing.
fn nothing<'a>() -> Start<'a>
    ensures operand { result.operand ≡ None }
    ensures roots { result.roots ≡ [] }
{
    Start {
        operand: None,
        roots: Roots::of(&[]),
    }
}

// The operand with the most clauses, of those that are sets.
fn largest<K: ClauseKind>(store: &Formulas<K>, operands: &[Operand]) -> Option<Operand>
    requires { All (λ o. IsNamed (length store.now) o.which) operands.now }
    ensures { IfSome result (IsSetAmong operands.now) }
{
    let mut found = None;
    let mut most = 0;
    for operand in operands {
        if let Which::Set(number) = operand.which {
            let count = store.set(number).clauses().len();
            if count >= most {
                found = Some(*operand);
                most = count;
            }
        }
    }
    found
}

// What follows from this positive operand.
fn start_at<'a, K: ClauseKind>(problem: &Problem<'a, K>, operand: Operand) -> Option<Start<'a>>
    requires among { Contains problem.now.query.positive operand }
    requires named { IsNamed (length problem.now.store) operand.which }
    ensures { MatchOption result ((state : List Bool) → length state ≡ width problem.now
        → InEach problem.now state → ⊥) (IsStart problem.now) }
{
    let Which::Set(number) = operand.which else {
        return Some(nothing());
    };
    let seen = problem.seen(operand.after);
    match problem.set(number).forced() {
        None => None,
        Some(forced) => Some(Start {
            operand: Some(operand),
            roots: Roots::unaffected(forced, seen),
        }),
    }
}

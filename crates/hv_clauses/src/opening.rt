//! What a query says before its action, for all actions at once.
//!
//! Where no positive operand is asked about after the action, what they force together lies on the
//! trail, upon what the largest of them forces alone. Where some are, each query begins at what one
//! operand forces: the clauses after the action would have to be looked at for each action, before
//! one of those before it can show that there is nothing to be looked for.

ghost use Rattle.std.specs.Prelude.{◌≡◌, false, length};
ghost use Rattle.std.specs.List.{All};
ghost use Rattle.hv_clauses.specs.Working.Early.{IsOpened};
ghost use Rattle.hv_clauses.specs.Working.Posed.{IsPosed, width};

use crate::find::Means;
use crate::problem::{self, Problem};
use crate::{literal_owners, start};
use hv_formula::ClauseKind;
use hv_propagation::{Assignment, propagation};
use hv_sets::Operand;

/// What is known of all queries that differ only in their actions.
#[derive(Clone, Copy, PartialEq, Eq)]
pub(crate) enum Opening {
    /// Nothing as yet.
    Unasked,
    /// No state is in each positive operand that is asked about before the action.
    Never,
    /// What these say together is on the trail, with all that follows from it.
    Closed,
    /// Nothing, as that doesn't pay.
    Anew,
}

/// Where a search begins.
#[derive(Clone, Copy)]
pub(crate) enum Begun {
    /// At what the positive operands that are asked about before the action say together.
    Early,
    /// At what this one forces alone, if there is one.
    From(Option<Operand>),
}

/// What is known of the queries; or, if one is asked again, what can be known if that wasn't looked
/// at.
pub(crate) fn opened<'a, K: ClauseKind>(
    problem: &mut Problem<'a, K>,
    means: &Means,
    again: bool,
    opening: Opening,
    marks: &mut Assignment<'a>,
) -> Opening
    requires posed { IsPosed problem.old }
    requires wide { length marks.old.roots ≡ width problem.old }
    requires opened { IsOpened problem.old opening marks.old }
    ensures opened { IsOpened problem.old result marks.new }
    ensures wide { length marks.new.roots ≡ width problem.old }
    ensures same { problem.new ≡ problem.old }
{
    if !again || opening != Opening::Unasked {
        return opening;
    }
    if has_late(problem.positive()) {
        return Opening::Anew;
    }
    open_whole(problem, means, marks)
}

// Whether some operand is asked about after the action.
fn has_late(operands: &[Operand]) -> bool
    ensures { result ≡ false → All (λ o. o.after ≡ false) operands.now }
{
    for operand in operands {
        if operand.after {
            return true;
        }
    }
    false
}

// Puts on the trail what the positive operands say together, none of which is asked about after the
// action.
fn open_whole<'a, K: ClauseKind>(
    problem: &mut Problem<'a, K>,
    means: &Means,
    marks: &mut Assignment<'a>,
) -> Opening
    requires early { All (λ o. o.after ≡ false) problem.old.query.positive }
    requires wide { length marks.old.roots ≡ width problem.old }
    ensures opened { IsOpened problem.old result marks.new }
    ensures wide { length marks.new.roots ≡ width problem.old }
    ensures same { problem.new ≡ problem.old }
{
    let Some(start) = start::start_of(problem) else {
        return Opening::Never;
    };
    marks.start_over(start.roots);
    if !problem::start_all(problem, start.operand, marks) {
        return Opening::Never;
    }
    let upto = literal_owners::patience(problem, means.size);
    let Some(place) = propagation::close_upto(problem, marks, 0, upto) else {
        return Opening::Never;
    };
    problem.list_owners(place < marks.len(), means.alloc);
    if !propagation::close(problem, marks, place) {
        return Opening::Never;
    }
    Opening::Closed
}

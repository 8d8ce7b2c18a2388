//! Conditions on states, and what follows from them for the atoms.

ghost use Rattle.std.specs.Prelude.{◌≡◌, ◌<◌, ◌≤◌, ◌+◌, ℕ, Bool, List, [], true, length};
ghost use Rattle.hv_sets.specs.Truth.{in_clauses};
ghost use Rattle.hv_propagation.specs.Chase.{AreKept, IsFollowed};
ghost use Rattle.hv_propagation.specs.Clauses.{AreClauses};
ghost use Rattle.hv_propagation.specs.Marks.{over};
ghost use Rattle.hv_indexes.specs.Occurrences.{IsIndexOf};
ghost use Rattle.hv_propagation.specs.Trail.{Grows, Knowledge, marks_of};
ghost use Rattle.hv_propagation.specs.Units.{AreSettled};
ghost use Rattle.hv_propagation.specs.Working.Laws as laws;

use crate::chase;
use crate::effect::ActionEffect;
use crate::trail::Assignment;
use hv_indexes::Occurrences;
use hv_sets::{Clauses, Literal};

/// A condition on states of which can be told what follows from what was found out last.
pub trait Constraint {
    // The condition speaks of states of a task with so many atoms.
    ghost is_over: { Self → ℕ → Type 0 };

    // The state meets the condition.
    ghost admits: { Self → List Bool → Type 0 };

    // The condition tells nothing more beside these marks.
    ghost settled: { Self → List ℕ → Type 0 };

    // It tells nothing more than what comes from the trail from this place on.
    ghost left: { Self → Knowledge → ℕ → Type 0 };

    /// Follows up the literal at this place of the trail. The answer is false only if no state that
    /// agrees with what was known meets the condition.
    fn visit(&self, marks: &mut Assignment<'_>, from: usize) -> bool
        requires over { is_over self.now (length marks.old.roots) }
        requires from { from < length marks.old.trail }
        requires left { left self.now marks.old from }
        ensures followed { IsFollowed (admits self.now) marks.old marks.new result }
        ensures left { result ≡ true → left self.now marks.new (from + 1) };

    /// About how many clauses are looked at where a literal of the trail is followed up.
    fn weight(&self, literal: Literal) -> usize
        requires { (atoms : ℕ) × is_over self.now atoms };

    // From the end of the trail on nothing comes: then it tells nothing more.
    ghost left_ends: { (condition : Self) (k : Knowledge) (from : ℕ) → length k.trail ≤ from
        → left condition k from → settled condition (marks_of k) };

    // What it tells still comes from the same place on once the trail has grown.
    ghost left_stays: { (condition : Self) (old new : Knowledge) (from : ℕ) → Grows old new
        → from ≤ length old.trail → left condition old from → left condition new from };
}

/// Clauses, and where their literals stand.
#[derive(Drop)]
pub struct BareClauses<'a> {
    pub clauses: &'a Clauses,
    pub occurs: &'a Occurrences,
}

impl Constraint for BareClauses<'_> {
    ghost is_over = { λ bare atoms. AreClauses atoms bare.clauses.now × IsIndexOf
        bare.clauses.now bare.occurs.now };

    ghost admits = { λ bare state. in_clauses bare.clauses.now (over [] state) ≡ true };

    ghost settled = { λ bare marks. AreSettled [] bare.clauses.now marks };

    ghost left = { λ bare k from. AreKept [] bare.clauses.now k from };

    fn visit(&self, marks: &mut Assignment<'_>, from: usize) -> bool {
        let none = ActionEffect::none();
        chase::visit(self.clauses, self.occurs, &none, marks, from)
    }

    fn weight(&self, literal: Literal) -> usize {
        chase::weight(self.occurs, literal)
    }

    ghost left_ends = { λ bare. laws.settled_end [] bare.clauses.now };

    ghost left_stays = { λ bare. laws.kept_grown [] bare.clauses.now };
}

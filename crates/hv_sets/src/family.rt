//! Stores of sets of one family, and the queries that they answer.

ghost use Rattle.std.specs.Prelude.{◌<◌, ℕ, Bool, List, length, IfOk, IfSome};
ghost use Rattle.hv_task.specs.Strips.{Strips, atoms};
ghost use Rattle.hv_sets.specs.Cost.{IsAnswer};
ghost use Rattle.hv_sets.specs.Query.{HasAnchor, IsReady, is_clash};
ghost use Rattle.hv_sets.specs.Room.{KeepsLengths};
ghost use Rattle.hv_sets.specs.declared.query.Query.{Query};

use crate::finding::Finding;
use crate::query::Query;
use crate::scratch::Scratch;
use hv_task::Task;
use std::alloc::{AllocError, Global};

/// A store of sets of one family, of which queries can be asked.
pub trait Family {
    // Whether a state is in the set of this number.
    ghost has: { Self → ℕ → List Bool → Bool };

    // The sets are sets of states of a task with so many atoms.
    ghost is_over: { Self → ℕ → Type 0 };

    // How many sets there are.
    ghost count: { Self → ℕ };

    // A query has to have an anchor.
    ghost wants_anchor: { Self → Type 0 };

    // The query costs more than the budget.
    ghost passes: { Self → Strips → Query → ℕ → Type 0 };

    /// The exact answer to a query: Over exactly where it costs more than the budget; else Clash
    /// exactly where some state is a counterexample, which then is in the scratch; else Empty.
    fn find(
        &self,
        alloc: Global,
        task: &Task,
        query: &Query,
        budget: u64,
        scratch: &mut Scratch,
    ) -> Result<Finding, AllocError>
        requires ready { IsReady (count self.now) query.now }
        requires anchor { wants_anchor self.now → HasAnchor query.now }
        requires task { is_over self.now (atoms task.now) }
        requires action { IfSome query.now.action (λ a. a < length task.now.actions) }
        ensures answer { IfOk result (λ found.
            IsAnswer found (passes self.now task.now query.now budget) (atoms task.now)
            (is_clash task.now (has self.now) query.now) scratch.new.state) }
        ensures lengths { KeepsLengths scratch.old scratch.new };
}

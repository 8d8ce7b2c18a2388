//! What statements are decided on.

ghost use Rattle.std.specs.Prelude.{◌≡◌, ◌≤◌};
ghost use Rattle.hv_task.specs.Strips.{atoms};
ghost use Rattle.hv_bdd.specs.Nodes.{node_count};
ghost use Rattle.hv_lines.specs.Queries.{NamesNodes};
ghost use Rattle.hv_lines.specs.Setting.{most_budget};
ghost use Rattle.hv_basic.specs.Stores.{IsStoreOf};

use crate::store::Store;
use hv_bdd::Diagrams;
use hv_lines::Table;
use hv_task::Task;

/// What statements are decided on: a task, the lines so far with the store of their formulas, the
/// nodes that they may name, and what a query may cost.
#[derive(Clone, Copy)]
pub struct Case<'a> {
    /// The task.
    pub task: &'a Task,
    /// The lines so far.
    pub table: &'a Table,
    /// The nodes that they may name.
    pub diagrams: &'a Diagrams,
    /// The formulas of the lines.
    pub store: &'a Store,
    /// What a query may cost.
    pub budget: u64,
    pub ghost over: { diagrams.now.atoms ≡ atoms task.now },
    pub ghost small: { budget ≤ most_budget },
    pub ghost nodes: { NamesNodes (node_count diagrams.now) table.now.lines },
    pub ghost stored: { IsStoreOf task.now table.now.lines store.now },
}

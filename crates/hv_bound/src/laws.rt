//! What a cost bound comes to, and what a plan file, as contracts of functions that do nothing.

ghost use Rattle.std.specs.Prelude.{ℕ, ◌<◌, ◌↔◌, List};
ghost use Rattle.hv_bytes.specs.Pieces.{PieceBytes};
ghost use Rattle.hv_task.specs.Plan.{IsUnsolvable, Solves};
ghost use Rattle.hv_bound.specs.Bounded.{bounded_task};
ghost use Rattle.hv_bound.specs.Costs.{IsSolvable, IsSolvableWithin, cost_of_list};
ghost use Rattle.hv_bound.specs.PlanText.{GivesSteps, IsOneOfThree, NamesLimit, NamesPlace};

use hv_task::Task;

/// What it means that the task of a cost bound has a plan, and that it has none.
pub fn laws_of_cost_bounds(task: &Task, most: u32)
    ensures solvable { IsSolvable (bounded_task task.now most) ↔ IsSolvableWithin most task.now }

    // where the made task has no plan, each plan of the given one costs more
    ensures costs_more { IsUnsolvable (bounded_task task.now most)
        → (list : List ℕ) → Solves task.now list → most < cost_of_list task.now list }
{
    // For its contract alone: the task is one.
    let _atoms = task.atoms();
}

/// What comes of a plan file, in plain words: it is of one of three kinds, and each says what comes
/// of it.
pub fn laws_of_plan_files()
    ensures kinds { (pieces : List PieceBytes) → IsOneOfThree pieces }
    ensures steps { GivesSteps }
    ensures place { NamesPlace }
    ensures limit { NamesLimit }
{}

//! Whether a list is a plan, and what it costs.

ghost use Rattle.std.specs.Prelude.{◌≡◌, ◌≤◌, length, IfOk};
ghost use Rattle.hv_bound.specs.declared.plan_check.PlanAnswer.{PlanAnswer};
ghost use Rattle.hv_bound.specs.PlanAnswers.{IsPlanAnswer};

use crate::long_actions::LongActions;
use hv_task::Task;
use std::alloc::{AllocError, Global};

/// What a list of action numbers is. Steps are counted from 1.
#[derive(Clone, Copy, Debug, PartialEq, Eq)]
pub enum PlanAnswer {
    /// A plan of this cost.
    Cost(u64),
    /// This step is the first that can't be taken: it names no action.
    Unknown(u64),
    /// This step is the first that can't be taken: its action isn't applicable.
    NotApplicable(u64),
    /// Each step can be taken, and the last state isn't a goal state.
    NoGoal,
}

/// Whether a list of at most 4,194,304 action numbers is a plan of the task, and what it costs, or
/// else its first step that can't be taken, if there is one.
pub fn check_plan(alloc: Global, task: &Task, list: &[u32]) -> Result<PlanAnswer, AllocError>
    requires { length list.now ≤ 4194304 }
    ensures answer { IfOk result (IsPlanAnswer task.now list.now) }
    ensures only { IfOk result (λ answer. (other : PlanAnswer)
        → IsPlanAnswer task.now list.now other → other ≡ answer) }
{
    let mut state = task.start_state(alloc)?;
    let mut long = LongActions::new(alloc);
    let mut cost = 0;
    for (place, number) in list.iter().enumerate() {
        let step = place as u64 + 1;
        if *number >= task.actions() {
            return Ok(PlanAnswer::Unknown(step));
        }
        let taken = long.step(alloc, task, *number, &mut state)?;
        if !taken {
            return Ok(PlanAnswer::NotApplicable(step));
        }
        cost += u64::from(task.action(*number).cost);
    }
    if task.goal_in(&state) {
        Ok(PlanAnswer::Cost(cost))
    } else {
        Ok(PlanAnswer::NoGoal)
    }
}

//! That the rules are sound.

ghost use Rattle.hv_rules.specs.Soundness.{RulesAreSound};

use hv_bdd::Diagrams;
use hv_task::Task;

/// Does nothing: its contract states that the rules are sound.
pub fn laws_of_rules(task: &Task, diagrams: &Diagrams)
    ensures { RulesAreSound task.now diagrams.now }
{
    let _ = task;
    let _ = diagrams;
}

//! Several pruners, asked in order.

ghost use Rattle.std.specs.Prelude.{◌≡◌, ◌↔◌, Bool, List, IfNone, IfOk, IfSome, MatchOption, OnErr};
ghost use Rattle.std.specs.List.{All, Any};
ghost use Rattle.hv_task.specs.Strips.{Strips, IsState};
ghost use Rattle.hv_lines.specs.Drafts.{IsGoodTable};
ghost use Rattle.hv_lines.specs.Pruning.{Extends, IsDeadBy};
ghost use Rattle.hv_lines.specs.declared.line.Line.{Line};
ghost use Rattle.hv_replay.specs.Boxes.{CoverAlike};

use hv_lines::{Draft, Pruner};
use hv_task::{State, Task};
use std::alloc::{AllocError, Global};

// Lets the pruner forget its notes.
fn begin_one(pruner: &mut Box<dyn Pruner>)
    ensures covers { (task : Strips) (state : List Bool)
        → covers pruner.new task state ↔ covers pruner.old task state }
    ensures fits { (task : Strips) (lines : List Line) → fits pruner.new task lines }
{
    pruner.begin();
}

// Lets each pruner forget its notes: they then fit each draft, and cover what they covered.
pub fn begin_all(pruners: &mut [Box<dyn Pruner>])
    ensures covers { CoverAlike (λ b. covers b) pruners.new pruners.old }
    ensures fits { (task : Strips) (lines : List Line) → All (λ b. fits b task lines) pruners.new }
{
    for pruner in pruners.iter_mut() {
        begin_one(pruner);
    }
}

// The line of the draft that this pruner answers with, if it covers the state.
fn ask_one(
    alloc: Global,
    task: &Task,
    draft: &mut Draft,
    state: &State,
    pruner: &mut Box<dyn Pruner>,
) -> Result<Option<usize>, AllocError>
    requires good { IsGoodTable task.now draft.old.lines }
    requires fits { fits pruner.old task.now draft.old.lines }
    requires state { IsState task.now state.now }
    ensures covers { (task : Strips) (state : List Bool)
        → covers pruner.new task state ↔ covers pruner.old task state }
    ensures covered { IfOk result (λ found. MatchOption found
        (covers pruner.old task.now state.now → ⊥)
        (λ _. covers pruner.old task.now state.now)) }
    ensures dead { IfOk result (λ found. IfSome found (λ line.
        IsDeadBy task.now draft.new.lines state.now line)) }
    ensures extends { Extends task.now draft.old.lines draft.new.lines }
    ensures none { IfOk result (λ found. IfNone found (draft.new ≡ draft.old)) }
    ensures err { OnErr result (draft.new ≡ draft.old) }
    ensures fits { (lines : List Line) → Extends task.now draft.new.lines lines
        → fits pruner.new task.now lines }
{
    pruner.justify(alloc, task, draft, state)
}

// The line of the draft that the first pruner answers with that covers the state.
pub fn ask(
    alloc: Global,
    task: &Task,
    draft: &mut Draft,
    state: &State,
    pruners: &mut [Box<dyn Pruner>],
) -> Result<Option<usize>, AllocError>
    requires good { IsGoodTable task.now draft.old.lines }
    requires fits { (lines : List Line) → Extends task.now draft.old.lines lines
        → All (λ b. fits b task.now lines) pruners.old }
    requires state { IsState task.now state.now }
    ensures covers { CoverAlike (λ b. covers b) pruners.new pruners.old }
    ensures covered { IfOk result (λ found. MatchOption found
        (Any (λ b. covers b task.now state.now) pruners.old → ⊥)
        (λ _. Any (λ b. covers b task.now state.now) pruners.old)) }
    ensures dead { IfOk result (λ found. IfSome found (λ line.
        IsDeadBy task.now draft.new.lines state.now line)) }
    ensures extends { Extends task.now draft.old.lines draft.new.lines }
    ensures fits { (lines : List Line) → Extends task.now draft.new.lines lines
        → All (λ b. fits b task.now lines) pruners.new }
{
    for pruner in pruners.iter_mut() {
        if let Some(line) = ask_one(alloc, task, draft, state, pruner)? {
            return Ok(Some(line));
        }
    }
    Ok(None)
}

//! Proofs of logs.

ghost use Rattle.std.specs.Prelude.{◌≡◌, ◌<◌, ◌++◌, ◌∷◌, ℕ, false, true, [], List, IfErr, IfOk};
ghost use Rattle.std.specs.Prelude.{OnOk, length};
ghost use Rattle.std.specs.List.{All, Any};
ghost use Rattle.hv_task.specs.State.{state_of};
ghost use Rattle.hv_task.specs.Strips.{IsState, atoms};
ghost use Rattle.hv_lines.specs.Drafts.{IsGoodTable, onto, prelude};
ghost use Rattle.hv_lines.specs.Judged.{Concludes};
ghost use Rattle.hv_lines.specs.Pruning.{Extends};
ghost use Rattle.hv_lines.specs.declared.line.Line.{Line};
ghost use Rattle.hv_replay.specs.Boxes.{CoverAlike};
ghost use Rattle.hv_replay.specs.Closed.{IsClosed, IsFirstHole, IsSearchFollowed, IsJustified};
ghost use Rattle.hv_replay.specs.Logs.{IsAtomSet, LogEntry, StandsInLog};
ghost use Rattle.hv_replay.specs.Working.PrunedLines.{IsPrunedUnion};
ghost use Rattle.hv_replay.specs.Progress.{IsProof};
ghost use Rattle.hv_replay.specs.Working.Progress.{IsProgress, IsUncovered};
ghost use Rattle.hv_replay.specs.Replayed.{IsReplayed, pruned_in};
ghost use Rattle.hv_replay.specs.declared.hole.ReplayFault.TheVariants as H;

use crate::boxes::{ask, begin_all};
use crate::closing::push_closing;
use crate::expanded::expanded_states;
use crate::hole::{ReplayFault, follow, line_of};
use crate::log::Log;
use crate::pruned::push_pruned;
use hv_lines::{Draft, Note, Pruner};
use hv_sets::StateBuffer;
use hv_task::{State, Task};
use std::alloc::{AllocError, Global};

/// Makes the proof of a closed log, for whatever pruners: these are begun anew and asked in order.
/// It answers with a proof exactly where the log is closed under what they cover, and otherwise
/// with the first hole. Memory may run out at any point. After any answer there are as many
/// pruners, and each covers, at its place, what it did before.
pub fn replay(
    alloc: Global,
    task: &Task,
    log: &Log,
    pruners: &mut Vec<Box<dyn Pruner>>,
) -> Result<Draft, ReplayFault>
    requires { log.now.atoms ≡ atoms task.now }
    ensures closed { IfOk result (λ _. IsClosed task.now log.now
        (λ state. Any (λ b. covers b task.now state) pruners.old.items)) }
    ensures hole { IfErr result (λ fault. (fault ≡ H.Memory → ⊥) → IsFirstHole task.now log.now
        (λ state. Any (λ b. covers b task.now state) pruners.old.items) fault) }
    ensures replayed { IfOk result (λ draft. IsReplayed log.now draft.lines) }
    ensures good { IfOk result (λ draft. IsGoodTable task.now draft.lines) }
    ensures concludes { IfOk result (λ draft. Concludes draft.lines) }
    ensures covers { CoverAlike (λ b. covers b) pruners.new.items pruners.old.items }
{
    replay_by(alloc, task, log, pruners.as_mut_slice())
}

// The same, for a slice of pruners.
fn replay_by(
    alloc: Global,
    task: &Task,
    log: &Log,
    pruners: &mut [Box<dyn Pruner>],
) -> Result<Draft, ReplayFault>
    requires { log.now.atoms ≡ atoms task.now }
    ensures closed { IfOk result (λ _. IsClosed task.now log.now
        (λ state. Any (λ b. covers b task.now state) pruners.old)) }
    ensures hole { IfErr result (λ fault. (fault ≡ H.Memory → ⊥) → IsFirstHole task.now log.now
        (λ state. Any (λ b. covers b task.now state) pruners.old) fault) }
    ensures replayed { IfOk result (λ draft. IsReplayed log.now draft.lines) }
    ensures good { IfOk result (λ draft. IsGoodTable task.now draft.lines) }
    ensures concludes { IfOk result (λ draft. Concludes draft.lines) }
    ensures covers { CoverAlike (λ b. covers b) pruners.new pruners.old }
{
    begin_all(pruners);
    replay_begun(alloc, task, log, pruners)
}

// The same, for pruners that were begun.
fn replay_begun(
    alloc: Global,
    task: &Task,
    log: &Log,
    pruners: &mut [Box<dyn Pruner>],
) -> Result<Draft, ReplayFault>
    requires atoms { log.now.atoms ≡ atoms task.now }
    requires fits { (lines : List Line) → All (λ b. fits b task.now lines) pruners.old }
    ensures closed { IfOk result (λ _. IsClosed task.now log.now
        (λ state. Any (λ b. covers b task.now state) pruners.old)) }
    ensures hole { IfErr result (λ fault. (fault ≡ H.Memory → ⊥) → IsFirstHole task.now log.now
        (λ state. Any (λ b. covers b task.now state) pruners.old) fault) }
    ensures replayed { IfOk result (λ draft. IsReplayed log.now draft.lines) }
    ensures good { IfOk result (λ draft. IsGoodTable task.now draft.lines) }
    ensures concludes { IfOk result (λ draft. Concludes draft.lines) }
    ensures covers { CoverAlike (λ b. covers b) pruners.new pruners.old }
{
    follow(alloc, task, log)?;
    let draft = Draft::new(alloc, task)?;
    put_all(alloc, task, log, draft, pruners)
}

// What is written of a proof: a draft, the union of the pruned states in it, and a state to write
// to.
#[derive(Drop)]
struct Writing {
    draft: Draft,
    union: Note,
    state: State,
}

// The proof of a log that is followed, from a draft on that has only the lines with which every
// draft begins.
fn put_all(
    alloc: Global,
    task: &Task,
    log: &Log,
    draft: Draft,
    pruners: &mut [Box<dyn Pruner>],
) -> Result<Draft, ReplayFault>
    requires atoms { log.now.atoms ≡ atoms task.now }
    requires followed { IsSearchFollowed task.now log.now }
    requires draft { draft.lines ≡ onto prelude [] }
    requires good { IsGoodTable task.now draft.lines }
    requires fits { (lines : List Line) → All (λ b. fits b task.now lines) pruners.old }
    ensures justified { IfOk result (λ _. (place : ℕ) → IsJustified log.now
        (λ state. Any (λ b. covers b task.now state) pruners.old) place) }
    ensures uncovered { IfErr result (IsUncovered log.now
        (λ state. Any (λ b. covers b task.now state) pruners.old)) }
    ensures proof { IfOk result (λ whole. IsProof task.now log.now whole.lines) }
    ensures covers { CoverAlike (λ b. covers b) pruners.new pruners.old }
{
    let state = task.start_state(alloc)?;
    let union = Note { set: 0, line: 0 };
    let mut writing = Writing {
        draft,
        union,
        state,
    };
    put_pruned(alloc, task, log, &mut writing, pruners)?;
    put_end(alloc, task, log, &mut writing.draft, writing.union)?;
    Ok(writing.draft)
}

// Puts the lines last with which the proof ends; `union` is the union of all pruned states.
fn put_end(
    alloc: Global,
    task: &Task,
    log: &Log,
    draft: &mut Draft,
    union: Note,
) -> Result<(), AllocError>
    requires atoms { log.now.atoms ≡ atoms task.now }
    requires followed { IsSearchFollowed task.now log.now }
    requires progress { IsProgress task.now (pruned_in log.now.entries) draft.old.lines union }
    ensures { OnOk result (IsProof task.now log.now draft.new.lines) }
{
    // For its contract alone: the task is one.
    let _atoms = task.atoms();
    // For its contract alone: a number of lines fits a word.
    let _spare = draft.spare();
    let states = expanded_states(alloc, log)?;
    push_closing(alloc, draft, task, states, union)
}

// Puts the lines of all pruned states last.
fn put_pruned(
    alloc: Global,
    task: &Task,
    log: &Log,
    writing: &mut Writing,
    pruners: &mut [Box<dyn Pruner>],
) -> Result<(), ReplayFault>
    requires atoms { log.now.atoms ≡ atoms task.now }
    requires state { IsState task.now writing.old.state }
    requires draft { writing.old.draft.lines ≡ onto prelude [] }
    requires union { writing.old.union ≡ record { set = 0; line = 0 } }
    requires good { IsGoodTable task.now writing.old.draft.lines }
    requires fits { (lines : List Line) → All (λ b. fits b task.now lines) pruners.old }
    ensures justified { OnOk result ((place : ℕ) → IsJustified log.now
        (λ state. Any (λ b. covers b task.now state) pruners.old) place) }
    ensures uncovered { IfErr result (IsUncovered log.now
        (λ state. Any (λ b. covers b task.now state) pruners.old)) }
    ensures progress { OnOk result (IsProgress task.now (pruned_in log.now.entries)
        writing.new.draft.lines writing.new.union) }
    ensures covers { CoverAlike (λ b. covers b) pruners.new pruners.old }
{
    for place in 0..log.len() {
        let covered = put_one(alloc, task, log, place, writing, pruners)?;
        if !covered {
            return Err(ReplayFault::Unjustified(line_of(log, place)));
        }
    }
    Ok(())
}

// Puts the lines of an entry last, where it is a pruned state, unless this isn't covered. Says
// whether it isn't an uncovered pruned state.
fn put_one(
    alloc: Global,
    task: &Task,
    log: &Log,
    place: usize,
    writing: &mut Writing,
    pruners: &mut [Box<dyn Pruner>],
) -> Result<bool, AllocError>
    requires atoms { log.now.atoms ≡ atoms task.now }
    requires place { place < length log.now.entries }
    requires state { IsState task.now writing.old.state }
    requires good { IsGoodTable task.now writing.old.draft.lines }
    requires union { (pruned : ℕ)
        × IsPrunedUnion writing.old.draft.lines pruned writing.old.union }
    requires fits { (lines : List Line) → Extends task.now writing.old.draft.lines lines
        → All (λ b. fits b task.now lines) pruners.old }
    ensures state { IsState task.now writing.new.state }
    ensures covered { (entry : LogEntry) → StandsInLog log.now place entry
        → IfOk result (λ covered. covered ≡ true → entry.expanded ≡ false
        → Any (λ b. covers b task.now (state_of (atoms task.now) entry.state)) pruners.old) }
    ensures uncovered { (entry : LogEntry) → StandsInLog log.now place entry
        → IfOk result (λ covered. covered ≡ false → (entry.expanded ≡ false)
        × (Any (λ b. covers b task.now (state_of (atoms task.now) entry.state)) pruners.old
        → ⊥)) }
    ensures progress { (entry : LogEntry) → StandsInLog log.now place entry
        → IfOk result (λ covered. covered ≡ true → (before : List LogEntry)
        → IsProgress task.now (pruned_in before) writing.old.draft.lines writing.old.union
        → IsProgress task.now (pruned_in (before ++ entry ∷ [])) writing.new.draft.lines
        writing.new.union) }
    ensures fits { (lines : List Line) → Extends task.now writing.new.draft.lines lines
        → All (λ b. fits b task.now lines) pruners.new }
    ensures covers { CoverAlike (λ b. covers b) pruners.new pruners.old }
{
    if log.expanded(place) {
        return Ok(true);
    }
    let mut buffer = StateBuffer::new();
    let held = log.held(place).slice(&mut buffer);
    put_state(alloc, task, held, writing, pruners)
}

// Puts the lines of a pruned state last, where it is covered, and says whether it is.
fn put_state(
    alloc: Global,
    task: &Task,
    held: &[u32],
    writing: &mut Writing,
    pruners: &mut [Box<dyn Pruner>],
) -> Result<bool, AllocError>
    requires held { IsAtomSet (atoms task.now) held.now }
    requires state { IsState task.now writing.old.state }
    requires good { IsGoodTable task.now writing.old.draft.lines }
    requires union { (pruned : ℕ)
        × IsPrunedUnion writing.old.draft.lines pruned writing.old.union }
    requires fits { (lines : List Line) → Extends task.now writing.old.draft.lines lines
        → All (λ b. fits b task.now lines) pruners.old }
    ensures state { IsState task.now writing.new.state }
    ensures covered { IfOk result (λ covered. covered ≡ true
        → Any (λ b. covers b task.now (state_of (atoms task.now) held.now)) pruners.old) }
    ensures uncovered { IfOk result (λ covered. covered ≡ false
        → Any (λ b. covers b task.now (state_of (atoms task.now) held.now)) pruners.old → ⊥) }
    ensures progress { IfOk result (λ covered. covered ≡ true → (states : List (List ℕ))
        → IsProgress task.now states writing.old.draft.lines writing.old.union
        → IsProgress task.now (states ++ held.now ∷ []) writing.new.draft.lines
        writing.new.union) }
    ensures fits { (lines : List Line) → Extends task.now writing.new.draft.lines lines
        → All (λ b. fits b task.now lines) pruners.new }
    ensures covers { CoverAlike (λ b. covers b) pruners.new pruners.old }
{
    writing.state.hold(held);
    match ask(alloc, task, &mut writing.draft, &writing.state, pruners)? {
        None => Ok(false),
        Some(by) => {
            let more = push_pruned(alloc, &mut writing.draft, task, held, by, writing.union)?;
            writing.union = more;
            Ok(true)
        }
    }
}

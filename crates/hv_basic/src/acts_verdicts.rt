//! Verdicts on two action sets, by flags for each action that are kept.

ghost use Rattle.std.specs.Prelude.{◌≡◌, ◌<◌, ℕ, true, false, Some, IfOk, length};
ghost use Rattle.std.specs.List.{All};
ghost use Rattle.std.specs.List.Sorted.{IsStrictlyIncreasing};
ghost use Rattle.hv_lines.specs.Meaning.{acts_of};
ghost use Rattle.hv_lines.specs.Numbering.{acts_at, acts_count};
ghost use Rattle.hv_lines.specs.Verdicts.{IsVerdictOfActs};
ghost use Rattle.hv_lines.specs.declared.line.Acts.TheVariants as A;
ghost use Rattle.hv_basic.specs.Cases.{lines_in};
ghost use Rattle.hv_basic.specs.Sharing.{AreItsFlags};
ghost use Rattle.hv_basic.specs.Working.Flags.{AreTakenFlags, flag_or_false};

use crate::actions::is_rising;
use crate::case::Case;
use crate::kept_flags::{put_flags, take_flags};
use crate::shared::FlaggedActs;
use hv_lines::{Acts, Clash, Table, Verdict};
use std::alloc::{AllocError, Global};

/// The verdict on two action sets. The flags of both are kept for the statements after it.
pub(crate) fn decide_acts(
    alloc: Global,
    case: &Case<'_>,
    kept: &mut Vec<FlaggedActs>,
    first: usize,
    second: usize,
) -> Result<Verdict, AllocError>
    requires first { first < acts_count (lines_in case.now) }
    requires second { second < acts_count (lines_in case.now) }
    requires kept { All (AreItsFlags (lines_in case.now)) kept.old.items }
    ensures answer { IfOk result
        (IsVerdictOfActs case.now.task.now (lines_in case.now) first second) }
    ensures kept { All (AreItsFlags (lines_in case.now)) kept.new.items }
{
    if is_part(case.table, first, second) {
        return Ok(Verdict::True);
    }
    let seconds = take_flags(alloc, case.table, kept, second, case.task.actions())?;
    let verdict = verdict_by_second(alloc, case, kept, first, second, &seconds)?;
    put_flags(kept, seconds)?;
    Ok(verdict)
}

/// Whether the second action set is the first one, has it as a part, or has all actions.
fn is_part(table: &Table, first: usize, second: usize) -> bool
    requires { second < acts_count table.now.lines }
    ensures { result ≡ true → (number : ℕ) → acts_of table.now.lines first number ≡ true
        → acts_of table.now.lines second number ≡ true }
{
    if first == second {
        return true;
    }
    match table.acts(second) {
        Acts::All => true,
        Acts::Both(left, right) => *left == first || *right == first,
        Acts::List(_) => false,
    }
}

/// The verdict by the flags of the second action set. Where the first one is a list that rises its
/// actions are asked for, and no others.
fn verdict_by_second(
    alloc: Global,
    case: &Case<'_>,
    kept: &mut Vec<FlaggedActs>,
    first: usize,
    second: usize,
    seconds: &FlaggedActs,
) -> Result<Verdict, AllocError>
    requires first { first < acts_count (lines_in case.now) }
    requires kept { All (AreItsFlags (lines_in case.now)) kept.old.items }
    requires seconds { AreTakenFlags (lines_in case.now) second
        (length case.now.task.now.actions) seconds.now }
    ensures answer { IfOk result
        (IsVerdictOfActs case.now.task.now (lines_in case.now) first second) }
    ensures kept { All (AreItsFlags (lines_in case.now)) kept.new.items }
{
    if let Acts::List(listed) = case.table.acts(first) {
        if is_rising(listed.as_slice()) {
            return Ok(verdict_by_list(case, listed.as_slice(), first, second, seconds));
        }
    }
    let firsts = take_flags(alloc, case.table, kept, first, case.task.actions())?;
    let verdict = verdict_by_flags(case, first, second, &firsts, seconds);
    put_flags(kept, firsts)?;
    Ok(verdict)
}

/// The verdict where the first action set lists these actions, by the flags of the second one.
fn verdict_by_list(
    case: &Case<'_>,
    listed: &[u32],
    first: usize,
    second: usize,
    seconds: &FlaggedActs,
) -> Verdict
    requires lists { acts_at (lines_in case.now) first ≡ Some (A.List listed.now) }
    requires rises { IsStrictlyIncreasing listed.now }
    requires seconds { AreTakenFlags (lines_in case.now) second
        (length case.now.task.now.actions) seconds.now }
    ensures { IsVerdictOfActs case.now.task.now (lines_in case.now) first second result }
{
    let _ = (first, second);
    let actions = case.task.actions();
    for action in listed {
        if *action < actions && !seconds.flags[*action as usize] {
            return Verdict::False(Clash {
                action: Some(*action),
                state: None,
            });
        }
    }
    Verdict::True
}

/// The verdict by the flags of both action sets.
fn verdict_by_flags(
    case: &Case<'_>,
    first: usize,
    second: usize,
    firsts: &FlaggedActs,
    seconds: &FlaggedActs,
) -> Verdict
    requires firsts { AreTakenFlags (lines_in case.now) first
        (length case.now.task.now.actions) firsts.now }
    requires seconds { AreTakenFlags (lines_in case.now) second
        (length case.now.task.now.actions) seconds.now }
    ensures { IsVerdictOfActs case.now.task.now (lines_in case.now) first second result }
{
    let _ = (first, second);
    if !has_outside(&firsts.flags, &seconds.flags) {
        return Verdict::True;
    }
    for action in 0..case.task.actions() {
        if firsts.flags[action as usize] && !seconds.flags[action as usize] {
            return Verdict::False(Clash {
                action: Some(action),
                state: None,
            });
        }
    }
    Verdict::True
}

/// Whether there is a first flag without a second one. The loop doesn't end early, so that many
/// flags are compared at once.
fn has_outside(firsts: &[bool], seconds: &[bool]) -> bool
    requires { length firsts.now ≡ length seconds.now }
    ensures { result ≡ false → (k : ℕ) → k < length firsts.now
        → flag_or_false firsts.now k ≡ true → flag_or_false seconds.now k ≡ true }
{
    let mut found = false;
    for k in 0..firsts.len() {
        found |= firsts[k] & !seconds[k];
    }
    found
}

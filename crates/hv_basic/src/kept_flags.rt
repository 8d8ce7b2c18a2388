//! The flags of the actions of action sets, kept from statement to statement: where an action set
//! is the union of one whose flags are kept and a list, only that list is looked at.

ghost use Rattle.std.specs.Prelude.{◌≡◌, ◌<◌, List, true, IfOk, IfSome, length};
ghost use Rattle.std.specs.List.{All};
ghost use Rattle.hv_lines.specs.Numbering.{acts_count};
ghost use Rattle.hv_lines.specs.declared.line.Line.{Line};
ghost use Rattle.hv_basic.specs.Sharing.{AreItsFlags};
ghost use Rattle.hv_basic.specs.Working.Flags.{IsActsBeside, AreTakenFlags};

use crate::acts::{flags_of, set_listed};
use crate::shared::FlaggedActs;
use hv_lines::{Acts, Table};
use std::alloc::{AllocError, Global};

/// Of so many action sets flags are kept at most.
const MOST_FLAGGED: usize = 4;

/// The flags of the action set, one for each of so many actions. What is kept of it, or of a part
/// of it, is taken out and serves for it.
pub(crate) fn take_flags(
    alloc: Global,
    table: &Table,
    kept: &mut Vec<FlaggedActs>,
    acts: usize,
    actions: u32,
) -> Result<FlaggedActs, AllocError>
    requires acts { acts < acts_count table.now.lines }
    requires kept { All (AreItsFlags table.now.lines) kept.old.items }
    ensures kept { All (AreItsFlags table.now.lines) kept.new.items }
    ensures flagged { IfOk result (AreTakenFlags table.now.lines acts actions) }
{
    if let Some(flagged) = take_kept_flags(table, kept, acts, actions) {
        return Ok(flagged);
    }
    let flags = flags_of(alloc, table, acts, actions)?;
    Ok(FlaggedActs { acts, flags })
}

/// The same, if something is kept that serves.
fn take_kept_flags(
    table: &Table,
    kept: &mut Vec<FlaggedActs>,
    acts: usize,
    actions: u32,
) -> Option<FlaggedActs>
    requires acts { acts < acts_count table.now.lines }
    requires kept { All (AreItsFlags table.now.lines) kept.old.items }
    ensures kept { All (AreItsFlags table.now.lines) kept.new.items }
    ensures flagged { IfSome result (AreTakenFlags table.now.lines acts actions) }
{
    let place = serving_flags(kept, table, acts)?;
    let mut flagged = kept.remove(place);
    if !turn_flags(table, &mut flagged, acts, actions) {
        return None;
    }
    Some(flagged)
}

/// The place of what is kept of the action set, or else of a part of it.
fn serving_flags(kept: &[FlaggedActs], table: &Table, acts: usize) -> Option<usize>
    requires { acts < acts_count table.now.lines }
    ensures { IfSome result (λ place. place < length kept.now) }
{
    for place in 0..kept.len() {
        if kept[place].acts == acts {
            return Some(place);
        }
    }
    for place in 0..kept.len() {
        if acts_beside(table, kept[place].acts, acts).is_some() {
            return Some(place);
        }
    }
    None
}

/// Makes the flags those of the action set, if they are, or if it is the union of theirs and a
/// list: whether they are then.
fn turn_flags(table: &Table, flagged: &mut FlaggedActs, acts: usize, actions: u32) -> bool
    requires acts { acts < acts_count table.now.lines }
    requires flagged { AreItsFlags table.now.lines flagged.old }
    ensures { result ≡ true → AreTakenFlags table.now.lines acts actions flagged.new }
{
    if flagged.flags.len() != actions as usize {
        return false;
    }
    if flagged.acts == acts {
        return true;
    }
    match acts_beside(table, flagged.acts, acts) {
        None => false,
        Some(part) => add_part(table, flagged, acts, part),
    }
}

/// Adds the actions of the other part, if that is a list, by which the flags become the union's.
fn add_part(table: &Table, flagged: &mut FlaggedActs, acts: usize, part: usize) -> bool
    requires acts { acts < acts_count table.now.lines }
    requires part { IsActsBeside table.now.lines flagged.old.acts acts part }
    requires flagged { AreItsFlags table.now.lines flagged.old }
    ensures { result ≡ true
        → AreTakenFlags table.now.lines acts (length flagged.old.flags.items) flagged.new }
{
    match table.acts(part) {
        Acts::List(listed) => {
            set_listed(&mut flagged.flags, listed.as_slice());
            flagged.acts = acts;
            true
        }
        Acts::All | Acts::Both(..) => false,
    }
}

/// The other part of the action set, where one part is the first one.
fn acts_beside(table: &Table, first: usize, acts: usize) -> Option<usize>
    requires { acts < acts_count table.now.lines }
    ensures { IfSome result (IsActsBeside table.now.lines first acts) }
{
    match table.acts(acts) {
        Acts::Both(left, right) => {
            if *left == first {
                Some(*right)
            } else if *right == first {
                Some(*left)
            } else {
                None
            }
        }
        Acts::All | Acts::List(_) => None,
    }
}

/// Keeps the flags. Where there are many those that weren't asked for for longest are given up.
pub(crate) fn put_flags(kept: &mut Vec<FlaggedActs>, flagged: FlaggedActs) -> Result<(), AllocError>
    ensures { (lines : List Line) → All (AreItsFlags lines) kept.old.items
        → AreItsFlags lines flagged → All (AreItsFlags lines) kept.new.items }
{
    if kept.len() >= MOST_FLAGGED {
        kept.remove(0);
    }
    kept.push(flagged)?;
    Ok(())
}

//! Which actions an action set has.

ghost use Rattle.std.specs.Prelude.{◌≡◌, ◌<◌, ◌||◌, ℕ, length, nat_eq, IfOk};
ghost use Rattle.std.specs.List.{list_any};
ghost use Rattle.hv_lines.specs.Numbering.{ActsReferBelow, IsTable, acts_at, acts_count};
ghost use Rattle.hv_basic.specs.Working.Flags.{AreFlagsOf, Marks, flag_or_false};

use hv_lines::{Acts, Table};
use std::alloc::{AllocError, Global};

/// A flag for each of so many actions, true for those of the action set. Each action set that it is
/// made of is looked at once, however often it is shared.
pub(crate) fn flags_of(
    alloc: Global,
    table: &Table,
    acts: usize,
    actions: u32,
) -> Result<Vec<bool>, AllocError>
    requires { acts < acts_count table.now.lines }
    ensures flags { IfOk result (λ flags. AreFlagsOf table.now.lines acts actions flags.items) }
    ensures table { IsTable table.now.lines }
{
    // For its contract alone: the lines are those of a table.
    let _count = table.acts_count();
    let mut flags = vec![in alloc; false; actions as usize]?;
    let mut wanted = vec![in alloc; false; acts + 1]?;
    wanted[acts] = true;
    let mut left = acts + 1;
    'sets: while left > 0 {
        left -= 1;
        if wanted[left] {
            mark(table.acts(left), &mut flags, &mut wanted);
        }
    }
    Ok(flags)
}

/// Marks the actions that the action set lists itself, and the action sets that it is made of.
fn mark(acts: &Acts, flags: &mut Vec<bool>, wanted: &mut Vec<bool>)
    requires { ActsReferBelow (length wanted.old.items) acts.now }
    ensures { Marks acts.now flags.old.items wanted.old.items flags.new.items wanted.new.items }
{
    match acts {
        Acts::All => flags.fill(true),
        Acts::List(listed) => set_listed(flags, listed.as_slice()),
        Acts::Both(left, right) => {
            wanted[*left] = true;
            wanted[*right] = true;
        }
    }
}

/// Sets the flags of the actions that are listed.
pub(crate) fn set_listed(flags: &mut Vec<bool>, listed: &[u32])
    ensures length { length flags.new.items ≡ length flags.old.items }
    ensures set { (number : ℕ) → number < length flags.old.items
        → flag_or_false flags.new.items number ≡ flag_or_false flags.old.items number
        || list_any (λ n. nat_eq n number) listed.now }
{
    for action in listed {
        let place = *action as usize;
        if place < flags.len() {
            flags[place] = true;
        }
    }
}

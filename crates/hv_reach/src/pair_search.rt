//! The search for reached pairs: actions are visited until no row grows.
//!
//! There is one flag per atom and no queue of pairs: an action is visited again only where a row of
//! an atom of its precondition grew, and is then told what is new in it (`pair_course`). The order
//! of visits is left free by the proof, and was chosen by measuring: new atoms first, then the
//! atoms that few actions ask for; the search ends when a sweep over all atoms moved nothing.

ghost use Rattle.std.specs.Prelude.{◌≡◌, ◌≤◌, ◌<◌, ◌+◌, ℕ, true, false, length, IfOk, IfSome};
ghost use Rattle.hv_task.specs.Atoms.{IsNext};
ghost use Rattle.hv_task.specs.State.{AreBelow, has_atom};
ghost use Rattle.hv_task.specs.Strips.{atoms};
ghost use Rattle.hv_reach.specs.Reached.{has_pair};
ghost use Rattle.hv_reach.specs.Index.{IsTaskIndex};
ghost use Rattle.hv_reach.specs.Working.Course.{AreNewsBelow, IsAskedFor, IsNews, IsPairSearch};
ghost use Rattle.hv_reach.specs.Working.Course.{IsRowTold, IsSized, IsSpaceFor, StandAllBut};
ghost use Rattle.hv_reach.specs.Working.Table.{HaveTheirPairsBut, IsPairStep};
ghost use Rattle.hv_reach.specs.Working.Table.{IsPairTable, IsTurn, KeepAllPairs};
ghost use Rattle.hv_reach.specs.Working.Table.{PairsGrowWithin};

use crate::pair_course::{Course, new_course, tell};
use crate::pair_table::table;
use crate::pair_visit::visit;
use hv_task::{Atoms, Hint, State, Task};
use std::alloc::{AllocError, Global};

/// What a search for reached pairs goes by: the table, a flag for each row and one past them, and
/// what it knows.
#[derive(Drop)]
pub(crate) struct PairSearch {
    pub(crate) rows: Vec<State>,
    pub(crate) flags: State,
    pub(crate) course: Course,
}

impl PairSearch {
    /// Space for a search over the task's atoms.
    pub(crate) fn new(alloc: Global, task: &Task) -> Result<PairSearch, AllocError>
        ensures { IfOk result (IsSpaceFor (atoms task.now)) }
    {
        Ok(PairSearch {
            rows: table(alloc, task.atoms())?,
            flags: State::empty(alloc, task.atoms() + 1)?,
            course: new_course(alloc, task.atoms())?,
        })
    }
}

/// Goes on until no flag is raised. Short rows come before long ones, which wait until the short
/// ones are settled: where pairs come one after the other, a long row is then not gone through for
/// each.
pub(crate) fn close(task: &Task, index: &Vec<Vec<u32>>, search: &mut PairSearch)
    requires index { IsTaskIndex task.now index.now.items }
    requires search { IsPairSearch task.now search.old }
    ensures search { IsPairSearch task.now search.new }
    ensures grows { (p q : ℕ) → has_pair search.old.rows.items p q ≡ true
        → has_pair search.new.rows.items p q ≡ true }
    ensures keeps { KeepAllPairs task.now.actions (has_pair search.new.rows.items) }
    ensures least { PairsGrowWithin (KeepAllPairs task.now.actions)
        search.old.rows.items search.new.rows.items }
{
    let mut moved = true;
    while moved {
        settle(task, index, search);
        moved = sweep(task, index, search);
    }
}

// Turns for new atoms and for short rows, as long as a pair comes, but not for ever.
fn settle(task: &Task, index: &Vec<Vec<u32>>, search: &mut PairSearch) -> bool
    requires index { IsTaskIndex task.now index.now.items }
    requires search { IsPairSearch task.now search.old }
    ensures turn { IsTurn task.now.actions search.old search.new result }
    ensures search { IsPairSearch task.now search.new }
{
    let mut moved = false;
    for round in 0..task.atoms() {
        let _ = round;
        moved |= chase(task, index, search);
        let more = sweep_short(task, index, search);
        moved |= more;
        if !more {
            return moved;
        }
    }
    moved
}

// One turn for each atom that few actions ask for.
fn sweep_short(task: &Task, index: &Vec<Vec<u32>>, search: &mut PairSearch) -> bool
    requires index { IsTaskIndex task.now index.now.items }
    requires search { IsPairSearch task.now search.old }
    ensures turn { IsTurn task.now.actions search.old search.new result }
    ensures search { IsPairSearch task.now search.new }
{
    let mut moved = false;
    let mut from = 0;
    while let Some(flag) = next_raised(&search.flags, from) {
        if flag == task.atoms() {
            return moved;
        }
        moved |= turn_short(task, index, search, flag);
        from = flag + 1;
    }
    moved
}

// A turn for the flag where it denotes few actions: at most sixteen times as many as there are
// for an atom.
fn turn_short(task: &Task, index: &Vec<Vec<u32>>, search: &mut PairSearch, flag: u32) -> bool
    requires flag { flag ≤ atoms task.now }
    requires index { IsTaskIndex task.now index.now.items }
    requires search { IsPairSearch task.now search.old }
    ensures turn { IsTurn task.now.actions search.old search.new result }
    ensures search { IsPairSearch task.now search.new }
{
    let few = 16 * task.actions() / (task.atoms() + 1);
    if index[flag as usize].len() > few as usize {
        return false;
    }
    turn(task, index, search, flag)
}

// One turn for each atom that is new, and for those that come up meanwhile: atoms that are in with
// themselves and were not seen.
fn chase(task: &Task, index: &Vec<Vec<u32>>, search: &mut PairSearch) -> bool
    requires index { IsTaskIndex task.now index.now.items }
    requires search { IsPairSearch task.now search.old }
    ensures turn { IsTurn task.now.actions search.old search.new result }
    ensures search { IsPairSearch task.now search.new }
{
    let mut moved = false;
    for round in 0..task.atoms() {
        let _ = round;
        match next_unseen(task.atoms(), search) {
            None => return moved,
            Some(atom) => {
                search.course.seen.set(atom, true);
                moved |= turn(task, index, search, atom);
            }
        }
    }
    moved
}

// An atom with a flag that is raised, that is in with itself and was not seen, if there is one.
fn next_unseen(atoms: u32, search: &PairSearch) -> Option<u32>
    requires table { IsPairTable atoms search.now.rows.items }
    requires flags { length search.now.flags ≡ atoms + 1 }
    requires seen { length search.now.course.seen ≡ atoms }
    ensures { IfSome result (λ q. q < atoms) }
{
    let mut from = 0;
    while let Some(flag) = next_raised(&search.flags, from) {
        if flag == atoms {
            return None;
        }
        if !search.course.seen.has(flag) && search.rows[flag as usize].has(flag) {
            return Some(flag);
        }
        from = flag + 1;
    }
    None
}

// The next flag from this one on that is raised.
fn next_raised(flags: &State, from: u32) -> Option<u32>
    ensures next { IsNext (has_atom flags.now) from result }
    ensures within { IfSome result (λ x. (from ≤ x) × (x < length flags.now)) }
{
    let mut hint = Hint::default();
    flags.next(from, &mut hint)
}

// One turn for each flag that is raised, or comes to be before it is passed.
fn sweep(task: &Task, index: &Vec<Vec<u32>>, search: &mut PairSearch) -> bool
    requires index { IsTaskIndex task.now index.now.items }
    requires search { IsPairSearch task.now search.old }
    ensures turn { IsTurn task.now.actions search.old search.new result }
    ensures quiet { result ≡ false → (x : ℕ) → x ≤ atoms task.now
        → has_atom search.new.flags x ≡ false }
    ensures search { IsPairSearch task.now search.new }
{
    // For its contract alone: the task is one.
    let _atoms = task.atoms();
    let mut moved = false;
    let mut from = 0;
    while let Some(flag) = next_raised(&search.flags, from) {
        moved |= turn(task, index, search, flag);
        from = flag + 1;
    }
    moved
}

/// Where the flag is raised, lowers it and visits the actions that it denotes.
pub(crate) fn turn(task: &Task, index: &Vec<Vec<u32>>, search: &mut PairSearch, flag: u32) -> bool
    requires flag { flag ≤ atoms task.now }
    requires index { IsTaskIndex task.now index.now.items }
    requires search { IsPairSearch task.now search.old }
    ensures turn { IsTurn task.now.actions search.old search.new result }
    ensures lowered { result ≡ false → has_atom search.new.flags flag ≡ false }
    ensures search { IsPairSearch task.now search.new }
{
    if !search.flags.has(flag) {
        return false;
    }
    search.flags.set(flag, false);
    let row = index[flag as usize].as_slice();
    let course = &mut search.course;
    tell(
        task.atoms(),
        &search.rows,
        &mut course.told,
        &mut course.news,
        flag,
        row,
    );
    wake(task, search, row)
}

// Visits each of these actions, and says whether a pair is new.
fn wake(task: &Task, search: &mut PairSearch, numbers: &[u32]) -> bool
    requires numbers { AreBelow (length task.now.actions) numbers.now }
    requires table { IsPairTable (atoms task.now) search.old.rows.items }
    requires flags { length search.old.flags ≡ atoms task.now + 1 }
    requires told { IsRowTold (atoms task.now) (IsAskedFor task.now.actions)
        search.old.rows.items search.old.flags search.old.course.told.items }
    requires news { AreNewsBelow (atoms task.now) search.old.course.news }
    requires sized { IsSized (atoms task.now) (length task.now.actions) search.old.course }
    requires stand { StandAllBut numbers.now 0 (IsNews search.old.course.news) task.now.actions
        search.old.course.told.items search.old.rows.items search.old.course.standing.items }
    requires ready { HaveTheirPairsBut numbers.now 0 (atoms task.now)
        task.now.actions search.old.rows.items search.old.flags }
    ensures step { IsPairStep (atoms task.now) search.old.rows.items search.old.flags
        search.new.rows.items search.new.flags result }
    ensures search { IsPairSearch task.now search.new }
    ensures least { PairsGrowWithin (KeepAllPairs task.now.actions)
        search.old.rows.items search.new.rows.items }
{
    let mut moved = false;
    for number in numbers {
        let standing = search.course.standing[*number as usize];
        moved |= visit(
            task.atoms(),
            &mut search.rows,
            &mut search.flags,
            &mut search.course,
            *number,
            task.action(*number),
            standing,
        );
    }
    moved
}

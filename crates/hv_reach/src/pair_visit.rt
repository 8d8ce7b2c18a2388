//! Visits of actions in the search for reached pairs.
//!
//! The first visit that finds all pairs of the precondition does the whole work by rows: it meets
//! the rows of the precondition, takes out what the action adds and deletes, and puts what is left
//! into the rows of what it adds. Later ones do so where much is new in a row, and else ask for
//! each atom that is new whether it is in with the whole precondition.

ghost use Rattle.std.specs.Prelude.{◌≡◌, ◌<◌, ◌+◌, ℕ, true, false, length, Some};
ghost use Rattle.std.specs.Prelude.{slice_get, slice_index};
ghost use Rattle.std.specs.List.{All, Contains};
ghost use Rattle.hv_task.specs.declared.action.Action.{Action};
ghost use Rattle.hv_task.specs.Strips.{IsOver};
ghost use Rattle.hv_reach.specs.Reached.{HasPairsOf, LeavesAlone, has_pair};
ghost use Rattle.hv_reach.specs.Working.Course.{AreNewsBelow, IsFirstLack, IsGlance, IsKeptBut};
ghost use Rattle.hv_reach.specs.Working.Course.{IsNews, IsRowTold, StandsSo};
ghost use Rattle.hv_reach.specs.Working.Table.{HasItsPairs, IsJoined, IsPairStep, IsPairTable};
ghost use Rattle.hv_reach.specs.Working.Table.{KeepsPairs, PairsGrowWithin};
ghost use Rattle.hv_reach.specs.declared.pair_course.Lack.{Lack};
ghost use Rattle.hv_reach.specs.declared.pair_course.ActionStanding.{ActionStanding};
ghost use Rattle.hv_reach.specs.declared.pair_course.ActionStanding.TheVariants as S;

use crate::mask::{row_has, spared};
use crate::pair_course::{ActionStanding, Course, Glance, Lack, News, next_lack};
use crate::pair_table::{join_all, mark_all, mark_row};
use hv_task::{Action, State};

/// Puts in what the action gives, where it lacks no pair. Afterwards it is ready.
pub(crate) fn visit(
    atoms: u32,
    rows: &mut Vec<State>,
    flags: &mut State,
    course: &mut Course,
    number: u32,
    action: &Action,
    standing: ActionStanding,
) -> bool
    requires table { IsPairTable atoms rows.old.items }
    requires flags { length flags.old ≡ atoms + 1 }
    requires over { IsOver atoms action.now }
    requires told { IsRowTold atoms (Contains action.now.pre) rows.old.items flags.old
        course.old.told.items }
    requires news { AreNewsBelow atoms course.old.news }
    requires mask { length course.old.mask ≡ atoms }
    requires standing { slice_get course.old.standing.items number ≡ Some standing }
    requires stands { StandsSo (IsNews course.old.news) course.old.told.items rows.old.items
        action.now standing }
    ensures step { IsPairStep atoms rows.old.items flags.old rows.new.items flags.new result }
    ensures ready { HasItsPairs atoms rows.new.items flags.new action.now }
    ensures kept { IsKeptBut number course.old course.new }
    ensures stands { (s : ActionStanding) → slice_get course.new.standing.items number ≡ Some s
        → StandsSo (λ q. ⊥) course.old.told.items rows.new.items action.now s }
    ensures least { PairsGrowWithin (λ set. KeepsPairs set action.now)
        rows.old.items rows.new.items }
{
    match standing {
        ActionStanding::New => {
            let lack = next_lack(atoms, rows, action.pre.as_slice(), 0, 0);
            enter(atoms, rows, flags, course, number, action, lack)
        }
        ActionStanding::Lacks(old) => {
            if !rows[old.first as usize].has(old.second) {
                return false;
            }
            let lack = next_lack(atoms, rows, action.pre.as_slice(), old.row, old.column);
            enter(atoms, rows, flags, course, number, action, lack)
        }
        ActionStanding::Ready(glance) => {
            if course.news.many {
                return give(atoms, rows, flags, &mut course.mask, action);
            }
            follow(atoms, rows, flags, &course.news, action, glance)
        }
    }
}

// Notes the pair that the action lacks, or where it lacks none, puts in what it gives.
fn enter(
    atoms: u32,
    rows: &mut Vec<State>,
    flags: &mut State,
    course: &mut Course,
    number: u32,
    action: &Action,
    lack: Option<Lack>,
) -> bool
    requires table { IsPairTable atoms rows.old.items }
    requires flags { length flags.old ≡ atoms + 1 }
    requires over { IsOver atoms action.now }
    requires told { (p q : ℕ) → has_pair course.old.told.items p q ≡ true
        → has_pair rows.old.items p q ≡ true }
    requires number { number < length course.old.standing.items }
    requires mask { length course.old.mask ≡ atoms }
    requires lack { IsFirstLack (has_pair rows.old.items) action.now.pre lack }
    ensures step { IsPairStep atoms rows.old.items flags.old rows.new.items flags.new result }
    ensures ready { HasItsPairs atoms rows.new.items flags.new action.now }
    ensures kept { IsKeptBut number course.old course.new }
    ensures stands { (s : ActionStanding) → slice_get course.new.standing.items number ≡ Some s
        → StandsSo (λ q. ⊥) course.old.told.items rows.new.items action.now s }
    ensures least { PairsGrowWithin (λ set. KeepsPairs set action.now)
        rows.old.items rows.new.items }
{
    match lack {
        Some(lack) => {
            course.standing[number as usize] = ActionStanding::Lacks(lack);
            false
        }
        None => {
            let moved = give(atoms, rows, flags, &mut course.mask, action);
            course.standing[number as usize] = lacking_none(action.pre.as_slice());
            moved
        }
    }
}

// How an action of this precondition stands that lacks no pair. One without precondition is visited
// as if it were new: it goes by all atoms.
fn lacking_none(list: &[u32]) -> ActionStanding
    ensures glance { (glance : Glance) → result ≡ S.Ready glance → IsGlance list.now glance }
    ensures none { (lack : Lack) → result ≡ S.Lacks lack → ⊥ }
{
    if list.len() == 0 {
        return ActionStanding::New;
    }
    ActionStanding::Ready(Glance {
        first: list[0],
        second: list[list.len() - 1],
    })
}

// Puts in what the action gives, by rows.
fn give(
    atoms: u32,
    rows: &mut Vec<State>,
    flags: &mut State,
    mask: &mut State,
    action: &Action,
) -> bool
    requires table { IsPairTable atoms rows.old.items }
    requires flags { length flags.old ≡ atoms + 1 }
    requires over { IsOver atoms action.now }
    requires mask { length mask.old ≡ atoms }
    requires pre { HasPairsOf (has_pair rows.old.items) action.now.pre }
    ensures step { IsPairStep atoms rows.old.items flags.old rows.new.items flags.new result }
    ensures mask { length mask.new ≡ atoms }
    ensures ready { HasItsPairs atoms rows.new.items flags.new action.now }
    ensures add { HasPairsOf (has_pair rows.new.items) action.now.add }
    ensures other { (q : ℕ) → LeavesAlone action.now q
        → IsJoined (has_pair rows.old.items) action.now.pre q
        → All (λ p. has_pair rows.new.items p q ≡ true) action.now.add }
    ensures least { PairsGrowWithin (λ set. KeepsPairs set action.now)
        rows.old.items rows.new.items }
{
    let first = mark_all(atoms, rows, flags, action.add.as_slice());
    spared(atoms, rows, action, mask);
    first | join_all(atoms, rows, flags, action.add.as_slice(), mask)
}

// Puts in what the action gives with each atom that is new.
fn follow(
    atoms: u32,
    rows: &mut Vec<State>,
    flags: &mut State,
    news: &News,
    action: &Action,
    glance: Glance,
) -> bool
    requires table { IsPairTable atoms rows.old.items }
    requires flags { length flags.old ≡ atoms + 1 }
    requires over { IsOver atoms action.now }
    requires news { AreNewsBelow atoms news.now }
    requires glance { IsGlance action.now.pre glance }
    requires pre { HasPairsOf (has_pair rows.old.items) action.now.pre }
    requires add { HasPairsOf (has_pair rows.old.items) action.now.add }
    ensures step { IsPairStep atoms rows.old.items flags.old rows.new.items flags.new result }
    ensures done { (k : ℕ) → k < news.now.count
        → LeavesAlone action.now (slice_index news.now.atoms.items k)
        → All (λ p. has_pair rows.old.items p (slice_index news.now.atoms.items k) ≡ true)
        action.now.pre
        → All (λ p. has_pair rows.new.items p (slice_index news.now.atoms.items k) ≡ true)
        action.now.add }
    ensures least { PairsGrowWithin (λ set. KeepsPairs set action.now)
        rows.old.items rows.new.items }
{
    let mut moved = false;
    for place in 0..news.count {
        moved |= follow_one(atoms, rows, flags, action, glance, news.atoms[place]);
    }
    moved
}

// Puts in what the action gives with this atom.
fn follow_one(
    atoms: u32,
    rows: &mut Vec<State>,
    flags: &mut State,
    action: &Action,
    glance: Glance,
    atom: u32,
) -> bool
    requires table { IsPairTable atoms rows.old.items }
    requires flags { length flags.old ≡ atoms + 1 }
    requires over { IsOver atoms action.now }
    requires atom { atom < atoms }
    requires glance { IsGlance action.now.pre glance }
    requires pre { HasPairsOf (has_pair rows.old.items) action.now.pre }
    requires add { HasPairsOf (has_pair rows.old.items) action.now.add }
    ensures step { IsPairStep atoms rows.old.items flags.old rows.new.items flags.new result }
    ensures done { LeavesAlone action.now atom
        → All (λ p. has_pair rows.old.items p atom ≡ true) action.now.pre
        → All (λ p. has_pair rows.new.items p atom ≡ true) action.now.add }
    ensures least { PairsGrowWithin (λ set. KeepsPairs set action.now)
        rows.old.items rows.new.items }
{
    if !is_met(atoms, rows, action, glance, atom) {
        return false;
    }
    mark_row(atoms, rows, flags, atom, action.add.as_slice())
}

// Whether the atom is in with the whole precondition, and left alone.
fn is_met(atoms: u32, rows: &Vec<State>, action: &Action, glance: Glance, atom: u32) -> bool
    requires table { IsPairTable atoms rows.now.items }
    requires over { IsOver atoms action.now }
    requires atom { atom < atoms }
    requires glance { IsGlance action.now.pre glance }
    ensures yes { result ≡ true → LeavesAlone action.now atom
        × All (λ p. has_pair rows.now.items p atom ≡ true) action.now.pre }
    ensures no { result ≡ false → LeavesAlone action.now atom
        → All (λ p. has_pair rows.now.items p atom ≡ true) action.now.pre → ⊥ }
{
    if !rows[glance.first as usize].has(atom) {
        return false;
    }
    if !rows[glance.second as usize].has(atom) {
        return false;
    }
    if !leaves_alone(action, atom) {
        return false;
    }
    row_has(&rows[atom as usize], action.pre.as_slice())
}

// Whether the action neither adds nor deletes the atom.
fn leaves_alone(action: &Action, atom: u32) -> bool
    ensures yes { result ≡ true → LeavesAlone action.now atom }
    ensures no { result ≡ false → LeavesAlone action.now atom → ⊥ }
{
    if action.add.has(atom) {
        return false;
    }
    !action.del.has(atom)
}

//! What a search for reached pairs knows, so that it looks at what is new alone.
//!
//! Of each row it keeps what actions were told of it: the news are what the row has more. Where no
//! action asks for the row's atom, nothing is told. Of each action it keeps a pair of its
//! precondition that is missing, with its place, before which none is; or that none is missing. As
//! pairs never go, the search for what is missing looks at each pair of a precondition once. An
//! action that lacks its pair still is passed over by a look at that pair, and one that lacks none
//! by a glance at two of its atoms, where the row of one of them hasn't the new atom: then nothing
//! of the action itself is read. That takes 20 bytes an action, and besides the table once more.
//!
//! It is kept from one search to the next of the same task, and emptied before it is filled anew.

ghost use Rattle.std.specs.Prelude.{◌≡◌, ◌<◌, ◌≤◌, ◌⊎◌, ℕ, true, false, length, Some, IfOk};
ghost use Rattle.std.specs.Prelude.{MatchOption, OnOk, slice_get, slice_index};
ghost use Rattle.std.specs.List.{All};
ghost use Rattle.std.specs.List.Sorted.{IsStrictlyIncreasing};
ghost use Rattle.hv_task.specs.State.{AreBelow, has_atom};
ghost use Rattle.hv_reach.specs.Reached.{has_pair};
ghost use Rattle.hv_reach.specs.Working.Course.{AreNewsBelow, ArePairedBefore, IsCourseOver};
ghost use Rattle.hv_reach.specs.Working.Course.{IsFirstLack, IsNews, IsSized, IsTelling};
ghost use Rattle.hv_reach.specs.Working.Table.{IsPairTable};
ghost use Rattle.hv_reach.specs.declared.pair_course.ActionStanding.TheVariants as S;

use crate::pair_table::{clear_table, table};
use hv_task::State;
use std::alloc::{AllocError, Global};

/// A pair of a precondition that is missing, and its place there: its row, and its column in it.
#[derive(Clone, Copy)]
pub(crate) struct Lack {
    pub(crate) first: u32,
    pub(crate) second: u32,
    pub(crate) row: u32,
    pub(crate) column: u32,
}

/// Two atoms of a precondition.
#[derive(Clone, Copy)]
pub(crate) struct Glance {
    pub(crate) first: u32,
    pub(crate) second: u32,
}

/// How an action stands.
#[derive(Clone, Copy)]
pub(crate) enum ActionStanding {
    /// Nothing is known of it.
    New,
    /// It lacks a pair of its precondition, or did when it was visited last.
    Lacks(Lack),
    /// It lacks none, and what it gives was put in.
    Ready(Glance),
}

/// What is new in a row: so many atoms of these, or else more than there is space for.
#[derive(Drop)]
pub(crate) struct News {
    pub(crate) atoms: Vec<u32>,
    pub(crate) count: usize,
    pub(crate) many: bool,
}

/// What a search for reached pairs knows.
#[derive(Drop)]
pub(crate) struct Course {
    /// What actions were told of each row.
    pub(crate) told: Vec<State>,
    /// What is new in the row that they are told of.
    pub(crate) news: News,
    pub(crate) standing: Vec<ActionStanding>,
    /// The atoms that were new once.
    pub(crate) seen: State,
    /// Space.
    pub(crate) mask: State,
}

// For how many atoms there is space: where more are new, rows are met at once.
const FEW: usize = 8;

/// Space for what is known, for so many atoms.
pub(crate) fn new_course(alloc: Global, atoms: u32) -> Result<Course, AllocError>
    ensures { IfOk result (IsCourseOver atoms) }
{
    Ok(Course {
        told: table(alloc, atoms)?,
        news: News {
            atoms: vec![in alloc; 0; FEW]?,
            count: 0,
            many: false,
        },
        standing: Vec::new(alloc),
        seen: State::empty(alloc, atoms)?,
        mask: State::empty(alloc, atoms)?,
    })
}

/// Makes it a course where nothing is known, for so many actions.
pub(crate) fn forget(atoms: u32, actions: u32, course: &mut Course) -> Result<(), AllocError>
    requires { IsCourseOver atoms course.old }
    ensures over { IsCourseOver atoms course.new }
    ensures told { OnOk result (IsPairTable atoms course.new.told.items) }
    ensures none { OnOk result ((p q : ℕ) → has_pair course.new.told.items p q ≡ false) }
    ensures new { OnOk result ((k : ℕ) → k < actions
        → slice_get course.new.standing.items k ≡ Some S.New) }
    ensures sized { OnOk result (IsSized atoms actions course.new) }
{
    course.standing.clear();
    course
        .standing
        .resize(actions as usize, ActionStanding::New)?;
    clear_table(atoms, &mut course.told);
    course.seen.hold(&[]);
    Ok(())
}

/// The first missing pair of these atoms from a place on, before which none is missing.
pub(crate) fn next_lack(
    atoms: u32,
    rows: &Vec<State>,
    list: &[u32],
    row: u32,
    column: u32,
) -> Option<Lack>
    requires table { IsPairTable atoms rows.now.items }
    requires below { AreBelow atoms list.now }
    requires rises { IsStrictlyIncreasing list.now }
    requires before { ArePairedBefore (has_pair rows.now.items) list.now row column }
    ensures { IsFirstLack (has_pair rows.now.items) list.now result }
{
    let mut from = column as usize;
    for place in row as usize..list.len() {
        let first = list[place];
        match next_missing(&rows[first as usize], list, from) {
            None => from = 0,
            Some(found) => {
                return Some(Lack {
                    first,
                    second: list[found],
                    row: place as u32,
                    column: found as u32,
                });
            }
        }
    }
    None
}

// The first place from this one on of an atom that the row has not.
fn next_missing(row: &State, list: &[u32], from: usize) -> Option<usize>
    requires { AreBelow (length row.now) list.now }
    ensures { MatchOption result
        ((j : ℕ) → from ≤ j → j < length list.now
        → has_atom row.now (slice_index list.now j) ≡ true)
        (λ found. (found < length list.now)
        × (has_atom row.now (slice_index list.now found) ≡ false)
        × ((j : ℕ) → from ≤ j → j < found
        → has_atom row.now (slice_index list.now j) ≡ true)) }
{
    for place in from..list.len() {
        if !row.has(list[place]) {
            return Some(place);
        }
    }
    None
}

/// Notes that these actions are told of the row of this atom, and what is new in it. Past the atoms
/// there is no row, and where there are no actions nothing is told: nothing is new then.
pub(crate) fn tell(
    atoms: u32,
    rows: &Vec<State>,
    told: &mut Vec<State>,
    news: &mut News,
    atom: u32,
    actions: &[u32],
)
    requires table { IsPairTable atoms rows.now.items }
    requires size { length told.old.items ≡ atoms }
    requires each { All (λ row. length row ≡ atoms) told.old.items }
    requires within { (p q : ℕ) → has_pair told.old.items p q ≡ true
        → has_pair rows.now.items p q ≡ true }
    ensures { IsTelling atoms actions.now rows.now.items told.old.items told.new.items atom
        news.new }
{
    news.many = false;
    news.count = 0;
    if atom >= atoms || actions.len() == 0 {
        return;
    }
    list_news(&rows[atom as usize], &told[atom as usize], news);
    told[atom as usize].copy_from(&rows[atom as usize]);
}

// Makes these the news: what the row has more than was told.
fn list_news(row: &State, told: &State, news: &mut News)
    requires size { length row.now ≡ length told.now }
    requires count { news.old.count ≡ 0 }
    requires many { news.old.many ≡ false }
    ensures news { (q : ℕ) → has_atom row.now q ≡ true
        → (has_atom told.now q ≡ true) ⊎ IsNews news.new q }
    ensures below { AreNewsBelow (length row.now) news.new }
{
    // For its contract alone: a number of atoms fits a word.
    let _atoms = row.atoms();
    let mut from = 0;
    while let Some(atom) = row.next_outside(told, from) {
        if news.count == news.atoms.len() {
            news.many = true;
            return;
        }
        let place = news.count;
        news.atoms[place] = atom;
        news.count = place + 1;
        from = atom + 1;
    }
}

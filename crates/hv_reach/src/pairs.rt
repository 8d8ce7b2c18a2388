//! The pairs of atoms that are reached from a state.
//!
//! A least set is "in every closed set", with sets as functions into `Bool`: "all reached are
//! there" then is one application, to the table itself; "all that is there is reached" is one
//! clause.

ghost use Rattle.std.specs.Prelude.{◌≡◌, ◌≤◌, ◌⊎◌, ◌↔◌, ℕ, true, false, length, IsTrue, IfOk};
ghost use Rattle.std.specs.Prelude.{IfSome, OnOk, is_some};
ghost use Rattle.hv_task.specs.AtomList.{IsListOf};
ghost use Rattle.hv_task.specs.Strips.{IsState, atoms};
ghost use Rattle.hv_task.specs.State.{AreBelow};
ghost use Rattle.hv_reach.specs.Index.{IsTaskIndex};
ghost use Rattle.hv_reach.specs.Reached.{HasPairsOf, ReachedPair, has_pair};
ghost use Rattle.hv_reach.specs.Working.Course.{IsSpaceFor};
ghost use Rattle.hv_reach.specs.Working.NoteRows.{IsDiagonal};
ghost use Rattle.hv_reach.specs.Working.Table.{IsPairTable};
ghost use Rattle.hv_reach.specs.Written.{PairsExcludeFrom};

use crate::index::index;
use crate::mask::{diagonal, has_pairs};
use crate::pair_course::forget;
use crate::pair_search::{PairSearch, close, turn};
use crate::pair_table::{clear_table, mark_all, table};
use hv_task::{State, Task};
use std::alloc::{AllocError, Global};
use std::marker::Model;
use std::mem::replace;

/// A set of pairs of atoms, the two of a pair possibly equal. The order of the two doesn't matter.
#[derive(Drop)]
pub struct Pairs {
    rows: Vec<State>,
}

impl Model for Pairs {
    ghost use Rattle.std.specs.Prelude.{Bool, List, length};
    ghost use Rattle.hv_reach.specs.Working.Table.{IsPairTable};

    ghost Value = { List (List Bool) };

    ghost view = { λ pairs. pairs.rows.items };

    ghost invariant = { λ pairs. IsPairTable (length pairs.rows.items) pairs.rows.items };
}

impl Pairs {
    /// Whether the pair is in the set. A number past the atoms is in no pair.
    pub fn has(&self, first: u32, second: u32) -> bool
        ensures has { result ≡ has_pair self.now first second }
        ensures even { result ≡ has_pair self.now second first }
        ensures past { (length self.now ≤ first) ⊎ (length self.now ≤ second) → result ≡ false }
    {
        let atoms = self.rows.len();
        if first as usize >= atoms || second as usize >= atoms {
            return false;
        }
        self.rows[first as usize].has(second)
    }

    // Whether all pairs of these atoms are in the set, which is over so many atoms.
    pub(crate) fn has_all(&self, atoms: u32, list: &[u32]) -> bool
        requires size { length self.now ≡ atoms }
        requires below { AreBelow atoms list.now }
        ensures yes { result ≡ true → HasPairsOf (has_pair self.now) list.now }
        ensures no { result ≡ false → HasPairsOf (has_pair self.now) list.now → ⊥ }
    {
        has_pairs(atoms, &self.rows, list)
    }

    // The atoms that are in a pair with themselves, of so many atoms that the set is over.
    pub(crate) fn diagonal(&self, alloc: Global, atoms: u32) -> Result<State, AllocError>
        requires { length self.now ≡ atoms }
        ensures { IfOk result (λ row. IsDiagonal row self.now) }
    {
        let mut row = State::empty(alloc, atoms)?;
        diagonal(atoms, &self.rows, &mut row);
        Ok(row)
    }
}

/// What the search for reached pairs goes by, made once for a task: which actions ask for an atom,
/// and the tables of the search. They are kept from one search to the next, which empties them
/// first, so a state for which nothing is told costs no memory.
#[derive(Drop)]
pub(crate) struct PairSpace {
    index: Vec<Vec<u32>>,
    search: PairSearch,
}

impl Model for PairSpace {
    ghost use Rattle.std.specs.Prelude.{◌≡◌, ◌+◌, ℕ, List, length};
    ghost use Rattle.std.specs.Global.{Vec};
    ghost use Rattle.hv_reach.specs.Working.Course.{IsSpaceFor};

    ghost Value = { List (Vec ℕ) };

    ghost view = { λ space. space.index.items };

    ghost invariant = { λ space. (n : ℕ) → length space.index.items ≡ n + 1
        → IsSpaceFor n space.search };
}

impl PairSpace {
    /// That of the task.
    pub(crate) fn new(alloc: Global, task: &Task) -> Result<PairSpace, AllocError>
        ensures { IfOk result (IsTaskIndex task.now) }
    {
        let index = index(alloc, task)?;
        let search = PairSearch::new(alloc, task)?;
        Ok(PairSpace { index, search })
    }

    /// The pairs that are reached from the state.
    pub(crate) fn reached(
        &mut self,
        alloc: Global,
        task: &Task,
        start: &State,
    ) -> Result<Pairs, AllocError>
        requires index { IsTaskIndex task.now self.old }
        requires state { IsState task.now start.now }
        ensures atoms { IfOk result (λ pairs. length pairs ≡ atoms task.now) }
        ensures reached { IfOk result (λ pairs. (p q : ℕ)
            → (has_pair pairs p q ≡ true) ↔ ReachedPair task.now start.now p q) }
        ensures kept { self.new ≡ self.old }
    {
        fill_listed(alloc, task, &self.index, &mut self.search, start)?;
        let pairs = take_pairs(alloc, task.atoms(), &mut self.search)?;
        Ok(pairs)
    }

    /// The pairs that are reached from the state of these atoms, where some goal pair isn't among
    /// them; otherwise there are none to tell.
    pub(crate) fn reason(
        &mut self,
        alloc: Global,
        task: &Task,
        start: &State,
        held: &[u32],
    ) -> Result<Option<Pairs>, AllocError>
        requires index { IsTaskIndex task.now self.old }
        requires state { IsState task.now start.now }
        requires held { IsListOf start.now held.now }
        ensures some { IfOk result (λ found. IsTrue (is_some found)
            ↔ PairsExcludeFrom task.now start.now) }
        ensures size { IfOk result (λ found. IfSome found (λ pairs.
            length pairs ≡ atoms task.now)) }
        ensures reached { IfOk result (λ found. IfSome found (λ pairs. (p q : ℕ)
            → (has_pair pairs p q ≡ true) ↔ ReachedPair task.now start.now p q)) }
        ensures kept { self.new ≡ self.old }
    {
        fill(task, &self.index, &mut self.search, start, held)?;
        if has_pairs(task.atoms(), &self.search.rows, task.goal().as_slice()) {
            return Ok(None);
        }
        let pairs = take_pairs(alloc, task.atoms(), &mut self.search)?;
        Ok(Some(pairs))
    }

    /// The same of a state whose atoms aren't listed yet.
    pub(crate) fn reason_from(
        &mut self,
        alloc: Global,
        task: &Task,
        start: &State,
    ) -> Result<Option<Pairs>, AllocError>
        requires index { IsTaskIndex task.now self.old }
        requires state { IsState task.now start.now }
        ensures some { IfOk result (λ found. IsTrue (is_some found)
            ↔ PairsExcludeFrom task.now start.now) }
        ensures reached { IfOk result (λ found. IfSome found (λ pairs. (p q : ℕ)
            → (has_pair pairs p q ≡ true) ↔ ReachedPair task.now start.now p q)) }
    {
        let mut held = Vec::new(alloc);
        start.list_atoms(&mut held)?;
        self.reason(alloc, task, start, held.as_slice())
    }
}

/// The pairs that are reached from a state: those of the least set that has the pairs of the
/// state's atoms and what actions give. An action is visited again only where the row of an atom of
/// its precondition grew.
pub fn reached_pairs(alloc: Global, task: &Task, start: &State) -> Result<Pairs, AllocError>
    requires few { atoms task.now ≤ 1024 }
    requires state { IsState task.now start.now }
    ensures atoms { IfOk result (λ pairs. length pairs ≡ atoms task.now) }
    ensures reached { IfOk result (λ pairs. (p q : ℕ)
        → (has_pair pairs p q ≡ true) ↔ ReachedPair task.now start.now p q) }
{
    let mut space = PairSpace::new(alloc, task)?;
    space.reached(alloc, task, start)
}

// Makes the table that of the pairs that are reached: actions without precondition are visited
// first, and then those that ask for an atom of the state. At its end a search has lowered all
// flags.
fn fill(
    task: &Task,
    index: &Vec<Vec<u32>>,
    search: &mut PairSearch,
    start: &State,
    held: &[u32],
) -> Result<(), AllocError>
    requires index { IsTaskIndex task.now index.now.items }
    requires space { IsSpaceFor (atoms task.now) search.old }
    requires state { IsState task.now start.now }
    requires held { IsListOf start.now held.now }
    ensures space { IsSpaceFor (atoms task.now) search.new }
    ensures table { OnOk result (IsPairTable (atoms task.now) search.new.rows.items) }
    ensures reached { OnOk result ((p q : ℕ)
        → (has_pair search.new.rows.items p q ≡ true) ↔ ReachedPair task.now start.now p q) }
{
    let _ = start;
    let atoms = task.atoms();
    forget(atoms, task.actions(), &mut search.course)?;
    clear_table(atoms, &mut search.rows);
    mark_all(atoms, &mut search.rows, &mut search.flags, held);
    search.flags.set(atoms, true);
    turn(task, index, search, atoms);
    close(task, index, search);
    Ok(())
}

// The same for a state whose atoms aren't listed yet.
fn fill_listed(
    alloc: Global,
    task: &Task,
    index: &Vec<Vec<u32>>,
    search: &mut PairSearch,
    start: &State,
) -> Result<(), AllocError>
    requires index { IsTaskIndex task.now index.now.items }
    requires space { IsSpaceFor (atoms task.now) search.old }
    requires state { IsState task.now start.now }
    ensures space { IsSpaceFor (atoms task.now) search.new }
    ensures table { OnOk result (IsPairTable (atoms task.now) search.new.rows.items) }
    ensures reached { OnOk result ((p q : ℕ)
        → (has_pair search.new.rows.items p q ≡ true) ↔ ReachedPair task.now start.now p q) }
{
    let mut held = Vec::new(alloc);
    start.list_atoms(&mut held)?;
    fill(task, index, search, start, held.as_slice())
}

// Takes the table out, and leaves one without pairs.
fn take_pairs(alloc: Global, atoms: u32, search: &mut PairSearch) -> Result<Pairs, AllocError>
    requires space { IsSpaceFor atoms search.old }
    requires table { IsPairTable (length search.old.rows.items) search.old.rows.items }
    ensures rows { IfOk result (λ pairs. pairs ≡ search.old.rows.items) }
    ensures space { IsSpaceFor atoms search.new }
{
    let empty = table(alloc, atoms)?;
    let rows = replace(&mut search.rows, empty);
    Ok(Pairs { rows })
}

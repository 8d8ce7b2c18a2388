//! Formulas of one kind of clauses.
//!
//! A clause is kept as it is given, with repeated literals and tautologies, which count in a cost.

ghost use Rattle.std.specs.Prelude.{◌≡◌, ◌<◌, ◌≤◌, ◌+◌, ◌^◌, ⊤, length, min, drop, IfOk, IfErr};
ghost use Rattle.std.specs.Prelude.{MatchOption};
ghost use Rattle.std.specs.List.{All};
ghost use Rattle.hv_task.specs.Strips.{atoms};
ghost use Rattle.hv_sets.specs.Cubes.{SpeakBelow};
ghost use Rattle.hv_sets.specs.Kinds.{IsFirstOther};
ghost use Rattle.hv_sets.specs.Room.{HasRoom, KeepsLengths};
ghost use Rattle.hv_sets.specs.Truth.{in_clause};
ghost use Rattle.hv_sets.specs.Walks.{Covers, Meets};
ghost use Rattle.hv_propagation.specs.Clauses.{AreClauses};
ghost use Rattle.hv_formula.specs.Clausal.{in_formula};
ghost use Rattle.hv_propagation.specs.Forced.{AreForced, AreNever};
ghost use Rattle.hv_formula.specs.Denial.{steps_of};
ghost use Rattle.hv_indexes.specs.Implied.{AreImplications, AreImplied};
ghost use Rattle.hv_formula.specs.Working.Kinded.{IsKinded};
ghost use Rattle.hv_formula.specs.Working.Laws as laws;
ghost use Rattle.hv_formula.specs.Working.Lists.{AreListsOf};
ghost use Rattle.hv_formula.specs.Negative.{StandsNegatively};
ghost use Rattle.hv_indexes.specs.Rows.{IsRow};
ghost use Rattle.hv_formula.specs.declared.kept_lists.KeptLists.TheVariants as L;
ghost use Rattle.hv_indexes.specs.Occurrences.{IsIndexOf};

use crate::clause_kind::ClauseKind;
use crate::closure::{Closure, lone_literal};
use crate::kept_lists::KeptLists;
use crate::{denial, meet};
use hv_indexes::{ImplicationLists, Occurrences};
use hv_propagation::{BareClauses, cover};
use hv_sets::{Clauses, Covering, Cube, Cursor, Literal, Outside, Scratch, StateSet, Step};
use hv_task::{State, Task};
use std::alloc::{AllocError, Global};
use std::marker::{Model, PhantomData};

/// A formula of one kind: the set of the states of a task in which each of its clauses is true.
#[derive(Drop)]
pub struct Formula<K: ClauseKind> {
    atoms: u32,
    clauses: Clauses,
    closure: Closure,
    lists: ImplicationLists,
    kind: PhantomData<K>,
}

impl<K: ClauseKind> Model for Formula<K> {
    ghost use Rattle.hv_formula.specs.Clausal.{FormulaState};
    ghost use Rattle.hv_formula.specs.Working.Kinded.{IsKinded};
    ghost use Rattle.hv_formula.specs.Working.Closure.{IsClosure};
    ghost use Rattle.hv_formula.specs.Working.Lists.{AreListsOf};
    ghost use Rattle.std.specs.Prelude.{◌≤◌, ◌^◌};

    ghost Value = { FormulaState };

    ghost view = { λ s. record { atoms = s.atoms; clauses = s.clauses } };

    ghost invariant = { λ s. (s.atoms ≤ 2 ^ 31)
        × IsKinded K.is_of (record { atoms = s.atoms; clauses = s.clauses })
        × IsClosure s.atoms s.clauses s.closure × AreListsOf K.listed_by s.clauses s.lists };
}

impl<K: ClauseKind> Formula<K> {
    /// The formula of these clauses over the states of the task. More than 4,294,967,296 clauses
    /// are answered as out of memory, and so are more than 4,294,967,295 literals of one sign or
    /// implications. A formula that is read is in a line, which has fewer than 8,388,608.
    pub fn new(alloc: Global, task: &Task, clauses: &Clauses) -> Result<Formula<K>, K::Fault>
        requires { AreClauses (atoms task.now) clauses.now }
        ensures ok { IfOk result
            (λ set. set ≡ record { atoms = atoms task.now; clauses = clauses.now }) }
        ensures kind { IfOk result (λ _. All K.is_of clauses.now) }
        ensures err { IfErr result (K.is_fault clauses.now) }
    {
        if let Some(place) = first_other::<K>(clauses) {
            return Err(K::other(place));
        }
        Ok(Formula::of_kind(alloc, task, clauses)?)
    }

    /// The same of clauses that are known to be of the kind, which are not tested for it.
    pub fn of_kind(alloc: Global, task: &Task, clauses: &Clauses) -> Result<Formula<K>, AllocError>
        requires below { AreClauses (atoms task.now) clauses.now }
        requires kind { All K.is_of clauses.now }
        ensures { IfOk result
            (λ set. set ≡ record { atoms = atoms task.now; clauses = clauses.now }) }
    {
        let atoms = task.atoms();
        let copy = clauses.copy(alloc)?;
        let closure = Closure::of::<K>(alloc, atoms as usize, clauses)?;
        let lists = lists_of(alloc, K::listing(), clauses, &closure.occurs)?;
        Ok(Formula {
            atoms,
            clauses: copy,
            closure,
            lists,
            kind: PhantomData,
        })
    }

    /// How many atoms the task has.
    pub fn atoms(&self) -> u32
        ensures atoms { result ≡ self.now.atoms }
        ensures few { self.now.atoms ≤ 2 ^ 31 }
    {
        self.atoms
    }

    /// The clauses, in order.
    pub fn clauses(&self) -> &Clauses
        ensures clauses { result.now ≡ self.now.clauses }
        ensures below { AreClauses self.now.atoms result.now }
        ensures kind { All K.is_of result.now }
    {
        &self.clauses
    }

    /// The numbers of the clauses in which the atom occurs negatively: they rise, and each stands
    /// there once. It takes no memory.
    pub fn occurrences(&self, atom: u32) -> &[usize]
        requires { K.listed_by ≡ L.Negative }
        ensures { IsRow (StandsNegatively self.now.clauses) atom result.now }
    {
        let own = Literal {
            atom,
            positive: false,
        };
        self.closure.occurs.standing(own).places
    }

    /// The numbers of the literals that the literal implies at once: they rise, and each stands
    /// there once. It takes no memory.
    pub fn implied(&self, literal: Literal) -> &[u32]
        requires listed { K.listed_by ≡ L.Implied }
        requires atom { literal.atom < self.now.atoms }
        ensures { AreImplied self.now.clauses literal result.now }
    {
        self.lists.row(literal)
    }

    /// How many entries the places take that looks into its clauses remember.
    pub fn watches(&self) -> usize {
        self.closure.watches as usize
    }

    /// Where their literals stand.
    pub fn occurs(&self) -> &Occurrences
        ensures { IsIndexOf self.now.clauses result.now }
    {
        &self.closure.occurs
    }

    /// Its clauses with the places of their literals.
    pub fn bare(&self) -> BareClauses<'_>
        ensures clauses { result.clauses.now ≡ self.now.clauses }
        ensures index { IsIndexOf result.clauses.now result.occurs.now }
        ensures below { AreClauses self.now.atoms result.clauses.now }
        ensures kind { All K.is_of result.clauses.now }
        ensures few { self.now.atoms ≤ 2 ^ 31 }
    {
        BareClauses {
            clauses: &self.clauses,
            occurs: &self.closure.occurs,
        }
    }

    /// The literals that follow from the clauses alone, by rising atoms. The answer is None only if
    /// no state is in the set.
    pub fn forced(&self) -> Option<&[Literal]>
        ensures { MatchOption result (AreNever self.now.atoms self.now.clauses)
            (λ literals. AreForced self.now.atoms self.now.clauses literals.now) }
    {
        if self.closure.lone {
            return Some(self.clauses.get(0));
        }
        if self.closure.broken {
            return None;
        }
        Some(self.closure.forced.as_slice())
    }

    /// Whether some state is in the cube and in the set. One such state then is in the scratch.
    /// It takes no memory.
    pub fn meets_in(&self, cube: &Cube, scratch: &mut Scratch) -> bool
        requires cube { SpeakBelow self.now.atoms cube.now }
        requires room { HasRoom self.now.atoms 0 (length self.now.clauses) scratch.old }
        ensures meets { Meets result self.now.atoms (in_formula self.now) cube.now
            scratch.new.state }
        ensures state { length scratch.new.state ≡ length scratch.old.state }
        ensures lengths { KeepsLengths scratch.old scratch.new }
    {
        let places = scratch.marks.as_mut_slice();
        let queue = scratch.queue.as_mut_slice();
        let watches = scratch.counts.as_mut_slice();
        meet::meet(
            self,
            cube.as_slice(),
            places,
            queue,
            watches,
            &mut scratch.state,
        )
    }

    /// Whether each state of the cube is in the set. Otherwise a state of the cube outside the set
    /// is in the scratch. It takes no memory.
    pub fn covers_in(&self, cube: &Cube, scratch: &mut Scratch) -> bool
        requires cube { SpeakBelow self.now.atoms cube.now }
        requires room { HasRoom self.now.atoms 0 (length self.now.clauses) scratch.old }
        ensures covers { Covers result self.now.atoms (in_formula self.now) cube.now
            scratch.new.state }
        ensures state { length scratch.new.state ≡ length scratch.old.state }
        ensures lengths { KeepsLengths scratch.old scratch.new }
    {
        let places = scratch.marks.as_mut_slice();
        let queue = scratch.queue.as_mut_slice();
        cover::cover(
            &self.clauses,
            cube.as_slice(),
            places,
            queue,
            &mut scratch.state,
        )
    }
}

impl<K: ClauseKind> StateSet for Formula<K> {
    ghost atoms = { λ set. set.atoms };

    ghost has = { in_formula };

    fn holds(&self, state: &State) -> bool {
        for place in 0..self.clauses.len() {
            if !is_true_in(self.clauses.get(place), state) {
                return false;
            }
        }
        true
    }

    fn meets(&self, alloc: Global, cube: &Cube, scratch: &mut Scratch) -> Result<bool, AllocError> {
        let _ = alloc;
        let entries = self.clauses.len().max(self.watches());
        scratch.reserve(self.atoms, 0, entries)?;
        Ok(self.meets_in(cube, scratch))
    }
}

impl<K: ClauseKind> Covering for Formula<K> {
    fn covers(
        &self,
        alloc: Global,
        cube: &Cube,
        scratch: &mut Scratch,
    ) -> Result<bool, AllocError> {
        let _ = alloc;
        scratch.reserve(self.atoms, 0, self.clauses.len())?;
        Ok(self.covers_in(cube, scratch))
    }
}

// The walk takes the clauses in order: the cube of the states in which a clause is false, or a step
// without a cube for a tautology.
impl<K: ClauseKind> Outside for Formula<K> {
    ghost outside = { steps_of };

    ghost stands_outside = { λ _ _. ⊤ };

    ghost outside_left = { λ set cursor. drop cursor.place (steps_of set) };

    fn outside_next(&self, cursor: &mut Cursor, cube: &mut Cube) -> Result<Step, AllocError> {
        if cursor.place >= self.clauses.len() as u64 {
            return Ok(Step::End);
        }
        let is_some = denial::fill(self.clauses.get(cursor.place as usize), cube)?;
        cursor.place += 1;
        Ok(if is_some { Step::Cube } else { Step::Void })
    }

    fn outside_count(&self, alloc: Global, cap: u64) -> Result<u64, AllocError> {
        let _ = alloc;
        Ok((self.clauses.len() as u64).min(cap + 1))
    }

    ghost starts_outside = { λ _ _ _. tt };

    ghost starts_with_outside = { laws.starts_with_steps };

    ghost outside_is = { laws.outside_are };
}

// The lists that are handed out; none where these are the negative literals, which are elsewhere.
fn lists_of(
    alloc: Global,
    listing: KeptLists,
    clauses: &Clauses,
    occurs: &Occurrences,
) -> Result<ImplicationLists, AllocError>
    requires below { All (SpeakBelow (2 ^ 31)) clauses.now }
    requires index { IsIndexOf clauses.now occurs.now }
    ensures { IfOk result (AreListsOf listing clauses.now) }
{
    match listing {
        KeptLists::Negative => Ok(ImplicationLists::none()),
        KeptLists::Implied => implications_of(alloc, clauses, occurs),
    }
}

// What each literal implies at once.
fn implications_of(
    alloc: Global,
    clauses: &Clauses,
    occurs: &Occurrences,
) -> Result<ImplicationLists, AllocError>
    requires below { All (SpeakBelow (2 ^ 31)) clauses.now }
    requires index { IsIndexOf clauses.now occurs.now }
    ensures { IfOk result (AreImplications clauses.now) }
{
    match lone_literal(clauses) {
        Some(literal) => Ok(ImplicationLists::of_lone(literal)),
        None => ImplicationLists::of(alloc, clauses, occurs),
    }
}

// The place of the first clause that is of another kind.
fn first_other<K: ClauseKind>(clauses: &Clauses) -> Option<usize>
    ensures { MatchOption result (All K.is_of clauses.now) (IsFirstOther K.is_of clauses.now) }
{
    for place in 0..clauses.len() {
        if !K::takes(clauses.get(place)) {
            return Some(place);
        }
    }
    None
}

fn is_true_in(clause: &[Literal], state: &State) -> bool
    requires { SpeakBelow (length state.now) clause.now }
    ensures { result ≡ in_clause clause.now state.now }
{
    clause.iter().any(|literal| literal.is_true_in(state))
}

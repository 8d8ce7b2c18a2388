//! What follows from clauses alone, worked out once: that no state is in them, or the literals that
//! they force.
//!
//! These are kept as literals by rising atoms, and not as a mark an atom, so that many small
//! formulas over many atoms take memory by their size. Of one clause of one literal nothing is
//! kept, and no block of memory is taken: that literal is what it forces, so the clause itself is
//! handed out. What `unit_rounds` of
//! hv_propagation don't come to the end of is found out along a trail.
//!
//! Where values have to be tried to find a state, propagation doesn't show that there is none. This
//! is found out here too, once for a formula, unless it has fewer clauses than a sixteenth of the
//! atoms: each query about it would have to, and there may be one for each action.

ghost use Rattle.std.specs.Prelude.{◌≡◌, ◌<◌, ◌≤◌, ◌+◌, ◌∷◌, ◌^◌, ℕ, IfOk, IfSome, None, true};
ghost use Rattle.std.specs.Prelude.{[], List, Bool, false, length};
ghost use Rattle.std.specs.List.{All};
ghost use Rattle.std.specs.List.Sorted.{IsStrictlyIncreasing};
ghost use Rattle.hv_sets.specs.Cubes.{atoms_of};
ghost use Rattle.hv_sets.specs.Truth.{in_clauses};
ghost use Rattle.hv_propagation.specs.Clauses.{AreClauses};
ghost use Rattle.hv_propagation.specs.Chase.{AreKept};
ghost use Rattle.hv_propagation.specs.declared.completion.Completion.TheVariants as Ways;
ghost use Rattle.hv_propagation.specs.Forced.{AreForced, AreNever};
ghost use Rattle.hv_formula.specs.Working.Closure.{IsBasis, IsClosure, ListsBelow};
ghost use Rattle.hv_propagation.specs.Marks.{known, Agrees};
ghost use Rattle.hv_indexes.specs.Occurrences.{IsIndexOf};
ghost use Rattle.hv_propagation.specs.Trail.{marked, marks_of};
ghost use Rattle.hv_propagation.specs.Units.{AreSettled};

use crate::clause_kind::ClauseKind;
use hv_indexes::Occurrences;
use hv_propagation::{
    ActionEffect, Assignment, BareClauses, Completion, RoundsEnd, chase, propagation, unit_rounds,
};
use hv_sets::{Clauses, Cube, Literal};
use std::alloc::{AllocError, Global};

// Of fewer clauses than the atoms divided by this number no values are tried beforehand.
const FEW: usize = 16;

/// Where the literals of clauses stand, and what follows from the clauses alone: that they are true
/// in no state, or literals that are true in each state in which they are, by rising atoms.
#[derive(Drop)]
pub(crate) struct Closure {
    pub occurs: Occurrences,
    pub forced: Vec<Literal>,
    /// How many entries the places take that looks into these clauses remember; in 32 bits, since
    /// a line has fewer than 8,388,608 clauses.
    pub watches: u32,
    pub broken: bool,
    /// Whether they are one clause of one literal, which isn't listed then.
    pub lone: bool,
}

impl Closure {
    /// What follows from these clauses, which speak of so many atoms. More than 2^32 clauses are
    /// taken as out of memory. No line has so many: a clause takes two bytes at least, its space
    /// among them, and so does a literal, so a line of 16,777,216 bytes has fewer than 8,388,608.
    pub(crate) fn of<K: ClauseKind>(
        alloc: Global,
        atoms: usize,
        clauses: &Clauses,
    ) -> Result<Closure, AllocError>
        requires few { atoms ≤ 2 ^ 31 }
        requires clauses { AreClauses atoms clauses.now }
        requires kind { All K.is_of clauses.now }
        ensures { IfOk result (IsClosure atoms clauses.now) }
    {
        if clauses.len() > 1 << 32 {
            return Err(AllocError);
        }
        if let Some(literal) = lone_literal(clauses) {
            return Ok(Closure::of_lone(alloc, literal));
        }
        let occurs = Occurrences::new(alloc, clauses)?;
        Closure::of_any::<K>(alloc, atoms, clauses, occurs)
    }

    // The same of a literal that is the one clause.
    fn of_lone(alloc: Global, literal: Literal) -> Closure
        ensures index { IsIndexOf ((literal ∷ []) ∷ []) result.occurs }
        ensures broken { result.broken ≡ false }
        ensures lone { result.lone ≡ true }
    {
        Closure {
            occurs: Occurrences::of_lone(literal),
            forced: Vec::new(alloc),
            watches: 0,
            broken: false,
            lone: true,
        }
    }

    // The same of any clauses, where this is the index.
    fn of_any<K: ClauseKind>(
        alloc: Global,
        atoms: usize,
        clauses: &Clauses,
        occurs: Occurrences,
    ) -> Result<Closure, AllocError>
        requires few { atoms ≤ 2 ^ 31 }
        requires clauses { AreClauses atoms clauses.now }
        requires kind { All K.is_of clauses.now }
        requires index { IsIndexOf clauses.now occurs }
        ensures { IfOk result (IsClosure atoms clauses.now) }
    {
        let watches = watches_of(clauses);
        let mut forced = Vec::new(alloc);
        let basis = Basis {
            atoms,
            bare: BareClauses {
                clauses,
                occurs: &occurs,
            },
            watches,
        };
        let broken = !find_out::<K>(alloc, &basis, &mut forced)?;
        Ok(Closure {
            occurs,
            forced,
            watches: watches.min(u32::MAX as usize) as u32,
            broken,
            lone: false,
        })
    }
}

/// The literal that is the one clause, if there is no other clause, nor another literal in it.
pub(crate) fn lone_literal(clauses: &Clauses) -> Option<Literal>
    ensures { IfSome result (λ literal. clauses.now ≡ (literal ∷ []) ∷ []) }
{
    if clauses.len() != 1 {
        return None;
    }
    let clause = clauses.get(0);
    if clause.len() != 1 {
        return None;
    }
    Some(clause[0])
}

// What a closure is worked out from: clauses that speak of so many atoms, and how many entries the
// places take that looks into them remember.
#[derive(Drop)]
pub(crate) struct Basis<'a> {
    pub atoms: usize,
    pub bare: BareClauses<'a>,
    pub watches: usize,
}

// Rows as long as there are atoms, and the places that looks into clauses remember.
#[derive(Drop)]
pub(crate) struct OwnRows {
    pub places: Vec<u32>,
    pub queue: Vec<u32>,
    pub watched: Vec<u32>,
}

impl OwnRows {
    // Those for so many atoms and so many entries of places.
    fn new(alloc: Global, atoms: usize, watches: usize) -> Result<OwnRows, AllocError>
        ensures places { IfOk result (λ rows. length rows.places.items ≡ atoms) }
        ensures queue { IfOk result (λ rows. length rows.queue.items ≡ atoms) }
    {
        let places = row(alloc, atoms)?;
        let queue = row(alloc, atoms)?;
        let watched = row(alloc, watches)?;
        Ok(OwnRows {
            places,
            queue,
            watched,
        })
    }
}

// A row of so many entries, all 0.
fn row(alloc: Global, len: usize) -> Result<Vec<u32>, AllocError>
    ensures { IfOk result (λ row. length row.items ≡ len) }
{
    let mut row = Vec::new(alloc);
    row.resize(len, 0)?;
    Ok(row)
}

// How many entries the places take that looks into these clauses remember: two for each, up to the
// last one of more than two literals.
fn watches_of(clauses: &Clauses) -> usize {
    let mut count = 0;
    for place in 0..clauses.len() {
        if clauses.get(place).len() > 2 {
            count = place + 1;
        }
    }
    count.saturating_mul(2)
}

// Lists what follows from the clauses, and tries values where only that may tell that they are true
// in no state. The answer is false only if they are.
fn find_out<K: ClauseKind>(
    alloc: Global,
    basis: &Basis<'_>,
    forced: &mut Vec<Literal>,
) -> Result<bool, AllocError>
    requires basis { IsBasis basis.now }
    requires kind { All K.is_of basis.now.bare.clauses.now }
    requires none { forced.old.items ≡ [] }
    ensures forced { IfOk result (λ r. r ≡ true
        → AreForced basis.now.atoms basis.now.bare.clauses.now forced.new.items) }
    ensures never { IfOk result (λ r. r ≡ false
        → AreNever basis.now.atoms basis.now.bare.clauses.now) }
{
    if !force(alloc, basis, forced)? {
        return Ok(false);
    }
    if !is_in_doubt::<K>(basis.atoms, basis.bare.clauses) {
        return Ok(true);
    }
    try_values::<K>(alloc, basis, forced)
}

// Lists what follows from the clauses. The answer is false only if they are true in no state. Of
// clauses that are few beside the atoms it is found out without rows.
fn force(alloc: Global, basis: &Basis<'_>, forced: &mut Vec<Literal>) -> Result<bool, AllocError>
    requires basis { IsBasis basis.now }
    requires none { forced.old.items ≡ [] }
    ensures forced { IfOk result (λ r. r ≡ true
        → AreForced basis.now.atoms basis.now.bare.clauses.now forced.new.items) }
    ensures never { IfOk result (λ r. r ≡ false
        → AreNever basis.now.atoms basis.now.bare.clauses.now) }
{
    let mut cube = Cube::new(alloc);
    match unit_rounds::run(basis.bare.clauses, basis.atoms, &mut cube)? {
        RoundsEnd::Settled => {
            forced.extend_from_slice(cube.as_slice())?;
            Ok(true)
        }
        RoundsEnd::Broken => Ok(false),
        RoundsEnd::Open => force_in_rows(alloc, basis, forced),
    }
}

// The same in rows as long as there are atoms.
fn force_in_rows(
    alloc: Global,
    basis: &Basis<'_>,
    forced: &mut Vec<Literal>,
) -> Result<bool, AllocError>
    requires basis { IsBasis basis.now }
    requires none { forced.old.items ≡ [] }
    ensures forced { IfOk result (λ r. r ≡ true
        → AreForced basis.now.atoms basis.now.bare.clauses.now forced.new.items) }
    ensures never { IfOk result (λ r. r ≡ false
        → AreNever basis.now.atoms basis.now.bare.clauses.now) }
{
    let mut rows = OwnRows::new(alloc, basis.atoms, basis.watches)?;
    let places = rows.places.as_mut_slice();
    let queue = rows.queue.as_mut_slice();
    let watched = rows.watched.as_mut_slice();
    let mut marks = Assignment::over(basis.atoms, &[], places, queue, watched);
    if !conclude(&basis.bare, &mut marks) {
        return Ok(false);
    }
    list(&marks, forced)?;
    Ok(true)
}

// Marks what follows from the clauses. The answer is false only if they are true in no state.
fn conclude(bare: &BareClauses<'_>, marks: &mut Assignment<'_>) -> bool
    requires clauses { AreClauses (length marks.old.roots) bare.now.clauses.now }
    requires index { IsIndexOf bare.now.clauses.now bare.now.occurs.now }
    requires none { marks.old.trail ≡ [] }
    requires unknown { (p : ℕ) → known marks.old.roots p ≡ None }
    ensures settled { result ≡ true → AreSettled [] bare.now.clauses.now (marks_of marks.new) }
    ensures follows { result ≡ true → (state : List Bool) → length state ≡ length marks.old.roots →
        in_clauses bare.now.clauses.now state ≡ true → Agrees (marks_of marks.new) state }
    ensures never { result ≡ false → AreNever (length marks.old.roots) bare.now.clauses.now }
    ensures size { length marks.new.roots ≡ length marks.old.roots }
{
    let none = ActionEffect::none();
    if !chase::start(bare.clauses, &none, marks) {
        return false;
    }
    propagation::close(bare, marks, 0)
}

// Whether values have to be tried to find a state in the clauses, and these are enough for rows as
// long as there are atoms. Where each clause has a negative literal, or each a positive one, all
// that is open can take one value.
fn is_in_doubt<K: ClauseKind>(atoms: usize, clauses: &Clauses) -> bool
    ensures { result ≡ true → K.completed_by ≡ Ways.Try }
{
    match K::completion() {
        Completion::Fill(_) => false,
        Completion::Try => {
            clauses.len() >= atoms / FEW && has_of(clauses, false) && has_of(clauses, true)
        }
    }
}

// Whether all literals of some clause are of this sign.
fn has_of(clauses: &Clauses, sign: bool) -> bool {
    for place in 0..clauses.len() {
        let clause = clauses.get(place);
        if clause.iter().all(|literal| literal.positive == sign) {
            return true;
        }
    }
    false
}

// Tries values beside what the clauses force. The answer is false only if the clauses are true in
// no state.
fn try_values<K: ClauseKind>(
    alloc: Global,
    basis: &Basis<'_>,
    forced: &[Literal],
) -> Result<bool, AllocError>
    requires basis { IsBasis basis.now }
    requires kind { All K.is_of basis.now.bare.clauses.now }
    requires by_trials { K.completed_by ≡ Ways.Try }
    requires forced { AreForced basis.now.atoms basis.now.bare.clauses.now forced.now }
    ensures { IfOk result
        (λ r. r ≡ false → AreNever basis.now.atoms basis.now.bare.clauses.now) }
{
    let mut rows = OwnRows::new(alloc, basis.atoms, basis.watches)?;
    let places = rows.places.as_mut_slice();
    let queue = rows.queue.as_mut_slice();
    let watched = rows.watched.as_mut_slice();
    let mut marks = Assignment::over(basis.atoms, forced, places, queue, watched);
    Ok(try_each::<K>(&basis.bare, &mut marks))
}

// Tries values for the atoms that are somewhere positive. With these the clauses are true once each
// other open atom is out.
fn try_each<K: ClauseKind>(bare: &BareClauses<'_>, marks: &mut Assignment<'_>) -> bool
    requires clauses { AreClauses (length marks.old.roots) bare.now.clauses.now }
    requires kind { All K.is_of bare.now.clauses.now }
    requires by_trials { K.completed_by ≡ Ways.Try }
    requires index { IsIndexOf bare.now.clauses.now bare.now.occurs.now }
    requires left { AreKept [] bare.now.clauses.now marks.old (length marks.old.trail) }
    ensures { result ≡ false → AreNever (length marks.old.roots) bare.now.clauses.now }
{
    let heads = bare.occurs.signed(true).heads;
    for index in 0..heads.len() {
        let atom = heads[index].key;
        if atom as usize >= marks.atoms() {
            continue;
        }
        if !propagation::settle(bare, marks, atom) {
            return false;
        }
    }
    true
}

// Lists what is known, by rising atoms.
fn list(marks: &Assignment<'_>, forced: &mut Vec<Literal>) -> Result<(), AllocError>
    requires none { forced.old.items ≡ [] }
    ensures rises { IfOk result (λ _. IsStrictlyIncreasing (atoms_of forced.new.items)) }
    ensures same { IfOk result (λ _. (p : ℕ) → known (marked (length marks.now.roots)
        forced.new.items) p ≡ known (marks_of marks.now) p) }
{
    for atom in 0..marks.atoms() as u32 {
        put(atom, marks.read(atom), forced)?;
    }
    Ok(())
}

// Puts the literal of an atom that is above all before last, if something is known of the atom.
fn put(atom: u32, value: Option<bool>, forced: &mut Vec<Literal>) -> Result<(), AllocError>
    requires { ListsBelow atom forced.old.items }
    ensures below { IfOk result (λ _. ListsBelow (atom + 1) forced.new.items) }
    ensures here { IfOk result (λ _. (n : ℕ) → atom < n → known (marked n forced.new.items) atom ≡
        value) }
    ensures others { IfOk result (λ _. (n p : ℕ) → (p ≡ atom → ⊥) → known
        (marked n forced.new.items) p ≡ known (marked n forced.old.items) p) }
{
    let Some(positive) = value else {
        return Ok(());
    };
    forced.push(Literal { atom, positive })?;
    Ok(())
}

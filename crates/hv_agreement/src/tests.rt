//! What formulas keep of their clauses, and chains of clauses that are longer than a word.

ghost use Rattle.std.specs.Prelude.{◌≡◌, ◌<◌, ◌≤◌, ◌+◌, ◌∷◌, [], false, None, IfOk, IfSome, OnOk};
ghost use Rattle.std.specs.Prelude.{length};
ghost use Rattle.hv_task.specs.Strips.{atoms};
ghost use Rattle.hv_sets.specs.Cubes.{SpeakBelow};
ghost use Rattle.hv_sets.specs.Query.{HasAnchor, IsReady};
ghost use Rattle.hv_sets.specs.Room.{HasRoom};
ghost use Rattle.hv_sets.specs.declared.operand.Which.TheVariants as W;
ghost use Rattle.hv_propagation.specs.Clauses.{AreClauses};
ghost use Rattle.hv_clauses.specs.Store.{sizes_of, AreOver, formula_at};

use crate::operands::one_operand;
use hv_clauses::Formulas;
use hv_formula::{ClauseKind, Formula};
use hv_horn::{DualHorn, DualHornFault, DualHornKind, Horn, HornFault, HornKind};
use hv_sets::{Clause, Clauses, Family, Finding, Literal, Query, Scratch, Which};
use hv_task::{Name, State, Task};
use hv_twocnf::{LeanTwoKind, TwoCnf, TwoCnfFault, TwoKind};
use std::alloc::{AllocError, Global};
use std::test::Fail;

fn add_atom(alloc: Global, task: &mut Task) -> Result<(), AllocError>
    requires { atoms task.old < 200 }
    ensures { OnOk result (atoms task.new ≡ atoms task.old + 1) }
{
    let name = Name::new(alloc, b"p")?;
    task.add_atom(name)?;
    Ok(())
}

// A task of so many atoms, without actions.
fn task_of(alloc: Global, count: u32) -> Result<Task, AllocError>
    requires { count ≤ 200 }
    ensures atoms { IfOk result (λ task. atoms task ≡ count) }
{
    let mut task = Task::new(alloc);
    for _number in 0..count {
        add_atom(alloc, &mut task)?;
    }
    Ok(task)
}

// The literals of four atoms by number: twice the atom, and one more where it is negative.
fn literal_at(number: u32) -> Literal
    ensures { result.atom < 4 }
{
    Literal {
        atom: number / 2 % 4,
        positive: number % 2 == 0,
    }
}

fn clause_of(alloc: Global, numbers: &[u32]) -> Result<Clause, AllocError>
    ensures { IfOk result (SpeakBelow 4) }
{
    let mut clause = Clause::new(alloc);
    for number in numbers {
        clause.push(literal_at(*number))?;
    }
    Ok(clause)
}

fn put_clause(alloc: Global, clauses: &mut Clauses, numbers: &[u32]) -> Result<(), AllocError>
    requires { AreClauses 4 clauses.old }
    ensures { OnOk result (AreClauses 4 clauses.new) }
{
    let clause = clause_of(alloc, numbers)?;
    clauses.push(clause)
}

fn clauses_of(alloc: Global, rows: &[&[u32]]) -> Result<Clauses, AllocError>
    ensures { IfOk result (AreClauses 4) }
{
    let mut clauses = Clauses::new(alloc);
    for row in rows {
        put_clause(alloc, &mut clauses, row)?;
    }
    Ok(clauses)
}

// The formula of these clauses over four atoms.
fn formula_of<K: ClauseKind>(
    alloc: Global,
    task: &Task,
    rows: &[&[u32]],
) -> Result<Formula<K>, K::Fault>
    requires { atoms task.now ≡ 4 }
    ensures { IfOk result (λ set. set.atoms ≡ 4) }
{
    let clauses = clauses_of(alloc, rows)?;
    Formula::<K>::new(alloc, task, &clauses)
}

// The same over the states of a task of its own.
fn set_of<K: ClauseKind>(alloc: Global, rows: &[&[u32]]) -> Result<Formula<K>, K::Fault>
    ensures { IfOk result (λ set. set.atoms ≡ 4) }
{
    let task = task_of(alloc, 4)?;
    formula_of::<K>(alloc, &task, rows)
}

const HORN_ROWS: [&[u32]; 5] = [&[0, 3, 3], &[1, 1], &[], &[0, 1], &[3, 5, 0]];

// The numbers of the clauses that deny each atom. One that denies it twice is listed once, and one
// in which it occurs positively alone isn't.
const DENIED: [&[usize]; 4] = [&[1, 3], &[0, 4], &[4], &[]];

fn denies(set: &Horn, atom: u32, wanted: &[usize]) -> bool {
    set.occurrences(atom) == wanted
}

fn denies_all(set: &Horn) -> bool {
    let mut right = true;
    for atom in 0..4 {
        right &= denies(set, atom, DENIED[atom as usize]);
    }
    right
}

fn denials_are_listed(alloc: Global) -> Result<bool, HornFault> {
    let set = set_of::<HornKind>(alloc, &HORN_ROWS)?;
    Ok(denies_all(&set))
}

const DUAL_ROWS: [&[u32]; 5] = [&[0, 2, 3], &[1, 1], &[], &[0, 1, 4], &[2, 5, 0]];

// The same for clauses of several positive literals.
const DENIED_OF_DUAL: [&[usize]; 4] = [&[1, 3], &[0], &[4], &[]];

fn dual_denies(set: &DualHorn, atom: u32, wanted: &[usize]) -> bool {
    set.occurrences(atom) == wanted
}

fn dual_denies_all(set: &DualHorn) -> bool {
    let mut right = true;
    for atom in 0..4 {
        right &= dual_denies(set, atom, DENIED_OF_DUAL[atom as usize]);
    }
    right
}

fn denials_of_dual_are_listed(alloc: Global) -> Result<bool, DualHornFault> {
    let set = set_of::<DualHornKind>(alloc, &DUAL_ROWS)?;
    Ok(dual_denies_all(&set))
}

#[test]
fn the_clauses_that_deny_an_atom_are_listed(rt: HostRuntime) -> Result<(), Fail> {
    assert!(rt; denials_are_listed(rt.alloc())?);
    assert!(rt; denials_of_dual_are_listed(rt.alloc())?);
    Ok(())
}

const TWO_ROWS: [&[u32]; 6] = [&[0, 2], &[1], &[4, 4], &[0, 1], &[3, 4], &[]];

// The literals that each literal implies.
const IMPLIED: [&[u32]; 8] = [&[0, 1], &[1, 2], &[4], &[0], &[], &[3, 4], &[], &[]];

fn implies(set: &TwoCnf, number: u32, wanted: &[u32]) -> bool
    requires { set.now.atoms ≡ 4 }
{
    set.implied(literal_at(number)) == wanted
}

fn implies_all(set: &TwoCnf) -> bool
    requires { set.now.atoms ≡ 4 }
{
    let mut right = true;
    for number in 0..8 {
        right &= implies(set, number, IMPLIED[number as usize]);
    }
    right
}

fn implications_are_listed(alloc: Global) -> Result<bool, TwoCnfFault> {
    let set = set_of::<TwoKind>(alloc, &TWO_ROWS)?;
    Ok(implies_all(&set))
}

#[test]
fn what_a_literal_implies_is_listed(rt: HostRuntime) -> Result<(), Fail> {
    assert!(rt; implications_are_listed(rt.alloc())?);
    Ok(())
}

const ATOMS: u32 = 130;

fn literal(atom: u32, positive: bool) -> Literal
    ensures { result.atom ≡ atom }
{
    Literal { atom, positive }
}

fn put_unit(clauses: &mut Clauses, atom: u32) -> Result<(), AllocError>
    requires atom { atom < 130 }
    requires clauses { AreClauses 130 clauses.old }
    ensures { OnOk result (AreClauses 130 clauses.new) }
{
    clauses.push_literals(&[literal(atom, true)])
}

// That the next atom follows from this one, where it isn't the missing link.
fn put_link(clauses: &mut Clauses, atom: u32, missing: u32) -> Result<(), AllocError>
    requires atom { atom < 129 }
    requires clauses { AreClauses 130 clauses.old }
    ensures { OnOk result (AreClauses 130 clauses.new) }
{
    if atom == missing {
        return Ok(());
    }
    clauses.push_literals(&[literal(atom + 1, true), literal(atom, false)])
}

// The links, without that from the missing atom: the last one comes first.
fn put_links(clauses: &mut Clauses, missing: u32) -> Result<(), AllocError>
    requires { AreClauses 130 clauses.old }
    ensures { OnOk result (AreClauses 130 clauses.new) }
{
    for turn in 0..129 {
        put_link(clauses, 128 - turn, missing)?;
    }
    Ok(())
}

// A chain from atom 0 to the last one, without the link from this atom: that atom 0 is in comes
// last.
fn put_chain(clauses: &mut Clauses, missing: u32) -> Result<(), AllocError>
    requires { AreClauses 130 clauses.old }
    ensures { OnOk result (AreClauses 130 clauses.new) }
{
    put_links(clauses, missing)?;
    put_unit(clauses, 0)
}

fn add_formula<K: ClauseKind>(
    alloc: Global,
    task: &Task,
    sets: &mut Formulas<K>,
    clauses: &Clauses,
) -> Result<(), K::Fault>
    requires task { atoms task.now ≡ 130 }
    requires clauses { AreClauses 130 clauses.now }
    requires over { AreOver sets.old 130 }
    ensures len { OnOk result (length sets.new ≡ length sets.old + 1) }
    ensures over { OnOk result (AreOver sets.new 130) }
{
    let set = Formula::<K>::new(alloc, task, clauses)?;
    sets.add(set)?;
    Ok(())
}

fn add_chain<K: ClauseKind>(
    alloc: Global,
    task: &Task,
    sets: &mut Formulas<K>,
    missing: u32,
) -> Result<(), K::Fault>
    requires task { atoms task.now ≡ 130 }
    requires over { AreOver sets.old 130 }
    ensures len { OnOk result (length sets.new ≡ length sets.old + 1) }
    ensures over { OnOk result (AreOver sets.new 130) }
{
    let mut clauses = Clauses::new(alloc);
    put_chain(&mut clauses, missing)?;
    add_formula(alloc, task, sets, &clauses)
}

// That the last atom is in.
fn add_end<K: ClauseKind>(
    alloc: Global,
    task: &Task,
    sets: &mut Formulas<K>,
) -> Result<(), K::Fault>
    requires task { atoms task.now ≡ 130 }
    requires over { AreOver sets.old 130 }
    ensures len { OnOk result (length sets.new ≡ length sets.old + 1) }
    ensures over { OnOk result (AreOver sets.new 130) }
{
    let mut clauses = Clauses::new(alloc);
    put_unit(&mut clauses, 129)?;
    add_formula(alloc, task, sets, &clauses)
}

fn add_both<K: ClauseKind>(
    alloc: Global,
    task: &Task,
    sets: &mut Formulas<K>,
    missing: u32,
) -> Result<(), K::Fault>
    requires task { atoms task.now ≡ 130 }
    requires none { sets.old ≡ [] }
    ensures len { OnOk result (length sets.new ≡ 2) }
    ensures over { OnOk result (AreOver sets.new 130) }
{
    add_chain(alloc, task, sets, missing)?;
    add_end(alloc, task, sets)
}

// Whether some state is in the first set and not in the second.
fn query_of(alloc: Global) -> Result<Query, AllocError>
    ensures ready { IfOk result (IsReady 2) }
    ensures action { IfOk result (λ query. query.action ≡ None) }
    ensures one { IfOk result (λ query. query.positive
        ≡ record { which = W.Set 0; id = 0; after = false } ∷ []) }
    ensures alone { IfOk result (λ query. query.negative
        ≡ record { which = W.Set 1; id = 1; after = false } ∷ []) }
{
    Ok(Query {
        positive: one_operand(alloc, Which::Set(0), 0, false)?,
        negative: one_operand(alloc, Which::Set(1), 1, false)?,
        action: None,
    })
}

// How many clauses a set has.
fn room_of<K: ClauseKind>(sets: &Formulas<K>, number: usize) -> usize
    requires { number < length sets.now }
    ensures { result ≡ sizes_of (formula_at sets.now) number }
{
    sets.get(number).clauses().len()
}

// Whether the state has the atoms up to the missing link, and no others.
fn has_front(state: &State, missing: u32) -> bool {
    let mut right = state.atoms() == ATOMS;
    for atom in 0..state.atoms() {
        right &= state.has(atom) == (atom <= missing);
    }
    right
}

// Whether it is the wanted answer, and with it the state that is found.
fn fits(found: Finding, state: &State, missing: u32) -> bool {
    match found {
        Finding::Empty => missing >= ATOMS,
        Finding::Clash => missing < ATOMS && has_front(state, missing),
        Finding::Over => false,
    }
}

// Asks through the bound.
fn ask<F: Family>(
    sets: &F,
    alloc: Global,
    task: &Task,
    query: &Query,
    missing: u32,
) -> Result<bool, AllocError>
    requires ready { IsReady (F.count sets.now) query.now }
    requires anchor { F.wants_anchor sets.now → HasAnchor query.now }
    requires task { F.is_over sets.now (atoms task.now) }
    requires action { IfSome query.now.action (λ action. action < length task.now.actions) }
{
    let mut scratch = Scratch::new(alloc)?;
    let found = sets.find(alloc, task, query, 1, &mut scratch)?;
    Ok(fits(found, scratch.state(), missing))
}

// Makes the room that the query wants.
fn make_room<K: ClauseKind>(sets: &Formulas<K>, scratch: &mut Scratch) -> Result<(), AllocError>
    requires { length sets.now ≡ 2 }
    ensures { OnOk result (HasRoom 130 2
        (sizes_of (formula_at sets.now) 0 + sizes_of (formula_at sets.now) 1) scratch.new) }
{
    let chain = room_of(sets, 0);
    let end = room_of(sets, 1);
    if chain > 1000 || end > 1000 {
        return Err(AllocError);
    }
    scratch.reserve(ATOMS, 2, chain + end)
}

// Asks with the room that it wants.
fn ask_in<K: ClauseKind>(
    sets: &Formulas<K>,
    alloc: Global,
    task: &Task,
    query: &Query,
    missing: u32,
) -> Result<bool, AllocError>
    requires atoms { atoms task.now ≡ 130 }
    requires len { length sets.now ≡ 2 }
    requires over { AreOver sets.now 130 }
    requires ready { IsReady 2 query.now }
    requires action { query.now.action ≡ None }
    requires one { query.now.positive ≡ record { which = W.Set 0; id = 0; after = false } ∷ [] }
    requires alone { query.now.negative ≡ record { which = W.Set 1; id = 1; after = false } ∷ [] }
{
    let mut scratch = Scratch::new(alloc)?;
    make_room(sets, &mut scratch)?;
    let found = sets.find_in(task, query, 1, &mut scratch);
    Ok(fits(found, scratch.state(), missing))
}

// Asks in both ways.
fn both_are_right<K: ClauseKind>(
    sets: &Formulas<K>,
    alloc: Global,
    task: &Task,
    query: &Query,
    missing: u32,
) -> Result<bool, AllocError>
    requires atoms { atoms task.now ≡ 130 }
    requires len { length sets.now ≡ 2 }
    requires over { AreOver sets.now 130 }
    requires ready { IsReady 2 query.now }
    requires action { query.now.action ≡ None }
    requires one { query.now.positive ≡ record { which = W.Set 0; id = 0; after = false } ∷ [] }
    requires alone { query.now.negative ≡ record { which = W.Set 1; id = 1; after = false } ∷ [] }
{
    let alone = ask(sets, alloc, task, query, missing)?;
    let with_room = ask_in(sets, alloc, task, query, missing)?;
    Ok(alone & with_room)
}

fn query_is_right<K: ClauseKind>(
    sets: &Formulas<K>,
    alloc: Global,
    task: &Task,
    missing: u32,
) -> Result<bool, AllocError>
    requires atoms { atoms task.now ≡ 130 }
    requires len { length sets.now ≡ 2 }
    requires over { AreOver sets.now 130 }
{
    let query = query_of(alloc)?;
    both_are_right(sets, alloc, task, &query, missing)
}

fn store_is_right<K: ClauseKind>(alloc: Global, task: &Task, missing: u32) -> Result<bool, K::Fault>
    requires { atoms task.now ≡ 130 }
{
    let mut sets = Formulas::<K>::new(alloc);
    add_both(alloc, task, &mut sets, missing)?;
    Ok(query_is_right(&sets, alloc, task, missing)?)
}

fn is_answered<K: ClauseKind>(alloc: Global, missing: u32) -> Result<bool, K::Fault> {
    let task = task_of(alloc, ATOMS)?;
    store_is_right::<K>(alloc, &task, missing)
}

// The end of a chain follows from its start, but where a link is missing.
#[test]
fn chains_of_atoms_are_followed(rt: HostRuntime) -> Result<(), Fail> {
    for missing in [ATOMS, 63] {
        assert!(rt; is_answered::<HornKind>(rt.alloc(), missing)?);
        assert!(rt; is_answered::<DualHornKind>(rt.alloc(), missing)?);
        assert!(rt; is_answered::<TwoKind>(rt.alloc(), missing)?);
        assert!(rt; is_answered::<LeanTwoKind>(rt.alloc(), missing)?);
    }
    Ok(())
}

//! Verdicts of basic statements that are asked by themselves. The checker decides a statement
//! beside those before it, by `verdict_of`: `decide` is there for callers.

ghost use Rattle.std.specs.Prelude.{◌≡◌, ℕ, OnOk};
ghost use Rattle.hv_task.specs.Strips.{atoms};
ghost use Rattle.hv_lines.specs.Queries.{NamesNodes};
ghost use Rattle.hv_basic.specs.Stores.{IsStoreOf};

use crate::tables::is_spoken;
use crate::tasks::robot;
use hv_basic::{Store, decide, shape};
use hv_bdd::Diagrams;
use hv_lines::{Clash, Constant, Expr, Line, Statement, Table, Verdict, Word};
use hv_sets::Scratch;
use hv_task::Task;
use std::alloc::{AllocError, Global};

// Puts the constant last, and what it says into the store.
fn put_constant(
    task: &Task,
    table: &mut Table,
    store: &mut Store,
    constant: Constant,
) -> Result<(), AllocError>
    requires store { IsStoreOf task.now table.old.lines store.old }
    requires nodes { (count : ℕ) → NamesNodes count table.old.lines }
    ensures store { OnOk result (IsStoreOf task.now table.new.lines store.new) }
    ensures nodes { OnOk result ((count : ℕ) → NamesNodes count table.new.lines) }
{
    let id = table.expr_count();
    let expr = Expr::Constant(constant);
    store.add(task, &expr)?;
    table.push(Line::Expr { id, expr })?;
    Ok(())
}

// What is told of an inclusion: that it is so, that it isn't by a state with this atom, or that it
// costs too much.
#[derive(Clone, Copy)]
enum Told {
    True,
    FalseAt(u32),
    Over,
}

// Whether a state with this atom, and no action, shows it.
fn is_shown(clash: &Clash, atom: u32) -> bool {
    match &clash.state {
        Some(state) => clash.action.is_none() && atom < state.atoms() && state.has(atom),
        None => false,
    }
}

// Whether the verdict tells this.
fn is_told(verdict: &Verdict, told: Told) -> bool {
    match (verdict, told) {
        (Verdict::True, Told::True) | (Verdict::Over, Told::Over) => true,
        (Verdict::False(clash), Told::FalseAt(atom)) => is_shown(clash, atom),
        _ => false,
    }
}

// What is asked of two sets, with which budget, and what is told.
#[derive(Clone, Copy)]
struct Row {
    claim: Statement,
    budget: u64,
    told: Told,
}

// Whether the verdict of the row's claim is what it tells.
fn is_decided(
    alloc: Global,
    task: &Task,
    diagrams: &Diagrams,
    table: &Table,
    store: &Store,
    row: Row,
) -> Result<bool, AllocError>
    requires over { diagrams.now.atoms ≡ atoms task.now }
    requires store { IsStoreOf task.now table.now.lines store.now }
    requires nodes { (count : ℕ) → NamesNodes count table.now.lines }
{
    if !is_spoken(table, row.claim) || row.budget > 16_777_216 {
        return Ok(false);
    }
    let Ok(basic) = shape(alloc, table, &row.claim, Word::B1) else {
        return Ok(false);
    };
    let mut scratch = Scratch::new(alloc)?;
    let verdict = decide(
        alloc,
        task,
        table,
        diagrams,
        store,
        &basic,
        row.budget,
        &mut scratch,
    )?;
    Ok(is_told(&verdict, row.told))
}

// Set 0 is the initial state, in which atom 0 alone holds, and set 1 the goal, atom 2. Three
// clauses say that a state is the initial one, and one that it is in the goal.
static ROWS: [(Statement, u64, Told); 5] = [
    (Statement::Sub(0, 0), 3, Told::True),
    (Statement::Sub(0, 0), 2, Told::Over),
    (Statement::Sub(0, 1), 1, Told::FalseAt(0)),
    (Statement::Sub(0, 1), 0, Told::Over),
    (Statement::Sub(1, 0), 3, Told::FalseAt(2)),
];

// Whether each row is decided as it says.
fn are_decided(alloc: Global, task: &Task, table: &Table, store: &Store) -> Result<bool, AllocError>
    requires store { IsStoreOf task.now table.now.lines store.now }
    requires nodes { (count : ℕ) → NamesNodes count table.now.lines }
{
    let diagrams = Diagrams::none(alloc, task.atoms());
    let mut right = true;
    for (claim, budget, told) in &ROWS {
        let row = Row {
            claim: *claim,
            budget: *budget,
            told: *told,
        };
        right &= is_decided(alloc, task, &diagrams, table, store, row)?;
    }
    Ok(right)
}

// The same over two sets: the initial state, and the goal.
fn two_sets_are_decided(alloc: Global, task: &Task) -> Result<bool, AllocError> {
    let mut table = Table::new(alloc);
    let mut store = Store::new(alloc);
    put_constant(task, &mut table, &mut store, Constant::Start)?;
    put_constant(task, &mut table, &mut store, Constant::Goal)?;
    are_decided(alloc, task, &table, &store)
}

#[test]
fn decides_statements_by_themselves(rt: HostRuntime) {
    let Ok(task) = robot(rt.alloc()) else {
        panic!(&rt; "no task");
    };
    assert!(rt; two_sets_are_decided(rt.alloc(), &task) == Ok(true));
}

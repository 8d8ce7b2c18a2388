//! Of each rule a row that fits, and rows with one letter wrong.

use crate::tables::{add_all_actions, add_claim, add_set, is_spoken, premises_of};
use hv_lines::{ActionList, Acts, Constant, Expr, Line, Statement, Table, Word};
use hv_rules::{is_rule, rule_fits};
use std::alloc::{AllocError, Global};
use std::process::Abort;

type RuleCase = (Word, Statement, &'static [usize]);

/// A row of each rule, after the lines of `example`.
static FITTING: [RuleCase; 23] = [
    (Word::Ed, Statement::Dead(0), &[]),
    (Word::Ud, Statement::Dead(6), &[0, 1]),
    (Word::Sd, Statement::Dead(5), &[2, 1]),
    (Word::Pg, Statement::Dead(3), &[3, 1, 4]),
    (Word::Pi, Statement::Dead(9), &[3, 1, 6]),
    (Word::Rg, Statement::Dead(9), &[8, 1, 9]),
    (Word::Ri, Statement::Dead(3), &[8, 1, 7]),
    (Word::Ci, Statement::Unsolvable, &[10]),
    (Word::Cg, Statement::Unsolvable, &[11]),
    (Word::Ur, Statement::Sub(3, 6), &[]),
    (Word::Ul, Statement::Sub(4, 6), &[]),
    (Word::Ir, Statement::Sub(24, 3), &[]),
    (Word::Il, Statement::Sub(24, 4), &[]),
    (Word::Di, Statement::Sub(20, 23), &[]),
    (Word::Su, Statement::Sub(6, 5), &[12, 13]),
    (Word::Si, Statement::Sub(5, 24), &[14, 2]),
    (Word::St, Statement::Sub(3, 4), &[12, 2]),
    (Word::At, Statement::Sub(13, 5), &[15, 16]),
    (Word::Au, Statement::Sub(15, 5), &[18, 19]),
    (Word::Pt, Statement::Sub(16, 5), &[18, 20]),
    (Word::Pu, Statement::Sub(17, 5), &[18, 22]),
    (Word::Pr, Statement::Sub(19, 9), &[23]),
    (Word::Rp, Statement::Sub(13, 4), &[25]),
];

/// Rows with one letter wrong: another set, another action set, another claim, or premises
/// exchanged.
static UNFITTING: [RuleCase; 53] = [
    (Word::Ed, Statement::Dead(2), &[]),
    (Word::Ed, Statement::Dead(4), &[]),
    (Word::Ud, Statement::Dead(6), &[1, 0]),
    (Word::Ud, Statement::Dead(7), &[0, 1]),
    (Word::Sd, Statement::Dead(5), &[1, 2]),
    (Word::Sd, Statement::Dead(5), &[2, 0]),
    (Word::Pg, Statement::Dead(3), &[5, 1, 4]),
    (Word::Pg, Statement::Dead(3), &[3, 4, 1]),
    (Word::Pg, Statement::Dead(3), &[27, 1, 4]),
    (Word::Pg, Statement::Dead(3), &[3, 1, 9]),
    (Word::Pi, Statement::Dead(9), &[5, 1, 6]),
    (Word::Pi, Statement::Dead(9), &[3, 1, 7]),
    (Word::Pi, Statement::Dead(3), &[3, 1, 6]),
    (Word::Rg, Statement::Dead(9), &[26, 1, 9]),
    (Word::Rg, Statement::Dead(9), &[8, 1, 4]),
    (Word::Ri, Statement::Dead(3), &[26, 1, 7]),
    (Word::Ri, Statement::Dead(3), &[8, 1, 6]),
    (Word::Ri, Statement::Dead(3), &[3, 1, 7]),
    (Word::Ci, Statement::Unsolvable, &[11]),
    (Word::Ci, Statement::Unsolvable, &[0]),
    (Word::Cg, Statement::Unsolvable, &[10]),
    (Word::Cg, Statement::Unsolvable, &[4]),
    (Word::Ur, Statement::Sub(4, 6), &[]),
    (Word::Ur, Statement::Sub(3, 7), &[]),
    (Word::Ul, Statement::Sub(3, 6), &[]),
    (Word::Ul, Statement::Sub(4, 7), &[]),
    (Word::Ir, Statement::Sub(24, 4), &[]),
    (Word::Ir, Statement::Sub(3, 24), &[]),
    (Word::Il, Statement::Sub(24, 3), &[]),
    (Word::Il, Statement::Sub(4, 24), &[]),
    (Word::Di, Statement::Sub(20, 25), &[]),
    (Word::Di, Statement::Sub(26, 23), &[]),
    (Word::Su, Statement::Sub(6, 5), &[13, 12]),
    (Word::Su, Statement::Sub(7, 5), &[12, 13]),
    (Word::Si, Statement::Sub(5, 24), &[2, 14]),
    (Word::Si, Statement::Sub(5, 6), &[14, 2]),
    (Word::St, Statement::Sub(3, 4), &[2, 12]),
    (Word::St, Statement::Sub(3, 4), &[12, 13]),
    (Word::At, Statement::Sub(13, 5), &[15, 17]),
    (Word::At, Statement::Sub(14, 5), &[15, 16]),
    (Word::Au, Statement::Sub(15, 5), &[19, 18]),
    (Word::Au, Statement::Sub(11, 5), &[18, 19]),
    (Word::Pt, Statement::Sub(16, 5), &[18, 21]),
    (Word::Pt, Statement::Sub(16, 5), &[19, 20]),
    (Word::Pu, Statement::Sub(17, 5), &[22, 18]),
    (Word::Pu, Statement::Sub(17, 5), &[19, 22]),
    (Word::Pr, Statement::Sub(19, 18), &[23]),
    (Word::Pr, Statement::Sub(19, 9), &[24]),
    (Word::Pr, Statement::Sub(19, 9), &[18]),
    (Word::Rp, Statement::Sub(13, 3), &[25]),
    (Word::Rp, Statement::Sub(14, 4), &[25]),
    (Word::Rp, Statement::Sub(13, 4), &[23]),
    (Word::Ed, Statement::Sub(0, 0), &[]),
];

/// What the `k` lines of `example` claim, by their identifiers.
static CLAIMS: [Statement; 28] = [
    Statement::Dead(3),
    Statement::Dead(4),
    Statement::Sub(5, 4),
    Statement::Sub(11, 6),
    Statement::Dead(8),
    Statement::Sub(27, 6),
    Statement::Sub(1, 3),
    Statement::Sub(1, 9),
    Statement::Sub(12, 6),
    Statement::Dead(10),
    Statement::Dead(1),
    Statement::Dead(2),
    Statement::Sub(3, 5),
    Statement::Sub(4, 5),
    Statement::Sub(5, 3),
    Statement::Sub(15, 5),
    Statement::ActSub(1, 3),
    Statement::ActSub(3, 1),
    Statement::Sub(13, 5),
    Statement::Sub(14, 5),
    Statement::Sub(4, 3),
    Statement::Sub(3, 4),
    Statement::Sub(16, 5),
    Statement::Sub(13, 4),
    Statement::Sub(14, 4),
    Statement::Sub(19, 9),
    Statement::Sub(28, 6),
    Statement::Sub(11, 7),
];

fn list_of(alloc: Global, numbers: &[u32]) -> Result<ActionList, AllocError> {
    let mut list = ActionList::new(alloc);
    for number in numbers {
        list.push(*number)?;
    }
    Ok(list)
}

/// Puts the actions of these numbers last.
fn add_list(alloc: Global, table: &mut Table, numbers: &[u32]) -> Result<(), AllocError> {
    let list = list_of(alloc, numbers)?;
    let id = table.acts_count();
    table.push(Line::Acts {
        id,
        acts: Acts::List(list),
    })
}

/// Puts the union of the first two lists of actions last, which are there.
fn add_union(rt: &impl Abort, table: &mut Table) -> Result<(), AllocError> {
    let id = table.acts_count();
    assert!(rt; 3 <= id, "a union without its lists");
    table.push(Line::Acts {
        id,
        acts: Acts::Both(1, 2),
    })
}

/// Puts all actions last, two lists of one action, the union of these, and the list of both actions.
fn add_actions(rt: &impl Abort, alloc: Global, table: &mut Table) -> Result<(), AllocError> {
    add_all_actions(table)?;
    add_list(alloc, table, &[0])?;
    add_list(alloc, table, &[1])?;
    add_union(rt, table)?;
    add_list(alloc, table, &[0, 1])
}

/// A set of `example`, by its operands.
enum SetRow {
    Constant(Constant),
    Node(u32),
    Not(usize),
    And(usize, usize),
    Or(usize, usize),
    After(usize, usize),
    Before(usize, usize),
}

/// The sets of `example`, in order.
static SETS: [SetRow; 29] = [
    SetRow::Constant(Constant::Empty),
    SetRow::Constant(Constant::Start),
    SetRow::Constant(Constant::Goal),
    SetRow::Node(1),
    SetRow::Node(0),
    SetRow::Node(1),
    SetRow::Or(3, 4),
    SetRow::Or(4, 3),
    SetRow::And(3, 2),
    SetRow::Not(3),
    SetRow::And(9, 2),
    SetRow::After(3, 0),
    SetRow::Before(3, 0),
    SetRow::After(3, 1),
    SetRow::After(3, 2),
    SetRow::After(3, 3),
    SetRow::After(4, 1),
    SetRow::After(6, 1),
    SetRow::Not(4),
    SetRow::Before(18, 1),
    SetRow::And(6, 5),
    SetRow::And(3, 5),
    SetRow::And(4, 5),
    SetRow::Or(21, 22),
    SetRow::And(3, 4),
    SetRow::Or(22, 21),
    SetRow::And(5, 6),
    SetRow::After(3, 4),
    SetRow::Before(3, 4),
];

/// The set of a row.
fn expr_of(row: &SetRow) -> Expr {
    match row {
        SetRow::Constant(constant) => Expr::Constant(*constant),
        SetRow::Node(node) => Expr::Node(*node),
        SetRow::Not(set) => Expr::Not(*set),
        SetRow::And(left, right) => Expr::And(*left, *right),
        SetRow::Or(left, right) => Expr::Or(*left, *right),
        SetRow::After(set, acts) => Expr::After(*set, *acts),
        SetRow::Before(set, acts) => Expr::Before(*set, *acts),
    }
}

/// Puts the sets of these rows last.
fn add_sets(rt: &impl Abort, table: &mut Table, rows: &[SetRow]) -> Result<(), AllocError> {
    for row in rows {
        add_set(rt, table, expr_of(row))?;
    }
    Ok(())
}

/// Puts these claims last.
fn add_claims(
    rt: &impl Abort,
    table: &mut Table,
    statements: &[Statement],
) -> Result<(), AllocError> {
    for statement in statements {
        add_claim(rt, table, *statement, Word::B1, &[])?;
    }
    Ok(())
}

/// Puts the lines of `example` last.
fn add_example(rt: &impl Abort, alloc: Global, table: &mut Table) -> Result<(), AllocError> {
    add_actions(rt, alloc, table)?;
    add_sets(rt, table, &SETS)?;
    add_claims(rt, table, &CLAIMS)
}

/// A table of lines, whether good or not: a rule asks only what they say.
fn example(rt: &impl Abort, alloc: Global) -> Result<Table, AllocError> {
    let mut table = Table::new(alloc);
    add_example(rt, alloc, &mut table)?;
    Ok(table)
}

/// Whether the rule fits, after the lines of the table.
fn fits(rt: &impl Abort, table: &Table, row: RuleCase) -> bool {
    let (word, statement, ids) = row;
    let premises = premises_of(rt, ids);
    let knowns = table.known_count();
    assert!(rt; is_rule(word), "no rule");
    assert!(rt; is_spoken(table, statement), "a row without its sets");
    let behind = premises.as_slice().iter().all(|k| *k < knowns);
    assert!(rt; behind, "a row without its premises");
    rule_fits(table, &statement, word, &premises)
}

/// The rules of these rows fit, or none does.
fn all_fit(rt: &impl Abort, table: &Table, rows: &[RuleCase], fitting: bool) {
    for row in rows {
        assert!(rt; fits(rt, table, *row) == fitting, "{row:?}");
    }
}

/// The rows fit that have to, and no others.
fn tell_rows(rt: &impl Abort, alloc: Global) -> Result<(), AllocError> {
    let table = example(rt, alloc)?;
    all_fit(rt, &table, &FITTING, true);
    all_fit(rt, &table, &UNFITTING, false);
    Ok(())
}

#[test]
fn tells_rows_that_fit(rt: HostRuntime) {
    assert!(rt; tell_rows(&rt, rt.alloc()) == Ok(()));
}

//! Drafts of proofs: tables of good lines, with space for more.
//!
//! A draft keeps its own number of spare lines, beside the capacity of its table, since a vector
//! may have taken more memory than was asked for: so "one less" can be said of each line that is
//! put. A line is put under one condition, that it is good and short; whole blocks are made as
//! lists first and put under one condition too, so all memory is taken before the first line. A
//! draft always begins with the five lines of every draft, which is part of what a `Draft` is: so a
//! block, which refers to them, is good after any good draft.
//!
//! Basic lines of drafts are good by their leaves, their cost and their truth: what a statement
//! asks is read off the formulas and constants that its literals are of, each with its sign, and a
//! true statement has no counterexample. So no writer of proofs speaks of counterexamples. The
//! lines which show that a set is dead are one block, whether the step goes forwards from a formula
//! or backwards from the one that is negated: a writer shows of its formula that the states in
//! which the clauses have one truth lead only to each other, and that none of them is a goal state;
//! and its own lines before the block are good.

ghost use Rattle.std.specs.Prelude.{◌≡◌, ◌<◌, ◌≤◌, ◌+◌, ◌^◌, ◌∷◌, [], length, IfOk, OnOk, OnErr};
ghost use Rattle.hv_lines.specs.DeadLines.{dead_lines, rule_by, step_by, word_by};
ghost use Rattle.hv_lines.specs.Drafts.{IsGoodNext, IsGoodTable, conclusion, id_of, most_lines};
ghost use Rattle.hv_lines.specs.Drafts.{onto, prelude};
ghost use Rattle.hv_lines.specs.Pruning.{BeginsAsDraft};
ghost use Rattle.hv_lines.specs.declared.line.Line.TheVariants as L;

use crate::line::{Acts, Constant, Expr, Line, Statement, Word};
use crate::note::Note;
use crate::premises::Premises;
use crate::table::Table;
use hv_task::Task;
use std::alloc::{AllocError, Global};
use std::marker::Model;

/// A bound on the lines of a draft, the spare ones included. A table has room for fewer.
const MOST_LINES: usize = 576460752303423488;

/// A proof that is written line by line: each line is good after those before it, without a node
/// file and with the budget 1,000,000. It begins with all actions, the three sets that every task
/// has, and that the empty set is dead.
#[derive(Drop)]
pub struct Draft {
    table: Table,
    // How many lines `push` takes without memory: those for which room was reserved.
    spare: usize,
}

impl Model for Draft {
    ghost use Rattle.std.specs.Prelude.{◌≤◌, ◌+◌, length};
    ghost use Rattle.hv_lines.specs.Drafts.{DraftState, most_lines};
    ghost use Rattle.hv_lines.specs.Pruning.{BeginsAsDraft};

    ghost Value = { DraftState };

    ghost view = { λ d. record { lines = d.table.lines; spare = d.spare } };

    ghost invariant = { λ d. (d.spare ≤ d.table.room)
        × (length d.table.lines + d.spare ≤ most_lines)
        × BeginsAsDraft d.table.lines };
}

impl Draft {
    /// The draft that begins a proof for the task.
    pub fn new(alloc: Global, task: &Task) -> Result<Draft, AllocError>
        ensures lines { IfOk result (λ draft. draft.lines ≡ onto prelude []) }
        ensures good { IfOk result (λ draft. IsGoodTable task.now draft.lines) }
    {
        let _ = task;
        let table = begun_table(alloc)?;
        Ok(Draft { table, spare: 0 })
    }

    /// Takes the memory for so many further lines. Where the table has no room for that many in
    /// all, it answers out of memory.
    pub fn reserve(&mut self, lines: usize) -> Result<(), AllocError>
        ensures spare { OnOk result (lines ≤ self.new.spare) }
        ensures more { self.old.spare ≤ self.new.spare }
        ensures lines { self.new.lines ≡ self.old.lines }
        ensures few { length self.new.lines + self.new.spare ≤ most_lines }
        ensures err { OnErr result (self.new ≡ self.old) }
    {
        if lines <= self.spare {
            return Ok(());
        }
        if lines > MOST_LINES || self.table.len() > MOST_LINES - lines {
            return Err(AllocError);
        }
        self.table.reserve(lines)?;
        self.spare = lines;
        Ok(())
    }

    /// How many further lines `push` takes.
    pub fn spare(&self) -> usize
        ensures spare { result ≡ self.now.spare }
        ensures few { length self.now.lines + self.now.spare ≤ most_lines }
    {
        self.spare
    }

    /// Puts the line last, and gives its identifier. It takes no memory.
    pub fn push(&mut self, task: &Task, line: Line) -> usize
        requires draft { IsGoodTable task.now self.old.lines }
        requires line { IsGoodNext task.now self.old.lines line }
        requires spare { 0 < self.old.spare }
        ensures id { result ≡ id_of line }
        ensures lines { self.new.lines ≡ line ∷ self.old.lines }
        ensures spare { self.new.spare + 1 ≡ self.old.spare }
        ensures good { IsGoodTable task.now self.new.lines }
    {
        // For its contract alone: the task is one.
        let _atoms = task.atoms();
        let id = id_of(&line);
        match self.table.push(line) {
            Ok(()) => {}
            Err(_) => unreachable!(),
        }
        self.spare -= 1;
        id
    }

    /// Puts these lines last, in their order. It takes no memory.
    pub fn push_all(&mut self, task: &Task, lines: Vec<Line>)
        requires spare { length lines.items ≤ self.old.spare }
        requires good { IsGoodTable task.now (onto lines.items self.old.lines) }
        ensures lines { self.new.lines ≡ onto lines.items self.old.lines }
        ensures spare { self.new.spare + length lines.items ≡ self.old.spare }
    {
        for line in lines {
            let _ = self.push(task, line);
        }
    }

    /// The lines. They begin as those of every draft do.
    pub fn table(&self) -> &Table
        ensures lines { result.now.lines ≡ self.now.lines }
        ensures begins { BeginsAsDraft self.now.lines }
    {
        &self.table
    }
}

/// The three lines with which a proof ends: line `by` says that a set is dead which holds the
/// initial state. The first of the three has the identifier `id`.
pub fn conclusion(alloc: Global, id: usize, dead: usize, by: usize) -> Result<Vec<Line>, AllocError>
    requires { id + 2 < 2 ^ 64 }
    ensures { IfOk result (λ lines. lines.items ≡ conclusion id dead by) }
{
    Ok(vec![in alloc;
        claim_line(id, Statement::Sub(1, dead), Word::B1, Premises::none()),
        claim_line(id + 1, Statement::Dead(1), Word::Sd, Premises::two(id, by)),
        claim_line(
            id + 2,
            Statement::Unsolvable,
            Word::Ci,
            Premises::one(id + 1)
        ),
    ]?)
}

/// The seven lines which show that the newest set, `dead`, is dead, where the line of `union` says
/// so of another one. Where the step goes forwards, `dead` is the formula `set` itself; otherwise
/// it is the negation of that formula. The first statement has the identifier `id`.
pub fn dead_lines(
    alloc: Global,
    forwards: bool,
    set: usize,
    dead: usize,
    union: Note,
    id: usize,
) -> Result<Vec<Line>, AllocError>
    requires dead { dead + 3 < 2 ^ 64 }
    requires id { id + 3 < 2 ^ 64 }
    ensures { IfOk result (λ lines. lines.items ≡ dead_lines forwards set dead union id) }
{
    let step = Statement::Sub(dead + 1, dead + 2);
    let by = Premises::three(id, union.line, id + 2);
    Ok(vec![in alloc;
        set_line(dead + 1, step_by(forwards, set)),
        set_line(dead + 2, Expr::Or(set, union.set)),
        set_line(dead + 3, Expr::And(dead, 2)),
        claim_line(id, step, word_by(forwards), Premises::none()),
        claim_line(
            id + 1,
            Statement::Sub(dead + 3, 0),
            Word::B1,
            Premises::none()
        ),
        claim_line(
            id + 2,
            Statement::Dead(dead + 3),
            Word::Sd,
            Premises::two(id + 1, 0)
        ),
        claim_line(id + 3, Statement::Dead(dead), rule_by(forwards), by),
    ]?)
}

// The step from the set, or back from it, by all actions.
fn step_by(forwards: bool, set: usize) -> Expr
    ensures { result ≡ step_by forwards set }
{
    if forwards {
        Expr::After(set, 0)
    } else {
        Expr::Before(set, 0)
    }
}

// The word of a statement about such a step.
fn word_by(forwards: bool) -> Word
    ensures { result ≡ word_by forwards }
{
    if forwards { Word::B2 } else { Word::B3 }
}

// The rule that concludes from such a step.
fn rule_by(forwards: bool) -> Word
    ensures { result ≡ rule_by forwards }
{
    if forwards { Word::Pg } else { Word::Rg }
}

// The line of a set.
fn set_line(id: usize, expr: Expr) -> Line
    ensures { result ≡ L.Expr id expr }
{
    Line::Expr { id, expr }
}

// The line of a claim.
fn claim_line(id: usize, statement: Statement, word: Word, premises: Premises) -> Line
    ensures { result ≡ L.Known id statement word premises }
{
    Line::Known {
        id,
        statement,
        word,
        premises,
    }
}

/// The table with which every draft begins.
fn begun_table(alloc: Global) -> Result<Table, AllocError>
    ensures { IfOk result (λ table. table.lines ≡ onto prelude []) }
{
    let mut table = Table::new(alloc);
    for line in prelude(alloc)? {
        table.push(line)?;
    }
    Ok(table)
}

/// The lines with which every draft begins.
fn prelude(alloc: Global) -> Result<Vec<Line>, AllocError>
    ensures { IfOk result (λ lines. lines.items ≡ prelude) }
{
    Ok(vec![in alloc;
        Line::Acts {
            id: 0,
            acts: Acts::All,
        },
        set_line(0, Expr::Constant(Constant::Empty)),
        set_line(1, Expr::Constant(Constant::Start)),
        set_line(2, Expr::Constant(Constant::Goal)),
        claim_line(0, Statement::Dead(0), Word::Ed, Premises::none()),
    ]?)
}

/// The identifier of the line.
fn id_of(line: &Line) -> usize
    ensures { result ≡ id_of line.now }
{
    match line {
        Line::Acts { id, .. } | Line::Expr { id, .. } | Line::Known { id, .. } => *id,
    }
}

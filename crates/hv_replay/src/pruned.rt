//! The lines by which a pruned state is dead, beside those before it.
//!
//! They are put by one call, and the closing lines by another, each under conditions that speak of
//! the draft alone: what a pruner answers is just what the first one asks.

ghost use Rattle.std.specs.Prelude.{◌≡◌, ◌<◌, ◌≤◌, ◌+◌, ◌^◌, ◌∷◌, [], ℕ, Bool, List, Some, IfOk};
ghost use Rattle.std.specs.Prelude.{OnErr};
ghost use Rattle.std.specs.List.Sorted.{IsStrictlyIncreasing};
ghost use Rattle.hv_task.specs.State.{state_of};
ghost use Rattle.hv_task.specs.Strips.{atoms};
ghost use Rattle.hv_lines.specs.Drafts.{IsGoodTable, onto};
ghost use Rattle.hv_lines.specs.Numbering.{IsTable, expr_count, known_count};
ghost use Rattle.hv_lines.specs.Pruning.{Extends, IsDeadBy, states_in};
ghost use Rattle.hv_lines.specs.Rules.{Says};
ghost use Rattle.hv_lines.specs.declared.line.Statement.TheVariants as T;
ghost use Rattle.hv_replay.specs.Logs.{IsAtomSet};
ghost use Rattle.hv_replay.specs.PrunedLines.{pruned_lines, pruned_word, word_of_formula};
ghost use Rattle.hv_replay.specs.Working.PrunedLines.{IsPrunedUnion};
ghost use Rattle.hv_replay.specs.Replayed.{union_after};

use hv_lines::{Draft, Expr, Line, Note, Premises, Statement, Table, Word};
use hv_sets::StateList;
use hv_task::Task;
use std::alloc::{AllocError, Global};

/// Puts the five lines of a pruned state last, of which line `by` says that a literal is dead that
/// holds it; `union` is the union of the pruned states so far, and the answer is that with this
/// one. It takes its memory before the first line.
pub(crate) fn push_pruned(
    alloc: Global,
    draft: &mut Draft,
    task: &Task,
    held: &[u32],
    by: usize,
    union: Note,
) -> Result<Note, AllocError>
    requires draft { IsGoodTable task.now draft.old.lines }
    requires held { IsAtomSet (atoms task.now) held.now }
    requires dead { IsDeadBy task.now draft.old.lines (state_of (atoms task.now) held.now) by }
    requires union { (pruned : ℕ) × IsPrunedUnion draft.old.lines pruned union }
    ensures lines { IfOk result (λ _. (set : ℕ) → Says draft.old.lines by (T.Dead set)
        → draft.new.lines
        ≡ onto (pruned_lines (expr_count draft.old.lines) (known_count draft.old.lines) held.now
        (pruned_word draft.old.lines set) (record { set = set; line = by }) union)
        draft.old.lines) }
    ensures number { IfOk result (λ all. all ≡ union_after draft.old.lines) }
    ensures extends { Extends task.now draft.old.lines draft.new.lines }
    ensures union { IfOk result (λ all. (pruned : ℕ)
        → IsPrunedUnion draft.old.lines pruned union
        → IsPrunedUnion draft.new.lines (pruned + 1) all) }
    ensures inside { IfOk result (λ all.
        states_in task.now draft.new.lines all.set (state_of (atoms task.now) held.now)) }
    ensures keeps { IfOk result (λ all. (state : List Bool)
        → states_in task.now draft.old.lines union.set state
        → states_in task.now draft.new.lines all.set state) }
    ensures err { OnErr result (draft.new.lines ≡ draft.old.lines) }
{
    // For its contract alone: the task is one.
    let _atoms = task.atoms();
    draft.reserve(5)?;
    let next = next_in(draft.table());
    let holder = dead_by(draft.table(), by);
    let word = pruned_word(draft.table(), holder.set);
    let lines = pruned_lines(alloc, next, held, word, holder, union)?;
    draft.push_all(task, lines);
    Ok(Note {
        set: next.set + 1,
        line: next.line + 2,
    })
}

// The identifiers of the next set and of the next statement.
pub(crate) fn next_in(table: &Table) -> Note
    ensures set { result.set ≡ expr_count table.now.lines }
    ensures line { result.line ≡ known_count table.now.lines }
    ensures small_set { result.set < 2 ^ 63 }
    ensures small_line { result.line < 2 ^ 63 }
    ensures table { IsTable table.now.lines }
{
    Note {
        set: table.expr_count(),
        line: table.known_count(),
    }
}

// The set that this line says to be dead.
fn dead_by(table: &Table, line: usize) -> Note
    requires table { IsTable table.now.lines }
    requires dead { (set : ℕ) × Says table.now.lines line (T.Dead set) }
    ensures line { result.line ≡ line }
    ensures says { Says table.now.lines line (T.Dead result.set) }
{
    match *table.statement(line) {
        Statement::Dead(set) => Note { set, line },
        _ => unreachable!(),
    }
}

// The five lines of a pruned state; `next` has the identifiers of its set and of the first
// statement.
fn pruned_lines(
    alloc: Global,
    next: Note,
    held: &[u32],
    word: Word,
    holder: Note,
    union: Note,
) -> Result<Vec<Line>, AllocError>
    requires set { next.set + 1 < 2 ^ 64 }
    requires line { next.line + 2 < 2 ^ 64 }
    requires rises { IsStrictlyIncreasing held.now }
    ensures { IfOk result (λ lines. lines.items
        ≡ pruned_lines next.set next.line held.now word holder union) }
{
    let mut states = StateList::new(alloc);
    states.push_atoms(held)?;
    Ok(vec![in alloc;
        Line::Expr {
            id: next.set,
            expr: Expr::States(states),
        },
        Line::Known {
            id: next.line,
            statement: Statement::Sub(next.set, holder.set),
            word,
            premises: Premises::none(),
        },
        Line::Known {
            id: next.line + 1,
            statement: Statement::Dead(next.set),
            word: Word::Sd,
            premises: Premises::two(next.line, holder.line),
        },
        Line::Expr {
            id: next.set + 1,
            expr: Expr::Or(union.set, next.set),
        },
        Line::Known {
            id: next.line + 2,
            statement: Statement::Dead(next.set + 1),
            word: Word::Ud,
            premises: Premises::two(union.line, next.line + 1),
        },
    ]?)
}

// The word by which an explicit set is within the literal of this identifier.
fn pruned_word(table: &Table, set: usize) -> Word
    requires { set < expr_count table.now.lines }
    ensures { result ≡ pruned_word table.now.lines set }
{
    match table.expr(set) {
        Expr::Not(inner) => word_of_formula(table.expr(*inner)),
        expr => word_of_formula(expr),
    }
}

// The word by which an explicit set is within this formula or constant.
fn word_of_formula(expr: &Expr) -> Word
    ensures { result ≡ word_of_formula (Some expr.now) }
{
    match expr {
        Expr::Constant(_) | Expr::States(_) => Word::B1,
        Expr::Horn(_) | Expr::Dual(_) | Expr::Two(_) => Word::B4,
        Expr::Node(_) | Expr::Not(_) => Word::B4,
        Expr::And(..) | Expr::Or(..) | Expr::After(..) | Expr::Before(..) => Word::B4,
    }
}

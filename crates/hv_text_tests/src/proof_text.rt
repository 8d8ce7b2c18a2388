//! Tests of lines: each form read and written, and what is no line.

ghost use Rattle.std.specs.Prelude.{◌<◌, OnOk};
ghost use Rattle.hv_lines.specs.Numbering.{expr_count};

use hv_bytes::Text;
use hv_lines::{Acts, Constant, Draft, Expr, Line, Premises, Statement, Table, Word};
use hv_proof_text::{LineError, LineReader, read_line, write_line, write_proof};
use hv_sets::{Clauses, Literal};
use hv_task::Task;
use std::alloc::{AllocError, Global};

/// A line of each form, and one of each word.
static LINES: [&str; 48] = [
    "a 0 a",
    "a 1 b 0",
    "a 1 b 3 0 7 999999999",
    "a 2 u 0 1",
    "e 0 c e",
    "e 1 c i",
    "e 2 c g",
    "e 3 h 0",
    "e 3 h 3 0 -1 0 5 -999999999 5 0",
    "e 4 d 0",
    "e 4 d 2 1 2 -3 3 0 0",
    "e 4 t 1 -3 2 0",
    "e 5 x 0",
    "e 5 x 3 ; 0 999999999 ; ;",
    "e 6 b 999999999",
    "e 7 n 999999999999999999",
    "e 8 i 3 4",
    "e 9 u 3 4",
    "e 10 p 3 0",
    "e 11 r 3 0",
    "k 0 d 0 ed",
    "k 0 d 3 ud 1 2",
    "k 0 d 3 sd 1 2",
    "k 5 d 3 pg 1 0 2",
    "k 0 d 3 pi 1 0 2",
    "k 0 d 3 rg 1 0 2",
    "k 0 d 3 ri 1 0 2",
    "k 6 u ci 5",
    "k 6 u cg 5",
    "k 1 s 3 4 b1",
    "k 1 s 3 4 b2",
    "k 1 s 3 4 b3",
    "k 1 s 3 4 b4",
    "k 4 a 0 1 b5",
    "k 1 s 3 4 ur",
    "k 1 s 3 4 ul",
    "k 1 s 3 4 ir",
    "k 1 s 3 4 il",
    "k 1 s 3 4 di",
    "k 3 s 3 4 su 1 2",
    "k 3 s 3 4 si 1 2",
    "k 3 s 3 4 st 1 2",
    "k 3 s 3 4 at 1 2",
    "k 3 s 3 4 au 1 2",
    "k 3 s 3 4 pt 1 2",
    "k 3 s 3 4 pu 1 2",
    "k 2 s 3 4 pr 1",
    "k 2 s 3 4 rp 1",
];

/// What is no line: one byte, number or field more, less or other.
static NO_LINES: [&str; 53] = [
    " ",
    "a",
    "a 0",
    "a  0 a",
    " a 0 a",
    "a 0 a ",
    "a 0 a\r",
    "a 0\ta",
    "a 0 a 0",
    "A 0 A",
    "a 00 a",
    "a 01 a",
    "a +1 a",
    "a -1 a",
    "a 1000000000000000000 a",
    "a 1 b 2 3",
    "a 1 b 1 3 4",
    "a 1 b 2 4 3",
    "a 1 b 2 3 3",
    "a 1 b 1 1000000000",
    "e 0 c x",
    "e 0 h 1 -3",
    "e 0 h 1 -3 0 0",
    "e 0 h 2 -3 0",
    "e 0 h 1 -0 0",
    "e 0 h 1 1000000000 0",
    "e 0 h 1 3 ;",
    "e 0 x 1 3",
    "e 0 x 1 3 3 ;",
    "e 0 x 1 4 3 ;",
    "e 0 x 1 3 0",
    "e 0 x 1 3;",
    "e 0 x 1 1000000000 ;",
    "e 0 b 1000000000",
    "e 0 n",
    "e 0 i 1",
    "e 0 i 1 2 3",
    "e 0 d 1",
    "e 0 d 1 -3",
    "e 0 d 2 -3 0",
    "k 0 s 1 2",
    "k 0 s 1 2 b5",
    "k 0 s 1 2 b1 3",
    "k 0 s 1 2 st 3",
    "k 0 a 1 2 b1",
    "k 0 d 1 pg 2 3",
    "k 0 d 1 b1",
    "k 0 u ed",
    "k 0 u ci",
    "k 0 u ci 1 2",
    "k 0 d 1 xx",
    "k 0 ed d 1",
    " #",
];

/// Whether the line is written as this text.
fn is_written(alloc: Global, line: &Line, want: &str) -> Result<bool, AllocError> {
    let text = write_line(alloc, line)?;
    Ok(text.as_bytes() == want.as_bytes())
}

/// Whether what was read is a line that is written as this text.
fn is_line(
    alloc: Global,
    read: &Result<Option<Line>, LineError>,
    want: &str,
) -> Result<bool, AllocError> {
    match read {
        Ok(Some(line)) => is_written(alloc, line, want),
        _ => Ok(false),
    }
}

/// Whether the text is read as a line that is written as this text.
fn is_rewritten(alloc: Global, reader: &mut LineReader, text: &str) -> Result<bool, AllocError> {
    let read = reader.read(alloc, text.as_bytes());
    is_line(alloc, &read, text)
}

#[test]
fn reads_and_writes_each_form(rt: HostRuntime) {
    let mut reader = LineReader::new(rt.alloc());
    for text in &LINES {
        let rewritten = is_rewritten(rt.alloc(), &mut reader, text);
        assert!(rt; rewritten == Ok(true), "{text}");
    }
}

/// Whether the text is refused as no line.
fn is_refused(alloc: Global, text: &str) -> bool {
    read_line(alloc, text.as_bytes()).err() == Some(LineError::Grammar)
}

#[test]
fn refuses_what_is_no_line(rt: HostRuntime) {
    for text in &NO_LINES {
        assert!(rt; is_refused(rt.alloc(), text), "{text}");
    }
}

/// Whether what was read is no line, and no fault.
fn is_nothing(read: &Result<Option<Line>, LineError>) -> bool {
    matches!(read, Ok(None))
}

/// Whether the text is skipped.
fn is_skipped(alloc: Global, text: &str) -> bool {
    let read = read_line(alloc, text.as_bytes());
    is_nothing(&read)
}

#[test]
fn skips_empty_lines_and_comments(rt: HostRuntime) {
    assert!(rt; is_skipped(rt.alloc(), ""));
    assert!(rt; is_skipped(rt.alloc(), "#"));
    assert!(rt; is_skipped(rt.alloc(), "# a 0 a"));
    assert!(rt; is_skipped(rt.alloc(), "#a 0 a"));
}

/// Whether the literals are the negation of atom 2, and atom 0.
fn are_read(literals: &[Literal]) -> bool {
    match literals {
        [first, second] => {
            (first.atom, first.positive) == (2, false)
                && (second.atom, second.positive) == (0, true)
        }
        _ => false,
    }
}

/// Whether the clauses are the one of these literals, and the empty one.
fn has_clauses(clauses: &Clauses) -> bool {
    clauses.len() == 2 && clauses.get(1).len() == 0 && are_read(clauses.get(0))
}

/// Whether what was read is line 7, and has these clauses.
fn is_seventh(read: &Result<Option<Line>, LineError>) -> bool {
    match read {
        Ok(
            Some(
                Line::Expr {
                    id,
                    expr: Expr::Horn(clauses),
                },
            ),
        ) => *id == 7 && has_clauses(clauses),
        _ => false,
    }
}

/// Whether a text of such a line is read so.
fn is_seventh_read(alloc: Global) -> bool {
    let read = read_line(alloc, b"e 7 h 2 -3 1 0 0");
    is_seventh(&read)
}

#[test]
fn numbers_atoms_from_one(rt: HostRuntime) {
    assert!(rt; is_seventh_read(rt.alloc()));
}

/// Whether what was read is line 7, and has a dual Horn formula of these clauses.
fn is_dual(read: &Result<Option<Line>, LineError>) -> bool {
    match read {
        Ok(
            Some(
                Line::Expr {
                    id,
                    expr: Expr::Dual(clauses),
                },
            ),
        ) => *id == 7 && has_clauses(clauses),
        _ => false,
    }
}

/// Whether a text of such a line is read so.
fn is_dual_read(alloc: Global) -> bool {
    let read = read_line(alloc, b"e 7 d 2 -3 1 0 0");
    is_dual(&read)
}

#[test]
fn reads_dual_horn_formulas_as_such(rt: HostRuntime) {
    assert!(rt; is_dual_read(rt.alloc()));
}

/// Puts all actions last.
fn put_acts(table: &mut Table) -> Result<(), AllocError> {
    let id = table.acts_count();
    table.push(Line::Acts {
        id,
        acts: Acts::All,
    })
}

/// Puts the empty set last.
fn put_empty(table: &mut Table) -> Result<(), AllocError>
    ensures { OnOk result (0 < expr_count table.new.lines) }
{
    let id = table.expr_count();
    table.push(Line::Expr {
        id,
        expr: Expr::Constant(Constant::Empty),
    })
}

/// Puts last that the first set is dead.
fn put_dead(table: &mut Table) -> Result<(), AllocError>
    requires { 0 < expr_count table.old.lines }
{
    let id = table.known_count();
    table.push(Line::Known {
        id,
        statement: Statement::Dead(0),
        word: Word::Ed,
        premises: Premises::none(),
    })
}

/// Puts the three lines last.
fn put_lines(table: &mut Table) -> Result<(), AllocError> {
    put_acts(table)?;
    put_empty(table)?;
    put_dead(table)
}

/// Whether the beginning, with the lines written behind it, is this text.
fn are_written(
    alloc: Global,
    table: &Table,
    beginning: &[u8],
    want: &[u8],
) -> Result<bool, AllocError> {
    let mut out = Text::new(alloc);
    out.push_bytes(beginning)?;
    write_proof(alloc, table, &mut out)?;
    Ok(out.as_bytes() == want)
}

/// Whether the three lines are written behind a comment.
fn lines_are_written(alloc: Global) -> Result<bool, AllocError> {
    let mut table = Table::new(alloc);
    put_lines(&mut table)?;
    are_written(
        alloc,
        &table,
        b"# proof\n",
        b"# proof\na 0 a\ne 0 c e\nk 0 d 0 ed\n",
    )
}

#[test]
fn writes_lines_in_order(rt: HostRuntime) {
    assert!(rt; lines_are_written(rt.alloc()) == Ok(true));
}

/// Whether a draft of this task is written as its first lines.
fn draft_is_written(alloc: Global, task: &Task) -> Result<bool, AllocError> {
    let draft = Draft::new(alloc, task)?;
    let want = b"a 0 a\ne 0 c e\ne 1 c i\ne 2 c g\nk 0 d 0 ed\n";
    are_written(alloc, draft.table(), b"", want)
}

/// The same of an empty task.
fn empty_draft_is_written(alloc: Global) -> Result<bool, AllocError> {
    let task = Task::new(alloc);
    draft_is_written(alloc, &task)
}

#[test]
fn writes_the_lines_that_begin_a_draft(rt: HostRuntime) {
    assert!(rt; empty_draft_is_written(rt.alloc()) == Ok(true));
}

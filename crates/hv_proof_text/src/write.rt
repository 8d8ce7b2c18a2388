//! The bytes of a line, and of a proof.

ghost use Rattle.std.specs.Prelude.{◌≡◌, [], ◌∷◌, ◌++◌, OnOk, OnErr, IfOk, codes, decimal, map};
ghost use Rattle.std.specs.Prelude.{length, reverse};
ghost use Rattle.std.specs.List.{flat_map};
ghost use Rattle.hv_lines.specs.Spelling.{acts_fields, clause_fields, constant_field, expr_fields};
ghost use Rattle.hv_lines.specs.Spelling.{literal_field, proof_text, spelling_of, state_fields};
ghost use Rattle.hv_lines.specs.Spelling.{statement_fields, word_field};
ghost use Rattle.hv_proof_text.specs.Working.Writing.{KeepsFronts, with_fields};

use hv_bytes::Text;
use hv_lines::{Acts, Constant, Expr, Line, Statement, Table, Word};
use hv_sets::{Clauses, Literal, StateBuffer, StateList};
use std::alloc::{AllocError, Global};

/// The one spelling of the line, without LF.
pub fn write_line(alloc: Global, line: &Line) -> Result<Text, AllocError>
    ensures { IfOk result (λ text. text ≡ spelling_of line.now) }
{
    let mut text = Text::new(alloc);
    push_line(&mut text, line)?;
    Ok(text)
}

/// Appends the lines of the table, in the order in which they were pushed, each with an LF. It
/// takes no memory beside that of the text.
pub fn write_proof(_alloc: Global, table: &Table, out: &mut Text) -> Result<(), AllocError>
    ensures ok { OnOk result (out.new ≡ out.old ++ proof_text (reverse table.now.lines)) }
    ensures err { OnErr result (out.new ≡ out.old) }
{
    let before = out.len();
    match push_lines(table, out) {
        Ok(()) => Ok(()),
        Err(error) => {
            out.truncate(before);
            Err(error)
        }
    }
}

/// Appends the lines; where memory runs out, some of them and a part of the next one.
fn push_lines(table: &Table, out: &mut Text) -> Result<(), AllocError>
    ensures ok { OnOk result (out.new ≡ out.old ++ proof_text (reverse table.now.lines)) }
    ensures keeps { KeepsFronts out.old out.new }
{
    for place in 0..table.len() {
        push_line(out, table.line(place))?;
        push(out, b"\n")?;
    }
    Ok(())
}

/// Appends the spelling of the line.
fn push_line(text: &mut Text, line: &Line) -> Result<(), AllocError>
    ensures ok { OnOk result (text.new ≡ text.old ++ spelling_of line.now) }
    ensures keeps { KeepsFronts text.old text.new }
{
    match line {
        Line::Acts { id, acts } => {
            push(text, b"a")?;
            push_number(text, *id as u64)?;
            push_acts(text, acts)
        }
        Line::Expr { id, expr } => {
            push(text, b"e")?;
            push_number(text, *id as u64)?;
            push_expr(text, expr)
        }
        Line::Known {
            id,
            statement,
            word,
            premises,
        } => {
            push(text, b"k")?;
            push_number(text, *id as u64)?;
            push_statement(text, statement)?;
            push_word(text, *word)?;
            push_ids(text, premises.as_slice())
        }
    }
}

/// Appends the fields of the action set.
fn push_acts(text: &mut Text, acts: &Acts) -> Result<(), AllocError>
    ensures ok { OnOk result (text.new ≡ with_fields text.old (acts_fields acts.now)) }
    ensures keeps { KeepsFronts text.old text.new }
{
    match acts {
        Acts::All => push_field(text, b"a"),
        Acts::List(actions) => {
            push_field(text, b"b")?;
            push_number(text, actions.len() as u64)?;
            push_numbers(text, actions.as_slice())
        }
        Acts::Both(left, right) => push_pair(text, b"u", *left, *right),
    }
}

/// Appends the fields of the set.
fn push_expr(text: &mut Text, expr: &Expr) -> Result<(), AllocError>
    ensures ok { OnOk result (text.new ≡ with_fields text.old (expr_fields expr.now)) }
    ensures keeps { KeepsFronts text.old text.new }
{
    match expr {
        Expr::Constant(constant) => push_constant(text, *constant),
        Expr::Horn(clauses) => push_formula(text, b"h", clauses),
        Expr::Dual(clauses) => push_formula(text, b"d", clauses),
        Expr::Two(clauses) => push_formula(text, b"t", clauses),
        Expr::States(states) => push_listed_states(text, states),
        Expr::Node(node) => push_one(text, b"b", *node as usize),
        Expr::Not(set) => push_one(text, b"n", *set),
        Expr::And(left, right) => push_pair(text, b"i", *left, *right),
        Expr::Or(left, right) => push_pair(text, b"u", *left, *right),
        Expr::After(set, acts) => push_pair(text, b"p", *set, *acts),
        Expr::Before(set, acts) => push_pair(text, b"r", *set, *acts),
    }
}

/// Appends the fields of a constant set.
fn push_constant(text: &mut Text, constant: Constant) -> Result<(), AllocError>
    ensures ok { OnOk result (text.new
        ≡ with_fields text.old (codes "c" ∷ constant_field constant ∷ [])) }
    ensures keeps { KeepsFronts text.old text.new }
{
    push_field(text, b"c")?;
    push_field(text, constant_text(constant))
}

/// Appends the letter of a formula, the count of its clauses, and these.
fn push_formula(text: &mut Text, letter: &[u8], clauses: &Clauses) -> Result<(), AllocError>
    ensures ok { OnOk result (text.new ≡ with_fields text.old
        (letter.now ∷ decimal (length clauses.now) ∷ flat_map clause_fields clauses.now)) }
    ensures keeps { KeepsFronts text.old text.new }
{
    push_field(text, letter)?;
    push_number(text, clauses.len() as u64)?;
    push_clauses(text, clauses)
}

/// Appends the fields of a list of states.
fn push_listed_states(text: &mut Text, states: &StateList) -> Result<(), AllocError>
    ensures ok { OnOk result (text.new ≡ with_fields text.old
        (codes "x" ∷ decimal (length states.now) ∷ flat_map state_fields states.now)) }
    ensures keeps { KeepsFronts text.old text.new }
{
    push_field(text, b"x")?;
    push_number(text, states.len() as u64)?;
    push_states(text, states)
}

/// Appends the fields of the statement.
fn push_statement(text: &mut Text, statement: &Statement) -> Result<(), AllocError>
    ensures ok { OnOk result (text.new ≡ with_fields text.old (statement_fields statement.now)) }
    ensures keeps { KeepsFronts text.old text.new }
{
    match statement {
        Statement::Sub(left, right) => push_pair(text, b"s", *left, *right),
        Statement::ActSub(left, right) => push_pair(text, b"a", *left, *right),
        Statement::Dead(set) => push_one(text, b"d", *set),
        Statement::Unsolvable => push_field(text, b"u"),
    }
}

/// Appends the field of the word.
fn push_word(text: &mut Text, word: Word) -> Result<(), AllocError>
    ensures ok { OnOk result (text.new ≡ text.old ++ 32 ∷ word_field word) }
    ensures keeps { KeepsFronts text.old text.new }
{
    let row = word.row();
    push_field(text, row.spelling.as_slice())
}

/// Appends the clauses, each with its end.
fn push_clauses(text: &mut Text, clauses: &Clauses) -> Result<(), AllocError>
    ensures ok { OnOk result
        (text.new ≡ with_fields text.old (flat_map clause_fields clauses.now)) }
    ensures keeps { KeepsFronts text.old text.new }
{
    for place in 0..clauses.len() {
        push_clause(text, clauses.get(place))?;
    }
    Ok(())
}

/// Appends a clause with its end.
fn push_clause(text: &mut Text, clause: &[Literal]) -> Result<(), AllocError>
    ensures ok { OnOk result (text.new ≡ with_fields text.old (clause_fields clause.now)) }
    ensures keeps { KeepsFronts text.old text.new }
{
    for literal in clause {
        push_literal(text, literal)?;
    }
    push_field(text, b"0")
}

/// Appends the number of the literal.
fn push_literal(text: &mut Text, literal: &Literal) -> Result<(), AllocError>
    ensures ok { OnOk result (text.new ≡ text.old ++ 32 ∷ literal_field literal.now) }
    ensures keeps { KeepsFronts text.old text.new }
{
    let number = u64::from(literal.atom) + 1;
    if literal.positive {
        push_number(text, number)
    } else {
        push(text, b" -")?;
        push_decimal(text, number)
    }
}

/// Appends the states, each with its end.
fn push_states(text: &mut Text, states: &StateList) -> Result<(), AllocError>
    ensures ok { OnOk result (text.new ≡ with_fields text.old (flat_map state_fields states.now)) }
    ensures keeps { KeepsFronts text.old text.new }
{
    let mut buffer = StateBuffer::new();
    for place in 0..states.len() {
        push_state(text, states.get(place).slice(&mut buffer))?;
    }
    Ok(())
}

/// Appends a state with its end.
fn push_state(text: &mut Text, state: &[u32]) -> Result<(), AllocError>
    ensures ok { OnOk result (text.new ≡ with_fields text.old (state_fields state.now)) }
    ensures keeps { KeepsFronts text.old text.new }
{
    push_numbers(text, state)?;
    push_field(text, b";")
}

/// Appends a field for each number.
fn push_numbers(text: &mut Text, numbers: &[u32]) -> Result<(), AllocError>
    ensures ok { OnOk result (text.new ≡ with_fields text.old (map decimal numbers.now)) }
    ensures keeps { KeepsFronts text.old text.new }
{
    for number in numbers {
        push_number(text, u64::from(*number))?;
    }
    Ok(())
}

/// Appends a field for each identifier.
fn push_ids(text: &mut Text, ids: &[usize]) -> Result<(), AllocError>
    ensures ok { OnOk result (text.new ≡ with_fields text.old (map decimal ids.now)) }
    ensures keeps { KeepsFronts text.old text.new }
{
    for id in ids {
        push_number(text, *id as u64)?;
    }
    Ok(())
}

/// Appends a letter and an identifier.
fn push_one(text: &mut Text, letter: &[u8], id: usize) -> Result<(), AllocError>
    ensures ok { OnOk result (text.new ≡ with_fields text.old (letter.now ∷ decimal id ∷ [])) }
    ensures keeps { KeepsFronts text.old text.new }
{
    push_field(text, letter)?;
    push_number(text, id as u64)
}

/// Appends a letter and two identifiers.
fn push_pair(text: &mut Text, letter: &[u8], left: usize, right: usize) -> Result<(), AllocError>
    ensures ok { OnOk result (text.new ≡ with_fields text.old (letter.now ∷ decimal left
        ∷ decimal right ∷ [])) }
    ensures keeps { KeepsFronts text.old text.new }
{
    push_field(text, letter)?;
    push_number(text, left as u64)?;
    push_number(text, right as u64)
}

/// Appends a space and the field.
fn push_field(text: &mut Text, field: &[u8]) -> Result<(), AllocError>
    ensures ok { OnOk result (text.new ≡ text.old ++ 32 ∷ field.now) }
    ensures keeps { KeepsFronts text.old text.new }
{
    push(text, b" ")?;
    push(text, field)
}

/// Appends a space and the decimal.
fn push_number(text: &mut Text, number: u64) -> Result<(), AllocError>
    ensures ok { OnOk result (text.new ≡ text.old ++ 32 ∷ decimal number) }
    ensures keeps { KeepsFronts text.old text.new }
{
    push(text, b" ")?;
    push_decimal(text, number)
}

/// Appends the decimal.
fn push_decimal(text: &mut Text, number: u64) -> Result<(), AllocError>
    ensures ok { OnOk result (text.new ≡ text.old ++ decimal number) }
    ensures keeps { KeepsFronts text.old text.new }
{
    text.push_number(number)
}

/// Appends the bytes.
fn push(text: &mut Text, bytes: &[u8]) -> Result<(), AllocError>
    ensures ok { OnOk result (text.new ≡ text.old ++ bytes.now) }
    ensures keeps { KeepsFronts text.old text.new }
{
    text.push_bytes(bytes)
}

/// The field of the constant.
fn constant_text(constant: Constant) -> &'static [u8]
    ensures { result.now ≡ constant_field constant }
{
    match constant {
        Constant::Empty => b"e",
        Constant::Start => b"i",
        Constant::Goal => b"g",
    }
}

//! The lines of a task text.

ghost use Rattle.std.specs.Prelude.{◌≡◌, ◌<◌, ◌≤◌, ◌↔◌, IfOk, IfSome, IsTrue, codes};
ghost use Rattle.hv_grammar.specs.Forms.{is_word, numbered_in};
ghost use Rattle.hv_task_text.specs.TaskFile.{atom_behind, atom_of, atom_or, item_in, item_or};
ghost use Rattle.hv_task_text.specs.Working.Reading.{is_short_name};
ghost use Rattle.hv_task_text.specs.Written.{IsItem};
ghost use Rattle.hv_task_text.specs.declared.fault.TaskKind.TheVariants as Kind;
ghost use Rattle.hv_task_text.specs.declared.fault.TaskLimit.TheVariants as Limit;
ghost use Rattle.hv_task_text.specs.declared.fault.TaskRefusal.TheVariants as Refusal;

use crate::atom_lists::Item;
use crate::fault::{TaskKind, TaskLimit, TaskRefusal};
use hv_grammar::{at_most, decimal};

const LONGEST_NAME: usize = 1_024;

const GREATEST_COST: u64 = 4_294_967_295;

/// Whether the line is a name.
pub fn is_short_name(line: &[u8]) -> Result<(), TaskRefusal>
    ensures { result ≡ is_short_name line.now }
{
    if line.len() > LONGEST_NAME {
        return Err(TaskRefusal::Limit(TaskLimit::Name));
    }
    Ok(())
}

// Whether the line is the word that begins an action.
fn is_begin_action(line: &[u8]) -> bool
    ensures { IsTrue result ↔ (line.now ≡ codes "begin_action") }
{
    match line {
        [b'b', b'e', b'g', b'i', b'n', b'_', rest @ ..] => is_action(rest),
        _ => false,
    }
}

// Whether the bytes are the last part of that word, or of the one that ends an action.
fn is_action(bytes: &[u8]) -> bool
    ensures { IsTrue result ↔ (bytes.now ≡ codes "action") }
{
    match bytes {
        b"action" => true,
        _ => false,
    }
}

/// Whether the line begins an action.
pub fn begins_action(line: &[u8]) -> Result<(), TaskRefusal>
    ensures { result ≡ is_word (codes "begin_action") (Refusal.Place Kind.BeginAction) line.now }
{
    if !is_begin_action(line) {
        return Err(TaskRefusal::Place(TaskKind::BeginAction));
    }
    Ok(())
}

/// The cost that the line says.
pub fn cost_in(line: &[u8]) -> Result<u64, TaskRefusal>
    ensures said { result ≡ numbered_in (codes "cost:") 4294967295
        (Refusal.Place Kind.Cost) (Refusal.Limit Limit.Cost) line.now }
    ensures most { IfOk result (λ cost. cost ≤ 4294967295) }
{
    match line {
        [b'c', b'o', b's', b't', b':', digits @ ..] => at_most(
            decimal(digits),
            GREATEST_COST,
            TaskRefusal::Place(TaskKind::Cost),
            TaskRefusal::Limit(TaskLimit::Cost),
        ),
        _ => Err(TaskRefusal::Place(TaskKind::Cost)),
    }
}

// The number, where it is that of one of so many atoms.
fn atom_of(number: Option<u64>, atoms: u32) -> Option<u32>
    ensures atom { result ≡ atom_of atoms number }
    ensures below { IfSome result (λ n. n < atoms) }
{
    match number {
        Some(number) if number < u64::from(atoms) => Some(number as u32),
        _ => None,
    }
}

/// The atom, of so many, that the whole line names, or none where the line is the closing word.
pub fn atom_or(
    line: &[u8],
    closing: &[u8],
    kind: TaskKind,
    atoms: u32,
) -> Result<Option<u32>, TaskRefusal>
    ensures said { result ≡ atom_or closing.now kind atoms line.now }
    ensures below { IfOk result (λ atom. IfSome atom (λ n. n < atoms)) }
{
    match atom_of(decimal(line), atoms) {
        Some(atom) => Ok(Some(atom)),
        None if line == closing => Ok(None),
        None => Err(TaskRefusal::Place(kind)),
    }
}

// The number of an atom behind the rest of the word `PRE:`.
fn atom_of_pre(rest: &[u8], atoms: u32) -> Option<u32>
    ensures atom { result ≡ atom_behind (codes "RE:") atoms rest.now }
    ensures below { IfSome result (λ n. n < atoms) }
{
    match rest {
        [b'R', b'E', b':', digits @ ..] => atom_of(decimal(digits), atoms),
        _ => None,
    }
}

// The number of an atom behind the rest of the word `ADD:`.
fn atom_of_add(rest: &[u8], atoms: u32) -> Option<u32>
    ensures atom { result ≡ atom_behind (codes "DD:") atoms rest.now }
    ensures below { IfSome result (λ n. n < atoms) }
{
    match rest {
        [b'D', b'D', b':', digits @ ..] => atom_of(decimal(digits), atoms),
        _ => None,
    }
}

// The number of an atom behind the rest of the word `DEL:`.
fn atom_of_del(rest: &[u8], atoms: u32) -> Option<u32>
    ensures atom { result ≡ atom_behind (codes "EL:") atoms rest.now }
    ensures below { IfSome result (λ n. n < atoms) }
{
    match rest {
        [b'E', b'L', b':', digits @ ..] => atom_of(decimal(digits), atoms),
        _ => None,
    }
}

// What the line says of one of so many atoms.
fn item_in(line: &[u8], atoms: u32) -> Option<Item>
    ensures item { result ≡ item_in atoms line.now }
    ensures is_item { IfSome result (IsItem atoms) }
{
    match line {
        [b'P', rest @ ..] => atom_of_pre(rest, atoms).map(Item::Pre),
        [b'A', rest @ ..] => atom_of_add(rest, atoms).map(Item::Add),
        [b'D', rest @ ..] => atom_of_del(rest, atoms).map(Item::Del),
        _ => None,
    }
}

// Whether the line is the word that ends an action.
fn is_end_action(line: &[u8]) -> bool
    ensures { IsTrue result ↔ (line.now ≡ codes "end_action") }
{
    match line {
        [b'e', b'n', b'd', b'_', rest @ ..] => is_action(rest),
        _ => false,
    }
}

/// What the line says of one of so many atoms, or nothing where it ends the action.
pub fn item_or(line: &[u8], atoms: u32) -> Result<Option<Item>, TaskRefusal>
    ensures said { result ≡ item_or atoms line.now }
    ensures is_item { IfOk result (λ item. IfSome item (IsItem atoms)) }
{
    match item_in(line, atoms) {
        Some(item) => Ok(Some(item)),
        None if is_end_action(line) => Ok(None),
        None => Err(TaskRefusal::Place(TaskKind::ActionLine)),
    }
}

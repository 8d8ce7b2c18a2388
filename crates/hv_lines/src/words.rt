//! The table of words: how each is spelled, after which statements it may be, how many premises it
//! has, and whether it is a rule. Whoever reads, writes or tests a word looks it up here, and so do
//! the definitions of the spelling and of a good line (`word_row`).
//!
//! That every word is found by its spelling is one line a word in the proofs; that no two words are
//! spelled alike, and that a spelling is no other field, follows from it.

ghost use Rattle.std.specs.Prelude.{◌≡◌, ◌≤◌, [], ◌∷◌, MatchOption, IfSome};
ghost use Rattle.hv_lines.specs.Spelling.{premises_of, word_field};
ghost use Rattle.hv_lines.specs.Words.{basic_row, kind_of_statement, rule_row, word_row};

use crate::line::{Statement, Word};

/// A kind of statement: what a word may justify.
#[derive(Clone, Copy, PartialEq, Eq)]
pub enum StatementKind {
    /// An inclusion of sets.
    Sub,
    /// An inclusion of action sets.
    ActSub,
    /// A dead set.
    Dead,
    /// That there is no plan.
    Unsolvable,
}

/// What the table says of a word.
#[derive(Clone, Copy)]
pub struct WordRow {
    /// Its two bytes in a proof text.
    pub spelling: [u8; 2],
    /// The kind of the statements after which it may be.
    pub after: StatementKind,
    /// How many premises it has.
    pub premises: usize,
    /// Whether it is a derivation rule, and not a kind of basic statement.
    pub is_rule: bool,
}

impl Word {
    /// The row of the word.
    pub fn row(self) -> WordRow
        ensures row { result ≡ word_row self }
        ensures few { result.premises ≤ 3 }
    {
        match self {
            Word::B1 => basic(*b"b1", StatementKind::Sub),
            Word::B2 => basic(*b"b2", StatementKind::Sub),
            Word::B3 => basic(*b"b3", StatementKind::Sub),
            Word::B4 => basic(*b"b4", StatementKind::Sub),
            Word::B5 => basic(*b"b5", StatementKind::ActSub),
            Word::Ed => rule(*b"ed", StatementKind::Dead, 0),
            Word::Ud => rule(*b"ud", StatementKind::Dead, 2),
            Word::Sd => rule(*b"sd", StatementKind::Dead, 2),
            Word::Pg => rule(*b"pg", StatementKind::Dead, 3),
            Word::Pi => rule(*b"pi", StatementKind::Dead, 3),
            Word::Rg => rule(*b"rg", StatementKind::Dead, 3),
            Word::Ri => rule(*b"ri", StatementKind::Dead, 3),
            Word::Ci => rule(*b"ci", StatementKind::Unsolvable, 1),
            Word::Cg => rule(*b"cg", StatementKind::Unsolvable, 1),
            Word::Ur => rule(*b"ur", StatementKind::Sub, 0),
            Word::Ul => rule(*b"ul", StatementKind::Sub, 0),
            Word::Ir => rule(*b"ir", StatementKind::Sub, 0),
            Word::Il => rule(*b"il", StatementKind::Sub, 0),
            Word::Di => rule(*b"di", StatementKind::Sub, 0),
            Word::Su => rule(*b"su", StatementKind::Sub, 2),
            Word::Si => rule(*b"si", StatementKind::Sub, 2),
            Word::St => rule(*b"st", StatementKind::Sub, 2),
            Word::At => rule(*b"at", StatementKind::Sub, 2),
            Word::Au => rule(*b"au", StatementKind::Sub, 2),
            Word::Pt => rule(*b"pt", StatementKind::Sub, 2),
            Word::Pu => rule(*b"pu", StatementKind::Sub, 2),
            Word::Pr => rule(*b"pr", StatementKind::Sub, 1),
            Word::Rp => rule(*b"rp", StatementKind::Sub, 1),
        }
    }

    /// The word that the bytes spell, where there is one.
    pub fn spelled(bytes: &[u8]) -> Option<Word>
        ensures { MatchOption result
            ((word : Word) → word_field word ≡ bytes.now → ⊥)
            (λ word. word_field word ≡ bytes.now) }
    {
        match bytes {
            [first, second] => word_of(*first, *second),
            _ => None,
        }
    }

    /// How many premises the word has after the statement, where it may be there.
    pub fn premises_after(self, statement: &Statement) -> Option<usize>
        ensures same { result ≡ premises_of statement.now self }
        ensures few { IfSome result (λ count. count ≤ 3) }
    {
        let row = self.row();
        if row.after == statement.kind() {
            Some(row.premises)
        } else {
            None
        }
    }
}

impl Statement {
    /// The kind of the statement.
    pub fn kind(&self) -> StatementKind
        ensures { result ≡ kind_of_statement self.now }
    {
        match self {
            Statement::Sub(..) => StatementKind::Sub,
            Statement::ActSub(..) => StatementKind::ActSub,
            Statement::Dead(_) => StatementKind::Dead,
            Statement::Unsolvable => StatementKind::Unsolvable,
        }
    }
}

/// The word of these two bytes.
fn word_of(first: u8, second: u8) -> Option<Word>
    ensures { MatchOption result
        ((word : Word) → word_field word ≡ first ∷ second ∷ [] → ⊥)
        (λ word. word_field word ≡ first ∷ second ∷ []) }
{
    match (first, second) {
        (b'b', b'1') => Some(Word::B1),
        (b'b', b'2') => Some(Word::B2),
        (b'b', b'3') => Some(Word::B3),
        (b'b', b'4') => Some(Word::B4),
        (b'b', b'5') => Some(Word::B5),
        (b'e', b'd') => Some(Word::Ed),
        (b'u', b'd') => Some(Word::Ud),
        (b's', b'd') => Some(Word::Sd),
        (b'p', b'g') => Some(Word::Pg),
        (b'p', b'i') => Some(Word::Pi),
        (b'r', b'g') => Some(Word::Rg),
        (b'r', b'i') => Some(Word::Ri),
        (b'c', b'i') => Some(Word::Ci),
        (b'c', b'g') => Some(Word::Cg),
        (b'u', b'r') => Some(Word::Ur),
        (b'u', b'l') => Some(Word::Ul),
        (b'i', b'r') => Some(Word::Ir),
        (b'i', b'l') => Some(Word::Il),
        (b'd', b'i') => Some(Word::Di),
        (b's', b'u') => Some(Word::Su),
        (b's', b'i') => Some(Word::Si),
        (b's', b't') => Some(Word::St),
        (b'a', b't') => Some(Word::At),
        (b'a', b'u') => Some(Word::Au),
        (b'p', b't') => Some(Word::Pt),
        (b'p', b'u') => Some(Word::Pu),
        (b'p', b'r') => Some(Word::Pr),
        (b'r', b'p') => Some(Word::Rp),
        _ => None,
    }
}

/// The row of a kind of basic statement: it has no premises.
fn basic(spelling: [u8; 2], after: StatementKind) -> WordRow
    ensures { result ≡ basic_row spelling after }
{
    WordRow {
        spelling,
        after,
        premises: 0,
        is_rule: false,
    }
}

/// The row of a derivation rule.
fn rule(spelling: [u8; 2], after: StatementKind, premises: usize) -> WordRow
    ensures { result ≡ rule_row spelling after premises }
{
    WordRow {
        spelling,
        after,
        premises,
        is_rule: true,
    }
}

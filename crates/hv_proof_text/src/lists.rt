//! Lists in a line: actions, clauses and states, each with its end.
//!
//! Their fields are taken one by one, so that the tokens of a list never are in memory together: a
//! clause, a state or a number is put where it belongs as soon as its field is read. Tokens are
//! gathered for the other lines of sets alone, and two behind the head at most, as many as a
//! well-formed one has.

ghost use Rattle.std.specs.Prelude.{◌≡◌, ◌<◌, ◌^◌, ℕ, List, [], ◌∷◌, ◌++◌, MatchOption, IfOk, OnOk};
ghost use Rattle.std.specs.Prelude.{true, false, None, Ok, Some};
ghost use Rattle.std.specs.List.{All};
ghost use Rattle.hv_bytes.specs.Working.Fields.{fields_behind};
ghost use Rattle.hv_sets.specs.declared.literal.Literal.{Literal};
ghost use Rattle.hv_proof_text.specs.Working.Gathering.{ReadsToken, StandFor, StopsAtToken};
ghost use Rattle.hv_proof_text.specs.Working.Gathering.{clauses_from, numbers_from};
ghost use Rattle.hv_proof_text.specs.Working.Gathering.{states_from, whole_clauses, whole_states};
ghost use Rattle.hv_proof_text.specs.Working.Pieces as Pieces;
ghost use Rattle.hv_proof_text.specs.Working.Tokens.{AreRisingNumbers, AreClauseTokens};
ghost use Rattle.hv_proof_text.specs.Working.Tokens.{AreStateTokens};

use crate::fields::token_front;
use crate::token::Token;
use crate::token_rows::NOT_SHORT;
use hv_lines::ActionList;
use hv_sets::{Clauses, ClausesBuilder, Literal, StateList, StateListBuilder};
use std::alloc::{AllocError, Global};

/// A token of a state, or of another list that rises.
enum StatePiece {
    Atom(u32),
    End,
    Other,
}

/// What the token is, where the next number of the list is at least this one.
fn state_piece(token: Token, least: u32) -> StatePiece
    ensures { result ≡ Pieces.state_piece least token }
{
    match token {
        Token::Number(number) => {
            if number >= u64::from(least) && number < NOT_SHORT {
                StatePiece::Atom(number as u32)
            } else {
                StatePiece::Other
            }
        }
        Token::End => StatePiece::End,
        _ => StatePiece::Other,
    }
}

/// A token of a clause.
enum ClausePiece {
    Literal(Literal),
    End,
    Other,
}

/// What the token is in a clause.
fn clause_piece(token: Token) -> ClausePiece
    ensures { result ≡ Pieces.clause_piece token }
{
    match token {
        Token::Number(0) => ClausePiece::End,
        Token::Number(number) if number < NOT_SHORT => ClausePiece::Literal(Literal {
            atom: (number - 1) as u32,
            positive: true,
        }),
        Token::Minus(number) if number > 0 && number < NOT_SHORT => {
            ClausePiece::Literal(Literal {
                atom: (number - 1) as u32,
                positive: false,
            })
        }
        _ => ClausePiece::Other,
    }
}

/// Short decimals that rise.
#[inline(never)]
pub(crate) fn rising_numbers(
    alloc: Global,
    fields: Option<&[u8]>,
) -> Result<Option<ActionList>, AllocError>
    ensures { IfOk result (λ found. MatchOption found
        ((numbers : List ℕ) → StandFor (AreRisingNumbers numbers)
        (fields_behind fields.entry (λ f. f.now)) → ⊥)
        (λ numbers. StandFor (AreRisingNumbers numbers)
        (fields_behind fields.entry (λ f. f.now)))) }
{
    let mut numbers = ActionList::new(alloc);
    let mut least = 0;
    let mut rest = fields;
    'fields: loop {
        let Some(line) = rest else {
            return Ok(Some(numbers));
        };
        let Some((token, behind)) = token_front(line) else {
            return Ok(None);
        };
        if !take_number(&mut numbers, &mut least, token)? {
            return Ok(None);
        }
        rest = behind;
    }
}

/// Puts the number of a token last. The answer is false where none can be there.
fn take_number(numbers: &mut ActionList, least: &mut u32, token: Token) -> Result<bool, AllocError>
    ensures taken { result ≡ Ok true → ReadsToken (numbers_from numbers.old least.old) token
        (numbers_from numbers.new least.new) }
    ensures stopped { result ≡ Ok false
        → StopsAtToken (numbers_from numbers.old least.old) token }
{
    match state_piece(token, *least) {
        StatePiece::Atom(number) => {
            numbers.push(number)?;
            *least = number + 1;
            Ok(true)
        }
        StatePiece::End | StatePiece::Other => Ok(false),
    }
}

/// Clauses, each with its end; room is taken for so many.
#[inline(never)]
pub(crate) fn clauses_in(
    alloc: Global,
    fields: Option<&[u8]>,
    count: u64,
) -> Result<Option<Clauses>, AllocError>
    ensures { IfOk result (λ found. MatchOption found
        ((clauses : List (List Literal)) → StandFor (AreClauseTokens clauses)
        (fields_behind fields.entry (λ f. f.now)) → ⊥)
        (λ clauses. StandFor (AreClauseTokens clauses)
        (fields_behind fields.entry (λ f. f.now)))) }
{
    let mut clauses = ClausesBuilder::new(alloc);
    let room = room_for(fields, count);
    clauses.reserve(room.ends, room.items)?;
    let mut rest = fields;
    'fields: loop {
        let Some(line) = rest else {
            return Ok(closed_clauses(clauses));
        };
        let Some((token, behind)) = token_front(line) else {
            return Ok(None);
        };
        if !take_in_clauses(&mut clauses, token)? {
            return Ok(None);
        }
        rest = behind;
    }
}

/// Takes a token of clauses: a literal goes last in the clause that is begun, and an end ends it.
/// The answer is false where neither can be there.
fn take_in_clauses(clauses: &mut ClausesBuilder, token: Token) -> Result<bool, AllocError>
    ensures taken { result ≡ Ok true
        → ReadsToken (clauses_from clauses.old.whole clauses.old.begun) token
        (clauses_from clauses.new.whole clauses.new.begun) }
    ensures stopped { result ≡ Ok false
        → StopsAtToken (clauses_from clauses.old.whole clauses.old.begun) token }
{
    match clause_piece(token) {
        ClausePiece::Literal(literal) => {
            clauses.put(literal)?;
            Ok(true)
        }
        ClausePiece::End => {
            clauses.end()?;
            Ok(true)
        }
        ClausePiece::Other => Ok(false),
    }
}

/// The clauses, if none is begun.
fn closed_clauses(clauses: ClausesBuilder) -> Option<Clauses>
    ensures { MatchOption result (whole_clauses clauses.whole clauses.begun ≡ None)
        (λ all. whole_clauses clauses.whole clauses.begun ≡ Some all) }
{
    if clauses.begun() == 0 {
        Some(clauses.list())
    } else {
        None
    }
}

/// States, each with its end; room is taken for so many.
#[inline(never)]
pub(crate) fn states_in(
    alloc: Global,
    fields: Option<&[u8]>,
    count: u64,
) -> Result<Option<StateList>, AllocError>
    ensures { IfOk result (λ found. MatchOption found
        ((states : List (List ℕ)) → StandFor (AreStateTokens states)
        (fields_behind fields.entry (λ f. f.now)) → ⊥)
        (λ states. StandFor (AreStateTokens states)
        (fields_behind fields.entry (λ f. f.now)))) }
{
    let mut states = StateListBuilder::new(alloc);
    let room = room_for(fields, count);
    states.reserve(room.ends, room.items)?;
    let mut least = 0;
    let mut rest = fields;
    'fields: loop {
        let Some(line) = rest else {
            return Ok(closed_states(states));
        };
        let Some((token, behind)) = token_front(line) else {
            return Ok(None);
        };
        if !take_in_states(&mut states, &mut least, token)? {
            return Ok(None);
        }
        rest = behind;
    }
}

/// Takes a token of states: an atom goes last in the state that is begun, and an end ends it. The
/// answer is false where neither can be there.
fn take_in_states(
    states: &mut StateListBuilder,
    least: &mut u32,
    token: Token,
) -> Result<bool, AllocError>
    requires { All (λ a. a < least.old) states.old.begun }
    ensures taken { result ≡ Ok true
        → ReadsToken (states_from states.old.whole states.old.begun least.old) token
        (states_from states.new.whole states.new.begun least.new) }
    ensures below { result ≡ Ok true → All (λ a. a < least.new) states.new.begun }
    ensures stopped { result ≡ Ok false
        → StopsAtToken (states_from states.old.whole states.old.begun least.old) token }
{
    match state_piece(token, *least) {
        StatePiece::Atom(atom) => {
            states.put(atom)?;
            *least = atom + 1;
            Ok(true)
        }
        StatePiece::End => {
            states.end()?;
            *least = 0;
            Ok(true)
        }
        StatePiece::Other => Ok(false),
    }
}

/// The states, if none is begun.
fn closed_states(states: StateListBuilder) -> Option<StateList>
    ensures { MatchOption result (whole_states states.whole states.begun ≡ None)
        (λ all. whole_states states.whole states.begun ≡ Some all) }
{
    if states.begun() == 0 {
        Some(states.list())
    } else {
        None
    }
}

/// How many ends and how many items a list is given space for before it is read.
#[derive(Clone, Copy)]
struct ListRoom {
    ends: usize,
    items: usize,
}

/// Space for so many ends, but for no more than the fields can have, an end and a space each, and
/// for as many items as the rest has at least where none has more than six bytes with its space.
fn room_for(fields: Option<&[u8]>, count: u64) -> ListRoom {
    let bytes = match fields {
        Some(fields) => fields.len(),
        None => 0,
    };
    let ends = count.min(bytes as u64 / 2 + 1) as usize;
    let items = bytes.saturating_sub(ends).saturating_sub(ends) / 6;
    ListRoom { ends, items }
}

//! Lines from tokens: what may be behind each letter.

ghost use Rattle.std.specs.Prelude.{◌≡◌, ◌≢◌, ℕ, List, ◌∷◌, None, MatchOption, IfOk, length};
ghost use Rattle.hv_bytes.specs.Working.Fields.{fields_behind};
ghost use Rattle.hv_lines.specs.Spelling.{Spells};
ghost use Rattle.hv_lines.specs.declared.line.Acts.{Acts};
ghost use Rattle.hv_lines.specs.declared.line.Expr.{Expr};
ghost use Rattle.hv_lines.specs.declared.line.Line.{Line};
ghost use Rattle.hv_proof_text.specs.Working.Forms.{ActsForm, ExprForm, LineForm};
ghost use Rattle.hv_sets.specs.declared.literal.Literal.{Literal};
ghost use Rattle.hv_proof_text.specs.Working.Gathering.{BeginsWithCount, StandFor};
ghost use Rattle.hv_proof_text.specs.Working.Heads.{listed_by, listed_kind, listed_letter};
ghost use Rattle.hv_proof_text.specs.Working.Tokens.{AreClauseTokens, AreRisingNumbers};
ghost use Rattle.hv_proof_text.specs.Working.Tokens.{AreStateTokens};
ghost use Rattle.hv_proof_text.specs.declared.token.Token.{Token};

use crate::claims::known_of;
use crate::fields::{first_number, tokens_in};
use crate::token::{Letter, Token};
use crate::token_rows::{LineHead, ListKind};
use crate::{lists, token_rows};
use hv_lines::{ActionList, Acts, Expr, Line};
use hv_sets::{Clauses, StateList};
use std::alloc::{AllocError, Global};

/// The action set behind its letter, where that isn't listed.
fn acts_of(kind: Letter, tokens: &[Token]) -> Option<Acts>
    requires { listed_by Letter.A kind ≡ None }
    ensures { MatchOption result
        ((acts : Acts) → ActsForm kind tokens.now acts → ⊥)
        (λ acts. ActsForm kind tokens.now acts) }
{
    match kind {
        Letter::A => match tokens {
            [] => Some(Acts::All),
            _ => None,
        },
        Letter::U => match token_rows::two_numbers(tokens) {
            Some(pair) => Some(Acts::Both(pair.0, pair.1)),
            None => None,
        },
        _ => None,
    }
}

/// The set behind its letter, where that isn't listed.
fn expr_of(kind: Letter, tokens: &[Token]) -> Option<Expr>
    requires { listed_by Letter.E kind ≡ None }
    ensures { MatchOption result
        ((expr : Expr) → ExprForm kind tokens.now expr → ⊥)
        (λ expr. ExprForm kind tokens.now expr) }
{
    match kind {
        Letter::C => token_rows::constant_of(tokens).map(Expr::Constant),
        Letter::B => token_rows::one_short_number(tokens).map(Expr::Node),
        Letter::N => token_rows::one_number(tokens).map(Expr::Not),
        Letter::I => token_rows::two_numbers(tokens).map(|pair| Expr::And(pair.0, pair.1)),
        Letter::U => token_rows::two_numbers(tokens).map(|pair| Expr::Or(pair.0, pair.1)),
        Letter::P => token_rows::two_numbers(tokens).map(|pair| Expr::After(pair.0, pair.1)),
        Letter::R => token_rows::two_numbers(tokens).map(|pair| Expr::Before(pair.0, pair.1)),
        _ => None,
    }
}

/// The line of a set behind its head, where nothing is listed there.
fn plain_line(letter: Letter, id: usize, kind: Letter, tokens: &[Token]) -> Option<Line>
    requires plain { listed_by letter kind ≡ None }
    requires no_claim { letter ≢ Letter.K }
    ensures { MatchOption result
        ((line : Line) → LineForm letter id kind tokens.now line → ⊥)
        (λ line. LineForm letter id kind tokens.now line) }
{
    match letter {
        Letter::A => match acts_of(kind, tokens) {
            Some(acts) => Some(Line::Acts { id, acts }),
            None => None,
        },
        Letter::E => match expr_of(kind, tokens) {
            Some(expr) => Some(Line::Expr { id, expr }),
            None => None,
        },
        _ => None,
    }
}

/// A count and so many actions.
fn counted_actions(alloc: Global, fields: Option<&[u8]>) -> Result<Option<ActionList>, AllocError>
    ensures { IfOk result (λ found. MatchOption found
        ((actions : List ℕ) → StandFor (BeginsWithCount (AreRisingNumbers actions) (length actions))
        (fields_behind fields.entry (λ f. f.now)) → ⊥)
        (λ actions. StandFor (BeginsWithCount (AreRisingNumbers actions) (length actions))
        (fields_behind fields.entry (λ f. f.now)))) }
{
    let Some((count, behind)) = first_number(fields) else {
        return Ok(None);
    };
    let Some(actions) = lists::rising_numbers(alloc, behind)? else {
        return Ok(None);
    };
    if actions.len() as u64 == count {
        Ok(Some(actions))
    } else {
        Ok(None)
    }
}

/// A count and so many clauses.
fn counted_clauses(alloc: Global, fields: Option<&[u8]>) -> Result<Option<Clauses>, AllocError>
    ensures { IfOk result (λ found. MatchOption found
        ((clauses : List (List Literal)) → StandFor
        (BeginsWithCount (AreClauseTokens clauses) (length clauses))
        (fields_behind fields.entry (λ f. f.now)) → ⊥)
        (λ clauses. StandFor (BeginsWithCount (AreClauseTokens clauses) (length clauses))
        (fields_behind fields.entry (λ f. f.now)))) }
{
    let Some((count, behind)) = first_number(fields) else {
        return Ok(None);
    };
    let Some(clauses) = lists::clauses_in(alloc, behind, count)? else {
        return Ok(None);
    };
    if clauses.len() as u64 == count {
        Ok(Some(clauses.share()?))
    } else {
        Ok(None)
    }
}

/// A count and so many states.
fn counted_states(alloc: Global, fields: Option<&[u8]>) -> Result<Option<StateList>, AllocError>
    ensures { IfOk result (λ found. MatchOption found
        ((states : List (List ℕ)) → StandFor
        (BeginsWithCount (AreStateTokens states) (length states))
        (fields_behind fields.entry (λ f. f.now)) → ⊥)
        (λ states. StandFor (BeginsWithCount (AreStateTokens states) (length states))
        (fields_behind fields.entry (λ f. f.now)))) }
{
    let Some((count, behind)) = first_number(fields) else {
        return Ok(None);
    };
    let Some(states) = lists::states_in(alloc, behind, count)? else {
        return Ok(None);
    };
    if states.len() as u64 == count {
        Ok(Some(states.share()?))
    } else {
        Ok(None)
    }
}

/// The line of a list behind its head.
fn listed_line(
    alloc: Global,
    listed: ListKind,
    id: usize,
    fields: Option<&[u8]>,
) -> Result<Option<Line>, AllocError>
    ensures { IfOk result (λ found. MatchOption found
        ((line : Line) → StandFor
        (λ ts. LineForm (listed_letter listed) id (listed_kind listed) ts line)
        (fields_behind fields.entry (λ f. f.now)) → ⊥)
        (λ line. StandFor
        (λ ts. LineForm (listed_letter listed) id (listed_kind listed) ts line)
        (fields_behind fields.entry (λ f. f.now)))) }
{
    match listed {
        ListKind::Actions => match counted_actions(alloc, fields)? {
            Some(actions) => Ok(Some(Line::Acts {
                id,
                acts: Acts::List(actions),
            })),
            None => Ok(None),
        },
        ListKind::Horn => match counted_clauses(alloc, fields)? {
            Some(clauses) => Ok(Some(Line::Expr {
                id,
                expr: Expr::Horn(clauses),
            })),
            None => Ok(None),
        },
        ListKind::Dual => match counted_clauses(alloc, fields)? {
            Some(clauses) => Ok(Some(Line::Expr {
                id,
                expr: Expr::Dual(clauses),
            })),
            None => Ok(None),
        },
        ListKind::Two => match counted_clauses(alloc, fields)? {
            Some(clauses) => Ok(Some(Line::Expr {
                id,
                expr: Expr::Two(clauses),
            })),
            None => Ok(None),
        },
        ListKind::States => match counted_states(alloc, fields)? {
            Some(states) => Ok(Some(Line::Expr {
                id,
                expr: Expr::States(states),
            })),
            None => Ok(None),
        },
    }
}

/// The line behind its head.
fn line_by(
    alloc: Global,
    tokens: &mut Vec<Token>,
    head: &LineHead<'_>,
) -> Result<Option<Line>, AllocError>
    ensures { IfOk result (λ found. MatchOption found
        ((line : Line) → StandFor (λ ts. LineForm head.now.letter head.now.id head.now.kind ts line)
        (fields_behind head.now.rest (λ f. f.now)) → ⊥)
        (λ line. StandFor (λ ts. LineForm head.now.letter head.now.id head.now.kind ts line)
        (fields_behind head.now.rest (λ f. f.now)))) }
{
    if let Letter::K = head.letter {
        return Ok(known_of(head.id, head.kind, head.rest));
    }
    if let Some(listed) = token_rows::listed_by(head.letter, head.kind) {
        return listed_line(alloc, listed, head.id, head.rest);
    }
    if tokens_in(tokens, head.rest)? {
        Ok(plain_line(head.letter, head.id, head.kind, tokens))
    } else {
        Ok(None)
    }
}

/// The line of these bytes, in the memory for tokens.
pub(crate) fn line_of(
    alloc: Global,
    tokens: &mut Vec<Token>,
    bytes: &[u8],
) -> Result<Option<Line>, AllocError>
    ensures { IfOk result (λ found. MatchOption found
        ((line : Line) → Spells line bytes.now → ⊥)
        (λ line. Spells line bytes.now)) }
{
    match token_rows::head_of(bytes) {
        Some(head) => line_by(alloc, tokens, &head),
        None => Ok(None),
    }
}

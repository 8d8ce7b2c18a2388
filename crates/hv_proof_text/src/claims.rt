//! Claims, read from their fields: most lines of a long proof are such, so their tokens aren't
//! gathered first.

ghost use Rattle.std.specs.Prelude.{◌≡◌, ◌<◌, ◌≤◌, ◌^◌, ℕ, List, [], ◌∷◌, MatchOption, decimal};
ghost use Rattle.std.specs.Prelude.{length, map};
ghost use Rattle.hv_bytes.specs.Working.Fields.{fields_behind};
ghost use Rattle.hv_lines.specs.declared.line.Line.{Line};
ghost use Rattle.hv_lines.specs.declared.line.Statement.{Statement};
ghost use Rattle.hv_lines.specs.declared.line.Word.{Word};
ghost use Rattle.hv_proof_text.specs.Working.Forms.{ClaimForm, LineForm, ReadsClaim, SupportForm};
ghost use Rattle.hv_proof_text.specs.Working.Gathering.{StandFor};
ghost use Rattle.hv_proof_text.specs.Working.Tokens.{AreTokens, number};
ghost use Rattle.hv_proof_text.specs.declared.token.Letter.{Letter};
ghost use Rattle.hv_proof_text.specs.declared.token.Token.{Token};

use crate::fields::{first_number, first_word};
use crate::token::Letter;
use hv_lines::{Line, Premises, Statement, Word};

/// Two numbers, and what follows them.
#[derive(Drop)]
struct TwoFirst<'a> {
    left: u64,
    right: u64,
    rest: Option<&'a [u8]>,
}

/// The first two numbers.
#[inline(always)]
fn two_first(fields: Option<&[u8]>) -> Option<TwoFirst<'_>>
    ensures { MatchOption result
        ((m n : ℕ) (tokens : List Token) → AreTokens (number m ∷ number n ∷ tokens)
        (fields_behind fields.entry (λ f. f.now)) → ⊥)
        (λ first. (first.left < 10 ^ 18) × (first.right < 10 ^ 18)
        × (fields_behind fields.entry (λ f. f.now)
        ≡ decimal first.left ∷ decimal first.right ∷ fields_behind first.rest (λ f. f.now))) }
{
    let Some((left, behind)) = first_number(fields) else {
        return None;
    };
    let Some((right, rest)) = first_number(behind) else {
        return None;
    };
    Some(TwoFirst { left, right, rest })
}

/// A statement, and what follows it.
#[derive(Drop)]
struct Claim<'a> {
    statement: Statement,
    rest: Option<&'a [u8]>,
}

/// The statement behind its letter.
#[inline(always)]
fn claim_of(kind: Letter, fields: Option<&[u8]>) -> Option<Claim<'_>>
    ensures { MatchOption result
        ((statement : Statement) (rest tokens : List Token)
        → AreTokens tokens (fields_behind fields.entry (λ f. f.now))
        → ClaimForm kind tokens statement rest → ⊥)
        (λ claim. ReadsClaim kind (fields_behind fields.entry (λ f. f.now)) claim.statement
        (fields_behind claim.rest (λ f. f.now))) }
{
    match kind {
        Letter::S => match two_first(fields) {
            Some(first) => Some(Claim {
                statement: Statement::Sub(first.left as usize, first.right as usize),
                rest: first.rest,
            }),
            None => None,
        },
        Letter::A => match two_first(fields) {
            Some(first) => Some(Claim {
                statement: Statement::ActSub(first.left as usize, first.right as usize),
                rest: first.rest,
            }),
            None => None,
        },
        Letter::D => match first_number(fields) {
            Some((set, rest)) => Some(Claim {
                statement: Statement::Dead(set as usize),
                rest,
            }),
            None => None,
        },
        Letter::U => Some(Claim {
            statement: Statement::Unsolvable,
            rest: fields,
        }),
        _ => None,
    }
}

/// A number, and nothing more.
#[inline(always)]
fn last_number(fields: Option<&[u8]>) -> Option<usize>
    ensures { MatchOption result
        ((n : ℕ) → AreTokens (number n ∷ []) (fields_behind fields.entry (λ f. f.now)) → ⊥)
        (λ n. AreTokens (number n ∷ []) (fields_behind fields.entry (λ f. f.now))) }
{
    match first_number(fields) {
        Some((number, None)) => Some(number as usize),
        Some((_, Some(_))) => None,
        None => None,
    }
}

/// Nothing.
#[inline(always)]
fn no_premises(fields: Option<&[u8]>) -> Option<Premises>
    ensures { MatchOption result
        (AreTokens [] (fields_behind fields.entry (λ f. f.now)) → ⊥)
        (λ premises. (premises ≡ []) × AreTokens [] (fields_behind fields.entry (λ f. f.now))) }
{
    match fields {
        None => Some(Premises::none()),
        Some(_) => None,
    }
}

/// One premise.
#[inline(always)]
fn one_premise(fields: Option<&[u8]>) -> Option<Premises>
    ensures { MatchOption result
        ((n : ℕ) → AreTokens (number n ∷ []) (fields_behind fields.entry (λ f. f.now)) → ⊥)
        (λ premises. (length premises ≡ 1)
        × AreTokens (map number premises) (fields_behind fields.entry (λ f. f.now))) }
{
    match last_number(fields) {
        Some(first) => Some(Premises::one(first)),
        None => None,
    }
}

/// Two premises.
#[inline(always)]
fn two_premises(fields: Option<&[u8]>) -> Option<Premises>
    ensures { MatchOption result
        ((m n : ℕ) → AreTokens (number m ∷ number n ∷ [])
        (fields_behind fields.entry (λ f. f.now)) → ⊥)
        (λ premises. (length premises ≡ 2)
        × AreTokens (map number premises) (fields_behind fields.entry (λ f. f.now))) }
{
    let Some((first, behind)) = first_number(fields) else {
        return None;
    };
    let Some(second) = last_number(behind) else {
        return None;
    };
    Some(Premises::two(first as usize, second))
}

/// Three premises.
#[inline(always)]
fn three_premises(fields: Option<&[u8]>) -> Option<Premises>
    ensures { MatchOption result
        ((l m n : ℕ) → AreTokens (number l ∷ number m ∷ number n ∷ [])
        (fields_behind fields.entry (λ f. f.now)) → ⊥)
        (λ premises. (length premises ≡ 3)
        × AreTokens (map number premises) (fields_behind fields.entry (λ f. f.now))) }
{
    let Some(first) = two_first(fields) else {
        return None;
    };
    let Some(third) = last_number(first.rest) else {
        return None;
    };
    Some(Premises::three(first.left as usize, first.right as usize, third))
}

/// So many premises, of at most three, and nothing more.
#[inline(always)]
fn premises_in(count: usize, fields: Option<&[u8]>) -> Option<Premises>
    requires { count ≤ 3 }
    ensures { MatchOption result
        ((premises : List ℕ) → length premises ≡ count
        → AreTokens (map number premises) (fields_behind fields.entry (λ f. f.now)) → ⊥)
        (λ premises. (length premises ≡ count)
        × AreTokens (map number premises) (fields_behind fields.entry (λ f. f.now))) }
{
    match count {
        0 => no_premises(fields),
        1 => one_premise(fields),
        2 => two_premises(fields),
        _ => three_premises(fields),
    }
}

/// A word and its premises.
#[derive(Drop)]
struct Support {
    word: Word,
    premises: Premises,
}

/// The word behind a statement, with as many premises as it has there.
#[inline(always)]
fn support_of(statement: &Statement, fields: Option<&[u8]>) -> Option<Support>
    ensures { MatchOption result
        ((word : Word) (premises : List ℕ)
        → StandFor (λ ts. SupportForm statement.now ts word premises)
        (fields_behind fields.entry (λ f. f.now)) → ⊥)
        (λ support. StandFor (λ ts. SupportForm statement.now ts support.word support.premises)
        (fields_behind fields.entry (λ f. f.now))) }
{
    let Some((word, behind)) = first_word(fields) else {
        return None;
    };
    let Some(count) = word.premises_after(statement) else {
        return None;
    };
    let Some(premises) = premises_in(count, behind) else {
        return None;
    };
    Some(Support { word, premises })
}

/// The claim behind its identifier.
pub(crate) fn known_of(id: usize, kind: Letter, fields: Option<&[u8]>) -> Option<Line>
    ensures { MatchOption result
        ((line : Line) → StandFor (λ ts. LineForm Letter.K id kind ts line)
        (fields_behind fields.entry (λ f. f.now)) → ⊥)
        (λ line. StandFor (λ ts. LineForm Letter.K id kind ts line)
        (fields_behind fields.entry (λ f. f.now))) }
{
    let Some(claim) = claim_of(kind, fields) else {
        return None;
    };
    let Some(support) = support_of(&claim.statement, claim.rest) else {
        return None;
    };
    Some(Line::Known {
        id,
        statement: claim.statement,
        word: support.word,
        premises: support.premises,
    })
}

//! The head of a line, and short rows of tokens: numbers, a constant.

ghost use Rattle.std.specs.Prelude.{◌≡◌, ◌<◌, ◌^◌, ℕ, List, [], ◌∷◌, MatchOption, decimal};
ghost use Rattle.hv_bytes.specs.Fields.{cut_fields};
ghost use Rattle.hv_bytes.specs.Working.Fields.{fields_behind};
ghost use Rattle.hv_lines.specs.Spelling.{FitsShortDecimal};
ghost use Rattle.hv_lines.specs.declared.line.Constant.{Constant};
ghost use Rattle.hv_proof_text.specs.Working.Heads.{listed_by};
ghost use Rattle.hv_proof_text.specs.Working.Tokens.{AreTokens, constant_letter, letter};
ghost use Rattle.hv_proof_text.specs.Working.Tokens.{letter_field, number};
ghost use Rattle.hv_proof_text.specs.declared.token.Letter.{Letter};
ghost use Rattle.hv_proof_text.specs.declared.token.Token.{Token};

use crate::fields::{first_letter, first_number};
use crate::token::{Letter, Token};
use hv_lines::Constant;

/// The least number that isn't a short decimal.
pub(crate) const NOT_SHORT: u64 = 1_000_000_000;

/// What the first three fields of a line denote, and what follows them.
#[derive(Drop)]
pub(crate) struct LineHead<'a> {
    pub(crate) letter: Letter,
    pub(crate) id: usize,
    pub(crate) kind: Letter,
    pub(crate) rest: Option<&'a [u8]>,
}

/// The head of a line.
pub(crate) fn head_of(line: &[u8]) -> Option<LineHead<'_>>
    ensures { MatchOption result
        ((first : Letter) (id : ℕ) (kind : Letter) (tokens : List Token)
        → AreTokens (letter first ∷ number id ∷ letter kind ∷ tokens) (cut_fields line.now) → ⊥)
        (λ head. (head.id < 10 ^ 18) × (cut_fields line.now ≡ letter_field head.letter
        ∷ decimal head.id ∷ letter_field head.kind ∷ fields_behind head.rest (λ f. f.now))) }
{
    let Some((letter, behind)) = first_letter(Some(line)) else {
        return None;
    };
    let Some((id, behind)) = first_number(behind) else {
        return None;
    };
    let Some((kind, rest)) = first_letter(behind) else {
        return None;
    };
    Some(LineHead {
        letter,
        id: id as usize,
        kind,
        rest,
    })
}

/// The lists that a line may have.
#[derive(Clone, Copy)]
pub(crate) enum ListKind {
    /// Actions.
    Actions,
    /// Clauses of a Horn formula.
    Horn,
    /// Clauses of a dual Horn formula.
    Dual,
    /// Clauses of a 2CNF formula.
    Two,
    /// States.
    States,
}

/// The list behind a head of these letters, if there is one.
pub(crate) fn listed_by(letter: Letter, kind: Letter) -> Option<ListKind>
    ensures { result ≡ listed_by letter kind }
{
    match letter {
        Letter::A => match kind {
            Letter::B => Some(ListKind::Actions),
            _ => None,
        },
        Letter::E => match kind {
            Letter::H => Some(ListKind::Horn),
            Letter::D => Some(ListKind::Dual),
            Letter::T => Some(ListKind::Two),
            Letter::X => Some(ListKind::States),
            _ => None,
        },
        _ => None,
    }
}

/// One number, and nothing more.
pub(crate) fn one_number(tokens: &[Token]) -> Option<usize>
    ensures { MatchOption result
        ((n : ℕ) → tokens.now ≡ number n ∷ [] → ⊥)
        (λ n. tokens.now ≡ number n ∷ []) }
{
    match tokens {
        [Token::Number(number)] => Some(*number as usize),
        _ => None,
    }
}

/// One short decimal, and nothing more.
pub(crate) fn one_short_number(tokens: &[Token]) -> Option<u32>
    ensures { MatchOption result
        ((n : ℕ) → tokens.now ≡ number n ∷ [] → FitsShortDecimal n → ⊥)
        (λ n. (tokens.now ≡ number n ∷ []) × FitsShortDecimal n) }
{
    match one_number(tokens) {
        Some(number) if (number as u64) < NOT_SHORT => Some(number as u32),
        _ => None,
    }
}

/// Two numbers, and nothing more.
pub(crate) fn two_numbers(tokens: &[Token]) -> Option<(usize, usize)>
    ensures { MatchOption result
        ((m n : ℕ) → tokens.now ≡ number m ∷ number n ∷ [] → ⊥)
        (λ p. tokens.now ≡ number p.0 ∷ number p.1 ∷ []) }
{
    match tokens {
        [Token::Number(first), Token::Number(second)] => {
            Some((*first as usize, *second as usize))
        }
        _ => None,
    }
}

/// The letter of a constant, and nothing more.
pub(crate) fn constant_of(tokens: &[Token]) -> Option<Constant>
    ensures { MatchOption result
        ((constant : Constant) → tokens.now ≡ letter (constant_letter constant) ∷ [] → ⊥)
        (λ constant. tokens.now ≡ letter (constant_letter constant) ∷ []) }
{
    match tokens {
        [Token::Letter(Letter::E)] => Some(Constant::Empty),
        [Token::Letter(Letter::I)] => Some(Constant::Start),
        [Token::Letter(Letter::G)] => Some(Constant::Goal),
        _ => None,
    }
}

//! The fields of a line, one after the other, and the tokens that they denote.
//!
//! A number is read in one pass, over its digits up to the space behind them, and a letter or a
//! word, of one byte or two, by the bytes that the line begins with: no space is looked for.

ghost use Rattle.std.specs.Prelude.{◌≡◌, ◌<◌, ◌≤◌, ◌^◌, ℕ, ◌∷◌, true, false, decimal, length, List};
ghost use Rattle.std.specs.Prelude.{MatchOption, Ok, [], codes};
ghost use Rattle.hv_bytes.specs.Fields.{cut_fields};
ghost use Rattle.hv_bytes.specs.Working.Fields.{fields_behind};
ghost use Rattle.hv_lines.specs.Spelling.{word_field};
ghost use Rattle.hv_lines.specs.declared.line.Word.{Word};
ghost use Rattle.hv_proof_text.specs.Working.Tokens.{AreTokens, IsNameToken, IsToken, field_of};
ghost use Rattle.hv_proof_text.specs.Working.Tokens.{letter, letter_field, number};
ghost use Rattle.hv_proof_text.specs.declared.token.Letter.{Letter};
ghost use Rattle.hv_proof_text.specs.declared.token.Token.{Token};
ghost use Rattle.hv_proof_text.specs.declared.token.Token.TheVariants as T;

use crate::token::{Letter, Token, letter_of};
use hv_bytes::decimal_front;
use hv_lines::Word;
use std::alloc::AllocError;

/// The letter of the first field, and what follows that.
#[inline(always)]
pub(crate) fn first_letter(fields: Option<&[u8]>) -> Option<(Letter, Option<&[u8]>)>
    ensures { MatchOption result
        ((first : Letter) (tokens : List Token) → AreTokens (letter first ∷ tokens)
        (fields_behind fields.entry (λ f. f.now)) → ⊥)
        (λ p. fields_behind fields.entry (λ f. f.now)
        ≡ letter_field p.0 ∷ fields_behind p.1 (λ f. f.now)) }
{
    let Some(line) = fields else {
        return None;
    };
    letter_front(line)
}

/// The number of the first field, and what follows that.
#[inline(always)]
pub(crate) fn first_number(fields: Option<&[u8]>) -> Option<(u64, Option<&[u8]>)>
    ensures { MatchOption result
        ((n : ℕ) (tokens : List Token) → AreTokens (number n ∷ tokens)
        (fields_behind fields.entry (λ f. f.now)) → ⊥)
        (λ p. (p.0 < 10 ^ 18) × (fields_behind fields.entry (λ f. f.now)
        ≡ decimal p.0 ∷ fields_behind p.1 (λ f. f.now))) }
{
    let Some(line) = fields else {
        return None;
    };
    decimal_front(line)
}

/// The word of the first field, and what follows that.
#[inline(always)]
pub(crate) fn first_word(fields: Option<&[u8]>) -> Option<(Word, Option<&[u8]>)>
    ensures { MatchOption result
        ((word : Word) (tokens : List Token) → AreTokens (T.Word word ∷ tokens)
        (fields_behind fields.entry (λ f. f.now)) → ⊥)
        (λ p. fields_behind fields.entry (λ f. f.now)
        ≡ word_field p.0 ∷ fields_behind p.1 (λ f. f.now)) }
{
    let Some(line) = fields else {
        return None;
    };
    let Some((first, second, behind)) = pair_front(line) else {
        return None;
    };
    let Some(word) = Word::spelled(&[first, second]) else {
        return None;
    };
    Some((word, behind))
}

/// The token of the first field, and what follows that.
#[inline(always)]
pub(crate) fn token_front(line: &[u8]) -> Option<(Token, Option<&[u8]>)>
    ensures { MatchOption result
        ((token : Token) (later : List (List ℕ)) → IsToken token
        → cut_fields line.now ≡ field_of token ∷ later → ⊥)
        (λ p. IsToken p.0
        × (cut_fields line.now ≡ field_of p.0 ∷ fields_behind p.1 (λ f. f.now))) }
{
    if let Some((number, behind)) = minus_front(line) {
        return Some((Token::Minus(number), behind));
    }
    if let Some(behind) = end_front(line) {
        return Some((Token::End, behind));
    }
    if let Some((number, behind)) = decimal_front(line) {
        return Some((Token::Number(number), behind));
    }
    let Some((name, behind)) = name_front(line) else {
        return None;
    };
    Some((name, behind))
}

/// The letter or the word that the first field is, and what follows that.
#[inline(always)]
fn name_front(line: &[u8]) -> Option<(Token, Option<&[u8]>)>
    ensures { MatchOption result
        ((token : Token) (later : List (List ℕ)) → IsNameToken token
        → cut_fields line.now ≡ field_of token ∷ later → ⊥)
        (λ p. IsNameToken p.0
        × (cut_fields line.now ≡ field_of p.0 ∷ fields_behind p.1 (λ f. f.now))) }
{
    if let Some((letter, behind)) = letter_front(line) {
        return Some((Token::Letter(letter), behind));
    }
    let Some((first, second, behind)) = pair_front(line) else {
        return None;
    };
    let Some(word) = Word::spelled(&[first, second]) else {
        return None;
    };
    Some((Token::Word(word), behind))
}

/// The letter that the first field is, and what follows that.
#[inline(always)]
fn letter_front(line: &[u8]) -> Option<(Letter, Option<&[u8]>)>
    ensures { MatchOption result
        ((letter : Letter) (later : List (List ℕ))
        → cut_fields line.now ≡ letter_field letter ∷ later → ⊥)
        (λ p. cut_fields line.now ≡ letter_field p.0 ∷ fields_behind p.1 (λ f. f.now)) }
{
    match line {
        [byte] => with_letter(*byte, None),
        [byte, b' ', rest @ ..] => with_letter(*byte, Some(rest)),
        _ => None,
    }
}

/// The letter of this byte, and what follows it.
#[inline(always)]
fn with_letter(byte: u8, behind: Option<&[u8]>) -> Option<(Letter, Option<&[u8]>)>
    ensures { MatchOption result
        ((letter : Letter) → letter_field letter ≡ byte ∷ [] → ⊥)
        (λ p. (letter_field p.0 ≡ byte ∷ []) × (p.1 ≡ behind.entry)) }
{
    let Some(letter) = letter_of(byte) else {
        return None;
    };
    Some((letter, behind))
}

/// The two bytes that the first field is, and what follows that.
#[inline(always)]
fn pair_front(line: &[u8]) -> Option<(u8, u8, Option<&[u8]>)>
    ensures { MatchOption result
        ((first second : ℕ) (later : List (List ℕ))
        → cut_fields line.now ≡ (first ∷ second ∷ []) ∷ later → ⊥)
        (λ p. cut_fields line.now ≡ (p.0 ∷ p.1 ∷ []) ∷ fields_behind p.2 (λ f. f.now)) }
{
    match line {
        [b' ', ..] | [_, b' ', ..] => None,
        [first, second] => Some((*first, *second, None)),
        [first, second, b' ', rest @ ..] => Some((*first, *second, Some(rest))),
        _ => None,
    }
}

/// The number behind the dash of the first field, and what follows that field.
#[inline(always)]
fn minus_front(line: &[u8]) -> Option<(u64, Option<&[u8]>)>
    ensures { MatchOption result
        ((n : ℕ) (later : List (List ℕ)) → n < 10 ^ 18
        → cut_fields line.now ≡ (45 ∷ decimal n) ∷ later → ⊥)
        (λ p. (p.0 < 10 ^ 18)
        × (cut_fields line.now ≡ (45 ∷ decimal p.0) ∷ fields_behind p.1 (λ f. f.now))) }
{
    match line {
        [b'-', digits @ ..] => {
            let Some((number, behind)) = decimal_front(digits) else {
                return None;
            };
            Some((number, behind))
        }
        _ => None,
    }
}

/// What follows the first field, where that is `;`.
fn end_front(line: &[u8]) -> Option<Option<&[u8]>>
    ensures { MatchOption result
        ((later : List (List ℕ)) → cut_fields line.now ≡ codes ";" ∷ later → ⊥)
        (λ behind. cut_fields line.now ≡ codes ";" ∷ fields_behind behind (λ f. f.now)) }
{
    match line {
        [b';'] => Some(None),
        [b';', b' ', rest @ ..] => Some(Some(rest)),
        _ => None,
    }
}

/// The most tokens that a line of a set has behind its head, where nothing is listed there.
const MOST_TOKENS: usize = 2;

/// Puts the tokens of the fields in place of what was there, and says whether each field is one and
/// there are two at most: no field behind these is read.
pub(crate) fn tokens_in(tokens: &mut Vec<Token>, fields: Option<&[u8]>) -> Result<bool, AllocError>
    ensures some { result ≡ Ok true
        → AreTokens tokens.new.items (fields_behind fields.entry (λ f. f.now)) }
    ensures none { result ≡ Ok false → (others : List Token) → length others ≤ 2
        → AreTokens others (fields_behind fields.entry (λ f. f.now)) → ⊥ }
{
    tokens.clear();
    let mut rest = fields;
    'fields: loop {
        let Some(line) = rest else {
            return Ok(true);
        };
        if tokens.len() == MOST_TOKENS {
            return Ok(false);
        }
        let Some((token, behind)) = token_front(line) else {
            return Ok(false);
        };
        tokens.push(token)?;
        rest = behind;
    }
}

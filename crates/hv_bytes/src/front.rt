//! The decimal that a line begins with, read in one pass: its digits end where its field does, so
//! no space is looked for first. Proof lines and node files are read by it. A number of few digits
//! has a way of its own.

ghost use Rattle.std.specs.Prelude.{◌≡◌, ℕ, ◌+◌, ◌<◌, ◌≤◌, ◌^◌, List, [], ◌∷◌, length};
ghost use Rattle.std.specs.Prelude.{take, codes, decimal, IfNone, IfSome, MatchOption};
ghost use Rattle.std.specs.Str.Parse.{AllDigits, digits_value};
ghost use Rattle.hv_bytes.specs.Fields.{cut_fields};
ghost use Rattle.hv_bytes.specs.Working.Fronts.{IsDigitFront, SpellsFront};

use crate::spelling::{MAX_DIGITS, has_decimal_shape};

/// The digits that the bytes begin with, 18 of them at most: the number that they spell, and how
/// many they are.
#[derive(Clone, Copy)]
struct DigitFront {
    number: u64,
    count: usize,
}

/// The first digits of the bytes.
#[cold]
#[inline(never)]
fn digit_front(bytes: &[u8]) -> DigitFront
    ensures front { IsDigitFront bytes.now result.count }
    ensures number { result.number ≡ digits_value 10 (take result.count bytes.now) }
{
    let most = bytes.len().min(MAX_DIGITS);
    let mut number = 0;
    for count in 0..most {
        let digit = bytes[count];
        if !digit.is_ascii_digit() {
            return DigitFront { number, count };
        }
        number = number * 10 + u64::from(digit - b'0');
    }
    DigitFront {
        number,
        count: most,
    }
}

/// What `digit_of` gives for a space.
const SPACE: u32 = 4_294_967_280;

/// The digit that a byte spells; more than 9 where it spells none.
#[inline(always)]
fn digit_of(byte: u8) -> u32
    ensures digit { result ≤ 9 → result + 48 ≡ byte }
    ensures space { result ≡ 4294967280 → byte ≡ 32 }
{
    u32::from(byte).wrapping_sub(48)
}

/// The field `0` that a line begins with, and what comes after the space behind it.
#[inline(always)]
fn zero_front(line: &[u8]) -> Option<Option<&[u8]>>
    ensures fields { IfSome result (λ behind. MatchOption behind
        (cut_fields line.now ≡ codes "0" ∷ [])
        (λ rest. cut_fields line.now ≡ codes "0" ∷ cut_fields rest.now)) }
    ensures shorter { IfSome result (λ behind.
        IfSome behind (λ rest. length rest.now < length line.now)) }
{
    match line {
        [b'0'] => Some(None),
        [b'0', b' ', rest @ ..] => Some(Some(rest)),
        _ => None,
    }
}

/// The number in the first field of a line that begins with this digit, and what comes after the
/// space behind it, where the number has at most 7 digits.
#[inline(always)]
fn tight_front(line: &[u8], first: u32) -> Option<(u32, Option<&[u8]>)>
    requires { SpellsFront line.now 1 first }
    ensures fields { IfSome result (λ p. MatchOption p.1
        (cut_fields line.now ≡ decimal p.0 ∷ [])
        (λ rest. cut_fields line.now ≡ decimal p.0 ∷ cut_fields rest.now)) }
    ensures shorter { IfSome result (λ p.
        IfSome p.1 (λ rest. length rest.now < length line.now)) }
{
    let mut number = first;
    for count in 1..8 {
        if count == line.len() {
            return Some((number, None));
        }
        let digit = digit_of(line[count]);
        if digit > 9 {
            if digit != SPACE {
                return None;
            }
            return Some((number, Some(&line[count + 1..])));
        }
        number = number * 10 + digit;
    }
    None
}

/// The same of a line of 8 bytes and more, whose end isn't asked for.
#[inline(always)]
fn wide_front(line: &[u8], first: u32) -> Option<(u32, Option<&[u8]>)>
    requires spelled { SpellsFront line.now 1 first }
    requires wide { 8 ≤ length line.now }
    ensures fields { IfSome result (λ p. MatchOption p.1
        (cut_fields line.now ≡ decimal p.0 ∷ [])
        (λ rest. cut_fields line.now ≡ decimal p.0 ∷ cut_fields rest.now)) }
    ensures shorter { IfSome result (λ p.
        IfSome p.1 (λ rest. length rest.now < length line.now)) }
{
    let mut number = first;
    for count in 1..8 {
        let digit = digit_of(line[count]);
        if digit > 9 {
            if digit != SPACE {
                return None;
            }
            return Some((number, Some(&line[count + 1..])));
        }
        number = number * 10 + digit;
    }
    None
}

/// The number in the first field of a line, and what comes after the space behind it: a quick way
/// for a number of at most 7 digits, whose loops are unrolled. Elsewhere it may give nothing.
#[inline(always)]
fn short_front(line: &[u8]) -> Option<(u32, Option<&[u8]>)>
    ensures fields { IfSome result (λ p. MatchOption p.1
        (cut_fields line.now ≡ decimal p.0 ∷ [])
        (λ rest. cut_fields line.now ≡ decimal p.0 ∷ cut_fields rest.now)) }
    ensures shorter { IfSome result (λ p.
        IfSome p.1 (λ rest. length rest.now < length line.now)) }
{
    if line.is_empty() {
        return None;
    }
    let first = digit_of(line[0]);
    if first > 9 {
        return None;
    }
    if first == 0 {
        return match zero_front(line) {
            Some(behind) => Some((0, behind)),
            None => None,
        };
    }
    if line.len() < 8 {
        tight_front(line, first)
    } else {
        wide_front(line, first)
    }
}

/// The number in the first field of a line, where that is a decimal of at most 18 digits, and what
/// comes after the space behind it: nothing where the field is the last one.
#[inline(always)]
pub fn decimal_front(line: &[u8]) -> Option<(u64, Option<&[u8]>)>
    ensures number { IfSome result (λ p. p.0 < 10 ^ 18) }
    ensures fields { IfSome result (λ p. MatchOption p.1
        (cut_fields line.now ≡ decimal p.0 ∷ [])
        (λ rest. cut_fields line.now ≡ decimal p.0 ∷ cut_fields rest.now)) }
    ensures none { IfNone result ((n : ℕ) (later : List (List ℕ)) → n < 10 ^ 18
        → cut_fields line.now ≡ decimal n ∷ later → ⊥) }
    ensures shorter { IfSome result (λ p.
        IfSome p.1 (λ rest. length rest.now < length line.now)) }
{
    if let Some((number, behind)) = short_front(line) {
        return Some((u64::from(number), behind));
    }
    let front = digit_front(line);
    if !has_decimal_shape(&line[..front.count]) {
        return None;
    }
    if front.count == line.len() {
        return Some((front.number, None));
    }
    if line[front.count] != b' ' {
        return None;
    }
    Some((front.number, Some(&line[front.count + 1..])))
}

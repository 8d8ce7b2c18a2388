//! The numbers in the lines of a node file. They are tested as they are, up to 18 digits, and only
//! those of a listed node become 32 bits.

ghost use Rattle.std.specs.Prelude.{◌≡◌, ℕ, ◌+◌, ◌<◌, ◌≤◌, ◌^◌, List, [], ◌∷◌, decimal, length};
ghost use Rattle.std.specs.Prelude.{◌*◌, ◌≢◌, IfNone, IfSome, MatchOption, slice_index};
ghost use Rattle.hv_bytes.specs.Fields.{cut_fields};
ghost use Rattle.hv_bdd.specs.NodeFile.{node_of_fields};
ghost use Rattle.hv_bdd.specs.Working.Digits.{AreDigits, SpellsNumber};
ghost use Rattle.hv_bdd.specs.Working.NodeText.{node_of};

use hv_bytes::decimal_front;

/// The three numbers of a line.
#[derive(Clone, Copy)]
pub struct Triple {
    pub atom: u64,
    pub low: u64,
    pub high: u64,
}

// What stands in the table of digits for a byte that spells none: so a number with one of them is
// no smaller, and no digit is tested by itself.
const NO_DIGIT: u64 = 1 << 32;

/// For each byte the digit that it spells, or more than 32 bits; and behind them for each byte ten
/// times the digit.
pub(crate) fn digit_table() -> [u64; 512]
    ensures { AreDigits result }
{
    let mut digits = [NO_DIGIT; 512];
    for digit in 0..10 {
        digits[48 + digit] = digit as u64;
        digits[304 + digit] = digit as u64 * 10;
    }
    digits
}

// The number with the next byte behind its digits.
#[inline(always)]
fn with_digit(digits: &[u64; 512], line: &[u8], count: usize, number: u64) -> u64
    requires digits { AreDigits digits.now }
    requires count { count < length line.now }
    requires number { number ≤ 202 * 2 ^ 32 }
    ensures most { result ≤ number * 10 + 2 ^ 32 }
    ensures spelled { result < 2 ^ 32 → (number < 2 ^ 32)
        × (SpellsNumber line.now count number → SpellsNumber line.now (count + 1) result) }
{
    number * 10 + digits[line[count] as usize]
}

// The number with the next two bytes behind its digits.
#[inline(always)]
fn with_pair(digits: &[u64; 512], line: &[u8], count: usize, number: u64) -> u64
    requires digits { AreDigits digits.now }
    requires count { count + 1 < length line.now }
    requires number { number ≤ 2 * 2 ^ 32 }
    ensures most { result ≤ number * 100 + 2 * 2 ^ 32 }
    ensures spelled { result < 2 ^ 32 → (number < 2 ^ 32)
        × (SpellsNumber line.now count number → SpellsNumber line.now (count + 2) result) }
{
    number * 100 + digits[256 + line[count] as usize] + digits[line[count + 1] as usize]
}

// The number that the first four bytes spell.
#[inline(always)]
fn four_digits(digits: &[u64; 512], line: &[u8]) -> u64
    requires digits { AreDigits digits.now }
    requires room { 8 ≤ length line.now }
    requires plain { slice_index line.now 0 ≢ 48 }
    ensures most { result ≤ 202 * 2 ^ 32 }
    ensures spelled { result < 2 ^ 32 → SpellsNumber line.now 4 result }
{
    let first = with_pair(digits, line, 0, 0);
    with_pair(digits, line, 2, first)
}

/// The number below a bound in the first field of a line of 8 bytes or more, and what follows: a
/// quick way for a number of four or five digits. Elsewhere it may give nothing.
#[inline(always)]
pub(crate) fn long_front<'a>(
    digits: &[u64; 512],
    line: &'a [u8],
    bound: usize,
) -> Option<(usize, &'a [u8])>
    requires digits { AreDigits digits.now }
    requires room { 8 ≤ length line.now }
    requires bound { bound ≤ 2 ^ 32 }
    ensures number { IfSome result (λ p. p.0 < bound) }
    ensures fields { IfSome result (λ p.
        cut_fields line.now ≡ decimal p.0 ∷ cut_fields p.1.now) }
    ensures rest { IfSome result (λ p. length line.now ≤ length p.1.now + 8) }
{
    if line[0] == b'0' {
        return None;
    }
    let four = four_digits(digits, line);
    if line[4] == b' ' {
        if four < bound as u64 {
            return Some((four as usize, &line[5..]));
        }
        return None;
    }
    let five = with_digit(digits, line, 4, four);
    if line[5] == b' ' && five < bound as u64 {
        return Some((five as usize, &line[6..]));
    }
    None
}

/// The three decimals of a line.
pub fn triple_of(line: &[u8]) -> Option<Triple>
    ensures { node_of result ≡ node_of_fields (cut_fields line.now) }
{
    let (atom, behind) = decimal_front(line)?;
    let (low, behind) = decimal_front(behind?)?;
    let (high, behind) = decimal_front(behind?)?;
    match behind {
        Some(_) => None,
        None => Some(Triple { atom, low, high }),
    }
}

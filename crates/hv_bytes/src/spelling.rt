//! Texts that grow at their end, and decimals.

ghost use Rattle.std.specs.Prelude.{◌≡◌, ℕ, ◌≤◌, ◌++◌, [], ◌↔◌, length, take, IsTrue, OnOk, OnErr};
ghost use Rattle.std.specs.Prelude.{IfSome, IfNone, decimal};
ghost use Rattle.std.specs.Str.Parse.{AllDigits, digits_value};
ghost use Rattle.hv_bytes.specs.Decimals.{IsDecimal, IsShortDecimal};
ghost use Rattle.hv_bytes.specs.Working.Decimals.{HasDecimalShape};

use itoa::Buffer;
use std::alloc::{AllocError, Global};
use std::marker::Model;

/// A text that grows at its end.
#[derive(Drop)]
pub struct Text {
    bytes: Vec<u8>,
}

impl Model for Text {
    ghost use Rattle.std.specs.Prelude.{ℕ, List};

    ghost Value = { List ℕ };

    ghost view = { λ t. t.bytes.items };
}

impl Text {
    /// An empty text.
    pub fn new(alloc: Global) -> Text
        ensures { result ≡ [] }
    {
        Text {
            bytes: Vec::new(alloc),
        }
    }

    /// Appends the bytes.
    pub fn push_bytes(&mut self, bytes: &[u8]) -> Result<(), AllocError>
        ensures ok { OnOk result (self.new ≡ self.old ++ bytes.now) }
        ensures err { OnErr result (self.new ≡ self.old) }
    {
        self.bytes.extend_from_slice(bytes)
    }

    /// Appends the decimal of the number.
    pub fn push_number(&mut self, number: u64) -> Result<(), AllocError>
        ensures ok { OnOk result (self.new ≡ self.old ++ decimal number) }
        ensures err { OnErr result (self.new ≡ self.old) }
    {
        let mut buffer = Buffer::new();
        self.bytes
            .extend_from_slice(buffer.format(number).as_bytes())
    }

    /// How many bytes it has.
    pub fn len(&self) -> usize
        ensures { result ≡ length self.now }
    {
        self.bytes.len()
    }

    /// Keeps the first `count` bytes alone.
    pub fn truncate(&mut self, count: usize)
        requires { count ≤ length self.old }
        ensures { self.new ≡ take count self.old }
    {
        self.bytes.truncate(count);
    }

    /// The bytes of the text.
    pub fn as_bytes(&self) -> &[u8]
        ensures { result.now ≡ self.now }
    {
        self.bytes.as_slice()
    }
}

/// The most digits of a decimal.
pub(crate) const MAX_DIGITS: usize = 18;

/// The number that the digits spell, leading zeros included, where each byte is a digit.
fn digits_number(digits: &[u8]) -> Option<u64>
    requires { length digits.now ≤ 18 }
    ensures some { IfSome result (λ n. AllDigits 10 digits.now × (n ≡ digits_value 10 digits.now)) }
    ensures none { IfNone result (AllDigits 10 digits.now → ⊥) }
{
    let mut number = 0;
    for digit in digits {
        if !digit.is_ascii_digit() {
            return None;
        }
        number = number * 10 + u64::from(*digit - b'0');
    }
    Some(number)
}

/// Whether the bytes are as many as a decimal may have, and no zero is before others.
pub(crate) fn has_decimal_shape(bytes: &[u8]) -> bool
    ensures { IsTrue result ↔ HasDecimalShape bytes.now }
{
    match bytes {
        [] => false,
        [_] => true,
        [first, ..] => *first != b'0' && bytes.len() <= MAX_DIGITS,
    }
}

/// The number that the bytes spell: `0`, or a digit from 1 to 9 followed by digits, of at most 18
/// digits.
pub fn read_decimal(bytes: &[u8]) -> Option<u64>
    ensures some { IfSome result (IsDecimal bytes.now) }
    ensures none { IfNone result ((n : ℕ) → IsDecimal bytes.now n → ⊥) }
{
    if has_decimal_shape(bytes) {
        digits_number(bytes)
    } else {
        None
    }
}

/// The least number that has more than 9 digits.
const SHORT_END: u64 = 1_000_000_000;

/// The number that the bytes spell: as `read_decimal`, but of at most 9 digits.
pub fn read_short_decimal(bytes: &[u8]) -> Option<u32>
    ensures some { IfSome result (IsShortDecimal bytes.now) }
    ensures none { IfNone result ((n : ℕ) → IsShortDecimal bytes.now n → ⊥) }
{
    match read_decimal(bytes) {
        Some(number) if number < SHORT_END => Some(number as u32),
        _ => None,
    }
}

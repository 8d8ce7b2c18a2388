//! One line after another.

ghost use Rattle.std.specs.Prelude.{◌≡◌, ◌+◌, ◌≤◌, IfOk};
ghost use Rattle.hv_grammar.specs.Forms.{at_most, decimal_of, is_word, number_behind, number_in};
ghost use Rattle.hv_grammar.specs.Forms.{number_line, numbered_line};
ghost use Rattle.hv_grammar.specs.Forms.{short_decimal_of, word_line};
ghost use Rattle.hv_grammar.specs.Parsers.{end_of_input};
ghost use Rattle.hv_grammar.specs.Positions.{CanRead};
ghost use Rattle.hv_grammar.specs.Reads.{Fetches, Reads, Seeks, at_number};

use crate::fault::ParseFault;
use crate::source::Source;
use hv_bytes::{LineFault, Next, read_decimal, read_short_decimal};

/// Asks for the next line, which the source's `line` then gives; `lacking` is said where none is
/// left.
#[inline(always)]
pub fn next_line<R: Source, B: Drop>(reader: &mut R, lacking: B) -> Result<(), ParseFault<B>>
    requires { CanRead (R.position reader.old) }
    ensures { Fetches (R.position reader.old) (R.position reader.new) lacking result }
{
    match reader.advance() {
        Ok(Next::Line) => Ok(()),
        Ok(Next::End) => Err(ParseFault::Refused(reader.number() + 1, lacking)),
        Err(LineFault::Long) => Err(ParseFault::Long(reader.number() + 1)),
        Err(LineFault::Failed) => Err(ParseFault::ReadFault),
        Err(LineFault::Memory) => Err(ParseFault::Memory),
    }
}

/// Asks whether there is a next line, which the source's `line` then gives.
pub fn has_line<R: Source, B>(reader: &mut R) -> Result<bool, ParseFault<B>>
    requires { CanRead (R.position reader.old) }
    ensures { Seeks (R.position reader.old) (R.position reader.new) result }
{
    match reader.advance() {
        Ok(Next::Line) => Ok(true),
        Ok(Next::End) => Ok(false),
        Err(LineFault::Long) => Err(ParseFault::Long(reader.number() + 1)),
        Err(LineFault::Failed) => Err(ParseFault::ReadFault),
        Err(LineFault::Memory) => Err(ParseFault::Memory),
    }
}

/// What was said of the line given last, at its number.
pub fn at_line<R: Source, A, B>(reader: &R, said: Result<A, B>) -> Result<A, ParseFault<B>>
    ensures { result ≡ at_number (R.position reader.now).lines.number said }
{
    match said {
        Ok(value) => Ok(value),
        Err(bad) => Err(ParseFault::Refused(reader.number(), bad)),
    }
}

// Whether the line is this word.
fn is_word<B: Copy + Drop>(line: &[u8], expected: &[u8], bad: B) -> Result<(), B>
    ensures { result ≡ is_word expected.now bad line.now }
{
    if line != expected {
        return Err(bad);
    }
    Ok(())
}

/// A line that is this word.
pub fn word_line<R: Source, B: Copy + Drop>(
    reader: &mut R,
    expected: &[u8],
    bad: B,
) -> Result<(), ParseFault<B>>
    requires { CanRead (R.position reader.old) }
    ensures { Reads (word_line expected.now bad)
        (R.position reader.old) (R.position reader.new) result }
{
    next_line(reader, bad)?;
    at_line(reader, is_word(reader.line(), expected, bad))
}

/// The number that the bytes spell, in at most 18 digits.
pub fn decimal(bytes: &[u8]) -> Option<u64>
    ensures { result ≡ decimal_of bytes.now }
{
    read_decimal(bytes)
}

/// The number that the bytes spell, in at most 9 digits.
pub fn short_decimal(bytes: &[u8]) -> Option<u32>
    ensures { result ≡ short_decimal_of bytes.now }
{
    read_short_decimal(bytes)
}

/// The number that the bytes spell behind this word.
pub fn number_behind(word: &[u8], bytes: &[u8]) -> Option<u64>
    ensures { result ≡ number_behind word.now bytes.now }
{
    match bytes.strip_prefix(word) {
        Some(rest) => decimal(rest),
        None => None,
    }
}

/// The number, where there is one, and where it is at most so great.
pub fn at_most<B: Copy + Drop>(number: Option<u64>, most: u64, bad: B, many: B) -> Result<u64, B>
    ensures said { result ≡ at_most most bad many number }
    ensures most { IfOk result (λ n. n ≤ most) }
{
    match number {
        None => Err(bad),
        Some(number) if number <= most => Ok(number),
        Some(_) => Err(many),
    }
}

// The number that the line is.
fn number_in<B: Drop>(line: &[u8], bad: B) -> Result<u64, B>
    ensures { result ≡ number_in bad line.now }
{
    decimal(line).ok_or(bad)
}

/// A line that is a decimal.
pub fn number_line<R: Source, B: Copy + Drop>(reader: &mut R, bad: B) -> Result<u64, ParseFault<B>>
    requires { CanRead (R.position reader.old) }
    ensures { Reads (number_line bad) (R.position reader.old) (R.position reader.new) result }
{
    next_line(reader, bad)?;
    at_line(reader, number_in(reader.line(), bad))
}

/// A line that is a decimal behind a header, as `cost:7`, of at most so great a number.
pub fn numbered_line<R: Source, B: Copy + Drop>(
    reader: &mut R,
    header: &[u8],
    most: u64,
    bad: B,
    many: B,
) -> Result<u64, ParseFault<B>>
    requires { CanRead (R.position reader.old) }
    ensures reads { Reads (numbered_line header.now most bad many)
        (R.position reader.old) (R.position reader.new) result }
    ensures next { IfOk result (λ _. (R.position reader.new).lines.number
        ≡ (R.position reader.old).lines.number + 1) }
    ensures most { IfOk result (λ n. n ≤ most) }
{
    next_line(reader, bad)?;
    let number = number_behind(header, reader.line());
    at_line(reader, at_most(number, most, bad, many))
}

/// The end of the input; `extra` is said where a line is left.
pub fn end_of_input<R: Source, B: Drop>(reader: &mut R, extra: B) -> Result<(), ParseFault<B>>
    requires { CanRead (R.position reader.old) }
    ensures { Reads (end_of_input extra) (R.position reader.old) (R.position reader.new) result }
{
    match reader.advance() {
        Ok(Next::End) => Ok(()),
        Ok(Next::Line) => Err(ParseFault::Refused(reader.number(), extra)),
        Err(LineFault::Long) => Err(ParseFault::Long(reader.number() + 1)),
        Err(LineFault::Failed) => Err(ParseFault::ReadFault),
        Err(LineFault::Memory) => Err(ParseFault::Memory),
    }
}

//! Limits of lines and files, and the lines of an input, cut one by one.
//!
//! Each reader's answer is stated over the pieces of a file: its lines in order, up to the first
//! that is long, which is a piece of its own kind and the last. So a line among the pieces is
//! within the limits, and that need not be said besides.
//!
//! An input ends once: a read of 0 bytes is its end, and nothing is read after it. Where no bytes
//! are known, as of a terminal or a pipe, such a read is all that says where the input ends, and
//! bytes that come later aren't of it: so a last line without an LF isn't followed by a wait for
//! more. Where a source says what is left, a read gives 0 bytes exactly where nothing is, and it is
//! proved that nothing is left where an end is found. So as long as nothing else is done with the
//! source, a line comes exactly where the held bytes and those left are some. Only a source that is
//! opened anew in between has bytes left behind an end: they are another input, for which other
//! `Lines` are made, and in contracts no bytes are to come of the one that ended.

ghost use Rattle.std.specs.Prelude.{◌≡◌, ◌+◌, ◌≤◌, ◌^◌, ◌↔◌, length, true, false, Ok, IsTrue};
ghost use Rattle.std.specs.Prelude.{IsOk, IfOk, OnOk, OnErr, IsErrOf};
ghost use Rattle.std.specs.Io.KnownBytes.{IsAtEnd};
ghost use Rattle.hv_bytes.specs.Devices.{Rose};
ghost use Rattle.hv_bytes.specs.FirstLine.{BeginsLong, FitsLimits, IsLong, MovesBytes, TakesLine};
ghost use Rattle.hv_bytes.specs.States.{coming_of, no_lines, size_of};

use crate::buffer::LineBuffer;
use crate::outside::{Failed, Shelf};
use std::alloc::{AllocError, Global};
use std::marker::Model;
use thiserror::Error;

/// How long a line may be, and how far into the file its last byte may lie. Calls that cut lines
/// ask that both are at most 2^62.
#[derive(Clone, Copy, Debug, PartialEq, Eq)]
pub struct Limits {
    /// The most bytes of a line without its LF.
    pub line: u64,
    /// The most bytes of a file.
    pub file: u64,
}

/// The most bytes of a line without its LF, under the standard limits.
pub const MOST_LINE_BYTES: u64 = 16_777_216;

/// The most bytes of a file, under the standard limits: 2^40.
pub const MOST_FILE_BYTES: u64 = 1_099_511_627_776;

impl Limits {
    /// The standard limits: 16,777,216 bytes a line and 2^40 bytes a file.
    pub const STANDARD: Limits = Limits {
        line: MOST_LINE_BYTES,
        file: MOST_FILE_BYTES,
    };

    /// Whether a line of this length, without its LF and after so many earlier bytes, is within the
    /// limits.
    pub fn fits(self, earlier: u64, length: u64) -> bool
        ensures fits { IsTrue result ↔ FitsLimits self.line self.file earlier length }
        ensures long { result ≡ false → IsLong self.line self.file earlier length }
    {
        let last_byte = length.max(1);
        length <= self.line && last_byte <= self.file && earlier <= self.file - last_byte
    }
}

/// What a call of `Lines::next` found.
#[derive(Clone, Copy, Debug, PartialEq, Eq)]
pub enum Next {
    /// A line, which `Lines::line` gives.
    Line,
    /// The end of the input.
    End,
}

/// Why there is no further line.
#[derive(Clone, Copy, Debug, PartialEq, Eq, Error)]
pub enum LineFault {
    /// The line is longer than the limits allow, or lies too far into the file.
    #[error("the line is too long")]
    Long,
    /// The shelf failed.
    #[error("the file can't be read")]
    Failed,
    /// Memory ran out.
    #[error("out of memory")]
    Memory,
}

impl From<AllocError> for LineFault {
    ghost use Rattle.std.specs.Prelude.{◌≡◌};
    ghost use Rattle.hv_bytes.specs.declared.cutting.LineFault.TheVariants as LineFault;

    ghost from_gives = { λ _ fault. fault ≡ LineFault.Memory };

    fn from(_error: AllocError) -> LineFault {
        LineFault::Memory
    }
}

impl From<Failed> for LineFault {
    ghost use Rattle.std.specs.Prelude.{◌≡◌};
    ghost use Rattle.hv_bytes.specs.declared.cutting.LineFault.TheVariants as LineFault;

    ghost from_gives = { λ _ fault. fault ≡ LineFault.Failed };

    fn from(_error: Failed) -> LineFault {
        LineFault::Failed
    }
}

/// A text on a shelf, cut into lines at LF.
#[derive(Drop)]
pub struct Lines {
    buffer: LineBuffer,
    earlier: u64,
    number: u64,
    ended: bool,
    live: bool,
    limits: Limits,
}

impl Model for Lines {
    ghost use Rattle.hv_bytes.specs.States.{LinesState};
    ghost use Rattle.hv_bytes.specs.Working.States.{IsCounted};

    ghost Value = { LinesState };

    ghost view = { λ l. record {
      held = l.buffer.held;
      earlier = l.earlier;
      number = l.number;
      line = l.buffer.line;
      ended = l.ended;
      live = l.live;
      limits = l.limits;
    } };

    ghost invariant = { λ l. IsCounted l.limits l.earlier l.number l.buffer.held l.ended };
}

impl Lines {
    /// A cutter that gave no line yet.
    pub fn new(alloc: Global, limits: Limits) -> Result<Lines, AllocError>
        requires line { limits.line ≤ 2 ^ 62 }
        requires file { limits.file ≤ 2 ^ 62 }
        ensures { IfOk result (λ lines. lines ≡ no_lines limits) }
    {
        let buffer = LineBuffer::new(alloc)?;
        Ok(Lines {
            buffer,
            earlier: 0,
            number: 0,
            ended: false,
            live: true,
            limits,
        })
    }

    /// Whether it may be asked for a further line: until a call answers with a fault.
    pub fn live(&self) -> bool
        ensures { result ≡ self.now.live }
    {
        self.live
    }

    /// The line given last, without its LF.
    pub fn line(&self) -> &[u8]
        ensures { result.now ≡ self.now.line }
    {
        self.buffer.line()
    }

    /// The number of the line given last, from 1.
    pub fn number(&self) -> u64
        ensures { result ≡ self.now.number }
    {
        self.number
    }

    /// Reads the next line of the shelf's open file. A read of 0 bytes is the end of the input:
    /// after it nothing is read any more.
    ///
    /// The same shelf is to be given in each call, with nothing else read from it in between: the
    /// held bytes and those left on the shelf are together the bytes still to come. For a file that
    /// is opened afterwards other `Lines` are to be made: what has ended stays so.
    #[inline(always)]
    pub fn next<S: Shelf>(&mut self, shelf: &mut S) -> Result<Next, LineFault>
        requires { IsTrue self.old.live }

        // where what is left is known, a line exactly where bytes are to come: the first of
        // them
        ensures line { result ≡ Ok Next.Line → TakesLine
            (coming_of self.old (S.left shelf.old))
            (coming_of self.new (S.left shelf.new)) self.new.line }
        ensures end { result ≡ Ok Next.End → IsAtEnd (coming_of self.old (S.left shelf.old)) }
        ensures earlier { OnOk result (MovesBytes
            (coming_of self.old (S.left shelf.old)) (coming_of self.new (S.left shelf.new))
            self.old.earlier self.new.earlier) }

        // long exactly where the line is long
        ensures fits { result ≡ Ok Next.Line → FitsLimits
            self.old.limits.line self.old.limits.file self.old.earlier (length self.new.line) }
        ensures long { IsErrOf result LineFault.Long → BeginsLong
            (coming_of self.old (S.left shelf.old))
            self.old.limits.line self.old.limits.file self.old.earlier }

        // told or not: each line counts, with its bytes and its LF
        ensures number { result ≡ Ok Next.Line → self.new.number ≡ self.old.number + 1 }
        ensures counted { result ≡ Ok Next.Line →
            self.new.earlier ≡ self.old.earlier + size_of (length self.new.line) self.new.ended }
        ensures same { result ≡ Ok Next.End → self.new ≡ record self.old { ended = true } }
        ensures same_number { OnErr result (self.new.number ≡ self.old.number) }
        ensures same_earlier { OnErr result (self.new.earlier ≡ self.old.earlier) }
        ensures within { self.new.number ≤ self.new.limits.file }
        ensures earlier_within { self.new.earlier ≤ self.new.limits.file + 1 }
        ensures limits { self.new.limits ≡ self.old.limits }
        ensures live { IsTrue self.new.live ↔ IsOk result }

        // once the input has ended nothing is read
        ensures ended { IsTrue self.old.ended → (result ≡ Ok Next.End) × (shelf.new ≡ shelf.old) }

        ensures held { S.held shelf.new ≡ S.held shelf.old }
        ensures allows { S.allows shelf.new ≡ S.allows shelf.old }
        ensures later { S.faults shelf.old ≤ S.faults shelf.new }
        ensures cause { IsErrOf result LineFault.Failed →
            Rose (S.faults shelf.old) (S.faults shelf.new) }

        // the input ends where nothing is left on the shelf
        ensures at_end { OnOk result (self.old.ended ≡ false → self.new.ended ≡ true →
            IsAtEnd (S.left shelf.new)) }

        // after a fault it is as it was, and may not be asked any more
        ensures fault { OnErr result (self.new ≡ record self.old { live = false }) }
    {
        if self.ended {
            return Ok(Next::End);
        }
        self.live = false;
        if self.buffer.lend_line(self.earlier, self.limits)? {
            self.live = true;
            self.earlier += self.buffer.line().len() as u64 + 1;
            self.number += 1;
            return Ok(Next::Line);
        }
        let count = self.buffer.read_line(shelf, self.earlier, self.limits)?;
        self.live = true;
        match count {
            None => {
                self.ended = true;
                Ok(Next::End)
            }
            Some(count) => {
                self.ended = count == self.buffer.line().len() as u64;
                self.earlier += count;
                self.number += 1;
                Ok(Next::Line)
            }
        }
    }
}

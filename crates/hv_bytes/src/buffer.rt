//! The held bytes and the present line, which is lent from its block where it lies whole in it.
//!
//! Such a line isn't copied: it costs two places. Before the block is read over, the present line
//! is copied out of it; a line that crosses blocks is put together in a list of its own, and takes
//! the place of the present one when it is whole. So a fault leaves the present line, its number
//! and the count of bytes as they were. Two lines of the greatest length, one after the other, take
//! a list each.
//!
//! At a fault the bytes that were held are held again: they are the prefix of the line that was
//! being put together, and fit into the block that they came from. What the same call read behind
//! them is gone; nothing is lost by that, since no further line may be asked for. So what a fault
//! changes is said in one clause: no further line may be asked for, and all else is as before.

ghost use Rattle.std.specs.Prelude.{◌≡◌, ◌≢◌, ◌+◌, ◌<◌, ◌≤◌, ◌^◌, [], ◌++◌, length, take, drop};
ghost use Rattle.std.specs.Prelude.{true, false, Ok, Err, IfOk, IfSome, IfNone, OnOk, OnErr};
ghost use Rattle.std.specs.Prelude.{IsErrOf, unwrap_or, ℕ};
ghost use Rattle.std.specs.Io.KnownBytes.{IsAtEnd, prepend_known};
ghost use Rattle.hv_bytes.specs.Devices.{Rose};
ghost use Rattle.hv_bytes.specs.FirstLine.{BeginsLong, FitsLimits, IsLong, MovesBytes, TakesLine};
ghost use Rattle.hv_bytes.specs.LineCuts.{IsClean};
ghost use Rattle.hv_bytes.specs.Working.LineCuts.{IsFirstLf};
ghost use Rattle.hv_bytes.specs.Working.LineParts.{BeginsWith, EndsLine, FitsSoFar, IsLongPart};
ghost use Rattle.hv_bytes.specs.Working.LineParts.{LengthensLine};
ghost use Rattle.hv_bytes.specs.Working.States.{block_size, no_line, present_line};

use crate::block::Block;
use crate::cutting::{Limits, LineFault};
use crate::outside::Shelf;
use crate::splitting::find_lf;
use std::alloc::{AllocError, Global};
use std::marker::Model;
use std::mem::swap;

/// Appends the first `count` held bytes to the line, where it then is within the limits.
fn append_part(
    block: &mut Block,
    line: &mut Vec<u8>,
    count: usize,
    earlier: u64,
    limits: Limits,
) -> Result<(), LineFault>
    requires within { count ≤ length block.old.held }
    requires limit { limits.line ≤ 2 ^ 62 }
    requires short { length line.old.items ≤ limits.line }
    ensures line { OnOk result (line.new.items ≡ line.old.items ++ take count block.old.held) }
    ensures held { OnOk result (block.new.held ≡ drop count block.old.held) }
    ensures fits { OnOk result (FitsLimits
        limits.line limits.file earlier (length line.old.items + count)) }
    ensures long { IsErrOf result LineFault.Long →
        IsLong limits.line limits.file earlier (length line.old.items + count) }
    ensures same { OnErr result ((line.new.items ≡ line.old.items) × (block.new ≡ block.old)) }
    ensures sure { result ≢ Err LineFault.Failed }
{
    let part = &block.held()[..count];
    let length = line.len() as u64 + part.len() as u64;
    if !limits.fits(earlier, length) {
        return Err(LineFault::Long);
    }
    line.extend_from_slice(part)?;
    block.skip(count);
    Ok(())
}

/// Moves the held bytes before the first LF, and that LF, or all of them where none is held, to the
/// line, and says whether there was an LF.
fn take_part(
    block: &mut Block,
    line: &mut Vec<u8>,
    earlier: u64,
    limits: Limits,
) -> Result<bool, LineFault>
    requires limit { limits.line ≤ 2 ^ 62 }
    requires short { length line.old.items ≤ limits.line }
    ensures ended { result ≡ Ok true →
        EndsLine block.old.held block.new.held line.old.items line.new.items }
    ensures open { result ≡ Ok false →
        LengthensLine block.old.held block.new.held line.old.items line.new.items }
    ensures fits { OnOk result (FitsLimits
        limits.line limits.file earlier (length line.new.items)) }
    ensures long { IsErrOf result LineFault.Long →
        IsLongPart block.old.held limits.line limits.file earlier (length line.old.items) }
    ensures same { OnErr result (line.new.items ≡ line.old.items) }
    ensures sure { result ≢ Err LineFault.Failed }
{
    match find_lf(block.held()) {
        Some(at) => {
            append_part(block, line, at, earlier, limits)?;
            block.skip(1);
            Ok(true)
        }
        None => {
            let count = block.held().len();
            append_part(block, line, count, earlier, limits)?;
            Ok(false)
        }
    }
}

/// Reads on to the end of the line of which these bytes are the prefix, and says how many bytes it
/// has with its LF: none where there are no bytes and the input has ended. At a fault the prefix of
/// what is read is still there.
fn read_on<S: Shelf>(
    shelf: &mut S,
    block: &mut Block,
    line: &mut Vec<u8>,
    earlier: u64,
    limits: Limits,
) -> Result<Option<u64>, LineFault>
    requires none { block.old.held ≡ [] }
    requires clean { IsClean line.old.items }
    requires limit { limits.line ≤ 2 ^ 62 }
    requires fits { FitsSoFar limits.line limits.file earlier line.old.items }
    ensures line { IfOk result (λ count. IfSome count (λ _. TakesLine
        (prepend_known line.old.items (S.left shelf.old))
        (prepend_known block.new.held (S.left shelf.new)) line.new.items)) }
    ensures passes { IfOk result (λ count. MovesBytes
        (prepend_known line.old.items (S.left shelf.old))
        (prepend_known block.new.held (S.left shelf.new)) 0 (unwrap_or count 0)) }
    ensures count { IfOk result (λ count. IfSome count (λ n.
        (0 < n) × (length line.new.items ≤ n) × (n ≤ length line.new.items + 1))) }
    ensures last { IfOk result (λ count. IfSome count (λ n. n ≡ length line.new.items →
        (block.new.held ≡ []) × IsAtEnd (S.left shelf.new))) }
    ensures fits { IfOk result (λ count. IfSome count (λ _.
        FitsLimits limits.line limits.file earlier (length line.new.items))) }
    ensures end { IfOk result (λ count. IfNone count (
        (line.old.items ≡ []) × (block.new.held ≡ [])
        × IsAtEnd (S.left shelf.old) × IsAtEnd (S.left shelf.new))) }
    ensures long { IsErrOf result LineFault.Long → BeginsLong
        (prepend_known line.old.items (S.left shelf.old)) limits.line limits.file earlier }
    ensures front { OnErr result (BeginsWith line.old.items line.new.items) }
    ensures held { S.held shelf.new ≡ S.held shelf.old }
    ensures allows { S.allows shelf.new ≡ S.allows shelf.old }
    ensures later { S.faults shelf.old ≤ S.faults shelf.new }
    ensures cause { IsErrOf result LineFault.Failed →
        Rose (S.faults shelf.old) (S.faults shelf.new) }
{
    'parts: loop {
        block.read(shelf)?;
        if block.is_empty() {
            if line.is_empty() {
                return Ok(None);
            }
            return Ok(Some(line.len() as u64));
        }
        if take_part(block, line, earlier, limits)? {
            return Ok(Some(line.len() as u64 + 1));
        }
    }
}

/// Moves all held bytes, among which is no LF, to the empty line.
fn take_front(
    block: &mut Block,
    line: &mut Vec<u8>,
    earlier: u64,
    limits: Limits,
) -> Result<(), LineFault>
    requires limit { limits.line ≤ 2 ^ 62 }
    requires none { line.old.items ≡ [] }
    ensures moved { OnOk result ((line.new.items ≡ block.old.held) × (block.new.held ≡ [])) }
    ensures fits { OnOk result (FitsSoFar limits.line limits.file earlier block.old.held) }
    ensures long { IsErrOf result LineFault.Long → (block.old.held ≢ [])
        × IsLong limits.line limits.file earlier (length block.old.held) }
    ensures same { OnErr result (block.new.held ≡ block.old.held) }
    ensures bound { length block.old.held ≤ block_size }
    ensures sure { result ≢ Err LineFault.Failed }
{
    let count = block.held().len();
    if count == 0 {
        return Ok(());
    }
    append_part(block, line, count, earlier, limits)
}

/// Reads the line that crosses the end of the block into a list of its own, and says how many bytes
/// it has with its LF: none at the end of the input. At a fault what was held is held again.
fn read_across<S: Shelf>(
    shelf: &mut S,
    block: &mut Block,
    line: &mut Vec<u8>,
    earlier: u64,
    limits: Limits,
) -> Result<Option<u64>, LineFault>
    requires clean { IsClean block.old.held }
    requires limit { limits.line ≤ 2 ^ 62 }
    ensures line { IfOk result (λ count. IfSome count (λ _. TakesLine
        (prepend_known block.old.held (S.left shelf.old))
        (prepend_known block.new.held (S.left shelf.new)) line.new.items)) }
    ensures passes { IfOk result (λ count. MovesBytes
        (prepend_known block.old.held (S.left shelf.old))
        (prepend_known block.new.held (S.left shelf.new)) 0 (unwrap_or count 0)) }
    ensures count { IfOk result (λ count. IfSome count (λ n.
        (0 < n) × (length line.new.items ≤ n) × (n ≤ length line.new.items + 1))) }
    ensures last { IfOk result (λ count. IfSome count (λ n. n ≡ length line.new.items →
        (block.new.held ≡ []) × IsAtEnd (S.left shelf.new))) }
    ensures fits { IfOk result (λ count. IfSome count (λ _.
        FitsLimits limits.line limits.file earlier (length line.new.items))) }
    ensures end { IfOk result (λ count. IfNone count (
        (block.old.held ≡ []) × (block.new.held ≡ [])
        × IsAtEnd (S.left shelf.old) × IsAtEnd (S.left shelf.new))) }
    ensures long { IsErrOf result LineFault.Long → BeginsLong
        (prepend_known block.old.held (S.left shelf.old)) limits.line limits.file earlier }
    ensures same { OnErr result (block.new.held ≡ block.old.held) }
    ensures held { S.held shelf.new ≡ S.held shelf.old }
    ensures allows { S.allows shelf.new ≡ S.allows shelf.old }
    ensures later { S.faults shelf.old ≤ S.faults shelf.new }
    ensures cause { IsErrOf result LineFault.Failed →
        Rose (S.faults shelf.old) (S.faults shelf.new) }
{
    line.clear();
    take_front(block, line, earlier, limits)?;
    let kept = line.len();
    let read = read_on(shelf, block, line, earlier, limits);
    if read.is_err() {
        block.put_back(&line[..kept]);
    }
    read
}

/// Copies the present line out of the block, where it is lent from there.
fn keep_lent(block: &Block, line: &mut Vec<u8>, lent: &mut bool) -> Result<(), AllocError>
    ensures same { present_line lent.new block.now.lent line.new.items
        ≡ present_line lent.old block.now.lent line.old.items }
    ensures kept { OnOk result (lent.new ≡ false) }
{
    if *lent {
        line.clear();
        line.extend_from_slice(block.lent())?;
        *lent = false;
    }
    Ok(())
}

/// The bytes that were read and not yet used, and the line that was cut from them last.
#[derive(Drop)]
pub(crate) struct LineBuffer {
    block: Block,
    line: Vec<u8>,
    spare: Vec<u8>,
    lent: bool,
}

impl Model for LineBuffer {
    ghost use Rattle.hv_bytes.specs.Working.States.{BufferState, present_line};

    ghost Value = { BufferState };

    ghost view = { λ b. record {
      held = b.block.held;
      line = present_line b.lent b.block.lent b.line.items;
    } };
}

impl LineBuffer {
    pub(crate) fn new(alloc: Global) -> Result<LineBuffer, AllocError>
        ensures { IfOk result (λ buffer. buffer ≡ no_line) }
    {
        let block = Block::new(alloc)?;
        Ok(LineBuffer {
            block,
            line: Vec::new(alloc),
            spare: Vec::new(alloc),
            lent: false,
        })
    }

    /// The line that was cut last.
    pub(crate) fn line(&self) -> &[u8]
        ensures { result.now ≡ self.now.line }
    {
        if self.lent {
            self.block.lent()
        } else {
            self.line.as_slice()
        }
    }

    /// Lends the next line where it lies whole among the held bytes, and says whether it does.
    pub(crate) fn lend_line(&mut self, earlier: u64, limits: Limits) -> Result<bool, LineFault>
        requires { limits.line ≤ 2 ^ 62 }
        ensures lent { result ≡ Ok true → EndsLine self.old.held self.new.held [] self.new.line }
        ensures fits { result ≡ Ok true →
            FitsLimits limits.line limits.file earlier (length self.new.line) }
        ensures none { result ≡ Ok false → IsClean self.old.held × (self.new ≡ self.old) }
        ensures long { OnErr result ((at : ℕ) × IsFirstLf self.old.held at
            × IsLong limits.line limits.file earlier at) }
        ensures same { OnErr result (self.new ≡ self.old) }
        ensures sure { OnErr result (result ≡ Err LineFault.Long) }
    {
        let Some(at) = find_lf(self.block.held()) else {
            return Ok(false);
        };
        if !limits.fits(earlier, at as u64) {
            return Err(LineFault::Long);
        }
        self.block.lend(at);
        self.lent = true;
        Ok(true)
    }

    /// Cuts the next line, of which no LF is held, and says how many bytes it has with its LF: none
    /// at the end of the input, where the present line stays.
    #[cold]
    #[inline(never)]
    pub(crate) fn read_line<S: Shelf>(
        &mut self,
        shelf: &mut S,
        earlier: u64,
        limits: Limits,
    ) -> Result<Option<u64>, LineFault>
        requires clean { IsClean self.old.held }
        requires limit { limits.line ≤ 2 ^ 62 }
        ensures line { IfOk result (λ count. IfSome count (λ _. TakesLine
            (prepend_known self.old.held (S.left shelf.old))
            (prepend_known self.new.held (S.left shelf.new)) self.new.line)) }
        ensures passes { IfOk result (λ count. MovesBytes
            (prepend_known self.old.held (S.left shelf.old))
            (prepend_known self.new.held (S.left shelf.new)) 0 (unwrap_or count 0)) }
        ensures count { IfOk result (λ count. IfSome count (λ n.
            (0 < n) × (length self.new.line ≤ n) × (n ≤ length self.new.line + 1))) }
        ensures last { IfOk result (λ count. IfSome count (λ n. n ≡ length self.new.line →
            (self.new.held ≡ []) × IsAtEnd (S.left shelf.new))) }
        ensures fits { IfOk result (λ count. IfSome count (λ _.
            FitsLimits limits.line limits.file earlier (length self.new.line))) }
        ensures end { IfOk result (λ count. IfNone count (
            (self.old.held ≡ []) × (self.new ≡ self.old)
            × IsAtEnd (S.left shelf.old) × IsAtEnd (S.left shelf.new))) }
        ensures long { IsErrOf result LineFault.Long → BeginsLong
            (prepend_known self.old.held (S.left shelf.old)) limits.line limits.file earlier }
        ensures same { OnErr result (self.new ≡ self.old) }
        ensures held { S.held shelf.new ≡ S.held shelf.old }
        ensures allows { S.allows shelf.new ≡ S.allows shelf.old }
        ensures later { S.faults shelf.old ≤ S.faults shelf.new }
        ensures cause { IsErrOf result LineFault.Failed →
            Rose (S.faults shelf.old) (S.faults shelf.new) }
    {
        keep_lent(&self.block, &mut self.line, &mut self.lent)?;
        let count = read_across(shelf, &mut self.block, &mut self.spare, earlier, limits)?;
        if count.is_some() {
            swap(&mut self.line, &mut self.spare);
        }
        Ok(count)
    }
}

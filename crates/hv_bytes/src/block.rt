//! A block of the bytes that were read from a shelf: those not yet used, and before them a line
//! that is lent.

ghost use Rattle.std.specs.Prelude.{◌≡◌, ◌+◌, ◌<◌, ◌≤◌, ◌↔◌, [], length, take, drop, vec_len};
ghost use Rattle.std.specs.Prelude.{IfOk, IsTrue, OnOk};
ghost use Rattle.std.specs.Io.KnownBytes.{IsAtEnd, Keeps, prepend_known};
ghost use Rattle.hv_bytes.specs.Devices.{HasCause};
ghost use Rattle.hv_bytes.specs.Working.States.{block_size, no_bytes};

use crate::outside::{Failed, Shelf};
use std::alloc::{AllocError, Global};
use std::marker::Model;

/// How many bytes a shelf is asked for at once.
const BLOCK: usize = 65536;

/// A buffer of so many zeros.
fn buffer(alloc: Global) -> Result<Vec<u8>, AllocError>
    ensures { IfOk result (λ v. vec_len v ≡ block_size) }
{
    vec![in alloc; 0u8; BLOCK]
}

/// Copies the bytes over the prefix of the others.
fn copy_front(into: &mut [u8], bytes: &[u8])
    requires { length bytes.now ≤ length into.old }
    ensures front { take (length bytes.now) into.new ≡ bytes.now }
    ensures len { length into.new ≡ length into.old }
{
    let count = bytes.len();
    into[..count].copy_from_slice(bytes);
}

/// Bytes that were read from a shelf at once: those that are held, which aren't used yet, and
/// before them those that are lent as a line.
#[derive(Drop)]
pub(crate) struct Block {
    piece: Vec<u8>,
    from: usize,
    upto: usize,
    at: usize,
    end: usize,
}

impl Model for Block {
    ghost use Rattle.std.specs.Prelude.{◌≡◌, ◌-◌, ◌≤◌, take, drop, vec_len};
    ghost use Rattle.hv_bytes.specs.Working.States.{BlockState, block_size};

    ghost Value = { BlockState };

    ghost view = { λ b. record {
      lent = take (b.upto - b.from) (drop b.from b.piece.items);
      held = take (b.end - b.at) (drop b.at b.piece.items);
    } };

    ghost invariant = { λ b. (b.from ≤ b.upto) × (b.upto ≤ block_size) × (b.at ≤ b.end)
        × (b.end ≤ block_size) × (vec_len b.piece ≡ block_size) };
}

impl Block {
    pub(crate) fn new(alloc: Global) -> Result<Block, AllocError>
        ensures { IfOk result (λ block. block ≡ no_bytes) }
    {
        let piece = buffer(alloc)?;
        Ok(Block {
            piece,
            from: 0,
            upto: 0,
            at: 0,
            end: 0,
        })
    }

    /// The bytes that are lent as a line.
    pub(crate) fn lent(&self) -> &[u8]
        ensures { result.now ≡ self.now.lent }
    {
        &self.piece[self.from..self.upto]
    }

    /// The bytes not yet used.
    pub(crate) fn held(&self) -> &[u8]
        ensures bytes { result.now ≡ self.now.held }
        ensures short { length result.now ≤ block_size }
    {
        &self.piece[self.at..self.end]
    }

    pub(crate) fn is_empty(&self) -> bool
        ensures { IsTrue result ↔ (self.now.held ≡ []) }
    {
        self.held().is_empty()
    }

    /// Lends the first `count` held bytes, and drops the byte behind them.
    pub(crate) fn lend(&mut self, count: usize)
        requires { count < length self.old.held }
        ensures lent { self.new.lent ≡ take count self.old.held }
        ensures held { self.new.held ≡ drop (count + 1) self.old.held }
    {
        self.from = self.at;
        self.upto = self.at + count;
        self.at += count + 1;
    }

    /// Drops the first `count` held bytes.
    pub(crate) fn skip(&mut self, count: usize)
        requires { count ≤ length self.old.held }
        ensures { self.new.held ≡ drop count self.old.held }
    {
        self.at += count;
    }

    /// Reads the next bytes of the shelf's open file over the block, none of which is held any
    /// more.
    pub(crate) fn read<S: Shelf>(&mut self, shelf: &mut S) -> Result<(), Failed>
        requires { self.old.held ≡ [] }
        ensures coming { OnOk result (Keeps (S.left shelf.old)
            (prepend_known self.new.held (S.left shelf.new))) }
        ensures end { OnOk result (self.new.held ≡ [] → IsAtEnd (S.left shelf.new)) }
        ensures held { S.held shelf.new ≡ S.held shelf.old }
        ensures allows { S.allows shelf.new ≡ S.allows shelf.old }
        ensures cause { HasCause (S.faults shelf.old) (S.faults shelf.new) result }
    {
        let count = shelf.read(self.piece.as_mut_slice())?;
        self.at = 0;
        self.end = count;
        Ok(())
    }

    /// Holds these bytes again, in place of those that are held.
    pub(crate) fn put_back(&mut self, bytes: &[u8])
        requires { length bytes.now ≤ block_size }
        ensures { self.new.held ≡ bytes.now }
    {
        copy_front(self.piece.as_mut_slice(), bytes);
        self.at = 0;
        self.end = bytes.len();
    }
}

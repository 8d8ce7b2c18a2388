//! Lists of lists in one list, with the end of each, as a number of 32 bits: more than
//! 4,294,967,295 items in one list are answered as out of memory. What `run` reads or writes has no
//! such list: a literal or an atom takes two bytes at least, its space among them, so a line of
//! 16,777,216 bytes has fewer than 8,388,608, and a log fewer than half as many; and the largest
//! formula that is written has 524,800 clauses of two literals.

ghost use Rattle.std.specs.Prelude.{◌≡◌, ◌<◌, ◌≤◌, ◌+◌, [], ◌∷◌, ◌++◌, length, slice_get};
ghost use Rattle.std.specs.Prelude.{slice_range, IfOk, IfSome, Some, OnOk, OnErr};
ghost use Rattle.hv_sets.specs.Working.Pieces.{EndWithin, gathered, last_end, pieces, start_of};

use std::alloc::{AllocError, Global};
use std::marker::Model;

/// What lists of lists in one list are, wherever they lie.
#[derive(Clone, Copy, Drop)]
pub(crate) struct Parts<'a, T> {
    /// The items of all pieces, one after the other, and then those of one that is begun.
    pub items: &'a [T],
    /// Where each piece ends among them.
    pub ends: &'a [u32],
}

/// Pieces, one after the other, and the items of one that is begun.
#[derive(Drop)]
pub(crate) struct Flat<T> {
    items: Vec<T>,
    // Where each piece ends among them.
    ends: Vec<u32>,
}

impl<T> Model for Flat<T> {
    ghost use Rattle.hv_sets.specs.Gathered.{Gathered};
    ghost use Rattle.hv_sets.specs.Working.Pieces.{EndWithin, gathered};

    ghost Value = { Gathered T };

    ghost view = { λ f. gathered f.items.items f.ends.items };

    ghost invariant = { λ f. EndWithin f.items.items 0 f.ends.items };
}

impl<T: Copy> Flat<T> {
    /// No piece.
    pub(crate) fn new(alloc: Global) -> Flat<T>
        ensures { result ≡ record { whole = []; begun = [] } }
    {
        Flat {
            items: Vec::new(alloc),
            ends: Vec::new(alloc),
        }
    }

    /// The pieces of these items with these ends, in as much memory as they need.
    pub(crate) fn of(alloc: Global, parts: Parts<'_, T>) -> Result<Flat<T>, AllocError>
        requires { EndWithin parts.items.now 0 parts.ends.now }
        ensures { IfOk result (λ flat.
            flat ≡ gathered parts.entry.items.now parts.entry.ends.now) }
    {
        let mut items = Vec::with_capacity(alloc, parts.items.len())?;
        items.extend_from_slice(parts.items)?;
        let mut ends = Vec::with_capacity(alloc, parts.ends.len())?;
        ends.extend_from_slice(parts.ends)?;
        Ok(Flat::from_parts(items, ends))
    }

    /// The pieces of these items with these ends.
    pub(crate) fn from_parts(items: Vec<T>, ends: Vec<u32>) -> Flat<T>
        requires { EndWithin items.items 0 ends.items }
        ensures { result ≡ gathered items.items ends.items }
    {
        Flat { items, ends }
    }

    /// Its items, and where its pieces end.
    pub(crate) fn parts(&self) -> Parts<'_, T>
        ensures ended { EndWithin result.items.now 0 result.ends.now }
        ensures are { self.now ≡ gathered result.items.now result.ends.now }
    {
        Parts {
            items: &self.items,
            ends: &self.ends,
        }
    }

    /// Puts an item last in the piece that is begun.
    pub(crate) fn put(&mut self, item: T) -> Result<(), AllocError>
        ensures ok { OnOk result
            (self.new ≡ record self.old { begun = self.old.begun ++ item ∷ [] }) }
        ensures err { OnErr result (self.new ≡ self.old) }
    {
        self.items.push(item)?;
        Ok(())
    }

    /// Ends the piece that is begun. More than 4,294,967,295 items in all are answered as want of
    /// memory; no line has so many.
    pub(crate) fn end(&mut self) -> Result<(), AllocError>
        ensures ok { OnOk result
            (self.new ≡ record { whole = self.old.whole ++ self.old.begun ∷ []; begun = [] }) }
        ensures err { OnErr result (self.new ≡ self.old) }
    {
        let Some(end) = end_after(self.items.len(), 0) else {
            return Err(AllocError);
        };
        self.ends.push(end)?;
        Ok(())
    }

    /// Puts the piece of these items last, where none is begun. More than 4,294,967,295 items in
    /// all are answered as out of memory; no line has so many.
    pub(crate) fn push(&mut self, items: &[T]) -> Result<(), AllocError>
        requires { self.old.begun ≡ [] }
        ensures ok { OnOk result
            (self.new ≡ record self.old { whole = self.old.whole ++ items.now ∷ [] }) }
        ensures err { OnErr result (self.new ≡ self.old) }
    {
        let Some(end) = end_after(self.items.len(), items.len()) else {
            return Err(AllocError);
        };
        self.ends.reserve(1)?;
        self.items.extend_from_slice(items)?;
        self.ends.push_reserved(end);
        Ok(())
    }

    /// Takes space for so many pieces more, and for so many items.
    pub(crate) fn reserve(&mut self, pieces: usize, items: usize) -> Result<(), AllocError>
        ensures { self.new ≡ self.old }
    {
        self.items.reserve(items)?;
        self.ends.reserve(pieces)
    }

    /// The items of the piece at a place from 0.
    pub(crate) fn get(&self, place: usize) -> &[T]
        requires { place < length self.now.whole }
        ensures { slice_get self.now.whole place ≡ Some result.now }
    {
        piece_at(&self.items, &self.ends, place)
    }

    /// How many pieces there are.
    pub(crate) fn len(&self) -> usize
        ensures { result ≡ length self.now.whole }
    {
        self.ends.len()
    }

    /// How many items the piece has that is begun.
    pub(crate) fn begun(&self) -> usize
        ensures { result ≡ length self.now.begun }
    {
        self.items.len() - end_of_last(&self.ends)
    }
}

// Where so many more items after so many end, if there is room.
fn end_after(len: usize, more: usize) -> Option<u32>
    ensures { IfSome result (λ end. end ≡ len + more) }
{
    match len.checked_add(more) {
        Some(end) if end <= u32::MAX as usize => Some(end as u32),
        _ => None,
    }
}

/// The items of the piece at a place from 0.
pub(crate) fn piece_at<'a, T>(items: &'a [T], ends: &[u32], place: usize) -> &'a [T]
    requires ended { EndWithin items.now 0 ends.now }
    requires place { place < length ends.now }
    ensures { slice_get (pieces items.now 0 ends.now) place ≡ Some result.now }
{
    between(items, start_of(ends, place), ends[place] as usize)
}

fn between<T>(items: &[T], start: usize, end: usize) -> &[T]
    requires start { start ≤ end }
    requires end { end ≤ length items.now }
    ensures { result.now ≡ slice_range items.now start end }
{
    &items[start..end]
}

// Where the piece at a place begins.
fn start_of(ends: &[u32], place: usize) -> usize
    requires { place < length ends.now }
    ensures { result ≡ start_of 0 ends.now place }
{
    if place == 0 {
        0
    } else {
        ends[place - 1] as usize
    }
}

// Where the last piece ends.
fn end_of_last(ends: &[u32]) -> usize
    ensures { result ≡ last_end 0 ends.now }
{
    let count = ends.len();
    if count == 0 {
        0
    } else {
        ends[count - 1] as usize
    }
}

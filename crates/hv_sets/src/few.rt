//! Few pieces of few items, which lie in the value itself and in no block of memory: a proof can
//! have hundreds of thousands of lists of one short piece.

ghost use Rattle.std.specs.Prelude.{◌≡◌, ◌<◌, IfSome, Some, length, slice_get};
ghost use Rattle.hv_sets.specs.Working.Pieces.{EndWithin, gathered};

use crate::flat::{Parts, piece_at};
use std::marker::Model;

/// So many pieces are few.
const MOST_PIECES: usize = 3;

/// At most three pieces with at most `N` items in all.
#[derive(Drop)]
pub(crate) struct Few<T, const N: usize> {
    // The items of the pieces, one after the other, and then any.
    items: [T; N],
    // Where each piece ends among them, and then any numbers.
    ends: [u32; MOST_PIECES],
    // How many items there are, and how many pieces.
    len: u16,
    count: u16,
}

impl<T, const N: usize> Model for Few<T, N> {
    ghost use Rattle.std.specs.Prelude.{◌≤◌, take};
    ghost use Rattle.hv_sets.specs.Gathered.{Gathered};
    ghost use Rattle.hv_sets.specs.Working.Pieces.{EndWithin, gathered};

    ghost Value = { Gathered T };

    ghost view = { λ f. gathered (take f.len f.items) (take f.count f.ends) };

    ghost invariant = { λ f. (f.len ≤ N) × (f.count ≤ 3)
        × EndWithin (take f.len f.items) 0 (take f.count f.ends) };
}

impl<T: Copy, const N: usize> Few<T, N> {
    /// The pieces of these items with these ends, where they are few. Pieces that have no item
    /// aren't taken for few.
    pub(crate) fn of(parts: Parts<'_, T>) -> Option<Few<T, N>>
        requires { EndWithin parts.items.now 0 parts.ends.now }
        ensures { IfSome result (λ few.
            few ≡ gathered parts.entry.items.now parts.entry.ends.now) }
    {
        let Some(first) = parts.items.first() else {
            return None;
        };
        let Ok(len) = u16::try_from(parts.items.len()) else {
            return None;
        };
        if parts.items.len() > N || parts.ends.len() > MOST_PIECES {
            return None;
        }
        let mut items = [*first; N];
        items[..parts.items.len()].copy_from_slice(parts.items);
        let mut ends = [0; MOST_PIECES];
        ends[..parts.ends.len()].copy_from_slice(parts.ends);
        let count = parts.ends.len() as u16;
        Some(Few {
            items,
            ends,
            len,
            count,
        })
    }

    /// The same once more.
    pub(crate) fn copy(&self) -> Few<T, N>
        ensures { result ≡ self.now }
    {
        Few {
            items: self.items,
            ends: self.ends,
            len: self.len,
            count: self.count,
        }
    }

    /// Their items, and where they end.
    pub(crate) fn parts(&self) -> Parts<'_, T>
        ensures ended { EndWithin result.items.now 0 result.ends.now }
        ensures are { self.now ≡ gathered result.items.now result.ends.now }
    {
        Parts {
            items: &self.items[..self.len as usize],
            ends: &self.ends[..self.count as usize],
        }
    }

    /// How many pieces there are.
    pub(crate) fn len(&self) -> usize
        ensures { result ≡ length self.now.whole }
    {
        self.parts().ends.len()
    }

    /// The items of the piece at a place from 0.
    pub(crate) fn get(&self, place: usize) -> &[T]
        requires { place < length self.now.whole }
        ensures { slice_get self.now.whole place ≡ Some result.now }
    {
        let parts = self.parts();
        piece_at(parts.items, parts.ends, place)
    }
}

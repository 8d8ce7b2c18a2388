//! Lists of lists that have one owner or several.

ghost use Rattle.std.specs.Prelude.{◌≡◌, ◌<◌, ◌++◌, ◌∷◌, [], length, slice_get, IfOk, OnErr, OnOk};
ghost use Rattle.std.specs.Prelude.{Some};
ghost use Rattle.hv_sets.specs.Working.Pieces.{EndWithin, gathered};
ghost use Rattle.hv_sets.specs.Working.SharedPieces.{held_pieces};

use crate::few::Few;
use crate::flat::{Flat, Parts, piece_at};
use std::alloc::{AllocError, Global};
use std::rc::Rc;

/// Pieces that are held alone, or together with others who only read them. Of those that are
/// shared, few lie in the value itself: to copy them takes no block of memory either. Long lists
/// that are read are held together, so that form comes first: a look at it costs one test.
#[derive(Drop)]
pub(crate) enum SharedPieces<T, const N: usize> {
    Together(Rc<Flat<T>, Global>),
    Alone(Flat<T>),
    Few(Few<T, N>),
}

impl<T: Copy, const N: usize> SharedPieces<T, N> {
    /// The same pieces, of which each further copy takes no memory of its own.
    pub(crate) fn share(self, alloc: Global) -> Result<SharedPieces<T, N>, AllocError>
        ensures { IfOk result (λ shared. held_pieces shared ≡ held_pieces self) }
    {
        match self {
            SharedPieces::Few(few) => Ok(SharedPieces::Few(few)),
            SharedPieces::Alone(flat) => shared_flat(alloc, flat),
            SharedPieces::Together(shared) => Ok(SharedPieces::Together(shared)),
        }
    }

    /// The same pieces once more: together with these where they are shared, and otherwise in as
    /// much memory as they need.
    pub(crate) fn copy(&self, alloc: Global) -> Result<SharedPieces<T, N>, AllocError>
        ensures { IfOk result (λ copy. held_pieces copy ≡ held_pieces self.now) }
    {
        match self {
            SharedPieces::Few(few) => Ok(SharedPieces::Few(few.copy())),
            SharedPieces::Alone(flat) => Ok(SharedPieces::Alone(Flat::of(alloc, flat.parts())?)),
            SharedPieces::Together(shared) => Ok(SharedPieces::Together(shared.clone()?)),
        }
    }

    /// Puts the piece of these items last, where none is begun. Copies that are shared stay as they
    /// are.
    pub(crate) fn push(&mut self, alloc: Global, items: &[T]) -> Result<(), AllocError>
        requires { (held_pieces self.old).begun ≡ [] }
        ensures ok { OnOk result (held_pieces self.new ≡ record (held_pieces self.old) {
          whole = (held_pieces self.old).whole ++ items.now ∷ [];
        }) }
        ensures err { OnErr result (held_pieces self.new ≡ held_pieces self.old) }
    {
        if let SharedPieces::Alone(flat) = self {
            return flat.push(items);
        }
        let mut own = Flat::of(alloc, self.parts())?;
        own.push(items)?;
        *self = SharedPieces::Alone(own);
        Ok(())
    }

    /// How many pieces there are.
    pub(crate) fn len(&self) -> usize
        ensures { result ≡ length (held_pieces self.now).whole }
    {
        self.parts().ends.len()
    }

    /// The items of the piece at a place from 0.
    pub(crate) fn get(&self, place: usize) -> &[T]
        requires { place < length (held_pieces self.now).whole }
        ensures { slice_get (held_pieces self.now).whole place ≡ Some result.now }
    {
        let parts = self.parts();
        piece_at(parts.items, parts.ends, place)
    }

    // Their items, and where they end.
    fn parts(&self) -> Parts<'_, T>
        ensures ended { EndWithin result.items.now 0 result.ends.now }
        ensures are { held_pieces self.now ≡ gathered result.items.now result.ends.now }
    {
        match self {
            SharedPieces::Few(few) => few.parts(),
            SharedPieces::Alone(flat) => flat.parts(),
            SharedPieces::Together(shared) => Rc::as_ref(shared).parts(),
        }
    }
}

// The same pieces, in the value itself where they are few.
fn shared_flat<T: Copy, const N: usize>(
    alloc: Global,
    flat: Flat<T>,
) -> Result<SharedPieces<T, N>, AllocError>
    ensures { IfOk result (λ shared. held_pieces shared ≡ flat) }
{
    match Few::of(flat.parts()) {
        Some(few) => Ok(SharedPieces::Few(few)),
        None => Ok(SharedPieces::Together(Rc::new(alloc, flat)?)),
    }
}

//! Explicit sets walked over and asked about along paths.

use crate::explicit::Explicit;
use crate::state_walk::StateWalk;
use hv_paths::{InsideAsk, InsideAsked, InsideWalked};
use std::alloc::{AllocError, Global};

impl<'a> InsideWalked<'a> for Explicit {
    type Walk = StateWalk<'a>;

    fn walk_inside(&'a self, alloc: Global) -> Result<StateWalk<'a>, AllocError> {
        StateWalk::new(alloc, self)
    }
}

impl<'a> InsideAsked<'a> for Explicit {
    type Ask = InsideAsk<'a, Explicit>;

    fn places_inside(&'a self) -> Option<&'a [u32]> {
        None
    }

    fn ask_inside(&'a self, alloc: Global) -> Result<InsideAsk<'a, Explicit>, AllocError> {
        Ok(InsideAsk::new(alloc, self))
    }
}

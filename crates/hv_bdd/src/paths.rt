//! Nodes walked over and asked about along paths. A diagram gives the walk the places of its atoms,
//! where the file lists an order, and a walk over clauses goes by them.

use crate::front_ask::FrontAsk;
use crate::path_walk::PathWalk;
use crate::set::DiagramSet;
use hv_paths::{InsideAsk, InsideAsked, InsideWalked, OutsideAsk, OutsideAsked, OutsideWalked};
use std::alloc::{AllocError, Global};

impl<'a, 'b: 'a> InsideWalked<'a> for DiagramSet<'b> {
    type Walk = PathWalk<'b>;

    #[tactic(auto, using(crate::proofs::Fronted::inside_set))]
    fn walk_inside(&'a self, alloc: Global) -> Result<PathWalk<'b>, AllocError> {
        Ok(PathWalk::new(alloc, self.nodes, self.node, 1))
    }
}

impl<'a, 'b: 'a> OutsideWalked<'a> for DiagramSet<'b> {
    type Walk = PathWalk<'b>;

    #[tactic(auto, using(crate::proofs::Fronted::outside_set))]
    fn walk_outside(
        &'a self,
        alloc: Global,
        places: Option<&'a [u32]>,
    ) -> Result<PathWalk<'b>, AllocError> {
        let _ = places;
        Ok(PathWalk::new(alloc, self.nodes, self.node, 0))
    }
}

impl<'a, 'b: 'a> InsideAsked<'a> for DiagramSet<'b> {
    type Ask = FrontAsk<'b, InsideAsk<'a, DiagramSet<'b>>>;

    fn places_inside(&'a self) -> Option<&'a [u32]> {
        self.nodes.places()
    }

    fn ask_inside(
        &'a self,
        alloc: Global,
    ) -> Result<FrontAsk<'b, InsideAsk<'a, DiagramSet<'b>>>, AllocError> {
        let plain = InsideAsk::new(alloc, self);
        FrontAsk::new(alloc, plain, self.nodes, self.node, true)
    }
}

impl<'a, 'b: 'a> OutsideAsked<'a> for DiagramSet<'b> {
    type Ask = FrontAsk<'b, OutsideAsk<'a, DiagramSet<'b>>>;

    fn places_outside(&'a self) -> Option<&'a [u32]> {
        self.nodes.places()
    }

    fn ask_outside(
        &'a self,
        alloc: Global,
    ) -> Result<FrontAsk<'b, OutsideAsk<'a, DiagramSet<'b>>>, AllocError> {
        let plain = OutsideAsk::new(alloc, self);
        FrontAsk::new(alloc, plain, self.nodes, self.node, false)
    }
}

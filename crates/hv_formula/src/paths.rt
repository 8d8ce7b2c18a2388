//! Formulas walked over and asked about along paths.

use crate::clause_kind::ClauseKind;
use crate::clause_walk::ClauseWalk;
use crate::formula::Formula;
use crate::formula_ask::FormulaAsk;
use crate::listed_ask::ListedAsk;
use crate::rest_ask::RestAsk;
use hv_paths::{InsideAsked, OutsideAsk, OutsideAsked, OutsideWalked};
use std::alloc::{AllocError, Global};

impl<'a, K: ClauseKind + 'a> OutsideWalked<'a> for Formula<K> {
    type Walk = ClauseWalk<'a, K>;

    fn walk_outside(
        &'a self,
        alloc: Global,
        places: Option<&'a [u32]>,
    ) -> Result<ClauseWalk<'a, K>, AllocError> {
        ClauseWalk::new(alloc, self, places)
    }
}

impl<'a, K: ClauseKind + 'a> InsideAsked<'a> for Formula<K> {
    type Ask = ListedAsk<'a, K, FormulaAsk<'a, K>>;

    // Places of no atom: each order serves.
    fn places_inside(&'a self) -> Option<&'a [u32]> {
        Some(&[])
    }

    fn ask_inside(
        &'a self,
        alloc: Global,
    ) -> Result<ListedAsk<'a, K, FormulaAsk<'a, K>>, AllocError> {
        let asked = FormulaAsk::new(alloc, self)?;
        Ok(ListedAsk::new(alloc, asked, self, true))
    }
}

impl<'a, K: ClauseKind + 'a> OutsideAsked<'a> for Formula<K> {
    type Ask = ListedAsk<'a, K, RestAsk<'a, K, OutsideAsk<'a, Formula<K>>>>;

    // Places of no atom: each order serves.
    fn places_outside(&'a self) -> Option<&'a [u32]> {
        Some(&[])
    }

    fn ask_outside(
        &'a self,
        alloc: Global,
    ) -> Result<ListedAsk<'a, K, RestAsk<'a, K, OutsideAsk<'a, Formula<K>>>>, AllocError> {
        let plain = OutsideAsk::new(alloc, self);
        let asked = RestAsk::new(alloc, plain, self);
        Ok(ListedAsk::new(alloc, asked, self, false))
    }
}

//! Tests of which clauses are Horn, and of a store's numbers.

use crate::one_head::{OneHead, first_refused, is_named_behind, numbers_sets};
use hv_horn::{HornFault, HornKind};

impl OneHead for HornKind {
    fn is_positive() -> bool {
        true
    }

    fn place(fault: HornFault) -> Result<usize, HornFault> {
        match fault {
            HornFault::NotHorn(place) => Ok(place),
            HornFault::Memory => Err(HornFault::Memory),
        }
    }
}

#[test]
fn the_first_other_clause_is_named(rt: HostRuntime) {
    for number in 0..36 {
        assert!(rt;
            matches!(is_named_behind::<HornKind>(rt.alloc(), number), Ok(true)),
            "first clause {number}"
        );
    }
    assert!(rt;
        matches!(
            first_refused::<HornKind>(rt.alloc(), [[0, 0], [0, 2]]),
            Ok(Some(1))
        )
    );
}

#[test]
fn a_store_numbers_its_sets(rt: HostRuntime) {
    let rows = [[[0, 0], [0, 1]], [[1, 1], [0, 1]]];
    assert!(rt;
        matches!(
            numbers_sets::<HornKind>(rt.alloc(), rows, [false, true]),
            Ok(true)
        )
    );
}

//! Tests of which clauses are dual Horn, and of a store's numbers.

use crate::one_head::{OneHead, first_refused, is_named_behind, numbers_sets};
use hv_horn::{DualHornFault, DualHornKind};

impl OneHead for DualHornKind {
    fn is_positive() -> bool {
        false
    }

    fn place(fault: DualHornFault) -> Result<usize, DualHornFault> {
        match fault {
            DualHornFault::NotDual(place) => Ok(place),
            DualHornFault::Memory => Err(DualHornFault::Memory),
        }
    }
}

#[test]
fn the_first_other_clause_is_named(rt: HostRuntime) {
    for number in 0..36 {
        assert!(rt;
            matches!(
                is_named_behind::<DualHornKind>(rt.alloc(), number),
                Ok(true)
            ),
            "first clause {number}"
        );
    }
    assert!(rt;
        matches!(
            first_refused::<DualHornKind>(rt.alloc(), [[0, 2], [1, 3]]),
            Ok(Some(1))
        )
    );
}

#[test]
fn a_store_numbers_its_sets(rt: HostRuntime) {
    let rows = [[[1, 1], [0, 3]], [[0, 2], [1, 4]]];
    assert!(rt;
        matches!(
            numbers_sets::<DualHornKind>(rt.alloc(), rows, [true, false]),
            Ok(true)
        )
    );
}

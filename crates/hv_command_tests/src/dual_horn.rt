//! Dual Horn formulas: which lines have them, what statements of them cost and answer, alone and
//! beside formulas of the other families.

use crate::statements::{all_right, all_within, none_offered};

// A budget, a proof for the key task, and the texts of which one is the answer.
static ROWS: [(&str, &str, &str); 15] = [
    // the relaxed proof with a formula that only a dual Horn line can have: the query of its first
    // action costs 2
    ("2", "@e 3 d 2 -3 0 1 2 0/%", "0 unsolvable"),
    ("1", "@e 3 d 2 -3 0 1 2 0/%", "1 line 10: budget"),
    // dual Horn clauses, and atoms of the task
    ("2", "e 0 d 1 -1 -2 0/", "1 line 1: family"),
    ("2", "e 0 d 2 1 2 0 -3 -1 2 0/", "1 line 1: family"),
    ("2", "e 0 d 2 1 2 3 -1 0 -2 -2 0/", "1 no conclusion"),
    ("2", "e 0 d 1 -9 0/", "1 line 1: unknown"),
    ("2", "e 0 d 1 4 0/", "1 line 1: unknown"),
    // within one family: what the right formula costs, and its counterexamples
    (
        "1",
        "e 0 d 1 1 2 0/e 1 d 2 1 0 2 0/k 0 s 0 1 b1/",
        "1 line 3: budget",
    ),
    (
        "2",
        "e 0 d 1 1 2 0/e 1 d 2 1 0 2 0/k 0 s 0 1 b1/",
        concat!(
            "1 line 3: false state 0 ;|1 line 3: false state 1 ;|1 line 3: false state 0 2 ;|",
            "1 line 3: false state 1 2 ;"
        ),
    ),
    (
        "2",
        "e 0 d 2 1 0 2 0/e 1 d 1 1 2 0/k 0 s 0 1 b1/",
        "1 no conclusion",
    ),
    // regression
    (
        "1",
        "a 0 a/e 0 d 1 2 3 0/e 1 d 1 1 3 0/e 2 r 0 0/e 3 u 0 1/k 0 s 2 3 b3/",
        "1 no conclusion",
    ),
    (
        "1",
        "a 0 a/e 0 d 1 2 0/e 1 d 1 -1 0/e 2 r 0 0/e 3 d 1 -1 0/k 0 s 2 3 b3/",
        concat!(
            "1 line 6: false action 0 state 0 ;|1 line 6: false action 0 state 0 1 ;|",
            "1 line 6: false action 0 state 0 2 ;|1 line 6: false action 0 state 0 1 2 ;"
        ),
    ),
    // two families: disjointness of a dual Horn formula and a Horn formula isn't offered, but that
    // they cover all states is, and that the one is within the other
    (
        "2",
        "e 0 h 1 -1 0/e 1 d 1 1 2 0/e 2 n 1/k 0 s 0 2 b4/",
        "1 line 4: not offered",
    ),
    (
        "2",
        "e 0 h 1 -1 0/e 1 d 1 1 2 0/e 2 n 0/k 0 s 2 1 b4/",
        "1 no conclusion",
    ),
    (
        "2",
        "e 0 d 1 1 2 0/e 1 h 1 -3 0/k 0 s 0 1 b4/",
        concat!(
            "1 line 3: false state 0 2 ;|1 line 3: false state 1 2 ;|",
            "1 line 3: false state 0 1 2 ;"
        ),
    ),
];

#[test]
fn judges_dual_horn_formulas(rt: HostRuntime) {
    all_within(&rt, rt.alloc(), &ROWS);
}

const BOTH_ATOMS: &str = "d 3 1 2 0 -1 2 0 -2 1 0";

// The sides of an inclusion, two formulas, and the texts of which one is the answer. The formulas
// are the sets 0 and 1, and sets 2 and 3 are their negations. Each claim costs 2.
static PAIRS: [(&str, &str, &str, &str); 36] = [
    ("0 1", "x 2 0 ; 1 ;", "d 1 1 2 0", "1 no conclusion"),
    (
        "0 1",
        "x 2 0 ; 2 ;",
        "d 1 1 2 0",
        "1 line 5: false state 2 ;",
    ),
    ("0 1", "h 2 1 0 2 0", "d 2 1 2 0 2 3 0", "1 no conclusion"),
    (
        "0 1",
        "h 1 1 0",
        "d 2 1 2 0 2 3 0",
        "1 line 5: false state 0 ;",
    ),
    ("0 1", BOTH_ATOMS, "h 2 1 0 2 0", "1 no conclusion"),
    (
        "0 1",
        "d 1 1 2 0",
        "h 2 1 0 2 0",
        concat!(
            "1 line 5: false state 0 ;|1 line 5: false state 0 2 ;|1 line 5: false state 1 ;|",
            "1 line 5: false state 1 2 ;"
        ),
    ),
    (
        "0 1",
        "t 2 1 2 0 -1 2 0",
        "d 2 2 3 0 1 2 3 0",
        "1 no conclusion",
    ),
    (
        "0 1",
        "t 1 1 2 0",
        "d 2 2 3 0 1 2 3 0",
        "1 line 5: false state 0 ;",
    ),
    ("0 1", "d 1 1 0", "t 2 1 2 0 1 -3 0", "1 no conclusion"),
    (
        "0 1",
        "d 1 1 2 3 0",
        "t 2 1 2 0 1 -3 0",
        "1 line 5: false state 2 ;|1 line 5: false state 1 2 ;",
    ),
    ("0 1", "d 2 -1 0 -2 0", "b 3", "1 no conclusion"),
    (
        "0 1",
        "d 1 -1 0",
        "b 3",
        "1 line 5: false state 1 ;|1 line 5: false state 1 2 ;",
    ),
    ("0 1", "b 3", "d 2 1 -2 0 3 -1 0", "1 no conclusion"),
    (
        "0 1",
        "b 2",
        "d 2 -1 0 -2 0",
        "1 line 5: false state 0 ;|1 line 5: false state 0 2 ;",
    ),
    ("0 3", "x 2 0 ; 1 ;", "d 1 3 0", "1 no conclusion"),
    ("0 3", "d 1 3 0", "x 2 0 ; 1 ;", "1 no conclusion"),
    (
        "0 3",
        "x 2 0 ; 2 ;",
        "d 1 2 3 0",
        "1 line 5: false state 2 ;",
    ),
    (
        "0 3",
        "d 1 2 3 0",
        "x 2 0 ; 2 ;",
        "1 line 5: false state 2 ;",
    ),
    ("0 3", "b 4", BOTH_ATOMS, "1 no conclusion"),
    ("0 3", BOTH_ATOMS, "b 4", "1 no conclusion"),
    (
        "0 3",
        "b 4",
        "d 1 2 0",
        "1 line 5: false state 1 ;|1 line 5: false state 1 2 ;",
    ),
    (
        "0 3",
        "d 1 2 0",
        "b 4",
        "1 line 5: false state 1 ;|1 line 5: false state 1 2 ;",
    ),
    ("2 1", "d 2 1 2 0 1 3 0", "h 1 -1 0", "1 no conclusion"),
    (
        "2 1",
        "d 2 1 2 0 1 3 0",
        "h 1 -2 0",
        "1 line 5: false state 1 ;",
    ),
    ("2 1", "h 2 -1 0 -2 0", "d 1 1 2 0", "1 no conclusion"),
    (
        "2 1",
        "h 2 -1 0 -2 0",
        "d 1 1 0",
        "1 line 5: false state 1 ;|1 line 5: false state 1 2 ;",
    ),
    ("2 1", "d 2 1 2 0 1 3 0", "t 1 -1 0", "1 no conclusion"),
    (
        "2 1",
        "d 2 1 2 0 1 3 0",
        "t 1 -2 0",
        "1 line 5: false state 1 ;",
    ),
    ("2 1", "t 2 -1 0 -2 0", "d 1 1 2 3 0", "1 no conclusion"),
    (
        "2 1",
        "t 2 -1 0 -2 0",
        "d 1 1 0",
        "1 line 5: false state 1 ;|1 line 5: false state 1 2 ;",
    ),
    ("2 1", "d 2 1 0 2 0", "b 4", "1 no conclusion"),
    ("2 1", "b 4", "d 2 1 0 2 0", "1 no conclusion"),
    (
        "2 1",
        "d 2 1 0 2 0",
        "b 3",
        concat!(
            "1 line 5: false state 0 ;|1 line 5: false state 0 2 ;|1 line 5: false state 1 ;|",
            "1 line 5: false state 1 2 ;"
        ),
    ),
    (
        "2 1",
        "b 3",
        "d 2 1 0 2 0",
        concat!(
            "1 line 5: false state 0 ;|1 line 5: false state 0 2 ;|1 line 5: false state 1 ;|",
            "1 line 5: false state 1 2 ;"
        ),
    ),
    ("2 1", "d 2 1 2 0 1 3 0", "b 2", "1 line 5: false state 1 ;"),
    ("2 1", "b 3", "d 2 1 2 0 1 2 3 0", "1 no conclusion"),
];

#[test]
fn judges_inclusions_of_dual_horn_formulas(rt: HostRuntime) {
    all_right(&rt, rt.alloc(), &PAIRS);
}

// Inclusions that aren't offered.
static NOT_OFFERED: [(&str, &str, &str); 7] = [
    ("0 1", "d 0", "x 1 0 ;"),
    ("2 1", "d 0", "x 1 0 ;"),
    ("2 1", "x 1 0 ;", "d 0"),
    ("0 3", "d 0", "h 0"),
    ("0 3", "h 0", "d 0"),
    ("0 3", "d 0", "t 0"),
    ("0 3", "t 0", "d 0"),
];

#[test]
fn tells_which_inclusions_of_dual_horn_formulas_are_not_offered(rt: HostRuntime) {
    none_offered(&rt, rt.alloc(), &NOT_OFFERED);
}

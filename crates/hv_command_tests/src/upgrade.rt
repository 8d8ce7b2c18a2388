//! Proofs that are written anew, as closed ones.

use crate::by_nodes::{all_by_words, tells_missing};
use crate::short::{KEY_TASK, all_told};

// What the proof of two states is written as.
const TWO_STATES: &str = "0 helve 2/@e 3 x 2 0 ; 1 ;/%end";

// Proofs for the key task, and the answers to them.
static ROWS: [(&str, &str); 15] = [
    ("@e 3 x 2 0 ; 1 ;/%", TWO_STATES),
    // what is skipped isn't written
    ("# made by hand/@e 3 x 2 0 ; 1 ;/%", TWO_STATES),
    (
        concat!(
            "#/@/e 3 x 2 0 ; 1 ;/# the rest/e 4 p 3 0/e 5 u 3 0/e 6 i 3 2/k 1 s 4 5 b2/",
            "k 2 s 6 0 b1/k 3 d 6 sd 2 0//k 4 d 3 pg 1 0 3/k 5 s 1 3 b1/k 6 d 1 sd 5 4/k 7 u ci 6"
        ),
        TWO_STATES,
    ),
    // a closed proof is written as it is, but for what is skipped
    ("helve 2/@e 3 x 2 0 ; 1 ;/%end/", TWO_STATES),
    ("helve 2//@e 3 x 2 0 ; 1 ;/%# so/end//# behind", TWO_STATES),
    // lines behind the conclusion stay
    (
        "@e 3 x 2 0 ; 1 ;/%k 8 s 1 1 b1/",
        "0 helve 2/@e 3 x 2 0 ; 1 ;/%k 8 s 1 1 b1/end",
    ),
    // a state is missing
    ("@e 3 x 1 0 ;/%", "1 line 10: false action 0 state 0 ;"),
    (
        "helve 2/@e 3 x 1 0 ;/%end/",
        "1 line 11: false action 0 state 0 ;",
    ),
    // a line is refused after the conclusion
    ("@e 3 x 2 0 ; 1 ;/%k 9 s 1 1 b1/", "1 line 17: number"),
    // the last line of a closed proof is missing, or isn't the last one
    ("helve 2/@e 3 x 2 0 ; 1 ;/%", "1 line 18: grammar"),
    ("helve 2/@e 3 x 2 0 ; 1 ;/%end/a 1 a/", "1 line 19: grammar"),
    ("@e 3 x 2 0 ; 1 ;/%end/", "1 line 17: grammar"),
    ("helve 2/@end/", "1 no conclusion"),
    ("@", "1 no conclusion"),
    ("", "1 no conclusion"),
];

// What the proof by a diagram is written as.
const NODE_ANSWER: &str = "0 helve 2/@e 3 b 2/%end";

// Words, and the answer to a proof by a diagram. Its dearest query, that of line 14, has three live
// tuples: the initial state is a chain of three nodes.
static OPTIONS: [(&str, &str); 8] = [
    ("upgrade task proof --nodes nodes", NODE_ANSWER),
    (
        "upgrade task proof --budget 16777216 --nodes nodes",
        NODE_ANSWER,
    ),
    ("upgrade task proof --nodes nodes --budget 3", NODE_ANSWER),
    (
        "upgrade task proof --nodes nodes --budget 2",
        "1 line 14: budget",
    ),
    ("upgrade task proof --budget 7", "1 line 6: unknown"),
    (
        "upgrade task proof --nodes task",
        "3 nodes line 1: place header",
    ),
    ("upgrade proof proof", "3 task line 1: place begin_atoms"),
    ("upgrade task", "2 usage: helve COMMAND ARGUMENTS"),
];

#[test]
fn writes_closed_proofs(rt: HostRuntime) {
    all_told(&rt, rt.alloc(), "upgrade task proof", KEY_TASK, &ROWS);
}

#[test]
fn takes_the_options_of_a_check(rt: HostRuntime) {
    all_by_words(&rt, rt.alloc(), &OPTIONS);
    assert!(rt; tells_missing(rt.alloc(), "upgrade task missing") == Ok(true));
}

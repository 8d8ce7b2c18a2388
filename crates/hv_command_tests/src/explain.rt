//! Proofs that are explained.

use crate::by_nodes::{NEEDED, all_by_words, tells_missing};
use crate::short::{KEY_TASK, all_told};

// Proofs for the key task, and the answers to them.
static ROWS: [(&str, &str); 9] = [
    // a line behind the conclusion
    (
        "@e 3 x 2 0 ; 1 ;/%k 8 s 1 1 b1/",
        concat!(
            "0 k 0 d 0 ed needed/k 1 s 4 5 b2 needed/k 2 s 6 0 b1 needed/k 3 d 6 sd 2 0 needed/",
            "k 4 d 3 pg 1 0 3 needed/k 5 s 1 3 b1 needed/k 6 d 1 sd 5 4 needed/k 7 u ci 6 needed/",
            "k 8 s 1 1 b1 spare"
        ),
    ),
    // a line among those that the conclusion rests on, and no last LF; skipped lines aren't told of
    (
        concat!(
            "# by hand/@k 1 s 1 1 b1//e 3 x 2 0 ; 1 ;/e 4 p 3 0/e 5 u 3 0/e 6 i 3 2/k 2 s 4 5 b2/",
            "k 3 s 6 0 b1/k 4 d 6 sd 3 0/k 5 d 3 pg 2 0 4/k 6 s 1 3 b1/k 7 d 1 sd 6 5/k 8 u ci 7"
        ),
        concat!(
            "0 k 0 d 0 ed needed/k 1 s 1 1 b1 spare/k 2 s 4 5 b2 needed/k 3 s 6 0 b1 needed/",
            "k 4 d 6 sd 3 0 needed/k 5 d 3 pg 2 0 4 needed/k 6 s 1 3 b1 needed/",
            "k 7 d 1 sd 6 5 needed/k 8 u ci 7 needed"
        ),
    ),
    // a later conclusion, and lines that rest on premises which are needed
    (
        "@e 3 h 1 -3 0/%k 8 s 1 3 b1/k 9 d 1 sd 8 4/k 10 u ci 9/k 11 d 6 sd 2 0/",
        concat!(
            "0 k 0 d 0 ed needed/k 1 s 4 5 b2 needed/k 2 s 6 0 b1 needed/k 3 d 6 sd 2 0 needed/",
            "k 4 d 3 pg 1 0 3 needed/k 5 s 1 3 b1 needed/k 6 d 1 sd 5 4 needed/k 7 u ci 6 needed/",
            "k 8 s 1 3 b1 spare/k 9 d 1 sd 8 4 spare/k 10 u ci 9 spare/k 11 d 6 sd 2 0 spare"
        ),
    ),
    // a line of which two copies are made, and one is used
    (
        concat!(
            "@k 1 d 0 ed/e 3 h 1 -3 0/e 4 p 3 0/e 5 u 3 0/e 6 i 3 2/k 2 s 4 5 b2/k 3 s 6 0 b1/",
            "k 4 d 6 sd 3 1/k 5 d 3 pg 2 1 4/k 6 s 1 3 b1/k 7 d 1 sd 6 5/k 8 u ci 7/"
        ),
        concat!(
            "0 k 0 d 0 ed spare/k 1 d 0 ed needed/k 2 s 4 5 b2 needed/k 3 s 6 0 b1 needed/",
            "k 4 d 6 sd 3 1 needed/k 5 d 3 pg 2 1 4 needed/k 6 s 1 3 b1 needed/",
            "k 7 d 1 sd 6 5 needed/k 8 u ci 7 needed"
        ),
    ),
    // a state is missing
    ("@e 3 x 1 0 ;/%", "1 line 10: false action 0 state 0 ;"),
    // a line is refused after the conclusion
    ("@e 3 x 2 0 ; 1 ;/%k 9 s 1 1 b1/", "1 line 17: number"),
    ("@", "1 no conclusion"),
    ("", "1 no conclusion"),
    ("k 0 u ci 0/", "1 line 1: unknown"),
];

// Words, and the answer to a proof by a diagram.
static OPTIONS: [(&str, &str); 6] = [
    ("explain task proof --nodes nodes", NEEDED),
    ("explain task proof --budget 16777216 --nodes nodes", NEEDED),
    ("explain task proof --nodes nodes --budget 1000000", NEEDED),
    ("explain task proof --budget 7", "1 line 6: unknown"),
    (
        "explain task proof --nodes task",
        "3 nodes line 1: place header",
    ),
    ("explain proof proof", "3 task line 1: place begin_atoms"),
];

#[test]
fn tells_needed_and_spare_lines(rt: HostRuntime) {
    all_told(&rt, rt.alloc(), "explain task proof", KEY_TASK, &ROWS);
}

#[test]
fn takes_the_options_of_a_check(rt: HostRuntime) {
    all_by_words(&rt, rt.alloc(), &OPTIONS);
    assert!(rt; tells_missing(rt.alloc(), "explain task missing") == Ok(true));
}

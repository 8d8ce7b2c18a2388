//! Closed proofs: they begin with the line `helve 2`, and end with the line `end`.

use crate::check::needs_the_proof;
use crate::short::{KEY_TASK, all_told, told, written};
use std::alloc::{AllocError, Global};

// The explicit proof of two states as a closed proof.
const TWO_STATES: &str = "helve 2/@e 3 x 2 0 ; 1 ;/%end/";

// Proofs for the key task that are closed, or should be.
static CLOSED: [(&str, &str); 14] = [
    (TWO_STATES, "0 unsolvable"),
    // without the last LF
    ("helve 2/@e 3 x 2 0 ; 1 ;/%end", "0 unsolvable"),
    // comments and empty lines, behind the end too
    (
        "helve 2//# by hand/@e 3 x 2 0 ; 1 ;/%# now/end/# end//#end/",
        "0 unsolvable",
    ),
    ("helve 2/end/", "1 no conclusion"),
    ("helve 2/@end", "1 no conclusion"),
    (
        "helve 2/@e 3 x 1 0 ;/%end/",
        "1 line 11: false action 0 state 0 ;",
    ),
    // the end is missing
    ("helve 2/@e 3 x 2 0 ; 1 ;/%", "1 line 18: grammar"),
    ("helve 2/@e 3 x 2 0 ; 1 ;/%# end/", "1 line 19: grammar"),
    ("helve 2/@# x//", "1 line 9: grammar"),
    (
        "helve 2/@e 3 x 1 0 ;/%",
        "1 line 11: false action 0 state 0 ;",
    ),
    // something is behind the end
    ("helve 2/@e 3 x 2 0 ; 1 ;/%end/a 1 a/", "1 line 19: grammar"),
    (
        "helve 2/@e 3 x 2 0 ; 1 ;/%end/# x//k 8 u ci 6/",
        "1 line 21: grammar",
    ),
    ("helve 2/@e 3 x 2 0 ; 1 ;/%end/end/", "1 line 19: grammar"),
    (
        "helve 2/@e 3 x 1 0 ;/%end/end/",
        "1 line 11: false action 0 state 0 ;",
    ),
];

// Lines that are nearly one of the two marks, and the marks at other places.
static MARKS: [(&str, &str); 21] = [
    ("helve 2", "1 line 2: grammar"),
    ("helve 2/", "1 line 2: grammar"),
    ("# x/helve 2/@e 3 x 2 0 ; 1 ;/%end/", "1 line 2: grammar"),
    ("/helve 2/@e 3 x 2 0 ; 1 ;/%end/", "1 line 2: grammar"),
    (
        "helve 2/helve 2/@e 3 x 2 0 ; 1 ;/%end/",
        "1 line 2: grammar",
    ),
    ("@helve 2/e 3 x 2 0 ; 1 ;/%end/", "1 line 6: grammar"),
    (
        "helve 2/@e 3 x 2 0 ; 1 ;/%end/helve 2/",
        "1 line 19: grammar",
    ),
    ("helve 2\r/@e 3 x 2 0 ; 1 ;/%end/", "1 line 1: grammar"),
    ("helve 2 /@e 3 x 2 0 ; 1 ;/%end/", "1 line 1: grammar"),
    (" helve 2/@e 3 x 2 0 ; 1 ;/%end/", "1 line 1: grammar"),
    ("helve 1/@e 3 x 2 0 ; 1 ;/%", "1 line 1: grammar"),
    ("helve 3/@e 3 x 2 0 ; 1 ;/%end/", "1 line 1: grammar"),
    ("helve 20/@e 3 x 2 0 ; 1 ;/%end/", "1 line 1: grammar"),
    ("helve/@e 3 x 2 0 ; 1 ;/%end/", "1 line 1: grammar"),
    ("end/", "1 line 1: grammar"),
    ("@e 3 x 2 0 ; 1 ;/%end/", "1 line 17: grammar"),
    ("helve 2/@e 3 x 2 0 ; 1 ;/%end /", "1 line 18: grammar"),
    ("helve 2/@e 3 x 2 0 ; 1 ;/%end\r/", "1 line 18: grammar"),
    ("helve 2/@e 3 x 2 0 ; 1 ;/% end/", "1 line 18: grammar"),
    ("helve 2/@e 3 x 2 0 ; 1 ;/%ends/", "1 line 18: grammar"),
    ("helve 2/@e 3 x 2 0 ; 1 ;/%en", "1 line 18: grammar"),
];

// Closed proofs, and which of their lines are needed.
static EXPLAINED: [(&str, &str); 5] = [
    (
        "helve 2/@e 3 x 2 0 ; 1 ;/%k 8 s 1 1 b1/end/# behind/",
        concat!(
            "0 k 0 d 0 ed needed/k 1 s 4 5 b2 needed/k 2 s 6 0 b1 needed/k 3 d 6 sd 2 0 needed/",
            "k 4 d 3 pg 1 0 3 needed/k 5 s 1 3 b1 needed/k 6 d 1 sd 5 4 needed/k 7 u ci 6 needed/",
            "k 8 s 1 1 b1 spare"
        ),
    ),
    (
        "helve 2/@e 3 x 2 0 ; 1 ;/%k 8 s 1 1 b1/",
        "1 line 19: grammar",
    ),
    ("helve 2/@e 3 x 2 0 ; 1 ;/%end/a 1 a/", "1 line 19: grammar"),
    (
        "helve 2/@e 3 x 1 0 ;/%end/",
        "1 line 11: false action 0 state 0 ;",
    ),
    ("helve 2/@end/", "1 no conclusion"),
];

#[test]
fn judges_closed_proofs(rt: HostRuntime) {
    all_told(&rt, rt.alloc(), "check task proof", KEY_TASK, &CLOSED);
}

#[test]
fn takes_the_marks_at_their_places_alone(rt: HostRuntime) {
    all_told(&rt, rt.alloc(), "check task proof", KEY_TASK, &MARKS);
}

#[test]
fn explains_closed_proofs(rt: HostRuntime) {
    all_told(&rt, rt.alloc(), "explain task proof", KEY_TASK, &EXPLAINED);
}

// Whether a line of this part of the closed proof is refused.
fn is_refused(alloc: Global, task: &[u8], part: &[u8]) -> Result<bool, AllocError> {
    let told = told(alloc, "check task proof", task, part)?;
    Ok(told.as_slice().starts_with(b"1 line "))
}

// Whether a line is refused of each part of the closed proof, but of the empty one, of the whole,
// and of the whole without its last LF.
fn each_cut_is_refused(alloc: Global, task: &[u8], proof: &[u8]) -> Result<bool, AllocError> {
    let mut right = true;
    for end in 0..proof.len() + 1 {
        let kept = (end == 0) | (end + 1 >= proof.len());
        right &= is_refused(alloc, task, &proof[..end])? != kept;
    }
    Ok(right)
}

// Whether only the whole closed proof, and the whole without its last LF, shows that the key task
// is unsolvable, and of every other part but the empty one a line is refused.
fn key_task_needs_the_end(alloc: Global) -> Result<bool, AllocError> {
    let task = written(alloc, KEY_TASK)?;
    let proof = written(alloc, TWO_STATES)?;
    let needed = needs_the_proof(alloc, task.as_slice(), proof.as_slice())?;
    Ok(needed & each_cut_is_refused(alloc, task.as_slice(), proof.as_slice())?)
}

#[test]
fn needs_the_whole_closed_proof(rt: HostRuntime) {
    assert!(rt; key_task_needs_the_end(rt.alloc()) == Ok(true));
}

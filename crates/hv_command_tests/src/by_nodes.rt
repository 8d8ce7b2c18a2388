//! Proofs for the key task by the nodes of a node file, and what the jobs that judge a proof tell
//! of them.

use crate::short::{KEY_TASK, is_one_of, told_by, written};
use std::alloc::{AllocError, Global};
use std::process::Abort;

/// A proof by a diagram of the states that don't have the key.
pub(crate) const NODE_PROOF: &str = "@e 3 b 2/%";

/// The node of this diagram.
pub(crate) const NODES: &str = "nodes 1/2 1 0/";

/// What an explanation tells where set 3 stands between the lines that most proofs begin with and
/// those behind it: each line is needed.
pub(crate) const NEEDED: &str = concat!(
    "0 k 0 d 0 ed needed/k 1 s 4 5 b2 needed/k 2 s 6 0 b1 needed/k 3 d 6 sd 2 0 needed/",
    "k 4 d 3 pg 1 0 3 needed/k 5 s 1 3 b1 needed/k 6 d 1 sd 5 4 needed/k 7 u ci 6 needed"
);

// What these words tell of the key task, this proof and these nodes.
fn told_of_key(
    alloc: Global,
    words: &str,
    proof: &[u8],
    nodes: &[u8],
) -> Result<Vec<u8>, AllocError> {
    let task = written(alloc, KEY_TASK)?;
    told_by(alloc, words, task.as_slice(), proof, nodes, false)
}

/// Whether these words tell one of these answers of the key task, this proof and these nodes.
pub(crate) fn tells_of_key(
    alloc: Global,
    words: &str,
    proof: &[u8],
    nodes: &[u8],
    answers: &str,
) -> Result<bool, AllocError> {
    let told = told_of_key(alloc, words, proof, nodes)?;
    is_one_of(alloc, told.as_slice(), answers)
}

/// The same, with the nodes and the proof in short form.
pub(crate) fn tells_by_nodes(
    alloc: Global,
    words: &str,
    nodes: &str,
    proof: &str,
    answers: &str,
) -> Result<bool, AllocError> {
    let proof = written(alloc, proof)?;
    let nodes = written(alloc, nodes)?;
    tells_of_key(alloc, words, proof.as_slice(), nodes.as_slice(), answers)
}

/// Asserts that each of these words tells its answer of the proof by the diagram.
pub(crate) fn all_by_words(rt: &impl Abort, alloc: Global, rows: &[(&str, &str)]) {
    for (words, answer) in rows {
        assert!(rt;
            tells_by_nodes(alloc, words, NODES, NODE_PROOF, answer) == Ok(true),
            "{words}"
        );
    }
}

/// Whether these words tell that a file is missing: nothing is written.
pub(crate) fn tells_missing(alloc: Global, words: &str) -> Result<bool, AllocError> {
    let told = told_of_key(alloc, words, b"", b"")?;
    Ok(told.as_slice() == b"4 ".as_slice())
}

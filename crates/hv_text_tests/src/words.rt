//! Tests of words: those that are taken, and those that aren't.

use hv_words::{CheckWords, read_check, read_one, read_two};
use std::alloc::{AllocError, Global};

/// Puts the word last.
fn push_word(alloc: Global, words: &mut Vec<String>, word: &str) -> Result<(), AllocError> {
    let word = String::from_str(alloc, word)?;
    words.push(word)?;
    Ok(())
}

/// The list of these words.
fn listed(alloc: Global, list: &[&str]) -> Result<Vec<String>, AllocError> {
    let mut words = Vec::new(alloc);
    for word in list {
        push_word(alloc, &mut words, word)?;
    }
    Ok(words)
}

/// Words of a check of the task `t` and the proof `p`, and the nodes and the budget that they name.
static CHECKS: [(&[&str], Option<&str>, Option<&str>); 5] = [
    (&["t", "p"], None, None),
    (&["t", "p", "--nodes", "n"], Some("n"), None),
    (&["t", "p", "--budget", "b"], None, Some("b")),
    (
        &["t", "p", "--nodes", "n", "--budget", "b"],
        Some("n"),
        Some("b"),
    ),
    (
        &["t", "p", "--budget", "b", "--nodes", "n"],
        Some("n"),
        Some("b"),
    ),
];

/// Whether the words are taken as those of a check that names these files.
fn names(
    alloc: Global,
    list: &[&str],
    nodes: Option<&str>,
    budget: Option<&str>,
) -> Result<bool, AllocError> {
    let words = listed(alloc, list)?;
    let expected = CheckWords {
        task: "t",
        proof: "p",
        nodes,
        budget,
    };
    Ok(read_check(alloc, "check", words.as_slice())? == Some(expected))
}

#[test]
fn takes_the_words_of_a_check(rt: HostRuntime) {
    for (list, nodes, budget) in &CHECKS {
        assert!(rt;
            names(rt.alloc(), list, *nodes, *budget) == Ok(true),
            "{list:?}"
        );
    }
}

/// Words that are none of a check.
static NO_CHECKS: [&[&str]; 17] = [
    &[],
    &["t"],
    &["t", "p", "q"],
    &["", "p"],
    &["t", ""],
    &["-t", "p"],
    &["t", "-p"],
    &["t", "p", "--nodes"],
    &["t", "p", "--nodes", "-n"],
    &["t", "p", "--nodes=n"],
    &["t", "p", "--", "--nodes", "n"],
    &["--nodes", "n", "t", "p"],
    &["t", "--nodes", "n", "p"],
    &["t", "p", "--help"],
    &["t", "p", "--nodes", "n", "--nodes", "m"],
    &["t", "p", "--nodes", "n", "--budget"],
    &["t", "p", "--nodes", "n", "--budget", "b", "q"],
];

/// Whether the words are none of a check.
fn is_refused(alloc: Global, list: &[&str]) -> Result<bool, AllocError> {
    let words = listed(alloc, list)?;
    Ok(read_check(alloc, "check", words.as_slice())?.is_none())
}

#[test]
fn refuses_other_words_of_a_check(rt: HostRuntime) {
    for list in &NO_CHECKS {
        assert!(rt; is_refused(rt.alloc(), list) == Ok(true), "{list:?}");
    }
}

/// Whether the words are taken as this one argument.
fn is_one(alloc: Global, list: &[&str], one: Option<&str>) -> Result<bool, AllocError> {
    let words = listed(alloc, list)?;
    Ok(read_one(alloc, "sample", words.as_slice())? == one)
}

/// Whether the words are taken as these two arguments.
fn is_two(alloc: Global, list: &[&str], two: Option<(&str, &str)>) -> Result<bool, AllocError> {
    let words = listed(alloc, list)?;
    Ok(read_two(alloc, "produce", words.as_slice())? == two)
}

/// Words, and the one or the two arguments that they are taken as.
static ARGUMENTS: [(&[&str], Option<&str>, Option<(&str, &str)>); 7] = [
    (&[], None, None),
    (&["3"], Some("3"), None),
    (&["-3"], None, None),
    (&["", ""], None, None),
    (&["kind", "task"], None, Some(("kind", "task"))),
    (&["kind", "-t"], None, None),
    (&["one", "two", "three"], None, None),
];

#[test]
fn takes_one_argument_or_two(rt: HostRuntime) {
    for (list, one, two) in &ARGUMENTS {
        assert!(rt; is_one(rt.alloc(), list, *one) == Ok(true), "{list:?}");
        assert!(rt; is_two(rt.alloc(), list, *two) == Ok(true), "{list:?}");
    }
}

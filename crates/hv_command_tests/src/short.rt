//! What the tests of the whole product share: texts of tasks, short forms of proofs, and one call
//! of `run` in memory. Every expected text is derived from the formats by hand.

ghost use Rattle.std.specs.Prelude.{◌≤◌};

use crate::pruners::{pruners_of, three_pruners};
use hv_bytes::{MemoryShelf, MemorySink};
use hv_command::{Status, Words, run};
use hv_lines::Pruner;
use std::alloc::{AllocError, Global};
use std::process::Abort;

/// The key task: a robot goes between two places, and nothing ever gives it the key.
pub(crate) const KEY_TASK: &str = concat!(
    "begin_atoms:3/Atom at(r, a)/Atom at(r, b)/Atom have(key)/end_atoms/begin_init/0/end_init/",
    "begin_goal/2/end_goal/begin_actions:2/begin_action/go a b/cost:1/PRE:0/ADD:1/DEL:0/",
    "end_action/begin_action/go b a/cost:1/PRE:1/ADD:0/DEL:1/end_action/end_actions/"
);

/// The same with the goal that the robot stands where it begins.
pub(crate) const GOAL_AT_THE_START: &str = concat!(
    "begin_atoms:3/Atom at(r, a)/Atom at(r, b)/Atom have(key)/end_atoms/begin_init/0/end_init/",
    "begin_goal/0/end_goal/begin_actions:2/begin_action/go a b/cost:1/PRE:0/ADD:1/DEL:0/",
    "end_action/begin_action/go b a/cost:1/PRE:1/ADD:0/DEL:1/end_action/end_actions/"
);

/// Two atoms of which each action exchanges one for the other; both are wanted.
pub(crate) const ONE_OF_TWO: &str = concat!(
    "begin_atoms:2/p/q/end_atoms/begin_init/0/end_init/begin_goal/0/1/end_goal/begin_actions:2/",
    "begin_action/to q/cost:1/PRE:0/ADD:1/DEL:0/end_action/begin_action/to p/cost:1/PRE:1/ADD:0/",
    "DEL:1/end_action/end_actions/"
);

/// Three wishes, of which each action grants one and takes the next one back.
pub(crate) const THREE_WISHES: &str = concat!(
    "begin_atoms:3/g1/g2/g3/end_atoms/begin_init/0/end_init/begin_goal/0/1/2/end_goal/",
    "begin_actions:3/begin_action/first/cost:1/ADD:0/DEL:1/end_action/begin_action/second/cost:1/",
    "ADD:1/DEL:2/end_action/begin_action/third/cost:1/ADD:2/DEL:0/end_action/end_actions/"
);

// The lines that most proofs begin with.
const FRONT: &str = "a 0 a\ne 0 c e\ne 1 c i\ne 2 c g\nk 0 d 0 ed\n";

// The lines behind set 3 of a proof in which no state of the set leads out of it.
const REST: &str = concat!(
    "e 4 p 3 0\ne 5 u 3 0\ne 6 i 3 2\nk 1 s 4 5 b2\nk 2 s 6 0 b1\n",
    "k 3 d 6 sd 2 0\nk 4 d 3 pg 1 0 3\nk 5 s 1 3 b1\nk 6 d 1 sd 5 4\nk 7 u ci 6\n"
);

// Puts what a letter of a short form denotes last.
fn put_letter(text: &mut Vec<u8>, letter: u8) -> Result<(), AllocError> {
    match letter {
        b'/' => text.push(b'\n')?,
        b'@' => text.extend_from_slice(FRONT.as_bytes())?,
        b'%' => text.extend_from_slice(REST.as_bytes())?,
        other => text.push(other)?,
    }
    Ok(())
}

// Puts what a short form denotes last.
fn put_letters(text: &mut Vec<u8>, short: &str) -> Result<(), AllocError> {
    for letter in short.as_bytes() {
        put_letter(text, *letter)?;
    }
    Ok(())
}

/// The text that a short form denotes: `/` is an LF, `@` the lines that most proofs begin with,
/// and `%` those behind set 3.
pub(crate) fn written(alloc: Global, short: &str) -> Result<Vec<u8>, AllocError> {
    let mut text = Vec::new(alloc);
    put_letters(&mut text, short)?;
    Ok(text)
}

/// Puts the names of so many atoms last.
pub(crate) fn put_names(task: &mut String, atoms: u32) -> Result<(), AllocError> {
    for atom in 0..atoms {
        write!(task, "x{atom}/")?;
    }
    Ok(())
}

/// The files of a run: a task, a proof, and nodes.
#[derive(Clone, Copy)]
pub(crate) struct Files<'a> {
    pub(crate) task: &'a [u8],
    pub(crate) proof: &'a [u8],
    pub(crate) nodes: &'a [u8],
}

// Adds these three files.
fn add_files(shelf: &mut MemoryShelf, files: Files<'_>) -> Result<(), AllocError> {
    shelf.add("task", files.task)?;
    shelf.add("proof", files.proof)?;
    shelf.add("nodes", files.nodes)
}

// A shelf with these three files.
fn shelf_of(alloc: Global, step: usize, files: Files<'_>) -> Result<MemoryShelf, AllocError>
    requires { 1 ≤ step }
{
    let mut shelf = MemoryShelf::new(alloc, step);
    add_files(&mut shelf, files)?;
    Ok(shelf)
}

// A shelf with these files, of which 7 bytes are read at once and the call of this number fails.
fn faulty_shelf(alloc: Global, files: Files<'_>, call: u64) -> Result<MemoryShelf, AllocError> {
    let mut shelf = shelf_of(alloc, 7, files)?;
    shelf.fail_at(call)?;
    Ok(shelf)
}

// A sink whose write of this number fails.
fn faulty_sink(alloc: Global, write: u64) -> Result<MemorySink, AllocError> {
    let mut sink = MemorySink::new(alloc, 10, 65536)?;
    sink.fail_at(write)?;
    Ok(sink)
}

/// Puts the words of the text last, which are parted by single spaces; no text is no word.
pub(crate) fn put_words(words: &mut Words, text: &str) -> Result<(), AllocError> {
    if text.is_empty() {
        return Ok(());
    }
    for word in text.split(' ') {
        words.push(word)?;
    }
    Ok(())
}

// Runs the words of a text.
fn run_text(
    alloc: Global,
    text: &str,
    shelf: &mut MemoryShelf,
    sink: &mut MemorySink,
    pruners: Vec<Box<dyn Pruner>>,
) -> Result<Status, AllocError> {
    let mut words = Words::new(alloc);
    put_words(&mut words, text)?;
    Ok(run(alloc, &words, shelf, sink, pruners))
}

// Puts the number of the status, a space, and what was printed last.
fn put_told(told: &mut Vec<u8>, status: Status, printed: &[u8]) -> Result<(), AllocError> {
    told.push(b'0'.wrapping_add(status.number()))?;
    told.push(b' ')?;
    told.extend_from_slice(printed)?;
    Ok(())
}

// The number of the status, a space, and what was printed.
fn told_text(alloc: Global, status: Status, printed: &[u8]) -> Result<Vec<u8>, AllocError> {
    let mut told = Vec::new(alloc);
    put_told(&mut told, status, printed)?;
    Ok(told)
}

// Runs the words: the number of the status, a space, and what was printed.
fn answer(
    alloc: Global,
    words: &str,
    shelf: &mut MemoryShelf,
    sink: &mut MemorySink,
    pruners: Vec<Box<dyn Pruner>>,
) -> Result<Vec<u8>, AllocError> {
    let status = run_text(alloc, words, shelf, sink, pruners)?;
    told_text(alloc, status, sink.bytes())
}

// What the words tell of the files of this shelf.
fn told_of_shelf(
    alloc: Global,
    words: &str,
    shelf: &mut MemoryShelf,
    pruners: Vec<Box<dyn Pruner>>,
) -> Result<Vec<u8>, AllocError> {
    let mut sink = MemorySink::new(alloc, 10, 65536)?;
    answer(alloc, words, shelf, &mut sink, pruners)
}

/// What these words tell of these files with these pruners: the number of the status, a space, and
/// what was printed.
pub(crate) fn told_with(
    alloc: Global,
    words: &str,
    files: Files<'_>,
    pruners: Vec<Box<dyn Pruner>>,
) -> Result<Vec<u8>, AllocError> {
    let mut shelf = shelf_of(alloc, 4096, files)?;
    told_of_shelf(alloc, words, &mut shelf, pruners)
}

/// The same with the three pruners or with none.
pub(crate) fn told_by(
    alloc: Global,
    words: &str,
    task: &[u8],
    proof: &[u8],
    nodes: &[u8],
    pruned: bool,
) -> Result<Vec<u8>, AllocError> {
    let pruners = pruners_of(alloc, pruned)?;
    told_with(alloc, words, Files { task, proof, nodes }, pruners)
}

/// The same without pruners and nodes.
pub(crate) fn told(
    alloc: Global,
    words: &str,
    task: &[u8],
    proof: &[u8],
) -> Result<Vec<u8>, AllocError> {
    told_by(alloc, words, task, proof, b"", false)
}

// What the words tell of the files of this shelf where the sink's write of this number fails.
fn told_to_faulty(
    alloc: Global,
    words: &str,
    shelf: &mut MemoryShelf,
    write: u64,
) -> Result<Vec<u8>, AllocError> {
    let mut sink = faulty_sink(alloc, write)?;
    let pruners = three_pruners(alloc)?;
    answer(alloc, words, shelf, &mut sink, pruners)
}

/// What the words tell of these files, with the three pruners, where the shelf's call and the
/// sink's write of these numbers fail. The shelf reads 7 bytes at once, and the sink takes 10. No
/// call has the number 0.
pub(crate) fn told_with_fault(
    alloc: Global,
    words: &str,
    files: Files<'_>,
    call: u64,
    write: u64,
) -> Result<Vec<u8>, AllocError> {
    let mut shelf = faulty_shelf(alloc, files, call)?;
    told_to_faulty(alloc, words, &mut shelf, write)
}

/// Whether what was said is the text of this short form and an LF.
pub(crate) fn is_text(alloc: Global, told: &[u8], short: &str) -> Result<bool, AllocError> {
    let mut text = written(alloc, short)?;
    text.push(b'\n')?;
    Ok(text.as_slice() == told)
}

/// Whether what was said is one of these answers, which are parted by `|`.
pub(crate) fn is_one_of(alloc: Global, told: &[u8], answers: &str) -> Result<bool, AllocError> {
    for answer in answers.split('|') {
        if is_text(alloc, told, answer)? {
            return Ok(true);
        }
    }
    Ok(false)
}

// Whether the words tell one of these answers, of these files.
fn tells_of(
    alloc: Global,
    words: &str,
    task: &[u8],
    proof: &[u8],
    answers: &str,
) -> Result<bool, AllocError> {
    let told = told(alloc, words, task, proof)?;
    is_one_of(alloc, told.as_slice(), answers)
}

/// Whether the words tell one of these answers, of files in short form.
pub(crate) fn tells(
    alloc: Global,
    words: &str,
    task: &str,
    proof: &str,
    answers: &str,
) -> Result<bool, AllocError> {
    let task = written(alloc, task)?;
    let proof = written(alloc, proof)?;
    tells_of(alloc, words, task.as_slice(), proof.as_slice(), answers)
}

/// Whether these words, of a check, are answered by yes.
pub(crate) fn is_done(
    alloc: Global,
    words: &str,
    task: &[u8],
    proof: &[u8],
) -> Result<bool, AllocError> {
    let told = told(alloc, words, task, proof)?;
    Ok(told.as_slice() == b"0 unsolvable\n".as_slice())
}

/// Asserts that the words tell of this task and each proof its answer.
pub(crate) fn all_told(
    rt: &impl Abort,
    alloc: Global,
    words: &str,
    task: &str,
    rows: &[(&str, &str)],
) {
    for (proof, answers) in rows {
        assert!(rt;
            tells(alloc, words, task, proof, answers) == Ok(true),
            "{proof}"
        );
    }
}

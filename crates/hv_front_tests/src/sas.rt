//! Tests of translator files: spellings, cut texts, limits, failing reads, and the tasks that are
//! made of them.

ghost use Rattle.std.specs.Prelude.{◌<◌, ◌≤◌, ◌^◌, IfOk, length};
ghost use Rattle.hv_sas.specs.Sound.{IsSoundSas};

use hv_bytes::{Limits, MemoryShelf, SureShelf};
use hv_sas::{Sas, SasFault, read_sas, to_strips};
use hv_task::Task;
use hv_task_text::write_task;
use std::alloc::{AllocError, Global};

const NAME: &str = "sas";

/// A line of a text, the word of its part, and whether it is a name, so that a beginning of it is
/// one as well.
type TextRow = (&'static str, &'static str, bool);

/// A lamp and its switch.
static SWITCH: [TextRow; 31] = [
    ("begin_version", "version", false),
    ("3", "version", false),
    ("end_version", "version", false),
    ("begin_metric", "metric", false),
    ("0", "metric", false),
    ("end_metric", "metric", false),
    ("1", "variables", false),
    ("begin_variable", "variable", false),
    ("var0", "variable", true),
    ("-1", "variable", false),
    ("2", "variable", false),
    ("Atom lit()", "variable", true),
    ("NegatedAtom lit()", "variable", true),
    ("end_variable", "variable", false),
    ("0", "mutexes", false),
    ("begin_state", "state", false),
    ("1", "state", false),
    ("end_state", "state", false),
    ("begin_goal", "goal", false),
    ("1", "goal", false),
    ("0 0", "goal", false),
    ("end_goal", "goal", false),
    ("1", "operators", false),
    ("begin_operator", "operator", false),
    ("switch", "operator", true),
    ("0", "operator", false),
    ("1", "operator", false),
    ("0 0 1 0", "operator", false),
    ("5", "operator", false),
    ("end_operator", "operator", false),
    ("0", "axioms", false),
];

/// A robot in one of three rooms, and a key that it has or that lies in the middle room.
static KEY: [TextRow; 73] = [
    ("begin_version", "version", false),
    ("3", "version", false),
    ("end_version", "version", false),
    ("begin_metric", "metric", false),
    ("1", "metric", false),
    ("end_metric", "metric", false),
    ("2", "variables", false),
    ("begin_variable", "variable", false),
    ("robot", "variable", true),
    ("-1", "variable", false),
    ("3", "variable", false),
    ("Atom at(left)", "variable", true),
    ("Atom at(middle)", "variable", true),
    ("Atom at(right)", "variable", true),
    ("end_variable", "variable", false),
    ("begin_variable", "variable", false),
    ("key", "variable", true),
    ("-1", "variable", false),
    ("2", "variable", false),
    ("Atom has(key)", "variable", true),
    ("Atom lies(key)", "variable", true),
    ("end_variable", "variable", false),
    ("2", "mutexes", false),
    ("begin_mutex_group", "mutex", false),
    ("2", "mutex", false),
    ("0 0", "mutex", false),
    ("0 1", "mutex", false),
    ("end_mutex_group", "mutex", false),
    ("begin_mutex_group", "mutex", false),
    ("0", "mutex", false),
    ("end_mutex_group", "mutex", false),
    ("begin_state", "state", false),
    ("0", "state", false),
    ("1", "state", false),
    ("end_state", "state", false),
    ("begin_goal", "goal", false),
    ("2", "goal", false),
    ("0 2", "goal", false),
    ("1 0", "goal", false),
    ("end_goal", "goal", false),
    ("4", "operators", false),
    ("begin_operator", "operator", false),
    ("take", "operator", true),
    ("1", "operator", false),
    ("0 1", "operator", false),
    ("1", "operator", false),
    ("0 1 1 0", "operator", false),
    ("3", "operator", false),
    ("end_operator", "operator", false),
    ("begin_operator", "operator", false),
    ("go left middle", "operator", true),
    ("0", "operator", false),
    ("1", "operator", false),
    ("0 0 0 1", "operator", false),
    ("2", "operator", false),
    ("end_operator", "operator", false),
    ("begin_operator", "operator", false),
    ("jump right", "operator", true),
    ("1", "operator", false),
    ("1 0", "operator", false),
    ("1", "operator", false),
    ("0 0 -1 2", "operator", false),
    ("0", "operator", false),
    ("end_operator", "operator", false),
    ("begin_operator", "operator", false),
    ("reset", "operator", true),
    ("0", "operator", false),
    ("2", "operator", false),
    ("0 1 -1 1", "operator", false),
    ("0 0 2 0", "operator", false),
    ("7", "operator", false),
    ("end_operator", "operator", false),
    ("0", "axioms", false),
];

/// What is answered to a file: that it is read, or a fault, with its line and its word.
enum SasAnswer {
    Read,
    Place(u64, &'static str),
    Unsupported(u64, &'static str),
    Limit(u64, &'static str),
}

/// A line of the switch, what is in its place, and the answer.
static SPELLINGS: [(usize, &str, SasAnswer); 79] = [
    (0, "", SasAnswer::Read),
    (1, "begin", SasAnswer::Place(1, "version")),
    (1, "begin_version ", SasAnswer::Place(1, "version")),
    (2, "4", SasAnswer::Unsupported(2, "version")),
    (
        2,
        "999999999999999999",
        SasAnswer::Unsupported(2, "version"),
    ),
    (2, "1000000000000000000", SasAnswer::Place(2, "version")),
    (2, "03", SasAnswer::Place(2, "version")),
    (2, "3 ", SasAnswer::Place(2, "version")),
    (2, "", SasAnswer::Place(2, "version")),
    (3, "begin_metric", SasAnswer::Place(3, "version")),
    (4, "begin_version", SasAnswer::Place(4, "metric")),
    (5, "1", SasAnswer::Read),
    (5, "2", SasAnswer::Place(5, "metric")),
    (5, "00", SasAnswer::Place(5, "metric")),
    (6, "end", SasAnswer::Place(6, "metric")),
    (7, "x", SasAnswer::Place(7, "variables")),
    (7, "0", SasAnswer::Place(8, "mutexes")),
    (7, "2", SasAnswer::Place(15, "variable")),
    (8, "begin", SasAnswer::Place(8, "variable")),
    (9, "", SasAnswer::Read),
    (9, " end_variable\t", SasAnswer::Read),
    (10, "0", SasAnswer::Unsupported(10, "layer")),
    (10, "7", SasAnswer::Unsupported(10, "layer")),
    (10, "-2", SasAnswer::Place(10, "variable")),
    (10, "01", SasAnswer::Place(10, "variable")),
    (11, "0", SasAnswer::Place(11, "variable")),
    (11, "x", SasAnswer::Place(11, "variable")),
    (11, "65535", SasAnswer::Place(32, "variable")),
    (11, "65536", SasAnswer::Limit(11, "values")),
    (11, "999999999999999999", SasAnswer::Limit(11, "values")),
    (11, "1000000000000000000", SasAnswer::Place(11, "variable")),
    (11, "3", SasAnswer::Place(15, "variable")),
    (11, "1", SasAnswer::Place(13, "variable")),
    (14, "end", SasAnswer::Place(14, "variable")),
    (15, "x", SasAnswer::Place(15, "mutexes")),
    (15, "1", SasAnswer::Place(16, "mutex")),
    (
        15,
        "1\nbegin_mutex_group\n2\n0 0\n0 1\nend_mutex_group",
        SasAnswer::Read,
    ),
    (
        15,
        "1\nbegin_mutex_group\n-1",
        SasAnswer::Place(17, "mutex"),
    ),
    (
        15,
        "1\nbegin_mutex_group\n1\n0 2\nend_mutex_group",
        SasAnswer::Place(18, "mutex"),
    ),
    (
        15,
        "1\nbegin_mutex_group\n1\n1 0\nend_mutex_group",
        SasAnswer::Place(18, "mutex"),
    ),
    (
        15,
        "1\nbegin_mutex_group\n1\n0 1\nend",
        SasAnswer::Place(19, "mutex"),
    ),
    (
        15,
        "2\nbegin_mutex_group\n0\nend_mutex_group",
        SasAnswer::Place(19, "mutex"),
    ),
    (16, "end_state", SasAnswer::Place(16, "state")),
    (17, "2", SasAnswer::Place(17, "state")),
    (17, "-1", SasAnswer::Place(17, "state")),
    (18, "1", SasAnswer::Place(18, "state")),
    (19, "begin", SasAnswer::Place(19, "goal")),
    (20, "-1", SasAnswer::Place(20, "goal")),
    (20, "0", SasAnswer::Place(21, "goal")),
    (21, "0 2", SasAnswer::Place(21, "goal")),
    (21, "1 0", SasAnswer::Place(21, "goal")),
    (21, "0  0", SasAnswer::Place(21, "goal")),
    (21, "0", SasAnswer::Place(21, "goal")),
    (21, "0 0 0", SasAnswer::Place(21, "goal")),
    (22, "end", SasAnswer::Place(22, "goal")),
    (23, "1000001", SasAnswer::Limit(23, "operators")),
    (23, "1000000", SasAnswer::Place(31, "operator")),
    (23, "x", SasAnswer::Place(23, "operators")),
    (24, "begin", SasAnswer::Place(24, "operator")),
    (26, "1\n0 1", SasAnswer::Read),
    (26, "1", SasAnswer::Place(27, "operator")),
    (27, "2\n0 0 -1 1", SasAnswer::Unsupported(29, "twice")),
    (27, "2\n0 0 -1 2", SasAnswer::Place(28, "operator")),
    (28, "1 0 1 0 1 0", SasAnswer::Unsupported(28, "condition")),
    (28, "1", SasAnswer::Unsupported(28, "condition")),
    (28, "0 0 -1 0", SasAnswer::Read),
    (28, "0 0 2 0", SasAnswer::Place(28, "operator")),
    (28, "0 0 1 2", SasAnswer::Place(28, "operator")),
    (28, "0 0 1", SasAnswer::Place(28, "operator")),
    (28, "0 0 1 0 0", SasAnswer::Place(28, "operator")),
    (28, "0 1 1 0", SasAnswer::Place(28, "operator")),
    (28, "x 0 1 0", SasAnswer::Place(28, "operator")),
    (29, "4294967295", SasAnswer::Read),
    (29, "4294967296", SasAnswer::Limit(29, "cost")),
    (29, "-1", SasAnswer::Place(29, "operator")),
    (30, "end", SasAnswer::Place(30, "operator")),
    (31, "1", SasAnswer::Unsupported(31, "axiom")),
    (31, "x", SasAnswer::Place(31, "axioms")),
    (31, "0\n", SasAnswer::Place(32, "end")),
];

/// How many values the second variable of the key has, beside three of the first, and the answer.
static SUMS: [(&str, SasAnswer); 3] = [
    ("2", SasAnswer::Read),
    ("65532", SasAnswer::Place(74, "variable")),
    ("65533", SasAnswer::Limit(19, "values")),
];

// Puts the line and an LF last.
fn push_line(text: &mut Vec<u8>, line: &str) -> Result<(), AllocError> {
    text.extend_from_slice(line.as_bytes())?;
    text.push(b'\n')?;
    Ok(())
}

// The text with this in place of the line of this number.
fn spelled(
    alloc: Global,
    rows: &[TextRow],
    number: usize,
    line: &str,
) -> Result<Vec<u8>, AllocError> {
    let mut text = Vec::new(alloc);
    for (place, row) in rows.iter().enumerate() {
        push_line(&mut text, if place + 1 == number { line } else { row.0 })?;
    }
    Ok(text)
}

// The task that the text is read as.
fn read(alloc: Global, text: &[u8], limits: Limits) -> Result<Sas, SasFault>
    requires line { limits.line ≤ 2 ^ 62 }
    requires file { limits.file ≤ 2 ^ 62 }
    ensures { IfOk result IsSoundSas }
{
    let mut shelf = SureShelf::new(alloc);
    match shelf.add(NAME, text) {
        Ok(()) => read_sas(alloc, &mut shelf, NAME, limits),
        Err(_) => Err(SasFault::Memory),
    }
}

// Whether this is the fault of the answer.
fn is_told(fault: SasFault, want: &SasAnswer) -> bool {
    match (fault, want) {
        (SasFault::Place(line, kind), SasAnswer::Place(at, word)) => {
            line == *at && kind.word() == *word
        }
        (SasFault::Unsupported(line, which), SasAnswer::Unsupported(at, word)) => {
            line == *at && which.word() == *word
        }
        (SasFault::Limit(line, limit), SasAnswer::Limit(at, word)) => {
            line == *at && limit.word() == *word
        }
        _ => false,
    }
}

// Whether the text is answered so.
fn is_answered(alloc: Global, text: &[u8], limits: Limits, want: &SasAnswer) -> bool
    requires line { limits.line ≤ 2 ^ 62 }
    requires file { limits.file ≤ 2 ^ 62 }
{
    match read(alloc, text, limits).err() {
        None => matches!(want, SasAnswer::Read),
        Some(fault) => is_told(fault, want),
    }
}

// Whether the text with this in place of a line is answered so within the limits.
fn tells(
    alloc: Global,
    rows: &[TextRow],
    number: usize,
    line: &str,
    limits: Limits,
    want: &SasAnswer,
) -> Result<bool, AllocError>
    requires line { limits.line ≤ 2 ^ 62 }
    requires file { limits.file ≤ 2 ^ 62 }
{
    let text = spelled(alloc, rows, number, line)?;
    Ok(is_answered(alloc, text.as_slice(), limits, want))
}

#[test]
fn spellings_of_a_translator_file(rt: HostRuntime) {
    for (number, line, want) in &SPELLINGS {
        let told = tells(rt.alloc(), &SWITCH, *number, line, Limits::STANDARD, want);
        assert!(rt; told == Ok(true), "line {number} as {line}");
    }
}

#[test]
fn sums_of_values(rt: HostRuntime) {
    for (line, want) in &SUMS {
        let told = tells(rt.alloc(), &KEY, 19, line, Limits::STANDARD, want);
        assert!(rt; told == Ok(true), "{line} values");
    }
}

// Puts so many first lines last.
fn put_lines(text: &mut Vec<u8>, rows: &[TextRow], count: usize) -> Result<(), AllocError> {
    for row in rows.iter().take(count) {
        push_line(text, row.0)?;
    }
    Ok(())
}

// Puts the first bytes of the line at this place last.
fn put_part_at(
    text: &mut Vec<u8>,
    rows: &[TextRow],
    place: usize,
    part: usize,
) -> Result<(), AllocError> {
    match rows.get(place) {
        Some(row) => put_part(text, row.0, part),
        None => Ok(()),
    }
}

// The beginning of the text that ends after so many bytes of the line at this place.
fn begun(
    alloc: Global,
    rows: &[TextRow],
    place: usize,
    part: usize,
) -> Result<Vec<u8>, AllocError> {
    let mut text = Vec::new(alloc);
    put_lines(&mut text, rows, place)?;
    put_part_at(&mut text, rows, place, part)?;
    Ok(text)
}

// Puts the first bytes of the line last.
fn put_part(text: &mut Vec<u8>, line: &str, part: usize) -> Result<(), AllocError> {
    match line.as_bytes().get(..part) {
        Some(bytes) => text.extend_from_slice(bytes),
        None => Ok(()),
    }
}

// The place of the line that is missed where the text ends after so many bytes of this one: the
// line itself, unless this much of it is a line of its form.
fn missed(row: TextRow, place: usize, part: usize) -> usize
    requires { place < 100 }
{
    if part == row.0.len() || (row.2 && 0 < part) {
        place + 1
    } else {
        place
    }
}

// Whether the fault is that the line at this place isn't there.
fn is_missing(fault: SasFault, rows: &[TextRow], missing: usize) -> bool {
    match (fault, rows.get(missing)) {
        (SasFault::Place(line, kind), Some(row)) => {
            line == missing as u64 + 1 && kind.word() == row.1
        }
        _ => false,
    }
}

// Whether the beginning of a text is refused at this place, or is read where the text is whole.
fn is_refused_at(
    alloc: Global,
    text: &[u8],
    rows: &[TextRow],
    missing: usize,
) -> Result<bool, AllocError> {
    match read(alloc, text, Limits::STANDARD).err() {
        None => Ok(missing == rows.len()),
        Some(SasFault::Memory) => Err(AllocError),
        Some(fault) => Ok(is_missing(fault, rows, missing)),
    }
}

// Whether the text is refused rightly where it ends after so many bytes of the line at this place.
fn is_cut_rightly(
    alloc: Global,
    rows: &[TextRow],
    place: usize,
    part: usize,
) -> Result<bool, AllocError>
    requires place { place < length rows.now }
    requires few { length rows.now < 100 }
{
    let text = begun(alloc, rows, place, part)?;
    let missing = missed(rows[place], place, part);
    is_refused_at(alloc, text.as_slice(), rows, missing)
}

// Whether it is so at each byte of the line.
fn is_line_cut_rightly(alloc: Global, rows: &[TextRow], place: usize) -> Result<bool, AllocError>
    requires place { place < length rows.now }
    requires few { length rows.now < 100 }
{
    for part in 0..rows[place].0.len().saturating_add(1) {
        if !is_cut_rightly(alloc, rows, place, part)? {
            return Ok(false);
        }
    }
    Ok(true)
}

// The first line at which it isn't so.
fn first_wrong_line(alloc: Global, rows: &[TextRow]) -> Result<Option<usize>, AllocError>
    requires { length rows.now < 100 }
{
    for place in 0..rows.len() {
        if !is_line_cut_rightly(alloc, rows, place)? {
            return Ok(Some(place));
        }
    }
    Ok(None)
}

#[test]
fn cut_texts(rt: HostRuntime) {
    assert!(rt; first_wrong_line(rt.alloc(), &SWITCH) == Ok(None));
    assert!(rt; first_wrong_line(rt.alloc(), &KEY) == Ok(None));
}

// A name of so many bytes.
fn name_of(alloc: Global, length: usize) -> Result<String, AllocError> {
    let mut name = String::new(alloc);
    for _ in 0..length {
        name.push('x')?;
    }
    Ok(name)
}

// Whether the switch is answered so where the line is a name of so many bytes.
fn tells_name(
    alloc: Global,
    number: usize,
    length: usize,
    want: &SasAnswer,
) -> Result<bool, AllocError> {
    let name = name_of(alloc, length)?;
    tells(
        alloc,
        &SWITCH,
        number,
        name.as_str(),
        Limits::STANDARD,
        want,
    )
}

// A line of the switch, how long the name is that is in its place, and the answer.
static NAMES: [(usize, usize, SasAnswer); 6] = [
    (9, 1024, SasAnswer::Read),
    (9, 1025, SasAnswer::Limit(9, "name")),
    (13, 1024, SasAnswer::Read),
    (13, 1025, SasAnswer::Limit(13, "name")),
    (25, 1024, SasAnswer::Read),
    (25, 1025, SasAnswer::Limit(25, "name")),
];

#[test]
fn lengths_of_names(rt: HostRuntime) {
    for (number, length, want) in &NAMES {
        let told = tells_name(rt.alloc(), *number, *length, want);
        assert!(rt; told == Ok(true), "line {number} of {length} bytes");
    }
}

// The limits of a line and of a file, and the answer of the switch.
static LENGTHS: [(u8, u16, SasAnswer); 7] = [
    (17, 1000, SasAnswer::Read),
    (16, 1000, SasAnswer::Limit(13, "long")),
    (13, 1000, SasAnswer::Limit(8, "long")),
    (12, 1000, SasAnswer::Limit(1, "long")),
    (17, 12, SasAnswer::Limit(1, "long")),
    (17, 14, SasAnswer::Limit(2, "long")),
    (17, 15, SasAnswer::Limit(3, "long")),
];

// Whether the switch is answered so within the limits.
fn tells_within(alloc: Global, line: u8, file: u16, want: &SasAnswer) -> Result<bool, AllocError> {
    let limits = Limits {
        line: line as u64,
        file: file as u64,
    };
    tells(alloc, &SWITCH, 0, "", limits, want)
}

#[test]
fn lengths_of_lines_and_files(rt: HostRuntime) {
    for (line, file, want) in &LENGTHS {
        let told = tells_within(rt.alloc(), *line, *file, want);
        assert!(rt; told == Ok(true), "line {line} file {file}");
    }
}

// A shelf with the text whose call of this number fails.
fn failing_shelf(alloc: Global, text: &[u8], call: u64) -> Result<MemoryShelf, AllocError> {
    let mut shelf = MemoryShelf::new(alloc, 100);
    shelf.add(NAME, text)?;
    shelf.fail_at(call)?;
    Ok(shelf)
}

// Whether the shelf fails before the task is read.
fn fails(alloc: Global, shelf: &mut MemoryShelf) -> Result<bool, SasFault> {
    match read_sas(alloc, shelf, NAME, Limits::STANDARD).err() {
        None => Ok(false),
        Some(SasFault::ReadFault) => Ok(true),
        Some(fault) => Err(fault),
    }
}

// Whether the switch isn't read where the shelf's call of this number fails.
fn fails_at(alloc: Global, call: u64) -> Result<bool, SasFault> {
    let switch = spelled(alloc, &SWITCH, 0, "")?;
    let mut shelf = failing_shelf(alloc, switch.as_slice(), call)?;
    fails(alloc, &mut shelf)
}

#[test]
fn failing_reads(rt: HostRuntime) {
    // The open, three reads of up to 100 bytes, and the read of no bytes.
    assert!(rt; fails_at(rt.alloc(), 1) == Ok(true));
    assert!(rt; fails_at(rt.alloc(), 2) == Ok(true));
    assert!(rt; fails_at(rt.alloc(), 4) == Ok(true));
    assert!(rt; fails_at(rt.alloc(), 5) == Ok(true));
    assert!(rt; fails_at(rt.alloc(), 6) == Ok(false));
}

/// The task of the switch: the lines before its cost, and the last ones.
const LIT: &str =
    "begin_atoms:2\nAtom lit()\nNegatedAtom lit()\nend_atoms\nbegin_init\n1\nend_init\n\
    begin_goal\n0\nend_goal\nbegin_actions:1\nbegin_action\nswitch\n";

const REST: &str = "end_action\nend_actions\n";

/// What is in the place of a line of the switch, and the lines of the action behind its name.
static MADE: [(usize, &str, &str); 4] = [
    (0, "", "cost:1\nPRE:1\nADD:0\nDEL:1\n"),
    (28, "0 0 -1 0", "cost:1\nADD:0\nDEL:1\n"),
    (5, "1", "cost:5\nPRE:1\nADD:0\nDEL:1\n"),
    (
        26,
        "3\n0 1\n0 0\n0 1",
        "cost:1\nPRE:0\nPRE:1\nADD:0\nDEL:1\n",
    ),
];

/// The task of the robot and the key.
const KEY_TASK: &str = "begin_atoms:5\nAtom at(left)\nAtom at(middle)\nAtom at(right)\n\
    Atom has(key)\nAtom lies(key)\nend_atoms\nbegin_init\n0\n4\nend_init\n\
    begin_goal\n2\n3\nend_goal\nbegin_actions:4\n\
    begin_action\ntake\ncost:3\nPRE:1\nPRE:4\nADD:3\nDEL:4\nend_action\n\
    begin_action\ngo left middle\ncost:2\nPRE:0\nADD:1\nDEL:0\nend_action\n\
    begin_action\njump right\ncost:0\nPRE:3\nADD:2\nDEL:0\nDEL:1\nend_action\n\
    begin_action\nreset\ncost:7\nPRE:2\nADD:0\nADD:4\nDEL:2\nDEL:3\nend_action\nend_actions\n";

// Whether the text is these parts, one behind the other.
fn is_joined(text: &[u8], parts: [&str; 3]) -> bool {
    let [first, second, third] = parts;
    match text.strip_prefix(first.as_bytes()) {
        Some(rest) => rest.strip_prefix(second.as_bytes()) == Some(third.as_bytes()),
        None => false,
    }
}

// Whether the task has the text of these parts.
fn is_written(alloc: Global, task: &Task, want: [&str; 3]) -> Result<bool, AllocError> {
    let text = write_task(alloc, task)?;
    Ok(is_joined(text.as_bytes(), want))
}

// Whether the task that is made of this one has the text of these parts.
fn is_made(alloc: Global, sas: &Sas, want: [&str; 3]) -> Result<bool, AllocError>
    requires { IsSoundSas sas.now }
{
    let task = to_strips(alloc, sas)?;
    is_written(alloc, &task, want)
}

// Whether the translator file is read, and makes a task of the text of these parts.
fn makes(alloc: Global, text: &[u8], want: [&str; 3]) -> Result<bool, SasFault> {
    let sas = read(alloc, text, Limits::STANDARD)?;
    match is_made(alloc, &sas, want) {
        Ok(yes) => Ok(yes),
        Err(_) => Err(SasFault::Memory),
    }
}

// Whether the switch with this in place of a line makes the task with these lines in its action.
fn switch_makes(alloc: Global, number: usize, line: &str, action: &str) -> Result<bool, SasFault> {
    let text = spelled(alloc, &SWITCH, number, line)?;
    makes(alloc, text.as_slice(), [LIT, action, REST])
}

// Whether the robot and the key make their task.
fn key_makes(alloc: Global) -> Result<bool, SasFault> {
    let text = spelled(alloc, &KEY, 0, "")?;
    makes(alloc, text.as_slice(), [KEY_TASK, "", ""])
}

#[test]
fn texts_of_made_tasks(rt: HostRuntime) {
    for (number, line, action) in &MADE {
        let made = switch_makes(rt.alloc(), *number, line, action);
        assert!(rt; made == Ok(true), "line {number} as {line}");
    }
    assert!(rt; key_makes(rt.alloc()) == Ok(true));
}

/// Lists of operators, and whether they bring the key to the right room.
static PLANS: [(&[u32], bool); 7] = [
    (&[1, 0, 2], true),
    (&[1, 0], false),
    (&[], false),
    (&[0], false),
    (&[2], false),
    (&[1, 0, 2, 3, 1, 0, 2], true),
    (&[1, 0, 4], false),
];

// Whether the task has just these plans.
fn has_plans(alloc: Global, task: &Task) -> Result<bool, AllocError> {
    let mut right = true;
    for (list, plan) in &PLANS {
        right &= task.solves(alloc, list)? == *plan;
    }
    Ok(right)
}

// Whether the task that is made of this one has just these plans.
fn is_made_with_plans(alloc: Global, sas: &Sas) -> Result<bool, AllocError>
    requires { IsSoundSas sas.now }
{
    let task = to_strips(alloc, sas)?;
    has_plans(alloc, &task)
}

// Whether the task of the robot and the key has just these plans.
fn key_has_plans(alloc: Global) -> Result<bool, SasFault> {
    let text = spelled(alloc, &KEY, 0, "")?;
    let sas = read(alloc, text.as_slice(), Limits::STANDARD)?;
    match is_made_with_plans(alloc, &sas) {
        Ok(yes) => Ok(yes),
        Err(_) => Err(SasFault::Memory),
    }
}

#[test]
fn plans_of_a_made_task(rt: HostRuntime) {
    assert!(rt; key_has_plans(rt.alloc()) == Ok(true));
}

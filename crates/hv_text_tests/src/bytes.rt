//! Worked examples, and each call that takes memory once on its happy path.
ghost use Rattle.std.specs.Prelude.{None, true, ◌≡◌, ◌≤◌, ◌^◌, [], ◌∷◌, ◌++◌, map, IfOk, IfSome};
ghost use Rattle.std.specs.Prelude.{OnOk};
ghost use Rattle.hv_bytes.specs.Pieces.{as_pieces, pieces_of};

use hv_bytes::{
    Failed, Limits, LineFault, Lines, MemoryShelf, MemorySink, Next, Shelf, Sink, SureShelf,
    SureSink, Text, read_decimal, read_short_decimal, send, split_field,
};
use std::alloc::{AllocError, Global};

/// A file of two lines.
const TEXT: &str = "a 0 a\ne 0 c e\n";

/// A shelf that holds one file, `file`.
fn shelf_of(alloc: Global, text: &str, step: usize) -> Result<MemoryShelf, AllocError>
    requires { 1 ≤ step }
{
    let mut shelf = MemoryShelf::new(alloc, step);
    shelf.add("file", b"an earlier one")?;
    shelf.add("file", text.as_bytes())?;
    Ok(shelf)
}

/// Puts a copy of the line last.
fn push_line(all: &mut Vec<Vec<u8>>, alloc: Global, line: &[u8]) -> Result<(), AllocError>
    ensures { OnOk result
        (map (λ v. v.items) all.new.items ≡ map (λ v. v.items) all.old.items ++ line.now ∷ []) }
{
    let line = Vec::from_slice(alloc, line)?;
    all.push(line)?;
    Ok(())
}

/// The lines of the shelf's open file, in order.
fn all_lines<S: Shelf>(
    alloc: Global,
    shelf: &mut S,
    limits: Limits,
) -> Result<Vec<Vec<u8>>, LineFault>
    requires line { limits.line ≤ 2 ^ 62 }
    requires file { limits.file ≤ 2 ^ 62 }
    ensures { IfSome (S.left shelf.old) (λ text. IfOk result (λ all.
        pieces_of limits text ≡ as_pieces (map (λ v. v.items) all.items))) }
{
    let mut lines = Lines::new(alloc, limits)?;
    let mut all = Vec::new(alloc);
    'reading: loop {
        match lines.next(shelf)? {
            Next::Line => push_line(&mut all, alloc, lines.line())?,
            Next::End => return Ok(all),
        }
    }
}

/// Puts the line and `|` last.
fn push_ended(joined: &mut Vec<u8>, line: &[u8]) -> Result<(), AllocError> {
    joined.extend_from_slice(line)?;
    joined.push(b'|')?;
    Ok(())
}

/// Whether these are the lines, each ended by `|`.
fn are(alloc: Global, lines: &[Vec<u8>], want: &str) -> Result<bool, AllocError> {
    let mut joined = Vec::new(alloc);
    for line in lines {
        push_ended(&mut joined, line.as_slice())?;
    }
    Ok(joined.as_slice() == want.as_bytes())
}

/// Whether the open file has these lines, each ended by `|`; `!` denotes a long line.
fn has_lines(
    alloc: Global,
    shelf: &mut MemoryShelf,
    limits: Limits,
    want: &str,
) -> Result<bool, LineFault>
    requires line { limits.line ≤ 2 ^ 62 }
    requires file { limits.file ≤ 2 ^ 62 }
{
    match all_lines(alloc, shelf, limits) {
        Ok(lines) => Ok(are(alloc, lines.as_slice(), want)?),
        Err(LineFault::Long) => Ok(want == "!"),
        Err(fault) => Err(fault),
    }
}

/// Whether the text has these lines by reads of `step` bytes.
fn is_cut_by(
    alloc: Global,
    text: &str,
    step: usize,
    limits: Limits,
    want: &str,
) -> Result<bool, LineFault>
    requires step { 1 ≤ step }
    requires line { limits.line ≤ 2 ^ 62 }
    requires file { limits.file ≤ 2 ^ 62 }
{
    let mut shelf = shelf_of(alloc, text, step)?;
    shelf.open("file")?;
    has_lines(alloc, &mut shelf, limits, want)
}

/// Whether the text has these lines by reads of one byte, of seven, and of more than it has.
fn is_cut(alloc: Global, text: &str, limits: Limits, want: &str) -> Result<bool, LineFault>
    requires line { limits.line ≤ 2 ^ 62 }
    requires file { limits.file ≤ 2 ^ 62 }
{
    let mut right = is_cut_by(alloc, text, 1, limits, want)?;
    right &= is_cut_by(alloc, text, 7, limits, want)?;
    right &= is_cut_by(alloc, text, 4096, limits, want)?;
    Ok(right)
}

/// Texts, and their lines.
static CUTS: [(&str, &str); 8] = [
    ("", ""),
    ("a", "a|"),
    ("a\n", "a|"),
    ("\n", "|"),
    ("\n\n", "||"),
    ("a\n\nb", "a||b|"),
    ("ab\r\nc", "ab\r|c|"),
    ("\nmore than seven bytes\n\n", "|more than seven bytes||"),
];

#[test]
fn cuts_lines(rt: HostRuntime) {
    for (text, want) in &CUTS {
        assert!(rt;
            is_cut(rt.alloc(), text, Limits::STANDARD, want) == Ok(true),
            "{text:?}"
        );
    }
}

/// A terminal: it gives some bytes, says once that they end, and gives them again.
#[derive(Drop)]
struct Terminal {
    reads: u8,
}

impl Shelf for Terminal {
    ghost held = { λ _. None };

    ghost left = { λ _. None };

    ghost allows = { λ _ _. true };

    ghost faults = { λ _. 0 };

    fn open(&mut self, _name: &str) -> Result<(), Failed> {
        Ok(())
    }

    fn read(&mut self, into: &mut [u8]) -> Result<usize, Failed> {
        self.reads = self.reads.wrapping_add(1);
        if self.reads == 2 {
            return Ok(0);
        }
        into[0] = b'a';
        Ok(1)
    }
}

/// Whether there is a next call, and it gives this.
fn gives(lines: &mut Lines, terminal: &mut Terminal, want: Next) -> bool {
    lines.live() && lines.next(terminal) == Ok(want)
}

/// Whether the terminal gives one line and no further one.
fn gives_one_line(alloc: Global, terminal: &mut Terminal) -> Result<bool, AllocError> {
    let mut lines = Lines::new(alloc, Limits::STANDARD)?;
    let mut right = gives(&mut lines, terminal, Next::Line);
    right &= gives(&mut lines, terminal, Next::End);
    right &= gives(&mut lines, terminal, Next::End);
    Ok(right)
}

#[test]
fn ends_once(rt: HostRuntime) {
    let mut terminal = Terminal { reads: 0 };
    assert!(rt; gives_one_line(rt.alloc(), &mut terminal) == Ok(true));
    assert_eq!(rt; terminal.reads, 2);
}

/// Whether the shelf's file gives a first line.
fn gives_first(alloc: Global, shelf: &mut MemoryShelf) -> Result<bool, LineFault> {
    shelf.open("file")?;
    let mut lines = Lines::new(alloc, Limits::STANDARD)?;
    Ok(lines.next(shelf).is_ok())
}

/// Whether a file gives its first line where the shelf's call of this number fails.
fn reads_first(alloc: Global, call: u64) -> Result<bool, LineFault> {
    let mut shelf = shelf_of(alloc, "e 1 c e\n# x\n# x\n# x\n", 7)?;
    shelf.fail_at(call)?;
    gives_first(alloc, &mut shelf)
}

#[test]
fn reads_no_further_than_a_line(rt: HostRuntime) {
    // the open and two reads of seven bytes bring the eight bytes of the first line
    assert!(rt; reads_first(rt.alloc(), 3) == Ok(false));
    assert!(rt; reads_first(rt.alloc(), 4) == Ok(true));
}

/// By reads of `step` bytes, with a fault at the call of this number: the line and its number that
/// stay. The open is the first call.
static FAULTS: [(usize, u64, &str, u64); 12] = [
    (1, 2, "", 0),
    (1, 3, "", 0),
    (1, 4, "", 0),
    (1, 5, "ab", 1),
    (1, 6, "ab", 1),
    (1, 7, "ab", 1),
    (1, 8, "cd", 2),
    (1, 9, "cd", 2),
    (1, 10, "cd", 2),
    (7, 2, "", 0),
    (7, 3, "cd", 2),
    (7, 4, "cd", 2),
];

/// Whether no further line may be asked for, and this is still the present line, with its number.
fn stays(lines: &Lines, line: &str, number: u64) -> bool {
    !lines.live() && lines.line() == line.as_bytes() && lines.number() == number
}

/// Whether a fault comes among the first calls, and this line and number stay.
fn stays_at_fault(
    lines: &mut Lines,
    shelf: &mut MemoryShelf,
    line: &str,
    number: u64,
) -> Result<bool, LineFault> {
    for _call in 0..4 {
        if lines.live() && lines.next(shelf).is_err() {
            return Ok(stays(lines, line, number));
        }
    }
    Ok(false)
}

/// Whether of a file of three lines this line and number stay at a fault of the shelf.
fn stays_where_failed(
    alloc: Global,
    step: usize,
    call: u64,
    line: &str,
    number: u64,
) -> Result<bool, LineFault>
    requires { 1 ≤ step }
{
    let mut shelf = shelf_of(alloc, "ab\ncd\nef", step)?;
    shelf.fail_at(call)?;
    shelf.open("file")?;
    let mut lines = Lines::new(alloc, Limits::STANDARD)?;
    stays_at_fault(&mut lines, &mut shelf, line, number)
}

#[test]
fn a_fault_of_the_shelf_leaves_the_line(rt: HostRuntime) {
    for (step, call, line, number) in &FAULTS {
        let stays = stays_where_failed(rt.alloc(), (*step).max(1), *call, line, *number);
        assert!(rt; stays == Ok(true), "{step} {call}");
    }
}

/// Whether of a file whose second line is too long the first one stays, by reads of `step` bytes.
fn stays_where_long(alloc: Global, step: usize) -> Result<bool, LineFault>
    requires { 1 ≤ step }
{
    let mut shelf = shelf_of(alloc, "ab\ncde\nf\n", step)?;
    shelf.open("file")?;
    let mut lines = Lines::new(alloc, Limits { line: 2, file: 100 })?;
    stays_at_fault(&mut lines, &mut shelf, "ab", 1)
}

#[test]
fn a_long_line_leaves_the_one_before(rt: HostRuntime) {
    assert!(rt; stays_where_long(rt.alloc(), 1) == Ok(true));
    assert!(rt; stays_where_long(rt.alloc(), 4) == Ok(true));
    assert!(rt; stays_where_long(rt.alloc(), 4096) == Ok(true));
}

/// A text of so many lines, each the row; the last one lacks its LF.
fn rows_of(alloc: Global, row: &[u8], count: usize) -> Result<Vec<u8>, AllocError> {
    let mut text = Vec::from_slice(alloc, row)?;
    for _row in 1..count {
        text.push(b'\n')?;
        text.extend_from_slice(row)?;
    }
    Ok(text)
}

/// A shelf whose open file has so many lines, each the row.
fn shelf_of_rows(
    alloc: Global,
    row: &[u8],
    count: usize,
    step: usize,
) -> Result<MemoryShelf, LineFault>
    requires { 1 ≤ step }
{
    let text = rows_of(alloc, row, count)?;
    let mut shelf = MemoryShelf::new(alloc, step);
    shelf.add("file", text.as_slice())?;
    shelf.open("file")?;
    Ok(shelf)
}

/// Whether so many lines come, each the row, and then the end.
fn gives_rows(
    lines: &mut Lines,
    shelf: &mut MemoryShelf,
    row: &[u8],
    count: usize,
) -> Result<bool, LineFault> {
    for _row in 0..count {
        if !lines.live() || lines.next(shelf)? != Next::Line || lines.line() != row {
            return Ok(false);
        }
    }
    Ok(lines.live() && lines.next(shelf)? == Next::End && lines.line() == row)
}

/// Whether lines of `size` bytes are cut where reads give `step` bytes.
fn cuts_rows(alloc: Global, size: usize, count: usize, step: usize) -> Result<bool, LineFault>
    requires size { size ≤ 100000 }
    requires step { 1 ≤ step }
{
    let row = vec![in alloc; b'x'; size]?;
    let mut shelf = shelf_of_rows(alloc, row.as_slice(), count, step)?;
    let mut lines = Lines::new(
        alloc,
        Limits {
            line: 70000,
            file: 1000000,
        },
    )?;
    gives_rows(&mut lines, &mut shelf, row.as_slice(), count)
}

#[test]
fn cuts_lines_across_blocks(rt: HostRuntime) {
    // a block has 65,536 bytes: the third line goes on in the second one
    assert!(rt; cuts_rows(rt.alloc(), 30000, 4, 1) == Ok(true));
    assert!(rt; cuts_rows(rt.alloc(), 30000, 4, 7) == Ok(true));
    assert!(rt; cuts_rows(rt.alloc(), 30000, 4, 65536) == Ok(true));
    // the last byte of a line, and its LF, at the end of a block
    assert!(rt; cuts_rows(rt.alloc(), 65536, 3, 65536) == Ok(true));
    assert!(rt; cuts_rows(rt.alloc(), 65535, 3, 65536) == Ok(true));
}

#[test]
fn a_line_has_exactly_the_limit(rt: HostRuntime) {
    assert!(rt; cuts_rows(rt.alloc(), 70000, 2, 65536) == Ok(true));
    let longer = cuts_rows(rt.alloc(), 70001, 2, 65536);
    assert!(rt; longer == Err(LineFault::Long));
}

/// Lines, their first fields, and what follows them.
static FIELDS: [(&str, &str, Option<&str>); 6] = [
    ("", "", None),
    ("17", "17", None),
    ("17 0 1", "17", Some("0 1")),
    (" 17", "", Some("17")),
    ("17 ", "17", Some("")),
    ("1  0", "1", Some(" 0")),
];

/// Whether the line is parted so.
fn is_parted(line: &str, first: &str, rest: Option<&str>) -> bool {
    let got = split_field(line.as_bytes());
    got.0 == first.as_bytes() && got.1 == rest.map(|rest| rest.as_bytes())
}

#[test]
fn parts_fields(rt: HostRuntime) {
    for (line, first, rest) in &FIELDS {
        assert!(rt; is_parted(line, first, *rest), "{line:?}");
    }
}

/// Texts, the limits of a line and of a file, and the lines.
static LONG_LINES: [(&str, u8, u8, &str); 6] = [
    ("e 0 h 1 -3 0\n", 10, 100, "!"),
    ("e 0 h 1 -3 0\n", 12, 100, "e 0 h 1 -3 0|"),
    ("ab\ncd\n", 9, 5, "ab|cd|"),
    ("ab\ncd\n", 9, 4, "!"),
    ("ab\n\n", 9, 4, "ab||"),
    ("ab\n\n", 9, 3, "!"),
];

/// Whether the text has these lines within the limits.
fn is_cut_within(
    alloc: Global,
    text: &str,
    line: u8,
    file: u8,
    want: &str,
) -> Result<bool, LineFault> {
    let limits = Limits {
        line: line as u64,
        file: file as u64,
    };
    is_cut(alloc, text, limits, want)
}

#[test]
fn refuses_long_lines(rt: HostRuntime) {
    // the last byte of an empty line is its LF, and that of another line is before its LF
    for (text, line, file, want) in &LONG_LINES {
        assert!(rt;
            is_cut_within(rt.alloc(), text, *line, *file, want) == Ok(true),
            "{text:?}"
        );
    }
}

/// Whether the shelf's file is read to its end.
fn is_read(alloc: Global, shelf: &mut MemoryShelf) -> bool {
    shelf.open("file").is_ok() && all_lines(alloc, shelf, Limits::STANDARD).is_ok()
}

/// Whether a shelf whose call of this number fails reads its file so, and has no other file.
fn reads_so(alloc: Global, call: u64, read: bool) -> Result<bool, AllocError> {
    let mut shelf = shelf_of(alloc, TEXT, 7)?;
    shelf.fail_at(call)?;
    let right = is_read(alloc, &mut shelf) == read;
    Ok(right & shelf.open("other").is_err())
}

/// How many lines the file of this name has.
fn count_of(alloc: Global, shelf: &mut SureShelf, name: &str) -> Result<usize, LineFault> {
    shelf.open(name)?;
    let lines = all_lines(alloc, shelf, Limits::STANDARD)?;
    Ok(lines.len())
}

/// Whether a sure shelf has its file, and nothing under another name.
fn is_sure(alloc: Global) -> Result<bool, LineFault> {
    let mut shelf = SureShelf::new(alloc);
    shelf.add("file", TEXT.as_bytes())?;
    let held = count_of(alloc, &mut shelf, "file")?;
    let other = count_of(alloc, &mut shelf, "other")?;
    Ok((held, other) == (2, 0))
}

#[test]
fn shelves_fail_where_told(rt: HostRuntime) {
    // the open, two reads of seven bytes, and the read of no bytes
    for call in 1..6 {
        assert!(rt;
            reads_so(rt.alloc(), call, 4 < call) == Ok(true),
            "at call {call}"
        );
    }
    assert!(rt; is_sure(rt.alloc()) == Ok(true));
}

/// Whether the bytes are sent so, and the sink has taken these then.
fn sends(sink: &mut MemorySink, bytes: &str, sent: bool, taken: &str) -> bool {
    let right = send(sink, bytes.as_bytes()).is_ok() == sent;
    right & (sink.bytes() == taken.as_bytes())
}

/// Whether a sink whose second call fails keeps what it took before, and takes the rest later.
fn takes_the_rest(alloc: Global) -> Result<bool, AllocError> {
    let mut sink = MemorySink::new(alloc, 10, 100)?;
    sink.fail_at(2)?;
    let right = sends(&mut sink, TEXT, false, "a 0 a\ne 0 ");
    Ok(right & sends(&mut sink, "c e\n", true, TEXT))
}

#[test]
fn writes_bytes(rt: HostRuntime) {
    assert!(rt; takes_the_rest(rt.alloc()) == Ok(true));
}

/// Whether the text `=` and the number is this one, and is cut to `=` again.
fn is_written(alloc: Global, number: u64, want: &str) -> Result<bool, AllocError> {
    let mut text = Text::new(alloc);
    text.push_bytes(b"=")?;
    text.push_number(number)?;
    let right = text.as_bytes() == want.as_bytes();
    text.truncate(1);
    Ok(right & (text.as_bytes() == b"=".as_slice()))
}

#[test]
fn writes_numbers(rt: HostRuntime) {
    assert!(rt; is_written(rt.alloc(), 0, "=0") == Ok(true));
    assert!(rt; is_written(rt.alloc(), 70, "=70") == Ok(true));
    assert!(rt; is_written(rt.alloc(), u64::MAX, "=18446744073709551615") == Ok(true));
}

/// How many bytes of the text a sink counts.
fn counted() -> Result<u64, Failed> {
    let mut sink = SureSink::new();
    send(&mut sink, TEXT.as_bytes())?;
    Ok(sink.count())
}

#[test]
fn counts_bytes(rt: HostRuntime) {
    assert!(rt; counted() == Ok(14));
}

/// Texts, and the numbers that they spell.
static DECIMALS: [(&str, Option<u64>); 13] = [
    ("0", Some(0)),
    ("7", Some(7)),
    ("65535", Some(65535)),
    ("999999999999999999", Some(999_999_999_999_999_999)),
    ("1000000000000000000", None),
    ("", None),
    ("00", None),
    ("07", None),
    ("+7", None),
    ("-7", None),
    ("7 ", None),
    ("7\r", None),
    ("0x7", None),
];

#[test]
fn reads_decimals(rt: HostRuntime) {
    for (text, want) in &DECIMALS {
        assert!(rt; read_decimal(text.as_bytes()) == *want, "{text:?}");
    }
    assert!(rt; read_short_decimal(b"999999999") == Some(999_999_999));
    assert!(rt; read_short_decimal(b"1000000000") == None);
}

//! Rows of numbers, one for each key: all numbers in one list, by rising keys, and where those of
//! each key begin. On the way there a key and a number have a code: the key times 2^32 plus the
//! number.
//!
//! The codes are sorted and then stripped to the numbers where they are, so making rows takes no
//! second list; but where many are put in order by counting (`counted`), one is there meanwhile.
//!
//! Numbers and ends have 32 bits, so a formula of more than 2^32 clauses, literals or implications
//! is refused as out of memory. Nothing that the program reads or writes comes near: a formula is
//! one line, of at most 16,777,216 bytes, in which a clause, a literal and an atom of a state take
//! two bytes at least, their space among them, and two implications four; so each of these numbers
//! is below 8,388,608. The largest formula that is written has 524,800 clauses of two literals, and
//! a log has at most 8,388,608 bytes.

ghost use Rattle.std.specs.Prelude.{◌≡◌, ◌+◌, ◌<◌, ◌↔◌, ℕ, List, length, map, true, IfOk, OnOk};
ghost use Rattle.std.specs.Prelude.{MatchOption, slice_index_or};
ghost use Rattle.std.specs.List.{Contains};
ghost use Rattle.std.specs.List.Sorted.{IsNonDecreasingBy, IsStrictlyIncreasing};
ghost use Rattle.hv_indexes.specs.declared.rows.RowHead.{RowHead};
ghost use Rattle.hv_indexes.specs.Rows.{AreHeads, HasHeads, IsEndBefore};
ghost use Rattle.hv_indexes.specs.Rows.{IsPartOf, code, key_of, place_of_code};
ghost use Rattle.hv_indexes.specs.Working.Rows.{IsFirstHead, PutsHead};

use std::alloc::{AllocError, Global};

const WIDTH: usize = 1 << 32;

/// Where the numbers of a key begin.
#[derive(Clone, Copy, Debug, PartialEq, Eq)]
pub struct RowHead {
    /// The key.
    pub key: u32,
    /// The place of its first number.
    pub start: u32,
}

/// Where the numbers of a key stand: from a place up to another one.
#[derive(Clone, Copy, Debug, PartialEq, Eq)]
pub(crate) struct RowRange {
    pub from: usize,
    pub upto: usize,
}

/// The code of a key and a number.
pub fn code_of(key: u32, number: u32) -> usize
    ensures { result ≡ code key number }
{
    key as usize * WIDTH + number as usize
}

// The key of a code.
pub(crate) fn key_in(code: usize) -> u32
    ensures { result ≡ key_of code }
{
    (code / WIDTH) as u32
}

// The number of a code.
pub(crate) fn number_in(code: usize) -> u32
    ensures { result ≡ place_of_code code }
{
    (code % WIDTH) as u32
}

/// Puts the codes in order, each once.
pub fn sort(codes: &mut Vec<usize>)
    ensures rises { IsStrictlyIncreasing codes.new.items }
    ensures has { (c : ℕ) → Contains codes.new.items c ↔ Contains codes.old.items c }
{
    if do_rise(codes) {
        return;
    }
    codes.sort_unstable();
    codes.dedup();
}

// Whether the codes are in order, each once.
pub(crate) fn do_rise(codes: &[usize]) -> bool
    ensures { result ≡ true → IsStrictlyIncreasing codes.now }
{
    for place in 1..codes.len() {
        if codes[place - 1] >= codes[place] {
            return false;
        }
    }
    true
}

// Leaves the number of each code.
pub(crate) fn strip(codes: &mut Vec<usize>)
    ensures { codes.new.items ≡ map place_of_code codes.old.items }
{
    for index in 0..codes.len() {
        codes[index] %= WIDTH;
    }
}

/// The numbers of the codes, in order.
pub fn numbers_of(alloc: Global, codes: &[usize]) -> Result<Vec<u32>, AllocError>
    ensures { IfOk result (λ numbers. numbers.items ≡ map place_of_code codes.now) }
{
    let mut numbers = Vec::with_capacity(alloc, codes.len())?;
    for code in codes {
        numbers.push(number_in(*code))?;
    }
    Ok(numbers)
}

/// Where the numbers of each key begin. More than 2^32 codes are taken as out of memory; a line
/// has fewer than 8,388,608 literals, or implications.
pub fn heads_of(alloc: Global, codes: &[usize]) -> Result<Vec<RowHead>, AllocError>
    requires { IsStrictlyIncreasing codes.now }
    ensures { IfOk result (λ heads. AreHeads codes.now heads.items) }
{
    if codes.len() > u32::MAX as usize {
        return Err(AllocError);
    }
    let mut heads = Vec::new(alloc);
    for start in 0..codes.len() {
        let key = key_in(codes[start]);
        put_head(
            &mut heads,
            RowHead {
                key,
                start: start as u32,
            },
        )?;
    }
    Ok(heads)
}

// Puts a head last, unless the last one is of the same key.
fn put_head(heads: &mut Vec<RowHead>, head: RowHead) -> Result<(), AllocError>
    ensures { OnOk result (PutsHead heads.old.items head heads.new.items) }
{
    if let Some(last) = heads.last() {
        if last.key == head.key {
            return Ok(());
        }
    }
    heads.push(head)?;
    Ok(())
}

// Where the numbers of a key are among so many.
pub(crate) fn part_of(heads: &[RowHead], len: usize, key: u32) -> RowRange
    requires { HasHeads heads.now len }
    ensures from { (codes : List ℕ) → AreHeads codes heads.now → length codes ≡ len
        → IsEndBefore key codes result.from }
    ensures upto { (codes : List ℕ) → AreHeads codes heads.now → length codes ≡ len
        → IsEndBefore (key + 1) codes result.upto }
{
    let first = count_below(heads, key);
    let next = count_upto(heads, first, key);
    RowRange {
        from: begin_at(heads, len, first),
        upto: begin_at(heads, len, next),
    }
}

// Where the numbers of the head at a place begin, or the end of so many.
fn begin_at(heads: &[RowHead], len: usize, place: usize) -> usize
    ensures { (codes : List ℕ) (key : ℕ) → AreHeads codes heads.now → length codes ≡ len
        → IsFirstHead key heads.now place → IsEndBefore key codes result }
{
    match heads.get(place) {
        Some(head) => head.start as usize,
        None => len,
    }
}

// How many heads are of lesser keys.
fn count_below(heads: &[RowHead], key: u32) -> usize
    requires { IsNonDecreasingBy (λ h. h.key) heads.now }
    ensures { IsFirstHead key heads.now result }
{
    let near = near_of(heads, key);
    if is_first(heads, near, key) {
        return near;
    }
    heads.partition_point(|head| head.key < key)
}

// The place of a head of this key, if there is one.
pub(crate) fn head_of(heads: &[RowHead], key: u32) -> Option<usize>
    requires { IsNonDecreasingBy (λ h. h.key) heads.now }
    ensures { MatchOption result ((j : ℕ) (d : RowHead) → j < length heads.now
        → (slice_index_or heads.now j d).key ≡ key → ⊥)
        (λ j. (j < length heads.now)
        × ((d : RowHead) → (slice_index_or heads.now j d).key ≡ key)) }
{
    let first = count_below(heads, key);
    if first >= heads.len() || heads[first].key != key {
        return None;
    }
    Some(first)
}

// Where the head of a key stands, if each greater key up to the last has a head.
fn near_of(heads: &[RowHead], key: u32) -> usize {
    match heads.last() {
        Some(last) => {
            let missing = (last.key as usize + 1).saturating_sub(heads.len());
            (key as usize).saturating_sub(missing)
        }
        None => 0,
    }
}

// Whether the head at a place is the first one of the key.
fn is_first(heads: &[RowHead], place: usize, key: u32) -> bool
    requires { IsNonDecreasingBy (λ h. h.key) heads.now }
    ensures { result ≡ true → IsFirstHead key heads.now place }
{
    if place >= heads.len() || heads[place].key != key {
        return false;
    }
    place == 0 || heads[place - 1].key < key
}

// How many heads are of this key or lesser ones, where so many are of lesser ones.
fn count_upto(heads: &[RowHead], from: usize, key: u32) -> usize
    requires rises { IsNonDecreasingBy (λ h. h.key) heads.now }
    requires from { IsFirstHead key heads.now from }
    ensures { IsFirstHead (key + 1) heads.now result }
{
    for place in from..heads.len() {
        if heads[place].key > key {
            return place;
        }
    }
    heads.len()
}

/// The part of the numbers that are of the key.
pub fn numbers_at<'a>(heads: &[RowHead], numbers: &'a [u32], key: u32) -> &'a [u32]
    requires { HasHeads heads.now (length numbers.now) }
    ensures { (codes : List ℕ) → AreHeads codes heads.now → length codes ≡ length numbers.now
        → IsPartOf key codes numbers.now result.now }
{
    let part = part_of(heads, numbers.len(), key);
    &numbers[part.from..part.upto]
}

//! One bit of a word, and one flag of some words.

ghost use Rattle.std.specs.Prelude.{◌≡◌, ◌≢◌, ◌*◌, ◌+◌, ◌-◌, ◌/◌, ◌%◌, ◌^◌, ◌<◌, ◌≤◌, ◌==◌, ◌↔◌};
ghost use Rattle.std.specs.Prelude.{◌&&◌, ◌||◌, not, ℕ, length, slice_index, false, true, cond};
ghost use Rattle.std.specs.Prelude.{IsTrue, IfOk, OnOk, OnErr};
ghost use Rattle.std.specs.Int.{bit_at};
ghost use Rattle.hv_task.specs.Atoms.{IsNext};
ghost use Rattle.hv_task.specs.Working.Words.{IsNextBit, IsPacked, flag_at, flags_of};

use std::alloc::{AllocError, Global};

/// The flag at a place.
pub(crate) fn has_flag(words: &[u64], place: u32) -> bool
    requires { place < 64 * length words.now }
    ensures { result ≡ flag_at words.now place }
{
    has_bit(words[(place / 64) as usize], place % 64)
}

/// Sets the flag at a place.
pub(crate) fn put_flag(words: &mut Vec<u64>, place: u32, value: bool)
    requires { place < 64 * length words.old.items }
    ensures flags { (p : ℕ)
        → flag_at words.new.items p ≡ cond (p == place) value (flag_at words.old.items p) }
    ensures length { length words.new.items ≡ length words.old.items }
{
    let at = (place / 64) as usize;
    let word = words[at];
    words[at] = with(word, place % 64, value);
}

/// The least place from this one on whose flag is set.
pub(crate) fn next_flag(words: &[u64], from: u32) -> Option<u32>
    requires { 64 * length words.now < 2 ^ 32 + 64 }
    ensures { IsNext (flag_at words.now) from result }
{
    let first = (from / 64) as usize;
    for at in first..words.len() {
        if let Some(bit) = next_bit(words[at], start_in(at, from)) {
            return Some((at * 64) as u32 + bit);
        }
    }
    None
}

/// The least place from this one on whose flag is set, and not set in the others.
pub(crate) fn next_outside(words: &[u64], other: &[u64], from: u32) -> Option<u32>
    requires length { length words.now ≡ length other.now }
    requires few { 64 * length words.now < 2 ^ 32 + 64 }
    ensures { IsNext (λ p. flag_at words.now p && not (flag_at other.now p)) from result }
{
    let first = (from / 64) as usize;
    for at in first..words.len() {
        if let Some(bit) = next_bit(outside(words[at], other[at]), start_in(at, from)) {
            return Some((at * 64) as u32 + bit);
        }
    }
    None
}

/// Keeps of the flags those that are set in the others too.
pub(crate) fn meet_all(words: &mut Vec<u64>, other: &Vec<u64>)
    requires { length words.old.items ≡ length other.now.items }
    ensures flags { (p : ℕ) → flag_at words.new.items p
        ≡ (flag_at words.old.items p && flag_at other.now.items p) }
    ensures length { length words.new.items ≡ length words.old.items }
{
    for at in 0..words.len() {
        let both = words[at] & other[at];
        words[at] = both;
    }
}

/// Takes out the flags that are set in some words, and then sets those of others.
pub(crate) fn turn_all(words: &mut Vec<u64>, out: &Vec<u64>, put: &Vec<u64>)
    requires out { length words.old.items ≡ length out.now.items }
    requires put { length words.old.items ≡ length put.now.items }
    ensures flags { (p : ℕ) → flag_at words.new.items p ≡ (flag_at put.now.items p
        || (flag_at words.old.items p && not (flag_at out.now.items p))) }
    ensures length { length words.new.items ≡ length words.old.items }
{
    for at in 0..words.len() {
        let word = turned(words[at], out[at], put[at]);
        words[at] = word;
    }
}

/// Whether each flag is set in the others too.
pub(crate) fn are_within(words: &[u64], other: &[u64]) -> bool
    requires { length words.now ≡ length other.now }
    ensures { IsTrue result ↔ ((p : ℕ) → flag_at words.now p ≡ true → flag_at other.now p ≡ true) }
{
    for at in 0..words.len() {
        if outside(words[at], other[at]) != 0 {
            return false;
        }
    }
    true
}

/// Sets no flag.
pub(crate) fn clear_all(words: &mut Vec<u64>)
    ensures none { (k : ℕ) → slice_index words.new.items k ≡ 0 }
    ensures length { length words.new.items ≡ length words.old.items }
{
    words.fill(0);
}

/// Makes them the other words, of which there are as many.
pub(crate) fn copy_all(words: &mut Vec<u64>, other: &Vec<u64>)
    requires { length words.old.items ≡ length other.now.items }
    ensures { words.new.items ≡ other.now.items }
{
    words.copy_from_slice(other.as_slice());
}

/// Words for so many flags, of which none is set.
pub(crate) fn zeros(alloc: Global, count: u32) -> Result<Vec<u64>, AllocError>
    ensures packed { IfOk result (λ words. IsPacked words.items count) }
    ensures none { IfOk result (λ words. (k : ℕ) → slice_index words.items k ≡ 0) }
{
    Ok(vec![in alloc; 0; words_for(count)]?)
}

/// Makes them words for so many flags: each of these that was set still is, and no other.
pub(crate) fn resize_all(words: &mut Vec<u64>, count: u32) -> Result<(), AllocError>
    ensures packed { OnOk result (IsPacked words.new.items count) }
    ensures flags { OnOk result ((p : ℕ) → p < count
        → flag_at words.new.items p ≡ flag_at words.old.items p) }
    ensures err { OnErr result (words.new.items ≡ words.old.items) }
{
    words.resize(words_for(count), 0)?;
    cut(words, count);
    Ok(())
}

/// Whether the flags are the same.
pub(crate) fn same_all(words: &[u64], other: &[u64], count: u32) -> bool
    requires words { IsPacked words.now count }
    requires other { IsPacked other.now count }
    ensures { IsTrue result ↔ (flags_of words.now count ≡ flags_of other.now count) }
{
    for place in 0..words.len() {
        if words[place] != other[place] {
            return false;
        }
    }
    true
}

// From which bit on the word at a place has the places from this one on.
fn start_in(at: usize, from: u32) -> u32
    requires { from / 64 ≤ at }
    ensures bit { result < 64 }
    ensures start { (i : ℕ) → i < 64 → (from ≤ 64 * at + i ↔ (result ≤ i)) }
{
    if at == (from / 64) as usize {
        from % 64
    } else {
        0
    }
}

// How many words so many flags need.
fn words_for(count: u32) -> usize
    ensures upto { count ≤ 64 * result }
    ensures tight { 64 * result < count + 64 }
{
    (count as usize + 63) / 64
}

// Takes out the flags from this place on, which is in the last word, or just past it.
fn cut(words: &mut Vec<u64>, count: u32)
    requires upto { count ≤ 64 * length words.old.items }
    requires tight { 64 * length words.old.items < count + 64 }
    ensures packed { IsPacked words.new.items count }
    ensures flags { (p : ℕ) → p < count → flag_at words.new.items p ≡ flag_at words.old.items p }
{
    let last = (count / 64) as usize;
    if last < words.len() {
        let word = words[last];
        words[last] = low_bits(word, count % 64);
    }
}

// The bits below k.
fn low_bits(word: u64, k: u32) -> u64
    requires { k < 64 }
    ensures low { (i : ℕ) → i < k → bit_at result i ≡ bit_at word i }
    ensures high { (i : ℕ) → k ≤ i → bit_at result i ≡ 0 }
{
    word & ((1 << k) - 1)
}

// The bits of the word that are not in the other.
fn outside(word: u64, other: u64) -> u64
    ensures { (i : ℕ) → i < 64
        → (bit_at result i == 1) ≡ ((bit_at word i == 1) && not (bit_at other i == 1)) }
{
    word & !other
}

// The bits of the word that are not in the first other one, and those of the second.
fn turned(word: u64, out: u64, put: u64) -> u64
    ensures { (i : ℕ) → i < 64 → (bit_at result i == 1)
        ≡ ((bit_at put i == 1) || ((bit_at word i == 1) && not (bit_at out i == 1))) }
{
    outside(word, out) | put
}

fn has_bit(word: u64, k: u32) -> bool
    requires { k < 64 }
    ensures { IsTrue result ↔ (bit_at word k ≡ 1) }
{
    word & (1 << k) != 0
}

fn with(word: u64, k: u32, value: bool) -> u64
    requires { k < 64 }
    ensures { (i : ℕ) → i < 64 → (bit_at result i == 1) ≡ cond (i == k) value (bit_at word i == 1) }
{
    if value {
        with_bit(word, k)
    } else {
        without_bit(word, k)
    }
}

fn with_bit(word: u64, k: u32) -> u64
    requires { k < 64 }
    ensures set { bit_at result k ≡ 1 }
    ensures others { (i : ℕ) → i ≢ k → bit_at result i ≡ bit_at word i }
{
    word | (1 << k)
}

fn without_bit(word: u64, k: u32) -> u64
    requires { k < 64 }
    ensures clear { bit_at result k ≡ 0 }
    ensures others { (i : ℕ) → i < 64 → i ≢ k → bit_at result i ≡ bit_at word i }
{
    word & !(1 << k)
}

// The least bit from k on that is 1.
fn next_bit(word: u64, k: u32) -> Option<u32>
    requires { k < 64 }
    ensures { IsNextBit word k result }
{
    let rest = word >> k;
    if rest == 0 {
        return None;
    }
    Some(k + rest.trailing_zeros())
}

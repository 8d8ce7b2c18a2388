//! Places in a list of codes, found by the code: chains lead from a slot to the places whose codes
//! fall into it. Nothing is known here of states: the contract speaks of a list of numbers.
//!
//! To fall into one slot, states need codes whose product with the slot's factor agrees; where a
//! place comes behind 64 others with other codes, all places are linked again by the next factor,
//! and again while some place does. By each next factor a chain may be 4 longer, until there are
//! more slots. So n states that were made to meet by one factor after another are linked no more
//! than some root of n times, and no chain is much longer than 64 and 3 times that root. Places
//! have 32 bits: more than 4,294,967,295 states in one set are answered as out of memory; a line
//! has fewer than 8,388,608.

ghost use Rattle.std.specs.Prelude.{◌≡◌, ◌<◌, ◌≤◌, ◌-◌, ◌+◌, ◌^◌, ◌++◌, ◌∷◌, ℕ, [], length};
ghost use Rattle.std.specs.Prelude.{slice_index, IfOk, OnOk, OnErr};
ghost use Rattle.hv_explicit.specs.Working.Places.{IsChain, IsEnd, IsLinked, IsPlaceTable, code_at};
ghost use Rattle.hv_explicit.specs.Working.Places.{slot_at, slot_of};

use std::alloc::{AllocError, Global};
use std::marker::Model;

// A chain of so many places in a row with other codes is long at first.
const LONG: usize = 64;

// How much longer it may be after each change of the factor, until there are more slots.
const MORE: usize = 4;

/// A list of codes, in which the places of a code are found without a walk over the list. Each slot
/// has a chain of the places whose codes fall into it. Codes that were made to fall into one slot
/// are linked again by another factor.
#[derive(Drop)]
pub(crate) struct Places {
    codes: Vec<u64>,
    // For each place, one more than the last earlier place in its slot, or 0.
    before: Vec<u32>,
    // For each slot, one more than the last place in it, or 0.
    heads: Vec<u32>,
    turn: CodeFactor,
}

// The factor by which codes fall into slots, and how many places in a row with other codes make a
// long chain.
#[derive(Clone, Copy)]
struct CodeFactor {
    factor: u64,
    long: usize,
}

impl Model for Places {
    ghost use Rattle.std.specs.Prelude.{ℕ, List};
    ghost use Rattle.hv_explicit.specs.Working.Places.{IsPlaceTable};

    ghost Value = { List ℕ };

    ghost view = { λ p. p.codes.items };

    ghost invariant = { λ p.
        IsPlaceTable p.codes.items p.before.items p.heads.items p.turn.factor };
}

impl Places {
    /// No code.
    pub(crate) fn new(alloc: Global) -> Places
        ensures { result ≡ [] }
    {
        Places {
            codes: Vec::new(alloc),
            before: Vec::new(alloc),
            heads: Vec::new(alloc),
            turn: CodeFactor {
                factor: 0x9e37_79b9_7f4a_7c15,
                long: LONG,
            },
        }
    }

    /// How many codes there are.
    pub(crate) fn len(&self) -> usize
        ensures len { result ≡ length self.now }
        ensures few { result < 2 ^ 32 }
    {
        self.codes.len()
    }

    /// Puts a code last. There is no space for more than 4,294,967,295.
    #[tactic(auto, using(crate::proofs::Linked::linked_push))]
    pub(crate) fn push(&mut self, code: u64) -> Result<(), AllocError>
        ensures ok { OnOk result (self.new ≡ self.old ++ code ∷ []) }
        ensures err { OnErr result (self.new ≡ self.old) }
    {
        if self.codes.len() >= u32::MAX as usize {
            return Err(AllocError);
        }
        self.turn = widen(
            self.codes.as_slice(),
            self.turn,
            &mut self.before,
            &mut self.heads,
        )?;
        lengthen(
            self.codes.as_slice(),
            self.turn.factor,
            &mut self.before,
            &self.heads,
        )?;
        let place = self.codes.len();
        self.codes.push(code)?;
        link(
            self.codes.as_slice(),
            self.turn.factor,
            &mut self.before,
            &mut self.heads,
            place,
        );
        self.turn = settle(
            self.codes.as_slice(),
            self.turn,
            &mut self.before,
            &mut self.heads,
        );
        Ok(())
    }

    /// The code at a place.
    pub(crate) fn get(&self, place: usize) -> u64
        requires { place < length self.now }
        ensures { result ≡ code_at self.now place }
    {
        self.codes[place]
    }

    /// Where the chain of the code's slot starts.
    pub(crate) fn start_of(&self, code: u64) -> usize {
        if self.heads.is_empty() {
            return 0;
        }
        self.heads[slot_of(self.turn.factor, self.heads.len(), code)] as usize
    }

    /// A place that has this code, if it is found by where the chain of its slot starts.
    pub(crate) fn place_from(&self, start: usize, code: u64) -> Option<usize> {
        let mut end = start;
        for _ in 0..LONG {
            if end == 0 || end > self.codes.len() || end > self.before.len() {
                return None;
            }
            if self.codes[end - 1] == code {
                return Some(end - 1);
            }
            end = self.before[end - 1] as usize;
        }
        None
    }

    /// The code at a place, or 0 where there is none.
    pub(crate) fn code_or_none(&self, place: usize) -> u64 {
        match self.codes.get(place) {
            Some(code) => *code,
            None => 0,
        }
    }

    /// One more than the last place that has this code, or 0 where none has it.
    pub(crate) fn last(&self, code: u64) -> usize
        ensures { IsEnd (code_at self.now) code (length self.now) result }
    {
        if self.codes.is_empty() {
            return 0;
        }
        let slot = slot_of(self.turn.factor, self.heads.len(), code);
        skip(
            self.codes.as_slice(),
            self.turn.factor,
            self.before.as_slice(),
            self.heads.len(),
            code,
            self.heads[slot] as usize,
        )
    }

    /// One more than the last earlier place that has the code of this one, or 0.
    pub(crate) fn earlier(&self, place: usize) -> usize
        requires { place < length self.now }
        ensures { IsEnd (code_at self.now) (code_at self.now place) place result }
    {
        skip(
            self.codes.as_slice(),
            self.turn.factor,
            self.before.as_slice(),
            self.heads.len(),
            self.codes[place],
            self.before[place] as usize,
        )
    }
}

#[tactic(auto, unfolding(crate::specs::Working::Places::slot_of))]
fn slot_of(factor: u64, slots: usize, code: u64) -> usize
    requires { 0 < slots }
    ensures slot { result ≡ slot_of factor slots code }
    ensures within { result < slots }
{
    ((code.wrapping_mul(factor) as u128 * slots as u128) >> 64) as usize
}

// Chains a place in its slot.
fn link(codes: &[u64], factor: u64, before: &mut Vec<u32>, heads: &mut Vec<u32>, place: usize)
    requires codes { place < length codes.now }
    requires few { length codes.now < 2 ^ 32 }
    requires before { place < length before.old.items }
    requires heads { 0 < length heads.old.items }
    requires linked { IsLinked codes.now before.old.items heads.old.items factor
        (length heads.old.items) place }
    ensures linked { IsLinked codes.now before.new.items heads.new.items factor
        (length heads.new.items) (place + 1) }
    ensures before { length before.new.items ≡ length before.old.items }
    ensures heads { length heads.new.items ≡ length heads.old.items }
{
    let slot = slot_of(factor, heads.len(), codes[place]);
    before[place] = heads[slot];
    heads[slot] = (place + 1) as u32;
}

// Makes more slots than there are codes.
fn widen(
    codes: &[u64],
    turn: CodeFactor,
    before: &mut Vec<u32>,
    heads: &mut Vec<u32>,
) -> Result<CodeFactor, AllocError>
    requires table { IsPlaceTable codes.now before.old.items heads.old.items turn.factor }
    ensures table { IfOk result (λ new.
        IsPlaceTable codes.now before.new.items heads.new.items new.factor) }
    ensures room { IfOk result (λ _. 0 < length heads.new.items) }
    ensures err { OnErr result
        (IsPlaceTable codes.now before.new.items heads.new.items turn.factor) }
{
    if codes.len() < heads.len() {
        return Ok(turn);
    }
    let size = codes.len().saturating_mul(2).max(8);
    let mut wider = vec![in *heads.allocator(); 0; size]?;
    link_all(codes, turn.factor, before, &mut wider);
    *heads = wider;
    Ok(CodeFactor {
        factor: turn.factor,
        long: LONG,
    })
}

// Makes space for one place more.
fn lengthen(
    codes: &[u64],
    factor: u64,
    before: &mut Vec<u32>,
    heads: &Vec<u32>,
) -> Result<(), AllocError>
    requires table { IsPlaceTable codes.now before.old.items heads.now.items factor }
    ensures table { IsPlaceTable codes.now before.new.items heads.now.items factor }
    ensures room { OnOk result (length codes.now < length before.new.items) }
{
    let _ = factor;
    let _ = heads;
    if codes.len() < before.len() {
        return Ok(());
    }
    before.push(0)?;
    Ok(())
}

// Where the last place came into a long chain, links all again by another factor, and again while
// some chain is long.
fn settle(
    codes: &[u64],
    turn: CodeFactor,
    before: &mut Vec<u32>,
    heads: &mut Vec<u32>,
) -> CodeFactor
    requires few { length codes.now < 2 ^ 32 }
    requires before { length codes.now ≤ length before.old.items }
    requires heads { 0 < length heads.old.items }
    requires linked { IsLinked codes.now before.old.items heads.old.items turn.factor
        (length heads.old.items) (length codes.now) }
    ensures linked { IsLinked codes.now before.new.items heads.new.items result.factor
        (length heads.new.items) (length codes.now) }
    ensures before { length before.new.items ≡ length before.old.items }
    ensures heads { length heads.new.items ≡ length heads.old.items }
{
    let mut turn = turn;
    let mut crowded = is_crowded(codes, before.as_slice(), codes.len(), turn.long);
    while crowded && turn.long < codes.len() {
        turn = next_factor(turn);
        heads.fill(0);
        link_all(codes, turn.factor, before, heads);
        crowded = has_long_chain(codes, before.as_slice(), turn.long);
    }
    turn
}

// The factor that comes after another one.
fn next_factor(turn: CodeFactor) -> CodeFactor
    requires { turn.long < 2 ^ 32 }
    ensures { turn.long < result.long }
{
    CodeFactor {
        factor: turn.factor.wrapping_mul(0xd134_2543_de82_ef95),
        long: turn.long + MORE,
    }
}

// Whether so many places with other codes come before some place in its chain.
fn has_long_chain(codes: &[u64], before: &[u32], many: usize) -> bool {
    for place in 0..codes.len() {
        if is_crowded(codes, before, place + 1, many) {
            return true;
        }
    }
    false
}

// Whether so many places with other codes come in its chain before the place at this end.
fn is_crowded(codes: &[u64], before: &[u32], last: usize, many: usize) -> bool {
    let mut end = last;
    for _ in 0..many {
        if end == 0 || end > codes.len() || end > before.len() || last > codes.len() {
            return false;
        }
        if end < last && codes[end - 1] == codes[last - 1] {
            return false;
        }
        end = before[end - 1] as usize;
    }
    true
}

fn link_all(codes: &[u64], factor: u64, before: &mut Vec<u32>, heads: &mut Vec<u32>)
    requires few { length codes.now < 2 ^ 32 }
    requires before { length codes.now ≤ length before.old.items }
    requires heads { 0 < length heads.old.items }
    requires none { (b : ℕ) → b < length heads.old.items → slice_index heads.old.items b ≡ 0 }
    ensures linked { IsLinked codes.now before.new.items heads.new.items factor
        (length heads.new.items) (length codes.now) }
    ensures before { length before.new.items ≡ length before.old.items }
    ensures heads { length heads.new.items ≡ length heads.old.items }
{
    for place in 0..codes.len() {
        link(codes, factor, before, heads, place);
    }
}

// Goes back along a chain to a place with the code.
fn skip(codes: &[u64], factor: u64, before: &[u32], slots: usize, code: u64, start: usize) -> usize
    requires fits { start ≤ length codes.now }
    requires before { length codes.now ≤ length before.now }
    requires chain { IsChain codes.now before.now factor slots (length codes.now) }
    requires slot { 0 < start
        → slot_at codes.now factor slots (start - 1) ≡ slot_of factor slots code }
    ensures { IsEnd (code_at codes.now) code start result }
{
    let _ = factor;
    let _ = slots;
    let mut end = start;
    while end > 0 {
        let place = end - 1;
        if codes[place] == code {
            return end;
        }
        end = before[place] as usize;
    }
    0
}

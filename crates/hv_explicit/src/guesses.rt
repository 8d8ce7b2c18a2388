//! Where the results of an action are likely to be listed.
//!
//! A look-up of a result waits for memory once for its slot, once for its code and twice for its
//! atoms, and what comes after waits for the answer. So where the search goes through many states,
//! guesses are made for some dozens of them at once, each step for all of them: by the code that
//! the result has if the action deletes just what its precondition names and adds what isn't held,
//! or, where codes are words, by the word of the result. A guess that is confirmed settles the
//! state, and its result need not be looked up; any other one says nothing. There are none where
//! the result is likely to be the state itself, which is told without a look at atoms, and none
//! once most of them were refused. Nothing is proved of guesses.

use crate::action_bits::ActionBits;
use crate::codes::{BITS, likely_shift};
use crate::coding::Coding;
use crate::explicit::Explicit;
use crate::explicits::Explicits;
use crate::state_owners::{ListedAt, StateOwners};
use hv_sets::{Operand, Which};
use hv_task::Action;

// So many guesses are made at once.
const BLOCK: usize = 32;

// So many guesses may be refused, however few are asked for.
const REFUSED: usize = 8;

// No guess.
const NONE: ListedAt = ListedAt {
    set: u32::MAX,
    place: u32::MAX,
};

// Where results are looked for.
#[derive(Clone, Copy)]
enum Index<'a> {
    // Among the states of the set of this number.
    One(u32, &'a Explicit),
    // Among those of all sets.
    All(&'a StateOwners),
}

// How the code of a result is likely to follow from that of the state.
#[derive(Clone, Copy)]
enum LikelyCode {
    // It is so much more, and the first atom of the result isn't greater than this one.
    More(u64, u32),
    // It is a word, of which these bits stay and those are put.
    Word { kept: u64, put: u64 },
}

// The sets, where results are looked for in them, and by which codes.
#[derive(Clone, Copy)]
struct Lead<'a> {
    sets: &'a Explicits,
    index: Index<'a>,
    code: LikelyCode,
}

/// Guesses for the states of a set at some places, one after another.
#[derive(Drop)]
pub(crate) struct Guesses<'a> {
    set: &'a Explicit,
    places: &'a [u32],
    lead: Option<Lead<'a>>,
    passed: usize,
    refused: usize,
    made: [ListedAt; BLOCK],
}

impl<'a> Guesses<'a> {
    /// None for any state.
    pub(crate) fn none(set: &'a Explicit, places: &'a [u32]) -> Guesses<'a> {
        Guesses {
            set,
            places,
            lead: None,
            passed: 0,
            refused: 0,
            made: [NONE; BLOCK],
        }
    }

    /// Guesses of the action's results in these negative operands, or among the states of all sets.
    pub(crate) fn of(
        sets: &'a Explicits,
        owners: Option<&'a StateOwners>,
        operands: &[Operand],
        action: &Action,
        bits: Option<&ActionBits<'_>>,
        set: &'a Explicit,
        places: &'a [u32],
    ) -> Guesses<'a> {
        let mut guesses = Guesses::none(set, places);
        if places.len() >= BLOCK {
            guesses.lead = lead_of(sets, owners, operands, action, bits, set.key());
        }
        guesses
    }

    /// The guess for the state at the next place.
    pub(crate) fn next(&mut self) -> ListedAt {
        let Some(lead) = self.lead else {
            return NONE;
        };
        let at = self.passed % BLOCK;
        if at == 0 {
            self.make(lead);
        }
        self.passed = self.passed.wrapping_add(1);
        self.made[at]
    }

    /// Tells that a guess was refused. Where these outweigh the others, there will be none from now
    /// on.
    pub(crate) fn refuse(&mut self, guess: ListedAt) {
        if guess.place == NONE.place {
            return;
        }
        self.refused = self.refused.wrapping_add(1);
        if self.refused > REFUSED && self.refused > self.passed / 2 {
            self.lead = None;
        }
    }

    // Makes the guesses for the next places. Where few are found, there will be none from now on.
    fn make(&mut self, lead: Lead<'a>) {
        let mut codes = [0; BLOCK];
        let mut ends = [0; BLOCK];
        for at in 0..BLOCK {
            if let Some(place) = self.places.get(self.passed.wrapping_add(at)) {
                codes[at] = lead.code.after(self.set.code_at(*place as usize));
                ends[at] = lead.start(codes[at]);
            }
        }
        for at in 0..BLOCK {
            self.made[at] = lead.listed(ends[at], codes[at]);
        }
        for at in 0..BLOCK {
            if !lead.is_likely(self.made[at]) {
                self.made[at] = NONE;
            }
        }
        let most = self.places.len().saturating_sub(self.passed).min(BLOCK);
        if many_in(&self.made) < most / 2 {
            self.lead = None;
        }
    }
}

// How many of these are guesses.
fn many_in(made: &[ListedAt]) -> usize {
    let mut many: usize = 0;
    for guess in made {
        if guess.place != NONE.place {
            many = many.saturating_add(1);
        }
    }
    many
}

impl LikelyCode {
    // The code of a result, by that of the state.
    fn after(self, code: u64) -> u64 {
        match self {
            LikelyCode::More(more, _) => code.wrapping_add(more),
            LikelyCode::Word { kept, put } => (code & kept) | put,
        }
    }
}

impl Lead<'_> {
    // Where the chain of the code starts.
    fn start(&self, code: u64) -> usize {
        match self.index {
            Index::One(_, set) => set.start_of(code),
            Index::All(owners) => owners.start_of(code),
        }
    }

    // The state that has the code, by where its chain starts.
    fn listed(&self, start: usize, code: u64) -> ListedAt {
        let found = match self.index {
            Index::One(number, set) => match set.place_from(start, code) {
                Some(place) => Some(ListedAt { set: number, place }),
                None => None,
            },
            Index::All(owners) => owners.entry_from(start, code),
        };
        found.unwrap_or(NONE)
    }

    // Whether the state begins as a result does.
    fn is_likely(&self, guess: ListedAt) -> bool {
        let LikelyCode::More(_, first) = self.code else {
            return true;
        };
        if guess.set as usize >= self.sets.len() {
            return false;
        }
        let set = self.sets.get(guess.set as usize);
        if guess.place as usize >= set.len() {
            return false;
        }
        match set.atoms_at(guess.place as usize).first() {
            Some(atom) => atom <= first,
            None => false,
        }
    }
}

// What leads to guesses, where the states have codes by this key, and words are theirs alone.
fn lead_of<'a>(
    sets: &'a Explicits,
    owners: Option<&'a StateOwners>,
    operands: &[Operand],
    action: &Action,
    bits: Option<&ActionBits<'_>>,
    key: u64,
) -> Option<Lead<'a>> {
    let code = match bits {
        Some(bits) if key == BITS => LikelyCode::Word {
            kept: !bits.del,
            put: bits.add,
        },
        Some(_) => {
            return None;
        }
        None => likely_code(action, key)?,
    };
    let index = match owners {
        Some(owners) => all_of(owners, key)?,
        None => greatest_of(sets, operands, key)?,
    };
    Some(Lead { sets, index, code })
}

// How the codes of results follow by sums, unless the results are likely to be the states.
fn likely_code(action: &Action, key: u64) -> Option<LikelyCode> {
    let more = likely_shift(key, action);
    if more == 0 {
        return None;
    }
    let first = match action.add.as_slice().first() {
        Some(atom) => *atom,
        None => u32::MAX,
    };
    Some(LikelyCode::More(more, first))
}

// The states of all sets, where they have codes by this key.
fn all_of(owners: &StateOwners, key: u64) -> Option<Index<'_>> {
    match owners.coding {
        Coding::Sums(sums) if sums == key => Some(Index::All(owners)),
        _ => None,
    }
}

// Of the sets that are asked about after the action, one that has codes by this key and of which
// none is greater.
fn greatest_of<'a>(sets: &'a Explicits, operands: &[Operand], key: u64) -> Option<Index<'a>> {
    let mut best: Option<(u32, &'a Explicit)> = None;
    for operand in operands {
        if let Which::Set(number) = operand.which {
            if operand.after && number < sets.len() && number < u32::MAX as usize {
                let set = sets.get(number);
                let less = match best {
                    Some((_, other)) => other.len() < set.len(),
                    None => true,
                };
                if less && set.key() == key {
                    best = Some((number as u32, set));
                }
            }
        }
    }
    let (number, set) = best?;
    Some(Index::One(number, set))
}

//! States of a task with at most 64 atoms as words: a bit is set for each atom that a state holds.
//! Such a word is the state's code by the key 0.

ghost use Rattle.std.specs.Prelude.{◌≡◌, ◌<◌, ◌≤◌, ◌^◌, ◌↔◌, ℕ, IsTrue};
ghost use Rattle.std.specs.Int.{bit_at};
ghost use Rattle.std.specs.List.Sorted.{IsStrictlyIncreasing};
ghost use Rattle.hv_task.specs.State.{AreBelow, names_atom};
ghost use Rattle.hv_task.specs.Atoms.{IsNext};
ghost use Rattle.hv_explicit.specs.Codes.{IsBelow};
ghost use Rattle.hv_explicit.specs.Working.Codes.{IsSame};
ghost use Rattle.hv_explicit.specs.Working.Words.{word_atoms};

use crate::codes::{BITS, code_of, list_code, sip_code};
use crate::results::is_same;
use crate::sought::Sought;
use hv_task::{Atoms, Hint};

/// A state of a task with at most 64 atoms.
#[derive(Clone, Copy)]
pub(crate) struct StateWord {
    pub bits: u64,
    pub ghost fits: { bits < 2 ^ 64 },
}

impl Atoms for StateWord {
    ghost has = { λ w. names_atom (word_atoms w.bits) };

    fn next(&self, from: u32, hint: &mut Hint) -> Option<u32> {
        let _ = hint;
        next_atom(self.bits, from)
    }
}

impl Sought for StateWord {
    ghost has = { λ w. names_atom (word_atoms w.bits) };

    fn code(&self, key: u64, atoms: u32) -> u64 {
        if key == BITS {
            return self.bits;
        }
        code_of(key, self, atoms)
    }

    fn sip(&self, atoms: u32) -> u64 {
        sip_code(self, atoms)
    }

    fn is(&self, list: &[u32]) -> bool {
        is_same(list, self)
    }

    fn holds(&self, atom: u32) -> bool {
        holds_atom(self.bits, atom)
    }
}

/// The word of these atoms, which rise.
pub(crate) fn word_of_list(held: &[u32]) -> u64
    requires rises { IsStrictlyIncreasing held.now }
    requires below { AreBelow 64 held.now }
    ensures { word_atoms result ≡ held.now }
{
    list_code(BITS, held)
}

/// Whether the set of atoms is the state of this word; both are of a task with so few atoms.
pub(crate) fn is_word<A: Sought>(word: u64, held: &A, atoms: u32) -> bool
    requires few { atoms ≤ 64 }
    requires held { IsBelow atoms (A.has held.now) }
    ensures { IsTrue result ↔ IsSame (A.has held.now) (word_atoms word) }
{
    let code = held.code(BITS, atoms);
    if code != word {
        return false;
    }
    true
}

// Whether the state of the word holds the atom.
fn holds_atom(word: u64, atom: u32) -> bool
    ensures { result ≡ names_atom (word_atoms word) atom }
{
    if atom >= 64 {
        return false;
    }
    has_bit(word, atom)
}

// The least atom of the word from this one on.
fn next_atom(word: u64, from: u32) -> Option<u32>
    ensures { IsNext (names_atom (word_atoms word)) from result }
{
    if from >= 64 {
        return None;
    }
    let rest = word >> from;
    if rest == 0 {
        return None;
    }
    Some(from + rest.trailing_zeros())
}

fn has_bit(word: u64, atom: u32) -> bool
    requires { atom < 64 }
    ensures { IsTrue result ↔ (bit_at word atom ≡ 1) }
{
    word & (1 << atom) != 0
}

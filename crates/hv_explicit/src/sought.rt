//! Sets of atoms that are looked for among listed states. Each gives its own codes and compares
//! itself with a list, so that a list, a result and any other such set do it in the way that is
//! quickest for each.

ghost use Rattle.std.specs.Prelude.{◌≡◌, ◌≤◌, ◌-◌, ◌^◌, ◌↔◌, ℕ, Bool, IsTrue};
ghost use Rattle.std.specs.List.Sorted.{IsStrictlyIncreasing};
ghost use Rattle.hv_task.specs.State.{AreBelow, names_atom};
ghost use Rattle.hv_task.specs.Atoms.{is_after};
ghost use Rattle.hv_explicit.specs.Codes.{IsBelow};
ghost use Rattle.hv_explicit.specs.Working.Codes.{IsAfterCode, IsCode, IsListCode, IsSame, IsSip};

use crate::codes::{code_after, code_of, list_code, list_sip, sip_code};
use crate::results::{is_result, is_same, named};
use crate::state_word::StateWord;
use hv_task::{Action, After, Atoms, Hint};

/// A set of atoms of a task that is looked for among listed states.
pub(crate) trait Sought {
    /// Whether the atom is in the set.
    ghost has: { Self → ℕ → Bool };

    /// The code of the set by this key; the task has so many atoms.
    fn code(&self, key: u64, atoms: u32) -> u64
        requires { IsBelow atoms (has self.now) }
        ensures { IsCode key (has self.now) result };

    /// The SipHash of the set; the task has so many atoms.
    fn sip(&self, atoms: u32) -> u64
        requires { IsBelow atoms (has self.now) }
        ensures { IsSip (has self.now) result };

    /// Whether the set has just the atoms of this list, which rise.
    fn is(&self, list: &[u32]) -> bool
        requires below { AreBelow (2 ^ 32 - 1) list.now }
        requires rises { IsStrictlyIncreasing list.now }
        ensures { IsTrue result ↔ IsSame (has self.now) list.now };

    /// Whether the atom is in the set.
    fn holds(&self, atom: u32) -> bool
        ensures { result ≡ has self.now atom };
}

/// The atoms of a state, which rise, and their code by a key.
#[derive(Clone, Copy)]
pub(crate) struct Coded<'a> {
    pub atoms: &'a [u32],
    pub key: u64,
    pub code: u64,
    pub ghost rises: { IsStrictlyIncreasing atoms.now },
    pub ghost coded: { IsListCode key atoms.now code },
}

impl<'a> Coded<'a> {
    /// The state of these atoms, with its code by this key.
    pub(crate) fn new(key: u64, atoms: &'a [u32]) -> Coded<'a>
        requires { IsStrictlyIncreasing atoms.now }
        ensures atoms { result.atoms.now ≡ atoms.now }
        ensures key { result.key ≡ key }
    {
        let code = list_code(key, atoms);
        Coded { atoms, key, code }
    }
}

/// A state of a set: by its atoms or, in a task with at most 64 atoms, by a bit for each of them.
#[derive(Clone, Copy)]
pub(crate) enum SomeState<'a> {
    /// By its atoms.
    Listed(Coded<'a>),
    /// By its word.
    Word(StateWord),
}

impl Sought for Coded<'_> {
    ghost has = { λ s. names_atom s.atoms.now };

    fn code(&self, key: u64, atoms: u32) -> u64 {
        let _ = atoms;
        if key == self.key {
            return self.code;
        }
        list_code(key, self.atoms)
    }

    fn sip(&self, atoms: u32) -> u64 {
        let _ = atoms;
        list_sip(self.atoms)
    }

    fn is(&self, list: &[u32]) -> bool {
        list == self.atoms
    }

    fn holds(&self, atom: u32) -> bool {
        named(self.atoms, atom)
    }
}

/// What an action makes of the state of these atoms, which rise, and its code by a key. It is read
/// without being built.
#[derive(Clone, Copy)]
pub(crate) struct ActionResult<'a> {
    pub held: &'a [u32],
    pub action: &'a Action,
    pub key: u64,
    pub code: u64,
    pub ghost rises: { IsStrictlyIncreasing held.now },
    pub ghost coded: { IsAfterCode key action.now held.now code },
}

impl<'a> ActionResult<'a> {
    /// What the action makes of the state.
    pub(crate) fn of(state: Coded<'a>, action: &'a Action) -> ActionResult<'a>
        ensures held { result.held.now ≡ state.entry.atoms.now }
        ensures action { result.action.now ≡ action.now }
    {
        let code = code_after(state.key, state.code, state.atoms, action);
        ActionResult {
            held: state.atoms,
            action,
            key: state.key,
            code,
        }
    }
}

impl Sought for ActionResult<'_> {
    ghost has = { λ s. is_after s.action.now s.held.now };

    fn code(&self, key: u64, atoms: u32) -> u64 {
        let _ = atoms;
        if key == self.key {
            return self.code;
        }
        code_after(key, list_code(key, self.held), self.held, self.action)
    }

    fn sip(&self, atoms: u32) -> u64 {
        let after = After {
            held: self.held,
            action: self.action,
        };
        sip_code(&after, atoms)
    }

    fn is(&self, list: &[u32]) -> bool {
        is_result(list, self.held, self.action)
    }

    fn holds(&self, atom: u32) -> bool {
        let after = After {
            held: self.held,
            action: self.action,
        };
        has_atom(atom, &after)
    }
}

/// A set of atoms that is read in order.
#[derive(Drop)]
pub(crate) struct ReadInOrder<'a, A> {
    pub set: &'a A,
}

impl<A: Atoms> Sought for ReadInOrder<'_, A> {
    ghost has = { λ s. A.has s.set.now };

    fn code(&self, key: u64, atoms: u32) -> u64 {
        code_of(key, self.set, atoms)
    }

    fn sip(&self, atoms: u32) -> u64 {
        sip_code(self.set, atoms)
    }

    fn is(&self, list: &[u32]) -> bool {
        is_same(list, self.set)
    }

    fn holds(&self, atom: u32) -> bool {
        has_atom(atom, self.set)
    }
}

fn has_atom<A: Atoms>(atom: u32, held: &A) -> bool
    ensures { result ≡ A.has held.now atom }
{
    held.next(atom, &mut Hint::default()) == Some(atom)
}

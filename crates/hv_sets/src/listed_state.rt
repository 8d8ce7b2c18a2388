//! Listed states as they are kept: by their atoms, each in four bytes or in one.

ghost use Rattle.std.specs.Prelude.{◌≡◌, ◌≤◌, length, slice_get, take};
ghost use Rattle.std.specs.List.Sorted.{IsStrictlyIncreasing};

use std::marker::Model;

/// A state that is kept in bytes has at most so many atoms.
pub(crate) const MOST_ATOMS: usize = 64;

/// Space for the atoms of a listed state, for a caller that wants them as a slice.
#[derive(Drop)]
pub struct StateBuffer {
    atoms: [u32; MOST_ATOMS],
}

impl StateBuffer {
    /// Space that is free.
    pub fn new() -> StateBuffer {
        StateBuffer {
            atoms: [0; MOST_ATOMS],
        }
    }
}

/// The atoms of a listed state, which rise.
#[derive(Drop)]
pub struct KeptState<'a> {
    kept: KeptAtoms<'a>,
}

/// How they are kept.
#[derive(Clone, Copy, Drop)]
pub(crate) enum KeptAtoms<'a> {
    /// Each in four bytes.
    Wide(&'a [u32]),
    /// At most 64 atoms, each in one byte.
    Narrow(&'a [u8]),
}

impl<'a> Model for KeptState<'a> {
    ghost use Rattle.std.specs.Prelude.{ℕ, List};
    ghost use Rattle.std.specs.List.Sorted.{IsStrictlyIncreasing};
    ghost use Rattle.hv_sets.specs.Working.KeptStates.{FitsBuffer, kept_atoms};

    ghost Value = { List ℕ };

    ghost view = { λ s. kept_atoms s.kept };

    ghost invariant = { λ s. IsStrictlyIncreasing (kept_atoms s.kept) × FitsBuffer s.kept };
}

impl<'a> KeptState<'a> {
    /// The state of these atoms.
    pub(crate) fn wide(atoms: &'a [u32]) -> KeptState<'a>
        requires { IsStrictlyIncreasing atoms.now }
        ensures { result ≡ atoms.now }
    {
        KeptState {
            kept: KeptAtoms::Wide(atoms),
        }
    }

    /// The state of these atoms.
    pub(crate) fn narrow(atoms: &'a [u8]) -> KeptState<'a>
        requires rises { IsStrictlyIncreasing atoms.now }
        requires few { length atoms.now ≤ 64 }
        ensures { result ≡ atoms.now }
    {
        KeptState {
            kept: KeptAtoms::Narrow(atoms),
        }
    }

    /// How many atoms the state holds.
    pub fn len(&self) -> usize
        ensures { result ≡ length self.now }
    {
        match self.kept {
            KeptAtoms::Wide(atoms) => atoms.len(),
            KeptAtoms::Narrow(atoms) => atoms.len(),
        }
    }

    /// The least atom, where the state holds one.
    pub fn first(&self) -> Option<u32>
        ensures { result ≡ slice_get self.now 0 }
    {
        match self.kept {
            KeptAtoms::Wide(atoms) => first_of(atoms),
            KeptAtoms::Narrow(atoms) => match atoms.first() {
                Some(atom) => Some(u32::from(*atom)),
                None => None,
            },
        }
    }

    /// The atoms as a slice, for which the buffer may give the space.
    pub fn slice<'b>(self, buffer: &'b mut StateBuffer) -> &'b [u32]
    where
        'a: 'b,
        ensures atoms { result.now ≡ self.entry }
        ensures rises { IsStrictlyIncreasing result.now }
    {
        match self.kept {
            KeptAtoms::Wide(atoms) => atoms,
            KeptAtoms::Narrow(atoms) => {
                widen(&mut buffer.atoms, atoms);
                &buffer.atoms[..atoms.len()]
            }
        }
    }
}

fn first_of(atoms: &[u32]) -> Option<u32>
    ensures { result ≡ slice_get atoms.now 0 }
{
    match atoms.first() {
        Some(atom) => Some(*atom),
        None => None,
    }
}

// Puts these atoms first in the space.
fn widen(space: &mut [u32], atoms: &[u8])
    requires { length atoms.now ≤ length space.old }
    ensures atoms { take (length atoms.now) space.new ≡ atoms.now }
    ensures length { length space.new ≡ length space.old }
{
    for (place, atom) in atoms.iter().enumerate() {
        space[place] = *atom as u32;
    }
}

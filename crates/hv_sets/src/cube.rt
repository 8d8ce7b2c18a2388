//! Cubes: the states in which some literals are true.

ghost use Rattle.std.specs.Prelude.{◌≡◌, ◌<◌, ◌↔◌, ◌==◌, ◌++◌, ◌∷◌, [], false, true, length};
ghost use Rattle.std.specs.Prelude.{slice_get, IfOk, OnErr, Some};
ghost use Rattle.std.specs.List.{Contains};
ghost use Rattle.std.specs.List.Sorted.{IsStrictlyIncreasing};
ghost use Rattle.hv_task.specs.Working.AtomList.{IsPlaceOf};
ghost use Rattle.hv_task.specs.State.{AreBelow};
ghost use Rattle.hv_sets.specs.Cubes.{Adds, SpeakBelow, atoms_of, opposite, put_in};
ghost use Rattle.hv_sets.specs.Working.Cubes.{IsFirstUpto};
ghost use Rattle.hv_sets.specs.Truth.{in_cube};

use crate::literal::Literal;
use hv_task::State;
use std::alloc::{AllocError, Global};
use std::marker::Model;

/// A cube: the states in which each of its literals is true. Their atoms rise.
#[derive(Drop)]
pub struct Cube {
    items: Vec<Literal>,
}

impl Model for Cube {
    ghost use Rattle.std.specs.Prelude.{List};
    ghost use Rattle.std.specs.List.Sorted.{IsStrictlyIncreasing};
    ghost use Rattle.hv_sets.specs.Cubes.{atoms_of};
    ghost use Rattle.hv_sets.specs.declared.literal.Literal.{Literal};

    ghost Value = { List Literal };

    ghost view = { λ c. c.items.items };

    ghost invariant = { λ c. IsStrictlyIncreasing (atoms_of c.items.items) };
}

impl Cube {
    /// The cube without literals, which has every state.
    pub fn new(alloc: Global) -> Cube
        ensures { result ≡ [] }
    {
        Cube {
            items: Vec::new(alloc),
        }
    }

    /// Puts a literal in. The answer is false if the opposite literal is in the cube, which is
    /// then unchanged.
    pub fn add(&mut self, literal: Literal) -> Result<bool, AllocError>
        ensures added { IfOk result (λ yes. yes ≡ true → Adds self.old literal self.new) }
        // It goes where its atom belongs.
        ensures placed { IfOk result (λ _. self.new ≡ put_in literal self.old) }
        // A literal of a greater atom than all others goes last.
        ensures last { IfOk result (λ yes. AreBelow literal.atom (atoms_of self.old) → (yes ≡ true)
            × (self.new ≡ self.old ++ literal ∷ [])) }
        // A literal that is in the cube changes nothing.
        ensures there { IfOk result (λ _. Contains self.old literal → self.new ≡ self.old) }
        ensures refused { IfOk result (λ yes. yes ≡ false → self.new ≡ self.old) }
        ensures opposite { IfOk result (λ yes. (yes ≡ false)
            ↔ Contains self.old (opposite literal)) }
        ensures err { OnErr result (self.new ≡ self.old) }
    {
        match place_of(self.items.as_slice(), literal.atom) {
            Ok(place) => Ok(self.items[place].positive == literal.positive),
            Err(place) => {
                self.items.insert(place, literal)?;
                Ok(true)
            }
        }
    }

    /// Takes all literals out.
    pub fn clear(&mut self)
        ensures { self.new ≡ [] }
    {
        self.items.clear();
    }

    /// How many literals it has.
    pub fn len(&self) -> usize
        ensures { result ≡ length self.now }
    {
        self.items.len()
    }

    /// Whether it has none.
    pub fn is_empty(&self) -> bool
        ensures { result ≡ (length self.now == 0) }
    {
        self.items.is_empty()
    }

    /// Whether the state is in the cube.
    pub fn has(&self, state: &State) -> bool
        requires { SpeakBelow (length state.now) self.now }
        ensures { result ≡ in_cube self.now state.now }
    {
        self.items.iter().all(|literal| literal.is_true_in(state))
    }

    /// The literal at a place from 0, by rising atoms.
    pub fn get(&self, place: usize) -> Literal
        requires { place < length self.now }
        ensures { slice_get self.now place ≡ Some result }
    {
        self.items[place]
    }

    /// All literals, by rising atoms.
    pub fn as_slice(&self) -> &[Literal]
        ensures items { result.now ≡ self.now }
        ensures rises { IsStrictlyIncreasing (atoms_of result.now) }
    {
        self.items.as_slice()
    }
}

// The place of the literal of an atom, or else the place where it belongs.
fn place_of(literals: &[Literal], atom: u32) -> Result<usize, usize>
    requires { IsStrictlyIncreasing (atoms_of literals.now) }
    ensures { IsPlaceOf (atoms_of literals.now) atom result }
{
    let place = first_upto(literals, atom);
    match literals.get(place) {
        Some(found) if found.atom == atom => Ok(place),
        _ => Err(place),
    }
}

// How many literals have lesser atoms. It takes no search where all have.
fn first_upto(literals: &[Literal], atom: u32) -> usize
    requires { IsStrictlyIncreasing (atoms_of literals.now) }
    ensures { IsFirstUpto (atoms_of literals.now) atom result }
{
    match literals.last() {
        Some(last) if last.atom >= atom => search(literals, atom),
        _ => literals.len(),
    }
}

fn search(literals: &[Literal], atom: u32) -> usize
    requires { IsStrictlyIncreasing (atoms_of literals.now) }
    ensures { IsFirstUpto (atoms_of literals.now) atom result }
{
    literals.partition_point(|l| l.atom < atom)
}

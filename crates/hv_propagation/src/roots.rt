//! What is known before a search begins.

ghost use Rattle.std.specs.Prelude.{◌≡◌, ◌<◌};
ghost use Rattle.std.specs.List.Sorted.{IsStrictlyIncreasing};
ghost use Rattle.hv_sets.specs.Cubes.{atoms_of};
ghost use Rattle.hv_sets.specs.Working.Cubes.{IsFirstUpto};
ghost use Rattle.hv_propagation.specs.Roots.{untouched};
ghost use Rattle.hv_propagation.specs.Marks.{known};
ghost use Rattle.hv_propagation.specs.Trail.{marked};

use crate::effect::ActionEffect;
use hv_sets::Literal;
use std::marker::Model;

/// Literals that are known before a search begins: those that others lend, but for those of whose
/// atoms an effect says something.
#[derive(Drop)]
pub struct Roots<'a> {
    literals: &'a [Literal],
    effect: ActionEffect<'a>,
}

impl<'a> Model for Roots<'a> {
    ghost use Rattle.std.specs.Prelude.{List};
    ghost use Rattle.std.specs.List.Sorted.{IsStrictlyIncreasing};
    ghost use Rattle.hv_sets.specs.declared.literal.Literal.{Literal};
    ghost use Rattle.hv_sets.specs.Cubes.{atoms_of};
    ghost use Rattle.hv_propagation.specs.Roots.{untouched};

    ghost Value = { List Literal };

    ghost view = { λ s. untouched s.effect s.literals.now };

    ghost invariant = { λ s. IsStrictlyIncreasing (atoms_of s.literals.now) };
}

impl<'a> Roots<'a> {
    /// These literals.
    pub fn of(literals: &'a [Literal]) -> Roots<'a>
        requires { IsStrictlyIncreasing (atoms_of literals.now) }
        ensures { result ≡ literals.now }
    {
        Roots {
            literals,
            effect: ActionEffect::none(),
        }
    }

    /// Those of these literals of whose atoms the effect says nothing.
    pub fn unaffected(literals: &'a [Literal], effect: ActionEffect<'a>) -> Roots<'a>
        requires { IsStrictlyIncreasing (atoms_of literals.now) }
        ensures { result ≡ untouched effect.entry literals.now }
    {
        Roots { literals, effect }
    }

    /// What they say of an atom of a task with so many.
    #[inline(always)]
    pub(crate) fn read(&self, atoms: usize, atom: u32) -> Option<bool>
        requires { atom < atoms }
        ensures { result ≡ known (marked atoms self.now) atom }
    {
        if self.literals.is_empty() {
            return None;
        }
        self.read_some(atoms, atom)
    }

    // The same, where there are some.
    #[inline(never)]
    fn read_some(&self, atoms: usize, atom: u32) -> Option<bool>
        requires { atom < atoms }
        ensures { result ≡ known (marked atoms self.now) atom }
    {
        match self.effect.read(atom) {
            None => said(self.literals, atoms, atom),
            Some(_) => None,
        }
    }
}

// What literals by rising atoms say of an atom.
pub(crate) fn said(roots: &[Literal], atoms: usize, atom: u32) -> Option<bool>
    requires rises { IsStrictlyIncreasing (atoms_of roots.now) }
    requires atom { atom < atoms }
    ensures { result ≡ known (marked atoms roots.now) atom }
{
    // Where nearly every atom has a literal, it is here: what has none comes before it.
    let missing = atoms.saturating_sub(roots.len());
    if missing < roots.len() {
        let near = (atom as usize).saturating_sub(missing);
        if near < roots.len() && roots[near].atom == atom {
            return Some(roots[near].positive);
        }
    }
    let place = place_in(roots, atom);
    if place >= roots.len() {
        return None;
    }
    let literal = roots[place];
    if literal.atom != atom {
        return None;
    }
    Some(literal.positive)
}

// How many literals are of lesser atoms.
fn place_in(roots: &[Literal], atom: u32) -> usize
    requires { IsStrictlyIncreasing (atoms_of roots.now) }
    ensures { IsFirstUpto (atoms_of roots.now) atom result }
{
    roots.partition_point(|literal| literal.atom < atom)
}

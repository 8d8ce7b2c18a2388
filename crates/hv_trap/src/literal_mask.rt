//! Sets of literals over at most 64 atoms, as two words.

ghost use Rattle.std.specs.Prelude.{◌<◌, IfSome};
ghost use Rattle.hv_task.specs.State.{AreBelow};

use hv_sets::Literal;

/// A set of literals over at most 64 atoms: bit p of `holds` is 1 where the literal of atom p is in
/// it, and bit p of `denies` where its negation is.
#[derive(Clone, Copy)]
pub(crate) struct Mask {
    pub holds: u64,
    pub denies: u64,
}

impl Mask {
    /// The empty set.
    pub(crate) fn none() -> Mask {
        Mask {
            holds: 0,
            denies: 0,
        }
    }

    /// The set of all literals.
    pub(crate) fn all() -> Mask {
        Mask {
            holds: u64::MAX,
            denies: u64::MAX,
        }
    }

    /// Whether the literal is in it.
    pub(crate) fn has(self, literal: Literal) -> bool
        requires { literal.atom < 64 }
    {
        if literal.positive {
            has_bit(self.holds, literal.atom)
        } else {
            has_bit(self.denies, literal.atom)
        }
    }

    /// The set with the literal put in.
    pub(crate) fn with(self, literal: Literal) -> Mask
        requires { literal.atom < 64 }
    {
        let bit = bit_of(literal.atom);
        if literal.positive {
            Mask {
                holds: self.holds | bit,
                denies: self.denies,
            }
        } else {
            Mask {
                holds: self.holds,
                denies: self.denies | bit,
            }
        }
    }

    /// The literals of both sets together.
    pub(crate) fn joined(self, other: Mask) -> Mask {
        Mask {
            holds: self.holds | other.holds,
            denies: self.denies | other.denies,
        }
    }

    /// The literals that are in both sets.
    pub(crate) fn met(self, other: Mask) -> Mask {
        Mask {
            holds: self.holds & other.holds,
            denies: self.denies & other.denies,
        }
    }

    /// The negations of its literals.
    pub(crate) fn opposite(self) -> Mask {
        Mask {
            holds: self.denies,
            denies: self.holds,
        }
    }

    /// Whether a literal is in both.
    pub(crate) fn meets(self, other: Mask) -> bool {
        self.holds & other.holds != 0 || self.denies & other.denies != 0
    }

    /// Whether both have the same literals.
    pub(crate) fn same(self, other: Mask) -> bool {
        self.holds == other.holds && self.denies == other.denies
    }

    /// Whether a literal and its negation are in it.
    pub(crate) fn clashes(self) -> bool {
        self.holds & self.denies != 0
    }

    /// A literal of it, if there is one.
    pub(crate) fn first(self) -> Option<Literal>
        ensures { IfSome result (λ literal. literal.atom < 64) }
    {
        if let Some(atom) = first_bit(self.holds) {
            return Some(Literal {
                atom,
                positive: true,
            });
        }
        first_bit(self.denies).map(|atom| Literal {
            atom,
            positive: false,
        })
    }
}

/// The word whose bits are 1 for these atoms.
pub(crate) fn word_of(atoms: &[u32]) -> u64
    requires { AreBelow 64 atoms.now }
{
    let mut word = 0;
    for atom in atoms {
        word |= bit_of(*atom);
    }
    word
}

/// Whether the bit of the word is 1.
pub(crate) fn has_bit(word: u64, place: u32) -> bool
    requires { place < 64 }
{
    word & bit_of(place) != 0
}

/// The word of this one bit.
pub(crate) fn bit_of(place: u32) -> u64
    requires { place < 64 }
{
    1 << place
}

// The place of a bit of the word that is 1, if there is one.
fn first_bit(word: u64) -> Option<u32>
    ensures { IfSome result (λ place. place < 64) }
{
    (0..64).find(|place| has_bit(word, *place))
}

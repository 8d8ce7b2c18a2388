//! Which literals follow from which.

ghost use Rattle.std.specs.Prelude.{◌<◌};

use crate::conjunctions::opposite;
use crate::literal_mask::Mask;
use hv_sets::Literal;

// How many literals there are over 64 atoms.
const LITERALS: usize = 128;

/// A set of literals for each literal over 64 atoms.
#[derive(Clone, Copy)]
pub(crate) struct LiteralTable {
    rows: [Mask; 128],
}

impl LiteralTable {
    /// An empty set for each.
    pub(crate) fn empty() -> LiteralTable {
        LiteralTable {
            rows: [Mask::none(); 128],
        }
    }

    /// The set of this literal.
    pub(crate) fn of(&self, literal: Literal) -> Mask
        requires { literal.atom < 64 }
    {
        self.rows[place_of(literal)]
    }

    /// Puts a literal into the set of another one.
    pub(crate) fn put(&mut self, from: Literal, to: Literal)
        requires from { from.atom < 64 }
        requires to { to.atom < 64 }
    {
        let place = place_of(from);
        self.rows[place] = self.rows[place].with(to);
    }

    /// Takes out of the set of each of these literals what isn't among them.
    pub(crate) fn keep(&mut self, literals: Mask) {
        for place in 0..LITERALS {
            if literals.has(literal_at(place)) {
                self.rows[place] = self.rows[place].met(literals);
            }
        }
    }

    /// The table of what follows by any number of steps, none among them.
    pub(crate) fn closed(&self) -> LiteralTable {
        let mut table = *self;
        for place in 0..LITERALS {
            let literal = literal_at(place);
            table.put(literal, literal);
        }
        for place in 0..LITERALS {
            table.step_through(literal_at(place));
        }
        table
    }

    // Puts in what follows by a step to this literal and one from it.
    fn step_through(&mut self, middle: Literal)
        requires { middle.atom < 64 }
    {
        let further = self.of(middle);
        for row in self.rows.iter_mut() {
            if row.has(middle) {
                *row = row.joined(further);
            }
        }
    }

    /// The literals whose sets aren't those of the other table.
    pub(crate) fn changed(&self, other: &LiteralTable) -> Mask {
        let mut changed = Mask::none();
        for place in 0..LITERALS {
            if !self.rows[place].same(other.rows[place]) {
                changed = changed.with(literal_at(place));
            }
        }
        changed
    }

    /// The literals that are in the set of the opposite one.
    pub(crate) fn forced(&self) -> Mask {
        let mut forced = Mask::none();
        for place in 0..LITERALS {
            let literal = literal_at(place);
            if self.of(opposite(literal)).has(literal) {
                forced = forced.with(literal);
            }
        }
        forced
    }
}

fn place_of(literal: Literal) -> usize
    requires { literal.atom < 64 }
    ensures { result < 128 }
{
    if literal.positive {
        literal.atom as usize + 64
    } else {
        literal.atom as usize
    }
}

fn literal_at(place: usize) -> Literal
    requires { place < 128 }
    ensures { result.atom < 64 }
{
    Literal {
        atom: place as u32 % 64,
        positive: place >= 64,
    }
}

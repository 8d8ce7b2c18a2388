//! Clauses whose literals of one sign are of one atom at most.

ghost use Rattle.std.specs.Prelude.{◌↔◌, IsTrue};
ghost use Rattle.hv_sets.specs.Kinds.{IsHeaded};

use hv_sets::Literal;

// Whether the literals of this sign in a clause are of one atom at most.
pub(crate) fn is_headed(sign: bool, clause: &[Literal]) -> bool
    ensures { IsTrue result ↔ IsHeaded sign clause.now }
{
    match clause.iter().find(|literal| literal.positive == sign) {
        None => true,
        Some(head) => clause.iter().all(|literal| literal.positive != sign
            || literal.atom == head.atom),
    }
}

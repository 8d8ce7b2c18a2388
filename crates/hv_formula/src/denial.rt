//! The cube of the states in which a clause is false.

ghost use Rattle.std.specs.Prelude.{◌≡◌, false, true, Some, IfOk};
ghost use Rattle.hv_formula.specs.Denial.{is_tautology, denial_step};

use hv_sets::{Cube, Literal};
use std::alloc::AllocError;

// Makes the cube that of the states in which the clause is false. The answer is false if it is a
// tautology.
pub(crate) fn fill(clause: &[Literal], cube: &mut Cube) -> Result<bool, AllocError>
    ensures some { IfOk result (λ some. some ≡ true → denial_step clause.now ≡ Some cube.new) }
    ensures none { IfOk result (λ some. some ≡ false → is_tautology clause.now ≡ true) }
{
    cube.clear();
    for literal in clause {
        let opposite = Literal {
            atom: literal.atom,
            positive: !literal.positive,
        };
        if !cube.add(opposite)? {
            return Ok(false);
        }
    }
    Ok(true)
}

//! Cubes of literals in any order. That an entry of a list is another's is confirmed by the list
//! itself, so no row is cleared from cube to cube.

ghost use Rattle.std.specs.Prelude.{◌≡◌, ℕ, Bool, List, true, false, IfOk};
ghost use Rattle.hv_sets.specs.Cubes.{SpeakBelow};
ghost use Rattle.hv_sets.specs.Truth.{in_cube};

use hv_sets::{Cube, Literal};
use std::alloc::{AllocError, Global};

/// Makes it the cube of these literals. The answer is false if two of them are opposite, so that no
/// state is in all. They are put in by rising atoms: in another order each would move those behind
/// it.
pub(crate) fn fill(alloc: Global, cube: &mut Cube, literals: &[Literal]) -> Result<bool, AllocError>
    ensures same { IfOk result (λ yes. yes ≡ true
        → (s : List Bool) → in_cube cube.new s ≡ in_cube literals.now s) }
    ensures below { IfOk result (λ yes. yes ≡ true
        → (n : ℕ) → SpeakBelow n literals.now → SpeakBelow n cube.new) }
    ensures none { IfOk result (λ yes. yes ≡ false
        → (s : List Bool) → in_cube literals.now s ≡ false) }
{
    if do_rise(literals) {
        return fill_along(cube, literals);
    }
    let mut sorted = Vec::new(alloc);
    sorted.extend_from_slice(literals)?;
    sorted.sort_unstable_by_key(|literal| literal.atom);
    fill_along(cube, sorted.as_slice())
}

// Whether the atoms of the literals rise.
fn do_rise(literals: &[Literal]) -> bool {
    for place in 1..literals.len() {
        if literals[place - 1].atom > literals[place].atom {
            return false;
        }
    }
    true
}

// Makes it the cube of these literals, which are put in one after the other.
fn fill_along(cube: &mut Cube, literals: &[Literal]) -> Result<bool, AllocError>
    ensures same { IfOk result (λ yes. yes ≡ true
        → (s : List Bool) → in_cube cube.new s ≡ in_cube literals.now s) }
    ensures below { IfOk result (λ yes. yes ≡ true
        → (n : ℕ) → SpeakBelow n literals.now → SpeakBelow n cube.new) }
    ensures none { IfOk result (λ yes. yes ≡ false
        → (s : List Bool) → in_cube literals.now s ≡ false) }
{
    cube.clear();
    for literal in literals {
        if !cube.add(*literal)? {
            return Ok(false);
        }
    }
    Ok(true)
}

//! Questions about the states of a cube that is made literal by literal, or about one listed state.
//!
//! What is assumed is no longer than a prefix that is refuted: the question says whether a state
//! may be left, and assumes nothing where none is, so it keeps one flag and no depth of the
//! refutation.

ghost use Rattle.std.specs.Prelude.{◌≡◌, ◌<◌, ◌++◌, ◌∷◌, [], ℕ, Bool, true, false, List, length};
ghost use Rattle.std.specs.Prelude.{take, IfOk, OnOk};
ghost use Rattle.hv_task.specs.State.{AreBelow, state_of};
ghost use Rattle.hv_sets.specs.Room.{KeepsLengths};
ghost use Rattle.hv_sets.specs.Walks.{IsStateOf, Meets};
ghost use Rattle.hv_sets.specs.declared.literal.Literal.{Literal};
ghost use Rattle.hv_paths.specs.Along.{IsBarren};

use hv_sets::{Literal, Scratch};
use hv_task::State;
use std::alloc::{AllocError, Global};

/// The question whether some state that is looked for is in a cube. The literals of the cube are
/// assumed one after the other, and taken back from the last on.
pub trait Asker {
    // How many atoms the task has.
    ghost atoms: { Self → ℕ };

    // Whether a state is one of those that are looked for.
    ghost wanted: { Self → List Bool → Bool };

    // The question is as it should be.
    ghost stands: { Self → Type 0 };

    // The literals that are assumed, the first one first.
    ghost assumed: { Self → List Literal };

    // Whether a state that is looked for may be in their cube.
    ghost alive: { Self → Bool };

    /// How many literals are assumed.
    fn depth(&self) -> usize
        requires { stands self.now }
        ensures { result ≡ length (assumed self.now) };

    /// Whether a state that is looked for may be in the cube of what is assumed. If not, none is.
    fn is_open(&self) -> bool
        requires { stands self.now }
        ensures open { result ≡ alive self.now }
        ensures barren { result ≡ false
            → IsBarren (atoms self.now) (wanted self.now) (assumed self.now) };

    /// Assumes one more literal.
    fn assume(&mut self, literal: Literal) -> Result<(), AllocError>
        requires stands { stands self.old }
        requires open { alive self.old ≡ true }
        requires atom { literal.atom < atoms self.old }
        ensures stands { OnOk result (stands self.new) }
        ensures assumed { OnOk result (assumed self.new ≡ assumed self.old ++ literal ∷ []) }
        ensures atoms { atoms self.new ≡ atoms self.old }
        ensures wanted { (s : List Bool) → wanted self.new s ≡ wanted self.old s };

    /// Takes back all but the first so many literals.
    fn take_back(&mut self, depth: usize)
        requires stands { stands self.old }
        requires depth { depth < length (assumed self.old) }
        ensures stands { stands self.new }
        ensures assumed { assumed self.new ≡ take depth (assumed self.old) }
        ensures atoms { atoms self.new ≡ atoms self.old }
        ensures wanted { (s : List Bool) → wanted self.new s ≡ wanted self.old s };

    /// Whether some state that is looked for is in the cube of what is assumed. One such state then
    /// is in the scratch.
    fn meets(&mut self, alloc: Global, scratch: &mut Scratch) -> Result<bool, AllocError>
        requires stands { stands self.old }
        requires open { alive self.old ≡ true }
        ensures meets { IfOk result (λ yes.
            Meets yes (atoms self.old) (wanted self.old) (assumed self.old) scratch.new.state) }
        ensures stands { OnOk result (stands self.new) }
        ensures assumed { OnOk result (assumed self.new ≡ assumed self.old) }
        ensures atoms { atoms self.new ≡ atoms self.old }
        ensures wanted { (s : List Bool) → wanted self.new s ≡ wanted self.old s }
        ensures lengths { KeepsLengths scratch.old scratch.new };

    /// Whether a state is one of those that are looked for. It holds just the atoms that are
    /// listed.
    fn wants(&mut self, alloc: Global, held: &[u32], state: &State) -> Result<bool, AllocError>
        requires stands { stands self.old }
        requires below { AreBelow (atoms self.old) held.now }
        requires size { IsStateOf (atoms self.old) state.now }
        requires state { state.now ≡ state_of (atoms self.old) held.now }
        ensures wants { IfOk result (λ yes. yes ≡ wanted self.old state.now) }
        ensures stands { OnOk result (stands self.new) }
        ensures assumed { OnOk result (assumed self.new ≡ assumed self.old) }
        ensures atoms { atoms self.new ≡ atoms self.old }
        ensures wanted { (s : List Bool) → wanted self.new s ≡ wanted self.old s };
}

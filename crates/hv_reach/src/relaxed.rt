//! The proof by the reached atoms.

ghost use Rattle.std.specs.Prelude.{◌≡◌, ◌<◌, ◌↔◌, ◌++◌, ℕ, true, IsTrue, IfOk, IfSome, OnOk};
ghost use Rattle.std.specs.Prelude.{is_some, length};
ghost use Rattle.hv_lines.specs.Drafts.{IsGoodTable};
ghost use Rattle.hv_lines.specs.Judged.{Concludes};
ghost use Rattle.hv_task.specs.State.{has_atom};
ghost use Rattle.hv_task.specs.Strips.{atoms, start_state};
ghost use Rattle.hv_reach.specs.Reached.{ReachedAtom};
ghost use Rattle.hv_reach.specs.Written.{IsRelaxedProof, RelaxedExcludes};
ghost use Rattle.hv_reach.specs.Written.{atom_clauses, relaxed_formula};

use crate::atom_search::AtomSearch;
use crate::horn_proof::{denied, horn_proof};
use hv_lines::Draft;
use hv_sets::Clauses;
use hv_task::{State, Task};
use std::alloc::{AllocError, Global};

/// The proof that the task has no plan where some goal atom isn't reached from the initial state;
/// otherwise there is none.
pub fn prove_relaxed(alloc: Global, task: &Task) -> Result<Option<Draft>, AllocError>
    ensures some { IfOk result (λ found. IsTrue (is_some found) ↔ RelaxedExcludes task.now) }
    ensures lines { IfOk result (λ found. IfSome found (λ draft.
        IsRelaxedProof task.now draft.lines)) }
    ensures good { IfOk result (λ found. IfSome found (λ draft.
        IsGoodTable task.now draft.lines)) }
    ensures concludes { IfOk result (λ found. IfSome found (λ draft. Concludes draft.lines)) }
{
    match start_atoms(alloc, task)? {
        Some(reached) => {
            let draft = proof_by(alloc, task, &reached)?;
            Ok(Some(draft))
        }
        None => Ok(None),
    }
}

// The atoms that are reached from the initial state, where some goal atom isn't among them.
fn start_atoms(alloc: Global, task: &Task) -> Result<Option<State>, AllocError>
    ensures some { IfOk result (λ found. IsTrue (is_some found) ↔ RelaxedExcludes task.now) }
    ensures size { IfOk result (λ found. IfSome found (λ held. length held ≡ atoms task.now)) }
    ensures reached { IfOk result (λ found. IfSome found (λ held. (p : ℕ)
        → (has_atom held p ≡ true) ↔ ReachedAtom task.now (start_state task.now) p)) }
{
    let start = task.start_state(alloc)?;
    let mut search = AtomSearch::new(alloc, task)?;
    search.reason(alloc, task, &start)
}

// The proof by these atoms.
fn proof_by(alloc: Global, task: &Task, reached: &State) -> Result<Draft, AllocError>
    requires size { length reached.now ≡ atoms task.now }
    requires excludes { RelaxedExcludes task.now }
    requires reached { (p : ℕ)
        → (has_atom reached.now p ≡ true) ↔ ReachedAtom task.now (start_state task.now) p }
    ensures lines { IfOk result (λ draft. IsRelaxedProof task.now draft.lines) }
    ensures good { IfOk result (λ draft. IsGoodTable task.now draft.lines) }
    ensures concludes { IfOk result (λ draft. Concludes draft.lines) }
{
    // For its contract alone: the task is one.
    let _atoms = task.atoms();
    let clauses = relaxed_formula(alloc, reached)?;
    let draft = horn_proof(alloc, task, clauses)?;
    Ok(draft)
}

/// The formula of the states that hold no other atoms than these.
pub(crate) fn relaxed_formula(alloc: Global, reached: &State) -> Result<Clauses, AllocError>
    ensures { IfOk result (λ clauses.
        clauses ≡ relaxed_formula (length reached.now) (has_atom reached.now)) }
{
    let mut clauses = Clauses::new(alloc);
    for atom in 0..reached.atoms() {
        deny_atom(&mut clauses, reached, atom)?;
    }
    Ok(clauses)
}

// Puts the clause that denies the atom, where it isn't reached.
fn deny_atom(clauses: &mut Clauses, reached: &State, atom: u32) -> Result<(), AllocError>
    requires { atom < length reached.now }
    ensures { OnOk result
        (clauses.new ≡ clauses.old ++ atom_clauses (has_atom reached.now) atom) }
{
    if reached.has(atom) {
        return Ok(());
    }
    clauses.push_literals(&[denied(atom)])?;
    Ok(())
}

//! The proof by the reached pairs.

ghost use Rattle.std.specs.Prelude.{◌≡◌, ◌<◌, ◌≤◌, ◌↔◌, ◌++◌, ℕ, true, IsTrue, IfOk, IfErr, IfSome};
ghost use Rattle.std.specs.Prelude.{OnOk, is_some};
ghost use Rattle.hv_lines.specs.Drafts.{IsGoodTable};
ghost use Rattle.hv_lines.specs.Judged.{Concludes};
ghost use Rattle.hv_task.specs.Strips.{atoms, start_state};
ghost use Rattle.hv_reach.specs.declared.fault.ReachFault.TheVariants as F;
ghost use Rattle.hv_reach.specs.Reached.{ReachedPair, has_pair};
ghost use Rattle.hv_reach.specs.Written.{IsPairsProof, PairsExclude};
ghost use Rattle.hv_reach.specs.Written.{pair_clauses, pairs_formula, row_clauses};

use crate::fault::ReachFault;
use crate::horn_proof::{denied, horn_proof};
use crate::pairs::{PairSpace, Pairs};
use hv_lines::Draft;
use hv_sets::Clauses;
use hv_task::Task;
use std::alloc::{AllocError, Global};

/// The most atoms of a task whose pairs are looked at.
pub(crate) const MOST_ATOMS: u32 = 1024;

/// The proof that the task has no plan where some pair of goal atoms, possibly equal, isn't reached
/// from the initial state; otherwise there is none.
pub fn prove_pairs(alloc: Global, task: &Task) -> Result<Option<Draft>, ReachFault>
    ensures few { IfOk result (λ _. atoms task.now ≤ 1024) }
    ensures many { IfErr result (λ fault. (fault ≡ F.TooManyAtoms) ↔ (1024 < atoms task.now)) }
    ensures some { IfOk result (λ found. IsTrue (is_some found) ↔ PairsExclude task.now) }
    ensures lines { IfOk result (λ found. IfSome found (λ draft.
        IsPairsProof task.now draft.lines)) }
    ensures good { IfOk result (λ found. IfSome found (λ draft.
        IsGoodTable task.now draft.lines)) }
    ensures concludes { IfOk result (λ found. IfSome found (λ draft. Concludes draft.lines)) }
{
    if task.atoms() > MOST_ATOMS {
        return Err(ReachFault::TooManyAtoms);
    }
    let found = pairs_proof(alloc, task)?;
    Ok(found)
}

// The same in a task of few atoms.
fn pairs_proof(alloc: Global, task: &Task) -> Result<Option<Draft>, AllocError>
    requires { atoms task.now ≤ 1024 }
    ensures some { IfOk result (λ found. IsTrue (is_some found) ↔ PairsExclude task.now) }
    ensures lines { IfOk result (λ found. IfSome found (λ draft.
        IsPairsProof task.now draft.lines)) }
    ensures good { IfOk result (λ found. IfSome found (λ draft.
        IsGoodTable task.now draft.lines)) }
    ensures concludes { IfOk result (λ found. IfSome found (λ draft. Concludes draft.lines)) }
{
    match start_pairs(alloc, task)? {
        Some(pairs) => {
            let draft = proof_by(alloc, task, &pairs)?;
            Ok(Some(draft))
        }
        None => Ok(None),
    }
}

// The pairs that are reached from the initial state, where some goal pair isn't among them.
fn start_pairs(alloc: Global, task: &Task) -> Result<Option<Pairs>, AllocError>
    ensures some { IfOk result (λ found. IsTrue (is_some found) ↔ PairsExclude task.now) }
    ensures reached { IfOk result (λ found. IfSome found (λ pairs. (p q : ℕ)
        → (has_pair pairs p q ≡ true) ↔ ReachedPair task.now (start_state task.now) p q)) }
{
    let start = task.start_state(alloc)?;
    let mut space = PairSpace::new(alloc, task)?;
    space.reason_from(alloc, task, &start)
}

// The proof by these pairs.
fn proof_by(alloc: Global, task: &Task, pairs: &Pairs) -> Result<Draft, AllocError>
    requires few { atoms task.now ≤ 1024 }
    requires excludes { PairsExclude task.now }
    requires reached { (p q : ℕ)
        → (has_pair pairs.now p q ≡ true) ↔ ReachedPair task.now (start_state task.now) p q }
    ensures lines { IfOk result (λ draft. IsPairsProof task.now draft.lines) }
    ensures good { IfOk result (λ draft. IsGoodTable task.now draft.lines) }
    ensures concludes { IfOk result (λ draft. Concludes draft.lines) }
{
    let clauses = pairs_formula(alloc, task.atoms(), pairs)?;
    let draft = horn_proof(alloc, task, clauses)?;
    Ok(draft)
}

/// The formula of the states that hold no other pairs than these.
pub(crate) fn pairs_formula(alloc: Global, atoms: u32, pairs: &Pairs) -> Result<Clauses, AllocError>
    ensures { IfOk result (λ clauses. clauses ≡ pairs_formula atoms (has_pair pairs.now)) }
{
    let mut clauses = Clauses::new(alloc);
    for first in 0..atoms {
        deny_row(&mut clauses, atoms, pairs, first)?;
    }
    Ok(clauses)
}

// Puts the clauses that deny the unreached pairs of the atom with itself and with greater ones.
fn deny_row(clauses: &mut Clauses, atoms: u32, pairs: &Pairs, first: u32) -> Result<(), AllocError>
    requires { first < atoms }
    ensures { OnOk result
        (clauses.new ≡ clauses.old ++ row_clauses atoms (has_pair pairs.now) first) }
{
    for second in first..atoms {
        deny_pair(clauses, pairs, first, second)?;
    }
    Ok(())
}

// Puts the clause that denies that both atoms are held, where this pair isn't reached.
fn deny_pair(
    clauses: &mut Clauses,
    pairs: &Pairs,
    first: u32,
    second: u32,
) -> Result<(), AllocError>
    ensures { OnOk result
        (clauses.new ≡ clauses.old ++ pair_clauses (has_pair pairs.now) first second) }
{
    if pairs.has(first, second) {
        return Ok(());
    }
    if first == second {
        clauses.push_literals(&[denied(first)])?;
    } else {
        clauses.push_literals(&[denied(first), denied(second)])?;
    }
    Ok(())
}

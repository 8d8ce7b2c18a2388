//! The greatest trap.

ghost use Rattle.std.specs.Prelude.{◌≡◌, ◌<◌, ◌≤◌, ◌↔◌, IfOk, IfErr, OnOk, length};
ghost use Rattle.hv_task.specs.Strips.{atoms};
ghost use Rattle.hv_trap.specs.Trap.{AreTrapClauses};
ghost use Rattle.hv_trap.specs.Working.Trap.{EncloseTrap};
ghost use Rattle.hv_trap.specs.declared.fault.TrapFault.TheVariants as F;

use crate::conjunctions::candidates;
use crate::fault::TrapFault;
use crate::sweep::take_out;
use crate::trap_query::round;
use hv_sets::Clauses;
use hv_task::Task;
use std::alloc::{AllocError, Global};

// The most atoms of a task whose traps are looked at.
const MOST_ATOMS: u32 = 64;

/// The clauses that deny the conjunctions of the greatest trap: those of one literal by rising
/// atom, then those over each two atoms, by the lesser and then by the greater one.
pub fn greatest_trap(alloc: Global, task: &Task) -> Result<Clauses, TrapFault>
    ensures few { IfOk result (λ _. atoms task.now ≤ 64) }
    ensures many { IfErr result (λ fault. (fault ≡ F.TooManyAtoms) ↔ (64 < atoms task.now)) }
    ensures trap { IfOk result (λ clauses. AreTrapClauses task.now clauses) }
{
    if task.atoms() > MOST_ATOMS {
        return Err(TrapFault::TooManyAtoms);
    }
    let clauses = trap_clauses(alloc, task)?;
    Ok(clauses)
}

// The same in a task of few atoms.
fn trap_clauses(alloc: Global, task: &Task) -> Result<Clauses, AllocError>
    requires { atoms task.now ≤ 64 }
    ensures { IfOk result (λ clauses. AreTrapClauses task.now clauses) }
{
    let mut clauses = candidates(alloc, task)?;
    take_out(alloc, task, &mut clauses)?;
    while round(alloc, task, &mut clauses)? {}
    Ok(clauses)
}

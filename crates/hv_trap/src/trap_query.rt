//! Steps that lead out of the conjunctions that some clauses deny.
//!
//! A round makes a 2CNF formula of the clauses that are left and asks of each action whether it
//! leads from a state outside the formula into it. The search for the trap ends with a round in
//! which no action led in; mostly that is the first.

ghost use Rattle.std.specs.Prelude.{◌≡◌, ◌<◌, ◌≤◌, ◌∷◌, ◌++◌, [], ℕ, true, false, IfOk, OnOk};
ghost use Rattle.std.specs.Prelude.{length};
ghost use Rattle.std.specs.List.{filter};
ghost use Rattle.hv_task.specs.Strips.{atoms};
ghost use Rattle.hv_sets.specs.Cubes.{SpeakBelow};
ghost use Rattle.hv_sets.specs.Truth.{in_clause, in_clauses};
ghost use Rattle.hv_propagation.specs.Clauses.{AreClauses};
ghost use Rattle.hv_trap.specs.Working.Asking.{IsAsking, clauses_asked, formula_asked};
ghost use Rattle.hv_trap.specs.Trap.{Stays};
ghost use Rattle.hv_trap.specs.Working.Trap.{EncloseTrap, Escapes};

use hv_sets::{Clauses, Family, Finding, Literal, Operand, Operands, Query, Scratch, Which};
use hv_task::{State, Task};
use hv_twocnf::{LeanTwoCnf, LeanTwoCnfs};
use std::alloc::{AllocError, Global};

/// A formula and a query of it, of which only the action changes.
#[derive(Drop)]
pub(crate) struct TrapQuery {
    store: LeanTwoCnfs,
    query: Query,
    scratch: Scratch,
}

/// Takes out the clauses that deny conjunctions from which an action can lead to a state in which
/// all are true. The answer is whether there are such.
pub(crate) fn round(alloc: Global, task: &Task, clauses: &mut Clauses) -> Result<bool, AllocError>
    requires { EncloseTrap task.now clauses.old }
    ensures enclose { OnOk result (EncloseTrap task.now clauses.new) }
    ensures fewer { IfOk result (λ moved. moved ≡ true → length clauses.new < length clauses.old) }
    ensures still { IfOk result (λ moved. moved ≡ false → (number : ℕ)
        → number < length task.now.actions → Stays task.now clauses.new number) }
{
    let mut asking = asking_of(alloc, task, clauses)?;
    let mut moved = false;
    for action in 0..task.actions() {
        moved |= visit(alloc, task, &mut asking, action, clauses)?;
    }
    Ok(moved)
}

// Takes out the clauses that are false in a state from which the action leads into the formula, if
// there is one. The answer is whether there is.
fn visit(
    alloc: Global,
    task: &Task,
    asking: &mut TrapQuery,
    action: u32,
    clauses: &mut Clauses,
) -> Result<bool, AllocError>
    requires asking { IsAsking task.now asking.old }
    requires action { action < length task.now.actions }
    requires formula { EncloseTrap task.now (clauses_asked asking.old) }
    requires clauses { EncloseTrap task.now clauses.old }
    ensures asking { OnOk result (IsAsking task.now asking.new) }
    ensures formula { OnOk result (clauses_asked asking.new ≡ clauses_asked asking.old) }
    ensures enclose { OnOk result (EncloseTrap task.now clauses.new) }
    ensures shrinks { OnOk result (length clauses.new ≤ length clauses.old) }
    ensures fewer { IfOk result (λ found. found ≡ true → clauses.old ≡ clauses_asked asking.old
        → length clauses.new < length clauses.old) }
    ensures still { IfOk result (λ found. found ≡ false → (clauses.new ≡ clauses.old)
        × Stays task.now (clauses_asked asking.old) action) }
{
    if leads_in(alloc, task, asking, action)? {
        let kept = true_in(alloc, clauses, asking.scratch.state())?;
        *clauses = kept;
        return Ok(true);
    }
    Ok(false)
}

// The formula of the clauses, and what is asked of it.
fn asking_of(alloc: Global, task: &Task, clauses: &Clauses) -> Result<TrapQuery, AllocError>
    requires { AreClauses (atoms task.now) clauses.now }
    ensures asking { IfOk result (λ asking. IsAsking task.now asking) }
    ensures formula { IfOk result (λ asking. clauses_asked asking ≡ clauses.now) }
{
    let mut store = LeanTwoCnfs::new(alloc);
    // Each clause has at most two literals, so running out of memory is the only fault.
    match LeanTwoCnf::new(alloc, task, clauses) {
        Ok(formula) => {
            store.add(formula)?;
        }
        Err(_) => return Err(AllocError),
    }
    let query = Query {
        positive: one_operand(alloc, true)?,
        negative: one_operand(alloc, false)?,
        action: None,
    };
    let scratch = Scratch::new(alloc)?;
    Ok(TrapQuery {
        store,
        query,
        scratch,
    })
}

fn one_operand(alloc: Global, after: bool) -> Result<Operands, AllocError>
    ensures { IfOk result (λ operands. operands ≡ formula_asked after ∷ []) }
{
    let mut operands = Operands::new(alloc);
    operands.push(Operand {
        which: Which::Set(0),
        id: 0,
        after,
    })?;
    Ok(operands)
}

// Whether the action leads from a state outside the formula into it. Such a state then is in
// the scratch.
fn leads_in(
    alloc: Global,
    task: &Task,
    asking: &mut TrapQuery,
    action: u32,
) -> Result<bool, AllocError>
    requires asking { IsAsking task.now asking.old }
    requires action { action < length task.now.actions }
    ensures asking { OnOk result (IsAsking task.now asking.new) }
    ensures formula { OnOk result (clauses_asked asking.new ≡ clauses_asked asking.old) }
    ensures yes { IfOk result (λ found. found ≡ true →
        Escapes task.now (clauses_asked asking.old) action asking.new.scratch.state) }
    ensures no { IfOk result (λ found. found ≡ false →
        Stays task.now (clauses_asked asking.old) action) }
{
    asking.query.action = Some(action);
    let most = asking.store.get(0).clauses().len() as u64;
    let found = asking
        .store
        .find(alloc, task, &asking.query, most, &mut asking.scratch)?;
    Ok(found == Finding::Clash)
}

// The clauses that are true in the state, in order.
fn true_in(alloc: Global, clauses: &Clauses, state: &State) -> Result<Clauses, AllocError>
    requires { AreClauses (length state.now) clauses.now }
    ensures { IfOk result (λ kept. kept ≡ filter (λ c. in_clause c state.now) clauses.now) }
{
    let mut kept = Clauses::new(alloc);
    for place in 0..clauses.len() {
        put_true(&mut kept, clauses.get(place), state)?;
    }
    Ok(kept)
}

// Puts the clause, if it is true in the state.
fn put_true(kept: &mut Clauses, clause: &[Literal], state: &State) -> Result<(), AllocError>
    requires { SpeakBelow (length state.now) clause.now }
    ensures { OnOk result (kept.new ≡ kept.old
        ++ filter (λ c. in_clause c state.now) (clause.now ∷ [])) }
{
    if is_true_in(clause, state) {
        kept.push_literals(clause)?;
    }
    Ok(())
}

// Whether some literal of the clause is true in the state.
fn is_true_in(clause: &[Literal], state: &State) -> bool
    requires { SpeakBelow (length state.now) clause.now }
    ensures { result ≡ in_clause clause.now state.now }
{
    clause.iter().any(|literal| literal.is_true_in(state))
}

/// Whether all clauses are true in the state.
pub(crate) fn are_true_in(clauses: &Clauses, state: &State) -> bool
    requires { AreClauses (length state.now) clauses.now }
    ensures { result ≡ in_clauses clauses.now state.now }
{
    for place in 0..clauses.len() {
        if !is_true_in(clauses.get(place), state) {
            return false;
        }
    }
    true
}

//! The task in STRIPS form that a finite-domain task makes.

ghost use Rattle.std.specs.Prelude.{◌≡◌, ◌==◌, ◌<◌, ◌≤◌, ◌+◌, ◌++◌, ◌∷◌, ◌↔◌, ℕ, List, [], All};
ghost use Rattle.std.specs.Prelude.{IfOk, OnOk, filter, if◌then◌else◌, length, map, not};
ghost use Rattle.std.specs.List.{cons_option, filter_map, flat_map};
ghost use Rattle.hv_task.specs.Plan.{Solves};
ghost use Rattle.hv_task.specs.Strips.{atoms};
ghost use Rattle.hv_sas.specs.declared.sas_task.Effect.{Effect};
ghost use Rattle.hv_sas.specs.declared.sas_task.Fact.{Fact};
ghost use Rattle.hv_sas.specs.declared.sas_task.SasVariable.{SasVariable};
ghost use Rattle.hv_sas.specs.Variables.{IsEffectOn, IsFact, values_in};
ghost use Rattle.hv_sas.specs.Meaning.{SasSolves};
ghost use Rattle.hv_sas.specs.Sound.{IsAssignment, IsOperator, IsSoundSas};
ghost use Rattle.hv_sas.specs.Made.{fact_after, fact_atom, fact_atoms, fact_before, facts_gone};
ghost use Rattle.hv_sas.specs.Made.{operator_action, state_facts, strips_of};
ghost use Rattle.hv_sas.specs.Working.Making.{AreFirstAtoms, AddsFacts};

use crate::sas_task::{Effect, Fact, Sas, SasOperator, SasVariable};
use crate::sound::range_at;
use hv_task::{Action, AtomList, AtomSet, Name, Task};
use std::alloc::{AllocError, Global};

/// The task in STRIPS form that has the same plans: an atom for each variable and value, in order,
/// and an action for each operator.
pub fn to_strips(alloc: Global, sas: &Sas) -> Result<Task, AllocError>
    requires { IsSoundSas sas.now }
    ensures made { IfOk result (λ task. task ≡ strips_of sas.now) }
    ensures keeps { IfOk result (λ task. (list : List ℕ)
        → Solves task list ↔ SasSolves sas.now list) }
{
    make(alloc, sas)
}

// The made task.
fn make(alloc: Global, sas: &Sas) -> Result<Task, AllocError>
    requires { IsSoundSas sas.now }
    ensures { IfOk result (λ task. task ≡ strips_of sas.now) }
{
    let variables = sas.variables.as_slice();
    let firsts = firsts_of(alloc, variables)?;
    let mut task = Task::new(alloc);
    add_variables(alloc, &mut task, variables)?;
    add_ends(alloc, &mut task, sas, firsts.as_slice())?;
    add_actions(alloc, &mut task, sas, firsts.as_slice())?;
    Ok(task)
}

// The first atom of each variable.
fn firsts_of(alloc: Global, variables: &[SasVariable]) -> Result<Vec<u32>, AllocError>
    requires { values_in variables.now ≤ 65535 }
    ensures { IfOk result (λ firsts. AreFirstAtoms variables.now firsts.items) }
{
    let mut firsts = Vec::with_capacity(alloc, variables.len())?;
    let mut next = 0;
    for variable in variables {
        firsts.push(next as u32)?;
        next += variable.values.len();
    }
    Ok(firsts)
}

// An atom for each of these values.
fn add_values(alloc: Global, task: &mut Task, names: &[Name]) -> Result<(), AllocError>
    requires { atoms task.old + length names.now ≤ 65535 }
    ensures { OnOk result (task.new ≡ record task.old { names = task.old.names ++ names.now }) }
{
    for name in names {
        task.add_atom(Name::new(alloc, name.as_bytes())?)?;
    }
    Ok(())
}

// An atom for each value of these variables.
fn add_variables(
    alloc: Global,
    task: &mut Task,
    variables: &[SasVariable],
) -> Result<(), AllocError>
    requires { atoms task.old + values_in variables.now ≤ 65535 }
    ensures { OnOk result (task.new ≡ record task.old {
      names = task.old.names ++ flat_map (λ (x : SasVariable). x.values) variables.now;
    }) }
{
    for variable in variables {
        add_values(alloc, task, variable.values.as_slice())?;
    }
    Ok(())
}

// The atom of a fact.
fn fact_atom(variables: &[SasVariable], firsts: &[u32], fact: Fact) -> u32
    requires firsts { AreFirstAtoms variables.now firsts.now }
    requires fact { IsFact variables.now fact }
    ensures atom { result ≡ fact_atom variables.now fact }
    ensures below { result < values_in variables.now }
{
    let _ = variables;
    firsts[fact.var as usize] + fact.value
}

// Adds the atom of a fact to the set.
fn put_fact(
    set: &mut AtomSet,
    variables: &[SasVariable],
    firsts: &[u32],
    fact: Fact,
) -> Result<(), AllocError>
    requires firsts { AreFirstAtoms variables.now firsts.now }
    requires fact { IsFact variables.now fact }
    ensures { OnOk result (AddsFacts variables.now (fact ∷ []) set.old set.new) }
{
    set.insert(fact_atom(variables, firsts, fact))
}

// The same for each of these facts.
fn put_facts(
    set: &mut AtomSet,
    variables: &[SasVariable],
    firsts: &[u32],
    facts: &[Fact],
) -> Result<(), AllocError>
    requires firsts { AreFirstAtoms variables.now firsts.now }
    requires facts { All (IsFact variables.now) facts.now }
    ensures { OnOk result (AddsFacts variables.now facts.now set.old set.new) }
{
    for fact in facts {
        put_fact(set, variables, firsts, *fact)?;
    }
    Ok(())
}

// The same for each variable with its value in a state.
fn put_state(
    set: &mut AtomSet,
    variables: &[SasVariable],
    firsts: &[u32],
    state: &[u32],
) -> Result<(), AllocError>
    requires firsts { AreFirstAtoms variables.now firsts.now }
    requires state { IsAssignment variables.now state.now }
    ensures { OnOk result (AddsFacts variables.now (state_facts state.now) set.old set.new) }
{
    for place in 0..state.len() {
        let fact = Fact {
            var: place as u32,
            value: state[place],
        };
        put_fact(set, variables, firsts, fact)?;
    }
    Ok(())
}

// What an effect asks for, if anything.
fn fact_before(effect: Effect) -> Option<Fact>
    ensures { result ≡ fact_before effect }
{
    match effect.before {
        None => None,
        Some(value) => Some(Fact {
            var: effect.var,
            value,
        }),
    }
}

// The same for what an effect asks for, if anything.
fn put_one_before(
    set: &mut AtomSet,
    variables: &[SasVariable],
    firsts: &[u32],
    effect: Effect,
) -> Result<(), AllocError>
    requires firsts { AreFirstAtoms variables.now firsts.now }
    requires effect { IsEffectOn variables.now effect }
    ensures { OnOk result
        (AddsFacts variables.now (cons_option (fact_before effect) []) set.old set.new) }
{
    match fact_before(effect) {
        None => Ok(()),
        Some(fact) => put_fact(set, variables, firsts, fact),
    }
}

// The same for what these effects ask for.
fn put_before(
    set: &mut AtomSet,
    variables: &[SasVariable],
    firsts: &[u32],
    effects: &[Effect],
) -> Result<(), AllocError>
    requires firsts { AreFirstAtoms variables.now firsts.now }
    requires effects { All (IsEffectOn variables.now) effects.now }
    ensures { OnOk result
        (AddsFacts variables.now (filter_map fact_before effects.now) set.old set.new) }
{
    for effect in effects {
        put_one_before(set, variables, firsts, *effect)?;
    }
    Ok(())
}

// The same for what these effects make true.
fn put_after(
    set: &mut AtomSet,
    variables: &[SasVariable],
    firsts: &[u32],
    effects: &[Effect],
) -> Result<(), AllocError>
    requires firsts { AreFirstAtoms variables.now firsts.now }
    requires effects { All (IsEffectOn variables.now) effects.now }
    ensures { OnOk result (AddsFacts variables.now (map fact_after effects.now) set.old set.new) }
{
    for effect in effects {
        let fact = Fact {
            var: effect.var,
            value: effect.after,
        };
        put_fact(set, variables, firsts, fact)?;
    }
    Ok(())
}

// The same for a fact, unless it has this value.
fn put_unless(
    set: &mut AtomSet,
    variables: &[SasVariable],
    firsts: &[u32],
    fact: Fact,
    value: u32,
) -> Result<(), AllocError>
    requires firsts { AreFirstAtoms variables.now firsts.now }
    requires fact { IsFact variables.now fact }
    ensures { OnOk result (AddsFacts variables.now (filter (λ (f : Fact). not (f.value == value))
        (fact ∷ [])) set.old set.new) }
{
    if fact.value == value {
        return Ok(());
    }
    put_fact(set, variables, firsts, fact)
}

// The same for all values of the variable but for the one after.
fn put_others(
    set: &mut AtomSet,
    variables: &[SasVariable],
    firsts: &[u32],
    effect: Effect,
) -> Result<(), AllocError>
    requires { AreFirstAtoms variables.now firsts.now }
    ensures { OnOk result
        (AddsFacts variables.now (facts_gone variables.now effect None) set.old set.new) }
{
    for value in 0..range_at(variables, effect.var as usize) {
        let fact = Fact {
            var: effect.var,
            value: value as u32,
        };
        put_unless(set, variables, firsts, fact, effect.after)?;
    }
    Ok(())
}

// The same for what an effect makes false.
fn put_gone(
    set: &mut AtomSet,
    variables: &[SasVariable],
    firsts: &[u32],
    effect: Effect,
) -> Result<(), AllocError>
    requires firsts { AreFirstAtoms variables.now firsts.now }
    requires effect { IsEffectOn variables.now effect }
    ensures { OnOk result (AddsFacts variables.now
        (facts_gone variables.now effect (fact_before effect)) set.old set.new) }
{
    match fact_before(effect) {
        None => put_others(set, variables, firsts, effect),
        Some(before) => put_fact(set, variables, firsts, before),
    }
}

// The same for what these effects make false.
fn put_all_gone(
    set: &mut AtomSet,
    variables: &[SasVariable],
    firsts: &[u32],
    effects: &[Effect],
) -> Result<(), AllocError>
    requires firsts { AreFirstAtoms variables.now firsts.now }
    requires effects { All (IsEffectOn variables.now) effects.now }
    ensures { OnOk result (AddsFacts variables.now (flat_map (λ (effect : Effect).
        facts_gone variables.now effect (fact_before effect)) effects.now) set.old set.new) }
{
    for effect in effects {
        put_gone(set, variables, firsts, *effect)?;
    }
    Ok(())
}

// The precondition of an operator's action.
fn pre_of(
    alloc: Global,
    set: &mut AtomSet,
    variables: &[SasVariable],
    firsts: &[u32],
    operator: &SasOperator,
) -> Result<AtomList, AllocError>
    requires firsts { AreFirstAtoms variables.now firsts.now }
    requires operator { IsOperator variables.now operator.now }
    requires empty { set.old ≡ [] }
    ensures list { IfOk result (λ list. list ≡ fact_atoms variables.now
        (operator.now.prevail ++ filter_map fact_before operator.now.effects)) }
    ensures empty { OnOk result (set.new ≡ []) }
{
    put_facts(set, variables, firsts, operator.prevail.as_slice())?;
    put_before(set, variables, firsts, operator.effects.as_slice())?;
    set.take(alloc)
}

// The add set of an operator's action.
fn add_of(
    alloc: Global,
    set: &mut AtomSet,
    variables: &[SasVariable],
    firsts: &[u32],
    operator: &SasOperator,
) -> Result<AtomList, AllocError>
    requires firsts { AreFirstAtoms variables.now firsts.now }
    requires operator { IsOperator variables.now operator.now }
    requires empty { set.old ≡ [] }
    ensures list { IfOk result (λ list. list ≡ fact_atoms variables.now
        (map fact_after operator.now.effects)) }
    ensures empty { OnOk result (set.new ≡ []) }
{
    put_after(set, variables, firsts, operator.effects.as_slice())?;
    set.take(alloc)
}

// The delete set of an operator's action.
fn del_of(
    alloc: Global,
    set: &mut AtomSet,
    variables: &[SasVariable],
    firsts: &[u32],
    operator: &SasOperator,
) -> Result<AtomList, AllocError>
    requires firsts { AreFirstAtoms variables.now firsts.now }
    requires operator { IsOperator variables.now operator.now }
    requires empty { set.old ≡ [] }
    ensures list { IfOk result (λ list. list ≡ fact_atoms variables.now
        (flat_map (λ (effect : Effect). facts_gone variables.now effect (fact_before effect))
        operator.now.effects)) }
    ensures empty { OnOk result (set.new ≡ []) }
{
    put_all_gone(set, variables, firsts, operator.effects.as_slice())?;
    set.take(alloc)
}

// The cost of an operator's action.
fn operator_cost(sas: &Sas, operator: &SasOperator) -> u32
    ensures { result ≡ (if sas.now.metric then operator.now.cost else 1) }
{
    if sas.metric { operator.cost } else { 1 }
}

// The action of an operator.
fn operator_action(
    alloc: Global,
    set: &mut AtomSet,
    sas: &Sas,
    firsts: &[u32],
    operator: &SasOperator,
) -> Result<Action, AllocError>
    requires firsts { AreFirstAtoms sas.now.variables firsts.now }
    requires operator { IsOperator sas.now.variables operator.now }
    requires empty { set.old ≡ [] }
    ensures action { IfOk result (λ action. action ≡ operator_action sas.now operator.now) }
    ensures empty { OnOk result (set.new ≡ []) }
{
    let variables = sas.variables.as_slice();
    let pre = pre_of(alloc, set, variables, firsts, operator)?;
    let add = add_of(alloc, set, variables, firsts, operator)?;
    let del = del_of(alloc, set, variables, firsts, operator)?;
    let name = Name::new(alloc, operator.name.as_bytes())?;
    let cost = operator_cost(sas, operator);
    Ok(Action {
        name,
        cost,
        pre,
        add,
        del,
    })
}

// The initial state.
fn start_of(
    alloc: Global,
    variables: &[SasVariable],
    firsts: &[u32],
    state: &[u32],
) -> Result<AtomList, AllocError>
    requires firsts { AreFirstAtoms variables.now firsts.now }
    requires state { IsAssignment variables.now state.now }
    ensures { IfOk result (λ list. list ≡ fact_atoms variables.now (state_facts state.now)) }
{
    let mut set = AtomSet::new(alloc);
    put_state(&mut set, variables, firsts, state)?;
    set.take(alloc)
}

// The goal.
fn goal_of(
    alloc: Global,
    variables: &[SasVariable],
    firsts: &[u32],
    facts: &[Fact],
) -> Result<AtomList, AllocError>
    requires firsts { AreFirstAtoms variables.now firsts.now }
    requires facts { All (IsFact variables.now) facts.now }
    ensures { IfOk result (λ list. list ≡ fact_atoms variables.now facts.now) }
{
    let mut set = AtomSet::new(alloc);
    put_facts(&mut set, variables, firsts, facts)?;
    set.take(alloc)
}

// The initial state and the goal.
fn add_ends(alloc: Global, task: &mut Task, sas: &Sas, firsts: &[u32]) -> Result<(), AllocError>
    requires firsts { AreFirstAtoms sas.now.variables firsts.now }
    requires sound { IsSoundSas sas.now }
    requires atoms { atoms task.old ≡ values_in sas.now.variables }
    ensures { OnOk result (task.new ≡ record task.old {
      start = fact_atoms sas.now.variables (state_facts sas.now.start);
      goal = fact_atoms sas.now.variables sas.now.goal;
    }) }
{
    let variables = sas.variables.as_slice();
    let start = start_of(alloc, variables, firsts, sas.start.as_slice())?;
    let goal = goal_of(alloc, variables, firsts, sas.goal.as_slice())?;
    task.set_start(start);
    task.set_goal(goal);
    Ok(())
}

// One action more.
fn add_action(
    alloc: Global,
    task: &mut Task,
    set: &mut AtomSet,
    sas: &Sas,
    firsts: &[u32],
    operator: &SasOperator,
) -> Result<(), AllocError>
    requires firsts { AreFirstAtoms sas.now.variables firsts.now }
    requires operator { IsOperator sas.now.variables operator.now }
    requires atoms { atoms task.old ≡ values_in sas.now.variables }
    requires room { length task.old.actions < 1000000 }
    requires empty { set.old ≡ [] }
    ensures task { OnOk result (task.new ≡ record task.old {
      actions = task.old.actions ++ operator_action sas.now operator.now ∷ [];
    }) }
    ensures empty { OnOk result (set.new ≡ []) }
{
    task.add_action(operator_action(alloc, set, sas, firsts, operator)?)?;
    Ok(())
}

// The actions of the operators.
fn add_actions(alloc: Global, task: &mut Task, sas: &Sas, firsts: &[u32]) -> Result<(), AllocError>
    requires firsts { AreFirstAtoms sas.now.variables firsts.now }
    requires sound { IsSoundSas sas.now }
    requires atoms { atoms task.old ≡ values_in sas.now.variables }
    requires none { task.old.actions ≡ [] }
    ensures { OnOk result (task.new ≡ record task.old {
      actions = map (operator_action sas.now) sas.now.operators;
    }) }
{
    let mut set = AtomSet::new(alloc);
    for operator in sas.operators.as_slice() {
        add_action(alloc, task, &mut set, sas, firsts, operator)?;
    }
    Ok(())
}

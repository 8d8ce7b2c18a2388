//! What is asked of a task in finite-domain representation, tested.

ghost use Rattle.std.specs.Prelude.{◌≡◌, ◌≢◌, ◌<◌, ◌≤◌, ◌↔◌, ℕ, All, IsTrue, length};
ghost use Rattle.std.specs.List.{slice_index_or};
ghost use Rattle.hv_sas.specs.declared.sas_task.Effect.{Effect};
ghost use Rattle.hv_sas.specs.Variables.{IsEffectOn, IsFact, range_at, values_in};
ghost use Rattle.hv_sas.specs.Sound.{HaveDistinctVariables, HaveValues, IsOperator, IsAssignment};

use crate::sas_task::{Effect, Fact, SasOperator, SasVariable};

/// How many values the variables may have together.
pub(crate) const MOST_VALUES: usize = 65_535;

/// How many values the variable of this number has.
pub(crate) fn range_at(variables: &[SasVariable], var: usize) -> usize
    ensures { result ≡ range_at variables.now var }
{
    match variables.get(var) {
        None => 0,
        Some(variable) => variable.values.len(),
    }
}

/// Whether each variable has a value.
pub(crate) fn have_values(variables: &[SasVariable]) -> bool
    ensures { IsTrue result ↔ HaveValues variables.now }
{
    variables.iter().all(|variable| variable.values.len() > 0)
}

/// Whether the variables have few enough values together.
pub(crate) fn has_few_values(variables: &[SasVariable]) -> bool
    ensures { IsTrue result ↔ (values_in variables.now ≤ 65535) }
{
    let mut total = 0;
    for variable in variables {
        let range = variable.values.len();
        if range > MOST_VALUES - total {
            return false;
        }
        total += range;
    }
    true
}

/// Whether this is a state of these variables.
pub(crate) fn is_state_of(variables: &[SasVariable], state: &[u32]) -> bool
    ensures { IsTrue result ↔ IsAssignment variables.now state.now }
{
    if state.len() != variables.len() {
        return false;
    }
    for var in 0..state.len() {
        if state[var] as usize >= variables[var].values.len() {
            return false;
        }
    }
    true
}

fn is_fact(variables: &[SasVariable], fact: Fact) -> bool
    ensures { IsTrue result ↔ IsFact variables.now fact }
{
    (fact.value as usize) < range_at(variables, fact.var as usize)
}

/// Whether each of these facts is one of these variables.
pub(crate) fn are_facts(variables: &[SasVariable], facts: &[Fact]) -> bool
    ensures { IsTrue result ↔ All (IsFact variables.now) facts.now }
{
    facts.iter().all(|fact| is_fact(variables, *fact))
}

fn is_effect(variables: &[SasVariable], effect: Effect) -> bool
    ensures { IsTrue result ↔ IsEffectOn variables.now effect }
{
    let range = range_at(variables, effect.var as usize);
    if effect.after as usize >= range {
        return false;
    }
    match effect.before {
        None => true,
        Some(before) => (before as usize) < range,
    }
}

fn are_effects(variables: &[SasVariable], effects: &[Effect]) -> bool
    ensures { IsTrue result ↔ All (IsEffectOn variables.now) effects.now }
{
    effects.iter().all(|effect| is_effect(variables, *effect))
}

// Whether the later effects are on other variables than the one at this place.
fn is_apart_from_later(effects: &[Effect], place: usize) -> bool
    requires { place < length effects.now }
    ensures { IsTrue result ↔ ((j : ℕ) (d : Effect) → place < j → j < length effects.now
        → (slice_index_or effects.now place d).var ≢ (slice_index_or effects.now j d).var) }
{
    let var = effects[place].var;
    for later in place + 1..effects.len() {
        if effects[later].var == var {
            return false;
        }
    }
    true
}

// Whether the effects are on different variables.
fn are_apart(effects: &[Effect]) -> bool
    ensures { IsTrue result ↔ HaveDistinctVariables effects.now }
{
    for place in 0..effects.len() {
        if !is_apart_from_later(effects, place) {
            return false;
        }
    }
    true
}

fn is_operator(variables: &[SasVariable], operator: &SasOperator) -> bool
    ensures { IsTrue result ↔ IsOperator variables.now operator.now }
{
    are_facts(variables, operator.prevail.as_slice())
        && are_effects(variables, operator.effects.as_slice())
        && are_apart(operator.effects.as_slice())
}

/// Whether each of these operators is one over these variables.
pub(crate) fn are_operators(variables: &[SasVariable], operators: &[SasOperator]) -> bool
    ensures { IsTrue result ↔ All (IsOperator variables.now) operators.now }
{
    for operator in operators {
        if !is_operator(variables, operator) {
            return false;
        }
    }
    true
}

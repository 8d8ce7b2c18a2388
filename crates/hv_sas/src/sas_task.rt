//! Planning tasks in finite-domain representation.

ghost use Rattle.std.specs.Prelude.{◌↔◌, IsTrue};

use crate::listed::Listed;
use crate::sound::{are_facts, are_operators, has_few_values, have_values, is_state_of};
use hv_task::Name;

/// A list of names.
pub type Names = Listed<Name>;

/// A list of facts.
pub type Facts = Listed<Fact>;

/// A list of effects.
pub type Effects = Listed<Effect>;

/// A list of variables.
pub type Variables = Listed<SasVariable>;

/// A list of values, each by its number.
pub type Values = Listed<u32>;

/// A list of operators.
pub type Operators = Listed<SasOperator>;

/// A variable, by its number, and one of its values.
#[derive(Clone, Copy, Debug, PartialEq, Eq)]
pub struct Fact {
    pub var: u32,
    pub value: u32,
}

/// What an operator does to a variable: it has the value `before`, where there is one, and then the
/// value `after`.
#[derive(Clone, Copy, Debug, PartialEq, Eq)]
pub struct Effect {
    pub var: u32,
    pub before: Option<u32>,
    pub after: u32,
}

/// A variable: its name, and the names of its values.
#[derive(Drop)]
pub struct SasVariable {
    pub name: Name,
    pub values: Names,
}

/// An operator: its prevail conditions hold before it, and no two of its effects are on one
/// variable.
#[derive(Drop)]
pub struct SasOperator {
    pub name: Name,
    pub prevail: Facts,
    pub effects: Effects,
    pub cost: u32,
}

/// A planning task in finite-domain representation. Where `metric` is false, each operator costs 1.
#[derive(Drop)]
pub struct Sas {
    pub metric: bool,
    pub variables: Variables,
    pub start: Values,
    pub goal: Facts,
    pub operators: Operators,
}

impl Sas {
    ghost use Rattle.hv_sas.specs.Sound.{IsSoundSas};

    /// Whether each number of a variable or of a value is in range, each variable has a value, the
    /// initial state has one value for each variable, no operator has two effects on one variable,
    /// the values together are at most 65,535 and the operators at most 1,000,000.
    pub fn sound(&self) -> bool
        ensures { IsTrue result ↔ IsSoundSas self.now }
    {
        let variables = self.variables.as_slice();
        have_values(variables)
            & has_few_values(variables)
            & is_state_of(variables, self.start.as_slice())
            & are_facts(variables, self.goal.as_slice())
            & are_operators(variables, self.operators.as_slice())
            & (self.operators.len() <= 1_000_000)
    }
}

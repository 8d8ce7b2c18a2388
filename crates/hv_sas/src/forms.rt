//! The lines of a translator file.

ghost use Rattle.std.specs.Prelude.{◌≡◌, ◌≤◌, ◌+◌, ◌<◌, ◌↔◌, IfOk, IfSome, IsTrue, Some, false};
ghost use Rattle.hv_bytes.specs.Fields.{cut_fields};
ghost use Rattle.hv_sas.specs.Lines.{axioms_of, before_of, effect_from, effect_in, fact_of};
ghost use Rattle.hv_sas.specs.Lines.{has_effect_on, is_below, layer_of, metric_of, only};
ghost use Rattle.hv_sas.specs.Lines.{operator_cost, operator_effect, operators_of, pair_of};
ghost use Rattle.hv_sas.specs.Lines.{start_value, two_of, unless_twice, values_of, version_of};
ghost use Rattle.hv_sas.specs.Variables.{IsEffectOn, IsFact, range_at};
ghost use Rattle.hv_sas.specs.Working.Reading.{AreMarked, AreVariables, fields_after_space, named};

use crate::fault::{SasKind, SasLimit, SasRefusal, SasWhich};
use crate::sas_task::{Effect, Fact, SasVariable};
use crate::sound::range_at;
use hv_bytes::split_field;
use hv_grammar::{at_most, decimal};
use hv_task::State;

// That the number is the wanted one: `bad` where there is none, and `other` where it is another.
fn only(
    found: Option<u64>,
    wanted: u64,
    bad: SasRefusal,
    other: SasRefusal,
) -> Result<(), SasRefusal>
    ensures { result ≡ only wanted bad other found }
{
    match found {
        None => Err(bad),
        Some(n) => { if n == wanted { Ok(()) } else { Err(other) } }
    }
}

/// The line of the version, `3`.
pub fn version_of(line: &[u8]) -> Result<(), SasRefusal>
    ensures { result ≡ version_of line.now }
{
    only(
        decimal(line),
        3,
        SasRefusal::Place(SasKind::Version),
        SasRefusal::Unsupported(SasWhich::Version),
    )
}

/// The line of the number of axioms, `0`.
pub fn axioms_of(line: &[u8]) -> Result<(), SasRefusal>
    ensures { result ≡ axioms_of line.now }
{
    only(
        decimal(line),
        0,
        SasRefusal::Place(SasKind::Axioms),
        SasRefusal::Unsupported(SasWhich::Axiom),
    )
}

/// The line of the metric, `0` or `1`.
pub fn metric_of(line: &[u8]) -> Result<bool, SasRefusal>
    ensures { result ≡ metric_of line.now }
{
    if line == b"0".as_slice() {
        Ok(false)
    } else if line == b"1".as_slice() {
        Ok(true)
    } else {
        Err(SasRefusal::Place(SasKind::Metric))
    }
}

/// The line of the axiom layer of a variable, `-1`.
pub fn layer_of(line: &[u8]) -> Result<(), SasRefusal>
    ensures { result ≡ layer_of line.now }
{
    if line == b"-1".as_slice() {
        return Ok(());
    }
    match decimal(line) {
        None => Err(SasRefusal::Place(SasKind::Variable)),
        Some(_) => Err(SasRefusal::Unsupported(SasWhich::Layer)),
    }
}

/// How many values the next variable has, where the earlier ones have so many.
pub fn values_of(line: &[u8], earlier: u64) -> Result<u64, SasRefusal>
    requires { earlier ≤ 65535 }
    ensures value { result ≡ values_of earlier line.now }
    ensures within { IfOk result (λ n. (0 < n) × (earlier + n ≤ 65535)) }
{
    match decimal(line) {
        None => Err(SasRefusal::Place(SasKind::Variable)),
        Some(n) => {
            if n == 0 {
                Err(SasRefusal::Place(SasKind::Variable))
            } else if n <= 65_535 - earlier {
                Ok(n)
            } else {
                Err(SasRefusal::Limit(SasLimit::Values))
            }
        }
    }
}

/// How many operators there are.
pub fn operators_of(line: &[u8]) -> Result<u64, SasRefusal>
    ensures value { result ≡ operators_of line.now }
    ensures most { IfOk result (λ n. n ≤ 1000000) }
{
    at_most(
        decimal(line),
        1_000_000,
        SasRefusal::Place(SasKind::Operators),
        SasRefusal::Limit(SasLimit::Operators),
    )
}

/// The cost of an operator.
pub fn operator_cost(line: &[u8]) -> Result<u32, SasRefusal>
    ensures { result ≡ operator_cost line.now }
{
    let found = at_most(
        decimal(line),
        4_294_967_295,
        SasRefusal::Place(SasKind::Operator),
        SasRefusal::Limit(SasLimit::Cost),
    );
    match found {
        Ok(n) => Ok(n as u32),
        Err(bad) => Err(bad),
    }
}

// How many values the variable of this number has.
fn range_of(variables: &[SasVariable], var: u64) -> u64
    requires { AreVariables variables.now }
    ensures range { result ≡ range_at variables.now var }
    ensures few { result ≤ 65535 }
    ensures var { 0 < result → var ≤ 65535 }
{
    range_at(variables, var as usize) as u64
}

/// The value of the variable of this number at the start.
pub fn start_value(line: &[u8], variables: &[SasVariable], var: u64) -> Result<u32, SasRefusal>
    requires { AreVariables variables.now }
    ensures value { result ≡ start_value variables.now var line.now }
    ensures within { IfOk result (λ n. n < range_at variables.now var) }
{
    match decimal(line) {
        None => Err(SasRefusal::Place(SasKind::State)),
        Some(n) => {
            if n < range_of(variables, var) {
                Ok(n as u32)
            } else {
                Err(SasRefusal::Place(SasKind::State))
            }
        }
    }
}

// Both numbers.
fn pair_of(first: Option<u64>, second: Option<u64>) -> Option<(u64, u64)>
    ensures { result ≡ pair_of first second }
{
    match first {
        None => None,
        Some(a) => match second {
            None => None,
            Some(b) => Some((a, b)),
        },
    }
}

// Two decimals.
fn two_of(line: &[u8]) -> Option<(u64, u64)>
    ensures { result ≡ two_of (cut_fields line.now) }
{
    let (first, behind) = split_field(line);
    let Some(behind) = behind else { return None };
    let (second, more) = split_field(behind);
    match more {
        Some(_) => None,
        None => pair_of(decimal(first), decimal(second)),
    }
}

/// A fact of a part of this kind.
pub fn fact_of(line: &[u8], variables: &[SasVariable], kind: SasKind) -> Result<Fact, SasRefusal>
    requires { AreVariables variables.now }
    ensures value { result ≡ fact_of kind variables.now line.now }
    ensures fact { IfOk result (IsFact variables.now) }
{
    match two_of(line) {
        None => Err(SasRefusal::Place(kind)),
        Some((var, value)) => {
            if value < range_of(variables, var) {
                Ok(Fact {
                    var: var as u32,
                    value: value as u32,
                })
            } else {
                Err(SasRefusal::Place(kind))
            }
        }
    }
}

// The value before an effect, where it has one.
fn before_of(field: &[u8]) -> Option<Option<u64>>
    ensures { result ≡ before_of field.now }
{
    if field == b"-1".as_slice() {
        return Some(None);
    }
    match decimal(field) {
        None => None,
        Some(n) => Some(Some(n)),
    }
}

// Whether the value before, where there is one, is one of so many.
fn is_below(before: Option<u64>, range: u64) -> bool
    ensures value { result ≡ is_below before range }
    ensures below { IsTrue result ↔ IfSome before (λ n. n < range) }
{
    match before {
        None => true,
        Some(n) => n < range,
    }
}

// The same number.
fn short(before: Option<u64>) -> Option<u32>
    requires { IfSome before (λ n. n ≤ 65535) }
    ensures { result ≡ before }
{
    match before {
        None => None,
        Some(n) => Some(n as u32),
    }
}

// The effect of these numbers, where all are there and in range.
fn effect_from(
    variables: &[SasVariable],
    var: Option<u64>,
    before: Option<Option<u64>>,
    after: Option<u64>,
) -> Option<Effect>
    requires { AreVariables variables.now }
    ensures value { result ≡ effect_from variables.now var before after }
    ensures effect { IfSome result (IsEffectOn variables.now) }
{
    let Some(var) = var else { return None };
    let Some(before) = before else { return None };
    let Some(after) = after else { return None };
    let range = range_of(variables, var);
    if is_below(before, range) && after < range {
        Some(Effect {
            var: var as u32,
            before: short(before),
            after: after as u32,
        })
    } else {
        None
    }
}

// The effect of the fields behind its conditions.
fn effect_in(fields: Option<&[u8]>, variables: &[SasVariable]) -> Option<Effect>
    requires { AreVariables variables.now }
    ensures value { result ≡ effect_in variables.now (fields_after_space fields.entry) }
    ensures effect { IfSome result (IsEffectOn variables.now) }
{
    let Some(fields) = fields else { return None };
    let (var, behind) = split_field(fields);
    let Some(behind) = behind else { return None };
    let (before, behind) = split_field(behind);
    let Some(behind) = behind else { return None };
    let (after, more) = split_field(behind);
    match more {
        Some(_) => None,
        None => effect_from(variables, decimal(var), before_of(before), decimal(after)),
    }
}

// Whether there is an effect on the variable already.
fn is_marked(variables: &[SasVariable], earlier: &[Effect], marks: &State, effect: Effect) -> bool
    requires marked { AreMarked variables.now earlier.now marks.now }
    requires effect { IsEffectOn variables.now effect }
    ensures { result ≡ has_effect_on earlier.now effect.var }
{
    let _ = variables;
    let _ = earlier;
    marks.has(effect.var)
}

// The effect, where it is the first one on its variable.
fn unless_twice(
    effect: Option<Effect>,
    variables: &[SasVariable],
    earlier: &[Effect],
    marks: &State,
) -> Result<Effect, SasRefusal>
    requires marked { AreMarked variables.now earlier.now marks.now }
    requires effect { IfSome effect (IsEffectOn variables.now) }
    ensures value { result ≡ unless_twice earlier.now effect }
    ensures effect { IfOk result (IsEffectOn variables.now) }
    ensures first { IfOk result (λ e. has_effect_on earlier.now e.var ≡ false) }
{
    let Some(effect) = effect else {
        return Err(SasRefusal::Place(SasKind::Operator));
    };
    if is_marked(variables, earlier, marks, effect) {
        return Err(SasRefusal::Unsupported(SasWhich::Twice));
    }
    Ok(effect)
}

/// An effect, where these are the earlier ones and their variables are marked.
pub fn operator_effect(
    line: &[u8],
    variables: &[SasVariable],
    earlier: &[Effect],
    marks: &State,
) -> Result<Effect, SasRefusal>
    requires variables { AreVariables variables.now }
    requires marked { AreMarked variables.now earlier.now marks.now }
    ensures value { result ≡ operator_effect variables.now earlier.now line.now }
    ensures effect { IfOk result (IsEffectOn variables.now) }
    ensures first { IfOk result (λ e. has_effect_on earlier.now e.var ≡ false) }
{
    let (condition, fields) = split_field(line);
    match decimal(condition) {
        None => Err(SasRefusal::Place(SasKind::Operator)),
        Some(n) => {
            if n != 0 {
                return Err(SasRefusal::Unsupported(SasWhich::Condition));
            }
            unless_twice(effect_in(fields, variables), variables, earlier, marks)
        }
    }
}

/// Whether the line is a name.
pub fn name_of(line: &[u8]) -> Result<(), SasRefusal>
    ensures { result ≡ named line.now }
{
    if line.len() > 1024 {
        return Err(SasRefusal::Limit(SasLimit::Name));
    }
    Ok(())
}

//! Translator files from a shelf, part by part.

ghost use Rattle.std.specs.Prelude.{◌≡◌, ◌≤◌, ◌<◌, ◌+◌, ◌^◌, [], length, All, IfOk, IfSome};
ghost use Rattle.std.specs.Prelude.{IsErrOf, IsTrue, OnOk, false};
ghost use Rattle.hv_bytes.specs.Devices.{Rose};
ghost use Rattle.hv_bytes.specs.Files.{bytes_of};
ghost use Rattle.hv_bytes.specs.Pieces.{pieces_of};
ghost use Rattle.hv_grammar.specs.declared.fault.ParseFault.TheVariants as ParseFault;
ghost use Rattle.hv_grammar.specs.Parsers.{iterate, line, one_more, repeat};
ghost use Rattle.hv_grammar.specs.Positions.{CanRead};
ghost use Rattle.hv_grammar.specs.Reads.{Reads};
ghost use Rattle.hv_grammar.specs.Working.Reads.{IsReadAs, placed};
ghost use Rattle.hv_sas.specs.declared.fault.SasFault.TheVariants as F;
ghost use Rattle.hv_sas.specs.declared.fault.SasKind.TheVariants as K;
ghost use Rattle.hv_sas.specs.declared.fault.SasRefusal.TheVariants as Refusal;
ghost use Rattle.hv_sas.specs.Answer.{IsSasReadFrom};
ghost use Rattle.hv_sas.specs.Lines.{axioms_of, has_effect_on, layer_of, metric_of, operator_cost};
ghost use Rattle.hv_sas.specs.Lines.{operator_effect, operators_of, start_value, values_of};
ghost use Rattle.hv_sas.specs.Lines.{version_of};
ghost use Rattle.hv_sas.specs.Sound.{IsAssignment, IsOperator, IsSoundSas};
ghost use Rattle.hv_sas.specs.Text.{all_mutexes, all_operators, all_variables, effect, fact, goal};
ghost use Rattle.hv_sas.specs.Text.{metric, mutex, mutex_fact, name_line, operator, sas_file};
ghost use Rattle.hv_sas.specs.Text.{start, value, variable, version};
ghost use Rattle.hv_sas.specs.Variables.{IsEffectOn, IsFact, range_at, values_in};
ghost use Rattle.hv_sas.specs.Working.Reading.{AreEffects, AreMarked, AreVariables, AreWithin};
ghost use Rattle.hv_sas.specs.Working.Reading.{sas_fault};

use crate::fault::{SasFault, SasKind, SasLimit, SasRefusal};
use crate::forms;
use crate::sas_task::{
    Effect, Effects, Fact, Facts, Names, Operators, Sas, SasOperator, SasVariable, Values,
    Variables,
};
use hv_bytes::{Limits, Shelf};
use hv_grammar::{
    ParseFault, Reader, Source, at_line, end_of_input, next_line, number_line, open, word_line,
};
use hv_task::{Name, State};
use std::alloc::{AllocError, Global};

type SasResult<T> = Result<T, ParseFault<SasRefusal>>;

fn version_line<R: Source>(reader: &mut R) -> SasResult<()>
    requires { CanRead (R.position reader.old) }
    ensures { Reads (line (Refusal.Place K.Version) version_of)
        (R.position reader.old) (R.position reader.new) result }
{
    next_line(reader, SasRefusal::Place(SasKind::Version))?;
    at_line(reader, forms::version_of(reader.line()))
}

// The version.
fn version<R: Source>(reader: &mut R) -> SasResult<()>
    requires { CanRead (R.position reader.old) }
    ensures { Reads version
        (R.position reader.old) (R.position reader.new) result }
{
    word_line(
        reader,
        b"begin_version",
        SasRefusal::Place(SasKind::Version),
    )?;
    version_line(reader)?;
    word_line(reader, b"end_version", SasRefusal::Place(SasKind::Version))
}

fn metric_line<R: Source>(reader: &mut R) -> SasResult<bool>
    requires { CanRead (R.position reader.old) }
    ensures { Reads (line (Refusal.Place K.Metric) metric_of)
        (R.position reader.old) (R.position reader.new) result }
{
    next_line(reader, SasRefusal::Place(SasKind::Metric))?;
    at_line(reader, forms::metric_of(reader.line()))
}

// The metric.
fn metric<R: Source>(reader: &mut R) -> SasResult<bool>
    requires { CanRead (R.position reader.old) }
    ensures { Reads metric
        (R.position reader.old) (R.position reader.new) result }
{
    word_line(reader, b"begin_metric", SasRefusal::Place(SasKind::Metric))?;
    let value = metric_line(reader)?;
    word_line(reader, b"end_metric", SasRefusal::Place(SasKind::Metric))?;
    Ok(value)
}

// A name of this kind.
fn name_line<R: Source>(alloc: Global, reader: &mut R, kind: SasKind) -> SasResult<Name>
    requires { CanRead (R.position reader.old) }
    ensures { Reads (name_line kind)
        (R.position reader.old) (R.position reader.new) result }
{
    next_line(reader, SasRefusal::Place(kind))?;
    at_line(reader, forms::name_of(reader.line()))?;
    Ok(Name::new(alloc, reader.line())?)
}

// One more name.
fn one_name<R: Source>(
    alloc: Global,
    reader: &mut R,
    kind: SasKind,
    names: &mut Names,
) -> SasResult<()>
    requires { CanRead (R.position reader.old) }
    ensures reads { Reads (one_more (name_line kind) names.old)
        (R.position reader.old) (R.position reader.new) (placed names.new result) }
    ensures count { OnOk result (length names.new ≡ length names.old + 1) }
{
    let name = name_line(alloc, reader, kind)?;
    names.push(name)?;
    Ok(())
}

// So many names.
fn names<R: Source>(alloc: Global, reader: &mut R, count: u64, kind: SasKind) -> SasResult<Names>
    requires { CanRead (R.position reader.old) }
    ensures reads { Reads (repeat count (name_line kind))
        (R.position reader.old) (R.position reader.new) result }
    ensures count { IfOk result (λ names. length names ≡ count) }
{
    let mut names = Names::new(alloc);
    for done in 0..count {
        let _ = done;
        one_name(alloc, reader, kind, &mut names)?;
    }
    Ok(names)
}

fn layer_line<R: Source>(reader: &mut R) -> SasResult<()>
    requires { CanRead (R.position reader.old) }
    ensures { Reads (line (Refusal.Place K.Variable) layer_of)
        (R.position reader.old) (R.position reader.new) result }
{
    next_line(reader, SasRefusal::Place(SasKind::Variable))?;
    at_line(reader, forms::layer_of(reader.line()))
}

// How many values the next variable has, where the earlier ones have so many.
fn range_line<R: Source>(reader: &mut R, used: u64, variables: &Variables) -> SasResult<u64>
    requires can { CanRead (R.position reader.old) }
    requires used { used ≡ values_in variables.now }
    requires few { used ≤ 65535 }
    ensures reads { Reads (line (Refusal.Place K.Variable) (values_of (values_in variables.now)))
        (R.position reader.old) (R.position reader.new) result }
    ensures within { IfOk result (λ n. (0 < n) × (used + n ≤ 65535)) }
{
    let _ = variables;
    next_line(reader, SasRefusal::Place(SasKind::Variable))?;
    at_line(reader, forms::values_of(reader.line(), used))
}

// One more variable, where the earlier ones have so many values.
fn variable<R: Source>(
    alloc: Global,
    reader: &mut R,
    used: &mut u64,
    variables: &mut Variables,
) -> SasResult<()>
    requires can { CanRead (R.position reader.old) }
    requires used { used.old ≡ values_in variables.old }
    requires variables { AreVariables variables.old }
    ensures reads { Reads (variable variables.old)
        (R.position reader.old) (R.position reader.new) (placed variables.new result) }
    ensures used { OnOk result (used.new ≡ values_in variables.new) }
    ensures variables { OnOk result (AreVariables variables.new) }
{
    word_line(
        reader,
        b"begin_variable",
        SasRefusal::Place(SasKind::Variable),
    )?;
    let name = name_line(alloc, reader, SasKind::Variable)?;
    layer_line(reader)?;
    let range = range_line(reader, *used, variables)?;
    let values = names(alloc, reader, range, SasKind::Variable)?;
    word_line(
        reader,
        b"end_variable",
        SasRefusal::Place(SasKind::Variable),
    )?;
    variables.push(SasVariable { name, values })?;
    *used += range;
    Ok(())
}

// So many variables.
fn variables<R: Source>(alloc: Global, reader: &mut R, count: u64) -> SasResult<Variables>
    requires { CanRead (R.position reader.old) }
    ensures reads { Reads (iterate count variable [])
        (R.position reader.old) (R.position reader.new) result }
    ensures variables { IfOk result AreVariables }
{
    let mut variables = Variables::new(alloc);
    let mut used = 0;
    for done in 0..count {
        let _ = done;
        variable(alloc, reader, &mut used, &mut variables)?;
    }
    Ok(variables)
}

// The variables.
fn all_variables<R: Source>(alloc: Global, reader: &mut R) -> SasResult<Variables>
    requires { CanRead (R.position reader.old) }
    ensures reads { Reads all_variables
        (R.position reader.old) (R.position reader.new) result }
    ensures variables { IfOk result AreVariables }
{
    let count = number_line(reader, SasRefusal::Place(SasKind::Variables))?;
    variables(alloc, reader, count)
}

// A fact of this kind.
fn fact<R: Source>(reader: &mut R, kind: SasKind, variables: &Variables) -> SasResult<Fact>
    requires can { CanRead (R.position reader.old) }
    requires variables { AreVariables variables.now }
    ensures reads { Reads (fact kind variables.now)
        (R.position reader.old) (R.position reader.new) result }
    ensures fact { IfOk result (IsFact variables.now) }
{
    next_line(reader, SasRefusal::Place(kind))?;
    at_line(
        reader,
        forms::fact_of(reader.line(), variables.as_slice(), kind),
    )
}

// One more fact.
fn one_fact<R: Source>(
    reader: &mut R,
    kind: SasKind,
    variables: &Variables,
    facts: &mut Facts,
) -> SasResult<()>
    requires can { CanRead (R.position reader.old) }
    requires variables { AreVariables variables.now }
    ensures reads { Reads (one_more (fact kind variables.now) facts.old)
        (R.position reader.old) (R.position reader.new) (placed facts.new result) }
    ensures facts { OnOk result
        (All (IsFact variables.now) facts.old → All (IsFact variables.now) facts.new) }
{
    let fact = fact(reader, kind, variables)?;
    facts.push(fact)?;
    Ok(())
}

// So many facts.
fn facts<R: Source>(
    alloc: Global,
    reader: &mut R,
    kind: SasKind,
    variables: &Variables,
    count: u64,
) -> SasResult<Facts>
    requires can { CanRead (R.position reader.old) }
    requires variables { AreVariables variables.now }
    ensures reads { Reads (repeat count (fact kind variables.now))
        (R.position reader.old) (R.position reader.new) result }
    ensures facts { IfOk result (All (IsFact variables.now)) }
{
    let mut facts = Facts::new(alloc);
    for done in 0..count {
        let _ = done;
        one_fact(reader, kind, variables, &mut facts)?;
    }
    Ok(facts)
}

// One more fact of a mutex group, which isn't kept.
fn mutex_fact<R: Source>(reader: &mut R, variables: &Variables) -> SasResult<()>
    requires can { CanRead (R.position reader.old) }
    requires variables { AreVariables variables.now }
    ensures { Reads (mutex_fact variables.now tt)
        (R.position reader.old) (R.position reader.new) result }
{
    let _fact = fact(reader, SasKind::Mutex, variables)?;
    Ok(())
}

// So many facts of a mutex group, which aren't kept.
fn mutex_facts<R: Source>(reader: &mut R, variables: &Variables, count: u64) -> SasResult<()>
    requires can { CanRead (R.position reader.old) }
    requires variables { AreVariables variables.now }
    ensures { Reads (iterate count (mutex_fact variables.now) tt)
        (R.position reader.old) (R.position reader.new) result }
{
    for done in 0..count {
        let _ = done;
        mutex_fact(reader, variables)?;
    }
    Ok(())
}

// One more mutex group, which isn't kept.
fn mutex<R: Source>(reader: &mut R, variables: &Variables) -> SasResult<()>
    requires can { CanRead (R.position reader.old) }
    requires variables { AreVariables variables.now }
    ensures { Reads (mutex variables.now tt)
        (R.position reader.old) (R.position reader.new) result }
{
    word_line(
        reader,
        b"begin_mutex_group",
        SasRefusal::Place(SasKind::Mutex),
    )?;
    let count = number_line(reader, SasRefusal::Place(SasKind::Mutex))?;
    mutex_facts(reader, variables, count)?;
    word_line(
        reader,
        b"end_mutex_group",
        SasRefusal::Place(SasKind::Mutex),
    )
}

// So many mutex groups, which aren't kept.
fn mutexes<R: Source>(reader: &mut R, variables: &Variables, count: u64) -> SasResult<()>
    requires can { CanRead (R.position reader.old) }
    requires variables { AreVariables variables.now }
    ensures { Reads (iterate count (mutex variables.now) tt)
        (R.position reader.old) (R.position reader.new) result }
{
    for done in 0..count {
        let _ = done;
        mutex(reader, variables)?;
    }
    Ok(())
}

// The mutex groups, which aren't kept.
fn all_mutexes<R: Source>(reader: &mut R, variables: &Variables) -> SasResult<()>
    requires can { CanRead (R.position reader.old) }
    requires variables { AreVariables variables.now }
    ensures { Reads (all_mutexes variables.now)
        (R.position reader.old) (R.position reader.new) result }
{
    let count = number_line(reader, SasRefusal::Place(SasKind::Mutexes))?;
    mutexes(reader, variables, count)
}

// The value of the variable of this number.
fn value_line<R: Source>(reader: &mut R, variables: &Variables, var: u64) -> SasResult<u32>
    requires can { CanRead (R.position reader.old) }
    requires variables { AreVariables variables.now }
    ensures reads { Reads (line (Refusal.Place K.State) (start_value variables.now var))
        (R.position reader.old) (R.position reader.new) result }
    ensures within { IfOk result (λ n. n < range_at variables.now var) }
{
    next_line(reader, SasRefusal::Place(SasKind::State))?;
    at_line(
        reader,
        forms::start_value(reader.line(), variables.as_slice(), var),
    )
}

// One more value.
fn value<R: Source>(
    reader: &mut R,
    variables: &Variables,
    var: u64,
    values: &mut Values,
) -> SasResult<()>
    requires can { CanRead (R.position reader.old) }
    requires variables { AreVariables variables.now }
    requires var { var ≡ length values.old }
    ensures reads { Reads (value variables.now values.old)
        (R.position reader.old) (R.position reader.new) (placed values.new result) }
    ensures count { OnOk result (length values.new ≡ length values.old + 1) }
    ensures within { OnOk result
        (AreWithin variables.now values.old → AreWithin variables.now values.new) }
{
    let value = value_line(reader, variables, var)?;
    values.push(value)?;
    Ok(())
}

// A value for each variable.
fn values<R: Source>(alloc: Global, reader: &mut R, variables: &Variables) -> SasResult<Values>
    requires can { CanRead (R.position reader.old) }
    requires variables { AreVariables variables.now }
    ensures reads { Reads (iterate (length variables.now) (value variables.now) [])
        (R.position reader.old) (R.position reader.new) result }
    ensures state { IfOk result (IsAssignment variables.now) }
{
    let mut values = Values::new(alloc);
    for var in 0..variables.len() as u64 {
        value(reader, variables, var, &mut values)?;
    }
    Ok(values)
}

// The initial state.
fn start<R: Source>(alloc: Global, reader: &mut R, variables: &Variables) -> SasResult<Values>
    requires can { CanRead (R.position reader.old) }
    requires variables { AreVariables variables.now }
    ensures reads { Reads (start variables.now)
        (R.position reader.old) (R.position reader.new) result }
    ensures state { IfOk result (IsAssignment variables.now) }
{
    word_line(reader, b"begin_state", SasRefusal::Place(SasKind::State))?;
    let values = values(alloc, reader, variables)?;
    word_line(reader, b"end_state", SasRefusal::Place(SasKind::State))?;
    Ok(values)
}

// The goal.
fn goal<R: Source>(alloc: Global, reader: &mut R, variables: &Variables) -> SasResult<Facts>
    requires can { CanRead (R.position reader.old) }
    requires variables { AreVariables variables.now }
    ensures reads { Reads (goal variables.now)
        (R.position reader.old) (R.position reader.new) result }
    ensures facts { IfOk result (All (IsFact variables.now)) }
{
    word_line(reader, b"begin_goal", SasRefusal::Place(SasKind::Goal))?;
    let count = number_line(reader, SasRefusal::Place(SasKind::Goal))?;
    let facts = facts(alloc, reader, SasKind::Goal, variables, count)?;
    word_line(reader, b"end_goal", SasRefusal::Place(SasKind::Goal))?;
    Ok(facts)
}

// An effect, where these are the earlier ones.
fn effect_line<R: Source>(
    reader: &mut R,
    variables: &Variables,
    earlier: &Effects,
    marks: &State,
) -> SasResult<Effect>
    requires can { CanRead (R.position reader.old) }
    requires variables { AreVariables variables.now }
    requires marked { AreMarked variables.now earlier.now marks.now }
    ensures reads { Reads
        (line (Refusal.Place K.Operator) (operator_effect variables.now earlier.now))
        (R.position reader.old) (R.position reader.new) result }
    ensures effect { IfOk result (IsEffectOn variables.now) }
    ensures first { IfOk result (λ e. has_effect_on earlier.now e.var ≡ false) }
{
    next_line(reader, SasRefusal::Place(SasKind::Operator))?;
    at_line(
        reader,
        forms::operator_effect(
            reader.line(),
            variables.as_slice(),
            earlier.as_slice(),
            marks,
        ),
    )
}

// One more effect.
fn effect<R: Source>(
    reader: &mut R,
    variables: &Variables,
    marks: &mut State,
    effects: &mut Effects,
) -> SasResult<()>
    requires can { CanRead (R.position reader.old) }
    requires variables { AreVariables variables.now }
    requires marked { AreMarked variables.now effects.old marks.old }
    ensures reads { Reads (effect variables.now effects.old)
        (R.position reader.old) (R.position reader.new) (placed effects.new result) }
    ensures effects { OnOk result
        (AreEffects variables.now effects.old → AreEffects variables.now effects.new) }
    ensures marked { OnOk result (AreMarked variables.now effects.new marks.new) }
{
    let effect = effect_line(reader, variables, effects, marks)?;
    effects.push(effect)?;
    marks.set(effect.var, true);
    Ok(())
}

// No variable is marked.
fn no_marks(alloc: Global, variables: &Variables) -> Result<State, AllocError>
    requires { AreVariables variables.now }
    ensures { IfOk result (AreMarked variables.now []) }
{
    State::empty(alloc, variables.len() as u32)
}

// So many effects, on different variables, each of which is marked once it has one.
fn effects<R: Source>(
    alloc: Global,
    reader: &mut R,
    variables: &Variables,
    count: u64,
) -> SasResult<Effects>
    requires can { CanRead (R.position reader.old) }
    requires variables { AreVariables variables.now }
    ensures reads { Reads (iterate count (effect variables.now) [])
        (R.position reader.old) (R.position reader.new) result }
    ensures effects { IfOk result (AreEffects variables.now) }
{
    let mut marks = no_marks(alloc, variables)?;
    let mut effects = Effects::new(alloc);
    for done in 0..count {
        let _ = done;
        effect(reader, variables, &mut marks, &mut effects)?;
    }
    Ok(effects)
}

fn cost_line<R: Source>(reader: &mut R) -> SasResult<u32>
    requires { CanRead (R.position reader.old) }
    ensures { Reads (line (Refusal.Place K.Operator) operator_cost)
        (R.position reader.old) (R.position reader.new) result }
{
    next_line(reader, SasRefusal::Place(SasKind::Operator))?;
    at_line(reader, forms::operator_cost(reader.line()))
}

// One more operator.
fn operator<R: Source>(
    alloc: Global,
    reader: &mut R,
    variables: &Variables,
    operators: &mut Operators,
) -> SasResult<()>
    requires can { CanRead (R.position reader.old) }
    requires variables { AreVariables variables.now }
    ensures reads { Reads (operator variables.now operators.old)
        (R.position reader.old) (R.position reader.new) (placed operators.new result) }
    ensures operators { OnOk result (All (IsOperator variables.now) operators.old
        → All (IsOperator variables.now) operators.new) }
    ensures count { OnOk result (length operators.new ≡ length operators.old + 1) }
{
    word_line(
        reader,
        b"begin_operator",
        SasRefusal::Place(SasKind::Operator),
    )?;
    let name = name_line(alloc, reader, SasKind::Operator)?;
    let count = number_line(reader, SasRefusal::Place(SasKind::Operator))?;
    let prevail = facts(alloc, reader, SasKind::Operator, variables, count)?;
    let count = number_line(reader, SasRefusal::Place(SasKind::Operator))?;
    let effects = effects(alloc, reader, variables, count)?;
    let cost = cost_line(reader)?;
    word_line(
        reader,
        b"end_operator",
        SasRefusal::Place(SasKind::Operator),
    )?;
    operators.push(SasOperator {
        name,
        prevail,
        effects,
        cost,
    })?;
    Ok(())
}

// So many operators.
fn operators<R: Source>(
    alloc: Global,
    reader: &mut R,
    variables: &Variables,
    count: u64,
) -> SasResult<Operators>
    requires can { CanRead (R.position reader.old) }
    requires variables { AreVariables variables.now }
    ensures reads { Reads (iterate count (operator variables.now) [])
        (R.position reader.old) (R.position reader.new) result }
    ensures operators { IfOk result (All (IsOperator variables.now)) }
    ensures count { IfOk result (λ operators. length operators ≡ count) }
{
    let mut operators = Operators::new(alloc);
    for done in 0..count {
        let _ = done;
        operator(alloc, reader, variables, &mut operators)?;
    }
    Ok(operators)
}

fn operators_line<R: Source>(reader: &mut R) -> SasResult<u64>
    requires { CanRead (R.position reader.old) }
    ensures reads { Reads (line (Refusal.Place K.Operators) operators_of)
        (R.position reader.old) (R.position reader.new) result }
    ensures most { IfOk result (λ n. n ≤ 1000000) }
{
    next_line(reader, SasRefusal::Place(SasKind::Operators))?;
    at_line(reader, forms::operators_of(reader.line()))
}

// The operators.
fn all_operators<R: Source>(
    alloc: Global,
    reader: &mut R,
    variables: &Variables,
) -> SasResult<Operators>
    requires can { CanRead (R.position reader.old) }
    requires variables { AreVariables variables.now }
    ensures reads { Reads (all_operators variables.now)
        (R.position reader.old) (R.position reader.new) result }
    ensures operators { IfOk result (All (IsOperator variables.now)) }
    ensures few { IfOk result (λ operators. length operators ≤ 1000000) }
{
    let count = operators_line(reader)?;
    operators(alloc, reader, variables, count)
}

fn axioms_line<R: Source>(reader: &mut R) -> SasResult<()>
    requires { CanRead (R.position reader.old) }
    ensures { Reads (line (Refusal.Place K.Axioms) axioms_of)
        (R.position reader.old) (R.position reader.new) result }
{
    next_line(reader, SasRefusal::Place(SasKind::Axioms))?;
    at_line(reader, forms::axioms_of(reader.line()))
}

// The whole file.
fn whole<R: Source>(alloc: Global, reader: &mut R) -> SasResult<Sas>
    requires { CanRead (R.position reader.old) }
    ensures reads { Reads sas_file
        (R.position reader.old) (R.position reader.new) result }
    ensures sound { IfOk result IsSoundSas }
{
    version(reader)?;
    let metric = metric(reader)?;
    let variables = all_variables(alloc, reader)?;
    all_mutexes(reader, &variables)?;
    let start = start(alloc, reader, &variables)?;
    let goal = goal(alloc, reader, &variables)?;
    let operators = all_operators(alloc, reader, &variables)?;
    axioms_line(reader)?;
    end_of_input(reader, SasRefusal::Place(SasKind::End))?;
    Ok(Sas {
        metric,
        variables,
        start,
        goal,
        operators,
    })
}

// Why a file isn't read, as the caller is told.
fn sas_fault(stop: ParseFault<SasRefusal>) -> SasFault
    ensures { result ≡ sas_fault stop }
{
    match stop {
        ParseFault::Refused(line, SasRefusal::Place(kind)) => SasFault::Place(line, kind),
        ParseFault::Refused(line, SasRefusal::Unsupported(which)) => SasFault::Unsupported(
            line, which,
        ),
        ParseFault::Refused(line, SasRefusal::Limit(limit)) => SasFault::Limit(line, limit),
        ParseFault::Long(line) => SasFault::Limit(line, SasLimit::Long),
        ParseFault::ReadFault => SasFault::ReadFault,
        ParseFault::Memory => SasFault::Memory,
    }
}

// The file of this name, opened and read.
fn opened<S: Shelf>(alloc: Global, shelf: &mut S, name: &str, limits: Limits) -> SasResult<Sas>
    requires allowed { IsTrue (S.allows shelf.old name.now) }
    requires line { limits.line ≤ 2 ^ 62 }
    requires file { limits.file ≤ 2 ^ 62 }
    ensures read { IfSome (S.held shelf.old) (λ held.
        IsReadAs (sas_file 0 (pieces_of limits (bytes_of held name.now))) result) }
    ensures sound { IfOk result IsSoundSas }
    ensures held { S.held shelf.new ≡ S.held shelf.old }
    ensures allows { S.allows shelf.new ≡ S.allows shelf.old }
    ensures later { S.faults shelf.old ≤ S.faults shelf.new }
    ensures cause { IsErrOf result ParseFault.ReadFault
        → Rose (S.faults shelf.old) (S.faults shelf.new) }
{
    let mut lines = open(alloc, shelf, name, limits)?;
    let mut reader = Reader::new(&mut lines, shelf);
    whole(alloc, &mut reader)
}

/// Reads the translator file of this name. It answers with the task exactly where the file has the
/// layout and is within the limits, and otherwise with its first fault.
pub fn read_sas<S: Shelf>(
    alloc: Global,
    shelf: &mut S,
    name: &str,
    limits: Limits,
) -> Result<Sas, SasFault>
    requires allowed { IsTrue (S.allows shelf.old name.now) }
    requires line { limits.line ≤ 2 ^ 62 }
    requires file { limits.file ≤ 2 ^ 62 }

    // where the source's bytes are known
    ensures read { IfSome (S.held shelf.old) (λ held.
        IsSasReadFrom limits (bytes_of held name.now) result) }

    // whether it tells or not
    ensures sound { IfOk result IsSoundSas }

    ensures held { S.held shelf.new ≡ S.held shelf.old }
    ensures allows { S.allows shelf.new ≡ S.allows shelf.old }

    ensures later { S.faults shelf.old ≤ S.faults shelf.new }
    ensures cause { IsErrOf result F.ReadFault → Rose (S.faults shelf.old) (S.faults shelf.new) }
{
    match opened(alloc, shelf, name, limits) {
        Ok(sas) => Ok(sas),
        Err(stop) => Err(sas_fault(stop)),
    }
}

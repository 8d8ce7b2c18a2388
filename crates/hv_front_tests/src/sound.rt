//! Tests of finite-domain tasks that are put together: which are sound, and what they make.

use hv_sas::{
    Effect, Effects, Fact, Facts, Names, Operators, Sas, SasOperator, SasVariable, Values,
    Variables, to_strips,
};
use hv_task::Name;
use std::alloc::{AllocError, Global};

/// An effect of a row: the variable, the value before, where there is one, and the value after.
type EffectRow = (u32, Option<u32>, u32);

/// How many values each variable of a task has, its state at the start, its goal, and the prevail
/// conditions and the effects of its one operator; and whether it is sound.
type TaskRow = (
    &'static [u8],
    &'static [u32],
    &'static [(u32, u32)],
    &'static [(u32, u32)],
    &'static [EffectRow],
    bool,
);

static TASKS: [TaskRow; 15] = [
    (
        &[2, 3],
        &[1, 2],
        &[(0, 1), (1, 0)],
        &[(1, 2)],
        &[(0, Some(1), 0), (1, None, 2)],
        true,
    ),
    (&[], &[], &[], &[], &[], true),
    (&[1], &[0], &[(0, 0), (0, 0)], &[(0, 0)], &[], true),
    (&[0], &[], &[], &[], &[], false),
    (&[2, 0], &[1], &[], &[], &[], false),
    (&[2], &[], &[], &[], &[], false),
    (&[2], &[0, 0], &[], &[], &[], false),
    (&[2], &[2], &[], &[], &[], false),
    (&[2], &[0], &[(1, 0)], &[], &[], false),
    (&[2], &[0], &[(0, 2)], &[], &[], false),
    (&[2], &[0], &[], &[(0, 2)], &[], false),
    (&[2], &[0], &[], &[], &[(0, Some(2), 0)], false),
    (&[2], &[0], &[], &[], &[(0, None, 2)], false),
    (&[2], &[0], &[], &[], &[(1, None, 0)], false),
    (
        &[2, 2],
        &[0, 0],
        &[],
        &[],
        &[(0, None, 1), (1, None, 1), (0, Some(1), 1)],
        false,
    ),
];

// Puts so many names last.
fn put_names(alloc: Global, names: &mut Names, count: u8) -> Result<(), AllocError> {
    for _ in 0..count {
        names.push(Name::new(alloc, b"value")?)?;
    }
    Ok(())
}

// Puts a variable with so many values last.
fn put_variable(alloc: Global, variables: &mut Variables, count: u8) -> Result<(), AllocError> {
    let mut variable = SasVariable {
        name: Name::new(alloc, b"variable")?,
        values: Names::new(alloc),
    };
    put_names(alloc, &mut variable.values, count)?;
    variables.push(variable)
}

// Puts variables with so many values each last.
fn put_variables(
    alloc: Global,
    variables: &mut Variables,
    counts: &[u8],
) -> Result<(), AllocError> {
    for count in counts {
        put_variable(alloc, variables, *count)?;
    }
    Ok(())
}

// Puts these values last.
fn put_values(values: &mut Values, list: &[u32]) -> Result<(), AllocError> {
    for value in list {
        values.push(*value)?;
    }
    Ok(())
}

// Puts these facts last.
fn put_facts(facts: &mut Facts, pairs: &[(u32, u32)]) -> Result<(), AllocError> {
    for (var, value) in pairs {
        facts.push(Fact {
            var: *var,
            value: *value,
        })?;
    }
    Ok(())
}

// Puts these effects last.
fn put_effects(effects: &mut Effects, rows: &[EffectRow]) -> Result<(), AllocError> {
    for (var, before, after) in rows {
        effects.push(Effect {
            var: *var,
            before: *before,
            after: *after,
        })?;
    }
    Ok(())
}

// Puts these prevail conditions and effects last.
fn put_changes(
    operator: &mut SasOperator,
    prevail: &[(u32, u32)],
    effects: &[EffectRow],
) -> Result<(), AllocError> {
    put_facts(&mut operator.prevail, prevail)?;
    put_effects(&mut operator.effects, effects)
}

// Puts an operator with these prevail conditions and effects last.
fn put_operator(
    alloc: Global,
    operators: &mut Operators,
    prevail: &[(u32, u32)],
    effects: &[EffectRow],
) -> Result<(), AllocError> {
    let mut operator = SasOperator {
        name: Name::new(alloc, b"operator")?,
        prevail: Facts::new(alloc),
        effects: Effects::new(alloc),
        cost: 1,
    };
    put_changes(&mut operator, prevail, effects)?;
    operators.push(operator)
}

// Puts last what the row has.
fn put_row(alloc: Global, sas: &mut Sas, row: &TaskRow) -> Result<(), AllocError> {
    put_variables(alloc, &mut sas.variables, row.0)?;
    put_values(&mut sas.start, row.1)?;
    put_facts(&mut sas.goal, row.2)?;
    put_operator(alloc, &mut sas.operators, row.3, row.4)
}

// The task of a row.
fn task_of(alloc: Global, row: &TaskRow) -> Result<Sas, AllocError> {
    let mut sas = Sas {
        metric: false,
        variables: Variables::new(alloc),
        start: Values::new(alloc),
        goal: Facts::new(alloc),
        operators: Operators::new(alloc),
    };
    put_row(alloc, &mut sas, row)?;
    Ok(sas)
}

// Whether a sound task makes one with its operator, and an unsound one is told.
fn is_made_where_sound(alloc: Global, sas: &Sas, sound: bool) -> Result<bool, AllocError> {
    if !sas.sound() {
        return Ok(!sound);
    }
    let task = to_strips(alloc, sas)?;
    Ok(sound & (task.actions() == 1))
}

// Whether the task of the row is sound where it is said to be.
fn is_row_right(alloc: Global, row: &TaskRow) -> Result<bool, AllocError> {
    let sas = task_of(alloc, row)?;
    is_made_where_sound(alloc, &sas, row.5)
}

#[test]
fn sound_tasks(rt: HostRuntime) {
    for (place, row) in TASKS.iter().enumerate() {
        assert!(rt; is_row_right(rt.alloc(), row) == Ok(true), "row {place}");
    }
}

//! Whether the families of sets meet and cover cubes, hold states and walk as going through all
//! states says.

ghost use Rattle.std.specs.Prelude.{◌≡◌, ◌<◌, IfOk, OnOk};
ghost use Rattle.hv_task.specs.Strips.{atoms};
ghost use Rattle.hv_sets.specs.Cubes.{SpeakBelow};
ghost use Rattle.hv_sets.specs.Walks.{StepSpeaksBelow};

use crate::three::{
    bit_if, explicit_of, formula_of, has_bit, is_dual_code, is_found, is_horn_code, is_two_code,
    state_from, states_denied, states_of_clauses, states_of_list, task_of,
};
use hv_formula::{ClauseKind, Formula};
use hv_horn::{DualHornKind, HornKind};
use hv_paths::{InsideAsk, InsideWalk, meet_along};
use hv_sets::{Covering, Cube, Cursor, Inside, Literal, Outside, Scratch, StateSet, Step};
use hv_task::Task;
use hv_twocnf::{LeanTwoKind, TwoKind};
use std::alloc::{AllocError, Global};
use std::test::Fail;

// A cube by a number below 27, as digits to the base 3: 0 for an atom that it says nothing of, 1
// for one that it has, 2 for one that it has not.
fn cube_from(alloc: Global, number: u32) -> Result<Cube, AllocError>
    ensures { IfOk result (SpeakBelow 3) }
{
    let mut cube = Cube::new(alloc);
    put_digits(&mut cube, number)?;
    Ok(cube)
}

fn put_digits(cube: &mut Cube, number: u32) -> Result<(), AllocError>
    requires { SpeakBelow 3 cube.old }
    ensures { OnOk result (SpeakBelow 3 cube.new) }
{
    put_digit(cube, number % 3, 0)?;
    put_digit(cube, number / 3 % 3, 1)?;
    put_digit(cube, number / 9, 2)
}

fn put_digit(cube: &mut Cube, digit: u32, atom: u32) -> Result<(), AllocError>
    requires atom { atom < 3 }
    requires cube { SpeakBelow 3 cube.old }
    ensures { OnOk result (SpeakBelow 3 cube.new) }
{
    if digit == 0 {
        return Ok(());
    }
    let positive = digit == 1;
    cube.add(Literal { atom, positive })?;
    Ok(())
}

fn allows(digit: u32, held: bool) -> bool {
    match digit {
        0 => true,
        1 => held,
        _ => !held,
    }
}

// Whether the cube of this number has the state of this code.
fn number_has(number: u32, code: u32) -> bool
    requires { code < 8 }
{
    allows(number % 3, has_bit(code, 0))
        & allows(number / 3 % 3, has_bit(code, 1))
        & allows(number / 9, has_bit(code, 2))
}

// The states of the cube of this number.
fn states_of_number(number: u32) -> u32 {
    let mut mask = 0;
    for code in 0..8 {
        mask |= bit_if(code, number_has(number, code));
    }
    mask
}

fn meets_rightly<S: StateSet>(
    alloc: Global,
    set: &S,
    cube: &Cube,
    states: u32,
    scratch: &mut Scratch,
) -> Result<bool, AllocError>
    requires { SpeakBelow (S.atoms set.now) cube.now }
{
    let meets = set.meets(alloc, cube, scratch)?;
    Ok(is_found(meets, states, scratch.state()))
}

fn covers_rightly<S: Covering>(
    alloc: Global,
    set: &S,
    cube: &Cube,
    states: u32,
    scratch: &mut Scratch,
) -> Result<bool, AllocError>
    requires { SpeakBelow (S.atoms set.now) cube.now }
{
    let covers = set.covers(alloc, cube, scratch)?;
    Ok(is_found(!covers, states, scratch.state()))
}

fn meets_in_rightly<K: ClauseKind>(
    set: &Formula<K>,
    cube: &Cube,
    states: u32,
    scratch: &mut Scratch,
) -> Result<bool, AllocError>
    requires atoms { set.now.atoms ≡ 3 }
    requires cube { SpeakBelow 3 cube.now }
{
    scratch.reserve(3, 0, set.clauses().len())?;
    let meets = set.meets_in(cube, scratch);
    Ok(is_found(meets, states, scratch.state()))
}

fn covers_in_rightly<K: ClauseKind>(
    set: &Formula<K>,
    cube: &Cube,
    states: u32,
    scratch: &mut Scratch,
) -> Result<bool, AllocError>
    requires atoms { set.now.atoms ≡ 3 }
    requires cube { SpeakBelow 3 cube.now }
{
    scratch.reserve(3, 0, set.clauses().len())?;
    let covers = set.covers_in(cube, scratch);
    Ok(is_found(!covers, states, scratch.state()))
}

// Whether the cube is met and covered rightly, where these of its states are in the set, and those
// outside it.
fn cube_is_right<K: ClauseKind>(
    alloc: Global,
    set: &Formula<K>,
    cube: &Cube,
    inside: u32,
    outside: u32,
    scratch: &mut Scratch,
) -> Result<bool, AllocError>
    requires atoms { set.now.atoms ≡ 3 }
    requires cube { SpeakBelow 3 cube.now }
{
    let meets = meets_rightly(alloc, set, cube, inside, scratch)?;
    let covers = covers_rightly(alloc, set, cube, outside, scratch)?;
    let meets_in = meets_in_rightly(set, cube, inside, scratch)?;
    let covers_in = covers_in_rightly(set, cube, outside, scratch)?;
    Ok(meets & covers & meets_in & covers_in)
}

fn number_is_right<K: ClauseKind>(
    alloc: Global,
    set: &Formula<K>,
    number: u32,
    mask: u32,
    scratch: &mut Scratch,
) -> Result<bool, AllocError>
    requires { set.now.atoms ≡ 3 }
{
    let cube = cube_from(alloc, number)?;
    let states = states_of_number(number);
    cube_is_right(alloc, set, &cube, states & mask, states & !mask, scratch)
}

// Whether all cubes are met and covered rightly by the set of these states.
fn cubes_are_right<K: ClauseKind>(
    alloc: Global,
    set: &Formula<K>,
    mask: u32,
) -> Result<bool, AllocError>
    requires { set.now.atoms ≡ 3 }
{
    let mut scratch = Scratch::new(alloc)?;
    let mut right = true;
    for number in 0..27 {
        right &= number_is_right(alloc, set, number, mask, &mut scratch)?;
    }
    Ok(right)
}

fn holds_at<S: StateSet>(alloc: Global, set: &S, mask: u32, code: u32) -> Result<bool, AllocError>
    requires atoms { S.atoms set.now ≡ 3 }
    requires code { code < 8 }
{
    let state = state_from(alloc, code)?;
    Ok(set.holds(&state) == has_bit(mask, code))
}

pub(crate) fn holds_rightly<S: StateSet>(
    alloc: Global,
    set: &S,
    mask: u32,
) -> Result<bool, AllocError>
    requires { S.atoms set.now ≡ 3 }
{
    let mut right = true;
    for code in 0..8 {
        right &= holds_at(alloc, set, mask, code)?;
    }
    Ok(right)
}

fn cube_has(alloc: Global, cube: &Cube, code: u32) -> Result<bool, AllocError>
    requires { SpeakBelow 3 cube.now }
{
    let state = state_from(alloc, code)?;
    Ok(cube.has(&state))
}

// The states of a cube, by asking it.
fn states_of_cube(alloc: Global, cube: &Cube) -> Result<u32, AllocError>
    requires { SpeakBelow 3 cube.now }
{
    let mut mask = 0;
    for code in 0..8 {
        mask |= bit_if(code, cube_has(alloc, cube, code)?);
    }
    Ok(mask)
}

// Whether the step has the cube of these states, or no cube where there are none.
fn is_step_of(alloc: Global, step: Step, cube: &Cube, states: u32) -> Result<bool, AllocError>
    requires { StepSpeaksBelow 3 step cube.now }
{
    match step {
        Step::Cube => Ok((states != 0) & (states_of_cube(alloc, cube)? == states)),
        Step::Void => Ok(states == 0),
        Step::End => Ok(false),
    }
}

// Whether the next step outside the set has the cube of these states.
fn steps_outside<S: Outside>(
    alloc: Global,
    set: &S,
    cursor: &mut Cursor,
    cube: &mut Cube,
    states: u32,
) -> Result<bool, AllocError>
    requires atoms { S.atoms set.now ≡ 3 }
    requires stands { S.stands_outside set.now cursor.old }
    ensures stands { OnOk result (S.stands_outside set.now cursor.new) }
{
    let step = set.outside_next(cursor, cube)?;
    is_step_of(alloc, step, cube, states)
}

// Whether each step of the walk over the states outside the set denies its clause.
fn walks_outside<S: Outside>(
    alloc: Global,
    set: &S,
    cursor: &mut Cursor,
    cube: &mut Cube,
    clauses: &[u32],
) -> Result<bool, AllocError>
    requires atoms { S.atoms set.now ≡ 3 }
    requires stands { S.stands_outside set.now cursor.old }
{
    let mut right = true;
    for clause in clauses {
        right &= steps_outside(alloc, set, cursor, cube, states_denied(*clause))?;
    }
    Ok(right & (set.outside_next(cursor, cube)? == Step::End))
}

fn counts_outside<S: Outside>(alloc: Global, set: &S, len: u64) -> Result<bool, AllocError> {
    let none = set.outside_count(alloc, 0)? == len.min(1);
    let one = set.outside_count(alloc, 1)? == len.min(2);
    let some = set.outside_count(alloc, 9)? == len.min(10);
    let all = set.outside_count(alloc, 16777216)? == len.min(16777217);
    Ok(none & one & some & all)
}

fn outside_is_right<S: Outside>(alloc: Global, set: &S, clauses: &[u32]) -> Result<bool, AllocError>
    requires { S.atoms set.now ≡ 3 }
{
    let mut cursor = Cursor::new(alloc);
    let mut cube = Cube::new(alloc);
    walks_outside(alloc, set, &mut cursor, &mut cube, clauses)
}

// Whether the next step inside the set has the cube of these states. The program walks along paths:
// `inside_next` is there for callers.
fn steps_inside<S: Inside>(
    alloc: Global,
    set: &S,
    cursor: &mut Cursor,
    cube: &mut Cube,
    states: u32,
) -> Result<bool, AllocError>
    requires atoms { S.atoms set.now ≡ 3 }
    requires stands { S.stands_inside set.now cursor.old }
    ensures stands { OnOk result (S.stands_inside set.now cursor.new) }
{
    let step = set.inside_next(cursor, cube)?;
    is_step_of(alloc, step, cube, states)
}

// Whether each step of the walk over the set has the cube of its listed state.
fn walks_inside<S: Inside>(
    alloc: Global,
    set: &S,
    cursor: &mut Cursor,
    cube: &mut Cube,
    codes: &[u32],
) -> Result<bool, AllocError>
    requires atoms { S.atoms set.now ≡ 3 }
    requires stands { S.stands_inside set.now cursor.old }
{
    let mut right = true;
    for code in codes {
        right &= steps_inside(alloc, set, cursor, cube, bit_if(*code, true))?;
    }
    Ok(right & (set.inside_next(cursor, cube)? == Step::End))
}

fn counts_inside<S: Inside>(alloc: Global, set: &S, len: u64) -> Result<bool, AllocError> {
    let none = set.inside_count(alloc, 0)? == len.min(1);
    let one = set.inside_count(alloc, 1)? == len.min(2);
    let some = set.inside_count(alloc, 9)? == len.min(10);
    let all = set.inside_count(alloc, 16777216)? == len.min(16777217);
    Ok(none & one & some & all)
}

fn inside_is_right<S: Inside>(alloc: Global, set: &S, codes: &[u32]) -> Result<bool, AllocError>
    requires { S.atoms set.now ≡ 3 }
{
    let mut cursor = Cursor::new(alloc);
    let mut cube = Cube::new(alloc);
    walks_inside(alloc, set, &mut cursor, &mut cube, codes)
}

// Whether the set of these clauses answers as all states say.
fn formula_is_right<K: ClauseKind>(
    alloc: Global,
    set: &Formula<K>,
    clauses: &[u32],
) -> Result<bool, AllocError>
    requires { set.now.atoms ≡ 3 }
{
    let mask = states_of_clauses(clauses);
    let cubes = cubes_are_right(alloc, set, mask)?;
    let holds = holds_rightly(alloc, set, mask)?;
    let walks = outside_is_right(alloc, set, clauses)?;
    let counts = counts_outside(alloc, set, clauses.len() as u64)?;
    Ok(cubes & holds & walks & counts)
}

// The same for the set of these clauses.
fn set_is_right<K: ClauseKind>(
    alloc: Global,
    task: &Task,
    clauses: &[u32],
) -> Result<bool, K::Fault>
    requires { atoms task.now ≡ 3 }
{
    let set = formula_of::<K>(alloc, task, clauses)?;
    Ok(formula_is_right(alloc, &set, clauses)?)
}

fn clauses_are_right<K: ClauseKind>(alloc: Global, clauses: &[u32]) -> Result<bool, K::Fault> {
    let task = task_of(alloc, 0)?;
    set_is_right::<K>(alloc, &task, clauses)
}

fn is_met_rightly<S: StateSet>(
    alloc: Global,
    set: &S,
    number: u32,
    mask: u32,
    scratch: &mut Scratch,
) -> Result<bool, AllocError>
    requires { S.atoms set.now ≡ 3 }
{
    let cube = cube_from(alloc, number)?;
    meets_rightly(alloc, set, &cube, states_of_number(number) & mask, scratch)
}

// Whether all cubes are met rightly by the set of these states.
pub(crate) fn cubes_are_met<S: StateSet>(
    alloc: Global,
    set: &S,
    mask: u32,
) -> Result<bool, AllocError>
    requires { S.atoms set.now ≡ 3 }
{
    let mut scratch = Scratch::new(alloc)?;
    let mut right = true;
    for number in 0..27 {
        right &= is_met_rightly(alloc, set, number, mask, &mut scratch)?;
    }
    Ok(right)
}

fn is_covered_rightly<S: Covering>(
    alloc: Global,
    set: &S,
    number: u32,
    mask: u32,
    scratch: &mut Scratch,
) -> Result<bool, AllocError>
    requires { S.atoms set.now ≡ 3 }
{
    let cube = cube_from(alloc, number)?;
    covers_rightly(alloc, set, &cube, states_of_number(number) & !mask, scratch)
}

// Whether all cubes are covered rightly by the set of these states.
pub(crate) fn cubes_are_covered<S: Covering>(
    alloc: Global,
    set: &S,
    mask: u32,
) -> Result<bool, AllocError>
    requires { S.atoms set.now ≡ 3 }
{
    let mut scratch = Scratch::new(alloc)?;
    let mut right = true;
    for number in 0..27 {
        right &= is_covered_rightly(alloc, set, number, mask, &mut scratch)?;
    }
    Ok(right)
}

// Whether the set of these listed states answers as all states say.
fn states_are_right<S: Inside>(alloc: Global, set: &S, codes: &[u32]) -> Result<bool, AllocError>
    requires { S.atoms set.now ≡ 3 }
{
    let mask = states_of_list(codes);
    let cubes = cubes_are_met(alloc, set, mask)?;
    let holds = holds_rightly(alloc, set, mask)?;
    let walks = inside_is_right(alloc, set, codes)?;
    let counts = counts_inside(alloc, set, codes.len() as u64)?;
    Ok(cubes & holds & walks & counts)
}

fn list_is_right(alloc: Global, task: &Task, codes: &[u32]) -> Result<bool, AllocError>
    requires { atoms task.now ≡ 3 }
{
    let set = explicit_of(alloc, task, codes)?;
    states_are_right(alloc, &set, codes)
}

fn listing_is_right(alloc: Global, codes: &[u32]) -> Result<bool, AllocError> {
    let task = task_of(alloc, 0)?;
    list_is_right(alloc, &task, codes)
}

// Whether the plain walk over the left set has a state of the right one where they have these in
// common. That walk is there for families without a walk of their own.
fn walk_meets_rightly<L: Inside, R: StateSet>(
    alloc: Global,
    left: &L,
    right: &R,
    states: u32,
    scratch: &mut Scratch,
) -> Result<bool, AllocError>
    requires { L.atoms left.now ≡ R.atoms right.now }
{
    let mut walk = InsideWalk::new(alloc, left);
    let mut asked = InsideAsk::new(alloc, right);
    let meets = meet_along(alloc, &mut walk, &mut asked, scratch)?;
    Ok(is_found(meets, states, scratch.state()))
}

// The same where the right set is the state of this code.
fn walk_has_rightly<L: Inside>(
    alloc: Global,
    task: &Task,
    left: &L,
    mask: u32,
    code: u32,
    scratch: &mut Scratch,
) -> Result<bool, AllocError>
    requires task { atoms task.now ≡ 3 }
    requires left { L.atoms left.now ≡ 3 }
    requires code { code < 8 }
{
    let alone = explicit_of(alloc, task, &[code])?;
    walk_meets_rightly(
        alloc,
        left,
        &alone,
        bit_if(code, has_bit(mask, code)),
        scratch,
    )
}

// The same for each state.
fn walk_is_right<L: Inside>(
    alloc: Global,
    task: &Task,
    left: &L,
    mask: u32,
) -> Result<bool, AllocError>
    requires task { atoms task.now ≡ 3 }
    requires left { L.atoms left.now ≡ 3 }
{
    let mut scratch = Scratch::new(alloc)?;
    let mut right = true;
    for code in 0..8 {
        right &= walk_has_rightly(alloc, task, left, mask, code, &mut scratch)?;
    }
    Ok(right)
}

fn plain_walk_is_right(alloc: Global, task: &Task, codes: &[u32]) -> Result<bool, AllocError>
    requires { atoms task.now ≡ 3 }
{
    let set = explicit_of(alloc, task, codes)?;
    walk_is_right(alloc, task, &set, states_of_list(codes))
}

fn listing_is_walked(alloc: Global, codes: &[u32]) -> Result<bool, AllocError> {
    let task = task_of(alloc, 0)?;
    plain_walk_is_right(alloc, &task, codes)
}

fn horn_code_is_right(alloc: Global, code: u32) -> Result<bool, Fail> {
    if !is_horn_code(code) {
        return Ok(true);
    }
    let alone = clauses_are_right::<HornKind>(alloc, &[code])?;
    let beside = clauses_are_right::<HornKind>(alloc, &[code, 18, 3])?;
    Ok(alone & beside)
}

fn dual_code_is_right(alloc: Global, code: u32) -> Result<bool, Fail> {
    if !is_dual_code(code) {
        return Ok(true);
    }
    let alone = clauses_are_right::<DualHornKind>(alloc, &[code])?;
    let beside = clauses_are_right::<DualHornKind>(alloc, &[code, 18, 3])?;
    Ok(alone & beside)
}

fn two_code_is_right(alloc: Global, code: u32) -> Result<bool, Fail> {
    if !is_two_code(code) {
        return Ok(true);
    }
    let alone = clauses_are_right::<TwoKind>(alloc, &[code])?;
    let beside = clauses_are_right::<TwoKind>(alloc, &[code, 18, 3])?;
    let lean = clauses_are_right::<LeanTwoKind>(alloc, &[code, 18, 3])?;
    Ok(alone & beside & lean)
}

#[test]
fn cubes_of_horn_formulas_are_answered_as_all_states_say(rt: HostRuntime) -> Result<(), Fail> {
    assert!(rt; clauses_are_right::<HornKind>(rt.alloc(), &[])?);
    for code in 0..128 {
        assert!(rt; horn_code_is_right(rt.alloc(), code)?, "at {code}");
    }
    Ok(())
}

#[test]
fn cubes_of_dual_horn_formulas_are_answered_as_all_states_say(rt: HostRuntime) -> Result<(), Fail> {
    assert!(rt; clauses_are_right::<DualHornKind>(rt.alloc(), &[])?);
    assert!(rt; clauses_are_right::<DualHornKind>(rt.alloc(), &[21, 9, 36, 18])?);
    for code in 0..128 {
        assert!(rt; dual_code_is_right(rt.alloc(), code)?, "at {code}");
    }
    Ok(())
}

#[test]
fn cubes_of_two_cnf_formulas_are_answered_as_all_states_say(rt: HostRuntime) -> Result<(), Fail> {
    assert!(rt; clauses_are_right::<TwoKind>(rt.alloc(), &[])?);
    assert!(rt; clauses_are_right::<TwoKind>(rt.alloc(), &[5, 9, 6, 10])?);
    for code in 0..128 {
        assert!(rt; two_code_is_right(rt.alloc(), code)?, "at {code}");
    }
    Ok(())
}

#[test]
fn cubes_of_listed_states_are_answered_as_all_states_say(rt: HostRuntime) -> Result<(), Fail> {
    assert!(rt; listing_is_right(rt.alloc(), &[])?);
    assert!(rt; listing_is_right(rt.alloc(), &[0])?);
    assert!(rt; listing_is_right(rt.alloc(), &[6, 5])?);
    assert!(rt; listing_is_right(rt.alloc(), &[7, 2, 7, 4])?);
    assert!(rt; listing_is_right(rt.alloc(), &[7, 6, 5, 4, 3, 2, 1, 0])?);
    Ok(())
}

#[test]
fn plain_walks_over_listed_states_have_these_alone(rt: HostRuntime) -> Result<(), Fail> {
    assert!(rt; listing_is_walked(rt.alloc(), &[])?);
    assert!(rt; listing_is_walked(rt.alloc(), &[0])?);
    assert!(rt; listing_is_walked(rt.alloc(), &[7, 2, 7, 4])?);
    assert!(rt; listing_is_walked(rt.alloc(), &[7, 6, 5, 4, 3, 2, 1, 0])?);
    Ok(())
}

//! Tests of lists, and of operands by their names.

ghost use Rattle.std.specs.Prelude.{◌≡◌, [], OnOk};

use hv_sets::{
    Clause, Clauses, ClausesBuilder, Literal, Operand, Operands, StateBuffer, StateList,
    StateListBuilder, Which,
};
use hv_task::AtomList;
use std::alloc::{AllocError, Global};

const HELD: Literal = Literal {
    atom: 2,
    positive: true,
};

const DENIED: Literal = Literal {
    atom: 0,
    positive: false,
};

// The clause of the two literals.
fn either(alloc: Global) -> Result<Clause, AllocError> {
    let mut clause = Clause::new(alloc);
    clause.push(HELD)?;
    clause.push(DENIED)?;
    Ok(clause)
}

// Whether such a clause has the two literals in their order.
fn keeps_order(alloc: Global) -> Result<bool, AllocError> {
    let clause = either(alloc)?;
    Ok(clause.len() == 2 && *clause.get(1) == DENIED)
}

#[test]
fn a_clause_keeps_the_order_of_its_literals(rt: HostRuntime) {
    assert!(rt; keeps_order(rt.alloc()) == Ok(true));
}

// Puts the clause of the two literals, the empty one, and that of the second literal.
fn put_three(alloc: Global, clauses: &mut Clauses) -> Result<(), AllocError> {
    clauses.push(either(alloc)?)?;
    clauses.push(Clause::new(alloc))?;
    clauses.push_literals(&[DENIED])
}

// The list of these.
fn three_clauses(alloc: Global) -> Result<Clauses, AllocError> {
    let mut clauses = Clauses::new(alloc);
    put_three(alloc, &mut clauses)?;
    Ok(clauses)
}

// The same list, which shares its clauses from now on.
fn shared_clauses(alloc: Global, clauses: &Clauses) -> Result<Clauses, AllocError> {
    clauses.copy(alloc)?.share()
}

// Whether there are so many clauses, and the first is that of the two literals.
fn begin_so(clauses: &Clauses, count: usize) -> bool {
    clauses.len() == count && count != 0 && clauses.get(0) == [HELD, DENIED].as_slice()
}

// Whether the list has the three clauses.
fn are_three(clauses: &Clauses) -> bool {
    clauses.len() == 3
        && clauses.get(0).len() == 2
        && clauses.get(1).len() == 0
        && clauses.get(2) == [DENIED].as_slice()
}

// Whether an empty list is told.
fn tells_empty(alloc: Global) -> bool {
    let clauses = Clauses::new(alloc);
    clauses.is_empty()
}

// Whether a list keeps the order of the three clauses, shared or not.
fn keep_order(alloc: Global) -> Result<bool, AllocError> {
    let clauses = three_clauses(alloc)?;
    let shared = shared_clauses(alloc, &clauses)?;
    Ok(are_three(&clauses) & begin_so(&shared, 3))
}

#[test]
fn clauses_keep_their_order(rt: HostRuntime) {
    assert!(rt; tells_empty(rt.alloc()));
    assert!(rt; keep_order(rt.alloc()) == Ok(true));
}

// The three clauses, shared.
fn three_shared(alloc: Global) -> Result<Clauses, AllocError> {
    let clauses = three_clauses(alloc)?;
    shared_clauses(alloc, &clauses)
}

// Whether the list gets a further clause, and the copy of its three stays.
fn gets_a_clause(longer: &mut Clauses, copy: &Clauses) -> Result<bool, AllocError> {
    longer.push_literals(&[])?;
    Ok(longer.len() == 4 && begin_so(copy, 3))
}

// Whether a copy of the three clauses stays where the list gets a further one.
fn copy_stays(alloc: Global, longer: &mut Clauses) -> Result<bool, AllocError> {
    let copy = longer.copy(alloc)?;
    gets_a_clause(longer, &copy)
}

// The same of a list that is shared.
fn shared_copy_stays(alloc: Global) -> Result<bool, AllocError> {
    let mut clauses = three_shared(alloc)?;
    copy_stays(alloc, &mut clauses)
}

#[test]
fn a_copy_of_shared_clauses_stays(rt: HostRuntime) {
    assert!(rt; shared_copy_stays(rt.alloc()) == Ok(true));
}

// A list of one state, which shares it.
fn one_state(alloc: Global) -> Result<StateList, AllocError> {
    let mut states = StateList::new(alloc);
    states.push(AtomList::new(alloc))?;
    states.share()
}

// Whether the state at the place has just these atoms.
fn is_state(states: &StateList, place: usize, atoms: &[u32]) -> bool {
    if place >= states.len() {
        return false;
    }
    let mut buffer = StateBuffer::new();
    states.get(place).slice(&mut buffer) == atoms
}

// How many atoms the state at the place has, and its least one.
fn count_and_least(states: &StateList, place: usize) -> (usize, Option<u32>) {
    if place >= states.len() {
        return (0, None);
    }
    let state = states.get(place);
    (state.len(), state.first())
}

// Whether the list gets a further state, and the copy of its one stays.
fn gets_a_state(longer: &mut StateList, copy: &StateList) -> Result<bool, AllocError> {
    longer.push_atoms(&[1, 4])?;
    Ok(longer.len() == 2 && is_state(longer, 1, &[1, 4]) && copy.len() == 1)
}

// Whether a copy of the one state stays where the list gets a further one.
fn state_copy_stays(alloc: Global, states: &mut StateList) -> Result<bool, AllocError> {
    let copy = states.copy(alloc)?;
    gets_a_state(states, &copy)
}

// The same of a list that is shared.
fn shared_state_copy_stays(alloc: Global) -> Result<bool, AllocError> {
    let mut states = one_state(alloc)?;
    state_copy_stays(alloc, &mut states)
}

#[test]
fn a_copy_of_shared_states_stays(rt: HostRuntime) {
    assert!(rt; shared_state_copy_stays(rt.alloc()) == Ok(true));
}

// Two states of nine atoms below 256, as many as are kept in one byte each, and one that has a
// greater one.
const DENSE: [u32; 9] = [0, 1, 2, 3, 4, 5, 6, 7, 255];

const OTHER: [u32; 9] = [1, 2, 3, 4, 5, 6, 7, 8, 9];

const GREAT: [u32; 9] = [0, 1, 2, 3, 4, 5, 6, 7, 256];

// A list of the first two, which shares them.
fn dense_states(alloc: Global) -> Result<StateList, AllocError> {
    let mut states = StateList::new(alloc);
    states.push_atoms(&DENSE)?;
    states.push_atoms(&OTHER)?;
    states.share()
}

// Whether the first two are read as they were put in.
fn are_read(states: &StateList) -> bool {
    is_state(states, 0, &DENSE) && count_and_least(states, 1) == (9, Some(1))
}

// Whether there are three, and the last two are read as they were put in.
fn are_more(states: &StateList) -> bool {
    states.len() == 3 && is_state(states, 1, &OTHER) && is_state(states, 2, &GREAT)
}

// Whether the list gets the greater one, and the copy of the first two stays.
fn gets_a_great_state(states: &mut StateList, copy: &StateList) -> Result<bool, AllocError> {
    states.push_atoms(&GREAT)?;
    Ok(are_more(states) && copy.len() == 2 && is_state(copy, 0, &DENSE))
}

// Whether they are read as they were put in, also where the list gets a further one, and whether a
// copy stays.
fn are_read_and_stay(alloc: Global, states: &mut StateList) -> Result<bool, AllocError> {
    let copy = states.copy(alloc)?;
    Ok(are_read(states) & gets_a_great_state(states, &copy)?)
}

// The same of a new list.
fn dense_states_stay(alloc: Global) -> Result<bool, AllocError> {
    let mut states = dense_states(alloc)?;
    are_read_and_stay(alloc, &mut states)
}

#[test]
fn dense_states_are_read_as_they_were_put_in(rt: HostRuntime) {
    assert!(rt; dense_states_stay(rt.alloc()) == Ok(true));
}

// Puts the two literals and an end, an end alone, and the second literal and an end.
fn gather_three(clauses: &mut ClausesBuilder) -> Result<(), AllocError>
    ensures { OnOk result (clauses.new.begun ≡ []) }
{
    clauses.reserve(3, 3)?;
    clauses.put(HELD)?;
    clauses.put(DENIED)?;
    clauses.end()?;
    clauses.end()?;
    clauses.put(DENIED)?;
    clauses.end()
}

// Whether the three clauses are put together literal by literal.
fn are_gathered(alloc: Global) -> Result<bool, AllocError> {
    let mut clauses = ClausesBuilder::new(alloc);
    gather_three(&mut clauses)?;
    Ok(clauses.begun() == 0 && are_three(&clauses.list()))
}

// Puts atoms 1 and 4 and an end, an end alone, and atom 2 and an end.
fn gather_states(states: &mut StateListBuilder) -> Result<(), AllocError>
    requires { states.old.begun ≡ [] }
    ensures { OnOk result (states.new.begun ≡ []) }
{
    states.reserve(3, 3)?;
    states.put(1)?;
    states.put(4)?;
    states.end()?;
    states.end()?;
    states.put(2)?;
    states.end()
}

// Whether the list has just these states.
fn are_gathered_states(states: &StateList) -> bool {
    states.len() == 3
        && is_state(states, 0, &[1, 4])
        && states.get(1).len() == 0
        && is_state(states, 2, &[2])
}

// Whether the three states are put together atom by atom.
fn states_are_gathered(alloc: Global) -> Result<bool, AllocError> {
    let mut states = StateListBuilder::new(alloc);
    gather_states(&mut states)?;
    Ok(states.len() == 3 && states.begun() == 0 && are_gathered_states(&states.list()))
}

#[test]
fn lists_are_put_together_item_by_item(rt: HostRuntime) {
    assert!(rt; are_gathered(rt.alloc()) == Ok(true));
    assert!(rt; states_are_gathered(rt.alloc()) == Ok(true));
}

// Puts set 7 after the action, and the goal before it: the operand of this number.
fn put_operand(operands: &mut Operands, id: usize) -> Result<(), AllocError> {
    let after = id < 3;
    let which = if after { Which::Set(7) } else { Which::Goal };
    operands.push(Operand { which, id, after })
}

// Puts set 7 three times, and the goal.
fn put_operands(operands: &mut Operands) -> Result<(), AllocError> {
    for id in 0..4 {
        put_operand(operands, id)?;
    }
    Ok(())
}

// Whether these are the four operands.
fn are_four(operands: &Operands) -> bool {
    operands.len() == 4
        && operands.get(0).which == Which::Set(7)
        && operands.get(3).which == Which::Goal
}

// Whether just these are named.
fn are_named(operands: &Operands) -> bool {
    operands.names(Which::Set(7), true)
        & !operands.names(Which::Set(7), false)
        & !operands.names(Which::Set(6), true)
        & operands.names(Which::Goal, false)
        & !operands.names(Which::Goal, true)
        & !operands.names(Which::Start, false)
}

// Whether operands name their sets once they are there.
fn name_their_sets(alloc: Global) -> Result<bool, AllocError> {
    let mut operands = Operands::new(alloc);
    let none = !operands.names(Which::Goal, false);
    put_operands(&mut operands)?;
    Ok(none & are_four(&operands) & are_named(&operands))
}

#[test]
fn operands_name_their_sets_before_or_after_the_action(rt: HostRuntime) {
    assert!(rt; name_their_sets(rt.alloc()) == Ok(true));
}

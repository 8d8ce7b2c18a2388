//! A query as it is asked, and its positive operands as a condition on states.

ghost use Rattle.std.specs.Prelude.{◌≡◌, ◌<◌, ◌≤◌, ◌+◌, ◌++◌, ◌↔◌, ℕ, None, Some, IfSome, IsTrue};
ghost use Rattle.std.specs.Prelude.{MatchOption, false, true, length, map, slice_get};
ghost use Rattle.std.specs.List.{All};
ghost use Rattle.hv_task.specs.State.{AreBelow, names_atom};
ghost use Rattle.hv_task.specs.Strips.{IsTask, atoms, is_goal, start_state};
ghost use Rattle.hv_sets.specs.declared.operand.Operand.{Operand as OperandOf};
ghost use Rattle.hv_sets.specs.Names.{AsksAbout};
ghost use Rattle.hv_sets.specs.Query.{IsNamed, action_of};
ghost use Rattle.hv_sets.specs.Truth.{in_clauses, is_same};
ghost use Rattle.hv_propagation.specs.Roots.{AreSettledBut};
ghost use Rattle.hv_propagation.specs.Chase.{AreKept, IsFollowed};
ghost use Rattle.hv_propagation.specs.Completion.{Completes};
ghost use Rattle.hv_clauses.specs.Working.Operands.{clauses_of_state, unit};
ghost use Rattle.hv_propagation.specs.Effect.{late};
ghost use Rattle.hv_propagation.specs.Marks.{over};
ghost use Rattle.hv_clauses.specs.Working.Owners.{AreOwners};
ghost use Rattle.hv_clauses.specs.Working.Posed.{InEach, IsPosed, formulas, size_in, turned_to};
ghost use Rattle.hv_clauses.specs.Working.Posed.{width};
ghost use Rattle.hv_clauses.specs.Working.Early.{AreEarlyLeft};
ghost use Rattle.hv_clauses.specs.Inquiry.{asked_with};
ghost use Rattle.hv_clauses.specs.Working.Laws as laws;
ghost use Rattle.hv_clauses.specs.Working.Problem.{AreEachSettled, AreLeft, InOne, IsLeftOf};
ghost use Rattle.hv_propagation.specs.Trail.{marks_of};
ghost use Rattle.hv_propagation.specs.Units.{AreSettled};
ghost use Rattle.hv_clauses.specs.Working.Start.{IsBasedOn};
ghost use Rattle.hv_clauses.specs.Store.{AreOver};

use crate::formulas::Formulas;
use crate::literal_owners::ClauseOwners;
use crate::{choices, literal_owners};
use hv_formula::{ClauseKind, Formula};
use hv_propagation::{
    ActionEffect, Assignment, Completion, Constraint, chase, falsified, literals,
};
use hv_sets::{Literal, Operand, Operands, Query, Which};
use hv_task::{Action, AtomList, Task};
use std::alloc::Global;
use std::marker::Model;

/// A query, the task and the store of which it is asked, and the effect of its action. The action
/// can be turned to another one.
#[derive(Drop)]
pub(crate) struct Problem<'a, K: ClauseKind> {
    task: &'a Task,
    store: &'a Formulas<K>,
    positive: &'a Operands,
    negative: &'a Operands,
    action: Option<u32>,
    effect: ActionEffect<'a>,
    // Where there are many positive operands, those that have each literal.
    owners: Option<ClauseOwners>,
}

impl<'a, K: ClauseKind> Model for Problem<'a, K> {
    ghost use Rattle.std.specs.Prelude.{IfSome};
    ghost use Rattle.hv_clauses.specs.Working.Owners.{AreOwners};
    ghost use Rattle.hv_clauses.specs.Working.Posed.{IsPosed, ProblemState};

    ghost Value = { ProblemState };

    ghost view = { λ s. record {
      task = s.task.now;
      store = s.store.now;
      query = record { positive = s.positive.now; negative = s.negative.now; action = s.action };
      effect = s.effect;
    } };

    ghost invariant = { λ s. IsPosed (record {
      task = s.task.now;
      store = s.store.now;
      query = record { positive = s.positive.now; negative = s.negative.now; action = s.action };
      effect = s.effect;
    }) × IfSome s.owners (AreOwners (record {
      task = s.task.now;
      store = s.store.now;
      query = record { positive = s.positive.now; negative = s.negative.now; action = s.action };
      effect = s.effect;
    })) };
}

impl<'a, K: ClauseKind> Problem<'a, K> {
    /// The query without its action, asked of this task and this store.
    pub(crate) fn of(task: &'a Task, store: &'a Formulas<K>, query: &'a Query) -> Problem<'a, K>
        requires named { All (λ o. IsNamed (length store.now) o.which)
            (query.now.positive ++ query.now.negative) }
        requires over { AreOver store.now (atoms task.now) }
        ensures posed { IsPosed result }
        ensures task { result.task ≡ task.now }
        ensures store { result.store ≡ store.now }
        ensures query { result.query ≡ asked_with query.now.positive query.now.negative None }
    {
        let effect = ActionEffect::of(task, None);
        Problem {
            task,
            store,
            positive: &query.positive,
            negative: &query.negative,
            action: None,
            effect,
            owners: None,
        }
    }

    /// Turns it to this action, or to none.
    pub(crate) fn turn_to(&mut self, action: Option<u32>)
        requires action { IfSome action (λ a. a < length self.old.task.actions) }
        ensures posed { IsPosed self.new }
        ensures turned { self.new ≡ turned_to self.old action self.new.effect }
    {
        self.action = action;
        self.effect = ActionEffect::of(self.task, action);
    }

    /// Lists the positive operands that have each literal, if that pays and there is memory for it.
    pub(crate) fn list_owners(&mut self, pays: bool, alloc: Option<Global>)
        ensures { self.new ≡ self.old }
    {
        if pays && self.owners.is_none() {
            self.owners = literal_owners::listed(alloc, self);
        }
    }

    /// Whether the positive operands that have each literal were listed.
    pub(crate) fn has_owners(&self) -> bool {
        self.owners.is_some()
    }

    // The positive operands that have each literal, if they were listed.
    fn owners(&self) -> Option<&ClauseOwners>
        ensures { IfSome result (λ owners. AreOwners self.now owners.now) }
    {
        self.owners.as_ref()
    }

    /// Whether some positive operand is this set, asked about after the action (true) or before it.
    pub(crate) fn names(&self, which: Which, after: bool) -> bool
        ensures { IsTrue result ↔ AsksAbout self.now.query.positive which after }
    {
        self.positive.names(which, after)
    }

    /// The task.
    pub(crate) fn task(&self) -> &'a Task
        ensures { result.now ≡ self.now.task }
    {
        self.task
    }

    /// The store.
    pub(crate) fn store(&self) -> &'a Formulas<K>
        ensures { result.now ≡ self.now.store }
    {
        self.store
    }

    /// The effect of its action.
    pub(crate) fn effect(&self) -> &ActionEffect<'a>
        ensures { result.now ≡ self.now.effect }
    {
        &self.effect
    }

    /// How many atoms the task has.
    pub(crate) fn atoms(&self) -> u32
        ensures atoms { result ≡ width self.now }
        ensures task { IsTask self.now.task }
    {
        self.task.atoms()
    }

    /// The atoms that the goal asks for.
    pub(crate) fn goal(&self) -> &'a AtomList
        ensures goal { result.now ≡ self.now.task.goal }
        ensures below { AreBelow (width self.now) result.now }
    {
        self.task.goal()
    }

    /// The literal that says of the atom of this place what is true of it in the initial state.
    pub(crate) fn start_literal(&self, place: u64) -> Literal
        requires { place < width self.now }
        ensures { result ≡
            record { atom = place; positive = names_atom self.now.task.start place } }
    {
        let start = self.task.start();
        let atom = place as u32;
        Literal {
            atom,
            positive: start.has(atom),
        }
    }

    /// Its positive operands.
    pub(crate) fn positive(&self) -> &'a [Operand]
        ensures list { result.now ≡ self.now.query.positive }
        ensures named { All (λ o. IsNamed (length self.now.store) o.which) result.now }
    {
        self.positive.as_slice()
    }

    /// Its negative operands.
    pub(crate) fn negative(&self) -> &'a [Operand]
        ensures list { result.now ≡ self.now.query.negative }
        ensures named { All (λ o. IsNamed (length self.now.store) o.which) result.now }
    {
        self.negative.as_slice()
    }

    /// The effect through which an operand is asked about.
    pub(crate) fn seen(&self, after: bool) -> ActionEffect<'a>
        ensures { result ≡ late self.now.effect after }
    {
        self.effect.late(after)
    }

    /// The set of this number.
    pub(crate) fn set(&self, number: usize) -> &'a Formula<K>
        requires { number < length self.now.store }
        ensures clauses { result.now.clauses ≡ formulas self.now number }
        ensures atoms { result.now.atoms ≡ width self.now }
    {
        self.store.set(number)
    }

    /// How many clauses an operand has.
    pub(crate) fn count_of(&self, which: Which) -> u64
        requires { IsNamed (length self.now.store) which }
        ensures { result ≡ size_in self.now which }
    {
        match which {
            Which::Empty => 1,
            Which::Start => self.task.atoms() as u64,
            Which::Goal => self.task.goal().len() as u64,
            Which::Set(number) => self.store.set(number).clauses().len() as u64,
        }
    }

    /// Its action, if it has one.
    pub(crate) fn action(&self) -> Option<&'a Action>
        ensures { MatchOption result (action_of self.now.task self.now.query.action ≡ None)
            (λ action. (action_of self.now.task self.now.query.action ≡ Some action.now)
            × AreBelow (width self.now) action.now.pre) }
    {
        match self.action {
            None => None,
            Some(number) => Some(self.task.action(number)),
        }
    }

    /// How what is settled is completed to a state that is in each positive operand.
    pub(crate) fn completion(&self) -> Completion
        ensures completes { Completes result (InEach self.now) (AreEachSettled self.now)
            (width self.now) }
        ensures wide { length self.now.effect ≡ width self.now }
    {
        self.store.completion()
    }
}

impl<K: ClauseKind> Constraint for Problem<'_, K> {
    ghost is_over = { λ p n. n ≡ width p };

    ghost admits = { InEach };

    ghost settled = { AreEachSettled };

    ghost left = { AreLeft };

    fn visit(&self, marks: &mut Assignment<'_>, from: usize) -> bool {
        match self.owners() {
            None => visit_each(self, marks, from),
            Some(owners) => visit_owners(self, owners, marks, from),
        }
    }

    fn weight(&self, literal: Literal) -> usize {
        match self.owners() {
            None => weight_in_each(self, literal),
            Some(owners) => weight_of_owners(self, owners, literal),
        }
    }

    ghost left_ends = { laws.all_end };

    ghost left_stays = { laws.all_stay };
}

// About how many clauses of the positive operands are looked at where a literal is followed up.
fn weight_in_each<K: ClauseKind>(problem: &Problem<'_, K>, literal: Literal) -> usize {
    let positive = problem.positive();
    let mut sum: usize = 0;
    for operand in positive {
        sum = sum.saturating_add(weight_in(problem, *operand, literal));
    }
    sum
}

// The same, where only those that have its opposite are gone through.
fn weight_of_owners<K: ClauseKind>(
    problem: &Problem<'_, K>,
    owners: &ClauseOwners,
    literal: Literal,
) -> usize
    requires { AreOwners problem.now owners.now }
{
    let row = owners.row(Literal {
        atom: literal.atom,
        positive: !literal.positive,
    });
    let positive = problem.positive();
    let mut sum: usize = 0;
    for place in row {
        if let Some(operand) = positive.get(*place as usize) {
            sum = sum.saturating_add(weight_in(problem, *operand, literal));
        }
    }
    sum
}

// The same of one operand.
fn weight_in<K: ClauseKind>(problem: &Problem<'_, K>, operand: Operand, literal: Literal) -> usize
    requires { IsNamed (length problem.now.store) operand.which }
{
    let Which::Set(number) = operand.which else {
        return 1;
    };
    chase::weight(problem.set(number).occurs(), literal)
}

// Follows up the literal at this place of the trail in each positive operand.
#[inline(always)]
fn visit_each<K: ClauseKind>(
    problem: &Problem<'_, K>,
    marks: &mut Assignment<'_>,
    from: usize,
) -> bool
    requires size { length marks.old.roots ≡ width problem.now }
    requires from { from < length marks.old.trail }
    requires left { AreLeft problem.now marks.old from }
    ensures followed { IsFollowed (InEach problem.now) marks.old marks.new result }
    ensures left { result ≡ true → AreLeft problem.now marks.new (from + 1) }
{
    let positive = problem.positive();
    for operand in positive {
        if !visit_operand(problem, *operand, marks, from) {
            return false;
        }
    }
    true
}

// The same, where only those that have its opposite are gone through.
#[inline(never)]
fn visit_owners<K: ClauseKind>(
    problem: &Problem<'_, K>,
    owners: &ClauseOwners,
    marks: &mut Assignment<'_>,
    from: usize,
) -> bool
    requires owners { AreOwners problem.now owners.now }
    requires size { length marks.old.roots ≡ width problem.now }
    requires from { from < length marks.old.trail }
    requires left { AreLeft problem.now marks.old from }
    ensures followed { IsFollowed (InEach problem.now) marks.old marks.new result }
    ensures left { result ≡ true → AreLeft problem.now marks.new (from + 1) }
{
    let literal = marks.get(from);
    let row = owners.row(Literal {
        atom: literal.atom,
        positive: !literal.positive,
    });
    for place in row {
        if !visit_place(problem, *place, marks, from) {
            return false;
        }
    }
    true
}

// Follows up the literal at this place of the trail in the positive operand at a place, if there is
// one.
fn visit_place<K: ClauseKind>(
    problem: &Problem<'_, K>,
    place: u32,
    marks: &mut Assignment<'_>,
    from: usize,
) -> bool
    requires size { length marks.old.roots ≡ width problem.now }
    requires from { from < length marks.old.trail }
    requires left { AreLeft problem.now marks.old from }
    ensures followed { IsFollowed (InEach problem.now) marks.old marks.new result }
    ensures left { result ≡ true → (operand : OperandOf)
        → slice_get problem.now.query.positive place ≡ Some operand
        → IsLeftOf problem.now operand marks.new (from + 1) }
{
    match problem.positive().get(place as usize) {
        None => true,
        Some(operand) => visit_operand(problem, *operand, marks, from),
    }
}

// Follows up the literal at this place of the trail in the clauses of an operand.
#[inline(always)]
fn visit_operand<K: ClauseKind>(
    problem: &Problem<'_, K>,
    operand: Operand,
    marks: &mut Assignment<'_>,
    from: usize,
) -> bool
    requires named { IsNamed (length problem.now.store) operand.which }
    requires size { length marks.old.roots ≡ width problem.now }
    requires from { from < length marks.old.trail }
    requires left { IsLeftOf problem.now operand marks.old from }
    ensures followed { IsFollowed (InOne problem.now operand) marks.old marks.new result }
    ensures left { result ≡ true → IsLeftOf problem.now operand marks.new (from + 1) }
{
    let Which::Set(number) = operand.which else {
        return true;
    };
    let seen = problem.seen(operand.after);
    let set = problem.set(number);
    chase::visit(set.clauses(), set.occurs(), &seen, marks, from)
}

// Looks at each clause of each positive operand once; of that on which all is based, at each of
// which the effect makes a literal false.
pub(crate) fn start_all<K: ClauseKind>(
    problem: &Problem<'_, K>,
    rooted: Option<Operand>,
    marks: &mut Assignment<'_>,
) -> bool
    requires size { length marks.old.roots ≡ width problem.now }
    requires rooted { IsBasedOn problem.now rooted marks.old.roots }
    ensures followed { IsFollowed (InEach problem.now) marks.old marks.new result }
    ensures left { result ≡ true → AreLeft problem.now marks.new 0 }
{
    let positive = problem.positive();
    for operand in positive {
        if !start_operand(problem, *operand, rooted, marks) {
            return false;
        }
    }
    true
}

// Looks at each clause once of each positive operand that is asked about after the action.
pub(crate) fn start_late<K: ClauseKind>(
    problem: &Problem<'_, K>,
    marks: &mut Assignment<'_>,
) -> bool
    requires size { length marks.old.roots ≡ width problem.now }
    ensures followed { IsFollowed (InEach problem.now) marks.old marks.new result }
    ensures left { result ≡ true → (from : ℕ) → from ≤ length marks.old.trail
        → AreEarlyLeft problem.now marks.old from → AreLeft problem.now marks.new from }
{
    let positive = problem.positive();
    for operand in positive {
        if !start_if_late(problem, *operand, marks) {
            return false;
        }
    }
    true
}

// Looks at each clause of an operand once, if it is asked about after the action.
fn start_if_late<K: ClauseKind>(
    problem: &Problem<'_, K>,
    operand: Operand,
    marks: &mut Assignment<'_>,
) -> bool
    requires named { IsNamed (length problem.now.store) operand.which }
    requires size { length marks.old.roots ≡ width problem.now }
    ensures followed { IsFollowed (InOne problem.now operand) marks.old marks.new result }
    ensures left { result ≡ true → (from : ℕ) → from ≤ length marks.old.trail
        → (operand.after ≡ false → IsLeftOf problem.now operand marks.old from)
        → IsLeftOf problem.now operand marks.new from }
{
    if !operand.after {
        return true;
    }
    start_whole(problem, operand, marks)
}

// Looks at each clause of an operand once; or, if it is that on which all is based, at each of
// which the effect makes a literal false.
fn start_operand<K: ClauseKind>(
    problem: &Problem<'_, K>,
    operand: Operand,
    rooted: Option<Operand>,
    marks: &mut Assignment<'_>,
) -> bool
    requires named { IsNamed (length problem.now.store) operand.which }
    requires size { length marks.old.roots ≡ width problem.now }
    requires rooted { IsBasedOn problem.now rooted marks.old.roots }
    ensures followed { IsFollowed (InOne problem.now operand) marks.old marks.new result }
    ensures left { result ≡ true → IsLeftOf problem.now operand marks.new 0 }
{
    if let Which::Set(number) = operand.which
        && is_based(operand, rooted)
    {
        let seen = problem.seen(operand.after);
        return start_turned(problem.set(number), &seen, marks);
    }
    start_whole(problem, operand, marks)
}

// Looks at each clause of an operand once.
fn start_whole<K: ClauseKind>(
    problem: &Problem<'_, K>,
    operand: Operand,
    marks: &mut Assignment<'_>,
) -> bool
    requires named { IsNamed (length problem.now.store) operand.which }
    requires size { length marks.old.roots ≡ width problem.now }
    ensures followed { IsFollowed (InOne problem.now operand) marks.old marks.new result }
    ensures left { result ≡ true → IsLeftOf problem.now operand marks.new (length marks.old.trail) }
{
    let seen = problem.seen(operand.after);
    match operand.which {
        Which::Empty => false,
        Which::Start => start_start(problem, &seen, marks),
        Which::Goal => start_goal(problem, &seen, marks),
        Which::Set(number) => chase::start(problem.set(number).clauses(), &seen, marks),
    }
}

// Looks at each clause of a set of which the effect makes a literal false.
fn start_turned<K: ClauseKind>(
    set: &Formula<K>,
    effect: &ActionEffect<'_>,
    marks: &mut Assignment<'_>,
) -> bool
    requires size { length marks.old.roots ≡ set.now.atoms }
    requires but { AreSettledBut effect.now set.now.clauses marks.old.roots }
    ensures followed { IsFollowed (λ state. in_clauses set.now.clauses (over effect.now state)
        ≡ true) marks.old marks.new result }
    ensures kept { result ≡ true → AreKept effect.now set.now.clauses marks.new 0 }
{
    let Some(forced) = set.forced() else {
        return false;
    };
    falsified::start(set.clauses(), set.occurs(), forced, effect, marks)
}

// Whether the operand is that on which all is based.
fn is_based(operand: Operand, rooted: Option<Operand>) -> bool
    ensures { result ≡ true → (roots : OperandOf) × (rooted ≡ Some roots) ×
        (operand.which ≡ roots.which) × (operand.after ≡ roots.after) }
{
    let Some(roots) = rooted else {
        return false;
    };
    operand.which == roots.which && operand.after == roots.after
}

// Makes each atom as it is in the initial state.
fn start_start<K: ClauseKind>(
    problem: &Problem<'_, K>,
    effect: &ActionEffect<'_>,
    marks: &mut Assignment<'_>,
) -> bool
    requires size { length marks.old.roots ≡ width problem.now }
    ensures followed { IsFollowed (λ state. is_same (start_state problem.now.task)
        (over effect.now state) ≡ true) marks.old marks.new result }
    ensures settled { result ≡ true → AreSettled effect.now
        (clauses_of_state (width problem.now) problem.now.task.start) (marks_of marks.new) }
{
    for atom in 0..problem.atoms() {
        let literal = problem.start_literal(atom as u64);
        if !literals::force(literal, effect, marks) {
            return false;
        }
    }
    true
}

// Makes each atom of the goal true.
fn start_goal<K: ClauseKind>(
    problem: &Problem<'_, K>,
    effect: &ActionEffect<'_>,
    marks: &mut Assignment<'_>,
) -> bool
    requires size { length marks.old.roots ≡ width problem.now }
    ensures followed { IsFollowed (λ state. is_goal problem.now.task (over effect.now state) ≡ true)
        marks.old marks.new result }
    ensures settled { result ≡ true → AreSettled effect.now
        (map (λ atom. unit atom true) problem.now.task.goal) (marks_of marks.new) }
{
    let goal = problem.goal().as_slice();
    for atom in goal {
        let literal = choices::goal_literal(*atom);
        if !literals::force(literal, effect, marks) {
            return false;
        }
    }
    true
}

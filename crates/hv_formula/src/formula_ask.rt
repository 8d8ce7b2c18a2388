//! The question whether some state of a formula is in a cube that is made literal by literal. What
//! follows from what is assumed is on a trail, and is forgotten when it is taken back.
//!
//! The trail is in rows of its own, while a search takes those of the scratch and no memory: what
//! is in rows that are lent isn't known once the loan is over, and the question must know it from
//! call to call. How long it was before each literal that was put on it is kept, so that taking
//! back is one write.
//!
//! What is assumed is followed up only until something is known of the literal that comes next, and
//! to the end where a state is asked for. So where each literal implies many at once, those cost
//! nothing that are taken back before anything else is asked. A literal that is known isn't put on
//! the trail, and what is followed up after it stays when it is taken back; only before a literal
//! is put there all is followed up, so a way that is taken back to is never followed up twice.

ghost use Rattle.std.specs.Prelude.{◌≡◌, ◌≤◌, ◌||◌, [], Bool, List, IfOk, IfSome, None, false};
ghost use Rattle.std.specs.Prelude.{true, is_some, length, not};
ghost use Rattle.hv_sets.specs.Truth.{in_clauses};
ghost use Rattle.hv_formula.specs.Clausal.{in_formula};
ghost use Rattle.hv_formula.specs.Working.Asking.{IsAskedAlong};
ghost use Rattle.hv_propagation.specs.Chase.{AreKept, IsFollowed};
ghost use Rattle.hv_propagation.specs.Forced.{AreForced, AreNever};
ghost use Rattle.hv_propagation.specs.Completion.{IsCompleted};
ghost use Rattle.hv_propagation.specs.Marks.{known, over};
ghost use Rattle.hv_propagation.specs.Trail.{marks_of};

use crate::clause_kind::ClauseKind;
use crate::formula::Formula;
use hv_paths::Asker;
use hv_propagation::{Assignment, Constraint, Roots, propagation};
use hv_sets::{Literal, Scratch, StateSet};
use hv_task::State;
use std::alloc::{AllocError, Global};

/// The question whether some state of a formula is in a cube.
#[derive(Drop)]
pub struct FormulaAsk<'a, K: ClauseKind> {
    set: &'a Formula<K>,
    marks: Assignment<'a>,
    // How much of the trail is followed up.
    place: usize,
    // How long the trail was before each literal that was written, when all of it was followed up.
    starts: Vec<usize>,
    // What is assumed, and how many literals were written before each literal of it.
    literals: Vec<Literal>,
    counts: Vec<usize>,
    // Whether it was found out that no state of the formula agrees with what was written, and
    // whether the opposite of the last literal is known.
    broken: bool,
    clashes: bool,
}

impl<'a, K: ClauseKind> FormulaAsk<'a, K> {
    // The question with nothing assumed.
    pub(crate) fn new(alloc: Global, set: &'a Formula<K>) -> Result<FormulaAsk<'a, K>, AllocError>
        ensures stands { IfOk result (λ ask. ⟦<FormulaAsk<'a, K> as Asker>⟧.stands ask) }
        ensures atoms { IfOk result
            (λ ask. ⟦<FormulaAsk<'a, K> as Asker>⟧.atoms ask ≡ set.now.atoms) }
        ensures first { IfOk result (λ ask. ⟦<FormulaAsk<'a, K> as Asker>⟧.assumed ask ≡ []) }
        ensures wanted { IfOk result (λ ask. (s : List Bool)
            → ⟦<FormulaAsk<'a, K> as Asker>⟧.wanted ask s ≡ in_formula set.now s) }
    {
        match set.forced() {
            None => FormulaAsk::from(alloc, set, Roots::of(&[]), true),
            Some(forced) => FormulaAsk::from(alloc, set, Roots::of(forced), false),
        }
    }

    // The same from what follows from the clauses alone.
    fn from(
        alloc: Global,
        set: &'a Formula<K>,
        roots: Roots<'a>,
        broken: bool,
    ) -> Result<FormulaAsk<'a, K>, AllocError>
        requires never { broken ≡ true → AreNever set.now.atoms set.now.clauses }
        requires forced { broken ≡ false → AreForced set.now.atoms set.now.clauses roots }
        ensures stands { IfOk result (λ ask. ⟦<FormulaAsk<'a, K> as Asker>⟧.stands ask) }
        ensures atoms { IfOk result
            (λ ask. ⟦<FormulaAsk<'a, K> as Asker>⟧.atoms ask ≡ set.now.atoms) }
        ensures first { IfOk result (λ ask. ⟦<FormulaAsk<'a, K> as Asker>⟧.assumed ask ≡ []) }
        ensures wanted { IfOk result (λ ask. (s : List Bool)
            → ⟦<FormulaAsk<'a, K> as Asker>⟧.wanted ask s ≡ in_formula set.now s) }
    {
        let marks = Assignment::owned(alloc, set.atoms() as usize, roots)?;
        let starts = Vec::new(alloc);
        let literals = Vec::new(alloc);
        let counts = Vec::new(alloc);
        Ok(FormulaAsk {
            set,
            marks,
            place: 0,
            starts,
            literals,
            counts,
            broken,
            clashes: false,
        })
    }
}

impl<'a, K: ClauseKind> Asker for FormulaAsk<'a, K> {
    ghost atoms = { λ q. q.set.now.atoms };

    ghost wanted = { λ q. in_formula q.set.now };

    ghost stands = { λ q. IsAskedAlong q.set.now q.marks q.place q.starts.items q.literals.items
        q.counts.items q.broken q.clashes };

    ghost assumed = { λ q. q.literals.items };

    ghost alive = { λ q. not (q.broken || q.clashes) };

    fn depth(&self) -> usize {
        self.literals.len()
    }

    fn is_open(&self) -> bool {
        !is_either(self.broken, self.clashes)
    }

    fn assume(&mut self, literal: Literal) -> Result<(), AllocError> {
        let count = self.starts.len();
        self.counts.push(count)?;
        self.literals.push(literal)?;
        let set = self.set;
        let bare = set.bare();
        let Some(place) = seek(&bare, &mut self.marks, self.place, literal.atom) else {
            self.broken = true;
            return Ok(());
        };
        self.place = place;
        match self.marks.read(literal.atom) {
            Some(value) => self.clashes = value != literal.positive,
            None => {
                let start = self.marks.len();
                self.starts.push(start)?;
                self.marks.write(literal);
            }
        }
        Ok(())
    }

    fn take_back(&mut self, depth: usize) {
        let count = self.counts[depth];
        self.counts.truncate(depth);
        self.literals.truncate(depth);
        self.clashes = false;
        if count >= self.starts.len() {
            return;
        }
        let start = self.starts[count];
        self.marks.undo(start);
        self.place = start;
        self.starts.truncate(count);
        self.broken = false;
    }

    fn meets(&mut self, alloc: Global, scratch: &mut Scratch) -> Result<bool, AllocError> {
        let _ = alloc;
        scratch.reserve(self.set.atoms(), 0, 0)?;
        let set = self.set;
        let bare = set.bare();
        if !propagation::close(&bare, &mut self.marks, self.place) {
            self.broken = true;
            return Ok(false);
        }
        self.place = self.marks.len();
        Ok(complete_in(set, &mut self.marks, &mut scratch.state))
    }

    fn wants(&mut self, alloc: Global, held: &[u32], state: &State) -> Result<bool, AllocError> {
        let _ = alloc;
        let _ = held;
        Ok(self.set.holds(state))
    }
}

// Whether one of two things is so.
fn is_either(one: bool, other: bool) -> bool
    ensures { result ≡ (one || other) }
{
    one || other
}

// Follows up what the trail has from a place on, until something is known of the atom, or nothing
// more follows. The answer is the place that was come to, or None if no state that agrees with what
// was known meets the condition.
fn seek<C: Constraint>(
    constraint: &C,
    marks: &mut Assignment<'_>,
    from: usize,
    atom: u32,
) -> Option<usize>
    requires over { C.is_over constraint.now (length marks.old.roots) }
    requires from { from ≤ length marks.old.trail }
    requires left { C.left constraint.now marks.old from }
    ensures followed { IsFollowed (C.admits constraint.now) marks.old marks.new (is_some result) }
    ensures left { IfSome result (λ place. (place ≤ length marks.new.trail)
        × C.left constraint.now marks.new place) }
    ensures end { IfSome result (λ place. known (marks_of marks.new) atom ≡ None
        → place ≡ length marks.new.trail) }
{
    let mut place = from;
    while place < marks.len() {
        if marks.read(atom).is_some() {
            return Some(place);
        }
        if !constraint.visit(marks, place) {
            return None;
        }
        place += 1;
    }
    Some(place)
}

// Completes what is known to a state of the formula. The answer is false only if no state is in the
// formula. What is known stays as it was.
fn complete_in<K: ClauseKind>(
    set: &Formula<K>,
    marks: &mut Assignment<'_>,
    state: &mut State,
) -> bool
    requires size { length marks.old.roots ≡ set.now.atoms }
    requires state { length state.old ≡ set.now.atoms }
    requires left { AreKept [] set.now.clauses marks.old (length marks.old.trail) }
    ensures completed { IsCompleted (λ state. in_clauses set.now.clauses (over [] state) ≡ true)
        (marks_of marks.old) state.new result }
    ensures same { marks.new ≡ marks.old }
    ensures state { length state.new ≡ length state.old }
{
    let bare = set.bare();
    let point = marks.len();
    let met = propagation::complete(K::completion(), &bare, marks, state);
    marks.undo(point);
    met
}

//! Queries that are asked of formulas one after the other, and differ only in their actions.

ghost use Rattle.std.specs.Prelude.{◌≡◌, ◌<◌, ◌≤◌, ◌++◌, Bool, List, IfSome, false, length, true};
ghost use Rattle.std.specs.List.{All};
ghost use Rattle.hv_task.specs.Strips.{atoms};
ghost use Rattle.hv_sets.specs.Cost.{ClausesPass, IsAnswer};
ghost use Rattle.hv_sets.specs.Query.{IsNamed, is_clash};
ghost use Rattle.hv_clauses.specs.Inquiry.{asked_with};
ghost use Rattle.hv_clauses.specs.Store.{tests_of, sizes_of, AreOver, formula_at};
ghost use Rattle.hv_clauses.specs.Working.Early.{AreMeans, IsOpened};
ghost use Rattle.hv_clauses.specs.Working.Found.{IsFound};
ghost use Rattle.hv_clauses.specs.Working.Posed.{IsPosed, choices, formulas, width};

use crate::find::{self, Means, Searched};
use crate::formulas::Formulas;
use crate::opening::{self, Begun, Opening};
use crate::problem::Problem;
use crate::{affected, choices, literal_owners, refuted, start};
use hv_formula::ClauseKind;
use hv_propagation::{Assignment, Roots};
use hv_sets::{Finding, Query};
use hv_task::{State, Task};
use std::alloc::Global;
use std::marker::Model;

// So many actions in a row are looked at, whether they need a search, if each of them does.
const LOOKS: u32 = 8;

/// Asks formulas a query about a task for one action after the other. What serves all actions is
/// worked out once: the cost, which operand is asked about twice, and, after a first search that
/// came to the choices, what the positive operands say together, if all are asked about before the
/// action; that stays on the trail.
#[derive(Drop)]
pub struct ClauseInquiry<'a, K: ClauseKind> {
    problem: Problem<'a, K>,
    budget: u64,
    means: Means,
    opening: Opening,
    marks: Assignment<'a>,
    // Whether a search came through to the choices before: it cost what the opening costs.
    again: bool,
    // How many actions more are looked at unless one of them needs no search.
    looks: u32,
}

impl<'a, K: ClauseKind> Model for ClauseInquiry<'a, K> {
    ghost use Rattle.std.specs.Prelude.{◌≡◌, length};
    ghost use Rattle.hv_clauses.specs.Inquiry.{InquiryState};
    ghost use Rattle.hv_clauses.specs.Working.Early.{AreMeansWithin, IsOpened};
    ghost use Rattle.hv_clauses.specs.Working.Posed.{IsPosed, width};

    ghost Value = { InquiryState };

    ghost view = { λ q. record {
      task = q.problem.task;
      store = q.problem.store;
      positive = q.problem.query.positive;
      negative = q.problem.query.negative;
      budget = q.budget;
    } };

    ghost invariant = { λ q. IsPosed q.problem × AreMeansWithin q.problem q.budget q.means
        × (length q.marks.roots ≡ width q.problem) × IsOpened q.problem q.opening q.marks };
}

impl<'a, K: ClauseKind> ClauseInquiry<'a, K> {
    /// An inquiry of which nothing was asked. The action of the query isn't looked at. It takes
    /// memory only from what is given here, where there are many operands or some of both times,
    /// and does without where there is none.
    pub(crate) fn new(
        alloc: Option<Global>,
        store: &'a Formulas<K>,
        task: &'a Task,
        query: &'a Query,
        budget: u64,
        places: &'a mut [u32],
        queue: &'a mut [u32],
        watches: &'a mut [u32],
    ) -> ClauseInquiry<'a, K>
        requires named { All (λ o. IsNamed (length store.now) o.which)
            (query.now.positive ++ query.now.negative) }
        requires over { AreOver store.now (atoms task.now) }
        requires places { atoms task.now ≤ length places.old }
        requires queue { atoms task.now ≤ length queue.old }
        ensures task { result.task ≡ task.now }
        ensures store { result.store ≡ store.now }
        ensures positive { result.positive ≡ query.now.positive }
        ensures negative { result.negative ≡ query.now.negative }
        ensures budget { result.budget ≡ budget }
    {
        let problem = Problem::of(task, store, query);
        let means = Means {
            alloc,
            cost: choices::cost_within(&problem, budget),
            size: literal_owners::size_of(&problem),
            twin: refuted::asked_twice(&problem),
        };
        let atoms = problem.atoms() as usize;
        ClauseInquiry {
            problem,
            budget,
            means,
            opening: Opening::Unasked,
            marks: Assignment::from(atoms, Roots::of(&[]), places, queue, watches),
            again: false,
            looks: LOOKS,
        }
    }

    /// The exact answer to the query with this action: Over exactly where there are more choices of
    /// one clause of each negative operand than the budget; else Clash exactly where some state is
    /// a counterexample, which then is written; else Empty.
    pub fn ask(&mut self, action: Option<u32>, state: &mut State) -> Finding
        requires action { IfSome action (λ a. a < length self.old.task.actions) }
        requires state { length state.old ≡ atoms self.old.task }
        ensures answer { IsAnswer result (ClausesPass self.old.task
            (sizes_of (formula_at self.old.store))
            (asked_with self.old.positive self.old.negative action) self.old.budget)
            (atoms self.old.task) (is_clash self.old.task (tests_of (formula_at self.old.store))
            (asked_with self.old.positive self.old.negative action)) state.new }
        ensures state { length state.new ≡ length state.old }
        ensures same { self.new ≡ self.old }
    {
        let Some(cost) = self.means.cost else {
            return Finding::Over;
        };
        self.problem.turn_to(action);
        if is_idle(&self.problem, &self.means, self.looks, cost) {
            self.looks = LOOKS;
            return Finding::Empty;
        }
        self.looks = self.looks.saturating_sub(1);
        let problem = &mut self.problem;
        let marks = &mut self.marks;
        self.opening = opening::opened(problem, &self.means, self.again, self.opening, marks);
        let problem = &mut self.problem;
        let marks = &mut self.marks;
        let searched = search(problem, &self.means, cost, self.opening, marks, state);
        self.again = self.again | searched.through;
        if searched.met {
            return Finding::Clash;
        }
        Finding::Empty
    }
}

// Whether it shows without a search that no state is a counterexample: there is no choice, or the
// action turns no literal of the one operand that is asked about twice. The answer is false where
// no more actions are to be looked at.
fn is_idle<K: ClauseKind>(problem: &Problem<'_, K>, means: &Means, looks: u32, cost: u64) -> bool
    requires posed { IsPosed problem.now }
    requires means { AreMeans problem.now means.now }
    requires cost { cost ≡ choices problem.now }
    ensures { result ≡ true → (state : List Bool) → length state ≡ width problem.now
        → is_clash problem.now.task (tests_of (formulas problem.now)) problem.now.query state
        ≡ false }
{
    if looks == 0 {
        return false;
    }
    if cost == 0 {
        return true;
    }
    match means.twin {
        None => false,
        Some(operand) => !affected::is_touched(problem, operand),
    }
}

// Looks for a counterexample to the query as it is turned. What was opened stays.
fn search<'a, K: ClauseKind>(
    problem: &mut Problem<'a, K>,
    means: &Means,
    cost: u64,
    opening: Opening,
    marks: &mut Assignment<'a>,
    state: &mut State,
) -> Searched
    requires posed { IsPosed problem.old }
    requires means { AreMeans problem.old means.now }
    requires cost { cost ≡ choices problem.old }
    requires wide { length marks.old.roots ≡ width problem.old }
    requires opened { IsOpened problem.old opening marks.old }
    requires state { length state.old ≡ width problem.old }
    ensures found { IsFound result.met (width problem.old) (is_clash problem.old.task
        (tests_of (formulas problem.old)) problem.old.query) state.new }
    ensures same { problem.new ≡ problem.old }
    ensures wide { length marks.new.roots ≡ width problem.old }
    ensures opened { IsOpened problem.old opening marks.new }
    ensures state { length state.new ≡ length state.old }
{
    match opening {
        Opening::Never => Searched {
            met: false,
            through: false,
        },
        Opening::Closed => {
            let point = marks.len();
            let searched = find::search_from(problem, Begun::Early, means, cost, marks, state);
            marks.undo(point);
            searched
        }
        Opening::Unasked | Opening::Anew => {
            let Some(start) = start::start_of(problem) else {
                return Searched {
                    met: false,
                    through: false,
                };
            };
            let begun = Begun::From(start.operand);
            marks.start_over(start.roots);
            find::search_from(problem, begun, means, cost, marks, state)
        }
    }
}

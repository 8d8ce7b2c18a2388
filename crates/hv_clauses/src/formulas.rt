//! Stores of formulas.
//!
//! The trait of a store says which queries it answers: those that are ready, and, for a store that
//! wants one, that have an anchor. Besides that, only what exceeding the budget means is left to
//! each family, since the cost of a diagram is of another form.

ghost use Rattle.std.specs.Prelude.{◌≡◌, ◌<◌, ◌≤◌, ◌+◌, ◌++◌, ◌∷◌, [], ℕ, length, slice_get, Some};
ghost use Rattle.std.specs.Prelude.{IfOk, IfSome, OnErr, OnOk};
ghost use Rattle.std.specs.List.{All};
ghost use Rattle.hv_task.specs.Strips.{atoms};
ghost use Rattle.hv_sets.specs.Cost.{ClausesPass, IsAnswer, clauses_among};
ghost use Rattle.hv_sets.specs.Query.{IsNamed, IsReady, is_clash};
ghost use Rattle.hv_sets.specs.Room.{HasRoom, KeepsLengths};
ghost use Rattle.hv_clauses.specs.Store.{tests_of, sizes_of, AreOver, formula_at};
ghost use Rattle.hv_formula.specs.Working.Kinded.{IsKinded};

use crate::find;
use crate::inquiry::ClauseInquiry;
use hv_formula::{ClauseKind, Formula};
use hv_propagation::Completion;
use hv_sets::{Family, Finding, Operand, Query, Scratch, Which};
use hv_task::Task;
use std::alloc::{AllocError, Global};
use std::marker::Model;

/// The formulas of one kind of a proof, numbered from 0 in the order in which they were added.
#[derive(Drop)]
pub struct Formulas<K: ClauseKind> {
    sets: Vec<Formula<K>>,
}

impl<K: ClauseKind> Model for Formulas<K> {
    ghost use Rattle.std.specs.Prelude.{List};
    ghost use Rattle.std.specs.List.{All};
    ghost use Rattle.hv_formula.specs.Clausal.{FormulaState};
    ghost use Rattle.hv_formula.specs.Working.Kinded.{IsKinded};

    ghost Value = { List FormulaState };

    ghost view = { λ s. s.sets.items };

    ghost invariant = { λ s. All (IsKinded K.is_of) s.sets.items };
}

impl<K: ClauseKind> Formulas<K> {
    /// A store without sets.
    pub fn new(alloc: Global) -> Formulas<K>
        ensures { result ≡ [] }
    {
        Formulas {
            sets: Vec::new(alloc),
        }
    }

    /// Adds a set, and gives its number.
    pub fn add(&mut self, set: Formula<K>) -> Result<usize, AllocError>
        ensures number { IfOk result (λ number. number ≡ length self.old) }
        ensures ok { IfOk result (λ _. self.new ≡ self.old ++ set ∷ []) }
        ensures err { OnErr result (self.new ≡ self.old) }
    {
        let number = self.sets.len();
        // For its contract alone: the clauses are of the kind.
        let _ = set.clauses();
        self.sets.push(set)?;
        Ok(number)
    }

    /// How many sets there are.
    pub fn len(&self) -> usize
        ensures { result ≡ length self.now }
    {
        self.sets.len()
    }

    /// The set of this number.
    pub fn get(&self, place: usize) -> &Formula<K>
        requires { place < length self.now }
        ensures { slice_get self.now place ≡ Some result.now }
    {
        &self.sets[place]
    }

    // The same, with the clauses by number.
    pub(crate) fn set(&self, number: usize) -> &Formula<K>
        requires { number < length self.now }
        ensures clauses { result.now.clauses ≡ formula_at self.now number }
        ensures atoms { (n : ℕ) → AreOver self.now n → result.now.atoms ≡ n }
    {
        &self.sets[number]
    }

    // How settled marks are completed for its clauses, which are of the kind.
    pub(crate) fn completion(&self) -> Completion
        ensures how { result ≡ K.completed_by }
        ensures kinded { All (IsKinded K.is_of) self.now }
    {
        // For the invariant alone: the clauses are of the kind.
        let _ = &self.sets;
        K::completion()
    }

    /// Makes space for an inquiry about the query.
    pub fn make_room(
        &self,
        task: &Task,
        query: &Query,
        scratch: &mut Scratch,
    ) -> Result<(), AllocError>
        requires { All (λ o. IsNamed (length self.now) o.which) query.now.positive }
        ensures room { OnOk result (HasRoom (atoms task.now) 0 0 scratch.new) }
        ensures lengths { KeepsLengths scratch.old scratch.new }
    {
        let watches = self.watches(query.positive.as_slice());
        scratch.reserve(task.atoms(), 0, watches)
    }

    /// An inquiry about the query for one action after the other, whose own isn't looked at. It
    /// takes memory only from what is given here, for lists of the operands where there are many
    /// or of both times, and does without where there is none.
    pub fn inquire<'a>(
        &'a self,
        alloc: Option<Global>,
        task: &'a Task,
        query: &'a Query,
        budget: u64,
        places: &'a mut [u32],
        queue: &'a mut [u32],
        watches: &'a mut [u32],
    ) -> ClauseInquiry<'a, K>
        requires named { All (λ o. IsNamed (length self.now) o.which)
            (query.now.positive ++ query.now.negative) }
        requires over { AreOver self.now (atoms task.now) }
        requires places { atoms task.now ≤ length places.old }
        requires queue { atoms task.now ≤ length queue.old }
        ensures task { result.task ≡ task.now }
        ensures store { result.store ≡ self.now }
        ensures positive { result.positive ≡ query.now.positive }
        ensures negative { result.negative ≡ query.now.negative }
        ensures budget { result.budget ≡ budget }
    {
        ClauseInquiry::new(alloc, self, task, query, budget, places, queue, watches)
    }

    // How many entries the places take that looks into the clauses of these operands remember.
    fn watches(&self, operands: &[Operand]) -> usize
        requires { All (λ o. IsNamed (length self.now) o.which) operands.now }
    {
        let mut most = 0;
        for operand in operands {
            if let Which::Set(number) = operand.which {
                most = most.max(self.set(number).watches());
            }
        }
        most
    }

    /// The exact answer to a query, as `find` gives it. It takes no memory.
    pub fn find_in(&self, task: &Task, query: &Query, budget: u64, scratch: &mut Scratch) -> Finding
        requires ready { IsReady (length self.now) query.now }
        requires task { AreOver self.now (atoms task.now) }
        requires action { IfSome query.now.action (λ a. a < length task.now.actions) }
        requires room { HasRoom (atoms task.now)
            (length query.now.positive + length query.now.negative)
            (clauses_among task.now (sizes_of (formula_at self.now)) query.now.positive
            + clauses_among task.now (sizes_of (formula_at self.now)) query.now.negative)
            scratch.old }
        ensures answer { IsAnswer result
            (ClausesPass task.now (sizes_of (formula_at self.now)) query.now budget)
            (atoms task.now) (is_clash task.now (tests_of (formula_at self.now)) query.now)
            scratch.new.state }
        ensures state { length scratch.new.state ≡ length scratch.old.state }
        ensures lengths { KeepsLengths scratch.old scratch.new }
    {
        find::find_in(None, self, task, query, budget, scratch)
    }
}

impl<K: ClauseKind> Family for Formulas<K> {
    ghost has = { λ sets. tests_of (formula_at sets) };

    ghost is_over = { AreOver };

    ghost count = { λ sets. length sets };

    ghost wants_anchor = { λ _. ⊥ };

    ghost passes = { λ sets task query budget.
        ClausesPass task (sizes_of (formula_at sets)) query budget };

    fn find(
        &self,
        alloc: Global,
        task: &Task,
        query: &Query,
        budget: u64,
        scratch: &mut Scratch,
    ) -> Result<Finding, AllocError> {
        self.make_room(task, query, scratch)?;
        Ok(find::find_in(Some(alloc), self, task, query, budget, scratch))
    }
}

//! The formulas of a proof, each in the store of its family.
//!
//! A store takes lines and not the expressions of `e` lines alone, so that its contract can speak
//! of the lines of a table.

ghost use Rattle.std.specs.Prelude.{◌≡◌, ◌<◌, ◌++◌, ℕ, List, [], ◌∷◌, None, Some, IfOk, IfSome};
ghost use Rattle.std.specs.Prelude.{OnErr, OnOk, length, slice_get};
ghost use Rattle.std.specs.List.{All};
ghost use Rattle.hv_task.specs.Strips.{Strips, atoms};
ghost use Rattle.hv_propagation.specs.Clauses.{AreClauses};
ghost use Rattle.hv_explicit.specs.ListedStates.{AreStates};
ghost use Rattle.hv_lines.specs.Numbering.{IsNumbered, expr_count};
ghost use Rattle.hv_lines.specs.Queries.{named_by};
ghost use Rattle.hv_lines.specs.declared.formula_family.FormulaFamily.{FormulaFamily};
ghost use Rattle.hv_lines.specs.declared.line.Expr.TheVariants as E;
ghost use Rattle.hv_lines.specs.declared.line.Line.{Line};
ghost use Rattle.hv_lines.specs.declared.line.Line.TheVariants as L;
ghost use Rattle.hv_rows.specs.ActionRows.{AreActionRows};
ghost use Rattle.hv_basic.specs.ChangeRows.{AreChangeRows};
ghost use Rattle.hv_basic.specs.Stores.{AreChangesFor, AreRowsFor, CanBeStored, IsStoreOf};
ghost use Rattle.hv_basic.specs.Stores.{LineCanBeStored, formula, listing};
ghost use Rattle.hv_basic.specs.Stores.{with_expr, with_line, with_rows};
ghost use Rattle.hv_basic.specs.Working.Stores.{IsUnstored};

use crate::change_rows::{ChangeRows, change_rows};
use crate::families::{is_clause_formula, is_state_list};
use hv_clauses::Formulas;
use hv_explicit::{Explicit, Explicits};
use hv_formula::{ClauseKind, Formula};
use hv_horn::{DualHorns, Horns};
use hv_lines::{Constant, Expr, Line};
use hv_rows::action_rows;
use hv_sets::{Clauses, StateList, Which};
use hv_task::Task;
use hv_twocnf::LeanTwoCnfs;
use std::alloc::{AllocError, Global};
use std::marker::Model;

/// With the explicit set that comes after so many, the actions are put in rows by their
/// preconditions, and with the formula in clauses that does, by what they change.
const MANY: usize = 8;

/// The formulas of a proof, in the store of their family.
#[derive(Drop)]
pub struct Store {
    alloc: Global,
    horns: Horns,
    duals: DualHorns,
    twos: LeanTwoCnfs,
    listed: Explicits,
    // What the set of each `e` line is named by in the store of its family.
    names: Vec<Which>,
    // The actions in rows by atoms of their preconditions, once there are many explicit sets.
    rows: Option<Vec<Vec<u32>>>,
    // The actions in rows by atoms that they change, once there are many formulas in clauses.
    changes: Option<ChangeRows>,
}

impl Model for Store {
    ghost use Rattle.hv_basic.specs.Stores.{StoreState};

    ghost Value = { StoreState };

    ghost view = { λ s. record {
      horns = s.horns;
      duals = s.duals;
      twos = s.twos;
      listed = s.listed;
      names = s.names.items;
      rows = s.rows;
      changes = s.changes;
    } };
}

impl Store {
    /// A store without formulas.
    pub fn new(alloc: Global) -> Store
        ensures horns { result.horns ≡ [] }
        ensures duals { result.duals ≡ [] }
        ensures twos { result.twos ≡ [] }
        ensures listed { result.listed ≡ [] }
        ensures names { result.names ≡ [] }
        ensures rows { result.rows ≡ None }
        ensures changes { result.changes ≡ None }
        ensures none { (task : Strips) → IsStoreOf task [] result }
    {
        Store {
            alloc,
            horns: Horns::new(alloc),
            duals: DualHorns::new(alloc),
            twos: LeanTwoCnfs::new(alloc),
            listed: Explicits::new(alloc),
            names: Vec::new(alloc),
            rows: None,
            changes: None,
        }
    }

    /// Adds what the next line says: the formula of an `e` line goes to the store of its family,
    /// and nothing else is added. Stores that have the formulas of the lines before have those of
    /// all lines then. Once there are many explicit sets, or many formulas in clauses, the actions
    /// are put in rows.
    pub fn add_line(&mut self, task: &Task, line: &Line) -> Result<(), AllocError>
        requires { LineCanBeStored (atoms task.now) line.now }
        ensures ok { OnOk result (self.new
            ≡ with_rows (with_line (atoms task.now) self.old line.now) self.new.rows
            self.new.changes) }
        ensures err { OnErr result (self.new ≡ self.old) }
        ensures stands { OnOk result ((lines : List Line) → IsStoreOf task.now lines self.old
            → IsNumbered lines line.now → IsStoreOf task.now (line.now ∷ lines) self.new) }
    {
        match line {
            Line::Expr { expr, .. } => {
                let rows = self.rows_beside(task, expr)?;
                let changes = self.changes_beside(task, expr)?;
                self.add(task, expr)?;
                self.keep_rows(rows);
                self.keep_changes(changes);
                Ok(())
            }
            Line::Acts { .. } => Ok(()),
            Line::Known { .. } => Ok(()),
        }
    }

    /// Adds what the next `e` line says: its formula goes to the store of its family. Stores that
    /// have the formulas of the lines before have those of all lines then.
    pub fn add(&mut self, task: &Task, expr: &Expr) -> Result<(), AllocError>
        requires { CanBeStored (atoms task.now) expr.now }
        ensures ok { OnOk result (self.new ≡ with_expr (atoms task.now) self.old expr.now) }
        ensures err { OnErr result (self.new ≡ self.old) }
        ensures stands { OnOk result ((lines : List Line) (id : ℕ)
            → IsStoreOf task.now lines self.old → id ≡ expr_count lines
            → IsStoreOf task.now (L.Expr id expr.now ∷ lines) self.new) }
    {
        self.put(task, expr)?;
        Ok(())
    }

    /// The Horn formulas.
    pub(crate) fn horns(&self) -> &Horns
        ensures { result.now ≡ self.now.horns }
    {
        &self.horns
    }

    /// The dual Horn formulas.
    pub(crate) fn duals(&self) -> &DualHorns
        ensures { result.now ≡ self.now.duals }
    {
        &self.duals
    }

    /// The 2CNF formulas.
    pub(crate) fn twos(&self) -> &LeanTwoCnfs
        ensures { result.now ≡ self.now.twos }
    {
        &self.twos
    }

    /// The explicit sets.
    pub(crate) fn listed(&self) -> &Explicits
        ensures { result.now ≡ self.now.listed }
    {
        &self.listed
    }

    /// What the set of an `e` line is named by.
    pub(crate) fn name(&self, id: usize) -> Which
        requires { id < length self.now.names }
        ensures { slice_get self.now.names id ≡ Some result }
    {
        self.names[id]
    }

    /// The actions in rows by atoms of their preconditions, if they were made.
    pub(crate) fn rows(&self) -> Option<&[Vec<u32>]>
        ensures { (task : Strips) → AreRowsFor task self.now.rows
            → IfSome result (λ rows. AreActionRows task rows.now) }
    {
        match &self.rows {
            Some(rows) => Some(rows.as_slice()),
            None => None,
        }
    }

    // The actions in rows, where this is the set from which on they are worth it.
    fn rows_beside(&self, task: &Task, expr: &Expr) -> Result<Option<Vec<Vec<u32>>>, AllocError>
        ensures { IfOk result (AreRowsFor task.now) }
    {
        if self.listed.len() != MANY || !is_state_list(expr) {
            return Ok(None);
        }
        let rows = action_rows(self.alloc, task)?;
        Ok(Some(rows))
    }

    // Keeps the rows, if there are some.
    fn keep_rows(&mut self, rows: Option<Vec<Vec<u32>>>)
        ensures kept { self.new ≡ with_rows self.old self.new.rows self.old.changes }
        ensures rows { (task : Strips) → AreRowsFor task self.old.rows → AreRowsFor task rows
            → AreRowsFor task self.new.rows }
    {
        match rows {
            Some(made) => self.rows = Some(made),
            None => {}
        }
    }

    /// The actions in rows by atoms that they change, if they were made.
    pub(crate) fn changes(&self) -> Option<&ChangeRows>
        ensures { (task : Strips) → AreChangesFor task self.now.changes
            → IfSome result (λ changes. AreChangeRows task changes.now) }
    {
        match &self.changes {
            Some(changes) => Some(changes),
            None => None,
        }
    }

    // The actions in rows by what they change, where this is the formula from which on they are
    // worth it.
    fn changes_beside(&self, task: &Task, expr: &Expr) -> Result<Option<ChangeRows>, AllocError>
        ensures { IfOk result (AreChangesFor task.now) }
    {
        if self.in_clauses() != MANY || !is_clause_formula(expr) {
            return Ok(None);
        }
        let changes = change_rows(self.alloc, task)?;
        Ok(Some(changes))
    }

    // How many formulas in clauses there are.
    fn in_clauses(&self) -> usize {
        let both = self.horns.len().saturating_add(self.duals.len());
        both.saturating_add(self.twos.len())
    }

    // Keeps the rows by what is changed, if there are some.
    fn keep_changes(&mut self, changes: Option<ChangeRows>)
        ensures kept { self.new ≡ with_rows self.old self.old.rows self.new.changes }
        ensures changes { (task : Strips) → AreChangesFor task self.old.changes
            → AreChangesFor task changes → AreChangesFor task self.new.changes }
    {
        match changes {
            Some(made) => self.changes = Some(made),
            None => {}
        }
    }

    // What `add` does, without what it says of the lines before.
    fn put(&mut self, task: &Task, expr: &Expr) -> Result<(), AllocError>
        requires { CanBeStored (atoms task.now) expr.now }
        ensures ok { OnOk result (self.new ≡ with_expr (atoms task.now) self.old expr.now) }
        ensures err { OnErr result (self.new ≡ self.old) }
    {
        self.names.reserve(1)?;
        match expr {
            Expr::Horn(clauses) => {
                let number = add_formula(self.alloc, task, clauses, &mut self.horns)?;
                self.names.push_reserved(Which::Set(number));
                Ok(())
            }
            Expr::Dual(clauses) => {
                let number = add_formula(self.alloc, task, clauses, &mut self.duals)?;
                self.names.push_reserved(Which::Set(number));
                Ok(())
            }
            Expr::Two(clauses) => {
                let number = add_formula(self.alloc, task, clauses, &mut self.twos)?;
                self.names.push_reserved(Which::Set(number));
                Ok(())
            }
            Expr::States(states) => {
                let number = add_listing(self.alloc, task, states, &mut self.listed)?;
                self.names.push_reserved(Which::Set(number));
                Ok(())
            }
            Expr::Constant(_)
            | Expr::Node(_)
            | Expr::Not(_)
            | Expr::And(..)
            | Expr::Or(..)
            | Expr::After(..)
            | Expr::Before(..) => {
                self.names.push_reserved(name_of(expr));
                Ok(())
            }
        }
    }
}

/// Adds the formula of these clauses, and gives its number. It isn't inlined: what a set is made of
/// takes some 2 KB, which would be cleared for each line.
#[inline(never)]
fn add_formula<K: ClauseKind>(
    alloc: Global,
    task: &Task,
    clauses: &Clauses,
    into: &mut Formulas<K>,
) -> Result<usize, AllocError>
    requires below { AreClauses (atoms task.now) clauses.now }
    requires kind { All K.is_of clauses.now }
    ensures number { IfOk result (λ number. number ≡ length into.old) }
    ensures ok { OnOk result (into.new ≡ into.old ++ formula (atoms task.now) clauses.now ∷ []) }
    ensures err { OnErr result (into.new ≡ into.old) }
{
    let set = Formula::of_kind(alloc, task, clauses)?;
    let number = into.add(set)?;
    Ok(number)
}

/// Adds the explicit set of these states, and gives its number. It isn't inlined, like the other.
#[inline(never)]
fn add_listing(
    alloc: Global,
    task: &Task,
    states: &StateList,
    into: &mut Explicits,
) -> Result<usize, AllocError>
    requires { AreStates (atoms task.now) states.now }
    ensures number { IfOk result (λ number. number ≡ length into.old) }
    ensures ok { OnOk result (into.new ≡ into.old ++ listing (atoms task.now) states.now ∷ []) }
    ensures err { OnErr result (into.new ≡ into.old) }
{
    let set = Explicit::new(alloc, task, states)?;
    let number = into.add(set)?;
    Ok(number)
}

/// What the set is named by that isn't put into a store.
fn name_of(expr: &Expr) -> Which
    requires { IsUnstored expr.now }
    ensures { (counts : FormulaFamily → ℕ) → result ≡ named_by counts expr.now }
{
    match expr {
        Expr::Node(node) => Which::Set(*node as usize),
        Expr::Constant(constant) => constant_of(*constant),
        Expr::Not(_) | Expr::And(..) | Expr::Or(..) | Expr::After(..) | Expr::Before(..) => {
            Which::Empty
        }
        Expr::Horn(_) | Expr::Dual(_) | Expr::Two(_) | Expr::States(_) => unreachable!(),
    }
}

fn constant_of(constant: Constant) -> Which
    ensures { (counts : FormulaFamily → ℕ) → result ≡ named_by counts (E.Constant constant) }
{
    match constant {
        Constant::Empty => Which::Empty,
        Constant::Start => Which::Start,
        Constant::Goal => Which::Goal,
    }
}

//! One piece of a proof: read, and tested after the lines accepted before it.

ghost use Rattle.std.specs.Prelude.{◌≡◌, ◌∷◌, ◌≤◌, ℕ, [], Some, IfOk, MatchOption, OnErr, OnOk};
ghost use Rattle.hv_lines.specs.Spelling.{IsSpelled};
ghost use Rattle.hv_lines.specs.Numbering.{RefersBack, SpeaksBelow, acts_count, expr_count};
ghost use Rattle.hv_lines.specs.Good.{AreGood, IsGood};
ghost use Rattle.hv_lines.specs.Working.Good.{IsFormed, IsReasonOf};
ghost use Rattle.hv_lines.specs.Setting.{setting_of};
ghost use Rattle.hv_lines.specs.Working.Setting.{IsSetting};
ghost use Rattle.hv_checker.specs.Working.PieceVerdicts.{IsBasicFault, IsLineFault};
ghost use Rattle.hv_checker.specs.Working.PieceVerdicts.{IsPlainFeedAnswer, fault_by};
ghost use Rattle.hv_checker.specs.Working.Judge.{SaysNoSet};
ghost use Rattle.hv_checker.specs.Stopping.{stop_after};
ghost use Rattle.hv_checker.specs.Texts.{text_of};
ghost use Rattle.hv_checker.specs.declared.piece.Fed.TheVariants as F;
ghost use Rattle.hv_checker.specs.declared.stop.Stop.TheVariants as S;

use crate::conditions::{family_fits, is_known, is_numbered};
use crate::piece::{Fed, Piece};
use crate::stop::Stop;
use hv_basic::{Case, ShapeFault, Shared, Store, verdict_of};
use hv_bdd::Diagrams;
use hv_lines::{Line, Reason, Statement, Table, Verdict, Word};
use hv_proof_text::{LineError, LineReader};
use hv_rules::{is_rule, rule_fits};
use hv_task::Task;
use std::alloc::{AllocError, Global};
use std::marker::Model;

/// What pieces are judged with: a task, the nodes of a node file and a budget, the lines that were
/// accepted, and what is kept of them.
#[derive(Drop)]
pub(crate) struct Judge<'a> {
    alloc: Global,
    task: &'a Task,
    diagrams: &'a Diagrams,
    budget: u64,
    table: Table,
    store: Store,
    shared: Shared,
}

impl<'a> Model for Judge<'a> {
    ghost use Rattle.hv_lines.specs.Setting.{setting_of};
    ghost use Rattle.hv_checker.specs.Working.Judge.{JudgeState, IsJudge};

    ghost Value = { JudgeState };

    ghost view = { λ b. record {
      setting = setting_of b.task.now b.diagrams.now b.budget;
      lines = b.table.lines;
    } };

    ghost invariant = { λ b. IsJudge record {
      setting = setting_of b.task.now b.diagrams.now b.budget;
      lines = b.table.lines;
    } b.store b.shared };
}

impl<'a> Judge<'a> {
    /// Nothing was accepted.
    pub(crate) fn new(
        alloc: Global,
        task: &'a Task,
        diagrams: &'a Diagrams,
        budget: u64,
    ) -> Result<Judge<'a>, AllocError>
        requires { IsSetting (setting_of task.now diagrams.now budget) }
        ensures setting { IfOk result (λ b.
            b.setting ≡ setting_of task.now diagrams.now budget) }
        ensures lines { IfOk result (λ b. b.lines ≡ []) }
    {
        Ok(Judge {
            alloc,
            task,
            diagrams,
            budget,
            table: Table::new(alloc),
            store: Store::new(alloc),
            shared: Shared::new(alloc)?,
        })
    }
}

impl Judge<'_> {
    /// The accepted lines.
    pub(crate) fn table(&self) -> &Table
        ensures lines { result.now.lines ≡ self.now.lines }
        ensures good { AreGood self.now.setting self.now.lines }
    {
        &self.table
    }

    /// Judges the piece. A good line is accepted; at a refusal `stop` is written.
    #[inline(always)]
    pub(crate) fn accept(
        &mut self,
        reader: &mut LineReader,
        stop: &mut Stop,
        piece: Piece<'_>,
    ) -> Result<Fed, AllocError>
        ensures setting { self.new.setting ≡ self.old.setting }
        ensures accepted { IfOk result (λ fed. IsPlainFeedAnswer self.old.setting
            self.old.lines self.new.lines (text_of piece.entry) fed) }
        ensures stop { IfOk result (λ fed. stop.new ≡ stop_after stop.old fed) }
        ensures lines { OnErr result (self.new.lines ≡ self.old.lines) }
    {
        match piece {
            Piece::Long => refused(self.alloc, stop, Reason::Long),
            Piece::Line(bytes) => self.accept_line(reader, stop, bytes),
        }
    }

    // The line is tested where it was read, and then moved once, into the table.
    fn accept_line(
        &mut self,
        reader: &mut LineReader,
        stop: &mut Stop,
        bytes: &[u8],
    ) -> Result<Fed, AllocError>
        ensures setting { self.new.setting ≡ self.old.setting }
        ensures accepted { IfOk result (λ fed. IsPlainFeedAnswer self.old.setting
            self.old.lines self.new.lines (Some bytes.now) fed) }
        ensures stop { IfOk result (λ fed. stop.new ≡ stop_after stop.old fed) }
        ensures lines { OnErr result (self.new.lines ≡ self.old.lines) }
    {
        let line = match reader.read(self.alloc, bytes) {
            Ok(Some(line)) => line,
            Ok(None) => return Ok(Fed::Skipped),
            Err(LineError::Grammar) => return refused(self.alloc, stop, Reason::Grammar),
            Err(LineError::Memory) => return Err(AllocError),
        };
        if let Some(reason) = self.fault(&line)? {
            return refused(self.alloc, stop, reason);
        }
        self.keep(line)?;
        Ok(Fed::Good)
    }

    // Puts a good line into the table, and the set of an `e` line into the store. Running out of
    // memory leaves the table as it was. What is kept for the statements stays right.
    fn keep(&mut self, line: Line) -> Result<(), AllocError>
        requires { IsGood self.old.setting self.old.lines line }
        ensures setting { self.new.setting ≡ self.old.setting }
        ensures ok { OnOk result (self.new.lines ≡ line ∷ self.old.lines) }
        ensures err { OnErr result (self.new.lines ≡ self.old.lines) }
    {
        match &line {
            Line::Expr { .. } => self.keep_set(line),
            Line::Acts { .. } => self.keep_alone(line),
            Line::Known { .. } => self.keep_alone(line),
        }
    }

    // The same of a line that says no set.
    fn keep_alone(&mut self, line: Line) -> Result<(), AllocError>
        requires good { IsGood self.old.setting self.old.lines line }
        requires no_set { SaysNoSet line }
        ensures setting { self.new.setting ≡ self.old.setting }
        ensures ok { OnOk result (self.new.lines ≡ line ∷ self.old.lines) }
        ensures err { OnErr result (self.new.lines ≡ self.old.lines) }
    {
        self.table.push(line)?;
        Ok(())
    }

    // The same of a line that says a set. Room comes first, so that nothing fails behind the store.
    fn keep_set(&mut self, line: Line) -> Result<(), AllocError>
        requires { IsGood self.old.setting self.old.lines line }
        ensures setting { self.new.setting ≡ self.old.setting }
        ensures ok { OnOk result (self.new.lines ≡ line ∷ self.old.lines) }
        ensures err { OnErr result (self.new.lines ≡ self.old.lines) }
    {
        self.table.reserve(1)?;
        self.store.add_line(self.task, &line)?;
        self.table.push(line)?;
        Ok(())
    }

    // The first test that the line fails.
    fn fault(&mut self, line: &Line) -> Result<Option<Reason>, AllocError>
        requires { IsSpelled line.now }
        ensures same { self.new ≡ self.old }
        ensures fault { IfOk result
            (λ f. IsLineFault self.old.setting self.old.lines line.now f) }
    {
        if let Some(reason) = fault_in_form(self.task, self.diagrams, &self.table, line) {
            return Ok(Some(reason));
        }
        self.fault_in_meaning(line)
    }

    // The first test that the line fails, of those that look at the lines that it refers to.
    fn fault_in_meaning(&mut self, line: &Line) -> Result<Option<Reason>, AllocError>
        requires formed { IsFormed self.old.setting self.old.lines line.now }
        requires back { RefersBack self.old.lines line.now }
        ensures same { self.new ≡ self.old }
        ensures fault { IfOk result
            (λ f. IsLineFault self.old.setting self.old.lines line.now f) }
    {
        match line {
            Line::Acts { .. } => Ok(None),
            Line::Expr { .. } => Ok(None),
            Line::Known {
                statement,
                word,
                premises,
                ..
            } => {
                if !is_rule(*word) {
                    let fault = self.fault_of_basic(statement, *word)?;
                    return Ok(fault);
                }
                if !rule_fits(self.table(), statement, *word, premises) {
                    return Ok(Some(Reason::Rule));
                }
                Ok(None)
            }
        }
    }

    // The first test that a basic statement with its word fails.
    fn fault_of_basic(
        &mut self,
        statement: &Statement,
        word: Word,
    ) -> Result<Option<Reason>, AllocError>
        requires { SpeaksBelow (acts_count self.old.lines) (expr_count self.old.lines)
            statement.now }
        ensures same { self.new ≡ self.old }
        ensures fault { IfOk result
            (λ f. IsBasicFault self.old.setting self.old.lines statement.now word f) }
    {
        let case = Case {
            task: self.task,
            table: &self.table,
            diagrams: self.diagrams,
            store: &self.store,
            budget: self.budget,
        };
        let verdict = match verdict_of(self.alloc, &case, &mut self.shared, statement, word) {
            Ok(verdict) => verdict,
            Err(ShapeFault::Shape) => return Ok(Some(Reason::Shape)),
            Err(ShapeFault::Memory) => return Err(AllocError),
        };
        Ok(reason_by(verdict))
    }
}

// The answer to a piece that is refused for this reason, which is kept.
#[cold]
fn refused(alloc: Global, stop: &mut Stop, reason: Reason) -> Result<Fed, AllocError>
    ensures { IfOk result (λ fed. (fed ≡ F.Refused reason) × (stop.new ≡ S.Refused reason)) }
{
    let kept = reason.copy(alloc)?;
    *stop = Stop::Refused(kept);
    Ok(Fed::Refused(reason))
}

// The first test that the line fails, of those that look at its form and its numbers.
fn fault_in_form(task: &Task, diagrams: &Diagrams, table: &Table, line: &Line) -> Option<Reason>
    requires { IsSpelled line.now }
    ensures { (budget : ℕ) → MatchOption result
        (IsFormed (setting_of task.now diagrams.now budget) table.now.lines line.now)
        (λ reason. IsReasonOf (setting_of task.now diagrams.now budget) table.now.lines line.now
        reason) }
{
    if !is_numbered(table, line) {
        return Some(Reason::Number);
    }
    if !is_known(task, diagrams, table, line) {
        return Some(Reason::Unknown);
    }
    if !family_fits(line) {
        return Some(Reason::Family);
    }
    None
}

/// The reason that a verdict gives, if it gives one.
fn reason_by(verdict: Verdict) -> Option<Reason>
    ensures { result ≡ fault_by verdict }
{
    match verdict {
        Verdict::True => None,
        Verdict::False(clash) => Some(Reason::False(clash)),
        Verdict::Over => Some(Reason::Budget),
        Verdict::NotOffered => Some(Reason::NotOffered),
    }
}

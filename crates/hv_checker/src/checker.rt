//! The checker: what it has accepted, and what it was fed.
//!
//! For a line it reserves in the table, adds to the store, and pushes, so running out of memory
//! leaves the table and the store with the same lines. `feed` gives the reason of a refused piece,
//! and `Checker::reason` lends it.

ghost use Rattle.std.specs.Prelude.{◌≡◌, ◌≢◌, ◌<◌, ◌≤◌, ◌+◌, ◌^◌, ◌↔◌, ℕ, List, [], ◌∷◌, ◌++◌};
ghost use Rattle.std.specs.Prelude.{IfOk, OnOk, OnErr, IsTrue, option_copied, option_map};
ghost use Rattle.hv_task.specs.Plan.{IsUnsolvable};
ghost use Rattle.hv_task.specs.Strips.{atoms};
ghost use Rattle.hv_lines.specs.Meaning.{AllTrue, AreTrue};
ghost use Rattle.hv_lines.specs.Good.{AreGood};
ghost use Rattle.hv_lines.specs.Judged.{Concludes, LineText};
ghost use Rattle.hv_lines.specs.Setting.{most_budget, setting_of};
ghost use Rattle.hv_lines.specs.Versions.{part_after};
ghost use Rattle.hv_lines.specs.declared.part.Part.TheVariants as P;
ghost use Rattle.hv_checker.specs.Stopping.{stop_after};
ghost use Rattle.hv_checker.specs.declared.stop.Stop.TheVariants as S;

use crate::marks::{is_mark, judged_as, part_after};
use crate::piece::{End, Fed, Piece};
use crate::piece_judge::Judge;
use crate::stop::Stop;
use hv_bdd::Diagrams;
use hv_lines::{Part, Reason, Statement, Table};
use hv_proof_text::LineReader;
use hv_task::Task;
use std::alloc::{AllocError, Global};
use std::marker::Model;

/// Judges the lines of a proof one after another, for a task, the nodes of a node file and a
/// budget. It keeps the accepted lines, the number of pieces that it was fed, the version of the
/// proof and whether its line `end` was passed, and the refusal that it met, or that memory ran
/// out.
#[derive(Drop)]
pub struct Checker<'a> {
    judging: Judge<'a>,
    reader: LineReader,
    fed: u64,
    part: Part,
    stop: Stop,
    // Why a closed proof without its line `end` is refused: `reason` lends it.
    missing_end: Reason,
}

impl<'a> Model for Checker<'a> {
    ghost use Rattle.std.specs.Prelude.{◌≡◌, ◌≤◌, ◌^◌};
    ghost use Rattle.hv_lines.specs.declared.reason.Reason.TheVariants as R;
    ghost use Rattle.hv_checker.specs.Checkers.{CheckerState};

    ghost Value = { CheckerState };

    ghost view = { λ c. record {
      setting = c.judging.setting;
      lines = c.judging.lines;
      fed = c.fed;
      part = c.part;
      stop = c.stop;
    } };

    ghost invariant = { λ c. (c.fed ≤ 2 ^ 62) × (c.missing_end ≡ R.Grammar) };
}

impl<'a> Checker<'a> {
    ghost use Rattle.hv_checker.specs.PieceVerdicts.{IsFeedAnswer};
    ghost use Rattle.hv_checker.specs.Checkers.{SaysEnd, SaysAtEnd, HasJudged, refusal_of};
    ghost use Rattle.hv_checker.specs.Texts.{text_of};

    /// A checker that was fed nothing. The diagrams are over the atoms of the task. The budget
    /// bounds the cost of each query of a basic statement; it is from 1 to 16,777,216.
    pub fn new(
        alloc: Global,
        task: &'a Task,
        diagrams: &'a Diagrams,
        budget: u64,
    ) -> Result<Checker<'a>, AllocError>
        requires over { diagrams.now.atoms ≡ atoms task.now }
        requires some { 0 < budget }
        requires small { budget ≤ most_budget }
        ensures setting { IfOk result (λ c. c.setting ≡ setting_of task.now diagrams.now budget) }
        ensures lines { IfOk result (λ c. c.lines ≡ []) }
        ensures fed { IfOk result (λ c. c.fed ≡ 0) }
        ensures part { IfOk result (λ c. c.part ≡ P.AtStart) }
        ensures stop { IfOk result (λ c. c.stop ≡ S.Going) }
        ensures stands { IfOk result (λ c. HasJudged c []) }
    {
        Ok(Checker {
            judging: Judge::new(alloc, task, diagrams, budget)?,
            reader: LineReader::new(alloc),
            fed: 0,
            part: Part::AtStart,
            stop: Stop::Going,
            missing_end: Reason::Grammar,
        })
    }

    /// How many pieces were fed, up to and including the first that was refused or met want of
    /// memory.
    pub fn fed(&self) -> u64
        ensures { result ≡ self.now.fed }
    {
        self.fed
    }

    /// Judges one more piece. The marks of a closed proof are its line 1 `helve 2` and its first
    /// line `end` behind that; behind this one only empty lines and comments may come. After a
    /// refusal and after running out of memory the accepted lines are as before the call, and every
    /// later piece is answered by `Stopped`.
    pub fn feed(&mut self, piece: Piece<'_>) -> Result<Fed, AllocError>
        requires { self.old.fed < 2 ^ 62 }
        ensures same { self.new.setting ≡ self.old.setting }
        ensures answers { self.old.stop ≡ S.Going → IfOk result (λ fed.
            IsFeedAnswer self.old.setting self.old.part self.old.lines self.new.lines
            (text_of piece.entry) fed) }
        ensures part { self.old.stop ≡ S.Going
            → self.new.part ≡ part_after self.old.part (text_of piece.entry) }
        ensures stop { IfOk result (λ fed. self.new.stop ≡ stop_after self.old.stop fed) }
        ensures stopped { self.old.stop ≢ S.Going → (result ≡ Ok Fed.Stopped)
            × (self.new ≡ self.old) }
        ensures counted { self.old.stop ≡ S.Going → self.new.fed ≡ self.old.fed + 1 }
        ensures few { self.new.fed ≤ self.old.fed + 1 }
        ensures memory { OnErr result (self.new.stop ≡ S.Memory) }
        ensures lines { OnErr result (self.new.lines ≡ self.old.lines) }
        ensures stands { OnOk result ((pieces : List LineText) → HasJudged self.old pieces
            → HasJudged self.new (pieces ++ text_of piece.entry ∷ [])) }
    {
        if !is_going(&self.stop) {
            return Ok(Fed::Stopped);
        }
        self.fed += 1;
        let part = self.part;
        self.part = part_after(part, piece);
        if is_mark(part, piece) {
            return Ok(Fed::Marked);
        }
        match self
            .judging
            .accept(&mut self.reader, &mut self.stop, judged_as(part, piece))
        {
            Ok(fed) => Ok(fed),
            Err(error) => {
                self.stop = Stop::Memory;
                Err(error)
            }
        }
    }

    /// What is said of the pieces fed so far as a whole proof. While a closed proof has no line
    /// `end` and nothing was refused, it is refused at the next piece, as no line of a proof.
    pub fn end(&self) -> End
        ensures judged { (pieces : List LineText) → HasJudged self.now pieces
            → SaysEnd self.now pieces result }
        ensures says { SaysAtEnd self.now result }
        ensures sound { result ≡ End.Unsolvable → IsUnsolvable self.now.setting.task }
    {
        match &self.stop {
            Stop::Refused(_) => End::Refused(self.fed),
            Stop::Memory => End::Memory,
            Stop::Going => {
                if is_before_end(self.part) {
                    End::Refused(self.fed + 1)
                } else if concludes(self.judging.table()) {
                    End::Unsolvable
                } else {
                    End::NoConclusion
                }
            }
        }
    }

    /// Why a piece was refused, where one was, or why the pieces fed so far are as a whole proof.
    pub fn reason(&self) -> Option<&Reason>
        ensures { option_copied result ≡ option_map (λ r. r.reason) (refusal_of self.now) }
    {
        match &self.stop {
            Stop::Refused(reason) => Some(reason),
            Stop::Going if is_before_end(self.part) => Some(&self.missing_end),
            Stop::Going | Stop::Memory => None,
        }
    }

    /// The accepted lines. Each statement that they claim is true.
    pub fn table(&self) -> &Table
        ensures lines { result.now.lines ≡ self.now.lines }
        ensures good { AreGood self.now.setting self.now.lines }
        ensures sound { AllTrue self.now.setting.task self.now.setting.nodes self.now.lines }
        ensures each { AreTrue self.now.setting.task self.now.setting.nodes self.now.lines }
    {
        self.judging.table()
    }
}

fn is_going(stop: &Stop) -> bool
    ensures { IsTrue result ↔ (stop.now ≡ S.Going) }
{
    match stop {
        Stop::Going => true,
        Stop::Refused(_) | Stop::Memory => false,
    }
}

/// Whether a closed proof is read, but not its line `end`.
fn is_before_end(part: Part) -> bool
    ensures { IsTrue result ↔ (part ≡ P.BeforeEnd) }
{
    match part {
        Part::BeforeEnd => true,
        Part::AtStart | Part::Open | Part::PastEnd => false,
    }
}

/// Whether some line says that the task is unsolvable.
fn concludes(table: &Table) -> bool
    ensures { IsTrue result ↔ Concludes table.now.lines }
{
    for premise in 0..table.known_count() {
        if let Statement::Unsolvable = table.statement(premise) {
            return true;
        }
    }
    false
}

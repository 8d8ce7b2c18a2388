//! The lines of a proof in order, found by their letters and identifiers.
//!
//! A table can take its memory first (`reserve`): a `push` where there is capacity succeeds. So a
//! store beside the table can reserve, add and push, and the two never come apart.
//!
//! Places among the lines are numbers of 32 bits: for more than 4,294,967,296 lines there is no
//! capacity, and they are answered as out of memory.

ghost use Rattle.std.specs.Prelude.{◌≡◌, ◌<◌, ◌≤◌, ◌+◌, ◌-◌, ◌^◌, min, ◌↔◌, ◌++◌, [], ◌∷◌, length};
ghost use Rattle.std.specs.Prelude.{reverse, slice_get, vec_len, Some, IsTrue, OnOk, OnErr};
ghost use Rattle.hv_lines.specs.Literals.{IsFormula, IsConstantExpr, IsPlainExpr, IsLiteral};
ghost use Rattle.hv_lines.specs.Numbering.{acts_count, expr_count, known_count, acts_at, expr_at};
ghost use Rattle.hv_lines.specs.Numbering.{statement_at, word_at, premises_at, ActsReferBelow};
ghost use Rattle.hv_lines.specs.Numbering.{ExprRefersBelow, SpeaksBelow, MayFollow, IsTable};
ghost use Rattle.hv_lines.specs.Working.TableState.{room_of};
ghost use Rattle.hv_task.specs.State.{AreBelow};

use crate::line::{Acts, Expr, Line, Statement, Word};
use crate::premises::Premises;
use std::alloc::{AllocError, Global};
use std::marker::Model;

/// So many places are numbers of 32 bits.
const MOST_PLACES: usize = 4_294_967_296;

/// The lines of a proof, found by their identifiers and by their places.
#[derive(Drop)]
pub struct Table {
    lines: Vec<Line>,
    /// Where the `a` line of each identifier is among the lines.
    acts: Vec<u32>,
    /// Where the `e` line of each identifier is among the lines.
    exprs: Vec<u32>,
    /// Where the `k` line of each identifier is among the lines.
    knowns: Vec<u32>,
}

impl Model for Table {
    ghost use Rattle.std.specs.Prelude.{◌-◌, ◌^◌, min, reverse, vec_len, vec_capacity};
    ghost use Rattle.hv_lines.specs.TableState.{TableState};
    ghost use Rattle.hv_lines.specs.Working.TableState.{IsIndexed, room_of};

    ghost Value = { TableState };

    ghost view = { λ t. record {
      lines = reverse t.lines.items;
      room = min (room_of t.lines)
          (min (room_of t.acts) (min (room_of t.exprs)
          (min (room_of t.knowns) (2 ^ 32 - vec_len t.lines))));
    } };

    ghost invariant = { λ t.
        IsIndexed t.lines.items (reverse t.lines.items) t.acts.items t.exprs.items t.knowns.items };
}

impl Table {
    /// A table without lines.
    pub fn new(alloc: Global) -> Table
        ensures { result.lines ≡ [] }
    {
        Table {
            lines: Vec::new(alloc),
            acts: Vec::new(alloc),
            exprs: Vec::new(alloc),
            knowns: Vec::new(alloc),
        }
    }

    /// Takes the memory for so many further lines. There is none for more than 4,294,967,296 in
    /// all.
    pub fn reserve(&mut self, lines: usize) -> Result<(), AllocError>
        ensures room { OnOk result (lines ≤ self.new.room) }
        ensures more { self.old.room ≤ self.new.room }
        ensures lines { self.new.lines ≡ self.old.lines }
    {
        match self.lines.len().checked_add(lines) {
            Some(all) if all <= MOST_PLACES => {}
            _ => return Err(AllocError),
        }
        self.lines.reserve(lines)?;
        self.acts.reserve(lines)?;
        self.exprs.reserve(lines)?;
        self.knowns.reserve(lines)?;
        Ok(())
    }

    /// Puts the line last. Its identifier is the number of earlier lines of its letter, and it
    /// refers to earlier lines alone. Where room was reserved it takes no memory, and uses up room
    /// for one line at most.
    pub fn push(&mut self, line: Line) -> Result<(), AllocError>
        requires { MayFollow self.old.lines line }
        ensures ok { OnOk result (self.new.lines ≡ line ∷ self.old.lines) }
        ensures err { OnErr result (self.new.lines ≡ self.old.lines) }
        ensures full { OnErr result (self.old.room ≡ 0) }
        ensures room { self.old.room ≤ self.new.room + 1 }
    {
        match &line {
            Line::Acts { .. } => {
                push_both(&mut self.lines, &mut self.acts, line)?;
                Ok(())
            }
            Line::Expr { .. } => {
                push_both(&mut self.lines, &mut self.exprs, line)?;
                Ok(())
            }
            Line::Known { .. } => {
                push_both(&mut self.lines, &mut self.knowns, line)?;
                Ok(())
            }
        }
    }

    /// How many lines there are, of all letters.
    pub fn len(&self) -> usize
        ensures length { result ≡ length self.now.lines }
        ensures small { result < 2 ^ 63 }
        ensures table { IsTable self.now.lines }
    {
        self.lines.len()
    }

    /// Whether there is no line.
    pub fn is_empty(&self) -> bool
        ensures { IsTrue result ↔ (self.now.lines ≡ []) }
    {
        self.lines.is_empty()
    }

    /// The line at a place from 0, in the order in which the lines were pushed.
    pub fn line(&self, place: usize) -> &Line
        requires { place < length self.now.lines }
        ensures { slice_get (reverse self.now.lines) place ≡ Some result.now }
    {
        &self.lines[place]
    }

    /// How many `a` lines there are: their identifiers are the numbers below it.
    pub fn acts_count(&self) -> usize
        ensures count { result ≡ acts_count self.now.lines }
        ensures small { result < 2 ^ 63 }
        ensures table { IsTable self.now.lines }
    {
        self.acts.len()
    }

    /// How many `e` lines there are: their identifiers are the numbers below it.
    pub fn expr_count(&self) -> usize
        ensures count { result ≡ expr_count self.now.lines }
        ensures small { result < 2 ^ 63 }
        ensures table { IsTable self.now.lines }
    {
        self.exprs.len()
    }

    /// How many `k` lines there are: their identifiers are the numbers below it.
    pub fn known_count(&self) -> usize
        ensures count { result ≡ known_count self.now.lines }
        ensures small { result < 2 ^ 63 }
        ensures table { IsTable self.now.lines }
    {
        self.knowns.len()
    }

    /// What the `a` line of the identifier says.
    pub fn acts(&self, id: usize) -> &Acts
        requires { id < acts_count self.now.lines }
        ensures says { acts_at self.now.lines id ≡ Some result.now }
        ensures before { ActsReferBelow id result.now }
        ensures below { ActsReferBelow (acts_count self.now.lines) result.now }
        ensures table { IsTable self.now.lines }
    {
        match &self.lines[self.acts[id] as usize] {
            Line::Acts { acts, .. } => acts,
            _ => unreachable!(),
        }
    }

    /// What the `e` line of the identifier says.
    pub fn expr(&self, id: usize) -> &Expr
        requires { id < expr_count self.now.lines }
        ensures says { expr_at self.now.lines id ≡ Some result.now }
        ensures before { ExprRefersBelow (acts_count self.now.lines) id result.now }
        ensures below { ExprRefersBelow (acts_count self.now.lines)
            (expr_count self.now.lines) result.now }
        ensures table { IsTable self.now.lines }
    {
        match &self.lines[self.exprs[id] as usize] {
            Line::Expr { expr, .. } => expr,
            _ => unreachable!(),
        }
    }

    /// What the `k` line of the identifier claims.
    pub fn statement(&self, id: usize) -> &Statement
        requires { id < known_count self.now.lines }
        ensures says { statement_at self.now.lines id ≡ Some result.now }
        ensures below { SpeaksBelow (acts_count self.now.lines)
            (expr_count self.now.lines) result.now }
    {
        self.known(id).statement
    }

    /// The word by which the `k` line of the identifier is justified.
    pub fn word(&self, id: usize) -> Word
        requires { id < known_count self.now.lines }
        ensures { word_at self.now.lines id ≡ Some result }
    {
        self.known(id).word
    }

    /// The premises of the `k` line of the identifier.
    pub fn premises(&self, id: usize) -> &Premises
        requires { id < known_count self.now.lines }
        ensures says { premises_at self.now.lines id ≡ Some result.now }
        ensures before { AreBelow id result.now }
    {
        self.known(id).premises
    }

    /// What the line claims, and how it is justified.
    fn known(&self, id: usize) -> Known<'_>
        requires { id < known_count self.now.lines }
        ensures statement { statement_at self.now.lines id ≡ Some result.statement.now }
        ensures word { word_at self.now.lines id ≡ Some result.word }
        ensures premises { premises_at self.now.lines id ≡ Some result.premises.now }
        ensures below { SpeaksBelow (acts_count self.now.lines)
            (expr_count self.now.lines) result.statement.now }
        ensures before { AreBelow id result.premises.now }
    {
        match &self.lines[self.knowns[id] as usize] {
            Line::Known {
                statement,
                word,
                premises,
                ..
            } => Known {
                statement,
                word: *word,
                premises,
            },
            _ => unreachable!(),
        }
    }

    /// Whether the set is a formula or a constant, or the negation of one.
    pub fn is_literal(&self, id: usize) -> bool
        requires { id < expr_count self.now.lines }
        ensures { IsTrue result ↔ IsLiteral self.now.lines id }
    {
        match self.expr(id) {
            Expr::Not(inner) => is_plain(self.expr(*inner)),
            expr => is_plain(expr),
        }
    }
}

/// What a `k` line says.
#[derive(Clone, Copy)]
struct Known<'a> {
    statement: &'a Statement,
    word: Word,
    premises: &'a Premises,
}

/// Puts the line last, and its place last among the places of its letter. It is inlined, so that
/// the line is written once, where it stays.
#[inline(always)]
fn push_both(lines: &mut Vec<Line>, places: &mut Vec<u32>, line: Line) -> Result<(), AllocError>
    ensures ok_line { OnOk result (lines.new.items ≡ lines.old.items ++ line ∷ []) }
    ensures ok_place { OnOk result (places.new.items ≡ places.old.items ++ vec_len lines.old ∷ []) }
    ensures err_line { OnErr result (lines.new.items ≡ lines.old.items) }
    ensures err_place { OnErr result (places.new.items ≡ places.old.items) }
    ensures full { OnErr result (min (min (room_of lines.old) (room_of places.old))
        (2 ^ 32 - vec_len lines.old) ≡ 0) }
    ensures room_lines { room_of lines.old ≤ room_of lines.new + 1 }
    ensures room_places { room_of places.old ≤ room_of places.new + 1 }
{
    let Ok(place) = u32::try_from(lines.len()) else {
        return Err(AllocError);
    };
    places.push(place)?;
    match lines.push(line) {
        Ok(()) => Ok(()),
        Err(_) => {
            let _ = places.pop();
            Err(AllocError)
        }
    }
}

/// Whether it is a formula or a constant.
fn is_plain(expr: &Expr) -> bool
    ensures { IsTrue result ↔ IsPlainExpr expr.now }
{
    match expr {
        Expr::Constant(_)
        | Expr::Horn(_)
        | Expr::Dual(_)
        | Expr::Two(_)
        | Expr::States(_)
        | Expr::Node(_) => true,
        Expr::Not(_) | Expr::And(..) | Expr::Or(..) | Expr::After(..) | Expr::Before(..) => false,
    }
}

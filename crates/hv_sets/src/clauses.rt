//! Lists of clauses.
//!
//! Clauses are in one list of literals, so that a clause of two literals takes 20 bytes there; a
//! formula takes some 24 more for where its literals are, and one of clauses of two 8 more for what
//! `implied` hands out. So `Clauses::get` lends the literals of a clause as a slice, and not a
//! `Clause`, which stays the type in which one clause is put together. A view with that name would
//! cost a type with `len` and `get` over the slice, with their proofs, in every reader; callers
//! lose nothing, since the slice gives the same literals by place, and contracts see the same list.
//!
//! A reader hands on a list that has been shared (`share`), and the store's copy of such a list is
//! a further owner of it, so a formula's clauses occur once, and a store keeps only an index beside
//! them. Of at most three clauses of at most four literals in all each owner has its own, which
//! takes no block of memory: the value has the space anyhow, and the blocks of a formula of one
//! clause would take twice as much. A list that is put to after it was shared becomes one of its
//! own first, so no owner sees what another does.

ghost use Rattle.std.specs.Prelude.{◌≡◌, ◌<◌, [], ◌∷◌, ◌++◌, ◌==◌, length, slice_get, IfOk, Some};
ghost use Rattle.std.specs.Prelude.{OnOk, OnErr};

use crate::clause::Clause;
use crate::flat::Flat;
use crate::literal::Literal;
use crate::shared_pieces::SharedPieces;
use std::alloc::{AllocError, Global};
use std::marker::Model;

/// A shared list of clauses has at most so many literals in the value itself.
const FEW_LITERALS: usize = 4;

/// A list of clauses: it is true in a state where each of its clauses is. The empty list is true.
#[derive(Drop)]
pub struct Clauses {
    alloc: Global,
    pieces: SharedPieces<Literal, FEW_LITERALS>,
}

impl Model for Clauses {
    ghost use Rattle.std.specs.Prelude.{◌≡◌, [], List};
    ghost use Rattle.hv_sets.specs.declared.literal.Literal.{Literal};
    ghost use Rattle.hv_sets.specs.Working.SharedPieces.{held_pieces};

    ghost Value = { List (List Literal) };

    ghost view = { λ c. (held_pieces c.pieces).whole };

    ghost invariant = { λ c. (held_pieces c.pieces).begun ≡ [] };
}

impl Clauses {
    /// The empty list.
    pub fn new(alloc: Global) -> Clauses
        ensures { result ≡ [] }
    {
        Clauses {
            alloc,
            pieces: SharedPieces::Alone(Flat::new(alloc)),
        }
    }

    /// The same list, of which each further copy takes no memory of its own.
    pub fn share(self) -> Result<Clauses, AllocError>
        ensures { IfOk result (λ shared. shared ≡ self) }
    {
        let Clauses { alloc, pieces } = self;
        Ok(Clauses {
            alloc,
            pieces: pieces.share(alloc)?,
        })
    }

    /// The same list once more: together with this one where it is shared, and otherwise in as much
    /// memory as it needs.
    pub fn copy(&self, alloc: Global) -> Result<Clauses, AllocError>
        ensures { IfOk result (λ copy. copy ≡ self.now) }
    {
        Ok(Clauses {
            alloc,
            pieces: self.pieces.copy(alloc)?,
        })
    }

    /// Puts the item last. More than 4,294,967,295 literals in all are answered as want
    /// of memory; a line has fewer than 8,388,608.
    pub fn push(&mut self, item: Clause) -> Result<(), AllocError>
        ensures ok { OnOk result (self.new ≡ self.old ++ item ∷ []) }
        ensures err { OnErr result (self.new ≡ self.old) }
    {
        self.push_literals(item.as_slice())
    }

    /// Puts the clause of these literals last. Copies that are shared stay as they are. More than
    /// 4,294,967,295 literals in all are answered as out of memory; a line has fewer than
    /// 8,388,608.
    pub fn push_literals(&mut self, literals: &[Literal]) -> Result<(), AllocError>
        ensures ok { OnOk result (self.new ≡ self.old ++ literals.now ∷ []) }
        ensures err { OnErr result (self.new ≡ self.old) }
    {
        self.pieces.push(self.alloc, literals)
    }

    /// How many clauses there are.
    pub fn len(&self) -> usize
        ensures { result ≡ length self.now }
    {
        self.pieces.len()
    }

    /// Whether there is none.
    pub fn is_empty(&self) -> bool
        ensures { result ≡ (length self.now == 0) }
    {
        self.len() == 0
    }

    /// The literals of the clause at a place from 0.
    pub fn get(&self, place: usize) -> &[Literal]
        requires { place < length self.now }
        ensures { slice_get self.now place ≡ Some result.now }
    {
        self.pieces.get(place)
    }
}

/// Clauses that are put together literal by literal.
#[derive(Drop)]
pub struct ClausesBuilder {
    alloc: Global,
    pieces: Flat<Literal>,
}

impl Model for ClausesBuilder {
    ghost use Rattle.hv_sets.specs.Gathered.{Gathered};
    ghost use Rattle.hv_sets.specs.declared.literal.Literal.{Literal};

    ghost Value = { Gathered Literal };

    ghost view = { λ b. b.pieces };
}

impl ClausesBuilder {
    /// No clause, and none that is begun.
    pub fn new(alloc: Global) -> ClausesBuilder
        ensures { result ≡ record { whole = []; begun = [] } }
    {
        ClausesBuilder {
            alloc,
            pieces: Flat::new(alloc),
        }
    }

    /// Takes space for so many clauses more, and for so many literals.
    pub fn reserve(&mut self, clauses: usize, literals: usize) -> Result<(), AllocError>
        ensures { self.new ≡ self.old }
    {
        self.pieces.reserve(clauses, literals)
    }

    /// Puts the literal last in the clause that is begun.
    pub fn put(&mut self, literal: Literal) -> Result<(), AllocError>
        ensures ok { OnOk result
            (self.new ≡ record self.old { begun = self.old.begun ++ literal ∷ [] }) }
        ensures err { OnErr result (self.new ≡ self.old) }
    {
        self.pieces.put(literal)
    }

    /// Ends the clause that is begun; without a literal it is the empty one. More than
    /// 4,294,967,295 literals in all are answered as out of memory; a line has fewer than
    /// 8,388,608.
    pub fn end(&mut self) -> Result<(), AllocError>
        ensures ok { OnOk result
            (self.new ≡ record { whole = self.old.whole ++ self.old.begun ∷ []; begun = [] }) }
        ensures err { OnErr result (self.new ≡ self.old) }
    {
        self.pieces.end()
    }

    /// How many literals the clause has that is begun.
    pub fn begun(&self) -> usize
        ensures { result ≡ length self.now.begun }
    {
        self.pieces.begun()
    }

    /// The clauses, where none is begun.
    pub fn list(self) -> Clauses
        requires { self.begun ≡ [] }
        ensures { result ≡ self.whole }
    {
        let ClausesBuilder { alloc, pieces } = self;
        Clauses {
            alloc,
            pieces: SharedPieces::Alone(pieces),
        }
    }
}

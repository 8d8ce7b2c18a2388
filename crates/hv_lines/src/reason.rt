//! Why a line isn't good, and counterexamples.
//!
//! The tests of a line are in one list, each with a rank: a line is good where it meets each test,
//! and its reason is that of the first test that it fails. So a line has one reason by the form of
//! the definition, but for the state that it names: that a reason is a test's is a relation, not a
//! function, since the last one names a counterexample. A copy of a reason may be out of memory, so
//! it isn't copied for nothing.

ghost use Rattle.std.specs.Prelude.{◌≡◌, IfOk};

use hv_task::State;
use std::alloc::{AllocError, Global};

/// A counterexample to a basic statement.
#[derive(Drop, PartialEq, Eq)]
pub struct Clash {
    /// The action of the query that decides, where it has one; for an inclusion of action sets the
    /// action that isn't in the right one.
    pub action: Option<u32>,
    /// A state that shows that the statement is false, where the statement is of states.
    pub state: Option<State>,
}

impl Clash {
    /// The same counterexample once more.
    pub fn copy(&self, alloc: Global) -> Result<Clash, AllocError>
        ensures { IfOk result (λ copy. copy ≡ self.now) }
    {
        match &self.state {
            None => Ok(Clash {
                action: self.action,
                state: None,
            }),
            Some(state) => {
                let mut copy = State::empty(alloc, state.atoms())?;
                copy.copy_from(state);
                Ok(Clash {
                    action: self.action,
                    state: Some(copy),
                })
            }
        }
    }
}

/// Why a line is refused: the first test that it fails. The tests come in the order of the
/// variants.
#[derive(Drop, PartialEq, Eq)]
pub enum Reason {
    /// The line has more bytes than a line may have, or its last byte lies past what a file may
    /// have.
    Long,
    /// The bytes are no line of the proof text.
    Grammar,
    /// The line's identifier isn't the number of earlier lines of its letter.
    Number,
    /// The line refers to an identifier, an action, an atom or a node that isn't there.
    Unknown,
    /// A clause isn't of the kind that the line's formula asks for.
    Family,
    /// The line's derivation rule doesn't fit.
    Rule,
    /// The sides of the basic statement aren't of the form that its word asks for.
    Shape,
    /// The basic statement isn't one that is decided.
    NotOffered,
    /// The query of the basic statement that decides costs more than the budget.
    Budget,
    /// The basic statement is false, as the counterexample shows.
    False(Clash),
}

impl Reason {
    /// The same reason once more.
    pub fn copy(&self, alloc: Global) -> Result<Reason, AllocError>
        ensures { IfOk result (λ copy. copy ≡ self.now) }
    {
        match self {
            Reason::Long => Ok(Reason::Long),
            Reason::Grammar => Ok(Reason::Grammar),
            Reason::Number => Ok(Reason::Number),
            Reason::Unknown => Ok(Reason::Unknown),
            Reason::Family => Ok(Reason::Family),
            Reason::Rule => Ok(Reason::Rule),
            Reason::Shape => Ok(Reason::Shape),
            Reason::NotOffered => Ok(Reason::NotOffered),
            Reason::Budget => Ok(Reason::Budget),
            Reason::False(clash) => {
                let copy = clash.copy(alloc)?;
                Ok(Reason::False(copy))
            }
        }
    }
}

//! The question about the states outside a formula along a path: the clauses that are true in the
//! whole cube are kept apart.
//!
//! It is asked anew for each cube in which some clause may be false. It is wrapped around any
//! question, as that about the prefixes of a walk in a decision diagram is, and only adds a
//! refutation; so one direction alone is proved of it: no state that is looked for is in a prefix
//! that is refuted. What is found, and that it is exact, stays with the question that is wrapped.

ghost use Rattle.std.specs.Prelude.{◌≡◌, ◌<◌, ◌≤◌, ◌&&◌, ◌||◌, [], Bool, List, OnOk, true};
ghost use Rattle.std.specs.Prelude.{false, length, nat_lt, not};
ghost use Rattle.hv_formula.specs.Clausal.{in_formula};
ghost use Rattle.hv_formula.specs.Rest.{AreTrueAlong, IsArranged, IsReadyFor};
ghost use Rattle.hv_formula.specs.Working.Rest.{AreTrueFrom, IsMade, KeepsUpto};

use crate::arranged::Arranged;
use crate::clause_kind::ClauseKind;
use crate::formula::Formula;
use hv_paths::Asker;
use hv_sets::{Literal, Scratch};
use hv_task::State;
use std::alloc::{AllocError, Global};

/// A question about the states outside a formula. Beside it stands which clauses are true in each
/// state of the cube, and how many were before each literal: where all are, no state is left. The
/// first literal makes the list of the clauses.
#[derive(Drop)]
pub struct RestAsk<'a, K: ClauseKind, A: Asker + Drop> {
    alloc: Global,
    asked: A,
    set: &'a Formula<K>,
    arranged: Arranged,
    ready: bool,
    points: Vec<usize>,
}

impl<'a, K: ClauseKind, A: Asker + Drop> RestAsk<'a, K, A> {
    // The question with nothing assumed.
    pub(crate) fn new(alloc: Global, asked: A, set: &'a Formula<K>) -> RestAsk<'a, K, A>
        requires asked { A.stands asked }
        requires atoms { A.atoms asked ≡ set.now.atoms }
        requires first { A.assumed asked ≡ [] }
        requires wanted { (s : List Bool) → A.wanted asked s ≡ not (in_formula set.now s) }
        ensures stands { ⟦<RestAsk<'a, K, A> as Asker>⟧.stands result }
        ensures atoms { ⟦<RestAsk<'a, K, A> as Asker>⟧.atoms result ≡ set.now.atoms }
        ensures first { ⟦<RestAsk<'a, K, A> as Asker>⟧.assumed result ≡ [] }
        ensures wanted { (s : List Bool)
            → ⟦<RestAsk<'a, K, A> as Asker>⟧.wanted result s ≡ A.wanted asked s }
    {
        RestAsk {
            alloc,
            asked,
            set,
            arranged: Arranged::none(alloc),
            ready: false,
            points: Vec::new(alloc),
        }
    }
}

impl<'a, K: ClauseKind, A: Asker + Drop> Asker for RestAsk<'a, K, A> {
    ghost atoms = { λ q. A.atoms q.asked };

    ghost wanted = { λ q. A.wanted q.asked };

    ghost stands = { λ q. A.stands q.asked × (A.atoms q.asked ≡ q.set.now.atoms)
        × ((s : List Bool) → A.wanted q.asked s ≡ not (in_formula q.set.now s))
        × IsReadyFor q.set.now.clauses (A.assumed q.asked) q.ready q.arranged
        × AreTrueAlong q.set.now.clauses (A.assumed q.asked) q.arranged.order.items
        q.points.items q.arranged.done };

    ghost assumed = { λ q. A.assumed q.asked };

    ghost alive = { λ q.
        (not q.ready || nat_lt q.arranged.done (length q.set.now.clauses)) && A.alive q.asked };

    fn depth(&self) -> usize {
        self.asked.depth()
    }

    fn is_open(&self) -> bool {
        if self.ready && self.arranged.done >= self.set.clauses().len() {
            return false;
        }
        self.asked.is_open()
    }

    fn assume(&mut self, literal: Literal) -> Result<(), AllocError> {
        make_ready(self.alloc, self.set, &mut self.ready, &mut self.arranged)?;
        self.asked.assume(literal)?;
        self.points.push(self.arranged.done)?;
        tell_of(self.set, &mut self.arranged, literal);
        Ok(())
    }

    fn take_back(&mut self, depth: usize) {
        self.asked.take_back(depth);
        self.arranged.done = self.points[depth];
        self.points.truncate(depth);
    }

    fn meets(&mut self, alloc: Global, scratch: &mut Scratch) -> Result<bool, AllocError> {
        let yes = self.asked.meets(alloc, scratch)?;
        Ok(yes)
    }

    fn wants(&mut self, alloc: Global, held: &[u32], state: &State) -> Result<bool, AllocError> {
        let yes = self.asked.wants(alloc, held, state)?;
        Ok(yes)
    }
}

// Makes the list of the clauses, unless it is made.
fn make_ready<K: ClauseKind>(
    alloc: Global,
    set: &Formula<K>,
    ready: &mut bool,
    arranged: &mut Arranged,
) -> Result<(), AllocError>
    requires { ready.old ≡ true → IsArranged (length set.now.clauses) arranged.old }
    ensures ready { OnOk result (ready.new ≡ true) }
    ensures arranged { OnOk result (IsArranged (length set.now.clauses) arranged.new) }
    ensures made { OnOk result
        (IsMade set.now.clauses ready.old arranged.old arranged.new) }
{
    if *ready {
        return Ok(());
    }
    *arranged = Arranged::of(alloc, set.clauses())?;
    *ready = true;
    Ok(())
}

// Tells of the clauses that have the literal.
fn tell_of<K: ClauseKind>(set: &Formula<K>, arranged: &mut Arranged, literal: Literal)
    requires { IsArranged (length set.now.clauses) arranged.old }
    ensures arranged { IsArranged (length set.now.clauses) arranged.new }
    ensures keeps { KeepsUpto arranged.old.done arranged.old.order.items arranged.new.order.items }
    ensures grows { arranged.old.done ≤ arranged.new.done }
    ensures more { AreTrueFrom set.now.clauses literal arranged.new.order.items arranged.old.done
        arranged.new.done }
{
    let standing = set.occurs().standing(literal);
    arranged.move_all(standing.places);
}

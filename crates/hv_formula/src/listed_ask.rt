//! A question about a formula that answers for listed states by the atoms that they hold.

ghost use Rattle.std.specs.Prelude.{◌≡◌, [], Bool, List, OnOk, length, true, cond, not};
ghost use Rattle.hv_formula.specs.Clausal.{in_formula};
ghost use Rattle.hv_indexes.specs.Mates.{AreMates};
ghost use Rattle.hv_formula.specs.Positive.{ArePositive};

use crate::clause_kind::ClauseKind;
use crate::first_states::FirstStates;
use crate::formula::Formula;
use hv_indexes::Mates;
use hv_paths::Asker;
use hv_sets::{Literal, Scratch};
use hv_task::State;
use std::alloc::{AllocError, Global};

/// A question about a formula, or about the states outside it. Beside it stands what is tried for
/// listed states: for the first of them what there is without it, and then what is made for them.
#[derive(Drop)]
pub struct ListedAsk<'a, K: ClauseKind, A: Asker + Drop> {
    asked: A,
    set: &'a Formula<K>,
    inside: bool,
    first: FirstStates,
    ready: bool,
    mates: Mates,
}

impl<'a, K: ClauseKind, A: Asker + Drop> ListedAsk<'a, K, A> {
    // The question with nothing assumed.
    pub(crate) fn new(
        alloc: Global,
        asked: A,
        set: &'a Formula<K>,
        inside: bool,
    ) -> ListedAsk<'a, K, A>
        requires asked { A.stands asked }
        requires atoms { A.atoms asked ≡ set.now.atoms }
        requires first { A.assumed asked ≡ [] }
        requires wanted { (s : List Bool) → A.wanted asked s
            ≡ cond inside (in_formula set.now s) (not (in_formula set.now s)) }
        ensures stands { ⟦<ListedAsk<'a, K, A> as Asker>⟧.stands result }
        ensures atoms { ⟦<ListedAsk<'a, K, A> as Asker>⟧.atoms result ≡ set.now.atoms }
        ensures first { ⟦<ListedAsk<'a, K, A> as Asker>⟧.assumed result ≡ [] }
        ensures wanted { (s : List Bool)
            → ⟦<ListedAsk<'a, K, A> as Asker>⟧.wanted result s ≡ A.wanted asked s }
    {
        ListedAsk {
            asked,
            set,
            inside,
            first: FirstStates::new(alloc),
            ready: false,
            mates: Mates::none(alloc),
        }
    }
}

impl<'a, K: ClauseKind, A: Asker + Drop> Asker for ListedAsk<'a, K, A> {
    ghost atoms = { λ q. A.atoms q.asked };

    ghost wanted = { λ q. A.wanted q.asked };

    ghost stands = { λ q. A.stands q.asked × (A.atoms q.asked ≡ q.set.now.atoms)
        × ((s : List Bool) → A.wanted q.asked s
        ≡ cond q.inside (in_formula q.set.now s) (not (in_formula q.set.now s)))
        × (q.first.listed ≡ true → ArePositive q.set.now.clauses (length q.set.now.clauses)
        q.first.positive.items)
        × (q.ready ≡ true → AreMates q.set.now.clauses q.mates) };

    ghost assumed = { λ q. A.assumed q.asked };

    ghost alive = { λ q. A.alive q.asked };

    fn depth(&self) -> usize {
        self.asked.depth()
    }

    fn is_open(&self) -> bool {
        self.asked.is_open()
    }

    fn assume(&mut self, literal: Literal) -> Result<(), AllocError> {
        self.asked.assume(literal)?;
        Ok(())
    }

    fn take_back(&mut self, depth: usize) {
        self.asked.take_back(depth);
    }

    fn meets(&mut self, alloc: Global, scratch: &mut Scratch) -> Result<bool, AllocError> {
        let yes = self.asked.meets(alloc, scratch)?;
        Ok(yes)
    }

    fn wants(&mut self, alloc: Global, held: &[u32], state: &State) -> Result<bool, AllocError> {
        let set = self.set;
        if self.first.are_few(set.clauses()) {
            let yes = self.first.hold(alloc, &set.bare(), held, state)?;
            return Ok(if self.inside { yes } else { !yes });
        }
        make_ready(alloc, set, &mut self.ready, &mut self.mates)?;
        let yes = self.mates.holds(set.clauses(), held, state);
        Ok(if self.inside { yes } else { !yes })
    }
}

// Makes what is tried, unless it is made.
fn make_ready<K: ClauseKind>(
    alloc: Global,
    set: &Formula<K>,
    ready: &mut bool,
    mates: &mut Mates,
) -> Result<(), AllocError>
    requires { ready.old ≡ true → AreMates set.now.clauses mates.old }
    ensures { OnOk result (AreMates set.now.clauses mates.new) }
{
    if *ready {
        return Ok(());
    }
    *mates = Mates::of(alloc, set.atoms(), set.clauses(), set.occurs())?;
    *ready = true;
    Ok(())
}

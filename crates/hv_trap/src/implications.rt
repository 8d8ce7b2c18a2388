//! Where an action may lead from a state in which a clause is false to one in which all are true,
//! by what follows from which literals.
//!
//! Of each literal two words of 64 bits have the literals that follow from it by the clauses that
//! are left, so what is true after an action is a few words joined together. Nothing is promised of
//! what is seen here: it is tried on the clauses before anything is taken out, and what isn't seen
//! is found by queries, whose exactness is proved. A proof for these rows would state the theory of
//! 2CNF formulas a second time, to save one round of queries.

ghost use Rattle.std.specs.Prelude.{◌<◌};
ghost use Rattle.hv_task.specs.State.{AreBelow};
ghost use Rattle.hv_task.specs.Strips.{IsOver};
ghost use Rattle.hv_sets.specs.Cubes.{SpeakBelow};
ghost use Rattle.hv_propagation.specs.Clauses.{AreClauses};

use crate::conjunctions::{denies, holds, opposite};
use crate::literal_mask::{Mask, has_bit, word_of};
use crate::literal_table::LiteralTable;
use hv_sets::{Clauses, Literal};
use hv_task::{Action, AtomList};

/// What follows from which literals by clauses of at most two literals over at most 64 atoms.
#[derive(Clone, Copy)]
pub(crate) struct Implications {
    /// By one clause.
    pub next: LiteralTable,
    // By any number of clauses.
    all: LiteralTable,
    // From the clauses alone.
    forced: Mask,
}

/// What an action asks for, the atoms that it sets, and what is true after it where all clauses
/// are.
#[derive(Clone, Copy)]
struct ActionMasks {
    pre: u64,
    set: u64,
    after: Mask,
}

impl Implications {
    /// Those of these clauses.
    pub(crate) fn of(clauses: &Clauses) -> Implications
        requires { AreClauses 64 clauses.now }
    {
        let mut next = LiteralTable::empty();
        for place in 0..clauses.len() {
            put_clause(&mut next, clauses.get(place));
        }
        Implications::by(next)
    }

    /// Those where this follows by one clause.
    pub(crate) fn by(next: LiteralTable) -> Implications {
        let all = next.closed();
        Implications {
            next,
            all,
            forced: all.forced(),
        }
    }

    /// The literals from which other ones follow, by one clause or by any number, than in other
    /// rows: all, where other ones follow from the clauses alone.
    pub(crate) fn changed(&self, other: &Implications) -> Mask {
        if !self.forced.same(other.forced) {
            return Mask::all();
        }
        self.next
            .changed(&other.next)
            .joined(self.all.changed(&other.all))
    }

    /// Whether what is seen of the action can be another where other literals follow from these.
    pub(crate) fn concerns(&self, action: &Action, changed: Mask) -> bool
        requires { IsOver 64 action.now }
    {
        let pre = word_of(action.pre.as_slice());
        let add = word_of(action.add.as_slice());
        let del = word_of(action.del.as_slice());
        let read = Mask {
            holds: pre | add | del,
            denies: add | del,
        };
        read.meets(changed)
            || self.concern_others(&action.add, false, changed)
            || self.concern_others(&action.del, true, changed)
    }

    // Whether some of these are the opposites of literals that follow by one clause from these
    // atoms, or from their negations.
    fn concern_others(&self, atoms: &AtomList, positive: bool, changed: Mask) -> bool
        requires { AreBelow 64 atoms.now }
    {
        for atom in atoms.as_slice() {
            let literal = Literal {
                atom: *atom,
                positive,
            };
            if self.next.of(literal).opposite().meets(changed) {
                return true;
            }
        }
        false
    }

    /// The atoms that a state lacks from which the action may lead, with a bit for each, if some
    /// state is seen. No more follows by one clause than this.
    pub(crate) fn lacked(&self, next: &LiteralTable, action: &Action) -> Option<u64>
        requires { IsOver 64 action.now }
    {
        let step = self.step_of(action);
        if step.after.clashes() {
            return None;
        }
        self.lacked_by_added(next, step, &action.add)
            .or_else(|| self.lacked_by_deleted(next, step, action))
    }

    // The same where a clause is made true by an atom that is added.
    fn lacked_by_added(&self, next: &LiteralTable, step: ActionMasks, add: &AtomList) -> Option<u64>
        requires { AreBelow 64 add.now }
    {
        for atom in add.as_slice() {
            if !has_bit(step.pre, *atom) {
                if let Some(lacked) = self.lacked_from(next, step, denies(*atom)) {
                    return Some(lacked);
                }
            }
        }
        None
    }

    // The same where a clause is made true by an atom that is deleted.
    fn lacked_by_deleted(
        &self,
        next: &LiteralTable,
        step: ActionMasks,
        action: &Action,
    ) -> Option<u64>
        requires { IsOver 64 action.now }
    {
        for atom in action.del.as_slice() {
            if !action.add.has(*atom) {
                if let Some(lacked) = self.lacked_from(next, step, holds(*atom)) {
                    return Some(lacked);
                }
            }
        }
        None
    }

    // The same where the literal is true before and false after the action, and some clause that
    // has its opposite is false before.
    fn lacked_from(&self, next: &LiteralTable, step: ActionMasks, before: Literal) -> Option<u64>
        requires { before.atom < 64 }
    {
        let other = step.open(next.of(before)).first()?;
        let denied = opposite(other);
        let mut after = step.after;
        if !has_bit(step.set, other.atom) {
            after = after.joined(self.all.of(denied));
        }
        let broken = Mask::none().with(before).with(denied);
        Some((after.denies & !step.set) | broken.denies)
    }

    // What is asked of the action.
    fn step_of(&self, action: &Action) -> ActionMasks
        requires { IsOver 64 action.now }
    {
        let add = word_of(action.add.as_slice());
        let set = add | word_of(action.del.as_slice());
        let mut after = self.forced;
        for atom in action.add.as_slice() {
            after = after.joined(self.all.of(holds(*atom)));
        }
        for atom in action.pre.as_slice() {
            if !has_bit(set, *atom) {
                after = after.joined(self.all.of(holds(*atom)));
            }
        }
        for atom in action.del.as_slice() {
            if !has_bit(add, *atom) {
                after = after.joined(self.all.of(denies(*atom)));
            }
        }
        ActionMasks {
            pre: word_of(action.pre.as_slice()),
            set,
            after,
        }
    }
}

impl ActionMasks {
    // Those of the literals that can be false before the action.
    fn open(self, literals: Mask) -> Mask {
        let kept = !self.set;
        Mask {
            holds: literals.holds & ((self.set & !self.pre) | (kept & !self.after.holds)),
            denies: literals.denies & (self.set | (kept & !self.after.denies)),
        }
    }
}

// Puts in what follows from the opposites of the literals of the clause, if it has one or two.
fn put_clause(next: &mut LiteralTable, clause: &[Literal])
    requires { SpeakBelow 64 clause.now }
{
    match clause {
        [literal] => next.put(opposite(*literal), *literal),
        [first, second] => {
            next.put(opposite(*first), *second);
            next.put(opposite(*second), *first);
        }
        _ => {}
    }
}

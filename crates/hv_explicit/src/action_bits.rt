//! Actions of a task with at most 64 atoms. A state is a word there, with a bit for each of its
//! atoms, so the precondition is one test, and the word of the result takes two steps.

ghost use Rattle.std.specs.Prelude.{◌≡◌, ◌≤◌, ◌<◌, ◌↔◌, ◌==◌, ◌&&◌, ◌||◌, not, ℕ, IsTrue, IfSome};
ghost use Rattle.std.specs.Prelude.{MatchOption, None, Some, length, bit_and};
ghost use Rattle.std.specs.Int.{bit_at};
ghost use Rattle.std.specs.List.{All, Contains};
ghost use Rattle.hv_task.specs.Atoms.{is_after};
ghost use Rattle.hv_task.specs.Strips.{IsOver, atoms};
ghost use Rattle.hv_sets.specs.Query.{action_of};
ghost use Rattle.hv_explicit.specs.Working.Codes.{IsListCode, IsSame};
ghost use Rattle.hv_explicit.specs.Working.Words.{word_atoms};

use crate::codes::{BITS, list_code};
use crate::state_word::StateWord;
use hv_task::{Action, Task};

/// An action of a task with at most 64 atoms, with the codes of its lists.
#[derive(Clone, Copy)]
pub(crate) struct ActionBits<'a> {
    pub action: &'a Action,
    pub pre: u64,
    pub add: u64,
    pub del: u64,
    pub ghost over: { IsOver 64 action.now },
    pub ghost pre_is: { IsListCode 0 action.now.pre pre },
    pub ghost add_is: { IsListCode 0 action.now.add add },
    pub ghost del_is: { IsListCode 0 action.now.del del },
}

/// The action of this number, where there is one and the task has at most 64 atoms.
pub(crate) fn bits_of(task: &Task, number: Option<u32>) -> Option<ActionBits<'_>>
    requires { IfSome number (λ a. a < length task.now.actions) }
    ensures { MatchOption result (atoms task.now ≤ 64 → action_of task.now number ≡ None)
        (λ bits. (action_of task.now number ≡ Some bits.action.now)
        × IsOver (atoms task.now) bits.action.now) }
{
    if task.atoms() > 64 {
        return None;
    }
    match number {
        Some(number) => Some(ActionBits::of(task.action(number))),
        None => None,
    }
}

impl<'a> ActionBits<'a> {
    // The action with the codes of its lists.
    fn of(action: &'a Action) -> ActionBits<'a>
        requires { IsOver 64 action.now }
        ensures { result.action.now ≡ action.now }
    {
        ActionBits {
            action,
            pre: list_code(BITS, action.pre.as_slice()),
            add: list_code(BITS, action.add.as_slice()),
            del: list_code(BITS, action.del.as_slice()),
        }
    }

    /// Whether the precondition holds in the state.
    pub(crate) fn is_enabled(&self, state: StateWord) -> bool
        ensures { IsTrue result
            ↔ All (λ p. Contains (word_atoms state.bits) p) self.now.action.now.pre }
    {
        has_bits(state.bits, self.pre)
    }

    /// What the action makes of the state.
    pub(crate) fn result_in(&self, state: StateWord) -> StateWord
        ensures { IsSame (is_after self.now.action.now (word_atoms state.bits))
            (word_atoms result.bits) }
    {
        let bits = bits_after(state.bits, self.add, self.del);
        StateWord { bits }
    }
}

fn has_bits(code: u64, bits: u64) -> bool
    ensures { IsTrue result ↔ (bit_and code bits ≡ bits) }
{
    code & bits == bits
}

fn bits_after(code: u64, add: u64, del: u64) -> u64
    ensures { (p : ℕ) → p < 64 → (bit_at result p == 1)
        ≡ ((bit_at add p == 1) || ((bit_at code p == 1) && not (bit_at del p == 1))) }
{
    (code & !del) | add
}

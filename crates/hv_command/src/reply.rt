//! The texts of the answers.

ghost use Rattle.std.specs.Prelude.{◌≡◌, ◌<◌, ◌++◌, codes, decimal, flat_map, length, IfOk, OnOk};
ghost use Rattle.std.specs.List.{range_with_len};
ghost use Rattle.hv_task_text.specs.Canonical.{canonical_of};
ghost use Rattle.hv_command.specs.Replies.{action_text, atom_text, line_of};
ghost use Rattle.hv_command.specs.Replies.{reason_text, refused_text, state_text};
ghost use Rattle.hv_command.specs.Working.Reply.{IsReply};
ghost use Rattle.hv_command.specs.declared.status.Status.TheVariants as S;
ghost use Rattle.hv_lines.specs.declared.reason.Reason.TheVariants as R;

use crate::status::Status;
use hv_bytes::Text;
use hv_lines::{Clash, Reason};
use hv_task::{State, Task};
use hv_task_text::write_task;
use std::alloc::{AllocError, Global};

/// A text to be printed, and the status that goes with it.
#[derive(Drop)]
pub(crate) struct Reply {
    pub status: Status,
    pub text: Text,
}

/// A reply of one fixed line.
pub(crate) fn fixed(alloc: Global, status: Status, line: &[u8]) -> Result<Reply, AllocError>
    ensures { IfOk result (λ r. IsReply r status (line_of line.now)) }
{
    let mut text = Text::new(alloc);
    text.push_bytes(line)?;
    text.push_bytes(b"\n")?;
    Ok(Reply { status, text })
}

/// `line L: REASON`
pub(crate) fn refusal(alloc: Global, line: u64, reason: &Reason) -> Result<Reply, AllocError>
    ensures { IfOk result (λ r. IsReply r S.Refused (refused_text line reason.now)) }
{
    let mut text = Text::new(alloc);
    text.push_bytes(b"line ")?;
    text.push_number(line)?;
    text.push_bytes(b": ")?;
    push_reason(&mut text, reason)?;
    text.push_bytes(b"\n")?;
    Ok(Reply {
        status: Status::Refused,
        text,
    })
}

// Appends the word of a reason, and the counterexample where there is one.
fn push_reason(text: &mut Text, reason: &Reason) -> Result<(), AllocError>
    ensures { OnOk result (text.new ≡ text.old ++ reason_text reason.now) }
{
    match reason {
        Reason::Long => text.push_bytes(b"long"),
        Reason::Grammar => text.push_bytes(b"grammar"),
        Reason::Number => text.push_bytes(b"number"),
        Reason::Unknown => text.push_bytes(b"unknown"),
        Reason::Family => text.push_bytes(b"family"),
        Reason::Rule => text.push_bytes(b"rule"),
        Reason::Shape => text.push_bytes(b"shape"),
        Reason::NotOffered => text.push_bytes(b"not offered"),
        Reason::Budget => text.push_bytes(b"budget"),
        Reason::False(clash) => push_clash(text, clash),
    }
}

// `false`, ` action A` where there is one, and ` state`, the atoms and ` ;` where there is a
// state.
fn push_clash(text: &mut Text, clash: &Clash) -> Result<(), AllocError>
    ensures { OnOk result (text.new ≡ text.old ++ reason_text (R.False clash.now)) }
{
    text.push_bytes(b"false")?;
    push_action(text, clash.action)?;
    push_state(text, &clash.state)?;
    Ok(())
}

fn push_action(text: &mut Text, action: Option<u32>) -> Result<(), AllocError>
    ensures { OnOk result (text.new ≡ text.old ++ action_text action) }
{
    if let Some(number) = action {
        text.push_bytes(b" action ")?;
        text.push_number(u64::from(number))?;
    }
    Ok(())
}

fn push_state(text: &mut Text, state: &Option<State>) -> Result<(), AllocError>
    ensures { OnOk result (text.new ≡ text.old ++ state_text state.now) }
{
    if let Some(state) = state {
        text.push_bytes(b" state")?;
        push_atoms(text, state)?;
        text.push_bytes(b" ;")?;
    }
    Ok(())
}

// Appends the atoms that the state holds, rising, each behind a space.
#[tactic(auto, using(crate::proofs::AtomTexts::text_more))]
fn push_atoms(text: &mut Text, state: &State) -> Result<(), AllocError>
    ensures { OnOk result (text.new ≡
        text.old ++ flat_map (atom_text state.now) (range_with_len 0 (length state.now))) }
{
    for atom in 0..state.atoms() {
        push_atom(text, state, atom)?;
    }
    Ok(())
}

// Appends the atom behind a space, where the state holds it.
fn push_atom(text: &mut Text, state: &State, atom: u32) -> Result<(), AllocError>
    requires { atom < length state.now }
    ensures { OnOk result (text.new ≡ text.old ++ atom_text state.now atom) }
{
    if state.has(atom) {
        text.push_bytes(b" ")?;
        text.push_number(u64::from(atom))?;
    }
    Ok(())
}

/// `FILE line L: WHAT WORD`
pub(crate) fn text_fault(
    alloc: Global,
    file: &[u8],
    line: u64,
    what: &[u8],
    word: &str,
) -> Result<Reply, AllocError>
    ensures { IfOk result (λ r. IsReply r S.BadInput
        (line_of (file.now ++ decimal line ++ what.now ++ word.now))) }
{
    let mut text = Text::new(alloc);
    text.push_bytes(file)?;
    text.push_number(line)?;
    text.push_bytes(what)?;
    text.push_bytes(word.as_bytes())?;
    text.push_bytes(b"\n")?;
    Ok(Reply {
        status: Status::BadInput,
        text,
    })
}

/// A reply of one line with a number in it.
pub(crate) fn numbered(
    alloc: Global,
    status: Status,
    before: &[u8],
    number: u64,
    after: &[u8],
) -> Result<Reply, AllocError>
    ensures { IfOk result (λ r. IsReply r status
        (line_of (before.now ++ decimal number ++ after.now))) }
{
    let mut text = Text::new(alloc);
    text.push_bytes(before)?;
    text.push_number(number)?;
    text.push_bytes(after)?;
    text.push_bytes(b"\n")?;
    Ok(Reply { status, text })
}

/// The canonical text of a task.
pub(crate) fn task_reply(alloc: Global, task: &Task) -> Result<Reply, AllocError>
    ensures { IfOk result (λ r. IsReply r S.Done (canonical_of task.now)) }
{
    let text = write_task(alloc, task)?;
    Ok(Reply {
        status: Status::Done,
        text,
    })
}

//! A walk and a question, step by step.
//!
//! Of a cube only the literals that aren't those of the cube before are taken back and assumed.
//! Once no state that is looked for can be left, the rest of a cube is not assumed, and a further
//! cube with that prefix is skipped.

ghost use Rattle.std.specs.Prelude.{◌≡◌, ◌≤◌, ℕ, Bool, true, false, [], List, length, take, IfOk};
ghost use Rattle.std.specs.Prelude.{OnOk};
ghost use Rattle.hv_task.specs.State.{AreBelow, state_of};
ghost use Rattle.hv_sets.specs.Cubes.{SpeakBelow};
ghost use Rattle.hv_sets.specs.Room.{KeepsLengths};
ghost use Rattle.hv_sets.specs.Walks.{IsStateOf, Meets};
ghost use Rattle.hv_paths.specs.Along.{IsBarren, MeetsSome};

use crate::asker::Asker;
use crate::walker::{WalkStop, Walker};
use hv_sets::{Literal, Scratch, StateBuffer};
use hv_task::State;
use std::alloc::{AllocError, Global};

/// Whether some state that is looked for is in a cube of the walk. One such state then is in
/// the scratch. From one cube to the next only what differs is taken back and assumed.
pub fn meet_along<W: Walker, A: Asker>(
    alloc: Global,
    walk: &mut W,
    asked: &mut A,
    scratch: &mut Scratch,
) -> Result<bool, AllocError>
    requires atoms { W.atoms walk.old ≡ A.atoms asked.old }
    requires first { A.assumed asked.old ≡ [] }
    requires walk { W.stands walk.old }
    requires asked { A.stands asked.old }
    ensures meets { IfOk result (λ yes. MeetsSome yes (A.atoms asked.old) (A.wanted asked.old)
        (W.left walk.old) scratch.new.state) }
    ensures lengths { KeepsLengths scratch.old scratch.new }
{
    loop {
        match walk.advance()? {
            None => return Ok(false),
            Some(kept) => {
                if stop_at(alloc, walk, kept, asked, scratch)? {
                    return Ok(true);
                }
            }
        }
    }
}

// Whether a state that is looked for is in the cube at which the walk stands. What is assumed is of
// the cube before, and so many of its literals stay.
#[tactic(auto, using(crate::proofs::Stops::alone_meets))]
fn stop_at<W: Walker, A: Asker>(
    alloc: Global,
    walk: &W,
    kept: usize,
    asked: &mut A,
    scratch: &mut Scratch,
) -> Result<bool, AllocError>
    requires atoms { W.atoms walk.now ≡ A.atoms asked.old }
    requires walk { W.stands walk.now }
    requires stands { A.stands asked.old }
    requires room { kept ≤ length (W.path walk.now) }
    requires front { take kept (A.assumed asked.old)
        ≡ take (length (A.assumed asked.old)) (take kept (W.path walk.now)) }
    ensures stands { OnOk result (A.stands asked.new) }
    ensures front { OnOk result (A.assumed asked.new
        ≡ take (length (A.assumed asked.new)) (W.path walk.now)) }
    ensures meets { IfOk result (λ yes. Meets yes (A.atoms asked.old) (A.wanted asked.old)
        (W.path walk.now) scratch.new.state) }
    ensures atoms { A.atoms asked.new ≡ A.atoms asked.old }
    ensures wanted { (s : List Bool) → A.wanted asked.new s ≡ A.wanted asked.old s }
    ensures lengths { KeepsLengths scratch.old scratch.new }
{
    match walk.stop() {
        WalkStop::Cube(path) => follow(alloc, path, kept, asked, scratch),
        WalkStop::State(held, state) => {
            let mut buffer = StateBuffer::new();
            let held = held.slice(&mut buffer);
            let yes = look(alloc, held, state, kept, asked, scratch)?;
            Ok(yes)
        }
    }
}

// Whether the state, which holds just these atoms, is one that is looked for. So many literals of
// what is assumed stay.
fn look<A: Asker>(
    alloc: Global,
    held: &[u32],
    state: &State,
    kept: usize,
    asked: &mut A,
    scratch: &mut Scratch,
) -> Result<bool, AllocError>
    requires stands { A.stands asked.old }
    requires below { AreBelow (A.atoms asked.old) held.now }
    requires size { IsStateOf (A.atoms asked.old) state.now }
    requires state { state.now ≡ state_of (A.atoms asked.old) held.now }
    ensures stands { OnOk result (A.stands asked.new) }
    ensures assumed { OnOk result (A.assumed asked.new ≡ take kept (A.assumed asked.old)) }
    ensures wants { IfOk result (λ yes. yes ≡ A.wanted asked.old state.now) }
    ensures state { IfOk result (λ yes. yes ≡ true → scratch.new.state ≡ state.now) }
    ensures atoms { A.atoms asked.new ≡ A.atoms asked.old }
    ensures wanted { (s : List Bool) → A.wanted asked.new s ≡ A.wanted asked.old s }
    ensures lengths { KeepsLengths scratch.old scratch.new }
{
    if asked.depth() > kept {
        asked.take_back(kept);
    }
    if !asked.wants(alloc, held, state)? {
        return Ok(false);
    }
    scratch.reserve(state.atoms(), 0, 0)?;
    scratch.state.copy_from(state);
    Ok(true)
}

// Whether a state that is looked for is in the cube. What is assumed is of the cube before, and so
// many of its literals stay.
fn follow<A: Asker>(
    alloc: Global,
    path: &[Literal],
    kept: usize,
    asked: &mut A,
    scratch: &mut Scratch,
) -> Result<bool, AllocError>
    requires below { SpeakBelow (A.atoms asked.old) path.now }
    requires stands { A.stands asked.old }
    requires room { kept ≤ length path.now }
    requires front { take kept (A.assumed asked.old)
        ≡ take (length (A.assumed asked.old)) (take kept path.now) }
    ensures stands { OnOk result (A.stands asked.new) }
    ensures front { OnOk result (A.assumed asked.new
        ≡ take (length (A.assumed asked.new)) path.now) }
    ensures meets { IfOk result (λ yes. Meets yes (A.atoms asked.old) (A.wanted asked.old) path.now
        scratch.new.state) }
    ensures atoms { A.atoms asked.new ≡ A.atoms asked.old }
    ensures wanted { (s : List Bool) → A.wanted asked.new s ≡ A.wanted asked.old s }
    ensures lengths { KeepsLengths scratch.old scratch.new }
{
    if kept < asked.depth() {
        asked.take_back(kept);
    }
    if assume_rest(path, asked)? {
        asked.meets(alloc, scratch)
    } else {
        Ok(false)
    }
}

// Assumes the rest of the cube, as long as a state that is looked for may be left. The answer is
// whether all of it is assumed and one may be.
fn assume_rest<A: Asker>(path: &[Literal], asked: &mut A) -> Result<bool, AllocError>
    requires below { SpeakBelow (A.atoms asked.old) path.now }
    requires stands { A.stands asked.old }
    requires front { A.assumed asked.old ≡ take (length (A.assumed asked.old)) path.now }
    ensures stands { OnOk result (A.stands asked.new) }
    ensures open { IfOk result (λ yes. yes ≡ true → A.alive asked.new ≡ true) }
    ensures front { OnOk result (A.assumed asked.new
        ≡ take (length (A.assumed asked.new)) path.now) }
    ensures whole { IfOk result (λ yes. yes ≡ true → A.assumed asked.new ≡ path.now) }
    ensures barren { IfOk result (λ yes. yes ≡ false
        → IsBarren (A.atoms asked.old) (A.wanted asked.old) path.now) }
    ensures atoms { A.atoms asked.new ≡ A.atoms asked.old }
    ensures wanted { (s : List Bool) → A.wanted asked.new s ≡ A.wanted asked.old s }
{
    for place in asked.depth()..path.len() {
        if !asked.is_open() {
            return Ok(false);
        }
        asked.assume(path[place])?;
    }
    Ok(asked.is_open())
}

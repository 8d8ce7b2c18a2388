//! How far the search for reached atoms has come in the precondition of each action. A search puts
//! back the places that it touched, so a block of a pruner costs the atoms of the task and the
//! actions that ask for what is reached, and not the number of actions.

ghost use Rattle.std.specs.Prelude.{◌≡◌, ◌<◌, ◌⊎◌, ℕ, length, slice_index, IfOk, OnOk};
ghost use Rattle.std.specs.List.{Contains};
ghost use Rattle.hv_reach.specs.Working.Passed.{AreTouched, AreZeros};

use std::alloc::{AllocError, Global};
use std::marker::Model;

/// A place in the precondition of each action. Places other than 0 are put back by what was
/// touched, and not by a walk over all actions.
#[derive(Drop)]
pub(crate) struct Passed {
    places: Vec<usize>,
    // The actions whose places may be other than 0.
    touched: Vec<u32>,
}

impl Model for Passed {
    ghost use Rattle.std.specs.Prelude.{ℕ, List};
    ghost use Rattle.hv_reach.specs.Working.Passed.{AreTouched};

    ghost Value = { List ℕ };

    ghost view = { λ p. p.places.items };

    ghost invariant = { λ p. AreTouched p.places.items p.touched.items };
}

impl Passed {
    /// The first place for each of so many actions.
    pub(crate) fn new(alloc: Global, actions: u32) -> Result<Passed, AllocError>
        ensures size { IfOk result (λ passed. length passed ≡ actions) }
        ensures zeros { IfOk result (λ passed. AreZeros passed) }
    {
        Ok(Passed {
            places: vec![in alloc; 0; actions as usize]?,
            touched: Vec::new(alloc),
        })
    }

    /// The place of the action.
    pub(crate) fn get(&self, number: u32) -> usize
        requires { number < length self.now }
        ensures { result ≡ slice_index self.now number }
    {
        self.places[number as usize]
    }

    /// Makes this the place of the action.
    pub(crate) fn put(&mut self, number: u32, place: usize) -> Result<(), AllocError>
        requires { number < length self.old }
        ensures size { length self.new ≡ length self.old }
        ensures here { OnOk result (slice_index self.new number ≡ place) }
        ensures others { OnOk result ((k : ℕ) → (k ≡ number → ⊥)
            → slice_index self.new k ≡ slice_index self.old k) }
    {
        touch(&self.places, &mut self.touched, number, place)?;
        self.places[number as usize] = place;
        Ok(())
    }

    /// Makes the first place that of each action.
    pub(crate) fn put_back(&mut self)
        ensures size { length self.new ≡ length self.old }
        ensures zeros { AreZeros self.new }
    {
        put_back_all(&mut self.places, self.touched.as_slice());
        self.touched.clear();
    }
}

// Notes that the place of the action becomes this one, unless it stays 0 or was noted.
fn touch(
    places: &Vec<usize>,
    touched: &mut Vec<u32>,
    number: u32,
    place: usize,
) -> Result<(), AllocError>
    requires number { number < length places.now.items }
    requires touched { AreTouched places.now.items touched.old.items }
    ensures kept { AreTouched places.now.items touched.new.items }
    ensures here { OnOk result ((place ≡ 0) ⊎ Contains touched.new.items number) }
{
    if place == 0 || places[number as usize] > 0 {
        return Ok(());
    }
    touched.reserve(1)?;
    touched.push_reserved(number);
    Ok(())
}

// Makes the places of these actions 0.
fn put_back_all(places: &mut Vec<usize>, touched: &[u32])
    requires { AreTouched places.old.items touched.now }
    ensures size { length places.new.items ≡ length places.old.items }
    ensures zeros { AreZeros places.new.items }
{
    for number in touched {
        put_zero(places, *number);
    }
}

// Makes the place of the action 0, if it has one.
fn put_zero(places: &mut Vec<usize>, number: u32)
    ensures size { length places.new.items ≡ length places.old.items }
    ensures here { slice_index places.new.items number ≡ 0 }
    ensures others { (k : ℕ) → slice_index places.old.items k ≡ 0
        → slice_index places.new.items k ≡ 0 }
{
    if (number as usize) < places.len() {
        places[number as usize] = 0;
    }
}

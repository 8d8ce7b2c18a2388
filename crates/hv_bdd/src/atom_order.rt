//! Orders of the atoms of a task.

ghost use Rattle.std.specs.Prelude.{◌≡◌, ◌≢◌, ◌+◌, ◌<◌, ◌≤◌, ◌^◌, [], ◌∷◌, ◌++◌, ℕ, None, Some};
ghost use Rattle.std.specs.Prelude.{true, false, decimal, IfNone, IfOk, IfSome, length, take};
ghost use Rattle.std.specs.Prelude.{option_and_then, option_map, slice_index, slice_index_or};
ghost use Rattle.hv_bytes.specs.Fields.{cut_fields};
ghost use Rattle.hv_bytes.specs.Working.Fields.{fields_behind};
ghost use Rattle.hv_task.specs.Atoms.{IsNext};
ghost use Rattle.hv_task.specs.State.{has_atom};
ghost use Rattle.hv_bdd.specs.Order.{position};
ghost use Rattle.hv_bdd.specs.OrderLine.{if_order, named_atoms};
ghost use Rattle.hv_bdd.specs.OrderLine.{order_of_fields};
ghost use Rattle.hv_bdd.specs.Working.Digits.{AreDigits};
ghost use Rattle.hv_bdd.specs.Working.Inverse.{AreInverse};
ghost use Rattle.hv_bdd.specs.Working.Noting.{AreNoted, named_behind};

use crate::atom_bits::ListedState;
use crate::numbers::{digit_table, long_front};
use hv_bytes::{decimal_front, split_field};
use std::alloc::{AllocError, Global};
use std::marker::Model;

/// An order of the atoms of a task: each atom has one place in it.
#[derive(Drop)]
pub struct Order {
    // The atom at each place.
    atoms: Vec<u32>,
    // The place of each atom.
    places: Vec<u32>,
}

impl Model for Order {
    ghost use Rattle.std.specs.Prelude.{ℕ, List};
    ghost use Rattle.hv_bdd.specs.Working.Inverse.{AreInverse};

    ghost Value = { List ℕ };

    ghost view = { λ o. o.atoms.items };

    ghost invariant = { λ o. AreInverse o.atoms.items o.places.items };
}

impl Order {
    // The order of the atoms that were noted at their places, where each of so many is among them.
    fn of(order: Vec<u32>, places: Vec<u32>, atoms: u32) -> Option<Order>
        requires noted { AreNoted order.items places.items (length order.items) }
        requires size { length order.items ≡ atoms }
        ensures { result ≡ if_order atoms order.items }
    {
        if !has_all(places.as_slice(), atoms) {
            return None;
        }
        Some(Order {
            atoms: order,
            places,
        })
    }

    /// The place of an atom.
    pub fn place(&self, atom: u32) -> u32
        requires { atom < length self.now }
        ensures { result ≡ position self.now atom }
    {
        self.places[atom as usize]
    }

    /// The place of each atom.
    pub(crate) fn places(&self) -> &[u32]
        ensures { AreInverse self.now result.now }
    {
        self.places.as_slice()
    }

    /// The atom at a place.
    pub fn atom_at(&self, place: u32) -> u32
        requires { place < length self.now }
        ensures { result ≡ slice_index_or self.now place (length self.now) }
    {
        self.atoms[place as usize]
    }

    /// The least place from this one on whose atom is held, if it is one of those below another.
    pub(crate) fn next_below(&self, held: &ListedState<'_>, from: u32, to: u32) -> Option<u32>
        requires { to ≤ length self.now }
        ensures next { IfSome result (λ next. IsNext
            (λ v. has_atom held.now (slice_index_or self.now v (length self.now))) from
            (Some next)) }
        ensures within { IfSome result (λ v. v < length self.now) }
    {
        for place in from..to {
            if held.has(self.atoms[place as usize]) {
                return Some(place);
            }
        }
        None
    }
}

// Whether none of the places is this number.
fn has_all(places: &[u32], none: u32) -> bool
    ensures all { result ≡ true → (a : ℕ) → a < length places.now
        → slice_index places.now a ≢ none }
    ensures some { result ≡ false → (a : ℕ) × (a < length places.now)
        × (slice_index places.now a ≡ none) }
{
    let mut all = true;
    for place in places {
        all &= *place != none;
    }
    all
}

// Notes that an atom stands at the next place.
#[inline(always)]
fn note(order: &mut [u32], places: &mut [u32], place: usize, atom: usize)
    requires noted { AreNoted order.old places.old place }
    requires place { place < length order.old }
    requires atom { atom < length order.old }
    requires few { length order.old < 2 ^ 32 }
    ensures noted { AreNoted order.new places.new (place + 1) }
    ensures front { take (place + 1) order.new ≡ take place order.old ++ atom ∷ [] }
    ensures size { length order.new ≡ length order.old }
{
    places[atom] = place as u32;
    order[place] = atom as u32;
}

// Notes the atoms that fields name, from this place on, as far as the quick way goes: numbers of
// other lengths are few, since each atom stands in an order once. The answer is the next place, and
// what is left of the fields. It goes no further than there are 8 bytes for each field, so that
// none has to be looked for.
fn note_quickly<'a>(
    digits: &[u64; 512],
    fields: &'a [u8],
    order: &mut [u32],
    places: &mut [u32],
    from: usize,
) -> (usize, &'a [u8])
    requires digits { AreDigits digits.now }
    requires noted { AreNoted order.old places.old from }
    requires few { length order.old < 2 ^ 32 }
    ensures noted { AreNoted order.new places.new result.0 }
    ensures named { named_behind order.new result.0 (cut_fields result.1.now)
        ≡ named_behind order.old from (cut_fields fields.now) }
    ensures size { length order.new ≡ length order.old }
    ensures fewer { length (cut_fields result.1.now) ≤ length (cut_fields fields.now) }
{
    let last = from + (order.len() - from).min(fields.len() / 8);
    let mut rest = fields;
    for place in from..last {
        let Some((atom, behind)) = long_front(digits, rest, order.len()) else {
            return (place, rest);
        };
        note(order, places, place, atom);
        rest = behind;
    }
    (last, rest)
}

// The atom that the first field of a line names, of a task with so many, and what follows.
fn atom_front(line: &[u8], atoms: u32) -> Option<(u32, Option<&[u8]>)>
    ensures none { IfNone result (named_atoms atoms (cut_fields line.now) ≡ None) }
    ensures some { IfSome result (λ p. named_atoms atoms (cut_fields line.now)
        ≡ option_map (λ ns. p.0 ∷ ns) (named_atoms atoms (fields_behind p.1 (λ f. f.now)))) }
    ensures below { IfSome result (λ p. p.0 < atoms) }
    ensures fewer { IfSome result (λ p.
        length (fields_behind p.1 (λ f. f.now)) < length (cut_fields line.now)) }
{
    let (number, behind) = decimal_front(line)?;
    if number >= u64::from(atoms) {
        return None;
    }
    Some((number as u32, behind))
}

// Notes the atoms that fields name, where each names one and they are as many as there are atoms;
// none is noted before. More of them are no order: then what follows isn't read.
fn note_atoms(fields: Option<&[u8]>, order: &mut [u32], places: &mut [u32]) -> bool
    requires noted { AreNoted order.old places.old 0 }
    requires few { length order.old < 2 ^ 32 }
    ensures noted { result ≡ true → AreNoted order.new places.new (length order.new) }
    ensures named { result ≡ true → Some order.new
        ≡ named_atoms (length order.old) (fields_behind fields.entry (λ f. f.now)) }
    ensures none { result ≡ false → None ≡ option_and_then (if_order (length order.old))
        (named_atoms (length order.old) (fields_behind fields.entry (λ f. f.now))) }
    ensures size { length order.new ≡ length order.old }
{
    let digits = digit_table();
    let mut place = 0;
    let mut rest = fields;
    'fields: loop {
        let Some(line) = rest else {
            return place == order.len();
        };
        let (next, last) = note_quickly(&digits, line, order, places, place);
        if next >= order.len() {
            return false;
        }
        let Some((atom, behind)) = atom_front(last, order.len() as u32) else {
            return false;
        };
        note(order, places, next, atom as usize);
        place = next + 1;
        rest = behind;
    }
}

/// The order that a line says, which begins with the word: where each of so many atoms follows
/// once, with one space before it.
pub(crate) fn order_of(alloc: Global, line: &[u8], atoms: u32) -> Result<Option<Order>, AllocError>
    ensures { IfOk result (λ order. order ≡ order_of_fields atoms (cut_fields line.now)) }
{
    let (word, behind) = split_field(line);
    if word != b"order".as_slice() {
        return Ok(None);
    }
    let mut order = vec![in alloc; atoms; atoms as usize]?;
    let mut places = vec![in alloc; atoms; atoms as usize]?;
    if !note_atoms(behind, order.as_mut_slice(), places.as_mut_slice()) {
        return Ok(None);
    }
    Ok(Order::of(order, places, atoms))
}

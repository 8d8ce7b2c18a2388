//! Codes of sets of atoms, by which listed states are found: the sum, in 64 bits, of a mixed number
//! for each atom under a key. So the code of an action's result follows from the code of the state
//! and the effect alone, and no result is built.
//!
//! In a task with at most 64 atoms the key is 0, by which these numbers are powers of two: a code
//! has a bit for each atom, and whatever has the code of a state is that state.
//!
//! With more atoms prepared files stay harmless. States with equal sums can be computed, so a set
//! is entered in haste by a fixed key: where two different states have one code, the set is entered
//! once more by a key that all its listed states give together, so that no state can be chosen for
//! it. Building costs twice at most.

ghost use Rattle.std.specs.Prelude.{◌≡◌, ◌<◌, ◌≤◌, ◌+◌, ◌%◌, ◌^◌, ℕ, Bool, IsTrue, true, false};
ghost use Rattle.std.specs.List.Sorted.{IsStrictlyIncreasing};
ghost use Rattle.hv_task.specs.State.{AreBelow, names_atom};
ghost use Rattle.hv_explicit.specs.Codes.{IsBelow};
ghost use Rattle.hv_explicit.specs.Working.Codes.{IsAfterCode, IsCode, IsListCode, IsSip};
ghost use Rattle.hv_explicit.specs.Working.Codes.{code_sum, folded, sip_of, weight, with_atom};
ghost use Rattle.hv_explicit.specs.Working.Codes.{with_more, without};

use crate::near::named_near;
use crate::results::named;
use hv_task::{Action, Atoms, Hint};
use std::hash::{DefaultHasher, Hasher};

/// The key by which the code of a set of at most 64 atoms has a bit for each of them, so that no
/// other set has it.
pub(crate) const BITS: u64 = 0;

/// Whether codes by this key tell all sets of so many atoms apart.
pub(crate) fn is_exact(key: u64, atoms: u32) -> bool
    ensures { IsTrue result → (key ≡ 0) × (atoms ≤ 64) }
{
    key == BITS && atoms <= 64
}

/// The code of a set of atoms below a bound.
pub(crate) fn code_of<A: Atoms>(key: u64, held: &A, atoms: u32) -> u64
    requires { IsBelow atoms (A.has held.now) }
    ensures { IsCode key (A.has held.now) result }
{
    let mut code: u64 = 0;
    let mut hint = Hint::default();
    let mut from = 0;
    while let Some(atom) = held.next(from, &mut hint) {
        code = code.wrapping_add(number(key, atom));
        from = atom + 1;
    }
    code
}

/// The code of the atoms of a list that rises.
pub(crate) fn list_code(key: u64, list: &[u32]) -> u64
    requires { IsStrictlyIncreasing list.now }
    ensures { IsListCode key list.now result }
{
    let mut code: u64 = 0;
    for atom in list {
        code = code.wrapping_add(number(key, *atom));
    }
    code
}

/// The code of the result of an action, from that of the state.
pub(crate) fn code_after(key: u64, code: u64, held: &[u32], action: &Action) -> u64
    requires rises { IsStrictlyIncreasing held.now }
    requires code { IsListCode key held.now code }
    ensures { IsAfterCode key action.now held.now result }
{
    let add = action.add.as_slice();
    let del = action.del.as_slice();
    let less = code_without(key, code, held, del, add);
    code_with(key, less, held, add, del)
}

// The code of what is left where the atoms to be deleted, and not added, are taken out.
fn code_without(key: u64, code: u64, held: &[u32], del: &[u32], add: &[u32]) -> u64
    requires held { IsStrictlyIncreasing held.now }
    requires del { IsStrictlyIncreasing del.now }
    requires add { IsStrictlyIncreasing add.now }
    requires code { IsListCode key held.now code }
    ensures { (bound : ℕ) → AreBelow bound held.now
        → result ≡ code_sum key (without del.now add.now held.now) bound }
{
    let mut less = code;
    let mut near = 0;
    for atom in del {
        less = taken_out(key, less, held, add, *atom, &mut near);
    }
    less
}

// The code of what is left with what is added.
fn code_with(key: u64, code: u64, held: &[u32], add: &[u32], del: &[u32]) -> u64
    requires held { IsStrictlyIncreasing held.now }
    requires add { IsStrictlyIncreasing add.now }
    requires code { (bound : ℕ) → AreBelow bound held.now
        → code ≡ code_sum key (without del.now add.now held.now) bound }
    ensures { (bound : ℕ) → AreBelow bound held.now → AreBelow bound add.now
        → result ≡ code_sum key (with_more add.now (without del.now add.now held.now)) bound }
{
    let _ = del;
    let mut more = code;
    let mut near = 0;
    for atom in add {
        more = put_in(key, more, held, *atom, &mut near);
    }
    more
}

// The code without the atom, where it is held and isn't added; the near place is where it may be
// held.
fn taken_out(key: u64, code: u64, held: &[u32], add: &[u32], atom: u32, near: &mut usize) -> u64
    requires held { IsStrictlyIncreasing held.now }
    requires add { IsStrictlyIncreasing add.now }
    ensures out { names_atom held.now atom ≡ true → names_atom add.now atom ≡ false
        → (result + weight key atom) % 2 ^ 64 ≡ code }
    ensures fits { result < 2 ^ 64 }
    ensures none { names_atom held.now atom ≡ false → result ≡ code }
    ensures added { names_atom add.now atom ≡ true → result ≡ code }
{
    if named_near(held, atom, near) && !named(add, atom) {
        return code.wrapping_sub(number(key, atom));
    }
    code
}

// The code with the atom, where it isn't held; the near place is where it may be.
fn put_in(key: u64, code: u64, held: &[u32], atom: u32, near: &mut usize) -> u64
    requires { IsStrictlyIncreasing held.now }
    ensures there { names_atom held.now atom ≡ true → result ≡ code }
    ensures new { names_atom held.now atom ≡ false → result ≡ (code + weight key atom) % 2 ^ 64 }
{
    if named_near(held, atom, near) {
        return code;
    }
    code.wrapping_add(number(key, atom))
}

/// How much more the code of the action's result is than that of the state, if the action deletes
/// just what its precondition names and adds what isn't held.
pub(crate) fn likely_shift(key: u64, action: &Action) -> u64 {
    let mut shift: u64 = 0;
    for atom in action.del.as_slice() {
        if named(action.pre.as_slice(), *atom) && !named(action.add.as_slice(), *atom) {
            shift = shift.wrapping_sub(number(key, *atom));
        }
    }
    for atom in action.add.as_slice() {
        if !named(action.pre.as_slice(), *atom) {
            shift = shift.wrapping_add(number(key, *atom));
        }
    }
    shift
}

// The number of an atom by this key.
#[tactic(auto, unfolding(crate::specs::Working::Codes::weight))]
fn number(key: u64, atom: u32) -> u64
    ensures { result ≡ weight key atom }
{
    if key == BITS {
        return bit(atom);
    }
    let first = halves(key ^ atom as u64, 0x9e37_79b9_7f4a_7c15);
    halves(first ^ key, 0xd134_2543_de82_ef95)
}

fn bit(atom: u32) -> u64
    ensures { result ≡ 2 ^ (atom % 64) }
{
    1 << (atom % 64)
}

// The two halves of a product, joined.
fn halves(a: u64, b: u64) -> u64
    ensures { result ≡ folded a b }
{
    let product = a as u128 * b as u128;
    (product & 0xFFFF_FFFF_FFFF_FFFF) as u64 ^ (product >> 64) as u64
}

/// The SipHash of a set of atoms below a bound.
pub(crate) fn sip_code<A: Atoms>(held: &A, atoms: u32) -> u64
    requires { IsBelow atoms (A.has held.now) }
    ensures { IsSip (A.has held.now) result }
{
    let mut hasher = DefaultHasher::new();
    let mut hint = Hint::default();
    let mut from = 0;
    while let Some(atom) = held.next(from, &mut hint) {
        put_atom(&mut hasher, atom);
        from = atom + 1;
    }
    hasher.finish()
}

/// The SipHash of a list of atoms.
pub(crate) fn list_sip(list: &[u32]) -> u64
    ensures { result ≡ sip_of list.now }
{
    let mut hasher = DefaultHasher::new();
    for atom in list {
        put_atom(&mut hasher, *atom);
    }
    hasher.finish()
}

#[tactic(auto, unfolding(crate::specs::Working::Codes::with_atom))]
fn put_atom(hasher: &mut DefaultHasher, atom: u32)
    ensures { hasher.new ≡ with_atom hasher.old atom }
{
    hasher.write_u64(atom as u64);
}

//! The atoms that are in a table with all of a precondition.

ghost use Rattle.std.specs.Prelude.{◌≡◌, ◌<◌, ◌↔◌, ℕ, true, false, length, IsTrue};
ghost use Rattle.std.specs.List.{All};
ghost use Rattle.hv_task.specs.declared.action.Action.{Action};
ghost use Rattle.hv_task.specs.State.{AreBelow, has_atom, names_atom};
ghost use Rattle.hv_task.specs.Strips.{IsOver};
ghost use Rattle.hv_reach.specs.Reached.{HasPairsOf, LeavesAlone, has_pair};
ghost use Rattle.hv_reach.specs.Working.Table.{IsJoined, IsPairTable};

use hv_task::{Action, State};

/// Whether all pairs of these atoms are in.
pub(crate) fn has_pairs(atoms: u32, rows: &Vec<State>, list: &[u32]) -> bool
    requires table { IsPairTable atoms rows.now.items }
    requires below { AreBelow atoms list.now }
    ensures yes { result ≡ true → HasPairsOf (has_pair rows.now.items) list.now }
    ensures no { result ≡ false → HasPairsOf (has_pair rows.now.items) list.now → ⊥ }
{
    for atom in list {
        if !row_has(&rows[*atom as usize], list) {
            return false;
        }
    }
    true
}

/// Whether the row has each of these atoms.
pub(crate) fn row_has(row: &State, list: &[u32]) -> bool
    requires { AreBelow (length row.now) list.now }
    ensures { IsTrue result ↔ All (λ q. has_atom row.now q ≡ true) list.now }
{
    list.iter().all(|atom| row.has(*atom))
}

/// Makes the mask that of the atoms that the action leaves alone, and that are in with its
/// precondition.
pub(crate) fn spared(atoms: u32, rows: &Vec<State>, action: &Action, mask: &mut State)
    requires table { IsPairTable atoms rows.now.items }
    requires over { IsOver atoms action.now }
    requires mask { length mask.old ≡ atoms }
    ensures size { length mask.new ≡ atoms }
    ensures sound { (q : ℕ) → has_atom mask.new q ≡ true
        → LeavesAlone action.now q × IsJoined (has_pair rows.now.items) action.now.pre q }
    ensures complete { (q : ℕ) → LeavesAlone action.now q
        → IsJoined (has_pair rows.now.items) action.now.pre q → has_atom mask.new q ≡ true }
{
    join(atoms, rows, action.pre.as_slice(), mask);
    take_out(mask, action.add.as_slice());
    take_out(mask, action.del.as_slice());
}

// Makes the mask that of the atoms that are in with each of these and with themselves.
fn join(atoms: u32, rows: &Vec<State>, list: &[u32], mask: &mut State)
    requires table { IsPairTable atoms rows.now.items }
    requires below { AreBelow atoms list.now }
    requires mask { length mask.old ≡ atoms }
    ensures size { length mask.new ≡ atoms }
    ensures sound { (q : ℕ) → has_atom mask.new q ≡ true
        → IsJoined (has_pair rows.now.items) list.now q }
    ensures complete { (q : ℕ) → IsJoined (has_pair rows.now.items) list.now q
        → has_atom mask.new q ≡ true }
{
    begin(atoms, rows, list, mask);
    for atom in list {
        mask.meet(&rows[*atom as usize]);
    }
}

// Makes the mask a set to begin with: the atoms that are in with the first of these, or else with
// themselves.
fn begin(atoms: u32, rows: &Vec<State>, list: &[u32], mask: &mut State)
    requires table { IsPairTable atoms rows.now.items }
    requires below { AreBelow atoms list.now }
    requires mask { length mask.old ≡ atoms }
    ensures size { length mask.new ≡ atoms }
    ensures sound { (q : ℕ) → has_atom mask.new q ≡ true → has_pair rows.now.items q q ≡ true }
    ensures complete { (q : ℕ) → IsJoined (has_pair rows.now.items) list.now q
        → has_atom mask.new q ≡ true }
{
    if list.len() == 0 {
        diagonal(atoms, rows, mask);
        return;
    }
    mask.copy_from(&rows[list[0] as usize]);
}

/// Makes the mask that of the atoms that are in with themselves.
pub(crate) fn diagonal(atoms: u32, rows: &Vec<State>, mask: &mut State)
    requires table { IsPairTable atoms rows.now.items }
    requires mask { length mask.old ≡ atoms }
    ensures size { length mask.new ≡ atoms }
    ensures sound { (q : ℕ) → has_atom mask.new q ≡ true → has_pair rows.now.items q q ≡ true }
    ensures complete { (q : ℕ) → has_pair rows.now.items q q ≡ true → has_atom mask.new q ≡ true }
{
    for atom in 0..atoms {
        let itself = rows[atom as usize].has(atom);
        mask.set(atom, itself);
    }
}

// Takes these atoms out of the mask.
fn take_out(mask: &mut State, list: &[u32])
    requires { AreBelow (length mask.old) list.now }
    ensures size { length mask.new ≡ length mask.old }
    ensures sound { (q : ℕ) → has_atom mask.new q ≡ true
        → (has_atom mask.old q ≡ true) × (names_atom list.now q ≡ false) }
    ensures complete { (q : ℕ) → has_atom mask.old q ≡ true → names_atom list.now q ≡ false
        → has_atom mask.new q ≡ true }
{
    for atom in list {
        mask.set(*atom, false);
    }
}

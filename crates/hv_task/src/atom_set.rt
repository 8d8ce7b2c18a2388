//! Sets of atoms while they are read: any order, with repeats, in time n log n.

ghost use Rattle.std.specs.Prelude.{◌≡◌, [], IfOk, OnOk, OnErr};
ghost use Rattle.std.specs.List.Sorted.{IsStrictlyIncreasing};
ghost use Rattle.hv_task.specs.AtomList.{Inserts};
ghost use Rattle.hv_task.specs.Working.AtomList.{members};

use crate::atom_list::AtomList;
use std::alloc::{AllocError, Global};
use std::marker::Model;

/// How many atoms a set takes before it first looks for repeats.
const FIRST_ROOM: usize = 16;

/// A set of atoms that is being read. It has them in the order in which they came, and repeats as
/// well; it is sorted, and the repeats are dropped, whenever its length has doubled. So any order
/// costs n log n, and repeats take no memory.
#[derive(Drop)]
pub struct AtomSet {
    atoms: Vec<u32>,
    // How many atoms it takes before it looks for repeats again.
    room: usize,
}

impl Model for AtomSet {
    ghost use Rattle.std.specs.Prelude.{ℕ, List};
    ghost use Rattle.hv_task.specs.Working.AtomList.{members};

    ghost Value = { List ℕ };

    ghost view = { λ s. members s.atoms.items };
}

impl AtomSet {
    /// The empty set.
    pub fn new(alloc: Global) -> AtomSet
        ensures { result ≡ [] }
    {
        AtomSet {
            atoms: Vec::new(alloc),
            room: FIRST_ROOM,
        }
    }

    /// Puts an atom in. One that is there already changes nothing.
    pub fn insert(&mut self, atom: u32) -> Result<(), AllocError>
        ensures ok { OnOk result (Inserts self.old atom self.new) }
        ensures err { OnErr result (self.new ≡ self.old) }
    {
        self.room = made_room(&mut self.atoms, self.room);
        self.atoms.push(atom)?;
        Ok(())
    }

    /// Gives the set as a list, and leaves the empty one.
    pub fn take(&mut self, alloc: Global) -> Result<AtomList, AllocError>
        ensures list { IfOk result (λ list. list ≡ self.old) }
        ensures empty { OnOk result (self.new ≡ []) }
        ensures err { OnErr result (self.new ≡ self.old) }
    {
        sort(&mut self.atoms);
        let list = AtomList::rising(alloc, self.atoms.as_slice())?;
        self.atoms.clear();
        self.room = FIRST_ROOM;
        Ok(list)
    }
}

// Sorts the atoms where they are as many as there is space for, and says how many there is space
// for then.
fn made_room(atoms: &mut Vec<u32>, room: usize) -> usize
    ensures { members atoms.new.items ≡ members atoms.old.items }
{
    if atoms.len() < room {
        return room;
    }
    sort(atoms);
    atoms.len().saturating_mul(2).saturating_add(FIRST_ROOM)
}

// Sorts the atoms, and drops repeats.
fn sort(atoms: &mut Vec<u32>)
    ensures members { members atoms.new.items ≡ members atoms.old.items }
    ensures rises { IsStrictlyIncreasing atoms.new.items }
{
    if atoms.len() < 2 {
        return;
    }
    atoms.sort_unstable();
    atoms.dedup();
}

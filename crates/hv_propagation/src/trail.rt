//! What is known of the atoms of a task, and in which order it was found out.
//!
//! The literals that are known to be true are a trail, in rows that the `Scratch` lends. An atom's
//! place in the trail and the entry of the trail at that place confirm each other, so the rows need
//! no clearing, whatever is in them, and to forget the latest literals is to shorten the trail.

ghost use Rattle.std.specs.Prelude.{◌≡◌, ◌<◌, ◌≤◌, ◌++◌, ◌^◌, [], ◌∷◌, None, Some, length, take};
ghost use Rattle.std.specs.Prelude.{IfOk, slice_get, true};
ghost use Rattle.std.specs.List.Sorted.{IsStrictlyIncreasing};
ghost use Rattle.hv_sets.specs.Cubes.{atoms_of};
ghost use Rattle.hv_propagation.specs.Marks.{filled, known};
ghost use Rattle.hv_propagation.specs.Trail.{marked, marks_of};
ghost use Rattle.hv_propagation.specs.Working.FoundRun.{AreKnownEntries, AreTrueBehind};
ghost use Rattle.hv_propagation.specs.Chase.{IsFollowed};

use crate::buffers::Buffers;
use crate::found_run::RunEnd;
use crate::roots::Roots;
use crate::watched::Watch;
use hv_sets::Literal;
use hv_task::State;
use std::alloc::{AllocError, Global};
use std::marker::Model;

// The entry of each literal of so many atoms differs from that which denotes none.
const MOST_ATOMS: usize = u32::MAX as usize / 2;

/// What is known of the atoms of a task: literals that were known before, which stay as they are,
/// and those that were found true since, in memory that others lend, whatever is there, or that
/// it owns. To forget the latest of these costs nothing. Beside these, in room that may be of any
/// length, it remembers places of clauses, of which nothing is said.
#[derive(Drop)]
pub struct Assignment<'a> {
    atoms: usize,
    roots: Roots<'a>,
    // For each atom of a literal of the trail the place of its entry, and the entries.
    buffers: Buffers<'a>,
    len: usize,
    // For each clause, by its place, the two places at which the last look into it ended.
    watches: &'a mut [u32],
}

impl<'a> Model for Assignment<'a> {
    ghost use Rattle.std.specs.Prelude.{◌≤◌, ◌^◌};
    ghost use Rattle.hv_propagation.specs.Working.Buffers.{places_in, queue_in};
    ghost use Rattle.hv_propagation.specs.Working.Trail.{AreJoined, trail_of};
    ghost use Rattle.hv_propagation.specs.Trail.{Knowledge, marked};

    ghost Value = { Knowledge };

    ghost view = { λ s. record {
      roots = marked s.atoms s.roots;
      trail = trail_of (queue_in s.buffers) s.len;
    } };

    ghost invariant = { λ s. (s.atoms ≤ 2 ^ 31) × AreJoined (marked s.atoms s.roots)
        (places_in s.buffers) (queue_in s.buffers) s.len };
}

impl<'a> Assignment<'a> {
    /// Nothing more than these literals, for a task with so many atoms.
    pub fn over(
        atoms: usize,
        roots: &'a [Literal],
        places: &'a mut [u32],
        queue: &'a mut [u32],
        watches: &'a mut [u32],
    ) -> Assignment<'a>
        requires few { atoms ≤ 2 ^ 31 }
        requires rises { IsStrictlyIncreasing (atoms_of roots.now) }
        requires places { atoms ≤ length places.old }
        requires queue { atoms ≤ length queue.old }
        ensures { result ≡ record { roots = marked atoms roots.now; trail = [] } }
    {
        Assignment::from(atoms, Roots::of(roots), places, queue, watches)
    }

    /// The same of literals beside an effect.
    pub fn from(
        atoms: usize,
        roots: Roots<'a>,
        places: &'a mut [u32],
        queue: &'a mut [u32],
        watches: &'a mut [u32],
    ) -> Assignment<'a>
        requires few { atoms ≤ 2 ^ 31 }
        requires places { atoms ≤ length places.old }
        requires queue { atoms ≤ length queue.old }
        ensures { result ≡ record { roots = marked atoms roots.entry; trail = [] } }
    {
        Assignment {
            atoms,
            roots,
            buffers: Buffers::lent(places, queue),
            len: 0,
            watches,
        }
    }

    /// The same in rows of its own.
    pub fn owned(
        alloc: Global,
        atoms: usize,
        roots: Roots<'a>,
    ) -> Result<Assignment<'a>, AllocError>
        requires few { atoms ≤ 2 ^ 31 }
        ensures { IfOk result
            (λ marks. marks ≡ record { roots = marked atoms roots.entry; trail = [] }) }
    {
        let buffers = Buffers::owned(alloc, atoms)?;
        Ok(Assignment {
            atoms,
            roots,
            buffers,
            len: 0,
            watches: &mut [],
        })
    }

    /// Forgets all, and takes these literals beside an effect for what was known before.
    pub fn start_over(&mut self, roots: Roots<'a>)
        ensures { self.new
            ≡ record { roots = marked (length self.old.roots) roots.entry; trail = [] } }
    {
        self.roots = roots;
        self.len = 0;
    }

    /// How many atoms the task has.
    #[inline(always)]
    pub fn atoms(&self) -> usize
        ensures atoms { result ≡ length self.now.roots }
        ensures few { result ≤ 2 ^ 31 }
    {
        self.atoms
    }

    /// How long the trail is.
    #[inline(always)]
    pub fn len(&self) -> usize
        ensures len { result ≡ length self.now.trail }
        ensures few { result ≤ length self.now.roots }
    {
        self.len
    }

    /// Forgets all but the first so many literals of the trail.
    #[inline(always)]
    pub fn undo(&mut self, len: usize)
        requires { len ≤ length self.old.trail }
        ensures { self.new ≡ record { roots = self.old.roots; trail = take len self.old.trail } }
    {
        self.len = len;
    }

    /// What is known of an atom.
    #[inline(always)]
    pub fn read(&self, atom: u32) -> Option<bool>
        ensures { result ≡ known (marks_of self.now) atom }
    {
        let at = atom as usize;
        if at >= self.atoms {
            return None;
        }
        let place = self.buffers.place(at) as usize;
        if place >= self.len {
            return self.roots.read(self.atoms, atom);
        }
        let entry = self.buffers.entry(place) as usize;
        if entry / 2 != at {
            return self.roots.read(self.atoms, atom);
        }
        Some(entry % 2 == 1)
    }

    // Puts on the trail what the entries of the list from this place on denote, unless it is known
    // to be true, up to one that denotes no literal, or one whose opposite is true.
    pub(crate) fn force_run(&mut self, entries: &[u32], from: usize) -> RunEnd
        ensures followed { IsFollowed (AreTrueBehind entries.now from) self.old self.new
            result.holds }
        ensures after { from ≤ result.index }
        ensures known { result.holds ≡ true
            → AreKnownEntries (marks_of self.new) entries.now from result.index }
    {
        // The entry that denotes no literal is that of the last atom that there can be.
        if self.atoms > MOST_ATOMS {
            return RunEnd {
                index: from,
                len: self.len,
                holds: true,
            };
        }
        let end = self
            .buffers
            .force_each(entries, from, self.atoms, &self.roots, self.len);
        self.len = end.len;
        end
    }

    // Whether the literal stands on the trail. It may be known to be true where it doesn't.
    #[inline(always)]
    pub(crate) fn has_found(&self, literal: Literal) -> bool
        ensures { result ≡ true
            → known (marks_of self.now) literal.atom ≡ Some literal.positive }
    {
        let at = literal.atom as usize;
        if at >= self.atoms {
            return false;
        }
        let place = self.buffers.place(at) as usize;
        if place >= self.len {
            return false;
        }
        let entry = self.buffers.entry(place) as usize;
        if entry / 2 != at {
            return false;
        }
        (entry % 2 == 1) == literal.positive
    }

    /// Puts a literal on the trail, of whose atom nothing is known.
    #[inline(always)]
    pub fn write(&mut self, literal: Literal)
        requires atom { literal.atom < length self.old.roots }
        requires unknown { known (marks_of self.old) literal.atom ≡ None }
        ensures { self.new
            ≡ record { roots = self.old.roots; trail = self.old.trail ++ literal ∷ [] } }
    {
        self.buffers
            .set_place(literal.atom as usize, self.len as u32);
        let entry = literal.atom * 2 + literal.positive as u32;
        self.buffers.set_entry(self.len, entry);
        self.len += 1;
    }

    /// The literal at this place of the trail.
    #[inline(always)]
    pub fn get(&self, place: usize) -> Literal
        requires { place < length self.now.trail }
        ensures here { slice_get self.now.trail place ≡ Some result }
        ensures below { result.atom < length self.now.roots }
    {
        self.get_known(place)
    }

    // The same, with what is known of its atom: that it is true.
    #[inline(always)]
    pub(crate) fn get_known(&self, place: usize) -> Literal
        requires { place < length self.now.trail }
        ensures here { slice_get self.now.trail place ≡ Some result }
        ensures below { result.atom < length self.now.roots }
        ensures known { known (marks_of self.now) result.atom ≡ Some result.positive }
    {
        let entry = self.buffers.entry(place);
        Literal {
            atom: entry / 2,
            positive: entry % 2 == 1,
        }
    }

    /// The places at which the last look into the clause at this place ended, or any others.
    #[inline(always)]
    pub(crate) fn watch(&self, clause: usize) -> Watch {
        let watches = &*self.watches;
        if clause >= watches.len() / 2 {
            return Watch {
                first: usize::MAX,
                second: 0,
            };
        }
        Watch {
            first: watches[2 * clause] as usize,
            second: watches[2 * clause + 1] as usize,
        }
    }

    /// Remembers at which places a look into the clause at this place ended, if there is room.
    #[inline(always)]
    pub(crate) fn remember(&mut self, clause: usize, watch: Watch)
        ensures { self.new ≡ self.old }
    {
        if clause < self.watches.len() / 2 {
            self.watches[2 * clause] = entry_of(watch.first);
            self.watches[2 * clause + 1] = entry_of(watch.second);
        }
    }

    /// Makes it the state with what is known put over it, in which each atom of which nothing is
    /// known has this value.
    pub(crate) fn fill(&self, value: bool, state: &mut State)
        requires { length state.old ≡ length self.now.roots }
        ensures { state.new ≡ filled value (marks_of self.now) }
    {
        for atom in 0..state.atoms() {
            state.set(atom, self.read(atom).unwrap_or(value));
        }
    }
}

// A place as an entry. One that is too large becomes another one.
#[inline(always)]
fn entry_of(place: usize) -> u32 {
    place.min(u32::MAX as usize) as u32
}
